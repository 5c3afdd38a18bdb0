//! What is removed from a real folder, and what is not: a plain file behind no link, and nothing else; and that it counts as removed only once its
//! folder is synced. What is wanted is what the folder itself then holds.
use super::deeds::Act::{File, Find, Folder, Link, Remove, Size, Unlink};
use super::deeds::Said::{Done, Failed, Nothing};
use super::deeds::{Act, Deed, Said, do_act, do_all};
use super::grid::Who::{Beside, Deleting, One};
use super::grid::{OWN_PART, PARTS, Row, ask, clear, go_on, play, refusing_to_delete};
use std::alloc::{Alloc, Global};
use std::fs::{self, Files};
use std::process::Abort;
use std::test::Fail;

const FILE: &str = "grid/https:,,b.example:8443/f";

const LOWER_FILE: &str = "grid/https:,,b.example:8443/a/b/f";

const LINK: &str = "grid/https:,,b.example:8443/out-f";

const FOLDER_LINK: &str = "grid/https:,,b.example:8443/out";

const SIBLING_LINK: &str = "grid/https:,,b.example:8443/to-f";

const LOWER: &str = "grid/https:,,b.example:8443/a/b";

const BESIDE_PARTS: &str = "grid/https:,,b.example:8443/.fts/other";

/// Files in folders and links to some of them; one file and its folder are outside of the endpoint's own.
const FILL: [Deed; 11] = [
    ("a folder outside", Folder, "grid/outside", ""),
    ("two folders above each other", Folder, LOWER, ""),
    ("that of the parts", Folder, PARTS, ""),
    ("a file outside", File, "grid/outside/f", "out"),
    ("a file", File, FILE, "abc"),
    ("a file in folders", File, LOWER_FILE, "abc"),
    ("a part", File, OWN_PART, "abc"),
    ("a file beside it", File, BESIDE_PARTS, "abc"),
    ("a link to the file outside", Link, "../outside/f", LINK),
    ("a link to its folder", Link, "../outside", FOLDER_LINK),
    ("a link to a file beside it", Link, "f", SIBLING_LINK),
];

/// All names but those of the two files and of the part, of which the rows of a test speak.
const OTHERS: [Deed; 6] = [
    ("the file outside is left", Find, "grid/outside/f", ""),
    ("the link to it is left", Find, LINK, ""),
    ("the link to its folder is left", Find, FOLDER_LINK, ""),
    ("the link to a file is left", Find, SIBLING_LINK, ""),
    ("the file beside the parts is left", Find, BESIDE_PARTS, ""),
    ("the folders are left", Find, LOWER, ""),
];

/// Takes these steps over the filled grid, behind which all others are left.
fn leave_others<R: Files<File = fs::File> + Alloc<A = Global> + Abort>(
    rt: &R,
    rows: &[Row],
) -> Result<(), Fail> {
    clear(rt);
    do_all(rt, &FILL);
    go_on(rt, rows)?;
    do_all(rt, &OTHERS);
    clear(rt);
    Ok(())
}

const A_FILE: [Row; 6] = [
    ("its size", Deleting, Size, "f", "abc", Done),
    ("it is removed", Deleting, Remove, "f", "", Done),
    ("its name is gone", Beside, Find, FILE, "", Nothing),
    ("its namesake is left", Beside, Find, LOWER_FILE, "", Done),
    ("the part is left", Beside, Find, OWN_PART, "", Done),
    ("there is none now", Deleting, Size, "f", "", Nothing),
];

#[test]
fn a_file_goes_and_nothing_else(rt: HostRuntime) -> Result<(), Fail> {
    leave_others(&rt, &A_FILE)
}

const A_LOWER_FILE: [Row; 4] = [
    ("it is removed", Deleting, Remove, "a/b/f", "", Done),
    ("its name is gone", Beside, Find, LOWER_FILE, "", Nothing),
    ("its namesake is left", Beside, Find, FILE, "", Done),
    ("the part is left", Beside, Find, OWN_PART, "", Done),
];

#[test]
fn a_file_in_folders_goes_and_the_folders_stay(rt: HostRuntime) -> Result<(), Fail> {
    leave_others(&rt, &A_LOWER_FILE)
}

const A_FOLDER: [Row; 5] = [
    ("it has no size", Deleting, Size, "a/b", "", Failed),
    ("nor is it removed", Deleting, Remove, "a/b", "", Failed),
    ("what is in it is left", Beside, Find, LOWER_FILE, "", Done),
    ("it is made empty", Beside, Unlink, LOWER_FILE, "", Done),
    ("nor is it removed now", Deleting, Remove, "a/b", "", Failed),
];

#[test]
fn a_folder_is_not_removed(rt: HostRuntime) -> Result<(), Fail> {
    leave_others(&rt, &A_FOLDER)
}

const NO_NAMES: [Row; 6] = [
    ("no such name is there", Deleting, Remove, "none", "", Done),
    ("no such folder", Deleting, Size, "a/none/f", "", Nothing),
    ("nor a file in it", Deleting, Remove, "a/none/f", "", Done),
    ("a path through a file", Deleting, Size, "f/x", "", Nothing),
    ("nor a file behind it", Deleting, Remove, "f/x", "", Done),
    ("that file is left", Beside, Find, FILE, "", Done),
];

#[test]
fn names_that_are_not_there_are_gone(rt: HostRuntime) -> Result<(), Fail> {
    leave_others(&rt, &NO_NAMES)
}

const LINKS: [Row; 6] = [
    ("a link to one outside", Deleting, Size, "out-f", "", Failed),
    ("it isn't removed", Deleting, Remove, "out-f", "", Failed),
    ("a link to one beside", Deleting, Size, "to-f", "", Failed),
    ("nor is this one", Deleting, Remove, "to-f", "", Failed),
    ("nor one to a folder", Deleting, Remove, "out", "", Failed),
    ("the file beside it is left", Beside, Find, FILE, "", Done),
];

#[test]
fn a_link_is_not_removed(rt: HostRuntime) -> Result<(), Fail> {
    leave_others(&rt, &LINKS)
}

const BEHIND_A_LINK: [Row; 4] = [
    ("a file isn't told", Deleting, Size, "out/f", "", Failed),
    ("nor removed", Deleting, Remove, "out/f", "", Failed),
    ("nor told as none", Deleting, Size, "out/none", "", Failed),
    ("nor told as gone", Deleting, Remove, "out/none", "", Failed),
];

#[test]
fn nothing_behind_a_link_is_told_or_removed(rt: HostRuntime) -> Result<(), Fail> {
    leave_others(&rt, &BEHIND_A_LINK)
}

const AMONG_PARTS: [Row; 5] = [
    ("no part is told", Deleting, Size, ".fts/part-1", "", Failed),
    ("nor removed", Deleting, Remove, ".fts/part-1", "", Failed),
    ("nor a file there", Deleting, Size, ".fts/other", "", Failed),
    ("or removed", Deleting, Remove, ".fts/other", "", Failed),
    ("the part is left", Beside, Find, OWN_PART, "", Done),
];

#[test]
fn nothing_among_the_parts_is_removed_for_deletions(rt: HostRuntime) -> Result<(), Fail> {
    leave_others(&rt, &AMONG_PARTS)
}

const BY_A_SERVICE: [Row; 5] = [
    ("a link is not removed", One, Remove, "out-f", "", Failed),
    ("nor what lies behind one", One, Remove, "out/f", "", Failed),
    ("the part is left", Beside, Find, OWN_PART, "", Done),
    ("a part is removed", One, Remove, ".fts/part-1", "", Done),
    ("its name is gone", Beside, Find, OWN_PART, "", Nothing),
];

#[test]
fn a_service_removes_parts_and_nothing_behind_a_link(rt: HostRuntime) -> Result<(), Fail> {
    leave_others(&rt, &BY_A_SERVICE)
}

const AWAY: [Row; 3] = [
    ("it is not told", Deleting, Size, "f", "", Failed),
    ("nor removed", Deleting, Remove, "f", "", Failed),
    ("and no folder is made", Beside, Find, "grid", "", Nothing),
];

// The endpoint's own folder may lie on a file system that is not mounted.
#[test]
fn an_endpoint_whose_folder_is_away_has_no_file_that_is_gone(rt: HostRuntime) -> Result<(), Fail> {
    play(&rt, &AWAY)
}

/// What is asked of a store for deletions about a file where the call of this number is refused, what it says, and whether the file's name is there behind it.
type Refused = (&'static str, usize, Act, Said, Said);

/// Whether a new store says so.
fn says_so<R: Files<File = fs::File> + Alloc<A = Global>>(
    rt: &R,
    refused: usize,
    act: Act,
    want: Said,
) -> Result<bool, Fail> {
    let mut store = refusing_to_delete(rt, rt.alloc(), refused)?;
    Ok(ask(&mut store, act, "f", "") == want)
}

/// Asks each of these over the filled grid.
fn ask_refused<R: Files<File = fs::File> + Alloc<A = Global> + Abort>(
    rt: &R,
    rows: &[Refused],
) -> Result<(), Fail> {
    clear(rt);
    do_all(rt, &FILL);
    for (case, refused, act, want, there) in rows {
        let is_so = says_so(rt, *refused, *act, *want)?;
        let is_left = do_act(rt, Find, FILE, "") == *there;
        assert!(rt; is_so && is_left, "{case}");
    }
    clear(rt);
    Ok(())
}

// The calls of a removal: the endpoint's own folder, each folder by its name, the file by its name, the name taken away, the folder opened, synced.
const BEFORE_THE_REMOVAL: [Refused; 4] = [
    ("the folder", 1, Remove, Failed, Done),
    ("the file", 2, Remove, Failed, Done),
    ("the removal", 3, Remove, Failed, Done),
    ("there is no sixth", 6, Remove, Done, Nothing),
];

#[test]
fn a_refusal_before_the_removal_leaves_the_file(rt: HostRuntime) -> Result<(), Fail> {
    ask_refused(&rt, &BEFORE_THE_REMOVAL)
}

// A name that is taken away comes back with a power cut until its folder is synced.
const BEHIND_THE_REMOVAL: [Refused; 4] = [
    ("the sync", 5, Remove, Failed, Nothing),
    ("a look syncs", 4, Size, Failed, Nothing),
    ("a removal too", 4, Remove, Failed, Nothing),
    ("it is synced", 5, Size, Nothing, Nothing),
];

#[test]
fn a_removal_is_told_only_once_it_is_synced(rt: HostRuntime) -> Result<(), Fail> {
    ask_refused(&rt, &BEHIND_THE_REMOVAL)
}

const OPENED: [Refused; 4] = [
    ("the opening", 4, Remove, Failed, Nothing),
    ("a look opens it", 3, Size, Failed, Nothing),
    ("a removal too", 3, Remove, Failed, Nothing),
    ("it is synced", 5, Remove, Done, Nothing),
];

#[test]
fn a_folder_that_can_not_be_opened_is_not_synced(rt: HostRuntime) -> Result<(), Fail> {
    ask_refused(&rt, &OPENED)
}
