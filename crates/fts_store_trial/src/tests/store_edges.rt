//! A store in a folder where something else works on it too: another run over the same grid, a file put in a part's place, a call of the
//! system that fails, an endpoint's own folder that goes away. What a row wants is what the folder itself then holds.
use super::deeds::Act::{
    Create, File, Find, Folder, Holds, Link, Meet, Move, Put, Remove, Rename, Shut, Size, Sweep,
    Unlink, Write,
};
use super::deeds::Said::{Done, Failed, Nothing};
use super::deeds::{Deed, do_all, has_rights, have_rights, holds};
use super::grid::Who::{Beside, One, Other};
use super::grid::{
    DEST, OWN, OWN_PART, PART, PARTS, Row, clear, go_on, is_put, play, refusing, store_of,
};
use fts_store::Store;
use std::alloc::{Alloc, Global};
use std::fs::{self, Files};
use std::process::Abort;
use std::test::Fail;

const F1: &str = "grid/https:,,b.example:8443/f1";

const F2: &str = "grid/https:,,b.example:8443/f2";

const F3: &str = "grid/https:,,b.example:8443/f3";

const TWO_STORES: [Row; 11] = [
    ("one writes its part", One, Write, "f1", "one", Done),
    ("the other can't make it", Other, Create, PART, "", Failed),
    ("nor take its name away", Other, Remove, PART, "", Failed),
    ("that changed nothing", One, Rename, PART, "f1", Done),
    ("now it has the name", Other, Put, "f2", "other", Done),
    ("the first has its own", Beside, Holds, F1, "one", Done),
    ("so has the other", Beside, Holds, F2, "other", Done),
    ("a part is left", One, Write, "f3", "again", Done),
    ("a look lets it go", One, Size, "f3", "", Nothing),
    ("a free part is made anew", Other, Put, "f3", "taken", Done),
    ("by that one", Beside, Holds, F3, "taken", Done),
];

#[test]
fn two_stores_over_one_grid_keep_their_parts_apart(rt: HostRuntime) -> Result<(), Fail> {
    play(&rt, &TWO_STORES)
}

const OTHER: &str = "grid/other";

const SWAPPED: [Row; 13] = [
    ("the folder is made", One, Create, "x", "", Done),
    ("a part is read back", One, Write, "d", "abcd", Done),
    ("another file is made", Beside, File, OTHER, "other", Done),
    ("it replaces the part", Beside, Move, OTHER, OWN_PART, Done),
    ("the destination is free", One, Rename, PART, "d", Failed),
    ("nothing is put there", Beside, Find, DEST, "", Nothing),
    ("another part is made", One, Create, "x", "", Done),
    ("a destination is there", Beside, File, DEST, "there", Done),
    ("a second part is read back", One, Write, "d", "abcd", Done),
    ("another is made again", Beside, File, OTHER, "other", Done),
    ("it replaces that part", Beside, Move, OTHER, OWN_PART, Done),
    ("a replacement fails too", One, Rename, PART, "d", Failed),
    ("it is kept", Beside, Holds, DEST, "there", Done),
];

#[test]
fn what_is_moved_is_what_was_read_back(rt: HostRuntime) -> Result<(), Fail> {
    play(&rt, &SWAPPED)
}

/// What came of a file that is put where a call may be refused.
#[derive(Clone, Copy, PartialEq, Eq)]
enum Tried {
    /// No call was refused, and it is there.
    Done,
    /// It failed and left no name, and the next try put it there.
    Again,
    Wrong,
}

const TRIED: &str = "grid/https:,,b.example:8443/a/d";

fn put_again<R: Files<File = fs::File> + Alloc, E: Store>(rt: &R, store: &mut E) -> Tried {
    let is_free = holds(rt, TRIED, "");
    if is_free && is_put(store, "a/d", "abcd") && holds(rt, TRIED, "abcd") {
        Tried::Again
    } else {
        Tried::Wrong
    }
}

fn try_to_put<R: Files<File = fs::File> + Alloc, E: Store>(rt: &R, store: &mut E) -> Tried {
    if !is_put(store, "a/d", "abcd") {
        return put_again(rt, store);
    }
    if holds(rt, TRIED, "abcd") {
        Tried::Done
    } else {
        Tried::Wrong
    }
}

fn try_refused<R: Files<File = fs::File> + Alloc<A = Global>>(
    rt: &R,
    call: usize,
) -> Result<Tried, Fail> {
    clear(rt);
    let mut store = refusing(rt, rt.alloc(), call)?;
    Ok(try_to_put(rt, &mut store))
}

// Each call of a move into a new folder in turn is refused: that is told, leaves no destination, and spoils no second try.
#[test]
fn a_move_that_failed_leaves_no_name_and_is_made_again(rt: HostRuntime) -> Result<(), Fail> {
    let mut failures = 0_u64;
    for call in 1..64 {
        let tried = try_refused(&rt, call)?;
        assert!(rt; tried != Tried::Wrong, "call {call} is refused");
        if tried == Tried::Again {
            failures = failures.saturating_add(1);
        }
    }
    assert!(rt; failures > 20, "calls failed: {failures}");
    clear(&rt);
    Ok(())
}

const AWAY: &str = "grid/away";

const GOES_AWAY: [Row; 18] = [
    ("the endpoint's own folder", Beside, Folder, OWN, "", Done),
    ("it is there at first", One, Put, "f1", "abcd", Done),
    ("a part is open", One, Write, "d", "abcd", Done),
    ("it goes away", Beside, Move, OWN, AWAY, Done),
    ("a move fails", One, Rename, PART, "d", Failed),
    ("a look fails", One, Size, "d", "", Failed),
    ("no part is made", One, Create, PART, "", Failed),
    ("nothing is removed", One, Remove, "d", "", Failed),
    ("it isn't made", Beside, Find, OWN, "", Nothing),
    ("another device answers", Beside, Link, "/proc", OWN, Done),
    ("no move is made on it", One, Rename, PART, "d", Failed),
    ("nor a look", One, Size, "d", "", Failed),
    ("nor a part", One, Create, PART, "", Failed),
    ("nor a removal", One, Remove, "d", "", Failed),
    ("the other device goes away", Beside, Unlink, OWN, "", Done),
    ("the folder comes back", Beside, Move, AWAY, OWN, Done),
    ("it is served again", One, Put, "d", "abcd", Done),
    ("the first file is there", Beside, Holds, F1, "abcd", Done),
];

#[test]
fn an_endpoint_that_goes_away_is_not_made_anew(rt: HostRuntime) -> Result<(), Fail> {
    play(&rt, &GOES_AWAY)
}

/// Whether a file with these rights is replaced by one that has them.
fn leaves_rights<R: Files<File = fs::File>, E: Store>(rt: &R, store: &mut E, rights: u32) -> bool {
    have_rights(rt, DEST, rights) && is_put(store, "d", "efgh") && has_rights(rt, DEST, rights)
}

fn leave_rights<R: Files<File = fs::File> + Abort, E: Store>(rt: &R, store: &mut E) {
    let is_first_put = is_put(store, "d", "abcd");
    assert!(rt; is_first_put, "a file is put");
    for rights in [0o600, 0o444, 0o755] {
        let are_left = leaves_rights(rt, store, rights);
        assert!(rt; are_left, "another has the rights {rights:o}");
    }
}

#[test]
fn a_replaced_file_leaves_its_rights(rt: HostRuntime) -> Result<(), Fail> {
    clear(&rt);
    let mut store = store_of(&rt, rt.alloc())?;
    leave_rights(&rt, &mut store);
    clear(&rt);
    Ok(())
}

const PART_2: &str = "grid/https:,,b.example:8443/.fts/part-2";

const PART_20: &str = "grid/https:,,b.example:8443/.fts/part-20";

const PART_3: &str = "grid/https:,,b.example:8443/.fts/part-3";

const PART_4: &str = "grid/https:,,b.example:8443/.fts/part-4";

const NO_PART: &str = "grid/https:,,b.example:8443/.fts/other";

const NO_NUMBER: &str = "grid/https:,,b.example:8443/.fts/part-";

const PART_2X: &str = "grid/https:,,b.example:8443/.fts/part-2x";

const NO_HYPHEN: &str = "grid/https:,,b.example:8443/.fts/part";

const X_PART_2: &str = "grid/https:,,b.example:8443/.fts/xpart-2";

/// A folder of parts, with what may stand there.
const FILL: [Deed; 11] = [
    ("the folder of parts", Folder, PART_3, ""),
    ("an empty folder", Folder, "grid/empty", ""),
    ("a file in the root", File, "grid/part-5", "a"),
    ("a part", File, PART_2, "a"),
    ("another", File, PART_20, "a"),
    ("what is none", File, NO_PART, "a"),
    ("no number", File, NO_NUMBER, "a"),
    ("more than one", File, PART_2X, "a"),
    ("no hyphen", File, NO_HYPHEN, "a"),
    ("a letter before", File, X_PART_2, "a"),
    ("a link", Link, "other", PART_4),
];

const SWEPT: [Row; 18] = [
    ("a part is held", One, Write, "f1", "held", Done),
    ("the first sweep", Other, Sweep, "", "", Done),
    ("what is held is left", Beside, Find, OWN_PART, "", Done),
    ("a part is swept", Beside, Find, PART_2, "", Nothing),
    ("so is another", Beside, Find, PART_20, "", Nothing),
    ("a folder is left", Beside, Find, PART_3, "", Done),
    ("a link is left", Beside, Find, PART_4, "", Done),
    ("what is none is left", Beside, Find, NO_PART, "", Done),
    ("no number is left", Beside, Find, NO_NUMBER, "", Done),
    ("more than one is left", Beside, Find, PART_2X, "", Done),
    ("no hyphen is left", Beside, Find, NO_HYPHEN, "", Done),
    ("a letter before is left", Beside, Find, X_PART_2, "", Done),
    ("the root's is left", Beside, Find, "grid/part-5", "", Done),
    ("what is held is whole", One, Rename, PART, "f1", Done),
    ("another is left", One, Write, "f2", "left", Done),
    ("by a look", One, Size, "f2", "", Nothing),
    ("the next sweep", Other, Sweep, "", "", Done),
    ("takes it", Beside, Find, OWN_PART, "", Nothing),
];

#[test]
fn a_sweep_takes_what_no_run_holds(rt: HostRuntime) -> Result<(), Fail> {
    clear(&rt);
    do_all(&rt, &FILL);
    go_on(&rt, &SWEPT)?;
    clear(&rt);
    Ok(())
}

/// Whether one of two parts at most is left, and each other file.
fn is_one_left_at_most<R: Files<File = fs::File>>(rt: &R) -> bool {
    let is_one = is_gone(rt, PART_2) || is_gone(rt, PART_20);
    is_one && !is_gone(rt, NO_PART)
}

/// Whether a sweep is done where this call is refused.
fn is_swept<R: Files<File = fs::File> + Alloc<A = Global>>(
    rt: &R,
    call: usize,
) -> Result<bool, Fail> {
    let mut store = refusing(rt, rt.alloc(), call)?;
    Ok(store.sweep().is_ok())
}

fn is_gone<R: Files<File = fs::File>>(rt: &R, path: &str) -> bool {
    fs::symlink_metadata(rt, path).is_err()
}

// Each call of a sweep in turn is refused: what it was made for is left, and all else is swept.
#[test]
fn a_refused_call_leaves_one_part_at_most(rt: HostRuntime) -> Result<(), Fail> {
    for call in 5..16 {
        clear(&rt);
        do_all(&rt, &FILL);
        let is_so = is_swept(&rt, call)? && is_one_left_at_most(&rt);
        assert!(rt;
            is_so,
            "one of two is swept, and no other file, call {call}"
        );
    }
    clear(&rt);
    Ok(())
}

const MET: [Row; 10] = [
    ("the endpoint's own folder", Beside, Folder, OWN, "", Done),
    ("a file", Beside, File, "grid/a-file", "no folder", Done),
    ("a store looks at all folders", Other, Meet, "", "", Done),
    ("the folder goes away", Beside, Move, OWN, AWAY, Done),
    ("what is gone isn't made", Other, Create, PART, "", Failed),
    ("nor told as empty", Other, Size, "f1", "", Failed),
    ("it is still gone", Beside, Find, OWN, "", Nothing),
    ("the folder comes back", Beside, Move, AWAY, OWN, Done),
    ("it is served again", Other, Put, "f1", "abcd", Done),
    ("one that met none makes it", One, Put, "f2", "ab", Done),
];

#[test]
fn a_store_that_met_all_misses_a_folder_that_went_away(rt: HostRuntime) -> Result<(), Fail> {
    play(&rt, &MET)
}

const SHUT_PART: [Row; 8] = [
    ("the folder of parts", Beside, Folder, PARTS, "", Done),
    ("a part is left", Beside, File, OWN_PART, "left", Done),
    ("it may only be read", Beside, Shut, OWN_PART, "", Done),
    ("a part is made in its place", One, Put, "f1", "abcd", Done),
    ("another is left", Beside, File, OWN_PART, "left", Done),
    ("it too may only be read", Beside, Shut, OWN_PART, "", Done),
    ("it is removed", One, Remove, PART, "", Done),
    ("it is gone", Beside, Find, OWN_PART, "", Nothing),
];

#[test]
fn a_part_that_may_only_be_read_is_no_hindrance(rt: HostRuntime) -> Result<(), Fail> {
    play(&rt, &SHUT_PART)
}
