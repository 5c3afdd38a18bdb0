//! Stores: calls with ample memory, which calls fail and which appends lose a byte, and real folders.
use super::copy::place;
use super::deeds::Act::{
    Append, Create, End, File, Folder, Holds, Link, Read, ReadOn, Refuse, Remove, Rename, Size,
    Unlink,
};
use super::deeds::Said::{Done, Failed, Nothing};
use super::grid::Who::{Beside, One};
use super::grid::{Asked, DEST, ENDPOINT, OWN_PART, PART, PARTS, Row, ask_all, play};
use fts_store::{MemoryStore, StoredFile};
use fts_tables::{Items, Memory};
use std::alloc::Global;
use std::process::Abort;
use std::test::Fail;

/// A file `data/f1` that holds `abc`.
fn given(alloc: Global) -> Result<Items<StoredFile>, Memory> {
    let mut files = Vec::new(alloc);
    let file = StoredFile {
        place: place(alloc, ENDPOINT, "data/f1")?,
        bytes: Items::from_vec(b"abc".to_vec(alloc)?),
    };
    if files.push(file).is_err() {
        return Err(Memory);
    }
    Ok(Items::from_vec(files))
}

/// A store that holds it, with these calls that fail and these appends that lose a byte.
fn holding(alloc: Global, fail: &[u32], drop: &[u32]) -> Result<MemoryStore, Memory> {
    let fail = fail.to_vec(alloc)?;
    let drop = drop.to_vec(alloc)?;
    Ok(MemoryStore::new(alloc, given(alloc)?, fail, drop))
}

const EACH_CALL: [Asked; 12] = [
    ("a file has its size", Size, "data/f1", "abc", Done),
    ("another place has none", Size, "store/f1", "", Nothing),
    ("a part is made", Create, "part", "", Done),
    ("it is extended", Append, "part", "ab", Done),
    ("and once more", Append, "part", "cd", Done),
    ("it is read behind one byte", ReadOn, "part", "bcd", Done),
    ("it replaces the file", Rename, "part", "data/f1", Done),
    ("no part is left", Size, "part", "", Nothing),
    ("the file has its size", Size, "data/f1", "abcd", Done),
    ("and its bytes", Read, "data/f1", "abcd", Done),
    ("the file is removed", Remove, "data/f1", "", Done),
    ("there is none", Size, "data/f1", "", Nothing),
];

#[test]
fn a_store_in_memory_does_each_call(rt: HostRuntime) -> Result<(), Fail> {
    let mut store = holding(rt.alloc(), &[], &[])?;
    ask_all(&rt, &mut store, &EACH_CALL);
    Ok(())
}

const LISTED_CALLS: [Asked; 7] = [
    ("call 1 is done", Create, "part", "", Done),
    ("call 2 fails", Append, "part", "abc", Failed),
    ("call 3 is append 2", Append, "part", "abc", Done),
    ("append 2 loses a byte", Size, "part", "ab", Done),
    ("call 5 fails", Size, "part", "", Failed),
    ("call 6 is append 3", Append, "part", "d", Done),
    ("append 3 loses none", Size, "part", "abc", Done),
];

#[test]
fn listed_calls_fail_and_listed_appends_lose_a_byte(rt: HostRuntime) -> Result<(), Fail> {
    let mut store = holding(rt.alloc(), &[2, 5], &[2])?;
    ask_all(&rt, &mut store, &LISTED_CALLS);
    Ok(())
}

const LOOKS: [Asked; 4] = [("a look", Size, "data/f1", "abc", Done); 4];

const ROUND: [Asked; 5] = [
    ("a part is made", Create, "part", "", Done),
    ("it is extended", Append, "part", "ab", Done),
    ("it is moved", Rename, "part", "file", Done),
    ("what isn't there is removed", Remove, "other", "", Done),
    ("the file has its size", Size, "file", "ab", Done),
];

/// Asks a store these looks, and behind them four rounds.
fn ask_rounds<R: Abort>(rt: &R, store: &mut MemoryStore, looks: &[Asked]) {
    ask_all(rt, store, looks);
    for _ in 0..4_u32 {
        ask_all(rt, store, &ROUND);
    }
}

// Behind 0 to 4 looks, so that each call has each number up to 20 once.
#[test]
fn calls_that_no_number_lists_are_done(rt: HostRuntime) -> Result<(), Fail> {
    for looks in 0..5_usize {
        let mut store = holding(rt.alloc(), &[], &[])?;
        ask_rounds(&rt, &mut store, &LOOKS[..looks]);
    }
    Ok(())
}

const BELOW: &str = "grid/https:,,b.example:8443/a/b/c";

/// What is moved: a part of two pieces, which is read from its second byte on.
const MOVED: [Row; 27] = [
    ("a part is made", One, Create, PART, "", Done),
    ("it gets a piece", One, Append, PART, "abc", Done),
    ("and another", One, Append, PART, "d", Done),
    ("it is read", One, ReadOn, PART, "bcd", Done),
    ("it moves to new folders", One, Rename, PART, "a/b/c", Done),
    ("it has its size", One, Size, "a/b/c", "abcd", Done),
    ("nothing is behind it", One, End, "a/b/c", "abcd", Done),
    ("no part is left", One, Size, PART, "", Nothing),
    ("a second one is made", One, Create, PART, "", Done),
    ("the second gets a piece", One, Append, PART, "efg", Done),
    ("the second gets another", One, Append, PART, "h", Done),
    ("the second is read", One, ReadOn, PART, "fgh", Done),
    ("the second replaces it", One, Rename, PART, "a/b/c", Done),
    ("the second has its size", One, Size, "a/b/c", "abcd", Done),
    ("nothing is behind it now", One, End, "a/b/c", "abcd", Done),
    ("no second part is left", One, Size, PART, "", Nothing),
    ("the second one is held", Beside, Holds, BELOW, "efgh", Done),
    ("a third one is made", One, Create, PART, "", Done),
    ("the third gets a piece", One, Append, PART, "ijk", Done),
    ("the third gets another", One, Append, PART, "l", Done),
    ("the third is read", One, ReadOn, PART, "jkl", Done),
    ("it moves to the top folder", One, Rename, PART, "d", Done),
    ("the third has its size", One, Size, "d", "abcd", Done),
    ("nothing is behind the third", One, End, "d", "abcd", Done),
    ("no third part is left", One, Size, PART, "", Nothing),
    ("a file is removed", One, Remove, "d", "", Done),
    ("it is gone", One, Size, "d", "", Nothing),
];

#[test]
fn a_folder_keeps_what_is_moved_into_it(rt: HostRuntime) -> Result<(), Fail> {
    play(&rt, &MOVED)
}

const LONG: &str =
    "xxxxxxxxxxxxxxxxxxxxxxxxxxxxxxxxxxxxxxxxxxxxxxxxxxxxxxxxxxxxxxxxxxxxxxxxxxxxxxxxxxxxxxxxxxxxxxxxxxxx\
     xxxxxxxxxxxxxxxxxxxxxxxxxxxxxxxxxxxxxxxxxxxxxxxxxxxxxxxxxxxxxxxxxxxxxxxxxxxxxxxxxxxxxxxxxxxxxxxxxxxx\
     xxxxxxxxxxxxxxxxxxxxxxxxxxxxxxxxxxxxxxxxxxxxxxxxxxxxxxxxxxxxxxxxxxxxxxxxxxxxxxxxxxxxxxxxxxxxxxxxxxxx";

/// Paths that are no file of the folder, each asked for its size, for all that makes a file of it, and to be removed.
const NO_FILES: [Row; 22] = [
    ("a file is made", One, Create, "a/file", "", Done),
    ("a folder is there", One, Size, "a", "", Failed),
    ("a folder is no file", One, Refuse, "a", "", Done),
    ("a folder isn't removed", One, Remove, "a", "", Failed),
    ("its folder is a file", One, Size, "a/file/b", "", Nothing),
    ("nothing is made in it", One, Refuse, "a/file/b", "", Done),
    ("nothing is below a file", One, Remove, "a/file/b", "", Done),
    ("a name that is too long", One, Size, LONG, "", Failed),
    ("it names no file", One, Refuse, LONG, "", Done),
    ("it isn't removed", One, Remove, LONG, "", Failed),
    ("a path out of the folder", One, Size, "../x", "", Failed),
    ("it leads to no file", One, Refuse, "../x", "", Done),
    ("nothing there is removed", One, Remove, "../x", "", Failed),
    ("an empty part", One, Size, "a//b", "", Failed),
    ("a path with it is no file's", One, Refuse, "a//b", "", Done),
    ("nothing is removed by it", One, Remove, "a//b", "", Failed),
    ("no such name", One, Size, "b", "", Nothing),
    ("the file is as it was", One, Size, "a/file", "", Done),
    ("a folder isn't moved", One, Rename, "a", "b", Failed),
    ("nor is a whole file", One, Rename, "a/file", "b", Failed),
    ("what isn't there can't grow", One, Append, "b", "x", Failed),
    ("nor can a whole file", One, Append, "a/file", "x", Failed),
];

#[test]
fn a_folder_refuses_what_is_no_file_of_its_own(rt: HostRuntime) -> Result<(), Fail> {
    play(&rt, &NO_FILES)
}

const OUTSIDE: &str = "grid/outside";

/// The part is a link to a file outside of the folder at first.
const MADE_ANEW: [Row; 22] = [
    ("the folder of parts", Beside, Folder, PARTS, "", Done),
    ("a file outside", Beside, File, OUTSIDE, "kept", Done),
    ("a link", Beside, Link, "../../outside", OWN_PART, Done),
    ("nothing is at the destination", One, Size, "d", "", Nothing),
    ("a part takes the link's place", One, Create, PART, "", Done),
    ("it is extended", One, Append, PART, "abcd", Done),
    ("there was and is nothing", One, Rename, PART, "d", Done),
    ("it is held", Beside, Holds, DEST, "abcd", Done),
    ("it is taken away", Beside, Unlink, DEST, "", Done),
    ("nothing is there again", One, Size, "d", "", Nothing),
    ("another part is made", One, Create, PART, "", Done),
    ("the other is extended", One, Append, PART, "abcd", Done),
    ("a file appears there", Beside, File, DEST, "other", Done),
    ("there was nothing before", One, Rename, PART, "d", Failed),
    ("that file is kept", Beside, Holds, DEST, "other", Done),
    ("the target is kept", Beside, Holds, OUTSIDE, "kept", Done),
    ("a look at the file", One, Size, "d", "abcde", Done),
    ("a third part is made", One, Create, PART, "", Done),
    ("the third is extended", One, Append, PART, "abcd", Done),
    ("what was seen is replaced", One, Rename, PART, "d", Done),
    ("by that part", One, Size, "d", "abcd", Done),
    ("the target stays", Beside, Holds, OUTSIDE, "kept", Done),
];

#[test]
fn a_part_is_made_anew_and_replaces_what_was_looked_at_alone(rt: HostRuntime) -> Result<(), Fail> {
    play(&rt, &MADE_ANEW)
}
