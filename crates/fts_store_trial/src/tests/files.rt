//! What no clause says of the system's calls: that each call of the real files is the system's, by the number that it refuses with, and whole
//! moves over real files, by the letters of their calls. Expected numbers are those of Linux, and the letters are those of the order that
//! a move promises.
//! A test is its rows, or one question: a row of data costs next to nothing to prove.
use super::deeds::{has_rights, holds};
use super::files_noting::NotingFiles;
use fts_files::{
    Failed, FileSystem, Kind, OpenPart, Refused, Seen, SystemFiles, Way, match_whole, open_plain,
    open_source, read_some, read_whole, remove, size, write_whole,
};
use std::alloc::{Alloc, Global};
use std::fs::{self, File, Files, Permissions};
use std::io;
use std::os::fd::AsRawFd;
use std::os::unix::fs::{PermissionsExt, symlink};
use std::process::Abort;
use std::test::Fail;

const FOLDER: &str = "files-of-a-test";

const PART: &str = "files-of-a-test/part";

const DEST: &str = "files-of-a-test/dest";

const BELOW_PART: &str = "files-of-a-test/part/below";

const BELOW_DEST: &str = "files-of-a-test/dest/below";

fn clear<R: Files<File = File> + Alloc>(rt: &R) -> Result<(), Fail> {
    let _gone = fs::remove_dir_all(rt, FOLDER);
    fs::create_dir(rt, FOLDER)?;
    Ok(())
}

/// The folder, and in it a file of four bytes.
fn write_part<R: Files<File = File> + Alloc>(rt: &R) -> Result<(), Fail> {
    clear(rt)?;
    fs::write(rt, PART, "abcd")?;
    Ok(())
}

/// A call of the system: by a name or two, or on what is opened by a name.
#[derive(Clone, Copy)]
enum Asked {
    Link,
    Rename,
    Unlink,
    MakeFolder,
    Look,
    /// What is there is opened to be written.
    Open,
    Make,
    SyncData,
    SyncAll,
    Write,
    Read,
}

/// The number that a call is refused with; 0 where it is done.
fn errno_of<T: Drop>(answer: Result<T, Refused>) -> u32 {
    match answer {
        Ok(_) => 0,
        Err(refused) => refused.errno,
    }
}

fn read<F: FileSystem>(files: &mut F, file: &F::Handle) -> u32 {
    let mut into = [0; 4];
    errno_of(files.read_at(file, 0, &mut into))
}

fn ask_open<F: FileSystem>(files: &mut F, file: &F::Handle, asked: Asked) -> u32 {
    match asked {
        Asked::SyncData => errno_of(files.sync_data(file)),
        Asked::SyncAll => errno_of(files.sync_all(file)),
        Asked::Write => errno_of(files.write_at(file, 0, b"abcd")),
        Asked::Read => read(files, file),
        Asked::Link
        | Asked::Rename
        | Asked::Unlink
        | Asked::MakeFolder
        | Asked::Look
        | Asked::Open
        | Asked::Make => 0,
    }
}

fn open_and_ask<F: FileSystem>(files: &mut F, path: &str, way: Way, asked: Asked) -> u32 {
    match files.open(path, way) {
        Ok(file) => ask_open(files, &file, asked),
        Err(refused) => refused.errno,
    }
}

fn ask<F: FileSystem>(files: &mut F, asked: Asked, path: &str, new: &str) -> u32 {
    match asked {
        Asked::Link => errno_of(files.link(path, new)),
        Asked::Rename => errno_of(files.rename(path, new)),
        Asked::Unlink => errno_of(files.unlink(path)),
        Asked::MakeFolder => errno_of(files.make_folder(path)),
        Asked::Look => errno_of(files.look(path)),
        Asked::Make => open_and_ask(files, path, Way::New, asked),
        Asked::Open | Asked::Write => open_and_ask(files, path, Way::Write, asked),
        Asked::SyncData | Asked::SyncAll | Asked::Read => {
            open_and_ask(files, path, Way::Read, asked)
        }
    }
}

/// What is asked, as a sentence; the call, and its names; the number that is wanted.
type Question = (&'static str, Asked, &'static str, &'static str, u32);

/// Asks each of these, and wants these numbers.
fn ask_each<R: Abort, F: FileSystem>(rt: &R, files: &mut F, rows: &[Question]) {
    for (case, asked, path, new, errno) in rows {
        let is_so = ask(files, *asked, path, new) == *errno;
        assert!(rt; is_so, "{case}");
    }
}

fn ask_all<R: Files<File = File> + Alloc + Abort>(rt: &R, rows: &[Question]) -> Result<(), Fail> {
    write_part(rt)?;
    ask_each(rt, &mut SystemFiles::new(rt), rows);
    Ok(())
}

// A sync of what has no data is EINVAL, a write to a full device ENOSPC, a read of a folder EISDIR: a call that did nothing would say Ok.
const ON_OPEN: [Question; 5] = [
    ("a sync of data", Asked::SyncData, "/dev/null", "", 22),
    ("a sync of all", Asked::SyncAll, "/dev/null", "", 22),
    ("no room", Asked::Write, "/dev/full", "", 28),
    ("a folder", Asked::Read, FOLDER, "", 21),
    ("a folder is synced", Asked::SyncAll, FOLDER, "", 0),
];

#[test]
fn a_call_on_a_handle_is_the_systems(rt: HostRuntime) -> Result<(), Fail> {
    ask_all(&rt, &ON_OPEN)
}

const BY_NAME: [Question; 11] = [
    ("a link over a name", Asked::Link, PART, PART, 17),
    ("a folder over a name", Asked::MakeFolder, PART, "", 17),
    (
        "a folder below no folder",
        Asked::MakeFolder,
        BELOW_DEST,
        "",
        2,
    ),
    ("a name that isn't there", Asked::Unlink, DEST, "", 2),
    ("what isn't there is renamed", Asked::Rename, DEST, PART, 2),
    ("a folder's name", Asked::Unlink, FOLDER, "", 21),
    ("made where it is", Asked::Make, PART, "", 17),
    ("opened where it isn't", Asked::Open, DEST, "", 2),
    ("below a file is nothing", Asked::Look, BELOW_PART, "", 20),
    ("a folder is made", Asked::MakeFolder, DEST, "", 0),
    ("and is there, as a folder", Asked::Unlink, DEST, "", 21),
];

#[test]
fn a_call_by_a_name_is_the_systems(rt: HostRuntime) -> Result<(), Fail> {
    ask_all(&rt, &BY_NAME)
}

/// Whether of two openings the first gets the lock, and the other once the first is closed.
fn is_lock_of_one<F: FileSystem>(files: &mut F, one: F::Handle, other: F::Handle) -> bool {
    let is_held = files.lock(&one).is_ok() && errno_of(files.lock(&other)) == 11;
    drop(one);
    is_held && files.lock(&other).is_ok()
}

fn are_opened_and_locked<F: FileSystem>(files: &mut F, path: &str) -> bool {
    match (files.open(path, Way::Write), files.open(path, Way::Write)) {
        (Ok(one), Ok(other)) => is_lock_of_one(files, one, other),
        _ => false,
    }
}

#[test]
fn one_opening_holds_a_lock(rt: HostRuntime) -> Result<(), Fail> {
    write_part(&rt)?;
    let is_so = are_opened_and_locked(&mut SystemFiles::new(&rt), PART);
    assert!(rt; is_so, "another opening gets it once the first is closed");
    Ok(())
}

/// What a look sees; nothing where it is refused.
fn seen(answer: Result<Seen, Refused>) -> Option<Seen> {
    match answer {
        Ok(seen) => Some(seen),
        Err(_) => None,
    }
}

fn has_kind(seen: Option<Seen>, kind: Kind) -> bool {
    match seen {
        Some(seen) => seen.kind == kind,
        None => false,
    }
}

fn has_length(seen: Option<Seen>, len: u64) -> bool {
    match seen {
        Some(seen) => seen.len == len,
        None => false,
    }
}

fn are_one_file(one: Option<Seen>, other: Option<Seen>) -> bool {
    match (one, other) {
        (Some(one), Some(other)) => one.device == other.device && one.inode == other.inode,
        _ => false,
    }
}

fn are_on_one_device(one: Option<Seen>, other: Option<Seen>) -> bool {
    match (one, other) {
        (Some(one), Some(other)) => one.device == other.device,
        _ => false,
    }
}

#[test]
fn looks_tell_links_files_and_names_apart(rt: HostRuntime) -> Result<(), Fail> {
    write_part(&rt)?;
    symlink(&rt, "part", DEST)?;
    let mut files = SystemFiles::new(&rt);
    let through = seen(files.look(DEST));
    let name = seen(files.look_at_name(DEST));
    let part = seen(files.look_at_name(PART));
    let folder = seen(files.look(FOLDER));
    let is_file = has_kind(through, Kind::File) && has_length(through, 4);
    assert!(rt; is_file, "through a link a file of four bytes is seen");
    let is_so = are_one_file(through, part)
        && has_kind(name, Kind::Other)
        && are_on_one_device(name, part)
        && !are_one_file(name, part);
    assert!(rt;
        is_so,
        "it is the file of the other name, and at the name a link is seen"
    );
    let is_folder = has_kind(folder, Kind::Folder) && are_on_one_device(folder, part);
    assert!(rt; is_folder, "a folder is seen as one");
    Ok(())
}

/// Whether a path is told as no file: its size is a failure, and it isn't opened.
fn is_no_file<F: FileSystem>(files: &mut F, path: &str) -> bool {
    size(files, path) == Err(Failed) && open_plain(files, path).is_err()
}

/// Whether a pipe is told as none, which ends.
fn is_pipe_no_file<R: Files<File = File> + Alloc<A = Global>>(rt: &R) -> Result<bool, Fail> {
    let (reader, writer) = io::pipe(rt)?;
    drop(writer);
    let path = format!(in rt.alloc(); "/proc/self/fd/{}", reader.as_raw_fd())?;
    Ok(is_no_file(&mut SystemFiles::new(rt), path.as_str()))
}

fn is_told_as_absent<R: Files<File = File> + Drop>(rt: R) -> bool {
    size(&mut SystemFiles::new(rt), PART) == Ok(None)
}

fn is_told_as_failed<R: Files<File = File> + Drop>(rt: R, alloc: Global) -> bool {
    let mut files = noting_of(rt, alloc, 1, 5);
    size(&mut files, PART) == Err(Failed)
}

fn is_folder_no_file<R: Files<File = File> + Drop>(rt: R) -> bool {
    is_no_file(&mut SystemFiles::new(rt), FOLDER)
}

// What is refused isn't there only where the system says so; a pipe is no file, and looking at it ends.
#[test]
fn a_failure_is_no_absence(rt: HostRuntime) -> Result<(), Fail> {
    clear(&rt)?;
    let is_told = is_told_as_absent(&rt) && is_told_as_failed(&rt, rt.alloc());
    assert!(rt;
        is_told,
        "nothing has the name; an error of the device is no absence"
    );
    let is_none = is_folder_no_file(&rt) && is_pipe_no_file(&rt)?;
    assert!(rt; is_none, "neither a folder nor a pipe is a file");
    Ok(())
}

fn noting_of<R: Files<File = File> + Drop>(
    rt: R,
    alloc: Global,
    refuses_at: usize,
    errno: u32,
) -> NotingFiles<R> {
    NotingFiles {
        files: SystemFiles::new(rt),
        letters: Vec::new(alloc),
        refuses_at,
        refusals: 1,
        errno,
        most: 3,
    }
}

/// Seven bytes that are read three at a time into a buffer of so many bytes, where one call may be refused; how many are read, and by which calls.
struct ShortRead {
    case: &'static str,
    room: usize,
    refuses_at: usize,
    errno: u32,
    want: Result<usize, Failed>,
    letters: &'static str,
}

const SHORT_READS: [ShortRead; 5] = [
    ShortRead {
        case: "a buffer of five is full",
        room: 5,
        refuses_at: 0,
        errno: 0,
        want: Ok(5),
        letters: "lohrr",
    },
    ShortRead {
        case: "one of nine ends with the file",
        room: 9,
        refuses_at: 0,
        errno: 0,
        want: Ok(7),
        letters: "lohrrrr",
    },
    ShortRead {
        case: "one of none is full at once",
        room: 0,
        refuses_at: 0,
        errno: 0,
        want: Ok(0),
        letters: "loh",
    },
    ShortRead {
        case: "an interrupted read is repeated",
        room: 5,
        refuses_at: 5,
        errno: 4,
        want: Ok(5),
        letters: "lohrrr",
    },
    ShortRead {
        case: "an error is no end",
        room: 5,
        refuses_at: 5,
        errno: 5,
        want: Err(Failed),
        letters: "lohrr",
    },
];

fn read_from<F: FileSystem>(files: &mut F, path: &str, into: &mut [u8]) -> Result<usize, Failed> {
    match open_plain(files, path) {
        Ok(file) => read_whole(files, &file, 0, into),
        Err(Failed) => Err(Failed),
    }
}

/// Whether so many bytes are the first of the seven; an error tells none.
fn is_start(answer: Result<usize, Failed>, into: &[u8]) -> bool {
    match answer {
        Ok(count) => match into.get(..count) {
            Some(read) => b"abcdefg\0\0".starts_with(read),
            None => false,
        },
        Err(Failed) => true,
    }
}

fn is_read_so<R: Files<File = File> + Drop>(rt: R, alloc: Global, row: &ShortRead) -> bool {
    let mut files = noting_of(rt, alloc, row.refuses_at, row.errno);
    let mut into = [0; 9];
    let answer = read_from(&mut files, PART, &mut into[..row.room.min(9)]);
    answer == row.want
        && files.letters.as_slice() == row.letters.as_bytes()
        && is_start(answer, &into)
}

#[test]
fn a_buffer_is_filled_by_short_reads(rt: HostRuntime) -> Result<(), Fail> {
    clear(&rt)?;
    fs::write(&rt, PART, "abcdefg")?;
    for row in &SHORT_READS {
        let is_so = is_read_so(&rt, rt.alloc(), row);
        assert!(rt; is_so, "{}: so many bytes, by these calls", row.case);
    }
    Ok(())
}

/// Whether bytes are put behind two bytes, then in front of them, and found from the second on.
fn are_put_and_found<F: FileSystem>(files: &mut F, file: &F::Handle) -> bool {
    let mut into = [0; 9];
    write_whole(files, file, 2, b"cdef").is_ok()
        && write_whole(files, file, 0, b"ab").is_ok()
        && read_some(files, file, 1, &mut into) == Ok(5)
        && into.starts_with(b"bcdef")
        && files.forget(file).is_ok()
}

/// Whether what was written is found, and neither another byte nor one behind the end; and no file is as long as can be.
fn are_matched<F: FileSystem>(files: &mut F, file: &F::Handle) -> bool {
    match_whole(files, file, 2, b"cdef").is_ok()
        && match_whole(files, file, 2, b"cdeg").is_err()
        && match_whole(files, file, 2, b"cdefg").is_err()
        && write_whole(files, file, u64::MAX, b"ab").is_err()
}

fn are_put_in_a_new_file<F: FileSystem>(files: &mut F) -> bool {
    match files.open(PART, Way::New) {
        Ok(file) => are_put_and_found(files, &file) && are_matched(files, &file),
        Err(_) => false,
    }
}

#[test]
fn bytes_are_put_and_found_at_an_offset(rt: HostRuntime) -> Result<(), Fail> {
    clear(&rt)?;
    let is_so = are_put_in_a_new_file(&mut SystemFiles::new(&rt));
    assert!(rt; is_so, "behind two bytes, in front of them, and found so");
    Ok(())
}

/// Whether a file is removed, what isn't there too, and a folder isn't.
fn are_removed<F: FileSystem>(files: &mut F) -> bool {
    remove(files, PART).is_ok() && remove(files, PART).is_ok() && remove(files, FOLDER).is_err()
}

#[test]
fn what_is_removed_is_gone(rt: HostRuntime) -> Result<(), Fail> {
    write_part(&rt)?;
    let is_so = are_removed(&mut SystemFiles::new(&rt));
    assert!(rt;
        is_so,
        "a file is removed, as is what isn't there, and no folder"
    );
    assert!(rt; !fs::exists(&rt, PART)?, "the file is gone");
    Ok(())
}

/// The folders that a destination lies in, from the lowest up.
fn folders_of_dest(alloc: Global) -> Result<Vec<String>, Fail> {
    let mut folders = Vec::new(alloc);
    folders.push(String::from_str(alloc, FOLDER)?)?;
    folders.push(String::from_str(alloc, ".")?)?;
    Ok(folders)
}

// A part of `abcdefg` is made, written three bytes at a time, and moved. Gives whether all was done.
fn is_moved<F: FileSystem>(files: &mut F, folders: &[String], overwrite: bool) -> bool {
    match OpenPart::make(files, PART) {
        Ok(mut part) => {
            part.append(files, b"abcd").is_ok()
                && part.append(files, b"efg").is_ok()
                && part
                    .put_in_place(files, PART, DEST, folders, overwrite)
                    .is_ok()
        }
        Err(Failed) => false,
    }
}

/// A move where a call may be refused: whether it is done, by which calls, and what is at the destination behind it.
struct Move {
    case: &'static str,
    refuses_at: usize,
    errno: u32,
    overwrite: bool,
    is_done: bool,
    letters: &'static str,
    held: &'static str,
}

/// Whether a move is done as a row says.
fn is_moved_so<R: Files<File = File> + Alloc<A = Global>>(
    rt: &R,
    folders: &[String],
    row: &Move,
) -> bool {
    let mut files = noting_of(rt, rt.alloc(), row.refuses_at, row.errno);
    is_moved(&mut files, folders, row.overwrite) == row.is_done
        && files.letters.as_slice() == row.letters.as_bytes()
        && holds(rt, DEST, row.held)
}

/// What is at the destination before a move, with its rights; nothing where there are no bytes.
fn write_dest<R: Files<File = File> + Alloc>(rt: &R, bytes: &str) -> Result<(), Fail> {
    clear(rt)?;
    if !bytes.is_empty() {
        fs::write(rt, DEST, bytes)?;
        fs::set_permissions(rt, DEST, Permissions::from_mode(0o640))?;
    }
    Ok(())
}

/// Moves a part over these bytes, by each of these rows.
fn move_all<R: Files<File = File> + Alloc<A = Global> + Abort>(
    rt: &R,
    there: &str,
    rows: &[Move],
) -> Result<(), Fail> {
    let folders = folders_of_dest(rt.alloc())?;
    for row in rows {
        write_dest(rt, there)?;
        let is_so = is_moved_so(rt, folders.as_slice(), row);
        let are_rights_kept = there.is_empty() || has_rights(rt, DEST, 0o640);
        assert!(rt; is_so && are_rights_kept, "{}: by these calls", row.case);
    }
    Ok(())
}

const DONE: Move = Move {
    case: "no call is refused",
    refuses_at: 0,
    errno: 0,
    overwrite: false,
    is_done: true,
    letters: "nkhLwwwdh+L-osos",
    held: "abcdefg",
};

const DONE_MOVES: [Move; 7] = [
    DONE,
    Move {
        case: "a write is interrupted",
        refuses_at: 5,
        errno: 4,
        letters: "nkhLwwwwdh+L-osos",
        ..DONE
    },
    Move {
        case: "no link can be made",
        refuses_at: 10,
        errno: 1,
        letters: "nkhLwwwdh+LL>Losos",
        ..DONE
    },
    Move {
        case: "it may replace",
        overwrite: true,
        letters: "nkhLwwwdhLL>Losos",
        ..DONE
    },
    Move {
        case: "too many files are open",
        refuses_at: 1,
        errno: 24,
        letters: "nznkhLwwwdh+L-osos",
        ..DONE
    },
    Move {
        case: "in the whole system",
        refuses_at: 1,
        errno: 23,
        letters: "nznkhLwwwdh+L-osos",
        ..DONE
    },
    Move {
        case: "or behind the move",
        refuses_at: 13,
        errno: 24,
        letters: "nkhLwwwdh+L-ozosos",
        ..DONE
    },
];

const REPLACED: Move = Move {
    overwrite: true,
    errno: 5,
    letters: "nkhLwwwdhLcL>Losos",
    ..DONE
};

const REPLACING_MOVES: [Move; 3] = [
    REPLACED,
    Move {
        case: "the look is refused",
        refuses_at: 10,
        is_done: false,
        letters: "nkhLwwwdhL",
        held: "old",
        ..REPLACED
    },
    Move {
        case: "the rights are refused",
        refuses_at: 11,
        is_done: false,
        letters: "nkhLwwwdhLc",
        held: "old",
        ..REPLACED
    },
];

const FAILED: Move = Move {
    case: "a write finds no room",
    refuses_at: 6,
    errno: 28,
    overwrite: false,
    is_done: false,
    letters: "nkhLww",
    held: "",
};

const FAILED_MOVES: [Move; 6] = [
    FAILED,
    Move {
        case: "the part isn't synced",
        refuses_at: 8,
        errno: 5,
        letters: "nkhLwwwd",
        ..FAILED
    },
    Move {
        case: "the link fails",
        refuses_at: 10,
        errno: 5,
        letters: "nkhLwwwdh+",
        ..FAILED
    },
    Move {
        case: "the part keeps its name",
        refuses_at: 12,
        errno: 5,
        letters: "nkhLwwwdh+L--",
        ..FAILED
    },
    Move {
        case: "a folder isn't synced",
        refuses_at: 14,
        errno: 5,
        letters: "nkhLwwwdh+L-os-",
        ..FAILED
    },
    Move {
        case: "nor is the one above it",
        refuses_at: 16,
        errno: 5,
        letters: "nkhLwwwdh+L-osos-",
        ..FAILED
    },
];

#[test]
fn a_move_is_done_by_these_calls(rt: HostRuntime) -> Result<(), Fail> {
    move_all(&rt, "", &DONE_MOVES)
}

// What is replaced leaves its rights: no other call is made, and a refused one is a failure.
#[test]
fn what_is_replaced_leaves_its_rights(rt: HostRuntime) -> Result<(), Fail> {
    move_all(&rt, "old", &REPLACING_MOVES)
}

#[test]
fn a_move_that_fails_leaves_a_free_name(rt: HostRuntime) -> Result<(), Fail> {
    move_all(&rt, "", &FAILED_MOVES)
}

/// Whether a source is opened where so many openings are refused, and by so many calls.
fn is_opened_so<R: Files<File = File> + Drop>(
    rt: R,
    alloc: Global,
    refusals: usize,
    want: (bool, usize),
) -> bool {
    let mut files = noting_of(rt, alloc, 2, 24);
    files.refusals = refusals;
    let is_open = open_source(&mut files, PART).is_ok();
    is_open == want.0 && files.letters.len() == want.1
}

// A hundred rests, and no more: then too many files that are open are a failure.
#[test]
fn too_many_open_files_are_waited_out_so_long(rt: HostRuntime) -> Result<(), Fail> {
    write_part(&rt)?;
    let is_last_done = is_opened_so(&rt, rt.alloc(), 100, (true, 203));
    assert!(rt; is_last_done, "the last opening is done");
    let is_given_up = is_opened_so(&rt, rt.alloc(), 101, (false, 202));
    assert!(rt; is_given_up, "nor is the last one");
    Ok(())
}

/// Whether a name is among these, each of which has a zero behind it.
fn has_name(names: &[u8], name: &str) -> bool {
    for there in names.split(|byte| *byte == 0) {
        if there == name.as_bytes() {
            return true;
        }
    }
    false
}

/// Whether both names are read, and no part of one.
fn are_names_read<F: FileSystem>(files: &mut F, names: &mut Vec<u8>) -> bool {
    files.names(FOLDER, names).is_ok()
        && has_name(names.as_slice(), "part")
        && has_name(names.as_slice(), "dest")
        && !has_name(names.as_slice(), "par")
}

/// Whether a file has no names in it.
fn are_names_refused<F: FileSystem>(files: &mut F, names: &mut Vec<u8>) -> bool {
    errno_of(files.names(BELOW_DEST, names)) == 20
}

fn are_all_names_so<R: Files<File = File> + Drop>(rt: R, alloc: Global) -> bool {
    let mut files = SystemFiles::new(rt);
    let mut names = Vec::new(alloc);
    are_names_read(&mut files, &mut names) && are_names_refused(&mut files, &mut names)
}

#[test]
fn the_names_in_a_folder_are_read(rt: HostRuntime) -> Result<(), Fail> {
    write_part(&rt)?;
    fs::write(&rt, DEST, "abcd")?;
    let are_so = are_all_names_so(&rt, rt.alloc());
    assert!(rt;
        are_so,
        "both are there and no part of one, and a file has none in it"
    );
    Ok(())
}

fn is_part_made<F: FileSystem>(files: &mut F) -> bool {
    OpenPart::make(files, PART).is_ok()
}

/// Whether a part is made and written, and no other while it is held.
fn is_part_held<F: FileSystem>(files: &mut F) -> bool {
    match OpenPart::make(files, PART) {
        Ok(mut part) => part.append(files, b"abcd").is_ok() && !is_part_made(files),
        Err(Failed) => false,
    }
}

// What another run holds is left to it; what nobody holds loses its name, and is written by nobody.
#[test]
fn a_part_is_one_runs_alone(rt: HostRuntime) -> Result<(), Fail> {
    clear(&rt)?;
    let is_held = is_part_held(&mut SystemFiles::new(&rt)) && holds(&rt, PART, "abcd");
    assert!(rt;
        is_held,
        "another isn't made while it is held, and it keeps what it has"
    );
    fs::rename(&rt, PART, DEST)?;
    symlink(&rt, "dest", PART)?;
    let is_made = is_part_made(&mut SystemFiles::new(&rt)) && holds(&rt, DEST, "abcd");
    assert!(rt;
        is_made,
        "a link is no file of another run, and isn't followed"
    );
    let is_made_again = is_part_made(&mut SystemFiles::new(&rt));
    assert!(rt; is_made_again, "a file that nobody holds loses its name");
    Ok(())
}
