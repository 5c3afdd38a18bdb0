//! Which calls of a file system are told, with what, and that each is made once and has the answer of the one below.
use super::kept::KeptLog;
use super::refusing::RefusingFiles;
use fts_files::{FileSystem, Refused, SystemFiles, Way};
use fts_log::{FileCall, LoggedFiles};
use std::alloc::Global;
use std::process::Abort;

const PATH: &str = "/stand/grid/a";

const NEW: &str = "/stand/grid/b";

/// The number that a call is refused with; 0 where it is done.
fn errno_of<T: Drop>(answer: Result<T, Refused>) -> u32 {
    match answer {
        Ok(_) => 0,
        Err(refused) => refused.errno,
    }
}

/// Opens a path, and makes this call on what is open.
fn ask_open<F: FileSystem>(files: &mut F, path: &str, call: FileCall) -> u32 {
    let file = match files.open(path, Way::Write) {
        Ok(file) => file,
        Err(refused) => return refused.errno,
    };
    let mut into = [0; 4];
    match call {
        FileCall::LookAtOpen => errno_of(files.look_at_open(&file)),
        FileCall::Read => errno_of(files.read_at(&file, 0, &mut into)),
        FileCall::Write => errno_of(files.write_at(&file, 0, b"abcd")),
        FileCall::SyncData => errno_of(files.sync_data(&file)),
        FileCall::SyncAll => errno_of(files.sync_all(&file)),
        FileCall::Lock => errno_of(files.lock(&file)),
        FileCall::Forget => errno_of(files.forget(&file)),
        FileCall::SetMode => errno_of(files.set_mode(&file, 0o600)),
        FileCall::Open
        | FileCall::Make
        | FileCall::Look
        | FileCall::LookAtName
        | FileCall::Link
        | FileCall::Rename
        | FileCall::Unlink
        | FileCall::MakeFolder
        | FileCall::Names => 0,
    }
}

/// Makes this call, by a name or two, or on what is opened by a name.
fn ask<F: FileSystem>(files: &mut F, alloc: Global, call: FileCall) -> u32 {
    match call {
        FileCall::Open => errno_of(files.open(PATH, Way::Read)),
        FileCall::Make => errno_of(files.open(PATH, Way::New)),
        FileCall::Look => errno_of(files.look(PATH)),
        FileCall::LookAtName => errno_of(files.look_at_name(PATH)),
        FileCall::Link => errno_of(files.link(PATH, NEW)),
        FileCall::Rename => errno_of(files.rename(PATH, NEW)),
        FileCall::Unlink => errno_of(files.unlink(PATH)),
        FileCall::MakeFolder => errno_of(files.make_folder(PATH)),
        FileCall::Names => {
            let mut names = Vec::new(alloc);
            errno_of(files.names(PATH, &mut names))
        }
        FileCall::LookAtOpen
        | FileCall::Read
        | FileCall::Write
        | FileCall::SyncData
        | FileCall::SyncAll
        | FileCall::Lock
        | FileCall::Forget
        | FileCall::SetMode => ask_open(files, PATH, call),
    }
}

/// The calls that one by a name takes.
const ONE_CALL: usize = 1;

/// Those that one on an open file takes: it is opened first.
const TWO_CALLS: usize = 2;

/// Whether of a call that is refused with this number, the last of so many, the log is told these lines, and the number is passed on.
fn is_told(alloc: Global, calls: usize, call: FileCall, errno: u32, want: &str) -> bool {
    let log = KeptLog::new(alloc);
    let below = RefusingFiles {
        refuses_at: calls,
        errno,
        calls: 0,
    };
    let answered = ask(&mut LoggedFiles::over(below, &log, alloc), alloc, call);
    answered == errno && log.take().as_slice() == want.as_bytes()
}

/// A call, the number that it is refused with, and the line.
type Row = (FileCall, u32, &'static str);

/// Wants the line of each of these, which takes so many calls.
fn tell_each<R: Abort>(rt: &R, alloc: Global, calls: usize, rows: &[Row]) {
    for (call, errno, want) in rows {
        assert!(rt; is_told(alloc, calls, *call, *errno, want), "{want}");
    }
}

const BY_NAME: [Row; 9] = [
    (
        FileCall::Open,
        13,
        "time=1970-01-01T00:00:05Z event=call call=open path=\"/stand/grid/a\" error=\"EACCES\" errno=13\n",
    ),
    (
        FileCall::Make,
        2,
        "time=1970-01-01T00:00:05Z event=call call=creat path=\"/stand/grid/a\" error=\"ENOENT\" errno=2\n",
    ),
    (
        FileCall::Look,
        5,
        "time=1970-01-01T00:00:05Z event=call call=stat path=\"/stand/grid/a\" error=\"EIO\" errno=5\n",
    ),
    (
        FileCall::LookAtName,
        116,
        "time=1970-01-01T00:00:05Z event=call call=lstat path=\"/stand/grid/a\" error=\"ESTALE\" errno=116\n",
    ),
    (
        FileCall::Link,
        18,
        "time=1970-01-01T00:00:05Z event=call call=link path=\"/stand/grid/b\" error=\"EXDEV\" errno=18\n",
    ),
    (
        FileCall::Rename,
        2,
        "time=1970-01-01T00:00:05Z event=call call=rename path=\"/stand/grid/b\" error=\"ENOENT\" errno=2\n",
    ),
    (
        FileCall::Unlink,
        21,
        "time=1970-01-01T00:00:05Z event=call call=unlink path=\"/stand/grid/a\" error=\"EISDIR\" errno=21\n",
    ),
    (
        FileCall::MakeFolder,
        13,
        "time=1970-01-01T00:00:05Z event=call call=mkdir path=\"/stand/grid/a\" error=\"EACCES\" errno=13\n",
    ),
    (
        FileCall::Names,
        24,
        "time=1970-01-01T00:00:05Z event=call call=readdir path=\"/stand/grid/a\" error=\"EMFILE\" errno=24\n",
    ),
];

const ON_OPEN: [Row; 8] = [
    (
        FileCall::LookAtOpen,
        9,
        "time=1970-01-01T00:00:05Z event=call call=fstat path=\"/stand/grid/a\" error=\"EBADF\" errno=9\n",
    ),
    (
        FileCall::Read,
        5,
        "time=1970-01-01T00:00:05Z event=call call=pread path=\"/stand/grid/a\" error=\"EIO\" errno=5\n",
    ),
    (
        FileCall::Write,
        28,
        "time=1970-01-01T00:00:05Z event=call call=pwrite path=\"/stand/grid/a\" error=\"ENOSPC\" errno=28\n",
    ),
    (
        FileCall::SyncData,
        122,
        "time=1970-01-01T00:00:05Z event=call call=fdatasync path=\"/stand/grid/a\" error=\"EDQUOT\" errno=122\n",
    ),
    (
        FileCall::SyncAll,
        22,
        "time=1970-01-01T00:00:05Z event=call call=fsync path=\"/stand/grid/a\" error=\"EINVAL\" errno=22\n",
    ),
    (
        FileCall::Lock,
        11,
        "time=1970-01-01T00:00:05Z event=call call=flock path=\"/stand/grid/a\" error=\"EAGAIN\" errno=11\n",
    ),
    (
        FileCall::Forget,
        29,
        "time=1970-01-01T00:00:05Z event=call call=posix_fadvise path=\"/stand/grid/a\" error=\"ESPIPE\" errno=29\n",
    ),
    (
        FileCall::SetMode,
        30,
        "time=1970-01-01T00:00:05Z event=call call=fchmod path=\"/stand/grid/a\" error=\"EROFS\" errno=30\n",
    ),
];

#[test]
fn a_failed_call_by_a_name_is_told(rt: HostRuntime) {
    tell_each(&rt, rt.alloc(), ONE_CALL, &BY_NAME);
}

#[test]
fn a_failed_call_on_an_open_file_is_told_with_its_path(rt: HostRuntime) {
    tell_each(&rt, rt.alloc(), TWO_CALLS, &ON_OPEN);
}

#[test]
fn an_answer_is_not_told(rt: HostRuntime) {
    for (case, call, errno) in [
        ("a look finds nothing", FileCall::Look, 2),
        ("nor below a file", FileCall::Look, 20),
        ("a look at a name", FileCall::LookAtName, 2),
        ("an opening", FileCall::Open, 2),
        ("a making where there is something", FileCall::Make, 17),
        ("a name that is gone", FileCall::Unlink, 2),
        ("a name that is taken", FileCall::Link, 17),
        ("no second names on this file system", FileCall::Link, 95),
        ("a folder that is there", FileCall::MakeFolder, 17),
        ("folders are missing above it", FileCall::MakeFolder, 2),
        ("a folder that isn't", FileCall::Names, 2),
    ] {
        assert!(rt; is_told(rt.alloc(), ONE_CALL, call, errno, ""), "{case}");
    }
}

/// Whether a call that is done is made once, and not told.
fn is_quiet(alloc: Global, call: FileCall) -> bool {
    let log = KeptLog::new(alloc);
    let below = RefusingFiles {
        refuses_at: 0,
        errno: 5,
        calls: 0,
    };
    let answered = ask(&mut LoggedFiles::over(below, &log, alloc), alloc, call);
    answered == 0 && log.take().is_empty()
}

#[test]
fn what_is_done_is_not_told(rt: HostRuntime) {
    for call in [
        FileCall::Open,
        FileCall::Make,
        FileCall::Look,
        FileCall::Read,
        FileCall::Write,
        FileCall::SyncAll,
        FileCall::Rename,
        FileCall::Names,
    ] {
        assert!(rt; is_quiet(rt.alloc(), call), "{}", call.word());
    }
}

// A full device of the system: the file that was opened has its path in the line.
#[test]
fn a_full_device_is_told(rt: HostRuntime) {
    let log = KeptLog::new(rt.alloc());
    let mut files = LoggedFiles::over(SystemFiles::new(&rt), &log, rt.alloc());
    let answered = ask_open(&mut files, "/dev/full", FileCall::Write);
    let want =
        "time=1970-01-01T00:00:05Z event=call call=pwrite path=\"/dev/full\" error=\"ENOSPC\" errno=28\n";
    let is_so = answered == 28 && log.take().as_slice() == want.as_bytes();
    assert!(rt; is_so, "no room");
}
