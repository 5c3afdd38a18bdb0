//! That stores and disks take the file system that tells its failed calls, and what is told of them.
use super::kept::KeptLog;
use super::refusing::RefusingFiles;
use fts_disk::{Disk, FileDisk};
use fts_files::SystemFiles;
use fts_log::{LoggedFiles, NoLog};
use fts_store::{FolderStore, Store};
use fts_tables::PlaceRef;
use std::alloc::{AllocError, Global};

/// Files that refuse the call of this number.
fn refusing(refuses_at: usize, errno: u32) -> RefusingFiles {
    RefusingFiles {
        refuses_at,
        errno,
        calls: 0,
    }
}

/// What is told where a store looks for the size of a file and its first call is refused, and whether that fails.
fn told_of_store(alloc: Global, errno: u32) -> Result<(bool, Vec<u8>), AllocError> {
    let log = KeptLog::new(alloc);
    let files = LoggedFiles::over(refusing(1, errno), &log, alloc);
    let mut store = FolderStore::over(files, alloc, String::from_str(alloc, "/stand/grid")?);
    let at = PlaceRef {
        endpoint: "https://a.example",
        path: "data/f1",
    };
    let is_failed = store.size(at).is_err();
    Ok((is_failed, log.take()))
}

#[test]
fn a_store_over_it_tells_what_failed(rt: HostRuntime) {
    for (case, errno, fails, want) in [
        ("nothing is there", 2, false, ""),
        (
            "a look at the endpoint's folder fails",
            5,
            true,
            "time=1970-01-01T00:00:05Z event=call call=stat path=\"/stand/grid/https:,,a.example\" error=\"EIO\" errno=5\n",
        ),
    ] {
        let is_so = match told_of_store(rt.alloc(), errno) {
            Ok((is_failed, told)) => is_failed == fails && told.as_slice() == want.as_bytes(),
            Err(_) => false,
        };
        assert!(rt; is_so, "{case}");
    }
}

/// What is told where a disk for a service is opened and its call of this number is refused, and whether that fails.
fn told_of_disk(alloc: Global, refuses_at: usize, errno: u32) -> (bool, Vec<u8>) {
    let log = KeptLog::new(alloc);
    let files = LoggedFiles::over(refusing(refuses_at, errno), &log, alloc);
    let mut disk = FileDisk::serve(files, "/stand/fts.journal");
    let is_failed = disk.len().is_err();
    (is_failed, log.take())
}

#[test]
fn a_disk_over_it_tells_what_failed(rt: HostRuntime) {
    for (case, refuses_at, errno, fails, want) in [
        ("it is made where it isn't there", 1, 2, false, ""),
        (
            "it may not be opened",
            1,
            13,
            true,
            "time=1970-01-01T00:00:05Z event=call call=open path=\"/stand/fts.journal\" error=\"EACCES\" errno=13\n",
        ),
        (
            "another service holds it",
            3,
            11,
            true,
            "time=1970-01-01T00:00:05Z event=call call=flock path=\"/stand/fts.journal\" error=\"EAGAIN\" errno=11\n",
        ),
    ] {
        let (is_failed, told) = told_of_disk(rt.alloc(), refuses_at, errno);
        let is_so = is_failed == fails && told.as_slice() == want.as_bytes();
        assert!(rt; is_so, "{case}");
    }
}

/// Takes what goes to another thread.
fn sends<T: Send>(_: &T) {}

#[test]
fn it_goes_to_another_thread(rt: HostRuntime) {
    let log = NoLog;
    sends(&LoggedFiles::over(SystemFiles::new(&rt), &log, rt.alloc()));
}
