//! The files that measurements make and look at, each call of the system's in a function of its own.
use fts_disk::{FileDisk, SystemDisk};
use std::fs::{self, File, OpenOptions};
use std::io;

/// The journal that is measured, in the folder where the program runs.
pub const JOURNAL_PATH: &str = "bench.journal";

/// The plain file beside it.
pub const FLOOR_PATH: &str = "bench.floor";

/// A disk over the system's own files.
pub type HostDisk<'a> = SystemDisk<&'a HostRuntime>;

/// A disk for a journal, made where it is absent.
pub fn open_disk<'a>(rt: &'a HostRuntime, path: &str) -> HostDisk<'a> {
    FileDisk::open(rt, path)
}

/// A disk to look at a journal.
pub fn view_disk<'a>(rt: &'a HostRuntime, path: &str) -> HostDisk<'a> {
    FileDisk::view(rt, path)
}

/// A new file.
pub fn create(rt: &HostRuntime, path: &str) -> io::Result<File> {
    File::create(rt, path)
}

/// Removes a file.
pub fn remove(rt: &HostRuntime, path: &str) -> io::Result<()> {
    fs::remove_file(rt, path)
}
