//! Copies files as the service does, for `bench/copy.sh`.
//! `copy ROOT SET COUNT FOLDERS` copies `SET/f0` up to `SET/f(COUNT - 1)` of `https://a.example` below ROOT to `https://b.example`, each by way of its
//! part, and prints how many were verified. Where FOLDERS is more than 1, file n lies in `SET/dM`, M being n modulo FOLDERS.
//! What is at a destination is replaced; with a fifth word, `keep`, it is kept, and its file isn't copied. With fewer than four words it does nothing.
use fts_copy::{CopyRoom, CountingWatch, copy_verified};
use fts_store::{FolderStore, Store};
use fts_tables::{
    EndpointName, FileRow, FileState, Label, Memory, Outcome, PathKey, Place, Reason,
};
use std::alloc::Global;
use std::io;

fn no_memory(_: Memory) -> io::Error {
    io::Error::from(io::ErrorKind::OutOfMemory)
}

fn place(alloc: Global, endpoint: &str, path: &str) -> Result<Option<Place>, Memory> {
    let endpoint = EndpointName::read(alloc, endpoint)?;
    let path = PathKey::read(alloc, path)?;
    match (endpoint, path) {
        (Some(endpoint), Some(path)) => Ok(Some(Place { endpoint, path })),
        _ => Ok(None),
    }
}

// A row of this file; none where the path is no path of a file.
fn row(alloc: Global, id: u32, path: &str) -> Result<Option<FileRow>, Memory> {
    let source = place(alloc, "https://a.example", path)?;
    let dest = place(alloc, "https://b.example", path)?;
    let activity = Label::new(alloc, "default")?;
    match (source, dest) {
        (Some(source), Some(dest)) => Ok(Some(FileRow {
            id,
            job: 1,
            index: 0,
            source,
            dest,
            size: 0,
            wanted: None,
            activity,
            state: FileState::Active,
            retries: 0,
            attempt: 1,
            not_before: 0,
            cancel_asked: false,
            reason: Reason::None,
            digest: None,
        })),
        _ => Ok(None),
    }
}

fn is_verified<E: Store>(
    store: &mut E,
    room: &mut CopyRoom,
    row: &FileRow,
    overwrite: bool,
) -> bool {
    let mut watch = CountingWatch::new(u64::MAX);
    room.load(row, overwrite);
    match copy_verified(store, room, &mut watch) {
        Outcome::Verified { .. } => true,
        _ => false,
    }
}

// The path of a file of a set, which lies in one folder or in so many.
fn path_of(alloc: Global, set: &str, file: u32, folders: u32) -> io::Result<String> {
    if folders > 1 {
        let folder = file % folders;
        Ok(format!(in alloc; "{set}/d{folder}/f{file}")?)
    } else {
        Ok(format!(in alloc; "{set}/f{file}")?)
    }
}

/// What is copied: the files of a set, in so many folders, over what is there or not.
#[derive(Clone, Copy)]
struct Copies<'a> {
    set: &'a str,
    count: u32,
    folders: u32,
    overwrite: bool,
}

/// Copies files, and tells how many were verified.
fn copy_set<E: Store>(alloc: Global, store: &mut E, copies: Copies<'_>) -> io::Result<u32> {
    let mut room = CopyRoom::new(alloc).map_err(no_memory)?;
    let mut verified: u32 = 0;
    for file in 0..copies.count {
        let path = path_of(alloc, copies.set, file, copies.folders)?;
        if let Some(row) = row(alloc, file, path.as_str()).map_err(no_memory)? {
            if is_verified(store, &mut room, &row, copies.overwrite) {
                verified = verified.saturating_add(1);
            }
        }
    }
    Ok(verified)
}

/// Copies files below a folder.
fn copy_below(rt: &HostRuntime, root: &str, copies: Copies<'_>) -> io::Result<u32> {
    let root = String::from_str(rt.alloc(), root)?;
    copy_set(
        rt.alloc(),
        &mut FolderStore::new(rt, rt.alloc(), root),
        copies,
    )
}

/// The number of a word.
fn number(word: &str) -> io::Result<u32> {
    match word.parse() {
        Ok(number) => Ok(number),
        Err(_) => Err(io::Error::from(io::ErrorKind::InvalidInput)),
    }
}

/// Copies what the words ask for, and prints how many files were verified.
pub fn measure(rt: &HostRuntime, words: &[String]) -> io::Result<()> {
    let [root, set, count, folders, keep @ ..] = words else {
        return Ok(());
    };
    let copies = Copies {
        set: set.as_str(),
        count: number(count.as_str())?,
        folders: number(folders.as_str())?,
        overwrite: keep.is_empty(),
    };
    let verified = copy_below(rt, root.as_str(), copies)?;
    println!(rt; "verified {verified}")
}
