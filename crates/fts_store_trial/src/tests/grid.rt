//! Scripts over a grid of real folders: what is asked of stores and what is done beside them, a step a row, which one loop goes over.
//! A row of plain fields costs next to nothing to prove, and a question in the body of a test half a second and more: so a test is its rows.
use super::deeds::{Act, Said, do_act, of_question};
use super::files_noting::NotingFiles;
use fts_files::{FileSystem, SystemFiles};
use fts_store::{FolderStore, Store, StoreFailed};
use fts_tables::PlaceRef;
use std::alloc::{Alloc, Global};
use std::fs::{self, File, Files};
use std::process::Abort;
use std::test::Fail;

/// The folder of all stores. Each script begins without it.
pub(crate) const ROOT: &str = "grid";

/// The endpoint of all places.
pub(crate) const ENDPOINT: &str = "https://b.example:8443";

pub(crate) const PART: &str = ".fts/part-1";

/// The endpoint's own folder, the folder of its parts, that part, and a destination, as the system names them.
pub(crate) const OWN: &str = "grid/https:,,b.example:8443";

pub(crate) const PARTS: &str = "grid/https:,,b.example:8443/.fts";

pub(crate) const OWN_PART: &str = "grid/https:,,b.example:8443/.fts/part-1";

pub(crate) const DEST: &str = "grid/https:,,b.example:8443/d";

/// Who does what a step says: one of the stores over the grid, or the system.
#[derive(Clone, Copy)]
pub(crate) enum Who {
    One,
    Other,
    /// A store for deletions.
    Deleting,
    Beside,
}

/// A step, as a sentence; who takes it; the act, and its texts; what is wanted.
pub(crate) type Row = (&'static str, Who, Act, &'static str, &'static str, Said);

/// What is asked of a store, as a sentence; the act, and its texts; what is wanted.
pub(crate) type Asked = (&'static str, Act, &'static str, &'static str, Said);

/// A place of the endpoint.
pub(crate) fn at(path: &str) -> PlaceRef<'_> {
    PlaceRef {
        endpoint: ENDPOINT,
        path,
    }
}

fn of_size(answer: Result<Option<u64>, StoreFailed>, want: &str) -> Said {
    match answer {
        Ok(Some(size)) => of_question(size == want.len() as u64),
        Ok(None) => Said::Nothing,
        Err(StoreFailed) => Said::Failed,
    }
}

fn of_call(answer: Result<(), StoreFailed>) -> Said {
    match answer {
        Ok(()) => Said::Done,
        Err(StoreFailed) => Said::Failed,
    }
}

fn read_back<E: Store>(store: &mut E, path: &str, offset: u64, want: &str) -> Said {
    let mut into = [0; 8];
    match store.read_at(at(path), offset, &mut into) {
        Ok(count) => of_question(count == want.len() && into.starts_with(want.as_bytes())),
        Err(StoreFailed) => Said::Failed,
    }
}

/// Whether a part of these bytes is made behind a look at the destination, and read back.
pub(crate) fn is_written<E: Store>(store: &mut E, dest: &str, bytes: &str) -> bool {
    store.size(at(dest)).is_ok()
        && store.create(at(PART)).is_ok()
        && store.append(at(PART), bytes.as_bytes()).is_ok()
        && read_back(store, PART, 0, bytes) == Said::Done
}

/// Whether such a part is made and moved.
pub(crate) fn is_put<E: Store>(store: &mut E, dest: &str, bytes: &str) -> bool {
    is_written(store, dest, bytes) && store.rename(at(PART), at(dest)).is_ok()
}

/// Whether no file can be made, extended, read or put at this path.
fn is_refused<E: Store>(store: &mut E, path: &str) -> bool {
    store.create(at(path)).is_err()
        && store.append(at(path), b"x").is_err()
        && read_back(store, path, 0, "") == Said::Failed
        && store.create(at("a/part")).is_ok()
        && store.rename(at("a/part"), at(path)).is_err()
}

/// What a store says. What is done by the system is nothing of its own, and what folders alone can do neither.
pub(crate) fn ask<E: Store>(store: &mut E, act: Act, path: &str, text: &str) -> Said {
    match act {
        Act::Size => of_size(store.size(at(path)), text),
        Act::Create => of_call(store.create(at(path))),
        Act::Append => of_call(store.append(at(path), text.as_bytes())),
        Act::Read => read_back(store, path, 0, text),
        Act::ReadOn => read_back(store, path, 1, text),
        Act::End => read_back(store, path, text.len() as u64, ""),
        Act::Rename => of_call(store.rename(at(path), at(text))),
        Act::Remove => of_call(store.remove(at(path))),
        Act::Write => of_question(is_written(store, path, text)),
        Act::Put => of_question(is_put(store, path, text)),
        Act::Refuse => of_question(is_refused(store, path)),
        Act::Sweep
        | Act::Meet
        | Act::Folder
        | Act::File
        | Act::Link
        | Act::Move
        | Act::Unlink
        | Act::Shut
        | Act::Find
        | Act::Holds => Said::Otherwise,
    }
}

/// What a store in folders says.
fn ask_folders<F: FileSystem + Drop>(
    store: &mut FolderStore<F>,
    act: Act,
    path: &str,
    text: &str,
) -> Said {
    if act == Act::Sweep {
        return of_question(store.sweep().is_ok());
    }
    if act == Act::Meet {
        return of_question(store.meet_all().is_ok());
    }
    ask(store, act, path, text)
}

/// The stores of a script, over one grid.
#[derive(Drop)]
struct Stage<F: FileSystem + Drop> {
    one: FolderStore<F>,
    other: FolderStore<F>,
    deleting: FolderStore<F>,
}

fn take_step<R: Files<File = File> + Alloc, F: FileSystem + Drop>(
    rt: &R,
    stage: &mut Stage<F>,
    row: &Row,
) -> Said {
    let (_, who, act, path, text, _) = row;
    match who {
        Who::One => ask_folders(&mut stage.one, *act, path, text),
        Who::Other => ask_folders(&mut stage.other, *act, path, text),
        Who::Deleting => ask_folders(&mut stage.deleting, *act, path, text),
        Who::Beside => do_act(rt, *act, path, text),
    }
}

/// A grid's folder, by its path.
fn root(alloc: Global) -> Result<String, Fail> {
    Ok(String::from_str(alloc, ROOT)?)
}

/// A store over the grid.
pub(crate) fn store_of<R: Files<File = File> + Drop>(
    rt: R,
    alloc: Global,
) -> Result<FolderStore<SystemFiles<R>>, Fail> {
    Ok(FolderStore::new(rt, alloc, root(alloc)?))
}

fn stage_of<R: Files<File = File> + Drop + Copy>(
    rt: R,
    alloc: Global,
) -> Result<Stage<SystemFiles<R>>, Fail> {
    Ok(Stage {
        one: store_of(rt, alloc)?,
        other: store_of(rt, alloc)?,
        deleting: store_of(rt, alloc)?.for_deletions(),
    })
}

fn take_steps<R: Files<File = File> + Alloc + Abort, F: FileSystem + Drop>(
    rt: &R,
    stage: &mut Stage<F>,
    rows: &[Row],
) {
    for row in rows {
        let is_so = take_step(rt, stage, row) == row.5;
        assert!(rt; is_so, "{}", row.0);
    }
}

/// Takes these steps over the grid that is there, by new stores.
pub(crate) fn go_on<R: Files<File = File> + Alloc<A = Global> + Abort>(
    rt: &R,
    rows: &[Row],
) -> Result<(), Fail> {
    let mut stage = stage_of(rt, rt.alloc())?;
    take_steps(rt, &mut stage, rows);
    Ok(())
}

/// Plays a script over a grid of its own.
pub(crate) fn play<R: Files<File = File> + Alloc<A = Global> + Abort>(
    rt: &R,
    rows: &[Row],
) -> Result<(), Fail> {
    clear(rt);
    go_on(rt, rows)?;
    clear(rt);
    Ok(())
}

/// Takes the grid away.
pub(crate) fn clear<R: Files<File = File> + Alloc>(rt: &R) {
    let _old = fs::remove_dir_all(rt, ROOT);
}

/// Asks a store each of these in turn.
pub(crate) fn ask_all<R: Abort, E: Store>(rt: &R, store: &mut E, rows: &[Asked]) {
    for (case, act, path, text, want) in rows {
        let is_so = ask(store, *act, path, text) == *want;
        assert!(rt; is_so, "{case}");
    }
}

/// A store over files that refuse the call of this number, with EIO; 0 is none.
pub(crate) fn refusing<R: Files<File = File> + Drop>(
    rt: R,
    alloc: Global,
    call: usize,
) -> Result<FolderStore<NotingFiles<R>>, Fail> {
    let files = NotingFiles {
        files: SystemFiles::new(rt),
        letters: Vec::new(alloc),
        refuses_at: call,
        refusals: 1,
        errno: 5,
        most: 1024,
    };
    Ok(FolderStore::over(files, alloc, root(alloc)?))
}

/// Such a store, for deletions.
pub(crate) fn refusing_to_delete<R: Files<File = File> + Drop>(
    rt: R,
    alloc: Global,
    call: usize,
) -> Result<FolderStore<NotingFiles<R>>, Fail> {
    let store = refusing(rt, alloc, call)?;
    Ok(store.for_deletions())
}
