//! How a file is opened, and how it is seen to stay where it was.
//! For a service (`open_to_serve`): opened, or made where nothing has its name, and never through a link whose target is absent, since another
//! folder would have to be synced; a plain file, locked, synced, its pages dropped, and then the folder of its name is synced, at each
//! opening, since a service that made the file may have been ended before it did so.
//! For looking (`open_to_look`): looked at before the opening, since that of a pipe waits for its writer, and at what was opened; no lock.
//! Each makes exactly the calls of its script, over every file system.
ghost use Rattle.std.specs.Prelude.{◌≡◌, ℕ, if◌then◌else◌};
ghost use Rattle.fts_files.specs.Script.{Script, LeadsTo, either, fails, value_of};
ghost use Rattle.fts_files.specs.Reading.{if_plain};
ghost use Rattle.fts_disk.specs.Opening.{folder_of, opens_or_makes, opens_to_serve, opens_to_look, by_option, stays, keeps};

use crate::guard::Guard;
use fts_files::{Failed, FileSystem, Kind, Seen, Way, open_plain, size};
use std::path::Path;

// The folder that the name of a file lies in.
fn folder_of(path: &str) -> &str
    ensures { result.now ≡ folder_of path.now }
{
    match Path::new(path).parent() {
        Some(folder) if !folder.as_str().is_empty() => folder.as_str(),
        Some(_) | None => ".",
    }
}

// Whether it is a file.
fn is_plain(kind: Kind) -> Result<(), Failed>
    ensures { (next : Script) → if_plain next kind ≡ either (λ done. next) fails result }
{
    match kind {
        Kind::File => Ok(()),
        Kind::Folder | Kind::Other => Err(Failed),
    }
}

// Opens a file, or makes it in the folder of its path.
fn open_or_make<F: FileSystem>(files: &mut F, path: &str) -> Result<F::Handle, Failed>
    ensures { (next : ℕ → Script) → LeadsTo (opens_or_makes path.now next) (F.calls files.old) (either (λ file. next (F.number file)) fails result) (F.calls files.new) }
{
    match files.open(path, Way::Write) {
        Ok(file) => Ok(file),
        Err(refused) if refused.is_missing() => Ok(files.open(path, Way::New)?),
        Err(_) => Err(Failed),
    }
}

/// Opens a file for a service, or makes it. Another service's lock is a failure, and so is what is no plain file.
pub(crate) fn open_to_serve<F: FileSystem>(files: &mut F, path: &str) -> Result<F::Handle, Failed>
    ensures { (next : ℕ → Script) → LeadsTo (opens_to_serve path.now next) (F.calls files.old) (either (λ file. next (F.number file)) fails result) (F.calls files.new) }
{
    let file = open_or_make(files, path)?;
    let seen = files.look_at_open(&file)?;
    is_plain(seen.kind)?;
    files.lock(&file)?;
    files.sync_all(&file)?;
    files.forget(&file)?;
    let folder = files.open(folder_of(path), Way::Read)?;
    files.sync_all(&folder)?;
    Ok(file)
}

// How long an open file is that was looked at by its name and by its handle; fails where these are two files, and where it is shorter.
fn kept_len(there: Seen, opened: Seen, least: u64) -> Result<u64, Failed>
    ensures { (next : ℕ → Script) → (if keeps there opened least then next opened.len else fails) ≡ either next fails result }
{
    if there.device == opened.device && there.inode == opened.inode && least <= opened.len {
        Ok(opened.len)
    } else {
        Err(Failed)
    }
}

/// How long an open file is. Fails where its name is another file's by now, and where it was cut.
pub(crate) fn stay<F: FileSystem>(
    files: &mut F,
    path: &str,
    file: &F::Handle,
    least: u64,
) -> Result<u64, Failed>
    ensures { (next : ℕ → Script) → LeadsTo (stays path.now (F.number file.now) least next) (F.calls files.old) (either next fails result) (F.calls files.new) }
{
    let there = files.look(path)?;
    let opened = files.look_at_open(file)?;
    kept_len(there, opened, least)
}

/// Opens a file for looking, and guards it; none where nothing has the name. What is no plain file is a failure.
pub(crate) fn open_to_look<F: FileSystem>(
    files: &mut F,
    path: &str,
) -> Result<Option<Guard<F>>, Failed>
    ensures { (absent : Script) (next : ℕ → Script) → LeadsTo (opens_to_look path.now absent next)
        (F.calls files.old) (either (by_option absent (λ guard. next (F.number guard.file))) fails result) (F.calls files.new) }
{
    let found = size(files, path)?;
    match found {
        None => Ok(None),
        Some(len) => {
            let file = open_plain(files, path)?;
            Ok(Some(Guard::new(file, len)))
        }
    }
}
