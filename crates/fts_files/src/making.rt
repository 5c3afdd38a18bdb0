//! How a part is made, so that no other run writes it; and how a file, or a part that a run left, is removed.
//! Keeps: a part that was made is new, locked by its handle, and its name still its own (`makes_part`). What has the name loses it first; a
//! plain file only once it is locked here: a run that still writes it holds its lock, and the making fails.
//! Order: made where nothing is, locked, looked at by the handle, and the look at the name compared.
ghost use Rattle.std.specs.Prelude.{◌≡◌, ℕ};
ghost use Rattle.fts_files.specs.Script.{Script, LeadsTo, either, fails};
ghost use Rattle.fts_files.specs.Making.{holds, by_kind, clears_plain, clears, removes_stale, removes_part, makes_part, removes};

use crate::moving::check_name;
use crate::opening::open_when_free;
use crate::{Failed, FileSystem, Kind, Way};

// Locks an open file, whose name has to be its own still.
fn hold<F: FileSystem>(files: &mut F, path: &str, file: &F::Handle) -> Result<(), Failed>
    ensures { (next ended : Script) → LeadsTo (holds path.now (F.number file.now) next ended) (F.calls files.old) (either (λ done. next) ended result) (F.calls files.new) }
{
    files.lock(file)?;
    let seen = files.look_at_open(file)?;
    check_name(files, path, seen)
}

// Takes the name away from a plain file, which stays locked until that is done.
fn clear_plain<F: FileSystem>(files: &mut F, path: &str) -> Result<(), Failed>
    ensures { (next ended : Script) → LeadsTo (clears_plain path.now next ended) (F.calls files.old) (either (λ done. next) ended result) (F.calls files.new) }
{
    let old = open_when_free(files, path, Way::Read)?;
    hold(files, path, &old)?;
    files.unlink(path)?;
    Ok(())
}

// Takes a name away from what has it.
fn clear<F: FileSystem>(files: &mut F, path: &str) -> Result<(), Failed>
    ensures { (next : Script) → LeadsTo (clears path.now next) (F.calls files.old) (either (λ done. next) fails result) (F.calls files.new) }
{
    let found = files.look_at_name(path)?;
    match found.kind {
        Kind::File => clear_plain(files, path),
        Kind::Folder | Kind::Other => Ok(files.unlink(path)?),
    }
}

// Takes a name away from what was seen to have it, where that is a plain file that nobody holds.
fn clear_seen<F: FileSystem>(files: &mut F, path: &str, kind: Kind) -> Result<(), Failed>
    ensures { (next ended : Script) → LeadsTo (by_kind (clears_plain path.now next ended) ended kind) (F.calls files.old) (either (λ done. next) ended result) (F.calls files.new) }
{
    match kind {
        Kind::File => clear_plain(files, path),
        Kind::Folder | Kind::Other => Err(Failed),
    }
}

/// Takes the name away from a part that no run holds. Fails where another run holds it, where it is no plain file, where nothing has the name,
/// and where the system refuses a call.
pub fn remove_stale<F: FileSystem>(files: &mut F, path: &str) -> Result<(), Failed>
    ensures { (next ended : Script) → LeadsTo (removes_stale path.now next ended) (F.calls files.old) (either (λ done. next) ended result) (F.calls files.new) }
{
    let found = files.look_at_name(path)?;
    clear_seen(files, path, found.kind)
}

/// Takes the name of a part away. Where nothing has it, that is done. Fails where another run holds the file, where it is no plain file, and where
/// the system refuses a call.
pub fn remove_part<F: FileSystem>(files: &mut F, path: &str) -> Result<(), Failed>
    ensures { (next : Script) → LeadsTo (removes_part path.now next) (F.calls files.old) (either (λ done. next) fails result) (F.calls files.new) }
{
    match files.look_at_name(path) {
        Ok(found) => clear_seen(files, path, found.kind),
        Err(refused) if refused.is_missing() => Ok(()),
        Err(_) => Err(Failed),
    }
}

/// Makes a file of no bytes and locks it. What has its name loses it first. Fails where another run holds that file, where the name is another
/// file's by the end, and where the system refuses a call.
pub(crate) fn make_part<F: FileSystem>(files: &mut F, path: &str) -> Result<F::Handle, Failed>
    ensures { (next : ℕ → Script) → LeadsTo (makes_part path.now next) (F.calls files.old) (either (λ file. next (F.number file)) fails result) (F.calls files.new) }
{
    match open_when_free(files, path, Way::New) {
        Ok(file) => {
            hold(files, path, &file)?;
            Ok(file)
        }
        Err(refused) if refused.is_taken() => {
            clear(files, path)?;
            let file = open_when_free(files, path, Way::New)?;
            hold(files, path, &file)?;
            Ok(file)
        }
        Err(_) => Err(Failed),
    }
}

/// Removes a file. Where nothing has the name, that is done. Fails where the system refuses for another reason.
pub fn remove<F: FileSystem>(files: &mut F, path: &str) -> Result<(), Failed>
    ensures { (next : Script) → LeadsTo (removes path.now next) (F.calls files.old) (either (λ done. next) fails result) (F.calls files.new) }
{
    match files.unlink(path) {
        Ok(()) => Ok(()),
        Err(refused) if refused.is_missing() => Ok(()),
        Err(_) => Err(Failed),
    }
}
