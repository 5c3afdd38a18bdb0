//! How a part becomes its destination, so that no crash undoes it and what is there is the file that was open.
//! Order: the part's data synced, the name made, the name checked against the open file, the part's own name taken away, the folders synced
//! from the lowest up. Without leave to replace, the name is made by a link, and a failure behind it takes it back (`moves`).
//! The part's own name goes before the folders are synced: a failure there leaves the next try a free destination, and a file that was told
//! as done has no second name. A name that is taken back isn't synced away: a crash may leave it, and it is then the whole file.
//! The list of folders is the caller's: those whose names a crash must leave.
ghost use Rattle.std.specs.Prelude.{◌≡◌, ℕ, Option, map, string_bytes, IsErr};
ghost use Rattle.fts_files.specs.Calls.{saw_of, done_of};
ghost use Rattle.fts_files.specs.Script.{Script, LeadsTo, Plays, either, fails, done_end, value_of};
ghost use Rattle.fts_files.specs.Moving.{is_same_file, syncs, checks, mode_seen, sees_mode, keeps_mode, takes_back, settles, replaces, links, moves};

use crate::opening::open_when_free;
use crate::{Failed, FileSystem, Kind, Refused, Seen, Way};

// Whether two looks saw one file.
fn is_same_file(one: Seen, other: Seen) -> bool
    ensures { result ≡ is_same_file one other }
{
    one.device == other.device && one.inode == other.inode
}

// Syncs each of these folders, one after the other.
fn sync_folders<F: FileSystem>(files: &mut F, folders: &[String]) -> Result<(), Failed>
    ensures { (next ended : Script) → LeadsTo (syncs (map string_bytes folders.now) next ended)
        (F.calls files.old) (either (λ done. next) ended result) (F.calls files.new) }
{
    'folders: for folder in folders {
        let open = open_when_free(files, folder.as_str(), Way::Read)?;
        files.sync_all(&open)?;
    }
    Ok(())
}

/// Whether a name is that of the file that was seen.
pub(crate) fn check_name<F: FileSystem>(files: &mut F, path: &str, seen: Seen) -> Result<(), Failed>
    ensures { (next ended : Script) → LeadsTo (checks path.now seen next ended)
        (F.calls files.old) (either (λ done. next) ended result) (F.calls files.new) }
{
    let there = files.look_at_name(path)?;
    if is_same_file(there, seen) {
        Ok(())
    } else {
        Err(Failed)
    }
}

// Takes a name away that was made, and fails.
fn take_back<F: FileSystem>(files: &mut F, path: &str) -> Result<(), Failed>
    ensures failed { IsErr result }
    ensures script { LeadsTo (takes_back path.now) (F.calls files.old) fails (F.calls files.new) }
{
    let _gone = files.unlink(path);
    Err(Failed)
}

// What is left to do behind a link: the new name checked, the part's own taken away, the folders synced.
fn settle<F: FileSystem>(
    files: &mut F,
    part: &str,
    dest: &str,
    seen: Seen,
    folders: &[String],
) -> Result<(), Failed>
    ensures { (next ended : Script) → LeadsTo (settles part.now dest.now seen (map string_bytes folders.now) next ended)
        (F.calls files.old) (either (λ done. next) ended result) (F.calls files.new) }
{
    check_name(files, dest, seen)?;
    files.unlink(part)?;
    sync_folders(files, folders)
}

// Moves by a rename, which takes the name from what has it. Both names are checked; one that is another file's then is taken away.
fn replace<F: FileSystem>(
    files: &mut F,
    part: &str,
    dest: &str,
    seen: Seen,
    folders: &[String],
) -> Result<(), Failed>
    ensures { (next : Script) → LeadsTo (replaces part.now dest.now seen (map string_bytes folders.now) next)
        (F.calls files.old) (either (λ done. next) fails result) (F.calls files.new) }
{
    check_name(files, part, seen)?;
    files.rename(part, dest)?;
    match check_name(files, dest, seen) {
        Ok(()) => sync_folders(files, folders),
        Err(_) => take_back(files, dest),
    }
}

// Moves to where nothing is. Where no second name can be given, the name is looked at just before it is taken.
fn link<F: FileSystem>(
    files: &mut F,
    part: &str,
    dest: &str,
    seen: Seen,
    folders: &[String],
) -> Result<(), Failed>
    ensures { (next : Script) → LeadsTo (links part.now dest.now seen (map string_bytes folders.now) next)
        (F.calls files.old) (either (λ done. next) fails result) (F.calls files.new) }
{
    match files.link(part, dest) {
        Ok(()) => match settle(files, part, dest, seen, folders) {
            Ok(()) => Ok(()),
            Err(_) => take_back(files, dest),
        },
        Err(refused) if refused.lacks_links() => match files.look_at_name(dest) {
            Err(there) if there.is_missing() => replace(files, part, dest, seen, folders),
            _ => Err(Failed),
        },
        Err(_) => Err(Failed),
    }
}

// The rights of the plain file that a look saw.
fn mode_seen(answer: Result<Seen, Refused>) -> Result<Option<u32>, Failed>
    ensures { value_of result ≡ mode_seen (saw_of answer) }
{
    match answer {
        Ok(seen) => match seen.kind {
            Kind::File => Ok(Some(seen.mode)),
            Kind::Folder | Kind::Other => Ok(None),
        },
        Err(refused) if refused.is_missing() => Ok(None),
        Err(_) => Err(Failed),
    }
}

// The rights of the plain file that has a name.
fn see_mode<F: FileSystem>(files: &mut F, path: &str) -> Result<Option<u32>, Failed>
    ensures { (next : Option ℕ → Script) → LeadsTo (sees_mode path.now next) (F.calls files.old) (either next fails result) (F.calls files.new) }
{
    mode_seen(files.look_at_name(path))
}

// Gives an open file the rights of the plain file that has a name.
fn keep_mode<F: FileSystem>(files: &mut F, file: &F::Handle, path: &str) -> Result<(), Failed>
    ensures { (next : Script) → LeadsTo (keeps_mode (F.number file.now) path.now next) (F.calls files.old) (either (λ done. next) fails result) (F.calls files.new) }
{
    let found = see_mode(files, path)?;
    match found {
        Some(mode) => Ok(files.set_mode(file, mode)?),
        None => Ok(()),
    }
}

/// Moves an open part to its destination, and syncs these folders in their order. Without leave to replace it fails where something has the name,
/// and takes the new name back where a call behind the link fails. It fails too where a name is another file's, and where the system refuses.
pub(crate) fn put_in_place<F: FileSystem>(
    files: &mut F,
    file: &F::Handle,
    part: &str,
    dest: &str,
    folders: &[String],
    overwrite: bool,
) -> Result<(), Failed>
    ensures { (next : Script) → LeadsTo (moves (F.number file.now) part.now dest.now (map string_bytes folders.now) overwrite next)
        (F.calls files.old) (either (λ done. next) fails result) (F.calls files.new) }
{
    files.sync_data(file)?;
    let seen = files.look_at_open(file)?;
    if overwrite {
        keep_mode(files, file, dest)?;
        replace(files, part, dest, seen, folders)
    } else {
        link(files, part, dest, seen, folders)
    }
}
