//! Plain files behind no link: how one is found, and how its name is taken away for good.
//! Keeps: each folder between the endpoint's own and the file is looked at by its name, from the highest down, and so is the file
//! (`finds`). A link there is a failed call, so that nothing behind it is told or removed; a file in a folder's place has nothing behind it.
//! Order: the look, the removal, and the sync of the folder that holds the name. That there is no file is told behind such a sync as well: a
//! removal that was not synced is none yet. So it fails where the endpoint's own folder isn't there.
//! A link that is put there between two calls is not seen.
ghost use Rattle.std.specs.Prelude.{◌≡◌, ◌∷◌, [], ℕ, Bool, List, Option, map, string_bytes};
ghost use Rattle.fts_files.specs.Calls.{saw_of};
ghost use Rattle.fts_files.specs.Moving.{syncs};
ghost use Rattle.fts_files.specs.Reading.{size_seen};
ghost use Rattle.fts_files.specs.Script.{Script, LeadsTo, either, fails, value_of};
ghost use Rattle.fts_store.specs.Removing.{folder_seen, sees_folder, goes_down, finds, sizes_for_good, removes_for_good};

use fts_files::{Failed, FileSystem, Kind, Refused, Seen, Way, open_when_free, remove};

/// The lowest folder that is there, of those that were gone down.
#[derive(Drop)]
struct Reached<'a> {
    folder: &'a str,
    /// Whether it is the last of them.
    is_last: bool,
}

/// Where a plain file was looked for.
#[derive(Drop)]
struct Found<'a> {
    /// The lowest of its folders that is there.
    folder: &'a str,
    /// In bytes, where it is there.
    size: Option<u64>,
}

// Whether a look at a name saw a folder.
fn folder_seen(answer: Result<Seen, Refused>) -> Result<bool, Failed>
    ensures { value_of result ≡ folder_seen (saw_of answer) }
{
    match answer {
        Ok(seen) => match seen.kind {
            Kind::Folder => Ok(true),
            Kind::File => Ok(false),
            Kind::Other => Err(Failed),
        },
        Err(refused) if refused.is_missing() => Ok(false),
        Err(_) => Err(Failed),
    }
}

// How long the plain file is that a look saw.
fn size_seen(answer: Result<Seen, Refused>) -> Result<Option<u64>, Failed>
    ensures { value_of result ≡ size_seen (saw_of answer) }
{
    match answer {
        Ok(seen) => match seen.kind {
            Kind::File => Ok(Some(seen.len)),
            Kind::Folder | Kind::Other => Err(Failed),
        },
        Err(refused) if refused.is_missing() => Ok(None),
        Err(_) => Err(Failed),
    }
}

// Whether a name is a folder's.
fn see_folder<F: FileSystem>(files: &mut F, folder: &str) -> Result<bool, Failed>
    ensures { (next : Bool → Script) → LeadsTo (sees_folder folder.now next) (F.calls files.old) (either next fails result) (F.calls files.new) }
{
    folder_seen(files.look_at_name(folder))
}

// Goes down these folders, which lie in the one at the top.
fn go_down<'a, F: FileSystem>(
    files: &mut F,
    top: &'a str,
    folders: &'a [String],
) -> Result<Reached<'a>, Failed>
    ensures { (next : List ℕ → Bool → Script) → LeadsTo (goes_down top.now (map string_bytes folders.now) next)
        (F.calls files.old) (either (λ reached. next reached.folder.now reached.is_last) fails result) (F.calls files.new) }
{
    let count = folders.len();
    let mut reached = top;
    'folders: for i in 0..count {
        let folder = folders[count - 1 - i].as_str();
        let is_there = see_folder(files, folder)?;
        if !is_there {
            return Ok(Reached {
                folder: reached,
                is_last: false,
            });
        }
        reached = folder;
    }
    Ok(Reached {
        folder: reached,
        is_last: true,
    })
}

// Looks for a plain file.
fn find<'a, F: FileSystem>(
    files: &mut F,
    top: &'a str,
    folders: &'a [String],
    path: &str,
) -> Result<Found<'a>, Failed>
    ensures { (next : List ℕ → Option ℕ → Script) → LeadsTo (finds top.now (map string_bytes folders.now) path.now next)
        (F.calls files.old) (either (λ found. next found.folder.now found.size) fails result) (F.calls files.new) }
{
    let reached = go_down(files, top, folders)?;
    if !reached.is_last {
        return Ok(Found {
            folder: reached.folder,
            size: None,
        });
    }
    let size = size_seen(files.look_at_name(path))?;
    Ok(Found {
        folder: reached.folder,
        size,
    })
}

// Waits until the device has the names in a folder.
fn sync_folder<F: FileSystem>(files: &mut F, folder: &str) -> Result<(), Failed>
    ensures { (next : Script) → LeadsTo (syncs (folder.now ∷ []) next fails) (F.calls files.old) (either (λ done. next) fails result) (F.calls files.new) }
{
    let open = open_when_free(files, folder, Way::Read)?;
    files.sync_all(&open)?;
    Ok(())
}

/// The size of a plain file below the folder at the top; none where none is there, which then no crash undoes. These are the folders in which it
/// lies, from the lowest up. Fails where one of them is a link, where something else has the file's name, and where the system refuses a call.
pub(crate) fn size_for_good<F: FileSystem>(
    files: &mut F,
    top: &str,
    folders: &[String],
    path: &str,
) -> Result<Option<u64>, Failed>
    ensures { (next : Option ℕ → Script) → LeadsTo (sizes_for_good top.now (map string_bytes folders.now) path.now next)
        (F.calls files.old) (either next fails result) (F.calls files.new) }
{
    let found = find(files, top, folders, path)?;
    match found.size {
        Some(size) => Ok(Some(size)),
        None => {
            sync_folder(files, found.folder)?;
            Ok(None)
        }
    }
}

/// Takes the name of a plain file away, so that no crash gives it back. Where none is there, that becomes as stable. It fails where the look for
/// its size does; where the sync fails, a crash may give the name back.
pub(crate) fn remove_for_good<F: FileSystem>(
    files: &mut F,
    top: &str,
    folders: &[String],
    path: &str,
) -> Result<(), Failed>
    ensures { (next : Script) → LeadsTo (removes_for_good top.now (map string_bytes folders.now) path.now next)
        (F.calls files.old) (either (λ done. next) fails result) (F.calls files.new) }
{
    let found = find(files, top, folders, path)?;
    match found.size {
        Some(_) => {
            remove(files, path)?;
            sync_folder(files, found.folder)
        }
        None => sync_folder(files, found.folder),
    }
}
