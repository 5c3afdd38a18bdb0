//! The folders of a store: how they are made, and which of them are synced behind a move.
//! Keeps: an endpoint's own folder that was there when it was first met lies on the device that it lay on then (`meet`).
//! A folder's name is stable once the folder above it was synced behind it, and that folder's name is stable; the root's own is the last.
//! Lists of folders go from the lowest up.
ghost use Rattle.std.specs.Prelude.{◌≡◌, ◌<◌, ℕ, nat_le, Bool, Option, not, length, bytes_eq, IfSome, IfOk, map, option_map, string_bytes};
ghost use Rattle.std.specs.List.{position, list_any};
ghost use Rattle.fts_files.specs.Calls.{saw_of};
ghost use Rattle.fts_files.specs.Script.{Script, LeadsTo, either, fails, value_of};
ghost use Rattle.fts_store.specs.Folders.{device_seen, as_met, first_met, sees_device, meets, makes_one, makes_down, lowest_of, has_folders, below, has_all, is_lowest, still_stable, is_settled, to_sync};
ghost use Rattle.fts_store.specs.Paths.{endpoint_in};
ghost use Rattle.fts_store.specs.Store.{place_at};

use crate::StoreFailed;
use crate::inside::endpoint_of;
use fts_files::{Failed, FileSystem, Kind, Refused, Seen};
use fts_tables::PlaceRef;
use std::alloc::Global;

/// The folders whose names are known to be stable, at most.
const MAX_STABLE_FOLDERS: usize = 256;

/// An endpoint's own folder as it was first met: its device, where it was there.
#[derive(Drop)]
pub(crate) struct Met {
    pub(crate) folder: String,
    pub(crate) device: Option<u64>,
}

/// Which of a file's folders were missing.
#[derive(Clone, Copy, Debug, PartialEq, Eq)]
pub(crate) enum Missing {
    Nothing,
    /// The lowest alone.
    Lowest,
    /// One above the lowest as well.
    Several,
}

// The device of a folder that was looked at; none where nothing has its name.
pub(crate) fn device_seen(answer: Result<Seen, Refused>) -> Result<Option<u64>, Failed>
    ensures { value_of result ≡ device_seen (saw_of answer) }
{
    match answer {
        Ok(seen) => match seen.kind {
            Kind::Folder => Ok(Some(seen.device)),
            Kind::File | Kind::Other => Err(Failed),
        },
        Err(refused) if refused.is_missing() => Ok(None),
        Err(_) => Err(Failed),
    }
}

// The device of a folder; none where nothing has its name.
fn see_device<F: FileSystem>(files: &mut F, folder: &str) -> Result<Option<u64>, Failed>
    ensures { (next : Option ℕ → Script) → LeadsTo (sees_device folder.now next) (F.calls files.old) (either next fails result) (F.calls files.new) }
{
    device_seen(files.look(folder))
}

// Whether a folder was there when it was first met. It must be as it was then, where it was there.
fn as_met(first: Option<Option<u64>>, device: Option<u64>) -> Result<bool, Failed>
    ensures { value_of result ≡ as_met first device }
{
    match first {
        None => Ok(device.is_some()),
        Some(None) => Ok(false),
        Some(Some(first)) => match device {
            Some(device) if device == first => Ok(true),
            _ => Err(Failed),
        },
    }
}

/// The own folder of a place's endpoint, with room to remember how it was met.
pub(crate) fn to_meet(
    alloc: Global,
    root: &str,
    met: &mut Vec<Met>,
    at: PlaceRef<'_>,
) -> Result<String, StoreFailed>
    ensures met { met.new.items ≡ met.old.items }
    ensures folder { IfOk result (λ folder. string_bytes folder ≡ endpoint_in root.now (place_at at.entry).endpoint) }
{
    met.reserve(1)?;
    endpoint_of(alloc, root, at.endpoint)
}

// How a folder was first met, where it was.
fn first_met(met: &[Met], folder: &str) -> Option<Option<u64>>
    ensures { result ≡ first_met met.now folder.now }
{
    met.iter()
        .find(|known| known.folder.as_str() == folder)
        .map(|known| known.device)
}

/// Looks at an endpoint's own folder. Whether it was there when it was first met; fails where it was and is gone, and where it is another's.
pub(crate) fn meet<F: FileSystem>(
    files: &mut F,
    met: &mut Vec<Met>,
    folder: String,
) -> Result<bool, Failed>
    ensures { (next : Bool → Script) → LeadsTo (meets met.old.items (string_bytes folder) next) (F.calls files.old) (either next fails result) (F.calls files.new) }
{
    let first = first_met(met, folder.as_str());
    let device = see_device(files, folder.as_str())?;
    let was_there = as_met(first, device)?;
    if first.is_none() {
        let _known = met.push(Met { folder, device });
    }
    Ok(was_there)
}

// Makes a folder where it is missing.
fn make_one<F: FileSystem>(files: &mut F, folder: &str) -> Result<(), Failed>
    ensures { (next : Script) → LeadsTo (makes_one folder.now next) (F.calls files.old) (either (λ done. next) fails result) (F.calls files.new) }
{
    let device = see_device(files, folder)?;
    if device.is_some() {
        return Ok(());
    }
    match files.make_folder(folder) {
        Ok(()) => Ok(()),
        Err(refused) if refused.is_taken() => Ok(()),
        Err(_) => Err(Failed),
    }
}

// Makes those of these folders that are missing, from the highest down.
fn make_all<F: FileSystem>(files: &mut F, folders: &[String]) -> Result<(), Failed>
    ensures { (next : Script) → LeadsTo (makes_down (map string_bytes folders.now) next) (F.calls files.old) (either (λ done. next) fails result) (F.calls files.new) }
{
    let count = folders.len();
    'folders: for i in 0..count {
        make_one(files, folders[count - 1 - i].as_str())?;
    }
    Ok(())
}

// The lowest of these folders.
fn lowest_of(folders: &[String]) -> Option<&str>
    ensures { option_map (λ folder. folder.now) result ≡ lowest_of (map string_bytes folders.now) }
{
    match folders.first() {
        Some(lowest) => Some(lowest.as_str()),
        None => None,
    }
}

// Makes those of these folders that are missing, and says which were.
fn have_folders<F: FileSystem>(files: &mut F, folders: &[String]) -> Result<Missing, Failed>
    ensures { (next : Missing → Script) → LeadsTo (has_folders (map string_bytes folders.now) next) (F.calls files.old) (either next fails result) (F.calls files.new) }
{
    let Some(lowest) = lowest_of(folders) else {
        return Ok(Missing::Nothing);
    };
    let device = see_device(files, lowest)?;
    if device.is_some() {
        return Ok(Missing::Nothing);
    }
    match files.make_folder(lowest) {
        Ok(()) => Ok(Missing::Lowest),
        Err(refused) if refused.is_taken() => Ok(Missing::Lowest),
        Err(refused) if refused.is_missing() => {
            make_all(files, folders)?;
            Ok(Missing::Several)
        }
        Err(_) => Err(Failed),
    }
}

// Whether a folder is this one of its file's, or lies above it.
fn is_above(folder: &String, top: &str) -> bool
    ensures { result ≡ nat_le (length (string_bytes folder.now)) (length top.now) }
{
    folder.len() <= top.len()
}

fn first_above(folders: &[String], top: &str) -> Option<usize>
    ensures first { result ≡ position (λ folder. nat_le (length (string_bytes folder)) (length top.now)) folders.now }
    ensures within { IfSome result (λ place. place < length folders.now) }
{
    folders.iter().position(|folder| is_above(folder, top))
}

/// Those of a file's folders that lie below this one.
pub(crate) fn below<'a>(folders: &'a [String], top: &str) -> &'a [String]
    ensures { map string_bytes result.now ≡ below (map string_bytes folders.now) top.now }
{
    match first_above(folders, top) {
        Some(count) => &folders[..count],
        None => folders,
    }
}

// Whether the lowest of these folders has this name.
fn is_lowest(folders: &[String], name: &str) -> bool
    ensures { result ≡ is_lowest (map string_bytes folders.now) name.now }
{
    match folders.first() {
        Some(lowest) => name == lowest.as_str(),
        None => false,
    }
}

/// Makes those of a file's folders that are missing, but not the endpoint's own where it was there when it was first met.
pub(crate) fn have_all<F: FileSystem>(
    files: &mut F,
    met: &mut Vec<Met>,
    endpoint: String,
    folders: &[String],
) -> Result<Missing, Failed>
    ensures { (next : Missing → Script) → LeadsTo (has_all met.old.items (string_bytes endpoint) (map string_bytes folders.now) next)
        (F.calls files.old) (either next fails result) (F.calls files.new) }
{
    let inner = below(folders, endpoint.as_str());
    let was_there = meet(files, met, endpoint)?;
    if was_there {
        have_folders(files, inner)
    } else {
        have_folders(files, folders)
    }
}

// Whether a folder isn't the lowest of these.
fn is_other(known: &String, folders: &[String]) -> bool
    ensures { result ≡ not (is_lowest (map string_bytes folders.now) (string_bytes known.now)) }
{
    !is_lowest(folders, known.as_str())
}

/// The folders whose names are still known to be stable: one that was made has a new name.
pub(crate) fn forget(stable: &mut Vec<String>, missing: Missing, folders: &[String])
    ensures { stable.new.items ≡ still_stable missing (map string_bytes folders.now) stable.old.items }
{
    match missing {
        Missing::Nothing => {}
        Missing::Lowest => stable.retain(|known| is_other(known, folders)),
        Missing::Several => stable.clear(),
    }
}

fn is_known(known: &String, folder: &str) -> bool
    ensures { result ≡ bytes_eq (string_bytes known.now) folder.now }
{
    known.as_str() == folder
}

fn are_known(stable: &[String], folder: &str) -> bool
    ensures { result ≡ list_any (λ known. bytes_eq (string_bytes known) folder.now) stable.now }
{
    stable.iter().any(|known| is_known(known, folder))
}

// Whether a folder's name is known to be stable, or it lies above the root.
fn is_settled(root: &str, stable: &[String], folder: &String) -> bool
    ensures { result ≡ is_settled root.now stable.now (string_bytes folder.now) }
{
    folder.len() < root.len() || are_known(stable, folder.as_str())
}

fn first_settled(root: &str, stable: &[String], folders: &[String]) -> Option<usize>
    ensures first { result ≡ position (λ folder. is_settled root.now stable.now (string_bytes folder)) folders.now }
    ensures within { IfSome result (λ place. place < length folders.now) }
{
    folders
        .iter()
        .position(|folder| is_settled(root, stable, folder))
}

/// Those of a file's folders that are to be synced: up to the first that is settled, and that one.
pub(crate) fn to_sync<'a>(root: &str, stable: &[String], folders: &'a [String]) -> &'a [String]
    ensures { map string_bytes result.now ≡ to_sync root.now stable.now (map string_bytes folders.now) }
{
    match first_settled(root, stable, folders) {
        Some(count) => &folders[..count + 1],
        None => folders,
    }
}

/// The names of these folders are stable from now on. Where memory is missing, some are synced once more.
pub(crate) fn remember(alloc: Global, stable: &mut Vec<String>, folders: &[String]) {
    for folder in folders {
        if stable.len() >= MAX_STABLE_FOLDERS {
            stable.clear();
        }
        if let Ok(folder) = String::from_str(alloc, folder.as_str()) {
            let _known = stable.push(folder);
        }
    }
}
