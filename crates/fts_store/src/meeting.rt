//! What a store in a folder knows of its endpoints as it begins: each folder below its root that is there, and the device that it lies on.
//! Keeps: the names that are read decide the looks; what is known is exactly what they saw, and nothing is changed (`Meets`). What is no folder, or
//! can't be looked at, is left to be met at its first use. Where memory is missing it ends early.
ghost use Rattle.std.specs.Prelude.{◌≡◌, ◌<◌, ◌++◌, if◌then◌else◌, List, filter, map, length, string_bytes, vec_capacity, OnOk, OnErr};
ghost use Rattle.fts_files.specs.Calls.{Answer, Look, with_call};
ghost use Rattle.fts_files.specs.Script.{Script, LeadsTo, value_of};
ghost use Rattle.fts_store.specs.Folders.{device_seen};
ghost use Rattle.fts_store.specs.Meeting.{Known, there_of, known_of, known_at, looks_at, looks_each, LooksOn, Meets};
ghost use Rattle.fts_store.specs.Sweep.{stays_below};

use crate::folders::{Met, device_seen};
use crate::inside::are_names;
use crate::listing::{below, list_root};
use fts_files::{Failed, FileSystem};
use std::alloc::{AllocError, Global};

// The device of a folder that is there, of what a look found.
fn there_of(seen: Result<Option<u64>, Failed>) -> Option<u64>
    ensures { result ≡ there_of (value_of seen) }
{
    match seen {
        Ok(device) => device,
        Err(_) => None,
    }
}

// Looks at a folder: its device, where it is there.
fn see_folder<F: FileSystem>(files: &mut F, folder: &str) -> Option<u64>
    ensures { (answer : Answer) × ((F.calls files.new ≡ with_call (F.calls files.old) (Look folder.now) answer) × (result ≡ there_of (device_seen answer))) }
{
    there_of(device_seen(files.look(folder)))
}

// Remembers a folder that is there.
fn keep_known(met: &mut Vec<Met>, folder: String, device: Option<u64>)
    requires { length met.old.items < vec_capacity met.old }
    ensures { map known_of met.new.items ≡ map known_of met.old.items ++ known_at (string_bytes folder) device }
{
    match device {
        Some(_) => met.push_reserved(Met { folder, device }),
        None => {}
    }
}

// Looks at the folder of a name below the root, and remembers it where it is there.
fn meet_one<F: FileSystem>(
    files: &mut F,
    alloc: Global,
    root: &str,
    met: &mut Vec<Met>,
    name: &str,
) -> Result<(), AllocError>
    ensures looked { OnOk result ((next : List Known → Script) → LeadsTo
        (if stays_below name.now then looks_at root.now name.now (map known_of met.old.items) next else next (map known_of met.old.items))
        (F.calls files.old) (next (map known_of met.new.items)) (F.calls files.new)) }
    ensures unasked { OnErr result ((F.calls files.new ≡ F.calls files.old) × (met.new.items ≡ met.old.items)) }
{
    if !are_names(name.as_bytes()) {
        return Ok(());
    }
    met.reserve(1)?;
    let folder = below(alloc, root, name)?;
    let device = see_folder(files, folder.as_str());
    keep_known(met, folder, device);
    Ok(())
}

// The same of these names.
fn meet_each<F: FileSystem>(
    files: &mut F,
    alloc: Global,
    root: &str,
    met: &mut Vec<Met>,
    names: &[String],
) -> Result<(), AllocError>
    ensures { LooksOn result root.now (looks_each root.now (filter stays_below (map string_bytes names.now)) (map known_of met.old.items))
        (F.calls files.old) (F.calls files.new) met.new.items }
{
    'names: for name in names {
        meet_one(files, alloc, root, met, name.as_str())?;
    }
    Ok(())
}

/// Looks at each folder in the root, and remembers those that are there.
pub(crate) fn meet_all<F: FileSystem>(
    files: &mut F,
    alloc: Global,
    root: &str,
    met: &mut Vec<Met>,
) -> Result<(), AllocError>
    ensures { Meets root.now result (F.calls files.old) (F.calls files.new) met.old.items met.new.items }
{
    let names = list_root(files, alloc, root)?;
    meet_each(files, alloc, root, met, names.as_slice())
}
