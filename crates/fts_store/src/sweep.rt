//! Parts that were left: by a copy that ended otherwise than verified, or by a service that was ended.
//! Keeps: the names that are read decide the calls (`Sweeps`). Each part in the folder of parts of each folder below the root loses its name, where
//! it is a plain file that no run holds, and nothing else does. What can't be read or taken away is left, and so is all that follows where memory
//! is missing.
ghost use Rattle.std.specs.Prelude.{◌≡◌, if◌then◌else◌, IfOk, drop, filter, map, string_bytes};
ghost use Rattle.std.specs.List.{list_all};
ghost use Rattle.fts_files.specs.Making.{removes_stale};
ghost use Rattle.fts_files.specs.Script.{Script};
ghost use Rattle.fts_store.specs.FolderCalls.{UpToMemory};
ghost use Rattle.fts_store.specs.Listing.{below_in};
ghost use Rattle.fts_store.specs.Sweep.{is_digit, is_part_name, stays_below, parts_in, clears_each, sweeps_one, sweeps_each, Sweeps};

use crate::inside::are_names;
use crate::listing::{below, list, list_root};
use fts_files::{FileSystem, remove_stale};
use std::alloc::{AllocError, Global};

fn is_digit(byte: u8) -> bool
    ensures { result ≡ is_digit byte }
{
    0x30 <= byte && byte <= 0x39
}

fn are_digits(text: &[u8]) -> bool
    ensures { result ≡ list_all is_digit text.now }
{
    text.iter().all(|byte| is_digit(*byte))
}

// What stands behind the letters that a part's name begins with.
fn behind_letters(name: &[u8]) -> &[u8]
    ensures { result.now ≡ drop 5 name.now }
{
    match name.get(5..) {
        Some(digits) => digits,
        None => &[],
    }
}

// Whether a name is a part's.
fn is_part_name(name: &[u8]) -> bool
    ensures { result ≡ is_part_name name.now }
{
    let digits = behind_letters(name);
    name.starts_with(b"part-") && !matches!(digits, b"") && are_digits(digits)
}

// The folder of parts of a folder below the root.
fn parts_in(alloc: Global, root: &str, name: &str) -> Result<String, AllocError>
    ensures { IfOk result (λ folder. string_bytes folder ≡ parts_in root.now name.now) }
{
    let mut folder = below(alloc, root, name)?;
    folder.push_str("/.fts")?;
    Ok(folder)
}

// Takes the name away from a part that no run holds; another name is left.
fn clear_part<F: FileSystem>(
    files: &mut F,
    alloc: Global,
    folder: &str,
    part: &str,
) -> Result<(), AllocError>
    ensures { (next : Script) → UpToMemory result (if is_part_name part.now then removes_stale (below_in folder.now part.now) next next else next)
        (λ done. next) (F.calls files.old) (F.calls files.new) }
{
    if !is_part_name(part.as_bytes()) {
        return Ok(());
    }
    let path = below(alloc, folder, part)?;
    let _left = remove_stale(files, path.as_str());
    Ok(())
}

// Takes the names away from those of these that are parts.
fn clear_parts<F: FileSystem>(
    files: &mut F,
    alloc: Global,
    folder: &str,
    names: &[String],
) -> Result<(), AllocError>
    ensures { (next : Script) → UpToMemory result (clears_each folder.now (filter is_part_name (map string_bytes names.now)) next)
        (λ done. next) (F.calls files.old) (F.calls files.new) }
{
    'names: for name in names {
        clear_part(files, alloc, folder, name.as_str())?;
    }
    Ok(())
}

// Sweeps the folder of parts of a folder below the root.
fn sweep_folder<F: FileSystem>(
    files: &mut F,
    alloc: Global,
    root: &str,
    name: &str,
) -> Result<(), AllocError>
    ensures { (next : Script) → UpToMemory result (if stays_below name.now then sweeps_one root.now name.now next else next)
        (λ done. next) (F.calls files.old) (F.calls files.new) }
{
    if !are_names(name.as_bytes()) {
        return Ok(());
    }
    let folder = parts_in(alloc, root, name)?;
    let names = list(files, alloc, folder.as_str())?;
    clear_parts(files, alloc, folder.as_str(), names.as_slice())
}

// Sweeps the folders of parts of these.
fn sweep_folders<F: FileSystem>(
    files: &mut F,
    alloc: Global,
    root: &str,
    names: &[String],
) -> Result<(), AllocError>
    ensures { (next : Script) → UpToMemory result (sweeps_each root.now (filter stays_below (map string_bytes names.now)) next)
        (λ done. next) (F.calls files.old) (F.calls files.new) }
{
    'names: for name in names {
        sweep_folder(files, alloc, root, name.as_str())?;
    }
    Ok(())
}

/// Sweeps the folder of parts of each folder in the root. It ends early where memory is missing.
pub(crate) fn sweep<F: FileSystem>(
    files: &mut F,
    alloc: Global,
    root: &str,
) -> Result<(), AllocError>
    ensures { Sweeps root.now result (F.calls files.old) (F.calls files.new) }
{
    let names = list_root(files, alloc, root)?;
    sweep_folders(files, alloc, root, names.as_slice())
}
