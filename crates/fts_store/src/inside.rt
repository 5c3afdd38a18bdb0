//! Where a store's files lie: which places stay inside its folder, and the paths of files and of the folders that they lie in.
//! Keeps: no path of a place that would leave the folder is made (`path_of`). Only `FolderStore` stands on it.
//! A path is the root, the endpoint's name with each slash a comma, and the place's path, with slashes between them.
ghost use Rattle.std.specs.Prelude.{◌≡◌, ◌∷◌, ◌++◌, [], false, IsErr, IfOk, OnOk, map, option_map, string_bytes};
ghost use Rattle.std.specs.List.{list_all};
ghost use Rattle.std.specs.Path.{path_parent};
ghost use Rattle.fts_tables.specs.Names.{segments};
ghost use Rattle.fts_store.specs.Store.{place_at};
ghost use Rattle.fts_store.specs.Folder.{is_name, stays_inside, is_among_parts};
ghost use Rattle.fts_store.specs.Paths.{endpoint_in, path_in, folders_of};

use crate::StoreFailed;
use fts_tables::PlaceRef;
use std::alloc::Global;
use std::path::Path;

fn is_name(text: &[u8]) -> bool
    ensures { result ≡ is_name text.now }
{
    !matches!(text, b"" | b"." | b"..")
}

pub(crate) fn are_names(text: &[u8]) -> bool
    ensures { result ≡ list_all is_name (segments text.now) }
{
    text.split(|byte| *byte == 0x2f)
        .all(|segment| is_name(segment))
}

pub(crate) fn stays_inside(at: PlaceRef<'_>) -> bool
    ensures { result ≡ stays_inside (place_at at.entry) }
{
    is_name(at.endpoint.as_bytes()) && are_names(at.path.as_bytes())
}

/// Whether a path lies in the folder that is kept for parts.
pub(crate) fn is_among_parts(path: &[u8]) -> bool
    ensures { result ≡ is_among_parts path.now }
{
    path.starts_with(b".fts/")
}

/// The folder of an endpoint, below the root.
pub(crate) fn endpoint_of(alloc: Global, root: &str, endpoint: &str) -> Result<String, StoreFailed>
    ensures { IfOk result (λ folder. string_bytes folder ≡ endpoint_in root.now endpoint.now) }
{
    let mut folder = root.as_bytes().to_vec(alloc)?;
    folder.extend_from_slice(b"/")?;
    let letters = endpoint.as_bytes();
    'letters: for byte in letters {
        let letter = if *byte == 0x2f { 0x2c } else { *byte };
        folder.extend_from_slice(&[letter])?;
    }
    match String::from_utf8(folder) {
        Ok(folder) => Ok(folder),
        Err(_) => Err(StoreFailed),
    }
}

/// The path of a file, where it lies below the root.
pub(crate) fn path_of(alloc: Global, root: &str, at: PlaceRef<'_>) -> Result<String, StoreFailed>
    ensures outside { stays_inside (place_at at.entry) ≡ false → IsErr result }
    ensures path { IfOk result (λ path. string_bytes path ≡ path_in root.now (place_at at.entry)) }
{
    if !stays_inside(at) {
        return Err(StoreFailed);
    }
    let mut path = endpoint_of(alloc, root, at.endpoint)?;
    path.push_str("/")?;
    path.push_str(at.path)?;
    Ok(path)
}

// The folder that something lies in, where its path names one.
fn above(path: &str) -> Option<&str>
    ensures { option_map (λ folder. folder.now) result ≡ path_parent path.now }
{
    Path::new(path).parent().map(|folder| folder.as_str())
}

// Puts a folder behind others.
fn put(alloc: Global, folders: &mut Vec<String>, folder: &str) -> Result<(), StoreFailed>
    ensures { OnOk result (map string_bytes folders.new.items ≡ map string_bytes folders.old.items ++ folder.now ∷ []) }
{
    if folders.push(String::from_str(alloc, folder)?).is_err() {
        return Err(StoreFailed);
    }
    Ok(())
}

/// The folders that a file lies in, from the lowest up to the first of its path.
pub(crate) fn folders_of(alloc: Global, path: &str) -> Result<Vec<String>, StoreFailed>
    ensures { IfOk result (λ folders. map string_bytes folders.items ≡ folders_of path.now) }
{
    let mut folders = Vec::new(alloc);
    let mut below = path;
    'folders: for i in 0..path.len() {
        let _folders = i;
        let Some(folder) = above(below) else {
            return Ok(folders);
        };
        if folder.is_empty() {
            put(alloc, &mut folders, ".")?;
            return Ok(folders);
        }
        put(alloc, &mut folders, folder)?;
        below = folder;
    }
    Ok(folders)
}
