//! The names in a folder, and the paths of what has them.
//! Keeps: what is found is what the reading of the names gave (`names_told`); where it was refused, that is nothing. A name that is no text is
//! passed over, since no path is made of it.
ghost use Rattle.std.specs.Prelude.{◌≡◌, ◌==◌, ◌∷◌, ◌++◌, [], filter, map, codes, string_bytes, IfOk, OnOk};
ghost use Rattle.std.specs.List.{slice_split};
ghost use Rattle.std.specs.Str.{is_utf8};
ghost use Rattle.fts_store.specs.Listing.{below_in, names_in, AreListed};

use fts_files::FileSystem;
use std::alloc::{AllocError, Global};

/// The path of what has a name in a folder.
pub(crate) fn below(alloc: Global, folder: &str, name: &str) -> Result<String, AllocError>
    ensures { IfOk result (λ path. string_bytes path ≡ below_in folder.now name.now) }
{
    let mut path = String::from_str(alloc, folder)?;
    path.push_str("/")?;
    path.push_str(name)?;
    Ok(path)
}

// Puts a name behind others, where it is a text.
fn keep_text(alloc: Global, names: &mut Vec<String>, name: &[u8]) -> Result<(), AllocError>
    ensures { OnOk result (map string_bytes names.new.items ≡ map string_bytes names.old.items ++ filter is_utf8 (name.now ∷ [])) }
{
    let Ok(text) = std::str::from_utf8(name) else {
        return Ok(());
    };
    let text = String::from_str(alloc, text)?;
    names.reserve(1)?;
    names.push_reserved(text);
    Ok(())
}

// What stands between the zeros of a list.
fn pieces_of<'a>(alloc: Global, listed: &'a [u8]) -> Result<Vec<&'a [u8]>, AllocError>
    ensures { IfOk result (λ pieces. map (λ piece. piece.now) pieces.items ≡ slice_split (λ byte. byte == 0) listed.now) }
{
    listed.split(|byte| *byte == 0).collect(alloc)
}

// The names in a list in which a zero stands behind each.
fn names_of(alloc: Global, listed: &[u8]) -> Result<Vec<String>, AllocError>
    ensures { IfOk result (λ names. map string_bytes names.items ≡ names_in listed.now) }
{
    let mut names = Vec::new(alloc);
    let pieces = pieces_of(alloc, listed)?;
    'pieces: for piece in pieces.as_slice() {
        keep_text(alloc, &mut names, piece)?;
    }
    Ok(names)
}

/// The names in a folder; none where they can't be read.
pub(crate) fn list<F: FileSystem>(
    files: &mut F,
    alloc: Global,
    folder: &str,
) -> Result<Vec<String>, AllocError>
    ensures { AreListed folder.now result (F.calls files.old) (F.calls files.new) }
{
    let mut listed = Vec::new(alloc);
    match files.names(folder, &mut listed) {
        Ok(()) => names_of(alloc, listed.as_slice()),
        Err(_) => Ok(Vec::new(alloc)),
    }
}

// The root, so that a link at its end is followed.
fn root_in(alloc: Global, root: &str) -> Result<String, AllocError>
    ensures { IfOk result (λ folder. string_bytes folder ≡ root.now ++ codes "/") }
{
    let mut folder = String::from_str(alloc, root)?;
    folder.push_str("/")?;
    Ok(folder)
}

/// The names in the root; none where they can't be read.
pub(crate) fn list_root<F: FileSystem>(
    files: &mut F,
    alloc: Global,
    root: &str,
) -> Result<Vec<String>, AllocError>
    ensures { AreListed (root.now ++ codes "/") result (F.calls files.old) (F.calls files.new) }
{
    let folder = root_in(alloc, root)?;
    list(files, alloc, folder.as_str())
}
