//! What a script asks of a store, and what it does and sees by the system itself: folders, files and links that a test stands on, and what is there
//! behind it. An act has two texts, which its row holds: a row of plain fields costs next to nothing to prove, one of enums with fields half a second.
use std::alloc::Alloc;
use std::fs::{self, File, Files, Permissions};
use std::os::unix::fs::{MetadataExt, PermissionsExt, symlink};
use std::process::Abort;

/// What is done or asked. The first text is a path, where nothing else is said; paths of a store's are of its one endpoint.
#[derive(Clone, Copy, PartialEq, Eq)]
pub(crate) enum Act {
    // Of a store.
    /// A size, as that of the second text.
    Size,
    Create,
    /// The second text is appended.
    Append,
    /// The second text is read, and no more of eight bytes.
    Read,
    /// It is read from the second byte on.
    ReadOn,
    /// Nothing is read behind a text as long as the second.
    End,
    /// The second text is the new path.
    Rename,
    Remove,
    /// Behind a look at the path a part of the second text is made, and read back.
    Write,
    /// Such a part is made and moved to the path.
    Put,
    /// No file can be made, extended, read or put at the path.
    Refuse,
    /// The store sweeps; there are no texts.
    Sweep,
    /// It meets all folders.
    Meet,
    // Of the system.
    Folder,
    /// A file that has the second text.
    File,
    /// A link to the first text at the second.
    Link,
    /// The second text is the new path.
    Move,
    Unlink,
    /// A file may only be read.
    Shut,
    /// Something has the name, a link too.
    Find,
    /// A file has the second text.
    Holds,
}

/// What came of an act.
#[derive(Clone, Copy, PartialEq, Eq)]
pub(crate) enum Said {
    /// It is done, or it is so.
    Done,
    /// The call failed.
    Failed,
    /// Nothing is there.
    Nothing,
    /// It is not so.
    Otherwise,
}

/// What is done by the system, as a sentence; the act, and its texts.
pub(crate) type Deed = (&'static str, Act, &'static str, &'static str);

pub(crate) fn of_question(is_so: bool) -> Said {
    if is_so { Said::Done } else { Said::Otherwise }
}

/// Whether a real file holds these bytes; none stand for no file.
pub(crate) fn holds<R: Files<File = File> + Alloc>(rt: &R, path: &str, want: &str) -> bool {
    match fs::read(rt, path) {
        Ok(bytes) => !bytes.is_empty() && bytes.as_slice() == want.as_bytes(),
        Err(_) => want.is_empty(),
    }
}

fn find<R: Files<File = File>>(rt: &R, path: &str) -> Said {
    match fs::symlink_metadata(rt, path) {
        Ok(_) => Said::Done,
        Err(_) => Said::Nothing,
    }
}

pub(crate) fn has_rights<R: Files<File = File>>(rt: &R, path: &str, rights: u32) -> bool {
    match fs::metadata(rt, path) {
        Ok(seen) => seen.mode() & 0o777 == rights,
        Err(_) => false,
    }
}

pub(crate) fn have_rights<R: Files<File = File>>(rt: &R, path: &str, rights: u32) -> bool {
    fs::set_permissions(rt, path, Permissions::from_mode(rights)).is_ok()
}

/// Does or sees something by the system. What is asked of a store is nothing of its own.
pub(crate) fn do_act<R: Files<File = File> + Alloc>(
    rt: &R,
    act: Act,
    path: &str,
    text: &str,
) -> Said {
    match act {
        Act::Folder => of_question(fs::create_dir_all(rt, path).is_ok()),
        Act::File => of_question(fs::write(rt, path, text).is_ok()),
        Act::Link => of_question(symlink(rt, path, text).is_ok()),
        Act::Move => of_question(fs::rename(rt, path, text).is_ok()),
        Act::Unlink => of_question(fs::remove_file(rt, path).is_ok()),
        Act::Shut => of_question(have_rights(rt, path, 0o444)),
        Act::Find => find(rt, path),
        Act::Holds => of_question(holds(rt, path, text)),
        Act::Size
        | Act::Create
        | Act::Append
        | Act::Read
        | Act::ReadOn
        | Act::End
        | Act::Rename
        | Act::Remove
        | Act::Write
        | Act::Put
        | Act::Refuse
        | Act::Sweep
        | Act::Meet => Said::Otherwise,
    }
}

/// Does each of these, or sees that it is so.
pub(crate) fn do_all<R: Files<File = File> + Alloc + Abort>(rt: &R, deeds: &[Deed]) {
    for (case, act, path, text) in deeds {
        let is_so = do_act(rt, *act, path, text) == Said::Done;
        assert!(rt; is_so, "{case}");
    }
}
