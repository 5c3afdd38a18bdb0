//! A part that is open: it is made, bytes are put behind it, and it is moved to its destination.
//! Keeps: its handle is the one that was locked, and its end is that of the bytes that were put (`end`); what a failed append has left there
//! is written over by the next one. What a move that succeeded has done is said without a script by `moved`.
//! Order: `make`, `append` piece by piece, `read_some` to read it back, `put_in_place`.
use crate::making::make_part;
use crate::moving::put_in_place;
use crate::reading::read_some;
use crate::writing::write_whole;
use crate::{Failed, FileSystem};

/// An open part, by a handle of its file system.
#[derive(Drop)]
pub struct OpenPart<H: Drop> {
    file: H,
    end: u64,
}

impl<H: Drop> OpenPart<H> {
    ghost use Rattle.std.specs.Prelude.{◌≡◌, ◌+◌, ◌≤◌, Some, ℕ, List, length, take, map, string_bytes, IfOk, OnOk, OnErr};
    ghost use Rattle.fts_files.specs.Calls.{Done};
    ghost use Rattle.fts_files.specs.Script.{Script, Ends, LeadsTo, Plays, either, fails, done_end};
    ghost use Rattle.fts_files.specs.Writing.{writes_whole};
    ghost use Rattle.fts_files.specs.Reading.{reads_once};
    ghost use Rattle.fts_files.specs.Making.{makes_part};
    ghost use Rattle.fts_files.specs.Moving.{moves};
    ghost use Rattle.fts_files.specs.Moved.{IsMoved, GrewBy};

    /// Makes a part of no bytes and locks it. What has its name loses it first, unless another run holds it: then this fails, and so it does
    /// where the system refuses a call or the name is another file's by then.
    pub fn make<F: FileSystem<Handle = H>>(files: &mut F, path: &str) -> Result<OpenPart<H>, Failed>
        ensures script { (next : ℕ → Script) → LeadsTo (makes_part path.now next) (F.calls files.old) (either (λ part. next (F.number part.file)) fails result) (F.calls files.new) }
        ensures end { IfOk result (λ part. part.end ≡ 0) }
    {
        let file = make_part(files, path)?;
        Ok(OpenPart { file, end: 0 })
    }

    /// Puts bytes behind the part. Fails where the system refuses a call, takes no bytes, or no file would be so long.
    pub fn append<F: FileSystem<Handle = H>>(
        &mut self,
        files: &mut F,
        bytes: &[u8],
    ) -> Result<(), Failed>
        ensures script { (next : Script) → LeadsTo (writes_whole (F.number self.old.file) self.old.end bytes.now next)
            (F.calls files.old) (either (λ done. next) fails result) (F.calls files.new) }
        ensures file { self.new.file ≡ self.old.file }
        ensures end { OnOk result (self.new.end ≡ self.old.end + length bytes.now) }
        ensures failed { OnErr result (self.new.end ≡ self.old.end) }
    {
        write_whole(files, &self.file, self.end, bytes)?;
        self.end += bytes.len() as u64;
        Ok(())
    }

    /// Reads bytes of the part from an offset on, as many as are there or fewer, and none only at its end. Gives how many. Fails where the system
    /// refuses the read, or interrupts a thousand.
    pub fn read_some<F: FileSystem<Handle = H>>(
        &self,
        files: &mut F,
        offset: u64,
        into: &mut [u8],
    ) -> Result<usize, Failed>
        ensures within { IfOk result (λ count. count ≤ length into.new) }
        ensures script { (next : List ℕ → Script) → LeadsTo (reads_once (F.number self.now.file) offset (length into.old) next 1000)
            (F.calls files.old) (either (λ count. next (take count into.new)) fails result) (F.calls files.new) }
    {
        read_some(files, &self.file, offset, into)
    }

    /// Moves the part to its destination, and syncs these folders in their order. With leave to replace, what has the name loses it. Without,
    /// this fails where something has the name, and takes the new name back where a call behind the link fails. It fails too where a name is
    /// another file's, and where the system refuses a call.
    pub fn put_in_place<F: FileSystem<Handle = H>>(
        &self,
        files: &mut F,
        part: &str,
        dest: &str,
        folders: &[String],
        overwrite: bool,
    ) -> Result<(), Failed>
        ensures script { (next : Script) → LeadsTo (moves (F.number self.now.file) part.now dest.now (map string_bytes folders.now) overwrite next)
            (F.calls files.old) (either (λ done. next) fails result) (F.calls files.new) }
        ensures moved { OnOk result (GrewBy (IsMoved (F.number self.now.file) part.now dest.now (map string_bytes folders.now) overwrite) (F.calls files.old) (F.calls files.new)) }
    {
        put_in_place(files, &self.file, part, dest, folders, overwrite)
    }
}
