//! A store and a watch for tests of one copy whose files change while it runs.
//! `Changing` holds a source, a part and a destination in memory. Before the call of a number the source changes, and the call of another may fail.
//! It notes a letter for each call that was made of it, and tells nothing of its files, as real ones don't. `WritingWatch` changes a real file.
ghost use Rattle.std.specs.Prelude.{◌≡◌, ◌≤◌, length, IsErr};
ghost use Rattle.fts_tables.specs.Counts.{CountsFaults};

use fts_copy::Watch;
use fts_store::{Store, StoreFailed};
use fts_tables::PlaceRef;
use std::fs::{self, File, Files};
use std::mem;

/// The three files of a copy.
#[derive(Drop)]
pub struct Changing {
    pub source: Option<&'static [u8]>,
    /// What the source is from the call of that number on, from 1; 0 is none.
    pub later: Option<&'static [u8]>,
    pub changes_at: usize,
    /// The number of the call that fails, from 1; 0 is none.
    pub fails_at: usize,
    pub part: Vec<u8>,
    pub dest: Vec<u8>,
    /// A letter for each call: S and s for a size and a read of the source, D for a size of the destination, c, a, p and m where the part is made,
    /// appended to, read and moved, x where it is removed, and ? for any other.
    pub calls: Vec<u8>,
    pub faults: u64,
}

fn is_source(at: PlaceRef<'_>) -> bool {
    at.path.as_bytes().starts_with(b"data/")
}

fn is_part(at: PlaceRef<'_>) -> bool {
    at.path.as_bytes().starts_with(b".fts/")
}

fn read(bytes: &[u8], offset: u64, into: &mut [u8]) -> usize
    ensures { result ≤ length into.new }
{
    if offset >= bytes.len() as u64 {
        return 0;
    }
    let rest = &bytes[offset as usize..];
    let count = rest.len().min(into.len());
    into[..count].copy_from_slice(&rest[..count]);
    count
}

fn failed<T>(faults: &mut u64) -> Result<T, StoreFailed>
    ensures err { IsErr result }
    ensures cause { CountsFaults faults.old faults.new result }
{
    *faults = faults.saturating_add(1);
    Err(StoreFailed)
}

impl Changing {
    // Notes a call, before which the source may change. Whether it is done.
    fn is_done(&mut self, letter: u8) -> bool
        ensures { self.new.faults ≡ self.old.faults }
    {
        if self.calls.push(letter).is_err() {
            return false;
        }
        let number = self.calls.len();
        if number == self.changes_at {
            self.source = self.later;
        }
        number != self.fails_at
    }
}

impl Store for Changing {
    ghost use Rattle.std.specs.Prelude.{None};
    ghost use Rattle.fts_store.specs.Store.{untold};

    ghost state = { λ store. untold };

    ghost calls = { λ store. None };

    ghost faults = { λ store. store.faults };

    fn size(&mut self, at: PlaceRef<'_>) -> Result<Option<u64>, StoreFailed> {
        if !self.is_done(if is_source(at) { b'S' } else { b'D' }) {
            return failed(&mut self.faults);
        }
        if is_source(at) {
            return Ok(self.source.map(|bytes| bytes.len() as u64));
        }
        if self.dest.is_empty() {
            Ok(None)
        } else {
            Ok(Some(self.dest.len() as u64))
        }
    }

    fn read_at(
        &mut self,
        at: PlaceRef<'_>,
        offset: u64,
        into: &mut [u8],
    ) -> Result<usize, StoreFailed> {
        if !self.is_done(if is_source(at) { b's' } else { b'p' }) {
            return failed(&mut self.faults);
        }
        if is_part(at) {
            return Ok(read(self.part.as_slice(), offset, into));
        }
        match self.source {
            Some(bytes) => Ok(read(bytes, offset, into)),
            None => failed(&mut self.faults),
        }
    }

    fn create(&mut self, at: PlaceRef<'_>) -> Result<(), StoreFailed> {
        if !self.is_done(if is_part(at) { b'c' } else { b'?' }) {
            return failed(&mut self.faults);
        }
        self.part.clear();
        Ok(())
    }

    fn append(&mut self, at: PlaceRef<'_>, bytes: &[u8]) -> Result<(), StoreFailed> {
        if !self.is_done(if is_part(at) { b'a' } else { b'?' })
            || self.part.extend_from_slice(bytes).is_err()
        {
            return failed(&mut self.faults);
        }
        Ok(())
    }

    fn rename(&mut self, from: PlaceRef<'_>, _to: PlaceRef<'_>) -> Result<(), StoreFailed> {
        if !self.is_done(if is_part(from) { b'm' } else { b'?' }) {
            return failed(&mut self.faults);
        }
        mem::swap(&mut self.dest, &mut self.part);
        Ok(())
    }

    fn remove(&mut self, at: PlaceRef<'_>) -> Result<(), StoreFailed> {
        if !self.is_done(if is_part(at) { b'x' } else { b'?' }) {
            return failed(&mut self.faults);
        }
        self.part.clear();
        Ok(())
    }
}

/// A watch that says yes, and at its first asking writes a real file anew.
#[derive(Drop)]
pub struct WritingWatch<'a, R> {
    pub rt: &'a R,
    pub path: &'a str,
    pub bytes: &'a str,
    pub askings: u64,
}

impl<'a, R: Files<File = File>> Watch for WritingWatch<'a, R> {
    ghost use Rattle.std.specs.Prelude.{None};

    ghost noes = { λ watch. 0 };

    ghost askings = { λ watch. watch.askings };

    ghost answers = { λ watch. None };

    ghost later = { λ old new. Unit {0} };

    fn wanted(&mut self) -> bool {
        if self.askings == 0 {
            let _written = fs::write(self.rt, self.path, self.bytes);
        }
        self.askings = self.askings.saturating_add(1);
        true
    }

    ghost stays = { λ watch. tt };

    ghost passes = { λ one two three first second. tt };
}
