//! A store in memory. It tells its files, and is faithful unless appends are listed that lose their last byte.
//! The n-th call, from 1, fails where n is in its list of those; the n-th append, from 1, loses its last byte where n is in the other.
//! A call that finds no memory fails too, as on a full device. Failures are counted, and change no file. No other call fails.
//! An append to a file that isn't there makes it; a file that isn't there reads as empty, and is removed or moved as such.
//! For tests of what stands on a store, and for runs that end with their program.
ghost use Rattle.std.specs.Prelude.{◌≡◌, ◌≤◌, ◌+◌, ◌==◌, if◌then◌else◌, min, length, IsTrue, ◌↔◌, Contains};
ghost use Rattle.std.specs.List.{list_any};
ghost use Rattle.fts_tables.specs.Counts.{CountsFaults};
ghost use Rattle.fts_store.specs.Store.{Reads};
ghost use Rattle.fts_store.specs.Memory.{but_last};

use crate::held::{Held, StoredFile};
use crate::{Store, StoreFailed};
use fts_tables::{Items, PlaceRef};
use std::alloc::Global;

/// Files in memory.
pub struct MemoryStore {
    pub(crate) held: Held,
    pub(crate) fail: Vec<u32>,
    pub(crate) drop: Vec<u32>,
    pub(crate) number: u64,
    pub(crate) appends: u64,
    pub(crate) faults: u64,
}

impl Drop for MemoryStore {
    fn drop(self) {
        let MemoryStore {
            held: _,
            fail: _,
            drop: _,
            number: _,
            appends: _,
            faults: _,
        } = self;
    }
}

impl MemoryStore {
    ghost use Rattle.std.specs.Prelude.{◌≡◌};
    ghost use Rattle.fts_store.specs.Store.{Same, place_at};
    ghost use Rattle.fts_store.specs.Held.{given_at};
    ghost use Rattle.fts_store.specs.Memory.{memory_state, memory_faults, failing_calls, losing_appends, calls_made, appends_made};

    /// A store of these files, whose n-th call, from 1, fails where n is in `fail`, and whose n-th append loses its last byte where n is in
    /// `drop`. Where two files have one place, the first is there.
    pub fn new(
        alloc: Global,
        files: Items<StoredFile>,
        fail: Vec<u32>,
        drop: Vec<u32>,
    ) -> MemoryStore
        ensures files { Same (memory_state result).files (given_at files) }
        ensures fails { failing_calls result ≡ fail.items }
        ensures loses { losing_appends result ≡ drop.items }
        ensures calls { calls_made result ≡ 0 }
        ensures appends { appends_made result ≡ 0 }
        ensures faults { memory_faults result ≡ 0 }
    {
        let held = Held {
            alloc,
            given: files,
            made: Vec::new(alloc),
        };
        MemoryStore {
            held,
            fail,
            drop,
            number: 0,
            appends: 0,
            faults: 0,
        }
    }
}

// Counts a call. Whether its number is listed.
fn is_listed(number: &mut u64, list: &[u32]) -> bool
    ensures number { number.new ≡ min (number.old + 1) 18446744073709551615 }
    ensures listed { result ≡ list_any (λ n. n == number.new) list.now }
    ensures contains { IsTrue result ↔ Contains list.now number.new }
{
    *number = number.saturating_add(1);
    let number = *number;
    list.iter().any(|listed| u64::from(*listed) == number)
}

// Counts a failure.
fn count(faults: &mut u64, answer: Result<(), StoreFailed>) -> Result<(), StoreFailed>
    ensures same { result ≡ answer }
    ensures cause { CountsFaults faults.old faults.new result }
{
    if answer.is_err() {
        *faults = faults.saturating_add(1);
    }
    answer
}

// All but the last byte, where it is lost.
fn kept(bytes: &[u8], is_lost: bool) -> &[u8]
    ensures { result.now ≡ (if is_lost then but_last bytes.now else bytes.now) }
{
    if is_lost {
        &bytes[..bytes.len().saturating_sub(1)]
    } else {
        bytes
    }
}

// Reads what is there from an offset on, as much as the buffer holds.
fn read(bytes: &[u8], offset: u64, into: &mut [u8]) -> usize
    ensures within { result ≤ length into.new }
    ensures given { Reads bytes.now offset into.new result }
{
    if offset >= bytes.len() as u64 {
        return 0;
    }
    let rest = &bytes[offset as usize..];
    let count = rest.len().min(into.len());
    into[..count].copy_from_slice(&rest[..count]);
    count
}

impl MemoryStore {
    ghost use Rattle.std.specs.Prelude.{◌≡◌};
    ghost use Rattle.fts_tables.specs.Counts.{CountsFaults};
    ghost use Rattle.fts_store.specs.Memory.{memory_state, memory_faults, FailsOnlyListed, Numbered};

    // Gives a call its number. One that is listed fails, and is counted.
    fn begin(&mut self) -> Result<(), StoreFailed>
        ensures held { self.new.held ≡ self.old.held }
        ensures appends { self.new.appends ≡ self.old.appends }
        ensures same { memory_state self.new ≡ memory_state self.old }
        ensures cause { CountsFaults (memory_faults self.old) (memory_faults self.new) result }
        ensures numbered { Numbered self.old self.new result }
        ensures only { FailsOnlyListed self.old result }
    {
        if is_listed(&mut self.number, &self.fail) {
            count(&mut self.faults, Err(StoreFailed))
        } else {
            Ok(())
        }
    }
}

impl Store for MemoryStore {
    ghost use Rattle.std.specs.Prelude.{◌≡◌, ◌≤◌, ◌++◌, [], length, Some, None, IsSome, IfOk, OnOk, OnErr};
    ghost use Rattle.fts_tables.specs.Counts.{CountsFaults};
    ghost use Rattle.fts_store.specs.Store.{IsFaithful, Stays, Reads, Same, SameBut, place_at, bytes_of, size_of, with_file, with_move};
    ghost use Rattle.fts_store.specs.Held.{IsNamed, HasRoom};
    ghost use Rattle.fts_store.specs.Memory.{memory_state, memory_faults, FailsOnlyListed, Numbered, kept_bytes, next_append};

    ghost state = { memory_state };

    ghost calls = { λ _. None };

    ghost faults = { memory_faults };

    fn size(&mut self, at: PlaceRef<'_>) -> Result<Option<u64>, StoreFailed>
        ensures same { memory_state self.new ≡ memory_state self.old }
        ensures size { IfOk result (λ size. size ≡ size_of ((memory_state self.old).files (place_at at.entry))) }
        ensures cause { CountsFaults (memory_faults self.old) (memory_faults self.new) result }
        ensures numbered { Numbered self.old self.new result }
        ensures only { FailsOnlyListed self.old result }
    {
        self.begin()?;
        Ok(self.held.file(at).map(|bytes| bytes.len() as u64))
    }

    fn read_at(
        &mut self,
        at: PlaceRef<'_>,
        offset: u64,
        into: &mut [u8],
    ) -> Result<usize, StoreFailed>
        ensures same { memory_state self.new ≡ memory_state self.old }
        ensures within { IfOk result (λ count. count ≤ length into.new) }
        ensures bytes { IfOk result (λ count. Reads (bytes_of ((memory_state self.old).files (place_at at.entry))) offset into.new count) }
        ensures cause { CountsFaults (memory_faults self.old) (memory_faults self.new) result }
        ensures numbered { Numbered self.old self.new result }
        ensures only { FailsOnlyListed self.old result }
    {
        self.begin()?;
        Ok(read(self.held.file(at).unwrap_or(&[]), offset, into))
    }

    fn create(&mut self, at: PlaceRef<'_>) -> Result<(), StoreFailed>
        ensures stays { Stays (memory_state self.old) (memory_state self.new) }
        ensures made { OnOk result (Same (memory_state self.new).files (with_file (memory_state self.old).files (place_at at.entry) (Some []))) }
        ensures failed { OnErr result (Same (memory_state self.new).files (memory_state self.old).files) }
        ensures cause { CountsFaults (memory_faults self.old) (memory_faults self.new) result }
        ensures numbered { Numbered self.old self.new result }
        ensures only { IsNamed self.old.held (place_at at.entry) → FailsOnlyListed self.old result }
    {
        self.begin()?;
        let answer = self.held.create(at);
        count(&mut self.faults, answer)
    }

    fn append(&mut self, at: PlaceRef<'_>, bytes: &[u8]) -> Result<(), StoreFailed>
        ensures stays { Stays (memory_state self.old) (memory_state self.new) }
        ensures exact { OnOk result (Same (memory_state self.new).files (with_file (memory_state self.old).files (place_at at.entry)
            (Some (bytes_of ((memory_state self.old).files (place_at at.entry)) ++ kept_bytes self.old.drop.items (next_append self.old) bytes.now)))) }
        ensures failed { OnErr result (Same (memory_state self.new).files (memory_state self.old).files) }
        ensures cause { CountsFaults (memory_faults self.old) (memory_faults self.new) result }
        ensures there { OnOk result (IsSome ((memory_state self.new).files (place_at at.entry))) }
        ensures appended { IsFaithful (memory_state self.old)
            → OnOk result ((memory_state self.new).files (place_at at.entry) ≡
            Some (bytes_of ((memory_state self.old).files (place_at at.entry)) ++ bytes.now)) }
        ensures others { SameBut (place_at at.entry) (memory_state self.old).files (memory_state self.new).files }
        ensures number { self.new.appends ≡ next_append self.old }
        ensures numbered { Numbered self.old self.new result }
        ensures only { HasRoom self.old.held (place_at at.entry) (length bytes.now) → FailsOnlyListed self.old result }
    {
        let is_lost = is_listed(&mut self.appends, &self.drop);
        self.begin()?;
        let answer = self.held.append(at, kept(bytes, is_lost));
        count(&mut self.faults, answer)
    }

    fn rename(&mut self, from: PlaceRef<'_>, to: PlaceRef<'_>) -> Result<(), StoreFailed>
        ensures stays { Stays (memory_state self.old) (memory_state self.new) }
        ensures moved { OnOk result (Same (memory_state self.new).files (with_move (memory_state self.old).files (place_at from.entry) (place_at to.entry))) }
        ensures failed { OnErr result (Same (memory_state self.new).files (memory_state self.old).files) }
        ensures cause { CountsFaults (memory_faults self.old) (memory_faults self.new) result }
        ensures numbered { Numbered self.old self.new result }
        ensures only { IsNamed self.old.held (place_at from.entry) → IsNamed self.old.held (place_at to.entry) → FailsOnlyListed self.old result }
    {
        self.begin()?;
        let answer = self.held.rename(from, to);
        count(&mut self.faults, answer)
    }

    fn remove(&mut self, at: PlaceRef<'_>) -> Result<(), StoreFailed>
        ensures stays { Stays (memory_state self.old) (memory_state self.new) }
        ensures removed { OnOk result (Same (memory_state self.new).files (with_file (memory_state self.old).files (place_at at.entry) None)) }
        ensures failed { OnErr result (Same (memory_state self.new).files (memory_state self.old).files) }
        ensures cause { CountsFaults (memory_faults self.old) (memory_faults self.new) result }
        ensures numbered { Numbered self.old self.new result }
        ensures only { IsNamed self.old.held (place_at at.entry) → FailsOnlyListed self.old result }
    {
        self.begin()?;
        let answer = self.held.put(at, None);
        count(&mut self.faults, answer)
    }
}
