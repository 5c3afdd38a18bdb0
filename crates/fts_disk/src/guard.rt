//! What a disk makes of the system's calls, so that an answer is of the device and not of pages that it may never get.
//! Keeps: after a write or a sync that failed nothing is believed (`failed` of each call); the next call first syncs all of the file, drops its
//! pages and looks at its length. What is ready is then the lesser of what was and of what is there, and the next writes are read back, until
//! four have gone beyond the place that failed.
//! Zeros ahead: before a write that would pass the end of what is ready, zeros are written there and synced, so that the syncs of later
//! writes have no length and no extent to make stable. The first bytes of an empty file get none.
//! Each call makes exactly the calls of its script (`script`), over every file system.
ghost use Rattle.std.specs.Prelude.{◌≡◌, ◌+◌, ◌-◌, ◌/◌, ◌^◌, ◌≤◌, ◌==◌, ℕ, List, length, replicate};
ghost use Rattle.fts_files.specs.Script.{Script, LeadsTo, either, fails};
ghost use Rattle.fts_disk.specs.Guard.{restores, ready_end, needs_zeros, readies, zeros_on, reads_back, after_read_back, confirms, writes_there, reads_full, guarded_write, guarded_sync, write_place, place_of, doubted};

use crate::DiskFailed;
use fts_files::{Failed, FileSystem, fits_file, match_whole, read_whole, write_whole};
use fts_tables::limits::JOURNAL_END;

/// So many bytes are made ready at once.
const READY_BYTES: u64 = 1 << 20;

/// And written in pieces of so many zeros.
const ZEROS: [u8; 65_536] = [0; 65_536];

/// After a failure so many writes beyond its place are read back: those of a settled doubt and of an append, and one more.
const READ_BACKS: u32 = 4;

/// What is believed of a file.
#[derive(Clone, Copy)]
pub(crate) enum Trust {
    /// That its pages are the device's.
    Whole,
    /// The same, but so many writes more that go beyond this place are read back.
    ReadBack { writes: u32, from: u64 },
    /// Nothing: a write or a sync failed at this place.
    Nothing { from: u64 },
}

/// What is known of a file.
#[derive(Clone, Copy)]
pub(crate) struct State {
    /// Up to here nothing has to grow.
    pub(crate) ready: u64,
    /// The first byte that was written since the last sync, or the greatest number.
    pub(crate) unsynced: u64,
    pub(crate) trust: Trust,
}

// What is known once the pages are the device's again.
fn restore<F: FileSystem>(files: &mut F, file: &F::Handle, state: State) -> Result<State, Failed>
    ensures { (next : State → Script) → LeadsTo (restores (F.number file.now) state next) (F.calls files.old) (either next fails result) (F.calls files.new) }
{
    match state.trust {
        Trust::Nothing { from } => {
            files.sync_all(file)?;
            files.forget(file)?;
            let seen = files.look_at_open(file)?;
            Ok(State {
                ready: state.ready.min(seen.len),
                trust: Trust::ReadBack {
                    writes: READ_BACKS,
                    from,
                },
                ..state
            })
        }
        Trust::Whole | Trust::ReadBack { .. } => Ok(state),
    }
}

// The end of the zeros that are made ready for a write up to this end.
fn ready_end(end: u64) -> u64
    requires { end ≤ 2 ^ 62 }
    ensures { result ≡ ready_end end }
{
    let block_end = (end / READY_BYTES + 1) * READY_BYTES;
    end.max(block_end.min(JOURNAL_END))
}

// Whether a write of so many bytes would pass what is ready, from inside it or from its end. An empty file gets no zeros, so that what a crash
// leaves of its first write is no longer than that write.
fn needs_zeros(ready: u64, at: u64, size: u64) -> bool
    ensures { result ≡ needs_zeros ready at size }
{
    at <= ready && ready != 0 && ready - at < size
}

// So many zeros, a piece at most.
fn zeros(block: &[u8], size: usize) -> &[u8]
    requires block { block.now ≡ replicate 65536 0 }
    requires size { size ≤ 65536 }
    ensures { result.now ≡ replicate size 0 }
{
    &block[..size]
}

fn write_zeros<F: FileSystem>(
    files: &mut F,
    file: &F::Handle,
    from: u64,
    to: u64,
) -> Result<(), Failed>
    requires order { from ≤ to }
    requires end { to ≤ 2 ^ 62 }
    ensures { (next : Script) → LeadsTo (zeros_on (F.number file.now) next to from ((to - from + 65535) / 65536))
        (F.calls files.old) (either (λ done. next) fails result) (F.calls files.new) }
{
    let pieces = (to - from + 65_535) / 65_536;
    'zeros: for i in 0..pieces {
        let at = from + i * 65_536;
        let size = (to - at).min(65_536);
        write_whole(files, file, at, zeros(&ZEROS, size as usize))?;
    }
    Ok(())
}

// Zeros up to a block's end and a sync, where a write of so many bytes needs them.
fn make_ready<F: FileSystem>(
    files: &mut F,
    file: &F::Handle,
    ready: u64,
    at: u64,
    size: u64,
) -> Result<u64, Failed>
    requires { at + size ≤ 2 ^ 62 }
    ensures { (next : ℕ → Script) → LeadsTo (readies (F.number file.now) ready at size next) (F.calls files.old) (either next fails result) (F.calls files.new) }
{
    if !needs_zeros(ready, at, size) {
        return Ok(ready);
    }
    let to = ready_end(at + size);
    write_zeros(files, file, ready, to)?;
    files.sync_data(file)?;
    Ok(to)
}

// Fails unless the device gives these bytes.
fn read_back<F: FileSystem>(
    files: &mut F,
    file: &F::Handle,
    at: u64,
    bytes: &[u8],
) -> Result<(), Failed>
    ensures { (next : Script) → LeadsTo (reads_back (F.number file.now) at bytes.now next) (F.calls files.old) (either (λ done. next) fails result) (F.calls files.new) }
{
    files.sync_all(file)?;
    files.forget(file)?;
    match_whole(files, file, at, bytes)
}

// What is believed once a write up to this end was read back.
fn after_read_back(end: u64, writes: u32, from: u64) -> Trust
    ensures { result ≡ after_read_back end writes from }
{
    if end <= from {
        Trust::ReadBack { writes, from }
    } else if writes <= 1 {
        Trust::Whole
    } else {
        Trust::ReadBack {
            writes: writes - 1,
            from,
        }
    }
}

// Reads back what was written, where that is to be done.
fn confirm<F: FileSystem>(
    files: &mut F,
    file: &F::Handle,
    at: u64,
    bytes: &[u8],
    state: State,
) -> Result<State, Failed>
    requires { at + length bytes.now ≤ 2 ^ 62 }
    ensures { (next : State → Script) → LeadsTo (confirms (F.number file.now) at bytes.now state next) (F.calls files.old) (either next fails result) (F.calls files.new) }
{
    match state.trust {
        Trust::ReadBack { writes, from } => {
            read_back(files, file, at, bytes)?;
            Ok(State {
                trust: after_read_back(at + bytes.len() as u64, writes, from),
                ..state
            })
        }
        Trust::Whole | Trust::Nothing { .. } => Ok(state),
    }
}

// Writes what lies in a file.
fn write_there<F: FileSystem>(
    files: &mut F,
    file: &F::Handle,
    state: State,
    at: u64,
    bytes: &[u8],
) -> Result<State, Failed>
    requires { at + length bytes.now ≤ 2 ^ 62 }
    ensures { (next : State → Script) → LeadsTo (writes_there (F.number file.now) state at bytes.now next) (F.calls files.old) (either next fails result) (F.calls files.new) }
{
    let now = restore(files, file, state)?;
    let ready = make_ready(files, file, now.ready, at, bytes.len() as u64)?;
    write_whole(files, file, at, bytes)?;
    let written = State {
        ready: ready.max(at + bytes.len() as u64),
        unsynced: now.unsynced.min(at),
        ..now
    };
    confirm(files, file, at, bytes, written)
}

fn write<F: FileSystem>(
    files: &mut F,
    file: &F::Handle,
    state: State,
    at: u64,
    bytes: &[u8],
) -> Result<State, Failed>
    ensures { (next : State → Script) → LeadsTo (guarded_write (F.number file.now) state at bytes.now next) (F.calls files.old) (either next fails result) (F.calls files.new) }
{
    if !fits_file(at, bytes.len()) {
        return Err(Failed);
    }
    write_there(files, file, state, at, bytes)
}

fn sync<F: FileSystem>(files: &mut F, file: &F::Handle, state: State) -> Result<State, Failed>
    ensures { (next : State → Script) → LeadsTo (guarded_sync (F.number file.now) state next) (F.calls files.old) (either next fails result) (F.calls files.new) }
{
    let now = restore(files, file, state)?;
    files.sync_data(file)?;
    Ok(State {
        unsynced: u64::MAX,
        ..now
    })
}

// Whether all came that were wanted.
fn is_full(count: usize, wanted: usize) -> bool
    ensures { result ≡ (count == wanted) }
{
    count == wanted
}

// Fills the buffer with the bytes from an offset on.
fn read_full<F: FileSystem>(
    files: &mut F,
    file: &F::Handle,
    at: u64,
    into: &mut [u8],
) -> Result<(), Failed>
    ensures { (next : List ℕ → Script)
        → LeadsTo (reads_full (F.number file.now) at (length into.old) next) (F.calls files.old) (either (λ done. next into.new) fails result) (F.calls files.new) }
{
    let count = read_whole(files, file, at, into)?;
    if !is_full(count, into.len()) {
        return Err(Failed);
    }
    Ok(())
}

// The place that fails where a write of so many bytes does.
fn write_place(state: State, at: u64, size: u64) -> u64
    ensures { result ≡ write_place state at size }
{
    if needs_zeros(state.ready, at, size) {
        state.ready
    } else {
        state.unsynced.min(at)
    }
}

// The place that failed before, or the start.
fn place_of(trust: Trust) -> u64
    ensures { result ≡ place_of trust }
{
    match trust {
        Trust::Whole => 0,
        Trust::ReadBack { writes: _, from } => from,
        Trust::Nothing { from } => from,
    }
}

// Nothing is believed any more; the place is the furthest one that failed.
fn doubted(state: State, from: u64) -> State
    ensures { result ≡ doubted state from }
{
    State {
        trust: Trust::Nothing {
            from: from.max(place_of(state.trust)),
        },
        ..state
    }
}

/// An open file of a file system, and what is known of it.
#[derive(Drop)]
pub(crate) struct Guard<F: FileSystem> {
    file: F::Handle,
    state: State,
}

impl<F: FileSystem> Guard<F> {
    ghost use Rattle.std.specs.Prelude.{◌≡◌, ℕ, min, List, length, OnErr};
    ghost use Rattle.fts_files.specs.Script.{Script, LeadsTo, either, fails};
    ghost use Rattle.fts_disk.specs.Guard.{guarded_write, guarded_sync, guarded_read, guarded_len, write_place, doubted};
    ghost use Rattle.fts_disk.specs.declared.guard.State.{State};

    /// One whose pages are the device's, as long as it was found.
    pub(crate) fn new(file: F::Handle, len: u64) -> Guard<F>
        ensures file { result.file ≡ file }
    {
        Guard {
            file,
            state: State {
                ready: len,
                unsynced: u64::MAX,
                trust: Trust::Whole,
            },
        }
    }

    /// The open file.
    pub(crate) fn file(&self) -> &F::Handle
        ensures { result.now ≡ self.now.file }
    {
        &self.file
    }

    /// The number of bytes.
    pub(crate) fn len(&mut self, files: &mut F) -> Result<u64, DiskFailed>
        ensures file { self.new.file ≡ self.old.file }
        ensures script { (next : State → ℕ → Script) → LeadsTo (guarded_len (F.number self.old.file) self.old.state next)
            (F.calls files.old) (either (next self.new.state) fails result) (F.calls files.new) }
        ensures failed { OnErr result (self.new.state ≡ self.old.state) }
    {
        let now = restore(files, &self.file, self.state)?;
        let seen = files.look_at_open(&self.file)?;
        self.state = now;
        Ok(seen.len)
    }

    /// Fills the buffer with the bytes from an offset on, all of which have to be there.
    pub(crate) fn read_at(
        &mut self,
        files: &mut F,
        at: u64,
        into: &mut [u8],
    ) -> Result<(), DiskFailed>
        ensures file { self.new.file ≡ self.old.file }
        ensures script { (next : State → List ℕ → Script) → LeadsTo (guarded_read (F.number self.old.file) self.old.state at (length into.old) next)
            (F.calls files.old) (either (λ done. next self.new.state into.new) fails result) (F.calls files.new) }
        ensures failed { OnErr result (self.new.state ≡ self.old.state) }
    {
        let now = restore(files, &self.file, self.state)?;
        read_full(files, &self.file, at, into)?;
        self.state = now;
        Ok(())
    }

    /// Writes over what is there, and past the end. After a failure nothing is believed, and no more is ready than before.
    pub(crate) fn write_at(
        &mut self,
        files: &mut F,
        at: u64,
        bytes: &[u8],
    ) -> Result<(), DiskFailed>
        ensures file { self.new.file ≡ self.old.file }
        ensures script { (next : State → Script) → LeadsTo (guarded_write (F.number self.old.file) self.old.state at bytes.now next)
            (F.calls files.old) (either (λ done. next self.new.state) fails result) (F.calls files.new) }
        ensures failed { OnErr result (self.new.state ≡ doubted self.old.state (write_place self.old.state at (length bytes.now))) }
    {
        let old = self.state;
        self.state = doubted(old, write_place(old, at, bytes.len() as u64));
        self.state = write(files, &self.file, old, at, bytes)?;
        Ok(())
    }

    /// Makes stable what was written. After a failure nothing is believed, and no more is ready than before.
    pub(crate) fn sync(&mut self, files: &mut F) -> Result<(), DiskFailed>
        ensures file { self.new.file ≡ self.old.file }
        ensures script { (next : State → Script) → LeadsTo (guarded_sync (F.number self.old.file) self.old.state next)
            (F.calls files.old) (either (λ done. next self.new.state) fails result) (F.calls files.new) }
        ensures failed { OnErr result (self.new.state ≡ doubted self.old.state (min self.old.state.unsynced self.old.state.ready)) }
    {
        let old = self.state;
        self.state = doubted(old, old.unsynced.min(old.ready));
        self.state = sync(files, &self.file, old)?;
        Ok(())
    }
}
