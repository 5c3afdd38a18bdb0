//! What holds a copy: a gate, until two copies have begun, and a store, before its first append, until a flag is raised.
//! Both give up after a number of looks, with a yield each, so that a test ends whatever the threads do.
use fts_store::{MemoryStore, Store, StoreFailed};
use fts_tables::{Outcome, PlaceRef};
use fts_workers::{CopyNote, Gate};
use std::sync::atomic::{AtomicU64, Ordering};
use std::thread::yield_now;

/// How often one looks before it gives up.
const LOOKS: u32 = 1_000_000;

/// A number that many threads raise, and wait for.
#[derive(Drop)]
pub struct Raised {
    count: AtomicU64,
}

impl Raised {
    /// One that is 0.
    pub fn new() -> Raised {
        Raised {
            count: AtomicU64::new(0),
        }
    }

    /// Raises it by one.
    pub fn raise(&self) {
        self.count.fetch_add(1, Ordering::SeqCst);
    }

    /// How often it was raised.
    pub fn count(&self) -> u64 {
        self.count.load(Ordering::SeqCst)
    }

    /// Whether it was raised.
    pub fn is_raised(&self) -> bool {
        self.count.load(Ordering::SeqCst) > 0
    }

    /// Waits until it is so high. Whether it got there.
    pub fn wait_for(&self, least: u64) -> bool {
        for _ in 0..LOOKS {
            if self.count.load(Ordering::SeqCst) >= least {
                return true;
            }
            yield_now();
        }
        false
    }
}

/// A gate that holds each copy until two have begun.
#[derive(Drop)]
pub struct BothBegin {
    pub begun: Raised,
    pub late: Raised,
    /// How many copies ended as verified at their first attempt, with 3 bytes and the number that their begin was answered with.
    pub ended: Raised,
}

impl Gate for BothBegin {
    ghost use Rattle.std.specs.Prelude.{false};

    ghost closes = { λ _. false };

    fn begun(&self, file: u32) -> u64 {
        self.begun.raise();
        if !self.begun.wait_for(2) {
            self.late.raise();
        }
        u64::from(file)
    }

    fn ended(&self, copy: &CopyNote, begun: u64, outcome: Outcome) {
        let is_own = begun == u64::from(copy.file) && copy.attempt == 1;
        if let (true, Outcome::Verified { size: 3, digest: _ }) = (is_own, outcome) {
            self.ended.raise();
        }
    }

    fn is_closed(&self) -> bool {
        false
    }
}

/// A gate that is closed once so many copies have begun.
#[derive(Drop)]
pub struct ClosesBehind {
    pub begun: Raised,
    pub most: u64,
}

impl Gate for ClosesBehind {
    ghost use Rattle.std.specs.Prelude.{true};

    ghost closes = { λ _. true };

    fn begun(&self, _file: u32) -> u64 {
        self.begun.raise();
        0
    }

    fn ended(&self, _copy: &CopyNote, _begun: u64, _outcome: Outcome) {}

    fn is_closed(&self) -> bool {
        self.begun.count() >= self.most
    }
}

/// That an append has begun, and that it may go on.
#[derive(Drop)]
pub struct Flags {
    pub started: Raised,
    pub goes_on: Raised,
}

impl Flags {
    /// Neither is raised.
    pub fn new() -> Flags {
        Flags {
            started: Raised::new(),
            goes_on: Raised::new(),
        }
    }
}

/// A store in memory that says when its first append begins, and holds each until it may go on.
#[derive(Drop)]
pub struct HeldStore<'a> {
    pub inner: MemoryStore,
    pub flags: &'a Flags,
}

impl<'a> Store for HeldStore<'a> {
    ghost use Rattle.std.specs.Prelude.{None};
    ghost use Rattle.fts_store.specs.Store.{untold};
    ghost use Rattle.fts_store.specs.Memory.{memory_faults};

    ghost state = { λ store. untold };

    ghost calls = { λ store. None };

    ghost faults = { λ store. memory_faults store.inner };

    fn size(&mut self, at: PlaceRef<'_>) -> Result<Option<u64>, StoreFailed> {
        self.inner.size(at)
    }

    fn read_at(
        &mut self,
        at: PlaceRef<'_>,
        offset: u64,
        into: &mut [u8],
    ) -> Result<usize, StoreFailed> {
        self.inner.read_at(at, offset, into)
    }

    fn create(&mut self, at: PlaceRef<'_>) -> Result<(), StoreFailed> {
        self.inner.create(at)
    }

    fn append(&mut self, at: PlaceRef<'_>, bytes: &[u8]) -> Result<(), StoreFailed> {
        self.flags.started.raise();
        self.flags.goes_on.wait_for(1);
        self.inner.append(at, bytes)
    }

    fn rename(&mut self, from: PlaceRef<'_>, to: PlaceRef<'_>) -> Result<(), StoreFailed> {
        self.inner.rename(from, to)
    }

    fn remove(&mut self, at: PlaceRef<'_>) -> Result<(), StoreFailed> {
        self.inner.remove(at)
    }
}
