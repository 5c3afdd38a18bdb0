//! A run that serves over a stand: settings, journal and stores in memory, with a clock that stands still, over any doors.
//! Keeps: there are 16 hands and 8 lanes, as a run asks for. Every error is answered as want of memory.
ghost use Rattle.std.specs.Prelude.{◌≡◌, ◌≤◌, length, IfOk};

use fts_client::MemoryLink;
use fts_disk::MemoryDisk;
use fts_store::{MemoryStore, StoredFile};
use fts_tables::{EndpointName, Items, ListClock, ListWords, Memory, PathKey, Place};
use fts_top::{Doors, Ending, Lane, Outside, run};
use fts_wire::{MemorySink, MemorySource};
use fts_workers::{Hand, NoGate};
use std::alloc::Global;
use std::io;
use std::sync::Wait;
use std::thread::Threads;

/// The settings: two storages and two workers.
pub const SETTINGS: &str =
    "vo = \"demo\"\nworkers = 2\n[[storage]]\nurl = \"https://a.example\"\n[[storage]]\nurl = \"https://b.example\"\n";

/// The moment of every command, in seconds since 1970.
pub const NOW: u64 = 1_700_000_000;

/// How many hands and lanes a run has.
const HANDS: usize = 16;

const LANES: usize = 8;

type StillHand = Hand<MemoryStore, ListClock, ListWords>;

pub fn no_memory(_: Memory) -> io::Error {
    io::Error::from(io::ErrorKind::OutOfMemory)
}

pub fn clock(alloc: Global) -> Result<ListClock, Memory> {
    Ok(ListClock::new([NOW].to_vec(alloc)?))
}

/// A store that holds `abc` at `https://a.example/data/f1`.
fn store(alloc: Global) -> Result<MemoryStore, Memory> {
    let endpoint = EndpointName::read(alloc, "https://a.example")?;
    let path = PathKey::read(alloc, "data/f1")?;
    let (Some(endpoint), Some(path)) = (endpoint, path) else {
        return Err(Memory);
    };
    let file = StoredFile {
        place: Place { endpoint, path },
        bytes: Items::from_vec(b"abc".to_vec(alloc)?),
    };
    let mut files = Items::new(alloc);
    match files.push(file) {
        Ok(()) => Ok(MemoryStore::new(alloc, files, Vec::new(alloc), Vec::new(alloc))),
        Err(_) => Err(Memory),
    }
}

/// These, where there are so many of them.
fn exactly<T: Drop>(made: Vec<T>, count: usize) -> Result<Vec<T>, Memory>
    ensures { IfOk result (λ kept. length kept.items ≡ count) }
{
    if made.len() == count {
        Ok(made)
    } else {
        Err(Memory)
    }
}

fn hands(alloc: Global) -> Result<Vec<StillHand>, Memory>
    ensures { IfOk result (λ hands. length hands.items ≡ 16) }
{
    let mut hands = Vec::new(alloc);
    for _ in 0..HANDS {
        let hand = Hand {
            store: store(alloc)?,
            clock: clock(alloc)?,
            words: ListWords::new([0].to_vec(alloc)?),
        };
        if hands.push(hand).is_err() {
            return Err(Memory);
        }
    }
    exactly(hands, HANDS)
}

/// Lanes at these doors. There are eight of them.
fn lanes<A: Doors + Drop>(alloc: Global, doors: Vec<A>) -> Result<Vec<Lane<A, ListClock>>, Memory>
    ensures { IfOk result (λ lanes. length lanes.items ≡ 8) }
{
    let mut lanes = Vec::new(alloc);
    for one in doors {
        let lane = Lane {
            doors: one,
            clock: clock(alloc)?,
        };
        if lanes.push(lane).is_err() {
            return Err(Memory);
        }
    }
    exactly(lanes, LANES)
}

/// How a run ended, and what it left.
#[derive(Drop)]
pub struct Left<A: Doors> {
    pub ending: Ending,
    pub notes: MemorySink,
    pub disk: MemoryDisk,
    pub lanes: Vec<Lane<A, ListClock>>,
}

/// A link that gives no line.
fn no_link(alloc: Global) -> Result<MemoryLink, Memory> {
    match MemoryLink::new(alloc, Vec::new(alloc), Vec::new(alloc)) {
        Ok(link) => Ok(link),
        Err((Memory, _)) => Err(Memory),
    }
}

/// The words of a command line.
fn owned(alloc: Global, words: &[&str]) -> Result<Vec<String>, Memory> {
    let mut owned = Vec::new(alloc);
    for word in words {
        if owned.push(String::from_str(alloc, word)?).is_err() {
            return Err(Memory);
        }
    }
    Ok(owned)
}

/// A run of these words over these eight doors and this disk.
pub fn run_over<A: Doors + Send + Drop, R: Threads + Wait + Sync>(
    alloc: Global,
    threads: &R,
    words: &[&str],
    doors: Vec<A>,
    disk: MemoryDisk,
) -> Result<Left<A>, Memory>
where
    A::Line: Send,
{
    let words = owned(alloc, words)?;
    let mut outside = Outside {
        settings: MemorySource::new(SETTINGS.as_bytes().to_vec(alloc)?, Vec::new(alloc)),
        input: MemorySource::new(Vec::new(alloc), Vec::new(alloc)),
        output: MemorySink::new(alloc, Vec::new(alloc)),
        notes: MemorySink::new(alloc, Vec::new(alloc)),
        disk: Some(disk),
        deletes: Some(MemoryDisk::new(alloc, Vec::new(alloc))),
        clock: clock(alloc)?,
        hands: hands(alloc)?,
        lanes: lanes(alloc, doors)?,
        link: no_link(alloc)?,
        gate: NoGate,
    };
    let ending = run(threads, alloc, words.as_slice(), &mut outside);
    let Outside {
        settings: _,
        input: _,
        output: _,
        notes,
        disk,
        deletes: _,
        clock: _,
        hands: _,
        lanes,
        link: _,
        gate: _,
    } = outside;
    match disk {
        Some(disk) => Ok(Left {
            ending,
            notes,
            disk,
            lanes,
        }),
        None => unreachable!(),
    }
}
