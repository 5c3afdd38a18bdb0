//! A run of a stand: settings, input and output in memory, over any disk and store, with a clock that stands still.
//! Keeps: there are 16 hands before and after, as a run asks for.
//! The exchanges have a folder's disk and store, all others those in memory.
ghost use Rattle.std.specs.Prelude.{◌≡◌, length, IfOk};

use fts_client::MemoryLink;
use fts_disk::{Disk, MemoryDisk};
use fts_store::{MemoryStore, Store, StoredFile};
use fts_tables::{Clock, EndpointName, Items, ListClock, ListWords, Memory, PathKey, Place};
use fts_top::{Ending, Lane, MemoryDoors, Outside, run_alone};
use fts_wire::{MemorySink, MemorySource, Source};
use fts_workers::{Hand, NoGate};
use std::alloc::Global;
use std::io;

/// The moment of every command, in seconds since 1970.
pub const NOW: u64 = 1_700_000_000;

/// The settings of each run in memory.
pub const SETTINGS: &str =
    "vo = \"demo\"\nworkers = 2\n[[storage]]\nurl = \"https://a.example\"\n[[storage]]\nurl = \"https://b.example\"\n";

/// A hand whose clock stands still.
pub type StillHand<E> = Hand<E, ListClock, ListWords>;

/// What a run has beside its disk, its hands and its clock.
#[derive(Drop)]
pub struct Given<S> {
    pub settings: MemorySource,
    pub input: S,
    pub output: MemorySink,
    pub notes: MemorySink,
    pub link: MemoryLink,
}

/// What is left behind a run.
#[derive(Drop)]
pub struct Ended<D, E: Store> {
    pub ending: Ending,
    pub output: MemorySink,
    pub notes: MemorySink,
    pub disk: D,
    pub hands: Vec<StillHand<E>>,
}

pub fn no_memory(_: Memory) -> io::Error {
    io::Error::from(io::ErrorKind::OutOfMemory)
}

/// Answers 1 where a row is as wanted; else prints it and answers 0.
pub fn count_row(rt: &HostRuntime, row: &str, is_wanted: bool) -> io::Result<u32> {
    if is_wanted {
        return Ok(1);
    }
    println!(rt; "otherwise: {row}")?;
    Ok(0)
}

/// Prints how many there were of what is named.
pub fn print_count(rt: &HostRuntime, what: &str, count: u32) -> io::Result<()> {
    println!(rt; "{what}: {count}")
}

/// These, where there are so many of them.
pub fn exactly<T: Drop>(made: Vec<T>, count: usize) -> io::Result<Vec<T>>
    ensures { IfOk result (λ kept. length kept.items ≡ count) }
{
    if made.len() == count {
        Ok(made)
    } else {
        Err(io::Error::from(io::ErrorKind::InvalidInput))
    }
}

fn clock(alloc: Global) -> io::Result<ListClock> {
    Ok(ListClock::new([NOW].to_vec(alloc)?))
}

/// A source of these bytes, no read of which fails.
pub fn source(alloc: Global, bytes: &[u8]) -> io::Result<MemorySource> {
    Ok(MemorySource::new(bytes.to_vec(alloc)?, Vec::new(alloc)))
}

/// What a run of this input has where no call fails.
pub fn make_given<S: Drop>(alloc: Global, settings: &str, input: S) -> io::Result<Given<S>> {
    Ok(Given {
        settings: source(alloc, settings.as_bytes())?,
        input,
        output: MemorySink::new(alloc, Vec::new(alloc)),
        notes: MemorySink::new(alloc, Vec::new(alloc)),
        link: no_link(alloc)?,
    })
}

/// A file of three bytes on the first storage.
fn source_file(alloc: Global, path: &str) -> Result<Option<StoredFile>, Memory> {
    let endpoint = EndpointName::read(alloc, "https://a.example")?;
    let path = PathKey::read(alloc, path)?;
    match (endpoint, path) {
        (Some(endpoint), Some(path)) => Ok(Some(StoredFile {
            place: Place { endpoint, path },
            bytes: Items::from_vec(b"abc".to_vec(alloc)?),
        })),
        _ => Ok(None),
    }
}

/// A store with these files, of which these calls fail.
pub fn store(alloc: Global, paths: &[&str], fail: Vec<u32>) -> Result<MemoryStore, Memory> {
    let mut files = Vec::new(alloc);
    for path in paths {
        if let Some(file) = source_file(alloc, path)? {
            if files.push(file).is_err() {
                return Err(Memory);
            }
        }
    }
    let files = Items::from_vec(files);
    Ok(MemoryStore::new(alloc, files, fail, Vec::new(alloc)))
}

/// Sixteen hands, the first of which has a store with these files, of which these calls fail.
pub fn hands_with(
    alloc: Global,
    paths: &[&str],
    fail: Vec<u32>,
) -> io::Result<Vec<StillHand<MemoryStore>>>
    ensures { IfOk result (λ hands. length hands.items ≡ 16) }
{
    let mut stores = Vec::new(alloc);
    let mut next = store(alloc, paths, fail).map_err(no_memory)?;
    for _ in 0..16 {
        if stores.push(next).is_err() {
            return Err(no_memory(Memory));
        }
        next = store(alloc, &[], Vec::new(alloc)).map_err(no_memory)?;
    }
    hands_over(alloc, stores)
}

/// Sixteen hands over these stores. There are as many of them.
pub fn hands_over<E: Store + Drop>(alloc: Global, stores: Vec<E>) -> io::Result<Vec<StillHand<E>>>
    ensures { IfOk result (λ hands. length hands.items ≡ 16) }
{
    let mut hands = Vec::new(alloc);
    for store in stores {
        let hand = Hand {
            store,
            clock: clock(alloc)?,
            words: ListWords::new([0].to_vec(alloc)?),
        };
        if hands.push(hand).is_err() {
            return Err(no_memory(Memory));
        }
    }
    exactly(hands, 16)
}

/// Clocks that stand still, one for each lane.
fn clocks(alloc: Global) -> io::Result<Vec<ListClock>> {
    let mut clocks = Vec::new(alloc);
    for _ in 0..8 {
        if clocks.push(clock(alloc)?).is_err() {
            return Err(no_memory(Memory));
        }
    }
    Ok(clocks)
}

/// Eight lanes to which no connection comes, each with its clock. There are as many of them.
pub fn lanes<C: Clock + Drop>(
    alloc: Global,
    clocks: Vec<C>,
) -> io::Result<Vec<Lane<MemoryDoors, C>>>
    ensures { IfOk result (λ lanes. length lanes.items ≡ 8) }
{
    let mut lanes = Vec::new(alloc);
    for clock in clocks {
        let Ok(doors) = MemoryDoors::new(alloc, Vec::new(alloc), Vec::new(alloc)) else {
            return Err(no_memory(Memory));
        };
        if lanes.push(Lane { doors, clock }).is_err() {
            return Err(no_memory(Memory));
        }
    }
    exactly(lanes, 8)
}

/// A link that gives no line.
pub fn no_link(alloc: Global) -> io::Result<MemoryLink> {
    match MemoryLink::new(alloc, Vec::new(alloc), Vec::new(alloc)) {
        Ok(link) => Ok(link),
        Err((Memory, _)) => Err(no_memory(Memory)),
    }
}

/// An empty disk in memory, of which no call fails.
pub fn empty_disk(alloc: Global) -> MemoryDisk {
    MemoryDisk::new(alloc, Vec::new(alloc))
}

/// The words of a command line.
pub fn owned(alloc: Global, words: &[&str]) -> io::Result<Vec<String>> {
    let mut owned = Vec::new(alloc);
    for word in words {
        owned.push(String::from_str(alloc, word)?)?;
    }
    Ok(owned)
}

/// Runs these words, which are not to serve.
pub fn run_words<S: Source + Drop, D: Disk + Drop, E: Store + Drop>(
    alloc: Global,
    words: &[&str],
    given: Given<S>,
    disk: D,
    deletes: D,
    hands: Vec<StillHand<E>>,
) -> io::Result<Ended<D, E>>
    requires { length hands.items ≡ 16 }
    ensures { IfOk result (λ ended. length ended.hands.items ≡ 16) }
{
    let words = owned(alloc, words)?;
    let mut outside = Outside {
        settings: given.settings,
        input: given.input,
        output: given.output,
        notes: given.notes,
        disk: Some(disk),
        deletes: Some(deletes),
        clock: clock(alloc)?,
        hands,
        lanes: lanes(alloc, clocks(alloc)?)?,
        link: given.link,
        gate: NoGate,
    };
    let ended = run_alone(alloc, words.as_slice(), &mut outside);
    let Outside {
        settings: _,
        input: _,
        output,
        notes,
        disk,
        deletes: _,
        clock: _,
        hands,
        lanes: _,
        link: _,
        gate: _,
    } = outside;
    match (ended, disk) {
        (Some(ending), Some(disk)) => Ok(Ended {
            ending,
            output,
            notes,
            disk,
            hands,
        }),
        // The words are not to serve, and the disk comes back.
        (None, _) | (_, None) => Err(io::Error::from(io::ErrorKind::InvalidInput)),
    }
}

/// Runs these words, which are not to serve, over empty disks in memory.
pub fn run_anew<S: Source + Drop>(
    alloc: Global,
    words: &[&str],
    given: Given<S>,
    hands: Vec<StillHand<MemoryStore>>,
) -> io::Result<Ended<MemoryDisk, MemoryStore>>
    requires { length hands.items ≡ 16 }
    ensures { IfOk result (λ ended. length ended.hands.items ≡ 16) }
{
    run_words(
        alloc,
        words,
        given,
        empty_disk(alloc),
        empty_disk(alloc),
        hands,
    )
}

/// Runs a session over a disk and stores in memory.
pub fn session(
    alloc: Global,
    given: Given<MemorySource>,
    disk: MemoryDisk,
    hands: Vec<StillHand<MemoryStore>>,
) -> io::Result<Ended<MemoryDisk, MemoryStore>>
    requires { length hands.items ≡ 16 }
    ensures { IfOk result (λ ended. length ended.hands.items ≡ 16) }
{
    run_words(alloc, &["session"], given, disk, empty_disk(alloc), hands)
}
