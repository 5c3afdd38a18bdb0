//! A run over the real devices: the system's streams and clock, hands, doors and a link, as the program makes them; its settings, disks and stores are
//! handed in, or those of a folder.
use fts_devices::{
    LinkLimits, OpenedFile, StopFile, SystemClock, TcpLink, closed_doors, hands_over, lanes_over,
};
use fts_disk::{Disk, FileDisk};
use fts_service::Doors;
use fts_store::{FolderStore, MemoryStore, Store};
use fts_tables::limits::{MAX_LANES, MAX_WORKERS};
use fts_tables::{Items, Memory};
use fts_top::{Ending, Outside, run};
use fts_wire::{Source, StdSink, StdSource};
use fts_workers::NoGate;
use std::alloc::Global;
use std::sync::Wait;
use std::test::Fail;
use std::thread::Threads;

/// The settings: two storages and two workers.
pub const SETTINGS: &str =
    "vo = \"demo\"\nworkers = 2\n[[storage]]\nurl = \"https://a.example\"\n[[storage]]\nurl = \"https://b.example\"\n";

/// How many hands a run has.
const HANDS: usize = MAX_WORKERS as usize;

/// How many doors a run has.
const LANES: usize = MAX_LANES as usize;

/// An empty store in memory for each hand.
pub fn memory_stores(alloc: Global) -> Result<Vec<MemoryStore>, Memory> {
    let mut stores = Vec::new(alloc);
    for _ in 0..HANDS {
        let files = Items::from_vec(Vec::new(alloc));
        let store = MemoryStore::new(alloc, files, Vec::new(alloc), Vec::new(alloc));
        if stores.push(store).is_err() {
            return Err(Memory);
        }
    }
    Ok(stores)
}

/// Runs a command over these settings, the disks of these two journals, these stores, one for each hand, and these doors, one for each lane.
pub fn run_over<
    F: Source + Drop,
    D: Disk + Send + Drop,
    E: Store + Send + Drop,
    A: Doors + Send + Drop,
    R: Threads + Wait + Sync,
>(
    rt: &HostRuntime,
    threads: &R,
    words: &[String],
    settings: F,
    journal: D,
    deletes: D,
    stores: Vec<E>,
    doors: Vec<A>,
) -> Result<Ending, Fail>
where
    A::Line: Send,
{
    let alloc = rt.alloc();
    if stores.len() != HANDS || doors.len() != LANES {
        return Err(Fail::new("not a store for each hand, or not doors for each lane"));
    }
    let mut outside = Outside {
        settings,
        input: StdSource::new(rt.stdin()),
        output: StdSink::new(rt.stdout()),
        notes: StdSink::new(rt.stderr()),
        disk: Some(journal),
        deletes: Some(deletes),
        clock: SystemClock::new(rt),
        hands: hands_over(rt, alloc, stores)?,
        lanes: lanes_over(rt, alloc, doors)?,
        link: TcpLink::new(rt, LinkLimits::of_client()),
        gate: NoGate,
    };
    Ok(run(threads, alloc, words, &mut outside))
}

/// Runs a command of a service in a folder: over its settings, its journal, which is made where it is absent and held, and its stores.
pub fn run_in_folder<R: Threads + Wait + Sync>(
    rt: &HostRuntime,
    threads: &R,
    folder: &str,
    words: &[String],
) -> Result<Ending, Fail> {
    let alloc = rt.alloc();
    let settings = format!(in alloc; "{folder}/fts.toml")?;
    let journal = format!(in alloc; "{folder}/fts.journal")?;
    let deletes = format!(in alloc; "{folder}/fts.deletes")?;
    let mut stores = Vec::new(alloc);
    for _ in 0..HANDS {
        let grid = format!(in alloc; "{folder}/grid")?;
        if stores.push(FolderStore::new(rt, alloc, grid)).is_err() {
            return Err(Fail::new("no memory"));
        }
    }
    run_over(
        rt,
        threads,
        words,
        StdSource::new(OpenedFile::open(rt, settings.as_str())),
        FileDisk::open(rt, journal.as_str()),
        FileDisk::view(rt, deletes.as_str()),
        stores,
        closed_doors(rt, alloc, StopFile::none(), None, None)?,
    )
}
