//! A shop over a journal in memory, and stations with stores in memory: all that the tests need but threads.
//! Every error is answered as want of memory. Only the tests of this crate use it.
ghost use Rattle.std.specs.Prelude.{◌≡◌, IfOk};
ghost use Rattle.fts_shop.specs.Turns.{IsReady};

use fts_config::read_settings;
use fts_disk::MemoryDisk;
use fts_jobdoc::read_job;
use fts_keep::Keep;
use fts_shop::{Shop, Station};
use fts_store::{MemoryStore, Store, StoredFile};
use fts_tables::{
    Command, EndpointName, FileState, Items, ListClock, ListWords, Memory, PathKey, Place,
};
use fts_turnstile::Pass;
use fts_workers::{Bench, Hand};
use std::alloc::Global;

const SETTINGS: &str =
    "vo = \"demo\"\nworkers = 4\ndefault_max_active = 4\n[[storage]]\nurl = \"https://a.example\"\n[[storage]]\nurl = \"https://b.example\"\n";

/// A document of two files.
pub const TWO_FILES: &str =
    "{\"files\":[{\"sources\":[\"https://a.example/f1\"],\"destinations\":[\"https://b.example/f1\"]},{\"sources\":[\"https://a.example/f2\"],\"destinations\":[\"https://b.example/f2\"]}]}";

/// A keep with a job of these files, submitted at moment 0.
pub fn keep(alloc: Global, document: &str) -> Result<Keep<MemoryDisk>, Memory> {
    let Ok(settings) = read_settings(alloc, SETTINGS.as_bytes()) else {
        return Err(Memory);
    };
    let disk = MemoryDisk::new(alloc, Vec::new(alloc));
    let Ok(mut keep) = Keep::start(alloc, disk, settings, 0) else {
        return Err(Memory);
    };
    let Some(settings) = keep.desk().settings() else {
        return Err(Memory);
    };
    let Ok(job) = read_job(alloc, document.as_bytes(), settings) else {
        return Err(Memory);
    };
    match keep.apply(0, Command::Submit { now: 0, job }) {
        Ok(_) => Ok(keep),
        Err(_) => Err(Memory),
    }
}

// The three bytes `abc` at a place.
fn file(alloc: Global, path: &str) -> Result<StoredFile, Memory> {
    let Some(endpoint) = EndpointName::read(alloc, "https://a.example")? else {
        return Err(Memory);
    };
    let Some(path) = PathKey::read(alloc, path)? else {
        return Err(Memory);
    };
    Ok(StoredFile {
        place: Place { endpoint, path },
        bytes: Items::from_vec(b"abc".to_vec(alloc)?),
    })
}

/// A store that holds both sources.
pub fn store(alloc: Global) -> Result<MemoryStore, Memory> {
    let mut files = Vec::new(alloc);
    for path in ["f1", "f2"] {
        let file = file(alloc, path)?;
        if files.push(file).is_err() {
            return Err(Memory);
        }
    }
    Ok(MemoryStore::new(
        alloc,
        Items::from_vec(files),
        Vec::new(alloc),
        Vec::new(alloc),
    ))
}

/// A station of a pass, with this store, at this moment.
pub fn station<E: Store + Drop>(
    alloc: Global,
    pass: Pass<Shop<MemoryDisk>>,
    store: E,
    now: u64,
) -> Result<Station<MemoryDisk, E, ListClock, ListWords>, Memory>
    ensures pass { IfOk result (λ station. station.pass ≡ pass) }
    ensures ready { IfOk result (λ station. IsReady station.bench.held) }
{
    let bench = Bench::new(alloc, 1)?;
    let clock = ListClock::new([now].to_vec(alloc)?);
    let words = ListWords::new([0].to_vec(alloc)?);
    let hand = Hand {
        store,
        clock,
        words,
    };
    Ok(Station {
        hand,
        bench,
        pass,
        end: None,
    })
}

/// How many rows stand in this state at their first attempt.
pub fn rows_in(shop: &mut Shop<MemoryDisk>, state: FileState) -> usize
    ensures { shop.new ≡ shop.old }
{
    let desk = shop.keep().desk();
    desk.rows()
        .iter()
        .filter(|row| row.state == state && row.attempt == 1)
        .count()
}
