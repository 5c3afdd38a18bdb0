//! A worker whose gate is closed once a copy has begun: it reports the file that it has, and claims no other. Numbers are written by hand.
use super::bed::{TWO_FILES, keep, rows_in, station, store};
use super::holding::{ClosesBehind, Raised};
use fts_disk::MemoryDisk;
use fts_shop::{Shop, WorkerEnd, worker};
use fts_tables::{FileState, Memory};
use fts_turnstile::Turnstile;
use std::alloc::Global;
use std::sync::Wait;
use std::test::Fail;

/// What a worker left.
#[derive(Drop)]
struct Left {
    end: Option<WorkerEnd>,
    finished: usize,
    begun: u64,
    holds: bool,
}

/// A worker on two files, with so many lanes left, at a gate that is closed once so many copies have begun.
fn work<R: Wait>(rt: &R, alloc: Global, lanes: u32, most: u64) -> Result<Left, Memory> {
    let shop = Shop::new(keep(alloc, TWO_FILES)?, lanes);
    let Ok((lock, mut first)) = Turnstile::new(alloc, shop) else {
        return Err(Memory);
    };
    let pass = lock.split(&mut first);
    let mut station = station(alloc, pass, store(alloc)?, 0)?;
    let gate = ClosesBehind {
        begun: Raised::new(),
        most,
    };
    worker(rt, &lock, &mut station, &gate);
    let finished = lock.with_turn(
        rt,
        &mut first,
        |shop: &mut Shop<MemoryDisk>| rows_in(shop, FileState::Finished),
    );
    Ok(Left {
        end: station.end,
        finished,
        begun: gate.begun.count(),
        holds: !station.bench.held().is_empty(),
    })
}

/// A row: a sentence, how many lanes are left, behind how many copies the gate is closed, and how many files are FINISHED at the end.
type StopRow = (&'static str, u32, u64, usize);

/// Workers that are stopped.
const STOPS: [StopRow; 3] = [
    ("behind its first copy, while a lane is left", 1, 1, 1),
    ("behind its first copy, with no lane left", 0, 1, 1),
    ("behind its second copy, while a lane is left", 1, 2, 2),
];

#[test]
fn a_worker_stops_behind_the_report_of_its_file(rt: HostRuntime) -> Result<(), Fail> {
    for (case, lanes, most, finished) in STOPS {
        let left = work(&rt, rt.alloc(), lanes, most)?;
        let is_stopped = left.end == Some(WorkerEnd::Stopped) && !left.holds;
        assert!(rt; is_stopped, "{case}: it is stopped, and holds nothing");
        assert!(rt;
            left.finished == finished && left.begun == most,
            "{case}: each copy that began was reported, and no other one began"
        );
    }
    Ok(())
}

#[test]
fn a_worker_at_an_open_gate_drains(rt: HostRuntime) -> Result<(), Fail> {
    let left = work(&rt, rt.alloc(), 0, 3)?;
    assert!(rt; left.end == Some(WorkerEnd::Drained), "it drained");
    assert!(rt; left.finished == 2, "both files are FINISHED");
    Ok(())
}
