//! Two workers that copy at once, and a cancellation that stops a copy. Numbers and states are written by hand.
ghost use Rattle.std.specs.Prelude.{◌≡◌};
ghost use Rattle.fts_turnstile.specs.Passes.{IsOf};
ghost use Rattle.fts_shop.specs.Turns.{IsReady};

use super::bed::{TWO_FILES, keep, rows_in, station, store};
use super::holding::{BothBegin, Flags, HeldStore, Raised};
use fts_disk::MemoryDisk;
use fts_shop::{Shop, Station, WorkerEnd, run_workers, try_command, worker};
use fts_store::{MemoryStore, Store};
use fts_tables::{Command, FileState, ListClock, ListWords, Memory, PlaceRef};
use fts_turnstile::{Pass, Turnstile};
use fts_workers::NoGate;
use std::alloc::Global;
use std::sync::Wait;
use std::test::Fail;
use std::thread::{Threads, join_mut};

const ONE_FILE: &str =
    "{\"files\":[{\"sources\":[\"https://a.example/f1\"],\"destinations\":[\"https://b.example/f1\"]}]}";

/// How many of the two destinations a store holds, with three bytes each.
fn copied(store: &mut MemoryStore) -> usize {
    let mut count = 0;
    for path in ["f1", "f2"] {
        let at = PlaceRef {
            endpoint: "https://b.example",
            path,
        };
        if store.size(at) == Ok(Some(3)) && count < 2 {
            count += 1;
        }
    }
    count
}

/// Whether a store holds one of the two destinations at each station, and each worker has drained.
fn each_copied_one(
    stations: &mut [Station<MemoryDisk, MemoryStore, ListClock, ListWords>],
) -> bool {
    let mut each = true;
    for station in stations.iter_mut() {
        let drained = station.end == Some(WorkerEnd::Drained);
        let count = copied(&mut station.hand.store);
        each = each && drained && count == 1;
    }
    each
}

/// What two workers did.
#[derive(Drop)]
struct Seen {
    finished: usize,
    each: bool,
    begun: u64,
    ended: u64,
    late: bool,
}

/// Two workers, one station each, on two files, with no lane left.
fn two_workers<R: Threads + Wait + Sync>(rt: &R, alloc: Global) -> Result<Seen, Memory> {
    let shop = Shop::new(keep(alloc, TWO_FILES)?, 0);
    let Ok((lock, mut first)) = Turnstile::new(alloc, shop) else {
        return Err(Memory);
    };
    let one = lock.split(&mut first);
    let two = lock.split(&mut first);
    let one = station(alloc, one, store(alloc)?, 0)?;
    let two = station(alloc, two, store(alloc)?, 0)?;
    let mut stations = [one, two];
    let gate = BothBegin {
        begun: Raised::new(),
        late: Raised::new(),
        ended: Raised::new(),
    };
    run_workers(rt, &lock, &mut stations, &gate);
    let finished = lock.with_turn(
        rt,
        &mut first,
        |shop: &mut Shop<MemoryDisk>| rows_in(shop, FileState::Finished),
    );
    let each = each_copied_one(&mut stations);
    let begun = gate.begun.count();
    let ended = gate.ended.count();
    let late = gate.late.is_raised();
    Ok(Seen {
        finished,
        each,
        begun,
        ended,
        late,
    })
}

#[test]
fn two_workers_copy_a_file_each_at_once(rt: HostRuntime) -> Result<(), Fail> {
    let seen = two_workers(&rt, rt.alloc())?;
    assert!(rt;
        seen.finished == 2,
        "both files are FINISHED at their first attempt"
    );
    assert!(rt; seen.begun == 2, "the gate was told of two begins");
    assert!(rt;
        seen.ended == 2,
        "and of two ends, each of the copy that began, with its 3 bytes"
    );
    assert!(rt;
        seen.each,
        "each worker drained, and its store holds one of them"
    );
    assert!(rt; !seen.late, "both copies had begun before either went on");
    Ok(())
}

/// Cancels job 1 once the copy's first append has begun, and lets it go on. Whether that was accepted.
fn cancel<R: Wait>(
    rt: &R,
    lock: &Turnstile<Shop<MemoryDisk>>,
    pass: &mut Pass<Shop<MemoryDisk>>,
    flags: &Flags,
) -> bool
    requires { IsOf lock.now pass.old }
    ensures { IsOf lock.now pass.new }
{
    flags.started.wait_for(1);
    let tried = try_command(rt, lock, pass, Command::CancelJob { now: 0, job: 1 });
    flags.goes_on.raise();
    tried.answer.is_ok()
}

/// A worker at its station, and the cancellation beside it. Whether that was accepted.
fn work_and_cancel<R: Threads + Wait + Sync>(
    rt: &R,
    lock: &Turnstile<Shop<MemoryDisk>>,
    station: &mut Station<MemoryDisk, HeldStore<'_>, ListClock, ListWords>,
    pass: &mut Pass<Shop<MemoryDisk>>,
    flags: &Flags,
) -> bool
    requires station { IsOf lock.now station.old.pass × IsReady station.old.bench.held }
    requires pass { IsOf lock.now pass.old }
    ensures { IsOf lock.now pass.new }
{
    let mut accepted = false;
    join_mut(
        rt,
        &mut || worker(rt, lock, station, &NoGate),
        &mut || accepted = cancel(rt, lock, pass, flags),
    );
    accepted
}

/// What became of the file of a job that was cancelled.
#[derive(Drop)]
struct Stopped {
    accepted: bool,
    canceled: usize,
    copied: usize,
    has_part: bool,
}

/// Whether a store holds the part of file 1, or doesn't say.
fn has_part(store: &mut MemoryStore) -> bool {
    let at = PlaceRef {
        endpoint: "https://b.example",
        path: ".fts/part-1",
    };
    store.size(at) != Ok(None)
}

/// A worker on one file, and beside it a cancellation of its job.
fn cancelled<R: Threads + Wait + Sync>(rt: &R, alloc: Global) -> Result<Stopped, Memory> {
    let shop = Shop::new(keep(alloc, ONE_FILE)?, 0);
    let Ok((lock, mut first)) = Turnstile::new(alloc, shop) else {
        return Err(Memory);
    };
    let flags = Flags::new();
    let held = HeldStore {
        inner: store(alloc)?,
        flags: &flags,
    };
    let pass = lock.split(&mut first);
    let mut station = station(alloc, pass, held, 0)?;
    let accepted = work_and_cancel(rt, &lock, &mut station, &mut first, &flags);
    let canceled = lock.with_turn(
        rt,
        &mut first,
        |shop: &mut Shop<MemoryDisk>| rows_in(shop, FileState::Canceled),
    );
    let copied = copied(&mut station.hand.store.inner);
    let has_part = has_part(&mut station.hand.store.inner);
    Ok(Stopped {
        accepted,
        canceled,
        copied,
        has_part,
    })
}

#[test]
fn a_cancellation_stops_a_copy_that_runs(rt: HostRuntime) -> Result<(), Fail> {
    let stopped = cancelled(&rt, rt.alloc())?;
    assert!(rt; stopped.accepted, "the cancellation is accepted");
    assert!(rt;
        stopped.canceled == 1 && stopped.copied == 0,
        "the file is CANCELED, and its destination absent"
    );
    assert!(rt;
        !stopped.has_part,
        "the part of the copy that was stopped is gone"
    );
    Ok(())
}
