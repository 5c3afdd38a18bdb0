//! A worker: it takes turns at its station until nothing is left to do, until its gate is closed, or until it fails with no lane left. And many workers
//! at once.
//! Keeps: the pass is of the lock, and what a bench holds between two turns (`IsReady`).
//! Order: a turn, then rests where nothing was eligible or a fault was met, then a look at the gate, where nothing is held. Where nothing was eligible
//! the rests go on, for a second at most, until somebody counts a change. `run_workers` returns once each worker has ended.
ghost use Rattle.std.specs.Prelude.{◌≡◌, true, [], Some, All};
ghost use Rattle.fts_tables.specs.Coming.{HasRested, RestsOnlyIf};
ghost use Rattle.fts_turnstile.specs.Passes.{IsOf};
ghost use Rattle.fts_shop.specs.Turns.{IsReady};
ghost use Rattle.fts_shop.specs.Many.{Each};
ghost use Rattle.fts_shop.specs.Workers.{WorkerDone, IsEndAt, end_without_lanes, is_restful, station_data, stopped_instead, worker_end_of};

use crate::ends::{Turn, WorkerEnd};
use crate::many::{Work, spread};
use crate::shop::Shop;
use crate::station::Station;
use crate::turning::turn;
use fts_disk::Disk;
use fts_store::Store;
use fts_tables::{Clock, Words};
use fts_turnstile::Turnstile;
use fts_workers::{Bench, Gate};
use std::sync::Wait;
use std::thread::Threads;

/// How often a worker that found nothing eligible rests before it looks again, where nothing was changed meanwhile: by time alone files become eligible,
/// and moments are whole seconds.
const MOST_RESTS: u32 = 10;

// How a worker ends by a fault: not while a lane is left.
fn end_without_lanes(lanes: u32, end: WorkerEnd) -> Option<WorkerEnd>
    ensures { result ≡ end_without_lanes lanes end }
{
    if lanes == 0 { Some(end) } else { None }
}

// How a worker ends after a turn that ended so, where it does.
fn end_after(turn: Turn) -> Option<WorkerEnd>
    ensures { result ≡ worker_end_of turn }
{
    match turn {
        Turn::Stopping => Some(WorkerEnd::Drained),
        Turn::DiskFailed { lanes } => end_without_lanes(lanes, WorkerEnd::DiskFailed),
        Turn::JournalFull { used, lanes } => {
            end_without_lanes(lanes, WorkerEnd::JournalFull { used })
        }
        Turn::Memory { lanes } => end_without_lanes(lanes, WorkerEnd::Memory),
        Turn::Idle
        | Turn::Done { file: _ }
        | Turn::Failed { file: _ }
        | Turn::Retried { file: _ }
        | Turn::Cancelled { file: _ }
        | Turn::Stale { file: _ } => None,
    }
}

// Whether a worker rests after a turn that ended so and that it goes on from: nothing was eligible, or a fault was met.
fn rests_after(turn: Turn) -> bool
    ensures { result ≡ is_restful turn }
{
    match turn {
        Turn::Idle
        | Turn::DiskFailed { lanes: _ }
        | Turn::JournalFull { used: _, lanes: _ }
        | Turn::Memory { lanes: _ } => true,
        Turn::Stopping
        | Turn::Done { file: _ }
        | Turn::Failed { file: _ }
        | Turn::Retried { file: _ }
        | Turn::Cancelled { file: _ }
        | Turn::Stale { file: _ } => false,
    }
}

// Whether a worker is to stop: it holds nothing, and the gate is closed.
fn is_stopped<G: Gate>(gate: &G, bench: &Bench) -> bool
    ensures closes { result ≡ true → G.closes gate.now ≡ true }
    ensures nothing { result ≡ true → bench.now.held ≡ [] }
{
    bench.held().is_empty() && gate.is_closed()
}

// How a worker ends at a closed gate that would end so: a fault goes before the stop.
fn stopped_instead(end: WorkerEnd) -> WorkerEnd
    ensures { Some result ≡ stopped_instead (Some end) }
{
    match end {
        WorkerEnd::Drained | WorkerEnd::Stopped => WorkerEnd::Stopped,
        WorkerEnd::DiskFailed | WorkerEnd::JournalFull { used: _ } | WorkerEnd::Memory => end,
    }
}

// How a worker ends that would end so: by that, or, where it is to stop, stopped.
fn end_at<G: Gate>(gate: &G, bench: &Bench, end: WorkerEnd) -> WorkerEnd
    ensures { IsEndAt (G.closes gate.now) bench.now.held (Some end) (Some result) }
{
    if is_stopped(gate, bench) {
        stopped_instead(end)
    } else {
        end
    }
}

// How many rests there are at most behind a turn: a fault may be over behind the next one, and where nothing was eligible the time alone makes a file so.
fn most_rests(turn: Turn) -> u32 {
    if turn == Turn::Idle { MOST_RESTS } else { 1 }
}

// Rests so often at most, and no more once something was changed since that count of changes, or the gate is closed.
fn rest_until_changed<D: Disk, C: Clock, G: Gate>(
    shop: &Turnstile<Shop<D>>,
    gate: &G,
    clock: &mut C,
    changes: u64,
    most: u32,
)
    ensures { HasRested (C.moments clock.old) (C.moments clock.new) }
{
    for _ in 0..most {
        clock.rest();
        if shop.stirred() != changes || gate.is_closed() {
            return;
        }
    }
}

// Rests behind a turn that found nothing or met a fault; any other one is counted as a change. The count of changes is that from before the turn.
fn rest_behind<D: Disk, C: Clock, G: Gate>(
    shop: &Turnstile<Shop<D>>,
    gate: &G,
    clock: &mut C,
    changes: u64,
    turn: Turn,
)
    ensures { RestsOnlyIf (is_restful turn) (C.moments clock.old) (C.moments clock.new) }
{
    if rests_after(turn) {
        rest_until_changed(shop, gate, clock, changes, most_rests(turn));
    } else {
        shop.stir();
    }
}

/// Takes turns at a station until one says that nothing is left to do, or fails, with no lane left; rests after a turn that found nothing or failed.
/// Where it holds nothing behind a turn and the gate is closed, it stops, and claims no more; a fault goes before that. `end` says then how it ended. It waits, and owes no return.
pub fn worker<D: Disk, E: Store, C: Clock, W: Words, G: Gate, R: Wait>(
    rt: &R,
    shop: &Turnstile<Shop<D>>,
    station: &mut Station<D, E, C, W>,
    gate: &G,
)
    requires own { IsOf shop.now station.old.pass }
    requires ready { IsReady station.old.bench.held }
    ensures { WorkerDone E.Store (G.closes gate.now) (station_data C.Clock W.Words station.old) (station_data C.Clock W.Words station.new) }
{
    for _ in rt.forever() {
        let changes = shop.stirred();
        let end = turn(
            rt,
            shop,
            &mut station.pass,
            &mut station.hand,
            &mut station.bench,
            gate,
        );
        if let Some(end) = end_after(end) {
            station.end = Some(end_at(gate, &station.bench, end));
            return;
        }
        rest_behind(shop, gate, &mut station.hand.clock, changes, end);
        if is_stopped(gate, &station.bench) {
            station.end = Some(WorkerEnd::Stopped);
            return;
        }
    }
    unreachable!()
}

/// What the workers share.
pub struct Floor<'a, D: Disk, G> {
    pub shop: &'a Turnstile<Shop<D>>,
    pub gate: &'a G,
}

/// The work of a worker at its station.
pub struct Workers;

impl<'a, D: Disk, E: Store, C: Clock, W: Words, G: Gate> Work<Floor<'a, D, G>, Station<D, E, C, W>>
    for Workers {
    ghost use Rattle.fts_turnstile.specs.Passes.{IsOf};
    ghost use Rattle.fts_shop.specs.Turns.{IsReady};
    ghost use Rattle.fts_shop.specs.Workers.{WorkerDone, station_data};

    ghost ready = { λ floor station. IsOf floor.shop.now station.pass × IsReady station.bench.held };

    ghost done = { λ floor old new. WorkerDone E.Store (G.closes floor.gate.now) (station_data C.Clock W.Words old) (station_data C.Clock W.Words new) };

    fn work<R: Wait>(rt: &R, shared: &Floor<'a, D, G>, job: &mut Station<D, E, C, W>) {
        worker(rt, shared.shop, job, shared.gate);
    }
}

/// A worker at each station, at the same time. Each station's `end` says then how its worker ended.
pub fn run_workers<
    D: Disk + Send,
    E: Store + Send,
    C: Clock + Send,
    W: Words + Send,
    G: Gate + Sync,
    R: Threads + Wait + Sync,
>(rt: &R, shop: &Turnstile<Shop<D>>, stations: &mut [Station<D, E, C, W>], gate: &G)
    requires { All (λ station. IsOf shop.now station.pass × IsReady station.bench.held) stations.old }
    ensures { Each (λ old new. WorkerDone E.Store (G.closes gate.now) (station_data C.Clock W.Words old) (station_data C.Clock W.Words new))
        stations.old stations.new }
{
    let floor = Floor { shop, gate };
    spread::<Workers, Floor<'_, D, G>, Station<D, E, C, W>, R>(rt, &floor, stations);
    let Floor { shop: _, gate: _ } = floor;
}
