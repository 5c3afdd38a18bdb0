//! A run that serves: lanes take connections on a port or at a socket, and workers copy, at the same time and over one keep.
//! Order: the settings are read, memory is taken for lanes and workers, a keep is started on the disk, which has a Restart with
//! the settings accepted, the keep goes behind a lock, the doors are opened, lanes and workers run to their end, and the lock is closed.
//! Keeps: what each lane and each worker did, over one list (`IsServingRun` of `specs/Serves.antt`).
ghost use Rattle.std.specs.Prelude.{◌≡◌, ◌==◌, false, ◌≤◌, ◌+◌, ◌-◌, [], length, vec_capacity, List, IfOk, IfSome, All};
ghost use Rattle.fts_tables.specs.Counts.{Rose};
ghost use Rattle.fts_tables.specs.declared.limits.TheConstants.{MAX_LANES, MAX_WORKERS};
ghost use Rattle.fts_tables.specs.declared.commands.Entry.{Entry};
ghost use Rattle.fts_laws.specs.Attempts.{attempts_in};
ghost use Rattle.fts_keep.specs.Keeps.{KeepData, IsKeep};
ghost use Rattle.fts_turnstile.specs.Passes.{IsOf};
ghost use Rattle.fts_shop.specs.Shops.{shop_of};
ghost use Rattle.fts_top.specs.Ends.{status_of, IsServingStatus};
ghost use Rattle.fts_service.specs.Locked.{IsLocked};
ghost use Rattle.fts_top.specs.Serves.{IsServingRun, ServesShop, Closes, many_threads};
ghost use Rattle.fts_top.specs.Tallies.{tally_with};
ghost use Rattle.fts_service.specs.Worlds.{world_of};

use crate::done::{Done, make_tally, stop};
use crate::ends::RunEnd;
use crate::reading::load_settings;
use crate::top::Outside;
use fts_disk::Disk;
use fts_keep::Keep;
use fts_laws::{claims_raise_attempts, count_attempts};
use fts_routes::Routes;
use fts_service::{
    Doors, DoorsFailed, Locked, Seats, Served, lock_shop, make_benches, make_rooms, open_doors,
    serve_shop, unlock,
};
use fts_shop::Shop;
use fts_store::Store;
use fts_tables::{Clock, Memory, Words};
use fts_turnstile::items_that_name;
use fts_wire::Source;
use fts_workers::Gate;
use std::alloc::Global;
use std::sync::Wait;
use std::thread::Threads;

/// How a run is to serve: on this port, or at the socket that its doors have where none is named, in so many lanes, 1 to `MAX_LANES`, each of which takes
/// so many connections, or as many as come.
#[derive(Clone, Copy)]
pub struct Order {
    pub port: Option<u16>,
    pub lanes: u32,
    pub connections: Option<u32>,
}

// Takes the memory of so many lanes and workers.
fn make_seats<D: Disk, A: Doors, E: Store, C: Clock, W: Words>(
    alloc: Global,
    lanes: u32,
    workers: u32,
) -> Result<Seats<D, A, E, C, W>, Memory>
    ensures many { IfOk result (λ seats. (length seats.rooms.items ≡ lanes) × (length seats.benches.items ≡ workers)) }
    ensures idle { IfOk result (λ seats. All (λ bench. bench.held ≡ []) seats.benches.items) }
    ensures empty { IfOk result (λ seats. (seats.booths.items ≡ []) × (seats.stations.items ≡ [])) }
    ensures room { IfOk result (λ seats. (lanes ≤ vec_capacity seats.booths) × (workers ≤ vec_capacity seats.stations)) }
{
    let rooms = make_rooms(alloc, lanes)?;
    let benches = make_benches(alloc, workers)?;
    let Ok(booths) = Vec::with_capacity(alloc, lanes as usize) else {
        return Err(Memory);
    };
    let Ok(stations) = Vec::with_capacity(alloc, workers as usize) else {
        booths.destroy_empty();
        return Err(Memory);
    };
    Ok(Seats {
        rooms,
        benches,
        booths,
        stations,
    })
}

// Gives the memory of seats back that nobody took.
fn drop_seats<D: Disk, A: Doors, E: Store, C: Clock, W: Words>(seats: Seats<D, A, E, C, W>)
    requires empty { (seats.booths.items ≡ []) × (seats.stations.items ≡ []) }
{
    let Seats {
        rooms: _,
        benches: _,
        booths,
        stations,
    } = seats;
    booths.destroy_empty();
    stations.destroy_empty();
}

// How a command ended over a shop that was closed, whose rows had so many attempts at its start.
fn close_shop<D: Disk>(shop: Shop<D>, attempts: u64, end: RunEnd) -> Done<D>
    ensures end { result.end ≡ end }
    ensures disk { result.disk ≡ shop.keep.disk }
    ensures tally { result.tally ≡ tally_with (attempts_in shop.keep.tables.rows - attempts) shop.keep.tables }
    ensures sound { IsKeep D.state shop.keep }
{
    // No more claims than a journal has entries, so that their number fits.
    claims_raise_attempts();
    let keep = shop.close();
    let claims = count_attempts(keep.desk().rows()).saturating_sub(attempts);
    let tally = make_tally(keep.desk(), claims as u32);
    Done {
        end,
        tally,
        disk: keep.close(),
    }
}

// Opens the doors of a shop behind its lock, and has lanes and workers run to their end. Where doors fail, none of them begins.
// Gives the shop, which was closed then, and how the run ends.
fn serve_locked<
    F,
    S,
    K,
    N,
    D: Disk + Send,
    E: Store + Send,
    C: Clock + Send,
    W: Words + Send,
    A: Doors + Send,
    L,
    G: Gate + Sync,
    R: Threads + Wait + Sync,
>(
    rt: &R,
    alloc: Global,
    order: Order,
    routes: &Routes,
    locked: Locked<D>,
    seats: Seats<D, A, E, C, W>,
    outside: &mut Outside<F, S, K, N, D, E, C, W, A, L, G>,
) -> (Shop<D>, RunEnd)
where
    A::Line: Send,
    requires own { IsOf locked.lock locked.first }
    requires locked { (keep : KeepData D) × IsLocked D.Disk (shop_of keep order.lanes) (order.lanes + length seats.benches.items)
        locked.lock locked.first locked.passes.items }
    requires rooms { length seats.rooms.items ≡ order.lanes }
    requires lanes { (1 ≤ order.lanes) × (order.lanes ≤ length outside.old.lanes.items) }
    requires hands { length seats.benches.items ≤ length outside.old.hands.items }
    requires empty { (seats.booths.items ≡ []) × (seats.stations.items ≡ []) }
    requires room { (length seats.rooms.items ≤ vec_capacity seats.booths) × (length seats.benches.items ≤ vec_capacity seats.stations) }
    requires idle { All (λ bench. bench.held ≡ []) seats.benches.items }
    requires some { IfSome order.connections (λ most. 1 ≤ most) }
    ensures closes { (keep : KeepData D) → IsLocked D.Disk (shop_of keep order.lanes) (order.lanes + length seats.benches.items)
        locked.lock locked.first locked.passes.items → (added : List Entry) × Closes (world_of D.Disk E.Store A.Doors A.Line.Source A.Line.Sink C.Clock W.Words (G.closes outside.old.gate))
        order.lanes (length seats.benches.items) order.connections keep outside.old.lanes.items outside.old.hands.items
        outside.new.lanes.items outside.new.hands.items result.0 result.1 added }
    ensures status { IsServingStatus (status_of result.1) × ((status_of result.1 == 8) ≡ false) }
    ensures lanes { length outside.new.lanes.items ≡ length outside.old.lanes.items }
    ensures hands { length outside.new.hands.items ≡ length outside.old.hands.items }
    ensures rest { outside.new ≡ record outside.old { lanes = outside.new.lanes; hands = outside.new.hands } }
{
    // What a writer added are the items of the turns with its number.
    items_that_name::<Shop<D>>();
    match open_doors(
        outside.lanes.as_mut_slice(),
        order.lanes as usize,
        order.port,
    ) {
        Ok(()) => {
            let Served { shop, end } = serve_shop(
                rt,
                alloc,
                routes,
                locked,
                seats,
                &mut outside.lanes,
                &mut outside.hands,
                order.connections,
                &outside.gate,
            );
            (shop, RunEnd::of_served(end))
        }
        Err(DoorsFailed) => {
            drop_seats(seats);
            let Locked {
                lock,
                first,
                passes,
            } = locked;
            (unlock(lock, first, passes), RunEnd::DoorsFailed)
        }
    }
}

// Puts a keep that was started behind a lock, serves it, and closes it.
fn serve_keep<
    F,
    S,
    K,
    N,
    D: Disk + Send,
    E: Store + Send,
    C: Clock + Send,
    W: Words + Send,
    A: Doors + Send,
    L,
    G: Gate + Sync,
    R: Threads + Wait + Sync,
>(
    rt: &R,
    alloc: Global,
    order: Order,
    routes: &Routes,
    keep: Keep<D>,
    seats: Seats<D, A, E, C, W>,
    outside: &mut Outside<F, S, K, N, D, E, C, W, A, L, G>,
) -> Done<D>
where
    A::Line: Send,
    requires rooms { length seats.rooms.items ≡ order.lanes }
    requires lanes { (1 ≤ order.lanes) × (order.lanes ≤ length outside.old.lanes.items) × (length outside.old.lanes.items ≤ MAX_LANES) }
    requires hands { (length seats.benches.items ≤ length outside.old.hands.items) × (length outside.old.hands.items ≤ MAX_WORKERS) }
    requires empty { (seats.booths.items ≡ []) × (seats.stations.items ≡ []) }
    requires room { (length seats.rooms.items ≤ vec_capacity seats.booths) × (length seats.benches.items ≤ vec_capacity seats.stations) }
    requires idle { All (λ bench. bench.held ≡ []) seats.benches.items }
    requires some { IfSome order.connections (λ most. 1 ≤ most) }
    ensures serves { ServesShop (world_of D.Disk E.Store A.Doors A.Line.Source A.Line.Sink C.Clock W.Words (G.closes outside.old.gate))
        order.lanes (length seats.benches.items) order.connections keep outside.old.lanes.items outside.old.hands.items
        outside.new.lanes.items outside.new.hands.items result.disk result.end result.tally }
    ensures status { IsServingStatus (status_of result.end) × ((status_of result.end == 8) ≡ false) }
    ensures lanes { length outside.new.lanes.items ≡ length outside.old.lanes.items }
    ensures hands { length outside.new.hands.items ≡ length outside.old.hands.items }
    ensures rest { outside.new ≡ record outside.old { lanes = outside.new.lanes; hands = outside.new.hands } }
{
    // Claims are what the rows have more attempts at the end.
    claims_raise_attempts();
    let attempts = count_attempts(keep.desk().rows());
    let passes = order.lanes + seats.benches.len() as u32;
    match lock_shop(alloc, Shop::new(keep, order.lanes), passes) {
        Ok(locked) => {
            let (shop, end) = serve_locked(rt, alloc, order, routes, locked, seats, outside);
            close_shop(shop, attempts, end)
        }
        Err(shop) => {
            drop_seats(seats);
            close_shop(shop, attempts, RunEnd::NoMemory)
        }
    }
}

/// Serves by an order under the settings of the outside's text: memory is taken for lanes, workers and routes, and a keep is started on the disk.
pub fn serve<
    F: Source,
    S,
    K,
    N,
    D: Disk + Send,
    E: Store + Send,
    C: Clock + Send,
    W: Words + Send,
    A: Doors + Send,
    L,
    G: Gate + Sync,
    R: Threads + Wait + Sync,
>(
    rt: &R,
    alloc: Global,
    order: Order,
    disk: D,
    outside: &mut Outside<F, S, K, N, D, E, C, W, A, L, G>,
) -> Done<D>
where
    A::Line: Send,
    requires order { (1 ≤ order.lanes) × (order.lanes ≤ MAX_LANES) × IfSome order.connections (λ most. 1 ≤ most) }
    requires lanes { length outside.old.lanes.items ≡ MAX_LANES }
    requires hands { length outside.old.hands.items ≡ MAX_WORKERS }
    ensures run { IsServingRun (world_of D.Disk E.Store A.Doors A.Line.Source A.Line.Sink C.Clock W.Words (G.closes outside.old.gate))
        order.lanes order.connections result.end result.tally (F.left outside.old.settings)
        (many_threads disk outside.old.lanes.items outside.old.hands.items (C.moments outside.old.clock))
        (many_threads result.disk outside.new.lanes.items outside.new.hands.items (C.moments outside.new.clock)) }
    ensures settings { status_of result.end ≡ 8 → Rose (F.faults outside.old.settings) (F.faults outside.new.settings) }
    ensures status { IsServingStatus (status_of result.end) }
    ensures lanes { length outside.new.lanes.items ≡ MAX_LANES }
    ensures hands { length outside.new.hands.items ≡ MAX_WORKERS }
    ensures rest { outside.new ≡ record outside.old { settings = outside.new.settings; clock = outside.new.clock; lanes = outside.new.lanes; hands = outside.new.hands } }
{
    let settings = match load_settings(alloc, &mut outside.settings) {
        Ok(settings) => settings,
        Err(end) => return stop(end, disk),
    };
    let Ok(seats) = make_seats(alloc, order.lanes, settings.workers) else {
        return stop(RunEnd::NoMemory, disk);
    };
    let Ok(routes) = Routes::new(alloc) else {
        drop_seats(seats);
        return stop(RunEnd::NoMemory, disk);
    };
    let now = outside.clock.now();
    match Keep::start(alloc, disk, settings, now) {
        Ok(keep) => serve_keep(rt, alloc, order, &routes, keep, seats, outside),
        Err((fault, disk)) => {
            drop_seats(seats);
            stop(RunEnd::of_start(fault), disk)
        }
    }
}
