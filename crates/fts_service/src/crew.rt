//! Lanes and workers over one shop behind a lock, from their seats to the closed list.
//! Keeps: lanes and hands come back in their order, and the list is the opening list with the items of all turns (`RanTogether` of `specs/Serving.antt`).
//! Order: lanes to booths and hands to stations, all threads to their end, back from their seats, the passes taken in, the lock closed.
//! It takes no memory, and waits for all of them.
ghost use Rattle.std.specs.Prelude.{◌≡◌, ◌+◌, ◌≤◌, [], ◌++◌, length, map, drop, All, IfSome, vec_capacity};
ghost use Rattle.fts_turnstile.specs.Passes.{IsOf};
ghost use Rattle.fts_passes.specs.Crews.{IsFirst, passes_given};
ghost use Rattle.fts_service.specs.Seats.{booths_of, stations_of};
ghost use Rattle.fts_service.specs.Serving.{RanTogether};
ghost use Rattle.fts_service.specs.Worlds.{world_of};

use crate::doors::Doors;
use crate::hall::{Hall, serve_all};
use crate::lane::{Booth, Lane};
use crate::locked::Locked;
use crate::seats::{cycle, leave_booths, leave_stations, seat_hands, seat_lanes};
use crate::together::{ServedEnd, served};
use fts_disk::Disk;
use fts_passes::close_with;
use fts_routes::Routes;
use fts_shop::{Shop, Station};
use fts_store::Store;
use fts_tables::{Clock, Words};
use fts_turnstile::Pass;
use fts_wire::Room;
use fts_workers::{Bench, Gate, Hand};
use std::alloc::Global;
use std::sync::Wait;
use std::thread::Threads;

/// What lanes and workers take with them: a room for each lane, a bench for each worker, and places for their booths and stations.
pub struct Seats<D: Disk, A: Doors, E: Store, C: Clock, W: Words> {
    pub rooms: Vec<Room>,
    pub benches: Vec<Bench>,
    pub booths: Vec<Booth<D, A, C>>,
    pub stations: Vec<Station<D, E, C, W>>,
}

/// A shop that was served, and how that ended.
pub struct Served<D: Disk> {
    pub shop: Shop<D>,
    pub end: ServedEnd,
}

// Booths and stations, each with what its thread takes with it.
struct Seated<D: Disk, A: Doors, E: Store, C: Clock, W: Words> {
    booths: Vec<Booth<D, A, C>>,
    stations: Vec<Station<D, E, C, W>>,
}

// Moves so many lanes to booths as there are rooms, and so many hands to stations as there are benches, with the passes in order.
fn take_seats<D: Disk, A: Doors, E: Store, C: Clock, W: Words>(
    seats: Seats<D, A, E, C, W>,
    lanes: &mut Vec<Lane<A, C>>,
    hands: &mut Vec<Hand<E, C, W>>,
    passes: &mut Vec<Pass<Shop<D>>>,
) -> Seated<D, A, E, C, W>
    requires passes { length passes.old.items ≡ length seats.rooms.items + length seats.benches.items }
    requires lanes { length seats.rooms.items ≤ length lanes.old.items }
    requires hands { length seats.benches.items ≤ length hands.old.items }
    requires empty { (seats.booths.items ≡ []) × (seats.stations.items ≡ []) }
    requires room { (length seats.rooms.items ≤ vec_capacity seats.booths) × (length seats.benches.items ≤ vec_capacity seats.stations) }
    ensures booths { result.booths.items ≡ booths_of lanes.old.items seats.rooms.items passes.old.items }
    ensures stations { result.stations.items ≡ stations_of hands.old.items seats.benches.items (drop (length seats.rooms.items) passes.old.items) }
    ensures lanes { lanes.new.items ≡ drop (length seats.rooms.items) lanes.old.items }
    ensures hands { hands.new.items ≡ drop (length seats.benches.items) hands.old.items }
    ensures passes { passes.new.items ≡ [] }
    ensures kept { (vec_capacity lanes.new ≡ vec_capacity lanes.old) × (vec_capacity hands.new ≡ vec_capacity hands.old)
        × (vec_capacity passes.new ≡ vec_capacity passes.old) }
{
    let Seats {
        rooms,
        benches,
        mut booths,
        mut stations,
    } = seats;
    seat_lanes(lanes, passes, rooms, &mut booths);
    seat_hands(hands, passes, benches, &mut stations);
    Seated { booths, stations }
}

// Moves lanes and hands from their seats to the front of those that were not used, and the passes in order.
fn leave_seats<D: Disk, A: Doors, E: Store, C: Clock, W: Words>(
    seated: Seated<D, A, E, C, W>,
    lanes: &mut Vec<Lane<A, C>>,
    hands: &mut Vec<Hand<E, C, W>>,
    passes: &mut Vec<Pass<Shop<D>>>,
)
    requires lanes { length lanes.old.items + length seated.booths.items ≤ vec_capacity lanes.old }
    requires hands { length hands.old.items + length seated.stations.items ≤ vec_capacity hands.old }
    requires none { passes.old.items ≡ [] }
    requires passes { length seated.booths.items + length seated.stations.items ≤ vec_capacity passes.old }
    ensures lanes { lanes.new.items ≡ map (λ booth. booth.lane) seated.booths.items ++ lanes.old.items }
    ensures hands { hands.new.items ≡ map (λ station. station.hand) seated.stations.items ++ hands.old.items }
    ensures passes { passes.new.items ≡ map (λ booth. booth.pass) seated.booths.items ++ map (λ station. station.pass) seated.stations.items }
{
    let Seated { booths, stations } = seated;
    let (lanes_before, hands_before) = (lanes.len(), hands.len());
    leave_booths(booths, lanes, passes);
    leave_stations(stations, hands, passes);
    cycle(lanes, lanes_before);
    cycle(hands, hands_before);
}

/// Serves a shop behind its lock, with so many of the lanes as there are rooms and so many of the hands as there are benches. Workers stop where the gate
/// is closed.
pub fn serve_shop<
    D: Disk + Send,
    A: Doors + Send,
    E: Store + Send,
    C: Clock + Send,
    W: Words + Send,
    G: Gate + Sync,
    R: Threads + Wait + Sync,
>(
    rt: &R,
    alloc: Global,
    routes: &Routes,
    locked: Locked<D>,
    seats: Seats<D, A, E, C, W>,
    lanes: &mut Vec<Lane<A, C>>,
    hands: &mut Vec<Hand<E, C, W>>,
    connections: Option<u32>,
    gate: &G,
) -> Served<D>
where
    A::Line: Send,
    requires own { IsOf locked.lock locked.first }
    requires first { IsFirst locked.first }
    requires passes { locked.passes.items ≡ passes_given (record locked.first { given = 0 }) locked.first.given }
    requires given { locked.first.given ≡ length seats.rooms.items + length seats.benches.items }
    requires lanes { length seats.rooms.items ≤ length lanes.old.items }
    requires hands { length seats.benches.items ≤ length hands.old.items }
    requires empty { (seats.booths.items ≡ []) × (seats.stations.items ≡ []) }
    requires room { (length seats.rooms.items ≤ vec_capacity seats.booths) × (length seats.benches.items ≤ vec_capacity seats.stations) }
    requires idle { All (λ bench. bench.held ≡ []) seats.benches.items }
    requires some { IfSome connections (λ most. 1 ≤ most) }
    ensures ran { RanTogether (world_of D.Disk E.Store A.Doors A.Line.Source A.Line.Sink C.Clock W.Words (G.closes gate.now))
        locked.first connections lanes.old.items lanes.new.items hands.old.items hands.new.items
        seats.rooms.items seats.benches.items result.shop result.end }
    ensures many { (length lanes.new.items ≡ length lanes.old.items) × (length hands.new.items ≡ length hands.old.items) }
{
    let Locked {
        lock,
        first,
        mut passes,
    } = locked;
    let mut seated = take_seats(seats, lanes, hands, &mut passes);
    let hall = Hall {
        shop: &lock,
        alloc,
        routes,
        connections,
        gate,
    };
    serve_all(rt, &hall, &mut seated.booths, &mut seated.stations);
    let Hall {
        shop: _,
        alloc: _,
        routes: _,
        connections: _,
        gate: _,
    } = hall;
    let end = served(&seated.booths, &seated.stations);
    leave_seats(seated, lanes, hands, &mut passes);
    Served {
        shop: close_with(lock, first, passes),
        end,
    }
}
