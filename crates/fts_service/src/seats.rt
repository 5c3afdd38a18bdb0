//! Lanes and hands are moved to booths and stations before their threads start, and back in their order behind their end.
//! Keeps: nothing is lost or made on the way; the lanes and the hands that a run doesn't use stay where they are.
//! Memory is taken before anything is moved: none of these calls takes any.
ghost use Rattle.std.specs.Prelude.{◌≡◌, ◌≢◌, ◌+◌, ◌<◌, ◌≤◌, [], ◌∷◌, ◌++◌, length, map, take, drop, vec_capacity};
ghost use Rattle.fts_service.specs.Seats.{booths_of, stations_of};

use crate::doors::Doors;
use crate::lane::{Booth, Lane};
use fts_disk::Disk;
use fts_shop::{Shop, Station};
use fts_store::Store;
use fts_tables::{Clock, Words};
use fts_turnstile::Pass;
use fts_wire::Room;
use fts_workers::{Bench, Hand};

// Takes the first item.
fn take_first<T>(items: &mut Vec<T>) -> T
    requires some { items.old.items ≢ [] }
    ensures first { items.old.items ≡ result ∷ items.new.items }
    ensures capacity { vec_capacity items.new ≡ vec_capacity items.old }
{
    items.remove(0)
}

/// Moves the first lanes to booths, one for each room, each with the next pass.
#[tactic(auto, using(crate::proofs::Seated::seat_more, crate::proofs::Seated::drop_both, crate::proofs::Seated::seated_all))]
pub fn seat_lanes<D: Disk, A: Doors, C: Clock>(
    lanes: &mut Vec<Lane<A, C>>,
    passes: &mut Vec<Pass<Shop<D>>>,
    mut rooms: Vec<Room>,
    booths: &mut Vec<Booth<D, A, C>>,
)
    requires lanes { length rooms.items ≤ length lanes.old.items }
    requires passes { length rooms.items ≤ length passes.old.items }
    requires room { length booths.old.items + length rooms.items ≤ vec_capacity booths.old }
    ensures booths { booths.new.items ≡ booths.old.items ++ booths_of lanes.old.items rooms.items passes.old.items }
    ensures lanes { lanes.new.items ≡ drop (length rooms.items) lanes.old.items }
    ensures passes { passes.new.items ≡ drop (length rooms.items) passes.old.items }
    ensures lanes_kept { vec_capacity lanes.new ≡ vec_capacity lanes.old }
    ensures passes_kept { vec_capacity passes.new ≡ vec_capacity passes.old }
{
    while !rooms.is_empty() {
        let booth = Booth {
            lane: take_first(lanes),
            room: take_first(&mut rooms),
            pass: take_first(passes),
            end: None,
        };
        booths.push_reserved(booth);
    }
}

/// Moves the first hands to stations, one for each bench, each with the next pass.
#[tactic(auto, using(crate::proofs::Seated::hand_more, crate::proofs::Seated::drop_both, crate::proofs::Seated::hands_all))]
pub fn seat_hands<D: Disk, E: Store, C: Clock, W: Words>(
    hands: &mut Vec<Hand<E, C, W>>,
    passes: &mut Vec<Pass<Shop<D>>>,
    mut benches: Vec<Bench>,
    stations: &mut Vec<Station<D, E, C, W>>,
)
    requires hands { length benches.items ≤ length hands.old.items }
    requires passes { length benches.items ≤ length passes.old.items }
    requires room { length stations.old.items + length benches.items ≤ vec_capacity stations.old }
    ensures stations { stations.new.items ≡ stations.old.items ++ stations_of hands.old.items benches.items passes.old.items }
    ensures hands { hands.new.items ≡ drop (length benches.items) hands.old.items }
    ensures passes { passes.new.items ≡ drop (length benches.items) passes.old.items }
    ensures hands_kept { vec_capacity hands.new ≡ vec_capacity hands.old }
    ensures passes_kept { vec_capacity passes.new ≡ vec_capacity passes.old }
{
    while !benches.is_empty() {
        let station = Station {
            hand: take_first(hands),
            bench: take_first(&mut benches),
            pass: take_first(passes),
            end: None,
        };
        stations.push_reserved(station);
    }
}

/// Moves the lanes of booths behind those that are there, and their passes likewise.
pub fn leave_booths<D: Disk, A: Doors, C: Clock>(
    mut booths: Vec<Booth<D, A, C>>,
    lanes: &mut Vec<Lane<A, C>>,
    passes: &mut Vec<Pass<Shop<D>>>,
)
    requires lanes { length lanes.old.items + length booths.items ≤ vec_capacity lanes.old }
    requires passes { length passes.old.items + length booths.items ≤ vec_capacity passes.old }
    ensures lanes { lanes.new.items ≡ lanes.old.items ++ map (λ booth. booth.lane) booths.items }
    ensures passes { passes.new.items ≡ passes.old.items ++ map (λ booth. booth.pass) booths.items }
    ensures lanes_kept { vec_capacity lanes.new ≡ vec_capacity lanes.old }
    ensures passes_kept { vec_capacity passes.new ≡ vec_capacity passes.old }
{
    while !booths.is_empty() {
        let Booth {
            lane,
            room: _,
            pass,
            end: _,
        } = take_first(&mut booths);
        lanes.push_reserved(lane);
        passes.push_reserved(pass);
    }
    booths.destroy_empty();
}

/// Moves the hands of stations behind those that are there, and their passes likewise.
pub fn leave_stations<D: Disk, E: Store, C: Clock, W: Words>(
    mut stations: Vec<Station<D, E, C, W>>,
    hands: &mut Vec<Hand<E, C, W>>,
    passes: &mut Vec<Pass<Shop<D>>>,
)
    requires hands { length hands.old.items + length stations.items ≤ vec_capacity hands.old }
    requires passes { length passes.old.items + length stations.items ≤ vec_capacity passes.old }
    ensures hands { hands.new.items ≡ hands.old.items ++ map (λ station. station.hand) stations.items }
    ensures passes { passes.new.items ≡ passes.old.items ++ map (λ station. station.pass) stations.items }
    ensures hands_kept { vec_capacity hands.new ≡ vec_capacity hands.old }
    ensures passes_kept { vec_capacity passes.new ≡ vec_capacity passes.old }
{
    while !stations.is_empty() {
        let Station {
            hand,
            bench: _,
            pass,
            end: _,
        } = take_first(&mut stations);
        hands.push_reserved(hand);
        passes.push_reserved(pass);
    }
    stations.destroy_empty();
}

/// Moves the first items behind all others, so many.
#[tactic(auto, using(crate::proofs::Seated::turn_one))]
pub fn cycle<T>(items: &mut Vec<T>, count: usize)
    requires few { count ≤ length items.old.items }
    ensures items { items.new.items ≡ drop count items.old.items ++ take count items.old.items }
    ensures kept { vec_capacity items.new ≡ vec_capacity items.old }
{
    for _ in 0..count {
        let first = take_first(items);
        items.push_reserved(first);
    }
}
