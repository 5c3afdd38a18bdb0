//! Lanes and workers at the same time: each lane at its booth and each worker at its station in a thread of its own, where one can be made.
//! Keeps: what `serve_lane` says of each booth and `worker` of each station, by its own old value alone. Lists are halved until one is left (`spread`
//! and `beside` of fts_shop).
ghost use Rattle.std.specs.Prelude.{All};
ghost use Rattle.fts_shop.specs.Many.{Each};
ghost use Rattle.fts_service.specs.Halls.{IsBoothServed, IsBoothReady, IsStationWorked, IsStationReady};
ghost use Rattle.fts_service.specs.Lanes.{sides_of};

use crate::doors::Doors;
use crate::lane::{Booth, serve_lane};
use fts_disk::Disk;
use fts_routes::Routes;
use fts_shop::{Shop, Station, Work, beside, spread, worker};
use fts_store::Store;
use fts_tables::{Clock, Words};
use fts_turnstile::Turnstile;
use fts_workers::{Gate, NoGate};
use std::alloc::Global;
use std::sync::Wait;
use std::thread::Threads;

/// What all lanes and workers of a run share: the lock, where memory comes from, the routes, how many lines a lane serves at most, which is at least 1, and the gate
/// before copies.
pub struct Hall<'a, D: Disk, G> {
    pub shop: &'a Turnstile<Shop<D>>,
    pub alloc: Global,
    pub routes: &'a Routes,
    pub connections: Option<u32>,
    pub gate: &'a G,
}

/// The work of a lane at its booth.
struct AtBooths;

impl<'a, D: Disk, A: Doors, C: Clock, G> Work<Hall<'a, D, G>, Booth<D, A, C>> for AtBooths {
    ghost use Rattle.fts_service.specs.Lanes.{sides_of};
    ghost use Rattle.fts_service.specs.Halls.{IsBoothServed, IsBoothReady};

    ghost ready = { λ hall booth. IsBoothReady hall.shop.now hall.connections booth };

    ghost done = { λ hall old new. IsBoothServed (sides_of A.Line.Source A.Line.Sink) A.Doors C.Clock hall.connections old new };

    fn work<R: Wait>(rt: &R, shared: &Hall<'a, D, G>, job: &mut Booth<D, A, C>) {
        serve_lane(
            rt,
            shared.alloc,
            shared.routes,
            shared.shop,
            job,
            shared.connections,
        );
    }
}

/// The work of a worker at its station.
struct AtStations;

impl<'a, D: Disk, E: Store, C: Clock, W: Words, G: Gate> Work<Hall<'a, D, G>, Station<D, E, C, W>>
    for AtStations {
    ghost use Rattle.fts_service.specs.Halls.{IsStationWorked, IsStationReady};

    ghost ready = { λ hall station. IsStationReady hall.shop.now station };

    ghost done = { λ hall old new. IsStationWorked E.Store C.Clock W.Words (G.closes hall.gate.now) old new };

    fn work<R: Wait>(rt: &R, shared: &Hall<'a, D, G>, job: &mut Station<D, E, C, W>) {
        worker(rt, shared.shop, job, shared.gate);
    }
}

/// Serves the lines of all booths, and takes the turns of all stations, at the same time. It waits for both.
/// Where no thread can be made, the lines are served first: a station waits until all lines have ended, and a line for no station.
pub fn serve_all<
    D: Disk + Send,
    A: Doors + Send,
    E: Store + Send,
    C: Clock + Send,
    W: Words + Send,
    G: Gate + Sync,
    R: Threads + Wait + Sync,
>(
    rt: &R,
    hall: &Hall<'_, D, G>,
    booths: &mut Vec<Booth<D, A, C>>,
    stations: &mut Vec<Station<D, E, C, W>>,
)
where
    A::Line: Send,
    requires booths { All (IsBoothReady hall.now.shop.now hall.now.connections) booths.old.items }
    requires stations { All (IsStationReady hall.now.shop.now) stations.old.items }
    ensures booths { Each (IsBoothServed (sides_of A.Line.Source A.Line.Sink) A.Doors C.Clock hall.now.connections) booths.old.items booths.new.items }
    ensures stations { Each (IsStationWorked E.Store C.Clock W.Words (G.closes hall.now.gate.now)) stations.old.items stations.new.items }
{
    beside::<AtStations, AtBooths, Hall<'_, D, G>, Station<D, E, C, W>, Booth<D, A, C>, R>(
        rt,
        hall,
        stations.as_mut_slice(),
        booths.as_mut_slice(),
    );
}

/// The lanes of all booths, at the same time, each for so many lines at most, which is at least 1. Each booth's `end` says then how its lane stopped.
pub fn run_lanes<D: Disk + Send, A: Doors + Send, C: Clock + Send, R: Threads + Wait + Sync>(
    rt: &R,
    alloc: Global,
    routes: &Routes,
    shop: &Turnstile<Shop<D>>,
    booths: &mut [Booth<D, A, C>],
    connections: Option<u32>,
)
where
    A::Line: Send,
    requires { All (IsBoothReady shop.now connections) booths.old }
    ensures { Each (IsBoothServed (sides_of A.Line.Source A.Line.Sink) A.Doors C.Clock connections) booths.old booths.new }
{
    let hall = Hall {
        shop,
        alloc,
        routes,
        connections,
        gate: &NoGate,
    };
    spread::<AtBooths, Hall<'_, D, NoGate>, Booth<D, A, C>, R>(rt, &hall, booths);
    let Hall {
        shop: _,
        alloc: _,
        routes: _,
        connections: _,
        gate: _,
    } = hall;
}
