//! A lane: doors from which one thread takes lines and serves them, one after the other, over the one pass of its booth.
//! Keeps: each line that was given is served and handed back, in order (`ServesLines` of `specs/Lanes.antt`); no point of a later line lies before
//! one of an earlier line. A line's fault ends that line alone.
//! Order of a lane: a line is taken, served and handed back, and so on until there are enough, no more come, or the doors fail; then one turn counts
//! the lane off.
ghost use Rattle.std.specs.Prelude.{◌≡◌, ◌≤◌, IfSome};
ghost use Rattle.fts_tables.specs.Counts.{Rose};
ghost use Rattle.fts_turnstile.specs.Passes.{IsOf, IsSame};
ghost use Rattle.fts_service.specs.Booths.{booth_data};
ghost use Rattle.fts_service.specs.Lanes.{BoothDone, StopsLines, is_none_left, less_one, standing, sides_of};

use crate::connection::serve_connection;
use crate::doors::{Doors, DoorsFailed};
use fts_disk::Disk;
use fts_routes::Routes;
use fts_shop::{Shop, lane_ends};
use fts_tables::Clock;
use fts_turnstile::{Pass, Turnstile};
use fts_wire::Room;
use std::alloc::Global;
use std::sync::Wait;

/// What one lane has of the outside: its doors and its clock.
#[derive(Drop)]
pub struct Lane<A: Doors, C: Clock> {
    pub doors: A,
    pub clock: C,
}

/// Why a lane took no more lines.
#[derive(Clone, Copy, Debug, PartialEq, Eq)]
pub enum LaneStop {
    /// No more connections come.
    NoMore,
    /// As many lines were served as were asked for.
    Enough { lines: u32 },
    /// The doors failed.
    DoorsFailed,
}

/// A lane at work: its room, its pass, and how it stopped.
#[derive(Drop)]
pub struct Booth<D: Disk, A: Doors, C: Clock> {
    pub lane: Lane<A, C>,
    pub room: Room,
    pub pass: Pass<Shop<D>>,
    pub end: Option<LaneStop>,
}

/// Serves the lines that the booth's doors give, so many at most, which is at least 1, and then counts its lane off in a turn of its own.
/// Afterwards the booth's `end` says why it took no more. It waits for lines and for turns.
pub fn serve_lane<D: Disk, A: Doors, C: Clock, R: Wait>(
    rt: &R,
    alloc: Global,
    routes: &Routes,
    shop: &Turnstile<Shop<D>>,
    booth: &mut Booth<D, A, C>,
    connections: Option<u32>,
)
    requires own { IsOf shop.now booth.old.pass }
    requires some { IfSome connections (λ most. 1 ≤ most) }
    ensures { BoothDone (sides_of A.Line.Source A.Line.Sink) connections (booth_data C.Clock A.Doors booth.old) (booth_data C.Clock A.Doors booth.new) }
{
    let stop = serve_lines(rt, alloc, routes, shop, booth, connections);
    lane_ends(rt, shop, &mut booth.pass);
    booth.end = Some(stop);
}

/// Takes lines, serves each and hands it back, until there are enough, no more come, or the doors fail.
fn serve_lines<D: Disk, A: Doors, C: Clock, R: Wait>(
    rt: &R,
    alloc: Global,
    routes: &Routes,
    shop: &Turnstile<Shop<D>>,
    booth: &mut Booth<D, A, C>,
    connections: Option<u32>,
) -> LaneStop
    requires own { IsOf shop.now booth.old.pass }
    ensures same { IsSame booth.old.pass booth.new.pass }
    ensures serves { StopsLines (sides_of A.Line.Source A.Line.Sink)
        connections (standing booth.old.pass (C.moments booth.old.lane.clock)) (standing booth.new.pass (C.moments booth.new.lane.clock))
        (A.doors booth.old.lane.doors) (A.doors booth.new.lane.doors) (Rose (A.faults booth.old.lane.doors) (A.faults booth.new.lane.doors)) result }
{
    let mut left = connections;
    for _ in rt.forever() {
        if is_enough(left) {
            return LaneStop::Enough {
                lines: connections.unwrap_or(0),
            };
        }
        match booth.lane.doors.next() {
            Ok(Some(mut line)) => {
                serve_connection(
                    rt,
                    alloc,
                    routes,
                    shop,
                    &mut booth.pass,
                    &mut line,
                    &mut booth.lane.clock,
                    &mut booth.room,
                );
                booth.lane.doors.done(line);
                left = one_less(left);
            }
            Ok(None) => return LaneStop::NoMore,
            Err(DoorsFailed) => return LaneStop::DoorsFailed,
        }
    }
    unreachable!()
}

/// Whether no line more may be served.
fn is_enough(left: Option<u32>) -> bool
    ensures { result ≡ is_none_left left }
{
    left == Some(0)
}

/// One line less that may be served.
fn one_less(left: Option<u32>) -> Option<u32>
    ensures { result ≡ less_one left }
{
    match left {
        Some(lines) => Some(lines.saturating_sub(1)),
        None => None,
    }
}
