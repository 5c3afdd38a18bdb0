//! Lanes without a run around them, over a lock over a new keep in memory: that a client reads what it wrote, and that a lane ends as its doors do.
//! The exchange has the job that the protocol's description shows: the standard id of job 1, and the states of a new job.
//! A row that is otherwise than wanted is printed, and then how many were as wanted. Every error is answered as want of memory.
ghost use Rattle.std.specs.Prelude.{◌≡◌, ◌≤◌, IfOk, IfSome};
ghost use Rattle.fts_turnstile.specs.Passes.{first_pass};

use crate::stand::{NOW, SETTINGS, clock, no_memory};
use fts_config::read_settings;
use fts_disk::MemoryDisk;
use fts_keep::Keep;
use fts_routes::Routes;
use fts_shop::Shop;
use fts_tables::Memory;
use fts_top::{Booth, Lane, LaneStop, LineEnd, MemoryDoors, serve_connection, serve_lane};
use fts_turnstile::{Pass, Turnstile};
use fts_wire::{MemoryLine, MemorySink, MemorySource, Room};
use std::alloc::Global;
use std::io;
use std::sync::Wait;

/// A submission, a look at the job that it makes, and the end.
const ASKED: &str = "POST /jobs HTTP/1.1\r\nContent-Length: 93\r\n\r\n\
{\"files\":[{\"sources\":[\"https://a.example/data/f1\"],\"destinations\":[\"https://b.example/f1\"]}]}\
GET /jobs/00000000-0000-4000-8000-000000000001 HTTP/1.1\r\nConnection: close\r\n\r\n";

/// What is answered.
const ANSWERED: &str =
    "HTTP/1.1 200 OK\r\nContent-Type: application/json\r\nContent-Length: 49\r\n\r\n\
{\"job_id\":\"00000000-0000-4000-8000-000000000001\"}\
HTTP/1.1 200 OK\r\nContent-Type: application/json\r\nContent-Length: 169\r\nConnection: close\r\n\r\n\
{\"job_id\":\"00000000-0000-4000-8000-000000000001\",\"job_state\":\"SUBMITTED\",\"kind\":\"plain\",\"priority\":3,\
\"retry\":0,\"retry_delay\":0,\"submit_time\":1700000000,\"vo_name\":\"demo\"}";

/// A lock over a new keep in memory, with one lane.
fn open_shop(alloc: Global) -> Result<(Turnstile<Shop<MemoryDisk>>, Pass<Shop<MemoryDisk>>), Memory>
    ensures { IfOk result (λ made. made.1 ≡ first_pass made.0) }
{
    let Ok(settings) = read_settings(alloc, SETTINGS.as_bytes()) else {
        return Err(Memory);
    };
    let disk = MemoryDisk::new(alloc, Vec::new(alloc));
    let Ok(keep) = Keep::start(alloc, disk, settings, NOW) else {
        return Err(Memory);
    };
    match Turnstile::new(alloc, Shop::new(keep, 1)) {
        Ok(made) => Ok(made),
        Err(_) => Err(Memory),
    }
}

/// A line with this input.
fn line(alloc: Global, input: &str) -> Result<MemoryLine, Memory> {
    let source = MemorySource::new(input.as_bytes().to_vec(alloc)?, Vec::new(alloc));
    Ok(MemoryLine::new(source, MemorySink::new(alloc, Vec::new(alloc))))
}

/// Whether a client over one line reads what it wrote.
fn reads_what_it_wrote<R: Wait>(rt: &R, alloc: Global) -> Result<bool, Memory> {
    let (shop, mut pass) = open_shop(alloc)?;
    let mut line = line(alloc, ASKED)?;
    let mut clock = clock(alloc)?;
    let mut room = Room::new(alloc)?;
    let routes = Routes::new(alloc)?;
    let end = serve_connection(
        rt, alloc, &routes, &shop, &mut pass, &mut line, &mut clock, &mut room,
    );
    Ok(end == LineEnd::Closed && line.bytes() == ANSWERED.as_bytes())
}

/// How a lane ended, how many lines came back to its doors, and how many lanes are left.
#[derive(Clone, Copy, PartialEq, Eq)]
struct Ended {
    end: Option<LaneStop>,
    back: usize,
    lanes: u32,
}

/// A lane over doors with two lines of which these calls fail, where it may serve so many.
fn lane_over<R: Wait>(
    rt: &R,
    alloc: Global,
    fail: &[u64],
    connections: Option<u32>,
) -> Result<Ended, Memory>
    requires { IfSome connections (λ most. 1 ≤ most) }
{
    let (shop, pass) = open_shop(alloc)?;
    let mut lines = Vec::new(alloc);
    for input in [ASKED, "GET"] {
        if lines.push(line(alloc, input)?).is_err() {
            return Err(Memory);
        }
    }
    let Ok(doors) = MemoryDoors::new(alloc, lines, fail.to_vec(alloc)?) else {
        return Err(Memory);
    };
    let mut booth = Booth {
        lane: Lane {
            doors,
            clock: clock(alloc)?,
        },
        room: Room::new(alloc)?,
        pass,
        end: None,
    };
    let routes = Routes::new(alloc)?;
    serve_lane(rt, alloc, &routes, &shop, &mut booth, connections);
    let lanes = shop.with_turn(
        rt,
        &mut booth.pass,
        |shop: &mut Shop<MemoryDisk>| shop.lanes(),
    );
    Ok(Ended {
        end: booth.end,
        back: booth.lane.doors.back().len(),
        lanes,
    })
}

/// What is wanted of a lane that ends so with so many lines back: it is counted off.
fn counted_off(end: LaneStop, back: usize) -> Ended {
    Ended {
        end: Some(end),
        back,
        lanes: 0,
    }
}

/// How many rows of a lane ended as its doors do.
fn ends_as_its_doors<R: Wait>(rt: &HostRuntime, threads: &R) -> io::Result<u32> {
    let mut same: u32 = 0;
    for (row, fail, connections, wanted) in [
        (
            "no more lines",
            &[][..],
            None,
            counted_off(LaneStop::NoMore, 2),
        ),
        (
            "enough",
            &[2],
            Some(1),
            counted_off(LaneStop::Enough { lines: 1 }, 1),
        ),
        (
            "no line",
            &[1],
            Some(1),
            counted_off(LaneStop::DoorsFailed, 0),
        ),
        (
            "one line, and then none",
            &[2],
            Some(2),
            counted_off(LaneStop::DoorsFailed, 1),
        ),
    ] {
        let ended = lane_over(threads, rt.alloc(), fail, connections).map_err(no_memory)?;
        if ended == wanted {
            same = same.saturating_add(1);
        } else {
            println!(rt; "otherwise: a lane with {row}")?;
        }
    }
    Ok(same)
}

/// Plays each row.
pub fn play_all<R: Wait>(rt: &HostRuntime, threads: &R) -> io::Result<()> {
    let is_read = reads_what_it_wrote(threads, rt.alloc()).map_err(no_memory)?;
    println!(rt; "a client reads what it wrote: {is_read}")?;
    let lanes = ends_as_its_doors(rt, threads)?;
    println!(rt; "lanes that end as their doors do: {lanes}")
}
