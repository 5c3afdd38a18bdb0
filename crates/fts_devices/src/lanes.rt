//! Lanes: doors, each with the system's clock.
//! Keeps: there is a lane for each of the doors, in their order (`lanes_over`, clause `doors`); doors that were just made have no listener, and no line
//! of theirs is out (`closed_doors`).
ghost use Rattle.std.specs.Prelude.{◌≡◌, length, map, All, IfOk};
ghost use Rattle.std.specs.Option.{option_copied};
ghost use Rattle.fts_tables.specs.declared.limits.TheConstants.{MAX_LANES};
ghost use Rattle.fts_devices.specs.Lanes.{IsClosed};

use crate::log::SystemLog;
use crate::outside::SystemClock;
use crate::socket_doors::SocketDoors;
use crate::socket_line::LineLimits;
use crate::stop::StopFile;
use fts_service::{Doors, Lane};
use fts_tables::Memory;
use fts_tables::limits::MAX_LANES;
use std::alloc::Global;
use std::fs::Files;
use std::net::{Net, TcpListener, TcpStream};
use std::rt::Clock as SystemTimes;

/// How many lanes a run has.
const LANES: usize = MAX_LANES as usize;

/// A lane with the system's clock.
pub type SystemLane<A, R> = Lane<A, SystemClock<R>>;

/// Doors for each lane of a service, `MAX_LANES` of them, which don't listen yet, give no line any more once this stop file stands, listen
/// at this socket where one is named, and tell this log where there is one. An error where memory is wanting.
pub fn closed_doors<
    'a,
    R: Net<Listener = TcpListener, Stream = TcpStream> + Files + SystemTimes + Copy,
>(
    rt: R,
    alloc: Global,
    stop: StopFile<'a>,
    socket: Option<&'a str>,
    log: Option<&'a SystemLog<'a>>,
) -> Result<Vec<SocketDoors<'a, R>>, Memory>
    ensures count { IfOk result (λ doors. length doors.items ≡ MAX_LANES) }
    ensures closed { IfOk result (λ doors. All (IsClosed (option_copied socket.entry)) doors.items) }
{
    let mut doors = Vec::new(alloc);
    for _ in 0..LANES {
        if doors
            .push(service_doors(rt, alloc, stop, socket, log))
            .is_err()
        {
            return Err(Memory);
        }
    }
    Ok(doors)
}

/// Doors that don't listen yet, at a socket where one is named, whose lines have a service's limits.
fn service_doors<
    'a,
    R: Net<Listener = TcpListener, Stream = TcpStream> + Files + SystemTimes + Copy,
>(
    rt: R,
    alloc: Global,
    stop: StopFile<'a>,
    socket: Option<&'a str>,
    log: Option<&'a SystemLog<'a>>,
) -> SocketDoors<'a, R>
    ensures { IsClosed (option_copied socket.entry) result }
{
    SocketDoors::new(rt, alloc, LineLimits::of_service(), stop)
        .at_socket(socket)
        .telling(log)
}

/// The lanes at these doors, in their order, each with the system's clock. An error where memory is wanting.
pub fn lanes_over<A: Doors + Drop, R: SystemTimes + Copy>(
    rt: R,
    alloc: Global,
    doors: Vec<A>,
) -> Result<Vec<SystemLane<A, R>>, Memory>
    ensures count { IfOk result (λ lanes. length lanes.items ≡ length doors.items) }
    ensures doors { IfOk result (λ lanes. map (λ lane. lane.doors) lanes.items ≡ doors.items) }
{
    let mut lanes = Vec::new(alloc);
    for doors in doors {
        let lane = Lane {
            doors,
            clock: SystemClock::new(rt),
        };
        if lanes.push(lane).is_err() {
            return Err(Memory);
        }
    }
    Ok(lanes)
}
