//! The program `fts_monitor STAND --port PORT`: it answers on a port of 127.0.0.1 what stands in the journal of a stand, for a browser and for Prometheus.
//! It opens the file `fts.journal` of the folder STAND for reading, takes no lock, and writes nothing. Which command lines are accepted stands in
//! `specs/CommandLine.antt`; what is answered, `fts_panel` decides.
#![tactic(auto)]

ghost use Rattle.std.specs.Prelude.{◌≡◌, map, string_bytes, option_and_then};
ghost use Rattle.fts_words.specs.Words.{number_of};
ghost use Rattle.fts_disk.specs.File.{IsReadOnly};
ghost use Rattle.fts_monitor.specs.CommandLine.{port_by, port_in, port_named, status_of};

use fts_devices::{LineLimits, SocketDoors, StopFile, SystemClock, command_line};
use fts_disk::{Disk, FileDisk, SystemDisk};
use fts_panel::{View, open_view, serve_line};
use fts_service::{Doors, DoorsFailed};
use fts_tables::{Clock, Memory};
use fts_watch::MonitorFault;
use fts_wire::{Room, Sink, StdSink};
use fts_words::number_of;
use std::alloc::Global;
use std::process::ExitCode;
use std::sync::Wait;

/// The port that the words behind the stand name; none where they are not accepted.
fn port_in(words: &[String]) -> Option<u16>
    ensures { result ≡ port_in (map string_bytes words.now) }
{
    match words {
        [word] => match word.as_str().split_once('=') {
            Some((name, value)) => port_named(name, value),
            None => None,
        },
        [name, value] => port_named(name.as_str(), value.as_str()),
        _ => None,
    }
}

/// The port of an option, by its name and its value.
fn port_named(name: &str, value: &str) -> Option<u16>
    ensures { result ≡ port_named name.now value.now }
{
    if name == "--port" {
        port_of(value)
    } else {
        None
    }
}

/// The port that a value is.
fn port_of(value: &str) -> Option<u16>
    ensures { result ≡ option_and_then port_by (number_of value.now) }
{
    match number_of(value) {
        Some(number) => port_by(number),
        None => None,
    }
}

/// A number that a port may have.
fn port_by(number: u64) -> Option<u16>
    ensures { result ≡ port_by number }
{
    if 1 <= number && number <= 65_535 {
        Some(number as u16)
    } else {
        None
    }
}

/// Tells how the program ends, and gives its status. Where nobody reads it, the status tells it.
fn tell(rt: &HostRuntime, status: u8, note: &str) -> u8 {
    let _told = StdSink::new(rt.stderr()).write(note.as_bytes());
    status
}

/// The status where a journal can't be shown.
fn status_of(fault: MonitorFault) -> u8
    ensures { result ≡ status_of fault }
{
    match fault {
        MonitorFault::DiskFailed | MonitorFault::Changed => 4,
        MonitorFault::Damaged { offset: _ } => 7,
        MonitorFault::Memory => 1,
    }
}

/// What is told where a journal can't be shown.
fn note_of(fault: MonitorFault) -> &'static str {
    match fault {
        MonitorFault::DiskFailed => "fts_monitor: journal could not be read\n",
        MonitorFault::Changed => "fts_monitor: journal changed\n",
        MonitorFault::Damaged { offset: _ } => "fts_monitor: no journal\n",
        MonitorFault::Memory => "fts_monitor: no memory\n",
    }
}

/// Serves the next line of the doors, and gives the view behind it; none where no line comes any more.
fn serve_next<D: Disk + Drop, C: Clock, A: Doors>(
    alloc: Global,
    view: View<D>,
    clock: &mut C,
    doors: &mut A,
    room: &mut Room,
) -> Option<View<D>> {
    match doors.next() {
        Ok(Some(mut line)) => {
            let view = serve_line(alloc, view, clock, &mut line, room);
            doors.done(line);
            Some(view)
        }
        Ok(None) | Err(DoorsFailed) => None,
    }
}

/// Serves lines for ever, one at a time, or until none comes any more.
fn serve_lines<R: Wait, D: Disk + Drop, C: Clock, A: Doors>(
    waits: &R,
    alloc: Global,
    view: View<D>,
    clock: &mut C,
    doors: &mut A,
    room: &mut Room,
) {
    let mut view = view;
    for _ in waits.forever() {
        match serve_next(alloc, view, clock, doors, room) {
            Some(next) => view = next,
            None => return,
        }
    }
}

/// The journal of this path, opened for looking.
fn journal_at<'a>(rt: &'a HostRuntime, path: &str) -> SystemDisk<&'a HostRuntime>
    ensures { IsReadOnly result }
{
    FileDisk::view(rt, path)
}

/// Serves what stands in a journal on a port, and gives the status where that ends.
fn serve_journal<R: Wait, D: Disk + Drop>(
    rt: &HostRuntime,
    waits: &R,
    journal: D,
    port: u16,
) -> Result<u8, Memory> {
    let alloc = rt.alloc();
    let mut clock = SystemClock::new(rt);
    let view = open_view(alloc, journal, clock.now());
    if let Some(fault) = view.fault() {
        return Ok(tell(rt, status_of(fault), note_of(fault)));
    }
    let mut room = Room::new(alloc)?;
    let mut doors = SocketDoors::new(rt, alloc, LineLimits::of_service(), StopFile::none());
    if doors.listen(Some(port)).is_ok() {
        serve_lines(waits, alloc, view, &mut clock, &mut doors, &mut room);
    }
    Ok(tell(rt, 9, "fts_monitor: doors failed\n"))
}

/// Serves what stands in the journal of a stand on a port, and gives the status where that ends.
fn serve<R: Wait>(rt: &HostRuntime, waits: &R, stand: &str, port: u16) -> Result<u8, Memory> {
    let path = format!(in rt.alloc(); "{stand}/fts.journal")?;
    serve_journal(rt, waits, journal_at(rt, path.as_str()), port)
}

/// Reads the command line, and serves.
fn run<R: Wait>(rt: &HostRuntime, waits: &R) -> Result<u8, Memory> {
    let line = command_line(rt)?;
    if let [_, stand, words @ ..] = line.as_slice() {
        if let Some(port) = port_in(words) {
            return serve(rt, waits, stand.as_str(), port);
        }
    }
    Ok(tell(rt, 2, "usage: fts_monitor STAND --port PORT\n"))
}

fn main(rt: HostRuntime) -> ExitCode {
    match run(&rt, &rt) {
        Ok(status) => ExitCode::from(status),
        Err(Memory) => ExitCode::from(1),
    }
}
