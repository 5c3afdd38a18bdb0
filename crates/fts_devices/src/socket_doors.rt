//! The real doors: connections to a port of 127.0.0.1, or to a socket of the file system, taken one by one from a listener that the lanes share.
//! Keeps: a connection that is gone before it is taken, or can't be set up, is passed over, and want of descriptors or of memory is waited out, so
//! that no client ends a lane. Only a listener that can't be had or isn't one makes a call fail, and each such failure is counted.
//! Each line gets the doors' relief: while it is silent between two requests its lane takes the connection that waits, which then is the next one.
//! Doors that wait for a connection sleep in the system, and look every half second whether the service is to stop: then no more connections come, and
//! what had come is closed. They tell nothing of lines. What follows of an error of an accept is in `accepting`, which address is listened on in
//! `steps`, and what a listener is in `sockets`.
ghost use Rattle.std.specs.Prelude.{◌≡◌, ◌↔◌, None, IfOk, IsOk, IsSome, is_some, not};
ghost use Rattle.std.specs.Option.{option_copied};
ghost use Rattle.fts_tables.specs.Counts.{CountsFaults};

use crate::accepting::{Listens, next_line};
use crate::log::SystemLog;
use crate::relief::{Relief, glance, look_at_listener};
use crate::socket_line::{LineLimits, SocketLine};
use crate::sockets::{Listener, Stream, errno_of};
use crate::steps::Seen;
use crate::stop::StopFile;
use fts_log::{Event, Log};
use fts_service::{Doors, DoorsFailed};
use std::alloc::Global;
use std::fs::Files;
use std::net::{Net, SocketAddr, TcpListener, TcpStream};
use std::rt::Clock as SystemTimes;
use std::thread;
use std::time::Duration;

/// How long doors rest where a connection can't be taken yet, in milliseconds.
const REST_MILLIS: u64 = 100;

/// Doors of a port, or of a socket.
#[derive(Drop)]
pub struct SocketDoors<
    'a,
    R: Net<Listener = TcpListener, Stream = TcpStream> + Files + SystemTimes + Copy,
> {
    rt: R,
    alloc: Global,
    limits: LineLimits,
    /// The socket at which they listen where no port is named.
    path: Option<&'a str>,
    listener: Option<Listener>,
    /// That of the next line; the line that is out has it.
    relief: Option<Relief<'a>>,
    /// What says that the service is to stop.
    stop: StopFile<'a>,
    /// Who is told where they listen, and which lines are ended for a fault.
    log: Option<&'a SystemLog<'a>>,
    out: u64,
    faults: u64,
}

/// What is answered of a connection that was taken and can't be set up: it is gone (ECONNABORTED).
const ABORTED: u32 = 103;

/// What is answered where none came in a glance: the next one may be there (EAGAIN).
const NONE_YET: u32 = 11;

/// What is answered where the service is to stop: there is no listener any more (EBADF).
const CLOSED: u32 = 9;

/// A listener, with what its lines are made of.
#[derive(Drop)]
struct Listening<'l, 'a, R: SystemTimes + Copy> {
    rt: R,
    limits: LineLimits,
    listener: &'l Listener,
    /// The connection that was taken while a line gave way.
    taken: Option<Stream>,
    stop: StopFile<'a>,
}

impl<R: SystemTimes + Copy> Listening<'_, '_, R> {
    /// The connection that was taken, or the next one; else the system's number of a refusal.
    fn stream(&mut self) -> Result<Stream, u32> {
        if self.stop.stands() {
            return Err(CLOSED);
        }
        if let Some(stream) = self.taken.take() {
            return Ok(stream);
        }
        match look_at_listener(self.listener, glance()) {
            Seen::Nothing => Err(NONE_YET),
            Seen::Line | Seen::Waiting => match self.listener.accept() {
                Ok(stream) => Ok(stream),
                Err(error) => Err(errno_of(&error)),
            },
        }
    }
}

impl<'a, R: SystemTimes + Copy> Listens for Listening<'_, 'a, R> {
    ghost use Rattle.std.specs.Prelude.{None};

    type Line = SocketLine<'a, R>;

    ghost answers = { λ _. None };

    fn take(&mut self) -> Result<SocketLine<'a, R>, u32> {
        let stream = self.stream()?;
        SocketLine::over(self.rt, stream, self.limits).map_err(|_| ABORTED)
    }

    fn rest(&mut self) {
        thread::sleep(&self.rt, Duration::from_millis(REST_MILLIS));
    }
}

impl<
    'a,
    R: Net<Listener = TcpListener, Stream = TcpStream> + Files + SystemTimes + Copy,
> SocketDoors<'a, R> {
    /// Doors that don't listen yet, whose lines have these limits. They give no line any more once this stop file stands.
    pub fn new(rt: R, alloc: Global, limits: LineLimits, stop: StopFile<'a>) -> SocketDoors<'a, R>
        ensures { result ≡ record { rt = rt; alloc = alloc; limits = limits; path = None; listener = None; relief = None; stop = stop.exit; log = None; out = 0; faults = 0 } }
    {
        SocketDoors {
            rt,
            alloc,
            limits,
            path: None,
            listener: None,
            relief: None,
            stop,
            log: None,
            out: 0,
            faults: 0,
        }
    }

    /// The same doors, which listen at the socket of this path in the place of a port.
    pub fn at_socket(mut self, path: Option<&'a str>) -> SocketDoors<'a, R>
        ensures path { option_copied result.path ≡ option_copied path.entry }
        ensures same { (result.limits ≡ self.entry.limits) × (result.listener ≡ self.entry.listener) × (result.relief ≡ self.entry.relief) }
        ensures counts { (result.out ≡ self.entry.out) × (result.faults ≡ self.entry.faults) }
    {
        self.path = path;
        self
    }

    /// The same doors, which tell this log, where there is one, at which place they listen, and which lines are ended for a fault.
    pub fn telling(mut self, log: Option<&'a SystemLog<'a>>) -> SocketDoors<'a, R>
        ensures path { option_copied result.path ≡ option_copied self.entry.path }
        ensures same { (result.limits ≡ self.entry.limits) × (result.listener ≡ self.entry.listener) × (result.relief ≡ self.entry.relief) }
        ensures counts { (result.out ≡ self.entry.out) × (result.faults ≡ self.entry.faults) }
    {
        self.log = log;
        self
    }

    /// Tells the log an event, where there is one.
    fn tell(&self, event: &Event<'_>) {
        if let Some(log) = self.log {
            log.tell(event);
        }
    }

    /// Tells where they listen: the path of a socket, or the address and the port.
    fn tell_place(&self) {
        if let (None, Some(path)) = (self.place(), self.path) {
            self.tell(&Event::Listens { at: path });
        }
        if let Some(place) = self.place() {
            if let Ok(at) = format!(in self.alloc; "{place}") {
                self.tell(&Event::Listens { at: at.as_str() });
            }
        }
    }

    /// The address and the port that they listen on, as the system says; none where they don't listen on one, or where it can't say.
    pub fn place(&self) -> Option<SocketAddr> {
        self.listener.as_ref()?.place()
    }

    /// A listener on this port, or, where none is named, at the doors' own socket; none where they are of the other kind, or it can't be had.
    fn bound(&self, port: Option<u16>) -> Option<Listener>
        ensures fits { IsSome result → is_some self.now.path ≡ not (is_some port) }
    {
        match (port, self.path) {
            (Some(port), None) => Listener::at_port(&self.rt, port).ok(),
            (None, Some(path)) => Listener::at_path(&self.rt, path).ok(),
            (Some(_), Some(_)) | (None, None) => None,
        }
    }

    /// This listener, at which no accept waits, with relief at it; none where either can't be had.
    fn ready(&mut self, listener: Option<Listener>) -> Option<Listener>
        ensures same { (self.new.out ≡ self.old.out) × (self.new.faults ≡ self.old.faults) }
    {
        let listener = listener?;
        listener.set_waiting_for_none().ok()?;
        let other = listener.try_clone().ok()?;
        self.relief = Some(Relief::new(self.alloc, other, self.stop).ok()?);
        Some(listener)
    }

    /// Takes this listener, or counts a fault.
    fn take(&mut self, listener: Option<Listener>) -> Result<(), DoorsFailed>
        ensures out { self.new.out ≡ self.old.out }
        ensures open { IfOk result (λ done. self.new.listener ≡ listener) }
        ensures some { IsOk result ↔ IsSome listener }
        ensures cause { CountsFaults self.old.faults self.new.faults result }
    {
        match listener {
            Some(listener) => {
                self.listener = Some(listener);
                Ok(())
            }
            None => {
                self.faults = self.faults.saturating_add(1);
                Err(DoorsFailed)
            }
        }
    }

    /// Waits for a connection, if none was taken already.
    fn accept(&mut self) -> Option<SocketLine<'a, R>>
        ensures same { (self.new.out ≡ self.old.out) × (self.new.faults ≡ self.old.faults) × (self.new.listener ≡ self.old.listener) }
    {
        let listener = self.listener.as_ref()?;
        let taken = match &mut self.relief {
            Some(relief) => relief.take_next(),
            None => None,
        };
        let line = next_line(&mut Listening {
            rt: self.rt,
            limits: self.limits,
            listener,
            taken,
            stop: self.stop,
        })?;
        Some(line.relieved_by(self.relief.take()))
    }
}

impl<'a, R: Net<Listener = TcpListener, Stream = TcpStream> + Files + SystemTimes + Copy> Doors
    for SocketDoors<'a, R> {
    ghost use Rattle.std.specs.Prelude.{None, is_some};
    ghost use Rattle.std.proofs.Common.{rules};

    type Line = SocketLine<'a, R>;

    ghost doors = { λ d. record { coming = None; back = None; out = d.out } };

    ghost faults = { λ d. d.faults };

    ghost listens = { λ d. is_some d.listener };

    ghost line = { Prim.search rules };

    fn listen(&mut self, port: Option<u16>) -> Result<(), DoorsFailed> {
        let listener = self.bound(port);
        let listener = self.ready(listener);
        self.take(listener)?;
        self.tell_place();
        Ok(())
    }

    fn share(&mut self, first: &SocketDoors<'a, R>) -> Result<(), DoorsFailed> {
        let listener = match &first.listener {
            Some(listener) => listener.try_clone().ok(),
            None => None,
        };
        let listener = self.ready(listener);
        self.take(listener)
    }

    fn next(&mut self) -> Result<Option<SocketLine<'a, R>>, DoorsFailed> {
        if let (Some(line), Some(out)) = (self.accept(), self.out.checked_add(1)) {
            self.out = out;
            return Ok(Some(line));
        }
        if self.stop.stands() {
            return Ok(None);
        }
        self.faults = self.faults.saturating_add(1);
        Err(DoorsFailed)
    }

    fn done(&mut self, line: SocketLine<'a, R>) {
        if let Some(cause) = line.fault() {
            self.tell(&Event::LineEnded { cause });
        }
        self.out -= 1;
        self.relief = line.end();
    }
}
