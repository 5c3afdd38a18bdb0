//! A line over a socket: the bytes that a client sends, and those that it is sent.
//! Keeps: no client holds its lane. A read or a write that waits too long fails, and so does a read for a request that isn't whole in time, however
//! its bytes drip (`LineLimits`): the time of a request goes from the last response that was written whole, and no read and no failed write begins it
//! anew (`read`, clause `since`). Each failure is counted, and is this line's alone.
//! A line that is silent between two requests gives way to a connection that waits, as to the end of its input (`gives_way`, clause `between`);
//! before its first request it has a time of its own. `relief` has how the connection is taken.
//! Order of an end: where the client may still be sending, the writing side is shut, and what comes is taken in for a while; then it is closed.
//! Else unread bytes would make the system reset the connection, and the last response could be lost.
//! Made by `SocketDoors`, and for a client by `TcpLink`. It tells nothing of bytes.
ghost use Rattle.std.specs.Prelude.{◌≡◌, ◌≤◌, ◌<◌, length, None, true, false, IfOk, IsErr};
ghost use Rattle.fts_tables.specs.Counts.{CountsFaults};
ghost use Rattle.fts_wire.specs.Outside.{Reads, Writes, raised};
ghost use Rattle.fts_devices.specs.Relief.{MayEnd};
ghost use Rattle.fts_devices.specs.Limits.{IsOfService};
ghost use Rattle.fts_devices.specs.Steps.{has_failed, is_answered, is_end};

use crate::relief::{Met, Relief, glance, look_at_line};
use crate::sockets::Stream;
use crate::steps::{Seen, drains_on, is_end, may_send, own_time, time_left};
use fts_log::LineFault;
use fts_wire::{Sink, SinkFailed, Source, SourceFailed};
use std::io;
use std::io::ErrorKind;
use std::net::TcpStream;
use std::rt::Clock as SystemTimes;
use std::time::{Duration, Instant};

/// How long a client may keep a lane.
#[derive(Clone, Copy)]
pub struct LineLimits {
    /// How long one read or one write may wait.
    pub wait: Duration,
    /// How long a request may take, from the last response or the beginning of the line until it is whole.
    pub request: Duration,
    /// How long a line that is silent from its beginning gives way to none.
    pub own: Duration,
    /// How long what still comes is taken in at the end of a line.
    pub drain: Duration,
    /// How many bytes are taken in then.
    pub drain_bytes: usize,
}

/// How long one read or one write of a client's line may wait, in seconds.
const WAIT_SECONDS: u64 = 10;

/// How long a request may take until it is whole, in seconds since the last response or the beginning of its line.
const REQUEST_SECONDS: u64 = 60;

/// How long a line that is silent from its beginning gives way to none, in seconds.
const OWN_SECONDS: u64 = 1;

/// How long what still comes is taken in at the end of a line, in seconds.
const DRAIN_SECONDS: u64 = 5;

/// How many bytes are taken in then.
const DRAIN_BYTES: usize = 16_777_216;

/// Bytes that are taken in at a time at the end of a line.
const DRAIN_PIECE_BYTES: usize = 8_192;

impl LineLimits {
    /// The limits of the service.
    pub fn of_service() -> LineLimits
        ensures { IsOfService result }
    {
        LineLimits {
            wait: Duration::from_secs(WAIT_SECONDS),
            request: Duration::from_secs(REQUEST_SECONDS),
            own: Duration::from_secs(OWN_SECONDS),
            drain: Duration::from_secs(DRAIN_SECONDS),
            drain_bytes: DRAIN_BYTES,
        }
    }
}

/// One connection of a client.
#[derive(Drop)]
pub struct SocketLine<'a, R: SystemTimes + Copy> {
    rt: R,
    stream: Stream,
    limits: LineLimits,
    /// When its last response was written, or when it began.
    since: Instant,
    /// Whether a response was written.
    has_answered: bool,
    /// Whether a byte came since then.
    is_asked: bool,
    /// Who waits at the listener; a line without relief never gives way.
    relief: Option<Relief<'a>>,
    /// Whether its input has ended.
    is_at_end: bool,
    /// Why it is ended, where that is a fault: the last one.
    fault: Option<LineFault>,
    reads: u64,
    read_faults: u64,
    write_faults: u64,
}

/// Why a line is ended whose read was refused so: its request was too slow, or it failed. None where no byte of a request had come: a kept connection that
/// falls silent, or goes away, is none.
fn read_fault(is_asked: bool, error: &io::Error) -> Option<LineFault>
    ensures silent { is_asked ≡ false → result ≡ None }
{
    if !is_asked {
        return None;
    }
    match error.kind() {
        ErrorKind::TimedOut | ErrorKind::WouldBlock => Some(LineFault::SlowToSend),
        _ => Some(LineFault::StreamFailed),
    }
}

/// Why a line is ended whose write was refused so.
fn write_fault(error: &io::Error) -> LineFault {
    match error.kind() {
        ErrorKind::TimedOut | ErrorKind::WouldBlock => LineFault::SlowToTake,
        _ => LineFault::StreamFailed,
    }
}

impl<'a, R: SystemTimes + Copy> SocketLine<'a, R> {
    /// A line over a new connection, from which nothing was read and to which nothing was written. Small pieces are sent at once.
    /// An error of the system where the connection can't be set up, or the time can't be had.
    pub fn new(rt: R, stream: TcpStream, limits: LineLimits) -> io::Result<SocketLine<'a, R>>
        ensures fresh { IfOk result (λ line. (line.read_faults ≡ 0) × (line.write_faults ≡ 0)) }
        ensures new { IfOk result (λ line. (line.limits ≡ limits) × (line.has_answered ≡ false) × (line.is_asked ≡ false) × (line.relief ≡ None)
            × (line.is_at_end ≡ false) × (line.reads ≡ 0)) }
    {
        SocketLine::over(rt, Stream::OfPort(stream), limits)
    }

    /// The same over a connection of either kind.
    pub(crate) fn over(rt: R, stream: Stream, limits: LineLimits) -> io::Result<SocketLine<'a, R>>
        ensures fresh { IfOk result (λ line. (line.read_faults ≡ 0) × (line.write_faults ≡ 0)) }
        ensures new { IfOk result (λ line. (line.limits ≡ limits) × (line.has_answered ≡ false) × (line.is_asked ≡ false) × (line.relief ≡ None)
            × (line.is_at_end ≡ false) × (line.reads ≡ 0)) }
    {
        stream.set_prompt()?;
        stream.set_write_timeout(limits.wait)?;
        let since = Instant::now(&rt)?;
        Ok(SocketLine {
            rt,
            stream,
            limits,
            since,
            has_answered: false,
            is_asked: false,
            relief: None,
            is_at_end: false,
            fault: None,
            reads: 0,
            read_faults: 0,
            write_faults: 0,
        })
    }

    /// The same line, which gives way to connections that wait at this relief's listener.
    pub(crate) fn relieved_by(mut self, relief: Option<Relief<'a>>) -> SocketLine<'a, R> {
        self.relief = relief;
        if let Some(relief) = &mut self.relief {
            relief.begin();
        }
        self
    }

    /// Why it is ended, where that is a fault.
    pub(crate) fn fault(&self) -> Option<LineFault> {
        self.fault
    }

    /// Whether a read or a write of it has failed.
    pub fn has_failed(&self) -> bool
        ensures { result ≡ has_failed self.now.read_faults self.now.write_faults }
    {
        self.read_faults > 0 || self.write_faults > 0
    }

    /// Whether what was written last was answered: something came behind it, no end of the input, and nothing has failed.
    pub fn is_answered(&self) -> bool
        ensures { result ≡ is_answered self.now.is_asked self.now.is_at_end self.now.read_faults self.now.write_faults }
    {
        self.is_asked && !self.is_at_end && !self.has_failed()
    }

    /// Waits for the next request of a silent line. `true` where a connection was taken that waited, or the service is to stop, and this line gives way.
    fn gives_way(&mut self) -> io::Result<bool>
        ensures same { (self.new.reads ≡ self.old.reads) × (self.new.read_faults ≡ self.old.read_faults) × (self.new.write_faults ≡ self.old.write_faults) }
        ensures since { self.new.since ≡ self.old.since }
        ensures between { IfOk result (λ way. way ≡ true → MayEnd self.old.relief) }
    {
        let Some(relief) = &mut self.relief else {
            return Ok(false);
        };
        if self.is_asked || !relief.is_between() {
            return Ok(false);
        }
        if relief.is_stopped() {
            return Ok(true);
        }
        let (line, limits) = (self.stream.handle(), self.limits);
        let start = Instant::now(&self.rt)?;
        for _ in 0..u64::MAX {
            let silent = start.elapsed(&self.rt)?;
            let left = time_left(limits.wait, silent)?.min(time_left(
                limits.request,
                self.since.elapsed(&self.rt)?,
            )?);
            let left = left.min(glance());
            let seen = match own_time(self.has_answered, limits.own, silent) {
                Some(own) => look_at_line(line, left.min(own)),
                None => relief.look(line, left),
            };
            match seen {
                Seen::Line => return Ok(false),
                Seen::Nothing if relief.is_stopped() => return Ok(true),
                Seen::Nothing => {}
                Seen::Waiting => match relief.meet(line) {
                    Met::GoesOn => return Ok(false),
                    Met::Taken => return Ok(true),
                    Met::Gone => {}
                },
            }
        }
        Ok(false)
    }

    /// Reads, as long as the request may still take and one read may wait. A line that gives way is at its end.
    fn read_in_time(&mut self, into: &mut [u8]) -> io::Result<usize>
        ensures bound { IfOk result (λ n. n ≤ length into.new) }
        ensures faults { (self.new.reads ≡ self.old.reads) × (self.new.read_faults ≡ self.old.read_faults) × (self.new.write_faults ≡ self.old.write_faults) }
        ensures since { self.new.since ≡ self.old.since }
        ensures end { IfOk result (λ n. self.new.is_at_end ≡ is_end n (length into.old)) }
    {
        let n = if self.gives_way()? {
            0
        } else {
            self.read_line(into)?
        };
        self.is_at_end = is_end(n, into.len());
        Ok(n)
    }

    /// Reads what the client sends, and notes it.
    fn read_line(&mut self, into: &mut [u8]) -> io::Result<usize>
        ensures bound { IfOk result (λ n. n ≤ length into.new) }
        ensures room { length into.new ≡ length into.old }
        ensures same { (self.new.reads ≡ self.old.reads) × (self.new.read_faults ≡ self.old.read_faults) × (self.new.write_faults ≡ self.old.write_faults) }
        ensures since { self.new.since ≡ self.old.since }
    {
        let left = time_left(self.limits.request, self.since.elapsed(&self.rt)?)?;
        self.stream.set_read_timeout(left.min(self.limits.wait))?;
        let n = read_once(&mut self.stream, into)?;
        self.is_asked = self.is_asked || n > 0;
        if let Some(relief) = &mut self.relief {
            relief.note(&into[..n]);
        }
        Ok(n)
    }

    /// Writes all of the bytes, in the time that one write may wait. The moment behind the last one, from which the next request's time goes.
    fn write_in_time(&mut self, bytes: &[u8]) -> io::Result<Instant>
        ensures faults { (self.new.reads ≡ self.old.reads) × (self.new.read_faults ≡ self.old.read_faults) × (self.new.write_faults ≡ self.old.write_faults) }
        ensures since { IfOk result (λ written. self.new.since ≡ written) }
        ensures failed { IsErr result → self.new.since ≡ self.old.since }
    {
        write_whole(&self.rt, &mut self.stream, bytes, self.limits.wait)?;
        self.since = Instant::now(&self.rt)?;
        self.has_answered = true;
        self.is_asked = false;
        Ok(self.since)
    }

    /// Ends the connection, and hands its relief back. A client that may still be sending can read its last response to the end.
    pub(crate) fn end(mut self) -> Option<Relief<'a>> {
        if may_send(self.is_at_end, self.read_faults, self.write_faults) {
            // Whatever comes of it, the line is closed, and nobody is left to be told.
            let _drained = self.drain();
        }
        self.relief
    }

    /// Shuts the writing side, and takes in what comes until the client ends too, for a bounded time and number of bytes.
    fn drain(&mut self) -> io::Result<()> {
        self.stream.end_writing()?;
        let start = Instant::now(&self.rt)?;
        let mut piece = [0; DRAIN_PIECE_BYTES];
        let mut taken = 0;
        for _ in 0..u64::MAX {
            let left = time_left(self.limits.drain, start.elapsed(&self.rt)?)?;
            self.stream.set_read_timeout(left)?;
            let n = read_once(&mut self.stream, &mut piece)?;
            taken = usize::saturating_add(taken, n);
            if !drains_on(n, taken, self.limits.drain_bytes) {
                break;
            }
        }
        Ok(())
    }
}

/// One read, tried again where a signal came between.
fn read_once(stream: &mut Stream, into: &mut [u8]) -> io::Result<usize>
    ensures bound { IfOk result (λ n. n ≤ length into.new) }
{
    for _ in 0..u64::MAX {
        match stream.read(into) {
            Err(error) if error.kind() == ErrorKind::Interrupted => {}
            read => return read,
        }
    }
    Err(io::Error::from(ErrorKind::Interrupted))
}

/// Writes all of the bytes, within this time.
fn write_whole<R: SystemTimes>(
    rt: &R,
    stream: &mut Stream,
    bytes: &[u8],
    wait: Duration,
) -> io::Result<()> {
    let start = Instant::now(rt)?;
    let mut rest = bytes;
    for _ in 0..u64::MAX {
        let n = write_once(stream, rest)?;
        rest = &rest[n..];
        if rest.is_empty() {
            return Ok(());
        }
        time_left(wait, start.elapsed(rt)?)?;
    }
    Err(io::Error::from(ErrorKind::TimedOut))
}

/// One write, tried again where a signal came between.
fn write_once(stream: &mut Stream, bytes: &[u8]) -> io::Result<usize>
    ensures bound { IfOk result (λ n. n ≤ length bytes.now) }
{
    for _ in 0..u64::MAX {
        match stream.write(bytes) {
            Err(error) if error.kind() == ErrorKind::Interrupted => {}
            written => return written,
        }
    }
    Err(io::Error::from(ErrorKind::Interrupted))
}

impl<R: SystemTimes + Copy> Source for SocketLine<'_, R> {
    ghost use Rattle.std.specs.Prelude.{None};

    ghost left = { λ _. None };

    ghost faults = { λ l. l.read_faults };

    ghost reads = { λ l. l.reads };

    ghost beside = { λ l. record { bytes = None; faults = l.write_faults; reads = 0 } };

    fn read(&mut self, into: &mut [u8]) -> Result<usize, SourceFailed>
        ensures bound { IfOk result (λ n. n ≤ length into.new) }
        ensures read { Reads None None into.new result }
        ensures counted { self.new.reads ≡ raised self.old.reads 1 }
        ensures cause { CountsFaults self.old.read_faults self.new.read_faults result }
        ensures beside { self.new.write_faults ≡ self.old.write_faults }
        ensures since { self.new.since ≡ self.old.since }
    {
        self.reads = self.reads.saturating_add(1);
        match self.read_in_time(into) {
            Ok(n) => Ok(n),
            Err(error) => {
                self.fault = read_fault(self.is_asked, &error);
                self.read_faults = self.read_faults.saturating_add(1);
                Err(SourceFailed)
            }
        }
    }
}

impl<R: SystemTimes + Copy> Sink for SocketLine<'_, R> {
    ghost use Rattle.std.specs.Prelude.{None};

    ghost held = { λ _. None };

    ghost faults = { λ l. l.write_faults };

    ghost beside = { λ l. record { bytes = None; faults = l.read_faults; reads = l.reads } };

    fn write(&mut self, bytes: &[u8]) -> Result<usize, SinkFailed>
        ensures bound { IfOk result (λ n. n ≤ length bytes.now) }
        ensures some { IfOk result (λ n. 0 < length bytes.now → 0 < n) }
        ensures written { Writes None None bytes.now result }
        ensures cause { CountsFaults self.old.write_faults self.new.write_faults result }
        ensures beside { (self.new.read_faults ≡ self.old.read_faults) × (self.new.reads ≡ self.old.reads) }
        ensures failed { IsErr result → self.new.since ≡ self.old.since }
    {
        match self.write_in_time(bytes) {
            Ok(_) => Ok(bytes.len()),
            Err(error) => {
                self.fault = Some(write_fault(&error));
                self.write_faults = self.write_faults.saturating_add(1);
                Err(SinkFailed)
            }
        }
    }
}
