//! Relief: who waits at the listener while a line is silent between two requests, and the connection that its lane takes then.
//! Keeps: a line gives way only where an end of its input is clean (`is_between`): what came of it is whole requests, each of them answered. A lane takes
//! the connection before its line is ended, so as many lines give way as connections are taken, whoever races for them.
//! Order of giving way: a connection waits; another lane that is free has `PAUSE_MILLIS` to take it, and the line's client to go on; then it is taken.
//! A client that went on while the connection still waited has one request more: where one waits behind that too, no pause is made.
//! Where the service is to stop, a line gives way as soon as its input could end.
//! `SocketDoors` hands it from line to line, and takes the connection out.
ghost use Rattle.std.specs.Prelude.{◌≡◌, true};
ghost use Rattle.fts_wire.specs.Requests.{next_of, Closed};

use crate::sockets::{Listener, Stream};
use crate::steps::{Seen, poll_millis, seen_by};
use crate::stop::StopFile;
use fts_tables::Memory;
use fts_wire::{Room, Source, SourceFailed};
use libc::net::{POLLIN, poll};
use libc::types::pollfd;
use std::alloc::Global;
use std::os::fd::RawFd;
use std::time::Duration;

/// How long a free lane has to take a connection, and a client to go on, before a line gives way, in milliseconds.
const PAUSE_MILLIS: u64 = 5;

/// How long a look takes at most before it is asked again whether the service is to stop, in milliseconds.
const GLANCE_MILLIS: u64 = 500;

/// In the place of a handle, where none is looked at.
const NO_HANDLE: RawFd = -1;

/// Whether what was met at the listener ends the line.
#[derive(Clone, Copy, Debug, PartialEq, Eq)]
pub enum Met {
    /// The line's client goes on.
    GoesOn,
    /// A connection was taken, and the line gives way.
    Taken,
    /// There is none to be taken.
    Gone,
}

/// What a lane has for its silent line.
#[derive(Drop)]
pub struct Relief<'a> {
    listener: Listener,
    /// Where what comes of the line is framed, as the lane frames it.
    room: Room,
    /// The connection that was taken, and is served next.
    next: Option<Stream>,
    /// Whether the client went on while a connection waited still, the last time that it did.
    has_gone_on: bool,
    /// What says that the service is to stop.
    stop: StopFile<'a>,
}

impl<'a> Relief<'a> {
    /// Relief at this listener, in which nobody waits.
    pub fn new(
        alloc: Global,
        listener: Listener,
        stop: StopFile<'a>,
    ) -> Result<Relief<'a>, Memory> {
        let room = Room::new(alloc)?;
        Ok(Relief {
            listener,
            room,
            next: None,
            has_gone_on: false,
            stop,
        })
    }

    /// Forgets the last line: a new one begins.
    pub fn begin(&mut self) {
        self.room.clear();
        self.has_gone_on = false;
    }

    /// Notes what came of the line.
    pub fn note(&mut self, bytes: &[u8]) {
        let mut come = Come {
            bytes,
            faults: 0,
            reads: 0,
        };
        for _ in 0..u64::MAX {
            if self.room.load(&mut come) != Ok(true) {
                break;
            }
        }
    }

    /// Whether the line's input could end here: what came of it are whole requests, and no byte of the next one but CR and LF.
    pub fn is_between(&mut self) -> bool
        ensures { result ≡ true → next_of self.old.room.kept ≡ Closed }
    {
        self.room.load(&mut Ended { reads: 0 }) == Ok(false)
    }

    /// Whether the service is to stop.
    pub fn is_stopped(&self) -> bool {
        self.stop.stands()
    }

    /// Waits so long at most until the line has something, or a connection waits.
    pub fn look(&mut self, line: RawFd, wait: Duration) -> Seen {
        let seen = look_at(line, self.listener.handle(), wait);
        if seen == Seen::Line {
            self.has_gone_on = false;
        }
        seen
    }

    /// Meets the connection that waits: takes it, where neither the client goes on nor another lane takes it.
    pub fn meet(&mut self, line: RawFd) -> Met
        ensures { self.new.room ≡ self.old.room }
    {
        let pause = Duration::from_millis(PAUSE_MILLIS);
        if !self.has_gone_on && look_at_line(line, pause) == Seen::Line {
            self.has_gone_on = waits_at(&self.listener);
            return Met::GoesOn;
        }
        self.has_gone_on = false;
        match self.listener.accept() {
            Ok(stream) => {
                self.next = Some(stream);
                Met::Taken
            }
            Err(_) => Met::Gone,
        }
    }

    /// The connection that was taken, which is the caller's now.
    pub fn take_next(&mut self) -> Option<Stream> {
        self.next.take()
    }
}

/// How long a look takes at most before it is asked again whether the service is to stop.
pub fn glance() -> Duration {
    Duration::from_millis(GLANCE_MILLIS)
}

/// Waits so long at most until the line has something.
pub fn look_at_line(line: RawFd, wait: Duration) -> Seen {
    look_at(line, NO_HANDLE, wait)
}

/// Waits so long at most until a connection waits at this listener.
pub fn look_at_listener(listener: &Listener, wait: Duration) -> Seen {
    look_at(NO_HANDLE, listener.handle(), wait)
}

/// Whether a connection waits at this listener now.
fn waits_at(listener: &Listener) -> bool {
    poll(&mut [asking(listener.handle())], 0) > 0
}

/// What is asked of the system about a handle: whether there is something to be read, or a connection.
fn asking(fd: RawFd) -> pollfd {
    pollfd {
        fd,
        events: POLLIN,
        revents: 0,
    }
}

/// What a look at a line and a listener finds in this time.
fn look_at(line: RawFd, listener: RawFd, wait: Duration) -> Seen {
    let mut asked = [asking(line), asking(listener)];
    let count = poll(&mut asked, poll_millis(wait));
    seen_by(count, asked[0].revents, asked[1].revents)
}

/// What came of a line. A read behind its end fails.
#[derive(Drop)]
struct Come<'a> {
    bytes: &'a [u8],
    faults: u64,
    reads: u64,
}

impl Source for Come<'_> {
    ghost use Rattle.std.specs.Prelude.{None};
    ghost use Rattle.fts_wire.specs.Outside.{nothing_beside};

    ghost left = { λ _. None };

    ghost faults = { λ c. c.faults };

    ghost reads = { λ c. c.reads };

    ghost beside = { λ _. nothing_beside };

    fn read(&mut self, into: &mut [u8]) -> Result<usize, SourceFailed> {
        self.reads = self.reads.saturating_add(1);
        let n = self.bytes.len().min(into.len());
        if n == 0 {
            self.faults = self.faults.saturating_add(1);
            return Err(SourceFailed);
        }
        into[..n].copy_from_slice(&self.bytes[..n]);
        self.bytes = &self.bytes[n..];
        Ok(n)
    }
}

/// An input that has ended.
#[derive(Drop)]
struct Ended {
    reads: u64,
}

impl Source for Ended {
    ghost use Rattle.std.specs.Prelude.{Some, []};
    ghost use Rattle.fts_wire.specs.Outside.{nothing_beside};

    ghost left = { λ _. Some [] };

    ghost faults = { λ _. 0 };

    ghost reads = { λ e. e.reads };

    ghost beside = { λ _. nothing_beside };

    fn read(&mut self, _into: &mut [u8]) -> Result<usize, SourceFailed> {
        self.reads = self.reads.saturating_add(1);
        Ok(0)
    }
}
