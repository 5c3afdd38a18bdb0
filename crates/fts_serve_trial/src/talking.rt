//! Two clients that wait for each other, as lines of two lanes: neither sends its second request before the other has its first response.
//! Keeps: each waits for a bounded number of looks, with a yield each, and marks itself late where that was not enough.
//! They show that lanes run beside each other and beside workers, which no clause says.
ghost use Rattle.std.specs.Prelude.{◌≡◌, ◌≤◌};
ghost use Rattle.fts_tables.specs.Counts.{CountsFaults};

use fts_top::{Doors, DoorsFailed};
use fts_wire::{Sink, SinkFailed, Source, SourceFailed};
use std::sync::atomic::{AtomicBool, Ordering};
use std::thread::yield_now;

/// How often a client looks whether the other has its response, before it gives up.
const LOOKS: u32 = 1_000_000;

/// How many requests a client sends that waits for a copy, before it gives up.
const REQUESTS: u32 = 100_000;

const SUBMISSION: &str =
    "POST /jobs HTTP/1.1\r\nContent-Length: 93\r\n\r\n{\"files\":[{\"sources\":[\"https://a.example/data/f1\"],\"destinations\":[\"https://b.example/f1\"]}]}";

const LIST: &str = "GET /jobs HTTP/1.1\r\n\r\n";

const FILES: &str = "GET /jobs/00000000-0000-4000-8000-000000000001/files HTTP/1.1\r\n\r\n";

/// What two clients tell each other, and whether one of them gave up.
#[derive(Drop)]
pub struct Talk {
    submitted: AtomicBool,
    listed: AtomicBool,
    late: AtomicBool,
}

impl Talk {
    /// Nothing is told yet.
    pub fn new() -> Talk {
        Talk {
            submitted: AtomicBool::new(false),
            listed: AtomicBool::new(false),
            late: AtomicBool::new(false),
        }
    }

    /// Whether a client gave up.
    pub fn is_late(&self) -> bool {
        self.late.load(Ordering::SeqCst)
    }
}

/// What a client does: the first one submits a job and looks at its files until one is FINISHED, the second one lists the jobs twice.
#[derive(Clone, Copy, PartialEq, Eq)]
pub enum Role {
    Submits,
    Lists,
}

/// The line of one of the two clients.
#[derive(Drop)]
pub struct TalkingLine<'a> {
    talk: &'a Talk,
    role: Role,
    /// How many requests it has sent, and how much of the last one is not read yet.
    sent: u32,
    rest: &'a [u8],
    is_finished: bool,
    reads: u64,
}

/// Whether these bytes hold the word of a file that was copied.
fn tells_finished(bytes: &[u8]) -> bool {
    bytes.windows(8).any(|word| word == b"FINISHED".as_slice())
}

/// Waits until a flag is raised, for so many looks.
fn wait_for(flag: &AtomicBool) -> bool {
    for _ in 0..LOOKS {
        if flag.load(Ordering::SeqCst) {
            return true;
        }
        yield_now();
    }
    false
}

impl<'a> TalkingLine<'a> {
    /// Tells the other that the first response is here, and waits until the other has its own. Where it waits too long, it gives up.
    fn meet_other(&self) -> bool {
        let (mine, other) = match self.role {
            Role::Submits => (&self.talk.submitted, &self.talk.listed),
            Role::Lists => (&self.talk.listed, &self.talk.submitted),
        };
        mine.store(true, Ordering::SeqCst);
        let is_there = wait_for(other);
        if !is_there {
            self.talk.late.store(true, Ordering::SeqCst);
        }
        is_there
    }

    /// The next request, which the service asks for once it has written its last response.
    fn next_request(&self) -> Option<&'a [u8]> {
        match (self.role, self.sent) {
            (Role::Submits, 0) => Some(SUBMISSION.as_bytes()),
            (Role::Lists, 0) => Some(LIST.as_bytes()),
            (Role::Lists, 1) if self.meet_other() => Some(LIST.as_bytes()),
            (Role::Submits, 1) if self.meet_other() => Some(FILES.as_bytes()),
            (Role::Submits, sent) if sent > 1 => self.next_look(),
            _ => None,
        }
    }

    /// One look more at the files, until one is FINISHED.
    fn next_look(&self) -> Option<&'a [u8]> {
        if self.is_finished {
            return None;
        }
        if self.sent > REQUESTS {
            self.talk.late.store(true, Ordering::SeqCst);
            return None;
        }
        yield_now();
        Some(FILES.as_bytes())
    }
}

impl<'a> Source for TalkingLine<'a> {
    ghost use Rattle.std.specs.Prelude.{None};
    ghost use Rattle.fts_wire.specs.Outside.{nothing_beside};

    ghost left = { λ _. None };

    ghost faults = { λ _. 0 };

    ghost reads = { λ l. l.reads };

    ghost beside = { λ _. nothing_beside };

    fn read(&mut self, into: &mut [u8]) -> Result<usize, SourceFailed> {
        self.reads = self.reads.saturating_add(1);
        if self.rest.is_empty() {
            match self.next_request() {
                Some(request) => {
                    self.rest = request;
                    self.sent = self.sent.saturating_add(1);
                }
                None => return Ok(0),
            }
        }
        let n = self.rest.len().min(into.len());
        into[..n].copy_from_slice(&self.rest[..n]);
        self.rest = &self.rest[n..];
        Ok(n)
    }
}

impl<'a> Sink for TalkingLine<'a> {
    ghost use Rattle.std.specs.Prelude.{None};

    ghost held = { λ _. None };

    ghost faults = { λ _. 0 };

    ghost beside = { λ l. record { bytes = None; faults = 0; reads = l.reads } };

    fn write(&mut self, bytes: &[u8]) -> Result<usize, SinkFailed> {
        self.is_finished = self.is_finished || tells_finished(bytes);
        Ok(bytes.len())
    }
}

/// Doors that give the line of one client.
#[derive(Drop)]
pub struct TalkingDoors<'a> {
    line: Option<TalkingLine<'a>>,
    out: u64,
}

impl<'a> TalkingDoors<'a> {
    /// The doors of a client.
    pub fn of(talk: &'a Talk, role: Role) -> TalkingDoors<'a> {
        TalkingDoors {
            line: Some(TalkingLine {
                talk,
                role,
                sent: 0,
                rest: &[],
                is_finished: false,
                reads: 0,
            }),
            out: 0,
        }
    }

    /// Doors that give no line.
    pub fn closed() -> TalkingDoors<'a> {
        TalkingDoors { line: None, out: 0 }
    }
}

impl<'a> Doors for TalkingDoors<'a> {
    ghost use Rattle.std.specs.Prelude.{None, true};
    ghost use Rattle.std.proofs.Common.{rules};

    type Line = TalkingLine<'a>;

    ghost doors = { λ d. record { coming = None; back = None; out = d.out } };

    ghost faults = { λ _. 0 };

    ghost listens = { λ _. true };

    ghost line = { Prim.search rules };

    fn listen(&mut self, _port: Option<u16>) -> Result<(), DoorsFailed> {
        Ok(())
    }

    fn share(&mut self, _first: &TalkingDoors<'a>) -> Result<(), DoorsFailed> {
        Ok(())
    }

    fn next(&mut self) -> Result<Option<TalkingLine<'a>>, DoorsFailed> {
        if let Some(out) = self.out.checked_add(1) {
            if let Some(line) = self.line.take() {
                self.out = out;
                return Ok(Some(line));
            }
        }
        Ok(None)
    }

    fn done(&mut self, line: TalkingLine<'a>) {
        self.out -= 1;
        drop(line);
    }
}
