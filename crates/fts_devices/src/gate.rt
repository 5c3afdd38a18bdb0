//! The gate of a service: closed while its stop file stands, and a line of the log for each copy that ended. Behind a copy that the store failed it looks
//! what stands at both ends: what is no plain file, or lies below one, fails a copy without a call that is refused.
//! Keeps: it is closed exactly where the stop file stands (`is_closed`). The time of a copy goes from its begin to its end, without its claim and its report.
use crate::log::SystemLog;
use crate::stop::StopFile;
use fts_files::{FileSystem, Kind, Refused, SystemFiles};
use fts_log::{EndedCopy, Event, FileCall, Log};
use fts_tables::{Outcome, PlaceRef};
use fts_workers::{CopyNote, Gate, PlaceNote};
use std::alloc::{AllocError, Global};
use std::time::{SystemTime, UNIX_EPOCH};

/// Nothing has a name, in the system's numbers (ENOENT).
const ABSENT: u32 = 2;

/// A gate with a stop file and a log.
#[derive(Clone, Copy, Drop)]
pub struct ServiceGate<'a> {
    rt: &'a HostRuntime,
    stop: StopFile<'a>,
    log: &'a SystemLog<'a>,
    /// The folder of the endpoints, where they are in one.
    grid: Option<&'a str>,
}

impl<'a> ServiceGate<'a> {
    /// The gate that closes by this stop file and tells this log of copies between endpoints in this folder, or in memory.
    pub fn new(
        rt: &'a HostRuntime,
        stop: StopFile<'a>,
        log: &'a SystemLog<'a>,
        grid: Option<&'a str>,
    ) -> ServiceGate<'a> {
        ServiceGate {
            rt,
            stop,
            log,
            grid,
        }
    }

    /// Tells what stands at an end of a copy, where that is no plain file, and why it can't be looked at, where something is in the way.
    fn tell_end(&self, end: &PlaceNote) {
        let Some(grid) = self.grid else { return };
        let Ok(path) = path_of(self.rt.alloc(), grid, end) else {
            return;
        };
        let path = path.as_str();
        match SystemFiles::new(self.rt).look(path) {
            Ok(seen) => match seen.kind {
                Kind::File => {}
                kind @ (Kind::Folder | Kind::Other) => {
                    self.log.tell(&Event::FoundOther { path, kind })
                }
            },
            Err(Refused { errno: ABSENT }) => {}
            Err(Refused { errno }) => self.log.tell(&Event::CallFailed {
                call: FileCall::Look,
                path,
                errno,
            }),
        }
    }
}

/// The path of a place below a folder, as a store in it has it: the endpoint's name with each slash as a comma, and the place's path.
fn path_of(alloc: Global, grid: &str, place: &PlaceNote) -> Result<String, AllocError> {
    let mut path = String::from_str(alloc, grid)?;
    path.push('/')?;
    for letter in place.endpoint.as_str().chars() {
        path.push(if letter == '/' { ',' } else { letter })?;
    }
    path.push('/')?;
    path.push_str(place.path.as_str())?;
    Ok(path)
}

/// The time of the system in milliseconds since 1970, and 0 where it can't be had.
fn millis(rt: &HostRuntime) -> u64 {
    match SystemTime::now(rt) {
        Ok(time) => match time.duration_since(UNIX_EPOCH) {
            Ok(since) => u64::try_from(since.as_millis()).unwrap_or(0),
            Err(_) => 0,
        },
        Err(_) => 0,
    }
}

/// The place of a note.
fn place_of(note: &PlaceNote) -> PlaceRef<'_> {
    PlaceRef {
        endpoint: note.endpoint.as_str(),
        path: note.path.as_str(),
    }
}

impl Gate for ServiceGate<'_> {
    ghost use Rattle.std.specs.Prelude.{true};

    ghost closes = { λ _. true };

    fn begun(&self, _file: u32) -> u64 {
        millis(self.rt)
    }

    fn ended(&self, copy: &CopyNote, begun: u64, outcome: Outcome) {
        if let Outcome::StoreFailed = outcome {
            self.tell_end(&copy.source);
            self.tell_end(&copy.dest);
        }
        self.log.tell(&Event::CopyEnded(EndedCopy {
            job: copy.job.unwrap_or(0),
            file: copy.file,
            attempt: copy.attempt,
            source: place_of(&copy.source),
            dest: place_of(&copy.dest),
            millis: millis(self.rt).saturating_sub(begun),
            outcome,
        }));
    }

    fn is_closed(&self) -> bool {
        self.stop.stands()
    }
}
