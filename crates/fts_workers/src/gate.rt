//! A gate before copies: it is told that a copy begins and how it ended, and says whether no further one may begin. Tests hold one copy with it until
//! another has begun; a service that is to stop closes it, and writes its log by what it is told.
//! Keeps: a note of a copy has the names of its order, up to `MAX_NAME_BYTES` each (`CopyNote::of`).
ghost use Rattle.std.specs.Prelude.{◌≡◌, Bool, true, false, IsTrue};
ghost use Rattle.fts_store.specs.Store.{place_at};
ghost use Rattle.fts_workers.specs.Notes.{IsNoted};

use arrayvec::ArrayString;
use fts_copy::Loaded;
use fts_tables::limits::MAX_NAME_BYTES;
use fts_tables::{Outcome, PlaceRef};

/// A name in room of its own.
pub type NoteName = ArrayString<MAX_NAME_BYTES>;

/// A place with names of its own.
#[derive(Drop)]
pub struct PlaceNote {
    pub endpoint: NoteName,
    pub path: NoteName,
}

impl PlaceNote {
    /// This place.
    fn of(place: PlaceRef<'_>) -> PlaceNote
        ensures endpoint { IsNoted (place_at place.entry).endpoint result.endpoint.bytes }
        ensures path { IsNoted (place_at place.entry).path result.path.bytes }
    {
        PlaceNote {
            endpoint: noted(place.endpoint),
            path: noted(place.path),
        }
    }
}

// A name, where it is as short as names are.
fn noted(name: &str) -> NoteName
    ensures { IsNoted name.now result.bytes }
{
    match NoteName::from(name) {
        Ok(noted) => noted,
        Err(_) => NoteName::new(),
    }
}

/// A copy: the id of its job, its file and attempt, and where from and where to it copies.
#[derive(Drop)]
pub struct CopyNote {
    pub job: Option<u128>,
    pub file: u32,
    pub attempt: u32,
    pub source: PlaceNote,
    pub dest: PlaceNote,
}

impl CopyNote {
    /// The copy that an order asks for.
    pub fn of(job: Option<u128>, file: u32, attempt: u32, order: &Loaded) -> CopyNote
        ensures numbers { (result.job ≡ job) × (result.file ≡ file) × (result.attempt ≡ attempt) }
        ensures source { IsNoted order.now.source.endpoint result.source.endpoint.bytes × IsNoted order.now.source.path result.source.path.bytes }
        ensures dest { IsNoted order.now.dest.endpoint result.dest.endpoint.bytes × IsNoted order.now.dest.path result.dest.path.bytes }
    {
        CopyNote {
            job,
            file,
            attempt,
            source: PlaceNote::of(order.source()),
            dest: PlaceNote::of(order.dest()),
        }
    }
}

/// What stands before each copy. It changes nothing that is known of a copy that has begun.
pub trait Gate {
    /// Whether it may ever be closed.
    ghost closes: { Self → Bool };

    /// The copy of this file begins. Gives a number of the gate's own, which it is told at the end.
    fn begun(&self, file: u32) -> u64;

    /// This copy, whose begin was answered so, has ended so, and is reported next.
    fn ended(&self, copy: &CopyNote, begun: u64, outcome: Outcome);

    /// Whether no further copy may begin.
    fn is_closed(&self) -> bool
        ensures cause { result ≡ true → IsTrue (closes self.now) };
}

/// A gate that does nothing, and is always open.
#[derive(Clone, Copy, Debug)]
pub struct NoGate;

impl Gate for NoGate {
    ghost use Rattle.std.specs.Prelude.{false};

    ghost closes = { λ _. false };

    fn begun(&self, _file: u32) -> u64 {
        0
    }

    fn ended(&self, _copy: &CopyNote, _begun: u64, _outcome: Outcome) {}

    fn is_closed(&self) -> bool {
        false
    }
}
