//! Doors: where the lines of connections come from, and where each goes back to once it was served.
//! Keeps: told doors give the lines to come in their order, each once, and note those that come back in theirs (`next`, `done`); whatever
//! doors there are tell how many lines are out; those that listen or share have a listener; a call fails only where the count of faults rose, and then
//! leaves what is told.
//! Order of use: the first doors listen, each other ones share with them; then lines are taken, served and handed back, one by one.
//! `MemoryDoors` is the fake; the program has the real ones.
ghost use Rattle.std.specs.Prelude.{◌≡◌, ◌<◌, ℕ, Bool, IsOk, IsTrue};
ghost use Rattle.fts_tables.specs.Counts.{CountsFaults};
ghost use Rattle.fts_wire.specs.Outside.{IsLine};
ghost use Rattle.fts_service.specs.Doors.{DoorsData, GivesLine, with_one_back};

use fts_wire::{Sink, Source};

/// Doors could not listen or share, or gave no line where there may be one.
#[derive(Clone, Copy, Debug, PartialEq, Eq)]
pub struct DoorsFailed;

/// Where lines come from and go back to.
pub trait Doors {
    /// A line: what one connection is read from and written to.
    type Line: Source + Sink;

    /// The lines to come and those that came back, where they are told, and how many are out.
    ghost doors: { Self → DoorsData Self.Line };

    /// How often they have failed, up to the greatest `u64`.
    ghost faults: { Self → ℕ };

    /// Whether they have a listener, from which connections are taken.
    ghost listens: { Self → Bool };

    /// Begins to take connections on a port, or, where none is named, at a socket of their own.
    fn listen(&mut self, port: Option<u16>) -> Result<(), DoorsFailed>
        ensures same { doors self.new ≡ doors self.old }
        ensures open { IsOk result → IsTrue (listens self.new) }
        ensures cause { CountsFaults (faults self.old) (faults self.new) result };

    /// Takes connections from where the first doors take theirs.
    fn share(&mut self, first: &Self) -> Result<(), DoorsFailed>
        ensures same { doors self.new ≡ doors self.old }
        ensures open { IsOk result → IsTrue (listens self.new) }
        ensures cause { CountsFaults (faults self.old) (faults self.new) result };

    /// The next line, or `None` where no more connections come.
    fn next(&mut self) -> Result<Option<Self::Line>, DoorsFailed>
        ensures gives { GivesLine (doors self.old) (doors self.new) result }
        ensures cause { CountsFaults (faults self.old) (faults self.new) result };

    /// Takes back a line that it gave; it is closed.
    fn done(&mut self, line: Self::Line)
        requires out { 0 < (doors self.old).out }
        ensures back { doors self.new ≡ with_one_back (doors self.old) line }
        ensures faults { faults self.new ≡ faults self.old };

    /// The two sides of a line know of each other.
    ghost line: { IsLine
        (record { bytes = Self.Line.Source.left; faults = Self.Line.Source.faults; reads = Self.Line.Source.reads; beside = Self.Line.Source.beside })
        (record { bytes = Self.Line.Sink.held; faults = Self.Line.Sink.faults; reads = λ _. 0; beside = Self.Line.Sink.beside }) };
}
