//! A link: it gives a line for each try, and takes it back.
//! Keeps: told lines are given in their order, each once, and noted in the order in which they come back (`dials`, `back`); each dial counts,
//! also one that fails, and of the last one the port is noted, and whether it gave a line; a line that has failed raises the link's count of
//! faults when it comes back, and no other does (`faults`).
//! `MemoryLink` is the fake; the program has the real one.
ghost use Rattle.std.specs.Prelude.{◌≡◌, ◌<◌, ℕ, IfOk};
ghost use Rattle.fts_tables.specs.Counts.{CountsFaults};
ghost use Rattle.fts_wire.specs.Outside.{IsLine};
ghost use Rattle.fts_client.specs.Links.{LinkData, Dials, CountsLine, with_one_back};

use fts_wire::{Sink, Source};

/// A link could give no line.
#[derive(Clone, Copy, Debug, PartialEq, Eq)]
pub struct LinkFailed;

/// Where a client's lines come from and go back to.
pub trait Link {
    /// A line: what one request is written to, and its response is read from.
    type Line: Source + Sink;

    /// The lines to come and those that came back, where they are told, how many are out, how often it was dialed, the port
    /// that was dialed last, and whether that dial gave a line.
    ghost link: { Self → LinkData Self.Line };

    /// How often it or a line of it has failed, up to the greatest `u64`.
    ghost faults: { Self → ℕ };

    /// A line to a port of this machine. Neither side of it has failed yet.
    fn dial(&mut self, port: u16) -> Result<Self::Line, LinkFailed>
        ensures dials { Dials port (link self.old) (link self.new) result }
        ensures fresh { IfOk result (λ line. (Self.Line.Source.faults line ≡ 0) × (Self.Line.Sink.faults line ≡ 0)) }
        ensures cause { CountsFaults (faults self.old) (faults self.new) result };

    /// Takes back a line that it gave; it is closed.
    fn done(&mut self, line: Self::Line)
        requires out { 0 < (link self.old).out }
        ensures back { link self.new ≡ with_one_back (link self.old) line }
        ensures faults { CountsLine (faults self.old) (faults self.new) (Self.Line.Source.faults line) (Self.Line.Sink.faults line) };

    /// The two sides of a line know of each other.
    ghost line: { IsLine
        (record { bytes = Self.Line.Source.left; faults = Self.Line.Source.faults; reads = Self.Line.Source.reads; beside = Self.Line.Source.beside })
        (record { bytes = Self.Line.Sink.held; faults = Self.Line.Sink.faults; reads = λ _. 0; beside = Self.Line.Sink.beside }) };
}
