//! The two sides of a load's connection: an input of bytes that are there already, and an output that keeps nothing.
//! Neither fails, and neither takes memory.
ghost use Rattle.std.specs.Prelude.{◌≡◌, ◌≤◌, ◌<◌, ◌+◌, length, drop, min, Some, None, Ok, IfOk};
ghost use Rattle.fts_tables.specs.Counts.{CountsFaults};
ghost use Rattle.fts_wire.specs.Outside.{Reads, Writes, raised};

use fts_wire::{Sink, SinkFailed, Source, SourceFailed};
use std::marker::Model;

/// An input of given bytes.
#[derive(Drop)]
pub struct LoadInput {
    bytes: Vec<u8>,
    at: usize,
    reads: u64,
}

impl Model for LoadInput {
    ghost use Rattle.std.specs.Prelude.{◌≤◌, length};
    ghost use Rattle.fts_load.specs.Input.{InputData, input_data};

    ghost Value = { InputData };

    ghost view = { input_data };

    ghost invariant = { λ s. s.at ≤ length s.bytes.items };
}

impl LoadInput {
    /// An input that has these bytes left.
    pub fn new(bytes: Vec<u8>) -> LoadInput
        ensures { result ≡ record { left = bytes.items; reads = 0 } }
    {
        LoadInput {
            bytes,
            at: 0,
            reads: 0,
        }
    }
}

impl Source for LoadInput {
    ghost use Rattle.std.specs.Prelude.{Some};
    ghost use Rattle.fts_wire.specs.Outside.{nothing_beside};

    ghost left = { λ s. Some s.left };

    ghost faults = { λ _. 0 };

    ghost reads = { λ s. s.reads };

    ghost beside = { λ _. nothing_beside };

    fn read(&mut self, into: &mut [u8]) -> Result<usize, SourceFailed>
        ensures bound { IfOk result (λ n. n ≤ length into.new) }
        ensures read { Reads (Some self.old.left) (Some self.new.left) into.new result }
        ensures counted { self.new.reads ≡ raised self.old.reads 1 }
        ensures cause { CountsFaults 0 0 result }
        ensures most { result ≡ Ok (min (length self.old.left) (length into.new)) }
        ensures rest { self.new.left ≡ drop (min (length self.old.left) (length into.new)) self.old.left }
    {
        self.reads = self.reads.saturating_add(1);
        let left = self.bytes.len() - self.at;
        let n = left.min(into.len());
        let end = self.at + n;
        into[..n].copy_from_slice(&self.bytes[self.at..end]);
        self.at = end;
        Ok(n)
    }
}

/// An output that counts what it is handed, and drops it.
#[derive(Drop)]
pub struct DroppingSink {
    count: u64,
}

impl DroppingSink {
    ghost use Rattle.std.specs.Prelude.{◌≡◌};

    /// An output that was handed nothing.
    pub fn new() -> DroppingSink
        ensures { result.count ≡ 0 }
    {
        DroppingSink { count: 0 }
    }

    /// How many bytes it was handed, up to the greatest `u64`.
    pub fn count(&self) -> u64
        ensures { result ≡ self.now.count }
    {
        self.count
    }
}

impl Sink for DroppingSink {
    ghost use Rattle.std.specs.Prelude.{None};
    ghost use Rattle.fts_wire.specs.Outside.{nothing_beside};

    ghost held = { λ _. None };

    ghost faults = { λ _. 0 };

    ghost beside = { λ _. nothing_beside };

    fn write(&mut self, bytes: &[u8]) -> Result<usize, SinkFailed>
        ensures bound { IfOk result (λ n. n ≤ length bytes.now) }
        ensures some { IfOk result (λ n. 0 < length bytes.now → 0 < n) }
        ensures written { Writes None None bytes.now result }
        ensures cause { CountsFaults 0 0 result }
        ensures all { result ≡ Ok (length bytes.now) }
        ensures counted { self.new.count ≡ min (self.old.count + length bytes.now) 18446744073709551615 }
    {
        self.count = self.count.saturating_add(bytes.len() as u64);
        Ok(bytes.len())
    }
}
