//! A source, a sink and a line in memory, which tell all that they have.
//! Their calls are numbered from 1, and those whose numbers stand in the list `fail` fail. Of the others only a write for which there is no
//! memory does (`specs/Memory.antt`).
//! Tests are run over them, and whatever is proved of every source and sink is true of these.
ghost use Rattle.std.specs.Prelude.{◌≡◌, ◌↔◌, ◌≤◌, ◌<◌, [], length, min, Some, IfOk, IsErr, IsTrue};
ghost use Rattle.fts_tables.specs.Counts.{CountsFaults};
ghost use Rattle.fts_wire.specs.Outside.{IsLine, Reads, Writes, raised};
ghost use Rattle.fts_wire.specs.Memory.{is_listed, source_after, sink_after, MayFail};

use crate::{Sink, SinkFailed, Source, SourceFailed};
use std::alloc::Global;
use std::marker::Model;

/// A source of given bytes.
pub struct MemorySource {
    bytes: Vec<u8>,
    at: usize,
    fail: Vec<u64>,
    reads: u64,
    faults: u64,
}

impl Drop for MemorySource {
    fn drop(self) {
        let MemorySource {
            bytes: _,
            at: _,
            fail: _,
            reads: _,
            faults: _,
        } = self;
    }
}

impl Model for MemorySource {
    ghost use Rattle.std.specs.Prelude.{◌≤◌, length};
    ghost use Rattle.fts_wire.specs.Memory.{SourceData, source_data};

    ghost Value = { SourceData };

    ghost view = { source_data };

    ghost invariant = { λ s. s.at ≤ length s.bytes.items };
}

impl MemorySource {
    /// A source that has these bytes left. The reads with these numbers fail.
    pub fn new(bytes: Vec<u8>, fail: Vec<u64>) -> MemorySource
        ensures { result ≡ record { left = bytes.items; fail = fail.items; reads = 0; faults = 0 } }
    {
        MemorySource {
            bytes,
            at: 0,
            fail,
            reads: 0,
            faults: 0,
        }
    }
}

impl Source for MemorySource {
    ghost use Rattle.std.specs.Prelude.{Some};
    ghost use Rattle.fts_wire.specs.Outside.{nothing_beside};

    ghost left = { λ s. Some s.left };

    ghost faults = { λ s. s.faults };

    ghost reads = { λ s. s.reads };

    ghost beside = { λ _. nothing_beside };

    fn read(&mut self, into: &mut [u8]) -> Result<usize, SourceFailed>
        ensures bound { IfOk result (λ n. n ≤ length into.new) }
        ensures read { Reads (Some self.old.left) (Some self.new.left) into.new result }
        ensures counted { self.new.reads ≡ raised self.old.reads 1 }
        ensures cause { CountsFaults self.old.faults self.new.faults result }
        ensures fails { IsErr result ↔ IsTrue (is_listed self.old.fail self.new.reads) }
        ensures most { IfOk result (λ n. n ≡ min (length self.old.left) (length into.new)) }
        ensures after { self.new ≡ source_after self.old result }
    {
        self.reads = self.reads.saturating_add(1);
        if self.fail.contains(&self.reads) {
            self.faults = self.faults.saturating_add(1);
            return Err(SourceFailed);
        }
        let left = self.bytes.len() - self.at;
        let n = left.min(into.len());
        let end = self.at + n;
        into[..n].copy_from_slice(&self.bytes[self.at..end]);
        self.at = end;
        Ok(n)
    }
}

/// A sink that keeps what it is handed.
pub struct MemorySink {
    bytes: Vec<u8>,
    fail: Vec<u64>,
    writes: u64,
    faults: u64,
}

impl Drop for MemorySink {
    fn drop(self) {
        let MemorySink {
            bytes: _,
            fail: _,
            writes: _,
            faults: _,
        } = self;
    }
}

impl Model for MemorySink {
    ghost use Rattle.fts_wire.specs.Memory.{SinkData, sink_data};

    ghost Value = { SinkData };

    ghost view = { sink_data };
}

impl MemorySink {
    /// A sink that holds nothing. The writes with these numbers fail.
    pub fn new(alloc: Global, fail: Vec<u64>) -> MemorySink
        ensures { result ≡ record { held = []; room = 0; fail = fail.items; writes = 0; faults = 0 } }
    {
        MemorySink {
            bytes: Vec::new(alloc),
            fail,
            writes: 0,
            faults: 0,
        }
    }

    /// The bytes that it holds.
    pub fn bytes(&self) -> &[u8]
        ensures { result.now ≡ self.now.held }
    {
        self.bytes.as_slice()
    }
}

impl Sink for MemorySink {
    ghost use Rattle.std.specs.Prelude.{Some};
    ghost use Rattle.fts_wire.specs.Outside.{nothing_beside};

    ghost held = { λ s. Some s.held };

    ghost faults = { λ s. s.faults };

    ghost beside = { λ _. nothing_beside };

    fn write(&mut self, bytes: &[u8]) -> Result<usize, SinkFailed>
        ensures bound { IfOk result (λ n. n ≤ length bytes.now) }
        ensures some { IfOk result (λ n. 0 < length bytes.now → 0 < n) }
        ensures written { Writes (Some self.old.held) (Some self.new.held) bytes.now result }
        ensures cause { CountsFaults self.old.faults self.new.faults result }
        ensures fails { IsTrue (is_listed self.old.fail self.new.writes) → IsErr result }
        ensures fails_only { IsErr result → MayFail self.old bytes.now self.new.writes }
        ensures all { IfOk result (λ n. n ≡ length bytes.now) }
        ensures after { self.new ≡ sink_after self.old bytes.now self.new.room result }
    {
        self.writes = self.writes.saturating_add(1);
        if self.fail.contains(&self.writes) {
            self.faults = self.faults.saturating_add(1);
            return Err(SinkFailed);
        }
        match self.bytes.extend_from_slice(bytes) {
            Ok(()) => Ok(bytes.len()),
            Err(_) => {
                self.faults = self.faults.saturating_add(1);
                Err(SinkFailed)
            }
        }
    }
}

/// A line: a source and a sink, each beside the other.
pub struct MemoryLine {
    source: MemorySource,
    sink: MemorySink,
}

impl Drop for MemoryLine {
    fn drop(self) {
        let MemoryLine { source: _, sink: _ } = self;
    }
}

impl MemoryLine {
    /// A line that is read from the one and written to the other.
    pub fn new(source: MemorySource, sink: MemorySink) -> MemoryLine
        ensures left { ⟦<MemoryLine as Source>⟧.left result ≡ ⟦<MemorySource as Source>⟧.left source }
        ensures held { ⟦<MemoryLine as Sink>⟧.held result ≡ ⟦<MemorySink as Sink>⟧.held sink }
        ensures source_faults { ⟦<MemoryLine as Source>⟧.faults result ≡ ⟦<MemorySource as Source>⟧.faults source }
        ensures reads { ⟦<MemoryLine as Source>⟧.reads result ≡ ⟦<MemorySource as Source>⟧.reads source }
        ensures sink_faults { ⟦<MemoryLine as Sink>⟧.faults result ≡ ⟦<MemorySink as Sink>⟧.faults sink }
        ensures line { IsLine
            (record {
              bytes = ⟦<MemoryLine as Source>⟧.left;
              faults = ⟦<MemoryLine as Source>⟧.faults;
              reads = ⟦<MemoryLine as Source>⟧.reads;
              beside = ⟦<MemoryLine as Source>⟧.beside;
            })
            (record {
              bytes = ⟦<MemoryLine as Sink>⟧.held;
              faults = ⟦<MemoryLine as Sink>⟧.faults;
              reads = λ _. 0;
              beside = ⟦<MemoryLine as Sink>⟧.beside;
            }) }
    {
        MemoryLine { source, sink }
    }

    /// The bytes that its sink holds.
    pub fn bytes(&self) -> &[u8]
        ensures { ⟦<MemoryLine as Sink>⟧.held self.now ≡ Some result.now }
    {
        self.sink.bytes()
    }
}

impl Source for MemoryLine {
    ghost use Rattle.std.specs.Prelude.{Some};

    ghost left = { λ l. ⟦<MemorySource as Source>⟧.left l.source };

    ghost faults = { λ l. l.source.faults };

    ghost reads = { λ l. l.source.reads };

    ghost beside = { λ l. record { bytes = Some l.sink.held; faults = l.sink.faults; reads = 0 } };

    fn read(&mut self, into: &mut [u8]) -> Result<usize, SourceFailed> {
        self.source.read(into)
    }
}

impl Sink for MemoryLine {
    ghost use Rattle.std.specs.Prelude.{Some};

    ghost held = { λ l. Some l.sink.held };

    ghost faults = { λ l. l.sink.faults };

    ghost beside = { λ l. record { bytes = Some l.source.left; faults = l.source.faults; reads = l.source.reads } };

    fn write(&mut self, bytes: &[u8]) -> Result<usize, SinkFailed> {
        self.sink.write(bytes)
    }
}
