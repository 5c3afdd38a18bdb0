//! A source over a reader and a sink over a writer: files, standard streams, sockets.
//! They tell nothing of bytes, and count each failure. A writer that takes nothing of a piece that is not empty has failed.
//! A call that a signal interrupted did nothing (EINTR of POSIX), and is made again.
//! Keeps: where the reader or the writer itself tells its bytes, a call has done to them what it answers (`read`, clause `reader`; `write`,
//! clause `writer`). So a failure is not answered as the end of the input, nor as written.
//! Made by the program, at the outside.
ghost use Rattle.std.specs.Prelude.{◌≡◌, ◌≤◌, ◌<◌, length, None, IfOk};
ghost use Rattle.std.specs.Io.KnownBytes.{ReadConsumes, WriteAppends};
ghost use Rattle.fts_tables.specs.Counts.{CountsFaults};
ghost use Rattle.fts_wire.specs.Outside.{Reads, Writes, raised};

use crate::{Sink, SinkFailed, Source, SourceFailed};
use std::io::{self, ErrorKind, Read, Write};

/// How often a call that was interrupted is made.
const TRIES: u32 = 1_000;

// Reads, again where a signal interrupted it.
fn read_some<R: Read>(reader: &mut R, into: &mut [u8]) -> io::Result<usize>
    ensures bound { IfOk result (λ n. n ≤ length into.new) }
    ensures reader { ReadConsumes (R.remaining reader.old) (R.remaining reader.new) result into.new }
{
    'tries: for _ in 0..TRIES {
        match reader.read(into) {
            Err(error) if error.kind() == ErrorKind::Interrupted => {}
            answer => return answer,
        }
    }
    Err(io::Error::from(ErrorKind::Interrupted))
}

// Writes, again where a signal interrupted it.
fn write_some<W: Write>(writer: &mut W, bytes: &[u8]) -> io::Result<usize>
    ensures bound { IfOk result (λ n. n ≤ length bytes.now) }
    ensures writer { WriteAppends (W.contents writer.old) (W.contents writer.new) result bytes.now }
{
    'tries: for _ in 0..TRIES {
        match writer.write(bytes) {
            Err(error) if error.kind() == ErrorKind::Interrupted => {}
            answer => return answer,
        }
    }
    Err(io::Error::from(ErrorKind::Interrupted))
}

/// A source over a reader.
#[derive(Drop)]
pub struct StdSource<R: Read> {
    reader: R,
    reads: u64,
    faults: u64,
}

impl<R: Read> StdSource<R> {
    /// A source of what the reader gives.
    pub fn new(reader: R) -> StdSource<R>
        ensures reads { ⟦<StdSource<R> as Source>⟧.reads result ≡ 0 }
        ensures faults { ⟦<StdSource<R> as Source>⟧.faults result ≡ 0 }
    {
        StdSource {
            reader,
            reads: 0,
            faults: 0,
        }
    }
}

impl<R: Read> Source for StdSource<R> {
    ghost use Rattle.std.specs.Prelude.{None};
    ghost use Rattle.fts_wire.specs.Outside.{nothing_beside};

    ghost left = { λ _. None };

    ghost faults = { λ s. s.faults };

    ghost reads = { λ s. s.reads };

    ghost beside = { λ _. nothing_beside };

    fn read(&mut self, into: &mut [u8]) -> Result<usize, SourceFailed>
        ensures bound { IfOk result (λ n. n ≤ length into.new) }
        ensures read { Reads None None into.new result }
        ensures counted { self.new.reads ≡ raised self.old.reads 1 }
        ensures cause { CountsFaults self.old.faults self.new.faults result }
        ensures reader { ReadConsumes (R.remaining self.old.reader) (R.remaining self.new.reader) result into.new }
    {
        self.reads = self.reads.saturating_add(1);
        match read_some(&mut self.reader, into) {
            Ok(n) => Ok(n),
            Err(_) => {
                self.faults = self.faults.saturating_add(1);
                Err(SourceFailed)
            }
        }
    }
}

/// A sink over a writer.
#[derive(Drop)]
pub struct StdSink<W: Write> {
    writer: W,
    faults: u64,
}

impl<W: Write> StdSink<W> {
    /// A sink that hands its bytes to the writer.
    pub fn new(writer: W) -> StdSink<W>
        ensures { ⟦<StdSink<W> as Sink>⟧.faults result ≡ 0 }
    {
        StdSink { writer, faults: 0 }
    }
}

impl<W: Write> Sink for StdSink<W> {
    ghost use Rattle.std.specs.Prelude.{None};
    ghost use Rattle.fts_wire.specs.Outside.{nothing_beside};

    ghost held = { λ _. None };

    ghost faults = { λ s. s.faults };

    ghost beside = { λ _. nothing_beside };

    fn write(&mut self, bytes: &[u8]) -> Result<usize, SinkFailed>
        ensures bound { IfOk result (λ n. n ≤ length bytes.now) }
        ensures some { IfOk result (λ n. 0 < length bytes.now → 0 < n) }
        ensures written { Writes None None bytes.now result }
        ensures cause { CountsFaults self.old.faults self.new.faults result }
        ensures writer { WriteAppends (W.contents self.old.writer) (W.contents self.new.writer) result bytes.now }
    {
        match write_some(&mut self.writer, bytes) {
            Ok(n) => {
                if n > 0 || bytes.is_empty() {
                    return Ok(n);
                }
                self.faults = self.faults.saturating_add(1);
                Err(SinkFailed)
            }
            Err(_) => {
                self.faults = self.faults.saturating_add(1);
                Err(SinkFailed)
            }
        }
    }
}
