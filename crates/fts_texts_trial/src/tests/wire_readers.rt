//! Of `fts_wire`, its sources and sinks over a reader and a writer: what comes of those that fail and tell nothing, and of a source that is read to its end.
ghost use Rattle.std.specs.Prelude.{◌≡◌, IfOk};

use super::checks::{check, check_found, must};
use fts_wire::{
    MemorySource, ReadAllFault, Sink, SinkFailed, Source, SourceFailed, StdSink, StdSource,
    read_all,
};
use std::alloc::AllocError;
use std::collections::VecDeque;
use std::io;
use std::io::{Read, Write};

#[test]
fn a_reader_and_a_writer_are_a_source_and_a_sink(rt: HostRuntime) {
    let mut queue = VecDeque::new(rt.alloc());
    must(&rt, queue.push_back(7), "there is memory");
    let mut source = StdSource::new(queue);
    let mut into = [0; 4];
    let is_read = source.read(&mut into) == Ok(1) && into[0] == 7;
    check(&rt, is_read, "the reader's one byte");
    check(&rt, source.read(&mut into) == Ok(0), "its end");
    let mut sink = StdSink::new(VecDeque::new(rt.alloc()));
    check(
        &rt,
        sink.write(&[1, 2, 3]) == Ok(3),
        "three bytes for the writer",
    );
}

/// A reader and a writer whose first call fails, and whose later ones have nothing to give and take nothing.
#[derive(Drop)]
struct FailsAtFirst {
    has_failed: bool,
}

impl FailsAtFirst {
    fn call(&mut self) -> io::Result<usize>
        ensures { IfOk result (λ n. n ≡ 0) }
    {
        if self.has_failed {
            return Ok(0);
        }
        self.has_failed = true;
        Err(io::Error::from(io::ErrorKind::Other))
    }
}

impl Read for FailsAtFirst {
    fn read(&mut self, _buf: &mut [u8]) -> io::Result<usize> {
        self.call()
    }
}

impl Write for FailsAtFirst {
    fn write(&mut self, _buf: &[u8]) -> io::Result<usize> {
        self.call()
    }

    fn flush(&mut self) -> io::Result<()> {
        Ok(())
    }
}

#[test]
fn a_reader_and_a_writer_that_fail_are_heard(rt: HostRuntime) {
    let mut source = StdSource::new(FailsAtFirst { has_failed: false });
    let has_failed = source.read(&mut [0; 4]) == Err(SourceFailed);
    check(&rt, has_failed, "a failed read");
    assert!(rt; source.read(&mut [0; 4]) == Ok(0), "the end behind it");
    let mut sink = StdSink::new(FailsAtFirst { has_failed: false });
    let has_failed = sink.write(&[1, 2, 3]) == Err(SinkFailed);
    check(&rt, has_failed, "a failed write");
    let has_failed = sink.write(&[1, 2, 3]) == Err(SinkFailed);
    check(&rt, has_failed, "a write that takes nothing");
    check(&rt, sink.write(&[]) == Ok(0), "nothing to take");
}

/// A row: a sentence, how many bytes a source has, the limit, the read that fails, and how many bytes are read.
type EndRow = (&'static str, usize, usize, u64, Result<usize, ReadAllFault>);

const ENDS: [EndRow; 8] = [
    ("none", 0, 0, 9, Ok(0)),
    ("fewer than the limit", 3, 4, 9, Ok(3)),
    ("as many as the limit", 3, 3, 9, Ok(3)),
    ("one more", 3, 2, 9, Err(ReadAllFault::TooLong)),
    ("more than a piece", 70_000, 70_000, 9, Ok(70_000)),
    (
        "one more than a piece",
        65_537,
        65_536,
        9,
        Err(ReadAllFault::TooLong),
    ),
    (
        "the first read fails",
        3,
        3,
        1,
        Err(ReadAllFault::SourceFailed),
    ),
    (
        "the read of the end fails",
        3,
        3,
        2,
        Err(ReadAllFault::SourceFailed),
    ),
];

/// How many bytes of a source are read.
fn count_of(
    rt: &HostRuntime,
    source: &mut MemorySource,
    limit: usize,
) -> Result<usize, ReadAllFault> {
    let bytes = read_all(rt.alloc(), source, limit)?;
    Ok(bytes.len())
}

/// Whether a source is read to its end as a row says.
fn is_end_read_so(rt: &HostRuntime, row: &EndRow) -> Result<bool, AllocError> {
    let bytes = vec![in rt.alloc(); b'a'; row.1]?;
    let mut source = MemorySource::new(bytes, vec![in rt.alloc(); row.3; 1]?);
    Ok(count_of(rt, &mut source, row.2) == row.4)
}

#[test]
fn a_source_is_read_to_its_end(rt: HostRuntime) {
    for row in &ENDS {
        check_found(&rt, is_end_read_so(&rt, row), row.0);
    }
}
