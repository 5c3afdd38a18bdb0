//! Of `fts_wire`: a reader and a writer whose calls a signal interrupts are called again, and one that fails is not.
use fts_wire::{Sink, SinkFailed, Source, SourceFailed, StdSink, StdSource};
use std::io::{self, Read, Write};

/// A reader and a writer whose first calls are refused, and whose later ones take or give one byte.
#[derive(Drop)]
struct Refuses {
    times: u32,
    kind: io::ErrorKind,
}

impl Refuses {
    fn call(&mut self) -> io::Result<()> {
        if self.times == 0 {
            return Ok(());
        }
        self.times -= 1;
        Err(io::Error::from(self.kind))
    }
}

impl Read for Refuses {
    fn read(&mut self, buf: &mut [u8]) -> io::Result<usize> {
        self.call()?;
        match buf.first_mut() {
            Some(byte) => {
                *byte = 7;
                Ok(1)
            }
            None => Ok(0),
        }
    }
}

impl Write for Refuses {
    fn write(&mut self, buf: &[u8]) -> io::Result<usize> {
        self.call()?;
        Ok(buf.len().min(1))
    }

    fn flush(&mut self) -> io::Result<()> {
        Ok(())
    }
}

/// A row: a sentence, how many calls are refused and why, and whether one is done then.
type RefusalRow = (&'static str, u32, io::ErrorKind, bool);

const REFUSALS: [RefusalRow; 4] = [
    ("no refusal", 0, io::ErrorKind::Other, true),
    ("a signal", 1, io::ErrorKind::Interrupted, true),
    ("some signals", 20, io::ErrorKind::Interrupted, true),
    ("a failure", 1, io::ErrorKind::Other, false),
];

/// The reader and writer of a row.
fn refuses_as(row: &RefusalRow) -> Refuses {
    Refuses {
        times: row.1,
        kind: row.2,
    }
}

/// Whether a byte is read, or none, as a row says.
fn is_read_so(row: &RefusalRow) -> bool {
    let mut into = [0; 4];
    let read = StdSource::new(refuses_as(row)).read(&mut into);
    let want = if row.3 { Ok(1) } else { Err(SourceFailed) };
    read == want && (into[0] == 7) == row.3
}

/// The same of a byte that is written.
fn is_written_so(row: &RefusalRow) -> bool {
    let written = StdSink::new(refuses_as(row)).write(&[1, 2, 3]);
    let want = if row.3 { Ok(1) } else { Err(SinkFailed) };
    written == want
}

#[test]
fn an_interrupted_call_is_made_again(rt: HostRuntime) {
    for row in &REFUSALS {
        assert!(rt; is_read_so(row), "{}: read", row.0);
        assert!(rt; is_written_so(row), "{}: written", row.0);
    }
}
