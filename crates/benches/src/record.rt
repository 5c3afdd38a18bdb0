//! The measurement of spelling: one entry, a submission of one file, read and written many times over.
ghost use Rattle.std.specs.Prelude.{IsTrue};
ghost use Rattle.fts_record.specs.Proper.{has_priority};

use crate::clock;
use crate::entries::{SUBMIT, entry};
use fts_record::write_entry;
use fts_tables::Entry;
use std::io;

/// How many times the entry is read, and how many times it is written.
const TIMES: u32 = 200_000;

/// How many seconds it takes to read the entry.
fn reading(rt: &HostRuntime) -> io::Result<f64> {
    let begun = clock::now(rt);
    for _ in 0..TIMES {
        let _ = entry(rt.alloc(), SUBMIT)?;
    }
    Ok(clock::now(rt) - begun)
}

/// How many seconds it takes to write it into a buffer, which keeps its memory.
fn writing(rt: &HostRuntime, entry: &Entry, out: &mut Vec<u8>) -> io::Result<f64>
    requires { IsTrue (has_priority entry.now.command) }
{
    let begun = clock::now(rt);
    for _ in 0..TIMES {
        out.clear();
        if write_entry(entry, out).is_err() {
            return Err(io::Error::from(io::ErrorKind::OutOfMemory));
        }
    }
    Ok(clock::now(rt) - begun)
}

/// Prints the bytes of an entry, and how many are read and written in so many seconds.
fn print_rates(rt: &HostRuntime, bytes: usize, reading: f64, writing: f64) -> io::Result<()> {
    let times = f64::from(TIMES);
    println!(rt; "an entry of one file takes {bytes} bytes")?;
    println!(rt; "{:.0} entries read a second", times / reading)?;
    println!(rt; "{:.0} entries written a second", times / writing)
}

/// Prints how many entries a second are read and written.
pub fn measure(rt: &HostRuntime) -> io::Result<()> {
    let reading = reading(rt)?;
    let entry = entry(rt.alloc(), SUBMIT)?;
    let mut out = Vec::new(rt.alloc());
    let writing = writing(rt, &entry, &mut out)?;
    print_rates(rt, out.len(), reading, writing)
}
