//! A start over a journal of many jobs, beside reading its entries alone: the journal is opened, and each body is read as an entry.
//! Called for `keep start` and `keep file`.
use super::{RESTART, settings, started};
use crate::clock;
use crate::entries::{SUBMIT, entry};
use crate::files::{self, JOURNAL_PATH};
use crate::journal::seen_journal;
use fts_disk::Disk;
use fts_journal::Journal;
use fts_keep::Keep;
use std::alloc::{AllocError, Global};
use std::io;
use std::os::unix::fs::FileExt;

/// Both sides are measured so many times, in turn.
const TIMES: u32 = 5;

/// Appends a body behind its gate: a 1, its length in four bytes, the least first, and itself.
fn push_body(bytes: &mut Vec<u8>, body: &[u8]) -> Result<(), AllocError> {
    let length = u32::try_from(body.len()).unwrap_or(u32::MAX);
    bytes.push(1)?;
    bytes.extend_from_slice(&length.to_le_bytes())?;
    bytes.extend_from_slice(body)
}

/// Appends a journal of one Restart and so many submissions.
fn push_journal(bytes: &mut Vec<u8>, count: u32) -> Result<(), AllocError> {
    bytes.extend_from_slice(b"FTS3JRN1")?;
    push_body(bytes, RESTART)?;
    for _ in 0..count {
        push_body(bytes, SUBMIT)?;
    }
    bytes.extend_from_slice(&[0])
}

/// Writes such a journal.
fn write_journal(rt: &HostRuntime, count: u32) -> io::Result<()> {
    let mut bytes = Vec::new(rt.alloc());
    push_journal(&mut bytes, count)?;
    files::create(rt, JOURNAL_PATH)?.write_all_at(&bytes, 0)
}

/// Prints the number of jobs of a keep.
fn print_jobs<D: Disk + Drop>(rt: &HostRuntime, keep: Keep<D>) -> io::Result<()> {
    println!(rt; "  {} jobs", keep.desk().jobs().len())
}

/// The seconds that a start takes.
fn start_once(rt: &HostRuntime, path: &str) -> io::Result<f64> {
    let settings = settings(rt.alloc())?;
    let begun = clock::now(rt);
    let keep = started(rt, path, settings)?;
    let taken = clock::now(rt) - begun;
    print_jobs(rt, keep)?;
    Ok(taken)
}

/// Whether each body is read as an entry.
fn is_read<D: Disk>(alloc: Global, journal: &mut Journal<D>) -> bool {
    let mut body = Vec::new(alloc);
    for n in 0..journal.count() {
        if n >= journal.count()
            || journal.body(n, &mut body).is_err()
            || entry(alloc, &body).is_err()
        {
            return false;
        }
    }
    true
}

/// The seconds in which the journal is opened and its entries are read alone.
fn read_once(rt: &HostRuntime, path: &str) -> io::Result<f64> {
    let begun = clock::now(rt);
    let mut journal = seen_journal(rt, path)?;
    if is_read(rt.alloc(), &mut journal) {
        Ok(clock::now(rt) - begun)
    } else {
        Err(io::Error::other("an entry is not read"))
    }
}

/// Measures both sides once, and prints one line.
fn measure_once(rt: &HostRuntime, path: &str) -> io::Result<()> {
    let reading = read_once(rt, path)?;
    let starting = start_once(rt, path)?;
    println!(rt;
        "start {:.0} us, entries alone {:.0} us, {:.0} %",
        starting * 1_000_000.0,
        reading * 1_000_000.0,
        100.0 * starting / reading
    )
}

/// Prints how long a start takes and how long reading the entries takes, each time on a new file of so many jobs.
pub fn measure(rt: &HostRuntime, count: u32) -> io::Result<()> {
    for _ in 0..TIMES {
        write_journal(rt, count)?;
        measure_once(rt, JOURNAL_PATH)?;
    }
    files::remove(rt, JOURNAL_PATH)
}

/// The same over a journal that is there. Each start puts one Restart more behind it.
pub fn measure_file(rt: &HostRuntime, path: &str) -> io::Result<()> {
    for _ in 0..TIMES {
        measure_once(rt, path)?;
    }
    Ok(())
}
