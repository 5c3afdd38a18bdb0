//! Submissions: plain ones, ones with ids that the clients chose, ones of two sources, of which the less loaded is taken; and of many files on few links
//! and on many. All are spelled and read before the clock starts; timed are `prepare` and `commit`.
use super::commands::ROUNDS;
use super::waiting::{
    ENDS, FILES, Kind, Layout, apply, begun_desk, filled_desk, filling, submission,
};
use crate::clock;
use fts_desk::Desk;
use fts_tables::Entry;
use std::alloc::Global;
use std::io;

/// As many submissions of a kind.
fn submissions(alloc: Global, jobs: u32, kind: Kind) -> io::Result<Vec<Entry>> {
    let mut entries = Vec::new(alloc);
    for job in 0..jobs {
        entries.push(submission(alloc, job, kind)?)?;
    }
    Ok(entries)
}

/// How many seconds these submissions take on a desk.
fn seconds_on(rt: &HostRuntime, desk: &mut Desk, entries: &[Entry]) -> io::Result<f64> {
    let begun = clock::now(rt);
    for entry in entries {
        apply(desk, &entry.command)?;
    }
    Ok(clock::now(rt) - begun)
}

/// How many milliseconds as many submissions take, from an empty desk on.
fn milliseconds(rt: &HostRuntime, jobs: u32, kind: Kind) -> io::Result<f64> {
    let entries = submissions(rt.alloc(), jobs, kind)?;
    let mut desk = begun_desk(rt.alloc(), ENDS)?;
    Ok(1000.0 * seconds_on(rt, &mut desk, entries.as_slice())?)
}

/// Prints how long 10,000 and 100,000 submissions of a kind take, in turn, and their ratio.
fn print_times(rt: &HostRuntime, what: &str, kind: Kind) -> io::Result<()> {
    let (mut few, mut many) = (f64::INFINITY, f64::INFINITY);
    for _ in 0..ROUNDS {
        few = few.min(milliseconds(rt, 10_000, kind)?);
        many = many.min(milliseconds(rt, 100_000, kind)?);
    }
    println!(rt;
        "submissions {what}: {few:.1} ms for 10,000, {many:.1} ms for 100,000; ratio {:.1}",
        many / few
    )
}

/// How many jobs of 200 files have gone over the links before, and how many are timed.
const JOBS: u32 = 100;

/// The submissions that are timed.
fn later_jobs(alloc: Global, layout: Layout) -> io::Result<Vec<Entry>> {
    let mut entries = Vec::new(alloc);
    for job in JOBS..2 * JOBS {
        entries.push(filling(alloc, job, layout)?)?;
    }
    Ok(entries)
}

/// How many microseconds a file of a submission takes on all links of as many ends.
fn microseconds(rt: &HostRuntime, ends: u32) -> io::Result<f64> {
    let layout = Layout {
        ends,
        links: ends.wrapping_mul(ends),
        priorities: 5,
        hours: false,
    };
    let entries = later_jobs(rt.alloc(), layout)?;
    let mut desk = filled_desk(rt.alloc(), JOBS, layout)?;
    let seconds = seconds_on(rt, &mut desk, entries.as_slice())?;
    Ok(seconds * 1_000_000.0 / f64::from(JOBS * FILES))
}

/// Prints how long a file of a submission takes with 4, 16 and 64 sources and as many destinations, in turn, and what the most links cost.
fn print_links(rt: &HostRuntime) -> io::Result<()> {
    let (mut few, mut more, mut most) = (f64::INFINITY, f64::INFINITY, f64::INFINITY);
    for _ in 0..ROUNDS {
        few = few.min(microseconds(rt, 4)?);
        more = more.min(microseconds(rt, 16)?);
        most = most.min(microseconds(rt, 64)?);
    }
    println!(rt;
        "submissions of 200 files: {few:.2}, {more:.2}, {most:.2} us a file on 16, 256, 4,096 links; ratio {:.2}",
        most / few
    )
}

/// Prints the times of each kind, and of many links.
pub fn measure(rt: &HostRuntime) -> io::Result<()> {
    print_times(rt, "of one file", Kind::Plain)?;
    print_times(rt, "with ids", Kind::WithId)?;
    print_times(rt, "of two sources", Kind::Replica)?;
    print_links(rt)
}
