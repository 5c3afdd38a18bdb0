//! Plain jobs up to the last job and the last row that there may be, of four files and then of three.
use crate::commands::{Came, Kept, submit};
use crate::counts::{print_states, print_tables};
use crate::texts;
use fts_desk::standard_id;
use std::alloc::Global;
use std::io;

/// So many jobs of four files, and of three all but the last one.
const FOURS: u32 = 99_396;

const THREES: u32 = 599;

/// Submits as many jobs of so many files, of which the first is this one, and tells how many were accepted one after the other.
fn submit_jobs(
    alloc: Global,
    keep: &mut Kept,
    first: u32,
    files: u32,
    jobs: u32,
) -> io::Result<u32> {
    for done in 0..jobs {
        let text = texts::plain(
            alloc,
            first.saturating_add(done.saturating_mul(files)),
            files,
        )?;
        let Came::Job { .. } = submit(alloc, keep, text.as_str()) else {
            return Ok(done);
        };
    }
    Ok(jobs)
}

/// Submits one job more, from this file on, and prints what it came to.
fn submit_one(
    rt: &HostRuntime,
    keep: &mut Kept,
    what: &str,
    first: u32,
    files: u32,
) -> io::Result<()> {
    let text = texts::plain(rt.alloc(), first, files)?;
    match submit(rt.alloc(), keep, text.as_str()) {
        Came::Job { number } => println!(rt; "{what}: job {number}"),
        Came::JobsFull { jobs } => println!(rt; "{what}: jobs full at {jobs}"),
        Came::RowsFull { rows } => println!(rt; "{what}: rows full at {rows}"),
        Came::Otherwise => println!(rt; "{what}: otherwise"),
    }
}

/// Prints where a job has its rows, and which job has its standard id.
fn print_job(rt: &HostRuntime, keep: &Kept, number: u32) -> io::Result<()> {
    let by_id = keep.desk().find(standard_id(number)).unwrap_or(0);
    match keep.desk().job(number) {
        Some(job) => println!(rt;
            "job {}: {} rows from {} on; its id is that of job {by_id}",
            job.number, job.count, job.first
        ),
        None => println!(rt; "job {number}: not there"),
    }
}

/// Fills the tables, and looks at jobs around 65,536 and at the last one.
pub fn play_all(rt: &HostRuntime, keep: &mut Kept) -> io::Result<()> {
    let alloc = rt.alloc();
    let fours = submit_jobs(alloc, keep, 0, 4, FOURS)?;
    println!(rt; "jobs of four files: {fours}")?;
    let files = FOURS * 4;
    let threes = submit_jobs(alloc, keep, files, 3, THREES)?;
    println!(rt; "jobs of three files: {threes}")?;
    let files = files + THREES * 3;
    submit_one(rt, keep, "four files where three fit", files, 4)?;
    submit_one(rt, keep, "the last three", files, 3)?;
    submit_one(rt, keep, "one job more", files + 3, 1)?;
    print_tables(rt, keep)?;
    print_states(rt, keep)?;
    for number in [65_535, 65_536, 65_537, 100_000, 100_001] {
        print_job(rt, keep, number)?;
    }
    Ok(())
}
