//! Jobs as large as they may be: 200 hops and 16 sources, copied before anything else waits; 200 files in one queue, and 200 in as many.
use crate::commands::{Came, Kept, VERIFIED, copy_files, submit};
use crate::counts::state_text;
use crate::texts;
use fts_tables::Outcome;
use std::io;

/// As many files as a job may have, and as many sources as a file may have.
pub const FILES: u32 = 200;

const SOURCES: u32 = 16;

/// Submits a document, and prints which job it is, with how many rows.
fn submit_and_print(rt: &HostRuntime, keep: &mut Kept, what: &str, text: &str) -> io::Result<()> {
    match submit(rt.alloc(), keep, text) {
        Came::Job { number } => {
            let rows = keep.desk().job_rows(number).len();
            println!(rt; "{what}: job {number}, {rows} rows")
        }
        Came::JobsFull { .. } | Came::RowsFull { .. } | Came::Otherwise => {
            println!(rt; "{what}: no job")
        }
    }
}

/// Copies so many files, each with this outcome, and prints what became of them and of their job.
pub fn copy_and_print(
    rt: &HostRuntime,
    keep: &mut Kept,
    job: u32,
    count: u32,
    outcome: Outcome,
) -> io::Result<()> {
    let copies = copy_files(keep, count, outcome);
    println!(rt;
        "job {job}: {} claimed, {} finished, {} failed; {}",
        copies.claimed,
        copies.finished,
        copies.failed,
        state_text(keep, job)
    )
}

/// Plays the jobs, which are the first four.
pub fn play_all(rt: &HostRuntime, keep: &mut Kept) -> io::Result<()> {
    let alloc = rt.alloc();
    let hops = texts::hops(alloc, FILES)?;
    submit_and_print(rt, keep, "200 hops", hops.as_str())?;
    copy_and_print(rt, keep, 1, FILES, VERIFIED)?;
    let replicas = texts::replicas(alloc, SOURCES)?;
    submit_and_print(rt, keep, "16 sources", replicas.as_str())?;
    copy_and_print(rt, keep, 2, SOURCES, Outcome::SourceMissing)?;
    let one_queue = texts::one_queue(alloc, FILES)?;
    submit_and_print(rt, keep, "200 files in one queue", one_queue.as_str())?;
    let many_queues = texts::many_queues(alloc, FILES)?;
    submit_and_print(rt, keep, "200 files in 200 queues", many_queues.as_str())
}
