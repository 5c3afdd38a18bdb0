//! Changes over full tables: a job of 200 files is copied, another one has its priority changed and is cancelled, and 16 workers claim.
use crate::commands::{Claimed, Kept, NOW, VERIFIED, claim};
use crate::counts::{print_states, print_tables, state_text};
use crate::large_jobs::{FILES, copy_and_print};
use fts_tables::{Answer, Command};
use std::io;

/// As many workers as there may be. Each claims as a writer of its own.
const WORKERS: u32 = 16;

/// Changes the priority of a job, and prints which one it has then.
fn prioritize(rt: &HostRuntime, keep: &mut Kept, job: u32) -> io::Result<()> {
    let command = Command::SetPriority {
        now: NOW,
        job,
        priority: 4,
    };
    match keep.apply(0, command) {
        Ok(Answer::PrioritySet { job }) => println!(rt; "job {job}: another priority"),
        Ok(_) | Err(_) => println!(rt; "job {job}: the same priority"),
    }
}

/// Cancels a job, and prints its state then.
fn cancel(rt: &HostRuntime, keep: &mut Kept, job: u32) -> io::Result<()> {
    match keep.apply(0, Command::CancelJob { now: NOW, job }) {
        Ok(Answer::Cancelled { job }) => {
            println!(rt; "job {job}: cancelled; {}", state_text(keep, job))
        }
        Ok(_) | Err(_) => println!(rt; "job {job}: not cancelled"),
    }
}

/// Claims a file for each worker, and prints how many there were, and the first and the last one.
fn claim_for_workers(rt: &HostRuntime, keep: &mut Kept) -> io::Result<()> {
    let none = Claimed {
        file: 0,
        attempt: 0,
    };
    let mut count: u32 = 0;
    let (mut first, mut last) = (none, none);
    for worker in 1..=WORKERS {
        if let Some(claimed) = claim(keep, worker) {
            if count == 0 {
                first = claimed;
            }
            last = claimed;
            count = count.saturating_add(1);
        }
    }
    println!(rt;
        "{count} workers claimed, the first row {}, the last row {}",
        first.file, last.file
    )
}

/// Plays the changes.
pub fn play_all(rt: &HostRuntime, keep: &mut Kept) -> io::Result<()> {
    copy_and_print(rt, keep, 3, FILES, VERIFIED)?;
    prioritize(rt, keep, 4)?;
    cancel(rt, keep, 4)?;
    claim_for_workers(rt, keep)?;
    print_tables(rt, keep)?;
    print_states(rt, keep)
}
