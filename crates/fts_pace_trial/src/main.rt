//! The state machine at 200,000 files that wait, so often asked that no step may cost what the whole costs.
//! No contract bounds a step, so a body that counts all files anew at each claim, or a set that keeps all keys in one chunk, is proved as any other. Here
//! each line stands for as many steps as there are files, or more: where each claim walks over all files, that is some 90,000,000,000 looks, in the two
//! minutes that the gate gives a program.
//! Order: 1,000 jobs of 200 files in one queue; six copies of each file of half of them, which all fail, each claim at a moment of its own; cancellations of
//! the others. Then a grid of 4,032 links, of which 1,024 are listed, with five files on each; and claims beside 100,000 files for one busy destination.
#![tactic(auto)]

mod commands;
mod texts;

use commands::{Jobs, cancel_jobs, claim, copy_files, start, submit_jobs, waiting};
use fts_desk::Desk;
use std::io;

/// As many jobs as make 200,000 files.
const JOBS: u32 = 1_000;

/// How many jobs are copied, and how often a file of theirs is.
const JOBS_COPIED: u32 = 500;

const COPIES: u32 = JOBS_COPIED * texts::FILES * texts::ATTEMPTS;

/// How many jobs have five files and more on each link of the grid, and how many copies all their files' attempts are.
const GRID_JOBS: u32 = 101;

const GRID_COPIES: u32 = GRID_JOBS * texts::FILES * texts::ATTEMPTS;

/// Prints how many files wait.
fn print_waiting(rt: &HostRuntime, desk: &Desk, what: &str) -> io::Result<()> {
    println!(rt; "{what}: {} files wait", waiting(desk))
}

/// Many files of one link.
fn run_one_link(rt: &HostRuntime) -> io::Result<()> {
    let mut desk = Desk::empty(rt.alloc());
    if !start(rt.alloc(), &mut desk, &texts::settings(rt.alloc())?)? {
        return println!(rt; "no start");
    }
    let jobs = submit_jobs(rt.alloc(), &mut desk, Jobs::OneLink, JOBS)?;
    println!(rt; "submitted: {jobs} jobs")?;
    print_waiting(rt, &desk, "behind them")?;
    let copies = copy_files(&mut desk, COPIES);
    println!(rt; "claimed: {}, failed: {}", copies.claimed, copies.failed)?;
    print_waiting(rt, &desk, "behind them")?;
    let cancelled = cancel_jobs(&mut desk, JOBS_COPIED, JOBS);
    println!(rt; "cancelled: {cancelled} jobs")?;
    print_waiting(rt, &desk, "behind them")
}

/// Files on each link of a grid: each claim chooses among all of them.
fn run_grid(rt: &HostRuntime) -> io::Result<()> {
    let mut desk = Desk::empty(rt.alloc());
    if !start(rt.alloc(), &mut desk, &texts::grid_settings(rt.alloc())?)? {
        return println!(rt; "no start");
    }
    let jobs = submit_jobs(rt.alloc(), &mut desk, Jobs::Grid, GRID_JOBS)?;
    println!(rt; "of {} links: {jobs} jobs", texts::LINKS)?;
    print_waiting(rt, &desk, "behind them")?;
    let copies = copy_files(&mut desk, GRID_COPIES);
    println!(rt; "claimed: {}, failed: {}", copies.claimed, copies.failed)?;
    print_waiting(rt, &desk, "behind them")
}

/// Files of which half go to one destination, that is busy: claims of the others pass them.
fn run_one_destination(rt: &HostRuntime) -> io::Result<()> {
    let mut desk = Desk::empty(rt.alloc());
    if !start(rt.alloc(), &mut desk, &texts::settings(rt.alloc())?)? {
        return println!(rt; "no start");
    }
    let same = submit_jobs(rt.alloc(), &mut desk, Jobs::OneDestination, JOBS_COPIED)?;
    let is_claimed = claim(&mut desk);
    println!(rt; "to one destination: {same} jobs, of which a file is claimed: {is_claimed}")?;
    let others = submit_jobs(rt.alloc(), &mut desk, Jobs::OneLink, JOBS_COPIED)?;
    println!(rt; "to others: {others} jobs")?;
    print_waiting(rt, &desk, "behind them")?;
    let copies = copy_files(&mut desk, COPIES);
    println!(rt; "claimed: {}, failed: {}", copies.claimed, copies.failed)?;
    print_waiting(rt, &desk, "behind them")
}

fn main(rt: HostRuntime) -> io::Result<()> {
    run_one_link(&rt)?;
    run_grid(&rt)?;
    run_one_destination(&rt)
}
