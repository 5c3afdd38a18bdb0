//! Commands to the desk, and how many of them came to what was wanted. The first that doesn't ends its row.
use crate::texts;
use fts_config::read_settings;
use fts_desk::Desk;
use fts_jobdoc::read_job;
use fts_tables::limits::MAX_COMMANDS;
use fts_tables::{Answer, Command, FileState, Outcome};
use std::alloc::{AllocError, Global};

/// The moment of the first command, in seconds since 1970.
const NOW: u64 = 1_700_000_000;

/// How often files were claimed, and how many failed for good.
#[derive(Clone, Copy)]
pub struct Copies {
    pub claimed: u32,
    pub failed: u32,
}

/// Does a command, where it is accepted.
fn apply(desk: &mut Desk, command: &Command) -> Option<Answer> {
    if desk.commands() >= MAX_COMMANDS {
        return None;
    }
    match desk.prepare(command) {
        Ok(plan) => Some(desk.commit(plan)),
        Err(_) => None,
    }
}

/// Starts under settings. False where they are refused.
pub fn start(alloc: Global, desk: &mut Desk, text: &str) -> Result<bool, AllocError> {
    let Ok(settings) = read_settings(alloc, text.as_bytes()) else {
        return Ok(false);
    };
    let command = Command::Restart { now: NOW, settings };
    Ok(apply(desk, &command).is_some())
}

/// What the jobs are of.
#[derive(Clone, Copy)]
pub enum Jobs {
    /// Files of one link, each with a destination of its own.
    OneLink,
    /// Files of the links of a grid, in turn.
    Grid,
    /// Files of one link and one destination.
    OneDestination,
}

/// The document of a job of 200 files.
fn document(alloc: Global, jobs: Jobs, number: u32) -> Result<String, AllocError> {
    match jobs {
        Jobs::OneLink => texts::job(alloc, number),
        Jobs::Grid => texts::grid_job(alloc, number),
        Jobs::OneDestination => texts::same_job(alloc, number),
    }
}

/// Submits a job of 200 files.
fn submit(alloc: Global, desk: &mut Desk, jobs: Jobs, number: u32) -> Result<bool, AllocError> {
    let text = document(alloc, jobs, number)?;
    let Some(settings) = desk.settings() else {
        return Ok(false);
    };
    let Ok(job) = read_job(alloc, text.as_bytes(), settings) else {
        return Ok(false);
    };
    Ok(apply(desk, &Command::Submit { now: NOW, job }).is_some())
}

/// Submits so many jobs, and tells how many were accepted.
pub fn submit_jobs(
    alloc: Global,
    desk: &mut Desk,
    jobs: Jobs,
    count: u32,
) -> Result<u32, AllocError> {
    for number in 0..count {
        if !submit(alloc, desk, jobs, number)? {
            return Ok(number);
        }
    }
    Ok(count)
}

/// Claims a file and reports that its store failed, both at this moment. None where no file was claimed, and else whether it failed for good.
fn copy_one(desk: &mut Desk, now: u64) -> Option<bool> {
    let Some(Answer::Claimed { file, attempt }) = apply(desk, &Command::Claim { now, word: 0 })
    else {
        return None;
    };
    let report = Command::Report {
        now,
        file,
        attempt,
        outcome: Outcome::StoreFailed,
    };
    let state = match apply(desk, &report) {
        Some(Answer::Reported { file: _, state }) => state,
        Some(_) | None => return Some(false),
    };
    Some(state == FileState::Failed)
}

/// Claims a file, and tells whether there was one.
pub fn claim(desk: &mut Desk) -> bool {
    let command = Command::Claim { now: NOW, word: 0 };
    let answer = apply(desk, &command);
    if let Some(
        Answer::Claimed {
            file: _,
            attempt: _,
        },
    ) = answer
    {
        true
    } else {
        false
    }
}

/// Claims a file so often, each reported before the next one is claimed, and each a second behind the one before.
pub fn copy_files(desk: &mut Desk, count: u32) -> Copies {
    let mut copies = Copies {
        claimed: 0,
        failed: 0,
    };
    for number in 0..count {
        let Some(has_failed) = copy_one(desk, NOW + u64::from(number)) else {
            return copies;
        };
        copies.claimed = copies.claimed.saturating_add(1);
        if has_failed {
            copies.failed = copies.failed.saturating_add(1);
        }
    }
    copies
}

/// Cancels the jobs from behind this number up to the last one, the last one first, and tells how many were cancelled.
pub fn cancel_jobs(desk: &mut Desk, before: u32, last: u32) -> u32 {
    let mut cancelled: u32 = 0;
    for place in 0..last.saturating_sub(before) {
        let job = last.saturating_sub(place);
        let now = NOW + 10_000_000;
        if apply(desk, &Command::CancelJob { now, job }).is_none() {
            return cancelled;
        }
        cancelled = cancelled.saturating_add(1);
    }
    cancelled
}

/// How many files wait.
pub fn waiting(desk: &Desk) -> usize {
    desk.rows()
        .iter()
        .filter(|row| row.state.is_submitted())
        .count()
}
