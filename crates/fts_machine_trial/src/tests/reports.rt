//! A report: how the copy of a file ended, and what that makes of its row and of the next one of its job.
use super::choices::{next_alternative, wake};
use super::jobs::{job_of, replace, row_of};
use super::plain::{PlainJob, PlainRow};
use fts_tables::{Answer, FileState, JobKind, Outcome, Reason, Refusal};

/// Takes a report of a file that is ACTIVE with that attempt.
pub fn report(
    jobs: &[PlainJob],
    rows: &mut [PlainRow],
    file: u32,
    attempt: u32,
    outcome: Outcome,
    now: u64,
) -> Result<Answer, Refusal> {
    let Some(row) = row_of(rows, file) else {
        return Err(Refusal::NoFile);
    };
    let Some(job) = job_of(jobs, row.job) else {
        return Err(Refusal::NoFile);
    };
    if row.state != FileState::Active || row.attempt != attempt {
        return Err(Refusal::Stale {
            state: row.state,
            attempt: row.attempt,
        });
    }
    let ended = ended_row(&job, row, outcome, now);
    replace(rows, ended);
    follow(rows, &job, &ended);
    Ok(Answer::Reported {
        file,
        state: ended.state,
    })
}

/// The row once its copy has ended.
fn ended_row(job: &PlainJob, row: PlainRow, outcome: Outcome, now: u64) -> PlainRow {
    if row.cancel_asked {
        return PlainRow {
            state: FileState::Canceled,
            reason: Reason::Cancelled,
            ..row
        };
    }
    match outcome {
        Outcome::Verified { size, digest } => PlainRow {
            state: FileState::Finished,
            size,
            digest: Some(digest),
            reason: Reason::None,
            ..row
        },
        Outcome::ReadBackDiffers { .. } | Outcome::StoreFailed | Outcome::Stopped
            if row.retries < job.terms.retry => {
            PlainRow {
                state: FileState::Submitted,
                retries: row.retries.saturating_add(1),
                not_before: now.saturating_add(job.terms.delay),
                reason: Reason::Ended(outcome),
                ..row
            }
        }
        _ => PlainRow {
            state: FileState::Failed,
            reason: Reason::Ended(outcome),
            ..row
        },
    }
}

/// Lets the next hop wait behind a finished one, and the next source behind a failed one.
fn follow(rows: &mut [PlainRow], job: &PlainJob, ended: &PlainRow) {
    match job.terms.kind {
        JobKind::Plain => {}
        JobKind::Multihop => {
            if ended.state == FileState::Finished {
                wake(rows, job.number, ended.id.saturating_add(1));
            }
        }
        JobKind::Replica => {
            if ended.state == FileState::Failed {
                wake_alternative(rows, job);
            }
        }
    }
}

/// Lets the next source of a replica job wait, where there is one.
fn wake_alternative(rows: &mut [PlainRow], job: &PlainJob) {
    if let Some(id) = next_alternative(rows, rows, job.number, job.terms.strategy) {
        wake(rows, job.number, id);
    }
}
