//! What is asked of a job by its number: itself, its state, another priority.
//! A job is settled where no row of it waits or is copied; a row whose turn hasn't come does neither.
use super::plain::{PlainJob, PlainRow};
use fts_tables::{Answer, FileState, JobKind, JobState, Refusal};

/// The job of a number.
pub fn job_of(jobs: &[PlainJob], number: u32) -> Option<PlainJob> {
    jobs.iter().copied().find(|job| job.number == number)
}

/// The row of an id.
pub fn row_of(rows: &[PlainRow], id: u32) -> Option<PlainRow> {
    rows.iter().copied().find(|row| row.id == id)
}

/// Puts a row in place of the one with its id.
pub fn replace(rows: &mut [PlainRow], changed: PlainRow) {
    for row in rows.iter_mut() {
        if row.id == changed.id {
            *row = changed;
        }
    }
}

/// Whether a row of a job is in a state.
fn has_row_in(rows: &[PlainRow], job: u32, state: FileState) -> bool {
    rows.iter().any(|row| row.job == job && row.state == state)
}

/// Whether all rows of a job are in a state.
fn has_rows_only_in(rows: &[PlainRow], job: u32, state: FileState) -> bool {
    rows.iter().all(|row| row.job != job || row.state == state)
}

/// How many rows a job has.
pub fn count_of(rows: &[PlainRow], job: u32) -> usize {
    rows.iter().filter(|row| row.job == job).count()
}

/// Whether no row of a job waits or is copied.
pub fn is_settled(rows: &[PlainRow], job: u32) -> bool {
    !rows.iter().any(|row| row.job == job && row.is_live())
}

/// The state of a job.
pub fn state_of(rows: &[PlainRow], job: &PlainJob) -> JobState {
    if is_settled(rows, job.number) {
        return settled_state_of(rows, job);
    }
    let number = job.number;
    let has_begun = rows.iter().any(|row| row.job == number
        && (row.state == FileState::Active || row.is_settled()));
    if has_begun {
        JobState::Active
    } else {
        JobState::Submitted
    }
}

/// The state of a job that is settled: CANCELED before all else.
fn settled_state_of(rows: &[PlainRow], job: &PlainJob) -> JobState {
    if has_row_in(rows, job.number, FileState::Canceled) {
        return JobState::Canceled;
    }
    let all_finished = has_rows_only_in(rows, job.number, FileState::Finished);
    let all_failed = has_rows_only_in(rows, job.number, FileState::Failed);
    let any_finished = has_row_in(rows, job.number, FileState::Finished);
    match job.terms.kind {
        JobKind::Replica => finished_or(any_finished, JobState::Failed),
        JobKind::Multihop => finished_or(all_finished, JobState::Failed),
        JobKind::Plain if all_failed => JobState::Failed,
        JobKind::Plain => finished_or(all_finished, JobState::FinishedDirty),
    }
}

/// FINISHED where that is so, else the other state.
fn finished_or(is_finished: bool, other: JobState) -> JobState {
    if is_finished {
        JobState::Finished
    } else {
        other
    }
}

/// Gives a job that isn't settled another priority.
pub fn set_priority(
    jobs: &mut [PlainJob],
    rows: &[PlainRow],
    number: u32,
    priority: u32,
) -> Result<Answer, Refusal> {
    if job_of(jobs, number).is_none() {
        return Err(Refusal::NoJob);
    }
    if is_settled(rows, number) {
        return Err(Refusal::Unchanged { job: number });
    }
    for job in jobs.iter_mut() {
        if job.number == number {
            job.terms.priority = priority;
        }
    }
    Ok(Answer::PrioritySet { job: number })
}
