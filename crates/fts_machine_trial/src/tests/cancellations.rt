//! Cancellations: what waits, or whose turn hasn't come, is CANCELED at once; what is copied is asked to end.
//! A cancellation that would change no row is refused. A ban and an expiry cancel several files, one after the other.
use super::jobs::{is_settled, job_of, row_of};
use super::plain::{PlainJob, PlainRow};
use fts_tables::{Answer, FileState, JobKind, Reason, Refusal};

/// A row once it is cancelled for a reason.
fn cancelled(row: PlainRow, reason: Reason) -> PlainRow {
    match row.state {
        FileState::Submitted | FileState::NotUsed => PlainRow {
            state: FileState::Canceled,
            reason,
            ..row
        },
        FileState::Active => PlainRow {
            cancel_asked: true,
            ..row
        },
        FileState::Finished | FileState::Failed | FileState::Canceled => row,
    }
}

/// Whether a cancellation changes a row.
fn is_cancellable(row: &PlainRow) -> bool {
    match row.state {
        FileState::Submitted | FileState::NotUsed => true,
        FileState::Active => !row.cancel_asked,
        FileState::Finished | FileState::Failed | FileState::Canceled => false,
    }
}

/// Cancels a job.
pub fn cancel_job(
    jobs: &[PlainJob],
    rows: &mut [PlainRow],
    number: u32,
) -> Result<Answer, Refusal> {
    match job_of(jobs, number) {
        Some(job) => cancel_rows(rows, &job, Reason::Cancelled),
        None => Err(Refusal::NoJob),
    }
}

/// Cancels each row of a job that isn't settled.
fn cancel_rows(rows: &mut [PlainRow], job: &PlainJob, reason: Reason) -> Result<Answer, Refusal> {
    let number = job.number;
    let changes = rows
        .iter()
        .any(|row| row.job == number && is_cancellable(row));
    if is_settled(rows, number) || !changes {
        return Err(Refusal::Unchanged { job: number });
    }
    for row in rows.iter_mut() {
        if row.job == number {
            *row = cancelled(*row, reason);
        }
    }
    Ok(Answer::Cancelled { job: number })
}

/// Cancels a file of a job.
pub fn cancel_file(
    jobs: &[PlainJob],
    rows: &mut [PlainRow],
    number: u32,
    file: u32,
) -> Result<Answer, Refusal> {
    let Some(job) = job_of(jobs, number) else {
        return Err(Refusal::NoJob);
    };
    let Some(row) = row_of(rows, file) else {
        return Err(Refusal::NoFile);
    };
    if row.job != number {
        return Err(Refusal::NoFile);
    }
    cancel_found(rows, &job, &row, Reason::Cancelled)
}

/// Cancels a file of a plain job, or the whole job of another kind.
fn cancel_found(
    rows: &mut [PlainRow],
    job: &PlainJob,
    row: &PlainRow,
    reason: Reason,
) -> Result<Answer, Refusal> {
    match job.terms.kind {
        JobKind::Plain => cancel_row(rows, row, reason),
        JobKind::Replica | JobKind::Multihop => cancel_rows(rows, job, reason),
    }
}

/// Cancels one row.
fn cancel_row(rows: &mut [PlainRow], row: &PlainRow, reason: Reason) -> Result<Answer, Refusal> {
    if !is_cancellable(row) {
        return Err(Refusal::Unchanged { job: row.job });
    }
    for other in rows.iter_mut() {
        if other.id == row.id {
            *other = cancelled(*other, reason);
        }
    }
    Ok(Answer::Cancelled { job: row.job })
}

/// Cancels files for a reason, in this order, each as its user would, and says how many rows became CANCELED.
/// One that went with the job of an earlier file changes no more.
pub fn cancel_files(
    jobs: &[PlainJob],
    rows: &mut [PlainRow],
    files: &[u32],
    reason: Reason,
) -> u32 {
    let before = count_of_canceled(rows);
    for file in files {
        cancel_next(jobs, rows, *file, reason);
    }
    let became = count_of_canceled(rows).saturating_sub(before);
    u32::try_from(became).unwrap_or(u32::MAX)
}

/// Cancels a file for a reason, where that changes a row.
fn cancel_next(jobs: &[PlainJob], rows: &mut [PlainRow], file: u32, reason: Reason) {
    let Some(row) = row_of(rows, file) else {
        return;
    };
    if let Some(job) = job_of(jobs, row.job) {
        let _ = cancel_found(rows, &job, &row, reason);
    }
}

/// How many rows are CANCELED.
fn count_of_canceled(rows: &[PlainRow]) -> usize {
    rows.iter()
        .filter(|row| row.state == FileState::Canceled)
        .count()
}
