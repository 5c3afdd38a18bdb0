//! Which files have waited too long: those that still wait once so many hours have passed since their job was submitted, however often they were
//! tried meanwhile. No moment comes after the greatest one, so there all such hours are over.
use super::jobs::job_of;
use super::plain::{PlainJob, PlainRow};
use fts_tables::FileState;
use std::alloc::{AllocError, Global};

/// So many seconds make an hour.
const SECONDS: u64 = 60 * 60;

/// The files that have waited too long, in order of id.
pub fn overdue_files(
    alloc: Global,
    jobs: &[PlainJob],
    rows: &[PlainRow],
    now: u64,
) -> Result<Vec<u32>, AllocError> {
    rows.iter()
        .filter(|row| row.state == FileState::Submitted && is_over(jobs, row.job, now))
        .map(|row| row.id)
        .collect(alloc)
}

/// Whether the hours of a job are over, where it has any.
pub fn is_over(jobs: &[PlainJob], job: u32, now: u64) -> bool {
    match job_of(jobs, job) {
        Some(job) => job.terms.queue_hours > 0
            && (now == u64::MAX || hours_since(&job, now) >= u64::from(job.terms.queue_hours)),
        None => false,
    }
}

/// How many whole hours have passed since a job was submitted.
fn hours_since(job: &PlainJob, now: u64) -> u64 {
    now.saturating_sub(job.submitted_at) / SECONDS
}
