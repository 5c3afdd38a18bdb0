//! A submission: the job takes the next number, and its rows the next ids.
//! All rows of a plain job wait at once, of a multihop job the first, of a replica job the one that is chosen before any of them counts.
use super::choices::{next_alternative, wake};
use super::plain::{PlainFile, PlainJob, PlainNewJob, PlainRow};
use fts_tables::{Answer, FileState, JobKind, Memory, Reason, Refusal};
use std::alloc::{AllocError, Global};

/// The id 00000000-0000-4000-8000-000000000000. A job's number stands in its last twelve digits, where the job was given no id.
const STANDARD_IDS: u128 = 0x0000_0000_0000_4000_8000_0000_0000_0000;

/// Submits a job, unless a job has its id.
pub fn submit(
    alloc: Global,
    jobs: &mut Vec<PlainJob>,
    rows: &mut Vec<PlainRow>,
    new: PlainNewJob,
    now: u64,
) -> Result<Result<Answer, Refusal>, Memory> {
    if let Some(id) = new.id {
        if let Some(job) = number_of(jobs, id) {
            return Ok(Err(Refusal::Duplicate { job }));
        }
    }
    let number = next_number(jobs.len());
    let added = rows_of_new(alloc, rows, number, &new)?;
    let id = new
        .id
        .unwrap_or(STANDARD_IDS.saturating_add(u128::from(number)));
    add_job(jobs, number, id, &new, now)?;
    rows.extend_from_slice(&added)?;
    Ok(Ok(Answer::Submitted { job: number, id }))
}

/// The least number of a job with an id.
pub fn number_of(jobs: &[PlainJob], id: u128) -> Option<u32> {
    jobs.iter()
        .filter(|job| job.id == id)
        .map(|job| job.number)
        .min()
}

/// The number behind so many.
fn next_number(count: usize) -> u32 {
    u32::try_from(count).unwrap_or(u32::MAX).saturating_add(1)
}

/// Appends a job.
fn add_job(
    jobs: &mut Vec<PlainJob>,
    number: u32,
    id: u128,
    new: &PlainNewJob,
    now: u64,
) -> Result<(), AllocError> {
    jobs.push(PlainJob {
        number,
        id,
        terms: new.terms,
        submitted_at: now,
    })?;
    Ok(())
}

/// The rows of a new job, with those that wait from the start.
fn rows_of_new(
    alloc: Global,
    before: &[PlainRow],
    job: u32,
    new: &PlainNewJob,
) -> Result<Vec<PlainRow>, AllocError> {
    let first = next_number(before.len());
    let state = match new.terms.kind {
        JobKind::Plain => FileState::Submitted,
        JobKind::Replica | JobKind::Multihop => FileState::NotUsed,
    };
    let mut added = made_rows(alloc, job, first, state, new)?;
    match new.terms.kind {
        JobKind::Plain => {}
        JobKind::Multihop => wake(&mut added, job, first),
        JobKind::Replica => {
            if let Some(id) = next_alternative(before, &added, job, new.terms.strategy) {
                wake(&mut added, job, id);
            }
        }
    }
    Ok(added)
}

/// A row for each file of a new job, all in one state. The sources of a replica job share its one file's index.
fn made_rows(
    alloc: Global,
    job: u32,
    first: u32,
    state: FileState,
    new: &PlainNewJob,
) -> Result<Vec<PlainRow>, AllocError> {
    let mut rows = Vec::new(alloc);
    let mut place = 0u32;
    for file in &new.files {
        let index = new.index_at(place);
        rows.push(made_row(first.saturating_add(place), job, index, state, file))?;
        place = place.saturating_add(1);
    }
    Ok(rows)
}

/// The row of a file that is submitted just now.
fn made_row(id: u32, job: u32, index: u32, state: FileState, file: &PlainFile) -> PlainRow {
    PlainRow {
        id,
        job,
        index,
        source: file.source,
        dest: file.dest,
        size: file.size,
        activity: file.activity,
        state,
        retries: 0,
        attempt: 0,
        not_before: 0,
        cancel_asked: false,
        reason: Reason::None,
        digest: None,
    }
}
