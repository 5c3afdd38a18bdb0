//! The jobs and the rows of a snapshot, by their states.
ghost use Rattle.std.specs.Prelude.{◌≡◌, count_by, IfOk};
ghost use Rattle.serde_json.specs.View.{view};
ghost use Rattle.fts_counts.specs.Jobs.{place_of, stands_in};
ghost use Rattle.fts_board.specs.Snapshot.{by_job_state, jobs_object, files_object};

use fts_counts::{job_states, jobs_in, rows_in};
use fts_desk::Desk;
use fts_tables::{FileRow, FileState, JobState, Memory};
use serde_json::{Value, json};
use std::alloc::Global;

/// The jobs of each state.
pub fn jobs_value(alloc: Global, desk: &Desk) -> Result<Value, Memory>
    ensures { IfOk result (λ value. view value ≡ jobs_object desk.now.tables) }
{
    let states = job_states(alloc, desk)?;
    value_of_states(alloc, &states)
}

// How many of these are each state.
fn value_of_states(alloc: Global, states: &[Option<JobState>]) -> Result<Value, Memory>
    ensures { IfOk result (λ value. view value ≡ by_job_state (λ state. count_by (stands_in (place_of state)) states.now)) }
{
    let active = jobs_in(states, JobState::Active);
    let canceled = jobs_in(states, JobState::Canceled);
    let failed = jobs_in(states, JobState::Failed);
    let finished = jobs_in(states, JobState::Finished);
    let dirty = jobs_in(states, JobState::FinishedDirty);
    let submitted = jobs_in(states, JobState::Submitted);
    let value = json!(in alloc; {
        "ACTIVE": active,
        "CANCELED": canceled,
        "FAILED": failed,
        "FINISHED": finished,
        "FINISHEDDIRTY": dirty,
        "SUBMITTED": submitted
    })?;
    Ok(value)
}

/// The rows of each state.
pub fn files_value(alloc: Global, rows: &[FileRow]) -> Result<Value, Memory>
    ensures { IfOk result (λ value. view value ≡ files_object rows.now) }
{
    let active = rows_in(rows, FileState::Active);
    let canceled = rows_in(rows, FileState::Canceled);
    let failed = rows_in(rows, FileState::Failed);
    let finished = rows_in(rows, FileState::Finished);
    let not_used = rows_in(rows, FileState::NotUsed);
    let submitted = rows_in(rows, FileState::Submitted);
    let value = json!(in alloc; {
        "ACTIVE": active,
        "CANCELED": canceled,
        "FAILED": failed,
        "FINISHED": finished,
        "NOT_USED": not_used,
        "SUBMITTED": submitted
    })?;
    Ok(value)
}
