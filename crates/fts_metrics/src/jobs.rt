//! `fts_jobs`: the jobs by their states, each of them by its rows.
ghost use Rattle.std.specs.Prelude.{◌≡◌, ◌++◌, count_by, OnOk};
ghost use Rattle.fts_counts.specs.Jobs.{place_of, stands_in};
ghost use Rattle.fts_metrics.specs.Metrics.{jobs_sample, jobs_text};

use crate::lines::{label_of, put_head, put_sample};
use fts_counts::{job_states, jobs_in};
use fts_desk::Desk;
use fts_tables::{JobState, Memory};
use std::alloc::Global;

/// What there is of `fts_jobs`.
pub fn put_jobs(alloc: Global, text: &mut Vec<u8>, desk: &Desk) -> Result<(), Memory>
    ensures { OnOk result (text.new.items ≡ text.old.items ++ jobs_text desk.now.tables) }
{
    put_head(text, "fts_jobs", "Jobs by state.", "gauge")?;
    let states = job_states(alloc, desk)?;
    put_state(alloc, text, &states, "SUBMITTED", JobState::Submitted)?;
    put_state(alloc, text, &states, "ACTIVE", JobState::Active)?;
    put_state(alloc, text, &states, "FINISHED", JobState::Finished)?;
    put_state(
        alloc,
        text,
        &states,
        "FINISHEDDIRTY",
        JobState::FinishedDirty,
    )?;
    put_state(alloc, text, &states, "FAILED", JobState::Failed)?;
    put_state(alloc, text, &states, "CANCELED", JobState::Canceled)?;
    Ok(())
}

// A sample of how many of these are a state, by its word.
fn put_state(
    alloc: Global,
    text: &mut Vec<u8>,
    states: &[Option<JobState>],
    word: &str,
    state: JobState,
) -> Result<(), Memory>
    ensures { OnOk result (text.new.items ≡ text.old.items ++ jobs_sample word.now (count_by (stands_in (place_of state)) states.now)) }
{
    let labels = label_of(alloc, "state", word)?;
    put_sample(text, "fts_jobs", &labels, jobs_in(states, state))
}
