//! Jobs by their states. A job's state is a walk over its rows, and asked once.
ghost use Rattle.std.specs.Prelude.{◌≡◌, map, count_by, IfOk};
ghost use Rattle.fts_desk.specs.DeskData.{state_at};
ghost use Rattle.fts_counts.specs.Jobs.{place_of, stands_in};

use fts_desk::{Desk, rank};
use fts_tables::{JobState, Memory};
use std::alloc::Global;

/// The state of each job, in their order. It fails for want of memory alone.
pub fn job_states(alloc: Global, desk: &Desk) -> Result<Vec<Option<JobState>>, Memory>
    ensures { IfOk result (λ states. states.items ≡ map (λ job. state_at desk.now.tables job.number) desk.now.tables.jobs) }
{
    let states = desk
        .jobs()
        .iter()
        .map(|job| desk.state(job.number))
        .collect(alloc)?;
    Ok(states)
}

/// How many of these are a state.
pub fn jobs_in(states: &[Option<JobState>], state: JobState) -> u64
    ensures { result ≡ count_by (stands_in (place_of state)) states.now }
{
    let place = rank(state);
    states
        .iter()
        .filter(|found| stands_in(place, **found))
        .count() as u64
}

// Whether this is the state of a place.
fn stands_in(place: usize, found: Option<JobState>) -> bool
    ensures { result ≡ stands_in place found }
{
    match found {
        Some(state) => rank(state) == place,
        None => false,
    }
}
