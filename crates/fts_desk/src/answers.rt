//! What the tables answer without changing: the rows and the state of a job, the jobs in a state, and what a link holds.
ghost use Rattle.std.specs.Prelude.{◌≡◌, ◌↔◌, ◌≤◌, [], length, slice_get, Some, None, option_map};
ghost use Rattle.fts_tables.specs.Tables.{AreWellFormed, rows_of_job, job_at};
ghost use Rattle.fts_tables.specs.Limits.{held};
ghost use Rattle.fts_tables.specs.declared.limits.TheConstants.{MAX_ROWS};
ghost use Rattle.fts_desk.specs.Kept.{tables_kept};
ghost use Rattle.fts_desk.specs.Bounds.{HaveFiles};
ghost use Rattle.fts_desk.specs.DeskData.{state_at, name_at, held_at};
ghost use Rattle.fts_desk.specs.JobsIn.{next_asked, count_in_state};

use crate::job_states::JOB_STATES;
use crate::kept::Kept;
use crate::lookups::{find_job, rows_of_job, rows_stand_together};
use fts_states::job_state;
use fts_tables::{FileRow, JobRow, JobState, LinkAt, Settings};

/// The rows of the job of a number, and none where there is no such job.
pub fn rows_of_number(kept: &Kept, number: u32) -> &[FileRow]
    requires formed { AreWellFormed (tables_kept kept.now) }
    requires files { HaveFiles kept.now.jobs.items }
    ensures rows { result.now ≡ rows_of_job kept.now.rows.items number }
    ensures none { (result.now ≡ []) ↔ (job_at kept.now.jobs.items number ≡ None) }
{
    rows_stand_together();
    match find_job(&kept.jobs, number) {
        Some(job) => rows_of_job(&kept.rows, job),
        None => &[],
    }
}

/// The state of the job of a number.
pub fn state_of(kept: &Kept, number: u32) -> Option<JobState>
    requires formed { AreWellFormed (tables_kept kept.now) }
    requires files { HaveFiles kept.now.jobs.items }
    ensures state { result ≡ state_at (tables_kept kept.now) number }
{
    rows_stand_together();
    match find_job(&kept.jobs, number) {
        Some(job) => Some(job_state(rows_of_job(&kept.rows, job), job.kind)),
        None => None,
    }
}

/// The first job behind so many that is in one of these states, told by their ranks: no other job is looked at.
pub fn next_in_states<'a>(
    kept: &'a Kept,
    asked: &[bool; JOB_STATES],
    behind: u32,
) -> Option<&'a JobRow>
    ensures job { option_map (λ job. job.now) result ≡ next_asked (tables_kept kept.now) asked.now behind }
{
    match kept.beside.counts.states.next(asked, behind) {
        Some(place) => job_on_place(&kept.jobs, place as usize),
        None => None,
    }
}

/// The job at a place, from 0, where there is one.
fn job_on_place(jobs: &[JobRow], place: usize) -> Option<&JobRow>
    ensures job { option_map (λ job. job.now) result ≡ slice_get jobs.now place }
{
    jobs.get(place)
}

/// How many jobs are in a state.
pub fn count_in_state(kept: &Kept, state: JobState) -> usize
    ensures count { result ≡ count_in_state (tables_kept kept.now) state }
{
    kept.beside.counts.states.count(state)
}

/// The name of the endpoint at a place of the settings, where there is one.
fn name_at(settings: Option<&Settings>, place: u16) -> Option<&str>
    ensures name { option_map (λ name. name.now) result ≡ name_at (option_map (λ settings. settings.now) settings.entry) place }
{
    match settings?.endpoints.as_slice().get(usize::from(place)) {
        Some(endpoint) => Some(endpoint.name.as_str()),
        None => None,
    }
}

/// How many ACTIVE rows go from one endpoint to another.
fn held_between(rows: &[FileRow], source: &str, dest: &str) -> usize
    ensures count { result ≡ held rows.now source.now dest.now }
    ensures few { result ≤ length rows.now }
{
    rows.iter()
        .filter(|row| row.state.is_active() && row.is_on_link(source, dest))
        .count()
}

/// How many ACTIVE rows a link has, and none where the settings have no such places.
pub fn held_on_link(kept: &Kept, link: LinkAt) -> u32
    requires few { length kept.now.rows.items ≤ MAX_ROWS }
    ensures count { result ≡ held_at (tables_kept kept.now) link }
{
    let source = name_at(kept.settings.as_ref(), link.source);
    let dest = name_at(kept.settings.as_ref(), link.dest);
    match (source, dest) {
        (Some(source), Some(dest)) => held_between(&kept.rows, source, dest) as u32,
        (Some(_), None) | (None, Some(_)) | (None, None) => 0,
    }
}
