//! Looks: what is shown of the tables, which stay as they are.
//! A job and its files are looked up and not searched for; a list of jobs in some states goes from one to the next up to its limit.
ghost use Rattle.std.specs.Prelude.{◌≡◌, ◌++◌, ◌∷◌, [], nat_lt, if◌then◌else◌, Some, None, IfOk, OnOk, IsSome, option_map};
ghost use Rattle.std.specs.Option.{option_copied};
ghost use Rattle.std.specs.Cow.{cow_str_bytes};
ghost use Rattle.serde_json.specs.View.{view};
ghost use Rattle.fts_tables.specs.Tables.{job_at};
ghost use Rattle.fts_desk.specs.JobsIn.{next_asked};
ghost use Rattle.fts_routes.specs.Json.{array_of};
ghost use Rattle.fts_routes.specs.Objects.{job_object};
ghost use Rattle.fts_routes.specs.Queries.{jobs_asked, asked_in, both, states_in, limit_in};
ghost use Rattle.fts_routes.specs.Refusals.{shows};
ghost use Rattle.fts_routes.specs.Found.{states_asked};
ghost use Rattle.fts_routes.specs.Replies.{Replies, jobs_plan};

use crate::named::{settings_of, state_of};
use crate::objects::{Shown, array_value, job_value};
use crate::queries::{are_known, asked_states, bytes_of, first_value, limit_of};
use crate::replies::{bad_limit, bad_states, shows};
use fts_desk::{Desk, JOB_STATES};
use fts_tables::{JobRow, Memory};
use fts_wire::Reply;
use serde_json::Value;
use std::alloc::Global;
use std::borrow::CowStr;

/// A look at a job.
pub fn look_at_job(alloc: Global, desk: &Desk, job: &JobRow) -> Result<Reply, Memory>
    requires settings { IsSome desk.now.tables.settings }
    requires number { job_at desk.now.tables.jobs job.now.number ≡ Some job.now }
    ensures { IfOk result (λ reply. reply ≡ shows (job_object desk.now.tables job.now)) }
{
    let value = value_of_job(alloc, desk, job)?;
    shows(alloc, &value)
}

/// A job as it stands.
fn value_of_job(alloc: Global, desk: &Desk, job: &JobRow) -> Result<Value, Memory>
    requires settings { IsSome desk.now.tables.settings }
    requires number { job_at desk.now.tables.jobs job.now.number ≡ Some job.now }
    ensures { IfOk result (λ value. view value ≡ job_object desk.now.tables job.now) }
{
    let state = state_of(desk, job);
    job_value(
        alloc,
        job,
        state,
        job.priority,
        settings_of(desk).vo.as_str(),
    )
}

/// A look at a list, item by item.
pub fn look_at_list<T: Shown>(alloc: Global, items: &[T]) -> Result<Reply, Memory>
    ensures { IfOk result (λ reply. reply ≡ shows (array_of T.shown items.now)) }
{
    let value = array_value(alloc, items)?;
    shows(alloc, &value)
}

/// A look at the jobs that a query asks for, or the refusal of the query.
pub fn look_at_jobs(alloc: Global, desk: &Desk, query: Option<&str>) -> Result<Reply, Memory>
    requires settings { IsSome desk.now.tables.settings }
    ensures { IfOk result (λ reply. jobs_plan desk.now.tables (asked_in (option_copied query.entry)) ≡ Replies reply) }
{
    let query = bytes_of(query);
    let states = first_value(alloc, query, "state_in")?;
    let limit = first_value(alloc, query, "limit")?;
    look_at_states(alloc, desk, &states, &limit)
}

/// A look at jobs in these states, up to this limit, or the refusal of one of them: of the states first.
fn look_at_states(
    alloc: Global,
    desk: &Desk,
    states: &Option<CowStr<'_>>,
    limit: &Option<CowStr<'_>>,
) -> Result<Reply, Memory>
    requires settings { IsSome desk.now.tables.settings }
    ensures { IfOk result (λ reply. jobs_plan desk.now.tables
        (both (states_in (option_map cow_str_bytes states.now)) (limit_in (option_map cow_str_bytes limit.now))) ≡ Replies reply) }
{
    if !are_known(states) {
        return bad_states(alloc);
    }
    match limit_of(limit) {
        None => bad_limit(alloc),
        Some(limit) => list_jobs(alloc, desk, states, limit),
    }
}

/// The first so many jobs in these states.
fn list_jobs(
    alloc: Global,
    desk: &Desk,
    states: &Option<CowStr<'_>>,
    limit: u64,
) -> Result<Reply, Memory>
    requires settings { IsSome desk.now.tables.settings }
    ensures { IfOk result (λ reply. reply ≡ shows (array_of (job_object desk.now.tables)
        (jobs_asked desk.now.tables (states_asked (option_map cow_str_bytes states.now)) limit))) }
{
    let value = value_of_jobs(alloc, desk, states, limit)?;
    shows(alloc, &value)
}

/// The values of the first so many jobs in these states: no job in another state is looked at.
fn value_of_jobs(
    alloc: Global,
    desk: &Desk,
    states: &Option<CowStr<'_>>,
    limit: u64,
) -> Result<Value, Memory>
    requires settings { IsSome desk.now.tables.settings }
    ensures { IfOk result (λ value. view value ≡ array_of (job_object desk.now.tables)
        (jobs_asked desk.now.tables (states_asked (option_map cow_str_bytes states.now)) limit)) }
{
    desk.standing();
    let asked = asked_states(states);
    let mut list = Vec::new(alloc);
    let mut behind = 0;
    while let Some(job) = next_shown(desk, &asked, behind, list.as_slice().len(), limit) {
        let value = value_of_job(alloc, desk, job)?;
        add(&mut list, value)?;
        behind = job.number;
    }
    Ok(Value::Array(list))
}

/// The next job in one of these states, told by their ranks, where so many are shown of so many at most.
fn next_shown<'a>(
    desk: &'a Desk,
    asked: &[bool; JOB_STATES],
    behind: u32,
    shown: usize,
    limit: u64,
) -> Option<&'a JobRow>
    ensures job { option_map (λ job. job.now) result ≡ (if nat_lt shown limit then next_asked desk.now.tables asked.now behind else None) }
{
    if shown as u64 >= limit {
        return None;
    }
    desk.next_job(asked, behind)
}

/// Appends a value.
fn add(list: &mut Vec<Value>, value: Value) -> Result<(), Memory>
    ensures { OnOk result (list.new.items ≡ list.old.items ++ value ∷ []) }
{
    match list.push(value) {
        Ok(()) => Ok(()),
        Err(_) => Err(Memory),
    }
}
