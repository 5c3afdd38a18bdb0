//! Commands, each with the reply that shows what it leaves, made before the command is applied: so no 500 follows an accepted command.
//! What a cancellation or a priority leaves of a job follows from its rows before it (`specs/Changes.antt`); where the machine finds nothing
//! to change, the same reply shows the object as it is (`IsReady`).
ghost use Rattle.std.specs.Prelude.{◌≡◌, Some, IfOk, IsSome, IsTrue};
ghost use Rattle.fts_tables.specs.JobData.{is_priority};
ghost use Rattle.fts_tables.specs.Step.{with_priority};
ghost use Rattle.std.specs.List.{list_any};
ghost use Rattle.fts_tables.specs.Tables.{job_at, row_at, is_live, is_active};
ghost use Rattle.fts_tables.specs.Moves.{is_settled_job};
ghost use Rattle.fts_states.specs.Afters.{with_cancel};
ghost use Rattle.fts_routes.specs.Objects.{settings_in, job_in_state, accepted_object, file_object};
ghost use Rattle.fts_routes.specs.Refusals.{shows};
ghost use Rattle.fts_routes.specs.Replies.{cancellation, prioritization, file_cancellation, submission, id_of_new};
ghost use Rattle.fts_routes.specs.Changes.{state_once_cancelled, priority_once_set, file_once_cancelled};
ghost use Rattle.fts_routes.specs.Planned.{IsPlanned};

use crate::named::{settings_of, state_of};
use crate::objects::{accepted_value, file_value, job_value};
use crate::planned::Planned;
use crate::replies::shows;
use fts_desk::{Desk, standard_id};
use fts_states::{CancelStep, after_cancel};
use fts_tables::{Command, FileRow, JobKind, JobRow, JobState, Memory, NewJob};
use fts_wire::Reply;
use std::alloc::Global;

/// A submission, with the reply that has the new job's id.
pub fn plan_submission(alloc: Global, desk: &Desk, now: u64, job: NewJob) -> Result<Planned, Memory>
    ensures { IfOk result (λ planned. IsPlanned desk.now.tables planned (submission desk.now.tables now job)) }
{
    let reply = accepted(alloc, id_of_new(desk, &job))?;
    let command = Command::Submit { now, job };
    Ok(Planned::Tries { command, reply })
}

fn accepted(alloc: Global, id: u128) -> Result<Reply, Memory>
    ensures { IfOk result (λ reply. reply ≡ shows (accepted_object id)) }
{
    let value = accepted_value(alloc, id)?;
    shows(alloc, &value)
}

/// The id that a job asks for, or else the standard one of the next number.
fn id_of_new(desk: &Desk, job: &NewJob) -> u128
    ensures { result ≡ id_of_new desk.now.tables job.now }
{
    match job.id {
        Some(id) => id,
        None => standard_id(desk.jobs().len() as u32 + 1),
    }
}

/// A cancellation of a job, with the reply that shows the job after it.
pub fn plan_cancellation(
    alloc: Global,
    desk: &Desk,
    now: u64,
    job: &JobRow,
) -> Result<Planned, Memory>
    requires settings { IsSome desk.now.tables.settings }
    requires number { job_at desk.now.tables.jobs job.now.number ≡ Some job.now }
    ensures { IfOk result (λ planned. IsPlanned desk.now.tables planned (cancellation now job.now)) }
{
    let rows = desk.job_rows(job.number);
    let state = state_once_cancelled(state_of(desk, job), rows);
    let reply = show_job(alloc, desk, job, state, job.priority)?;
    let command = Command::CancelJob {
        now,
        job: job.number,
    };
    Ok(Planned::Tries { command, reply })
}

/// Another priority for a job, with the reply that shows the job after it.
pub fn plan_priority(
    alloc: Global,
    desk: &Desk,
    now: u64,
    job: &JobRow,
    priority: u32,
) -> Result<Planned, Memory>
    requires settings { IsSome desk.now.tables.settings }
    requires number { job_at desk.now.tables.jobs job.now.number ≡ Some job.now }
    requires priority { IsTrue (is_priority priority) }
    ensures { IfOk result (λ planned. IsPlanned desk.now.tables planned (prioritization now job.now priority)) }
{
    let rows = desk.job_rows(job.number);
    let shown = priority_once_set(job.priority, priority, rows);
    let reply = show_job(alloc, desk, job, state_of(desk, job), shown)?;
    let command = Command::SetPriority {
        now,
        job: job.number,
        priority,
    };
    Ok(Planned::Tries { command, reply })
}

/// A cancellation of a file, with the reply that shows the file after it.
pub fn plan_file_cancellation(
    alloc: Global,
    desk: &Desk,
    now: u64,
    job: &JobRow,
    row: &FileRow,
) -> Result<Planned, Memory>
    requires number { job_at desk.now.tables.jobs job.now.number ≡ Some job.now }
    requires id { row_at desk.now.tables.rows row.now.id ≡ Some row.now }
    requires own { row.now.job ≡ job.now.number }
    ensures { IfOk result (λ planned. IsPlanned desk.now.tables planned (file_cancellation now job.now row.now)) }
{
    let step = cancel_step(job.kind, desk.job_rows(job.number), row);
    let reply = show_file(alloc, row, step)?;
    let command = Command::CancelFile {
        now,
        job: job.number,
        file: row.id,
    };
    Ok(Planned::Tries { command, reply })
}

/// The reply that shows a job in a state, with a priority.
fn show_job(
    alloc: Global,
    desk: &Desk,
    job: &JobRow,
    state: JobState,
    priority: u32,
) -> Result<Reply, Memory>
    requires settings { IsSome desk.now.tables.settings }
    ensures { IfOk result (λ reply. reply ≡ shows (job_in_state (settings_in desk.now.tables).vo state (with_priority priority job.now))) }
{
    let value = job_value(alloc, job, state, priority, settings_of(desk).vo.as_str())?;
    shows(alloc, &value)
}

/// The reply that shows a file after its part of a cancellation.
fn show_file(alloc: Global, row: &FileRow, step: CancelStep) -> Result<Reply, Memory>
    ensures { IfOk result (λ reply. reply ≡ shows (file_object (with_cancel row.now step))) }
{
    let value = file_value(alloc, row, step)?;
    shows(alloc, &value)
}

/// Whether a file waits or runs.
fn any_live(rows: &[FileRow]) -> bool
    ensures { result ≡ list_any (λ row. is_live row.state) rows.now }
{
    rows.iter().any(|row| row.state.is_live())
}

/// Whether a file runs.
fn any_active(rows: &[FileRow]) -> bool
    ensures { result ≡ list_any (λ row. is_active row.state) rows.now }
{
    rows.iter().any(|row| row.state.is_active())
}

/// Whether none of a job's rows is live.
fn is_settled(rows: &[FileRow]) -> bool
    ensures { result ≡ is_settled_job rows.now }
{
    !any_live(rows)
}

/// The state of a job in this state, with these rows, once its cancellation was tried.
fn state_once_cancelled(state: JobState, rows: &[FileRow]) -> JobState
    ensures { result ≡ state_once_cancelled state rows.now }
{
    if is_settled(rows) {
        state
    } else if any_active(rows) {
        JobState::Active
    } else {
        JobState::Canceled
    }
}

/// The priority of a job with these rows, once another was tried.
fn priority_once_set(old: u32, new: u32, rows: &[FileRow]) -> u32
    ensures { result ≡ priority_once_set old new rows.now }
{
    if is_settled(rows) { old } else { new }
}

/// What trying its cancellation does to a file of a job of a kind, with these rows.
fn cancel_step(kind: JobKind, rows: &[FileRow], row: &FileRow) -> CancelStep
    ensures { with_cancel row.now result ≡ file_once_cancelled kind rows.now row.now }
{
    match kind {
        JobKind::Plain => after_cancel(row),
        JobKind::Replica | JobKind::Multihop => {
            if is_settled(rows) {
                CancelStep::Stays
            } else {
                after_cancel(row)
            }
        }
    }
}
