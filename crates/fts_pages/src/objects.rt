//! Jobs as pages show them: the service's object of a job, with how many of its files are in each state, or with the files and what happened to each too.
//! Each is a definition of `specs/Pages.antt`.
ghost use Rattle.std.specs.Prelude.{◌≡◌, Some, IfOk, option_map, unwrap_or};
ghost use Rattle.serde_json.specs.Data.{array};
ghost use Rattle.serde_json.specs.View.{view};
ghost use Rattle.fts_tables.specs.Tables.{job_at};
ghost use Rattle.fts_routes.specs.Objects.{settings_in};
ghost use Rattle.fts_routes.specs.Json.{array_of};
ghost use Rattle.fts_pages.specs.Events.{events_of_row};
ghost use Rattle.fts_pages.specs.Pages.{with_member, job_shown, file_with_events, file_shown, job_with_files};

use crate::events::{EventShown, MAX_EVENTS, events_of_job, events_of_row};
use fts_board::files_value;
use fts_chronicle::{Chronicle, CopyReport, FileEvent};
use fts_desk::Desk;
use fts_routes::{Shown, array_value, job_value, state_of};
use fts_tables::{FileRow, JobRow, Memory};
use serde_json::{Value, json};
use std::alloc::Global;

/// A job as it stands, with how many of its files are in each state, and when it was settled, by what entries told.
pub fn job_shown(
    alloc: Global,
    desk: &Desk,
    chronicle: &Chronicle,
    job: &JobRow,
) -> Result<Value, Memory>
    requires { job_at desk.now.tables.jobs job.now.number ≡ Some job.now }
    ensures { IfOk result (λ value. view value ≡ job_shown desk.now.tables chronicle.now.told.finishes job.now) }
{
    let state = state_of(desk, job);
    let value = job_value(alloc, job, state, job.priority, vo_of(desk))?;
    let counts = files_value(alloc, desk.job_rows(job.number))?;
    let value = with_member(alloc, value, "files_by_state", counts)?;
    let finish = json!(in alloc; chronicle.finish(job.number))?;
    with_member(alloc, value, "finish_time", finish)
}

/// A job as it stands, with its files, by what entries told.
pub fn job_with_files(
    alloc: Global,
    desk: &Desk,
    chronicle: &Chronicle,
    job: &JobRow,
) -> Result<Value, Memory>
    requires { job_at desk.now.tables.jobs job.now.number ≡ Some job.now }
    ensures { IfOk result (λ value. view value ≡ job_with_files desk.now.tables chronicle.now.told job.now) }
{
    let value = job_shown(alloc, desk, chronicle, job)?;
    let reports = chronicle.reports();
    let events = events_of_job(alloc, reports, job, chronicle.events())?;
    let files = rows_value(alloc, reports, job, &events, desk.job_rows(job.number))?;
    with_member(alloc, value, "files", files)
}

/// Rows of a job, by the job's events and the reports.
fn rows_value(
    alloc: Global,
    reports: &[CopyReport],
    job: &JobRow,
    events: &[FileEvent],
    rows: &[FileRow],
) -> Result<Value, Memory>
    ensures { IfOk result (λ value. view value ≡ array_of (file_shown reports.now job.now events.now) rows.now) }
{
    let mut list = Vec::new(alloc);
    for row in rows {
        let value = file_shown(alloc, reports, job, events, row)?;
        if list.push(value).is_err() {
            return Err(Memory);
        }
    }
    Ok(Value::Array(list))
}

/// A row of a job, by the job's events and the reports.
fn file_shown(
    alloc: Global,
    reports: &[CopyReport],
    job: &JobRow,
    events: &[FileEvent],
    row: &FileRow,
) -> Result<Value, Memory>
    ensures { IfOk result (λ value. view value ≡ file_shown reports.now job.now events.now row.now) }
{
    let events = events_of_row(alloc, reports, job, row, events)?;
    file_with_events(alloc, row, &events)
}

/// A file as it stands, with its newest events.
fn file_with_events(alloc: Global, row: &FileRow, events: &[EventShown]) -> Result<Value, Memory>
    ensures { IfOk result (λ value. view value ≡ file_with_events row.now events.now) }
{
    let left_out = events.len().saturating_sub(MAX_EVENTS);
    let newest = array_value(alloc, &events[left_out..])?;
    let value = row.value(alloc)?;
    let value = with_member(alloc, value, "events", newest)?;
    let left_out = json!(in alloc; left_out as u64)?;
    with_member(alloc, value, "events_left_out", left_out)
}

/// The VO of the settings in force.
fn vo_of(desk: &Desk) -> &str
    ensures { result.now ≡ (settings_in desk.now.tables).vo }
{
    match desk.settings() {
        Some(settings) => settings.vo.as_str(),
        None => "",
    }
}

/// An object with a member more. What is no object stays as it is.
pub fn with_member(alloc: Global, value: Value, key: &str, member: Value) -> Result<Value, Memory>
    ensures { IfOk result (λ whole. view whole ≡ with_member key.now (view member) (view value)) }
{
    match value {
        Value::Null => Ok(Value::Null),
        Value::Bool(flag) => Ok(Value::Bool(flag)),
        Value::Number(number) => Ok(Value::Number(number)),
        Value::String(text) => Ok(Value::String(text)),
        Value::Array(items) => Ok(Value::Array(items)),
        Value::Object(mut map) => {
            serde_json::put(&mut map, alloc, key, member)?;
            Ok(Value::Object(map))
        }
    }
}
