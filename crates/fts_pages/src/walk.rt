//! The walk over the jobs that match. It ends where one more is found than may be shown, and where so many jobs were looked at.
//! Keeps: what is listed so far, and what matches of the rest, is what matches of all (`list_matching`).
ghost use Rattle.std.specs.Prelude.{◌≡◌, ◌≤◌, ◌+◌, ◌++◌, Some, IfOk, OnOk, map, take, length, option_map, string_bytes};
ghost use Rattle.std.specs.Option.{option_to_list};
ghost use Rattle.std.specs.List.{list_any, slice_range};
ghost use Rattle.serde_json.specs.View.{view};
ghost use Rattle.fts_tables.specs.Tables.{job_at};
ghost use Rattle.fts_pages.specs.Pages.{question_of, is_in, is_at, is_on, has_reason, is_asked, in_order, matching, job_shown};
ghost use Rattle.fts_pages.specs.Walk.{shown_if_asked};

use crate::asked::PageAsked;
use crate::groups::group_of;
use crate::objects::job_shown;
use crate::places::{Places, place_at};
use fts_chronicle::Chronicle;
use fts_desk::Desk;
use fts_routes::{job_state_text, state_of};
use fts_tables::{FileRow, JobRow, JobState, Memory};
use serde_json::Value;
use std::alloc::Global;

/// The jobs that match among the first so many at these places, in the order asked for: as many as may be shown, and one more where there is one.
pub fn list_matching(
    alloc: Global,
    desk: &Desk,
    chronicle: &Chronicle,
    asked: &PageAsked,
    places: Places,
    most: usize,
) -> Result<Vec<Value>, Memory>
    requires order { places.first ≤ places.last }
    requires inside { places.last ≤ length desk.now.tables.jobs }
    ensures { IfOk result (λ list. map view list.items ≡ map (job_shown desk.now.tables chronicle.now.told.finishes) (take (asked.now.limit + 1)
        (matching most desk.now.tables (question_of asked.now) (in_order asked.now.newest (slice_range desk.now.tables.jobs places.first places.last))))) }
{
    // Jobs are numbered in their order.
    desk.standing();
    let jobs = desk.jobs();
    let count = most.min(places.last - places.first);
    let mut list = Vec::new(alloc);
    for turn in 0..count {
        if list.as_slice().len() > asked.limit {
            break;
        }
        let place = place_at(places, asked.newest, turn);
        let value = value_if_asked(alloc, desk, chronicle, asked, &jobs[place])?;
        add(&mut list, value)?;
    }
    Ok(list)
}

/// Appends a value, where there is one.
fn add(list: &mut Vec<Value>, value: Option<Value>) -> Result<(), Memory>
    ensures { OnOk result (list.new.items ≡ list.old.items ++ option_to_list value) }
{
    match value {
        None => Ok(()),
        Some(value) => match list.push(value) {
            Ok(()) => Ok(()),
            Err(_) => Err(Memory),
        },
    }
}

/// A job as it is shown, where it matches.
fn value_if_asked(
    alloc: Global,
    desk: &Desk,
    chronicle: &Chronicle,
    asked: &PageAsked,
    job: &JobRow,
) -> Result<Option<Value>, Memory>
    requires { job_at desk.now.tables.jobs job.now.number ≡ Some job.now }
    ensures { IfOk result (λ value. option_map view value ≡ shown_if_asked desk.now.tables chronicle.now.told.finishes (question_of asked.now) job.now) }
{
    if is_asked(desk, asked, job) {
        let value = job_shown(alloc, desk, chronicle, job)?;
        Ok(Some(value))
    } else {
        Ok(None)
    }
}

/// Whether a job matches.
fn is_asked(desk: &Desk, asked: &PageAsked, job: &JobRow) -> bool
    requires { job_at desk.now.tables.jobs job.now.number ≡ Some job.now }
    ensures { result ≡ is_asked desk.now.tables (question_of asked.now) job.now }
{
    is_in(asked.state, state_of(desk, job))
        && any_on(asked, desk.job_rows(job.number))
        && any_has_reason(asked, desk.job_rows(job.number))
}

/// Whether a state is the one that is asked for.
fn is_in(wanted: Option<JobState>, state: JobState) -> bool
    ensures { result ≡ is_in wanted state }
{
    match wanted {
        None => true,
        Some(wanted) => job_state_text(wanted) == job_state_text(state),
    }
}

/// Whether one of these files is on the way that is asked for.
fn any_on(asked: &PageAsked, rows: &[FileRow]) -> bool
    ensures { result ≡ list_any (is_on (question_of asked.now)) rows.now }
{
    rows.iter().any(|row| is_on(asked, row))
}

/// Whether a file is on the way that is asked for.
fn is_on(asked: &PageAsked, row: &FileRow) -> bool
    ensures { result ≡ is_on (question_of asked.now) row.now }
{
    is_at(&asked.source, row.source.endpoint.as_str())
        && is_at(&asked.destination, row.dest.endpoint.as_str())
}

/// Whether one of these files stands with a reason of the group that is asked for.
fn any_has_reason(asked: &PageAsked, rows: &[FileRow]) -> bool
    ensures { result ≡ list_any (has_reason (question_of asked.now)) rows.now }
{
    rows.iter().any(|row| has_reason(asked, row))
}

/// Whether a file stands with a reason of the group that is asked for.
fn has_reason(asked: &PageAsked, row: &FileRow) -> bool
    ensures { result ≡ has_reason (question_of asked.now) row.now }
{
    is_at(&asked.reason, group_of(row.reason))
}

/// Whether a name is the one that is asked for.
fn is_at(wanted: &Option<String>, name: &str) -> bool
    ensures { result ≡ is_at (option_map string_bytes wanted.now) name.now }
{
    match wanted {
        None => true,
        Some(wanted) => wanted.as_str() == name,
    }
}
