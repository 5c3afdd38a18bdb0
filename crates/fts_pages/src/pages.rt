//! Pages of jobs, and the page of one job, as text (`specs/Pages.antt`).
//! A request costs what it looks at: the jobs behind the one asked for are found by their numbers, and at most `MAX_LOOKED_AT` of them are looked at.
ghost use Rattle.std.specs.Prelude.{◌≡◌, ◌≤◌, ◌<◌, Some, IfOk, length, option_map, false};
ghost use Rattle.std.specs.List.{slice_range};
ghost use Rattle.serde_json.specs.Data.{array};
ghost use Rattle.serde_json.specs.View.{view, items_view};
ghost use Rattle.serde_json.specs.Written.{has_float};
ghost use Rattle.fts_routes.specs.Json.{body_of};
ghost use Rattle.fts_routes.specs.Routes.{job_named};
ghost use Rattle.fts_pages.specs.Pages.{question_of, in_order, jobs_behind, goes_on, id_of, page_by, page_of, page_text, job_text};

use crate::asked::PageAsked;
use crate::objects::job_with_files;
use crate::places::{Places, place_at, places_behind};
use crate::walk::list_matching;
use fts_board::id_text;
use fts_chronicle::Chronicle;
use fts_desk::Desk;
use fts_routes::job_named;
use fts_tables::{JobRow, Memory};
use serde_json::{Map, Value, json};
use std::alloc::Global;

/// At most this many jobs are looked at for one page.
pub const MAX_LOOKED_AT: usize = 10_000;

/// The page of the jobs that are asked for, as JSON: `jobs` in the order asked for, `more`, whether a further one is known to match, and `next`, the id of
/// the job to ask on behind where the look ended at its bound, or null, by what entries told. It fails for want of memory alone.
pub fn jobs_page(
    alloc: Global,
    desk: &Desk,
    chronicle: &Chronicle,
    asked: &PageAsked,
) -> Result<Vec<u8>, Memory>
    ensures { IfOk result (λ page. page.items ≡ page_text MAX_LOOKED_AT desk.now.tables chronicle.now.told.finishes (question_of asked.now)) }
{
    let value = page_value(alloc, desk, chronicle, asked, MAX_LOOKED_AT)?;
    text_of(alloc, &value)
}

/// The page of the job that a text names by its id, as JSON, with its files and what happened to them, by what entries told; none where no job has
/// the id. It fails for want of memory alone.
pub fn job_page(
    alloc: Global,
    desk: &Desk,
    chronicle: &Chronicle,
    id: &str,
) -> Result<Option<Vec<u8>>, Memory>
    ensures { IfOk result (λ page. option_map (λ text. text.items) page
        ≡ option_map (job_text desk.now.tables chronicle.now.told) (job_named desk.now.tables id.now)) }
{
    match job_named(desk, id) {
        None => Ok(None),
        Some(job) => {
            let value = job_with_files(alloc, desk, chronicle, &job)?;
            let text = text_of(alloc, &value)?;
            Ok(Some(text))
        }
    }
}

/// The text of a value, which has no float.
fn text_of(alloc: Global, value: &Value) -> Result<Vec<u8>, Memory>
    requires { has_float (view value.now) ≡ false }
    ensures { IfOk result (λ text. text.items ≡ body_of (view value.now)) }
{
    let text = value.to_vec(alloc)?;
    Ok(text)
}

/// The page of the jobs that are asked for, where so many are looked at.
fn page_value(
    alloc: Global,
    desk: &Desk,
    chronicle: &Chronicle,
    asked: &PageAsked,
    most: usize,
) -> Result<Value, Memory>
    requires { 0 < most }
    ensures { IfOk result (λ value. view value ≡ page_of most desk.now.tables chronicle.now.told.finishes (question_of asked.now)
        (jobs_behind desk.now.tables (question_of asked.now))) }
{
    let places = places_behind(desk, asked);
    let mut list = list_matching(alloc, desk, chronicle, asked, places, most)?;
    let more = list.as_slice().len() > asked.limit;
    list.truncate(asked.limit);
    let next = next_value(alloc, desk, asked.newest, places, most, more)?;
    value_of_page(alloc, list, more, next)
}

/// The id of the job to go on behind, where there is one.
fn next_value(
    alloc: Global,
    desk: &Desk,
    newest: bool,
    places: Places,
    most: usize,
    more: bool,
) -> Result<Value, Memory>
    requires some { 0 < most }
    requires order { places.first ≤ places.last }
    requires inside { places.last ≤ length desk.now.tables.jobs }
    ensures { IfOk result (λ value. view value ≡ id_of (goes_on most more (in_order newest (slice_range desk.now.tables.jobs places.first places.last)))) }
{
    if more || places.last - places.first <= most {
        return Ok(Value::Null);
    }
    let place = place_at(places, newest, most - 1);
    id_value(alloc, &desk.jobs()[place])
}

/// The id of a job.
fn id_value(alloc: Global, job: &JobRow) -> Result<Value, Memory>
    ensures { IfOk result (λ value. view value ≡ id_of (Some job.now)) }
{
    let text = id_text(alloc, job.id)?;
    Ok(Value::String(text))
}

/// A page by its parts.
fn value_of_page(alloc: Global, list: Vec<Value>, more: bool, next: Value) -> Result<Value, Memory>
    ensures { IfOk result (λ value. view value ≡ page_by (array (items_view list.items)) more (view next)) }
{
    let mut map = Map::new(alloc);
    let more = json!(in alloc; more)?;
    serde_json::put(&mut map, alloc, "jobs", Value::Array(list))?;
    serde_json::put(&mut map, alloc, "more", more)?;
    serde_json::put(&mut map, alloc, "next", next)?;
    Ok(Value::Object(map))
}
