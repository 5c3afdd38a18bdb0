//! What the query of a request asks of a topic (`application/x-www-form-urlencoded`, URL Standard). Of pairs with one name the first counts, others are
//! passed over, and a value that is absent or empty asks for nothing in particular. `specs/Queries.antt` says which queries are read.
ghost use Rattle.std.specs.Prelude.{◌≡◌, IfOk, option_map, option_copied, string_bytes};
ghost use Rattle.std.specs.Cow.{cow_str_bytes};
ghost use Rattle.fts_board.specs.History.{history_text};
ghost use Rattle.fts_pages.specs.Pages.{question_of as jobs_question_of};
ghost use Rattle.fts_panel.specs.Queries.{given, step_by, step_in, count_in, history_asked, state_named, number_named, newest_in, optional, group_named, jobs_asked, id_in};

use fts_board::{HistoryAsked, StepLength, history};
use fts_chronicle::CopyReport;
use fts_desk::Desk;
use fts_pages::{PageAsked, is_group};
use fts_routes::{bytes_of, first_value, job_named, number_in};
use fts_tables::{JobState, Memory};
use std::alloc::Global;
use std::borrow::CowStr;

/// The value of a name; none where it is absent or empty.
pub fn given<'q>(
    alloc: Global,
    query: Option<&'q str>,
    name: &str,
) -> Result<Option<CowStr<'q>>, Memory>
    ensures { IfOk result (λ value. option_map cow_str_bytes value ≡ given name.now (option_copied query.entry)) }
{
    match first_value(alloc, bytes_of(query), name)? {
        Some(value) => {
            if value.as_str().is_empty() {
                Ok(None)
            } else {
                Ok(Some(value))
            }
        }
        None => Ok(None),
    }
}

/// How long a step of a history is; none where the text is none of the lengths.
pub fn step_in(text: &Option<CowStr<'_>>) -> Option<StepLength>
    ensures { result ≡ step_in (option_map cow_str_bytes text.now) }
{
    match text {
        None => Some(StepLength::Minute),
        Some(text) => step_by(number_in(text.as_str(), 4)?),
    }
}

/// The step of so many seconds; none where there is none so long.
fn step_by(seconds: u64) -> Option<StepLength>
    ensures { result ≡ step_by seconds }
{
    if seconds == 60 {
        Some(StepLength::Minute)
    } else if seconds == 600 {
        Some(StepLength::TenMinutes)
    } else if seconds == 3_600 {
        Some(StepLength::Hour)
    } else {
        None
    }
}

/// A number from 1 to a greatest one; none where the text is no such number.
pub fn count_in(usual: u64, most: u64, text: &Option<CowStr<'_>>) -> Option<u64>
    ensures { result ≡ count_in usual most (option_map cow_str_bytes text.now) }
{
    match text {
        None => Some(usual),
        Some(text) => match number_in(text.as_str(), 3) {
            Some(number) if 1 <= number && number <= most => Some(number),
            _ => None,
        },
    }
}

/// The state of a job that a word names.
fn state_named(word: &str) -> Option<JobState>
    ensures { result ≡ state_named word.now }
{
    if word == "SUBMITTED" {
        Some(JobState::Submitted)
    } else if word == "ACTIVE" {
        Some(JobState::Active)
    } else if word == "FINISHED" {
        Some(JobState::Finished)
    } else if word == "FINISHEDDIRTY" {
        Some(JobState::FinishedDirty)
    } else if word == "FAILED" {
        Some(JobState::Failed)
    } else if word == "CANCELED" {
        Some(JobState::Canceled)
    } else {
        None
    }
}

/// What is read of a value that may be absent; none where it is there and is nothing.
fn state_in(text: &Option<CowStr<'_>>) -> Option<Option<JobState>>
    ensures { result ≡ optional state_named (option_map cow_str_bytes text.now) }
{
    match text {
        None => Some(None),
        Some(word) => Some(Some(state_named(word.as_str())?)),
    }
}

/// What is read of a group of reasons that may be absent; `Ok(None)` exactly where it is there and is none.
fn group_in(alloc: Global, text: &Option<CowStr<'_>>) -> Result<Option<Option<String>>, Memory>
    ensures { IfOk result (λ group. option_map (option_map string_bytes) group ≡ optional group_named (option_map cow_str_bytes text.now)) }
{
    match text {
        None => Ok(Some(None)),
        Some(word) => {
            if is_group(word.as_str()) {
                Ok(Some(Some(String::from_str(alloc, word.as_str())?)))
            } else {
                Ok(None)
            }
        }
    }
}

/// The number of the job that an id names, where one is named; none where no job has the id.
fn after_in(desk: &Desk, text: &Option<CowStr<'_>>) -> Option<Option<u32>>
    ensures { result ≡ optional (number_named desk.now.tables) (option_map cow_str_bytes text.now) }
{
    match text {
        None => Some(None),
        Some(id) => Some(Some(job_named(desk, id.as_str())?.number)),
    }
}

/// Whether the newest come first; none where the text is neither `true` nor `false`.
fn newest_in(text: &Option<CowStr<'_>>) -> Option<bool>
    ensures { result ≡ newest_in (option_map cow_str_bytes text.now) }
{
    match text {
        None => Some(false),
        Some(text) => {
            if text.as_str() == "true" {
                Some(true)
            } else if text.as_str() == "false" {
                Some(false)
            } else {
                None
            }
        }
    }
}

/// A text of its own, of a value.
fn owned(alloc: Global, text: &Option<CowStr<'_>>) -> Result<Option<String>, Memory>
    ensures { IfOk result (λ owned. option_map string_bytes owned ≡ option_map cow_str_bytes text.now) }
{
    match text {
        None => Ok(None),
        Some(text) => Ok(Some(String::from_str(alloc, text.as_str())?)),
    }
}

/// The jobs that a query asks for; `Ok(None)` exactly where it asks for none.
pub fn jobs_asked(
    alloc: Global,
    desk: &Desk,
    query: Option<&str>,
) -> Result<Option<PageAsked>, Memory>
    ensures { IfOk result (λ asked. option_map jobs_question_of asked ≡ jobs_asked desk.now.tables (option_copied query.entry)) }
{
    let Some(state) = state_in(&given(alloc, query, "state")?) else {
        return Ok(None);
    };
    let Some(reason) = group_in(alloc, &given(alloc, query, "reason")?)? else {
        return Ok(None);
    };
    let Some(after) = after_in(desk, &given(alloc, query, "after")?) else {
        return Ok(None);
    };
    let Some(newest) = newest_in(&given(alloc, query, "newest")?) else {
        return Ok(None);
    };
    let Some(limit) = count_in(25, 200, &given(alloc, query, "limit")?) else {
        return Ok(None);
    };
    Ok(Some(PageAsked {
        state,
        source: owned(alloc, &given(alloc, query, "source")?)?,
        destination: owned(alloc, &given(alloc, query, "destination")?)?,
        reason,
        after,
        newest,
        limit: limit as usize,
    }))
}

/// The text of the history that a query asks for, of these reports at a moment, in seconds since 1970; `Ok(None)` exactly where it asks for none.
pub fn history_asked(
    alloc: Global,
    desk: &Desk,
    reports: &[CopyReport],
    query: Option<&str>,
    now: u64,
) -> Result<Option<Vec<u8>>, Memory>
    ensures { IfOk result (λ text. option_map (λ text. text.items) text
        ≡ option_map (λ asked. history_text desk.now.tables.rows reports.now asked now) (history_asked (option_copied query.entry))) }
{
    let Some(step) = step_in(&given(alloc, query, "step")?) else {
        return Ok(None);
    };
    let Some(count) = count_in(60, 240, &given(alloc, query, "count")?) else {
        return Ok(None);
    };
    let source = given(alloc, query, "source")?;
    let destination = given(alloc, query, "destination")?;
    let asked = HistoryAsked {
        source: text_of(&source),
        destination: text_of(&destination),
        step,
        count: count as u32,
    };
    Ok(Some(history(alloc, desk, reports, asked, now)?))
}

/// The text of a value.
fn text_of<'t>(text: &'t Option<CowStr<'_>>) -> Option<&'t str>
    ensures { option_copied result ≡ option_map cow_str_bytes text.now }
{
    match text {
        None => None,
        Some(text) => Some(text.as_str()),
    }
}

/// The id in a path `/jobs/ID`.
pub fn id_in(path: &str) -> Option<&str>
    ensures { option_copied result ≡ id_in path.now }
{
    let (before, rest) = path.split_once('/')?;
    if !before.is_empty() {
        return None;
    }
    let (jobs, id) = rest.split_once('/')?;
    if jobs == "jobs" { Some(id) } else { None }
}
