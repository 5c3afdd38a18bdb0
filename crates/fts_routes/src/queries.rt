//! The query of a look at the jobs (`application/x-www-form-urlencoded`, URL Standard): of pairs with one name the first counts, others are
//! passed over. `specs/Queries.antt` says which states and limits are read.
ghost use Rattle.std.specs.Prelude.{◌≡◌, ◌≤◌, [], IfOk, is_ok, option_map, unwrap_or};
ghost use Rattle.std.specs.Option.{option_copied};
ghost use Rattle.std.specs.Result.{result_ok};
ghost use Rattle.std.specs.Cow.{cow_str_bytes};
ghost use Rattle.std.specs.List.{list_all};
ghost use Rattle.form_urlencoded.specs.Form.{raw_pairs};
ghost use Rattle.fts_tables.specs.Names.{is_digit};
ghost use Rattle.fts_tables.specs.declared.rows.JobState.{JobState};
ghost use Rattle.fts_desk.specs.JobLists.{is_among};
ghost use Rattle.fts_routes.specs.Queries.{first_named, number_in, states_in, limit_in, is_one_of, job_states, between_commas};
ghost use Rattle.fts_routes.specs.Found.{states_asked};
ghost use Rattle.fts_routes.specs.Objects.{job_state_text};

use crate::texts::job_state_text;
use fts_desk::JOB_STATES;
use fts_tables::{JobState, Memory};
use std::alloc::Global;
use std::borrow::CowStr;

/// So many jobs are shown where no number is asked for.
const DEFAULT_LIMIT: u64 = 100;

/// So many jobs are shown at most.
const MAX_LIMIT: u64 = 1_000;

/// The value of the first pair with this name.
pub fn first_value<'q>(
    alloc: Global,
    query: &'q [u8],
    name: &str,
) -> Result<Option<CowStr<'q>>, Memory>
    ensures { IfOk result (λ value. option_map cow_str_bytes value ≡ first_named name.now (raw_pairs query.now)) }
{
    for pair in form_urlencoded::parse(alloc, query) {
        let (key, value) = pair?;
        if key.as_str() == name {
            return Ok(Some(value));
        }
    }
    Ok(None)
}

/// The bytes of a query, and none where there is no query.
pub fn bytes_of(query: Option<&str>) -> &[u8]
    ensures { result.now ≡ unwrap_or (option_copied query.entry) [] }
{
    match query {
        None => &[],
        Some(text) => text.as_bytes(),
    }
}

/// Whether what is asked for are states of jobs, where some are asked for.
pub fn are_known(states: &Option<CowStr<'_>>) -> bool
    ensures { result ≡ is_ok (states_in (option_map cow_str_bytes states.now)) }
{
    match states {
        None => true,
        Some(text) => are_states(text.as_str()),
    }
}

/// Whether these are states of jobs, joined by commas.
fn are_states(text: &str) -> bool
    ensures { result ≡ list_all (is_one_of job_states) (between_commas text.now) }
{
    text.as_bytes()
        .split(|byte| *byte == b',')
        .all(|word| is_job_state(word))
}

fn is_job_state(word: &[u8]) -> bool
    ensures { result ≡ is_one_of job_states word.now }
{
    word == "SUBMITTED".as_bytes()
        || word == "ACTIVE".as_bytes()
        || word == "FINISHED".as_bytes()
        || word == "FINISHEDDIRTY".as_bytes()
        || word == "FAILED".as_bytes()
        || word == "CANCELED".as_bytes()
}

/// Which states are asked for, told by their ranks.
pub fn asked_states(states: &Option<CowStr<'_>>) -> [bool; JOB_STATES]
    ensures { (state : JobState) → is_among result state ≡ is_one_of (states_asked (option_map cow_str_bytes states.now)) (job_state_text state) }
{
    [
        is_asked(states, JobState::Submitted),
        is_asked(states, JobState::Active),
        is_asked(states, JobState::Finished),
        is_asked(states, JobState::FinishedDirty),
        is_asked(states, JobState::Failed),
        is_asked(states, JobState::Canceled),
    ]
}

/// Whether a state is asked for. Where nothing is asked for, each is.
fn is_asked(states: &Option<CowStr<'_>>, state: JobState) -> bool
    ensures { result ≡ is_one_of (states_asked (option_map cow_str_bytes states.now)) (job_state_text state) }
{
    match states {
        None => true,
        Some(text) => is_among(text.as_str(), job_state_text(state)),
    }
}

fn is_among(text: &str, word: &str) -> bool
    ensures { result ≡ is_one_of (between_commas text.now) word.now }
{
    let word = word.as_bytes();
    text.as_bytes()
        .split(|byte| *byte == b',')
        .any(|part| word == part)
}

/// How many jobs are asked for, at most. `None` exactly where the text asks for no such number.
pub fn limit_of(text: &Option<CowStr<'_>>) -> Option<u64>
    ensures { result ≡ result_ok (limit_in (option_map cow_str_bytes text.now)) }
{
    match text {
        None => Some(DEFAULT_LIMIT),
        Some(text) => match number_in(text.as_str(), 4) {
            Some(limit) if 1 <= limit && limit <= MAX_LIMIT => Some(limit),
            _ => None,
        },
    }
}

/// The number that 1 to `most` decimal digits spell. `None` exactly where the text is none.
pub fn number_in(text: &str, most: usize) -> Option<u64>
    requires { most ≤ 19 }
    ensures { result ≡ number_in most text.now }
{
    let bytes = text.as_bytes();
    if bytes.is_empty() || bytes.len() > most || !are_digits(bytes) {
        return None;
    }
    text.parse().ok()
}

fn are_digits(bytes: &[u8]) -> bool
    ensures { result ≡ list_all is_digit bytes.now }
{
    bytes.iter().all(|byte| 0x30 <= *byte && *byte <= 0x39)
}
