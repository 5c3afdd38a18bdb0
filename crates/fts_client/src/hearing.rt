//! What a response says to whoever repeats a request: the end that it would be, were its try the last.
//! To a submission, 200 and 409 name the job in their object, under `job_id`, in any form of a UUID (RFC 9562); to a query, 200 shows it.
//! 500 and 503 say that the service can't serve now, and every other status refuses. `specs/Hearing.antt` and `Ends.antt` are the definitions.
ghost use Rattle.std.specs.Prelude.{◌≡◌, ◌⊎◌, Ok, IfOk, codes, option_map, option_and_then};
ghost use Rattle.serde_json.specs.Find.{get, as_str};
ghost use Rattle.serde_json.specs.View.{view};
ghost use Rattle.fts_jobdoc.specs.Json.{value_of};
ghost use Rattle.fts_wire.specs.NextAnswers.{AnswerData};
ghost use Rattle.fts_client.specs.Worlds.{Heard};
ghost use Rattle.fts_client.specs.Hearing.{id_spelled, job_named_in};
ghost use Rattle.fts_client.specs.Tries.{Sent};
ghost use Rattle.fts_client.specs.Ends.{SaysSo, end_by, end_without};

use crate::ends::SubmitEnd;
use fts_tables::Memory;
use fts_wire::statuses;
use serde_json::Value;
use std::alloc::Global;
use uuid::Uuid;

/// What a response to one kind of request says.
pub trait Hears: Sized {
    /// What a response says.
    ghost says: { AnswerData → Heard };

    /// The end that a response would be, were it that of the last try.
    fn hear(alloc: Global, status: u16, body: &[u8]) -> SubmitEnd
        ensures { SaysSo says (Sent (Ok (record { status = status; body = body.now }))) result };
}

/// Responses to a submission.
pub struct ToSubmission;

impl Hears for ToSubmission {
    ghost use Rattle.fts_client.specs.Ends.{says_to_submission};

    ghost says = { says_to_submission };

    fn hear(alloc: Global, status: u16, body: &[u8]) -> SubmitEnd {
        match status {
            statuses::OK => named_end(alloc, body, false),
            statuses::CONFLICT => named_end(alloc, body, true),
            _ => end_without(status),
        }
    }
}

/// Responses to a query. A job that is shown ends it as one that is done would.
pub struct ToQuery;

impl Hears for ToQuery {
    ghost use Rattle.fts_client.specs.Ends.{says_to_query};

    ghost says = { says_to_query };

    fn hear(_alloc: Global, status: u16, _body: &[u8]) -> SubmitEnd {
        match status {
            statuses::OK => SubmitEnd::Done {
                job: 0,
                again: false,
            },
            _ => end_without(status),
        }
    }
}

/// The end by a status that tells of no job.
fn end_without(status: u16) -> SubmitEnd
    ensures { result ≡ end_without status }
{
    match status {
        statuses::INTERNAL_SERVER_ERROR | statuses::SERVICE_UNAVAILABLE => {
            SubmitEnd::CannotServe { status }
        }
        _ => SubmitEnd::Refused { status },
    }
}

/// The end by the job that a body names; one that names none is no answer.
fn named_end(alloc: Global, body: &[u8], again: bool) -> SubmitEnd
    ensures { (result ≡ end_by (job_named_in body.now) again) ⊎ (result ≡ SubmitEnd.Memory) }
{
    match job_named_in(alloc, body) {
        Ok(Some(job)) => SubmitEnd::Done { job, again },
        Ok(None) => SubmitEnd::NoAnswer,
        Err(Memory) => SubmitEnd::Memory,
    }
}

/// The id under `job_id` in a body's object.
fn job_named_in(alloc: Global, body: &[u8]) -> Result<Option<u128>, Memory>
    ensures { IfOk result (λ job. job ≡ job_named_in body.now) }
{
    match read_value(alloc, body)? {
        Some(value) => Ok(id_in(&value)),
        None => Ok(None),
    }
}

/// The JSON value of a body, as `serde_json` reads it, where it has one. `Memory` comes for want of memory alone.
pub fn read_value(alloc: Global, body: &[u8]) -> Result<Option<Value>, Memory>
    ensures { IfOk result (λ value. option_map view value ≡ value_of body.now) }
{
    match Value::from_slice(alloc, body) {
        Ok(value) => Ok(Some(value)),
        Err(error) => {
            if error.is_memory() {
                Err(Memory)
            } else {
                Ok(None)
            }
        }
    }
}

/// The id under `job_id` in a value.
fn id_in(value: &Value) -> Option<u128>
    ensures { result ≡ option_and_then id_spelled (option_and_then as_str (get (codes "job_id") (view value.now))) }
{
    id_spelled(value.get("job_id")?.as_str()?)
}

/// The id that a text spells.
fn id_spelled(text: &str) -> Option<u128>
    ensures { result ≡ id_spelled text.now }
{
    match Uuid::parse_str(text) {
        Ok(id) => Some(id.as_u128()),
        Err(_) => None,
    }
}
