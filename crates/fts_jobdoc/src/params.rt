//! The tests on a job's parameters, in the order of the rules, and what each parameter stands for where the rules hold.
//! Each answers its definition in `specs/Fields.antt`. A parameter that is absent has its default.
ghost use Rattle.std.specs.Prelude.{◌≡◌, false, option_map, codes};
ghost use Rattle.std.specs.Option.{option_map_or};
ghost use Rattle.serde_json.specs.View.{view};
ghost use Rattle.fts_jobdoc.specs.Json.{param, fails};
ghost use Rattle.fts_jobdoc.specs.Fields.{has_wrong_params, has_bad_retry, has_bad_delay, delay_of, has_bad_priority, lacks_priority, asks_for_verification, is_verify, has_bad_verify, is_verified, asks_for, is_set, unoffered_in, is_generator, is_deterministic, is_sid, has_bad_sid, has_bad_queue_time, sid_in};

use crate::Unoffered;
use crate::json::{
    field, is_from_minus_one, is_object, is_on, is_outside, is_this_text, is_within, natural_or,
    param, text_of,
};
use fts_tables::limits::{MAX_DELAY, MAX_PRIORITY, MAX_QUEUE_HOURS, MAX_RETRY, MIN_PRIORITY};
use fts_tables::rules::is_label;
use serde_json::Value;

/// Whether `params` is there and no object.
#[tactic(auto, unfolding(crate::specs::Fields::has_wrong_params))]
pub fn has_wrong_params(document: &Value) -> bool
    ensures { result ≡ has_wrong_params (view document.now) }
{
    match field(document, "params") {
        Some(params) => !is_object(params),
        None => false,
    }
}

/// Whether `retry` is there and no whole number from -1 to the greatest.
#[tactic(auto, unfolding(crate::specs::Fields::has_bad_retry))]
pub fn has_bad_retry(document: &Value) -> bool
    ensures { result ≡ has_bad_retry (view document.now) }
{
    match param(document, "retry") {
        Some(retry) => !is_from_minus_one(retry, MAX_RETRY as u64),
        None => false,
    }
}

/// Whether `retry_delay` is there and no whole number of its range, in seconds.
#[tactic(auto, unfolding(crate::specs::Fields::has_bad_delay))]
pub fn has_bad_delay(document: &Value) -> bool
    ensures { result ≡ has_bad_delay (view document.now) }
{
    is_outside(param(document, "retry_delay"), 0, MAX_DELAY)
}

/// Whether `priority` is there and no whole number of its range.
#[tactic(auto, unfolding(crate::specs::Fields::has_bad_priority))]
pub fn has_bad_priority(document: &Value) -> bool
    ensures { result ≡ has_bad_priority (view document.now) }
{
    let priority = param(document, "priority");
    is_outside(priority, MIN_PRIORITY as u64, MAX_PRIORITY as u64)
}

/// Whether `priority` isn't there, or is no whole number of its range.
#[tactic(auto, unfolding(crate::specs::Fields::lacks_priority))]
pub fn lacks_priority(document: &Value) -> bool
    ensures { result ≡ lacks_priority (view document.now) }
{
    match param(document, "priority") {
        Some(priority) => !is_within(priority, MIN_PRIORITY as u64, MAX_PRIORITY as u64),
        None => true,
    }
}

/// Whether `verify_checksum` is there and says nothing of verification.
#[tactic(auto, unfolding(crate::specs::Fields::has_bad_verify))]
pub fn has_bad_verify(document: &Value) -> bool
    ensures { result ≡ has_bad_verify (view document.now) }
{
    match param(document, "verify_checksum") {
        Some(verify) => !is_verify(verify),
        None => false,
    }
}

fn is_verify(value: &Value) -> bool
    ensures { result ≡ is_verify (view value.now) }
{
    value.is_boolean()
        || asks_for_verification(value)
        || is_this_text(value, "none")
        || is_this_text(value, "")
}

fn asks_for_verification(value: &Value) -> bool
    ensures { result ≡ asks_for_verification (view value.now) }
{
    is_this_text(value, "source") || is_this_text(value, "target") || is_this_text(value, "both")
}

/// Whether verification is asked for.
#[tactic(auto, unfolding(crate::specs::Fields::is_verified))]
pub fn is_verified(document: &Value) -> bool
    ensures { result ≡ is_verified (view document.now) }
{
    match param(document, "verify_checksum") {
        Some(verify) => is_on(Some(verify)) || asks_for_verification(verify),
        None => false,
    }
}

/// The first field that asks for what isn't offered.
#[tactic(auto, unfolding(crate::specs::Fields::unoffered_in))]
pub fn unoffered_in(document: &Value) -> Option<Unoffered>
    ensures { result ≡ unoffered_in (view document.now) }
{
    if is_set(document, "reuse") {
        Some(Unoffered::Reuse)
    } else if asks_for(document, "bring_online") {
        Some(Unoffered::BringOnline)
    } else if asks_for(document, "copy_pin_lifetime") {
        Some(Unoffered::CopyPinLifetime)
    } else if asks_for(document, "archive_timeout") {
        Some(Unoffered::ArchiveTimeout)
    } else {
        None
    }
}

#[tactic(auto, unfolding(crate::specs::Fields::asks_for))]
fn asks_for(document: &Value, key: &str) -> bool
    ensures { result ≡ asks_for key.now (view document.now) }
{
    0 < natural_or(param(document, key), 0)
}

/// Whether a key of `params` is on.
#[tactic(auto, unfolding(crate::specs::Fields::is_set))]
pub fn is_set(document: &Value, key: &str) -> bool
    ensures { result ≡ is_set key.now (view document.now) }
{
    is_on(param(document, key))
}

/// Whether `id_generator` is there and none, or asks for a `sid` where there is none.
#[tactic(auto, unfolding(crate::specs::Fields::has_bad_sid))]
pub fn has_bad_sid(document: &Value) -> bool
    ensures { result ≡ has_bad_sid (view document.now) }
{
    has_wrong_generator(document) || (is_deterministic(document) && !has_sid(document))
}

fn has_wrong_generator(document: &Value) -> bool
    ensures { result ≡ fails is_generator (param (codes "id_generator") (view document.now)) }
{
    match param(document, "id_generator") {
        Some(generator) => {
            !(is_this_text(generator, "standard") || is_this_text(generator, "deterministic"))
        }
        None => false,
    }
}

#[tactic(auto, unfolding(crate::specs::Fields::is_deterministic))]
fn is_deterministic(document: &Value) -> bool
    ensures { result ≡ is_deterministic (view document.now) }
{
    match param(document, "id_generator") {
        Some(generator) => is_this_text(generator, "deterministic"),
        None => false,
    }
}

fn has_sid(document: &Value) -> bool
    ensures { result ≡ option_map_or is_sid (param (codes "sid") (view document.now)) false }
{
    match text_of(param(document, "sid")) {
        Some(sid) => is_label(sid),
        None => false,
    }
}

/// Whether `max_time_in_queue` is there and no whole number from -1 to the greatest, in hours.
#[tactic(auto, unfolding(crate::specs::Fields::has_bad_queue_time))]
pub fn has_bad_queue_time(document: &Value) -> bool
    ensures { result ≡ has_bad_queue_time (view document.now) }
{
    match param(document, "max_time_in_queue") {
        Some(hours) => !is_from_minus_one(hours, MAX_QUEUE_HOURS as u64),
        None => false,
    }
}

/// The client's own id, where the job's id is made of it.
#[tactic(auto, unfolding(crate::specs::Fields::sid_in))]
pub fn sid_of(document: &Value) -> Option<&str>
    ensures { option_map (λ sid. sid.now) result ≡ sid_in (view document.now) }
{
    if is_deterministic(document) {
        text_of(param(document, "sid"))
    } else {
        None
    }
}

/// The seconds between a failure and the retry.
#[tactic(auto, unfolding(crate::specs::Fields::delay_of))]
pub fn read_delay(document: &Value) -> u64
    ensures { result ≡ delay_of (view document.now) }
{
    natural_or(param(document, "retry_delay"), 0)
}
