//! Objects of replies, as JSON values (RFC 8259): a job, a file, the settings in force. Each is a definition of `specs/Objects.antt`.
//! A job and a file are shown with the fields that a command may change given beside the row, so that the reply to a command is made before
//! the command is done.
ghost use Rattle.std.specs.Prelude.{◌≡◌, refl, IfOk, OnOk, map, false};
ghost use Rattle.serde_json.specs.Data.{Data, boolean, string, put};
ghost use Rattle.serde_json.specs.View.{view, members_view};
ghost use Rattle.serde_json.specs.Written.{has_float};
ghost use Rattle.fts_tables.specs.Step.{with_priority};
ghost use Rattle.fts_states.specs.Afters.{with_cancel};
ghost use Rattle.fts_routes.specs.Json.{array_of, body_of, whole_number};
ghost use Rattle.fts_routes.specs.Values.{file_with_texts};
ghost use Rattle.fts_routes.specs.Objects.{job_in_state, file_object, link_object, endpoint_object, weight_object, accepted_object, ban_object, unban_object, entry_object};

use crate::texts::{
    checksum_text, file_state_text, hex_text, id_text, job_state_text, kind_text, reason_text,
    seen_digest_text, surl_text,
};
use fts_states::CancelStep;
use fts_tables::{
    Endpoint, EndpointName, FileRow, FileState, Items, JobRow, JobState, LinkRule, Memory, Reason,
    Weight,
};
use serde_json::{Map, Value, json};
use std::alloc::Global;

/// The text of a value, which has no float.
pub fn body_of(alloc: Global, value: &Value) -> Result<Items<u8>, Memory>
    requires { has_float (view value.now) ≡ false }
    ensures { IfOk result (λ body. body ≡ body_of (view value.now)) }
{
    let text = value.to_vec(alloc)?;
    Ok(Items::from_vec(text))
}

/// The object of an accepted submission.
pub fn accepted_value(alloc: Global, id: u128) -> Result<Value, Memory>
    ensures { IfOk result (λ value. view value ≡ accepted_object id) }
{
    let id = id_text(alloc, id)?;
    let value = json!(in alloc; {"job_id": &id})?;
    Ok(value)
}

/// A ban of a storage, and how many files it cancels.
pub fn ban_value(alloc: Global, storage: &str, cancelled: u32) -> Result<Value, Memory>
    ensures { IfOk result (λ value. view value ≡ ban_object storage.now cancelled) }
{
    let value = json!(in alloc; {"cancelled": cancelled, "storage": storage})?;
    Ok(value)
}

/// An entry of the journal, of so many.
pub fn entry_value(alloc: Global, body: &[u8], count: u32, number: u32) -> Result<Value, Memory>
    ensures { IfOk result (λ value. view value ≡ entry_object body.now count number) }
{
    let body = hex_text(alloc, body)?;
    let value = json!(in alloc; {"body": &body, "count": count, "number": number})?;
    Ok(value)
}

/// The end of a ban of a storage.
pub fn unban_value(alloc: Global, storage: &str) -> Result<Value, Memory>
    ensures { IfOk result (λ value. view value ≡ unban_object storage.now) }
{
    let value = json!(in alloc; {"storage": storage})?;
    Ok(value)
}

/// A job of a VO in a state, with a priority.
pub fn job_value(
    alloc: Global,
    job: &JobRow,
    state: JobState,
    priority: u32,
    vo: &str,
) -> Result<Value, Memory>
    ensures { IfOk result (λ value. view value ≡ job_in_state vo.now state (with_priority priority job.now)) }
{
    let id = id_text(alloc, job.id)?;
    let state = job_state_text(state);
    let kind = kind_text(job.kind);
    let value = json!(in alloc; {
        "job_id": &id,
        "job_state": state,
        "kind": kind,
        "priority": priority,
        "retry": job.retry,
        "retry_delay": job.delay,
        "submit_time": job.submitted_at,
        "vo_name": vo
    })?;
    Ok(value)
}

/// A file after its part of a cancellation.
pub fn file_value(alloc: Global, row: &FileRow, step: CancelStep) -> Result<Value, Memory>
    ensures { IfOk result (λ value. view value ≡ file_object (with_cancel row.now step)) }
{
    match step {
        CancelStep::Stays => value_of_file(alloc, row, row.state, row.cancel_asked, row.reason),
        CancelStep::Canceled => value_of_file(
            alloc,
            row,
            FileState::Canceled,
            row.cancel_asked,
            Reason::Cancelled,
        ),
        CancelStep::Asked => value_of_file(alloc, row, row.state, true, row.reason),
    }
}

/// A file in a state, whose cancellation was asked or not, for a reason.
fn value_of_file(
    alloc: Global,
    row: &FileRow,
    state: FileState,
    cancel_asked: bool,
    reason: Reason,
) -> Result<Value, Memory>
    ensures { IfOk result (λ value. view value ≡ file_object (record row.now { state = state; cancel_asked = cancel_asked; reason = reason })) }
{
    let texts = FileTexts {
        checksum: checksum_text(alloc, row.wanted)?,
        dest: surl_text(alloc, &row.dest)?,
        digest: seen_digest_text(alloc, state, row.digest)?,
        reason: reason_text(alloc, reason)?,
        source: surl_text(alloc, &row.source)?,
    };
    value_with_texts(alloc, row, state, cancel_asked, &texts)
}

/// The texts of a file that are made for its object.
#[derive(Drop)]
struct FileTexts {
    checksum: String,
    dest: String,
    digest: String,
    reason: String,
    source: String,
}

/// A file in a state, with its texts.
fn value_with_texts(
    alloc: Global,
    row: &FileRow,
    state: FileState,
    cancel_asked: bool,
    texts: &FileTexts,
) -> Result<Value, Memory>
    ensures { IfOk result (λ value. view value ≡ file_with_texts row.now state cancel_asked texts.now) }
{
    let mut map = Map::new(alloc);
    put_text(alloc, &mut map, "activity", row.activity.as_str())?;
    put_number(alloc, &mut map, "attempt", u64::from(row.attempt))?;
    put_flag(alloc, &mut map, "cancel_asked", cancel_asked)?;
    put_text(alloc, &mut map, "checksum", texts.checksum.as_str())?;
    put_text(alloc, &mut map, "dest_surl", texts.dest.as_str())?;
    put_text(alloc, &mut map, "digest", texts.digest.as_str())?;
    put_number(alloc, &mut map, "file_id", u64::from(row.id))?;
    put_number(alloc, &mut map, "file_index", u64::from(row.index))?;
    put_text(alloc, &mut map, "file_state", file_state_text(state))?;
    put_number(alloc, &mut map, "filesize", row.size)?;
    put_number(alloc, &mut map, "not_before", row.not_before)?;
    put_text(alloc, &mut map, "reason", texts.reason.as_str())?;
    put_text(alloc, &mut map, "source_surl", texts.source.as_str())?;
    Ok(Value::Object(map))
}

/// Puts a text under a key.
fn put_text(
    alloc: Global,
    map: &mut Map<String, Value>,
    key: &str,
    text: &str,
) -> Result<(), Memory>
    ensures { OnOk result (members_view map.new.entries ≡ put key.now (string text.now) (members_view map.old.entries)) }
{
    let value = json!(in alloc; text)?;
    serde_json::put(map, alloc, key, value)?;
    Ok(())
}

/// Puts a number under a key.
fn put_number(
    alloc: Global,
    map: &mut Map<String, Value>,
    key: &str,
    number: u64,
) -> Result<(), Memory>
    ensures { OnOk result (members_view map.new.entries ≡ put key.now (whole_number number) (members_view map.old.entries)) }
{
    let value = json!(in alloc; number)?;
    serde_json::put(map, alloc, key, value)?;
    Ok(())
}

/// Puts a flag under a key.
fn put_flag(
    alloc: Global,
    map: &mut Map<String, Value>,
    key: &str,
    flag: bool,
) -> Result<(), Memory>
    ensures { OnOk result (members_view map.new.entries ≡ put key.now (boolean flag) (members_view map.old.entries)) }
{
    let value = json!(in alloc; flag)?;
    serde_json::put(map, alloc, key, value)?;
    Ok(())
}

/// What is shown as it stands.
pub trait Shown {
    /// The value that shows it.
    ghost shown: { Self → Data };

    /// The value that shows it.
    fn value(&self, alloc: Global) -> Result<Value, Memory>
        ensures { IfOk result (λ value. view value ≡ shown self.now) };

    /// No float is in that value.
    ghost no_float: { (x : Self) → has_float (shown x) ≡ false };
}

impl Shown for LinkRule {
    ghost shown = { link_object };

    ghost no_float = { λ _. refl };

    fn value(&self, alloc: Global) -> Result<Value, Memory> {
        let value = json!(in alloc; {
            "destination": self.dest.as_str(),
            "max_active": self.max_active,
            "source": self.source.as_str(),
            "symbolicname": self.symbolic.as_str()
        })?;
        Ok(value)
    }
}

impl Shown for Endpoint {
    ghost shown = { endpoint_object };

    ghost no_float = { λ _. refl };

    fn value(&self, alloc: Global) -> Result<Value, Memory> {
        let value = json!(in alloc; {
            "inbound_max_active": self.inbound,
            "outbound_max_active": self.outbound,
            "storage": self.name.as_str()
        })?;
        Ok(value)
    }
}

impl Shown for Weight {
    ghost shown = { weight_object };

    ghost no_float = { λ _. refl };

    fn value(&self, alloc: Global) -> Result<Value, Memory> {
        let value = json!(in alloc; {"activity": self.name.as_str(), "weight": self.weight})?;
        Ok(value)
    }
}

impl Shown for EndpointName {
    ghost shown = { string };

    ghost no_float = { λ _. refl };

    fn value(&self, alloc: Global) -> Result<Value, Memory> {
        let value = json!(in alloc; self.as_str())?;
        Ok(value)
    }
}

impl Shown for FileRow {
    ghost shown = { file_object };

    ghost no_float = { λ _. refl };

    fn value(&self, alloc: Global) -> Result<Value, Memory> {
        file_value(alloc, self, CancelStep::Stays)
    }
}

/// A list of what items show.
pub fn array_value<T: Shown>(alloc: Global, items: &[T]) -> Result<Value, Memory>
    ensures { IfOk result (λ value. view value ≡ array_of T.shown items.now) }
{
    let mut list = Vec::new(alloc);
    for item in items {
        let value = item.value(alloc)?;
        if list.push(value).is_err() {
            return Err(Memory);
        }
    }
    Ok(Value::Array(list))
}
