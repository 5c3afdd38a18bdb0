//! Replies with their bodies (JSON, RFC 8259, as `serde_json` writes it: compact, keys in byte order). Each refusal has its message, the number
//! of its rule and its status (`specs/Refusals.antt`). Want of memory is handed to the caller; its reply takes none.
ghost use Rattle.std.specs.Prelude.{◌≡◌, IfOk, IfErr, false};
ghost use Rattle.serde_json.specs.View.{view};
ghost use Rattle.serde_json.specs.Written.{has_float};
ghost use Rattle.fts_routes.specs.Json.{object_of};
ghost use Rattle.fts_routes.specs.Refusals.{refusal_members, refusal_of, reply_of, shows, bad_document, bad_ban, bad_query, no_route, no_job, no_file, no_storage, not_banned, no_entry};
ghost use Rattle.fts_routes.specs.Refusals.{no_method, duplicate, disk_failed, rows_full, jobs_full, journal_full, no_memory, duplicate_members, IsOrNoMemory};
ghost use Rattle.fts_routes.specs.Queries.{BadStates as TheBadStates, BadLimit as TheBadLimit};

use crate::objects::body_of;
use crate::texts::id_text;
use fts_jobdoc::{BanFault, DocFault};
use fts_tables::{Items, Memory};
use fts_wire::{Allow, Reply};
use http::StatusCode;
use serde_json::{Value, json};
use std::alloc::Global;

/// The rule that each state of a query is one of a job.
const BAD_STATES: u32 = 25;

/// The rule that a query's limit is a number of its range.
const BAD_LIMIT: u32 = 26;

/// The rule that a path has a route.
const NO_ROUTE: u32 = 30;

/// The rule that a job has the id.
const NO_JOB: u32 = 31;

/// The rule that the job has the file.
const NO_FILE: u32 = 32;

/// The rule that the route has the method.
const NO_METHOD: u32 = 33;

/// The rule that no job has the id that is asked for.
const DUPLICATE: u32 = 34;

/// The rule that the disk does its part.
const DISK_FAILED: u32 = 35;

/// The rule that there may be so many rows.
const ROWS_FULL: u32 = 36;

/// The rule that there may be so many jobs.
const JOBS_FULL: u32 = 37;

/// The rule that the journal may have so many bytes.
const JOURNAL_FULL: u32 = 38;

/// The rule that the settings list the storage.
const NO_STORAGE: u32 = 39;

/// The rule that the storage is banned.
const NOT_BANNED: u32 = 46;

/// The rule that the journal has the entry.
const NO_ENTRY: u32 = 47;

/// The reply where there is no memory for another one. It takes none.
pub fn no_memory(alloc: Global) -> Reply
    ensures { result ≡ no_memory }
{
    Reply {
        status: StatusCode::INTERNAL_SERVER_ERROR.as_u16(),
        allow: Allow::None,
        body: Items::new(alloc),
    }
}

/// A reply that was made, or the one for want of memory.
pub fn or_no_memory(alloc: Global, made: Result<Reply, Memory>) -> Reply
    ensures ok { IfOk made (λ reply. result ≡ reply) }
    ensures err { IfErr made (λ e. result ≡ no_memory) }
{
    match made {
        Ok(reply) => reply,
        Err(Memory) => no_memory(alloc),
    }
}

/// A refusal with its message, the number of the rule that was broken, and its status; 500 without a body where there is no memory for it.
pub fn refusal_reply(alloc: Global, message: &str, rule: u32, status: u16) -> Reply
    ensures { IsOrNoMemory result (refusal_of message.now rule status) }
{
    or_no_memory(alloc, numbered_refusal(alloc, message, rule, status))
}

/// The reply that shows a value.
pub fn shows(alloc: Global, value: &Value) -> Result<Reply, Memory>
    requires { has_float (view value.now) ≡ false }
    ensures { IfOk result (λ reply. reply ≡ shows (view value.now)) }
{
    reply_of(alloc, StatusCode::OK.as_u16(), Allow::None, value)
}

/// A reply with this value as its body.
fn reply_of(alloc: Global, status: u16, allow: Allow, value: &Value) -> Result<Reply, Memory>
    requires { has_float (view value.now) ≡ false }
    ensures { IfOk result (λ reply. reply ≡ reply_of status allow (view value.now)) }
{
    let body = body_of(alloc, value)?;
    Ok(Reply {
        status,
        allow,
        body,
    })
}

/// A refusal with its message, the number of the rule that was broken, and its status.
fn refusal(alloc: Global, message: &str, rule: u32, status: StatusCode) -> Result<Reply, Memory>
    ensures { IfOk result (λ reply. reply ≡ refusal_of message.now rule status) }
{
    numbered_refusal(alloc, message, rule, status.as_u16())
}

/// The same with the number of its status.
fn numbered_refusal(alloc: Global, message: &str, rule: u32, status: u16) -> Result<Reply, Memory>
    ensures { IfOk result (λ reply. reply ≡ refusal_of message.now rule status) }
{
    let value = refusal_value(alloc, message, rule, status)?;
    reply_of(alloc, status, Allow::None, &value)
}

fn refusal_value(alloc: Global, message: &str, rule: u32, status: u16) -> Result<Value, Memory>
    ensures { IfOk result (λ value. view value ≡ object_of (refusal_members message.now rule status)) }
{
    let value = json!(in alloc; {"message": message, "rule": rule, "status": status})?;
    Ok(value)
}

/// The document breaks a rule.
pub fn bad_document(alloc: Global, fault: DocFault) -> Result<Reply, Memory>
    ensures { IfOk result (λ reply. reply ≡ bad_document fault) }
{
    refusal(
        alloc,
        fault.message(),
        fault.rule(),
        StatusCode::BAD_REQUEST,
    )
}

/// The document of a ban breaks a rule, or the query of the end of one names no storage.
pub fn bad_ban(alloc: Global, fault: BanFault) -> Result<Reply, Memory>
    ensures { IfOk result (λ reply. reply ≡ bad_ban fault) }
{
    refusal(
        alloc,
        fault.message(),
        fault.rule(),
        StatusCode::BAD_REQUEST,
    )
}

/// The query names a state that jobs don't have.
pub fn bad_states(alloc: Global) -> Result<Reply, Memory>
    ensures { IfOk result (λ reply. reply ≡ bad_query TheBadStates) }
{
    refusal(alloc, "bad state_in", BAD_STATES, StatusCode::BAD_REQUEST)
}

/// The query asks for no number of jobs.
pub fn bad_limit(alloc: Global) -> Result<Reply, Memory>
    ensures { IfOk result (λ reply. reply ≡ bad_query TheBadLimit) }
{
    refusal(alloc, "bad limit", BAD_LIMIT, StatusCode::BAD_REQUEST)
}

/// The path has no route.
pub fn no_route(alloc: Global) -> Result<Reply, Memory>
    ensures { IfOk result (λ reply. reply ≡ no_route) }
{
    refusal(alloc, "no route", NO_ROUTE, StatusCode::NOT_FOUND)
}

/// No job has the id.
pub fn no_job(alloc: Global) -> Result<Reply, Memory>
    ensures { IfOk result (λ reply. reply ≡ no_job) }
{
    refusal(alloc, "no job", NO_JOB, StatusCode::NOT_FOUND)
}

/// The job has no such file.
pub fn no_file(alloc: Global) -> Result<Reply, Memory>
    ensures { IfOk result (λ reply. reply ≡ no_file) }
{
    refusal(alloc, "no file", NO_FILE, StatusCode::NOT_FOUND)
}

/// The settings don't list the storage.
pub fn no_storage(alloc: Global) -> Result<Reply, Memory>
    ensures { IfOk result (λ reply. reply ≡ no_storage) }
{
    refusal(alloc, "no storage", NO_STORAGE, StatusCode::NOT_FOUND)
}

/// The storage isn't banned.
pub fn not_banned(alloc: Global) -> Result<Reply, Memory>
    ensures { IfOk result (λ reply. reply ≡ not_banned) }
{
    refusal(alloc, "not banned", NOT_BANNED, StatusCode::NOT_FOUND)
}

/// No entry of the journal has the number.
pub fn no_entry(alloc: Global) -> Result<Reply, Memory>
    ensures { IfOk result (λ reply. reply ≡ no_entry) }
{
    refusal(alloc, "no entry", NO_ENTRY, StatusCode::NOT_FOUND)
}

/// The route has no such method, but these.
pub fn no_method(alloc: Global, allow: Allow) -> Result<Reply, Memory>
    ensures { IfOk result (λ reply. reply ≡ no_method allow) }
{
    let status = StatusCode::METHOD_NOT_ALLOWED.as_u16();
    let value = refusal_value(alloc, "no such method", NO_METHOD, status)?;
    reply_of(alloc, status, allow, &value)
}

/// A job has this id already.
pub fn duplicate(alloc: Global, id: u128) -> Result<Reply, Memory>
    ensures { IfOk result (λ reply. reply ≡ duplicate id) }
{
    let value = duplicate_value(alloc, id)?;
    reply_of(alloc, StatusCode::CONFLICT.as_u16(), Allow::None, &value)
}

fn duplicate_value(alloc: Global, id: u128) -> Result<Value, Memory>
    ensures { IfOk result (λ value. view value ≡ object_of (duplicate_members id)) }
{
    let id = id_text(alloc, id)?;
    let value = json!(in alloc; {
        "job_id": &id,
        "message": "duplicate",
        "rule": DUPLICATE,
        "status": StatusCode::CONFLICT.as_u16()
    })?;
    Ok(value)
}

/// A call of the disk failed.
pub fn disk_failed(alloc: Global) -> Result<Reply, Memory>
    ensures { IfOk result (λ reply. reply ≡ disk_failed) }
{
    refusal(
        alloc,
        "disk failed",
        DISK_FAILED,
        StatusCode::SERVICE_UNAVAILABLE,
    )
}

/// There would be too many rows.
pub fn rows_full(alloc: Global) -> Result<Reply, Memory>
    ensures { IfOk result (λ reply. reply ≡ rows_full) }
{
    refusal(
        alloc,
        "rows full",
        ROWS_FULL,
        StatusCode::INSUFFICIENT_STORAGE,
    )
}

/// There would be too many jobs.
pub fn jobs_full(alloc: Global) -> Result<Reply, Memory>
    ensures { IfOk result (λ reply. reply ≡ jobs_full) }
{
    refusal(
        alloc,
        "jobs full",
        JOBS_FULL,
        StatusCode::INSUFFICIENT_STORAGE,
    )
}

/// The journal would have too many bytes.
pub fn journal_full(alloc: Global) -> Result<Reply, Memory>
    ensures { IfOk result (λ reply. reply ≡ journal_full) }
{
    refusal(
        alloc,
        "journal full",
        JOURNAL_FULL,
        StatusCode::INSUFFICIENT_STORAGE,
    )
}
