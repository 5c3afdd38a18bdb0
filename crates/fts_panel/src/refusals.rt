//! What is refused, each with its message, the number of its rule and its status, in the form of the service (docs/API.md, "Refusals").
//! Keeps: a reply is the definition's (`specs/Responses.antt`), or the one for want of memory, which takes none.
ghost use Rattle.std.specs.Prelude.{◌≡◌, IfOk, map};
ghost use Rattle.std.specs.List.{concat};
ghost use Rattle.fts_panel.specs.Responses.{IsOrNoMemory, refusal_body, refusal_of, no_memory, no_route, no_job, no_method, bad_query, reply_to};

use fts_tables::{Items, Memory};
use fts_watch::MonitorFault;
use fts_wire::{Allow, Reply, statuses};
use itoa::Buffer;
use std::alloc::Global;

/// The rule that a path has a route, as the service has it.
const NO_ROUTE: u16 = 30;

/// The rule that a job has the id, as the service has it.
const NO_JOB: u16 = 31;

/// The rule that the route has the method, as the service has it.
const NO_METHOD: u16 = 33;

/// The rule that the disk does its part, as the service has it.
const DISK_FAILED: u16 = 35;

/// The rule that the journal is the one that was opened.
const JOURNAL_CHANGED: u16 = 49;

/// The rule that a query asks for something that there is.
const BAD_QUERY: u16 = 50;

/// These parts, one behind the other.
fn joined(alloc: Global, parts: &[&[u8]]) -> Result<Vec<u8>, Memory>
    ensures { IfOk result (λ text. text.items ≡ concat (map (λ part. part.now) parts.now)) }
{
    let mut text = Vec::new(alloc);
    for part in parts {
        text.extend_from_slice(part)?;
    }
    Ok(text)
}

/// The body of a refusal.
fn refusal_body(alloc: Global, message: &str, rule: u16, status: u16) -> Result<Vec<u8>, Memory>
    ensures { IfOk result (λ body. body.items ≡ refusal_body message.now rule status) }
{
    let mut rule_digits = Buffer::new();
    let mut status_digits = Buffer::new();
    let rule = rule_digits.format(rule);
    let status = status_digits.format(status);
    joined(
        alloc,
        &[
            b"{\"message\":\"",
            message.as_bytes(),
            b"\",\"rule\":",
            rule.as_bytes(),
            b",\"status\":",
            status.as_bytes(),
            b"}",
        ],
    )
}

/// A refusal, with the methods that it names.
pub fn refusal(alloc: Global, message: &str, rule: u16, status: u16, allow: Allow) -> Reply
    ensures { IsOrNoMemory result (refusal_of message.now rule status allow) }
{
    match refusal_body(alloc, message, rule, status) {
        Ok(body) => Reply {
            status,
            allow,
            body: Items::from_vec(body),
        },
        Err(Memory) => no_memory(alloc),
    }
}

/// The reply where there is no memory for another one. It takes none.
pub fn no_memory(alloc: Global) -> Reply
    ensures { result ≡ no_memory }
{
    Reply {
        status: statuses::INTERNAL_SERVER_ERROR,
        allow: Allow::None,
        body: Items::new(alloc),
    }
}

/// The path isn't there.
pub fn no_route(alloc: Global) -> Reply
    ensures { IsOrNoMemory result no_route }
{
    let status = statuses::NOT_FOUND;
    refusal(alloc, "no route", NO_ROUTE, status, Allow::None)
}

/// What is there hasn't the method, but GET.
pub fn no_method(alloc: Global) -> Reply
    ensures { IsOrNoMemory result no_method }
{
    let status = statuses::METHOD_NOT_ALLOWED;
    refusal(alloc, "no such method", NO_METHOD, status, Allow::Get)
}

/// No job has the id.
pub fn no_job(alloc: Global) -> Reply
    ensures { IsOrNoMemory result no_job }
{
    let status = statuses::NOT_FOUND;
    refusal(alloc, "no job", NO_JOB, status, Allow::None)
}

/// The query asks for nothing that there is.
pub fn bad_query(alloc: Global) -> Reply
    ensures { IsOrNoMemory result bad_query }
{
    let status = statuses::BAD_REQUEST;
    refusal(alloc, "bad query", BAD_QUERY, status, Allow::None)
}

/// Why nothing is shown.
pub fn reply_to(alloc: Global, fault: MonitorFault) -> Reply
    ensures { IsOrNoMemory result (reply_to fault) }
{
    let status = statuses::SERVICE_UNAVAILABLE;
    match fault {
        MonitorFault::DiskFailed => {
            refusal(alloc, "disk failed", DISK_FAILED, status, Allow::None)
        }
        MonitorFault::Damaged { offset: _ } | MonitorFault::Changed => {
            refusal(
                alloc,
                "journal changed",
                JOURNAL_CHANGED,
                status,
                Allow::None,
            )
        }
        MonitorFault::Memory => no_memory(alloc),
    }
}
