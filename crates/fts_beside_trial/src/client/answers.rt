//! What the tests of a client stand on: lines and links in memory, a document with its request, and what a service answers.
//! Texts are those of `docs/API.md`; the id is that of another program.
ghost use Rattle.std.specs.Prelude.{◌≡◌, false, IfOk};
ghost use Rattle.fts_client.specs.MemoryLinks.{has_failed};

use fts_client::MemoryLink;
use fts_wire::{MemoryLine, MemorySink, MemorySource};
use std::alloc::Global;
use std::test::Fail;

pub const PORT: u16 = 8080;

/// The number of a call that never comes.
pub const NEVER: u64 = 1_000_000;

/// A number of a dial that never comes.
pub const NO_DIAL: u32 = 1_000_000;

/// 8b35c5cc-fec2-5479-8778-9cbe6f137978.
pub const JOB: u128 = 0x8b35_c5cc_fec2_5479_8778_9cbe_6f13_7978;

pub const DOCUMENT: &str =
    "{\"files\":[{\"sources\":[\"https://a.example/data/f1\"],\"destinations\":[\"https://b.example/f1\"]}],\"params\":{\"id_generator\":\"deterministic\",\"sid\":\"f1\"}}";

pub const REQUEST: &str =
    "POST /jobs HTTP/1.1\r\nHost: 127.0.0.1:8080\r\nContent-Length: 146\r\nConnection: close\r\n\r\n\
     {\"files\":[{\"sources\":[\"https://a.example/data/f1\"],\"destinations\":[\"https://b.example/f1\"]}],\
     \"params\":{\"id_generator\":\"deterministic\",\"sid\":\"f1\"}}";

pub const QUERY: &str =
    "GET /jobs/8b35c5cc-fec2-5479-8778-9cbe6f137978 HTTP/1.1\r\nHost: 127.0.0.1:8080\r\nConnection: close\r\n\r\n";

pub const CREATED: &str =
    "HTTP/1.1 200 OK\r\nContent-Type: application/json\r\nContent-Length: 49\r\nConnection: close\r\n\r\n{\"job_id\":\"8b35c5cc-fec2-5479-8778-9cbe6f137978\"}";

pub const DUPLICATE: &str =
    "HTTP/1.1 409 Conflict\r\nContent-Type: application/json\r\nContent-Length: 94\r\nConnection: close\r\n\r\n\
     {\"job_id\":\"8b35c5cc-fec2-5479-8778-9cbe6f137978\",\"message\":\"duplicate\",\"rule\":34,\"status\":409}";

pub const NOT_FOUND: &str =
    "HTTP/1.1 404 Not Found\r\nContent-Type: application/json\r\nContent-Length: 43\r\nConnection: close\r\n\r\n{\"message\":\"no job\",\"rule\":31,\"status\":404}";

pub const NOT_JSON: &str =
    "HTTP/1.1 400 Bad Request\r\nContent-Type: application/json\r\nContent-Length: 44\r\nConnection: close\r\n\r\n{\"message\":\"not JSON\",\"rule\":1,\"status\":400}";

pub const DISK_FAILED: &str =
    "HTTP/1.1 503 Service Unavailable\r\nContent-Type: application/json\r\nContent-Length: 48\r\nConnection: close\r\n\r\n{\"message\":\"disk failed\",\"rule\":35,\"status\":503}";

pub const NO_MEMORY: &str =
    "HTTP/1.1 500 Internal Server Error\r\nContent-Type: application/json\r\nContent-Length: 0\r\nConnection: close\r\n\r\n";

pub const SHOWN: &str =
    "HTTP/1.1 200 OK\r\nContent-Type: application/json\r\nContent-Length: 22\r\nConnection: close\r\n\r\n{\"job_state\":\"ACTIVE\"}";

pub const NO_ID: &str =
    "HTTP/1.1 200 OK\r\nContent-Type: application/json\r\nContent-Length: 2\r\n\r\n{}";

pub const NUMBER_FOR_ID: &str =
    "HTTP/1.1 409 Conflict\r\nContent-Type: application/json\r\nContent-Length: 12\r\n\r\n{\"job_id\":7}";

pub const SHORT_ID: &str =
    "HTTP/1.1 409 Conflict\r\nContent-Type: application/json\r\nContent-Length: 17\r\n\r\n{\"job_id\":\"8b35\"}";

pub const CUT: &str = "HTTP/1.1 200 OK\r\nCon";

/// What a command meets: the answers of three lines, the dial that fails, and how many tries it is allowed.
pub type Tries = ([&'static str; 3], u32, u32);

/// A line that answers this, and whose read and write of these numbers fail.
pub fn line(alloc: Global, answer: &str, read: u64, write: u64) -> Result<MemoryLine, Fail>
    ensures { IfOk result (λ made. has_failed made ≡ false) }
{
    let source = MemorySource::new(answer.as_bytes().to_vec(alloc)?, vec![in alloc; read]?);
    let sink = MemorySink::new(alloc, vec![in alloc; write]?);
    Ok(MemoryLine::new(source, sink))
}

/// A link of three lines that answer these. The dial of this number fails.
pub fn link(alloc: Global, answers: [&str; 3], fail: u32) -> Result<MemoryLink, Fail> {
    let first = line(alloc, answers[0], NEVER, NEVER)?;
    let second = line(alloc, answers[1], NEVER, NEVER)?;
    let third = line(alloc, answers[2], NEVER, NEVER)?;
    let lines = vec![in alloc; first, second, third]?;
    match MemoryLink::new(alloc, lines, vec![in alloc; fail]?) {
        Ok(link) => Ok(link),
        Err(_) => Err(Fail::new("no link")),
    }
}

/// A link of one line that answers this, and whose read and write of these numbers fail.
pub fn link_of_one(alloc: Global, answer: &str, read: u64, write: u64) -> Result<MemoryLink, Fail> {
    let lines = vec![in alloc; line(alloc, answer, read, write)?]?;
    match MemoryLink::new(alloc, lines, vec![in alloc; NO_DIAL]?) {
        Ok(link) => Ok(link),
        Err(_) => Err(Fail::new("no link")),
    }
}
