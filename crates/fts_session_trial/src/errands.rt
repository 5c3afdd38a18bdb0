//! The errands as whole runs: a client's submissions and queries and a standby over lines in memory, and deletions over a store in memory.
//! A row is a sentence, the words, the input, what the lines answer in order, the dial that fails, and the status, the output and the note that are
//! wanted. Texts and statuses are those of `docs/API.md`; the id is that of another program.
ghost use Rattle.std.specs.Prelude.{◌≡◌, false, IfOk};
ghost use Rattle.fts_client.specs.MemoryLinks.{has_failed};

use crate::stand::{
    Given, SETTINGS, count_row, hands_with, make_given, no_memory, print_count, run_anew, source,
};
use fts_client::MemoryLink;
use fts_wire::{MemoryLine, MemorySink, MemorySource};
use std::alloc::Global;
use std::io;

/// The number of a dial that never comes.
const NO_DIAL: u32 = 1_000_000;

/// A document with an own id.
const DOCUMENT: &str =
    "{\"files\":[{\"sources\":[\"https://a.example/data/f1\"],\"destinations\":[\"https://b.example/f1\"]}],\"params\":{\"id_generator\":\"deterministic\",\"sid\":\"f1\"}}";

/// One without.
const ANONYMOUS: &str =
    "{\"files\":[{\"sources\":[\"https://a.example/data/f1\"],\"destinations\":[\"https://b.example/f1\"]}],\"params\":{\"id_generator\":\"deterministic\"}}";

const CUT: &str = "HTTP/1.1 200 OK\r\nCon";

const DUPLICATE: &str =
    "HTTP/1.1 409 Conflict\r\nContent-Type: application/json\r\nContent-Length: 94\r\nConnection: close\r\n\r\n\
     {\"job_id\":\"8b35c5cc-fec2-5479-8778-9cbe6f137978\",\"message\":\"duplicate\",\"rule\":34,\"status\":409}";

const DISK_FAILED: &str =
    "HTTP/1.1 503 Service Unavailable\r\nContent-Type: application/json\r\nContent-Length: 48\r\nConnection: close\r\n\r\n{\"message\":\"disk failed\",\"rule\":35,\"status\":503}";

const FOUND: &str =
    "HTTP/1.1 200 OK\r\nContent-Type: application/json\r\nContent-Length: 13\r\nConnection: close\r\n\r\n{\"job_id\":\"\"}";

/// A whole run, and what is wanted of it.
#[derive(Clone, Copy)]
struct Row {
    row: &'static str,
    words: &'static [&'static str],
    input: &'static str,
    answers: [&'static str; 2],
    /// The dial that fails.
    fail: u32,
    status: u8,
    output: &'static str,
    noted: &'static str,
}

/// A submission that may be tried twice.
const TWO_TRIES: &[&str] = &["submit", "--port", "8080", "--tries", "2"];

/// A query of the job that `DOCUMENT` makes.
const QUERY: &[&str] = &[
    "query",
    "--port",
    "8080",
    "--job",
    "8b35c5cc-fec2-5479-8778-9cbe6f137978",
];

/// Deletions of nothing, which end well without a word. What another row does not say is as in this one.
const NOTHING: Row = Row {
    row: "an empty input asks for nothing",
    words: &["delete"],
    input: "",
    answers: ["", ""],
    fail: NO_DIAL,
    status: 0,
    output: "",
    noted: "",
};

const ROWS: [Row; 14] = [
    Row {
        row: "a first answer that is cut, and a second that names the job",
        words: &["submit", "--port", "8080"],
        input: DOCUMENT,
        answers: [CUT, DUPLICATE],
        output: "8b35c5cc-fec2-5479-8778-9cbe6f137978\n",
        ..NOTHING
    },
    Row {
        row: "no line",
        words: &["submit", "--port=8080", "--tries=1"],
        input: DOCUMENT,
        fail: 1,
        status: 16,
        noted: "fts: link failed\n",
        ..NOTHING
    },
    Row {
        row: "a service that cannot serve",
        words: TWO_TRIES,
        input: DOCUMENT,
        answers: [DISK_FAILED, DISK_FAILED],
        status: 18,
        noted: "fts: service cannot serve: 503\n",
        ..NOTHING
    },
    Row {
        row: "no whole answer",
        words: TWO_TRIES,
        input: DOCUMENT,
        answers: [DISK_FAILED, CUT],
        status: 17,
        noted: "fts: no whole answer\n",
        ..NOTHING
    },
    Row {
        row: "a document without an own id",
        words: &["submit", "--port", "8080"],
        input: ANONYMOUS,
        status: 19,
        noted: "fts: document rule 24\n",
        ..NOTHING
    },
    Row {
        row: "a job that is not there",
        words: QUERY,
        answers: [
            "HTTP/1.1 404 Not Found\r\nContent-Type: application/json\r\nContent-Length: 43\r\nConnection: close\r\n\r\n{\"message\":\"no job\",\"rule\":31,\"status\":404}",
            "",
        ],
        status: 15,
        noted: "fts: service refused with 404\n",
        ..NOTHING
    },
    Row {
        row: "a job that is there",
        words: QUERY,
        answers: [FOUND, ""],
        output: "{\"job_id\":\"\"}\n",
        ..NOTHING
    },
    Row {
        row: "a job that no id names",
        words: &["query", "--port", "8080", "--job", "8b35c5cc"],
        answers: [FOUND, ""],
        status: 2,
        noted: "fts: not a command\n",
        ..NOTHING
    },
    Row {
        row: "eleven tries",
        words: &["submit", "--port", "8080", "--tries", "11"],
        input: DOCUMENT,
        answers: [DUPLICATE, ""],
        status: 2,
        noted: "fts: not a command\n",
        ..NOTHING
    },
    Row {
        row: "a file that goes, and one that was not there",
        input: "{\"delete\":[\"https://a.example/data/f1\",\"https://a.example/data/no\"]}",
        output: "delete 1 FINISHED https://a.example/data/f1\ndelete 2 FINISHED https://a.example/data/no\n",
        ..NOTHING
    },
    Row {
        row: "no deletions",
        input: "{\"delete\":[]}",
        status: 20,
        noted: "fts: delete document rule 3\n",
        ..NOTHING
    },
    NOTHING,
    Row {
        row: "a primary without entries",
        words: &["follow", "--port", "8080"],
        answers: [
            "HTTP/1.1 404 Not Found\r\nContent-Type: application/json\r\nContent-Length: 45\r\nConnection: close\r\n\r\n{\"message\":\"no entry\",\"rule\":47,\"status\":404}",
            "",
        ],
        output: "caught up at 0\n",
        ..NOTHING
    },
    Row {
        row: "an entry of another number",
        words: &["follow", "--port", "8080", "--tries", "1"],
        answers: [
            "HTTP/1.1 200 OK\r\nContent-Type: application/json\r\nContent-Length: 48\r\nConnection: close\r\n\r\n{\"body\":\"030380e2cfaa0601\",\"count\":3,\"number\":1}",
            "",
        ],
        status: 17,
        noted: "fts: no whole answer\n",
        ..NOTHING
    },
];

/// A line that answers this, and of which no call fails.
fn line(alloc: Global, answer: &str) -> io::Result<MemoryLine>
    ensures { IfOk result (λ made. has_failed made ≡ false) }
{
    let source = MemorySource::new(answer.as_bytes().to_vec(alloc)?, Vec::new(alloc));
    let sink = MemorySink::new(alloc, Vec::new(alloc));
    Ok(MemoryLine::new(source, sink))
}

/// A link whose lines answer these. The dial of this number fails.
fn link(alloc: Global, answers: [&str; 2], fail: u32) -> io::Result<MemoryLink> {
    let first = line(alloc, answers[0])?;
    let second = line(alloc, answers[1])?;
    let lines = vec![in alloc; first, second]?;
    match MemoryLink::new(alloc, lines, vec![in alloc; fail]?) {
        Ok(link) => Ok(link),
        Err((memory, _)) => Err(no_memory(memory)),
    }
}

/// Plays a row: whether status, output and note are as wanted.
fn is_wanted(alloc: Global, row: &Row) -> io::Result<bool> {
    let given = Given {
        link: link(alloc, row.answers, row.fail)?,
        ..make_given(alloc, SETTINGS, source(alloc, row.input.as_bytes())?)?
    };
    let hands = hands_with(alloc, &["data/f1"], Vec::new(alloc))?;
    let ended = run_anew(alloc, row.words, given, hands)?;
    Ok(
        ended.ending.status == row.status
            && ended.output.bytes() == row.output.as_bytes()
            && ended.notes.bytes() == row.noted.as_bytes(),
    )
}

/// Plays each row, and prints what is otherwise than wanted, and how many were as wanted.
pub fn play_all(rt: &HostRuntime) -> io::Result<()> {
    let mut same: u32 = 0;
    for row in &ROWS {
        let is_wanted = is_wanted(rt.alloc(), row)?;
        same = same.saturating_add(count_row(rt, row.row, is_wanted)?);
    }
    print_count(rt, "errands as wanted", same)
}
