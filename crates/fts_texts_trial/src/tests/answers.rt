//! Of `fts_wire`, as a client reads: responses of the service and hostile ones, each cut in two at every place, and how much of a line is read.

use super::checks::{check, check_found, must};
use fts_wire::{AnswerFault, AnswerRoom, MemorySource, Source, SourceFailed, next_response};
use std::io::{self, Write};

/// A source that gives its bytes up to a cut, and then the others.
#[derive(Drop)]
struct CutSource {
    bytes: Vec<u8>,
    at: usize,
    cut: usize,
}

impl CutSource {
    fn new(rt: &HostRuntime, bytes: &[u8], cut: usize) -> io::Result<CutSource> {
        let bytes = Vec::from_slice(rt.alloc(), bytes)?;
        Ok(CutSource { bytes, at: 0, cut })
    }
}

impl Source for CutSource {
    ghost use Rattle.std.specs.Prelude.{None};
    ghost use Rattle.fts_wire.specs.Outside.{nothing_beside};

    ghost left = { λ _. None };

    ghost faults = { λ _. 18446744073709551615 };

    ghost reads = { λ _. 18446744073709551615 };

    ghost beside = { λ _. nothing_beside };

    fn read(&mut self, into: &mut [u8]) -> Result<usize, SourceFailed> {
        let all = self.bytes.len();
        let from = self.at.min(all);
        let end = if from < self.cut {
            self.cut.min(all)
        } else {
            all
        };
        let n = (end - from).min(into.len());
        into[..n].copy_from_slice(&self.bytes[from..from + n]);
        self.at = from + n;
        Ok(n)
    }
}

/// What came of reading a response: its status and a body of at most 100 bytes, or the fault.
fn note_of<S: Source>(
    rt: &HostRuntime,
    room: &mut AnswerRoom,
    source: &mut S,
) -> io::Result<Vec<u8>> {
    let mut note = Vec::new(rt.alloc());
    match next_response(room, source) {
        Ok(answered) => {
            write!(note, "{} ", answered.status)?;
            note.extend_from_slice(&answered.body[..answered.body.len().min(100)])?;
        }
        Err(AnswerFault::BadResponse) => note.extend_from_slice(b"bad")?,
        Err(AnswerFault::EndsInside) => note.extend_from_slice(b"inside")?,
        Err(AnswerFault::SourceFailed) => note.extend_from_slice(b"failed")?,
    }
    Ok(note)
}

/// Whether the input is read so, cut in two at each place.
fn is_read_so(
    rt: &HostRuntime,
    room: &mut AnswerRoom,
    input: &[u8],
    want: &str,
) -> io::Result<bool> {
    for cut in 0..=input.len() {
        let mut source = CutSource::new(rt, input, cut)?;
        let note = note_of(rt, room, &mut source)?;
        if note.as_slice() != want.as_bytes() {
            return Ok(false);
        }
    }
    Ok(true)
}

/// A row: a sentence, what a line gives, and what is read.
type AnswerRow = (&'static str, &'static str, &'static str);

/// Responses that the service writes, and those that are cut short.
const WRITTEN: [AnswerRow; 9] = [
    (
        "a reply",
        "HTTP/1.1 200 OK\r\nContent-Type: application/json\r\nContent-Length: 2\r\n\r\n{}",
        "200 {}",
    ),
    (
        "the last reply",
        "HTTP/1.1 409 Conflict\r\nContent-Type: application/json\r\nContent-Length: 2\r\nConnection: close\r\n\r\n{}",
        "409 {}",
    ),
    (
        "a refusal of a method",
        "HTTP/1.1 405 Method Not Allowed\r\nContent-Type: application/json\r\nContent-Length: 2\r\nAllow: DELETE, GET, POST\r\nConnection: close\r\n\r\n{}",
        "405 {}",
    ),
    (
        "no body",
        "HTTP/1.1 500 Internal Server Error\r\nContent-Type: application/json\r\nContent-Length: 0\r\n\r\n",
        "500 ",
    ),
    (
        "bytes behind the body",
        "HTTP/1.1 200 OK\r\nContent-Type: application/json\r\nContent-Length: 2\r\n\r\n{}HTTP/1.1 200 OK\r\n",
        "200 {}",
    ),
    (
        "a body that ends early",
        "HTTP/1.1 200 OK\r\nContent-Type: application/json\r\nContent-Length: 3\r\n\r\n{}",
        "inside",
    ),
    (
        "a head that ends early",
        "HTTP/1.1 503 Service Unavailable\r\nContent-Type: application/json\r\nContent-Length: 12",
        "inside",
    ),
    ("nothing", "", "inside"),
    (
        "the greatest length, and no body",
        "HTTP/1.1 200 OK\r\nContent-Type: application/json\r\nContent-Length: 8389632\r\n\r\n",
        "inside",
    ),
];

/// Responses that it doesn't write.
const FOREIGN: [AnswerRow; 18] = [
    (
        "no length",
        "HTTP/1.1 200 OK\r\nContent-Type: application/json\r\n\r\n{}",
        "bad",
    ),
    (
        "a length past the limit",
        "HTTP/1.1 200 OK\r\nContent-Type: application/json\r\nContent-Length: 8389633",
        "bad",
    ),
    (
        "a length of twenty digits",
        "HTTP/1.1 200 OK\r\nContent-Type: application/json\r\nContent-Length: 99999999999999999999",
        "bad",
    ),
    (
        "a length that begins with a zero",
        "HTTP/1.1 200 OK\r\nContent-Type: application/json\r\nContent-Length: 02\r\n\r\n{}",
        "bad",
    ),
    (
        "a length with a sign",
        "HTTP/1.1 200 OK\r\nContent-Type: application/json\r\nContent-Length: +2\r\n\r\n{}",
        "bad",
    ),
    (
        "a length with a blank behind it",
        "HTTP/1.1 200 OK\r\nContent-Type: application/json\r\nContent-Length: 2 \r\n\r\n{}",
        "bad",
    ),
    (
        "an empty length",
        "HTTP/1.1 200 OK\r\nContent-Type: application/json\r\nContent-Length: \r\n\r\n",
        "bad",
    ),
    (
        "two lengths",
        "HTTP/1.1 200 OK\r\nContent-Type: application/json\r\nContent-Length: 2\r\nContent-Length: 2\r\n\r\n{}",
        "bad",
    ),
    (
        "another field",
        "HTTP/1.1 200 OK\r\nServer: nginx\r\nContent-Type: application/json\r\nContent-Length: 2\r\n\r\n{}",
        "bad",
    ),
    (
        "another status",
        "HTTP/1.1 201 Created\r\nContent-Type: application/json\r\nContent-Length: 2\r\n\r\n{}",
        "bad",
    ),
    (
        "another phrase",
        "HTTP/1.1 200 ok\r\nContent-Type: application/json\r\nContent-Length: 2\r\n\r\n{}",
        "bad",
    ),
    (
        "the phrase of another status",
        "HTTP/1.1 404 OK\r\nContent-Type: application/json\r\nContent-Length: 2\r\n\r\n{}",
        "bad",
    ),
    (
        "another version",
        "HTTP/1.0 200 OK\r\nContent-Type: application/json\r\nContent-Length: 2\r\n\r\n{}",
        "bad",
    ),
    (
        "line feeds alone",
        "HTTP/1.1 200 OK\nContent-Type: application/json\nContent-Length: 2\n\n{}",
        "bad",
    ),
    (
        "a refusal of a method that names none",
        "HTTP/1.1 405 Method Not Allowed\r\nContent-Type: application/json\r\nContent-Length: 2\r\n\r\n{}",
        "bad",
    ),
    (
        "methods at another status",
        "HTTP/1.1 404 Not Found\r\nContent-Type: application/json\r\nContent-Length: 2\r\nAllow: GET\r\n\r\n{}",
        "bad",
    ),
    (
        "the end before the methods",
        "HTTP/1.1 405 Method Not Allowed\r\nContent-Type: application/json\r\nContent-Length: 2\r\nConnection: close\r\nAllow: GET\r\n\r\n{}",
        "bad",
    ),
    ("a request", "GET /jobs HTTP/1.1\r\n\r\n", "bad"),
];

/// Whether a row's input is read as it says.
fn is_row_read_so(rt: &HostRuntime, room: &mut AnswerRoom, row: &AnswerRow) -> io::Result<bool> {
    is_read_so(rt, room, row.1.as_bytes(), row.2)
}

#[test]
fn responses_are_read_however_they_are_cut(rt: HostRuntime) {
    let mut room = must(&rt, AnswerRoom::new(rt.alloc()), "there is room");
    for row in &WRITTEN {
        check_found(&rt, is_row_read_so(&rt, &mut room, row), row.0);
    }
    for row in &FOREIGN {
        check_found(&rt, is_row_read_so(&rt, &mut room, row), row.0);
        check(&rt, room.body().is_empty(), row.0);
    }
}

/// A front, and so many bytes behind it.
fn with_bytes(rt: &HostRuntime, front: &[u8], byte: u8, count: usize) -> io::Result<Vec<u8>> {
    let mut bytes = Vec::from_slice(rt.alloc(), front)?;
    let behind = vec![in rt.alloc(); byte; count]?;
    bytes.extend_from_slice(behind.as_slice())?;
    Ok(bytes)
}

/// A source of these bytes, whose read of this number fails.
fn source_of(rt: &HostRuntime, bytes: Vec<u8>, fail: u64) -> io::Result<MemorySource> {
    Ok(MemorySource::new(bytes, vec![in rt.alloc(); fail; 1]?))
}

/// The status of the next response.
fn status_of<S: Source>(room: &mut AnswerRoom, source: &mut S) -> Result<u16, AnswerFault> {
    let answered = next_response(room, source)?;
    Ok(answered.status)
}

/// A row: a sentence, a front, the byte that stands behind it, and how often.
type BoundRow = (&'static str, &'static str, u8, usize);

const BOUNDS: [BoundRow; 4] = [
    ("a status line of 16 KiB", "HTTP/1.1 200 ", b'O', 16_384),
    ("zero bytes", "", 0, 200_000),
    (
        "a length of many digits",
        "HTTP/1.1 200 OK\r\nContent-Type: application/json\r\nContent-Length: 1",
        b'1',
        200_000,
    ),
    (
        "a length past the limit",
        "HTTP/1.1 200 OK\r\nContent-Type: application/json\r\nContent-Length: 8389633\r\n\r\n",
        b'a',
        200_000,
    ),
];

/// Whether a row's bytes are refused by their first read. The second read fails, so there is none.
fn is_refused_at_once(rt: &HostRuntime, room: &mut AnswerRoom, row: &BoundRow) -> io::Result<bool> {
    let input = with_bytes(rt, row.1.as_bytes(), row.2, row.3)?;
    let mut source = source_of(rt, input, 2)?;
    Ok(status_of(room, &mut source) == Err(AnswerFault::BadResponse))
}

#[test]
fn a_line_is_not_read_without_bound(rt: HostRuntime) {
    let mut room = must(&rt, AnswerRoom::new(rt.alloc()), "there is room");
    for row in &BOUNDS {
        check_found(&rt, is_refused_at_once(&rt, &mut room, row), row.0);
    }
}

/// A row: a sentence, how many bytes stand behind the front, the read that fails, what is read, and how many bytes the room holds then.
type BodyRow = (&'static str, usize, u64, Result<u16, AnswerFault>, usize);

// It takes 129 reads of 65,536 bytes, and one more to find the end.
const BODIES: [BodyRow; 2] = [
    (
        "the greatest body, and bytes behind it",
        8_500_000,
        130,
        Ok(200),
        8_389_632,
    ),
    (
        "a byte is wanted",
        8_389_631,
        131,
        Err(AnswerFault::EndsInside),
        0,
    ),
];

/// The front of a response with the greatest body.
const GREATEST: &[u8] =
    b"HTTP/1.1 200 OK\r\nContent-Type: application/json\r\nContent-Length: 8389632\r\n\r\n";

/// Whether a large body is read as a row says.
fn is_body_read_so(rt: &HostRuntime, room: &mut AnswerRoom, row: &BodyRow) -> io::Result<bool> {
    let input = with_bytes(rt, GREATEST, b'a', row.1)?;
    let mut source = source_of(rt, input, row.2)?;
    Ok(status_of(room, &mut source) == row.3 && room.body().len() == row.4)
}

#[test]
fn a_body_has_a_greatest_length(rt: HostRuntime) {
    let mut room = must(&rt, AnswerRoom::new(rt.alloc()), "there is room");
    for row in &BODIES {
        check_found(&rt, is_body_read_so(&rt, &mut room, row), row.0);
    }
}

const WHOLE: &str =
    "HTTP/1.1 200 OK\r\nContent-Type: application/json\r\nContent-Length: 2\r\n\r\n{}";

/// That response, and another behind it.
const TWO_RESPONSES: &str =
    "HTTP/1.1 200 OK\r\nContent-Type: application/json\r\nContent-Length: 2\r\n\r\n{}\
     HTTP/1.1 404 Not Found\r\nContent-Type: application/json\r\nContent-Length: 2\r\n\r\n[]";

/// What is read of these two, one behind the other, on a line that is cut between them.
const THREE_READINGS: [&str; 3] = ["200 {}", "404 []", "inside"];

/// Whether a source gives these readings one behind the other.
fn gives_readings(
    rt: &HostRuntime,
    room: &mut AnswerRoom,
    source: &mut CutSource,
) -> io::Result<bool> {
    for want in &THREE_READINGS {
        if note_of(rt, room, source)?.as_slice() != want.as_bytes() {
            return Ok(false);
        }
    }
    Ok(true)
}

#[test]
fn a_second_response_stays_on_the_line(rt: HostRuntime) {
    let mut room = must(&rt, AnswerRoom::new(rt.alloc()), "there is room");
    let source = CutSource::new(&rt, TWO_RESPONSES.as_bytes(), WHOLE.len());
    let mut source = must(&rt, source, "there is memory");
    let are_given = gives_readings(&rt, &mut room, &mut source);
    check_found(&rt, are_given, "the first, the second, and the end");
}

const SHORT: &str =
    "HTTP/1.1 200 OK\r\nContent-Type: application/json\r\nContent-Length: 3\r\n\r\n{}";

/// A row: a sentence, what a line gives, the read that fails, what is read, and whether the room is empty then.
type FailRow = (&'static str, &'static str, u64, &'static str, bool);

const FAILS: [FailRow; 5] = [
    ("no read fails", WHOLE, 9, "200 {}", false),
    ("the first read fails", WHOLE, 1, "failed", true),
    (
        "the second read fails, and is not needed",
        WHOLE,
        2,
        "200 {}",
        false,
    ),
    ("the second read fails", SHORT, 2, "failed", true),
    ("the input ends", SHORT, 9, "inside", true),
];

/// Whether a line whose read fails is read as a row says.
fn is_fail_told(rt: &HostRuntime, room: &mut AnswerRoom, row: &FailRow) -> io::Result<bool> {
    let bytes = Vec::from_slice(rt.alloc(), row.1.as_bytes())?;
    let mut source = source_of(rt, bytes, row.2)?;
    let note = note_of(rt, room, &mut source)?;
    Ok(note.as_slice() == row.3.as_bytes() && room.body().is_empty() == row.4)
}

#[test]
fn a_read_that_fails_is_told(rt: HostRuntime) {
    let mut room = must(&rt, AnswerRoom::new(rt.alloc()), "there is room");
    for row in &FAILS {
        check_found(&rt, is_fail_told(&rt, &mut room, row), row.0);
    }
}
