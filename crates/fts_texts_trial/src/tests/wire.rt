//! Of `fts_wire`, requests: that each call succeeds with ample memory, that the definitions mean what the standard means however the bytes are cut,
//! and the limits of heads and bodies.
use super::checks::{check, check_found, must};
use fts_tables::Memory;
use fts_wire::{MemorySource, Request, Room, WireFault, next_request};
use std::alloc::AllocError;

/// What a call said of its source.
#[derive(Clone, Copy, PartialEq, Eq)]
enum Said {
    More,
    Failed,
    Ended,
}

/// Notes the next request: method, path, query, body and whether the connection stays (`;`) or ends (`.`). Or the end.
fn note_next(
    room: &mut Room,
    source: &mut MemorySource,
    notes: &mut Vec<u8>,
) -> Result<Said, AllocError> {
    match next_request(room, source) {
        Ok(Some(request)) => {
            note_request(request, notes)?;
            return Ok(Said::More);
        }
        Ok(None) => notes.extend_from_slice(b"end")?,
        Err(WireFault::SourceFailed) => return Ok(Said::Failed),
        Err(fault) => notes.extend_from_slice(fault.message().unwrap_or("inside").as_bytes())?,
    }
    Ok(Said::Ended)
}

fn note_request(request: Request, notes: &mut Vec<u8>) -> Result<(), AllocError> {
    notes.extend_from_slice(request.method.as_bytes())?;
    notes.push(b' ')?;
    notes.extend_from_slice(request.path.as_bytes())?;
    if let Some(query) = request.query {
        notes.push(b'|')?;
        notes.extend_from_slice(query.as_bytes())?;
    }
    notes.push(b' ')?;
    notes.extend_from_slice(request.body)?;
    notes.push(if request.close { b'.' } else { b';' })?;
    Ok(())
}

/// A source of these bytes, whose read of this number fails.
fn source_of(rt: &HostRuntime, bytes: &[u8], fail: u64) -> Result<MemorySource, AllocError> {
    let bytes = Vec::from_slice(rt.alloc(), bytes)?;
    Ok(MemorySource::new(bytes, vec![in rt.alloc(); fail; 1]?))
}

/// Notes what stands in a source.
fn note_all(
    room: &mut Room,
    source: &mut MemorySource,
    notes: &mut Vec<u8>,
) -> Result<Said, AllocError> {
    let mut said = Said::More;
    for _ in 0..9 {
        if said == Said::More {
            said = note_next(room, source, notes)?;
        }
    }
    Ok(said)
}

/// Reads a part of the input, from a source that fails behind it unless it is the last one, and notes what stands in it.
fn note_part(
    rt: &HostRuntime,
    room: &mut Room,
    part: &[u8],
    is_last: bool,
    notes: &mut Vec<u8>,
) -> Result<Said, AllocError> {
    let failing = if part.is_empty() { 1 } else { 2 };
    let fail = if is_last { 9 } else { failing };
    let mut source = source_of(rt, part, fail)?;
    note_all(room, &mut source, notes)
}

/// Reads the input in parts, each from a source of its own, and notes what stands in them.
fn note_parts(
    rt: &HostRuntime,
    room: &mut Room,
    parts: &[&[u8]],
    notes: &mut Vec<u8>,
) -> Result<(), AllocError> {
    let mut said = Said::Failed;
    for part in parts {
        if said != Said::Ended {
            said = note_part(rt, room, part, false, notes)?;
        }
    }
    if said != Said::Ended {
        note_part(rt, room, &[], true, notes)?;
    }
    Ok(())
}

/// Whether the input gives these notes as it is read in these parts.
fn are_parts_read_so(rt: &HostRuntime, parts: &[&[u8]], want: &str) -> Result<bool, Memory> {
    let mut room = Room::new(rt.alloc())?;
    let mut notes = Vec::new(rt.alloc());
    note_parts(rt, &mut room, parts, &mut notes)?;
    Ok(notes.as_slice() == want.as_bytes())
}

/// Whether the input gives these notes as it is read byte by byte.
fn is_read_by_bytes(rt: &HostRuntime, input: &[u8], want: &str) -> Result<bool, Memory> {
    let mut single = Vec::new(rt.alloc());
    for byte in input.chunks(1) {
        if single.push(byte).is_err() {
            return Err(Memory);
        }
    }
    are_parts_read_so(rt, single.as_slice(), want)
}

/// Whether the input gives these notes as it is cut in two at each place, and as it is read byte by byte.
/// Input of more than 1,000 bytes is not read byte by byte.
fn is_read_so(rt: &HostRuntime, input: &[u8], want: &str) -> Result<bool, Memory> {
    for cut in 0..=input.len() {
        if !are_parts_read_so(rt, &[&input[..cut], &input[cut..]], want)? {
            return Ok(false);
        }
    }
    if input.len() > 1000 {
        return Ok(true);
    }
    is_read_by_bytes(rt, input, want)
}

/// A row: a sentence, what is read, and the notes of it.
type InputRow = (&'static str, &'static str, &'static str);

/// Requests, and ends within one.
const REQUESTS: [InputRow; 15] = [
    ("the empty input", "", "end"),
    ("empty lines alone", "\r\n\n\r", "end"),
    ("an empty line and a letter", "\r\nG", "inside"),
    (
        "empty lines, and a request",
        "\r\n\n\rGET / HTTP/1.1\r\n\r\n",
        "GET / ;end",
    ),
    (
        "two bodies, and an empty line between",
        "POST /jobs HTTP/1.1\r\nContent-Length: 1\r\n\r\n[\r\nPOST /jobs HTTP/1.1\r\nContent-Length: 02\r\n\r\n{}",
        "POST /jobs [;POST /jobs {};end",
    ),
    (
        "a field whose name ends in the word of another",
        "GET / HTTP/1.1\r\nX-Origin: http://a.example\r\n\r\n",
        "GET / ;end",
    ),
    (
        "a length between other fields",
        "PUT /jobs HTTP/1.1\r\nAccept: */*\r\nContent-Length: 2\r\nHost: a\r\n\r\n{}",
        "PUT /jobs {};end",
    ),
    (
        "line feeds alone",
        "GET / HTTP/1.1\nHost: a\n\n",
        "GET / ;end",
    ),
    (
        "mixed ends of lines, mixed case, and blanks around",
        "POST / HTTP/1.1\r\nHost:\ncoNTent-LENgth:\t 1 \t\r\n\nx",
        "POST / x;end",
    ),
    (
        "a path beyond ASCII, and two question marks",
        "GET /é?limit=1?2 HTTP/1.1\r\n\r\n",
        "GET /é|limit=1?2 ;end",
    ),
    (
        "an empty query",
        "OPTIONS *? HTTP/1.1\r\n\r\n",
        "OPTIONS *| ;end",
    ),
    (
        "two requests with no body",
        "HEAD /jobs HTTP/1.1\r\nHost: a\r\n\r\nGET / HTTP/1.1\r\nHost: a\r\n\r\n",
        "HEAD /jobs ;GET / ;end",
    ),
    ("an end within the first line", "POST / HT", "inside"),
    (
        "an end before the last line feed",
        "GET / HTTP/1.1\r\nHost: a\r\n\r",
        "inside",
    ),
    ("zero bytes, and no end", "\0\n\0", "inside"),
];

/// Whether a row's input is read as it says.
fn is_row_read_so(rt: &HostRuntime, row: &InputRow) -> Result<bool, Memory> {
    is_read_so(rt, row.1.as_bytes(), row.2)
}

#[test]
fn requests_are_the_same_however_they_are_cut(rt: HostRuntime) {
    for row in &REQUESTS {
        check_found(&rt, is_row_read_so(&rt, row), row.0);
    }
}

/// A row: a sentence and a head.
type HeadRow = (&'static str, &'static str);

/// Heads that the grammar has not.
const REFUSED: [HeadRow; 17] = [
    ("a folded field", "GET / HTTP/1.1\r\nA: b\r\n c\r\n\r\n"),
    (
        "a blank before the colon",
        "GET / HTTP/1.1\r\nHost : a\r\n\r\n",
    ),
    (
        "a blank before the first field",
        "GET / HTTP/1.1\r\n Host: a\r\n\r\n",
    ),
    ("a field with no colon", "GET / HTTP/1.1\r\nHost\r\n\r\n"),
    ("a field with no name", "GET / HTTP/1.1\r\n: a\r\n\r\n"),
    (
        "a control byte in a value",
        "GET / HTTP/1.1\r\nA: \x01\r\n\r\n",
    ),
    (
        "a carriage return in a value",
        "GET / HTTP/1.1\r\nA: b\rc\r\n\r\n",
    ),
    (
        "a carriage return for a field",
        "GET / HTTP/1.1\r\n\r\r\n\r\n",
    ),
    ("two blanks behind the method", "GET  / HTTP/1.1\r\n\r\n"),
    ("a blank before the method", " GET / HTTP/1.1\r\n\r\n"),
    ("a bracket in the method", "GE(T / HTTP/1.1\r\n\r\n"),
    ("no version", "GET /\r\n\r\n"),
    ("another version", "GET / HTTP/1.2\r\n\r\n"),
    ("a version in lower case", "GET / http/1.1\r\n\r\n"),
    ("a blank behind the version", "GET / HTTP/1.1 \r\n\r\n"),
    ("a control byte in the target", "GET /\x7f HTTP/1.1\r\n\r\n"),
    ("a zero byte for the first line", "\0\n\n"),
];

#[test]
fn heads_outside_the_grammar_are_refused(rt: HostRuntime) {
    for row in &REFUSED {
        check_found(&rt, is_read_so(&rt, row.1.as_bytes(), "bad head"), row.0);
    }
    let no_text = b"GET /\xff HTTP/1.1\r\n\r\n";
    check_found(
        &rt,
        is_read_so(&rt, no_text, "bad head"),
        "a target that is no text",
    );
}

/// Fields of a request with the body `x`.
const FIELDS: [InputRow; 10] = [
    (
        "chunks, and a length that is no number",
        "Content-Length: x\r\nTransfer-Encoding: chunked",
        "chunked",
    ),
    (
        "an origin, as a browser sends for a page",
        "Content-Length: 1\r\nOrigin: http://a.example",
        "foreign origin",
    ),
    (
        "an origin of no site, its name in other case",
        "oRIGIN: null\r\nContent-Length: 1",
        "foreign origin",
    ),
    (
        "a length of 19 digits",
        "Content-Length: 0000000000000000001",
        "POST / x;end",
    ),
    (
        "the greatest length of 19 digits",
        "Content-Length: 9999999999999999999",
        "body too large",
    ),
    (
        "a byte more than the limit",
        "Content-Length: 1048577",
        "body too large",
    ),
    (
        "as many bytes as the limit",
        "Content-Length: 1048576",
        "inside",
    ),
    (
        "the last request",
        "Content-Length: 1\r\nConnection: Close",
        "POST / x.end",
    ),
    (
        "the last request, by the second field",
        "Content-Length: 1\r\nConnection: te\r\nCONNECTION: close",
        "POST / x.end",
    ),
    (
        "a connection that stays",
        "Content-Length: 1\r\nConnection: keep-alive",
        "POST / x;end",
    ),
];

/// Fields of a request whose length is refused: a sentence, and the fields.
const BAD_LENGTHS: [(&str, &str); 6] = [
    (
        "an origin behind a fault of the framing",
        "Origin: null\r\nContent-Length: x",
    ),
    ("a length twice", "Content-Length: 1\r\nContent-Length: 1"),
    ("an empty length", "Content-Length: "),
    ("a length with a sign", "Content-Length: +1"),
    ("two lengths in one field", "Content-Length: 1, 1"),
    (
        "a length of 20 digits",
        "Content-Length: 00000000000000000001",
    ),
];

/// Whether a request with these fields gives these notes.
fn are_fields_read_so(rt: &HostRuntime, fields: &str, want: &str) -> Result<bool, Memory> {
    let input = repeated(rt, "POST / HTTP/1.1\r\n", fields, 1, "\r\n\r\nx")?;
    is_read_so(rt, input.as_slice(), want)
}

#[test]
fn a_length_that_is_none_is_refused(rt: HostRuntime) {
    for (case, fields) in BAD_LENGTHS {
        check_found(&rt, are_fields_read_so(&rt, fields, "bad length"), case);
    }
}

#[test]
fn fields_say_the_length_and_the_end(rt: HostRuntime) {
    for (case, fields, want) in FIELDS {
        check_found(&rt, are_fields_read_so(&rt, fields, want), case);
    }
    let old = b"GET / HTTP/1.0\r\nConnection: keep-alive\r\n\r\n";
    check_found(&rt, is_read_so(&rt, old, "GET / .end"), "version 1.0");
}

/// Two requests of curl, one each of Python's http.client, of Go and of a browser.
const CLIENTS: [InputRow; 5] = [
    (
        "curl, with no body",
        "GET /jobs HTTP/1.1\r\nHost: localhost:8446\r\nUser-Agent: curl/8.5.0\r\nAccept: */*\r\n\r\n",
        "GET /jobs ;end",
    ),
    (
        "curl, with a body",
        "POST /jobs HTTP/1.1\r\nHost: 127.0.0.1:8446\r\nUser-Agent: curl/8.5.0\r\nAccept: */*\r\n\
         Content-Type: application/json\r\nContent-Length: 2\r\n\r\n{}",
        "POST /jobs {};end",
    ),
    (
        "Python's http.client",
        "POST /jobs?limit=5 HTTP/1.1\r\nHost: localhost:8446\r\nAccept-Encoding: identity\r\nContent-Length: 2\r\nContent-Type: application/json\r\n\r\n{}",
        "POST /jobs|limit=5 {};end",
    ),
    (
        "Go's client",
        "PUT /jobs HTTP/1.1\r\nHost: localhost:8446\r\nUser-Agent: Go-http-client/1.1\r\nContent-Length: 2\r\n\
         Content-Type: application/json\r\nAccept-Encoding: gzip\r\nConnection: close\r\n\r\n{}",
        "PUT /jobs {}.end",
    ),
    (
        "a browser",
        "GET /jobs HTTP/1.1\r\nHost: localhost:8446\r\n\
         User-Agent: Mozilla/5.0 (X11; Linux x86_64; rv:128.0) Gecko/20100101 Firefox/128.0\r\n\
         Accept: text/html,application/xhtml+xml,application/xml;q=0.9,*/*;q=0.8\r\nAccept-Language: en-US,en;q=0.5\r\n\
         Accept-Encoding: gzip, deflate, br, zstd\r\nDNT: 1\r\nConnection: keep-alive\r\nUpgrade-Insecure-Requests: 1\r\n\
         Sec-Fetch-Dest: document\r\nSec-Fetch-Mode: navigate\r\nSec-Fetch-Site: none\r\nPriority: u=0, i\r\n\r\n",
        "GET /jobs ;end",
    ),
];

#[test]
fn heads_of_clients_are_read(rt: HostRuntime) {
    for row in &CLIENTS {
        check_found(&rt, is_row_read_so(&rt, row), row.0);
    }
}

/// So many times a text, between two others.
fn repeated(
    rt: &HostRuntime,
    front: &str,
    text: &str,
    count: usize,
    back: &str,
) -> Result<Vec<u8>, AllocError> {
    let mut bytes = Vec::from_slice(rt.alloc(), front.as_bytes())?;
    for _ in 0..count {
        bytes.extend_from_slice(text.as_bytes())?;
    }
    bytes.extend_from_slice(back.as_bytes())?;
    Ok(bytes)
}

/// A row: a sentence, a front, a text and how often it comes, a back, and the notes of it all.
type SizeRow = (
    &'static str,
    &'static str,
    &'static str,
    usize,
    &'static str,
    &'static str,
);

/// Heads about the greatest size.
const SIZES: [SizeRow; 10] = [
    (
        "64 fields",
        "GET / HTTP/1.1\r\n",
        "A: b\r\n",
        64,
        "\r\n",
        "GET / ;end",
    ),
    (
        "65 fields",
        "GET / HTTP/1.1\r\n",
        "A: b\r\n",
        65,
        "\r\n",
        "head too large",
    ),
    (
        "65 fields without the end",
        "GET / HTTP/1.1\r\n",
        "A: b\r\n",
        65,
        "",
        "inside",
    ),
    (
        "65 broken fields",
        "GET\n",
        "A\n",
        65,
        "\n",
        "head too large",
    ),
    (
        "16,384 bytes",
        "GET / HTTP/1.1\r\nA: ",
        "a",
        16_361,
        "\r\n\r\n",
        "GET / ;end",
    ),
    (
        "a byte more",
        "GET / HTTP/1.1\r\nA: ",
        "a",
        16_362,
        "\r\n\r\n",
        "head too large",
    ),
    (
        "empty lines, 16,384 bytes in all",
        "",
        "\r\n",
        8_183,
        "GET / HTTP/1.1\r\n\r\n",
        "GET / ;end",
    ),
    (
        "empty lines, and a byte more",
        "\n",
        "\r\n",
        8_183,
        "GET / HTTP/1.1\r\n\r\n",
        "head too large",
    ),
    (
        "16,384 bytes of empty lines",
        "",
        "\r\n",
        8_192,
        "",
        "head too large",
    ),
    (
        "16,383 bytes of empty lines",
        "\r",
        "\r\n",
        8_191,
        "",
        "end",
    ),
];

/// Whether the head of a row is read as it says.
fn is_size_read_so(rt: &HostRuntime, row: &SizeRow) -> Result<bool, Memory> {
    let input = repeated(rt, row.1, row.2, row.3, row.4)?;
    is_read_so(rt, input.as_slice(), row.5)
}

#[test]
fn heads_have_a_greatest_size(rt: HostRuntime) {
    for row in &SIZES {
        check_found(&rt, is_size_read_so(&rt, row), row.0);
    }
}

#[test]
fn a_room_is_cleared(rt: HostRuntime) {
    let text = b"POST /jobs HTTP/1.1\r\nContent-Length: 1\r\n\r\nxPOST";
    let mut source = must(&rt, source_of(&rt, text, 9), "there is memory");
    let mut room = must(&rt, Room::new(rt.alloc()), "there is room");
    let is_there = room.load(&mut source) == Ok(true);
    check(&rt, is_there, "a request is there");
    room.clear();
    let has_body = room.request().body == b"x".as_slice();
    check(&rt, has_body, "its body stays");
    let is_gone = room.load(&mut source) == Ok(false);
    check(&rt, is_gone, "what came behind it is gone");
}
