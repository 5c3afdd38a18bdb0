//! Of `fts_wire`, responses: that each call succeeds with ample memory, that the bytes are the standard's, in how few pieces a response goes out,
//! and what is written where a write fails.
ghost use Rattle.std.specs.Prelude.{◌≡◌, IfOk, IsTrue};
ghost use Rattle.fts_wire.specs.Response.{has_phrase, has_methods};

use super::checks::check_found;
use fts_tables::Items;
use fts_wire::{
    Allow, MemoryLine, MemorySink, MemorySource, Reply, Sink, SinkFailed, write_response,
};
use std::alloc::{AllocError, Global};
use std::process::Abort;

/// A reply of this status.
fn reply_of(alloc: Global, status: u16, allow: Allow, body: &[u8]) -> Result<Reply, AllocError>
    ensures { IfOk result (λ r. (r.status ≡ status) × (r.allow ≡ allow)) }
{
    let body = Items::from_vec(Vec::from_slice(alloc, body)?);
    Ok(Reply {
        status,
        allow,
        body,
    })
}

/// Whether the response of this status to a body of `{}` has these bytes.
fn is_response(
    alloc: Global,
    status: u16,
    allow: Allow,
    sent: (bool, bool),
    want: &str,
) -> Result<bool, AllocError>
    requires phrase { IsTrue (has_phrase status) }
    requires methods { IsTrue (has_methods status allow) }
{
    let reply = reply_of(alloc, status, allow, b"{}")?;
    let mut sink = MemorySink::new(alloc, Vec::new(alloc));
    let (head_only, close) = sent;
    let is_sent = write_response(&mut sink, head_only, close, &reply).is_ok();
    Ok(is_sent && sink.bytes() == want.as_bytes())
}

/// The response of this status to a body of `{}`, sent without the body, and as the last one, has these bytes.
fn check_response(
    rt: &impl Abort,
    alloc: Global,
    case: &str,
    status: u16,
    allow: Allow,
    sent: (bool, bool),
    want: &str,
)
    requires phrase { IsTrue (has_phrase status) }
    requires methods { IsTrue (has_methods status allow) }
{
    let is_so = is_response(alloc, status, allow, sent, want);
    check_found(rt, is_so, case);
}

#[test]
fn responses_have_the_bytes_of_the_standard(rt: HostRuntime) {
    check_response(
        &rt,
        rt.alloc(),
        "a reply",
        200,
        Allow::None,
        (false, false),
        "HTTP/1.1 200 OK\r\nContent-Type: application/json\r\nContent-Length: 2\r\n\r\n{}",
    );
    check_response(
        &rt,
        rt.alloc(),
        "a reply to HEAD",
        200,
        Allow::None,
        (true, false),
        "HTTP/1.1 200 OK\r\nContent-Type: application/json\r\nContent-Length: 0\r\n\r\n",
    );
    check_response(
        &rt,
        rt.alloc(),
        "the last reply",
        501,
        Allow::None,
        (false, true),
        "HTTP/1.1 501 Not Implemented\r\nContent-Type: application/json\r\nContent-Length: 2\r\nConnection: close\r\n\r\n{}",
    );
    check_response(
        &rt,
        rt.alloc(),
        "a refusal of a method",
        405,
        Allow::Jobs,
        (false, true),
        "HTTP/1.1 405 Method Not Allowed\r\nContent-Type: application/json\r\nContent-Length: 2\r\nAllow: GET, POST, PUT\r\nConnection: close\r\n\r\n{}",
    );
    check_response(
        &rt,
        rt.alloc(),
        "methods at another status",
        507,
        Allow::Job,
        (false, false),
        "HTTP/1.1 507 Insufficient Storage\r\nContent-Type: application/json\r\nContent-Length: 2\r\n\r\n{}",
    );
}

/// A writer that notes how long each piece is that it is handed, and takes all of it.
#[derive(Drop)]
struct PieceLengths {
    lengths: Vec<usize>,
}

impl Sink for PieceLengths {
    ghost use Rattle.std.specs.Prelude.{None};
    ghost use Rattle.fts_wire.specs.Outside.{nothing_beside};

    ghost held = { λ _. None };

    ghost faults = { λ _. 18446744073709551615 };

    ghost beside = { λ _. nothing_beside };

    fn write(&mut self, bytes: &[u8]) -> Result<usize, SinkFailed> {
        match self.lengths.push(bytes.len()) {
            Ok(()) => Ok(bytes.len()),
            Err(_) => Err(SinkFailed),
        }
    }
}

/// A row: a sentence, how many bytes a body has, whether it is left out, and how long the pieces are.
type PieceRow = (&'static str, usize, bool, &'static [usize]);

// A head of 200 with a length of four digits has 73 bytes, and one digit more is one byte more.
const PIECES: [PieceRow; 6] = [
    ("no body", 0, false, &[70]),
    ("a short one", 4023, false, &[4096]),
    ("a byte more", 4024, false, &[4097]),
    ("the greatest that is one piece", 65_462, false, &[65_536]),
    ("more than one piece", 65_463, false, &[4096, 61_441]),
    ("a large one without its body", 65_463, true, &[70]),
];

/// Whether a response goes out in the pieces of a row.
fn is_sent_in(rt: &HostRuntime, row: &PieceRow) -> Result<bool, AllocError> {
    let body = vec![in rt.alloc(); b' '; row.1]?;
    let reply = reply_of(rt.alloc(), 200, Allow::None, body.as_slice())?;
    let mut sink = PieceLengths {
        lengths: Vec::new(rt.alloc()),
    };
    let is_sent = write_response(&mut sink, row.2, false, &reply).is_ok();
    Ok(is_sent && sink.lengths.as_slice() == row.3)
}

#[test]
fn a_response_goes_out_in_few_pieces(rt: HostRuntime) {
    for row in &PIECES {
        check_found(&rt, is_sent_in(&rt, row), row.0);
    }
}

/// A row: a sentence, the write that fails, whether the response is whole, and how many of its bytes are written.
type WriteRow = (&'static str, u64, bool, usize);

const WRITES: [WriteRow; 3] = [
    ("the first write", 1, false, 0),
    ("the second write", 2, false, 4096),
    ("no write", 3, true, 70_074),
];

/// A line whose write of this number fails.
fn line_of(rt: &HostRuntime, fail: u64) -> Result<MemoryLine, AllocError> {
    let fails = vec![in rt.alloc(); fail; 1]?;
    let source = MemorySource::new(Vec::new(rt.alloc()), Vec::new(rt.alloc()));
    Ok(MemoryLine::new(source, MemorySink::new(rt.alloc(), fails)))
}

/// Whether a large response is written as a row says.
fn is_written_so(rt: &HostRuntime, row: &WriteRow) -> Result<bool, AllocError> {
    let mut line = line_of(rt, row.1)?;
    let body = vec![in rt.alloc(); b' '; 70_000]?;
    let reply = reply_of(rt.alloc(), 200, Allow::None, body.as_slice())?;
    let is_sent = write_response(&mut line, false, false, &reply).is_ok();
    Ok(is_sent == row.2 && line.bytes().len() == row.3)
}

#[test]
fn each_write_of_a_line_fails_in_turn(rt: HostRuntime) {
    for row in &WRITES {
        check_found(&rt, is_written_so(&rt, row), row.0);
    }
}
