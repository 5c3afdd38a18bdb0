//! Responses, each handed to a sink in as few pieces as may be.
//! Keeps: what is written is all of the response's bytes or, after a failed write, a part of them (`write_response`, clause `sent`).
//! Order: the head with as much of the body as makes one piece, and then the rest of the body. A response of up to 65,536 bytes is one piece,
//! since a head and a body that are written apart keep a client waiting for the second. A short one, as most are, has a room of its own size.
//! Format: docs/FORMATS.md, "HTTP" (RFC 9112, section 4).
ghost use Rattle.std.specs.Prelude.{◌≡◌, ◌+◌, ◌≤◌, ◌++◌, length, map, IsTrue};
ghost use Rattle.std.specs.List.{concat};
ghost use Rattle.fts_tables.specs.Counts.{CountsFaults};
ghost use Rattle.fts_wire.specs.declared.response.TheConstants.{ONE_PIECE_BYTES};
ghost use Rattle.fts_wire.specs.Response.{phrase_of, has_phrase, has_methods, allow_line_of, close_line_of, head_of, body_of, response_of, Sends};

use crate::{Sink, SinkFailed, statuses};
use arrayvec::{ArrayString, ArrayVec};
use fts_tables::Items;
use itoa::Buffer;

/// A response of at most this many bytes is put together in a small room; of one that is no single piece so many bytes go out first.
const SHORT_BYTES: usize = 4_096;

/// A response of at most this many bytes is handed to the sink in one piece.
const ONE_PIECE_BYTES: usize = 65_536;

/// More than the longest head.
pub const HEAD_BYTES: usize = 400;

/// The methods that a refusal of a method names.
#[derive(Clone, Copy, Debug, PartialEq, Eq)]
pub enum Allow {
    None,
    Jobs,
    Job,
    Get,
    File,
}

/// What is answered: a status that has a phrase, on 405 the methods that are allowed, and a body of JSON.
pub struct Reply {
    pub status: u16,
    pub allow: Allow,
    pub body: Items<u8>,
}

impl Drop for Reply {
    fn drop(self) {
        let Reply {
            status: _,
            allow: _,
            body: _,
        } = self;
    }
}

/// Writes a response: `head_only` leaves out its body, and `close` says that the connection ends behind it.
/// It takes no memory. Where a write fails, a part of the response was written.
pub fn write_response<K: Sink>(
    sink: &mut K,
    head_only: bool,
    close: bool,
    reply: &Reply,
) -> Result<(), SinkFailed>
    requires phrase { IsTrue (has_phrase reply.now.status) }
    requires methods { IsTrue (has_methods reply.now.status reply.now.allow) }
    ensures sent { Sends (K.held sink.old) (K.held sink.new) (response_of reply.now head_only close) result }
    ensures cause { CountsFaults (K.faults sink.old) (K.faults sink.new) result }
    ensures beside { K.beside sink.new ≡ K.beside sink.old }
{
    let body = body_bytes(reply, head_only);
    let head = response_head(reply.status, body.len(), reply.allow, close);
    if head.len() + body.len() > SHORT_BYTES && head.len() + body.len() <= ONE_PIECE_BYTES {
        return send_joined(sink, &head, body);
    }
    let first = body.len().min(SHORT_BYTES - head.len());
    let piece = joined::<SHORT_BYTES>(&head, &body[..first]);
    send_parts(sink, &[piece.as_slice(), &body[first..]])
}

/// Sends a head and a body in one piece. Apart, since a call begins by clearing the room for such a piece, which a short response needs not.
fn send_joined<K: Sink>(
    sink: &mut K,
    head: &ArrayString<HEAD_BYTES>,
    body: &[u8],
) -> Result<(), SinkFailed>
    requires fits { length head.now.bytes + length body.now ≤ ONE_PIECE_BYTES }
    ensures sent { Sends (K.held sink.old) (K.held sink.new) (head.now.bytes ++ body.now) result }
    ensures cause { CountsFaults (K.faults sink.old) (K.faults sink.new) result }
    ensures beside { K.beside sink.new ≡ K.beside sink.old }
{
    send_all(sink, joined::<ONE_PIECE_BYTES>(head, body).as_slice())
}

/// The body that is sent.
fn body_bytes(reply: &Reply, head_only: bool) -> &[u8]
    ensures { result.now ≡ body_of reply.now head_only }
{
    if head_only {
        &[]
    } else {
        reply.body.as_slice()
    }
}

/// A head, and the first bytes of a body.
fn joined<const N: usize>(head: &ArrayString<HEAD_BYTES>, body: &[u8]) -> ArrayVec<u8, N>
    requires { length head.now.bytes + length body.now ≤ N }
    ensures { result.items ≡ head.now.bytes ++ body.now }
{
    let mut piece = ArrayVec::new();
    match piece.try_extend_from_slice(head.as_str().as_bytes()) {
        Ok(()) => {}
        Err(_) => unreachable!(),
    }
    match piece.try_extend_from_slice(body) {
        Ok(()) => {}
        Err(_) => unreachable!(),
    }
    piece
}

/// The head of a response with a body of this length.
pub fn response_head(status: u16, n: usize, allow: Allow, close: bool) -> ArrayString<HEAD_BYTES>
    requires phrase { IsTrue (has_phrase status) }
    ensures { result.bytes ≡ head_of status n allow close }
{
    let mut head = ArrayString::new();
    let mut digits = Buffer::new();
    head.push_str("HTTP/1.1 ");
    head.push_str(digits.format(status));
    head.push_str(" ");
    head.push_str(phrase(status));
    head.push_str("\r\nContent-Type: application/json\r\nContent-Length: ");
    head.push_str(digits.format(n));
    head.push_str("\r\n");
    head.push_str(allow_line(status, allow));
    head.push_str(close_line(close));
    head.push_str("\r\n");
    head
}

/// The phrase of a status.
pub fn phrase(status: u16) -> &'static str
    requires { IsTrue (has_phrase status) }
    ensures phrase { result.now ≡ phrase_of status }
    ensures short { length result.now ≤ 40 }
{
    match status {
        statuses::OK => "OK",
        statuses::BAD_REQUEST => "Bad Request",
        statuses::FORBIDDEN => "Forbidden",
        statuses::NOT_FOUND => "Not Found",
        statuses::METHOD_NOT_ALLOWED => "Method Not Allowed",
        statuses::CONFLICT => "Conflict",
        statuses::PAYLOAD_TOO_LARGE => "Payload Too Large",
        statuses::HEADER_FIELDS_TOO_LARGE => "Request Header Fields Too Large",
        statuses::INTERNAL_SERVER_ERROR => "Internal Server Error",
        statuses::NOT_IMPLEMENTED => "Not Implemented",
        statuses::SERVICE_UNAVAILABLE => "Service Unavailable",
        _ => "Insufficient Storage",
    }
}

/// The line that names the methods, of a refusal of a method alone.
fn allow_line(status: u16, allow: Allow) -> &'static str
    ensures line { result.now ≡ allow_line_of status allow }
    ensures short { length result.now ≤ 40 }
{
    if status != statuses::METHOD_NOT_ALLOWED {
        return "";
    }
    match allow {
        Allow::None => "Allow: \r\n",
        Allow::Jobs => "Allow: GET, POST, PUT\r\n",
        Allow::Job => "Allow: DELETE, GET, POST\r\n",
        Allow::Get => "Allow: GET\r\n",
        Allow::File => "Allow: DELETE\r\n",
    }
}

/// The line that says that the connection ends.
fn close_line(close: bool) -> &'static str
    ensures line { result.now ≡ close_line_of close }
    ensures short { length result.now ≤ 40 }
{
    if close { "Connection: close\r\n" } else { "" }
}

/// Sends the parts, one after another. Where a write fails, a part of them all was sent.
pub fn send_parts<K: Sink>(sink: &mut K, parts: &[&[u8]]) -> Result<(), SinkFailed>
    ensures sent { Sends (K.held sink.old) (K.held sink.new) (concat (map (λ part. part.now) parts.now)) result }
    ensures cause { CountsFaults (K.faults sink.old) (K.faults sink.new) result }
    ensures beside { K.beside sink.new ≡ K.beside sink.old }
{
    'sending: for part in parts {
        match send_all(sink, part) {
            Ok(()) => {}
            Err(fault) => return Err(fault),
        }
    }
    Ok(())
}

/// Sends all of the bytes, each time what the sink has not taken yet. Where a write fails, a part of them was sent.
pub fn send_all<K: Sink>(sink: &mut K, bytes: &[u8]) -> Result<(), SinkFailed>
    ensures sent { Sends (K.held sink.old) (K.held sink.new) bytes.now result }
    ensures cause { CountsFaults (K.faults sink.old) (K.faults sink.new) result }
    ensures beside { K.beside sink.new ≡ K.beside sink.old }
{
    let mut at = 0;
    'sending: while at < bytes.len() {
        match sink.write(&bytes[at..]) {
            Ok(n) => at += n,
            Err(SinkFailed) => return Err(SinkFailed),
        }
    }
    Ok(())
}
