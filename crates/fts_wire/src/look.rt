//! What bytes are the beginning of: less than a head, no request, or a whole head with the length of its body.
//! A look reads the bytes at hand alone and takes none away, so it can be repeated when more have come. It takes no memory.
//! Order of a look: the end of the head, its grammar, its coding, its length, and then its origin.
//! Format: HTTP/1.1 (RFC 9112, sections 2 to 6), and the grammar of `httparse`.
ghost use Rattle.std.specs.Prelude.{◌≡◌, length, map, All, IsUtf8};
ghost use Rattle.httparse.specs.Spans.{header_bytes, span_bytes, IsHeaderWithin, IsWithin};
ghost use Rattle.fts_tables.specs.declared.limits.TheConstants.{MAX_HEADER_LINES};
ghost use Rattle.fts_wire.specs.Head.{lines_of, head_of};
ghost use Rattle.fts_wire.specs.Look.{sight_head, sight_fields, Sees, SeesIn};
ghost use Rattle.fts_wire.specs.Parsed.{IsParsed, BeginsHead};

use crate::WireFault;
use crate::fields::{ends_connection, has_coding, has_origin, read_body_length};
use crate::lines::{count_blanks, find_head_end};
use fts_tables::limits::{MAX_HEAD_BYTES, MAX_HEADER_LINES};
use httparse::Status;
use httparse::spans::{EMPTY_HEADER_SPAN, HeaderSpan, RequestSpans, Span, parse_request};

/// At most this many lines of a head: the first, the fields, and the empty one.
const MAX_LINES: usize = MAX_HEADER_LINES + 2;

/// A whole head, as it stands in bytes: behind `before` bytes of CR and LF, `size` bytes long, with a body of `body` bytes behind it.
/// Method and target are places in the head's own bytes.
#[derive(Clone, Copy)]
pub struct Head {
    pub before: usize,
    pub size: usize,
    pub body: usize,
    pub method: Span,
    pub target: Span,
    pub close: bool,
}

/// What bytes are the beginning of.
#[derive(Clone, Copy)]
pub enum Look {
    Short,
    Refused(WireFault),
    Found(Head),
}

/// What these bytes are the beginning of.
pub fn look_at(bytes: &[u8]) -> Look
    ensures { Sees bytes.now result }
{
    let few = &bytes[..bytes.len().min(MAX_HEAD_BYTES)];
    let before = count_blanks(few);
    let rest = &few[before..];
    match find_head_end(rest) {
        None => {
            if few.len() == MAX_HEAD_BYTES {
                Look::Refused(WireFault::HeadTooLarge)
            } else {
                Look::Short
            }
        }
        Some(end) => {
            if end.lines > MAX_LINES {
                return Look::Refused(WireFault::HeadTooLarge);
            }
            look_at_head(&rest[..end.size], before)
        }
    }
}

/// What the bytes of a head are, behind so many bytes of CR and LF.
fn look_at_head(own: &[u8], before: usize) -> Look
    requires head { BeginsHead own.now }
    ensures { SeesIn own.now before (sight_head before (length own.now) (head_of (lines_of own.now))) result }
{
    let mut headers = [EMPTY_HEADER_SPAN; MAX_HEADER_LINES];
    match parse_head(own, &mut headers) {
        None => Look::Refused(WireFault::BadHead),
        Some(spans) => look_at_fields(own, before, spans, &headers[..spans.headers]),
    }
}

/// The parts of a head by its grammar, where the bytes are one, whole.
fn parse_head(own: &[u8], headers: &mut [HeaderSpan]) -> Option<RequestSpans>
    requires room { length headers.old ≡ MAX_HEADER_LINES }
    requires head { BeginsHead own.now }
    ensures { IsParsed own.now headers.new result }
{
    match parse_request(own, headers) {
        Ok(Status::Complete(spans)) => {
            if spans.len == own.len() {
                Some(spans)
            } else {
                None
            }
        }
        Ok(Status::Partial) => None,
        Err(_) => None,
    }
}

/// What a head with these parts asks for.
fn look_at_fields(own: &[u8], before: usize, spans: RequestSpans, headers: &[HeaderSpan]) -> Look
    requires method { IsWithin (length own.now) spans.method }
    requires target { IsWithin (length own.now) spans.path }
    requires method_text { IsUtf8 (span_bytes own.now spans.method) }
    requires target_text { IsUtf8 (span_bytes own.now spans.path) }
    requires headers { All (IsHeaderWithin (length own.now)) headers.now }
    ensures { SeesIn own.now before (sight_fields before (length own.now) (span_bytes own.now spans.method)
        (span_bytes own.now spans.path) spans.version (map (header_bytes own.now) headers.now)) result }
{
    if has_coding(own, headers) {
        return Look::Refused(WireFault::Chunked);
    }
    match read_body_length(own, headers) {
        Err(fault) => Look::Refused(fault),
        Ok(_) if has_origin(own, headers) => Look::Refused(WireFault::ForeignOrigin),
        Ok(body) => Look::Found(Head {
            before,
            size: own.len(),
            body,
            method: spans.method,
            target: spans.path,
            close: ends_connection(own, headers, spans.version),
        }),
    }
}
