//! What a server reads of a head's fields: a coding, an origin, the length of the body, and whether the connection ends.
//! Names of fields are compared without case, and so is the word `close`.
//! Format: RFC 9112, sections 6 and 9.6.
ghost use Rattle.std.specs.Prelude.{◌≡◌, length, map, All, codes};
ghost use Rattle.httparse.specs.Spans.{header_bytes, IsHeaderWithin};
ghost use Rattle.fts_wire.specs.Fields.{has_field, is_chunked, names_origin, values_of, body_length, length_of, says_close, is_named, is_close};

use crate::WireFault;
use fts_tables::limits::MAX_CONTENT_BYTES;
use httparse::spans::{HeaderSpan, Span};

/// At most this many digits of a length.
const MAX_LENGTH_DIGITS: usize = 19;

/// Whether there is a field of this name.
fn has_field(head: &[u8], headers: &[HeaderSpan], name: &[u8]) -> bool
    requires within { All (IsHeaderWithin (length head.now)) headers.now }
    ensures { result ≡ has_field name.now (map (header_bytes head.now) headers.now) }
{
    for header in headers {
        if is_named(head, *header, name) {
            return true;
        }
    }
    false
}

/// Whether there is a field `Transfer-Encoding`.
pub fn has_coding(head: &[u8], headers: &[HeaderSpan]) -> bool
    requires within { All (IsHeaderWithin (length head.now)) headers.now }
    ensures { result ≡ is_chunked (map (header_bytes head.now) headers.now) }
{
    has_field(head, headers, b"transfer-encoding")
}

/// Whether there is a field `Origin`.
pub fn has_origin(head: &[u8], headers: &[HeaderSpan]) -> bool
    requires within { All (IsHeaderWithin (length head.now)) headers.now }
    ensures { result ≡ names_origin (map (header_bytes head.now) headers.now) }
{
    has_field(head, headers, b"origin")
}

/// Whether the connection ends: by a field `Connection`, or in version 1.0.
pub fn ends_connection(head: &[u8], headers: &[HeaderSpan], minor: u8) -> bool
    requires within { All (IsHeaderWithin (length head.now)) headers.now }
    ensures { result ≡ says_close minor (map (header_bytes head.now) headers.now) }
{
    if minor == 0 {
        return true;
    }
    for header in headers {
        if is_named(head, *header, b"connection") && is_close(header.value.of(head)) {
            return true;
        }
    }
    false
}

/// The length of the body, by the fields `Content-Length`.
pub fn read_body_length(head: &[u8], headers: &[HeaderSpan]) -> Result<usize, WireFault>
    requires within { All (IsHeaderWithin (length head.now)) headers.now }
    ensures { result ≡ body_length (values_of (codes "content-length") (map (header_bytes head.now) headers.now)) }
{
    let mut found: Option<Span> = None;
    for header in headers {
        if is_named(head, *header, b"content-length") {
            if found.is_some() {
                return Err(WireFault::BadLength);
            }
            found = Some(header.value);
        }
    }
    match found {
        None => Ok(0),
        Some(value) => read_length(value.of(head)),
    }
}

/// The length of a body that a value writes.
fn read_length(value: &[u8]) -> Result<usize, WireFault>
    ensures { result ≡ length_of value.now }
{
    if value.is_empty() || value.len() > MAX_LENGTH_DIGITS {
        return Err(WireFault::BadLength);
    }
    let mut length: usize = 0;
    for b in value {
        if *b < b'0' || *b > b'9' {
            return Err(WireFault::BadLength);
        }
        length = length * 10 + (*b - b'0') as usize;
    }
    if length > MAX_CONTENT_BYTES {
        return Err(WireFault::BodyTooLarge);
    }
    Ok(length)
}

/// Whether a field has this name, without case.
fn is_named(head: &[u8], header: HeaderSpan, name: &[u8]) -> bool
    requires within { IsHeaderWithin (length head.now) header }
    ensures { result ≡ is_named name.now (header_bytes head.now header) }
{
    header.name.of(head).eq_ignore_ascii_case(name)
}

/// Whether a value is the word `close`, without case.
fn is_close(value: &[u8]) -> bool
    ensures { result ≡ is_close value.now }
{
    value.eq_ignore_ascii_case(b"close")
}
