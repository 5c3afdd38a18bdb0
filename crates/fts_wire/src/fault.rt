//! Why there is no next request, and how that is answered where it is.
//! Keeps: status, rule and message of each fault are those of its variant (`specs/Faults.antt`); the end within a request and a failed read have none.
//! Made by `look` and `request`, read by fts_top.
ghost use Rattle.std.specs.Prelude.{◌≡◌, option_map};
ghost use Rattle.fts_wire.specs.Faults.{status_of, rule_of, message_of};

use crate::statuses::{
    BAD_REQUEST, FORBIDDEN, HEADER_FIELDS_TOO_LARGE, NOT_IMPLEMENTED, PAYLOAD_TOO_LARGE,
};

/// Why there is no next request.
#[derive(Clone, Copy, Debug, PartialEq, Eq)]
pub enum WireFault {
    /// The head is none of HTTP/1.1 or HTTP/1.0, or its target is no UTF-8.
    BadHead,
    /// No empty line ends within 16,384 bytes, or there are more than 64 lines behind the first.
    HeadTooLarge,
    /// There are two `Content-Length` fields, or its value is not 1 to 19 digits.
    BadLength,
    /// There is a `Transfer-Encoding` field.
    Chunked,
    /// The body is longer than 1,048,576 bytes.
    BodyTooLarge,
    /// There is an `Origin` field: a browser sends the request for a page of some site (RFC 6454, section 7).
    ForeignOrigin,
    /// The input ended within a request.
    EndsInside,
    /// A read of the source failed. What was read before it is kept.
    SourceFailed,
}

impl WireFault {
    /// The status that it is answered with. None where there is no response.
    pub fn status(self) -> Option<u16>
        ensures { result ≡ status_of self }
    {
        match self {
            WireFault::BadHead | WireFault::BadLength => Some(BAD_REQUEST),
            WireFault::HeadTooLarge => Some(HEADER_FIELDS_TOO_LARGE),
            WireFault::Chunked => Some(NOT_IMPLEMENTED),
            WireFault::BodyTooLarge => Some(PAYLOAD_TOO_LARGE),
            WireFault::ForeignOrigin => Some(FORBIDDEN),
            WireFault::EndsInside | WireFault::SourceFailed => None,
        }
    }

    /// The number of the rule that was broken. None where there is no response.
    pub fn rule(self) -> Option<u16>
        ensures { result ≡ rule_of self }
    {
        match self {
            WireFault::BadHead => Some(41),
            WireFault::HeadTooLarge => Some(42),
            WireFault::BadLength => Some(43),
            WireFault::Chunked => Some(44),
            WireFault::BodyTooLarge => Some(45),
            WireFault::ForeignOrigin => Some(48),
            WireFault::EndsInside | WireFault::SourceFailed => None,
        }
    }

    /// What a reader of the response is told. None where there is no response.
    pub fn message(self) -> Option<&'static str>
        ensures { option_map (λ text. text.now) result ≡ message_of self }
    {
        match self {
            WireFault::BadHead => Some("bad head"),
            WireFault::HeadTooLarge => Some("head too large"),
            WireFault::BadLength => Some("bad length"),
            WireFault::Chunked => Some("chunked"),
            WireFault::BodyTooLarge => Some("body too large"),
            WireFault::ForeignOrigin => Some("foreign origin"),
            WireFault::EndsInside | WireFault::SourceFailed => None,
        }
    }
}
