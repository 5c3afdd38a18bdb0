//! The statuses that a reply may have (HTTP, RFC 9110, section 15; 431 of RFC 6585, 507 of RFC 4918).
//! Each has a phrase (`response`), which definitions tie to its digits. Cited by all who make replies.

pub const OK: u16 = 200;

pub const BAD_REQUEST: u16 = 400;

pub const FORBIDDEN: u16 = 403;

pub const NOT_FOUND: u16 = 404;

pub const METHOD_NOT_ALLOWED: u16 = 405;

pub const CONFLICT: u16 = 409;

pub const PAYLOAD_TOO_LARGE: u16 = 413;

pub const HEADER_FIELDS_TOO_LARGE: u16 = 431;

pub const INTERNAL_SERVER_ERROR: u16 = 500;

pub const NOT_IMPLEMENTED: u16 = 501;

pub const SERVICE_UNAVAILABLE: u16 = 503;

pub const INSUFFICIENT_STORAGE: u16 = 507;

/// All of them.
pub const ALL: [u16; 12] = [
    OK,
    BAD_REQUEST,
    FORBIDDEN,
    NOT_FOUND,
    METHOD_NOT_ALLOWED,
    CONFLICT,
    PAYLOAD_TOO_LARGE,
    HEADER_FIELDS_TOO_LARGE,
    INTERNAL_SERVER_ERROR,
    NOT_IMPLEMENTED,
    SERVICE_UNAVAILABLE,
    INSUFFICIENT_STORAGE,
];
