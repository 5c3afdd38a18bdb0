//! The faults of a parsed URL: one function for each, and the first of them in their order.
//! Each answers the test of its name in `specs/Urls.antt`, and the first that is broken is the answer (`first_fault`).
ghost use Rattle.std.specs.Prelude.{◌≡◌, ◌==◌, map};
ghost use Rattle.std.specs.List.{list_all, list_any};
ghost use Rattle.fts_tables.specs.Names.{is_plain_byte, is_name_byte};
ghost use Rattle.fts_tables.specs.FirstFault.{first_fault};
ghost use Rattle.fts_joburl.specs.Urls.{has_user, has_escape, is_too_long, begins_reserved, kept_segments, shared_faults, file_faults, endpoint_faults};

use crate::UrlFault;
use crate::parts::host_text;
use fts_tables::limits::MAX_NAME_BYTES;
use url::Url;

/// The first fault of those that a file's URL and an endpoint's can have, but for that of a text that is no URL.
pub fn find_shared_fault(text: &str, url: &Url) -> Option<UrlFault>
    ensures { result ≡ first_fault (shared_faults text.now url.now) }
{
    if !url.has_host() {
        Some(UrlFault::NoHost)
    } else if url.query().is_some() {
        Some(UrlFault::HasQuery)
    } else if url.fragment().is_some() {
        Some(UrlFault::HasFragment)
    } else if names_user(url) {
        Some(UrlFault::HasUser)
    } else if holds_escape(text, url) {
        Some(UrlFault::HasEscape)
    } else {
        None
    }
}

/// The first of the others that a file's URL can have, with its segments.
pub fn find_file_fault(url: &Url, segments: &[&str]) -> Option<UrlFault>
    requires { map (λ s. s.now) segments.now ≡ kept_segments url.now.path }
    ensures { result ≡ first_fault (file_faults url.now) }
{
    if segments.is_empty() {
        Some(UrlFault::NoPath)
    } else if is_long(url) {
        Some(UrlFault::TooLong)
    } else if begin_reserved(segments) {
        Some(UrlFault::Reserved)
    } else {
        None
    }
}

/// The first of the others that an endpoint's URL can have, with its segments.
pub fn find_endpoint_fault(url: &Url, segments: &[&str]) -> Option<UrlFault>
    requires { map (λ s. s.now) segments.now ≡ kept_segments url.now.path }
    ensures { result ≡ first_fault (endpoint_faults url.now) }
{
    if is_long(url) {
        Some(UrlFault::TooLong)
    } else if !segments.is_empty() {
        Some(UrlFault::HasPath)
    } else {
        None
    }
}

fn names_user(url: &Url) -> bool
    ensures { result ≡ has_user url.now }
{
    !url.username().is_empty() || url.password().is_some()
}

fn holds_escape(text: &str, url: &Url) -> bool
    ensures { result ≡ has_escape text.now url.now }
{
    holds_percent(text.as_bytes())
        || !are_of_name(host_text(url).as_bytes())
        || !are_plain(url.path().as_bytes())
}

fn holds_percent(bytes: &[u8]) -> bool
    ensures { result ≡ list_any (λ byte. byte == 0x25) bytes.now }
{
    bytes.iter().any(|byte| *byte == b'%')
}

fn are_of_name(bytes: &[u8]) -> bool
    ensures { result ≡ list_all is_name_byte bytes.now }
{
    bytes
        .iter()
        .all(|byte| is_byte_of_path(*byte) && *byte != b'/')
}

fn are_plain(bytes: &[u8]) -> bool
    ensures { result ≡ list_all is_plain_byte bytes.now }
{
    bytes.iter().all(|byte| is_byte_of_path(*byte))
}

fn is_byte_of_path(byte: u8) -> bool
    ensures { result ≡ is_plain_byte byte }
{
    0x21 <= byte && byte <= 0x7e && byte != b'%'
}

fn is_long(url: &Url) -> bool
    ensures { result ≡ is_too_long url.now }
{
    url.as_str().len() > MAX_NAME_BYTES
}

fn begin_reserved(segments: &[&str]) -> bool
    ensures { result ≡ begins_reserved (map (λ s. s.now) segments.now) }
{
    match segments {
        [] => false,
        [first, ..] => *first == ".fts",
    }
}
