//! The parts of a URL that is good: the name of its endpoint, and the segments of its path.
//! The texts are those of `specs/Urls.antt`; that a good URL's texts are an endpoint's name and a file's path is asked of the caller.
ghost use Rattle.std.specs.Prelude.{◌≡◌, ◌⊎◌, IfOk, map, string_bytes};
ghost use Rattle.std.specs.List.{join_with_byte};
ghost use Rattle.fts_tables.specs.Names.{IsEndpointName, IsPathKey};
ghost use Rattle.fts_joburl.specs.Urls.{is_kept, kept_segments, host_of, endpoint_text};

use crate::UrlFault;
use fts_tables::{EndpointName, PathKey};
use std::alloc::{AllocError, Global};
use url::Url;

/// The segments of a path that name something, in order.
pub fn keep_segments(alloc: Global, path: &str) -> Result<Vec<&str>, AllocError>
    ensures { IfOk result (λ kept. map (λ s. s.now) kept.items ≡ kept_segments path.now) }
{
    path.split('/')
        .filter(|segment| names_something(*segment))
        .collect(alloc)
}

fn names_something(segment: &str) -> bool
    ensures { result ≡ is_kept segment.now }
{
    !(segment == "" || segment == "." || segment == "..")
}

/// The name of the endpoint of a URL whose text is one.
pub fn make_endpoint(alloc: Global, url: &Url) -> Result<EndpointName, UrlFault>
    requires { IsEndpointName (endpoint_text url.now) }
    ensures { (result ≡ Ok (endpoint_text url.now)) ⊎ (result ≡ Err UrlFault.Memory) }
{
    let text = write_endpoint(alloc, url)?;
    match EndpointName::read(alloc, text.as_str())? {
        Some(name) => Ok(name),
        None => unreachable!(),
    }
}

fn write_endpoint(alloc: Global, url: &Url) -> Result<String, AllocError>
    ensures { IfOk result (λ text. string_bytes text ≡ endpoint_text url.now) }
{
    let scheme = url.scheme();
    let host = host_text(url);
    match url.port() {
        Some(port) => format!(in alloc; "{scheme}://{host}:{port}"),
        None => format!(in alloc; "{scheme}://{host}"),
    }
}

/// The text of a URL's host, which is empty where there is none.
pub fn host_text(url: &Url) -> &str
    ensures { result.now ≡ host_of url.now }
{
    match url.host_str() {
        Some(host) => host,
        None => "",
    }
}

/// The path of segments that are one when they are joined.
pub fn make_path(alloc: Global, segments: &[&str]) -> Result<PathKey, UrlFault>
    requires { IsPathKey (join_with_byte 0x2f (map (λ s. s.now) segments.now)) }
    ensures { (result ≡ Ok (join_with_byte 0x2f (map (λ s. s.now) segments.now))) ⊎ (result ≡ Err UrlFault.Memory) }
{
    let text = join_by_slashes(alloc, segments)?;
    match PathKey::read(alloc, text.as_str())? {
        Some(path) => Ok(path),
        None => unreachable!(),
    }
}

fn join_by_slashes(alloc: Global, segments: &[&str]) -> Result<String, AllocError>
    ensures { IfOk result (λ text. string_bytes text ≡ join_with_byte 0x2f (map (λ s. s.now) segments.now)) }
{
    segments.join(alloc, "/")
}
