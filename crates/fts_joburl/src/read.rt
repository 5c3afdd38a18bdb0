//! Reading the URL of a file or of an endpoint: parse it, look for the first fault, and take what it names.
//! The answer is the one that the text has (`surl_of`, `endpoint_of`), unless memory runs out.
ghost use Rattle.std.specs.Prelude.{◌≡◌, ◌⊎◌, ◌↔◌, None};
ghost use Rattle.url.specs.Parser.{parse_url, IsOutOfRoom};
ghost use Rattle.fts_joburl.specs.Urls.{read_by, surl_of, endpoint_of};

use crate::UrlFault;
use crate::checks::{find_endpoint_fault, find_file_fault, find_shared_fault};
use crate::parts::{keep_segments, make_endpoint, make_path};
use fts_tables::{EndpointName, PathKey};
use std::alloc::Global;
use url::{ParseError, Url};

/// What a file's URL names: an endpoint, and the file's path there.
#[derive(Drop)]
pub struct Surl {
    pub endpoint: EndpointName,
    pub path: PathKey,
}

/// Reads the URL of a file, as the URL Standard parses it. The endpoint is its scheme, host and port, without the port that is the
/// scheme's default; the path is its segments that are neither empty nor dots, joined by slashes.
/// A text that is none has its first fault: any but `HasPath`.
pub fn read_surl(alloc: Global, text: &str) -> Result<Surl, UrlFault>
    ensures { (result ≡ surl_of text.now) ⊎ (result ≡ Err UrlFault.Memory) }
{
    let url = parse(alloc, text)?;
    if let Some(fault) = find_shared_fault(text, &url) {
        return Err(fault);
    }
    let segments = keep_segments(alloc, url.path())?;
    if let Some(fault) = find_file_fault(&url, &segments) {
        return Err(fault);
    }
    let endpoint = make_endpoint(alloc, &url)?;
    let path = make_path(alloc, &segments)?;
    Ok(Surl { endpoint, path })
}

/// Reads the URL of an endpoint, which has no path but slashes and dots. The name is as `read_surl` has it.
/// A text that is none has its first fault: any but `NoPath` and `Reserved`.
pub fn read_endpoint(alloc: Global, text: &str) -> Result<EndpointName, UrlFault>
    ensures { (result ≡ endpoint_of text.now) ⊎ (result ≡ Err UrlFault.Memory) }
{
    let url = parse(alloc, text)?;
    if let Some(fault) = find_shared_fault(text, &url) {
        return Err(fault);
    }
    let segments = keep_segments(alloc, url.path())?;
    if let Some(fault) = find_endpoint_fault(&url, &segments) {
        return Err(fault);
    }
    make_endpoint(alloc, &url)
}

/// The URL that a text is, by the URL Standard.
fn parse(alloc: Global, text: &str) -> Result<Url, UrlFault>
    ensures { (result ≡ read_by Ok (parse_url None text.now)) ⊎ (result ≡ Err UrlFault.Memory) }
{
    match Url::parse(alloc, text) {
        Ok(url) => Ok(url),
        Err(refused) => Err(parse_fault(refused)),
    }
}

/// Want of memory, and more bytes than a URL can have here, are no fault of the text.
fn parse_fault(refused: ParseError) -> UrlFault
    ensures memory { IsOutOfRoom refused ↔ (result ≡ UrlFault.Memory) }
    ensures others { (result ≡ UrlFault.NotUrl) ⊎ (result ≡ UrlFault.Memory) }
{
    match refused {
        ParseError::OutOfMemory | ParseError::Overflow => UrlFault::Memory,
        ParseError::EmptyHost
        | ParseError::IdnaError
        | ParseError::InvalidPort
        | ParseError::InvalidIpv4Address
        | ParseError::InvalidIpv6Address
        | ParseError::InvalidDomainCharacter
        | ParseError::RelativeUrlWithoutBase
        | ParseError::RelativeUrlWithCannotBeABaseBase
        | ParseError::SetHostOnCannotBeABaseUrl
        | ParseError::CannotSet => UrlFault::NotUrl,
    }
}
