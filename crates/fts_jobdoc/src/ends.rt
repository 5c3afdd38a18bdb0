//! The URLs of a document's files: each is read once, and is then a place on an endpoint.
//! `read_all_ends` refuses the first broken one, in order of files, a file's sources before its destination. Then come the tests on places:
//! known endpoints, no file onto itself, and the chain of a multihop job, whose places are compared as places and not as texts.
ghost use Rattle.std.specs.Prelude.{◌≡◌, ◌++◌, ◌∷◌, [], map, OnOk, IfErr};
ghost use Rattle.std.specs.List.{list_any, list_all, filter_map};
ghost use Rattle.serde_json.specs.Find.{as_str};
ghost use Rattle.serde_json.specs.View.{view};
ghost use Rattle.fts_tables.specs.Places.{is_same_place};
ghost use Rattle.fts_jobdoc.specs.Json.{texts_under};
ghost use Rattle.fts_jobdoc.specs.Checks.{Gives};
ghost use Rattle.fts_jobdoc.specs.Ends.{place_read, bad_url, places_read, ends_read, all_ends_read, is_elsewhere, has_unknown_endpoint, has_same_url, meets, breaks_from, breaks_chain};

use crate::DocFault;
use crate::json::list_under;
use fts_joburl::{UrlFault, read_surl};
use fts_tables::rules::is_listed;
use fts_tables::{Items, Memory, Place, Settings};
use serde_json::Value;
use std::alloc::Global;

/// Where a file comes from, and where it goes to. The document has a list of destinations, in which rule 7 wants one.
pub struct FileEnds {
    pub sources: Items<Place>,
    pub dests: Items<Place>,
}

impl Drop for FileEnds {
    fn drop(self) {
        let FileEnds {
            sources: _,
            dests: _,
        } = self;
    }
}

/// Reads the URLs of all files.
pub fn read_all_ends(alloc: Global, files: &[Value]) -> Result<Items<FileEnds>, DocFault>
    ensures { Gives result (all_ends_read (map view files.now)) }
{
    let mut all = Items::new(alloc);
    for file in files {
        let ends = read_ends(alloc, file)?;
        add(&mut all, ends)?;
    }
    Ok(all)
}

/// Reads the URLs of a file.
fn read_ends(alloc: Global, file: &Value) -> Result<FileEnds, DocFault>
    ensures { Gives result (ends_read (view file.now)) }
{
    let sources = read_under(alloc, file, "sources")?;
    let dests = read_under(alloc, file, "destinations")?;
    Ok(FileEnds { sources, dests })
}

/// Reads the URLs of the list under a key.
#[tactic(auto, unfolding(crate::specs::Json::texts_under))]
fn read_under(alloc: Global, file: &Value, key: &str) -> Result<Items<Place>, DocFault>
    ensures { Gives result (places_read (texts_under key.now (view file.now))) }
{
    read_places(alloc, list_under(file, key))
}

/// Reads the URLs of a list, of which every text is one.
pub fn read_places(alloc: Global, list: &[Value]) -> Result<Items<Place>, DocFault>
    ensures { Gives result (places_read (filter_map as_str (map view list.now))) }
{
    let mut places = Items::new(alloc);
    for item in list {
        let Some(text) = item.as_str() else {
            continue;
        };
        let place = read_place(alloc, text)?;
        add(&mut places, place)?;
    }
    Ok(places)
}

/// Reads a URL.
#[tactic(auto, unfolding(crate::specs::Ends::place_read))]
fn read_place(alloc: Global, text: &str) -> Result<Place, DocFault>
    ensures { Gives result (bad_url (place_read text.now)) }
{
    match read_surl(alloc, text) {
        Ok(surl) => Ok(Place {
            endpoint: surl.endpoint,
            path: surl.path,
        }),
        Err(fault) => {
            if fault == UrlFault::Memory {
                Err(DocFault::Memory)
            } else {
                Err(DocFault::BadUrl { fault })
            }
        }
    }
}

/// Appends an item. At an `Err` the list is as before.
fn add<T: Drop>(items: &mut Items<T>, item: T) -> Result<(), DocFault>
    ensures ok { OnOk result (items.new ≡ items.old ++ item ∷ []) }
    ensures err { IfErr result (λ fault. fault ≡ DocFault.Memory) }
{
    match items.push(item) {
        Ok(()) => Ok(()),
        Err(_) => Err(DocFault::Memory),
    }
}

/// Whether some file is on an endpoint that isn't in the settings.
pub fn some_has_unknown_endpoint(settings: &Settings, all: &[FileEnds]) -> bool
    ensures { result ≡ list_any (has_unknown_endpoint settings.now) all.now }
{
    all.iter().any(|ends| has_unknown_endpoint(settings, ends))
}

#[tactic(auto, unfolding(crate::specs::Ends::has_unknown_endpoint))]
fn has_unknown_endpoint(settings: &Settings, ends: &FileEnds) -> bool
    ensures { result ≡ has_unknown_endpoint settings.now ends.now }
{
    is_some_elsewhere(settings, ends.sources.as_slice())
        || is_some_elsewhere(settings, ends.dests.as_slice())
}

/// Whether some place is on an endpoint that isn't in the settings.
pub fn is_some_elsewhere(settings: &Settings, places: &[Place]) -> bool
    ensures { result ≡ list_any (is_elsewhere settings.now) places.now }
{
    let endpoints = settings.endpoints.as_slice();
    places
        .iter()
        .any(|place| !is_listed(endpoints, place.endpoint.as_str()))
}

/// Whether some file is copied onto itself.
pub fn some_has_same_url(all: &[FileEnds]) -> bool
    ensures { result ≡ list_any has_same_url all.now }
{
    all.iter().any(|ends| has_same_url(ends))
}

#[tactic(auto, unfolding(crate::specs::Ends::has_same_url))]
fn has_same_url(ends: &FileEnds) -> bool
    ensures { result ≡ has_same_url ends.now }
{
    let sources = ends.sources.as_slice();
    ends.dests
        .as_slice()
        .iter()
        .any(|dest| is_among(dest, sources))
}

fn is_among(place: &Place, sources: &[Place]) -> bool
    ensures { result ≡ list_any (λ source. is_same_place source place.now) sources.now }
{
    sources.iter().any(|source| source.is_same(place))
}

/// Whether a file's destination isn't the next file's source.
pub fn breaks_chain(all: &[FileEnds]) -> bool
    ensures { result ≡ breaks_chain all.now }
{
    match all {
        [] => false,
        [first, later @ ..] => breaks_from(first, later),
    }
}

fn breaks_from(first: &FileEnds, later: &[FileEnds]) -> bool
    ensures { result ≡ breaks_from first.now later.now }
{
    let mut ends = first;
    for next in later {
        if !meets(ends, next) {
            return true;
        }
        ends = next;
    }
    false
}

#[tactic(auto, unfolding(crate::specs::Ends::meets))]
fn meets(ends: &FileEnds, next: &FileEnds) -> bool
    ensures { result ≡ meets ends.now next.now }
{
    let sources = next.sources.as_slice();
    ends.dests
        .as_slice()
        .iter()
        .all(|dest| is_each(dest, sources))
}

fn is_each(place: &Place, sources: &[Place]) -> bool
    ensures { result ≡ list_all (λ source. is_same_place place.now source) sources.now }
{
    sources.iter().all(|source| place.is_same(source))
}
