//! The document that asks for deletions: a body's bytes, read as places or refused by the least broken of seven rules. JSON (RFC 8259) is what
//! `serde_json` reads, a URL what `fts_joburl` reads. The answer is one function of the body and the settings (`specs/Documents.antt`).
//! Order: the value, the list, its texts, their URLs, and whether the settings list each endpoint.
ghost use Rattle.std.specs.Prelude.{◌≡◌, ◌⊎◌, Some, Err, map};
ghost use Rattle.std.specs.List.{filter_map};
ghost use Rattle.serde_json.specs.Find.{as_str};
ghost use Rattle.serde_json.specs.View.{view};
ghost use Rattle.fts_delete.specs.Documents.{Reads, asked_items, places_read, asked_by, deletes_in, rule_of};
ghost use Rattle.fts_delete.specs.declared.document.DeleteDocFault.TheVariants.{Memory as TheMemory};

use crate::limits::MAX_ASKED;
use fts_jobdoc::{DocFault, are_texts, is_some_elsewhere, read_places, read_value};
use fts_joburl::UrlFault;
use fts_tables::{Items, Memory, Place, Settings};
use serde_json::Value;
use std::alloc::Global;

/// Why a document is refused. The least rule that it breaks is the answer.
#[derive(Clone, Copy, Debug, PartialEq, Eq)]
pub enum DeleteDocFault {
    /// It is no JSON.
    NotJson,
    /// It is no object.
    NotObject,
    /// `delete` is absent, no list, or empty.
    NoDeletes,
    /// It asks for more than 200 files.
    TooMany,
    /// An item of the list is no text.
    NotText,
    /// An item is no URL of a file.
    BadUrl { fault: UrlFault },
    /// An endpoint isn't in the settings.
    UnknownEndpoint,
    /// There was no memory to tell.
    Memory,
}

impl DeleteDocFault {
    /// The number of the rule, from 1 to 7; and 0 for want of memory.
    pub fn rule(self) -> u32
        ensures { result ≡ rule_of self }
    {
        match self {
            DeleteDocFault::NotJson => 1,
            DeleteDocFault::NotObject => 2,
            DeleteDocFault::NoDeletes => 3,
            DeleteDocFault::TooMany => 4,
            DeleteDocFault::NotText => 5,
            DeleteDocFault::BadUrl { .. } => 6,
            DeleteDocFault::UnknownEndpoint => 7,
            DeleteDocFault::Memory => 0,
        }
    }
}

impl From<Memory> for DeleteDocFault {
    ghost from_gives = { λ _ fault. fault ≡ TheMemory };

    fn from(_: Memory) -> Self {
        DeleteDocFault::Memory
    }
}

/// The places that a document asks for, in order: the URLs of the list under `delete`, 1 to `MAX_ASKED` of them, each a file on an endpoint of
/// the settings. The error is the least of the rules 1 to 7 that is broken, or `Memory` where there was none to tell.
pub fn read_deletes(
    alloc: Global,
    body: &[u8],
    settings: &Settings,
) -> Result<Items<Place>, DeleteDocFault>
    ensures { (result ≡ deletes_in body.now settings.now) ⊎ (result ≡ Err DeleteDocFault.Memory) }
{
    match read_value(alloc, body)? {
        Some(document) => asked_by(alloc, &document, settings),
        None => Err(DeleteDocFault::NotJson),
    }
}

/// What a document asks for, or the least rule that it breaks.
fn asked_by(
    alloc: Global,
    document: &Value,
    settings: &Settings,
) -> Result<Items<Place>, DeleteDocFault>
    ensures { (result ≡ asked_by settings.now (Some (view document.now))) ⊎ (result ≡ Err DeleteDocFault.Memory) }
{
    if !document.is_object() {
        return Err(DeleteDocFault::NotObject);
    }
    let items = asked_items(document);
    if items.is_empty() {
        return Err(DeleteDocFault::NoDeletes);
    }
    if items.len() > MAX_ASKED {
        return Err(DeleteDocFault::TooMany);
    }
    if !are_texts(items) {
        return Err(DeleteDocFault::NotText);
    }
    let places = read_asked(alloc, items)?;
    if is_some_elsewhere(settings, places.as_slice()) {
        return Err(DeleteDocFault::UnknownEndpoint);
    }
    Ok(places)
}

/// The items of the list under `delete`, and none where no list is there.
#[tactic(auto, unfolding(crate::specs::Documents::asked_items))]
fn asked_items(document: &Value) -> &[Value]
    ensures { map view result.now ≡ asked_items (view document.now) }
{
    let Some(found) = document.get("delete") else {
        return &[];
    };
    match found.as_array() {
        Some(list) => list.as_slice(),
        None => &[],
    }
}

/// Reads the URLs of a list, of which every text is one, as those of a job are read.
fn read_asked(alloc: Global, list: &[Value]) -> Result<Items<Place>, DeleteDocFault>
    ensures { Reads result (places_read (filter_map as_str (map view list.now))) }
{
    match read_places(alloc, list) {
        Ok(places) => Ok(places),
        Err(DocFault::BadUrl { fault }) => Err(DeleteDocFault::BadUrl { fault }),
        Err(_) => Err(DeleteDocFault::Memory),
    }
}
