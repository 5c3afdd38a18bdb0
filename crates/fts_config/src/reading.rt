//! The values of a document: texts and numbers under keys, and the items of the three lists.
//! A number out of 32 bits is read as the nearest one: no range reaches either end, so its rule is broken all the same.
//! The URLs of storages and links are read in their order (`read_all`), and the first that names no endpoint is answered: rule 4.
ghost use Rattle.std.specs.Prelude.{◌≡◌, ℕ, List, [], ◌∷◌, map};
ghost use Rattle.std.specs.List.{flat_map};
ghost use Rattle.toml.specs.Data.{Data};
ghost use Rattle.toml.specs.View.{view};
ghost use Rattle.fts_tables.specs.FirstFault.{unless};
ghost use Rattle.fts_config.specs.Faults.{Gives};
ghost use Rattle.fts_config.specs.Reading.{text_or, number_or, nearest, named_by, first_bad, endpoint_in, link_in, weight_in, storage_urls, link_urls};

use crate::{SettingKey, SettingsFault};
use fts_joburl::{UrlFault, read_endpoint};
use fts_tables::{Endpoint, EndpointName, Items, Label, LinkRule, Memory, Weight};
use std::alloc::Global;
use toml::Value;

/// The number of workers, where the text gives none.
pub const DEFAULT_WORKERS: u32 = 4;

/// The limit of links that aren't listed, where the text gives none.
pub const DEFAULT_LINK_LIMIT: u32 = 2;

/// The limit of a storage in each direction, where the text gives none.
pub const DEFAULT_ENDPOINT_LIMIT: u32 = 20;

/// The weight of `default`, where the text lists no activities.
pub const DEFAULT_WEIGHT: u32 = 1;

/// The text under a key, or another.
pub fn text_or<'a>(entry: &'a Value, key: SettingKey, other: &'a str) -> &'a str
    ensures { result.now ≡ text_or other.now key (view entry.now) }
{
    match entry.get(key.name()) {
        Some(value) => match value.as_str() {
            Some(text) => text,
            None => other,
        },
        None => other,
    }
}

fn nearest(number: i64) -> u32
    ensures { result ≡ nearest number }
{
    if number < 0 {
        0
    } else if number > 4_294_967_295 {
        4_294_967_295
    } else {
        number as u32
    }
}

/// The number under a key, or another.
pub fn number_or(entry: &Value, key: SettingKey, other: u32) -> u32
    ensures { result ≡ number_or other key (view entry.now) }
{
    match entry.get(key.name()) {
        Some(value) => match value.as_integer() {
            Some(number) => nearest(number),
            None => other,
        },
        None => other,
    }
}

/// A copy of a text.
pub fn read_label(alloc: Global, text: &str) -> Result<Label, SettingsFault>
    ensures { Gives result (unless None text.now) }
{
    match Label::new(alloc, text) {
        Ok(label) => Ok(label),
        Err(_) => Err(SettingsFault::Memory),
    }
}

#[tactic(auto, unfolding(crate::specs::Reading::endpoint_by))]
fn read_name(alloc: Global, url: &str) -> Result<EndpointName, SettingsFault>
    ensures { Gives result (unless (first_bad (url.now ∷ [])) (named_by url.now)) }
{
    match read_endpoint(alloc, url) {
        Ok(name) => Ok(name),
        Err(UrlFault::Memory) => Err(SettingsFault::Memory),
        Err(fault) => Err(SettingsFault::BadUrl { fault }),
    }
}

/// What a list of the document holds.
pub trait Entry: Sized + Drop {
    ghost urls: { Data → List (List ℕ) };

    ghost value: { Data → Self };

    /// The item that a table is, where each of its URLs names an endpoint.
    fn read(alloc: Global, entry: &Value) -> Result<Self, SettingsFault>
        ensures { Gives result (unless (first_bad (urls (view entry.now))) (value (view entry.now))) };
}

impl Entry for Endpoint {
    ghost urls = { storage_urls };

    ghost value = { endpoint_in };

    fn read(alloc: Global, entry: &Value) -> Result<Endpoint, SettingsFault> {
        let name = read_name(alloc, text_or(entry, SettingKey::Url, ""))?;
        Ok(Endpoint {
            name,
            inbound: number_or(entry, SettingKey::Inbound, DEFAULT_ENDPOINT_LIMIT),
            outbound: number_or(entry, SettingKey::Outbound, DEFAULT_ENDPOINT_LIMIT),
        })
    }
}

impl Entry for LinkRule {
    ghost urls = { link_urls };

    ghost value = { link_in };

    fn read(alloc: Global, entry: &Value) -> Result<LinkRule, SettingsFault> {
        let source = read_name(alloc, text_or(entry, SettingKey::LinkSource, ""))?;
        let dest = read_name(alloc, text_or(entry, SettingKey::LinkDestination, ""))?;
        let symbolic = read_label(alloc, text_or(entry, SettingKey::SymbolicName, "link"))?;
        Ok(LinkRule {
            symbolic,
            source,
            dest,
            max_active: number_or(entry, SettingKey::MaxActive, 0),
        })
    }
}

impl Entry for Weight {
    ghost urls = { λ _. [] };

    ghost value = { weight_in };

    fn read(alloc: Global, entry: &Value) -> Result<Weight, SettingsFault> {
        let name = read_label(alloc, text_or(entry, SettingKey::Name, ""))?;
        Ok(Weight {
            name,
            weight: number_or(entry, SettingKey::Weight, 0),
        })
    }
}

/// The items of a list, or the fault of its first URL that names no endpoint.
pub fn read_all<T: Entry>(alloc: Global, entries: &[Value]) -> Result<Items<T>, SettingsFault>
    ensures { Gives result (unless (first_bad (flat_map T.urls (map view entries.now))) (map T.value (map view entries.now))) }
{
    let mut items = Items::new(alloc);
    for entry in entries {
        match items.push(T::read(alloc, entry)?) {
            Ok(()) => {}
            Err(_) => return Err(SettingsFault::Memory),
        }
    }
    Ok(items)
}
