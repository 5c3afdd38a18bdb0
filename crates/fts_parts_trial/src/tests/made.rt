//! What the tests of several parts are made of: names, places, rows and settings with one endpoint, `https://a.example`, written by hand.
//! Every error is answered as want of memory. A clause says of each what the rules of the types above it ask for.
ghost use Rattle.std.specs.Prelude.{◌≡◌, ◌∷◌, [], ◌++◌, codes, IfOk, OnOk};

use fts_tables::{
    Endpoint, EndpointName, FileRow, FileState, Items, Label, Memory, PathKey, Place, Reason,
    Settings, Weight,
};
use std::alloc::Global;

/// One item more.
pub fn add<T: Drop>(items: &mut Items<T>, item: T) -> Result<(), Memory>
    ensures { OnOk result (items.new ≡ items.old ++ item ∷ []) }
{
    match items.push(item) {
        Ok(()) => Ok(()),
        Err(_) => Err(Memory),
    }
}

pub fn name(alloc: Global, text: &str) -> Result<EndpointName, Memory>
    ensures { IfOk result (λ n. n ≡ text.now) }
{
    match EndpointName::read(alloc, text)? {
        Some(name) => Ok(name),
        None => Err(Memory),
    }
}

pub fn place(alloc: Global, path: &str) -> Result<Place, Memory>
    ensures { IfOk result (λ p. p ≡ record { endpoint = codes "https://a.example"; path = path.now }) }
{
    match PathKey::read(alloc, path)? {
        Some(path) => Ok(Place {
            endpoint: name(alloc, "https://a.example")?,
            path,
        }),
        None => Err(Memory),
    }
}

/// A file of the first job, at its first attempt, in a state.
pub fn row(alloc: Global, state: FileState) -> Result<FileRow, Memory>
    ensures { IfOk result (λ row. row.state ≡ state) }
{
    Ok(FileRow {
        id: 1,
        job: 1,
        index: 0,
        source: place(alloc, "f1")?,
        dest: place(alloc, "g1")?,
        size: 0,
        wanted: None,
        activity: Label::new(alloc, "default")?,
        state,
        retries: 0,
        attempt: 1,
        not_before: 0,
        cancel_asked: false,
        reason: Reason::None,
        digest: None,
    })
}

/// Settings with one endpoint, to which one file may go and from which two may come.
pub fn settings(alloc: Global) -> Result<Settings, Memory>
    ensures { IfOk result (λ settings. settings.endpoints ≡ record { name = codes "https://a.example"; inbound = 1; outbound = 2 } ∷ []) }
{
    let mut endpoints = Items::new(alloc);
    let endpoint = Endpoint {
        name: name(alloc, "https://a.example")?,
        inbound: 1,
        outbound: 2,
    };
    add(&mut endpoints, endpoint)?;
    let mut weights = Items::new(alloc);
    let weight = Weight {
        name: Label::new(alloc, "default")?,
        weight: 1,
    };
    add(&mut weights, weight)?;
    Ok(Settings {
        vo: Label::new(alloc, "demo")?,
        workers: 2,
        default_max_active: 7,
        endpoints,
        links: Items::new(alloc),
        weights,
    })
}
