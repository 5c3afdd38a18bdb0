//! Reading an event from left to right: the value at the front and the bytes behind it, or the first field that is not spelled.
//! Each reader answers what its definition does (`specs/Spelling.antt`), or want of memory. A list is read into a list of its own, so nothing is left of
//! one that isn't whole.
ghost use Rattle.std.specs.Prelude.{◌≡◌, ◌≤◌, option_map, IfOk};
ghost use Rattle.fts_record.specs.Fields.{number_of, text_of};
ghost use Rattle.fts_record.specs.Reading.{number_at, name_at, path_at, items_at, u32_at};
ghost use Rattle.fts_delete.specs.Spelling.{place_at, ask_at, event_at, event_in};
ghost use Rattle.fts_delete.specs.Answers.{Gives, Tells};
ghost use Rattle.fts_delete.specs.declared.reading.Stop.TheVariants.{OutOfMemory as TheMemory};

use crate::events::Event;
use crate::limits::MAX_ASKED;
use crate::spelling::{ASK, GONE, MISSED};
use fts_record::{read_number, read_text};
use fts_tables::{EndpointName, Items, Label, Memory, PathKey, Place};
use std::alloc::Global;

/// Why reading stopped.
#[derive(Clone, Copy, Debug, PartialEq, Eq)]
pub enum Stop {
    /// There was no memory.
    OutOfMemory,
    /// A field is not spelled, and from its first byte on so many bytes are left.
    Unspelled { left: usize },
}

impl From<Memory> for Stop {
    ghost from_gives = { λ _ stop. stop ≡ TheMemory };

    fn from(_: Memory) -> Self {
        Stop::OutOfMemory
    }
}

/// Why a body is no event.
#[derive(Clone, Copy, Debug, PartialEq, Eq)]
pub enum EventFault {
    /// At this place of the body a field is not spelled, or bytes follow the last one.
    BadEvent { at: usize },
    /// There was no memory to tell.
    Memory,
}

/// The number at the front, and the bytes behind it.
fn number_of(bytes: &[u8]) -> Option<(u64, &[u8])>
    ensures { option_map (λ found. (found.0, found.1.now)) result ≡ number_of bytes.now }
{
    let (number, at) = read_number(bytes, 0)?;
    Some((number, &bytes[at..]))
}

/// The text at the front, and the bytes behind it.
fn text_of(alloc: Global, bytes: &[u8]) -> Result<Option<(Label, &[u8])>, Memory>
    ensures { IfOk result (λ found. option_map (λ x. (x.0, x.1.now)) found ≡ text_of bytes.now) }
{
    match read_text(alloc, bytes, 0)? {
        Some((text, at)) => Ok(Some((text, &bytes[at..]))),
        None => Ok(None),
    }
}

/// The number at the front, from `low` to `high`.
#[tactic(auto, unfolding(fts_record::specs::Reading::number_at))]
fn number_at(bytes: &[u8], low: u64, high: u64) -> Result<(u64, &[u8]), Stop>
    ensures read { Gives (λ x. (x.0, x.1.now)) result (number_at low high bytes.now) }
    ensures range { IfOk result (λ x. (low ≤ x.0) × (x.0 ≤ high)) }
{
    match number_of(bytes) {
        Some((number, rest)) if low <= number && number <= high => Ok((number, rest)),
        _ => Err(Stop::Unspelled { left: bytes.len() }),
    }
}

/// The id at the front.
fn id_at(bytes: &[u8]) -> Result<(u32, &[u8]), Stop>
    ensures { Gives (λ x. (x.0, x.1.now)) result (u32_at bytes.now) }
{
    let (id, rest) = number_at(bytes, 0, u64::from(u32::MAX))?;
    Ok((id as u32, rest))
}

/// The name of an endpoint at the front.
#[tactic(auto, using(fts_record::proofs::TextReader::rule_is_kept, fts_record::proofs::TextReader::rule_is_broken), unfolding(fts_record::specs::Reading::name_at))]
fn name_at(alloc: Global, bytes: &[u8]) -> Result<(EndpointName, &[u8]), Stop>
    ensures { Gives (λ x. (x.0, x.1.now)) result (name_at bytes.now) }
{
    let left = bytes.len();
    match text_of(alloc, bytes)? {
        Some((text, rest)) => match EndpointName::read(alloc, text.as_str())? {
            Some(name) => Ok((name, rest)),
            None => Err(Stop::Unspelled { left }),
        },
        None => Err(Stop::Unspelled { left }),
    }
}

/// The path of a file at the front.
#[tactic(auto, unfolding(fts_record::specs::Reading::path_at))]
fn path_at(alloc: Global, bytes: &[u8]) -> Result<(PathKey, &[u8]), Stop>
    ensures { Gives (λ x. (x.0, x.1.now)) result (path_at bytes.now) }
{
    let left = bytes.len();
    match text_of(alloc, bytes)? {
        Some((text, rest)) => match PathKey::read(alloc, text.as_str())? {
            Some(path) => Ok((path, rest)),
            None => Err(Stop::Unspelled { left }),
        },
        None => Err(Stop::Unspelled { left }),
    }
}

/// The place at the front.
#[tactic(auto, unfolding(crate::specs::Spelling::place_at))]
fn place_at(alloc: Global, bytes: &[u8]) -> Result<(Place, &[u8]), Stop>
    ensures { Gives (λ x. (x.0, x.1.now)) result (place_at bytes.now) }
{
    let (endpoint, rest) = name_at(alloc, bytes)?;
    let (path, rest) = path_at(alloc, rest)?;
    Ok((Place { endpoint, path }, rest))
}

fn places_at(alloc: Global, count: u64, bytes: &[u8]) -> Result<(Items<Place>, &[u8]), Stop>
    ensures { Gives (λ x. (x.0, x.1.now)) result (items_at place_at count bytes.now) }
{
    let mut places = Items::new(alloc);
    let mut rest = bytes;
    for _ in 0..count {
        let (place, after) = place_at(alloc, rest)?;
        match places.push(place) {
            Ok(()) => {}
            Err(_) => return Err(Stop::OutOfMemory),
        }
        rest = after;
    }
    Ok((places, rest))
}

/// Behind its byte, an asking: 1 to `MAX_ASKED` places.
fn ask_at(alloc: Global, bytes: &[u8]) -> Result<(Event, &[u8]), Stop>
    ensures { Gives (λ x. (x.0, x.1.now)) result (ask_at bytes.now) }
{
    let (count, rest) = number_at(bytes, 1, MAX_ASKED as u64)?;
    let (places, rest) = places_at(alloc, count, rest)?;
    Ok((Event::Ask { places }, rest))
}

/// The event at the front.
#[tactic(auto, unfolding(crate::specs::Spelling::event_at))]
fn event_at(alloc: Global, bytes: &[u8]) -> Result<(Event, &[u8]), Stop>
    ensures { Gives (λ x. (x.0, x.1.now)) result (event_at bytes.now) }
{
    match bytes {
        [ASK, rest @ ..] => ask_at(alloc, rest),
        [GONE, rest @ ..] => {
            let (id, rest) = id_at(rest)?;
            Ok((Event::Gone { id }, rest))
        }
        [MISSED, rest @ ..] => {
            let (id, rest) = id_at(rest)?;
            Ok((Event::Missed { id }, rest))
        }
        _ => Err(Stop::Unspelled { left: bytes.len() }),
    }
}

/// The event that the bytes spell, all of them.
/// `BadEvent` comes exactly where they spell none, and `Memory` only for want of memory.
#[tactic(auto, unfolding(crate::specs::Spelling::event_in))]
pub fn read_event(alloc: Global, bytes: &[u8]) -> Result<Event, EventFault>
    ensures { Tells result (event_in bytes.now) }
{
    match event_at(alloc, bytes) {
        Ok((event, rest)) => {
            if rest.is_empty() {
                Ok(event)
            } else {
                let at = bytes.len().saturating_sub(rest.len());
                Err(EventFault::BadEvent { at })
            }
        }
        Err(Stop::Unspelled { left }) => {
            let at = bytes.len().saturating_sub(left);
            Err(EventFault::BadEvent { at })
        }
        Err(Stop::OutOfMemory) => Err(EventFault::Memory),
    }
}
