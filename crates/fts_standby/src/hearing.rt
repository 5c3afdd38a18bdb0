//! What an answer says to a standby that asked for an entry: the entry's bytes, that there is none, or neither (`specs/Hearing.antt`).
//! Keeps: an entry is taken from a 200 alone, whose body is an object of the asked number with the digits of one entry and nothing behind it; that
//! there is none, only from a 404 by rule 47. Whatever else comes gives no entry.
//! It knows nothing of lines.
ghost use Rattle.std.specs.Prelude.{◌≡◌, IfOk, codes, option_map, option_and_then};
ghost use Rattle.serde_json.specs.Find.{get, as_str};
ghost use Rattle.serde_json.specs.View.{view};
ghost use Rattle.hex.specs.Hex.{decode_of};
ghost use Rattle.fts_standby.specs.Entries.{number_under, decoded, if_entry, is_numbered, entry_shown, entry_in, has_rule_47, says_no_entry};
ghost use Rattle.fts_standby.specs.Hearing.{gives, heard_of, heard_data};

use fts_client::read_value;
use fts_record::{ReadFault, read_entry};
use fts_tables::Memory;
use fts_wire::statuses;
use hex::FromHexError;
use serde_json::Value;
use std::alloc::Global;

/// The rule that the journal has the entry.
const NO_ENTRY: u64 = 47;

/// What is heard by whoever asked for the entry of a number.
#[derive(Drop)]
pub enum Heard {
    /// The bytes of that entry.
    Gives { entry: Vec<u8> },
    /// There is no entry of that number.
    NoneThere,
    /// Another refusal.
    Refuses { status: u16 },
    /// The service can't serve now.
    CannotServe { status: u16 },
    /// Nothing that is an answer to this request.
    NoAnswer,
    /// Nothing: the link failed.
    LinkFailed,
}

/// What an answer of this status with this body says to whoever asked for the entry of a number. It is never that the link failed.
pub fn hear(alloc: Global, number: u32, status: u16, body: &[u8]) -> Result<Heard, Memory>
    ensures { IfOk result (λ heard. heard_data heard ≡ heard_of number status body.now) }
{
    match status {
        statuses::OK => hear_entry(alloc, number, body),
        statuses::INTERNAL_SERVER_ERROR | statuses::SERVICE_UNAVAILABLE => {
            Ok(Heard::CannotServe { status })
        }
        statuses::NOT_FOUND => hear_absence(alloc, body),
        _ => Ok(Heard::Refuses { status }),
    }
}

/// The entry that a body shows, or no answer.
fn hear_entry(alloc: Global, number: u32, body: &[u8]) -> Result<Heard, Memory>
    ensures { IfOk result (λ heard. heard_data heard ≡ gives (entry_in number body.now)) }
{
    match entry_in(alloc, number, body)? {
        Some(entry) => Ok(Heard::Gives { entry }),
        None => Ok(Heard::NoAnswer),
    }
}

/// That there is no such entry, or another refusal.
fn hear_absence(alloc: Global, body: &[u8]) -> Result<Heard, Memory>
    ensures { IfOk result (λ heard. heard_data heard ≡ heard_of 0 404 body.now) }
{
    if says_no_entry(alloc, body)? {
        Ok(Heard::NoneThere)
    } else {
        Ok(Heard::Refuses {
            status: statuses::NOT_FOUND,
        })
    }
}

/// The entry of a number that a body shows.
fn entry_in(alloc: Global, number: u32, body: &[u8]) -> Result<Option<Vec<u8>>, Memory>
    ensures { IfOk result (λ found. option_map (λ entry. entry.items) found ≡ entry_in number body.now) }
{
    match read_value(alloc, body)? {
        Some(value) => entry_shown(alloc, number, &value),
        None => Ok(None),
    }
}

/// The entry of a number that a value shows.
fn entry_shown(alloc: Global, number: u32, value: &Value) -> Result<Option<Vec<u8>>, Memory>
    ensures { IfOk result (λ found. option_map (λ entry. entry.items) found ≡ entry_shown number (view value.now)) }
{
    if !is_numbered(number, value) {
        return Ok(None);
    }
    match digits_in(value) {
        Some(digits) => decoded(alloc, digits),
        None => Ok(None),
    }
}

/// Whether an object has this number.
fn is_numbered(number: u32, value: &Value) -> bool
    ensures { result ≡ is_numbered number (view value.now) }
{
    match number_under(value, "number") {
        Some(found) => found == number as u64,
        None => false,
    }
}

/// The whole number under a key.
fn number_under(value: &Value, key: &str) -> Option<u64>
    ensures { result ≡ number_under key.now (view value.now) }
{
    value.get(key)?.as_u64()
}

/// The digits of an object's entry.
fn digits_in(value: &Value) -> Option<&str>
    ensures { option_map (λ text. text.now) result ≡ option_and_then as_str (get (codes "body") (view value.now)) }
{
    value.get("body")?.as_str()
}

/// The bytes that digits stand for, where they are the spelling of one entry.
fn decoded(alloc: Global, digits: &str) -> Result<Option<Vec<u8>>, Memory>
    ensures { IfOk result (λ found. option_map (λ entry. entry.items) found ≡ decoded (decode_of digits.now)) }
{
    match hex::decode(alloc, digits.as_bytes()) {
        Ok(bytes) => if_entry(alloc, bytes),
        Err(FromHexError::OutOfMemory) => Err(Memory),
        Err(_) => Ok(None),
    }
}

/// The bytes, where they are the spelling of one entry.
fn if_entry(alloc: Global, bytes: Vec<u8>) -> Result<Option<Vec<u8>>, Memory>
    ensures { IfOk result (λ found. option_map (λ entry. entry.items) found ≡ if_entry bytes.items) }
{
    match read_entry(alloc, &bytes) {
        Ok(_) => Ok(Some(bytes)),
        Err(ReadFault::BadEntry { .. }) => Ok(None),
        Err(ReadFault::Memory) => Err(Memory),
    }
}

/// Whether a body is a refusal because there is no such entry.
fn says_no_entry(alloc: Global, body: &[u8]) -> Result<bool, Memory>
    ensures { IfOk result (λ says. says ≡ says_no_entry body.now) }
{
    match read_value(alloc, body)? {
        Some(value) => Ok(has_rule_47(&value)),
        None => Ok(false),
    }
}

/// Whether a value is a refusal by the rule that the journal has the entry.
fn has_rule_47(value: &Value) -> bool
    ensures { result ≡ has_rule_47 (view value.now) }
{
    match number_under(value, "rule") {
        Some(rule) => rule == NO_ENTRY,
        None => false,
    }
}
