//! Looking into the JSON value of a document (RFC 8259, as `serde_json` reads it): a small function for each question.
//! Each answers a word of `specs/Json.antt`. Null counts as absent; of a key that is given twice the last value stays.
//! A whole number is a JSON number that the value gives as a `u64` or an `i64`: `3.0`, `1e3` and `-0` are none.
ghost use Rattle.std.specs.Prelude.{◌≡◌, IfOk, map, option_map, option_and_then};
ghost use Rattle.std.specs.List.{list_all};
ghost use Rattle.serde_json.specs.Find.{as_str};
ghost use Rattle.serde_json.specs.View.{view};
ghost use Rattle.fts_jobdoc.specs.Json.{value_of, field, param, list_under, has_texts, is_this_text, is_on, is_natural_within, is_minus_one, is_from_minus_one, fails, natural_or, is_object, is_text};

use fts_tables::Memory;
use serde_json::Value;
use std::alloc::Global;

/// The JSON value of a body, where it has one.
pub fn read_value(alloc: Global, body: &[u8]) -> Result<Option<Value>, Memory>
    ensures { IfOk result (λ value. option_map view value ≡ value_of body.now) }
{
    match Value::from_slice(alloc, body) {
        Ok(value) => Ok(Some(value)),
        Err(error) => {
            if error.is_memory() {
                Err(Memory)
            } else {
                Ok(None)
            }
        }
    }
}

/// What stands under a key of a value, where it isn't null.
#[tactic(auto, unfolding(crate::specs::Json::field))]
pub fn field<'a>(value: &'a Value, key: &str) -> Option<&'a Value>
    ensures { option_map (λ found. view found.now) result ≡ field key.now (view value.now) }
{
    let found = value.get(key)?;
    if found.is_null() { None } else { Some(found) }
}

/// What stands under a key of the document's `params`.
#[tactic(auto, unfolding(crate::specs::Json::param))]
pub fn param<'a>(document: &'a Value, key: &str) -> Option<&'a Value>
    ensures { option_map (λ found. view found.now) result ≡ param key.now (view document.now) }
{
    field(field(document, "params")?, key)
}

/// The items of the list under a key, and none where no list is there.
#[tactic(auto, unfolding(crate::specs::Json::list_under))]
pub fn list_under<'a>(value: &'a Value, key: &str) -> &'a [Value]
    ensures { map view result.now ≡ list_under key.now (view value.now) }
{
    let Some(found) = field(value, key) else {
        return &[];
    };
    match found.as_array() {
        Some(list) => list.as_slice(),
        None => &[],
    }
}

/// Whether a value is an object.
pub fn is_object(value: &Value) -> bool
    ensures { result ≡ is_object (view value.now) }
{
    value.is_object()
}

/// Whether a list of texts alone is under a key, `low` to `high` of them.
#[tactic(auto, unfolding(crate::specs::Json::has_texts))]
pub fn has_texts(value: &Value, key: &str, low: usize, high: usize) -> bool
    ensures { result ≡ has_texts low high key.now (view value.now) }
{
    let list = list_under(value, key);
    low <= list.len() && list.len() <= high && are_texts(list)
}

/// Whether each item of a list is a text.
pub fn are_texts(list: &[Value]) -> bool
    ensures { result ≡ list_all is_text (map view list.now) }
{
    list.iter().all(|item| item.is_string())
}

/// The text that is found.
pub fn text_of<'a>(found: Option<&'a Value>) -> Option<&'a str>
    ensures { option_map (λ text. text.now) result ≡ option_and_then (λ value. as_str (view value.now)) found.entry }
{
    found?.as_str()
}

/// Whether a value is this text.
pub fn is_this_text(value: &Value, text: &str) -> bool
    ensures { result ≡ is_this_text text.now (view value.now) }
{
    match value.as_str() {
        Some(found) => found == text,
        None => false,
    }
}

/// Whether what is found is the JSON value true.
pub fn is_on(found: Option<&Value>) -> bool
    ensures { result ≡ is_on (option_map (λ value. view value.now) found.entry) }
{
    match found {
        Some(value) => value.as_bool().unwrap_or(false),
        None => false,
    }
}

/// Whether a value is a whole number of a range.
pub fn is_within(value: &Value, low: u64, high: u64) -> bool
    ensures { result ≡ is_natural_within low high (view value.now) }
{
    match value.as_u64() {
        Some(number) => low <= number && number <= high,
        None => false,
    }
}

/// Whether something is there that is no whole number of a range.
pub fn is_outside(found: Option<&Value>, low: u64, high: u64) -> bool
    ensures { result ≡ fails (is_natural_within low high) (option_map (λ value. view value.now) found.entry) }
{
    match found {
        Some(value) => !is_within(value, low, high),
        None => false,
    }
}

/// Whether a value is the whole number -1.
fn is_minus_one(value: &Value) -> bool
    ensures { result ≡ is_minus_one (view value.now) }
{
    match value.as_i64() {
        Some(number) => number == -1,
        None => false,
    }
}

/// Whether a value is a whole number from -1 to this one.
pub fn is_from_minus_one(value: &Value, high: u64) -> bool
    ensures { result ≡ is_from_minus_one high (view value.now) }
{
    is_within(value, 0, high) || is_minus_one(value)
}

/// The whole number that is found, or what stands for one that is absent.
pub fn natural_or(found: Option<&Value>, number: u64) -> u64
    ensures { result ≡ natural_or number (option_map (λ value. view value.now) found.entry) }
{
    match found {
        Some(value) => value.as_u64().unwrap_or(number),
        None => number,
    }
}
