//! JSON values (RFC 8259) and their texts. Each function gives exactly the value that its clause names (`specs/Json.antt`).
ghost use Rattle.std.specs.Prelude.{◌≡◌, ◌++◌, ◌∷◌, [], map, refl, IfOk, OnOk, false};
ghost use Rattle.serde_json.specs.Data.{Data, array, boolean, object, string, put};
ghost use Rattle.serde_json.specs.View.{view, items_of, members_view};
ghost use Rattle.serde_json.specs.Written.{has_float};
ghost use Rattle.fts_board.specs.Json.{array_of, text_of, whole_number};

use fts_tables::Memory;
use serde_json::{Map, Value, json};
use std::alloc::Global;

/// The text of a value, which has no float.
pub fn text_of(alloc: Global, value: &Value) -> Result<Vec<u8>, Memory>
    requires { has_float (view value.now) ≡ false }
    ensures { IfOk result (λ text. text.items ≡ text_of (view value.now)) }
{
    let text = value.to_vec(alloc)?;
    Ok(text)
}

/// What a JSON value shows.
pub trait AsJson {
    /// The value that shows it.
    ghost shown: { Self → Data };

    /// The value that shows it.
    fn value(&self, alloc: Global) -> Result<Value, Memory>
        ensures { IfOk result (λ value. view value ≡ shown self.now) };

    /// No float is in that value.
    ghost no_float: { (x : Self) → has_float (shown x) ≡ false };
}

impl AsJson for u64 {
    ghost shown = { whole_number };

    ghost no_float = { λ _. refl };

    fn value(&self, alloc: Global) -> Result<Value, Memory> {
        let value = json!(in alloc; *self)?;
        Ok(value)
    }
}

/// A list of what items show.
pub fn array_value<T: AsJson>(alloc: Global, items: &[T]) -> Result<Value, Memory>
    ensures { IfOk result (λ value. view value ≡ array_of T.shown items.now) }
{
    let mut list = Vec::new(alloc);
    for item in items {
        let value = item.value(alloc)?;
        if list.push(value).is_err() {
            return Err(Memory);
        }
    }
    Ok(Value::Array(list))
}

/// A flag.
pub fn flag_value(flag: bool) -> Value
    ensures { view result ≡ boolean flag }
{
    Value::Bool(flag)
}

/// Appends a value.
pub fn push_value(list: &mut Vec<Value>, value: Value) -> Result<(), Memory>
    ensures { OnOk result (map view list.new.items ≡ map view list.old.items ++ view value ∷ []) }
{
    match list.push(value) {
        Ok(()) => Ok(()),
        Err(_) => Err(Memory),
    }
}

/// The array of these values.
pub fn array_from(list: Vec<Value>) -> Value
    ensures { view result ≡ array (items_of (map view list.items)) }
{
    Value::Array(list)
}

/// The object of these members.
pub fn object_from(map: Map<String, Value>) -> Value
    ensures { view result ≡ object (members_view map.entries) }
{
    Value::Object(map)
}

/// Puts a value under a key.
pub fn put_value(
    alloc: Global,
    map: &mut Map<String, Value>,
    key: &str,
    value: Value,
) -> Result<(), Memory>
    ensures { OnOk result (members_view map.new.entries ≡ put key.now (view value) (members_view map.old.entries)) }
{
    serde_json::put(map, alloc, key, value)?;
    Ok(())
}

/// Puts a text under a key.
pub fn put_text(
    alloc: Global,
    map: &mut Map<String, Value>,
    key: &str,
    text: &str,
) -> Result<(), Memory>
    ensures { OnOk result (members_view map.new.entries ≡ put key.now (string text.now) (members_view map.old.entries)) }
{
    let value = json!(in alloc; text)?;
    serde_json::put(map, alloc, key, value)?;
    Ok(())
}

/// Puts a number under a key.
pub fn put_number(
    alloc: Global,
    map: &mut Map<String, Value>,
    key: &str,
    number: u64,
) -> Result<(), Memory>
    ensures { OnOk result (members_view map.new.entries ≡ put key.now (whole_number number) (members_view map.old.entries)) }
{
    let value = json!(in alloc; number)?;
    serde_json::put(map, alloc, key, value)?;
    Ok(())
}
