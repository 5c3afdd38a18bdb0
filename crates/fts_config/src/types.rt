//! The rules of types and of absence, for every key in its order.
ghost use Rattle.std.specs.Prelude.{◌≡◌, map};
ghost use Rattle.std.specs.List.{list_all, list_any};
ghost use Rattle.toml.specs.View.{view};
ghost use Rattle.fts_tables.specs.FirstFault.{unless};
ghost use Rattle.fts_config.specs.Types.{is_table, fits, has_wrong_type, lacks, wrong_type, missing};

use crate::keys::Kind;
use crate::tables::tables_with;
use crate::{SettingKey, SettingsFault};
use toml::Value;

fn are_tables(values: &[Value]) -> bool
    ensures { result ≡ list_all is_table (map view values.now) }
{
    values.iter().all(|value| value.is_table())
}

fn fits(kind: Kind, value: &Value) -> bool
    ensures { result ≡ fits kind (view value.now) }
{
    match kind {
        Kind::Text => value.is_str(),
        Kind::Number => value.is_integer(),
        Kind::Tables => match value.as_array() {
            Some(items) => are_tables(items.as_slice()),
            None => false,
        },
    }
}

fn has_wrong_type(key: SettingKey, table: &Value) -> bool
    ensures { result ≡ has_wrong_type key (view table.now) }
{
    match table.get(key.name()) {
        Some(value) => !fits(key.kind(), value),
        None => false,
    }
}

fn lacks(key: SettingKey, table: &Value) -> bool
    ensures { result ≡ lacks key (view table.now) }
{
    if !key.is_needed() {
        return false;
    }
    match table.get(key.name()) {
        Some(value) => match value.as_array() {
            Some(items) => items.as_slice().is_empty(),
            None => false,
        },
        None => true,
    }
}

fn any_has_wrong_type(key: SettingKey, tables: &[Value]) -> bool
    ensures { result ≡ list_any (has_wrong_type key) (map view tables.now) }
{
    tables.iter().any(|table| has_wrong_type(key, table))
}

fn any_lacks(key: SettingKey, tables: &[Value]) -> bool
    ensures { result ≡ list_any (lacks key) (map view tables.now) }
{
    tables.iter().any(|table| lacks(key, table))
}

/// Rule 2: no key has a value of another type.
#[tactic(auto, unfolding(crate::specs::Types::wrong_type))]
pub fn check_types(document: &Value) -> Result<(), SettingsFault>
    ensures { result ≡ unless (wrong_type (view document.now)) tt }
{
    for key in SettingKey::all().iter() {
        if any_has_wrong_type(*key, tables_with(document, *key)) {
            return Err(SettingsFault::WrongType { key: *key });
        }
    }
    Ok(())
}

/// Rule 3: each key that must be there is.
#[tactic(auto, unfolding(crate::specs::Types::missing))]
pub fn check_needed(document: &Value) -> Result<(), SettingsFault>
    ensures { result ≡ unless (missing (view document.now)) tt }
{
    for key in SettingKey::all().iter() {
        if any_lacks(*key, tables_with(document, *key)) {
            return Err(SettingsFault::Missing { key: *key });
        }
    }
    Ok(())
}
