//! Where values stand in a document: the tables of a list, and those in which a key stands.
ghost use Rattle.std.specs.Prelude.{◌≡◌, map};
ghost use Rattle.toml.specs.View.{view};
ghost use Rattle.fts_config.specs.Tables.{tables_of, tables_with};

use crate::SettingKey;
use toml::Value;

/// The tables of a list, and none where the list isn't there.
pub fn tables_of(document: &Value, list: SettingKey) -> &[Value]
    ensures { map view result.now ≡ tables_of list (view document.now) }
{
    match document.get(list.name()) {
        Some(value) => match value.as_array() {
            Some(items) => items.as_slice(),
            None => &[],
        },
        None => &[],
    }
}

/// The tables in which a key stands.
pub fn tables_with(document: &Value, key: SettingKey) -> &[Value]
    ensures { map view result.now ≡ tables_with key (view document.now) }
{
    match key.list() {
        None => std::slice::from_ref(document),
        Some(list) => tables_of(document, list),
    }
}
