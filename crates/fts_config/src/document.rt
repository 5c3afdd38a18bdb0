//! The document that a text is, as the `toml` crate reads it (TOML 1.1): rule 1.
ghost use Rattle.std.specs.Prelude.{◌≡◌, ◌⊎◌, Some, None, MatchResult};
ghost use Rattle.toml.specs.View.{view};
ghost use Rattle.fts_config.specs.Document.{document_of};

use crate::SettingsFault;
use std::alloc::Global;
use toml::Value;

/// The document that a text is; NotToml exactly where it is none.
pub fn read_document(alloc: Global, text: &[u8]) -> Result<Value, SettingsFault>
    ensures { MatchResult result (λ value. document_of text.now ≡ Some (view value))
        (λ fault. (fault ≡ SettingsFault.Memory) ⊎ ((fault ≡ SettingsFault.NotToml) × (document_of text.now ≡ None))) }
{
    match toml::table_from_slice(alloc, text) {
        Ok(table) => Ok(Value::Table(table)),
        Err(refused) => {
            if refused.is_memory() {
                Err(SettingsFault::Memory)
            } else {
                Err(SettingsFault::NotToml)
            }
        }
    }
}
