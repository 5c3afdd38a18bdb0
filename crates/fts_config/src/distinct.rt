//! Lists of which no two have one key, told in time that grows as their bytes do and not as their square: the keys go into an ordered set.
//! A storage's key is its name. A link's is the names of its source and destination with a blank between, which no name has.
//! The set, where it is made, then says which names are listed (`HoldsKeys`).
ghost use Rattle.std.specs.Prelude.{◌≡◌, ℕ, List, Bool, true, string_bytes, MatchResult};
ghost use Rattle.fts_tables.specs.Names.{is_endpoint_name};
ghost use Rattle.fts_config.specs.Distinct.{endpoint_key, pair_key, HoldsKeys};

use crate::SettingsFault;
use fts_tables::{Endpoint, LinkRule};
use std::alloc::Global;
use std::collections::BTreeSet;

/// What a list holds no two of with one key.
pub trait Keyed: Sized {
    ghost key: { Self → List ℕ };

    ghost proper: { Self → Bool };

    /// A copy of its key.
    fn key_text(&self, alloc: Global) -> Result<String, SettingsFault>
        ensures { MatchResult result (λ text. (string_bytes text ≡ key self.now) × (proper self.now ≡ true)) (λ fault. fault ≡ SettingsFault.Memory) };
}

impl Keyed for Endpoint {
    ghost key = { endpoint_key };

    ghost proper = { λ _. true };

    fn key_text(&self, alloc: Global) -> Result<String, SettingsFault> {
        match String::from_str(alloc, self.name.as_str()) {
            Ok(text) => Ok(text),
            Err(_) => Err(SettingsFault::Memory),
        }
    }
}

impl Keyed for LinkRule {
    ghost key = { pair_key };

    ghost proper = { λ link. is_endpoint_name link.source };

    fn key_text(&self, alloc: Global) -> Result<String, SettingsFault> {
        let source = self.source.as_str();
        match format!(in alloc; "{} {}", source, self.dest.as_str()) {
            Ok(text) => Ok(text),
            Err(_) => Err(SettingsFault::Memory),
        }
    }
}

/// The keys of a list, and None where two of it are the same.
pub fn distinct_keys<T: Keyed>(
    alloc: Global,
    items: &[T],
) -> Result<Option<BTreeSet<String>>, SettingsFault>
    ensures { MatchResult result (HoldsKeys T.key T.proper items.now) (λ fault. fault ≡ SettingsFault.Memory) }
{
    let mut keys = BTreeSet::new(alloc);
    for item in items {
        match keys.insert(item.key_text(alloc)?) {
            Ok(true) => {}
            Ok(false) => return Ok(None),
            Err(_) => return Err(SettingsFault::Memory),
        }
    }
    Ok(Some(keys))
}
