//! The settings' text, whole: its length, the document, the keys, the URLs, and then the rules of the values.
//! That is the order in which rules are answered: 13, then 1 to 12, 14 and 15 (`specs/Settings.antt`).
ghost use Rattle.std.specs.Prelude.{◌≡◌, ◌⊎◌};
ghost use Rattle.fts_config.specs.Settings.{settings_of};

use crate::SettingsFault;
use crate::document::read_document;
use crate::draft::read_draft;
use crate::rules::settled;
use crate::types::{check_needed, check_types};
use fts_tables::Settings;
use fts_tables::limits::MAX_SETTINGS_BYTES;
use std::alloc::Global;

/// The settings that a text gives, or the first rule that it breaks, in the order 13, 1 to 12, 14, 15.
///
/// The text is TOML 1.1 in UTF-8, of at most `MAX_SETTINGS_BYTES` bytes. Unknown keys are passed over; lists keep their order.
/// The same text gives the same answer, except for want of memory.
#[tactic(auto, unfolding(crate::specs::Settings::settings_of))]
pub fn read_settings(alloc: Global, text: &[u8]) -> Result<Settings, SettingsFault>
    ensures { (result ≡ settings_of text.now) ⊎ (result ≡ Err SettingsFault.Memory) }
{
    if text.len() > MAX_SETTINGS_BYTES {
        return Err(SettingsFault::TooLong);
    }
    let document = read_document(alloc, text)?;
    check_types(&document)?;
    check_needed(&document)?;
    settled(alloc, read_draft(alloc, &document)?)
}
