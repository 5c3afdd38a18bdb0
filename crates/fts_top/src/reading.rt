//! The settings of a run: their text, read whole, and then by its rules.
//! A text that is too long breaks a rule as any other; only a failed read leaves the settings unread.
ghost use Rattle.std.specs.Prelude.{◌≡◌, ◌≢◌, Some, IfOk, IfErr};
ghost use Rattle.fts_tables.specs.Counts.{Rose};
ghost use Rattle.fts_top.specs.Ends.{status_of};
ghost use Rattle.fts_top.specs.Runs.{AreRead, HasNoSettings, EndsBy};

use crate::ends::RunEnd;
use fts_config::{SettingsFault, read_settings};
use fts_tables::Settings;
use fts_tables::limits::MAX_SETTINGS_BYTES;
use fts_wire::{ReadAllFault, Source, read_all};
use std::alloc::Global;

/// The settings that a source's text gives, or how the run ends: a read failed, the text breaks a rule, or there is no memory.
pub fn load_settings<F: Source>(alloc: Global, source: &mut F) -> Result<Settings, RunEnd>
    ensures read { IfOk result (AreRead (F.left source.old)) }
    ensures stopped { IfErr result (HasNoSettings (F.left source.old)) }
    ensures words { IfErr result (λ end. status_of end ≢ 2) }
    ensures unread { IfErr result (λ end. status_of end ≡ 8 → Rose (F.faults source.old) (F.faults source.new)) }
{
    match read_all(alloc, source, MAX_SETTINGS_BYTES) {
        Ok(text) => settings_in(alloc, text.as_slice()),
        Err(ReadAllFault::TooLong) => Err(end_by(SettingsFault::TooLong)),
        Err(ReadAllFault::SourceFailed) => Err(RunEnd::SettingsUnread),
        Err(ReadAllFault::Memory) => Err(RunEnd::NoMemory),
    }
}

/// The settings that a text gives, or how the run ends.
fn settings_in(alloc: Global, text: &[u8]) -> Result<Settings, RunEnd>
    ensures read { IfOk result (AreRead (Some text.now)) }
    ensures stopped { IfErr result (HasNoSettings (Some text.now)) }
    ensures words { IfErr result (λ end. status_of end ≢ 2) }
    ensures unread { IfErr result (λ end. status_of end ≢ 8) }
{
    match read_settings(alloc, text) {
        Ok(settings) => Ok(settings),
        Err(fault) => Err(end_by(fault)),
    }
}

/// How a run ends by a fault of its settings.
fn end_by(fault: SettingsFault) -> RunEnd
    ensures { EndsBy fault result }
{
    if fault == SettingsFault::Memory {
        RunEnd::NoMemory
    } else {
        RunEnd::SettingsRule { rule: fault.rule() }
    }
}
