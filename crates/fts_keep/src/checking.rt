//! What is checked before anything is written: the machine's refusals, memory, and the limit of the journal that the command has.
//! Order: the desk prepares the command, the entry is spelled, and its bytes are held against what is left of the journal.
//! Nothing has changed then but what the desk has room for.
ghost use Rattle.std.specs.Prelude.{◌≡◌, ◌<◌, ◌≤◌, length, Some, IfOk, OnOk, IsTrue};
ghost use Rattle.fts_tables.specs.declared.limits.TheConstants.{JOURNAL_END, MAX_BODY_BYTES};
ghost use Rattle.fts_record.specs.Spelling.{spelled};
ghost use Rattle.fts_record.specs.Proper.{IsProper, has_priority};
ghost use Rattle.fts_keep.specs.Applied.{Checks};
ghost use Rattle.fts_keep.specs.Ending.{ShowsProper};

use crate::KeepFault;
use crate::limits::journal_limit;
use fts_desk::{Desk, DeskFault, Plan};
use fts_journal::{FRONT_BYTES, GATE_BYTES};
use fts_record::write_entry;
use fts_tables::Entry;
use std::alloc::Global;

/// The plan of an entry's command and the body that spells it, where so many bytes of the journal are used.
pub fn check(
    alloc: Global,
    desk: &mut Desk,
    used: u64,
    entry: &Entry,
) -> Result<(Plan, Vec<u8>), KeepFault>
    requires few { desk.old.commands < 4294967295 }
    requires high { used < JOURNAL_END }
    requires priority { IsTrue (has_priority entry.now.command) }
    ensures checks { Checks desk.old.tables used entry.now result }
    ensures tables { desk.new.tables ≡ desk.old.tables }
    ensures commands { desk.new.commands ≡ desk.old.commands }
    ensures planned { OnOk result (desk.new.planned ≡ Some entry.now.command) }
    ensures body { IfOk result (λ checked. checked.1.items ≡ spelled entry.now) }
    ensures proper { OnOk result (IsProper entry.now) }
    ensures short { OnOk result (length (spelled entry.now) ≤ MAX_BODY_BYTES) }
    ensures shows { ShowsProper entry.now result }
{
    let plan = match desk.prepare(&entry.command) {
        Ok(plan) => plan,
        Err(DeskFault::Rule(refusal)) => return Err(KeepFault::Rule(refusal)),
        Err(DeskFault::Memory) => return Err(KeepFault::Memory),
    };
    let mut body = Vec::new(alloc);
    write_entry(entry, &mut body)?;
    if used + FRONT_BYTES + body.len() as u64 + GATE_BYTES > journal_limit(&entry.command) {
        return Err(KeepFault::JournalFull { used });
    }
    Ok((plan, body))
}
