//! One entry: checked, journaled, and only then done.
//! Order: the checks, which write nothing (`check`); `settle`, which ends an old doubt; `append`, which is stable at its `Ok`; `commit`, which
//! can't fail. So what is refused was never written, and what was written is done, and stands in the list.
//! Keeps: the tables are the fold of the list, and the journal's bodies spell it (`IsTied`).
ghost use Rattle.std.specs.Prelude.{◌≤◌, IsTrue};
ghost use Rattle.fts_record.specs.Proper.{has_priority};
ghost use Rattle.fts_keep.specs.Views.{keep_of, IsTied};
ghost use Rattle.fts_keep.specs.Applied.{Applied, AppliesSafely};
ghost use Rattle.fts_keep.specs.Ending.{ShowsProper};

use crate::KeepFault;
use crate::checking::check;
use crate::list::EntryList;
use fts_desk::Desk;
use fts_disk::Disk;
use fts_journal::Journal;
use fts_record::laws::what_is_spelled_is_read;
use fts_tables::{Answer, Entry};
use std::alloc::Global;

/// Tries an entry over a desk, its journal and the list of what was accepted.
pub fn accept<D: Disk>(
    alloc: Global,
    desk: &mut Desk,
    journal: &mut Journal<D>,
    list: &mut EntryList,
    entry: &Entry,
) -> Result<Answer, KeepFault>
    requires priority { IsTrue (has_priority entry.now.command) }
    requires tied { IsTied D.state desk.old journal.old list.old.entries }
    ensures tied { IsTied D.state desk.new journal.new list.new.entries }
    ensures applied { Applied D.state D.faults (keep_of D.state desk.old journal.old list.old.entries)
        (keep_of D.state desk.new journal.new list.new.entries) entry.now result }
    ensures safe { AppliesSafely D.state (keep_of D.state desk.old journal.old list.old.entries)
        (keep_of D.state desk.new journal.new list.new.entries) entry.now }
    ensures counts { D.faults journal.old.disk ≤ D.faults journal.new.disk }
    ensures shows { ShowsProper entry.now result }
{
    what_is_spelled_is_read();
    let (plan, body) = check(alloc, desk, journal.used(), entry)?;
    journal.settle()?;
    journal.append(&body)?;
    list.add(entry);
    Ok(desk.commit(plan))
}
