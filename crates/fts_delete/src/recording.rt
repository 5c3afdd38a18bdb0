//! One event: the journal is made ready for it, then it is appended, and only then the rows move on.
//! Order: room is looked at and an old doubt ended before anything is done that the event is to tell; `append` is stable at its `Ok`.
//! Keeps: the rows are the fold of the journal's list (`IsTied`).
ghost use Rattle.std.specs.Prelude.{◌≡◌, ◌≤◌, length, false, true, IsSome, List, vec_capacity};
ghost use Rattle.fts_journal.specs.Format.{IsBody};
ghost use Rattle.fts_delete.specs.declared.rows.DeleteRow.{DeleteRow};
ghost use Rattle.fts_delete.specs.Rows.{rows_after};
ghost use Rattle.fts_delete.specs.Spelling.{IsProper, body_of};
ghost use Rattle.fts_delete.specs.Folding.{HasRoom};
ghost use Rattle.fts_delete.specs.Views.{deletes_of, IsTied};
ghost use Rattle.fts_delete.specs.Calls.{Settles, Appends};
ghost use Rattle.fts_delete.specs.Recording.{Readied, Added, fits};

use crate::DeleteFault;
use crate::events::Event;
use crate::rows::DeleteRow;
use crate::taking::take_event;
use fts_disk::Disk;
use fts_journal::{FRONT_BYTES, GATE_BYTES, Journal, JournalFault};
use fts_tables::limits::{JOURNAL_END, MAX_BODY_BYTES};

/// Ends a doubt of a journal: `Settles` has the journal's clauses in one word.
fn end_doubt<D: Disk>(journal: &mut Journal<D>) -> Result<(), JournalFault>
    ensures { Settles D.state D.faults journal.old journal.new result }
{
    journal.settle()
}

/// Appends a body to a journal without doubt: `Appends` has the journal's clauses in one word.
fn append<D: Disk>(journal: &mut Journal<D>, body: &[u8]) -> Result<(), JournalFault>
    requires sure { journal.old.in_doubt ≡ false }
    requires body { IsBody body.now }
    ensures { Appends D.state D.faults journal.old journal.new body.now result }
{
    journal.append(body)
}

/// Ends a doubt, where a body of so many bytes has room. Nothing is written where it has none.
pub fn make_ready<D: Disk>(journal: &mut Journal<D>, size: usize) -> Result<(), DeleteFault>
    requires { size ≤ MAX_BODY_BYTES }
    ensures tied { (rows : List DeleteRow) → IsTied D.state rows journal.old → IsTied D.state rows journal.new }
    ensures readied { (rows : List DeleteRow) → IsTied D.state rows journal.old
        → Readied D.state D.faults (deletes_of D.state rows journal.old) (deletes_of D.state rows journal.new) size result }
{
    let used = journal.used();
    if used + FRONT_BYTES + size as u64 + GATE_BYTES > JOURNAL_END {
        return Err(DeleteFault::JournalFull { used });
    }
    end_doubt(journal)?;
    Ok(())
}

/// Appends an event to a journal that is ready for it, and takes it into the rows.
pub fn add<D: Disk>(
    rows: &mut Vec<DeleteRow>,
    journal: &mut Journal<D>,
    event: Event,
    body: &[u8],
) -> Result<(), DeleteFault>
    requires tied { IsTied D.state rows.old.items journal.old }
    requires sure { journal.old.in_doubt ≡ false }
    requires legal { IsSome (rows_after rows.old.items event) }
    requires room { HasRoom (length rows.old.items) (vec_capacity rows.old) event }
    requires spelled { body.now ≡ body_of event }
    requires proper { IsProper event }
    requires fits { fits journal.old.used event ≡ true }
    ensures tied { IsTied D.state rows.new.items journal.new }
    ensures added { Added D.state D.faults (deletes_of D.state rows.old.items journal.old) (deletes_of D.state rows.new.items journal.new) event result }
{
    append(journal, body)?;
    take_event(rows, event);
    Ok(())
}
