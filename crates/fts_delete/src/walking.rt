//! A pass over the rows: each row that waits is made ready for, visited, and its event recorded before the next one is looked at.
//! Order in a row: memory, room in the journal and an old doubt; then the visit; then its event. So no file is touched whose event has no room,
//! and no event is recorded that no visit gave.
ghost use Rattle.std.specs.Prelude.{◌≡◌, ◌<◌, length, slice_get};
ghost use Rattle.fts_delete.specs.Views.{deletes_of, IsTied};
ghost use Rattle.fts_delete.specs.Walking.{PassesRow};
ghost use Rattle.fts_delete.specs.Passed.{Passed};

use crate::DeleteFault;
use crate::asking::spell;
use crate::events::Event;
use crate::looking::visit;
use crate::recording::{add, make_ready};
use crate::rows::DeleteRow;
use fts_disk::Disk;
use fts_journal::Journal;
use fts_store::Store;
use fts_tables::PlaceRef;
use std::alloc::Global;

/// Passes the row at a place.
fn pass_row<D: Disk, E: Store>(
    alloc: Global,
    rows: &mut Vec<DeleteRow>,
    journal: &mut Journal<D>,
    store: &mut E,
    at: usize,
) -> Result<(), DeleteFault>
    requires here { at < length rows.old.items }
    requires tied { IsTied D.state rows.old.items journal.old }
    ensures tied { IsTied D.state rows.new.items journal.new }
    ensures passes { PassesRow D.state D.faults E.state E.faults E.calls (slice_get rows.old.items at)
        (deletes_of D.state rows.old.items journal.old) (deletes_of D.state rows.new.items journal.new) store.old store.new result }
{
    let row = &rows[at];
    if !row.state.is_waiting() {
        return Ok(());
    }
    let id = row.id;
    let gone = spell(alloc, &Event::Gone { id })?;
    let missed = spell(alloc, &Event::Missed { id })?;
    make_ready(journal, gone.len())?;
    let came = visit(store, PlaceRef::of(&row.place));
    if came.saw_none() {
        add(rows, journal, Event::Gone { id }, &gone)
    } else {
        add(rows, journal, Event::Missed { id }, &missed)
    }
}

/// Passes all rows.
pub fn walk<D: Disk, E: Store>(
    alloc: Global,
    rows: &mut Vec<DeleteRow>,
    journal: &mut Journal<D>,
    store: &mut E,
) -> Result<(), DeleteFault>
    requires tied { IsTied D.state rows.old.items journal.old }
    ensures tied { IsTied D.state rows.new.items journal.new }
    ensures passed { Passed D.state D.faults E.state E.faults E.calls
        (deletes_of D.state rows.old.items journal.old) (deletes_of D.state rows.new.items journal.new) store.old store.new result }
{
    let count = rows.len();
    for at in 0..count {
        pass_row(alloc, rows, journal, store, at)?;
    }
    Ok(())
}
