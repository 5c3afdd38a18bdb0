//! Asking for files to be deleted: all of them in one event, or none.
//! Order: the room for rows, memory, the room in the journal and an old doubt; then the event.
ghost use Rattle.std.specs.Prelude.{◌≡◌, ◌≤◌, length, take, IfOk, IsTrue};
ghost use Rattle.fts_tables.specs.declared.places.Place.{Place};
ghost use Rattle.fts_delete.specs.Rows.{most_asked};
ghost use Rattle.fts_delete.specs.Spelling.{IsProper, body_of, has_places};
ghost use Rattle.fts_delete.specs.Folding.{HasRoom};
ghost use Rattle.fts_delete.specs.Views.{deletes_of, IsTied};
ghost use Rattle.fts_delete.specs.Asked.{Asked};

use crate::DeleteFault;
use crate::events::Event;
use crate::limits::MAX_DELETE_ROWS;
use crate::recording::{add, make_ready};
use crate::rows::DeleteRow;
use crate::spelling::write_event;
use crate::taking::make_room;
use fts_disk::Disk;
use fts_journal::Journal;
use fts_tables::{Items, Memory, Place};
use std::alloc::Global;

fn copy_places(alloc: Global, places: &[Place]) -> Result<Items<Place>, Memory>
    ensures { IfOk result (λ copy. copy ≡ places.now) }
{
    let mut copy = Items::new(alloc);
    for place in places {
        match copy.push(place.copy(alloc)?) {
            Ok(()) => {}
            Err(_) => return Err(Memory),
        }
    }
    Ok(copy)
}

/// The bytes of an event. One that asks has 1 to `MAX_ASKED` places.
pub fn spell(alloc: Global, event: &Event) -> Result<Vec<u8>, Memory>
    requires { IsTrue (has_places event.now) }
    ensures { IfOk result (λ body. (body.items ≡ body_of event.now) × IsProper event.now) }
{
    let mut body = Vec::new(alloc);
    write_event(event, &mut body)?;
    Ok(body)
}

/// Asks for the files at these places.
pub fn ask<D: Disk>(
    alloc: Global,
    rows: &mut Vec<DeleteRow>,
    journal: &mut Journal<D>,
    places: &[Place],
) -> Result<(), DeleteFault>
    requires tied { IsTied D.state rows.old.items journal.old }
    requires some { 1 ≤ length places.now }
    requires most { length places.now ≤ most_asked }
    ensures tied { IsTied D.state rows.new.items journal.new }
    ensures asked { Asked D.state D.faults (deletes_of D.state rows.old.items journal.old) (deletes_of D.state rows.new.items journal.new) places.now result }
{
    if rows.len() + places.len() > MAX_DELETE_ROWS {
        return Err(DeleteFault::RowsFull {
            rows: rows.len() as u32,
        });
    }
    let copy = copy_places(alloc, places)?;
    let event = Event::Ask { places: copy };
    let body = spell(alloc, &event)?;
    make_room(rows, &event)?;
    make_ready(journal, body.len())?;
    add(rows, journal, event, &body)
}
