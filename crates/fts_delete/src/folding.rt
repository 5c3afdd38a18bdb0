//! The fold of a journal's bodies: each is read as an event and taken into the rows, in order.
//! Keeps: the rows are those of the events so far, and the first fault of all bodies is one of those that are to come (`HasFolded`).
//! Where a body is no event the fault is at the first field that isn't spelled; where its event is illegal, at its gate.
ghost use Rattle.std.specs.Prelude.{◌≡◌, ◌≤◌, ◌<◌, ◌^◌, length, IfOk, IfErr};
ghost use Rattle.fts_delete.specs.Laws.{AreFormed};
ghost use Rattle.fts_delete.specs.Rows.{most_rows};
ghost use Rattle.fts_delete.specs.Folding.{Takes, LeavesJournal, Folds, FoldFault};

use crate::DeleteFault;
use crate::reading::{EventFault, read_event};
use crate::rows::DeleteRow;
use crate::taking::{is_legal, make_room, take_event};
use fts_disk::Disk;
use fts_journal::{FRONT_BYTES, HEADER_BYTES, Journal};
use std::alloc::Global;

// Takes the event that a body spells. Its gate is at this offset, in bytes.
fn take_body(
    alloc: Global,
    rows: &mut Vec<DeleteRow>,
    body: &[u8],
    gate: u64,
) -> Result<(), DeleteFault>
    requires formed { AreFormed rows.old.items }
    requires few { length rows.old.items ≤ most_rows }
    requires low { gate < 2 ^ 62 }
    ensures takes { Takes rows.old.items gate body.now rows.new.items result }
{
    let event = match read_event(alloc, body) {
        Ok(event) => event,
        Err(EventFault::BadEvent { at }) => {
            let offset = gate + FRONT_BYTES + at as u64;
            return Err(DeleteFault::Damaged { offset });
        }
        Err(EventFault::Memory) => return Err(DeleteFault::Memory),
    };
    if !is_legal(rows, &event) {
        return Err(DeleteFault::Damaged { offset: gate });
    }
    make_room(rows, &event)?;
    take_event(rows, event);
    Ok(())
}

/// The rows that a journal's bodies make.
pub fn fold<D: Disk>(alloc: Global, journal: &mut Journal<D>) -> Result<Vec<DeleteRow>, DeleteFault>
    ensures leaves { LeavesJournal D.state D.faults journal.old journal.new }
    ensures folded { IfOk result (λ rows. Folds D.state journal.old rows.items) }
    ensures fault { IfErr result (FoldFault D.state D.faults journal.old journal.new) }
{
    // Each body takes six bytes of a journal that has an end, so bodies can be counted, and their offsets too.
    journal.used();
    let mut rows = Vec::new(alloc);
    let mut body = Vec::new(alloc);
    let mut gate = HEADER_BYTES;
    for n in 0..journal.count() {
        journal.body(n, &mut body)?;
        take_body(alloc, &mut rows, &body, gate)?;
        gate += FRONT_BYTES + body.len() as u64;
    }
    Ok(rows)
}
