//! The fold of a journal's bodies: each is read as an entry and done by the desk, in order.
//! Keeps: the tables are those of the entries so far, and the first fault of all bodies is one of those that are to come (`HasFolded`).
//! Where a body is no entry the fault is at the first field that isn't spelled; where its entry is refused, at its gate.
ghost use Rattle.std.specs.Prelude.{◌≡◌, ◌≤◌, ◌+◌, ◌<◌, ◌^◌, length, IfOk, IfErr, OnOk};
ghost use Rattle.fts_keep.specs.Folding.{Takes, LeavesJournal, Folds, FoldFault};

use crate::KeepFault;
use crate::list::EntryList;
use fts_desk::{Desk, DeskFault};
use fts_disk::Disk;
use fts_journal::{FRONT_BYTES, HEADER_BYTES, Journal};
use fts_record::{ReadFault, read_entry};
use std::alloc::Global;

// Does the entry that a body spells, and lists it. Its gate is at this offset, in bytes.
fn take_entry(
    alloc: Global,
    desk: &mut Desk,
    list: &mut EntryList,
    body: &[u8],
    gate: u64,
) -> Result<(), KeepFault>
    requires few { desk.old.commands < 4294967295 }
    requires low { gate < 2 ^ 62 }
    ensures takes { Takes desk.old.tables list.old.entries gate body.now desk.new.tables list.new.entries result }
    ensures commands { OnOk result (desk.new.commands ≡ desk.old.commands + 1) }
{
    let entry = match read_entry(alloc, body) {
        Ok(entry) => entry,
        Err(ReadFault::BadEntry { at }) => {
            let offset = gate + FRONT_BYTES + at as u64;
            return Err(KeepFault::Damaged { offset });
        }
        Err(ReadFault::Memory) => return Err(KeepFault::Memory),
    };
    match desk.prepare(&entry.command) {
        Ok(plan) => {
            desk.commit(plan);
            list.add(&entry);
            Ok(())
        }
        Err(DeskFault::Rule(_)) => Err(KeepFault::Damaged { offset: gate }),
        Err(DeskFault::Memory) => Err(KeepFault::Memory),
    }
}

/// The desk that a journal's bodies make, and the list that they spell.
pub fn fold<D: Disk>(
    alloc: Global,
    journal: &mut Journal<D>,
) -> Result<(Desk, EntryList), KeepFault>
    ensures leaves { LeavesJournal D.state D.faults journal.old journal.new }
    ensures folded { IfOk result (λ made. Folds D.state journal.old made.0.tables made.1.entries made.0.commands) }
    ensures fault { IfErr result (FoldFault D.state D.faults journal.old journal.new) }
{
    // Each body takes six bytes of a journal that has an end, so bodies can be counted, and their offsets too.
    journal.used();
    let mut desk = Desk::empty(alloc);
    let mut list = EntryList::new();
    let mut body = Vec::new(alloc);
    let mut gate = HEADER_BYTES;
    for n in 0..journal.count() {
        journal.body(n, &mut body)?;
        take_entry(alloc, &mut desk, &mut list, &body, gate)?;
        gate += FRONT_BYTES + body.len() as u64;
    }
    Ok((desk, list))
}
