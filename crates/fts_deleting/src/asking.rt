//! What the input asks for: it is read whole, and where it isn't empty its document's places are asked for, all of them or none.
//! Order: the input is read to its end before its document is looked at, and the document before anything is asked (`Asks`, `AsksNot`).
ghost use Rattle.std.specs.Prelude.{◌≡◌, ◌≢◌, ◌≤◌, [], length, Ok, OnOk, IfOk, IfErr};
ghost use Rattle.fts_tables.specs.Counts.{Rose};
ghost use Rattle.fts_delete.specs.Documents.{deletes_in};
ghost use Rattle.fts_delete.specs.Rows.{most_asked};
ghost use Rattle.fts_deleting.specs.Ends.{delete_status, unread_end};
ghost use Rattle.fts_deleting.specs.Asking.{HasNoDocument, AsksDocument, AsksNoDocument, Asks, AsksNot};

use crate::DeleteEnd;
use crate::ends::end_of;
use fts_delete::laws::a_document_asks_for_some;
use fts_delete::{DeleteDocFault, Deletes, read_deletes};
use fts_disk::Disk;
use fts_tables::limits::MAX_CONTENT_BYTES;
use fts_tables::{Items, Place, Settings};
use fts_wire::{ReadAllFault, Source, read_all};
use std::alloc::Global;

/// The rule that a document breaks which is too long.
const TOO_LONG: u32 = 8;

/// How the run ends whose input isn't given.
fn unread_end(fault: ReadAllFault) -> DeleteEnd
    ensures { result ≡ unread_end fault }
{
    match fault {
        ReadAllFault::TooLong => DeleteEnd::DocumentRule { rule: TOO_LONG },
        ReadAllFault::SourceFailed => DeleteEnd::InputFailed,
        ReadAllFault::Memory => DeleteEnd::NoMemory,
    }
}

/// The places of a document that isn't empty, or how the run ends without them.
fn read_places(
    alloc: Global,
    settings: &Settings,
    document: &[u8],
) -> Result<Items<Place>, DeleteEnd>
    requires { document.now ≢ [] }
    ensures read { IfOk result (λ places. deletes_in document.now settings.now ≡ Ok places) }
    ensures some { IfOk result (λ places. 1 ≤ length places) }
    ensures most { IfOk result (λ places. length places ≤ most_asked) }
    ensures broken { IfErr result (HasNoDocument settings.now document.now) }
{
    a_document_asks_for_some();
    match read_deletes(alloc, document, settings) {
        Ok(places) => Ok(places),
        Err(DeleteDocFault::Memory) => Err(DeleteEnd::NoMemory),
        Err(fault) => Err(DeleteEnd::DocumentRule { rule: fault.rule() }),
    }
}

/// Asks for a document's places; an empty one has none.
fn ask_document<D: Disk>(
    alloc: Global,
    settings: &Settings,
    deletes: &mut Deletes<D>,
    document: &[u8],
) -> Result<(), DeleteEnd>
    ensures asked { OnOk result (AsksDocument D.state D.faults settings.now document.now deletes.old deletes.new) }
    ensures unasked { IfErr result (AsksNoDocument D.state D.faults settings.now document.now deletes.old deletes.new) }
    ensures cause { IfErr result (λ end. delete_status end ≡ 4 → Rose (D.faults deletes.old.disk) (D.faults deletes.new.disk)) }
{
    if document.is_empty() {
        return Ok(());
    }
    let places = read_places(alloc, settings, document)?;
    match deletes.ask(places.as_slice()) {
        Ok(()) => Ok(()),
        Err(fault) => Err(end_of(fault)),
    }
}

/// Reads the input whole, and asks for what it asks for.
pub fn ask_input<S: Source, D: Disk>(
    alloc: Global,
    settings: &Settings,
    deletes: &mut Deletes<D>,
    input: &mut S,
) -> Result<(), DeleteEnd>
    ensures asked { OnOk result (Asks D.state D.faults settings.now (S.left input.old) (S.left input.new) deletes.old deletes.new) }
    ensures unasked { IfErr result (AsksNot D.state D.faults settings.now (S.left input.old) (S.left input.new) deletes.old deletes.new) }
    ensures input { IfErr result (λ end. delete_status end ≡ 5 → Rose (S.faults input.old) (S.faults input.new)) }
    ensures disk { IfErr result (λ end. delete_status end ≡ 4 → Rose (D.faults deletes.old.disk) (D.faults deletes.new.disk)) }
    ensures output { IfErr result (λ end. delete_status end ≢ 6) }
{
    match read_all(alloc, input, MAX_CONTENT_BYTES) {
        Ok(document) => ask_document(alloc, settings, deletes, document.as_slice()),
        Err(fault) => Err(unread_end(fault)),
    }
}
