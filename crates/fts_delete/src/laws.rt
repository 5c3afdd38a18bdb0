//! Laws of the lists of deletions and of their bytes, and of what a pass leaves of a store.
//! Each law is a function that does nothing: its clause speaks of every list. A crate above cites a law by calling it.
ghost use Rattle.std.specs.Prelude.{List, ℕ, ◌≤◌, length};
ghost use Rattle.fts_tables.specs.declared.limits.TheConstants.{MAX_BODY_BYTES};
ghost use Rattle.fts_delete.specs.declared.events.Event.{Event};
ghost use Rattle.fts_delete.specs.Documents.{AskedAreSome};
ghost use Rattle.fts_delete.specs.Journals.{DamageIsOne};
ghost use Rattle.fts_delete.specs.Laws.{BeginningIsLegal, RowsMoveOn, LegalRowsAreFormed, PassIsLegal, PassNamesEachOnce};
ghost use Rattle.fts_delete.specs.Passed.{PassLeavesFiles};
ghost use Rattle.fts_delete.specs.Spelling.{SpelledIsRead, IsProper, body_of};

use fts_journal::{
    content_is_cut_at_one_offset, content_stands_for_one, content_that_stands_is_not_cut,
    no_journal_stands_or_is_cut,
};
use fts_store::Store;

/// A beginning of a legal list is legal, so what a crash leaves of one is one.
pub fn a_beginning_is_legal()
    ensures { BeginningIsLegal }
{}

/// A row keeps its id and place, and once it waits no more it stays as it is.
pub fn rows_move_on()
    ensures { RowsMoveOn }
{}

/// Rows are numbered from 1 on, and a row fails exactly by its third miss.
pub fn legal_rows_are_formed()
    ensures { LegalRowsAreFormed }
{}

/// The events of a pass are legal behind any legal list.
pub fn a_pass_is_legal()
    ensures { PassIsLegal }
{}

/// A whole pass adds exactly one event for each row that waited.
pub fn a_pass_names_each_once()
    ensures { PassNamesEachOnce }
{}

/// Over a store that tells its files a pass leaves no file where it saw none, makes none, and changes none at another place.
pub fn a_pass_leaves_files<E: Store>()
    ensures { PassLeavesFiles E.state E.faults }
{}

/// A document that is accepted asks for 1 to `MAX_ASKED` places.
pub fn a_document_asks_for_some()
    ensures { AskedAreSome }
{}

/// An event is read back from its bytes, and bytes that are read as an event are its one spelling.
pub fn spelled_is_read()
    ensures { SpelledIsRead }
{}

/// The bytes of a proper event are one body of the journal.
pub fn spellings_are_bodies()
    ensures some { (event : Event) → IsProper event → 1 ≤ length (body_of event) }
    ensures short { (event : Event) → IsProper event → length (body_of event) ≤ MAX_BODY_BYTES }
{}

/// No content is damaged at two offsets, or whole for two lists, or both damaged and whole: so opening answers exactly what the bytes are.
pub fn damage_is_one()
    ensures { (content : List ℕ) → DamageIsOne content }
{
    content_stands_for_one();
    content_that_stands_is_not_cut();
    content_is_cut_at_one_offset();
    no_journal_stands_or_is_cut();
}
