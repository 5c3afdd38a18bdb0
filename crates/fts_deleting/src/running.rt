//! A run of `delete`, over a disk, a store, an input and an output.
//! Order: the journal is opened; the input is read whole and asked for; the rows that wait are passed once; then all rows are written, and the
//! disk is given back.
ghost use Rattle.std.specs.Prelude.{◌≡◌, ◌≢◌};
ghost use Rattle.fts_tables.specs.Counts.{Rose};
ghost use Rattle.fts_deleting.specs.Ends.{delete_status};
ghost use Rattle.fts_deleting.specs.Runs.{around, PassesOnce, RunsOver, IsDeleteRun};

use crate::DeleteEnd;
use crate::asking::ask_input;
use crate::ends::{end_of, told};
use crate::telling::tell_rows;
use fts_delete::laws::a_pass_leaves_files;
use fts_delete::{DeleteFault, Deletes};
use fts_disk::Disk;
use fts_store::Store;
use fts_tables::Settings;
use fts_wire::{Sink, SinkFailed, Source};
use std::alloc::Global;

/// Asks for the files of the input's document, removes those that wait in one pass over the store, and writes a line for each row. An empty input
/// asks for nothing. Gives how it ended, and the disk, which holds the journal of deletions and may be empty at first.
pub fn run_delete<S: Source, K: Sink, D: Disk, E: Store>(
    alloc: Global,
    settings: &Settings,
    disk: D,
    store: &mut E,
    input: &mut S,
    output: &mut K,
) -> (DeleteEnd, D)
    ensures run { IsDeleteRun D.Disk E.Store settings.now
        (around disk store.old (S.left input.old) (K.held output.old)) (around result.1 store.new (S.left input.new) (K.held output.new)) result.0 }
    ensures input { delete_status result.0 ≡ 5 → Rose (S.faults input.old) (S.faults input.new) }
    ensures output { delete_status result.0 ≡ 6 → Rose (K.faults output.old) (K.faults output.new) }
    ensures disk { delete_status result.0 ≡ 4 → Rose (D.faults disk) (D.faults result.1) }
{
    let mut deletes = match Deletes::open(alloc, disk) {
        Ok(deletes) => deletes,
        Err((fault, disk)) => return (end_of(fault), disk),
    };
    let end = run_over(alloc, settings, &mut deletes, store, input, output);
    (end, deletes.close())
}

/// The same over a journal that is open.
fn run_over<S: Source, K: Sink, D: Disk, E: Store>(
    alloc: Global,
    settings: &Settings,
    deletes: &mut Deletes<D>,
    store: &mut E,
    input: &mut S,
    output: &mut K,
) -> DeleteEnd
    ensures run { (disk left : D) → RunsOver D.Disk E.Store settings.now deletes.old deletes.new
        (around disk store.old (S.left input.old) (K.held output.old)) (around left store.new (S.left input.new) (K.held output.new)) result }
    ensures input { delete_status result ≡ 5 → Rose (S.faults input.old) (S.faults input.new) }
    ensures output { delete_status result ≡ 6 → Rose (K.faults output.old) (K.faults output.new) }
    ensures disk { delete_status result ≡ 4 → Rose (D.faults deletes.old.disk) (D.faults deletes.new.disk) }
{
    match ask_input(alloc, settings, deletes, input) {
        Ok(()) => {}
        Err(end) => return end,
    }
    match pass_once(deletes, store) {
        Ok(()) => {}
        Err(fault) => return end_of(fault),
    }
    let whole = match tell_rows(output, deletes.rows()) {
        Ok(()) => true,
        Err(SinkFailed) => false,
    };
    told(whole)
}

/// Passes the rows that wait.
fn pass_once<D: Disk, E: Store>(deletes: &mut Deletes<D>, store: &mut E) -> Result<(), DeleteFault>
    ensures { PassesOnce D.Disk E.Store deletes.old deletes.new store.old store.new result }
{
    // The rows are the fold of the list, and files that are told are left so.
    deletes.standing();
    a_pass_leaves_files::<E>();
    deletes.pass(store)
}
