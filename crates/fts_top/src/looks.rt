//! A look at the journal: the settings are read, its entries are folded without a Restart, and the text of the tables is written.
//! Nothing is written to the disk (`specs/Looks.antt`). An empty disk is damaged at offset 0.
ghost use Rattle.std.specs.Prelude.{◌≡◌, ◌≢◌, ◌⊎◌, ℕ, List, Option};
ghost use Rattle.fts_tables.specs.Counts.{Rose};
ghost use Rattle.fts_top.specs.Ends.{status_of};
ghost use Rattle.fts_top.specs.Looks.{HasSettings, IsLook};

use crate::done::{Done, make_tally, stop};
use crate::ends::RunEnd;
use crate::reading::load_settings;
use fts_disk::Disk;
use fts_keep::Keep;
use fts_show::send_tables;
use fts_wire::{Sink, SinkFailed, Source};
use std::alloc::Global;

/// Reads the settings, and shows the tables of the disk's journal.
pub fn show<F: Source, K: Sink, D: Disk>(
    alloc: Global,
    settings: &mut F,
    output: &mut K,
    disk: D,
) -> Done<D>
    ensures words { status_of result.end ≢ 2 }
    ensures look { IsLook D.Disk result.end result.tally (F.left settings.old) disk result.disk (K.held output.old) (K.held output.new) }
    ensures settings { status_of result.end ≡ 8 → Rose (F.faults settings.old) (F.faults settings.new) }
    ensures others { status_of result.end ≢ 5 }
    ensures output { status_of result.end ≡ 6 → Rose (K.faults output.old) (K.faults output.new) }
    ensures disk { status_of result.end ≡ 4 → Rose (D.faults disk) (D.faults result.disk) }
{
    match load_settings(alloc, settings) {
        Ok(_settings) => show_journal(alloc, output, disk),
        Err(end) => stop(end, disk),
    }
}

/// Shows the tables of the disk's journal.
fn show_journal<K: Sink, D: Disk>(alloc: Global, output: &mut K, disk: D) -> Done<D>
    ensures words { status_of result.end ≢ 2 }
    ensures look { (text : Option (List ℕ)) → HasSettings text → IsLook D.Disk result.end result.tally text disk result.disk (K.held output.old) (K.held output.new) }
    ensures others { (status_of result.end ≢ 8) × (status_of result.end ≢ 5) }
    ensures output { status_of result.end ≡ 6 → Rose (K.faults output.old) (K.faults output.new) }
    ensures disk { status_of result.end ≡ 4 → Rose (D.faults disk) (D.faults result.disk) }
{
    match Keep::view(alloc, disk) {
        Ok((desk, disk)) => {
            let whole = match send_tables(output, &desk) {
                Ok(()) => true,
                Err(SinkFailed) => false,
            };
            Done {
                end: RunEnd::Shown { whole },
                tally: make_tally(&desk, 0),
                disk,
            }
        }
        Err((fault, disk)) => stop(RunEnd::of_start(fault), disk),
    }
}
