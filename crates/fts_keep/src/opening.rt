//! How a journal is opened: one is made on an empty disk, and any other content is loaded.
ghost use Rattle.std.specs.Prelude.{IfOk, IfErr, MatchResult};
ghost use Rattle.fts_keep.specs.Opening.{OpensJournal, OpensNot, Makes};

use crate::KeepFault;
use fts_disk::{Disk, DiskFailed};
use fts_journal::Journal;
use std::alloc::Global;

/// The journal of a disk. Gives the disk back where it isn't opened.
pub fn open<D: Disk>(alloc: Global, disk: D) -> Result<Journal<D>, (KeepFault, D)>
    ensures ok { IfOk result (OpensJournal D.state D.faults disk) }
    ensures err { IfErr result (λ stopped. OpensNot D.state D.faults disk stopped.1 stopped.0) }
    // While a new journal is made, a crash leaves what it might have left before, or that with torn first bytes.
    ensures made { MatchResult result (λ journal. Makes (D.state disk) (D.state journal.disk)) (λ stopped. Makes (D.state disk) (D.state stopped.1)) }
{
    let mut disk = disk;
    match disk.len() {
        Ok(0) => match Journal::create(alloc, disk) {
            Ok(journal) => Ok(journal),
            Err((fault, disk)) => Err((fault.into(), disk)),
        },
        Ok(_) => match Journal::load(alloc, disk) {
            Ok(journal) => Ok(journal),
            Err((fault, disk)) => Err((fault.into(), disk)),
        },
        Err(DiskFailed) => Err((KeepFault::DiskFailed, disk)),
    }
}
