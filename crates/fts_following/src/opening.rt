//! How the journal of a stand is opened by whoever follows: one is made on an empty disk, and any other content is loaded (`specs/Opening.antt`).
ghost use Rattle.std.specs.Prelude.{◌≡◌, IfOk, IfErr, MatchResult};
ghost use Rattle.fts_following.specs.Opening.{end_by, OpensJournal, OpensNot, Makes};

use crate::ends::FollowRunEnd;
use fts_disk::{Disk, DiskFailed};
use fts_journal::{Journal, JournalFault};
use std::alloc::Global;

/// The journal of a disk. Gives the disk back where it isn't opened.
pub fn open<D: Disk>(alloc: Global, disk: D) -> Result<Journal<D>, (FollowRunEnd, D)>
    ensures ok { IfOk result (OpensJournal D.state D.faults disk) }
    ensures err { IfErr result (λ stopped. OpensNot D.state D.faults disk stopped.1 stopped.0) }
    // While a new journal is made, a crash leaves what it might have left before, or that with torn first bytes.
    ensures made { MatchResult result (λ journal. Makes (D.state disk) (D.state journal.disk)) (λ stopped. Makes (D.state disk) (D.state stopped.1)) }
{
    let mut disk = disk;
    match disk.len() {
        Ok(0) => match Journal::create(alloc, disk) {
            Ok(journal) => Ok(journal),
            Err((fault, disk)) => Err((end_by(fault), disk)),
        },
        Ok(_) => match Journal::load(alloc, disk) {
            Ok(journal) => Ok(journal),
            Err((fault, disk)) => Err((end_by(fault), disk)),
        },
        Err(DiskFailed) => Err((FollowRunEnd::DiskFailed, disk)),
    }
}

/// The end by a fault of a journal that was to be opened.
fn end_by(fault: JournalFault) -> FollowRunEnd
    ensures { result ≡ end_by fault }
{
    match fault {
        JournalFault::DiskFailed => FollowRunEnd::DiskFailed,
        JournalFault::Full { used } => FollowRunEnd::JournalFull { used },
        JournalFault::NotJournal => FollowRunEnd::Damaged { offset: 0 },
        JournalFault::Cut { offset } => FollowRunEnd::Damaged { offset },
        JournalFault::Memory => FollowRunEnd::NoMemory,
    }
}
