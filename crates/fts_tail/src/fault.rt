//! Why a look at a journal's end isn't done.
//! `DiskFailed` comes only where the disk counted a failure in that call.
ghost use Rattle.std.specs.Prelude.{◌≡◌};
ghost use Rattle.fts_tail.specs.declared.fault.TailFault.TheVariants.{Memory, DiskFailed as Failed};

use fts_disk::DiskFailed;
use std::alloc::{AllocError, AllocFailed};

/// Why a look wasn't done. Offsets are in bytes from the start of the file.
#[derive(Clone, Copy, Debug, PartialEq, Eq)]
pub enum TailFault {
    /// A call of the disk failed.
    DiskFailed,
    /// The file is too short, or has another header.
    NotJournal,
    /// At this offset stands an open gate without a whole body behind it, or the file ends where a gate is due.
    Cut { offset: u64 },
    /// What was passed last no longer stands there: a body that came into doubt was taken back, or the file is another one.
    Changed,
    /// Memory ran out.
    Memory,
}

impl From<AllocError> for TailFault {
    ghost from_gives = { λ _ fault. fault ≡ Memory };

    fn from(_: AllocError) -> Self {
        TailFault::Memory
    }
}

impl<T: Drop> From<AllocFailed<T>> for TailFault {
    ghost from_gives = { λ _ fault. fault ≡ Memory };

    fn from(_: AllocFailed<T>) -> Self {
        TailFault::Memory
    }
}

impl From<DiskFailed> for TailFault {
    ghost from_gives = { λ _ fault. fault ≡ Failed };

    fn from(_: DiskFailed) -> Self {
        TailFault::DiskFailed
    }
}
