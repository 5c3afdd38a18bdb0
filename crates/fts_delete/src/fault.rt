//! What a call on deletions answers where it isn't done.
//! `DiskFailed` comes only where the disk counted a failure in that call, and the others but `Memory` exactly where their rules say so.
ghost use Rattle.std.specs.Prelude.{◌≡◌};
ghost use Rattle.fts_delete.specs.Faults.{fault_of};
ghost use Rattle.fts_delete.specs.declared.fault.DeleteFault.TheVariants.{Memory as OutOfMemory};

use fts_journal::JournalFault;
use fts_tables::Memory;
use std::alloc::AllocError;

/// Why a call wasn't done. Offsets are in bytes from the start of the journal's file.
#[derive(Clone, Copy, Debug, PartialEq, Eq)]
pub enum DeleteFault {
    /// From this offset on the bytes are none of a journal of legal events. Of opening alone.
    Damaged { offset: u64 },
    /// A call of the disk failed.
    DiskFailed,
    /// Behind this offset the event and the gate behind it don't fit the journal.
    JournalFull { used: u64 },
    /// There are so many rows, and with those that are asked for there would be too many. Of asking alone.
    RowsFull { rows: u32 },
    /// Memory ran out.
    Memory,
}

impl From<Memory> for DeleteFault {
    ghost from_gives = { λ _ fault. fault ≡ OutOfMemory };

    fn from(_: Memory) -> Self {
        DeleteFault::Memory
    }
}

impl From<AllocError> for DeleteFault {
    ghost from_gives = { λ _ fault. fault ≡ OutOfMemory };

    fn from(_: AllocError) -> Self {
        DeleteFault::Memory
    }
}

impl From<JournalFault> for DeleteFault {
    ghost from_gives = { λ cause fault. fault ≡ fault_of cause };

    fn from(cause: JournalFault) -> Self {
        match cause {
            JournalFault::DiskFailed => DeleteFault::DiskFailed,
            JournalFault::Full { used } => DeleteFault::JournalFull { used },
            JournalFault::NotJournal => DeleteFault::Damaged { offset: 0 },
            JournalFault::Cut { offset } => DeleteFault::Damaged { offset },
            JournalFault::Memory => DeleteFault::Memory,
        }
    }
}
