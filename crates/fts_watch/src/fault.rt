//! What a call of a monitor answers where it isn't done.
ghost use Rattle.std.specs.Prelude.{◌≡◌};
ghost use Rattle.fts_watch.specs.Faults.{fault_of};

use fts_tail::TailFault;

/// Why a look wasn't done. What was folded before it stays on view. Offsets are in bytes from the start of the journal's file.
#[derive(Clone, Copy, Debug, PartialEq, Eq)]
pub enum MonitorFault {
    /// A call of the disk failed.
    DiskFailed,
    /// From this offset on the bytes are none of a journal of legal entries.
    Damaged { offset: u64 },
    /// The entry that was folded last no longer stands there: it came into doubt and was taken back, or the file is another one. The journal has to be
    /// opened anew.
    Changed,
    /// Memory ran out.
    Memory,
}

impl From<TailFault> for MonitorFault {
    ghost from_gives = { λ cause fault. fault ≡ fault_of cause };

    fn from(cause: TailFault) -> Self {
        match cause {
            TailFault::DiskFailed => MonitorFault::DiskFailed,
            TailFault::NotJournal => MonitorFault::Damaged { offset: 0 },
            TailFault::Cut { offset } => MonitorFault::Damaged { offset },
            TailFault::Changed => MonitorFault::Changed,
            TailFault::Memory => MonitorFault::Memory,
        }
    }
}
