//! How following ends.
//! `specs/Following.antt` says of each end when it comes; `specs/Ends.antt` which end a fault of the journal is.
ghost use Rattle.std.specs.Prelude.{◌≡◌};
ghost use Rattle.fts_standby.specs.Ends.{end_by};

use fts_journal::JournalFault;

/// Where following came to. Numbers count entries from 0.
#[derive(Clone, Copy, Debug, PartialEq, Eq)]
pub enum FollowEnd {
    /// The service has no entry behind the last one here; there are so many here.
    CaughtUp { count: u32 },
    /// The last entry here, of this number, isn't the service's.
    Diverged { number: u32 },
    /// The service refused, with this status.
    Refused { status: u16 },
    /// The service could not serve in the last try, with this status.
    CannotServe { status: u16 },
    /// What came in the last try was no answer.
    NoAnswer,
    /// The link failed in the last try.
    LinkFailed,
    /// The disk failed.
    DiskFailed,
    /// Behind this offset of the journal, in bytes, the next entry doesn't fit.
    JournalFull { used: u64 },
    /// Memory ran out.
    Memory,
}

/// The end by a fault of an open journal, which is never cut nor anything but a journal.
pub fn end_by(fault: JournalFault) -> FollowEnd
    ensures { result ≡ end_by fault }
{
    match fault {
        JournalFault::DiskFailed | JournalFault::NotJournal | JournalFault::Cut { offset: _ } => {
            FollowEnd::DiskFailed
        }
        JournalFault::Full { used } => FollowEnd::JournalFull { used },
        JournalFault::Memory => FollowEnd::Memory,
    }
}
