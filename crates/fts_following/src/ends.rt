//! How a run of `follow` ends. Each end has its exit status (`specs/Ends.antt`) and the line that it notes (`specs/Notes.antt`).
ghost use Rattle.std.specs.Prelude.{◌≡◌};
ghost use Rattle.fts_following.specs.Ends.{follow_status};

/// How a run of `follow` ended. Offsets are in bytes from the start of the journal's file, and numbers count entries from 0.
#[derive(Clone, Copy, Debug, PartialEq, Eq)]
pub enum FollowRunEnd {
    /// The journal has all that the service has, and that was written.
    CaughtUp,
    /// There was too little memory.
    NoMemory,
    /// The disk failed.
    DiskFailed,
    /// A write of the output failed.
    OutputFailed,
    /// The disk's bytes are no journal, from this offset on.
    Damaged { offset: u64 },
    /// Behind this offset of the journal the next entry doesn't fit.
    JournalFull { used: u64 },
    /// The service refused, with this status.
    Refused { status: u16 },
    /// The link failed in the last try.
    LinkFailed,
    /// What came in the last try was no answer.
    NoAnswer,
    /// The service could not serve in the last try, with this status.
    CannotServe { status: u16 },
    /// The journal's last entry, of this number, isn't the service's.
    Diverged { number: u32 },
}

impl FollowRunEnd {
    /// The exit status.
    pub fn status(self) -> u8
        ensures { result ≡ follow_status self }
    {
        match self {
            FollowRunEnd::CaughtUp => 0,
            FollowRunEnd::NoMemory => 1,
            FollowRunEnd::DiskFailed => 4,
            FollowRunEnd::OutputFailed => 6,
            FollowRunEnd::Damaged { offset: _ } => 7,
            FollowRunEnd::JournalFull { used: _ } => 11,
            FollowRunEnd::Refused { status: _ } => 15,
            FollowRunEnd::LinkFailed => 16,
            FollowRunEnd::NoAnswer => 17,
            FollowRunEnd::CannotServe { status: _ } => 18,
            FollowRunEnd::Diverged { number: _ } => 22,
        }
    }
}
