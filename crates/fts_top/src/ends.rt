//! How a connection, a session and a run end. Each end has its exit status (`specs/Ends.antt`) and the line that it notes (`specs/Notes.antt`).
ghost use Rattle.std.specs.Prelude.{◌≡◌};
ghost use Rattle.fts_top.specs.Ends.{line_status, round_status, session_status, worker_status, status_of, end_when_served};
ghost use Rattle.fts_top.specs.Errands.{end_of_client, end_of_deletion, end_of_standby};
ghost use Rattle.fts_top.specs.Runs.{start_end};

use crate::errands::ErrandEnd;
use fts_deleting::DeleteEnd;
use fts_following::FollowRunEnd;
use fts_keep::KeepFault;
use fts_service::ServedEnd;
use fts_session::{LineEnd, SessionEnd};
use fts_shop::WorkerEnd;
use fts_submitting::ClientEnd;
use fts_workers::RoundEnd;

/// How a run ended.
#[derive(Clone, Copy, Debug, PartialEq, Eq)]
pub enum RunEnd {
    /// There was too little memory to begin.
    NoMemory,
    /// The words are no command.
    NoCommand,
    /// A read of the settings failed.
    SettingsUnread,
    /// The settings break the rule of this number.
    SettingsRule { rule: u32 },
    /// The disk failed at the opening.
    DiskFailed,
    /// The journal is damaged at this offset, in bytes.
    Damaged { offset: u64 },
    /// The Restart didn't fit the journal behind so many bytes.
    JournalFull { used: u64 },
    /// Requests were answered and rounds made, and the session ended so.
    Session { end: SessionEnd },
    /// The tables were shown, whole or, where a write failed, in part.
    Shown { whole: bool },
    /// A call of the store failed while the files of a load were made.
    SourcesUnmade,
    /// A load ended well, and a write of its line failed.
    LineUnwritten,
    /// The doors of a lane failed, at their opening or later.
    DoorsFailed,
    /// Connections were served, no doors failed, and this is the worst of the workers' ends.
    Served { end: WorkerEnd },
    /// A command ran that is none of the service's own, and ended so.
    Errand { end: ErrandEnd },
}

/// The exit status of a connection, where it didn't end well.
fn line_end_status(end: LineEnd) -> Option<u8>
    ensures { result ≡ line_status end }
{
    match end {
        LineEnd::Closed => None,
        LineEnd::SourceFailed => Some(5),
        LineEnd::SinkFailed => Some(6),
        LineEnd::EndsInside => Some(10),
        LineEnd::Refused { status: _ } => Some(12),
        LineEnd::Many => Some(14),
    }
}

/// The exit status of a session: the connection's where that didn't end well, and else the last round's.
fn session_end_status(end: SessionEnd) -> u8
    ensures { result ≡ session_status end }
{
    match line_end_status(end.line) {
        Some(status) => status,
        None => round_end_status(end.last),
    }
}

/// The exit status of a last round.
fn round_end_status(end: RoundEnd) -> u8
    ensures { result ≡ round_status end }
{
    match end {
        RoundEnd::Clear | RoundEnd::Busy { held: _ } => 0,
        RoundEnd::Memory => 1,
        RoundEnd::DiskFailed => 4,
        RoundEnd::JournalFull { used: _ } => 11,
    }
}

/// The exit status of workers whose worst end this is.
fn worker_end_status(end: WorkerEnd) -> u8
    ensures { result ≡ worker_status end }
{
    match end {
        WorkerEnd::Drained => 0,
        WorkerEnd::Stopped => 23,
        WorkerEnd::Memory => 1,
        WorkerEnd::DiskFailed => 4,
        WorkerEnd::JournalFull { used: _ } => 11,
    }
}

impl RunEnd {
    /// The exit status.
    pub fn status(self) -> u8
        ensures { result ≡ status_of self }
    {
        match self {
            RunEnd::NoMemory => 1,
            RunEnd::NoCommand => 2,
            RunEnd::SettingsRule { rule: _ } => 3,
            RunEnd::DiskFailed => 4,
            RunEnd::Damaged { offset: _ } => 7,
            RunEnd::SettingsUnread => 8,
            RunEnd::JournalFull { used: _ } => 11,
            RunEnd::Session { end } => session_end_status(end),
            RunEnd::Shown { whole: true } => 0,
            RunEnd::Shown { whole: false } => 6,
            RunEnd::SourcesUnmade => 13,
            RunEnd::LineUnwritten => 6,
            RunEnd::DoorsFailed => 9,
            RunEnd::Served { end } => worker_end_status(end),
            RunEnd::Errand { end } => end.status(),
        }
    }

    /// How a run ends whose keep could not be started, for this fault.
    pub fn of_start(fault: KeepFault) -> RunEnd
        ensures { result ≡ start_end fault }
    {
        match fault {
            KeepFault::DiskFailed => RunEnd::DiskFailed,
            KeepFault::Damaged { offset } => RunEnd::Damaged { offset },
            KeepFault::JournalFull { used } => RunEnd::JournalFull { used },
            KeepFault::Rule(_) | KeepFault::Memory => RunEnd::NoMemory,
        }
    }

    /// How a run ends that was a client's command, which ended so.
    pub fn of_client(end: ClientEnd) -> RunEnd
        ensures { result ≡ end_of_client end }
    {
        RunEnd::Errand {
            end: ErrandEnd::Client { end },
        }
    }

    /// How a run ends that was a deletion, which ended so.
    pub fn of_deletion(end: DeleteEnd) -> RunEnd
        ensures { result ≡ end_of_deletion end }
    {
        RunEnd::Errand {
            end: ErrandEnd::Deletion { end },
        }
    }

    /// How a run ends that was a standby's, which ended so.
    pub fn of_standby(end: FollowRunEnd) -> RunEnd
        ensures { result ≡ end_of_standby end }
    {
        RunEnd::Errand {
            end: ErrandEnd::Standby { end },
        }
    }

    /// How a run ends whose lanes and workers ended so together.
    pub fn of_served(end: ServedEnd) -> RunEnd
        ensures { result ≡ end_when_served end }
    {
        match end {
            ServedEnd::DoorsFailed => RunEnd::DoorsFailed,
            ServedEnd::Worked { end } => RunEnd::Served { end },
        }
    }
}
