//! What is told to a log, and who is told. An event is lent for as long as it is told, and none of its numbers is looked up.
//! The word of a call or of a fault is decided here alone (`specs/EventLines.antt`).
//! Whoever copies, listens, ends a line or asks the system tells; a log never fails, and whoever tells goes on as without it.
ghost use Rattle.std.specs.Prelude.{◌≡◌};
ghost use Rattle.fts_log.specs.EventLines.{call_word, fault_word, kind_text};

use fts_files::Kind;
use fts_tables::{Outcome, PlaceRef};

/// A call of the system on files and folders, as `fts_files::FileSystem` has them.
#[derive(Clone, Copy, Debug, PartialEq, Eq)]
pub enum FileCall {
    /// What is there is opened.
    Open,
    /// A file is made and opened.
    Make,
    Look,
    LookAtName,
    LookAtOpen,
    Read,
    Write,
    SyncData,
    SyncAll,
    Lock,
    /// A file's pages are dropped.
    Forget,
    Link,
    Rename,
    Unlink,
    MakeFolder,
    SetMode,
    /// The names in a folder are read.
    Names,
}

/// Why a connection was ended.
#[derive(Clone, Copy, Debug, PartialEq, Eq)]
pub enum LineFault {
    /// A request wasn't whole in time, or a read waited too long.
    SlowToSend,
    /// A response wasn't taken in time.
    SlowToTake,
    /// A read or a write of it failed otherwise.
    StreamFailed,
}

/// An attempt to copy a file of a job, how long it took in milliseconds, and how it ended.
#[derive(Clone, Copy)]
pub struct EndedCopy<'a> {
    pub job: u128,
    pub file: u32,
    pub attempt: u32,
    pub source: PlaceRef<'a>,
    pub dest: PlaceRef<'a>,
    pub millis: u64,
    pub outcome: Outcome,
}

/// What is told.
#[derive(Clone, Copy)]
pub enum Event<'a> {
    /// The service listens at an address with its port, or at a socket's path.
    Listens {
        at: &'a str,
    },
    /// An attempt to copy a file has ended.
    CopyEnded(EndedCopy<'a>),
    /// A call of the system was refused, with the system's own number; 0 where it gave none.
    CallFailed {
        call: FileCall,
        path: &'a str,
        errno: u32,
    },
    /// What has this path is no plain file, and stands at an end of a copy that failed.
    FoundOther {
        path: &'a str,
        kind: Kind,
    },
    /// A connection was ended for its fault.
    LineEnded {
        cause: LineFault,
    },
    /// The run ends with this status. So many lines of its log could not be written.
    Ends {
        status: u8,
        lost: u64,
    },
}

/// Who is told, by any thread. It gives no answer: what can't be told is lost, and whoever tells goes on.
pub trait Log {
    /// Tells an event.
    fn tell(&self, event: &Event<'_>);
}

/// A log that tells nobody.
#[derive(Clone, Copy)]
pub struct NoLog;

impl Log for NoLog {
    fn tell(&self, _: &Event<'_>) {}
}

impl<L: Log> Log for &L {
    fn tell(&self, event: &Event<'_>) {
        (*self).tell(event)
    }
}

impl FileCall {
    /// The system's own name of it (POSIX).
    pub fn word(self) -> &'static str
        ensures { result.now ≡ call_word self }
    {
        match self {
            FileCall::Open => "open",
            FileCall::Make => "creat",
            FileCall::Look => "stat",
            FileCall::LookAtName => "lstat",
            FileCall::LookAtOpen => "fstat",
            FileCall::Read => "pread",
            FileCall::Write => "pwrite",
            FileCall::SyncData => "fdatasync",
            FileCall::SyncAll => "fsync",
            FileCall::Lock => "flock",
            FileCall::Forget => "posix_fadvise",
            FileCall::Link => "link",
            FileCall::Rename => "rename",
            FileCall::Unlink => "unlink",
            FileCall::MakeFolder => "mkdir",
            FileCall::SetMode => "fchmod",
            FileCall::Names => "readdir",
        }
    }
}

impl LineFault {
    /// It in a word.
    pub fn word(self) -> &'static str
        ensures { result.now ≡ fault_word self }
    {
        match self {
            LineFault::SlowToSend => "slow_to_send",
            LineFault::SlowToTake => "slow_to_take",
            LineFault::StreamFailed => "stream_failed",
        }
    }
}

/// What has a name, in words: those of the system where a folder was to be read as a file (EISDIR).
pub(crate) fn kind_text(kind: Kind) -> &'static str
    ensures { result.now ≡ kind_text kind }
{
    match kind {
        Kind::File => "a plain file",
        Kind::Folder => "Is a directory",
        Kind::Other => "not a plain file",
    }
}
