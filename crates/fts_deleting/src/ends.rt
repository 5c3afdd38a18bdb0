//! How `delete` ends. Each end has its exit status (`specs/Ends.antt`) and the line that it notes (`specs/Notes.antt`).
ghost use Rattle.std.specs.Prelude.{◌≡◌};
ghost use Rattle.fts_deleting.specs.Ends.{delete_status, end_of, told};

use fts_delete::DeleteFault;

/// How `delete` ended.
#[derive(Clone, Copy, Debug, PartialEq, Eq)]
pub enum DeleteEnd {
    /// Each row that waited was passed, and all rows were written.
    Told,
    /// There was too little memory.
    NoMemory,
    /// A call of the disk failed.
    DiskFailed,
    /// A read of the input failed.
    InputFailed,
    /// A write of the output failed.
    OutputFailed,
    /// From this offset on the disk's bytes are no journal of deletions.
    Damaged { offset: u64 },
    /// Behind this offset an event has no room in the journal.
    JournalFull { used: u64 },
    /// The document breaks the rule of this number; one that is too long breaks rule 8.
    DocumentRule { rule: u32 },
    /// With the files of the document there would be too many rows.
    RowsFull,
}

impl DeleteEnd {
    /// The exit status.
    pub fn status(self) -> u8
        ensures { result ≡ delete_status self }
    {
        match self {
            DeleteEnd::Told => 0,
            DeleteEnd::NoMemory => 1,
            DeleteEnd::DiskFailed => 4,
            DeleteEnd::InputFailed => 5,
            DeleteEnd::OutputFailed => 6,
            DeleteEnd::Damaged { offset: _ } => 7,
            DeleteEnd::JournalFull { used: _ } => 11,
            DeleteEnd::DocumentRule { rule: _ } => 20,
            DeleteEnd::RowsFull => 21,
        }
    }
}

/// How a run ends that its journal stopped.
pub fn end_of(fault: DeleteFault) -> DeleteEnd
    ensures { result ≡ end_of fault }
{
    match fault {
        DeleteFault::Damaged { offset } => DeleteEnd::Damaged { offset },
        DeleteFault::DiskFailed => DeleteEnd::DiskFailed,
        DeleteFault::JournalFull { used } => DeleteEnd::JournalFull { used },
        DeleteFault::RowsFull { rows: _ } => DeleteEnd::RowsFull,
        DeleteFault::Memory => DeleteEnd::NoMemory,
    }
}

/// How a run ends that came to its rows, where they are written whole or not.
pub fn told(whole: bool) -> DeleteEnd
    ensures { result ≡ told whole }
{
    if whole {
        DeleteEnd::Told
    } else {
        DeleteEnd::OutputFailed
    }
}
