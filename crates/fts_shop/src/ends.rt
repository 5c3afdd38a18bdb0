//! How a turn of a worker ends, and how a worker does.
//! Each end is a function of the keep's answer and of the lanes that were left: `end_by_report`, `end_by_claim` and `worker_end_of` of `specs`.
ghost use Rattle.std.specs.Prelude.{◌≡◌, Err};
ghost use Rattle.fts_workers.specs.ClaimSteps.{AnswersClaim};
ghost use Rattle.fts_shop.specs.Shops.{AnswersReport, IsEndState};
ghost use Rattle.fts_shop.specs.Turns.{end_by_claim, end_by_report, end_by_state, is_over};

use fts_keep::KeepFault;
use fts_tables::{Answer, FileState};

/// How a turn of a worker ended. What was held and couldn't be reported is held still; `lanes` is how many lanes were left when the fault came.
#[derive(Clone, Copy, Debug, PartialEq, Eq)]
pub enum Turn {
    /// No row was eligible, and a lane was left.
    Idle,
    /// No row was eligible, and no lane was left.
    Stopping,
    /// The file is finished.
    Done { file: u32 },
    /// The file has failed.
    Failed { file: u32 },
    /// The file waits again.
    Retried { file: u32 },
    /// The file is cancelled.
    Cancelled { file: u32 },
    /// The file isn't ACTIVE with the reported attempt.
    Stale { file: u32 },
    /// A call of the disk failed.
    DiskFailed { lanes: u32 },
    /// An entry and the gate behind it didn't fit the journal behind this offset, in bytes.
    JournalFull { used: u64, lanes: u32 },
    /// Memory ran out.
    Memory { lanes: u32 },
}

/// How a worker ended. In each case but `Stopped` no lane was left.
#[derive(Clone, Copy, Debug, PartialEq, Eq)]
pub enum WorkerEnd {
    /// No row was eligible.
    Drained,
    /// The gate was closed behind a turn, and nothing was held. Rows may still wait.
    Stopped,
    /// A call of the disk failed.
    DiskFailed,
    /// An entry and the gate behind it didn't fit the journal behind this offset, in bytes.
    JournalFull { used: u64 },
    /// Memory ran out.
    Memory,
}

// The end by the state in which a report left its file.
fn end_of_state(file: u32, state: FileState) -> Turn
    requires { IsEndState state }
    ensures { result ≡ end_by_state file state }
{
    match state {
        FileState::Finished => Turn::Done { file },
        FileState::Failed => Turn::Failed { file },
        FileState::Submitted => Turn::Retried { file },
        FileState::Canceled => Turn::Cancelled { file },
        FileState::Active | FileState::NotUsed => unreachable!(),
    }
}

/// The end by the answer to the report of a file.
pub fn end_of_report(file: u32, answer: Result<Answer, KeepFault>, lanes: u32) -> Turn
    requires { AnswersReport file answer }
    ensures { result ≡ end_by_report file lanes answer }
{
    match answer {
        Ok(Answer::Reported { file: _, state }) => end_of_state(file, state),
        Ok(
            Answer::Restarted { released: _ }
            | Answer::Submitted { job: _, id: _ }
            | Answer::Cancelled { job: _ }
            | Answer::PrioritySet { job: _ }
            | Answer::Claimed {
                file: _,
                attempt: _,
            }
            | Answer::Banned { cancelled: _ }
            | Answer::Unbanned
            | Answer::Expired { cancelled: _ },
        ) => unreachable!(),
        Err(KeepFault::Rule(_)) => Turn::Stale { file },
        Err(KeepFault::DiskFailed) => Turn::DiskFailed { lanes },
        Err(KeepFault::JournalFull { used }) => Turn::JournalFull { used, lanes },
        Err(KeepFault::Memory) => Turn::Memory { lanes },
        Err(KeepFault::Damaged { offset: _ }) => unreachable!(),
    }
}

/// Whether a report that was answered so is over, or its file is held on.
pub fn is_report_over(answer: Result<Answer, KeepFault>) -> bool
    ensures { result ≡ is_over answer }
{
    match answer {
        Ok(_) | Err(KeepFault::Rule(_)) => true,
        Err(
            KeepFault::DiskFailed
            | KeepFault::JournalFull { used: _ }
            | KeepFault::Memory
            | KeepFault::Damaged { offset: _ },
        ) => false,
    }
}

/// The end by the fault of a claim, or of the expiry before it.
pub fn end_of_claim(fault: KeepFault, lanes: u32) -> Turn
    requires { AnswersClaim (Err fault) }
    ensures { result ≡ end_by_claim lanes fault }
{
    match fault {
        KeepFault::Rule(_) if lanes == 0 => Turn::Stopping,
        KeepFault::Rule(_) => Turn::Idle,
        KeepFault::DiskFailed => Turn::DiskFailed { lanes },
        KeepFault::JournalFull { used } => Turn::JournalFull { used, lanes },
        KeepFault::Memory => Turn::Memory { lanes },
        KeepFault::Damaged { offset: _ } => unreachable!(),
    }
}
