//! What an entry did to a file, or to the files of a job: by its command and the answer, which names the file of a claim and the state behind a report.
ghost use Rattle.std.specs.Prelude.{◌≡◌};
ghost use Rattle.fts_chronicle.specs.Chronicle.{claim_by, ending_by, event_by};

use fts_tables::{Answer, Command, FileState};

/// What was done to a file, or asked for the files of a job. Moments are in seconds since 1970.
#[derive(Clone, Copy, Debug, PartialEq, Eq)]
pub enum FileEvent {
    /// A file was claimed; its copy is this attempt.
    Claimed {
        moment: u64,
        file: u32,
        attempt: u32,
    },
    /// A copy ended, and its file stood in this state then. The report is that of this place among all, from 0.
    Reported {
        place: usize,
        state: FileState,
    },
    /// The cancellation of a job was accepted.
    JobCancelled {
        moment: u64,
        job: u32,
    },
    /// The cancellation of a file of a job was accepted.
    FileCancelled {
        moment: u64,
        job: u32,
        file: u32,
    },
}

/// What a command that was answered so, behind so many reports, did to a file; none where no file or job is named.
pub fn event_by(place: usize, command: &Command, answer: Answer) -> Option<FileEvent>
    ensures { result ≡ event_by place command.now answer }
{
    match command {
        Command::CancelJob { now, job } => Some(FileEvent::JobCancelled {
            moment: *now,
            job: *job,
        }),
        Command::CancelFile { now, job, file } => Some(FileEvent::FileCancelled {
            moment: *now,
            job: *job,
            file: *file,
        }),
        Command::Claim { now, .. } => claim_by(*now, answer),
        Command::Report { .. } => ending_by(place, answer),
        Command::Restart { .. }
        | Command::Submit { .. }
        | Command::SetPriority { .. }
        | Command::Ban { .. }
        | Command::Unban { .. }
        | Command::Expire { .. } => None,
    }
}

/// The claim that an answer names, at a moment.
fn claim_by(now: u64, answer: Answer) -> Option<FileEvent>
    ensures { result ≡ claim_by now answer }
{
    let Answer::Claimed { file, attempt } = answer else {
        return None;
    };
    Some(FileEvent::Claimed {
        moment: now,
        file,
        attempt,
    })
}

/// The report of this place, and the state of its file that an answer names.
fn ending_by(place: usize, answer: Answer) -> Option<FileEvent>
    ensures { result ≡ ending_by place answer }
{
    let Answer::Reported { state, .. } = answer else {
        return None;
    };
    Some(FileEvent::Reported { place, state })
}
