//! Commands to the keep, and what they came to. Whatever no line of this program wants is answered as `Otherwise`, want of memory too.
use fts_disk::MemoryDisk;
use fts_jobdoc::read_job;
use fts_keep::{Keep, KeepFault};
use fts_tables::{Answer, Command, FileState, Outcome, Refusal};
use std::alloc::Global;

/// The moment of every command, in seconds since 1970.
pub const NOW: u64 = 1_700_000_000;

/// The keep of this program.
pub type Kept = Keep<MemoryDisk>;

/// A copy that ended well.
pub const VERIFIED: Outcome = Outcome::Verified {
    size: 1,
    digest: [7; 16],
};

/// What a submission came to.
#[derive(Clone, Copy, Debug, PartialEq, Eq)]
pub enum Came {
    Job { number: u32 },
    JobsFull { jobs: u32 },
    RowsFull { rows: u32 },
    Otherwise,
}

/// Submits a document.
pub fn submit(alloc: Global, keep: &mut Kept, document: &str) -> Came {
    let Some(settings) = keep.desk().settings() else {
        return Came::Otherwise;
    };
    let Ok(job) = read_job(alloc, document.as_bytes(), settings) else {
        return Came::Otherwise;
    };
    match keep.apply(0, Command::Submit { now: NOW, job }) {
        Ok(Answer::Submitted { job, id: _ }) => Came::Job { number: job },
        Err(KeepFault::Rule(Refusal::JobsFull { jobs })) => Came::JobsFull { jobs },
        Err(KeepFault::Rule(Refusal::RowsFull { rows })) => Came::RowsFull { rows },
        Ok(_) | Err(_) => Came::Otherwise,
    }
}

/// A file that was claimed.
#[derive(Clone, Copy, Debug, PartialEq, Eq)]
pub struct Claimed {
    pub file: u32,
    pub attempt: u32,
}

/// Claims a file as this writer, where one is given.
pub fn claim(keep: &mut Kept, writer: u32) -> Option<Claimed> {
    match keep.apply(writer, Command::Claim { now: NOW, word: 0 }) {
        Ok(Answer::Claimed { file, attempt }) => Some(Claimed { file, attempt }),
        Ok(_) | Err(_) => None,
    }
}

/// Reports a file, and tells what became of it.
fn report(keep: &mut Kept, claimed: Claimed, outcome: Outcome) -> Option<FileState> {
    let Claimed { file, attempt } = claimed;
    let command = Command::Report {
        now: NOW,
        file,
        attempt,
        outcome,
    };
    match keep.apply(1, command) {
        Ok(Answer::Reported { file: _, state }) => Some(state),
        Ok(_) | Err(_) => None,
    }
}

/// How many files were claimed, and how many of them finished and failed.
#[derive(Clone, Copy)]
pub struct Copies {
    pub claimed: u32,
    pub finished: u32,
    pub failed: u32,
}

/// Claims so many files, each reported with this outcome before the next one is claimed.
pub fn copy_files(keep: &mut Kept, count: u32, outcome: Outcome) -> Copies {
    let mut copies = Copies {
        claimed: 0,
        finished: 0,
        failed: 0,
    };
    for _ in 0..count {
        let Some(claimed) = claim(keep, 1) else {
            return copies;
        };
        copies.claimed = copies.claimed.saturating_add(1);
        let state = report(keep, claimed, outcome);
        if state == Some(FileState::Finished) {
            copies.finished = copies.finished.saturating_add(1);
        }
        if state == Some(FileState::Failed) {
            copies.failed = copies.failed.saturating_add(1);
        }
    }
    copies
}
