//! What the plain machine is told and what it keeps, as plain data.
//! An endpoint is a number, and numbers stand in the order of the endpoints' names. A path and an activity are numbers too.
//! The words for states, outcomes, reasons and kinds are those of `fts_tables`.
use fts_tables::{FileState, JobKind, Outcome, Reason, Strategy};

/// The activity under which files count whose own isn't listed.
pub const DEFAULT_ACTIVITY: u8 = 0;

/// A file's place: an endpoint, and a path there.
#[derive(Clone, Copy, Debug, PartialEq, Eq)]
pub struct PlainPlace {
    pub endpoint: u8,
    pub path: u8,
}

/// An endpoint, and how many files may be ACTIVE into it and out of it.
#[derive(Clone, Copy, Debug)]
pub struct PlainEndpoint {
    pub name: u8,
    pub inbound: u32,
    pub outbound: u32,
}

/// A link with a limit of its own.
#[derive(Clone, Copy, Debug)]
pub struct PlainLink {
    pub source: u8,
    pub dest: u8,
    pub max_active: u32,
}

/// An activity with its weight.
#[derive(Clone, Copy, Debug)]
pub struct PlainWeight {
    pub activity: u8,
    pub weight: u32,
}

/// Settings, in listed order.
#[derive(Debug, Drop)]
pub struct PlainSettings {
    pub default_max_active: u32,
    pub endpoints: Vec<PlainEndpoint>,
    pub links: Vec<PlainLink>,
    pub weights: Vec<PlainWeight>,
}

/// A file of a job that is submitted.
#[derive(Clone, Copy, Debug)]
pub struct PlainFile {
    pub source: PlainPlace,
    pub dest: PlainPlace,
    pub size: u64,
    pub activity: u8,
}

/// What a job asks for, beside its files.
#[derive(Clone, Copy, Debug)]
pub struct PlainTerms {
    pub kind: JobKind,
    pub strategy: Strategy,
    pub priority: u32,
    pub retry: u32,
    pub delay: u64,
    pub queue_hours: u32,
}

/// A job that is submitted.
#[derive(Debug, Drop)]
pub struct PlainNewJob {
    pub id: Option<u128>,
    pub terms: PlainTerms,
    pub files: Vec<PlainFile>,
}

impl PlainNewJob {
    /// The index of the file at a place: its own, but the sources of a replica job share its one file's.
    pub fn index_at(&self, place: u32) -> u32 {
        match self.terms.kind {
            JobKind::Plain | JobKind::Multihop => place,
            JobKind::Replica => 0,
        }
    }
}

/// What the machine is told, with the moment.
#[derive(Debug, Drop)]
pub enum PlainCommand {
    Restart {
        now: u64,
        settings: PlainSettings,
    },
    Submit {
        now: u64,
        job: PlainNewJob,
    },
    CancelJob {
        now: u64,
        job: u32,
    },
    CancelFile {
        now: u64,
        job: u32,
        file: u32,
    },
    SetPriority {
        now: u64,
        job: u32,
        priority: u32,
    },
    Claim {
        now: u64,
        word: u64,
    },
    Report {
        now: u64,
        file: u32,
        attempt: u32,
        outcome: Outcome,
    },
    Ban {
        now: u64,
        storage: u8,
        cancel: bool,
    },
    Unban {
        now: u64,
        storage: u8,
    },
    Expire {
        now: u64,
    },
}

/// What the machine keeps of a file.
#[derive(Clone, Copy, Debug)]
pub struct PlainRow {
    pub id: u32,
    pub job: u32,
    pub index: u32,
    pub source: PlainPlace,
    pub dest: PlainPlace,
    pub size: u64,
    pub activity: u8,
    pub state: FileState,
    pub retries: u32,
    pub attempt: u32,
    pub not_before: u64,
    pub cancel_asked: bool,
    pub reason: Reason,
    pub digest: Option<[u8; 16]>,
}

impl PlainRow {
    /// Whether the file waits or is copied.
    pub fn is_live(&self) -> bool {
        matches!(self.state, FileState::Submitted | FileState::Active)
    }

    /// Whether the file has ended.
    pub fn is_settled(&self) -> bool {
        matches!(
            self.state,
            FileState::Finished | FileState::Failed | FileState::Canceled
        )
    }

    /// Whether the file is copied from a storage, or to it.
    pub fn is_at(&self, storage: u8) -> bool {
        self.source.endpoint == storage || self.dest.endpoint == storage
    }

    /// Whether the file goes from one endpoint to another.
    pub fn is_on_link(&self, source: u8, dest: u8) -> bool {
        self.source.endpoint == source && self.dest.endpoint == dest
    }
}

/// What the machine keeps of a job.
#[derive(Clone, Copy, Debug)]
pub struct PlainJob {
    pub number: u32,
    pub id: u128,
    pub terms: PlainTerms,
    pub submitted_at: u64,
}
