//! How a client's command ends. Each end has its exit status (`specs/Ends.antt`) and the line that it notes (`specs/Notes.antt`).
ghost use Rattle.std.specs.Prelude.{◌≡◌};
ghost use Rattle.fts_submitting.specs.Ends.{client_status, end_of_submission, end_of_query, told};

use fts_client::{QueryEnd, SubmitEnd};

/// How a client's command ended.
#[derive(Clone, Copy, Debug, PartialEq, Eq)]
pub enum ClientEnd {
    /// The job was told: its id, or its object, was written whole.
    Told,
    /// There was too little memory.
    NoMemory,
    /// A read of the input failed.
    InputFailed,
    /// A write of the output failed.
    OutputFailed,
    /// The document breaks the rule of this number; one that is too long breaks rule 45.
    DocumentRule { rule: u32 },
    /// The service refused, with this status.
    Refused { status: u16 },
    /// The link failed in the last try.
    LinkFailed,
    /// What came in the last try was no answer.
    NoAnswer,
    /// The service could not serve in the last try, with this status.
    CannotServe { status: u16 },
}

impl ClientEnd {
    /// The exit status.
    pub fn status(self) -> u8
        ensures { result ≡ client_status self }
    {
        match self {
            ClientEnd::Told => 0,
            ClientEnd::NoMemory => 1,
            ClientEnd::InputFailed => 5,
            ClientEnd::OutputFailed => 6,
            ClientEnd::Refused { status: _ } => 15,
            ClientEnd::LinkFailed => 16,
            ClientEnd::NoAnswer => 17,
            ClientEnd::CannotServe { status: _ } => 18,
            ClientEnd::DocumentRule { rule: _ } => 19,
        }
    }
}

/// How a command ends whose submission ended so, where the job's id is written whole or not.
pub fn end_of_submission(end: SubmitEnd, whole: bool) -> ClientEnd
    ensures { result ≡ end_of_submission end whole }
{
    match end {
        SubmitEnd::Done { job: _, again: _ } => told(whole),
        SubmitEnd::Refused { status } => ClientEnd::Refused { status },
        SubmitEnd::LinkFailed => ClientEnd::LinkFailed,
        SubmitEnd::CannotServe { status } => ClientEnd::CannotServe { status },
        SubmitEnd::NoAnswer => ClientEnd::NoAnswer,
        SubmitEnd::Memory => ClientEnd::NoMemory,
    }
}

/// How a command ends whose query ended so, where the job's object is written whole or not.
pub fn end_of_query(end: QueryEnd, whole: bool) -> ClientEnd
    ensures { result ≡ end_of_query end whole }
{
    match end {
        QueryEnd::Found => told(whole),
        QueryEnd::Refused { status } => ClientEnd::Refused { status },
        QueryEnd::LinkFailed => ClientEnd::LinkFailed,
        QueryEnd::CannotServe { status } => ClientEnd::CannotServe { status },
        QueryEnd::NoAnswer => ClientEnd::NoAnswer,
        QueryEnd::Memory => ClientEnd::NoMemory,
    }
}

/// How a command ends that had its text to write.
fn told(whole: bool) -> ClientEnd
    ensures { result ≡ told whole }
{
    if whole {
        ClientEnd::Told
    } else {
        ClientEnd::OutputFailed
    }
}
