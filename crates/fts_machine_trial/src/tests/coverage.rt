//! What came up in a trial: each kind of answer and of refusal, and each change of a row's state. That no other change comes is a law of the
//! machine (`fts_tables::laws::rows_move_by_allowed_steps`), and is not looked at here.
use super::plain::PlainRow;
use fts_tables::{Answer, Command, FileState, Refusal};

/// Something that is to come up.
#[derive(Clone, Copy)]
pub enum Event {
    Restarted,
    RestartedWithRelease,
    Submitted,
    Cancelled,
    PrioritySet,
    Claimed,
    ClaimedAgain,
    ReportedFinished,
    ReportedFailed,
    ReportedSubmitted,
    ReportedCanceled,
    Banned,
    BannedWithFiles,
    Unbanned,
    Expired,
    NoJob,
    NoFile,
    Duplicate,
    Idle,
    NothingOverdue,
    Stale,
    Unchanged,
    NoStorage,
    NotBanned,
}

/// So many are to come up.
const EVENTS: usize = 24;

/// All that is to come up.
const WANTED: [Event; EVENTS] = [
    Event::Restarted,
    Event::RestartedWithRelease,
    Event::Submitted,
    Event::Cancelled,
    Event::PrioritySet,
    Event::Claimed,
    Event::ClaimedAgain,
    Event::ReportedFinished,
    Event::ReportedFailed,
    Event::ReportedSubmitted,
    Event::ReportedCanceled,
    Event::Banned,
    Event::BannedWithFiles,
    Event::Unbanned,
    Event::Expired,
    Event::NoJob,
    Event::NoFile,
    Event::Duplicate,
    Event::Idle,
    Event::NothingOverdue,
    Event::Stale,
    Event::Unchanged,
    Event::NoStorage,
    Event::NotBanned,
];

/// The changes of a row's state that are to come up.
const MOVES: [(FileState, FileState); 8] = [
    (FileState::Submitted, FileState::Active),
    (FileState::Submitted, FileState::Canceled),
    (FileState::Active, FileState::Finished),
    (FileState::Active, FileState::Failed),
    (FileState::Active, FileState::Submitted),
    (FileState::Active, FileState::Canceled),
    (FileState::NotUsed, FileState::Submitted),
    (FileState::NotUsed, FileState::Canceled),
];

/// How often each event and each change came, by their places.
#[derive(Drop)]
pub struct Coverage {
    events: [u32; EVENTS],
    moves: [u32; 8],
}

impl Coverage {
    /// Nothing came yet.
    pub fn new() -> Coverage {
        Coverage {
            events: [0; EVENTS],
            moves: [0; 8],
        }
    }

    /// Notes what a command was answered.
    pub fn note_answer(&mut self, command: &Command, answer: &Result<Answer, Refusal>) {
        let event = match answer {
            Ok(answer) => event_of_answer(answer),
            Err(refusal) => event_of_refusal(command, refusal),
        };
        if let Some(event) = event {
            add_one(&mut self.events, event as usize);
        }
    }

    /// Notes how rows changed their states.
    pub fn note_moves(&mut self, before: &[PlainRow], after: &[PlainRow]) {
        for (from, row) in before.iter().zip(after) {
            if from.state != row.state {
                self.note_move(from.state, row.state);
            }
        }
    }

    fn note_move(&mut self, from: FileState, to: FileState) {
        if let Some(place) = MOVES.iter().position(|pair| *pair == (from, to)) {
            add_one(&mut self.moves, place);
        }
    }

    /// The first event that came less than so often.
    pub fn rarer_than(&self, often: u32) -> Option<Event> {
        WANTED.iter().copied().find(|event| self.events.get(*event as usize).copied().unwrap_or(0)
            < often)
    }

    /// How often the rarest change came.
    pub fn rarest_move(&self) -> u32 {
        self.moves.iter().copied().min().unwrap_or(0)
    }
}

/// One more at a place.
fn add_one(counts: &mut [u32], place: usize) {
    if let Some(count) = counts.get_mut(place) {
        *count = count.saturating_add(1);
    }
}

fn event_of_answer(answer: &Answer) -> Option<Event> {
    match answer {
        Answer::Restarted { released: 0 } => Some(Event::Restarted),
        Answer::Restarted { .. } => Some(Event::RestartedWithRelease),
        Answer::Submitted { .. } => Some(Event::Submitted),
        Answer::Cancelled { .. } => Some(Event::Cancelled),
        Answer::PrioritySet { .. } => Some(Event::PrioritySet),
        Answer::Claimed { attempt: 1, .. } => Some(Event::Claimed),
        Answer::Claimed { .. } => Some(Event::ClaimedAgain),
        Answer::Reported { state, .. } => event_of_report(*state),
        Answer::Banned { cancelled: 0 } => Some(Event::Banned),
        Answer::Banned { .. } => Some(Event::BannedWithFiles),
        Answer::Unbanned => Some(Event::Unbanned),
        Answer::Expired { .. } => Some(Event::Expired),
    }
}

/// A report leaves no row ACTIVE or NOT_USED.
fn event_of_report(state: FileState) -> Option<Event> {
    match state {
        FileState::Finished => Some(Event::ReportedFinished),
        FileState::Failed => Some(Event::ReportedFailed),
        FileState::Submitted => Some(Event::ReportedSubmitted),
        FileState::Canceled => Some(Event::ReportedCanceled),
        FileState::Active | FileState::NotUsed => None,
    }
}

/// The limits of the lists are far away, so a refusal for them is not to come up.
fn event_of_refusal(command: &Command, refusal: &Refusal) -> Option<Event> {
    match refusal {
        Refusal::NoJob => Some(Event::NoJob),
        Refusal::NoFile => Some(Event::NoFile),
        Refusal::Duplicate { .. } => Some(Event::Duplicate),
        Refusal::Idle if matches!(command, Command::Expire { .. }) => Some(Event::NothingOverdue),
        Refusal::Idle => Some(Event::Idle),
        Refusal::Stale { .. } => Some(Event::Stale),
        Refusal::Unchanged { .. } => Some(Event::Unchanged),
        Refusal::NoStorage => Some(Event::NoStorage),
        Refusal::NotBanned => Some(Event::NotBanned),
        Refusal::JobsFull { .. } | Refusal::RowsFull { .. } => None,
    }
}
