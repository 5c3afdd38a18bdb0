//! What happened to a file, as its job's page shows it (`specs/Events.antt`): its submission, and what the journal's entries did to it by name.
//! A request costs one walk over the events of the journal, which gathers those of the job, and one over these for each of its files.
ghost use Rattle.std.specs.Prelude.{◌≡◌, IfOk, map, filter};
ghost use Rattle.std.specs.List.{filter_map};
ghost use Rattle.serde_json.specs.View.{view};
ghost use Rattle.fts_pages.specs.Events.{is_file_of, is_report_of, is_event_of, events_of_job, happening_by, reason_by, bytes_by, plain_event, submission_of, claim_event, report_event, is_cancelled, cancel_event, is_joint, ending_of, event_of, events_of_row, happening_text, bytes_data};
ghost use Rattle.fts_pages.specs.Pages.{event_object};
ghost use Rattle.fts_pages.specs.EventFloats.{event_no_float};

use crate::objects::with_member;
use fts_chronicle::{CopyReport, FileEvent};
use fts_counts::size_of;
use fts_routes::{Shown, reason_text};
use fts_tables::{FileRow, FileState, JobKind, JobRow, Memory, Outcome, Reason};
use serde_json::{Value, json};
use std::alloc::{AllocError, Global};
use std::iter;

/// At most this many events of a file are shown.
pub const MAX_EVENTS: usize = 64;

/// What can happen to a file.
#[derive(Clone, Copy, Debug, PartialEq, Eq)]
pub enum Happening {
    /// Its job was submitted.
    Submission,
    /// It was claimed, to be copied.
    Claim,
    /// Its copy was verified.
    Finish,
    /// Its copy failed, for good.
    Failure,
    /// Its copy failed, and it waits to be tried again.
    Retry,
    /// Its cancellation was asked while it was being copied.
    CancelAsked,
    /// It was cancelled.
    Cancellation,
}

/// What happened to a file at a moment, in seconds since 1970.
#[derive(Clone, Copy, Debug, PartialEq, Eq)]
pub struct EventShown {
    pub moment: u64,
    pub happening: Happening,
    /// The attempt that it belongs to; 0 where it belongs to none.
    pub attempt: u32,
    /// Why, where a copy failed or a file was cancelled.
    pub reason: Reason,
    /// The size of the copy, where one was verified.
    pub bytes: Option<u64>,
}

/// The events of a job and of its files, of those that entries told, by the reports.
pub fn events_of_job(
    alloc: Global,
    reports: &[CopyReport],
    job: &JobRow,
    events: &[FileEvent],
) -> Result<Vec<FileEvent>, AllocError>
    ensures { IfOk result (λ found. found.items ≡ events_of_job reports.now job.now events.now) }
{
    events
        .iter()
        .filter(|event| is_event_of(reports, job, **event))
        .copied()
        .collect(alloc)
}

/// What happened to a row of a job, oldest first, by the events of the job and the reports.
pub fn events_of_row(
    alloc: Global,
    reports: &[CopyReport],
    job: &JobRow,
    row: &FileRow,
    events: &[FileEvent],
) -> Result<Vec<EventShown>, AllocError>
    ensures { IfOk result (λ shown. shown.items ≡ events_of_row reports.now job.now row.now events.now) }
{
    let done = events
        .iter()
        .filter_map(|event| event_of(reports, job, row, *event));
    iter::once(submission_of(job)).chain(done).collect(alloc)
}

/// Whether a file is one of a job's.
fn is_file_of(job: &JobRow, file: u32) -> bool
    ensures { result ≡ is_file_of job.now file }
{
    job.first <= file && u64::from(file) < u64::from(job.first) + u64::from(job.count)
}

/// Whether a report, where there is one, is of a file of a job.
fn is_report_of(job: &JobRow, report: Option<CopyReport>) -> bool
    ensures { result ≡ is_report_of job.now report }
{
    match report {
        None => false,
        Some(report) => is_file_of(job, report.file),
    }
}

/// Whether an event is of a job or of a file of it, by the reports.
fn is_event_of(reports: &[CopyReport], job: &JobRow, event: FileEvent) -> bool
    ensures { result ≡ is_event_of reports.now job.now event }
{
    match event {
        FileEvent::Claimed {
            moment: _,
            file,
            attempt: _,
        } => is_file_of(job, file),
        FileEvent::Reported { place, state: _ } => is_report_of(job, reports.get(place).copied()),
        FileEvent::JobCancelled {
            moment: _,
            job: number,
        } => number == job.number,
        FileEvent::FileCancelled {
            moment: _,
            job: number,
            file: _,
        } => number == job.number,
    }
}

/// What a report, where there is one, made of a row, by the state behind it.
fn ending_of(row: &FileRow, state: FileState, report: Option<CopyReport>) -> Option<EventShown>
    ensures { result ≡ ending_of row.now state report }
{
    match report {
        Some(report) if report.file == row.id => Some(report_event(report, state)),
        Some(_) | None => None,
    }
}

/// What an event did to a row of a job, by the reports.
fn event_of(
    reports: &[CopyReport],
    job: &JobRow,
    row: &FileRow,
    event: FileEvent,
) -> Option<EventShown>
    ensures { result ≡ event_of reports.now job.now row.now event }
{
    match event {
        FileEvent::Claimed {
            moment,
            file,
            attempt,
        } => {
            if file == row.id {
                Some(claim_event(moment, attempt))
            } else {
                None
            }
        }
        FileEvent::Reported { place, state } => ending_of(row, state, reports.get(place).copied()),
        FileEvent::JobCancelled {
            moment,
            job: number,
        } => {
            if number == job.number {
                cancel_event(row, moment)
            } else {
                None
            }
        }
        FileEvent::FileCancelled {
            moment,
            job: number,
            file,
        } => {
            if number == job.number && (file == row.id || is_joint(job.kind)) {
                cancel_event(row, moment)
            } else {
                None
            }
        }
    }
}

/// The submission of a job's file.
fn submission_of(job: &JobRow) -> EventShown
    ensures { result ≡ submission_of job.now }
{
    plain_event(job.submitted_at, Happening::Submission)
}

/// An event without attempt, reason and bytes.
fn plain_event(moment: u64, happening: Happening) -> EventShown
    ensures { result ≡ plain_event moment happening }
{
    EventShown {
        moment,
        happening,
        attempt: 0,
        reason: Reason::None,
        bytes: None,
    }
}

/// A claim.
fn claim_event(moment: u64, attempt: u32) -> EventShown
    ensures { result ≡ claim_event moment attempt }
{
    EventShown {
        attempt,
        ..plain_event(moment, Happening::Claim)
    }
}

/// The end of a copy, by the state behind its report.
fn report_event(report: CopyReport, state: FileState) -> EventShown
    ensures { result ≡ report_event report state }
{
    EventShown {
        moment: report.moment,
        happening: happening_by(state),
        attempt: report.attempt,
        reason: reason_by(state, report.outcome),
        bytes: bytes_by(state, report.outcome),
    }
}

/// What a report made of its file, by the state behind it.
fn happening_by(state: FileState) -> Happening
    ensures { result ≡ happening_by state }
{
    match state {
        FileState::Submitted | FileState::Active => Happening::Retry,
        FileState::Finished => Happening::Finish,
        FileState::Failed | FileState::NotUsed => Happening::Failure,
        FileState::Canceled => Happening::Cancellation,
    }
}

/// The reason that goes with a report, by the state behind it.
fn reason_by(state: FileState, outcome: Outcome) -> Reason
    ensures { result ≡ reason_by state outcome }
{
    match state {
        FileState::Submitted | FileState::Active | FileState::Failed | FileState::NotUsed => {
            Reason::Ended(outcome)
        }
        FileState::Finished => Reason::None,
        FileState::Canceled => Reason::Cancelled,
    }
}

/// The bytes that go with a report, by the state behind it.
fn bytes_by(state: FileState, outcome: Outcome) -> Option<u64>
    ensures { result ≡ bytes_by state outcome }
{
    match state {
        FileState::Finished => size_of(outcome),
        FileState::Submitted
        | FileState::Active
        | FileState::Failed
        | FileState::Canceled
        | FileState::NotUsed => None,
    }
}

/// What a cancellation did to a row, by how it stands.
fn cancel_event(row: &FileRow, moment: u64) -> Option<EventShown>
    ensures { result ≡ cancel_event row.now moment }
{
    if row.cancel_asked {
        Some(plain_event(moment, Happening::CancelAsked))
    } else if row.state.is_canceled() && is_cancelled(row.reason) {
        Some(EventShown {
            reason: Reason::Cancelled,
            ..plain_event(moment, Happening::Cancellation)
        })
    } else {
        None
    }
}

/// Whether a reason is that a file was cancelled.
fn is_cancelled(reason: Reason) -> bool
    ensures { result ≡ is_cancelled reason }
{
    match reason {
        Reason::Cancelled => true,
        Reason::None | Reason::Ended(_) | Reason::Expired => false,
    }
}

/// Whether the cancellation of one file is that of all files of the job.
fn is_joint(kind: JobKind) -> bool
    ensures { result ≡ is_joint kind }
{
    match kind {
        JobKind::Plain => false,
        JobKind::Replica | JobKind::Multihop => true,
    }
}

/// The word of what happened.
fn happening_text(happening: Happening) -> &'static str
    ensures { result.now ≡ happening_text happening }
{
    match happening {
        Happening::Submission => "submitted",
        Happening::Claim => "claimed",
        Happening::Finish => "finished",
        Happening::Failure => "failed",
        Happening::Retry => "failed, to be tried again",
        Happening::CancelAsked => "cancel asked",
        Happening::Cancellation => "canceled",
    }
}

/// A number of bytes, where there is one.
fn bytes_value(alloc: Global, bytes: Option<u64>) -> Result<Value, Memory>
    ensures { IfOk result (λ value. view value ≡ bytes_data bytes) }
{
    match bytes {
        None => Ok(Value::Null),
        Some(bytes) => Ok(json!(in alloc; bytes)?),
    }
}

impl Shown for EventShown {
    ghost shown = { event_object };

    ghost no_float = { event_no_float };

    fn value(&self, alloc: Global) -> Result<Value, Memory> {
        let bytes = bytes_value(alloc, self.bytes)?;
        let reason = reason_text(alloc, self.reason)?;
        let event = happening_text(self.happening);
        let value = json!(in alloc; {
            "attempt": self.attempt,
            "event": event,
            "reason": &reason,
            "time": self.moment
        })?;
        with_member(alloc, value, "bytes", bytes)
    }
}
