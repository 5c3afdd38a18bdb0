//! The line that a run writes to its notes where it does not end with status 0 (`specs/Notes.antt`). It takes no memory, and a failed write changes nothing.
ghost use Rattle.fts_tables.specs.Counts.{CountsFaults};
ghost use Rattle.fts_wire.specs.Response.{Sends};
ghost use Rattle.fts_top.specs.Notes.{round_note_of, session_note_of, worker_note_of, note_of, note_with, IsNoted};

use crate::ends::RunEnd;
use crate::errands::send_errand_note;
use fts_session::{LineEnd, SessionEnd};
use fts_shop::WorkerEnd;
use fts_wire::{Sink, SinkFailed, send_all, send_parts};
use fts_workers::RoundEnd;
use itoa::Buffer;

/// Writes the line of a run's end, as far as the notes take it.
pub fn write_note<N: Sink>(notes: &mut N, end: RunEnd)
    ensures { IsNoted (N.held notes.old) (N.held notes.new) (N.faults notes.old) (N.faults notes.new) (note_of end) }
{
    let _written = send_note(notes, end);
}

/// Sends the line of a run's end.
fn send_note<N: Sink>(notes: &mut N, end: RunEnd) -> Result<(), SinkFailed>
    ensures sent { Sends (N.held notes.old) (N.held notes.new) (note_of end) result }
    ensures cause { CountsFaults (N.faults notes.old) (N.faults notes.new) result }
{
    match end {
        RunEnd::NoMemory => send_all(notes, "fts: no memory\n".as_bytes()),
        RunEnd::NoCommand => send_all(notes, "fts: not a command\n".as_bytes()),
        RunEnd::SettingsUnread => send_all(notes, "fts: settings could not be read\n".as_bytes()),
        RunEnd::SettingsRule { rule } => send_number(notes, "fts: settings rule ", rule as u64),
        RunEnd::DiskFailed => send_all(notes, "fts: disk failed\n".as_bytes()),
        RunEnd::Damaged { offset } => send_number(notes, "fts: journal damaged at ", offset),
        RunEnd::JournalFull { used } => send_number(notes, "fts: journal full at ", used),
        RunEnd::Session { end } => send_session_note(notes, end),
        RunEnd::Shown { whole: true } => send_all(notes, "".as_bytes()),
        RunEnd::Shown { whole: false } | RunEnd::LineUnwritten => {
            send_all(notes, "fts: output failed\n".as_bytes())
        }
        RunEnd::SourcesUnmade => send_all(notes, "fts: store failed\n".as_bytes()),
        RunEnd::DoorsFailed => send_all(notes, "fts: doors failed\n".as_bytes()),
        RunEnd::Served { end } => send_worker_note(notes, end),
        RunEnd::Errand { end } => send_errand_note(notes, end),
    }
}

/// Sends the line of a session's end.
fn send_session_note<N: Sink>(notes: &mut N, end: SessionEnd) -> Result<(), SinkFailed>
    ensures sent { Sends (N.held notes.old) (N.held notes.new) (session_note_of end.line end.last) result }
    ensures cause { CountsFaults (N.faults notes.old) (N.faults notes.new) result }
{
    match end.line {
        LineEnd::Closed => send_round_note(notes, end.last),
        LineEnd::SourceFailed => send_all(notes, "fts: input failed\n".as_bytes()),
        LineEnd::SinkFailed => send_all(notes, "fts: output failed\n".as_bytes()),
        LineEnd::EndsInside => send_all(notes, "fts: input ended inside a request\n".as_bytes()),
        LineEnd::Refused { status } => {
            send_number(notes, "fts: request refused with ", status as u64)
        }
        LineEnd::Many => send_all(notes, "fts: too many requests\n".as_bytes()),
    }
}

/// Sends the line of a last round.
fn send_round_note<N: Sink>(notes: &mut N, last: RoundEnd) -> Result<(), SinkFailed>
    ensures sent { Sends (N.held notes.old) (N.held notes.new) (round_note_of last) result }
    ensures cause { CountsFaults (N.faults notes.old) (N.faults notes.new) result }
{
    match last {
        RoundEnd::Clear | RoundEnd::Busy { held: _ } => send_all(notes, "".as_bytes()),
        RoundEnd::DiskFailed => send_all(notes, "fts: disk failed\n".as_bytes()),
        RoundEnd::JournalFull { used } => send_number(notes, "fts: journal full at ", used),
        RoundEnd::Memory => send_all(notes, "fts: no memory\n".as_bytes()),
    }
}

/// Sends the line of workers whose worst end this is.
fn send_worker_note<N: Sink>(notes: &mut N, end: WorkerEnd) -> Result<(), SinkFailed>
    ensures sent { Sends (N.held notes.old) (N.held notes.new) (worker_note_of end) result }
    ensures cause { CountsFaults (N.faults notes.old) (N.faults notes.new) result }
{
    match end {
        WorkerEnd::Drained => send_all(notes, "".as_bytes()),
        WorkerEnd::Stopped => send_all(notes, "fts: stopped\n".as_bytes()),
        WorkerEnd::Memory => send_all(notes, "fts: no memory\n".as_bytes()),
        WorkerEnd::DiskFailed => send_all(notes, "fts: disk failed\n".as_bytes()),
        WorkerEnd::JournalFull { used } => send_number(notes, "fts: journal full at ", used),
    }
}

/// Sends a line with a number at its end.
fn send_number<N: Sink>(notes: &mut N, text: &str, number: u64) -> Result<(), SinkFailed>
    ensures sent { Sends (N.held notes.old) (N.held notes.new) (note_with text.now number) result }
    ensures cause { CountsFaults (N.faults notes.old) (N.faults notes.new) result }
{
    let mut buffer = Buffer::new();
    let digits = buffer.format(number);
    send_parts(
        notes,
        &[text.as_bytes(), digits.as_bytes(), "\n".as_bytes()],
    )
}
