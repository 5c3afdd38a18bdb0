//! The line that `delete` notes where it does not end with status 0 (`specs/Notes.antt`). It takes no memory.
ghost use Rattle.fts_tables.specs.Counts.{CountsFaults};
ghost use Rattle.fts_wire.specs.Response.{Sends};
ghost use Rattle.fts_deleting.specs.Notes.{delete_note_of, note_with};

use crate::DeleteEnd;
use fts_wire::{Sink, SinkFailed, send_all, send_parts};
use itoa::Buffer;

/// Sends the line of an end, or a part of it where a write fails.
pub fn send_delete_note<N: Sink>(notes: &mut N, end: DeleteEnd) -> Result<(), SinkFailed>
    ensures sent { Sends (N.held notes.old) (N.held notes.new) (delete_note_of end) result }
    ensures cause { CountsFaults (N.faults notes.old) (N.faults notes.new) result }
{
    match end {
        DeleteEnd::Told => send_all(notes, "".as_bytes()),
        DeleteEnd::NoMemory => send_all(notes, "fts: no memory\n".as_bytes()),
        DeleteEnd::DiskFailed => send_all(notes, "fts: disk failed\n".as_bytes()),
        DeleteEnd::InputFailed => send_all(notes, "fts: input failed\n".as_bytes()),
        DeleteEnd::OutputFailed => send_all(notes, "fts: output failed\n".as_bytes()),
        DeleteEnd::Damaged { offset } => send_number(notes, "fts: journal damaged at ", offset),
        DeleteEnd::JournalFull { used } => send_number(notes, "fts: journal full at ", used),
        DeleteEnd::DocumentRule { rule } => {
            send_number(notes, "fts: delete document rule ", rule as u64)
        }
        DeleteEnd::RowsFull => send_all(notes, "fts: rows full\n".as_bytes()),
    }
}

/// Sends a line with a number at its end.
fn send_number<N: Sink>(notes: &mut N, text: &str, number: u64) -> Result<(), SinkFailed>
    ensures sent { Sends (N.held notes.old) (N.held notes.new) (note_with text.now number) result }
    ensures cause { CountsFaults (N.faults notes.old) (N.faults notes.new) result }
{
    let mut buffer = Buffer::new();
    let digits = buffer.format(number);
    send_parts(
        notes,
        &[text.as_bytes(), digits.as_bytes(), "\n".as_bytes()],
    )
}
