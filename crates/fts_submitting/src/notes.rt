//! The line that a client's command notes where it does not end with status 0 (`specs/Notes.antt`). It takes no memory.
ghost use Rattle.fts_tables.specs.Counts.{CountsFaults};
ghost use Rattle.fts_wire.specs.Response.{Sends};
ghost use Rattle.fts_submitting.specs.Notes.{client_note_of, note_with};

use crate::ClientEnd;
use fts_wire::{Sink, SinkFailed, send_all, send_parts};
use itoa::Buffer;

/// Sends the line of a client's end, or a part of it where a write fails.
pub fn send_client_note<N: Sink>(notes: &mut N, end: ClientEnd) -> Result<(), SinkFailed>
    ensures sent { Sends (N.held notes.old) (N.held notes.new) (client_note_of end) result }
    ensures cause { CountsFaults (N.faults notes.old) (N.faults notes.new) result }
{
    match end {
        ClientEnd::Told => send_all(notes, "".as_bytes()),
        ClientEnd::NoMemory => send_all(notes, "fts: no memory\n".as_bytes()),
        ClientEnd::InputFailed => send_all(notes, "fts: input failed\n".as_bytes()),
        ClientEnd::OutputFailed => send_all(notes, "fts: output failed\n".as_bytes()),
        ClientEnd::DocumentRule { rule } => send_number(notes, "fts: document rule ", rule as u64),
        ClientEnd::Refused { status } => {
            send_number(notes, "fts: service refused with ", status as u64)
        }
        ClientEnd::LinkFailed => send_all(notes, "fts: link failed\n".as_bytes()),
        ClientEnd::NoAnswer => send_all(notes, "fts: no whole answer\n".as_bytes()),
        ClientEnd::CannotServe { status } => {
            send_number(notes, "fts: service cannot serve: ", status as u64)
        }
    }
}

/// Sends a line with a number at its end.
fn send_number<N: Sink>(notes: &mut N, text: &str, number: u64) -> Result<(), SinkFailed>
    ensures sent { Sends (N.held notes.old) (N.held notes.new) (note_with text.now number) result }
    ensures cause { CountsFaults (N.faults notes.old) (N.faults notes.new) result }
{
    let mut buffer = Buffer::new();
    let digits = buffer.format(number);
    send_parts(
        notes,
        &[text.as_bytes(), digits.as_bytes(), "\n".as_bytes()],
    )
}
