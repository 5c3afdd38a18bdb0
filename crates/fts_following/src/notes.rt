//! The line that a run of `follow` notes where it does not end with status 0 (`specs/Notes.antt`). It takes no memory.
ghost use Rattle.fts_tables.specs.Counts.{CountsFaults};
ghost use Rattle.fts_wire.specs.Response.{Sends};
ghost use Rattle.fts_following.specs.Notes.{follow_note_of, note_with};

use crate::ends::FollowRunEnd;
use fts_wire::{Sink, SinkFailed, send_all, send_parts};
use itoa::Buffer;

/// Sends the line of a run's end, or a part of it where a write fails.
pub fn send_follow_note<N: Sink>(notes: &mut N, end: FollowRunEnd) -> Result<(), SinkFailed>
    ensures sent { Sends (N.held notes.old) (N.held notes.new) (follow_note_of end) result }
    ensures cause { CountsFaults (N.faults notes.old) (N.faults notes.new) result }
{
    match end {
        FollowRunEnd::CaughtUp => send_all(notes, "".as_bytes()),
        FollowRunEnd::NoMemory => send_all(notes, "fts: no memory\n".as_bytes()),
        FollowRunEnd::DiskFailed => send_all(notes, "fts: disk failed\n".as_bytes()),
        FollowRunEnd::OutputFailed => send_all(notes, "fts: output failed\n".as_bytes()),
        FollowRunEnd::Damaged { offset } => send_number(notes, "fts: journal damaged at ", offset),
        FollowRunEnd::JournalFull { used } => send_number(notes, "fts: journal full at ", used),
        FollowRunEnd::Refused { status } => {
            send_number(notes, "fts: service refused with ", status as u64)
        }
        FollowRunEnd::LinkFailed => send_all(notes, "fts: link failed\n".as_bytes()),
        FollowRunEnd::NoAnswer => send_all(notes, "fts: no whole answer\n".as_bytes()),
        FollowRunEnd::CannotServe { status } => {
            send_number(notes, "fts: service cannot serve: ", status as u64)
        }
        FollowRunEnd::Diverged { number } => send_number(notes, "fts: diverged at ", number as u64),
    }
}

/// Sends a line with a number at its end.
fn send_number<N: Sink>(notes: &mut N, text: &str, number: u64) -> Result<(), SinkFailed>
    ensures sent { Sends (N.held notes.old) (N.held notes.new) (note_with text.now number) result }
    ensures cause { CountsFaults (N.faults notes.old) (N.faults notes.new) result }
{
    let mut buffer = Buffer::new();
    let digits = buffer.format(number);
    send_parts(
        notes,
        &[text.as_bytes(), digits.as_bytes(), "\n".as_bytes()],
    )
}
