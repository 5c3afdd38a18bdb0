//! Asking for one entry: tries, each over a line of its own and with one and the same request, until one of them is answered for good or they are
//! used up. The last one decides.
//! Keeps: fewer tries than are allowed are made only where the last one gave the entry, said that there is none, or was refused, or where memory ran
//! out (`ask`: `Asks`). Nothing of an older try is kept.
ghost use Rattle.std.specs.Prelude.{◌≡◌, ◌≤◌, IfOk};
ghost use Rattle.fts_client.specs.Links.{read_side, written_side};
ghost use Rattle.fts_client.specs.Tries.{try_of};
ghost use Rattle.fts_standby.specs.Hearing.{heard_data};
ghost use Rattle.fts_standby.specs.Asking.{request_bytes, heard_by, is_final, Asks, AsksFor, IsEntryOf};

use crate::ends::FollowEnd;
use crate::hearing::{Heard, hear};
use arrayvec::ArrayString;
use fts_client::{Link, Tried, try_once};
use fts_tables::Memory;
use fts_wire::{AnswerFault, AnswerRoom};
use itoa::Buffer;
use std::alloc::Global;

/// More than the longest request, in bytes.
const REQUEST_BYTES: usize = 128;

/// Asks the service on a port of this machine for the entry of a number, in at most `tries` tries: the entry, or that there is none; anything else
/// ends following.
pub fn ask_for<L: Link>(
    alloc: Global,
    link: &mut L,
    port: u16,
    number: u32,
    tries: u32,
    room: &mut AnswerRoom,
) -> Result<Option<Vec<u8>>, FollowEnd>
    requires some { 1 ≤ tries }
    ensures { AsksFor (read_side L.Line.Source) (written_side L.Line.Sink)
        port number tries (L.link link.old) (L.link link.new) (L.faults link.old) (L.faults link.new) result }
{
    match ask(alloc, link, port, number, tries, room) {
        Ok(heard) => entry_of(heard),
        Err(Memory) => Err(FollowEnd::Memory),
    }
}

/// Asks for the entry of a number, and tells what the last try came to.
fn ask<L: Link>(
    alloc: Global,
    link: &mut L,
    port: u16,
    number: u32,
    tries: u32,
    room: &mut AnswerRoom,
) -> Result<Heard, Memory>
    requires some { 1 ≤ tries }
    ensures { Asks (read_side L.Line.Source) (written_side L.Line.Sink)
        port number tries (L.link link.old) (L.link link.new) (L.faults link.old) (L.faults link.new) result }
{
    let head = request_head(port, number);
    let request = [head.as_str().as_bytes()];
    let mut left = tries;
    'tries: loop {
        let tried = try_once(link, port, &request, room);
        let heard = heard_by(alloc, number, tried, room.body())?;
        left -= 1;
        if left == 0 || is_final(&heard) {
            return Ok(heard);
        }
    }
}

/// The request for the entry of a number.
fn request_head(port: u16, number: u32) -> ArrayString<REQUEST_BYTES>
    ensures { result.bytes ≡ request_bytes port number }
{
    let mut head = ArrayString::new();
    let mut digits = Buffer::new();
    head.push_str("GET /journal/");
    head.push_str(digits.format(number));
    head.push_str(" HTTP/1.1\r\nHost: 127.0.0.1:");
    head.push_str(digits.format(port));
    head.push_str("\r\nConnection: close\r\n\r\n");
    head
}

/// What is heard in a try, by the body that the room holds behind it.
fn heard_by(alloc: Global, number: u32, tried: Tried, body: &[u8]) -> Result<Heard, Memory>
    ensures { IfOk result (λ heard. heard_data heard ≡ heard_by number (try_of tried body.now)) }
{
    match tried {
        Tried::NoLine => Ok(Heard::LinkFailed),
        Tried::NotSent => Ok(Heard::LinkFailed),
        Tried::Sent(Err(AnswerFault::SourceFailed)) => Ok(Heard::LinkFailed),
        Tried::Sent(Err(AnswerFault::BadResponse)) => Ok(Heard::NoAnswer),
        Tried::Sent(Err(AnswerFault::EndsInside)) => Ok(Heard::NoAnswer),
        Tried::Sent(Ok(status)) => hear(alloc, number, status, body),
    }
}

/// Whether there is no other try behind this.
fn is_final(heard: &Heard) -> bool
    ensures { result ≡ is_final (heard_data heard.now) }
{
    match heard {
        Heard::Gives { entry: _ } | Heard::NoneThere | Heard::Refuses { status: _ } => true,
        Heard::CannotServe { status: _ } | Heard::NoAnswer | Heard::LinkFailed => false,
    }
}

/// The entry, or that there is none, or the end by what was heard instead.
fn entry_of(heard: Heard) -> Result<Option<Vec<u8>>, FollowEnd>
    ensures { IsEntryOf (heard_data heard) result }
{
    match heard {
        Heard::Gives { entry } => Ok(Some(entry)),
        Heard::NoneThere => Ok(None),
        Heard::Refuses { status } => Err(FollowEnd::Refused { status }),
        Heard::CannotServe { status } => Err(FollowEnd::CannotServe { status }),
        Heard::NoAnswer => Err(FollowEnd::NoAnswer),
        Heard::LinkFailed => Err(FollowEnd::LinkFailed),
    }
}
