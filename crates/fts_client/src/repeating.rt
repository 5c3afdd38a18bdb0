//! The loop of tries: each with one and the same request, until a response ends them or they are used up. The last try decides.
//! Keeps: fewer tries than are allowed are made only where a response ended them, or memory ran out (`repeat`: `Repeated`, `IsEnd`).
ghost use Rattle.std.specs.Prelude.{◌≡◌, ◌≤◌, map};
ghost use Rattle.std.specs.List.{concat};
ghost use Rattle.fts_client.specs.Links.{read_side, written_side};
ghost use Rattle.fts_client.specs.Tries.{try_of};
ghost use Rattle.fts_client.specs.Ends.{SaysSo, is_last, IsEnd, Repeated};

use crate::ends::SubmitEnd;
use crate::hearing::Hears;
use crate::link::Link;
use crate::tries::{Tried, try_once};
use fts_wire::{AnswerFault, AnswerRoom};
use std::alloc::Global;

/// Writes a request in each try at a port, until one ends them or they are used up.
pub fn repeat<L: Link, H: Hears>(
    alloc: Global,
    link: &mut L,
    port: u16,
    request: &[&[u8]],
    tries: u32,
    room: &mut AnswerRoom,
) -> SubmitEnd
    requires some { 1 ≤ tries }
    ensures { Repeated (read_side L.Line.Source) (written_side L.Line.Sink)
        port (concat (map (λ part. part.now) request.now)) (λ all. IsEnd H.says tries all result)
        (L.link link.old) (L.link link.new) (L.faults link.old) (L.faults link.new) room.old (room.new) }
{
    let mut end = SubmitEnd::NoAnswer;
    for _ in 0..tries {
        let tried = try_once(link, port, request, room);
        end = end_of::<H>(alloc, tried, room.body());
        if is_last(end) {
            return end;
        }
    }
    // All are used up.
    end
}

/// The end that a try would be, were it the last, by the body that the room holds behind it.
fn end_of<H: Hears>(alloc: Global, tried: Tried, body: &[u8]) -> SubmitEnd
    ensures { SaysSo H.says (try_of tried body.now) result }
{
    match tried {
        Tried::NoLine => SubmitEnd::LinkFailed,
        Tried::NotSent => SubmitEnd::LinkFailed,
        Tried::Sent(Err(AnswerFault::SourceFailed)) => SubmitEnd::LinkFailed,
        Tried::Sent(Err(AnswerFault::BadResponse)) => SubmitEnd::NoAnswer,
        Tried::Sent(Err(AnswerFault::EndsInside)) => SubmitEnd::NoAnswer,
        Tried::Sent(Ok(status)) => H::hear(alloc, status, body),
    }
}

/// Whether there is no other try behind this end.
fn is_last(end: SubmitEnd) -> bool
    ensures { result ≡ is_last end }
{
    match end {
        SubmitEnd::Done { .. } | SubmitEnd::Refused { .. } | SubmitEnd::Memory => true,
        SubmitEnd::LinkFailed | SubmitEnd::CannotServe { .. } | SubmitEnd::NoAnswer => false,
    }
}
