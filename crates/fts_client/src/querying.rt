//! A query by tries: one request in each, until the job is shown or the client is refused, or the tries are used up.
ghost use Rattle.std.specs.Prelude.{◌≤◌};
ghost use Rattle.fts_client.specs.Links.{read_side, written_side};
ghost use Rattle.fts_client.specs.Ends.{Queried};

use crate::ends::{QueryEnd, SubmitEnd};
use crate::hearing::ToQuery;
use crate::link::Link;
use crate::repeating::repeat;
use crate::requests::query_head;
use fts_wire::AnswerRoom;
use std::alloc::Global;

/// Asks the service on a port of this machine for a job, in at most `tries` tries, each over a line of its own.
/// Where the job is found, the room holds its object.
pub fn query<L: Link>(
    alloc: Global,
    link: &mut L,
    port: u16,
    job: u128,
    tries: u32,
    room: &mut AnswerRoom,
) -> QueryEnd
    requires some { 1 ≤ tries }
    ensures { Queried (read_side L.Line.Source) (written_side L.Line.Sink)
        port job tries result
        (L.link link.old) (L.link link.new) (L.faults link.old) (L.faults link.new) room.old (room.new) }
{
    let head = query_head(port, job);
    let request = [head.as_str().as_bytes()];
    match repeat::<L, ToQuery>(alloc, link, port, &request, tries, room) {
        SubmitEnd::Done { .. } => QueryEnd::Found,
        SubmitEnd::Refused { status } => QueryEnd::Refused { status },
        SubmitEnd::LinkFailed => QueryEnd::LinkFailed,
        SubmitEnd::CannotServe { status } => QueryEnd::CannotServe { status },
        SubmitEnd::NoAnswer => QueryEnd::NoAnswer,
        SubmitEnd::Memory => QueryEnd::Memory,
    }
}
