//! A submission by tries: one request in each, until the client is told of its job or is refused, or the tries are used up.
//! The document is to have an own id (`read_sid` of fts_jobdoc), so that tries make one job: `worlds.rt` says why.
ghost use Rattle.std.specs.Prelude.{◌≤◌};
ghost use Rattle.fts_client.specs.Links.{read_side, written_side};
ghost use Rattle.fts_client.specs.Ends.{Submitted};

use crate::ends::SubmitEnd;
use crate::hearing::ToSubmission;
use crate::link::Link;
use crate::repeating::repeat;
use crate::requests::submission_head;
use fts_wire::AnswerRoom;
use std::alloc::Global;

/// Submits a document to the service on a port of this machine, in at most `tries` tries, each over a line of its own.
pub fn submit<L: Link>(
    alloc: Global,
    link: &mut L,
    port: u16,
    document: &[u8],
    tries: u32,
    room: &mut AnswerRoom,
) -> SubmitEnd
    requires some { 1 ≤ tries }
    ensures { Submitted (read_side L.Line.Source) (written_side L.Line.Sink)
        port document.now tries result
        (L.link link.old) (L.link link.new) (L.faults link.old) (L.faults link.new) room.old (room.new) }
{
    let head = submission_head(port, document.len());
    let request = [head.as_str().as_bytes(), document];
    repeat::<L, ToSubmission>(alloc, link, port, &request, tries, room)
}
