//! The responses of a connection: that to a request, and the one that refuses what came for a fault of the framing.
//! Keeps: the response to a request says close where the request does, and where it is the last that a connection may have (`respond`); what is
//! refused has a response with the fault's status, or one for want of memory, and it is the last (`refuse`). Neither reads what it is written to.
ghost use Rattle.std.specs.Prelude.{◌≡◌, ◌≤◌, ◌<◌, IsSome, IsTrue};
ghost use Rattle.fts_tables.specs.Counts.{Rose, CountsFaults};
ghost use Rattle.fts_wire.specs.Answered.{request_data};
ghost use Rattle.fts_wire.specs.Faults.{status_of};
ghost use Rattle.fts_wire.specs.Response.{has_phrase, has_methods, Sends};
ghost use Rattle.fts_session.specs.Connections.{IsRefused, response_to};

use crate::ends::LineEnd;
use fts_routes::refusal_reply;
use fts_tables::limits::MAX_REQUESTS;
use fts_wire::{Reply, Request, Sink, SinkFailed, WireFault, write_response};
use std::alloc::Global;

/// Writes the response to a request that has so many before it.
pub fn respond<K: Sink>(
    output: &mut K,
    request: &Request<'_>,
    before: u32,
    reply: &Reply,
) -> Result<(), SinkFailed>
    requires before { before < MAX_REQUESTS }
    requires phrase { IsTrue (has_phrase reply.now.status) }
    requires methods { IsTrue (has_methods reply.now.status reply.now.allow) }
    ensures sent { Sends (K.held output.old) (K.held output.new)
        (response_to before (record { request = request_data request.now; reply = reply.now })) result }
    ensures cause { CountsFaults (K.faults output.old) (K.faults output.new) result }
    ensures beside { K.beside output.new ≡ K.beside output.old }
{
    let is_last = request.close || before + 1 == MAX_REQUESTS;
    write_response(output, request.method == "HEAD", is_last, reply)
}

/// Refuses what came for a fault of the framing, by the last response of its connection.
pub fn refuse<K: Sink>(alloc: Global, output: &mut K, fault: WireFault) -> LineEnd
    requires answered { IsSome (status_of fault) }
    ensures refused { IsRefused (K.held output.old) (K.held output.new) fault result }
    ensures output { result ≡ LineEnd.SinkFailed → Rose (K.faults output.old) (K.faults output.new) }
    ensures keeps { K.faults output.old ≤ K.faults output.new }
    ensures beside { K.beside output.new ≡ K.beside output.old }
{
    let (Some(status), Some(rule), Some(message)) = (fault.status(), fault.rule(), fault.message())
    else {
        unreachable!();
    };
    let reply = refusal_reply(alloc, message, u32::from(rule), status);
    match write_response(output, false, true, &reply) {
        Ok(()) => LineEnd::Refused { status },
        Err(SinkFailed) => LineEnd::SinkFailed,
    }
}
