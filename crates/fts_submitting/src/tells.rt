//! What a client's command writes to its output: the id of a job, or the object that it was told, and a line feed.
ghost use Rattle.std.specs.Prelude.{◌++◌, codes};
ghost use Rattle.fts_tables.specs.Counts.{CountsFaults};
ghost use Rattle.fts_wire.specs.Response.{Sends};
ghost use Rattle.fts_submitting.specs.Runs.{id_line};

use fts_wire::{Sink, SinkFailed, send_parts};
use uuid::Uuid;

/// Writes the id of a job. Where a write fails, a part of its line was written.
pub fn tell_id<K: Sink>(output: &mut K, job: u128) -> Result<(), SinkFailed>
    ensures sent { Sends (K.held output.old) (K.held output.new) (id_line job) result }
    ensures cause { CountsFaults (K.faults output.old) (K.faults output.new) result }
{
    let mut room = Uuid::encode_buffer();
    let id = Uuid::from_u128(job).hyphenated();
    let id = id.encode_lower(&mut room);
    send_parts(output, &[id.as_bytes(), "\n".as_bytes()])
}

/// Writes a body. Where a write fails, a part of its line was written.
pub fn tell_body<K: Sink>(output: &mut K, body: &[u8]) -> Result<(), SinkFailed>
    ensures sent { Sends (K.held output.old) (K.held output.new) (body.now ++ codes "\n") result }
    ensures cause { CountsFaults (K.faults output.old) (K.faults output.new) result }
{
    send_parts(output, &[body, "\n".as_bytes()])
}
