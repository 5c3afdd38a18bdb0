//! A query: the service is asked for a job by tries, and the job's object is written.
ghost use Rattle.std.specs.Prelude.{◌≡◌, ◌≢◌, ◌≤◌, false};
ghost use Rattle.fts_tables.specs.Counts.{Rose};
ghost use Rattle.fts_client.specs.Links.{read_side, written_side};
ghost use Rattle.fts_submitting.specs.Ends.{client_status};
ghost use Rattle.fts_submitting.specs.Runs.{TellsBody, IsQueryRun};

use crate::ClientEnd;
use crate::ends::end_of_query;
use crate::tells::tell_body;
use fts_client::{Link, QueryEnd, query};
use fts_tables::Memory;
use fts_wire::{AnswerRoom, Sink};
use std::alloc::Global;

/// Asks the service on a port of this machine for a job, in at most `tries` tries, and writes its object.
pub fn run_query<K: Sink, L: Link>(
    alloc: Global,
    port: u16,
    job: u128,
    tries: u32,
    output: &mut K,
    link: &mut L,
) -> ClientEnd
    requires some { 1 ≤ tries }
    ensures run { IsQueryRun (read_side L.Line.Source) (written_side L.Line.Sink)
        port job tries (L.link link.old) (L.link link.new) (L.faults link.old) (L.faults link.new) (K.held output.old) (K.held output.new) result }
    ensures input { client_status result ≢ 5 }
    ensures output { client_status result ≡ 6 → Rose (K.faults output.old) (K.faults output.new) }
    ensures link { client_status result ≡ 16 → Rose (L.faults link.old) (L.faults link.new) }
{
    let mut room = match AnswerRoom::new(alloc) {
        Ok(room) => room,
        Err(Memory) => return ClientEnd::NoMemory,
    };
    let end = query(alloc, link, port, job, tries, &mut room);
    let whole = tell(output, room.body(), end);
    end_of_query(end, whole)
}

/// Writes the object that a query found, and nothing where it found none. `false` where a write failed.
fn tell<K: Sink>(output: &mut K, body: &[u8], end: QueryEnd) -> bool
    ensures told { TellsBody body.now end (K.held output.old) (K.held output.new) result }
    ensures cause { result ≡ false → Rose (K.faults output.old) (K.faults output.new) }
{
    if let QueryEnd::Found = end {
        tell_body(output, body).is_ok()
    } else {
        true
    }
}
