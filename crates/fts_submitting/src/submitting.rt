//! A submission: the input's document is read whole, and its own id looked at; then it is sent by tries, and the id of its job is written.
ghost use Rattle.std.specs.Prelude.{◌≡◌, ◌≢◌, ◌≤◌, false, IfOk, IfErr};
ghost use Rattle.fts_tables.specs.Counts.{Rose};
ghost use Rattle.fts_client.specs.Links.{read_side, written_side};
ghost use Rattle.fts_submitting.specs.Ends.{client_status};
ghost use Rattle.fts_submitting.specs.Runs.{IsDocument, HasNoDocument, TellsId, IsSubmitRun};

use crate::ClientEnd;
use crate::ends::end_of_submission;
use crate::tells::tell_id;
use fts_client::{Link, SubmitEnd, submit};
use fts_jobdoc::{DocFault, read_sid};
use fts_tables::Memory;
use fts_tables::limits::MAX_CONTENT_BYTES;
use fts_wire::{AnswerRoom, ReadAllFault, Sink, Source, read_all};
use std::alloc::Global;

/// The rule that a document breaks which is too long.
const TOO_LONG: u32 = 45;

/// Submits the input's document to the service on a port of this machine, in at most `tries` tries, and writes the id of its job.
pub fn run_submit<S: Source, K: Sink, L: Link>(
    alloc: Global,
    port: u16,
    tries: u32,
    input: &mut S,
    output: &mut K,
    link: &mut L,
) -> ClientEnd
    requires some { 1 ≤ tries }
    ensures run { IsSubmitRun (read_side L.Line.Source) (written_side L.Line.Sink)
        port tries (S.left input.old) (S.left input.new) (L.link link.old) (L.link link.new) (L.faults link.old) (L.faults link.new)
        (K.held output.old) (K.held output.new) result }
    ensures input { client_status result ≡ 5 → Rose (S.faults input.old) (S.faults input.new) }
    ensures output { client_status result ≡ 6 → Rose (K.faults output.old) (K.faults output.new) }
    ensures link { client_status result ≡ 16 → Rose (L.faults link.old) (L.faults link.new) }
{
    let document = match read_document(alloc, input) {
        Ok(document) => document,
        Err(end) => return end,
    };
    let mut room = match AnswerRoom::new(alloc) {
        Ok(room) => room,
        Err(Memory) => return ClientEnd::NoMemory,
    };
    let end = submit(alloc, link, port, document.as_slice(), tries, &mut room);
    let whole = tell(output, end);
    end_of_submission(end, whole)
}

/// Writes the id of the job that a submission told of, and nothing where it told of none. `false` where a write failed.
fn tell<K: Sink>(output: &mut K, end: SubmitEnd) -> bool
    ensures told { TellsId end (K.held output.old) (K.held output.new) result }
    ensures cause { result ≡ false → Rose (K.faults output.old) (K.faults output.new) }
{
    if let SubmitEnd::Done { job, again: _ } = end {
        tell_id(output, job).is_ok()
    } else {
        true
    }
}

/// The input's document, which has an own id, or how the command ends without one.
fn read_document<S: Source>(alloc: Global, input: &mut S) -> Result<Vec<u8>, ClientEnd>
    ensures read { IfOk result (λ document. IsDocument (S.left input.old) (S.left input.new) document.items) }
    ensures stopped { IfErr result (HasNoDocument (S.left input.old) (S.left input.new)) }
    ensures unread { IfErr result (λ end. client_status end ≡ 5 → Rose (S.faults input.old) (S.faults input.new)) }
    ensures written { IfErr result (λ end. client_status end ≢ 6) }
{
    let document = match read_all(alloc, input, MAX_CONTENT_BYTES) {
        Ok(document) => document,
        Err(ReadAllFault::TooLong) => return Err(ClientEnd::DocumentRule { rule: TOO_LONG }),
        Err(ReadAllFault::SourceFailed) => return Err(ClientEnd::InputFailed),
        Err(ReadAllFault::Memory) => return Err(ClientEnd::NoMemory),
    };
    match read_sid(alloc, document.as_slice()) {
        Ok(_sid) => Ok(document),
        Err(DocFault::Memory) => Err(ClientEnd::NoMemory),
        Err(fault) => Err(ClientEnd::DocumentRule { rule: fault.rule() }),
    }
}
