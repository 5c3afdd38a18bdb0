//! The answer to a request: its reply, and what it adds to a keep's list, one entry at most.
//! Order of checks: the route, its method, the job, the file, the document's or the query's rules; so far nothing changes (`plan`). Then the
//! command is tried, with the reply at hand that shows what it leaves (`try_command`).
//! A look at an entry of the journal reads it then, and changes nothing (`look_at_entry`).
//! A reply of 503 stands only where the disk's count of faults rose in the call, one of 500 where there was no memory.
ghost use Rattle.std.specs.Prelude.{◌≡◌, ℕ, List, [], Some, IfOk, IsTrue};
ghost use Rattle.serde_json.specs.Data.{Data};
ghost use Rattle.fts_tables.specs.Tables.{Tables};
ghost use Rattle.fts_record.specs.Proper.{has_priority};
ghost use Rattle.fts_keep.specs.Keeps.{Grows, KeepsImagesSinceAny};
ghost use Rattle.fts_wire.specs.Answered.{request_data};
ghost use Rattle.fts_wire.specs.Response.{has_phrase, has_methods};
ghost use Rattle.fts_tables.specs.Step.{step};
ghost use Rattle.fts_routes.specs.Bodies.{IsReadOf};
ghost use Rattle.fts_routes.specs.Replies.{Answers, DoubtHasCause, Tries, said_to};
ghost use Rattle.fts_routes.specs.Planned.{Comes, IsAsked, IsOfRequests, is_decided, ShowsOutcome, ShowsUnchanged};
ghost use Rattle.fts_routes.specs.Replies.{reply_to_refusal, id_of_job, said};

use crate::bodies::ReadBody;
use crate::entries::look_at_entry;
use crate::named::job_of_number;
use crate::paths::Routes;
use crate::plan::plan;
use crate::planned::Planned;
use crate::replies::{
    disk_failed, duplicate, jobs_full, journal_full, no_file, no_job, no_memory, no_storage,
    not_banned, or_no_memory, rows_full,
};
use fts_desk::Desk;
use fts_disk::Disk;
use fts_keep::{Keep, KeepFault};
use fts_tables::{Command, Memory, Refusal};
use fts_wire::{Reply, Request};
use std::alloc::Global;

/// Answers a request at a moment, in seconds since 1970, as a writer. At most one command is applied, as an entry of this writer.
/// 503 comes only where the disk's count of faults rose in this call, 500 only for want of memory, and both add nothing.
pub fn answer<D: Disk>(
    alloc: Global,
    routes: &Routes,
    keep: &mut Keep<D>,
    writer: u32,
    request: &Request<'_>,
    now: u64,
) -> Reply
    ensures answers { Answers D.state D.faults keep.old keep.new writer (request_data request.now) now result }
    ensures grows { Grows D.state D.faults writer keep.old keep.new }
    // Since any opening of the list each image is a beginning of it, with one entry more at most.
    ensures images { KeepsImagesSinceAny D.state keep.old keep.new }
    ensures doubt { DoubtHasCause D.state D.faults keep.old keep.new }
    ensures phrase { IsTrue (has_phrase result.status) }
    ensures methods { IsTrue (has_methods result.status result.allow) }
    // What is said as it is defined is never 500 or 503: these two have their causes outside of the tables.
    ensures decided { (bodies : List (List ℕ))
        → IsTrue (is_decided (said keep.old.tables bodies keep.old.used writer (request_data request.now) now).reply.status) }
{
    answer_read(alloc, routes, keep, writer, request, ReadBody::Nothing, now)
}

/// The same, where the request's body may have been read before (`read_body`).
pub fn answer_read<D: Disk>(
    alloc: Global,
    routes: &Routes,
    keep: &mut Keep<D>,
    writer: u32,
    request: &Request<'_>,
    read: ReadBody,
    now: u64,
) -> Reply
    requires read { IsReadOf request.now.body.now read }
    ensures answers { Answers D.state D.faults keep.old keep.new writer (request_data request.now) now result }
    ensures grows { Grows D.state D.faults writer keep.old keep.new }
    ensures images { KeepsImagesSinceAny D.state keep.old keep.new }
    ensures doubt { DoubtHasCause D.state D.faults keep.old keep.new }
    ensures phrase { IsTrue (has_phrase result.status) }
    ensures methods { IsTrue (has_methods result.status result.allow) }
    ensures decided { (bodies : List (List ℕ))
        → IsTrue (is_decided (said keep.old.tables bodies keep.old.used writer (request_data request.now) now).reply.status) }
{
    match plan(alloc, routes, keep.desk(), request, read, now) {
        Ok(Planned::Replies { reply }) => reply,
        Ok(Planned::Looks { number }) => look_at_entry(alloc, keep, number),
        Ok(Planned::Tries { command, reply }) => try_command(alloc, keep, writer, command, reply),
        Err(Memory) => no_memory(alloc),
    }
}

/// Tries a command, with the reply that shows what it leaves, or what it doesn't change.
fn try_command<D: Disk>(
    alloc: Global,
    keep: &mut Keep<D>,
    writer: u32,
    command: Command,
    reply: Reply,
) -> Reply
    requires priority { IsTrue (has_priority command) }
    requires asked { IsAsked command }
    ensures comes { (shown : Tables → Data) → ShowsOutcome shown keep.old.tables reply (step keep.old.tables command)
        → Comes D.state D.faults keep.old keep.new (said_to keep.old.tables [] keep.old.used writer (Tries command shown)) result }
    ensures grows { Grows D.state D.faults writer keep.old keep.new }
    ensures images { KeepsImagesSinceAny D.state keep.old keep.new }
    ensures doubt { DoubtHasCause D.state D.faults keep.old keep.new }
{
    match keep.apply(writer, command) {
        Ok(_) => reply,
        Err(KeepFault::Rule(refusal)) => or_no_memory(
            alloc,
            refused(alloc, keep.desk(), refusal, reply),
        ),
        Err(KeepFault::DiskFailed) => or_no_memory(alloc, disk_failed(alloc)),
        Err(KeepFault::JournalFull { used: _ }) => or_no_memory(alloc, journal_full(alloc)),
        Err(KeepFault::Memory) => no_memory(alloc),
        Err(KeepFault::Damaged { offset: _ }) => unreachable!(),
    }
}

/// The reply to a command that the machine refuses; `unchanged` is that to one that would change nothing.
fn refused(alloc: Global, desk: &Desk, refusal: Refusal, unchanged: Reply) -> Result<Reply, Memory>
    requires { IsOfRequests refusal }
    ensures { IfOk result (λ reply. (shown : Tables → Data) → ShowsUnchanged shown desk.now.tables unchanged refusal
        → reply ≡ reply_to_refusal desk.now.tables shown refusal) }
{
    match refusal {
        Refusal::NoJob => no_job(alloc),
        Refusal::NoFile => no_file(alloc),
        Refusal::Duplicate { job } => duplicate(alloc, id_of_job(desk, job)),
        Refusal::JobsFull { .. } => jobs_full(alloc),
        Refusal::RowsFull { .. } => rows_full(alloc),
        Refusal::Unchanged { .. } => Ok(unchanged),
        Refusal::NoStorage => no_storage(alloc),
        Refusal::NotBanned => not_banned(alloc),
        // Claims, reports and expiries alone are refused so.
        Refusal::Idle | Refusal::Stale { .. } => unreachable!(),
    }
}

/// The id of the job of a number, and 0 where there is none.
fn id_of_job(desk: &Desk, number: u32) -> u128
    ensures { result ≡ id_of_job desk.now.tables number }
{
    match job_of_number(desk, number) {
        Some(job) => job.id,
        None => 0,
    }
}
