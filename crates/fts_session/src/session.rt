//! A session: the requests of one connection, answered one after another over one keep, each followed by a round of copies; and the last rounds.
//! Keeps, from request to request: the tables are those of the list so far, what was written are its responses, and each request was read by one
//! load (`Works` of `specs/Sessions.antt`). Order of a request: it is read, the clock is asked, it is answered, its response is written, a round is
//! made. Nothing is read behind a request that says close, nor behind the millionth, whose response says so, nor behind a load that found no
//! request. A fault of the framing is answered once, and no request behind it; a refusal of the keep is answered, a round's fault is tried again
//! after the next request, and the session goes on.
ghost use Rattle.std.specs.Prelude.{◌≡◌, ◌<◌};
ghost use Rattle.fts_tables.specs.Counts.{Rose};
ghost use Rattle.fts_tables.specs.declared.limits.TheConstants.{JOURNAL_END};
ghost use Rattle.fts_workers.specs.Rounds.{IsRound};
ghost use Rattle.fts_session.specs.Connections.{IsConnection, reading_in};
ghost use Rattle.fts_session.specs.Sessions.{AnswersNext, FollowedByRound, IsSession, LastRounds, Works, IsReady, thread, thread_at};

use crate::ends::{LineEnd, SessionEnd};
use crate::responding::{refuse, respond};
use fts_disk::Disk;
use fts_keep::Keep;
use fts_routes::{Routes, answer};
use fts_store::Store;
use fts_tables::limits::MAX_REQUESTS;
use fts_tables::{Clock, Words};
use fts_wire::{Room, Sink, SinkFailed, Source, WireFault};
use fts_workers::{Bench, RoundEnd, requests_leave_the_bench, round};
use std::alloc::Global;

/// What one thread works with: the keep, the files that it holds, and how many it has claimed.
pub struct Working<D: Disk> {
    pub keep: Keep<D>,
    pub bench: Bench,
    pub claims: u32,
}

/// Answers the requests of a connection as writer 0, with a round behind each, and then makes rounds until one is not busy.
pub fn run_session<D: Disk, S: Source, K: Sink, E: Store, C: Clock, W: Words>(
    alloc: Global,
    routes: &Routes,
    working: &mut Working<D>,
    room: &mut Room,
    input: &mut S,
    output: &mut K,
    clock: &mut C,
    store: &mut E,
    words: &mut W,
) -> SessionEnd
    requires ready { IsReady (thread_at C.Clock W.Words working.old store.old clock.old words.old) }
    // Whatever list keep and bench are over, the session goes on from it.
    ensures session { Works D.Disk E.Store
        (λ own before after. IsSession own room.old.kept working.old.bench.places (reading_in S.Source input.old) (reading_in S.Source input.new)
        (K.held output.old) (K.held output.new) result before after)
        (thread_at C.Clock W.Words working.old store.old clock.old words.old)
        (thread_at C.Clock W.Words working.new store.new clock.new words.new) }
    ensures input { result.line ≡ LineEnd.SourceFailed → Rose (S.faults input.old) (S.faults input.new) }
    ensures output { result.line ≡ LineEnd.SinkFailed → Rose (K.faults output.old) (K.faults output.new) }
    ensures disk { result.last ≡ RoundEnd.DiskFailed → Rose (D.faults working.old.keep.disk) (D.faults working.new.keep.disk) }
{
    let line = answer_requests(
        alloc, routes, working, room, input, output, clock, store, words,
    );
    let last = make_last_rounds(working, clock, store, words);
    SessionEnd { line, last }
}

/// Answers the requests of a connection, with a round behind each.
fn answer_requests<D: Disk, S: Source, K: Sink, E: Store, C: Clock, W: Words>(
    alloc: Global,
    routes: &Routes,
    working: &mut Working<D>,
    room: &mut Room,
    input: &mut S,
    output: &mut K,
    clock: &mut C,
    store: &mut E,
    words: &mut W,
) -> LineEnd
    requires ready { IsReady (thread_at C.Clock W.Words working.old store.old clock.old words.old) }
    ensures works { Works D.Disk E.Store
        (λ own before after. IsConnection (AnswersNext own) (FollowedByRound working.old.bench.places) room.old.kept before after
        (reading_in S.Source input.old) (reading_in S.Source input.new) (K.held output.old) (K.held output.new) result)
        (thread_at C.Clock W.Words working.old store.old clock.old words.old)
        (thread_at C.Clock W.Words working.new store.new clock.new words.new) }
    ensures input { result ≡ LineEnd.SourceFailed → Rose (S.faults input.old) (S.faults input.new) }
    ensures output { result ≡ LineEnd.SinkFailed → Rose (K.faults output.old) (K.faults output.new) }
{
    requests_leave_the_bench();
    // A keep has settings in force, and each image of its disk is one of its list.
    working.keep.desk();
    for done in 0..MAX_REQUESTS {
        match room.load(input) {
            Ok(true) => {}
            Ok(false) => return LineEnd::Closed,
            Err(WireFault::EndsInside) => return LineEnd::EndsInside,
            Err(WireFault::SourceFailed) => return LineEnd::SourceFailed,
            Err(fault) => return refuse(alloc, output, fault),
        }
        let now = clock.now();
        let request = room.request();
        let reply = answer(alloc, routes, &mut working.keep, 0, &request, now);
        match respond(output, &request, done, &reply) {
            Ok(()) => {}
            Err(SinkFailed) => return LineEnd::SinkFailed,
        }
        make_round(working, clock, store, words);
        if request.close {
            return LineEnd::Closed;
        }
    }
    LineEnd::Many
}

/// Makes rounds until one is not busy.
fn make_last_rounds<D: Disk, E: Store, C: Clock, W: Words>(
    working: &mut Working<D>,
    clock: &mut C,
    store: &mut E,
    words: &mut W,
) -> RoundEnd
    requires ready { IsReady (thread_at C.Clock W.Words working.old store.old clock.old words.old) }
    ensures works { Works D.Disk E.Store (λ own before after. LastRounds working.old.bench.places result before after)
        (thread_at C.Clock W.Words working.old store.old clock.old words.old)
        (thread_at C.Clock W.Words working.new store.new clock.new words.new) }
    ensures disk { result ≡ RoundEnd.DiskFailed → Rose (D.faults working.old.keep.disk) (D.faults working.new.keep.disk) }
{
    // What is used of the journal stays below its end, and a busy round uses more of it.
    working.keep.desk();
    'rounds: loop {
        match make_round(working, clock, store, words) {
            RoundEnd::Busy { held: _ } => {}
            RoundEnd::Clear => return RoundEnd::Clear,
            RoundEnd::DiskFailed => return RoundEnd::DiskFailed,
            RoundEnd::JournalFull { used } => return RoundEnd::JournalFull { used },
            RoundEnd::Memory => return RoundEnd::Memory,
        }
    }
}

/// Makes one round, and counts the files that it claims: those that the bench newly holds.
fn make_round<D: Disk, E: Store, C: Clock, W: Words>(
    working: &mut Working<D>,
    clock: &mut C,
    store: &mut E,
    words: &mut W,
) -> RoundEnd
    requires ready { IsReady (thread_at C.Clock W.Words working.old store.old clock.old words.old) }
    ensures works { Works D.Disk E.Store (λ own before after. IsRound working.old.bench.places before result after)
        (thread_at C.Clock W.Words working.old store.old clock.old words.old)
        (thread_at C.Clock W.Words working.new store.new clock.new words.new) }
    ensures disk { result ≡ RoundEnd.DiskFailed → Rose (D.faults working.old.keep.disk) (D.faults working.new.keep.disk) }
    ensures used { working.new.keep.used < JOURNAL_END }
{
    let end = round(&mut working.keep, &mut working.bench, store, clock, words);
    // A keep has no more commands than its journal has room for, and no more claims than commands.
    working.keep.desk();
    working.claims += working.bench.newly_held();
    end
}
