//! A connection over a pass of the lock: its requests, one after another, each answered in one turn of the lock.
//! Keeps, from request to request: what was written are the responses so far, each reply is the machine's over the list before its turn, with the
//! pass's number as writer, and the turns stand in the order of the requests (`IsLineServed` of `specs/Lanes.antt`).
//! Order of a request: it is read, the clock is asked, its document is read, it is answered in a turn, it is counted where it may have changed
//! something, its response is written. What an earlier line left in the room is dropped first. Nothing is read behind a request that says close, nor
//! behind the millionth, nor behind a load that found no request.
ghost use Rattle.std.specs.Prelude.{◌≡◌, IsTrue};
ghost use Rattle.fts_tables.specs.Counts.{Rose};
ghost use Rattle.fts_turnstile.specs.Passes.{IsOf, IsSame};
ghost use Rattle.fts_wire.specs.Outside.{IsLine};
ghost use Rattle.fts_wire.specs.Response.{has_phrase, has_methods};
ghost use Rattle.fts_routes.specs.Bodies.{IsReadOf};
ghost use Rattle.fts_session.specs.Connections.{reading_in};
ghost use Rattle.fts_service.specs.Lanes.{AnsweredInTurn, IsLineServed, standing};
ghost use Rattle.fts_service.specs.Within.{AnswersIn};

use fts_disk::Disk;
use fts_routes::{ReadBody, Routes, answer_read, read_body};
use fts_session::{LineEnd, refuse, respond};
use fts_shop::Shop;
use fts_tables::Clock;
use fts_tables::limits::MAX_REQUESTS;
use fts_turnstile::{Pass, Turnstile};
use fts_wire::{Reply, Request, Room, Sink, SinkFailed, Source, WireFault};
use std::alloc::Global;
use std::sync::Wait;

/// Serves the requests of a line, each in one turn of the pass, up to the end of its bytes, a request that says close, a fault, or 1,000,000
/// requests. 503 is answered only where that request's turn is one with a fault of the disk. It waits for its turns.
pub fn serve_connection<D: Disk, L: Source + Sink, C: Clock, R: Wait>(
    rt: &R,
    alloc: Global,
    routes: &Routes,
    shop: &Turnstile<Shop<D>>,
    pass: &mut Pass<Shop<D>>,
    line: &mut L,
    clock: &mut C,
    room: &mut Room,
) -> LineEnd
    requires own { IsOf shop.now pass.old }
    requires line { IsLine
        (record { bytes = L.Source.left; faults = L.Source.faults; reads = L.Source.reads; beside = L.Source.beside })
        (record { bytes = L.Sink.held; faults = L.Sink.faults; reads = λ _. 0; beside = L.Sink.beside }) }
    ensures same { IsSame pass.old pass.new }
    ensures served { IsLineServed (standing pass.old (C.moments clock.old)) (standing pass.new (C.moments clock.new))
        (reading_in L.Source line.old) (reading_in L.Source line.new)
        (L.Sink.held line.old) (L.Sink.held line.new) result }
    ensures input { result ≡ LineEnd.SourceFailed → Rose (L.Source.faults line.old) (L.Source.faults line.new) }
    ensures output { result ≡ LineEnd.SinkFailed → Rose (L.Sink.faults line.old) (L.Sink.faults line.new) }
{
    room.clear();
    for done in 0..MAX_REQUESTS {
        match room.load(line) {
            Ok(true) => {}
            Ok(false) => return LineEnd::Closed,
            Err(WireFault::EndsInside) => return LineEnd::EndsInside,
            Err(WireFault::SourceFailed) => return LineEnd::SourceFailed,
            Err(fault) => return refuse(alloc, line, fault),
        }
        let now = clock.now();
        let reply = answer_in_turn(rt, alloc, routes, shop, pass, room, now);
        let request = room.request();
        count_change(shop, &request);
        match respond(line, &request, done, &reply) {
            Ok(()) => {}
            Err(SinkFailed) => return LineEnd::SinkFailed,
        }
        if request.close {
            return LineEnd::Closed;
        }
    }
    LineEnd::Many
}

/// Counts a request that may have changed something, so that idle workers look.
fn count_change<D: Disk>(shop: &Turnstile<Shop<D>>, request: &Request<'_>) {
    if request.method != "GET" {
        shop.stir();
    }
}

/// Answers the loaded request at a moment, in one turn of the pass, which is the writer of its command. Its document is read before the turn.
fn answer_in_turn<D: Disk, R: Wait>(
    rt: &R,
    alloc: Global,
    routes: &Routes,
    shop: &Turnstile<Shop<D>>,
    pass: &mut Pass<Shop<D>>,
    room: &Room,
    now: u64,
) -> Reply
    requires own { IsOf shop.now pass.old }
    ensures answered { AnsweredInTurn pass.old pass.new room.now.request now result }
    ensures phrase { IsTrue (has_phrase result.status) }
    ensures methods { IsTrue (has_methods result.status result.allow) }
{
    let writer = pass.number();
    let read = read_body(alloc, routes, &room.request());
    shop.with_turn(
        rt,
        pass,
        |shop: &mut Shop<D>| answer_in(alloc, routes, shop, writer, room, read, now),
    )
}

/// Answers the loaded request of a writer within a turn, by what was read of its body before.
fn answer_in<D: Disk>(
    alloc: Global,
    routes: &Routes,
    shop: &mut Shop<D>,
    writer: u32,
    room: &Room,
    read: ReadBody,
    now: u64,
) -> Reply
    requires { IsReadOf room.now.request.body read }
    ensures { AnswersIn D.Disk writer room.now.request now shop.old shop.new result }
{
    let keep = shop.keep();
    let _desk = keep.desk();
    answer_read(alloc, routes, keep, writer, &room.request(), read, now)
}
