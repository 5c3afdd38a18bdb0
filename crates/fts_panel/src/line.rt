//! A line: one request, the look that it asks for, and its response, which says close.
//! Keeps: the request is the first in the bytes, and is read by one load; where it asks for a topic the journal is looked at behind that, and what is
//! written is the definition's response by the view which that look left (`serve_line`, clause `served`).
//! What an earlier line left in the room is dropped first.
ghost use Rattle.std.specs.Prelude.{◌≡◌};
ghost use Rattle.fts_wire.specs.Outside.{IsLine};
ghost use Rattle.fts_wire.specs.Answered.{request_data};
ghost use Rattle.fts_panel.specs.Lines.{IsAnswered, IsLineServed, line_at, seen};

use crate::answers::{
    refuse_bytes, refuse_method, refuse_path, write_page, write_topic, write_view,
};
use crate::asked::{Asked, asked_by};
use crate::topics::Question;
use crate::view::{View, look};
use fts_disk::Disk;
use fts_tables::Clock;
use fts_wire::{Request, Room, Sink, Source, WireFault};
use std::alloc::Global;

/// Serves one request of a line, from a view on, and gives the view behind it. Where the bytes end before a request, or are none, the view stays, and no
/// moment is taken of the clock.
pub fn serve_line<D: Disk, C: Clock, L: Source + Sink>(
    alloc: Global,
    view: View<D>,
    clock: &mut C,
    line: &mut L,
    room: &mut Room,
) -> View<D>
    requires line { IsLine
        (record { bytes = L.Source.left; faults = L.Source.faults; reads = L.Source.reads; beside = L.Source.beside })
        (record { bytes = L.Sink.held; faults = L.Sink.faults; reads = λ _. 0; beside = L.Sink.beside }) }
    ensures served { IsLineServed D.state D.faults (seen view (C.moments clock.old)) (seen result (C.moments clock.new))
        (line_at (record { bytes = L.Source.left; faults = L.Source.faults; reads = L.Source.reads; beside = L.Source.beside })
        (record { bytes = L.Sink.held; faults = L.Sink.faults; reads = λ _. 0; beside = L.Sink.beside }) line.old)
        (line_at (record { bytes = L.Source.left; faults = L.Source.faults; reads = L.Source.reads; beside = L.Source.beside })
        (record { bytes = L.Sink.held; faults = L.Sink.faults; reads = λ _. 0; beside = L.Sink.beside }) line.new) }
{
    room.clear();
    match room.load(line) {
        Ok(true) => answer(alloc, view, clock, line, &room.request()),
        Ok(false) => view,
        Err(WireFault::EndsInside) => view,
        Err(WireFault::SourceFailed) => view,
        Err(fault) => {
            refuse_bytes(alloc, line, fault);
            view
        }
    }
}

/// Answers a request, behind the look that it asks for.
fn answer<D: Disk, C: Clock, K: Sink>(
    alloc: Global,
    view: View<D>,
    clock: &mut C,
    sink: &mut K,
    request: &Request<'_>,
) -> View<D>
    ensures answered { IsAnswered D.state D.faults (seen view (C.moments clock.old)) (seen result (C.moments clock.new)) (request_data request.now)
        (K.held sink.old) (K.held sink.new) (K.faults sink.old) (K.faults sink.new) }
    ensures beside { K.beside sink.new ≡ K.beside sink.old }
{
    let head_only = request.method == "HEAD";
    match asked_by(request) {
        Asked::Page => {
            write_page(sink);
            view
        }
        Asked::Metrics => {
            let now = clock.now();
            let seen = look(alloc, view, now);
            write_view(alloc, sink, &seen);
            seen
        }
        Asked::About(topic) => {
            let now = clock.now();
            let view = look(alloc, view, now);
            let question = Question {
                topic,
                path: request.path,
                query: request.query,
            };
            write_topic(alloc, sink, question, now, &view);
            view
        }
        Asked::OtherMethod => {
            refuse_method(alloc, sink, head_only);
            view
        }
        Asked::Nothing => {
            refuse_path(alloc, sink, head_only);
            view
        }
    }
}
