//! The responses of a monitor: the page, the topics of a view, and what is refused. Each says close.
//! Keeps: what is written is the definition's response, or that for want of memory; a part of it, where the sink counted a failure (`Says`).
//! A client that is gone is no fault of the monitor: how a write ended is counted by the sink, and not told.
//! Form of the metrics: Prometheus' text form, version 0.0.4.
ghost use Rattle.std.specs.Prelude.{◌≡◌, ◌++◌, false, IsSome, option_copied};
ghost use Rattle.fts_tables.specs.Counts.{CountsFaults};
ghost use Rattle.fts_wire.specs.Faults.{status_of};
ghost use Rattle.fts_wire.specs.Response.{Sends};
ghost use Rattle.fts_panel.specs.Responses.{Says, IsRefused, text_head, text_response, page_head, page_response, damage_text, metrics_response, refusal_response, reply_to, no_route, no_method, metrics_of_view, reply_of_view};

use crate::refusals::{no_memory, no_method, no_route, refusal, reply_to};
use crate::topics::{Question, reply_of_view};
use crate::view::View;
use arrayvec::ArrayString;
use fts_disk::Disk;
use fts_metrics::metrics;
use fts_page::{PAGE, POLICY};
use fts_tables::Memory;
use fts_watch::{Monitor, MonitorFault};
use fts_wire::{Allow, Sink, SinkFailed, WireFault, send_parts, write_response};
use itoa::Buffer;
use std::alloc::Global;

/// More than the longest head of metrics.
const HEAD_BYTES: usize = 200;

/// More than the head of the page.
const PAGE_HEAD_BYTES: usize = 600;

/// What is told behind the metrics of a journal that isn't damaged.
const NOT_DAMAGED: &str =
    "# HELP fts_journal_damaged Whether the journal is damaged behind what is counted.\n# TYPE fts_journal_damaged gauge\nfts_journal_damaged 0\n";

/// What is told behind the metrics of what stands before damage.
const DAMAGED: &str =
    "# HELP fts_journal_damaged Whether the journal is damaged behind what is counted.\n# TYPE fts_journal_damaged gauge\nfts_journal_damaged 1\n";

/// Writes the page.
pub fn write_page<K: Sink>(sink: &mut K)
    ensures says { Says (K.held sink.old) (K.held sink.new) (K.faults sink.old) (K.faults sink.new) page_response }
    ensures beside { K.beside sink.new ≡ K.beside sink.old }
{
    let head = page_head(PAGE.len());
    let _sent = send_parts(sink, &[head.as_str().as_bytes(), PAGE.as_bytes()]);
}

/// The head of a page of this length.
fn page_head(n: usize) -> ArrayString<PAGE_HEAD_BYTES>
    ensures { result.bytes ≡ page_head n }
{
    let mut head = ArrayString::new();
    let mut digits = Buffer::new();
    head.push_str(
        "HTTP/1.1 200 OK\r\nContent-Type: text/html; charset=utf-8\r\nContent-Security-Policy: ",
    );
    head.push_str(POLICY);
    head.push_str(
        "\r\nX-Content-Type-Options: nosniff\r\nReferrer-Policy: no-referrer\r\nCache-Control: no-store\r\nContent-Length: ",
    );
    head.push_str(digits.format(n));
    head.push_str("\r\nConnection: close\r\n\r\n");
    head
}

/// Writes the metrics of a view, or why there are none.
pub fn write_view<D: Disk, K: Sink>(alloc: Global, sink: &mut K, view: &View<D>)
    ensures says { Says (K.held sink.old) (K.held sink.new) (K.faults sink.old) (K.faults sink.new) (metrics_of_view view.now) }
    ensures beside { K.beside sink.new ≡ K.beside sink.old }
{
    match view {
        View::Shown {
            monitor,
            began: _,
            damage,
        } => write_metrics(alloc, sink, monitor, damage.is_some()),
        View::Unread {
            monitor: _,
            began: _,
            fault,
        } => write_fault(alloc, sink, *fault),
        View::Shut { disk: _, fault } => write_fault(alloc, sink, *fault),
    }
}

/// Writes the reply to what is asked about a topic at a moment, by a view.
pub fn write_topic<D: Disk, K: Sink>(
    alloc: Global,
    sink: &mut K,
    question: Question<'_>,
    now: u64,
    view: &View<D>,
)
    ensures says { Says (K.held sink.old) (K.held sink.new) (K.faults sink.old) (K.faults sink.new)
        (refusal_response (reply_of_view question.entry.topic question.entry.path.now (option_copied question.entry.query) now view.now) false) }
    ensures beside { K.beside sink.new ≡ K.beside sink.old }
{
    let reply = reply_of_view(alloc, question, now, view);
    let _sent = write_response(sink, false, true, &reply);
}

/// Writes the metrics of what a monitor has folded.
fn write_metrics<D: Disk, K: Sink>(
    alloc: Global,
    sink: &mut K,
    monitor: &Monitor<D>,
    is_damaged: bool,
)
    ensures says { Says (K.held sink.old) (K.held sink.new) (K.faults sink.old) (K.faults sink.new)
        (metrics_response monitor.now.tables monitor.now.chronicle monitor.now.used is_damaged) }
    ensures beside { K.beside sink.new ≡ K.beside sink.old }
{
    match metrics(alloc, monitor.desk(), monitor.chronicle(), monitor.used()) {
        Ok(text) => {
            let _sent = write_text(sink, text.as_slice(), damage_text(is_damaged));
        }
        Err(Memory) => {
            let _sent = write_response(sink, false, true, &no_memory(alloc));
        }
    }
}

/// What is told of damage.
fn damage_text(is_damaged: bool) -> &'static str
    ensures { result.now ≡ damage_text is_damaged }
{
    if is_damaged { DAMAGED } else { NOT_DAMAGED }
}

/// Writes the response that is a text, and another one behind it.
fn write_text<K: Sink>(sink: &mut K, text: &[u8], behind: &str) -> Result<(), SinkFailed>
    ensures sent { Sends (K.held sink.old) (K.held sink.new) (text_response (text.now ++ behind.now)) result }
    ensures cause { CountsFaults (K.faults sink.old) (K.faults sink.new) result }
    ensures beside { K.beside sink.new ≡ K.beside sink.old }
{
    let head = text_head(text.len() + behind.len());
    send_parts(sink, &[head.as_str().as_bytes(), text, behind.as_bytes()])
}

/// The head of a text of this length.
fn text_head(n: usize) -> ArrayString<HEAD_BYTES>
    ensures { result.bytes ≡ text_head n }
{
    let mut head = ArrayString::new();
    let mut digits = Buffer::new();
    head.push_str("HTTP/1.1 200 OK\r\nContent-Type: text/plain; version=0.0.4\r\nContent-Length: ");
    head.push_str(digits.format(n));
    head.push_str("\r\nConnection: close\r\n\r\n");
    head
}

/// Writes why nothing is shown.
fn write_fault<K: Sink>(alloc: Global, sink: &mut K, fault: MonitorFault)
    ensures says { Says (K.held sink.old) (K.held sink.new) (K.faults sink.old) (K.faults sink.new) (refusal_response (reply_to fault) false) }
    ensures beside { K.beside sink.new ≡ K.beside sink.old }
{
    let _sent = write_response(sink, false, true, &reply_to(alloc, fault));
}

/// Refuses a request for a path that isn't there.
pub fn refuse_path<K: Sink>(alloc: Global, sink: &mut K, head_only: bool)
    ensures says { Says (K.held sink.old) (K.held sink.new) (K.faults sink.old) (K.faults sink.new) (refusal_response no_route head_only) }
    ensures beside { K.beside sink.new ≡ K.beside sink.old }
{
    let _sent = write_response(sink, head_only, true, &no_route(alloc));
}

/// Refuses a request by a method that what it names hasn't.
pub fn refuse_method<K: Sink>(alloc: Global, sink: &mut K, head_only: bool)
    ensures says { Says (K.held sink.old) (K.held sink.new) (K.faults sink.old) (K.faults sink.new) (refusal_response no_method head_only) }
    ensures beside { K.beside sink.new ≡ K.beside sink.old }
{
    let _sent = write_response(sink, head_only, true, &no_method(alloc));
}

/// Refuses what came for a fault of the framing.
pub fn refuse_bytes<K: Sink>(alloc: Global, sink: &mut K, fault: WireFault)
    requires answered { IsSome (status_of fault) }
    ensures refused { IsRefused fault (K.held sink.old) (K.held sink.new) (K.faults sink.old) (K.faults sink.new) }
    ensures beside { K.beside sink.new ≡ K.beside sink.old }
{
    let (Some(status), Some(rule), Some(message)) = (fault.status(), fault.rule(), fault.message())
    else {
        unreachable!();
    };
    let reply = refusal(alloc, message, rule, status, Allow::None);
    let _sent = write_response(sink, false, true, &reply);
}
