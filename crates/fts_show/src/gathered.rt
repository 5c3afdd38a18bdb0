//! Lines that wait in a room of a fixed size, and are sent together, so that a sink is called once for some hundred of them.
//! Keeps: what was sent, and behind it what waits, is all that was gathered (`line`, clause `gathers`; `specs/Gathered.antt`).
//! Order: a line that no longer fits is put into the room once all that waits was sent, so no line is sent in two pieces.
ghost use Rattle.std.specs.Prelude.{◌≡◌, [], ◌++◌, map, OnOk, IsTrue, IsFalse};
ghost use Rattle.std.specs.List.{concat};
ghost use Rattle.fts_tables.specs.Counts.{CountsFaults};
ghost use Rattle.fts_wire.specs.Response.{Sends};
ghost use Rattle.fts_show.specs.Gathered.{Gathers};

use arrayvec::ArrayVec;
use fts_wire::{Sink, SinkFailed, send_all, send_parts};
use std::marker::Model;

/// So many bytes are sent together, in one piece at most. A line has fewer: two endpoints and two paths of `MAX_NAME_BYTES` each, with their words.
pub const GATHERED_BYTES: usize = 65_536;

/// The lines that wait, as one text.
#[derive(Drop)]
pub struct Gathered {
    text: ArrayVec<u8, GATHERED_BYTES>,
}

impl Model for Gathered {
    ghost use Rattle.std.specs.Prelude.{List, ℕ};

    ghost Value = { List ℕ };

    ghost view = { λ gathered. gathered.text.items };
}

impl Gathered {
    /// No line waits.
    pub fn new() -> Gathered
        ensures { result ≡ [] }
    {
        Gathered {
            text: ArrayVec::new(),
        }
    }

    /// Gathers a line of these parts: all that waits is sent first where the line doesn't fit behind it. One that fits no room is sent by its parts.
    /// Where a write fails, a part of what waited and of the line was sent.
    pub fn line<K: Sink>(&mut self, output: &mut K, parts: &[&[u8]]) -> Result<(), SinkFailed>
        ensures gathers { Gathers (K.held output.old) (K.held output.new) self.old self.new (concat (map (λ part. part.now) parts.now)) result }
        ensures cause { CountsFaults (K.faults output.old) (K.faults output.new) result }
    {
        if put(&mut self.text, parts) {
            return Ok(());
        }
        match self.send(output) {
            Ok(()) => {}
            Err(fault) => return Err(fault),
        }
        if put(&mut self.text, parts) {
            return Ok(());
        }
        send_parts(output, parts)
    }

    /// Sends all that waits. Where a write fails, a part of it was sent.
    pub fn send<K: Sink>(&mut self, output: &mut K) -> Result<(), SinkFailed>
        ensures sent { Sends (K.held output.old) (K.held output.new) self.old result }
        ensures empty { OnOk result (self.new ≡ []) }
        ensures cause { CountsFaults (K.faults output.old) (K.faults output.new) result }
    {
        match send_all(output, self.text.as_slice()) {
            Ok(()) => {}
            Err(fault) => return Err(fault),
        }
        self.text.clear();
        Ok(())
    }
}

/// Puts the parts of a line behind a text, or none of them where they don't fit its room.
fn put(text: &mut ArrayVec<u8, GATHERED_BYTES>, parts: &[&[u8]]) -> bool
    ensures put { IsTrue result → text.new.items ≡ text.old.items ++ concat (map (λ part. part.now) parts.now) }
    ensures left { IsFalse result → text.new.items ≡ text.old.items }
{
    let before = text.len();
    'parts: for part in parts {
        match text.try_extend_from_slice(part) {
            Ok(()) => {}
            Err(_) => {
                text.truncate(before);
                return false;
            }
        }
    }
    true
}
