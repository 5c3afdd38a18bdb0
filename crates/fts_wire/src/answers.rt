//! Responses, each read by a client from the source of its own line.
//! Keeps: a response is what `write_response` writes, with a body of at most 8,389,632 bytes, however it was cut (`load`, clause `answer`);
//! nothing is read past the piece in which it ends, and nothing is kept of what is no response.
//! Order of a load: look, and read a piece, until the look is no longer short.
//! It never looks into a body. Format: docs/FORMATS.md, "HTTP".
ghost use Rattle.std.specs.Prelude.{◌≡◌, ◌≤◌, [], IfOk, ⊤};
ghost use Rattle.std.specs.Borrow.{sem, follows_so};
ghost use mathlib.Core.Option.{none};
ghost use Rattle.fts_wire.specs.NextAnswers.{ReadsAnswer, AnswerCause, IsNextAnswer, held_behind, loaded, result_data};
ghost use Rattle.fts_wire.specs.AnswerTaken.{TakesAnswer, FillsAnswer, empty_reads};
ghost use Rattle.fts_wire.specs.contracts.answers.AnswerRoom.{the_row};

use crate::answer_buffer::AnswerBuffer;
use crate::answer_look::{AnswerHead, AnswerLook, look_at_answer};
use crate::{Source, SourceFailed};
use fts_tables::Memory;
use std::alloc::Global;
use std::marker::Model;

/// A response, as it stands in a room: its status, and its body of at most 8,389,632 bytes.
#[derive(Clone, Copy)]
pub struct Answered<'a> {
    pub status: u16,
    pub body: &'a [u8],
}

/// Why there is no response.
#[derive(Clone, Copy, Debug, PartialEq, Eq)]
pub enum AnswerFault {
    /// The bytes begin no response, or one whose body is longer than 8,389,632 bytes.
    BadResponse,
    /// The input ended within a response, or before its first byte.
    EndsInside,
    /// A read of the source failed.
    SourceFailed,
}

/// The room of a client: a buffer for the longest response, and the body of the one that was loaded last.
pub struct AnswerRoom {
    buffer: AnswerBuffer,
    start: usize,
}

impl Drop for AnswerRoom {
    fn drop(self) {
        let AnswerRoom {
            buffer: _,
            start: _,
        } = self;
    }
}

impl Model for AnswerRoom {
    ghost use Rattle.fts_wire.specs.NextAnswers.{AnswerRoomData};

    ghost Value = { AnswerRoomData };

    ghost use Rattle.fts_wire.specs.AnswerRoom.{answer_room_data, IsAnswerRoom};

    ghost view = { answer_room_data };

    ghost invariant = { IsAnswerRoom };
}

impl AnswerRoom {
    /// The room, with nothing in it. All the memory that reading takes is taken here, once.
    pub fn new(alloc: Global) -> Result<AnswerRoom, Memory>
        ensures { IfOk result (λ made. made.body ≡ []) }
    {
        let buffer = AnswerBuffer::new(alloc)?;
        Ok(AnswerRoom { buffer, start: 0 })
    }

    /// The body that it holds: that of the response that was loaded last, or none.
    pub fn body(&self) -> &[u8]
        ensures { result.now ≡ self.now.body }
    {
        &self.buffer.as_slice()[self.start..]
    }

    /// Loads one response, and gives its status. What was held before is given up, also where there is a fault.
    /// It takes no memory, and reads nothing past the piece in which the response ends.
    pub fn load<S: Source>(&mut self, source: &mut S) -> Result<u16, AnswerFault>
        ensures answer { ReadsAnswer (S.left source.old) (S.left source.new) (S.reads source.old) (S.reads source.new) (loaded result self.new.body) }
        ensures held { self.new ≡ held_behind (loaded result self.new.body) }
        ensures cause { AnswerCause (loaded result self.new.body) (S.faults source.old) (S.faults source.new) }
        ensures faults { S.faults source.old ≤ S.faults source.new }
        ensures beside { S.beside source.new ≡ S.beside source.old }
    {
        self.start = 0;
        self.buffer.keep(0);
        match fill(source, &mut self.buffer) {
            Ok(head) => {
                self.buffer.keep(head.size + head.body);
                self.start = head.size;
                Ok(head.status)
            }
            Err(fault) => {
                self.buffer.keep(0);
                Err(fault)
            }
        }
    }

    /// The loaded response, where a load found one.
    fn answered(&self, found: Result<u16, AnswerFault>) -> Result<Answered<'_>, AnswerFault>
        ensures { result_data result ≡ loaded found self.now.body }
    {
        match found {
            Err(fault) => Err(fault),
            Ok(status) => Ok(Answered {
                status,
                body: self.body(),
            }),
        }
    }
}

/// Reads until a response stands whole in the bytes, and gives its head.
fn fill<S: Source>(source: &mut S, buffer: &mut AnswerBuffer) -> Result<AnswerHead, AnswerFault>
    requires empty { buffer.old ≡ [] }
    ensures takes { TakesAnswer (S.left source.old) buffer.new (S.left source.new) (S.reads source.old) (S.reads source.new) (empty_reads result) }
    ensures look { FillsAnswer buffer.new (S.left source.new) (S.faults source.old) (S.faults source.new) result }
    ensures faults { S.faults source.old ≤ S.faults source.new }
    ensures beside { S.beside source.new ≡ S.beside source.old }
{
    'reading: loop {
        match look_at_answer(buffer.as_slice()) {
            AnswerLook::Short => {}
            AnswerLook::Refused => return Err(AnswerFault::BadResponse),
            AnswerLook::Found(head) => return Ok(head),
        }
        let n = match buffer.read_from(source) {
            Ok(n) => n,
            Err(SourceFailed) => return Err(AnswerFault::SourceFailed),
        };
        if n == 0 {
            return Err(AnswerFault::EndsInside);
        }
    }
}

/// Reads one response, as `AnswerRoom::load` does, and lends it. The room holds its body when it is let go.
pub fn next_response<'a, S: Source>(
    room: &'a mut AnswerRoom,
    source: &mut S,
) -> Result<Answered<'a>, AnswerFault>
    ensures* after { sem 𝓛 (follows_so the_row the_row room.entry.ghost_name none (λ _ _. ⊤)
        (λ n. IsNextAnswer (S.left source.old) (S.left source.new) (S.reads source.old) (S.reads source.new) n result)) }
    ensures cause { AnswerCause (result_data result) (S.faults source.old) (S.faults source.new) }
    ensures faults { S.faults source.old ≤ S.faults source.new }
    ensures beside { S.beside source.new ≡ S.beside source.old }
{
    let found = room.load(source);
    room.answered(found)
}
