//! The bytes at hand of a client: read, and not yet known to be a response.
//! Contracts see them as a list. There is room for the longest response, and for a piece behind what is short of it.
ghost use Rattle.std.specs.Prelude.{◌≡◌, ◌+◌, ◌≤◌, [], length, take, IfOk, OnErr};
ghost use Rattle.fts_tables.specs.Counts.{CountsFaults};
ghost use Rattle.fts_wire.specs.Outside.{raised};
ghost use Rattle.fts_wire.specs.Piece.{AddsPiece};

use crate::answer_look::MAX_ANSWER_BYTES;
use crate::buffer::PIECE_BYTES;
use crate::response::HEAD_BYTES;
use crate::{Source, SourceFailed};
use fts_tables::Memory;
use std::alloc::Global;
use std::marker::Model;

/// What is short of a response, and one piece more.
pub const ANSWER_BUFFER_BYTES: usize = HEAD_BYTES + MAX_ANSWER_BYTES + PIECE_BYTES;

/// The bytes at hand.
pub struct AnswerBuffer {
    bytes: Vec<u8>,
    piece: Vec<u8>,
}

impl Drop for AnswerBuffer {
    fn drop(self) {
        let AnswerBuffer { bytes: _, piece: _ } = self;
    }
}

impl Model for AnswerBuffer {
    ghost use Rattle.std.specs.Prelude.{List, ℕ};

    ghost Value = { List ℕ };

    ghost use Rattle.fts_wire.specs.AnswerRoom.{answer_bytes, IsAnswerBuffer};

    ghost view = { answer_bytes };

    ghost invariant = { IsAnswerBuffer };
}

impl AnswerBuffer {
    /// The buffer, with nothing in it. Its memory is taken here, once.
    pub fn new(alloc: Global) -> Result<AnswerBuffer, Memory>
        ensures { IfOk result (λ b. b ≡ []) }
    {
        let bytes = Vec::with_capacity(alloc, ANSWER_BUFFER_BYTES)?;
        let piece = vec![in alloc; 0; PIECE_BYTES]?;
        Ok(AnswerBuffer { bytes, piece })
    }

    /// The bytes.
    pub fn as_slice(&self) -> &[u8]
        ensures { result.now ≡ self.now }
    {
        self.bytes.as_slice()
    }

    /// Takes all bytes away but this many at the front.
    pub fn keep(&mut self, n: usize)
        ensures { self.new ≡ take n self.old }
    {
        self.bytes.truncate(n);
    }

    /// Reads a piece behind the bytes, and gives its length. 0 is the end of the input.
    pub fn read_from<S: Source>(&mut self, source: &mut S) -> Result<usize, SourceFailed>
        requires room { length self.old + PIECE_BYTES ≤ ANSWER_BUFFER_BYTES }
        ensures piece { IfOk result (λ n. AddsPiece (S.left source.old) (S.left source.new) self.old self.new n) }
        ensures err { OnErr result ((self.new ≡ self.old) × (S.left source.new ≡ S.left source.old)) }
        ensures counted { S.reads source.new ≡ raised (S.reads source.old) 1 }
        ensures cause { CountsFaults (S.faults source.old) (S.faults source.new) result }
        ensures beside { S.beside source.new ≡ S.beside source.old }
    {
        let n = source.read(self.piece.as_mut_slice())?;
        match self.bytes.extend_from_slice(&self.piece[..n]) {
            Ok(()) => Ok(n),
            Err(_) => unreachable!(),
        }
    }
}
