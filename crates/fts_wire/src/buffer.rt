//! The bytes at hand: read, and not yet taken away.
//! Contracts see them as a list. They begin at `start`, and move to the front only where there is no room for a piece more,
//! so a request costs its own bytes, however many are kept behind it.
ghost use Rattle.std.specs.Prelude.{◌≡◌, ◌+◌, ◌≤◌, [], length, take, drop, vec_capacity, IfOk, OnErr};
ghost use Rattle.fts_tables.specs.Counts.{CountsFaults};
ghost use Rattle.fts_wire.specs.Outside.{raised};
ghost use Rattle.fts_wire.specs.Piece.{AddsPiece};

use crate::{Source, SourceFailed};
use fts_tables::Memory;
use fts_tables::limits::{MAX_CONTENT_BYTES, MAX_HEAD_BYTES};
use std::alloc::Global;
use std::marker::Model;

/// At most this many bytes are asked of a source at a time.
pub const PIECE_BYTES: usize = 65_536;

/// What is short of a request, and one piece more.
pub const BUFFER_BYTES: usize = MAX_HEAD_BYTES + MAX_CONTENT_BYTES + PIECE_BYTES;

/// The bytes at hand.
pub struct Buffer {
    bytes: Vec<u8>,
    start: usize,
    piece: Vec<u8>,
}

impl Drop for Buffer {
    fn drop(self) {
        let Buffer {
            bytes: _,
            start: _,
            piece: _,
        } = self;
    }
}

impl Model for Buffer {
    ghost use Rattle.std.specs.Prelude.{List, ℕ};

    ghost Value = { List ℕ };

    ghost use Rattle.fts_wire.specs.Room.{bytes_at_hand, IsBuffer};

    ghost view = { bytes_at_hand };

    ghost invariant = { IsBuffer };
}

impl Buffer {
    /// The buffer, with nothing in it. Its memory is taken here, once.
    pub fn new(alloc: Global) -> Result<Buffer, Memory>
        ensures { IfOk result (λ b. b ≡ []) }
    {
        let bytes = Vec::with_capacity(alloc, BUFFER_BYTES)?;
        let piece = vec![in alloc; 0; PIECE_BYTES]?;
        Ok(Buffer {
            bytes,
            start: 0,
            piece,
        })
    }

    /// The bytes.
    pub fn as_slice(&self) -> &[u8]
        ensures { result.now ≡ self.now }
    {
        &self.bytes[self.start..]
    }

    /// Takes this many bytes away from the front.
    pub fn skip(&mut self, n: usize)
        requires { n ≤ length self.old }
        ensures { self.new ≡ drop n self.old }
    {
        self.start += n;
    }

    /// Takes all bytes away but this many at the front.
    pub fn keep(&mut self, n: usize)
        requires { n ≤ length self.old }
        ensures { self.new ≡ take n self.old }
    {
        self.bytes.truncate(self.start + n);
    }

    /// Reads a piece behind the bytes, and gives its length. 0 is the end of the input.
    pub fn read_from<S: Source>(&mut self, source: &mut S) -> Result<usize, SourceFailed>
        requires room { length self.old + PIECE_BYTES ≤ BUFFER_BYTES }
        ensures piece { IfOk result (λ n. AddsPiece (S.left source.old) (S.left source.new) self.old self.new n) }
        ensures err { OnErr result ((self.new ≡ self.old) × (S.left source.new ≡ S.left source.old)) }
        ensures counted { S.reads source.new ≡ raised (S.reads source.old) 1 }
        ensures cause { CountsFaults (S.faults source.old) (S.faults source.new) result }
        ensures beside { S.beside source.new ≡ S.beside source.old }
    {
        self.start = make_room(&mut self.bytes, self.start);
        let n = source.read(self.piece.as_mut_slice())?;
        match self.bytes.extend_from_slice(&self.piece[..n]) {
            Ok(()) => Ok(n),
            Err(_) => unreachable!(),
        }
    }
}

/// Makes room for a piece behind the bytes from a start on, and gives where they start now.
fn make_room(bytes: &mut Vec<u8>, start: usize) -> usize
    requires within { start ≤ length bytes.old.items }
    requires few { length (drop start bytes.old.items) + PIECE_BYTES ≤ BUFFER_BYTES }
    ensures kept { drop result bytes.new.items ≡ drop start bytes.old.items }
    ensures within { result ≤ length bytes.new.items }
    ensures room { length bytes.new.items + PIECE_BYTES ≤ BUFFER_BYTES }
    ensures capacity { vec_capacity bytes.old ≤ vec_capacity bytes.new }
{
    if bytes.len() <= BUFFER_BYTES - PIECE_BYTES {
        return start;
    }
    let left = bytes.len() - start;
    bytes.rotate_left(start);
    bytes.truncate(left);
    0
}
