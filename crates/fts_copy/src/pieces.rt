//! How a file is cut into pieces: all of one size, but for the last, which may be shorter.
ghost use Rattle.std.specs.Prelude.{◌≡◌, ◌<◌, ◌≤◌, ◌*◌, ◌-◌, min};
ghost use Rattle.fts_copy.specs.Watch.{pieces};

use crate::order::Loaded;

/// The bytes of a piece, but for a file's last one, which may be shorter.
pub const PIECE_BYTES: u64 = 65_536;

/// A piece of the file of an order: where it begins, and how many bytes are wanted of it.
#[derive(Clone, Copy)]
pub struct Piece<'a> {
    pub order: &'a Loaded,
    pub offset: u64,
    pub wanted: usize,
}

/// The number of pieces of a file of this size, in bytes.
pub fn pieces(size: u64) -> u64
    ensures { result ≡ pieces size }
{
    size.div_ceil(PIECE_BYTES)
}

/// Where a piece begins, in bytes. Pieces are counted from 0.
pub fn piece_start(piece: u64, size: u64) -> u64
    requires { piece < pieces size }
    ensures start { result ≡ piece * PIECE_BYTES }
    ensures inside { result < size }
{
    piece * PIECE_BYTES
}

/// The number of bytes of the piece that begins there.
pub fn piece_len(start: u64, size: u64) -> usize
    requires { start ≤ size }
    ensures { result ≡ min PIECE_BYTES (size - start) }
{
    PIECE_BYTES.min(size - start) as usize
}
