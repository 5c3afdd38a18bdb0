//! A source read to its end, up to a limit.
//! Keeps: the bytes are all that were left, in order; nothing is read beyond the byte that shows that there are too many, and nothing behind the end
//! (`read_all`).
ghost use Rattle.std.specs.Prelude.{◌≡◌, ◌+◌, ◌≤◌, ◌<◌, length, Err, IfOk, IfErr};
ghost use Rattle.fts_tables.specs.Counts.{Rose, CountsFaults};
ghost use Rattle.fts_wire.specs.Outside.{Reads, raised};
ghost use Rattle.fts_wire.specs.ReadAll.{IsAll, IsRefused};

use crate::buffer::PIECE_BYTES;
use crate::{Source, SourceFailed};
use std::alloc::Global;

/// Why the bytes of a source are not given.
#[derive(Clone, Copy, Debug, PartialEq, Eq)]
pub enum ReadAllFault {
    /// There are more bytes than the limit.
    TooLong,
    /// A read of the source failed.
    SourceFailed,
    /// There was no memory for them.
    Memory,
}

/// All bytes that are left, in order, to the end of the input, where they are at most `limit`.
/// Where they are more, one more than the limit is taken. It is read once more than there are bytes at most. After another fault the bytes taken
/// are lost, and the rest is left.
pub fn read_all<S: Source>(
    alloc: Global,
    source: &mut S,
    limit: usize,
) -> Result<Vec<u8>, ReadAllFault>
    ensures all { IfOk result (λ bytes. IsAll limit (S.left source.old) (S.left source.new) bytes.items) }
    ensures refused { IfErr result (λ fault. IsRefused limit (S.left source.old) (S.left source.new) fault) }
    ensures failed { result ≡ Err ReadAllFault.SourceFailed → Rose (S.faults source.old) (S.faults source.new) }
    ensures faults { S.faults source.old ≤ S.faults source.new }
    ensures beside { S.beside source.new ≡ S.beside source.old }

    // Each read but the last gives a byte that is kept.
    ensures reads { S.reads source.new ≤ S.reads source.old + (limit + 1) }
    ensures few { IfOk result (λ bytes. S.reads source.new ≤ S.reads source.old + (length bytes.items + 1)) }
{
    let mut bytes = Vec::new(alloc);
    let mut piece = make_piece(alloc)?;
    'reading: loop {
        let room = limit - bytes.len();
        piece.truncate(room.saturating_add(1));
        let n = match read_piece(source, &mut piece) {
            Ok(n) => n,
            Err(SourceFailed) => return Err(ReadAllFault::SourceFailed),
        };
        if n == 0 {
            return Ok(bytes);
        }
        if n > room {
            return Err(ReadAllFault::TooLong);
        }
        match bytes.extend_from_slice(&piece[..n]) {
            Ok(()) => {}
            Err(_) => return Err(ReadAllFault::Memory),
        }
    }
}

/// Reads into a piece, as the source does.
fn read_piece<S: Source>(source: &mut S, piece: &mut Vec<u8>) -> Result<usize, SourceFailed>
    ensures bound { IfOk result (λ n. n ≤ length piece.new.items) }
    ensures room { length piece.new.items ≡ length piece.old.items }
    ensures read { Reads (S.left source.old) (S.left source.new) piece.new.items result }
    ensures counted { S.reads source.new ≡ raised (S.reads source.old) 1 }
    ensures cause { CountsFaults (S.faults source.old) (S.faults source.new) result }
    ensures beside { S.beside source.new ≡ S.beside source.old }
{
    source.read(piece.as_mut_slice())
}

/// Room for the bytes of one read.
fn make_piece(alloc: Global) -> Result<Vec<u8>, ReadAllFault>
    ensures ok { IfOk result (λ piece. 0 < length piece.items) }
    ensures memory { IfErr result (λ fault. fault ≡ ReadAllFault.Memory) }
{
    match vec![in alloc; 0; PIECE_BYTES] {
        Ok(piece) => Ok(piece),
        Err(_) => Err(ReadAllFault::Memory),
    }
}
