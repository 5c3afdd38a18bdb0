//! Writes the part: made from nothing, then piece by piece from the source, each of which goes into the digest.
//! The watch is asked before each piece. No other file changes.
ghost use Rattle.std.specs.Prelude.{◌<◌, ◌≤◌, ◌+◌, ℕ, List, [], length, take, ◌++◌, IfOk};
ghost use Rattle.md5.specs.Md5.{Holds};
ghost use Rattle.fts_store.specs.Store.{IsTold, SameBut, Stays};
ghost use Rattle.fts_copy.specs.Copy.{part_of, IsApart};
ghost use Rattle.fts_copy.specs.Script.{Script, LeadsTo, goes_on, log_of, writes, writes_part, writes_piece};
ghost use Rattle.fts_copy.specs.Steps.{IsBroken, IsWritten, PutsPiece, PutsPieces};
ghost use Rattle.fts_copy.specs.Watch.{Counted, Watched, pieces};

use crate::Watch;
use crate::order::Loaded;
use crate::pieces::{PIECE_BYTES, Piece, piece_len, piece_start, pieces};
use crate::reading::fill;
use fts_store::Store;
use fts_tables::Outcome;
use md5::{Digest, Md5};

// Puts a piece behind the part and into the digest. Gives how many bytes the source had there.
fn put_piece<E: Store, V: Watch>(
    store: &mut E,
    piece: Piece<'_>,
    buffer: &mut [u8],
    watch: &mut V,
    hasher: &mut Md5,
) -> Result<usize, Outcome>
    requires fits { piece.wanted ≤ length buffer.old }
    requires end { piece.offset + piece.wanted < 18446744073709551616 }
    ensures stays { Stays (E.state store.old) (E.state store.new) }
    ensures within { IfOk result (λ count. count ≤ piece.entry.wanted) }
    ensures puts { IsTold (E.state store.old) →
        PutsPiece piece.entry.order.now (E.state store.old) (E.state store.new) hasher.old hasher.new piece.entry.offset piece.entry.wanted result }
    ensures broken { IsBroken result }
    ensures hashed { IfOk result (λ count. (message : List ℕ) → Holds hasher.old message → Holds hasher.new (message ++ take count buffer.new)) }
    ensures script { (next : List ℕ → Script) → LeadsTo (writes_piece piece.entry.order.now piece.entry.offset piece.entry.wanted next)
        (log_of (E.calls store.old) (V.answers watch.old)) (goes_on (λ count. next (take count buffer.new)) result)
        (log_of (E.calls store.new) (V.answers watch.new)) }
    ensures counted { Counted (E.faults store.old) (E.faults store.new) result }
    ensures watched { Watched V.noes V.askings V.later 1 watch.old watch.new result }
{
    if !watch.wanted() {
        return Err(Outcome::Stopped);
    }
    let Ok(count) = fill(
        store,
        piece.order.source(),
        piece.offset,
        buffer,
        piece.wanted,
    ) else {
        return Err(Outcome::StoreFailed);
    };
    let Ok(()) = store.append(piece.order.part(), &buffer[..count]) else {
        return Err(Outcome::StoreFailed);
    };
    hasher.update(&buffer[..count]);
    Ok(count)
}

// Puts all pieces behind the part, in one pass over the source. Gives the digest.
fn put_pieces<E: Store, V: Watch>(
    store: &mut E,
    order: &Loaded,
    buffer: &mut [u8],
    watch: &mut V,
    size: u64,
) -> Result<[u8; 16], Outcome>
    requires fits { PIECE_BYTES ≤ length buffer.old }
    requires apart { IsApart order.now }
    ensures stays { Stays (E.state store.old) (E.state store.new) }
    ensures others { IsTold (E.state store.old) → SameBut (part_of order.now) (E.state store.old).files (E.state store.new).files }
    ensures puts { PutsPieces order.now (E.state store.old) (E.state store.new) size result }
    ensures script { (next : List ℕ → Script) → LeadsTo (writes order.now size next (pieces size) 0 [])
        (log_of (E.calls store.old) (V.answers watch.old)) (goes_on next result) (log_of (E.calls store.new) (V.answers watch.new)) }
    ensures counted { Counted (E.faults store.old) (E.faults store.new) result }
    ensures watched { Watched V.noes V.askings V.later (pieces size) watch.old watch.new result }
{
    let mut hasher = Md5::new();
    for piece in 0..pieces(size) {
        let offset = piece_start(piece, size);
        let wanted = piece_len(offset, size);
        let sought = Piece {
            order,
            offset,
            wanted,
        };
        let count = put_piece(store, sought, buffer, watch, &mut hasher)?;
        if count < wanted {
            return Err(Outcome::SourceSize {
                seen: offset + count as u64,
            });
        }
    }
    Ok(hasher.finalize())
}

/// Makes the part and writes it. Gives the digest of the source, which is the one that is wanted.
pub fn write_part<E: Store, V: Watch>(
    store: &mut E,
    order: &Loaded,
    buffer: &mut [u8],
    watch: &mut V,
    size: u64,
) -> Result<[u8; 16], Outcome>
    requires fits { PIECE_BYTES ≤ length buffer.old }
    requires apart { IsApart order.now }
    ensures stays { Stays (E.state store.old) (E.state store.new) }
    ensures others { IsTold (E.state store.old) → SameBut (part_of order.now) (E.state store.old).files (E.state store.new).files }
    ensures written { IsWritten order.now (E.state store.old) (E.state store.new) size result }
    ensures script { (next : List ℕ → Script) → LeadsTo (writes_part order.now size next)
        (log_of (E.calls store.old) (V.answers watch.old)) (goes_on next result) (log_of (E.calls store.new) (V.answers watch.new)) }
    ensures counted { Counted (E.faults store.old) (E.faults store.new) result }
    ensures watched { Watched V.noes V.askings V.later (pieces size) watch.old watch.new result }
{
    let Ok(()) = store.create(order.part()) else {
        return Err(Outcome::StoreFailed);
    };
    let digest = put_pieces(store, order, buffer, watch, size)?;
    if order.wants_other_digest(digest) {
        return Err(Outcome::SourceDigest { seen: digest });
    }
    Ok(digest)
}
