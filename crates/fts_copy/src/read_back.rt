//! Reads back what was written, and the source once more, piece by piece: each byte is compared, and the part's digest is taken anew.
//! The watch is asked before each piece. No file changes.
ghost use Rattle.std.specs.Prelude.{◌≡◌, ◌<◌, ◌≤◌, ◌+◌, ℕ, List, [], length, take, ◌++◌, IfOk};
ghost use Rattle.md5.specs.Md5.{Holds};
ghost use Rattle.fts_copy.specs.Script.{Script, LeadsTo, goes_on, log_of, matches, matches_piece, reads_back};
ghost use Rattle.fts_copy.specs.Steps.{IsReadBack, MatchesPiece, MatchesPieces};
ghost use Rattle.fts_copy.specs.Watch.{Counted, Watched, pieces};

use crate::Watch;
use crate::differences::first_difference;
use crate::order::Loaded;
use crate::pieces::{PIECE_BYTES, Piece, piece_len, piece_start, pieces};
use crate::reading::{fill, is_longer};
use fts_store::Store;
use fts_tables::Outcome;
use md5::{Digest, Md5};

// Compares a piece of the part with that of the source, and puts it into the digest. Gives how many bytes the part had there.
fn match_piece<E: Store, V: Watch>(
    store: &mut E,
    piece: Piece<'_>,
    first: &mut [u8],
    second: &mut [u8],
    watch: &mut V,
    hasher: &mut Md5,
) -> Result<usize, Outcome>
    requires first { piece.wanted ≤ length first.old }
    requires second { piece.wanted ≤ length second.old }
    requires end { piece.offset + piece.wanted < 18446744073709551616 }
    ensures same { E.state store.new ≡ E.state store.old }
    ensures matches { MatchesPiece piece.entry.order.now (E.state store.old) hasher.old hasher.new piece.entry.offset piece.entry.wanted result }
    ensures hashed { IfOk result (λ count. (message : List ℕ) → Holds hasher.old message → Holds hasher.new (message ++ take count second.new)) }
    ensures script { (next : List ℕ → Script) → LeadsTo (matches_piece piece.entry.order.now piece.entry.offset piece.entry.wanted next)
        (log_of (E.calls store.old) (V.answers watch.old)) (goes_on (λ count. next (take count second.new)) result)
        (log_of (E.calls store.new) (V.answers watch.new)) }
    ensures counted { Counted (E.faults store.old) (E.faults store.new) result }
    ensures watched { Watched V.noes V.askings V.later 1 watch.old watch.new result }
{
    if !watch.wanted() {
        return Err(Outcome::Stopped);
    }
    let Ok(held) = fill(
        store,
        piece.order.source(),
        piece.offset,
        first,
        piece.wanted,
    ) else {
        return Err(Outcome::StoreFailed);
    };
    let Ok(kept) = fill(
        store,
        piece.order.part(),
        piece.offset,
        second,
        piece.wanted,
    ) else {
        return Err(Outcome::StoreFailed);
    };
    hasher.update(&second[..kept]);
    match first_difference(&first[..held], &second[..kept]) {
        Some(at) => Err(Outcome::ReadBackDiffers {
            at: piece.offset + at as u64,
        }),
        None => Ok(kept),
    }
}

// Compares the part with the source up to the source's size. Gives the digest of what was read back.
fn match_pieces<E: Store, V: Watch>(
    store: &mut E,
    order: &Loaded,
    first: &mut [u8],
    second: &mut [u8],
    watch: &mut V,
    size: u64,
) -> Result<[u8; 16], Outcome>
    requires first { PIECE_BYTES ≤ length first.old }
    requires second { PIECE_BYTES ≤ length second.old }
    ensures same { E.state store.new ≡ E.state store.old }
    ensures matches { MatchesPieces order.now (E.state store.old) size result }
    ensures script { (next : List ℕ → Script) → LeadsTo (matches order.now size next (pieces size) 0 [])
        (log_of (E.calls store.old) (V.answers watch.old)) (goes_on next result) (log_of (E.calls store.new) (V.answers watch.new)) }
    ensures counted { Counted (E.faults store.old) (E.faults store.new) result }
    ensures watched { Watched V.noes V.askings V.later (pieces size) watch.old watch.new result }
{
    let mut hasher = Md5::new();
    for piece in 0..pieces(size) {
        let offset = piece_start(piece, size);
        let wanted = piece_len(offset, size);
        let sought = Piece {
            order,
            offset,
            wanted,
        };
        match_piece(store, sought, first, second, watch, &mut hasher)?;
    }
    Ok(hasher.finalize())
}

/// Compares the part with the source, whole. Gives the digest of what was read back.
pub fn read_back<E: Store, V: Watch>(
    store: &mut E,
    order: &Loaded,
    first: &mut [u8],
    second: &mut [u8],
    watch: &mut V,
    size: u64,
) -> Result<[u8; 16], Outcome>
    requires first { PIECE_BYTES ≤ length first.old }
    requires second { PIECE_BYTES ≤ length second.old }
    ensures same { E.state store.new ≡ E.state store.old }
    ensures read { IsReadBack order.now (E.state store.old) size result }
    ensures script { (next : List ℕ → Script) → LeadsTo (reads_back order.now size next)
        (log_of (E.calls store.old) (V.answers watch.old)) (goes_on next result) (log_of (E.calls store.new) (V.answers watch.new)) }
    ensures counted { Counted (E.faults store.old) (E.faults store.new) result }
    ensures watched { Watched V.noes V.askings V.later (pieces size) watch.old watch.new result }
{
    let digest = match_pieces(store, order, first, second, watch, size)?;
    let Ok(source_is_longer) = is_longer(store, order.source(), size, first) else {
        return Err(Outcome::StoreFailed);
    };
    let Ok(part_is_longer) = is_longer(store, order.part(), size, second) else {
        return Err(Outcome::StoreFailed);
    };
    if source_is_longer || part_is_longer {
        return Err(Outcome::ReadBackDiffers { at: size });
    }
    Ok(digest)
}
