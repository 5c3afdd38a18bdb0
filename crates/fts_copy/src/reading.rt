//! Reads a piece of a file whole: a store may give fewer bytes at a time than were asked for.
//! Keeps: the bytes at the front of the buffer are those of the file, and the store is as before.
ghost use Rattle.std.specs.Prelude.{◌≡◌, ◌<◌, ◌≤◌, ◌+◌, ◌-◌, ℕ, nat_lt, Bool, Option, List, length, take, drop, IfOk};
ghost use Rattle.fts_tables.specs.Counts.{CountsFaults};
ghost use Rattle.fts_store.specs.Calls.{Read, bytes_read, with_call};
ghost use Rattle.fts_store.specs.Store.{IsTold, bytes_of, place_at};
ghost use Rattle.fts_copy.specs.Script.{Script, LeadsTo, log_of, reads_behind, reads_piece, unless_failed};
ghost use Rattle.fts_copy.specs.Steps.{ReadsMore, piece_at};

use fts_store::{Store, StoreFailed};
use fts_tables::PlaceRef;

// One read into the middle of the buffer.
fn read_more<E: Store>(
    store: &mut E,
    at: PlaceRef<'_>,
    offset: u64,
    buffer: &mut [u8],
    from: usize,
    to: usize,
) -> Result<usize, StoreFailed>
    requires from { from < to }
    requires to { to ≤ length buffer.old }
    ensures same { E.state store.new ≡ E.state store.old }
    ensures within { IfOk result (λ count. from + count ≤ to) }
    ensures kept { take from buffer.new ≡ take from buffer.old }
    ensures called { E.calls store.new ≡ with_call (E.calls store.old)
        (Read (place_at at.entry) offset (to - from) (bytes_read result (drop from buffer.new))) }
    ensures bytes { IsTold (E.state store.old) → IfOk result (λ count.
        ReadsMore (bytes_of ((E.state store.old).files (place_at at.entry))) offset buffer.old buffer.new from count) }
    ensures cause { CountsFaults (E.faults store.old) (E.faults store.new) result }
{
    store.read_at(at, offset, &mut buffer[from..to])
}

/// Reads so many bytes of a file from an offset on, or as many as there are, to the front of the buffer. Gives how many.
pub fn fill<E: Store>(
    store: &mut E,
    at: PlaceRef<'_>,
    offset: u64,
    buffer: &mut [u8],
    wanted: usize,
) -> Result<usize, StoreFailed>
    requires fits { wanted ≤ length buffer.old }
    requires end { offset + wanted ≤ 18446744073709551616 }
    ensures same { E.state store.new ≡ E.state store.old }
    ensures within { IfOk result (λ count. count ≤ wanted) }
    ensures script { (answers : Option (List Bool)) (next : List ℕ → Script) → LeadsTo (reads_piece (place_at at.entry) offset wanted next)
        (log_of (E.calls store.old) answers) (unless_failed (λ count. next (take count buffer.new)) result) (log_of (E.calls store.new) answers) }
    ensures bytes { IsTold (E.state store.old) → IfOk result (λ count.
        take count buffer.new ≡ piece_at (bytes_of ((E.state store.old).files (place_at at.entry))) offset wanted) }
    ensures cause { CountsFaults (E.faults store.old) (E.faults store.new) result }
{
    let mut filled = 0;
    while filled < wanted {
        let count = read_more(store, at, offset + filled as u64, buffer, filled, wanted)?;
        if count == 0 {
            return Ok(filled);
        }
        filled += count;
    }
    Ok(filled)
}

/// Whether a file is longer than this.
pub fn is_longer<E: Store>(
    store: &mut E,
    at: PlaceRef<'_>,
    size: u64,
    buffer: &mut [u8],
) -> Result<bool, StoreFailed>
    requires { 0 < length buffer.old }
    ensures same { E.state store.new ≡ E.state store.old }
    ensures script { (answers : Option (List Bool)) (next : Bool → Script) → LeadsTo (reads_behind (place_at at.entry) size next)
        (log_of (E.calls store.old) answers) (unless_failed next result) (log_of (E.calls store.new) answers) }
    ensures longer { IsTold (E.state store.old) → IfOk result (λ longer.
        longer ≡ nat_lt size (length (bytes_of ((E.state store.old).files (place_at at.entry))))) }
    ensures cause { CountsFaults (E.faults store.old) (E.faults store.new) result }
{
    let count = fill(store, at, size, buffer, 1)?;
    Ok(count > 0)
}
