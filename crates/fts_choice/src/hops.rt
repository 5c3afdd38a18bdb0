//! Which hop of a multihop job comes next.
ghost use Rattle.std.specs.Prelude.{◌≡◌, ◌<◌, ◌+◌, ◌↔◌, length, None, IfSome, IsFalse};
ghost use Rattle.fts_choice.specs.LeastPlaces.{is_not_used_at, hop_after};

use fts_tables::FileRow;

/// The place behind a hop that has finished, given the rows of the job: None exactly where no row follows, or the following one isn't NOT_USED.
pub fn next_hop(rows: &[FileRow], finished: usize) -> Option<usize>
    requires inside { finished < length rows.now }
    ensures place { result ≡ hop_after rows.now finished }
    ensures none { (result ≡ None) ↔ IsFalse (is_not_used_at rows.now (finished + 1)) }
    ensures inside { IfSome result (λ place. place < length rows.now) }
{
    match rows.get(finished + 1) {
        Some(row) if row.state.is_not_used() => Some(finished + 1),
        Some(_) | None => None,
    }
}
