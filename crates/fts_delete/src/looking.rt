//! A visit of a file that is to be deleted: what is asked of the store, in which order, and nothing else.
//! Order: the size; where a file is there its removal, and then the size again. Only what the last size said counts.
ghost use Rattle.std.specs.Prelude.{◌≡◌};
ghost use Rattle.fts_store.specs.Store.{place_at};
ghost use Rattle.fts_delete.specs.Looks.{calls_of, with_calls, Visits};

use crate::visits::Visit;
use fts_store::Store;
use fts_tables::PlaceRef;

/// Looks for a file, and where it is there removes it and looks again.
pub fn visit<E: Store>(store: &mut E, at: PlaceRef<'_>) -> Visit
    ensures called { E.calls store.new ≡ with_calls (E.calls store.old) (calls_of (place_at at.entry) result) }
    ensures visits { Visits E.state E.faults store.old store.new (place_at at.entry) result }
{
    match store.size(at) {
        Err(_) => Visit::Unseen,
        Ok(None) => Visit::Absent,
        Ok(Some(size)) => {
            let removed = store.remove(at).ok();
            let seen = store.size(at).ok();
            Visit::Tried {
                size,
                removed,
                seen,
            }
        }
    }
}
