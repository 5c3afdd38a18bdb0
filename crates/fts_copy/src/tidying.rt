//! What is done behind a copy: one that ended otherwise than verified may leave its part, with all bytes that were written, and a store may keep
//! it open. So the part is removed, by one call of the store, which lets it go. What that leaves is `IsTidied` of `specs/Tidying.antt`.
ghost use Rattle.std.specs.Prelude.{◌≡◌, false, IsSome, IfSome};
ghost use Rattle.fts_copy.specs.Tidying.{IsTidied, leaves_part};

use crate::CopyRoom;
use fts_store::Store;
use fts_tables::Outcome;

// Whether a copy that ended so may leave its part.
fn may_leave_part(outcome: Outcome) -> bool
    ensures { result ≡ leaves_part outcome }
{
    match outcome {
        Outcome::Verified { size: _, digest: _ } => false,
        Outcome::SourceMissing
        | Outcome::DestinationExists
        | Outcome::SourceSize { seen: _ }
        | Outcome::SourceDigest { seen: _ }
        | Outcome::ReadBackDiffers { at: _ }
        | Outcome::StoreFailed
        | Outcome::Stopped => true,
    }
}

/// Removes the part of the order that was loaded, behind its copy that ended so: by exactly one call, whatever the end but `Verified`, and by none
/// behind a verified copy, whose part is the destination. A call that fails is counted by the store, and nothing else tells of it.
/// No other file changes. Takes no memory.
pub fn remove_part<E: Store>(store: &mut E, room: &CopyRoom, outcome: Outcome)
    requires loaded { IsSome room.now }
    ensures tidied { IfSome room.now (λ order. IsTidied order outcome (E.state store.old) (E.state store.new)
        (E.calls store.old) (E.calls store.new) (E.faults store.old) (E.faults store.new)) }
    ensures same { leaves_part outcome ≡ false → store.new ≡ store.old }
{
    let Some(order) = &room.order else {
        unreachable!()
    };
    if may_leave_part(outcome) {
        let _counted = store.remove(order.part());
    }
}
