//! The copy of one file, in this order: look at the source and the destination, write the part, read it back, put it in its place.
//! Each step answers what the next one needs, or how the copy ends. What each end leaves is `IsCopy` of `specs/Copy.antt`.
//! It takes no memory.
ghost use Rattle.std.specs.Prelude.{◌≡◌, ◌≤◌, ℕ, if◌then◌else◌, Bool, Option, Some, IsSome, IfSome, List, length, bytes_eq};
ghost use Rattle.fts_tables.specs.Counts.{Rose};
ghost use Rattle.fts_store.specs.Store.{IsTold, Stays};
ghost use Rattle.fts_copy.specs.Copy.{IsApart, IsCopy, KeepsDest, ended, part_of};
ghost use Rattle.fts_copy.specs.Script.{Script, Asks, LeadsTo, Plays, Renames, copy_of, goes_on, log_of, looks};
ghost use Rattle.fts_copy.specs.Steps.{IsLook, IsPutInPlace};
ghost use Rattle.fts_copy.specs.Watch.{Counted, NoesBy, VerifiedAsks, Watched};

use crate::order::Loaded;
use crate::pieces::PIECE_BYTES;
use crate::read_back::read_back;
use crate::writing::write_part;
use crate::{CopyRoom, Watch};
use fts_store::Store;
use fts_tables::Outcome;

// Looks at the source and at the destination. Gives the source's size.
fn look<E: Store>(store: &mut E, order: &Loaded) -> Result<u64, Outcome>
    ensures apart { IsApart order.now }
    ensures same { E.state store.new ≡ E.state store.old }
    ensures look { IsLook order.now (E.state store.old) result }
    ensures script { (answers : Option (List Bool)) (next : ℕ → Script) → LeadsTo (looks order.now next)
        (log_of (E.calls store.old) answers) (goes_on next result) (log_of (E.calls store.new) answers) }
    ensures counted { Counted (E.faults store.old) (E.faults store.new) result }
{
    let Ok(source) = store.size(order.source()) else {
        return Err(Outcome::StoreFailed);
    };
    let Some(size) = source else {
        return Err(Outcome::SourceMissing);
    };
    if !order.overwrites() {
        let Ok(dest) = store.size(order.dest()) else {
            return Err(Outcome::StoreFailed);
        };
        if dest.is_some() {
            return Err(Outcome::DestinationExists);
        }
    }
    if order.wants_other_size(size) {
        return Err(Outcome::SourceSize { seen: size });
    }
    Ok(size)
}

// The digest of what was read back has to be that of what was read first.
fn agree(first: [u8; 16], second: [u8; 16], size: u64) -> Result<(), Outcome>
    ensures { result ≡ (if bytes_eq first second then Ok tt else Err (Outcome.ReadBackDiffers size)) }
{
    if first == second {
        Ok(())
    } else {
        Err(Outcome::ReadBackDiffers { at: size })
    }
}

// Moves the part to the destination.
fn put_in_place<E: Store, V: Watch>(
    store: &mut E,
    order: &Loaded,
    watch: &mut V,
) -> Result<(), Outcome>
    ensures stays { Stays (E.state store.old) (E.state store.new) }
    ensures put { IsPutInPlace order.now (E.state store.old) (E.state store.new) result }
    ensures script { (next : Script) → LeadsTo (Asks (Renames (part_of order.now) order.now.dest next))
        (log_of (E.calls store.old) (V.answers watch.old)) (goes_on (λ done. next) result) (log_of (E.calls store.new) (V.answers watch.new)) }
    ensures counted { Counted (E.faults store.old) (E.faults store.new) result }
    ensures watched { Watched V.noes V.askings V.later 1 watch.old watch.new result }
{
    if !watch.wanted() {
        return Err(Outcome::Stopped);
    }
    match store.rename(order.part(), order.dest()) {
        Ok(()) => Ok(()),
        Err(_) => Err(Outcome::StoreFailed),
    }
}

// The steps, up to the first that ends the copy.
fn attempt<E: Store, V: Watch>(
    store: &mut E,
    order: &Loaded,
    first: &mut [u8],
    second: &mut [u8],
    watch: &mut V,
) -> Result<Outcome, Outcome>
    requires first { PIECE_BYTES ≤ length first.old }
    requires second { PIECE_BYTES ≤ length second.old }
    ensures apart { IsApart order.now }
    ensures stays { Stays (E.state store.old) (E.state store.new) }
    ensures copy { IsTold (E.state store.old) → IsCopy order.now (E.state store.old) (E.state store.new) (ended result) }
    ensures script { Plays (copy_of order.now)
        (log_of (E.calls store.old) (V.answers watch.old)) (log_of (E.calls store.new) (V.answers watch.new)) (ended result) }
    ensures no_fewer_faults { E.faults store.old ≤ E.faults store.new }
    ensures store_failed { ended result ≡ Outcome.StoreFailed → Rose (E.faults store.old) (E.faults store.new) }
    ensures noes { NoesBy (ended result) (V.noes watch.old) (V.noes watch.new) }
    ensures no_fewer_noes { V.noes watch.old ≤ V.noes watch.new }
    ensures asked { VerifiedAsks (ended result) (V.askings watch.old) (V.askings watch.new) }
    ensures later { V.later watch.old watch.new }
{
    let size = look(store, order)?;
    let digest = write_part(store, order, first, watch, size)?;
    let again = read_back(store, order, first, second, watch, size)?;
    agree(digest, again, size)?;
    put_in_place(store, order, watch)?;
    Ok(Outcome::Verified { size, digest })
}

/// Copies the file of the order that was loaded, by way of a part. `Verified` says that the destination holds what was read back and
/// found equal to the source, with the size and the digest (MD5, RFC 1321) that were wanted, where any were.
/// The outcome is the first that holds, in this order: `SourceMissing`; `DestinationExists`, where it may not be replaced; `SourceSize`, where
/// another size is wanted; `SourceDigest`, where another digest is wanted; `ReadBackDiffers`, with the first place that does; `Verified`.
/// A call of the store that fails ends the copy with `StoreFailed`, and a no of the watch with `Stopped`.
/// Whatever the end but `Verified`, the destination is as it was; only a rename that failed may have changed it.
/// Takes no memory. The watch is asked before each piece of 65,536 bytes that is written, before each that is read back, and once more.
pub fn copy_verified<E: Store, V: Watch>(
    store: &mut E,
    room: &mut CopyRoom,
    watch: &mut V,
) -> Outcome
    requires loaded { IsSome room.old }
    ensures room { room.new ≡ room.old }
    ensures stays { Stays (E.state store.old) (E.state store.new) }
    ensures copy { IsTold (E.state store.old) → IfSome room.old (λ order. IsCopy order (E.state store.old) (E.state store.new) result) }
    ensures script { IfSome room.old (λ order. Plays (copy_of order)
        (log_of (E.calls store.old) (V.answers watch.old)) (log_of (E.calls store.new) (V.answers watch.new)) result) }
    ensures destination { IsTold (E.state store.old) → IfSome room.old (λ order. KeepsDest order (E.state store.old).files (E.state store.new).files result) }
    ensures no_fewer_faults { E.faults store.old ≤ E.faults store.new }
    ensures store_failed { result ≡ Outcome.StoreFailed → Rose (E.faults store.old) (E.faults store.new) }
    ensures noes { NoesBy result (V.noes watch.old) (V.noes watch.new) }
    ensures no_fewer_noes { V.noes watch.old ≤ V.noes watch.new }
    ensures asked { VerifiedAsks result (V.askings watch.old) (V.askings watch.new) }
    ensures later { V.later watch.old watch.new }
{
    let Some(order) = &room.order else {
        unreachable!()
    };
    match attempt(store, order, &mut room.first, &mut room.second, watch) {
        Ok(outcome) | Err(outcome) => outcome,
    }
}
