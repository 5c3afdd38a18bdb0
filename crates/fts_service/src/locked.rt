//! A shop behind its lock, with a pass for each lane and each worker; and the way back where none of them takes a turn.
//! Keeps: what comes back, on either way, holds the list that it held and shows the same.
//! Memory for all passes is taken before the first is made.
ghost use Rattle.std.specs.Prelude.{◌≡◌, [], IfOk, IfErr};
ghost use Rattle.fts_turnstile.specs.Passes.{IsOf};
ghost use Rattle.fts_passes.specs.Crews.{IsFirst, passes_given};
ghost use Rattle.fts_service.specs.Locked.{IsLocked, IsUntouched};
ghost use Rattle.fts_shop.specs.Shops.{shop_entries, shop_shows};

use fts_disk::Disk;
use fts_passes::{close_with, split_passes};
use fts_shop::Shop;
use fts_turnstile::{Pass, Turnstile};
use std::alloc::Global;

/// A shop behind its lock, pass 0, and the passes that it gave.
pub struct Locked<D: Disk> {
    pub lock: Turnstile<Shop<D>>,
    pub first: Pass<Shop<D>>,
    pub passes: Vec<Pass<Shop<D>>>,
}

/// Puts a shop behind a lock with so many passes. Where memory is short it comes back.
pub fn lock_shop<D: Disk>(alloc: Global, shop: Shop<D>, count: u32) -> Result<Locked<D>, Shop<D>>
    ensures locked { IfOk result (λ made. IsLocked D.Disk shop count made.lock made.first made.passes.items) }
    ensures of { IfOk result (λ made. IsOf made.lock made.first) }
    ensures back { IfErr result (IsUntouched D.Disk shop) }
{
    let (lock, mut first) = match Turnstile::new(alloc, shop) {
        Ok(made) => made,
        Err((_, shop)) => return Err(shop),
    };
    match split_passes(alloc, &lock, &mut first, count) {
        Ok(passes) => Ok(Locked {
            lock,
            first,
            passes,
        }),
        Err(_) => Err(unlock(lock, first, Vec::new(alloc))),
    }
}

/// Takes a shop out from behind its lock, where none of the passes has taken a turn.
pub fn unlock<D: Disk>(
    lock: Turnstile<Shop<D>>,
    first: Pass<Shop<D>>,
    passes: Vec<Pass<Shop<D>>>,
) -> Shop<D>
    requires own { IsOf lock first }
    requires first { IsFirst first }
    requires new { passes.items ≡ passes_given (record first { given = 0 }) first.given }
    ensures list { shop_entries result ≡ first.opening }
    ensures shows { shop_shows D.Disk result ≡ first.opening_shows }
{
    close_with(lock, first, passes)
}
