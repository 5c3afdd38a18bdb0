//! Amounts added up by their places, in one walk over them.
//! A sum needs at most 128 bits: there are less than 2^64 amounts, each of 64 bits.
ghost use Rattle.std.specs.Prelude.{◌≡◌, ℕ, ◌+◌, ◌-◌, ◌^◌, ◌<◌, IfOk, length, slice_index, slice_set};
ghost use Rattle.fts_metrics.specs.Sums.{sum_at};

use fts_tables::Memory;
use std::alloc::Global;

/// An amount at a place.
#[derive(Clone, Copy)]
pub struct Share {
    pub place: usize,
    pub amount: u64,
}

/// The sums at the places below a number. What stands at another place is in none of them.
pub fn sums_of(alloc: Global, places: usize, shares: &[Share]) -> Result<Vec<u128>, Memory>
    ensures { IfOk result (λ sums. (place : ℕ) → place < places → slice_index sums.items place ≡ sum_at place shares.now) }
{
    let mut sums = vec![in alloc; 0; places]?;
    for share in shares {
        add_share(&mut sums, share);
    }
    Ok(sums)
}

// Adds an amount at its place, where there is one.
fn add_share(sums: &mut Vec<u128>, share: &Share)
    requires low { share.now.place < length sums.old.items → slice_index sums.old.items share.now.place < 2 ^ 128 - 2 ^ 64 }
    ensures range { share.now.amount < 2 ^ 64 }
    ensures added { sums.new.items ≡ slice_set sums.old.items share.now.place (slice_index sums.old.items share.now.place + share.now.amount) }
{
    if share.place < sums.len() {
        sums[share.place] += u128::from(share.amount);
    }
}

/// The number at a place, and 0 where there is none.
pub fn number_at(numbers: &[u128], place: usize) -> u128
    ensures { result ≡ slice_index numbers.now place }
{
    numbers.get(place).copied().unwrap_or(0)
}
