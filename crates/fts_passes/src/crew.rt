//! Many passes at once.
//! Order of a run: `split_passes` while one thread stands, a thread for each pass, and behind their end `close_with`.
//! Every pass is linear: memory for all of them is taken before the first is made, and all are taken in on every way out.
ghost use Rattle.std.specs.Prelude.{◌≡◌, ◌+◌, ◌≤◌, [], ◌∷◌, map, IfOk, OnErr};
ghost use Rattle.fts_turnstile.specs.History.{NoneBy};
ghost use Rattle.fts_turnstile.specs.Passes.{IsOf};
ghost use Rattle.fts_passes.specs.Crews.{numbers_from, passes_given, AreOf, AreTakenIn, IsFirst, ClosedWith};

use fts_turnstile::{Logged, Memory, Pass, Turnstile};
use std::alloc::Global;

/// So many new passes, in order of their numbers, which follow those that pass 0 gave before. Each has seen what pass 0 has.
/// Where memory is short, none is made.
pub fn split_passes<T: Logged>(
    alloc: Global,
    lock: &Turnstile<T>,
    first: &mut Pass<T>,
    count: u32,
) -> Result<Vec<Pass<T>>, Memory>
    requires own { IsOf lock.now first.old }
    requires first { first.old.number ≡ 0 }
    requires room { first.old.given + count ≤ 4294967295 }
    ensures passes { IfOk result (λ passes. passes.items ≡ passes_given first.old count) }
    ensures of { IfOk result (λ passes. AreOf lock.now passes.items) }
    ensures numbers { IfOk result (λ passes. map (λ pass. pass.number) passes.items ≡ numbers_from (first.old.given + 1) count) }
    ensures given { IfOk result (λ passes. first.new ≡ record first.old { given = first.old.given + count }) }
    ensures err { OnErr result (first.new ≡ first.old) }
{
    let Ok(mut passes) = Vec::with_capacity(alloc, count as usize) else {
        return Err(Memory);
    };
    for _ in 0..count {
        let pass = lock.split(first);
        passes.push_reserved(pass);
    }
    Ok(passes)
}

/// Takes in the passes that pass 0 gave, and closes the lock: the value, with one list of all turns.
pub fn close_with<T: Logged>(lock: Turnstile<T>, mut first: Pass<T>, passes: Vec<Pass<T>>) -> T
    requires own { IsOf lock first }
    requires first { IsFirst first }
    requires of { AreOf lock passes.items }
    requires all { map (λ pass. pass.number) passes.items ≡ numbers_from 1 first.given }
    ensures closed { ClosedWith T.items T.names T.shows first passes.items result }
{
    take_in(&lock, &mut first, passes);
    lock.close(first)
}

// Takes all passes in, the last one first.
fn take_in<T: Logged>(lock: &Turnstile<T>, first: &mut Pass<T>, mut passes: Vec<Pass<T>>)
    requires own { IsOf lock.now first.old }
    requires first { IsFirst first.old }
    requires of { AreOf lock.now passes.items }
    ensures same { (first.new.table ≡ first.old.table) × (first.new.number ≡ 0) × (first.new.opening ≡ first.old.opening)
        × (first.new.opening_shows ≡ first.old.opening_shows) × (first.new.given ≡ first.old.given) }
    ensures none { NoneBy (0 ∷ []) first.new.seen }
    ensures taken { AreTakenIn first.new passes.items }
{
    while let Some(pass) = passes.pop() {
        lock.join(first, pass);
    }
    passes.destroy_empty();
}
