//! Files that come into the set of keys and go, and that change their places as their moments come.
//! What waits stays the same where a file changes its place: its key is another, and its rest.
ghost use Rattle.std.specs.Prelude.{◌≡◌, ◌<◌, ◌≤◌, ◌-◌, ℕ, true, false, length, slice_get, slice_set, IsFalse, IfSome, IfNone};
ghost use Rattle.ordered.specs.Orders.{AreSortedBy, has_key, put_by, without};
ghost use Rattle.fts_queue.specs.WaitingData.{is_waiting, with_waiter, without_file};
ghost use Rattle.fts_heads.specs.RipeFiles.{goes_by_group};
ghost use Rattle.fts_heads.specs.declared.ripe_file.RipeFile.{RipeFile};
ghost use Rattle.fts_line.specs.LineData.{IsKnown};
ghost use Rattle.fts_line.specs.declared.key.TheConstants.{LATER};
ghost use Rattle.fts_line.specs.Keys.{whole_of, key_of, rest_of, is_later, waiter_of, waiters_of, AreKeyed, AreDue};

use crate::key::{LATER, is_later, key_of, moment_of, rest_of, waiter_of};
use fts_heads::{Heads, RipeFile};
use fts_queue::{Waiter, order_is_of_the_set};

/// A file comes in at a moment.
pub fn come_in(heads: &mut Heads, rests: &mut [u64], dests: &[u32], waiter: &Waiter, moment: u64)
    requires keys { AreKeyed dests.now (length heads.old.busy) rests.old heads.old.files }
    requires fresh { IsFalse (is_waiting waiter.now.file (waiters_of rests.old heads.old.files)) }
    requires known { IsKnown dests.now (length heads.old.busy) waiter.now }
    requires room { length heads.old.files < heads.old.room }
    ensures keys { AreKeyed dests.now (length heads.new.busy) rests.new heads.new.files }
    ensures waiters { waiters_of rests.new heads.new.files ≡ with_waiter waiter.now (waiters_of rests.old heads.old.files) }
    ensures due { (low high : ℕ) → low ≤ moment → moment ≤ high → AreDue low high rests.old heads.old.files → AreDue low high rests.new heads.new.files }
    ensures heads { heads.new ≡ record heads.old { files = put_by goes_by_group (key_of moment dests.now waiter.now) heads.old.files } }
    ensures rests { rests.new ≡ slice_set rests.old (waiter.now.file - 1) (rest_of moment waiter.now) }
{
    order_is_of_the_set();
    rests[waiter.file as usize - 1] = rest_of(waiter, moment);
    heads.insert(key_of(dests, waiter, moment));
}

/// A key goes that is there, with its file.
pub fn go_out(heads: &mut Heads, rests: &[u64], dests: &[u32], key: RipeFile)
    requires keys { AreKeyed dests.now (length heads.old.busy) rests.now heads.old.files }
    requires there { has_key goes_by_group key heads.old.files ≡ true }
    ensures keys { AreKeyed dests.now (length heads.new.busy) rests.now heads.new.files }
    ensures waiters { waiters_of rests.now heads.new.files ≡ without_file key.file (waiters_of rests.now heads.old.files) }
    ensures due { (low high : ℕ) → AreDue low high rests.now heads.old.files → AreDue low high rests.now heads.new.files }
    ensures heads { heads.new ≡ record heads.old { files = without goes_by_group key heads.old.files } }
{
    order_is_of_the_set();
    let _ = heads.len();
    heads.remove(key);
}

/// A file changes its place to that of another moment.
fn move_over(heads: &mut Heads, rests: &mut [u64], dests: &[u32], key: RipeFile, moment: u64)
    requires keys { AreKeyed dests.now (length heads.old.busy) rests.old heads.old.files }
    requires there { has_key goes_by_group key heads.old.files ≡ true }
    ensures keys { AreKeyed dests.now (length heads.new.busy) rests.new heads.new.files }
    ensures waiters { waiters_of rests.new heads.new.files ≡ waiters_of rests.old heads.old.files }
    ensures due { (low high : ℕ) → low ≤ moment → moment ≤ high → AreDue low high rests.old heads.old.files → AreDue low high rests.new heads.new.files }
    ensures heads { heads.new ≡ record heads.old {
      files = put_by goes_by_group (key_of moment dests.now (waiter_of rests.old key)) (without goes_by_group key heads.old.files);
    } }
    ensures rests { (other : RipeFile) → has_key goes_by_group other (without goes_by_group key heads.old.files) ≡ true
        → waiter_of rests.new other ≡ waiter_of rests.old other }
{
    order_is_of_the_set();
    let _ = heads.len();
    let waiter = waiter_of(rests, &key);
    go_out(heads, rests, dests, key);
    come_in(heads, rests, dests, &waiter, moment);
}

/// The file whose moment comes first, of those that wait for it, where it has come.
fn first_due(heads: &Heads, now: u64) -> Option<RipeFile>
    ensures there { IfSome result (λ key. has_key goes_by_group key heads.now.files ≡ true) }
    ensures later { IfSome result (λ key. is_later key ≡ true) }
    ensures due { IfSome result (λ key. whole_of key.queue key.rank ≤ now) }
    ensures none { IfNone result ((key : RipeFile) → has_key goes_by_group key heads.now.files ≡ true → is_later key ≡ true
        → now < whole_of key.queue key.rank) }
{
    let _ = heads.len();
    match heads.first_without_dest() {
        Some(key) => {
            if moment_of(&key) <= now {
                Some(key)
            } else {
                None
            }
        },
        None => None,
    }
}

/// The files whose moment has come stand with their destinations from now on.
pub fn ripen(heads: &mut Heads, rests: &mut [u64], dests: &[u32], before: u64, now: u64)
    requires keys { AreKeyed dests.now (length heads.old.busy) rests.old heads.old.files }
    requires due { AreDue before before rests.old heads.old.files }
    requires later { before ≤ now }
    ensures keys { AreKeyed dests.now (length heads.new.busy) rests.new heads.new.files }
    ensures waiters { waiters_of rests.new heads.new.files ≡ waiters_of rests.old heads.old.files }
    ensures due { AreDue now now rests.new heads.new.files }
    ensures busy { heads.new.busy ≡ heads.old.busy }
    ensures room { heads.new.room ≡ heads.old.room }
    ensures dest_room { heads.new.dest_room ≡ heads.old.dest_room }
{
    while let Some(key) = first_due(heads, now) {
        move_over(heads, rests, dests, key, now);
    }
}

/// The first key of a file that stands with its destination.
fn first_ripe(heads: &Heads) -> Option<RipeFile>
    ensures there { IfSome result (λ key. has_key goes_by_group key heads.now.files ≡ true) }
    ensures passed { IfSome result (λ key. (other : RipeFile) → has_key goes_by_group other heads.now.files ≡ true
        → goes_by_group other key ≡ true → LATER ≤ other.dest) }
    ensures ripe { IfSome result (λ key. is_later key ≡ false) }
    ensures none { IfNone result ((other : RipeFile) → has_key goes_by_group other heads.now.files ≡ true → LATER ≤ other.dest) }
{
    let _ = heads.len();
    heads.first_from(&RipeFile {
        queue: 0,
        dest: LATER - 1,
        rank: 0,
        file: 0,
    })
}

/// The clock has gone back: files whose moment is to come again wait for it from now on.
pub fn unripen(heads: &mut Heads, rests: &mut [u64], dests: &[u32], before: u64, now: u64)
    requires keys { AreKeyed dests.now (length heads.old.busy) rests.old heads.old.files }
    requires due { AreDue before before rests.old heads.old.files }
    requires sooner { now ≤ before }
    ensures keys { AreKeyed dests.now (length heads.new.busy) rests.new heads.new.files }
    ensures waiters { waiters_of rests.new heads.new.files ≡ waiters_of rests.old heads.old.files }
    ensures due { AreDue now now rests.new heads.new.files }
    ensures busy { heads.new.busy ≡ heads.old.busy }
    ensures room { heads.new.room ≡ heads.old.room }
    ensures dest_room { heads.new.dest_room ≡ heads.old.dest_room }
{
    let mut next = first_ripe(heads);
    while let Some(key) = next {
        let _ = heads.len();
        next = heads.next_after(&key);
        if waiter_of(rests, &key).not_before > now {
            move_over(heads, rests, dests, key, now);
        }
    }
}
