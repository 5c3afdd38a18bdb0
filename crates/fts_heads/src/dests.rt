//! Numbers of destinations: the place of the first row that goes there, found by a digest.
//! The texts stay in the rows: here are digests and numbers, in order. A look goes over the rows of one digest and compares their destinations themselves, so
//! it is right for every digest.
//! A row's number is told as it comes in, by one search where its digest is new.
//! Order: `make_room` before `add`, which takes no memory. Kept by the caller: the numbers are those of its rows (`AreNumbersOf`).
ghost use Rattle.std.specs.Prelude.{◌≡◌, ◌<◌, ℕ, ◌≤◌, ◌+◌, ◌==◌, false, true, [], max, length, take, slice_get, Some, IfSome, IfNone, OnOk, OnErr};
ghost use Rattle.std.specs.Option.{option_and_then, option_map_or};
ghost use Rattle.ordered.specs.Orders.{has_key};
ghost use Rattle.fts_tables.specs.Places.{is_same_place};
ghost use Rattle.fts_heads.specs.Digests.{digest_of, is_digested_before};
ghost use Rattle.fts_heads.specs.Dests.{dests_of, number_of, AreNumbersOf};

use crate::digest::{Digested, digest_of};
use fts_tables::{FileRow, Memory, Place};
use ordered::Ordered;
use std::alloc::Global;
use std::marker::Model;

/// The numbers of the destinations of rows.
#[derive(Drop)]
pub struct Dests {
    keys: Ordered<Digested>,
}

impl Model for Dests {
    ghost use Rattle.fts_heads.specs.Dests.{DestsData};

    ghost Value = { DestsData };

    ghost view = { λ dests. record { keys = dests.keys.keys; room = dests.keys.room } };
}

/// The least number of a digest, from one on.
fn next_number(keys: &Ordered<Digested>, digest: u32, from: u32) -> Option<u32>
    ensures there { IfSome result (λ number. has_key is_digested_before (record { digest = digest; number = number }) keys.now.keys ≡ true) }
    ensures from { IfSome result (λ number. from ≤ number) }
    ensures least { IfSome result (λ number. (other : ℕ) → from ≤ other → other < number
        → has_key is_digested_before (record { digest = digest; number = other }) keys.now.keys ≡ false) }
    ensures none { IfNone result ((other : ℕ) → from ≤ other
        → has_key is_digested_before (record { digest = digest; number = other }) keys.now.keys ≡ false) }
{
    let _ = keys.len();
    let start = Digested {
        digest,
        number: from,
    };
    match keys.first_from(&start) {
        Some(found) => {
            if found.digest == digest {
                Some(found.number)
            } else {
                None
            }
        },
        None => None,
    }
}

/// Whether a row goes to a place.
fn goes_to(rows: &[FileRow], number: u32, place: &Place) -> bool
    ensures answer { result ≡ option_map_or (λ other. is_same_place other place.now) (slice_get (dests_of rows.now) number) false }
{
    match rows.get(number as usize) {
        Some(row) => row.dest.is_same(place),
        None => false,
    }
}

/// The number of a destination: the place of the first row that goes there. None exactly where no row does.
fn number_of(keys: &Ordered<Digested>, rows: &[FileRow], digest: u32, place: &Place) -> Option<u32>
    requires few { length rows.now ≤ 4294967296 }
    requires digest { digest ≡ digest_of place.now }
    requires numbers { AreNumbersOf (dests_of rows.now) (record { keys = keys.now.keys; room = keys.now.room }) }
    ensures number { result ≡ number_of (dests_of rows.now) place.now }
{
    let mut from = 0;
    while let Some(number) = next_number(keys, digest, from) {
        if goes_to(rows, number, place) {
            return Some(number);
        }
        if number == u32::MAX {
            return None;
        }
        from = number + 1;
    }
    None
}

/// Whether a key was found, of a digest.
fn is_of(found: Option<Digested>, digest: u32) -> bool
    ensures answer { result ≡ option_map_or (λ key. key.digest == digest) found false }
{
    match found {
        Some(key) => key.digest == digest,
        None => false,
    }
}

impl Dests {
    /// No number, and no room. What grows later takes its memory from `alloc`.
    pub fn new(alloc: Global) -> Dests
        ensures dests { result ≡ record { keys = []; room = 0 } }
        ensures numbers { AreNumbersOf [] result }
    {
        Dests {
            keys: Ordered::new(alloc),
        }
    }

    /// Makes room for so many rows in all. No room falls, and at an `Err` all stays as it is.
    pub fn make_room(&mut self, rows: usize) -> Result<(), Memory>
        ensures ok { OnOk result (self.new ≡ record self.old { room = max self.old.room rows }) }
        ensures err { OnErr result (self.new ≡ self.old) }
    {
        self.keys.make_room(rows)?;
        Ok(())
    }

    /// The row at a place comes in behind those before it, in room that is there. Answers the number of its destination among the rows up to it and with it.
    /// Where no key of its digest stands in front of its own, no row before it goes there, and no text is compared.
    pub fn add(&mut self, rows: &[FileRow], place: usize) -> u32
        requires inside { place < length rows.now }
        requires few { place < 4294967296 }
        requires numbers { AreNumbersOf (take place (dests_of rows.now)) self.old }
        requires room { place < self.old.room }
        ensures numbers { AreNumbersOf (take (place + 1) (dests_of rows.now)) self.new }
        ensures room { self.new.room ≡ self.old.room }
        ensures number { option_and_then (number_of (take (place + 1) (dests_of rows.now))) (slice_get (dests_of rows.now) place) ≡ Some result }
    {
        let _ = self.keys.len();
        let dest = &rows[place].dest;
        let digest = digest_of(dest);
        let number = place as u32;
        let front = self.keys.insert_behind(Digested { digest, number });
        if !is_of(front, digest) {
            return number;
        }
        match number_of(&self.keys, &rows[..=place], digest, dest) {
            Some(first) => first,
            None => unreachable!(),
        }
    }
}
