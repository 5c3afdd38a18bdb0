//! A set of keys in their order, which has room for as many as `make_room` was asked for.
//! Kept in its type (`IsSet`): the keys are sorted, in chunks that are fit; they are no more than the room; and there are chunks for the room, used or
//! spare, with memory in both lists for all of them. So an insertion finds a spare chunk where it needs one (`spare_left`). The ends only make searches
//! short, and are no part of that.
//! The keys, one chunk after the other, are what contracts see.
ghost use Rattle.std.specs.Prelude.{◌≡◌, ◌<◌, ◌≤◌, ◌+◌, [], true, false, max, length, slice_get, IsTrue, IsFalse, OnOk, OnErr, vec_capacity};
ghost use Rattle.ordered.specs.Orders.{AreSortedBy, put_by, without, has_key, first_from, next_after, last_before};
ghost use Rattle.ordered.specs.Chunks.{chunks_for};

use crate::chunk::{CHUNK_HALF, Chunk};
use crate::chunks::{Spot, key_at, put, spot_for, take_if_there, take_out};
use crate::key::Key;
use std::alloc::{AllocError, Global};
use std::marker::Model;

/// How many keys a chunk has at least, but for one that stands alone.
const KEYS_A_CHUNK: usize = CHUNK_HALF;

/// Keys in their order.
pub struct Ordered<K: Key> {
    chunks: Vec<Chunk<K>>,
    spare: Vec<Chunk<K>>,
    ends: Vec<K>,
    len: usize,
    room: usize,
    alloc: Global,
}

impl<K: Key> Drop for Ordered<K> {
    fn drop(self) {
        let Ordered {
            chunks: _,
            spare: _,
            ends: _,
            len: _,
            room: _,
            alloc: _,
        } = self;
    }
}

impl<K: Key> Model for Ordered<K> {
    ghost use Rattle.ordered.specs.Orders.{KeySet};

    ghost Value = { KeySet K };

    ghost use Rattle.std.specs.Prelude.{length, vec_capacity};
    ghost use Rattle.ordered.specs.Set.{IsSet};
    ghost use Rattle.ordered.specs.Chunks.{joined};

    ghost view = { λ set. record { keys = joined set.chunks.items; room = set.room } };

    ghost invariant = { λ set. IsSet K.before set.chunks.items (vec_capacity set.chunks) (length set.spare.items) (vec_capacity set.spare) set.len set.room };
}

/// How many chunks there are for so many keys.
fn chunks_for(keys: usize) -> usize
    ensures chunks { result ≡ chunks_for keys }
{
    if keys == 0 {
        0
    } else {
        keys / KEYS_A_CHUNK + 2
    }
}

/// Puts so many more chunks among the spare ones, which there is memory for.
fn add_spare<K: Key>(
    spare: &mut Vec<Chunk<K>>,
    alloc: Global,
    more: usize,
) -> Result<(), AllocError>
    requires memory { length spare.old.items + more ≤ vec_capacity spare.old }
    ensures ok { OnOk result (length spare.new.items ≡ length spare.old.items + more) }
    ensures least { length spare.old.items ≤ length spare.new.items }
    ensures most { length spare.new.items ≤ length spare.old.items + more }
    ensures capacity { vec_capacity spare.new ≡ vec_capacity spare.old }
{
    for _ in 0..more {
        spare.push_reserved(Chunk::new(alloc)?);
    }
    Ok(())
}

impl<K: Key> Ordered<K> {
    /// No key, and no room. What grows later takes its memory from `alloc`.
    pub fn new(alloc: Global) -> Ordered<K>
        ensures keys { result ≡ record { keys = []; room = 0 } }
    {
        Ordered {
            chunks: Vec::new(alloc),
            spare: Vec::new(alloc),
            ends: Vec::new(alloc),
            len: 0,
            room: 0,
            alloc,
        }
    }

    /// Makes room for so many keys in all. No room falls, and at an `Err` all stays as it is.
    pub fn make_room(&mut self, keys: usize) -> Result<(), AllocError>
        ensures ok { OnOk result (self.new ≡ record self.old { room = max self.old.room keys }) }
        ensures err { OnErr result (self.new ≡ self.old) }
    {
        if keys <= self.room {
            return Ok(());
        }
        let whole = self.chunks.len() + self.spare.len();
        let more = chunks_for(keys).saturating_sub(whole);
        self.chunks.reserve(self.spare.len() + more)?;
        self.spare.reserve(self.chunks.len() + more)?;
        self.ends
            .reserve((whole + more).saturating_sub(self.ends.len()))?;
        add_spare(&mut self.spare, self.alloc, more)?;
        self.room = keys;
        Ok(())
    }

    /// Puts a key in, in room that is there.
    pub fn insert(&mut self, key: K)
        requires room { length self.old.keys < self.old.room }
        requires absent { IsFalse (has_key K.before key self.old.keys) }
        ensures keys { self.new ≡ record self.old { keys = put_by K.before key self.old.keys } }
    {
        let _ = self.insert_behind(key);
    }

    /// Puts a key in, in room that is there, and answers the greatest key that stands before it, which is not searched for then.
    pub fn insert_behind(&mut self, key: K) -> Option<K>
        requires room { length self.old.keys < self.old.room }
        requires absent { IsFalse (has_key K.before key self.old.keys) }
        ensures keys { self.new ≡ record self.old { keys = put_by K.before key self.old.keys } }
        ensures front { result ≡ last_before K.before key self.old.keys }
    {
        let front = put(&mut self.chunks, &mut self.spare, &mut self.ends, key);
        self.len += 1;
        front
    }

    /// Takes a key out that is there.
    pub fn remove(&mut self, key: &K)
        requires there { IsTrue (has_key K.before key.now self.old.keys) }
        ensures keys { self.new ≡ record self.old { keys = without K.before key.now self.old.keys } }
    {
        let _ = self.take_next(key);
    }

    /// Takes a key out that is there, and answers the least key that it stands before, which is not searched for then.
    pub fn take_next(&mut self, key: &K) -> Option<K>
        requires there { IsTrue (has_key K.before key.now self.old.keys) }
        ensures keys { self.new ≡ record self.old { keys = without K.before key.now self.old.keys } }
        ensures next { result ≡ next_after K.before key.now self.old.keys }
    {
        let next = take_out(&mut self.chunks, &mut self.spare, &mut self.ends, key);
        self.len -= 1;
        next
    }

    /// Takes a key out where it is there, and says whether it was: one search for both.
    pub fn take(&mut self, key: &K) -> bool
        ensures answer { result ≡ has_key K.before key.now self.old.keys }
        ensures taken { result ≡ true → self.new ≡ record self.old { keys = without K.before key.now self.old.keys } }
        ensures left { result ≡ false → self.new ≡ self.old }
    {
        if self.len == 0 {
            return false;
        }
        let is_there = take_if_there(&mut self.chunks, &mut self.spare, &mut self.ends, key);
        if is_there {
            self.len -= 1;
        }
        is_there
    }

    /// Whether a key is there.
    pub fn has(&self, key: &K) -> bool
        ensures answer { result ≡ has_key K.before key.now self.now.keys }
    {
        if self.len == 0 {
            return false;
        }
        match self.first_from(key) {
            Some(found) => !key.is_before(&found),
            None => false,
        }
    }

    /// The least key. None exactly where there is none.
    pub fn first(&self) -> Option<K>
        ensures key { result ≡ slice_get self.now.keys 0 }
    {
        if self.chunks.is_empty() {
            return None;
        }
        Some(self.chunks[0].get(0))
    }

    /// The least key that does not stand before one.
    pub fn first_from(&self, key: &K) -> Option<K>
        ensures key { result ≡ first_from K.before key.now self.now.keys }
    {
        if self.chunks.is_empty() {
            return None;
        }
        let spot = spot_for(self.chunks.as_slice(), &self.ends, key);
        key_at(self.chunks.as_slice(), spot)
    }

    /// The least key that one stands before.
    pub fn next_after(&self, key: &K) -> Option<K>
        ensures key { result ≡ next_after K.before key.now self.now.keys }
    {
        if self.chunks.is_empty() {
            return None;
        }
        let spot = spot_for(self.chunks.as_slice(), &self.ends, key);
        match key_at(self.chunks.as_slice(), spot) {
            Some(found) => {
                if key.is_before(&found) {
                    return Some(found);
                }
                let next = Spot {
                    chunk: spot.chunk,
                    at: spot.at + 1,
                };
                key_at(self.chunks.as_slice(), next)
            }
            None => None,
        }
    }

    /// How many keys there are. Its clauses also say that they are sorted, and no more than the room.
    pub fn len(&self) -> usize
        ensures len { result ≡ length self.now.keys }
        ensures order { AreSortedBy K.before self.now.keys }
        ensures room { length self.now.keys ≤ self.now.room }
    {
        self.len
    }
}
