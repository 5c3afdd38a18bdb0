//! Chunks in order, whose keys one after the other are the keys of a set, and spare ones.
//! A search goes over the last keys of the chunks, and then over the keys of one. These last keys also stand in a list of their own, the ends, in one piece
//! of memory: that says where to look, and as each answer of it is looked at, nothing but the time of a search hangs on it.
//! A key more or less moves only keys of one chunk, or of two neighbours.
//! Each chunk is at least half full, but for one that stands alone, so there are never more of them than `chunks_for`. A chunk that gets full is split in
//! halves. One that has a key less than half takes a key from a neighbour that has more than half, or else the two become one. Nothing here needs
//! memory: `make_room` took it, for the ends too.
//! A place of a key is one word, `IsGapFor`: all in front of it stand before the key, and none from there on does.
ghost use Rattle.std.specs.Prelude.{
  ◌≡◌,
  ◌<◌,
  ◌≤◌,
  ◌+◌,
  ◌∷◌,
  ◌-◌,
  suc,
  [],
  length,
  take,
  drop,
  insert,
  remove,
  slice_get,
  slice_set,
  true,
  false,
  IsTrue,
  IsFalse,
  vec_capacity,
};
ghost use Rattle.ordered.specs.declared.chunk.TheConstants.{CHUNK_HALF};
ghost use Rattle.ordered.specs.Orders.{AreSortedBy, put_by, without, has_key, next_after, last_before};
ghost use Rattle.ordered.specs.Chunks.{joined, chunk_at, ends_before, front_of, back_of, IsGapFor, parted_at, merged_at, AreFit, HasLostOne};

use crate::chunk::{CHUNK_HALF, CHUNK_ROOM, Chunk};
use crate::key::Key;

/// A place among the keys: so far in which chunk.
#[derive(Clone, Copy)]
pub struct Spot {
    pub chunk: usize,
    pub at: usize,
}

/// Whether a key is to be sought in a chunk: the one in front ends before it, and this one does not, where one is behind it.
fn is_chunk_for<K: Key>(chunks: &[Chunk<K>], at: usize, key: &K) -> bool
    requires inside { at < length chunks.now }
    ensures front { result ≡ true → 0 < at → ends_before K.before key.now (chunk_at chunks.now (at - 1)) ≡ true }
    ensures back { result ≡ true → at + 1 < length chunks.now → ends_before K.before key.now (chunk_at chunks.now at) ≡ false }
{
    if at > 0 && !chunks[at - 1].ends_before(key) {
        return false;
    }
    at + 1 == chunks.len() || !chunks[at].ends_before(key)
}

/// The chunk to seek a key in, by the chunks themselves: those in front of it end before the key, and it does not, where one is behind it.
fn seek_chunk<K: Key>(chunks: &[Chunk<K>], key: &K) -> usize
    requires some { 0 < length chunks.now }
    ensures inside { result < length chunks.now }
    ensures front { 0 < result → ends_before K.before key.now (chunk_at chunks.now (result - 1)) ≡ true }
    ensures back { result + 1 < length chunks.now → ends_before K.before key.now (chunk_at chunks.now result) ≡ false }
{
    let mut from = 0;
    let mut to = chunks.len() - 1;
    while from < to {
        let middle = from + (to - from) / 2;
        if chunks[middle].ends_before(key) {
            from = middle + 1;
        } else {
            to = middle;
        }
    }
    from
}

/// The chunk to seek a key in, by the ends, which read little memory. What they say is looked at, and where it is not so, the chunks are searched.
fn chunk_for<K: Key>(chunks: &[Chunk<K>], ends: &Vec<K>, key: &K) -> usize
    requires some { 0 < length chunks.now }
    ensures inside { result < length chunks.now }
    ensures front { 0 < result → ends_before K.before key.now (chunk_at chunks.now (result - 1)) ≡ true }
    ensures back { result + 1 < length chunks.now → ends_before K.before key.now (chunk_at chunks.now result) ≡ false }
{
    let guess = ends.partition_point(|end| end.is_before(key));
    let guess = guess.min(chunks.len() - 1);
    if is_chunk_for(chunks, guess, key) {
        return guess;
    }
    seek_chunk(chunks, key)
}

/// Notes the last key of a chunk in its place among the ends, or behind them.
fn note_end<K: Key>(chunks: &Vec<Chunk<K>>, ends: &mut Vec<K>, at: usize) {
    if at >= chunks.len() {
        return;
    }
    if let Some(last) = chunks[at].last() {
        if at < ends.len() {
            ends[at] = last;
        } else {
            let _ = ends.push(last);
        }
    }
}

/// Notes the last keys where a chunk and the one in front have changed, or it was split, or one of the two is gone.
fn note_ends<K: Key>(chunks: &Vec<Chunk<K>>, ends: &mut Vec<K>, at: usize) {
    if at < ends.len() {
        if chunks.len() < ends.len() {
            let _ = ends.remove(at);
        } else if ends.len() < chunks.len() {
            let end = ends[at];
            let _ = ends.insert(at, end);
            note_end(chunks, ends, at + 1);
        }
    }
    note_end(chunks, ends, at.saturating_sub(1));
    note_end(chunks, ends, at);
}

/// A key's place: those that stand before it are in front. The ends say where it may be.
pub fn spot_for<K: Key>(chunks: &[Chunk<K>], ends: &Vec<K>, key: &K) -> Spot
    requires some { 0 < length chunks.now }
    requires order { AreSortedBy K.before (joined chunks.now) }
    requires fit { AreFit chunks.now }
    ensures chunk { result.chunk < length chunks.now }
    ensures at { result.at ≤ length (chunk_at chunks.now result.chunk) }
    ensures inside { result.chunk + 1 < length chunks.now → result.at < length (chunk_at chunks.now result.chunk) }
    ensures gap { IsGapFor K.before key.now (front_of chunks.now result.chunk result.at) (back_of chunks.now result.chunk result.at) }
{
    let chunk = chunk_for(chunks, ends, key);
    let at = chunks[chunk].place_of(key);
    Spot { chunk, at }
}

/// The first key from a place on.
pub fn key_at<K: Key>(chunks: &[Chunk<K>], spot: Spot) -> Option<K>
    requires chunk { spot.chunk < length chunks.now }
    requires at { spot.at ≤ length (chunk_at chunks.now spot.chunk) }
    requires fit { AreFit chunks.now }
    ensures key { result ≡ slice_get (back_of chunks.now spot.chunk spot.at) 0 }
{
    if spot.at < chunks[spot.chunk].len() {
        Some(chunks[spot.chunk].get(spot.at))
    } else if spot.chunk + 1 < chunks.len() {
        Some(chunks[spot.chunk + 1].get(0))
    } else {
        None
    }
}

/// The key in front of a place. No chunk in front is without keys.
fn key_in_front<K: Key>(chunks: &[Chunk<K>], spot: Spot) -> Option<K>
    requires chunk { spot.chunk < length chunks.now }
    requires at { spot.at ≤ length (chunk_at chunks.now spot.chunk) }
    requires fit { AreFit chunks.now }
    ensures key { result ≡ slice_get (front_of chunks.now spot.chunk spot.at) (length (front_of chunks.now spot.chunk spot.at) - 1) }
{
    if spot.at > 0 {
        Some(chunks[spot.chunk].get(spot.at - 1))
    } else if spot.chunk > 0 {
        chunks[spot.chunk - 1].last()
    } else {
        None
    }
}

/// Splits a full chunk: its second half stands behind it, in a spare one.
fn split<K: Key>(chunks: &mut Vec<Chunk<K>>, at: usize, mut spare: Chunk<K>)
    requires inside { at < length chunks.old.items }
    requires full { length (chunk_at chunks.old.items at) ≡ CHUNK_ROOM }
    requires memory { length chunks.old.items < vec_capacity chunks.old }
    ensures halves { chunks.new.items ≡ insert (slice_set chunks.old.items at (take CHUNK_HALF (chunk_at chunks.old.items at))) (at + 1)
        (drop CHUNK_HALF (chunk_at chunks.old.items at)) }
    ensures capacity { vec_capacity chunks.old ≤ vec_capacity chunks.new }
{
    chunks[at].move_half(&mut spare);
    let _ = chunks.insert(at + 1, spare);
}

/// Puts the keys of the next chunk into one, and that chunk away.
fn merge<K: Key>(chunks: &mut Vec<Chunk<K>>, spare: &mut Vec<Chunk<K>>, at: usize)
    requires inside { at + 1 < length chunks.old.items }
    requires few { length (chunk_at chunks.old.items at) + length (chunk_at chunks.old.items (at + 1)) < CHUNK_ROOM }
    requires memory { length spare.old.items < vec_capacity spare.old }
    ensures chunks { chunks.new.items ≡ merged_at chunks.old.items at }
    ensures spare { length spare.new.items ≡ length spare.old.items + 1 }
    ensures capacity { vec_capacity chunks.new ≡ vec_capacity chunks.old }
    ensures spare_capacity { vec_capacity spare.new ≡ vec_capacity spare.old }
{
    let behind = chunks.remove(at + 1);
    chunks[at].append(&behind);
    spare.push_reserved(behind);
}

/// Moves the first key of the next chunk into one.
fn take_from_next<K: Key>(chunks: &mut Vec<Chunk<K>>, at: usize)
    requires inside { at + 1 < length chunks.old.items }
    requires some { 0 < length (chunk_at chunks.old.items (at + 1)) }
    requires room { length (chunk_at chunks.old.items at) < CHUNK_ROOM }
    ensures chunks { chunks.new.items ≡ parted_at chunks.old.items at (length (chunk_at chunks.old.items at) + 1) }
    ensures capacity { vec_capacity chunks.new ≡ vec_capacity chunks.old }
{
    let key = chunks[at + 1].get(0);
    let end = chunks[at].len();
    chunks[at].insert(end, key);
    chunks[at + 1].remove(0);
}

/// Moves the last key of a chunk into the next.
fn give_to_next<K: Key>(chunks: &mut Vec<Chunk<K>>, at: usize)
    requires inside { at + 1 < length chunks.old.items }
    requires some { 0 < length (chunk_at chunks.old.items at) }
    requires room { length (chunk_at chunks.old.items (at + 1)) < CHUNK_ROOM }
    ensures chunks { chunks.new.items ≡ parted_at chunks.old.items at (length (chunk_at chunks.old.items at) - 1) }
    ensures capacity { vec_capacity chunks.new ≡ vec_capacity chunks.old }
{
    let last = chunks[at].len() - 1;
    let key = chunks[at].get(last);
    chunks[at].remove(last);
    chunks[at + 1].insert(0, key);
}

/// Puts a key into a spare chunk, where there is no other.
fn put_first<K: Key>(chunks: &mut Vec<Chunk<K>>, mut spare: Chunk<K>, key: K)
    requires none { chunks.old.items ≡ [] }
    requires memory { 0 < vec_capacity chunks.old }
    ensures chunks { chunks.new.items ≡ (key ∷ []) ∷ [] }
    ensures capacity { vec_capacity chunks.new ≡ vec_capacity chunks.old }
{
    spare.fill(key);
    chunks.push_reserved(spare);
}

/// Puts a key where it is to stand. A spare chunk is there in case. Answers the greatest key in front of it.
pub fn put<K: Key>(
    chunks: &mut Vec<Chunk<K>>,
    spare: &mut Vec<Chunk<K>>,
    ends: &mut Vec<K>,
    key: K,
) -> Option<K>
    requires order { AreSortedBy K.before (joined chunks.old.items) }
    requires fit { AreFit chunks.old.items }
    requires absent { IsFalse (has_key K.before key (joined chunks.old.items)) }
    requires spare { 0 < length spare.old.items }
    requires memory { length chunks.old.items < vec_capacity chunks.old }
    ensures keys { joined chunks.new.items ≡ put_by K.before key (joined chunks.old.items) }
    ensures front { result ≡ last_before K.before key (joined chunks.old.items) }
    ensures fit { AreFit chunks.new.items }
    ensures whole { length chunks.new.items + length spare.new.items ≡ length chunks.old.items + length spare.old.items }
    ensures capacity { vec_capacity chunks.old ≤ vec_capacity chunks.new }
    ensures spare_capacity { vec_capacity spare.new ≡ vec_capacity spare.old }
{
    if chunks.is_empty() {
        match spare.pop() {
            Some(first) => put_first(chunks, first, key),
            None => unreachable!(),
        }
        note_ends(chunks, ends, 0);
        return None;
    }
    let spot = spot_for(chunks.as_slice(), ends, &key);
    let front = key_in_front(chunks.as_slice(), spot);
    chunks[spot.chunk].insert(spot.at, key);
    if chunks[spot.chunk].len() == CHUNK_ROOM {
        match spare.pop() {
            Some(behind) => {
                split(chunks, spot.chunk, behind);
                note_ends(chunks, ends, spot.chunk);
            }
            None => unreachable!(),
        }
    } else {
        note_ends(chunks, ends, spot.chunk);
    }
    front
}

/// Sees that the chunks are fit again where one has lost a key.
fn close_up<K: Key>(chunks: &mut Vec<Chunk<K>>, spare: &mut Vec<Chunk<K>>, at: usize)
    requires inside { at < length chunks.old.items }
    requires lost { HasLostOne chunks.old.items at }
    requires memory { length spare.old.items < vec_capacity spare.old }
    ensures keys { joined chunks.new.items ≡ joined chunks.old.items }
    ensures fit { AreFit chunks.new.items }
    ensures whole { length chunks.new.items + length spare.new.items ≡ length chunks.old.items + length spare.old.items }
    ensures capacity { vec_capacity chunks.new ≡ vec_capacity chunks.old }
    ensures spare_capacity { vec_capacity spare.new ≡ vec_capacity spare.old }
{
    let here = chunks[at].len();
    if chunks.len() == 1 {
        if here == 0 {
            let empty = chunks.remove(at);
            spare.push_reserved(empty);
        }
    } else if here < CHUNK_HALF {
        if at + 1 < chunks.len() {
            if chunks[at + 1].len() > CHUNK_HALF {
                take_from_next(chunks, at);
            } else {
                merge(chunks, spare, at);
            }
        } else if chunks[at - 1].len() > CHUNK_HALF {
            give_to_next(chunks, at - 1);
        } else {
            merge(chunks, spare, at - 1);
        }
    }
}

/// Takes the key away at a place.
fn take_at<K: Key>(
    chunks: &mut Vec<Chunk<K>>,
    spare: &mut Vec<Chunk<K>>,
    ends: &mut Vec<K>,
    spot: Spot,
)
    requires chunk { spot.chunk < length chunks.old.items }
    requires at { spot.at < length (chunk_at chunks.old.items spot.chunk) }
    requires fit { AreFit chunks.old.items }
    requires memory { length spare.old.items < vec_capacity spare.old }
    ensures keys { joined chunks.new.items ≡ joined (slice_set chunks.old.items spot.chunk (remove (chunk_at chunks.old.items spot.chunk) spot.at)) }
    ensures fit { AreFit chunks.new.items }
    ensures whole { length chunks.new.items + length spare.new.items ≡ length chunks.old.items + length spare.old.items }
    ensures capacity { vec_capacity chunks.new ≡ vec_capacity chunks.old }
    ensures spare_capacity { vec_capacity spare.new ≡ vec_capacity spare.old }
{
    chunks[spot.chunk].remove(spot.at);
    close_up(chunks, spare, spot.chunk);
    note_ends(chunks, ends, spot.chunk);
}

/// Takes a key away that is there. Answers the least key behind it.
pub fn take_out<K: Key>(
    chunks: &mut Vec<Chunk<K>>,
    spare: &mut Vec<Chunk<K>>,
    ends: &mut Vec<K>,
    key: &K,
) -> Option<K>
    requires order { AreSortedBy K.before (joined chunks.old.items) }
    requires fit { AreFit chunks.old.items }
    requires there { IsTrue (has_key K.before key.now (joined chunks.old.items)) }
    requires memory { length spare.old.items < vec_capacity spare.old }
    ensures keys { joined chunks.new.items ≡ without K.before key.now (joined chunks.old.items) }
    ensures next { result ≡ next_after K.before key.now (joined chunks.old.items) }
    ensures fit { AreFit chunks.new.items }
    ensures whole { length chunks.new.items + length spare.new.items ≡ length chunks.old.items + length spare.old.items }
    ensures capacity { vec_capacity chunks.new ≡ vec_capacity chunks.old }
    ensures spare_capacity { vec_capacity spare.new ≡ vec_capacity spare.old }
{
    let spot = spot_for(chunks.as_slice(), ends, key);
    let behind = Spot {
        chunk: spot.chunk,
        at: spot.at + 1,
    };
    let next = key_at(chunks.as_slice(), behind);
    take_at(chunks, spare, ends, spot);
    next
}

/// Whether a key is there, given its place.
fn is_at<K: Key>(chunks: &[Chunk<K>], spot: Spot, key: &K) -> bool
    requires chunk { spot.chunk < length chunks.now }
    requires at { spot.at ≤ length (chunk_at chunks.now spot.chunk) }
    requires fit { AreFit chunks.now }
    requires order { AreSortedBy K.before (joined chunks.now) }
    requires gap { IsGapFor K.before key.now (front_of chunks.now spot.chunk spot.at) (back_of chunks.now spot.chunk spot.at) }
    ensures answer { result ≡ has_key K.before key.now (joined chunks.now) }
{
    match key_at(chunks, spot) {
        Some(found) => !key.is_before(&found),
        None => false,
    }
}

/// Takes a key away where it is there, and says whether it was.
pub fn take_if_there<K: Key>(
    chunks: &mut Vec<Chunk<K>>,
    spare: &mut Vec<Chunk<K>>,
    ends: &mut Vec<K>,
    key: &K,
) -> bool
    requires some { 0 < length chunks.old.items }
    requires order { AreSortedBy K.before (joined chunks.old.items) }
    requires fit { AreFit chunks.old.items }
    requires memory { length spare.old.items < vec_capacity spare.old }
    ensures answer { result ≡ has_key K.before key.now (joined chunks.old.items) }
    ensures keys { result ≡ true → joined chunks.new.items ≡ without K.before key.now (joined chunks.old.items) }
    ensures left { result ≡ false → joined chunks.new.items ≡ joined chunks.old.items }
    ensures fit { AreFit chunks.new.items }
    ensures whole { length chunks.new.items + length spare.new.items ≡ length chunks.old.items + length spare.old.items }
    ensures capacity { vec_capacity chunks.new ≡ vec_capacity chunks.old }
    ensures spare_capacity { vec_capacity spare.new ≡ vec_capacity spare.old }
{
    let spot = spot_for(chunks.as_slice(), ends, key);
    let is_there = is_at(chunks.as_slice(), spot, key);
    if is_there {
        take_at(chunks, spare, ends, spot);
    }
    is_there
}
