//! Ids with their places in order of the ids, in chunks, so that one id more moves only those of its chunk.
//! Contracts see the chunks, whose ids one after the other are the order. Kept in its type (`AreInChunks`): no chunk is full, so that each
//! has memory for one id more, and none but the first is empty. A chunk that gets full is split in halves, into a spare one that waited.
//! A search goes over the ids that the chunks begin at, and then over those of one chunk: it reads nothing but chunks.
//! Order: `make_room` before `insert`, which takes no memory.
ghost use Rattle.std.specs.Prelude.{◌≡◌, ◌<◌, ◌≤◌, ◌+◌, [], length, take, drop, insert, slice_set, IfOk, IfErr, OnOk, IsTrue, false, vec_capacity};
ghost use Rattle.fts_index.specs.IdOrder.{AreRising, IsPlaceOf};
ghost use Rattle.fts_index.specs.declared.chunk.TheConstants.{CHUNK_HALF};
ghost use Rattle.fts_index.specs.Order.{IsFit};
ghost use Rattle.fts_index.specs.PlaceLists.{PlaceLists, chunk_at, first_id, places_before, IsGapIn, order_of};

use crate::chunk::{CHUNK_ROOM, PlaceChunk};
use fts_tables::Memory;
use std::alloc::Global;
use std::marker::Model;

/// How far in which chunk an id stands, or would stand.
#[derive(Clone, Copy)]
pub struct Spot {
    pub chunk: usize,
    pub at: usize,
}

/// Each different id with its least place, in rising order of the ids.
#[derive(Drop)]
pub struct PlacesInOrder {
    alloc: Global,
    chunks: Vec<PlaceChunk>,
    spare: Option<PlaceChunk>,
}

impl Model for PlacesInOrder {
    ghost use Rattle.fts_index.specs.PlaceLists.{PlaceLists};

    ghost Value = { PlaceLists };

    ghost use Rattle.fts_index.specs.Order.{place_lists, AreInChunks};

    ghost view = { place_lists };

    ghost invariant = { AreInChunks };
}

/// The chunk to seek an id in: it is the first or begins at the id or a lesser one, and the next one begins at a greater one.
fn chunk_for(chunks: &[PlaceChunk], id: u128) -> usize
    requires some { 0 < length chunks.now }
    ensures inside { result < length chunks.now }
    ensures begins { 0 < result → first_id (chunk_at chunks.now result) ≤ id }
    ensures next { result + 1 < length chunks.now → id < first_id (chunk_at chunks.now (result + 1)) }
{
    let mut from = 0;
    let mut to = chunks.len();
    while to - from > 1 {
        let middle = from + (to - from) / 2;
        if chunks[middle].first_id() <= id {
            from = middle;
        } else {
            to = middle;
        }
    }
    from
}

/// Splits a full chunk: its second half stands behind it, in the spare one.
fn split(chunks: &mut Vec<PlaceChunk>, at: usize, mut spare: PlaceChunk)
    requires inside { at < length chunks.old.items }
    requires full { length (chunk_at chunks.old.items at) ≡ CHUNK_ROOM }
    requires empty { spare ≡ [] }
    requires memory { length chunks.old.items < vec_capacity chunks.old }
    ensures halves { chunks.new.items ≡ insert (slice_set chunks.old.items at (take CHUNK_HALF (chunk_at chunks.old.items at))) (at + 1)
        (drop CHUNK_HALF (chunk_at chunks.old.items at)) }
{
    chunks[at].move_half(&mut spare);
    let _ = chunks.insert(at + 1, spare);
}

/// Sees that there is a chunk to insert into.
fn begin(chunks: &mut Vec<PlaceChunk>, alloc: Global) -> Result<(), Memory>
    ensures order { order_of chunks.new.items ≡ order_of chunks.old.items }
    ensures fit { IsFit chunks.old.items → IsFit chunks.new.items }
    ensures ok { OnOk result (0 < length chunks.new.items) }
{
    if chunks.is_empty() {
        chunks.reserve(1)?;
        chunks.push_reserved(PlaceChunk::new(alloc)?);
    }
    Ok(())
}

impl PlacesInOrder {
    /// No id, and no memory for one. What grows later takes its memory from `alloc`.
    pub fn new(alloc: Global) -> PlacesInOrder
        ensures lists { result ≡ record { chunks = []; ready = false } }
    {
        PlacesInOrder {
            alloc,
            chunks: Vec::new(alloc),
            spare: None,
        }
    }

    /// Whether there is memory for one id more.
    pub fn is_ready(&self) -> bool
        ensures ready { result ≡ self.now.ready }
    {
        self.spare.is_some()
    }

    /// Makes memory for one id more, where there is none. The order stays, whatever the answer.
    pub fn make_room(&mut self) -> Result<(), Memory>
        ensures ok { OnOk result (IsTrue self.new.ready) }
        ensures order { order_of self.new.chunks ≡ order_of self.old.chunks }
    {
        if self.spare.is_some() {
            return Ok(());
        }
        begin(&mut self.chunks, self.alloc)?;
        self.chunks.reserve(1)?;
        self.spare = Some(PlaceChunk::new(self.alloc)?);
        Ok(())
    }

    /// The least place of an id, or where in the order the id would stand.
    pub fn find(&self, id: u128) -> Result<u32, Spot>
        requires rising { AreRising (order_of self.now.chunks) }
        ensures found { IfOk result (IsPlaceOf (order_of self.now.chunks) id) }
        ensures absent { IfErr result (λ spot. IsGapIn self.now id spot.chunk spot.at) }
    {
        if self.chunks.is_empty() {
            return Err(Spot { chunk: 0, at: 0 });
        }
        let chunk = chunk_for(self.chunks.as_slice(), id);
        match self.chunks[chunk].search(id) {
            Ok(at) => Ok(self.chunks[chunk].place(at)),
            Err(at) => Err(Spot { chunk, at }),
        }
    }

    /// Puts an id with its place where it is to stand in the order, in memory that is there.
    pub fn insert(&mut self, spot: Spot, id: u128, place: u32)
        requires ready { IsTrue self.old.ready }
        requires chunk { spot.chunk < length self.old.chunks }
        requires at { spot.at ≤ length (chunk_at self.old.chunks spot.chunk) }
        ensures order { order_of self.new.chunks ≡ insert (order_of self.old.chunks) (places_before self.old.chunks spot.chunk + spot.at)
            (record { id = id; place = place }) }
    {
        let at = spot.chunk;
        self.chunks[at].insert(spot.at, id, place);
        if self.chunks[at].len() == CHUNK_ROOM {
            if let Some(spare) = self.spare.take() {
                split(&mut self.chunks, at, spare);
            }
        }
    }
}
