//! A chunk of the order of ids: few ids with their places, in memory of a size that is settled when the chunk is made.
//! The ids lie side by side, apart from the places, so that a search by halves reads them alone.
//! Contracts see the ids with their places. Kept in its type (`IsChunk`): each id has a place, and there is memory for `CHUNK_ROOM` of both,
//! so that an insertion takes none.
ghost use Rattle.std.specs.Prelude.{◌≡◌, ◌<◌, ◌≤◌, [], length, take, drop, insert, IfOk, IfErr};
ghost use Rattle.fts_index.specs.IdOrder.{AreRising, IsGapFor, IsInOrderAt, place_in_order};
ghost use Rattle.fts_index.specs.PlaceLists.{first_id};

use fts_tables::Memory;
use std::alloc::Global;
use std::marker::Model;

/// How many ids a chunk has memory for. One that has them all is split.
pub const CHUNK_ROOM: usize = 128;

/// How many ids stay in a chunk that is split.
pub const CHUNK_HALF: usize = 64;

/// A few ids, next to each other in the order, and the place of each.
#[derive(Drop)]
pub struct PlaceChunk {
    ids: Vec<u128>,
    places: Vec<u32>,
}

impl Model for PlaceChunk {
    ghost use Rattle.std.specs.Prelude.{List};
    ghost use Rattle.fts_index.specs.IdOrder.{PlacedId};

    ghost Value = { List PlacedId };

    ghost use Rattle.fts_index.specs.Chunk.{placed_ids, IsChunk};

    ghost view = { placed_ids };

    ghost invariant = { IsChunk };
}

impl PlaceChunk {
    /// A chunk without ids.
    pub fn new(alloc: Global) -> Result<PlaceChunk, Memory>
        ensures ids { IfOk result (λ chunk. chunk ≡ []) }
    {
        Ok(PlaceChunk {
            ids: Vec::with_capacity(alloc, CHUNK_ROOM)?,
            places: Vec::with_capacity(alloc, CHUNK_ROOM)?,
        })
    }

    /// How many ids stand here.
    pub fn len(&self) -> usize
        ensures len { result ≡ length self.now }
    {
        self.ids.len()
    }

    /// The first id, and 0 of none.
    pub fn first_id(&self) -> u128
        ensures first { result ≡ first_id self.now }
    {
        match self.ids.get(0) {
            Some(id) => *id,
            None => 0,
        }
    }

    /// The place of the id that stands so far behind the first.
    pub fn place(&self, at: usize) -> u32
        requires inside { at < length self.now }
        ensures place { result ≡ place_in_order self.now at }
    {
        self.places[at]
    }

    /// How far behind the first an id stands, or would stand.
    pub fn search(&self, id: u128) -> Result<usize, usize>
        requires rising { AreRising self.now }
        ensures found { IfOk result (IsInOrderAt self.now id) }
        ensures absent { IfErr result (IsGapFor self.now id) }
    {
        self.ids.as_slice().binary_search(&id)
    }

    /// Puts an id with its place so far behind the first, where there is memory for it.
    pub fn insert(&mut self, at: usize, id: u128, place: u32)
        requires inside { at ≤ length self.old }
        requires room { length self.old < CHUNK_ROOM }
        ensures ids { self.new ≡ insert self.old at (record { id = id; place = place }) }
    {
        let _ = self.ids.insert(at, id);
        let _ = self.places.insert(at, place);
    }

    /// Moves what stands behind the first half of a full chunk to one without ids.
    pub fn move_half(&mut self, spare: &mut PlaceChunk)
        requires full { length self.old ≡ CHUNK_ROOM }
        requires empty { spare.old ≡ [] }
        ensures stays { self.new ≡ take CHUNK_HALF self.old }
        ensures moves { spare.new ≡ drop CHUNK_HALF self.old }
    {
        let _ = spare.ids.extend_from_slice(&self.ids[CHUNK_HALF..]);
        let _ = spare.places.extend_from_slice(&self.places[CHUNK_HALF..]);
        self.ids.truncate(CHUNK_HALF);
        self.places.truncate(CHUNK_HALF);
    }
}
