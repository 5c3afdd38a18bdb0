//! The numbers of jobs by their ids: the ids in order of the jobs' numbers, and beside them each different id with its place, in chunks (`order.rt`).
//! Contracts see the ids in order of the jobs' numbers, and the room. Kept in its type (`AreJobIds`): a look-up is a search by halves,
//! and what `seek` remembers of one is still true.
//! Order: `make_room` before `add`, which takes no memory; before it `seek`, where the answer matters too, so that both cost one search.
ghost use Rattle.std.specs.Prelude.{◌≡◌, ◌<◌, ◌+◌, ◌++◌, ◌∷◌, [], max, length, OnOk, OnErr, IfOk, IfErr, IfSome, IsTrue};
ghost use Rattle.fts_index.specs.Numbers.{IdList, number_in};
ghost use Rattle.fts_index.specs.IdOrder.{AreRising, IsPlaceOf};
ghost use Rattle.fts_index.specs.PlaceLists.{IsGapIn, order_of};

use crate::order::{PlacesInOrder, Spot};
use fts_tables::Memory;
use std::alloc::Global;
use std::marker::Model;

/// An id that no job has, and where in the order it would stand.
#[derive(Clone, Copy)]
struct Sought {
    id: u128,
    spot: Spot,
}

/// The ids of jobs 1, 2, 3 and so on, with the least number of each.
pub struct JobIds {
    ids: Vec<u128>,
    order: PlacesInOrder,
    room: u32,
    sought: Option<Sought>,
}

impl Drop for JobIds {
    fn drop(self) {
        let JobIds {
            ids: _,
            order: _,
            room: _,
            sought: _,
        } = self;
    }
}

impl Model for JobIds {
    ghost use Rattle.fts_index.specs.Numbers.{IdList};

    ghost Value = { IdList };

    ghost use Rattle.fts_index.specs.JobIds.{id_list, AreJobIds};

    ghost view = { id_list };

    ghost invariant = { AreJobIds };
}

/// The least place of an id, or where in the order the id would stand. An id that was sought isn't searched again.
fn find_unless_sought(order: &PlacesInOrder, sought: Option<Sought>, id: u128) -> Result<u32, Spot>
    requires rising { AreRising (order_of order.now.chunks) }
    requires sought { IfSome sought (λ sought. IsGapIn order.now sought.id sought.spot.chunk sought.spot.at) }
    ensures found { IfOk result (IsPlaceOf (order_of order.now.chunks) id) }
    ensures absent { IfErr result (λ spot. IsGapIn order.now id spot.chunk spot.at) }
{
    match sought {
        Some(sought) if sought.id == id => Err(sought.spot),
        _ => order.find(id),
    }
}

/// Makes memory for one id more in the order, where there is none, and forgets what was sought only then.
fn make_ready(order: &mut PlacesInOrder, sought: &mut Option<Sought>) -> Result<(), Memory>
    requires sought { IfSome sought.old (λ sought. IsGapIn order.old sought.id sought.spot.chunk sought.spot.at) }
    ensures ok { OnOk result (IsTrue order.new.ready) }
    ensures order { order_of order.new.chunks ≡ order_of order.old.chunks }
    ensures sought { IfSome sought.new (λ sought. IsGapIn order.new sought.id sought.spot.chunk sought.spot.at) }
{
    if order.is_ready() {
        return Ok(());
    }
    *sought = None;
    order.make_room()
}

impl JobIds {
    /// No id, and no room. What grows later takes its memory from `alloc`.
    pub fn new(alloc: Global) -> JobIds
        ensures ids { result ≡ record { ids = []; room = 0 } }
    {
        JobIds {
            ids: Vec::new(alloc),
            order: PlacesInOrder::new(alloc),
            room: 0,
            sought: None,
        }
    }

    /// Makes room for one id more than there are, where there is none. At an `Err` all stays as it is; at 4,294,967,295 ids it is the answer.
    pub fn make_room(&mut self) -> Result<(), Memory>
        ensures ok { OnOk result (self.new ≡ record self.old { room = max self.old.room (length self.old.ids + 1) }) }
        ensures err { OnErr result (self.new ≡ self.old) }
    {
        if self.ids.len() < self.room as usize {
            return Ok(());
        }
        if self.room == u32::MAX {
            return Err(Memory);
        }
        self.ids.reserve(1)?;
        make_ready(&mut self.order, &mut self.sought)?;
        self.room += 1;
        Ok(())
    }

    /// Adds the id of the next job, in room that is there.
    pub fn add(&mut self, id: u128)
        requires room { length self.old.ids < self.old.room }
        ensures ids { self.new ≡ record self.old { ids = self.old.ids ++ id ∷ [] } }
    {
        let place = self.ids.len() as u32;
        match find_unless_sought(&self.order, self.sought.take(), id) {
            // The id has a lesser number already.
            Ok(_place) => {}
            Err(spot) => self.order.insert(spot, id, place),
        }
        self.ids.push_reserved(id);
    }

    /// The least number with this id, from 1. None exactly where no job has it.
    pub fn find(&self, id: u128) -> Option<u32>
        ensures number { result ≡ number_in self.now.ids id }
    {
        match self.order.find(id) {
            Ok(place) => Some(place + 1),
            Err(_) => None,
        }
    }

    /// As `find`, before an `add` of the same id: where no job has it, what the search found is remembered, and `add` needs none of its own.
    pub fn seek(&mut self, id: u128) -> Option<u32>
        ensures number { result ≡ number_in self.old.ids id }
        ensures same { self.new ≡ self.old }
    {
        match self.order.find(id) {
            Ok(least) => Some(least + 1),
            Err(spot) => {
                self.sought = Some(Sought { id, spot });
                None
            }
        }
    }
}
