//! The files that wait, with those in line that may start.
//! Kept in its type (`IsLine`): a file stands with its destination in the groups of `fts_heads` exactly where its moment has come, and else by its moment.
//! Order: `make_room`, `make_places` and `make_rows` come before; no other call takes memory.
ghost use Rattle.std.specs.Prelude.{
  ◌≡◌,
  ◌<◌,
  ◌≤◌,
  ◌+◌,
  ◌++◌,
  ◌∷◌,
  [],
  false,
  true,
  max,
  length,
  slice_get,
  slice_set,
  slice_index_or,
  option_map,
  Some,
  IsTrue,
  IsFalse,
  IfSome,
  IfNone,
  is_some,
  ◌&&◌,
  ◌==◌,
  OnOk,
  OnErr,
  nat_le,
};
ghost use Rattle.std.specs.List.{list_any, prefix_len};
ghost use Rattle.fts_queue.specs.WaitingData.{with_waiter, without_file, with_room, waiting_in, room_of, is_waiting, AreWaiting, AreQueuesInOrder};
ghost use Rattle.fts_line.specs.LineData.{IsInside, IsKnown, dest_of, is_on, is_same_waiter, may_start_on, first_open, waits_own};
ghost use Rattle.fts_line.specs.Keys.{is_own_key};
ghost use Rattle.ordered.specs.Orders.{has_key};
ghost use Rattle.fts_heads.specs.RipeFiles.{goes_by_group};
ghost use Rattle.fts_heads.specs.declared.ripe_file.RipeFile.{RipeFile};

use crate::key::{block_of, dest_of, key_of, link_at, queue_of};
use crate::moves::{come_in, go_out, ripen, unripen};
use fts_heads::{Heads, MOST_DESTS, RipeFile};
use fts_queue::{QueueRoom, Waiter, filters_keep_the_order, raise, rooms_are_raised};
use fts_tables::{LinkAt, Memory};
use std::alloc::Global;
use std::marker::Model;

/// The files that wait, in line for their destinations.
#[derive(Drop)]
pub struct Line {
    heads: Heads,
    rests: Vec<u64>,
    rooms: Vec<QueueRoom>,
    dests: Vec<u32>,
    moment: u64,
}

impl Model for Line {
    ghost use Rattle.fts_line.specs.LineData.{LineData};

    ghost Value = { LineData };

    ghost use Rattle.fts_line.specs.Line.{waiting_of, IsLine};
    ghost use Rattle.fts_line.specs.declared.key.TheConstants.{LATER};
    ghost use Rattle.std.specs.Prelude.{min, vec_capacity};

    ghost view = { λ line. record {
      waiting = waiting_of line.heads line.rests.items line.rooms.items line.moment;
      dests = line.dests.items;
      busy = line.heads.busy;
      room = line.heads.room;
      row_room = min LATER (min line.heads.dest_room (min (vec_capacity line.dests) (vec_capacity line.rests)));
    } };

    ghost invariant = { λ line. IsLine line.heads line.rests.items line.rooms.items line.dests.items line.moment };
}

/// How many queues stand before the first from a greater source.
fn count_up_to(rooms: &[QueueRoom], source: u16) -> usize
    requires order { AreQueuesInOrder rooms.now }
    ensures count { result ≡ prefix_len (λ room. nat_le room.link.source source) rooms.now }
    ensures inside { result ≤ length rooms.now }
{
    rooms.partition_point(|room| room.link.source <= source)
}

/// The key of a file, where it stands with its destination and brought it; None exactly where it doesn't.
fn own_key(heads: &Heads, dests: &[u32], file: u32) -> Option<RipeFile>
    ensures there { IfSome result (λ key. has_key goes_by_group key heads.now.files ≡ true) }
    ensures own { IfSome result (λ key. is_own_key dests.now file key ≡ true) }
    ensures none { IfNone result ((key : RipeFile) → has_key goes_by_group key heads.now.files ≡ true → is_own_key dests.now file key ≡ false) }
{
    let dest = dest_of(dests, file);
    if file == 0 || file - 1 != dest {
        return None;
    }
    heads.own_at(dest)
}

impl Line {
    /// No file, no destination and no room, at moment 0.
    pub fn new(alloc: Global) -> Line
        ensures line { result ≡ record { waiting = record { waiters = []; moment = 0; rooms = [] }; dests = []; busy = []; room = 0; row_room = 0 } }
    {
        Line {
            heads: Heads::new(alloc),
            rests: Vec::new(alloc),
            rooms: Vec::new(alloc),
            dests: Vec::new(alloc),
            moment: 0,
        }
    }

    /// Makes the room of a queue at least as many files as wait in all and `more`. No room falls, and at an `Err` all stays as it is.
    pub fn make_room(&mut self, link: LinkAt, activity: u16, more: u32) -> Result<(), Memory>
        ensures ok { OnOk result (self.new ≡ record self.old {
          waiting = record self.old.waiting { rooms = with_room link activity (length self.old.waiting.waiters + more) self.old.waiting.rooms };
        }) }
        ensures err { OnErr result (self.new ≡ self.old) }
    {
        rooms_are_raised();
        let wanted = match self.heads.len().checked_add(more as usize) {
            Some(wanted) => wanted,
            None => return Err(Memory),
        };
        self.rooms.reserve(1)?;
        raise(&mut self.rooms, link, activity, wanted);
        Ok(())
    }

    /// Makes places in line for so many files in all. No room falls, and at an `Err` all stays as it is.
    pub fn make_places(&mut self, files: usize) -> Result<(), Memory>
        ensures ok { OnOk result (self.new ≡ record self.old { room = max self.old.room files }) }
        ensures err { OnErr result (self.new ≡ self.old) }
    {
        self.heads.make_room(files)?;
        Ok(())
    }

    /// Makes room for the numbers of so many files more. No room falls; at an `Err` no other thing changes. There are less than 2^32 numbers.
    pub fn make_rows(&mut self, more: usize) -> Result<(), Memory>
        ensures same { self.new ≡ record self.old { row_room = self.new.row_room } }
        ensures ok { OnOk result (length self.old.dests + more ≤ self.new.row_room) }
        ensures room { self.old.row_room ≤ self.new.row_room }
    {
        if more > (MOST_DESTS as usize).saturating_sub(self.dests.len()) {
            return Err(Memory);
        }
        self.dests.reserve(more)?;
        self.rests.reserve(more)?;
        self.heads.make_dests(more)?;
        Ok(())
    }

    /// Takes on the next file, by the number of its destination, and a free destination more, in room that is there.
    pub fn add_row(&mut self, dest: u32)
        requires room { length self.old.dests < self.old.row_room }
        ensures row { self.new ≡ record self.old { dests = self.old.dests ++ dest ∷ []; busy = self.old.busy ++ false ∷ [] } }
    {
        self.heads.add_dest();
        self.rests.push_reserved(0);
        self.dests.push_reserved(dest);
    }

    /// Puts a file in, in room that is there.
    pub fn insert(&mut self, waiter: Waiter)
        requires queue { length (waiting_in waiter.link waiter.activity self.old.waiting.waiters)
            < room_of waiter.link waiter.activity self.old.waiting.rooms }
        requires fresh { IsFalse (is_waiting waiter.file self.old.waiting.waiters) }
        requires room { length self.old.waiting.waiters < self.old.room }
        requires known { IsKnown self.old.dests (length self.old.busy) waiter }
        ensures line { self.new ≡ record self.old { waiting = record self.old.waiting { waiters = with_waiter waiter self.old.waiting.waiters } } }
    {
        filters_keep_the_order();
        come_in(
            &mut self.heads,
            &mut self.rests,
            self.dests.as_slice(),
            &waiter,
            self.moment,
        );
    }

    /// Takes a file out that waits.
    pub fn remove(&mut self, waiter: &Waiter)
        requires inside { IsInside waiter.now.link waiter.now.activity }
        requires waits { IsTrue (list_any (is_same_waiter waiter.now) self.old.waiting.waiters) }
        ensures line { self.new
            ≡ record self.old { waiting = record self.old.waiting { waiters = without_file waiter.now.file self.old.waiting.waiters } } }
    {
        filters_keep_the_order();
        let dests = self.dests.as_slice();
        let key = key_of(dests, waiter, self.moment);
        go_out(&mut self.heads, self.rests.as_slice(), dests, key);
    }

    /// The link of a file that waits, where its moment has come and it brought its destination; None exactly where it doesn't.
    pub fn own_link(&self, file: u32) -> Option<LinkAt>
        ensures answer { is_some result ≡ waits_own self.now file }
        ensures waits { IfSome result (λ link. list_any (λ waiter. (waiter.file == file) && is_on link waiter) self.now.waiting.waiters ≡ true) }
    {
        match own_key(&self.heads, self.dests.as_slice(), file) {
            Some(key) => Some(link_at(key.queue)),
            None => None,
        }
    }

    /// Takes a file out that waits, where its moment has come and it brought its destination, and says whether it did.
    pub fn take_own(&mut self, file: u32) -> bool
        ensures answer { result ≡ waits_own self.old file }
        ensures waits { result ≡ true → is_waiting file self.old.waiting.waiters ≡ true }
        ensures taken { result ≡ true → self.new
            ≡ record self.old { waiting = record self.old.waiting { waiters = without_file file self.old.waiting.waiters } } }
        ensures left { result ≡ false → self.new ≡ self.old }
    {
        filters_keep_the_order();
        let dests = self.dests.as_slice();
        match own_key(&self.heads, dests, file) {
            Some(key) => {
                go_out(&mut self.heads, self.rests.as_slice(), dests, key);
                true
            }
            None => false,
        }
    }

    /// Ripens the files whose moment has come. For a lesser moment than before, what was ripe may not be so afterwards: that takes as long as there are files.
    pub fn ripen(&mut self, now: u64)
        ensures line { self.new ≡ record self.old { waiting = record self.old.waiting { moment = now } } }
    {
        let dests = self.dests.as_slice();
        if self.moment <= now {
            ripen(&mut self.heads, &mut self.rests, dests, self.moment, now);
        } else {
            unripen(&mut self.heads, &mut self.rests, dests, self.moment, now);
        }
        self.moment = now;
    }

    /// The first file of a queue whose moment has come and whose destination is free: the greatest priority first, and of equal ones the least file.
    pub fn first_open(&self, link: LinkAt, activity: u16) -> Option<u32>
        requires inside { IsInside link activity }
        ensures file { result ≡ first_open self.now link activity }
    {
        let _ = self.heads.len();
        match self.heads.first_of(queue_of(link, activity)) {
            Some(first) => Some(first.file),
            None => None,
        }
    }

    /// Whether a file of a link may start: its moment has come, and its destination is free. It is had at once, however many activities the link has.
    pub fn has_open(&self, link: LinkAt) -> bool
        requires inside { IsInside link 0 }
        ensures answer { result ≡ list_any (may_start_on self.now link) self.now.waiting.waiters }
    {
        let _ = self.heads.len();
        self.heads.has_open_in(block_of(link))
    }

    /// The number of a file's destination, and 0 where the file has none.
    pub fn dest(&self, file: u32) -> u32
        ensures dest { result ≡ dest_of self.now.dests file }
    {
        dest_of(self.dests.as_slice(), file)
    }

    /// Whether a destination is busy.
    pub fn is_busy(&self, dest: u32) -> bool
        ensures answer { result ≡ slice_index_or self.now.busy dest false }
    {
        self.heads.is_busy(dest)
    }

    /// How many files have a number. Its clauses also say that each brought a destination, and that no more files wait than there are places.
    pub fn rows(&self) -> usize
        ensures count { result ≡ length self.now.dests }
        ensures dests { length self.now.busy ≡ length self.now.dests }
        ensures places { length self.now.waiting.waiters ≤ self.now.room }
    {
        let _ = self.heads.len();
        self.dests.len()
    }

    /// How many queues there are: those that room was made for.
    pub fn queues(&self) -> usize
        ensures count { result ≡ length self.now.waiting.rooms }
        ensures waiting { AreWaiting self.now.waiting }
    {
        self.rooms.len()
    }

    /// The n-th queue, from 0, in order of the link's source, its destination and the activity.
    pub fn queue(&self, n: usize) -> (LinkAt, u16)
        requires inside { n < length self.now.waiting.rooms }
        ensures link { option_map (λ room. room.link) (slice_get self.now.waiting.rooms n) ≡ Some result.0 }
        ensures activity { option_map (λ room. room.activity) (slice_get self.now.waiting.rooms n) ≡ Some result.1 }
    {
        let room = self.rooms[n];
        (room.link, room.activity)
    }

    /// How many queues there are of the links from sources up to one: the number of the first queue behind those of that source.
    pub fn queues_up_to(&self, source: u16) -> usize
        ensures count { result ≡ prefix_len (λ room. nat_le room.link.source source) self.now.waiting.rooms }
        ensures inside { result ≤ length self.now.waiting.rooms }
    {
        count_up_to(self.rooms.as_slice(), source)
    }

    /// A destination that was free gets busy.
    pub fn busy(&mut self, dest: u32)
        requires known { dest < length self.old.busy }
        requires free { slice_index_or self.old.busy dest false ≡ false }
        ensures busy { self.new ≡ record self.old { busy = slice_set self.old.busy dest true } }
    {
        self.heads.busy(dest);
    }

    /// A destination that was busy gets free.
    pub fn free(&mut self, dest: u32)
        requires known { dest < length self.old.busy }
        requires busy { slice_index_or self.old.busy dest false ≡ true }
        ensures free { self.new ≡ record self.old { busy = slice_set self.old.busy dest false } }
    {
        self.heads.free(dest);
    }
}
