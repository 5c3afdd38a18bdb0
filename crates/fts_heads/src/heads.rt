//! The ripe files, and the line in which those stand that may start.
//! A file may have a number that no destination has: it is kept, and never stands in line. These files stand first among all (`goes_by_group`).
//! Kept in its type (`AreKept`): those in line are the best of each queue and destination, where the destination is known and free (`AreHeads`); there are no
//! more destinations than `MOST_DESTS`; no file that may ever stand in line is of a queue as great as `MOST_QUEUES`; and the line has as much room as the
//! files.
//! Order: what stands in line of a group leaves, the files change, and what leads then comes in. `make_room` and `make_dests` come before; no other call
//! takes memory.
ghost use Rattle.std.specs.Prelude.{
  ◌≡◌,
  ◌<◌,
  ◌≤◌,
  ◌+◌,
  ◌∷◌,
  ◌++◌,
  [],
  true,
  false,
  max,
  length,
  find,
  slice_set,
  slice_index_or,
  ◌&&◌,
  ◌==◌,
  IfSome,
  IfNone,
  OnOk,
  OnErr,
};
ghost use Rattle.std.specs.List.{list_any};
ghost use Rattle.ordered.specs.Orders.{AreSortedBy, has_key, put_by, without, first_from, next_after};
ghost use Rattle.fts_heads.specs.declared.ripe_file.RipeFile.{RipeFile};
ghost use Rattle.fts_heads.specs.declared.heads.TheConstants.{MOST_QUEUES, MOST_DESTS};
ghost use Rattle.fts_heads.specs.declared.counted.TheConstants.{BLOCKS};
ghost use Rattle.fts_heads.specs.RipeFiles.{goes_by_group, is_in, brought};
ghost use Rattle.fts_heads.specs.Heads.{HeadsData, is_open, IsFirstOf};
ghost use Rattle.fts_heads.specs.Blocks.{is_in_block};

use crate::counted::Counted;
use crate::crowd::Crowd;
use crate::line::first_in_line;
use crate::ripe_file::{Lined, RipeFile};
use crate::walk::{enter, follow, leave, make_way};
use std::alloc::{AllocError, Global};
use std::marker::Model;

/// Each file's queue is less, where its destination's number is less than `MOST_DESTS`.
pub const MOST_QUEUES: u32 = u32::MAX;

/// Each known destination's number is less, so no destination ever has this one.
pub const MOST_DESTS: u32 = u32::MAX;

/// The ripe files, of which those stand in line that go first with their queue and destination, where the destination is known and free.
#[derive(Drop)]
pub struct Heads {
    files: Crowd,
    line: Counted,
    busy: Vec<bool>,
}

impl Model for Heads {
    ghost use Rattle.fts_heads.specs.Heads.{HeadsData};

    ghost Value = { HeadsData };

    ghost use Rattle.fts_heads.specs.Heads.{AreKept};
    ghost use Rattle.fts_heads.specs.declared.heads.TheConstants.{MOST_QUEUES, MOST_DESTS};
    ghost use Rattle.std.specs.Prelude.{vec_capacity};

    ghost view = { λ heads. record { files = heads.files.keys; busy = heads.busy.items; room = heads.files.room; dest_room = vec_capacity heads.busy } };

    ghost invariant = { λ heads. AreKept MOST_QUEUES MOST_DESTS heads.busy.items heads.files heads.line };
}

/// Whether a destination is known and free.
fn is_open(busy: &[bool], dest: u32) -> bool
    ensures open { result ≡ is_open busy.now dest }
{
    (dest as usize) < busy.len() && !busy[dest as usize]
}

impl Heads {
    /// No file and no destination, and no room. What grows later takes its memory from `alloc`.
    pub fn new(alloc: Global) -> Heads
        ensures empty { result ≡ record { files = []; busy = []; room = 0; dest_room = 0 } }
    {
        Heads {
            files: Crowd::new(alloc),
            line: Counted::new(alloc),
            busy: Vec::new(alloc),
        }
    }

    /// Makes room for so many files in all. No room falls, and at an `Err` all stays as it is.
    pub fn make_room(&mut self, files: usize) -> Result<(), AllocError>
        ensures ok { OnOk result (self.new ≡ record self.old { room = max self.old.room files }) }
        ensures err { OnErr result (self.new ≡ self.old) }
    {
        self.line.make_room(files)?;
        self.files.make_room(files)?;
        Ok(())
    }

    /// Makes room for so many destinations more. No room falls, and at an `Err` all stays as it is.
    pub fn make_dests(&mut self, more: usize) -> Result<(), AllocError>
        ensures same { self.new ≡ record self.old { dest_room = self.new.dest_room } }
        ensures ok { OnOk result (length self.old.busy + more ≤ self.new.dest_room) }
        ensures err { OnErr result (self.new ≡ self.old) }
        ensures room { self.old.dest_room ≤ self.new.dest_room }
    {
        self.busy.reserve(more)?;
        Ok(())
    }

    /// Takes on one destination more, which is free, in room that is there. No file is there of its number, so the line stays as it is.
    pub fn add_dest(&mut self)
        requires room { length self.old.busy < self.old.dest_room }
        requires few { length self.old.busy < MOST_DESTS }
        requires new { (waiter : RipeFile) → has_key goes_by_group waiter self.old.files ≡ true → (waiter.dest == length self.old.busy) ≡ false }
        ensures busy { self.new ≡ record self.old { busy = self.old.busy ++ (false ∷ []) } }
    {
        self.busy.push_reserved(false);
    }

    /// How many destinations there are. Their numbers are less.
    pub fn dests(&self) -> usize
        ensures count { result ≡ length self.now.busy }
    {
        self.busy.len()
    }

    /// Whether a destination is busy; an unknown one is not.
    pub fn is_busy(&self, dest: u32) -> bool
        ensures answer { result ≡ slice_index_or self.now.busy dest false }
    {
        match self.busy.as_slice().get(dest as usize) {
            Some(busy) => *busy,
            None => false,
        }
    }

    /// Whether a file is there.
    pub fn has(&self, file: &RipeFile) -> bool
        ensures answer { result ≡ has_key goes_by_group file.now self.now.files }
    {
        self.files.has(file)
    }

    /// The first of the files with the number that no destination has.
    pub fn first_without_dest(&self) -> Option<RipeFile>
        ensures first { result ≡ find (λ file. file.dest == MOST_DESTS) self.now.files }
    {
        self.files.first_without_dest()
    }

    /// A file that brought a destination; None exactly where none is there. It is had at once, as long as no file came where another of its number was
    /// there already, nor to a destination of a greater number than there was room for files; from then on None takes as long as the destination has files.
    pub fn own_at(&self, dest: u32) -> Option<RipeFile>
        ensures there { IfSome result (λ file. has_key goes_by_group file self.now.files ≡ true) }
        ensures own { IfSome result (λ file. brought dest file ≡ true) }
        ensures none { IfNone result ((file : RipeFile) → has_key goes_by_group file self.now.files ≡ true → brought dest file ≡ false) }
    {
        self.files.own_at(dest)
    }

    /// The first file that does not stand before one, which need not be there. It takes as long as there are destinations between the two.
    pub fn first_from(&self, file: &RipeFile) -> Option<RipeFile>
        ensures file { result ≡ first_from goes_by_group file.now self.now.files }
    {
        self.files.first_from(file)
    }

    /// The first file that stands behind one, which need not be there. It takes as long as there are destinations between the two.
    pub fn next_after(&self, file: &RipeFile) -> Option<RipeFile>
        ensures file { result ≡ next_after goes_by_group file.now self.now.files }
    {
        self.files.next_after(file)
    }

    /// How many files there are. Its clauses also say that they are sorted, and no more than the room.
    pub fn len(&self) -> usize
        ensures len { result ≡ length self.now.files }
        ensures order { AreSortedBy goes_by_group self.now.files }
        ensures room { length self.now.files ≤ self.now.room }
    {
        self.files.len()
    }

    /// The first file of a queue whose destination is known and free, of all that are there. None exactly where there is none.
    pub fn first_of(&self, queue: u32) -> Option<RipeFile>
        ensures first { IfSome result (λ first. IsFirstOf (λ waiter. is_in queue waiter && is_open self.now.busy waiter.dest) self.now.files first) }
        ensures none { IfNone result ((waiter : RipeFile) → has_key goes_by_group waiter self.now.files ≡ true
            → (is_in queue waiter && is_open self.now.busy waiter.dest) ≡ false) }
    {
        let _ = self.files.len();
        let _ = self.line.files().len();
        let _ = &self.busy;
        first_in_line(self.line.files(), queue)
    }

    /// Whether a file of a block of queues is there whose destination is known and free: those from 256 times its number on, 256 of them.
    pub fn has_open_in(&self, block: usize) -> bool
        requires inside { block < BLOCKS }
        ensures answer { result ≡ list_any (λ waiter. is_in_block block waiter && is_open self.now.busy waiter.dest) self.now.files }
    {
        let _ = self.files.len();
        let _ = self.line.files().len();
        let _ = &self.busy;
        self.line.has_block(block)
    }

    /// A destination that was free gets busy: none of its files stands in line any more.
    pub fn busy(&mut self, dest: u32)
        requires known { dest < length self.old.busy }
        requires free { slice_index_or self.old.busy dest false ≡ false }
        ensures busy { self.new ≡ record self.old { busy = slice_set self.old.busy dest true } }
    {
        leave(&self.files, &mut self.line, dest, 0, MOST_QUEUES);
        self.busy[dest as usize] = true;
    }

    /// A destination that was busy gets free: who leads for it in each queue comes into the line.
    pub fn free(&mut self, dest: u32)
        requires known { dest < length self.old.busy }
        requires busy { slice_index_or self.old.busy dest false ≡ true }
        ensures free { self.new ≡ record self.old { busy = slice_set self.old.busy dest false } }
    {
        enter(&self.files, &mut self.line, dest, 0, MOST_QUEUES);
        self.busy[dest as usize] = false;
    }

    /// A file comes in, in room that is there. Where its number is of no destination, it never stands in line.
    pub fn insert(&mut self, file: RipeFile)
        requires room { length self.old.files < self.old.room }
        requires queue { file.dest < MOST_DESTS → file.queue < MOST_QUEUES }
        requires absent { has_key goes_by_group file self.old.files ≡ false }
        ensures files { self.new ≡ record self.old { files = put_by goes_by_group file self.old.files } }
    {
        let _ = self.files.len();
        if !is_open(self.busy.as_slice(), file.dest) {
            self.files.insert(file);
        } else if make_way(&self.files, &mut self.line, &file) {
            self.files.insert(file);
            let _ = self.files.len();
            let _ = self.line.files().len();
            self.line.insert(Lined { waiter: file });
        } else {
            self.files.insert(file);
        }
    }

    /// A file goes that is there.
    pub fn remove(&mut self, file: RipeFile)
        requires there { has_key goes_by_group file self.old.files ≡ true }
        ensures files { self.new ≡ record self.old { files = without goes_by_group file self.old.files } }
    {
        if !is_open(self.busy.as_slice(), file.dest) {
            self.files.remove(&file);
        } else if !self.line.take(&Lined { waiter: file }) {
            let _ = self.files.len();
            self.files.remove(&file);
        } else {
            let _ = self.files.len();
            self.files.remove(&file);
            follow(&self.files, &mut self.line, file.dest, file.queue);
        }
    }
}
