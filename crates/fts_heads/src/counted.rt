//! The files in line, and how many of them each block of queues has: so it is had at once that a block has none.
//! Kept in its type (`AreCounted`): each block's number counts its files. Queues behind the last block are in no block.
//! Order: the first room makes the numbers; no other call takes memory for them. The rest is as in `Ordered`, and contracts see it as one.
ghost use Rattle.std.specs.Prelude.{◌≡◌, ◌<◌, ◌+◌, ◌-◌, ◌/◌, ◌==◌, [], true, false, max, length, replicate, slice_index_or, if◌then◌else◌, IsTrue, IsFalse, OnOk, OnErr};
ghost use Rattle.std.specs.List.{list_any};
ghost use Rattle.ordered.specs.Orders.{has_key, put_by, without};
ghost use Rattle.fts_heads.specs.Keys.{is_line_before};
ghost use Rattle.fts_heads.specs.Blocks.{is_in_block, with_at};

use crate::ripe_file::Lined;
use ordered::Ordered;
use std::alloc::{AllocError, Global};
use std::marker::Model;

/// How many queues a block has. The first block begins at queue 0.
pub const BLOCK_QUEUES: u32 = 256;

/// How many blocks there are. Each block's number is less.
pub const BLOCKS: usize = 65_536;

/// The files in line, with a number for each block of queues.
pub struct Counted {
    line: Ordered<Lined>,
    counts: Vec<usize>,
    alloc: Global,
}

impl Drop for Counted {
    fn drop(self) {
        let Counted {
            line: _,
            counts: _,
            alloc: _,
        } = self;
    }
}

impl Model for Counted {
    ghost use Rattle.ordered.specs.Orders.{KeySet};
    ghost use Rattle.fts_heads.specs.declared.ripe_file.Lined.{Lined};

    ghost Value = { KeySet Lined };

    ghost use Rattle.fts_heads.specs.Blocks.{AreCounted};

    ghost view = { λ counted. counted.line };

    ghost invariant = { λ counted. AreCounted counted.line counted.counts.items };
}

/// A number for each block, 0, where no numbers are there.
fn make_counts(counts: &mut Vec<usize>, alloc: Global) -> Result<(), AllocError>
    ensures ok { OnOk result (counts.new.items ≡ (if length counts.old.items == 0 then replicate BLOCKS 0 else counts.old.items)) }
    ensures err { OnErr result (counts.new ≡ counts.old) }
{
    if counts.as_slice().is_empty() {
        *counts = vec![in alloc; 0; BLOCKS]?;
    }
    Ok(())
}

/// One more at a place, where it is there.
fn raise(counts: &mut Vec<usize>, place: usize)
    requires few { slice_index_or counts.old.items place 0 < 18446744073709551615 }
    ensures counts { counts.new.items ≡ with_at counts.old.items place (slice_index_or counts.old.items place 0 + 1) }
{
    if place < counts.len() {
        counts[place] += 1;
    }
}

/// One less at a place, where it is there.
fn lower(counts: &mut Vec<usize>, place: usize)
    ensures counts { counts.new.items ≡ with_at counts.old.items place (slice_index_or counts.old.items place 0 - 1) }
{
    if place < counts.len() {
        counts[place] = counts[place].saturating_sub(1);
    }
}

/// The block of a file's queue.
fn block_of(key: &Lined) -> usize
    ensures block { result ≡ key.now.waiter.queue / BLOCK_QUEUES }
{
    (key.waiter.queue / BLOCK_QUEUES) as usize
}

impl Counted {
    /// No file, and no room. What grows later takes its memory from `alloc`.
    pub fn new(alloc: Global) -> Counted
        ensures keys { result ≡ record { keys = []; room = 0 } }
    {
        Counted {
            line: Ordered::new(alloc),
            counts: Vec::new(alloc),
            alloc,
        }
    }

    /// Makes room for so many files in all. No room falls, and at an `Err` all stays as it is.
    pub fn make_room(&mut self, files: usize) -> Result<(), AllocError>
        ensures ok { OnOk result (self.new ≡ record self.old { room = max self.old.room files }) }
        ensures err { OnErr result (self.new ≡ self.old) }
    {
        let _ = self.line.len();
        make_counts(&mut self.counts, self.alloc)?;
        self.line.make_room(files)
    }

    /// The files in line.
    pub fn files(&self) -> &Ordered<Lined>
        ensures files { result.now ≡ self.now }
    {
        &self.line
    }

    /// Puts a file in, in room that is there.
    pub fn insert(&mut self, key: Lined)
        requires room { length self.old.keys < self.old.room }
        requires absent { IsFalse (has_key is_line_before key self.old.keys) }
        ensures keys { self.new ≡ record self.old { keys = put_by is_line_before key self.old.keys } }
    {
        let block = block_of(&key);
        self.line.insert(key);
        let _ = self.line.len();
        raise(&mut self.counts, block);
    }

    /// Takes a file out that is there.
    pub fn remove(&mut self, key: &Lined)
        requires there { IsTrue (has_key is_line_before key.now self.old.keys) }
        ensures keys { self.new ≡ record self.old { keys = without is_line_before key.now self.old.keys } }
    {
        let _ = self.line.len();
        lower(&mut self.counts, block_of(key));
        self.line.remove(key);
    }

    /// Takes a file out where it is there, and says whether it was.
    pub fn take(&mut self, key: &Lined) -> bool
        ensures answer { result ≡ has_key is_line_before key.now self.old.keys }
        ensures taken { result ≡ true → self.new ≡ record self.old { keys = without is_line_before key.now self.old.keys } }
        ensures left { result ≡ false → self.new ≡ self.old }
    {
        let _ = self.line.len();
        let block = block_of(key);
        if !self.line.take(key) {
            return false;
        }
        lower(&mut self.counts, block);
        true
    }

    /// Whether a file of a block is in line.
    pub fn has_block(&self, block: usize) -> bool
        requires inside { block < BLOCKS }
        ensures answer { result ≡ list_any (λ key. is_in_block block key.waiter) self.now.keys }
    {
        let _ = self.line.len();
        match self.counts.as_slice().get(block) {
            Some(count) => *count > 0,
            None => false,
        }
    }
}
