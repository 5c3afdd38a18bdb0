//! All files by destination, queue, rank and number. A file that brought its destination stands by that destination's number, which tells which file it is, so
//! only its queue and its rank are kept there: it comes and goes without a search. All others stand in an ordered set.
//! Contracts see one list of all. Kept in its type: no file stands in both, and the set has room for all (`AreCrowd`); and files of the set brought no
//! destination, unless one had to go there that did (`AreFollowers`): where another of its number stood by its destination, or no place was there for that.
//! Order: `make_room` before `insert`; no other call takes memory.
ghost use Rattle.std.specs.Prelude.{◌≡◌, ◌<◌, ◌≤◌, ◌+◌, ◌==◌, nat_lt, not, ◌&&◌, [], true, false, max, length, find, IfSome, IfNone, OnOk, OnErr, IsTrue, IsFalse};
ghost use Rattle.ordered.specs.Orders.{AreSortedBy, has_key, put_by, without, first_from, next_after};
ghost use Rattle.fts_heads.specs.declared.ripe_file.RipeFile.{RipeFile};
ghost use Rattle.fts_heads.specs.declared.heads.TheConstants.{MOST_DESTS};
ghost use Rattle.fts_heads.specs.RipeFiles.{goes_by_group, brought};
ghost use Rattle.fts_heads.specs.Crowd.{own_at, is_own, may_own, is_from, sooner, dest_or_least, IsLeast};

use crate::heads::{MOST_DESTS, MOST_QUEUES};
use crate::ripe_file::RipeFile;
use ordered::{Key, Ordered};
use std::alloc::{AllocError, Global};
use std::marker::Model;

/// What stands by a destination: queue and rank of the file that brought it. The queue `MOST_QUEUES`, which no file has there, is for none.
#[derive(Clone, Copy)]
pub struct Own {
    pub queue: u32,
    pub rank: u32,
}

/// All files, of which those that brought their destinations stand by these. `strays`: whether one had to go to the others that did.
pub struct Crowd {
    own: Vec<Own>,
    rest: Ordered<RipeFile>,
    strays: bool,
    len: usize,
    room: usize,
}

impl Drop for Crowd {
    fn drop(self) {
        let Crowd {
            own: _,
            rest: _,
            strays: _,
            len: _,
            room: _,
        } = self;
    }
}

impl Model for Crowd {
    ghost use Rattle.ordered.specs.Orders.{KeySet};
    ghost use Rattle.fts_heads.specs.declared.ripe_file.RipeFile.{RipeFile};

    ghost Value = { KeySet RipeFile };

    ghost use Rattle.fts_heads.specs.Crowd.{with_own, AreCrowd, AreFollowers};

    ghost view = { λ crowd. record { keys = with_own crowd.own.items crowd.rest.keys; room = crowd.room } };

    ghost invariant = { λ crowd. AreCrowd crowd.own.items crowd.len crowd.room crowd.rest × AreFollowers crowd.strays crowd.rest.keys };
}

/// The file that stands by a destination.
fn own_at(own: &[Own], dest: u32) -> Option<RipeFile>
    requires few { length own.now ≤ MOST_DESTS }
    ensures file { result ≡ own_at own.now dest }
{
    match own.get(dest as usize) {
        Some(own) => {
            if own.queue == MOST_QUEUES {
                None
            } else {
                Some(RipeFile {
                    queue: own.queue,
                    dest,
                    rank: own.rank,
                    file: dest + 1,
                })
            }
        }
        None => None,
    }
}

/// Whether a file stands by its destination.
fn is_own(own: &[Own], file: &RipeFile) -> bool
    requires few { length own.now ≤ MOST_DESTS }
    ensures answer { result ≡ is_own own.now file.now }
{
    match own_at(own, file.dest) {
        Some(found) => {
            found.queue == file.queue && found.rank == file.rank && found.file == file.file
        }
        None => false,
    }
}

/// Whether a file may come to stand by its destination: it brought that, and nothing stands there.
fn may_own(own: &[Own], file: &RipeFile) -> bool
    ensures answer { result ≡ may_own own.now file.now }
{
    file.file != 0
        && file.file - 1 == file.dest
        && file.queue != MOST_QUEUES
        && match own.get(file.dest as usize) {
            Some(own) => own.queue == MOST_QUEUES,
            None => false,
        }
}

/// Nobody stands by so many destinations, but for those that are there.
fn add_stands(own: &mut Vec<Own>, dests: usize) -> Result<(), AllocError>
    requires few { dests ≤ MOST_DESTS }
    ensures same { (file : RipeFile) → is_own own.new.items file ≡ is_own own.old.items file }
    ensures ok { OnOk result (dests ≤ length own.new.items) }
    ensures few { length own.old.items ≤ MOST_DESTS → length own.new.items ≤ MOST_DESTS }
{
    own.reserve(dests.saturating_sub(own.len()))?;
    while own.len() < dests {
        own.push_reserved(Own {
            queue: MOST_QUEUES,
            rank: 0,
        });
    }
    Ok(())
}

/// Of the files that stand by destinations less than one, and not less than another, that of the greatest.
fn own_below(own: &[Own], dest: u32, least: u32) -> Option<RipeFile>
    requires few { length own.now ≤ MOST_DESTS }
    ensures least { IsLeast (is_own own.now) (λ file. nat_lt file.dest dest && not (nat_lt file.dest least)) result }
{
    let mut at = own.len().min(dest as usize);
    while at > least as usize {
        at -= 1;
        if let Some(found) = own_at(own, at as u32) {
            return Some(found);
        }
    }
    None
}

/// The first that stands behind a file, of those that stand by destinations not less than one.
fn next_own(own: &[Own], file: &RipeFile, least: u32) -> Option<RipeFile>
    requires few { length own.now ≤ MOST_DESTS }
    requires most { least ≤ file.now.dest }
    ensures least { IsLeast (is_own own.now) (λ other. goes_by_group file.now other && not (nat_lt other.dest least)) result }
{
    if let Some(found) = own_at(own, file.dest) {
        if file.is_before(&found) {
            return Some(found);
        }
    }
    own_below(own, file.dest, least)
}

/// The file that stands by a destination, where it does not stand before another of this destination.
fn own_from(own: &[Own], start: &RipeFile) -> Option<RipeFile>
    requires few { length own.now ≤ MOST_DESTS }
    ensures least { IsLeast (is_own own.now) (is_from start.now) result }
{
    match own_at(own, start.dest) {
        Some(found) => {
            if found.is_before(start) {
                None
            } else {
                Some(found)
            }
        }
        None => None,
    }
}

/// The first that does not stand before a file, of those that stand by destinations not less than one.
fn first_own(own: &[Own], start: &RipeFile, least: u32) -> Option<RipeFile>
    requires few { length own.now ≤ MOST_DESTS }
    requires most { least ≤ start.now.dest }
    ensures least { IsLeast (is_own own.now) (λ other. not (goes_by_group other start.now) && not (nat_lt other.dest least)) result }
{
    if let Some(found) = own_from(own, start) {
        return Some(found);
    }
    own_below(own, start.dest, least)
}

/// The destination of a file, and 0 where there is none.
fn dest_of(file: Option<RipeFile>) -> u32
    ensures dest { result ≡ dest_or_least file }
{
    match file {
        Some(file) => file.dest,
        None => 0,
    }
}

/// The first file of a set that is of another's destination and does not stand before it.
fn first_for(files: &Ordered<RipeFile>, start: &RipeFile) -> Option<RipeFile>
    ensures least { IsLeast (λ file. has_key goes_by_group file files.now.keys) (is_from start.now) result }
{
    let _ = files.len();
    match files.first_from(start) {
        Some(found) => {
            if found.dest == start.dest {
                Some(found)
            } else {
                None
            }
        }
        None => None,
    }
}

/// Whether a file brought a destination.
fn brought(file: &RipeFile, dest: u32) -> bool
    ensures answer { result ≡ brought dest file.now }
{
    file.dest == dest && file.file != 0 && file.file - 1 == dest
}

/// A file of a set that brought a destination. It takes as long as the set has files of the destination.
fn bringer_in(files: &Ordered<RipeFile>, dest: u32) -> Option<RipeFile>
    ensures there { IfSome result (λ file. has_key goes_by_group file files.now.keys ≡ true) }
    ensures own { IfSome result (λ file. brought dest file ≡ true) }
    ensures none { IfNone result ((file : RipeFile) → has_key goes_by_group file files.now.keys ≡ true → brought dest file ≡ false) }
{
    let _ = files.len();
    let mut next = files.first_from(&RipeFile {
        queue: 0,
        dest,
        rank: 0,
        file: 0,
    });
    while let Some(found) = next {
        if found.dest != dest {
            return None;
        }
        if brought(&found, dest) {
            return Some(found);
        }
        next = files.next_after(&found);
    }
    None
}

/// Which of two stands first.
fn sooner(one: Option<RipeFile>, other: Option<RipeFile>) -> Option<RipeFile>
    ensures sooner { result ≡ sooner one other }
{
    match (one, other) {
        (Some(one), Some(other)) => {
            if other.is_before(&one) {
                Some(other)
            } else {
                Some(one)
            }
        }
        (Some(one), None) => Some(one),
        (None, other) => other,
    }
}

impl Crowd {
    /// No file, and no room. What grows later takes its memory from `alloc`.
    pub fn new(alloc: Global) -> Crowd
        ensures keys { result ≡ record { keys = []; room = 0 } }
    {
        Crowd {
            own: Vec::new(alloc),
            rest: Ordered::new(alloc),
            strays: false,
            len: 0,
            room: 0,
        }
    }

    /// Makes room for so many files in all. No room falls, and at an `Err` all stays as it is.
    pub fn make_room(&mut self, files: usize) -> Result<(), AllocError>
        ensures ok { OnOk result (self.new ≡ record self.old { room = max self.old.room files }) }
        ensures err { OnErr result (self.new ≡ self.old) }
    {
        let _ = self.rest.len();
        if files <= self.room {
            return Ok(());
        }
        add_stands(&mut self.own, files.min(MOST_DESTS as usize))?;
        self.rest.make_room(files)?;
        self.room = files;
        Ok(())
    }

    /// A file that brought a destination; None exactly where none is there. It is had at once, as long as there are no strays.
    pub fn own_at(&self, dest: u32) -> Option<RipeFile>
        ensures there { IfSome result (λ file. has_key goes_by_group file self.now.keys ≡ true) }
        ensures own { IfSome result (λ file. brought dest file ≡ true) }
        ensures none { IfNone result ((file : RipeFile) → has_key goes_by_group file self.now.keys ≡ true → brought dest file ≡ false) }
    {
        match own_at(self.own.as_slice(), dest) {
            Some(found) => Some(found),
            None => {
                if self.strays {
                    bringer_in(&self.rest, dest)
                } else {
                    None
                }
            }
        }
    }

    /// The first of the files with the number that no destination has.
    pub fn first_without_dest(&self) -> Option<RipeFile>
        ensures first { result ≡ find (λ file. file.dest == MOST_DESTS) self.now.keys }
    {
        let _ = self.rest.len();
        match self.rest.first() {
            Some(found) => {
                if found.dest == MOST_DESTS {
                    Some(found)
                } else {
                    None
                }
            }
            None => None,
        }
    }

    /// The first file of another's destination that does not stand before it.
    pub fn first_for(&self, start: &RipeFile) -> Option<RipeFile>
        ensures first { result ≡ find (is_from start.now) self.now.keys }
    {
        let _ = self.rest.len();
        sooner(
            own_from(self.own.as_slice(), start),
            first_for(&self.rest, start),
        )
    }

    /// The first file that does not stand before one, which need not be there. It takes as long as there are destinations between the two.
    pub fn first_from(&self, file: &RipeFile) -> Option<RipeFile>
        ensures file { result ≡ first_from goes_by_group file.now self.now.keys }
    {
        let _ = self.rest.len();
        let found = self.rest.first_from(file);
        sooner(first_own(self.own.as_slice(), file, dest_of(found)), found)
    }

    /// The first file that stands behind one, which need not be there. It takes as long as there are destinations between the two.
    pub fn next_after(&self, file: &RipeFile) -> Option<RipeFile>
        ensures file { result ≡ next_after goes_by_group file.now self.now.keys }
    {
        let _ = self.rest.len();
        let found = self.rest.next_after(file);
        sooner(next_own(self.own.as_slice(), file, dest_of(found)), found)
    }

    /// Whether a file is there.
    pub fn has(&self, file: &RipeFile) -> bool
        ensures answer { result ≡ has_key goes_by_group file.now self.now.keys }
    {
        is_own(self.own.as_slice(), file) || self.rest.has(file)
    }

    /// How many files there are. Its clauses also say that they are sorted, and no more than the room.
    pub fn len(&self) -> usize
        ensures len { result ≡ length self.now.keys }
        ensures order { AreSortedBy goes_by_group self.now.keys }
        ensures room { length self.now.keys ≤ self.now.room }
    {
        let _ = self.rest.len();
        self.len
    }

    /// A file comes in, in room that is there.
    pub fn insert(&mut self, file: RipeFile)
        requires room { length self.old.keys < self.old.room }
        requires absent { IsFalse (has_key goes_by_group file self.old.keys) }
        ensures keys { self.new ≡ record self.old { keys = put_by goes_by_group file self.old.keys } }
    {
        let _ = self.rest.len();
        self.len += 1;
        if !may_own(self.own.as_slice(), &file) {
            self.strays |= brought(&file, file.dest);
            self.rest.insert(file);
            return;
        }
        self.own[file.dest as usize] = Own {
            queue: file.queue,
            rank: file.rank,
        };
    }

    /// A file goes that is there.
    pub fn remove(&mut self, file: &RipeFile)
        requires there { IsTrue (has_key goes_by_group file.now self.old.keys) }
        ensures keys { self.new ≡ record self.old { keys = without goes_by_group file.now self.old.keys } }
    {
        let _ = self.rest.len();
        self.len -= 1;
        if !is_own(self.own.as_slice(), file) {
            self.rest.remove(file);
            return;
        }
        self.own[file.dest as usize] = Own {
            queue: MOST_QUEUES,
            rank: 0,
        };
    }
}
