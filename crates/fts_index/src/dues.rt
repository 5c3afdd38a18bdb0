//! The moments at which waiting files become overdue, in order, so that the first tells whether any file is.
//! Contracts see the moments with their files, how many files may have one, and the room. Kept in its type (`AreDues`): the moments are in order, no more
//! files have one than may, and there is room for those.
//! Order: `make_room` for the files of a job before `add_rows`; that and `change` take no memory. A file's moment comes from its job and never changes
//! while it waits: it comes in where the file begins to wait, and goes where it no longer does.
ghost use Rattle.std.specs.Prelude.{◌≡◌, ◌<◌, ◌≤◌, ◌+◌, ◌==◌, Bool, [], max, length, count_by, slice_get, IsTrue, OnOk, OnErr, IfSome};
ghost use Rattle.ordered.specs.Orders.{AreSortedBy, has_key};
ghost use Rattle.fts_tables.specs.Dues.{is_due_before, is_first_due};
ghost use Rattle.fts_index.specs.DueLists.{due_at, counted, MayChange, HasChanged};
ghost use Rattle.fts_index.specs.RowDues.{comes_in, MayAdd, HasAdded};

use fts_tables::{FileRow, Memory};
use ordered::{Key, Ordered};
use std::alloc::Global;
use std::marker::Model;

/// A waiting file, and the moment from which it is overdue, in seconds.
#[derive(Clone, Copy)]
pub struct Due {
    pub moment: u64,
    pub file: u32,
}

impl Model for Due {
    ghost use Rattle.fts_tables.specs.Dues.{Due};

    ghost Value = { Due };

    ghost view = { λ due. record { moment = due.moment; file = due.file } };

    ghost inverse = { λ due. record { moment = due.moment; file = due.file } };
}

impl Key for Due {
    ghost use Rattle.fts_index.specs.DueOrder.{dues_are_ordered};

    ghost before = { is_due_before };

    fn is_before(&self, other: &Due) -> bool {
        self.moment < other.moment || (self.moment == other.moment && self.file < other.file)
    }

    ghost order = { dues_are_ordered };
}

/// The moments of files in order, and how many files may have one.
pub struct Dues {
    dues: Ordered<Due>,
    files: usize,
}

impl Drop for Dues {
    fn drop(self) {
        let Dues { dues: _, files: _ } = self;
    }
}

impl Model for Dues {
    ghost use Rattle.fts_index.specs.DueLists.{DueList};

    ghost Value = { DueList };

    ghost use Rattle.fts_index.specs.Dues.{due_list, AreDues};

    ghost view = { due_list };

    ghost invariant = { AreDues };
}

/// Takes the moment of a file out, where it has one.
fn take_out(dues: &mut Ordered<Due>, file: u32, moment: Option<u64>)
    requires order { AreSortedBy is_due_before dues.old.keys }
    requires there { IfSome moment (λ from. IsTrue (has_key is_due_before (due_at file from) dues.old.keys)) }
    ensures counts { (test : Due → Bool) → count_by test dues.new.keys + counted test file moment ≡ count_by test dues.old.keys }
    ensures order { AreSortedBy is_due_before dues.new.keys }
    ensures room { dues.new.room ≡ dues.old.room }
{
    if let Some(moment) = moment {
        dues.remove(&Due { moment, file });
    }
}

/// Puts the moment of a file in, where it gets one.
fn put_in(dues: &mut Ordered<Due>, file: u32, moment: Option<u64>)
    requires order { AreSortedBy is_due_before dues.old.keys }
    requires absent { count_by (λ due. due.file == file) dues.old.keys ≡ 0 }
    requires room { IfSome moment (λ from. length dues.old.keys < dues.old.room) }
    ensures counts { (test : Due → Bool) → count_by test dues.new.keys ≡ count_by test dues.old.keys + counted test file moment }
    ensures order { AreSortedBy is_due_before dues.new.keys }
    ensures room { dues.new.room ≡ dues.old.room }
{
    if let Some(moment) = moment {
        dues.insert(Due { moment, file });
    }
}

/// Puts the moments of the rows in that wait.
fn put_rows(dues: &mut Ordered<Due>, rows: &[FileRow], moment: Option<u64>)
    requires order { AreSortedBy is_due_before dues.old.keys }
    requires may { MayAdd rows.now moment (record { dues = dues.old.keys; files = length dues.old.keys; room = dues.old.room }) }
    ensures counts { (test : Due → Bool) → count_by test dues.new.keys ≡ count_by test dues.old.keys + count_by (comes_in test moment) rows.now }
    ensures order { AreSortedBy is_due_before dues.new.keys }
    ensures room { dues.new.room ≡ dues.old.room }
{
    for row in rows {
        if row.state.is_submitted() {
            put_in(dues, row.id, moment);
        }
    }
}

impl Dues {
    /// No moment, no file, no room. What grows later takes its memory from `alloc`.
    pub fn new(alloc: Global) -> Dues
        ensures list { result ≡ record { dues = []; files = 0; room = 0 } }
    {
        Dues {
            dues: Ordered::new(alloc),
            files: 0,
        }
    }

    /// Makes room for so many files more than may have a moment now. No room falls, and at an `Err` all stays as it is.
    pub fn make_room(&mut self, more: usize) -> Result<(), Memory>
        ensures ok { OnOk result (self.new ≡ record self.old { room = max self.old.room (self.old.files + more) }) }
        ensures err { OnErr result (self.new ≡ self.old) }
    {
        match self.files.checked_add(more) {
            Some(files) => {
                self.dues.make_room(files)?;
                Ok(())
            }
            None => Err(Memory),
        }
    }

    /// The rows of a new job, whose files are overdue from a moment on: those that wait come in, and each may have the moment from then on. Of a job that
    /// doesn't limit their time nothing changes.
    pub fn add_rows(&mut self, rows: &[FileRow], moment: Option<u64>)
        requires may { MayAdd rows.now moment self.old }
        ensures added { HasAdded rows.now moment self.old self.new }
    {
        if moment.is_some() {
            put_rows(&mut self.dues, rows, moment);
            self.files += rows.len();
        }
    }

    /// A file that had a moment, or none, has another one or none from now on. Of equal ones nothing changes.
    pub fn change(&mut self, file: u32, was: Option<u64>, is: Option<u64>)
        requires may { MayChange file was is self.old }
        ensures changed { HasChanged file was is self.old self.new }
    {
        if was != is {
            take_out(&mut self.dues, file, was);
            put_in(&mut self.dues, file, is);
        }
    }

    /// The file with the least moment, of several that with the least id. None exactly where no file has one.
    pub fn first(&self) -> Option<Due>
        ensures first { result ≡ slice_get self.now.dues 0 }
    {
        self.dues.first()
    }

    /// Whether the least moment has come, in seconds.
    pub fn is_due(&self, now: u64) -> bool
        ensures answer { result ≡ is_first_due now self.now.dues }
    {
        match self.dues.first() {
            Some(due) => due.moment <= now,
            None => false,
        }
    }

    /// How many files have a moment.
    pub fn len(&self) -> usize
        ensures len { result ≡ length self.now.dues }
    {
        self.dues.len()
    }
}
