//! Deletions on a disk: a list of events, and the rows that it makes.
//! Keeps: the rows are the fold of the list, and every image of a told disk stands for the list, or for it with the event in doubt (`IsTied`).
ghost use Rattle.std.specs.Prelude.{◌≡◌, ◌≤◌, length, IfOk, IfErr, Ok, Err};

use crate::DeleteFault;
use crate::asking::ask;
use crate::folding::fold;
use crate::opening::open;
use crate::rows::DeleteRow;
use crate::walking::walk;
use fts_disk::Disk;
use fts_journal::Journal;
use fts_store::Store;
use fts_tables::Place;
use std::alloc::Global;
use std::marker::Model;

/// Deletions on a disk. Contracts see the list of events, the event in doubt or none, the rows, the number of bytes used, and the disk; over a
/// disk that doesn't tell its contents they see the list empty, and the rest all the same.
#[derive(Drop)]
pub struct Deletes<D: Disk> {
    alloc: Global,
    rows: Vec<DeleteRow>,
    journal: Journal<D>,
}

impl<D: Disk> Model for Deletes<D> {
    ghost use Rattle.fts_delete.specs.Journals.{DeletesData};
    ghost use Rattle.fts_delete.specs.Views.{deletes_of, IsTied};

    ghost Value = { DeletesData D };

    ghost view = { λ d. deletes_of D.state d.rows.items d.journal };

    ghost invariant = { λ d. IsTied D.state d.rows.items d.journal };
}

impl<D: Disk> Deletes<D> {
    ghost use Rattle.std.specs.Prelude.{◌≡◌, ◌≤◌, length, IfOk, IfErr, Ok, Err};
    ghost use Rattle.fts_delete.specs.Rows.{most_asked};
    ghost use Rattle.fts_delete.specs.Journals.{IsDeletes, KeepsImages};
    ghost use Rattle.fts_delete.specs.Opened.{Opened};
    ghost use Rattle.fts_delete.specs.Asked.{Asked};
    ghost use Rattle.fts_delete.specs.Passed.{Passed};

    /// Makes a journal on an empty disk, or folds the one that is there. Gives the disk back where it isn't opened.
    /// `JournalFull` and `RowsFull` never come.
    pub fn open(alloc: Global, disk: D) -> Result<Deletes<D>, (DeleteFault, D)>
        ensures ok { IfOk result (λ deletes. Opened D.state D.faults disk (Ok deletes)) }
        ensures err { IfErr result (λ stopped. Opened D.state D.faults disk (Err stopped)) }
    {
        let mut journal = match open(alloc, disk) {
            Ok(journal) => journal,
            Err(stopped) => return Err(stopped),
        };
        match fold(alloc, &mut journal) {
            Ok(rows) => Ok(Deletes {
                alloc,
                rows,
                journal,
            }),
            Err(fault) => Err((fault, journal.close())),
        }
    }

    /// Asks for the files at these places, 1 to `MAX_ASKED`: all of them in one event, or none. `Damaged` never comes.
    /// `RowsFull` comes before anything else is looked at, and `JournalFull` before an old doubt is ended.
    pub fn ask(&mut self, places: &[Place]) -> Result<(), DeleteFault>
        requires some { 1 ≤ length places.now }
        requires most { length places.now ≤ most_asked }
        ensures asked { Asked D.state D.faults self.old self.new places.now result }
        // Since any opening of the list each image is a beginning of it, with one event more at most.
        ensures images { KeepsImages D.state self.old self.new }
    {
        ask(self.alloc, &mut self.rows, &mut self.journal, places)
    }

    /// Visits each row that waits, once and in order of id, and records what came of each visit before the next one. A row whose last look found
    /// no file is finished, any other is missed once more. `Damaged` and `RowsFull` never come.
    /// Where it stopped, the events of the visits before are recorded. One visit more at most was made, and none where the journal is full.
    pub fn pass<E: Store>(&mut self, store: &mut E) -> Result<(), DeleteFault>
        ensures passed { Passed D.state D.faults E.state E.faults E.calls self.old self.new store.old store.new result }
    {
        walk(self.alloc, &mut self.rows, &mut self.journal, store)
    }

    /// The rows, in order of id.
    pub fn rows(&self) -> &[DeleteRow]
        ensures rows { result.now ≡ self.now.rows }
        ensures kept { IsDeletes D.state self.now }
    {
        &self.rows
    }

    /// The rows are the fold of the list, and each image of a told disk stands for the list, or for it with the event in doubt.
    pub fn standing(&self)
        ensures { IsDeletes D.state self.now }
    {
        let _rows = &self.rows;
    }

    /// The offset of the journal's last gate, in bytes.
    pub fn used(&self) -> u64
        ensures { result ≡ self.now.used }
    {
        self.journal.used()
    }

    /// The disk, given back.
    pub fn close(self) -> D
        ensures disk { result ≡ self.disk }
        ensures kept { IsDeletes D.state self }
    {
        let Deletes {
            alloc: _,
            rows: _,
            journal,
        } = self;
        journal.close()
    }
}
