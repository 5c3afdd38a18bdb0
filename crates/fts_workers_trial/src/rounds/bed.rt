//! A keep over a disk in memory, with a bench, a store in memory and words: all that rounds need but a clock.
//! Keeps: the bench holds the files that are out, over some list that the keep is of (`IsReady`), so that a round may be made at any time.
//! Only the tests of this crate use it.
ghost use Rattle.std.specs.Prelude.{◌≤◌, IfOk, OnOk, IsTrue};
ghost use Rattle.fts_record.specs.Proper.{has_priority};
ghost use Rattle.fts_workers.specs.Requests.{IsOfRequest};
ghost use Rattle.fts_workers_trial.specs.Ready.{IsReady};

use fts_config::read_settings;
use fts_disk::MemoryDisk;
use fts_jobdoc::read_job;
use fts_keep::Keep;
use fts_store::MemoryStore;
use fts_tables::{Command, ListClock, ListWords, Memory};
use fts_workers::{Bench, RoundEnd, benches_stay_over_lists, round};
use std::alloc::Global;

/// What a thread works with, all of it in memory.
#[derive(Drop)]
pub struct Bed {
    pub alloc: Global,
    pub keep: Keep<MemoryDisk>,
    pub bench: Bench,
    pub store: MemoryStore,
    pub words: ListWords,
}

impl Bed {
    /// A bed over a new journal, with settings as text and so many places on the bench. Every error is answered as want of memory.
    pub fn new(
        alloc: Global,
        settings: &str,
        places: u32,
        store: MemoryStore,
    ) -> Result<Bed, Memory>
        requires some { 1 ≤ places }
        requires few { places ≤ 16 }
        ensures { IfOk result (λ bed. IsReady bed.keep bed.bench) }
    {
        benches_stay_over_lists::<MemoryDisk>();
        let Ok(settings) = read_settings(alloc, settings.as_bytes()) else {
            return Err(Memory);
        };
        let disk = MemoryDisk::new(alloc, Vec::new(alloc));
        let Ok(keep) = Keep::start(alloc, disk, settings, 0) else {
            return Err(Memory);
        };
        let bench = Bench::new(alloc, places)?;
        let words = ListWords::new([0].to_vec(alloc)?);
        Ok(Bed {
            alloc,
            keep,
            bench,
            store,
            words,
        })
    }

    /// Makes a round at this moment.
    pub fn round(&mut self, now: u64) -> Result<RoundEnd, Memory>
        requires { IsReady self.old.keep self.old.bench }
        ensures { OnOk result (IsReady self.new.keep self.new.bench) }
    {
        let mut clock = ListClock::new([now].to_vec(self.alloc)?);
        Ok(round(
            &mut self.keep,
            &mut self.bench,
            &mut self.store,
            &mut clock,
            &mut self.words,
        ))
    }

    /// Has a command of a request accepted. Every other answer is an error.
    pub fn request(&mut self, command: Command) -> Result<(), Memory>
        requires ready { IsReady self.old.keep self.old.bench }
        requires request { IsOfRequest command }
        requires priority { IsTrue (has_priority command) }
        ensures { OnOk result (IsReady self.new.keep self.new.bench) }
    {
        benches_stay_over_lists::<MemoryDisk>();
        match self.keep.apply(0, command) {
            Ok(_) => Ok(()),
            Err(_) => Err(Memory),
        }
    }

    /// Submits a job document at this moment.
    pub fn submit(&mut self, now: u64, document: &str) -> Result<(), Memory>
        requires { IsReady self.old.keep self.old.bench }
        ensures { OnOk result (IsReady self.new.keep self.new.bench) }
    {
        let Some(settings) = self.keep.desk().settings() else {
            return Err(Memory);
        };
        let Ok(job) = read_job(self.alloc, document.as_bytes(), settings) else {
            return Err(Memory);
        };
        self.request(Command::Submit { now, job })
    }
}
