//! The chronicle of a list of entries: each report of a copy, what was done to files by name, when jobs were settled, the last moment, and that of the
//! last restart.
//! Contracts see what the entries told, and whether there is room for one entry more. Kept in its type (`IsChronicle`): where there is, there is memory.
//! Order: `make_room` before `add`, which takes no memory.
ghost use Rattle.std.specs.Prelude.{◌≡◌, [], true, false, IsTrue, OnOk, OnErr};
ghost use Rattle.fts_chronicle.specs.Chronicle.{chronicle_of, chronicle_with};
ghost use Rattle.fts_chronicle.specs.Finishes.{finish_at};

use crate::events::{FileEvent, event_by};
use crate::finishes::add_finishes;
use crate::telling::{now_of, report_by, restart_by};
use fts_desk::Desk;
use fts_tables::{Answer, Command, Memory, Outcome};
use std::alloc::Global;
use std::marker::Model;

/// How the copy of a file ended at an attempt. The moment is in seconds since 1970.
#[derive(Clone, Copy, Debug, PartialEq, Eq)]
pub struct CopyReport {
    pub moment: u64,
    pub file: u32,
    pub attempt: u32,
    pub outcome: Outcome,
}

/// What the entries so far told. Moments are in seconds since 1970.
#[derive(Drop)]
pub struct Chronicle {
    moment: u64,
    restart: u64,
    reports: Vec<CopyReport>,
    events: Vec<FileEvent>,
    finishes: Vec<u64>,
    ready: bool,
}

impl Model for Chronicle {
    ghost use Rattle.fts_chronicle.specs.Chronicle.{KeptChronicle};

    ghost Value = { KeptChronicle };

    ghost use Rattle.fts_chronicle.specs.Kept.{kept_chronicle, IsChronicle};

    ghost view = { kept_chronicle };

    ghost invariant = { IsChronicle };
}

impl Chronicle {
    /// The chronicle of no entry, without room. What grows later takes its memory from `alloc`.
    pub fn new(alloc: Global) -> Chronicle
        ensures { result ≡ record { told = chronicle_of []; ready = false } }
    {
        Chronicle {
            moment: 0,
            restart: 0,
            reports: Vec::new(alloc),
            events: Vec::new(alloc),
            finishes: Vec::new(alloc),
            ready: false,
        }
    }

    /// Makes room for what one entry more tells, where there is none. At an `Err` all stays as it is.
    pub fn make_room(&mut self) -> Result<(), Memory>
        ensures ok { OnOk result (self.new ≡ record self.old { ready = true }) }
        ensures err { OnErr result (self.new ≡ self.old) }
    {
        self.reports.reserve(1)?;
        self.events.reserve(1)?;
        self.finishes.reserve(1)?;
        self.ready = true;
        Ok(())
    }

    /// Adds what the next entry tells, by its command, the answer and the desk behind it, in room that is there. It takes no memory and can't fail.
    pub fn add(&mut self, desk: &Desk, command: &Command, answer: Answer)
        requires room { IsTrue self.old.ready }
        ensures { self.new ≡ record { told = chronicle_with self.old.told command.now answer desk.now.tables; ready = false } }
    {
        self.ready = false;
        self.moment = now_of(command);
        if let Some(moment) = restart_by(command) {
            self.restart = moment;
        }
        if let Some(event) = event_by(self.reports.as_slice().len(), command, answer) {
            self.events.push_reserved(event);
        }
        if let Some(report) = report_by(command) {
            self.reports.push_reserved(report);
        }
        add_finishes(&mut self.finishes, desk, command);
    }

    /// The moment of the last command, and 0 where there was none.
    pub fn moment(&self) -> u64
        ensures { result ≡ self.now.told.moment }
    {
        self.moment
    }

    /// The moment of the last Restart, and 0 where there was none.
    pub fn restart(&self) -> u64
        ensures { result ≡ self.now.told.restart }
    {
        self.restart
    }

    /// The reports, in the order of their entries.
    pub fn reports(&self) -> &[CopyReport]
        ensures { result.now ≡ self.now.told.reports }
    {
        &self.reports
    }

    /// What the entries did to files, in their order.
    pub fn events(&self) -> &[FileEvent]
        ensures { result.now ≡ self.now.told.events }
    {
        &self.events
    }

    /// The moment at which the job of a number was settled; 0 while a file of it waits or runs, and where there is no such job.
    pub fn finish(&self, number: u32) -> u64
        ensures { result ≡ finish_at self.now.told.finishes number }
    {
        let place = number.saturating_sub(1) as usize;
        self.finishes.as_slice().get(place).copied().unwrap_or(0)
    }
}
