//! The monitor: the desk that a journal's entries make, the chronicle of what they told beside, and how far the journal was passed.
//! Keeps: the tables are those of a legal list, whose spellings are the bodies up to the gate, and the chronicle is that list's (`IsMonitor`).
//! Order: a look takes the bodies behind the gate one by one: each is read, there is made room for what it tells, it is done by the desk and told, and
//! only then passed. So where it stops, what was folded stays on view, and the next look goes on from there.
ghost use Rattle.std.specs.Prelude.{◌≡◌, ◌<◌, ◌+◌, ◌^◌, Ok, OnOk, OnErr};
ghost use Rattle.fts_tables.specs.Step.{step};
ghost use Rattle.fts_tables.specs.declared.commands.Answer.{Answer};
ghost use Rattle.fts_tables.specs.declared.commands.Entry.{Entry};
ghost use Rattle.fts_chronicle.specs.Chronicle.{chronicle_with};
ghost use Rattle.fts_record.specs.Proper.{IsProper};
ghost use Rattle.fts_record.specs.Spelling.{spelled};
ghost use Rattle.fts_watch.specs.Monitor.{Takes};

use crate::MonitorFault;
use fts_chronicle::Chronicle;
use fts_chronicle::laws::chronicles_grow_by_entries;
use fts_desk::{Desk, DeskFault};
use fts_disk::Disk;
use fts_journal::FRONT_BYTES;
use fts_record::{ReadFault, read_entry};
use fts_tail::Tail;
use std::alloc::Global;
use std::marker::Model;

/// The tables of a journal, as far as it was looked at. Contracts see them, the number of entries that made them, what these told beside, the offset of the
/// gate behind the last of them, and the disk.
pub struct Monitor<D: Disk> {
    alloc: Global,
    desk: Desk,
    chronicle: Chronicle,
    tail: Tail<D>,
}

impl<D: Disk + Drop> Drop for Monitor<D> {
    fn drop(self) {
        let Monitor {
            alloc: _,
            desk: _,
            chronicle: _,
            tail: _,
        } = self;
    }
}

impl<D: Disk> Model for Monitor<D> {
    ghost use Rattle.fts_watch.specs.Monitor.{MonitorData, IsMonitor};

    ghost Value = { MonitorData D };

    ghost view = { λ m. record {
      tables = m.desk.tables;
      commands = m.desk.commands;
      chronicle = m.chronicle.told;
      used = m.tail.used;
      disk = m.tail.disk;
    } };

    ghost invariant = { λ m. IsMonitor D.state (record {
      tables = m.desk.tables;
      commands = m.desk.commands;
      chronicle = m.chronicle.told;
      used = m.tail.used;
      disk = m.tail.disk;
    }) };
}

impl<D: Disk> Monitor<D> {
    ghost use Rattle.std.specs.Prelude.{◌≡◌, ◌<◌, [], true, false, IfOk, IfErr, OnOk, MatchResult};
    ghost use Rattle.fts_tables.specs.declared.limits.TheConstants.{JOURNAL_END};
    ghost use Rattle.fts_watch.specs.Monitor.{IsFoldOf, IsMonitor, GoesOn, IsAll, OnlyLooks, LookFault, OpenFault};

    /// A monitor of a journal, of which no entry was folded. Gives the disk back where there is none.
    pub fn open(alloc: Global, disk: D) -> Result<Monitor<D>, (MonitorFault, D)>
        ensures looks { MatchResult result (λ m. OnlyLooks D.state D.faults disk m.disk) (λ e. OnlyLooks D.state D.faults disk e.1) }
        ensures none { IfOk result (λ m. IsFoldOf D.state m []) }
        ensures cause { IfErr result (λ e. OpenFault D.state D.faults disk e.1 e.0) }
    {
        match Tail::begin(alloc, disk) {
            Ok(tail) => Ok(Monitor {
                alloc,
                desk: Desk::empty(alloc),
                chronicle: Chronicle::new(alloc),
                tail,
            }),
            Err((fault, disk)) => Err((fault.into(), disk)),
        }
    }

    /// Folds what stands behind the last look. A body that is being written is none, and where nothing was appended it is one call of the disk.
    /// At `Ok` the tables are those of all entries; otherwise those of the entries before what stopped it.
    pub fn look(&mut self) -> Result<(), MonitorFault>
        ensures goes_on { GoesOn D.state self.old self.new }
        ensures looks { OnlyLooks D.state D.faults self.old.disk self.new.disk }
        ensures all { OnOk result (IsAll D.state self.new) }
        ensures cause { IfErr result (LookFault D.state D.faults self.old self.new) }
    {
        'bodies: while true {
            if !self.step()? {
                return Ok(());
            }
        }
        Ok(())
    }

    // Folds the next body, and says whether there was one.
    fn step(&mut self) -> Result<bool, MonitorFault>
        ensures goes_on { GoesOn D.state self.old self.new }
        ensures looks { OnlyLooks D.state D.faults self.old.disk self.new.disk }
        ensures all { IfOk result (λ more. more ≡ false → IsAll D.state self.new) }
        ensures low { self.old.used < JOURNAL_END }
        ensures further { IfOk result (λ more. more ≡ true → self.old.used < self.new.used) }
        ensures cause { IfErr result (LookFault D.state D.faults self.old self.new) }
    {
        chronicles_grow_by_entries();
        if !self.tail.look()? {
            return Ok(false);
        }
        let gate = self.tail.used();
        take_entry(
            self.alloc,
            &mut self.desk,
            &mut self.chronicle,
            self.tail.body(),
            gate,
        )?;
        self.tail.pass();
        Ok(true)
    }

    /// The tables, as far as they were folded.
    pub fn desk(&self) -> &Desk
        ensures tables { result.now.tables ≡ self.now.tables }
        ensures commands { result.now.commands ≡ self.now.commands }
        ensures fold { IsMonitor D.state self.now }
    {
        &self.desk
    }

    /// What the entries that were folded told beside the tables.
    pub fn chronicle(&self) -> &Chronicle
        ensures told { result.now.told ≡ self.now.chronicle }
        ensures fold { IsMonitor D.state self.now }
    {
        &self.chronicle
    }

    /// The offset of the gate behind the entries that were folded, in bytes.
    pub fn used(&self) -> u64
        ensures { result ≡ self.now.used }
    {
        self.tail.used()
    }

    /// The disk, given back.
    pub fn close(self) -> D
        ensures { result ≡ self.disk }
    {
        let Monitor {
            alloc: _,
            desk: _,
            chronicle: _,
            tail,
        } = self;
        tail.close()
    }
}

// Does the entry that a body spells, and tells it. Its gate is at this offset, in bytes.
fn take_entry(
    alloc: Global,
    desk: &mut Desk,
    chronicle: &mut Chronicle,
    body: &[u8],
    gate: u64,
) -> Result<(), MonitorFault>
    requires few { desk.old.commands < 4294967295 }
    requires low { gate < 2 ^ 62 }
    ensures takes { Takes desk.old.tables gate body.now desk.new.tables result }
    ensures commands { OnOk result (desk.new.commands ≡ desk.old.commands + 1) }
    ensures kept { OnErr result (desk.new.tables ≡ desk.old.tables) }
    ensures counted { OnErr result (desk.new.commands ≡ desk.old.commands) }
    ensures told { OnOk result ((entry : Entry) (answer : Answer) → IsProper entry → body.now ≡ spelled entry
        → step desk.old.tables entry.command ≡ Ok (desk.new.tables, answer)
        → chronicle.new.told ≡ chronicle_with chronicle.old.told entry.command answer desk.new.tables) }
    ensures untold { OnErr result (chronicle.new.told ≡ chronicle.old.told) }
{
    let entry = match read_entry(alloc, body) {
        Ok(entry) => entry,
        Err(ReadFault::BadEntry { at }) => {
            let offset = gate + FRONT_BYTES + at as u64;
            return Err(MonitorFault::Damaged { offset });
        }
        Err(ReadFault::Memory) => return Err(MonitorFault::Memory),
    };
    if chronicle.make_room().is_err() {
        return Err(MonitorFault::Memory);
    }
    match desk.prepare(&entry.command) {
        Ok(plan) => {
            let answer = desk.commit(plan);
            chronicle.add(desk, &entry.command, answer);
            Ok(())
        }
        Err(DeskFault::Rule(_)) => Err(MonitorFault::Damaged { offset: gate }),
        Err(DeskFault::Memory) => Err(MonitorFault::Memory),
    }
}
