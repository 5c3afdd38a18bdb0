//! The keep: a list of entries on a disk, and the desk that the list makes.
//! Keeps: the tables are the fold of the list over every disk, and every image of a told disk stands for the list, or for it with the entry in doubt
//! (`IsKept`).
//! Order: a start opens the journal, folds its entries and has a Restart accepted; each command after it is checked, journaled and then done.
//! It knows neither.
ghost use Rattle.std.specs.Prelude.{◌≡◌, IsSome, IfOk, IfErr, IsTrue, Ok, Err, true, List};
ghost use Rattle.fts_tables.specs.Settling.{settles};
ghost use Rattle.fts_tables.specs.declared.commands.Entry.{Entry};
ghost use Rattle.fts_record.specs.Proper.{has_priority};
ghost use Rattle.fts_keep.specs.Applied.{Applied, AppliesSafely, DoubtIsOwn, entry_by};
ghost use Rattle.fts_keep.specs.Ending.{KeepsFirstLimit, LeavesRoom, IsNotFull, StaysFilled};
ghost use Rattle.fts_keep.specs.Started.{Started, Viewed};
ghost use Rattle.fts_keep.specs.Looking.{GivesEntry};

use crate::KeepFault;
use crate::accepting::accept;
use crate::folding::fold;
use crate::laws::{damage_is_one, the_end_strands_nobody};
use crate::list::EntryList;
use crate::opening::open;
use fts_desk::Desk;
use fts_disk::Disk;
use fts_journal::Journal;
use fts_record::laws::what_is_spelled_is_read;
use fts_tables::{Answer, Command, Entry, Settings};
use std::alloc::Global;
use std::marker::Model;

/// A list of entries on a disk, and the desk that it makes. Contracts see the list, the entry in doubt or none, the tables, the number of bytes
/// used, and the disk. The list takes no memory: it is what was folded at the start and accepted since, over every disk; over one that tells its
/// contents it is also what the disk's bytes stand for.
pub struct Keep<D: Disk> {
    alloc: Global,
    desk: Desk,
    journal: Journal<D>,
    list: EntryList,
}

impl<D: Disk + Drop> Drop for Keep<D> {
    fn drop(self) {
        let Keep {
            alloc: _,
            desk: _,
            journal: _,
            list: _,
        } = self;
    }
}

impl<D: Disk> Model for Keep<D> {
    ghost use Rattle.fts_keep.specs.Keeps.{KeepData};
    ghost use Rattle.fts_keep.specs.Views.{keep_of, IsKept};

    ghost Value = { KeepData D };

    ghost view = { λ k. keep_of D.state k.desk k.journal k.list.entries };

    ghost invariant = { λ k. IsKept D.state k.desk k.journal k.list.entries };
}

impl<D: Disk> Keep<D> {
    ghost use Rattle.std.specs.Prelude.{◌≡◌, ◌<◌, IsSome, IfOk, IfErr, IsTrue, Ok, Err};
    ghost use Rattle.fts_disk.specs.Disk.{IsTold};
    ghost use Rattle.fts_keep.specs.Keeps.{with_doubt, IsFilledBy, IsKeep, Grows, DoubtHasCause, KeepsImagesSinceAny};

    /// Makes a journal on an empty disk, or folds the one that is there, and then has a Restart of writer 0 accepted.
    /// `now` is in seconds since 1970. Gives the disk back where it isn't started; `Rule` never comes.
    pub fn start(
        alloc: Global,
        disk: D,
        settings: Settings,
        now: u64,
    ) -> Result<Keep<D>, (KeepFault, D)>
        ensures ok { IfOk result (λ keep. Started D.state D.faults disk settings now (Ok keep)) }
        ensures err { IfErr result (λ stopped. Started D.state D.faults disk settings now (Err stopped)) }
    {
        damage_is_one();
        what_is_spelled_is_read();
        let mut journal = match open(alloc, disk) {
            Ok(journal) => journal,
            Err(stopped) => return Err(stopped),
        };
        let (mut desk, mut list) = match fold(alloc, &mut journal) {
            Ok(made) => made,
            Err(fault) => return Err((fault, journal.close())),
        };
        let restart = Entry {
            writer: 0,
            command: Command::Restart { now, settings },
        };
        match accept(alloc, &mut desk, &mut journal, &mut list, &restart) {
            Ok(_) => Ok(Keep {
                alloc,
                desk,
                journal,
                list,
            }),
            Err(fault) => Err((fault, journal.close())),
        }
    }

    /// Tries a command of a writer. At `Ok` the tables are the machine's and every crash leaves the command; a refusal leaves list and tables as
    /// they were. `Rule` comes exactly where the machine refuses, `JournalFull` exactly by the limit of the journal that the command has; `Damaged`
    /// never.
    /// After `DiskFailed` one entry is in doubt at most, an old one or this one, and the next command that passes its checks ends the doubt first.
    pub fn apply(&mut self, writer: u32, command: Command) -> Result<Answer, KeepFault>
        requires priority { IsTrue (has_priority command) }
        ensures applied { Applied D.state D.faults self.old self.new (entry_by writer command) result }
        ensures safe { AppliesSafely D.state self.old self.new (entry_by writer command) }
        ensures grows { Grows D.state D.faults writer self.old self.new }
        // Without a failure of the disk nothing comes into doubt, and no other entry than this one ever does, over every disk.
        ensures doubt_cause { DoubtHasCause D.state D.faults self.old self.new }
        ensures doubt_own { DoubtIsOwn D.faults self.old self.new (entry_by writer command) }
        // Since any opening of the list each image is a beginning of it, with one entry more at most.
        ensures images { KeepsImagesSinceAny D.state self.old self.new }
        // The journal's end strands nobody: behind a list that leaves room, what settles something isn't refused for want of it. The list is the
        // keep's own, or any that its tables and bytes are of.
        ensures room { (entries : List Entry) → IsFilledBy self.old entries → LeavesRoom entries → settles command ≡ true → IsNotFull result }
        // Its own list keeps the first limit from call to call; where the disk tells its contents, with the entry in doubt too.
        ensures limit { KeepsFirstLimit self.old.entries → KeepsFirstLimit self.new.entries }
        ensures doubt_limit { IsTold (D.state self.old.disk) → KeepsFirstLimit (with_doubt self.old.entries self.old.doubt)
            → KeepsFirstLimit (with_doubt self.new.entries self.new.doubt) }
        ensures filled { StaysFilled self.old self.new (entry_by writer command) result }
    {
        the_end_strands_nobody();
        let entry = Entry { writer, command };
        accept(
            self.alloc,
            &mut self.desk,
            &mut self.journal,
            &mut self.list,
            &entry,
        )
    }

    /// The desk that the list makes. It has settings in force.
    pub fn desk(&self) -> &Desk
        ensures tables { result.now.tables ≡ self.now.tables }
        ensures commands { result.now.commands ≡ self.now.commands }
        ensures settings { IsSome result.now.tables.settings }
        ensures kept { IsKeep D.state self.now }
    {
        &self.desk
    }

    /// The offset of the journal's last gate, in bytes.
    pub fn used(&self) -> u64
        ensures { result ≡ self.now.used }
    {
        self.journal.used()
    }

    /// Puts the spelling of the n-th entry, from 0, in the place of what is there: by one read, wherever the entry stands.
    /// Nothing is written, and list, tables and doubt stay. `DiskFailed` comes only where the disk counted a failure in this call, and else `Memory`
    /// alone; the buffer may then hold anything.
    pub fn entry_bytes(&mut self, n: u32, into: &mut Vec<u8>) -> Result<(), KeepFault>
        requires { n < self.old.commands }
        ensures { GivesEntry D.state D.faults self.old self.new n into.new.items result }
    {
        // The bytes that are used are those of the bodies.
        self.journal.used();
        self.journal.body(n as usize, into)?;
        Ok(())
    }

    /// The disk, given back.
    pub fn close(self) -> D
        ensures { result ≡ self.disk }
    {
        let Keep {
            alloc: _,
            desk: _,
            journal,
            list: _,
        } = self;
        journal.close()
    }

    /// Folds the journal of a disk without a Restart, and gives the disk back. A disk without a byte is damaged at 0.
    /// Nothing is written; `Rule` and `JournalFull` never come.
    pub fn view(alloc: Global, disk: D) -> Result<(Desk, D), (KeepFault, D)>
        ensures ok { IfOk result (λ viewed. Viewed D.state D.faults disk (Ok (viewed.0.tables, viewed.1))) }
        ensures err { IfErr result (λ stopped. Viewed D.state D.faults disk (Err stopped)) }
    {
        let mut journal = match Journal::load(alloc, disk) {
            Ok(journal) => journal,
            Err((fault, disk)) => return Err((fault.into(), disk)),
        };
        match fold(alloc, &mut journal) {
            Ok((desk, _)) => Ok((desk, journal.close())),
            Err(fault) => Err((fault, journal.close())),
        }
    }
}
