//! Following: a journal takes the entries of a service's list that it lacks, one after the other.
//! Keeps: an entry is appended only where it was given for the number of the count, and nothing is in doubt (`follow`: `Followed`).
//! Order: an old doubt is ended; where there are entries, the last one is asked for and compared with its own, which is the one look at what is
//! there; then the entry behind the last one is asked for and appended, until there is none.
ghost use Rattle.std.specs.Prelude.{◌≡◌, ◌≤◌, ◌<◌, IsSome, length};
ghost use Rattle.fts_tables.specs.Counts.{Rose};
ghost use Rattle.fts_record.specs.Reading.{read_of};
ghost use Rattle.fts_disk.specs.Disk.{IsTold};
ghost use Rattle.fts_journal.specs.Journal.{IsSound};
ghost use Rattle.fts_client.specs.Links.{read_side, written_side};
ghost use Rattle.fts_standby.specs.Following.{Followed, IsReady, Settles, Compares, LooksAtOwn, TakesNext, AppendsBy, TakesAll};

use crate::asking::ask_for;
use crate::ends::{FollowEnd, end_by};
use fts_client::Link;
use fts_disk::Disk;
use fts_journal::Journal;
use fts_record::laws::what_is_read_is_a_body;
use fts_wire::AnswerRoom;
use std::alloc::Global;

/// Follows the service on a port of this machine, with at most `tries` tries for each entry, each over a line of its own.
/// `Diverged`, `Refused`, `CannotServe`, `NoAnswer` and `LinkFailed` are told by the last request; where those before it gave entries, they are appended.
pub fn follow<L: Link, D: Disk>(
    alloc: Global,
    link: &mut L,
    port: u16,
    tries: u32,
    room: &mut AnswerRoom,
    journal: &mut Journal<D>,
) -> FollowEnd
    requires some { 1 ≤ tries }
    ensures followed { Followed D.state D.faults (read_side L.Line.Source) (written_side L.Line.Sink)
        port tries journal.old (journal.new) (L.link link.old) (L.link link.new) (L.faults link.old) (L.faults link.new) result }
    ensures disk_failed { result ≡ FollowEnd.DiskFailed → Rose (D.faults journal.old.disk) (D.faults journal.new.disk) }
    ensures images { IsSound (D.state journal.new.disk) journal.new.bodies journal.new.doubt }
{
    if let Err(end) = settle(journal) {
        return end;
    }
    if let Err(end) = compare(alloc, link, port, tries, room, journal) {
        return end;
    }
    take_all(alloc, link, port, tries, room, journal)
}

/// Ends an old doubt.
fn settle<D: Disk>(journal: &mut Journal<D>) -> Result<(), FollowEnd>
    ensures settles { Settles D.state D.faults journal.old (journal.new) result }
    ensures images { IsSound (D.state journal.new.disk) journal.new.bodies journal.new.doubt }
{
    match journal.settle() {
        Ok(()) => Ok(()),
        Err(fault) => Err(end_by(fault)),
    }
}

/// Asks for the last entry, where there is one, and compares it with the journal's own.
fn compare<L: Link, D: Disk>(
    alloc: Global,
    link: &mut L,
    port: u16,
    tries: u32,
    room: &mut AnswerRoom,
    journal: &mut Journal<D>,
) -> Result<(), FollowEnd>
    requires some { 1 ≤ tries }
    requires ready { IsReady D.state journal.old }
    ensures { Compares D.state D.faults (read_side L.Line.Source) (written_side L.Line.Sink)
        port tries journal.old (journal.new) (L.link link.old) (L.link link.new) (L.faults link.old) (L.faults link.new) result }
{
    let count = count_of(journal);
    if count == 0 {
        return Ok(());
    }
    let number = count - 1;
    let entry = match ask_for(alloc, link, port, number, tries, room)? {
        Some(entry) => entry,
        None => return Err(FollowEnd::Diverged { number }),
    };
    if is_own(alloc, journal, number, &entry)? {
        Ok(())
    } else {
        Err(FollowEnd::Diverged { number })
    }
}

/// Whether an entry is the journal's own one of this number.
fn is_own<D: Disk>(
    alloc: Global,
    journal: &mut Journal<D>,
    number: u32,
    entry: &[u8],
) -> Result<bool, FollowEnd>
    requires here { number < journal.old.count }
    requires ready { IsReady D.state journal.old }
    ensures { LooksAtOwn D.state D.faults journal.old (journal.new) number entry.now result }
{
    let mut own = Vec::new(alloc);
    match journal.body(number as usize, &mut own) {
        Ok(()) => Ok(own.as_slice() == entry),
        Err(fault) => Err(end_by(fault)),
    }
}

/// Takes one entry after the other.
fn take_all<L: Link, D: Disk>(
    alloc: Global,
    link: &mut L,
    port: u16,
    tries: u32,
    room: &mut AnswerRoom,
    journal: &mut Journal<D>,
) -> FollowEnd
    requires some { 1 ≤ tries }
    requires ready { IsReady D.state journal.old }
    ensures takes { TakesAll D.state D.faults (read_side L.Line.Source) (written_side L.Line.Sink)
        port tries journal.old (journal.new) (L.link link.old) (L.link link.new) (L.faults link.old) (L.faults link.new) result }
    ensures images { IsSound (D.state journal.new.disk) journal.new.bodies journal.new.doubt }
{
    'taking: loop {
        if let Err(end) = take_next(alloc, link, port, tries, room, journal) {
            return end;
        }
    }
}

/// Asks for the entry behind the last one, and appends it.
fn take_next<L: Link, D: Disk>(
    alloc: Global,
    link: &mut L,
    port: u16,
    tries: u32,
    room: &mut AnswerRoom,
    journal: &mut Journal<D>,
) -> Result<(), FollowEnd>
    requires some { 1 ≤ tries }
    requires ready { IsReady D.state journal.old }
    ensures takes { TakesNext D.state D.faults (read_side L.Line.Source) (written_side L.Line.Sink)
        port tries journal.old (journal.new) (L.link link.old) (L.link link.new) (L.faults link.old) (L.faults link.new) result }
    ensures images { IsSound (D.state journal.new.disk) journal.new.bodies journal.new.doubt }
{
    let number = count_of(journal);
    match ask_for(alloc, link, port, number, tries, room)? {
        Some(entry) => append(journal, &entry),
        None => Err(FollowEnd::CaughtUp { count: number }),
    }
}

/// Appends the bytes of an entry, which are a body of a journal.
fn append<D: Disk>(journal: &mut Journal<D>, entry: &[u8]) -> Result<(), FollowEnd>
    requires ready { IsReady D.state journal.old }
    requires entry { IsSome (read_of entry.now) }
    ensures appends { AppendsBy D.state D.faults journal.old (journal.new) entry.now result }
    ensures images { IsSound (D.state journal.new.disk) journal.new.bodies journal.new.doubt }
{
    what_is_read_is_a_body();
    match journal.append(entry) {
        Ok(()) => Ok(()),
        Err(fault) => Err(end_by(fault)),
    }
}

/// How many entries a journal has. Each takes six bytes of it at least, so that they are far fewer than a `u32` can count.
fn count_of<D: Disk>(journal: &Journal<D>) -> u32
    ensures count { result ≡ journal.now.count }
    ensures told { IsTold (D.state journal.now.disk) → length journal.now.bodies ≡ result }
{
    journal.used();
    journal.count() as u32
}
