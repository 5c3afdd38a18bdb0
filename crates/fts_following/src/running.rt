//! A run of `follow` over given devices.
//! Keeps: nothing is asked for before the journal is open; where it was not opened, link and output are untouched (`run_follow`: `IsFollowRun`).
ghost use Rattle.std.specs.Prelude.{◌≡◌, ◌≤◌};
ghost use Rattle.fts_tables.specs.Counts.{CountsFaults, Rose};
ghost use Rattle.fts_wire.specs.Response.{Sends};
ghost use Rattle.fts_client.specs.Links.{read_side, written_side};
ghost use Rattle.fts_following.specs.Ends.{follow_status};
ghost use Rattle.fts_following.specs.Runs.{TellsEnd, IsFollowRun, caught_up_line};

use crate::ends::FollowRunEnd;
use crate::opening::open;
use fts_client::Link;
use fts_disk::Disk;
use fts_standby::{FollowEnd, follow};
use fts_tables::Memory;
use fts_wire::{AnswerRoom, Sink, SinkFailed, send_parts};
use itoa::Buffer;
use std::alloc::Global;

/// Makes or loads the journal of a disk, follows the service on a port of this machine with at most `tries` tries for each entry, and writes where
/// that came to. Gives the disk back.
pub fn run_follow<L: Link, D: Disk, K: Sink>(
    alloc: Global,
    port: u16,
    tries: u32,
    disk: D,
    link: &mut L,
    output: &mut K,
) -> (FollowRunEnd, D)
    requires some { 1 ≤ tries }
    ensures run { IsFollowRun D.Disk (read_side L.Line.Source) (written_side L.Line.Sink)
        port tries disk result.1 (L.link link.old) (L.link link.new) (L.faults link.old) (L.faults link.new) (K.held output.old) (K.held output.new) result.0 }
    ensures told { (D.state result.1).told ≡ (D.state disk).told }
    ensures disk_failed { follow_status result.0 ≡ 4 → Rose (D.faults disk) (D.faults result.1) }
    ensures output_failed { follow_status result.0 ≡ 6 → Rose (K.faults output.old) (K.faults output.new) }
{
    let mut room = match AnswerRoom::new(alloc) {
        Ok(room) => room,
        Err(Memory) => return (FollowRunEnd::NoMemory, disk),
    };
    let mut journal = match open(alloc, disk) {
        Ok(journal) => journal,
        Err(stopped) => return stopped,
    };
    let end = follow(alloc, link, port, tries, &mut room, &mut journal);
    let told = tell(output, end);
    (told, journal.close())
}

/// Writes where following came to, where it caught up, and gives the end of the run.
fn tell<K: Sink>(output: &mut K, end: FollowEnd) -> FollowRunEnd
    ensures tells { TellsEnd end (K.held output.old) (K.held output.new) result }
    ensures cause { follow_status result ≡ 6 → Rose (K.faults output.old) (K.faults output.new) }
{
    match end {
        FollowEnd::CaughtUp { count } => match tell_count(output, count) {
            Ok(()) => FollowRunEnd::CaughtUp,
            Err(SinkFailed) => FollowRunEnd::OutputFailed,
        },
        FollowEnd::Diverged { number } => FollowRunEnd::Diverged { number },
        FollowEnd::Refused { status } => FollowRunEnd::Refused { status },
        FollowEnd::CannotServe { status } => FollowRunEnd::CannotServe { status },
        FollowEnd::NoAnswer => FollowRunEnd::NoAnswer,
        FollowEnd::LinkFailed => FollowRunEnd::LinkFailed,
        FollowEnd::DiskFailed => FollowRunEnd::DiskFailed,
        FollowEnd::JournalFull { used } => FollowRunEnd::JournalFull { used },
        FollowEnd::Memory => FollowRunEnd::NoMemory,
    }
}

/// Writes how many entries a journal that caught up has. Where a write fails, a part of the line was written.
fn tell_count<K: Sink>(output: &mut K, count: u32) -> Result<(), SinkFailed>
    ensures sent { Sends (K.held output.old) (K.held output.new) (caught_up_line count) result }
    ensures cause { CountsFaults (K.faults output.old) (K.faults output.new) result }
{
    let mut buffer = Buffer::new();
    let digits = buffer.format(count);
    send_parts(
        output,
        &[
            "caught up at ".as_bytes(),
            digits.as_bytes(),
            "\n".as_bytes(),
        ],
    )
}
