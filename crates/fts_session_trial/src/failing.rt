//! A session of three files in which one call of the disk, the store, the source or the sink fails, and the run that is started behind it on what is
//! left: the replies, the status, how the rows stand, and what the next run finds and does (`wanted.rt`).
//! What a failed call of the disk leaves in doubt is tried with its gate closed and with it open.
ghost use Rattle.std.specs.Prelude.{◌≡◌, length, IfOk};

use crate::stand::{
    Given, SETTINGS, StillHand, hands_with, make_given, no_memory, print_count, session,
};
use crate::wanted::{
    ENDS, ENTRIES, Entry, INPUT, INPUT_WITH_RETRY, NOT_MADE, NOT_WRITTEN, NOTHING_READ, READ,
    READS, REPLIES, REPLIES_WITH_RETRY, START, STORE, STORE_CALLS, STORE_WITH_RETRY,
};
use fts_disk::MemoryDisk;
use fts_store::MemoryStore;
use fts_top::Ending;
use fts_wire::{MemorySink, MemorySource};
use std::alloc::Global;
use std::io;

/// A number that no call reaches: from one on to this, all fail.
const LAST: u32 = 90;

/// The byte of an open gate.
const OPEN: u8 = 1;

/// What fails in a session: calls of the disk and of the store by their numbers, the read behind so many bytes, a write by its number.
#[derive(Drop)]
struct Trouble {
    disk: Vec<u32>,
    store: Vec<u32>,
    read: Option<usize>,
    write: u64,
}

/// The numbers from one to another.
fn numbers(alloc: Global, first: u32, last: u32) -> io::Result<Vec<u32>> {
    let mut numbers = Vec::new(alloc);
    for number in first..=last {
        numbers.push(number)?;
    }
    Ok(numbers)
}

/// Nothing fails.
fn no_trouble(alloc: Global) -> Trouble {
    Trouble {
        disk: Vec::new(alloc),
        store: Vec::new(alloc),
        read: None,
        write: 0,
    }
}

/// Sixteen hands, the first of which has a store with the three files, of which these calls fail.
pub fn hands(alloc: Global, fail: Vec<u32>) -> io::Result<Vec<StillHand<MemoryStore>>>
    ensures { IfOk result (λ hands. length hands.items ≡ 16) }
{
    hands_with(alloc, &["data/f1", "data/f2", "data/f3"], fail)
}

/// The bytes of an input, or so many of them with a read that fails behind them.
fn source(alloc: Global, input: &str, read: Option<usize>) -> io::Result<MemorySource> {
    let bytes = input.as_bytes();
    match read {
        None => Ok(MemorySource::new(bytes.to_vec(alloc)?, Vec::new(alloc))),
        Some(read) => {
            let bytes = &bytes[..read.min(bytes.len())];
            let failing: u64 = if bytes.is_empty() { 1 } else { 2 };
            Ok(MemorySource::new(bytes.to_vec(alloc)?, [failing].to_vec(alloc)?))
        }
    }
}

/// How a run and the one behind it ended, as `wanted.rt` writes it.
fn line_of(alloc: Global, ended: Ending, next: Ending) -> io::Result<String> {
    let (run, then) = (ended.tally, next.tally);
    if next.status != 0 {
        return Ok(format!(in alloc; "status {}, then status {}", ended.status, next.status)?);
    }
    let first = format!(in alloc;
        "status {}, claims {} finished {} failed {} waiting {}",
        ended.status, run.claims, run.finished, run.failed, run.waiting
    )?;
    Ok(format!(in alloc;
        "{first}, then claims {} finished {} failed {}",
        then.claims, then.finished, then.failed
    )?)
}

/// Whether these replies were written, one behind the other, and nothing else.
fn are_written(output: &[u8], replies: &[&str]) -> bool {
    let mut rest = output;
    for reply in replies {
        match rest.strip_prefix(reply.as_bytes()) {
            Some(behind) => rest = behind,
            None => return false,
        }
    }
    rest.is_empty()
}

/// Answers 1 where the replies were written and the line is as wanted; else prints both and answers 0.
fn compare(
    rt: &HostRuntime,
    case: &str,
    gate: u8,
    written: bool,
    line: &str,
    wanted: &str,
) -> io::Result<u32> {
    if written && line == wanted {
        return Ok(1);
    }
    println!(rt; "otherwise: {case}, gate {gate}: replies {written}, {line}")?;
    Ok(0)
}

/// Plays a session with a trouble, and the next run on what it left, with this byte in a gate in doubt. Prints what is otherwise than wanted,
/// and answers 1 where all is as wanted, else 0.
fn play(
    rt: &HostRuntime,
    case: &str,
    input: &str,
    trouble: Trouble,
    gate: u8,
    replies: &[&str],
    wanted: &str,
) -> io::Result<u32> {
    let alloc = rt.alloc();
    let given = Given {
        output: MemorySink::new(alloc, [trouble.write].to_vec(alloc)?),
        ..make_given(alloc, SETTINGS, source(alloc, input, trouble.read)?)?
    };
    let ended = session(
        alloc,
        given,
        MemoryDisk::new(alloc, trouble.disk),
        hands(alloc, trouble.store)?,
    )?;
    let left = ended
        .disk
        .after_stop(ended.disk.calls(), gate)
        .map_err(no_memory)?;
    let written = are_written(ended.output.bytes(), replies);
    let first = ended.ending;
    let nothing = MemorySource::new(Vec::new(alloc), Vec::new(alloc));
    let next = session(
        alloc,
        make_given(alloc, SETTINGS, nothing)?,
        MemoryDisk::holding(alloc, left, Vec::new(alloc)),
        ended.hands,
    )?;
    let line = line_of(alloc, first, next.ending)?;
    compare(rt, case, gate, written, line.as_str(), wanted)
}

/// Plays a session in which one call of the disk fails, and one in which all that follow fail too.
fn play_disk_call(rt: &HostRuntime, entry: &Entry, step: u32, gate: u8) -> io::Result<u32> {
    let alloc = rt.alloc();
    let call = entry.first.saturating_add(step);
    let mut same: u32 = 0;
    for (last, lines) in [(call, &entry.alone), (LAST, &entry.onwards)] {
        let wanted = if gate == OPEN {
            lines.open
        } else {
            lines.closed
        };
        let case = format!(in alloc; "disk calls {call} to {last}, {}", entry.name)?;
        let trouble = Trouble {
            disk: numbers(alloc, call, last)?,
            ..no_trouble(alloc)
        };
        let played = play(
            rt,
            case.as_str(),
            INPUT,
            trouble,
            gate,
            &entry.replies,
            wanted,
        )?;
        same = same.saturating_add(played);
    }
    Ok(same)
}

/// The four calls of an entry, of which the last two can leave its gate open.
fn play_entry(rt: &HostRuntime, entry: &Entry) -> io::Result<u32> {
    let mut same: u32 = 0;
    for (step, gate) in [(0, 0), (1, 0), (2, 0), (2, 1), (3, 0), (3, 1)] {
        same = same.saturating_add(play_disk_call(rt, entry, step, gate)?);
    }
    Ok(same)
}

/// Each call of the start: three that make the journal, and those of its Restart.
fn play_start(rt: &HostRuntime) -> io::Result<u32> {
    let alloc = rt.alloc();
    let mut same: u32 = 0;
    for (call, gate, wanted) in [
        (1, 0, START),
        (2, 0, NOT_MADE),
        (3, 0, NOT_MADE),
        (4, 0, START),
        (5, 0, START),
        (6, 0, START),
        (6, 1, START),
        (7, 0, START),
        (7, 1, START),
    ] {
        let case = format!(in alloc; "disk call {call} of the start")?;
        let trouble = Trouble {
            disk: numbers(alloc, call, call)?,
            ..no_trouble(alloc)
        };
        let played = play(rt, case.as_str(), INPUT, trouble, gate, &[], wanted)?;
        same = same.saturating_add(played);
    }
    Ok(same)
}

/// Each call of the start, and each call of each entry.
fn play_disk(rt: &HostRuntime) -> io::Result<u32> {
    let mut same = play_start(rt)?;
    for entry in &ENTRIES {
        same = same.saturating_add(play_entry(rt, entry)?);
    }
    Ok(same)
}

/// One call of the store, without a retry and with one.
fn play_store_call(rt: &HostRuntime, call: u32) -> io::Result<u32> {
    let alloc = rt.alloc();
    let mut same: u32 = 0;
    for (input, replies, wanted) in [
        (INPUT, &REPLIES, STORE),
        (INPUT_WITH_RETRY, &REPLIES_WITH_RETRY, STORE_WITH_RETRY),
    ] {
        let case = format!(in alloc; "store call {call}")?;
        let trouble = Trouble {
            store: numbers(alloc, call, call)?,
            ..no_trouble(alloc)
        };
        let played = play(rt, case.as_str(), input, trouble, 0, replies, wanted)?;
        same = same.saturating_add(played);
    }
    Ok(same)
}

/// Each call of the store.
fn play_store(rt: &HostRuntime) -> io::Result<u32> {
    let mut same: u32 = 0;
    for call in 1..=STORE_CALLS {
        same = same.saturating_add(play_store_call(rt, call)?);
    }
    Ok(same)
}

/// The read behind some numbers of bytes.
fn play_source(rt: &HostRuntime) -> io::Result<u32> {
    let alloc = rt.alloc();
    let mut same: u32 = 0;
    for read in READS {
        let (replies, wanted): (&[&str], &str) = if read < ENDS[0] {
            (&[], NOTHING_READ)
        } else if read < ENDS[1] {
            (&REPLIES[..1], READ)
        } else {
            (&REPLIES, READ)
        };
        let case = format!(in alloc; "read behind {read} bytes")?;
        let trouble = Trouble {
            read: Some(read),
            ..no_trouble(alloc)
        };
        let played = play(rt, case.as_str(), INPUT, trouble, 0, replies, wanted)?;
        same = same.saturating_add(played);
    }
    Ok(same)
}

/// The write of each response.
fn play_sink(rt: &HostRuntime) -> io::Result<u32> {
    let alloc = rt.alloc();
    let mut same: u32 = 0;
    for (write, replies) in [(1, &REPLIES[..0]), (2, &REPLIES[..1])] {
        let case = format!(in alloc; "write {write}")?;
        let trouble = Trouble {
            write,
            ..no_trouble(alloc)
        };
        let played = play(rt, case.as_str(), INPUT, trouble, 0, replies, NOT_WRITTEN)?;
        same = same.saturating_add(played);
    }
    Ok(same)
}

/// Plays each failing call, and prints what is otherwise than wanted, and how many sessions were as wanted.
pub fn play_all(rt: &HostRuntime) -> io::Result<()> {
    print_count(rt, "failing calls of the disk as wanted", play_disk(rt)?)?;
    print_count(rt, "failing calls of the store as wanted", play_store(rt)?)?;
    print_count(rt, "failing reads as wanted", play_source(rt)?)?;
    print_count(rt, "failing writes as wanted", play_sink(rt)?)
}
