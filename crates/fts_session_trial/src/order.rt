//! In which order a session reads, looks at the clock and writes: a request is read, then timed, then answered before the next one is read.
//! A client sends its second request only once something was written to it, so a session that read on first would answer one of them alone; and
//! each look at the clock notes how often the client had been read by then.
ghost use Rattle.std.specs.Prelude.{◌≡◌, ◌≤◌, length, IfOk};

use crate::journals::{ANSWERED, TWO};
use crate::stand::{
    NOW, SETTINGS, count_row, exactly, lanes, no_link, no_memory, owned, print_count, source, store,
};
use fts_disk::MemoryDisk;
use fts_store::MemoryStore;
use fts_tables::{Clock, ListWords, Memory};
use fts_top::{Outside, run_alone};
use fts_wire::{MemorySink, Sink, SinkFailed, Source, SourceFailed};
use fts_workers::{Hand, NoGate};
use std::alloc::Global;
use std::cell::Cell;
use std::{fs, io};

/// Where the first request ends.
const MIDDLE: usize = 136;

/// Reads before each moment: a Restart; a request, an expiry, a claim and an idle one; a request, a report, an expiry and two claims; and behind the
/// end a report, an expiry and an idle claim.
const READS: [u64; 13] = [0, 1, 1, 1, 1, 2, 2, 2, 2, 2, 3, 3, 3];

/// A client that sends its second request only once something was written to it. How often it was read stands in a cell.
#[derive(Drop)]
struct WaitingClient<'a> {
    first: &'a [u8],
    second: &'a [u8],
    sent: u64,
    reads: u64,
    reads_seen: &'a Cell<u64>,
    written: &'a Cell<u64>,
}

impl Source for WaitingClient<'_> {
    ghost use Rattle.std.specs.Prelude.{None};
    ghost use Rattle.fts_wire.specs.Outside.{nothing_beside};

    ghost left = { λ _. None };

    ghost faults = { λ _. 0 };

    ghost reads = { λ client. client.reads };

    ghost beside = { λ _. nothing_beside };

    fn read(&mut self, into: &mut [u8]) -> Result<usize, SourceFailed> {
        self.reads = self.reads.saturating_add(1);
        self.reads_seen.set(self.reads);
        let request = match self.sent {
            0 => self.first,
            1 if self.written.get() > 0 => self.second,
            _ => return Ok(0),
        };
        let n = request.len().min(into.len());
        into[..n].copy_from_slice(&request[..n]);
        self.sent = self.sent.saturating_add(1);
        Ok(n)
    }
}

/// What a client gets. How often it was written to stands in a cell.
#[derive(Drop)]
struct Answers<'a> {
    sink: MemorySink,
    written: &'a Cell<u64>,
}

impl Sink for Answers<'_> {
    ghost held = { λ answers. ⟦<MemorySink as Sink>⟧.held answers.sink };

    ghost faults = { λ answers. ⟦<MemorySink as Sink>⟧.faults answers.sink };

    ghost beside = { λ answers. ⟦<MemorySink as Sink>⟧.beside answers.sink };

    fn write(&mut self, bytes: &[u8]) -> Result<usize, SinkFailed> {
        self.written.set(self.written.get().saturating_add(1));
        self.sink.write(bytes)
    }
}

/// A clock that notes how often a client had been read whenever it was asked.
#[derive(Drop)]
struct NotingClock<'a> {
    reads_seen: &'a Cell<u64>,
    noted: Vec<u64>,
}

impl Clock for NotingClock<'_> {
    ghost use Rattle.std.specs.Prelude.{None};

    ghost moments = { λ _. None };

    fn now(&mut self) -> u64 {
        match self.noted.push(self.reads_seen.get()) {
            Ok(()) => NOW,
            Err(_) => 0,
        }
    }

    fn rest(&mut self) {}
}

/// A clock over the cell, which has noted nothing.
fn noting(alloc: Global, reads_seen: &Cell<u64>) -> NotingClock<'_> {
    NotingClock {
        reads_seen,
        noted: Vec::new(alloc),
    }
}

/// Sixteen hands whose clocks note, each with a store that has the file.
fn noting_hands<'a>(
    alloc: Global,
    reads_seen: &'a Cell<u64>,
) -> io::Result<Vec<Hand<MemoryStore, NotingClock<'a>, ListWords>>>
    ensures { IfOk result (λ hands. length hands.items ≡ 16) }
{
    let mut hands = Vec::new(alloc);
    for _ in 0..16 {
        let hand = Hand {
            store: store(alloc, &["data/f1"], Vec::new(alloc)).map_err(no_memory)?,
            clock: noting(alloc, reads_seen),
            words: ListWords::new([0].to_vec(alloc)?),
        };
        if hands.push(hand).is_err() {
            return Err(no_memory(Memory));
        }
    }
    exactly(hands, 16)
}

/// A clock that notes for each lane.
fn noting_clocks<'a>(alloc: Global, reads_seen: &'a Cell<u64>) -> io::Result<Vec<NotingClock<'a>>> {
    let mut clocks = Vec::new(alloc);
    for _ in 0..8 {
        if clocks.push(noting(alloc, reads_seen)).is_err() {
            return Err(no_memory(Memory));
        }
    }
    Ok(clocks)
}

/// Whether a session with the waiting client reads, looks at the clock and writes in order.
fn is_in_order(rt: &HostRuntime) -> io::Result<bool> {
    let alloc = rt.alloc();
    let (reads_seen, written) = (Cell::new(0), Cell::new(0));
    let requests = fs::read(rt, TWO)?;
    let (first, second) = requests.split_at(requests.len().min(MIDDLE));
    let mut outside = Outside {
        settings: source(alloc, SETTINGS.as_bytes())?,
        input: WaitingClient {
            first,
            second,
            sent: 0,
            reads: 0,
            reads_seen: &reads_seen,
            written: &written,
        },
        output: Answers {
            sink: MemorySink::new(alloc, Vec::new(alloc)),
            written: &written,
        },
        notes: MemorySink::new(alloc, Vec::new(alloc)),
        disk: Some(MemoryDisk::new(alloc, Vec::new(alloc))),
        deletes: Some(MemoryDisk::new(alloc, Vec::new(alloc))),
        clock: noting(alloc, &reads_seen),
        hands: noting_hands(alloc, &reads_seen)?,
        lanes: lanes(alloc, noting_clocks(alloc, &reads_seen)?)?,
        link: no_link(alloc)?,
        gate: NoGate,
    };
    let words = owned(alloc, &["session"])?;
    let Some(ending) = run_alone(alloc, words.as_slice(), &mut outside) else {
        return Ok(false);
    };
    let answered = fs::read(rt, ANSWERED)?;
    // A read for each request, and one for the end.
    Ok(
        ending.status == 0
            && outside.output.sink.bytes() == answered.as_slice()
            && outside.clock.noted.as_slice() == READS.as_slice()
            && reads_seen.get() == 3,
    )
}

/// Plays it, and prints whether it was as wanted.
pub fn play_all(rt: &HostRuntime) -> io::Result<()> {
    let row = "a request is read, timed and answered before the next is read";
    let same = count_row(rt, row, is_in_order(rt)?)?;
    print_count(rt, "orders of reads and moments as wanted", same)
}
