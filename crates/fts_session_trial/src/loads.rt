//! Loads: what is seen where a call of the store or a write of its line fails, and which files a load leaves.
//! The files of number 7 have the sizes that `acceptance/load.py` gives, a program of its own.
use crate::stand::{
    Ended, Given, SETTINGS, count_row, hands_with, make_given, print_count, run_anew, source,
};
use fts_disk::MemoryDisk;
use fts_store::{MemoryStore, Store};
use fts_tables::PlaceRef;
use fts_top::Tally;
use fts_wire::MemorySink;
use std::alloc::Global;
use std::io;

/// The tally of a load that ended well.
const ALL: Tally = Tally {
    claims: 2000,
    finished: 2000,
    failed: 0,
    cancelled: 0,
    waiting: 0,
};

/// That of one that made no file.
const NONE: Tally = Tally {
    claims: 0,
    finished: 0,
    failed: 0,
    cancelled: 0,
    waiting: 0,
};

/// Which call of the store and which write of the output fail, and what is seen.
#[derive(Clone, Copy)]
struct Row {
    row: &'static str,
    call: u32,
    write: u64,
    status: u8,
    output: &'static str,
    noted: &'static str,
    tally: Tally,
}

/// A call of the store that fails while the files are made.
const STORE_FAILED: Row = Row {
    row: "the store's first call",
    call: 1,
    write: 0,
    status: 13,
    output: "",
    noted: "fts: store failed\n",
    tally: NONE,
};

const ROWS: [Row; 4] = [
    Row {
        row: "nothing fails",
        call: 0,
        write: 0,
        status: 0,
        output: "claims 2000 finished 2000 failed 0 cancelled 0 waiting 0\n",
        noted: "",
        tally: ALL,
    },
    STORE_FAILED,
    Row {
        row: "the append to the last file",
        call: 4000,
        ..STORE_FAILED
    },
    Row {
        row: "the third part of the line",
        call: 0,
        write: 3,
        status: 6,
        output: "claims 2000",
        noted: "fts: output failed\n",
        tally: ALL,
    },
];

/// Files that a load leaves at their destination, and their sizes.
const FILES: [(&str, u64); 3] = [("load/d1", 2506), ("load/d2", 1056), ("load/d2000", 82)];

/// A load over an empty store, in which this call of the store and this write of the output fail.
fn load(
    alloc: Global,
    words: &[&str],
    call: u32,
    write: u64,
) -> io::Result<Ended<MemoryDisk, MemoryStore>> {
    let given = Given {
        output: MemorySink::new(alloc, [write].to_vec(alloc)?),
        ..make_given(alloc, SETTINGS, source(alloc, b"never read")?)?
    };
    let hands = hands_with(alloc, &[], [call].to_vec(alloc)?)?;
    run_anew(alloc, words, given, hands)
}

/// Plays each load.
fn play_loads(rt: &HostRuntime) -> io::Result<u32> {
    let mut same: u32 = 0;
    for row in &ROWS {
        let words = ["load", "--number", "7"];
        let ended = load(rt.alloc(), &words, row.call, row.write)?;
        let is_wanted = ended.ending.status == row.status
            && ended.output.bytes() == row.output.as_bytes()
            && ended.notes.bytes() == row.noted.as_bytes()
            && ended.ending.tally == row.tally;
        same = same.saturating_add(count_row(rt, row.row, is_wanted)?);
    }
    Ok(same)
}

/// Looks at files that one load left.
fn play_files(rt: &HostRuntime) -> io::Result<u32> {
    let alloc = rt.alloc();
    let mut ended = load(alloc, &["load", "--number=7"], 0, 0)?;
    let Some(hand) = ended.hands.first_mut() else {
        return Ok(0);
    };
    let mut same: u32 = 0;
    for (path, size) in FILES {
        let at = PlaceRef {
            endpoint: "https://b.example",
            path,
        };
        let is_wanted = hand.store.size(at) == Ok(Some(size));
        same = same.saturating_add(count_row(rt, path, is_wanted)?);
    }
    Ok(same)
}

/// Plays each of them, and prints what is otherwise than wanted, and how many were as wanted.
pub fn play_all(rt: &HostRuntime) -> io::Result<()> {
    print_count(rt, "loads as wanted", play_loads(rt)?)?;
    print_count(rt, "files of a load as wanted", play_files(rt)?)
}
