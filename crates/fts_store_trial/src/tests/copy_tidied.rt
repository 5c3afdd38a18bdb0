//! What stays behind a copy once its part was removed: by each of its ends, where the removal fails, and the calls that are made of a store.
use super::copy::{ABC, OTHER, copied, dest, holding_abc, row, verified};
use super::copy_changes::three_files;
use fts_copy::{CopyRoom, remove_part};
use fts_store::Store;
use fts_tables::{Memory, Outcome, PlaceRef};
use std::alloc::Global;
use std::test::Fail;

/// How a copy of `abc` goes: the digest that is wanted, the call that fails and the append that loses a byte, from 1, how often its watch says yes;
/// how it ends, and the size of the part that is left.
struct Row {
    case: &'static str,
    wanted: Option<[u8; 16]>,
    fails: u32,
    loses: u32,
    yeses: u64,
    want: Outcome,
    left: Option<u64>,
}

/// A copy that is verified.
const VERIFIED: Row = Row {
    case: "a verified copy",
    wanted: Some(ABC),
    fails: 0,
    loses: 0,
    yeses: u64::MAX,
    want: Outcome::Verified {
        size: 3,
        digest: ABC,
    },
    left: None,
};

const ROWS: [Row; 6] = [
    VERIFIED,
    Row {
        case: "another digest",
        wanted: Some(OTHER),
        want: Outcome::SourceDigest { seen: ABC },
        ..VERIFIED
    },
    Row {
        case: "a lost byte",
        loses: 1,
        want: Outcome::ReadBackDiffers { at: 2 },
        ..VERIFIED
    },
    Row {
        case: "a no behind the part",
        yeses: 1,
        want: Outcome::Stopped,
        ..VERIFIED
    },
    Row {
        case: "a second reading that fails",
        fails: 6,
        want: Outcome::StoreFailed,
        ..VERIFIED
    },
    // Two looks, the part made, a read and an append, and then the removal.
    Row {
        case: "another digest, and a removal that fails",
        wanted: Some(OTHER),
        fails: 6,
        want: Outcome::SourceDigest { seen: ABC },
        left: Some(3),
        ..VERIFIED
    },
];

/// Whether a copy goes as a row says, and holds its file at the destination only where it was verified.
fn goes_so(alloc: Global, room: &mut CopyRoom, expected: &Row) -> Result<bool, Memory> {
    let file = row(alloc, 0, expected.wanted)?;
    let mut store = holding_abc(alloc, expected.fails, expected.loses)?;
    let (outcome, _) = copied(&mut store, room, &file, false, expected.yeses);
    remove_part(&mut store, room, outcome);
    let part = PlaceRef {
        endpoint: "https://b.example",
        path: ".fts/part-1",
    };
    let held = if outcome == verified(3, ABC) {
        Some(3)
    } else {
        None
    };
    Ok(
        outcome == expected.want
            && store.size(part) == Ok(expected.left)
            && store.size(dest()) == Ok(held),
    )
}

#[test]
fn no_end_of_a_copy_leaves_its_part(rt: HostRuntime) -> Result<(), Fail> {
    let mut room = CopyRoom::new(rt.alloc())?;
    for expected in &ROWS {
        let is_so = goes_so(rt.alloc(), &mut room, expected)?;
        assert!(rt; is_so, "{}", expected.case);
    }
    Ok(())
}

/// What the source becomes before the call of a number, and the number of the call that fails, from 1; the calls, how the copy ends, what the part
/// holds then, and how often the store failed.
struct Changed {
    case: &'static str,
    later: Option<&'static [u8]>,
    changes_at: usize,
    fails_at: usize,
    calls: &'static [u8],
    want: Outcome,
    part: &'static [u8],
    faults: u64,
}

const CHANGED: [Changed; 5] = [
    Changed {
        case: "a verified copy",
        later: None,
        changes_at: 0,
        fails_at: 0,
        calls: b"SDcsaspspm",
        want: Outcome::Verified {
            size: 3,
            digest: ABC,
        },
        part: b"",
        faults: 0,
    },
    Changed {
        case: "a source that is gone at first",
        later: None,
        changes_at: 1,
        fails_at: 0,
        calls: b"Sx",
        want: Outcome::SourceMissing,
        part: b"",
        faults: 0,
    },
    Changed {
        case: "a source that is cut before its first reading",
        later: Some(b"ab"),
        changes_at: 4,
        fails_at: 0,
        calls: b"SDcssax",
        want: Outcome::SourceSize { seen: 2 },
        part: b"",
        faults: 0,
    },
    Changed {
        case: "a source that is cut before its first reading, and a removal that fails",
        later: Some(b"ab"),
        changes_at: 4,
        fails_at: 7,
        calls: b"SDcssax",
        want: Outcome::SourceSize { seen: 2 },
        part: b"ab",
        faults: 1,
    },
    Changed {
        case: "a move that fails",
        later: None,
        changes_at: 0,
        fails_at: 10,
        calls: b"SDcsaspspmx",
        want: Outcome::StoreFailed,
        part: b"",
        faults: 1,
    },
];

/// Whether a copy makes the calls that a row says, and leaves what it says.
fn calls_so(alloc: Global, room: &mut CopyRoom, expected: &Changed) -> Result<bool, Memory> {
    let file = row(alloc, 0, None)?;
    let mut store = three_files(alloc, Vec::new(alloc));
    store.later = expected.later;
    store.changes_at = expected.changes_at;
    store.fails_at = expected.fails_at;
    let (outcome, _) = copied(&mut store, room, &file, false, u64::MAX);
    remove_part(&mut store, room, outcome);
    Ok(
        outcome == expected.want
            && store.calls.as_slice() == expected.calls
            && store.part.as_slice() == expected.part
            && store.faults == expected.faults,
    )
}

#[test]
fn one_call_removes_a_part(rt: HostRuntime) -> Result<(), Fail> {
    let mut room = CopyRoom::new(rt.alloc())?;
    for expected in &CHANGED {
        let is_so = calls_so(rt.alloc(), &mut room, expected)?;
        assert!(rt; is_so, "{}", expected.case);
    }
    Ok(())
}
