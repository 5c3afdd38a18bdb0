//! Files that change while they are copied: the end, the exact calls and what is left, by the call before which they change; and a failing call
//! and a no of the watch, of which the earlier one ends the copy. The files are those of `copy_changing`.
use super::copy::{AB, AB_PLUS, ABC, ABC_PLUS, copied, row, verified};
use super::copy_changing::Changing;
use fts_copy::CopyRoom;
use fts_tables::{FileRow, Memory, Outcome};
use std::alloc::{AllocError, Global};
use std::test::Fail;

/// A copy's three files, of which the source holds `abc`.
pub(crate) fn three_files(alloc: Global, dest: Vec<u8>) -> Changing {
    Changing {
        source: Some(b"abc"),
        later: None,
        changes_at: 0,
        fails_at: 0,
        part: Vec::new(alloc),
        dest,
        calls: Vec::new(alloc),
        faults: 0,
    }
}

/// The calls, a letter each: the source's size, the destination's, the part made, a read and an append, two reads, two at the ends, the move.
const ALL_CALLS: &[u8] = b"SDcsaspspm";

/// What the source is from the call of each number on, from the first up to the one before `end`; how a copy ends, its calls, what it leaves.
#[derive(Clone, Copy)]
struct Expected {
    later: Option<&'static [u8]>,
    first: usize,
    end: usize,
    want: Outcome,
    calls: &'static [u8],
    held: &'static [u8],
}

/// Whether a copy of a source that changes before the call of this number ends as is expected.
fn ends_so(
    alloc: Global,
    room: &mut CopyRoom,
    file: &FileRow,
    expected: &Expected,
    call: usize,
) -> bool {
    let mut store = three_files(alloc, Vec::new(alloc));
    store.later = expected.later;
    store.changes_at = call;
    let (outcome, _) = copied(&mut store, room, file, false, u64::MAX);
    outcome == expected.want
        && store.calls.as_slice() == expected.calls
        && store.dest.as_slice() == expected.held
}

fn file_row(alloc: Global) -> Result<FileRow, Memory> {
    row(alloc, 0, None)
}

/// The number of the first call at which it doesn't; 0 where it does at each.
fn wrong_call(alloc: Global, expected: &Expected) -> Result<usize, Memory> {
    let mut room = CopyRoom::new(alloc)?;
    let file = file_row(alloc)?;
    for call in expected.first..expected.end {
        if !ends_so(alloc, &mut room, &file, expected, call) {
            return Ok(call);
        }
    }
    Ok(0)
}

/// The number of the first call, from `calls.0` up to the one before `calls.1`, at which a source becomes this and isn't verified as what is left; 0
/// where it is at each.
fn wrongly_verified(
    alloc: Global,
    later: &'static str,
    calls: (usize, usize),
    left: Left,
) -> Result<usize, Memory> {
    let (held, digest) = left;
    let expected = Expected {
        later: Some(later.as_bytes()),
        first: calls.0,
        end: calls.1,
        want: verified(held.len() as u64, digest),
        calls: ALL_CALLS,
        held: held.as_bytes(),
    };
    wrong_call(alloc, &expected)
}

/// The number of the first call of these at which a source becomes this, and the copy doesn't end so after these calls or leaves something; 0 where
/// it does at each.
fn wrongly_ended(
    alloc: Global,
    later: Option<&'static [u8]>,
    numbers: (usize, usize),
    calls: &'static str,
    want: Outcome,
) -> Result<usize, Memory> {
    let expected = Expected {
        later,
        first: numbers.0,
        end: numbers.1,
        want,
        calls: calls.as_bytes(),
        held: b"",
    };
    wrong_call(alloc, &expected)
}

/// What is left at the destination, and the digest of that.
type Left = (&'static str, [u8; 16]);

const OLD: Left = ("abc", ABC);

const CUT: Left = ("ab", AB);

const GROWN: Left = ("abc+", ABC_PLUS);

const NEW: Left = ("ab+", AB_PLUS);

/// What the source becomes, before which calls, and what is left.
const VERIFIED: [(&str, &str, (usize, usize), Left); 7] = [
    ("written anew at first", "abc", (1, 2), OLD),
    ("cut before its size is asked", "ab", (1, 2), CUT),
    ("cut behind its second reading", "ab", (7, 11), OLD),
    ("grown before its size is asked", "abc+", (1, 2), GROWN),
    ("grown behind the look at its end", "abc+", (9, 11), OLD),
    ("replaced before its first reading", "ab+", (1, 5), NEW),
    ("replaced behind its second reading", "ab+", (7, 11), OLD),
];

#[test]
fn a_source_that_changes_during_a_copy_that_is_verified(rt: HostRuntime) -> Result<(), Fail> {
    for (case, later, calls, left) in &VERIFIED {
        let wrong = wrongly_verified(rt.alloc(), later, *calls, *left)?;
        assert!(rt; wrong == 0, "a source that is {case}, call {wrong}");
    }
    Ok(())
}

const SHORTER: Outcome = Outcome::SourceSize { seen: 2 };

const DIFFERS: Outcome = Outcome::ReadBackDiffers { at: 2 };

const LONGER: Outcome = Outcome::ReadBackDiffers { at: 3 };

/// What the source becomes, before which calls, the calls that are made, and how the copy ends.
const ENDED: [(&str, &str, (usize, usize), &str, Outcome); 4] = [
    (
        "cut before its first reading",
        "ab",
        (2, 5),
        "SDcssa",
        SHORTER,
    ),
    (
        "cut before its second reading",
        "ab",
        (5, 7),
        "SDcsassp",
        DIFFERS,
    ),
    (
        "grown before the look at its end",
        "abc+",
        (2, 9),
        "SDcsaspsp",
        LONGER,
    ),
    (
        "replaced before its second reading",
        "ab+",
        (5, 7),
        "SDcsasp",
        DIFFERS,
    ),
];

#[test]
fn a_source_that_changes_during_a_copy_that_is_not(rt: HostRuntime) -> Result<(), Fail> {
    for (case, later, numbers, calls, want) in &ENDED {
        let wrong = wrongly_ended(rt.alloc(), Some(later.as_bytes()), *numbers, calls, *want)?;
        assert!(rt; wrong == 0, "a source that is {case}, call {wrong}");
    }
    Ok(())
}

/// Before what the source is gone, which calls those are, the calls that are made, and how the copy ends.
const GONE: [(&str, (usize, usize), &str, Outcome); 4] = [
    ("its size is asked", (1, 2), "S", Outcome::SourceMissing),
    ("its first reading", (2, 5), "SDcs", Outcome::StoreFailed),
    ("its second reading", (5, 7), "SDcsas", Outcome::StoreFailed),
    (
        "the look at its end",
        (7, 9),
        "SDcsasps",
        Outcome::StoreFailed,
    ),
];

#[test]
fn a_source_that_vanishes_during_a_copy(rt: HostRuntime) -> Result<(), Fail> {
    for (case, numbers, calls, want) in &GONE {
        let wrong = wrongly_ended(rt.alloc(), None, *numbers, calls, *want)?;
        assert!(rt;
            wrong == 0,
            "a source that is gone before {case}, call {wrong}"
        );
    }
    Ok(())
}

/// A watch that says no before this call of the nine, and how often it says yes before; and the call that fails.
#[derive(Clone, Copy)]
struct Ending {
    yeses: u64,
    stops_before: usize,
    fails_at: usize,
}

/// Whether the earlier of the two ends a copy over a destination that may be replaced, which is then as it was.
fn earlier_ends(
    alloc: Global,
    room: &mut CopyRoom,
    file: &FileRow,
    ending: &Ending,
) -> Result<bool, AllocError> {
    let mut store = three_files(alloc, b"old".to_vec(alloc)?);
    store.fails_at = ending.fails_at;
    let (want, calls) = if ending.fails_at < ending.stops_before {
        (Outcome::StoreFailed, ending.fails_at)
    } else {
        (Outcome::Stopped, ending.stops_before.saturating_sub(1))
    };
    let (outcome, _) = copied(&mut store, room, file, true, ending.yeses);
    let made = b"Scsaspspm".get(..calls);
    Ok(
        outcome == want
            && made == Some(store.calls.as_slice())
            && store.dest.as_slice() == b"old".as_slice(),
    )
}

/// The number of the first call that fails and doesn't end a copy as it should; 0 where each does.
fn wrong_failure(alloc: Global, yeses: u64, stops_before: usize) -> Result<usize, Memory> {
    let mut room = CopyRoom::new(alloc)?;
    let file = file_row(alloc)?;
    for fails_at in 1..10_usize {
        let ending = Ending {
            yeses,
            stops_before,
            fails_at,
        };
        if !earlier_ends(alloc, &mut room, &file, &ending)? {
            return Ok(fails_at);
        }
    }
    Ok(0)
}

// Before which of the nine calls the watch is asked; the last stands for never.
const NOES: [(&str, u64, usize); 4] = [
    ("the first asking", 0, 3),
    ("the second asking", 1, 5),
    ("the third asking", 2, 9),
    ("no asking", 3, 10),
];

#[test]
fn the_earlier_of_a_failure_and_a_no_ends_a_copy(rt: HostRuntime) -> Result<(), Fail> {
    for (case, yeses, stops_before) in &NOES {
        let wrong = wrong_failure(rt.alloc(), *yeses, *stops_before)?;
        assert!(rt; wrong == 0, "a no at {case}, and call {wrong} fails");
    }
    Ok(())
}
