//! Keeps: calls with ample memory, worked bytes, every failing call of a run, and every stop.
//! A run starts a keep and has two submissions accepted; a file's size says which of them it is of.
use super::entries::{command, numbers, settings};
use fts_disk::MemoryDisk;
use fts_keep::{Keep, KeepFault};
use fts_tables::{Answer, FileState, Memory};
use std::alloc::{AllocError, Global};
use std::process::Abort;
use std::test::Fail;

/// A submission of a file of 1 byte.
const FIRST: &[u8] =
    b"\x00\x02\x80\xe2\xcf\xaa\x06\x00\x01\x00\x03\x00\x00\x00\x01\x00\x11https://a.example\x02f1\x11https://b.example\x02f1\x01\x00\x07default";

/// A submission of a file of 2 bytes.
const SECOND: &[u8] =
    b"\x00\x02\x80\xe2\xcf\xaa\x06\x00\x01\x00\x03\x00\x00\x00\x01\x00\x11https://a.example\x02f2\x11https://b.example\x02f2\x02\x00\x07default";

const CLAIM: &[u8] = b"\x00\x06\x80\xe2\xcf\xaa\x06\x00\x00\x00\x00\x00\x00\x00\x00";

/// The sizes of the files of the rows.
fn sizes_of(alloc: Global, keep: &Keep<MemoryDisk>) -> Result<Vec<u64>, AllocError> {
    let mut sizes = Vec::new(alloc);
    for row in keep.desk().rows() {
        sizes.push(row.size)?;
    }
    Ok(sizes)
}

/// The sizes of the files of the rows that a start over these bytes finds, or why it doesn't start.
fn found(alloc: Global, bytes: Vec<u8>) -> Result<Result<Vec<u64>, KeepFault>, Fail> {
    let disk = MemoryDisk::holding(alloc, bytes, Vec::new(alloc));
    match Keep::start(alloc, disk, settings(alloc)?, 1_700_000_000) {
        Ok(keep) => Ok(Ok(sizes_of(alloc, &keep)?)),
        Err((fault, _disk)) => Ok(Err(fault)),
    }
}

/// What a run answered, the sizes of the files of its rows, and the disk that it left.
#[derive(Drop)]
struct Ran {
    answers: Vec<Result<Answer, KeepFault>>,
    sizes: Vec<u64>,
    disk: MemoryDisk,
}

/// A start and two submissions. With no failure these are calls 1 to 7 of the disk, 8 to 11, and 12 to 15.
fn run(alloc: Global, fail: Vec<u32>) -> Result<Result<Ran, KeepFault>, Fail> {
    let disk = MemoryDisk::new(alloc, fail);
    let mut keep = match Keep::start(alloc, disk, settings(alloc)?, 1_700_000_000) {
        Ok(keep) => keep,
        Err((fault, _disk)) => return Ok(Err(fault)),
    };
    let mut answers = Vec::new(alloc);
    for entry in [FIRST, SECOND] {
        let submission = command(alloc, entry)?;
        answers.push(keep.apply(0, submission))?;
    }
    let sizes = sizes_of(alloc, &keep)?;
    Ok(Ok(Ran {
        answers,
        sizes,
        disk: keep.close(),
    }))
}

/// A run in which no call fails, which is fifteen calls.
fn whole_run(rt: &impl Abort, alloc: Global) -> Result<Ran, Fail> {
    let Ok(ran) = run(alloc, Vec::new(alloc))? else {
        panic!(rt; "it starts")
    };
    assert!(rt; ran.disk.calls() == 15, "a run is fifteen calls");
    Ok(ran)
}

/// Whether the disk is said to have failed exactly where a submission has no row.
fn are_told(ran: &Ran) -> bool {
    for (answer, size) in ran.answers.iter().zip([1, 2]) {
        let has_failed = *answer == Err(KeepFault::DiskFailed);
        if has_failed == ran.sizes.contains(&size) {
            return false;
        }
    }
    true
}

#[test]
fn a_start_answers_each_failing_call(rt: HostRuntime) -> Result<(), Fail> {
    for call in 1..=7 {
        let fault = run(rt.alloc(), numbers(rt.alloc(), call, call)?)?.err();
        assert!(rt; fault == Some(KeepFault::DiskFailed), "call {call}");
    }
    Ok(())
}

/// Whether a run whose calls with these numbers fail has rows for files of these sizes, and told so.
fn comes_to(alloc: Global, first: u32, last: u32, want: &[u64]) -> Result<bool, Fail> {
    match run(alloc, numbers(alloc, first, last)?)? {
        Ok(ran) => Ok(ran.sizes.as_slice() == want && are_told(&ran)),
        Err(_) => Ok(false),
    }
}

const NONE: &[u64] = &[];

// The rows where one call fails alone, and where all that follow fail with it.
#[test]
fn a_failing_call_is_answered_and_loses_nothing(rt: HostRuntime) -> Result<(), Fail> {
    let alloc = rt.alloc();
    for (case, call, alone, with_all) in [
        ("the write of the first body", 8, [2].as_slice(), NONE),
        ("the sync of the first body", 9, &[2], NONE),
        ("the write of its gate", 10, &[2], NONE),
        ("the sync of its gate", 11, &[2], NONE),
        ("the write of the second body", 12, &[1], &[1]),
        ("the sync of the second body", 13, &[1], &[1]),
        ("the write of the second's gate", 14, &[1], &[1]),
        ("the sync of the second's gate", 15, &[1], &[1]),
        ("a call that a run doesn't make", 16, &[1, 2], &[1, 2]),
    ] {
        assert!(rt; comes_to(alloc, call, call, alone)?, "{case} fails");
        assert!(rt;
            comes_to(alloc, call, 30, with_all)?,
            "{case} and all that follow fail"
        );
    }
    Ok(())
}

/// Whether a stop after so many calls leaves rows for files of these sizes: `open` where the rest became the byte of an open gate, `closed` where
/// it became another.
fn stop_leaves(
    alloc: Global,
    disk: &MemoryDisk,
    calls: usize,
    closed: &[u64],
    open: &[u64],
) -> Result<bool, Fail> {
    for (byte, want) in [(0, closed), (1, open), (7, closed), (255, closed)] {
        if disk.calls() < calls {
            return Ok(false);
        }
        match found(alloc, disk.after_stop(calls, byte)?)? {
            Ok(sizes) if sizes.as_slice() == want => {}
            _ => return Ok(false),
        }
    }
    Ok(true)
}

#[test]
fn a_stop_leaves_what_was_acknowledged(rt: HostRuntime) -> Result<(), Fail> {
    let alloc = rt.alloc();
    let ran = whole_run(&rt, alloc)?;
    for (case, calls, closed, open) in [
        ("the journal is made", 3, NONE, NONE),
        ("the Restart stands", 7, NONE, NONE),
        ("the first body is written", 8, NONE, NONE),
        ("the first body is synced", 9, NONE, NONE),
        ("the gate of the first is written", 10, NONE, &[1]),
        ("the gate of the first is synced", 11, &[1], &[1]),
        ("the second body is written", 12, &[1], &[1]),
        ("the second body is synced", 13, &[1], &[1]),
        ("the gate of the second is written", 14, &[1], &[1, 2]),
        ("the gate of the second is synced", 15, &[1, 2], &[1, 2]),
    ] {
        let is_left = stop_leaves(alloc, &ran.disk, calls, closed, open)?;
        assert!(rt; is_left, "{case}");
    }
    Ok(())
}

/// Whether there are rows, and each is in this state at this attempt.
fn are_in(keep: &Keep<MemoryDisk>, state: FileState, attempt: u32) -> bool {
    let rows = keep.desk().rows();
    !rows.is_empty()
        && rows
            .iter()
            .all(|row| row.state == state && row.attempt == attempt)
}

/// What a keep answers the command of an entry.
fn answer(
    alloc: Global,
    keep: &mut Keep<MemoryDisk>,
    entry: &[u8],
) -> Result<Result<Answer, KeepFault>, Memory> {
    let next = command(alloc, entry)?;
    Ok(keep.apply(0, next))
}

#[test]
fn a_restart_lets_go_of_what_was_copied(rt: HostRuntime) -> Result<(), Fail> {
    let alloc = rt.alloc();
    let disk = MemoryDisk::new(alloc, Vec::new(alloc));
    let Ok(mut keep) = Keep::start(alloc, disk, settings(alloc)?, 1_700_000_000) else {
        panic!(rt; "it starts")
    };
    let submitted = answer(alloc, &mut keep, FIRST)?;
    let is_submitted = matches!(submitted, Ok(Answer::Submitted { job: 1, .. }));
    assert!(rt;
        is_submitted && are_in(&keep, FileState::Submitted, 0),
        "a submission"
    );
    let claimed = answer(alloc, &mut keep, CLAIM)?;
    let want = Answer::Claimed {
        file: 1,
        attempt: 1,
    };
    assert!(rt;
        claimed == Ok(want) && are_in(&keep, FileState::Active, 1),
        "a claim"
    );
    let Ok(again) = Keep::start(alloc, keep.close(), settings(alloc)?, 1_700_000_001) else {
        panic!(rt; "it starts again")
    };
    let is_released = again.desk().commands() == 4 && are_in(&again, FileState::Submitted, 1);
    assert!(rt; is_released, "a restart");
    Ok(())
}

/// Bytes, and the offset from which on they are damaged.
const DAMAGED: [(&str, &[u8], u64); 7] = [
    ("another header", b"FTS3JRN2\0", 0),
    ("a header alone", b"FTS3JRN1", 0),
    ("a cut body", b"FTS3JRN1\x01\x05\0\0\0\x09\x09\x09", 8),
    (
        "a cancellation of a job that isn't there",
        b"FTS3JRN1\x01\x08\0\0\0\x03\x03\x80\xe2\xcf\xaa\x06\x01\x07",
        8,
    ),
    (
        "a number that isn't in its shortest form",
        b"FTS3JRN1\x01\x09\0\0\0\x03\x03\x80\xe2\xcf\xaa\x86\x00\x01\x07",
        15,
    ),
    (
        "a byte behind an entry",
        b"FTS3JRN1\x01\x09\0\0\0\x03\x03\x80\xe2\xcf\xaa\x06\x01\x01\x07",
        21,
    ),
    (
        "a cut behind an entry that is refused",
        b"FTS3JRN1\x01\x08\0\0\0\x03\x03\x80\xe2\xcf\xaa\x06\x01\x01\x05\0\0\0\x09",
        21,
    ),
];

/// What a look at these bytes answers where they are damaged.
fn fault_of_look(alloc: Global, bytes: &[u8]) -> Result<Option<KeepFault>, AllocError> {
    let disk = MemoryDisk::holding(alloc, bytes.to_vec(alloc)?, Vec::new(alloc));
    Ok(Keep::view(alloc, disk).err().map(|(fault, _disk)| fault))
}

#[test]
fn damaged_bytes_are_told_by_their_offset(rt: HostRuntime) -> Result<(), Fail> {
    let alloc = rt.alloc();
    for (case, bytes, offset) in DAMAGED {
        let want = Some(KeepFault::Damaged { offset });
        let started = found(alloc, bytes.to_vec(alloc)?)?.err();
        assert!(rt; started == want, "{case}");
        assert!(rt;
            fault_of_look(alloc, bytes)? == want,
            "{case}, by one who looks"
        );
    }
    let empty = fault_of_look(alloc, b"")?;
    assert!(rt;
        empty == Some(KeepFault::Damaged { offset: 0 }),
        "nothing, by one who looks"
    );
    Ok(())
}

/// Whether a look at these bytes fails where this call of its disk does: a sync, a length, a read, and a read for each of three entries. Call 7
/// isn't made, and the look finds three entries and two rows.
fn is_looked_at(alloc: Global, bytes: &[u8], call: u32) -> Result<bool, AllocError> {
    let disk = MemoryDisk::holding(alloc, bytes.to_vec(alloc)?, [call].to_vec(alloc)?);
    match Keep::view(alloc, disk) {
        Ok((desk, _disk)) => Ok(call == 7 && desk.commands() == 3 && desk.rows().len() == 2),
        Err((fault, _disk)) => Ok(call < 7 && fault == KeepFault::DiskFailed),
    }
}

#[test]
fn a_look_answers_each_failing_call(rt: HostRuntime) -> Result<(), Fail> {
    let alloc = rt.alloc();
    let ran = whole_run(&rt, alloc)?;
    assert!(rt; 15 <= ran.disk.calls(), "a run is fifteen calls");
    let bytes = ran.disk.after_stop(15, 0)?;
    for call in 1..=7 {
        assert!(rt; is_looked_at(alloc, bytes.as_slice(), call)?, "call {call}");
    }
    Ok(())
}
