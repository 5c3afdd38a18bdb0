//! Journals: worked bytes, calls with ample memory, every stop and every failing call of a run, and a real file.
//! A run makes a journal and appends two bodies; its rows say what is opened afterwards, as written down by hand.
use super::entries::numbers;
use fts_disk::{Disk, FileDisk, MemoryDisk};
use fts_journal::{Journal, JournalFault};
use std::alloc::Global;
use std::fs;
use std::test::Fail;

const FIRST: &[u8] = &[0x03, 0x03, 0x80, 0xe2, 0xcf, 0xaa, 0x06, 0x01];

const SECOND: &[u8] = &[1, 0, 1];

/// Bytes, and what a load of them answers: how many bodies, and the offset of the last gate.
const READINGS: [(&str, &[u8], Result<(usize, u64), JournalFault>); 8] = [
    (
        "one body",
        b"FTS3JRN1\x01\x08\0\0\0\x03\x03\x80\xe2\xcf\xaa\x06\x01\x07",
        Ok((1, 21)),
    ),
    (
        "a cut body",
        b"FTS3JRN1\x01\x08\0\0\0\x03\x03\x80\xe2\xcf\xaa\x06\x01\x01\x05\0\0\0\x09\x09\x09",
        Err(JournalFault::Cut { offset: 21 }),
    ),
    (
        "an end where a gate is due",
        b"FTS3JRN1\x01\x08\0\0\0\x03\x03\x80\xe2\xcf\xaa\x06\x01",
        Err(JournalFault::Cut { offset: 21 }),
    ),
    (
        "a body behind a gate 07",
        b"FTS3JRN1\x07\x01\0\0\0\x05\0",
        Ok((0, 8)),
    ),
    (
        "an empty body",
        b"FTS3JRN1\x01\0\0\0\0\0",
        Err(JournalFault::Cut { offset: 8 }),
    ),
    (
        "another last byte",
        b"FTS3JRN2\0",
        Err(JournalFault::NotJournal),
    ),
    ("a header alone", b"FTS3JRN1", Err(JournalFault::NotJournal)),
    ("nothing", b"", Err(JournalFault::NotJournal)),
];

#[test]
fn bytes_are_read_as_they_are_written_down(rt: HostRuntime) -> Result<(), Fail> {
    let alloc = rt.alloc();
    for (case, bytes, want) in READINGS {
        let disk = MemoryDisk::holding(alloc, bytes.to_vec(alloc)?, Vec::new(alloc));
        let is_read = match Journal::load(alloc, disk) {
            Ok(journal) => want == Ok((journal.count(), journal.used())),
            Err((fault, _disk)) => want == Err(fault),
        };
        assert!(rt; is_read, "{case}");
    }
    Ok(())
}

/// The bodies of a journal.
fn bodies_in(
    alloc: Global,
    journal: &mut Journal<MemoryDisk>,
) -> Result<Vec<Vec<u8>>, JournalFault> {
    let mut bodies = Vec::new(alloc);
    for n in 0..journal.count() {
        let mut body = Vec::new(alloc);
        if n < journal.count() {
            journal.body(n, &mut body)?;
        }
        bodies.push(body)?;
    }
    Ok(bodies)
}

/// The bodies that a disk with these bytes is opened with, none where it isn't opened.
fn opened(alloc: Global, bytes: Vec<u8>) -> Result<Option<Vec<Vec<u8>>>, JournalFault> {
    let disk = MemoryDisk::holding(alloc, bytes, Vec::new(alloc));
    match Journal::load(alloc, disk) {
        Ok(mut journal) => Ok(Some(bodies_in(alloc, &mut journal)?)),
        Err((JournalFault::Memory, _disk)) => Err(JournalFault::Memory),
        Err(_) => Ok(None),
    }
}

/// Whether these bodies are opened, in this order, and no others.
fn are(opened: &Option<Vec<Vec<u8>>>, bodies: &[&[u8]]) -> bool {
    match opened {
        Some(found) => found.len() == bodies.len()
            && found.iter().zip(bodies).all(|(a, b)| a.as_slice() == *b),
        None => false,
    }
}

/// What stands for these bodies: the header, each body behind an open gate and its length in four bytes, and a closed gate.
fn bytes_of(alloc: Global, bodies: &[&[u8]]) -> Result<Vec<u8>, JournalFault> {
    let mut bytes = b"FTS3JRN1".to_vec(alloc)?;
    for body in bodies {
        let size = u32::try_from(body.len()).unwrap_or(u32::MAX);
        bytes.push(1)?;
        bytes.extend_from_slice(&size.to_le_bytes())?;
        bytes.extend_from_slice(body)?;
    }
    bytes.push(0)?;
    Ok(bytes)
}

// 65,536 bytes are read at once: the second gate stands everywhere around their end, and so does its length.
#[test]
fn a_gate_is_found_wherever_a_reading_ends(rt: HostRuntime) -> Result<(), Fail> {
    let alloc = rt.alloc();
    for size in 65_512..65_526 {
        let long = vec![in alloc; 1u8; size]?;
        let bodies = [long.as_slice(), SECOND, long.as_slice(), FIRST];
        let found = opened(alloc, bytes_of(alloc, &bodies)?)?;
        assert!(rt; are(&found, &bodies), "bodies of {size} bytes");
    }
    Ok(())
}

/// A run that was let go: its disk, the bodies that were acknowledged, and the one in doubt, or none.
#[derive(Drop)]
struct Ran {
    disk: MemoryDisk,
    bodies: Vec<&'static [u8]>,
    doubt: Option<&'static [u8]>,
}

/// A journal is made, a body appended, a doubt ended, and another body appended. With no failure these are calls 1 and 2 of the disk,
/// 3 to 6, none, and 7 to 10. None where the journal isn't made.
fn run(alloc: Global, fail: Vec<u32>) -> Result<Option<Ran>, JournalFault> {
    let Ok(mut journal) = Journal::create(alloc, MemoryDisk::new(alloc, fail)) else {
        return Ok(None);
    };
    let mut bodies = Vec::new(alloc);
    let mut tried = None;
    for body in [FIRST, SECOND] {
        if journal.settle().is_ok() && !journal.doubt() {
            tried = Some(body);
            if journal.append(body).is_ok() {
                bodies.push(body)?;
            }
        }
    }
    let doubt = if journal.doubt() { tried } else { None };
    Ok(Some(Ran {
        disk: journal.close(),
        bodies,
        doubt,
    }))
}

/// Whether a stop after so many calls leaves these bodies: `open` where the rest became the byte of an open gate, `closed` where it became another.
fn stop_leaves(
    alloc: Global,
    disk: &MemoryDisk,
    calls: usize,
    closed: &[&[u8]],
    open: &[&[u8]],
) -> Result<bool, Fail> {
    for (byte, want) in [(0, closed), (1, open), (7, closed), (255, closed)] {
        if disk.calls() < calls || !are(&opened(alloc, disk.after_stop(calls, byte)?)?, want) {
            return Ok(false);
        }
    }
    Ok(true)
}

const NONE: &[&[u8]] = &[];

const ONE: &[&[u8]] = &[FIRST];

const BOTH: &[&[u8]] = &[FIRST, SECOND];

#[test]
fn a_stop_leaves_the_list_before_or_with_the_body(rt: HostRuntime) -> Result<(), Fail> {
    let alloc = rt.alloc();
    let Some(ran) = run(alloc, Vec::new(alloc))? else {
        panic!(rt; "a journal is made")
    };
    assert!(rt; ran.disk.calls() == 10, "a run is ten calls");
    for (case, calls, closed, open) in [
        ("the journal is made", 2, NONE, NONE),
        ("the first body is written", 3, NONE, NONE),
        ("the first body is synced", 4, NONE, NONE),
        ("the gate of the first is written", 5, NONE, ONE),
        ("the gate of the first is synced", 6, ONE, ONE),
        ("the second body is written", 7, ONE, ONE),
        ("the second body is synced", 8, ONE, ONE),
        ("the gate of the second is written", 9, ONE, BOTH),
        ("the gate of the second is synced", 10, BOTH, BOTH),
    ] {
        let is_left = stop_leaves(alloc, &ran.disk, calls, closed, open)?;
        assert!(rt; is_left, "{case}");
    }
    Ok(())
}

/// The disk of a run whose ninth call fails, and whose doubt is settled at its end.
fn settled(alloc: Global) -> Result<Option<MemoryDisk>, JournalFault> {
    let Ok(mut journal) = Journal::create(alloc, MemoryDisk::new(alloc, [9].to_vec(alloc)?)) else {
        return Ok(None);
    };
    for body in [FIRST, SECOND] {
        if !journal.doubt() {
            let _done = journal.append(body);
        }
    }
    if journal.settle().is_err() {
        return Ok(None);
    }
    Ok(Some(journal.close()))
}

#[test]
fn bytes_are_written_as_they_are_written_down(rt: HostRuntime) -> Result<(), Fail> {
    let Some(disk) = settled(rt.alloc())? else {
        panic!(rt; "a journal is made, and its doubt settled")
    };
    let one = b"FTS3JRN1\x01\x08\0\0\0\x03\x03\x80\xe2\xcf\xaa\x06\x01\0".as_slice();
    for (case, calls, want) in [
        ("a new journal", 2, b"FTS3JRN1\0".as_slice()),
        ("one body", 6, one),
        ("a doubt that was settled", 11, one),
    ] {
        let is_written = calls <= disk.calls() && disk.after_stop(calls, 0xff)?.starts_with(want);
        assert!(rt; is_written, "{case}");
    }
    Ok(())
}

/// Whether what a run left is opened with what it acknowledged, or with that and the body in doubt, whatever the rest became.
fn is_opened(alloc: Global, ran: &Ran) -> Result<bool, Fail> {
    let mut longer = ran.bodies.clone()?;
    longer.extend(ran.doubt)?;
    for byte in [0, 1, 7, 255] {
        let found = opened(alloc, ran.disk.after_stop(ran.disk.calls(), byte)?)?;
        if !are(&found, &ran.bodies) && !are(&found, &longer) {
            return Ok(false);
        }
    }
    Ok(true)
}

/// Whether a run whose calls with these numbers fail acknowledges so many bodies, leaves one in doubt or none, and loses none.
fn comes_to(alloc: Global, first: u32, last: u32, want: (usize, bool)) -> Result<bool, Fail> {
    match run(alloc, numbers(alloc, first, last)?)? {
        Some(ran) => {
            let is_wanted = (ran.bodies.len(), ran.doubt.is_some()) == want;
            Ok(is_wanted && is_opened(alloc, &ran)?)
        }
        None => Ok(false),
    }
}

// How many bodies are acknowledged, and whether one is in doubt, where one call fails alone, and where all that follow fail with it.
#[test]
fn a_failing_call_loses_no_body(rt: HostRuntime) -> Result<(), Fail> {
    let alloc = rt.alloc();
    for (case, call, alone, with_all) in [
        ("the write of the first body", 3, (1, false), (0, false)),
        ("the sync of the first body", 4, (1, false), (0, false)),
        ("the write of its gate", 5, (1, false), (0, true)),
        ("the sync of its gate", 6, (1, false), (0, true)),
        ("the write of the second body", 7, (1, false), (1, false)),
        ("the sync of the second body", 8, (1, false), (1, false)),
        ("the write of the second's gate", 9, (1, true), (1, true)),
        ("the sync of the second's gate", 10, (1, true), (1, true)),
        ("a call that a run doesn't make", 11, (2, false), (2, false)),
    ] {
        assert!(rt; comes_to(alloc, call, call, alone)?, "{case} fails");
        assert!(rt;
            comes_to(alloc, call, 20, with_all)?,
            "{case} and all that follow fail"
        );
    }
    Ok(())
}

#[test]
fn a_failing_call_makes_no_journal(rt: HostRuntime) -> Result<(), Fail> {
    for call in [1, 2] {
        let ran = run(rt.alloc(), numbers(rt.alloc(), call, call)?)?;
        assert!(rt; ran.is_none(), "call {call} of making one");
    }
    Ok(())
}

#[test]
fn a_failing_call_opens_no_journal(rt: HostRuntime) -> Result<(), Fail> {
    let alloc = rt.alloc();
    for call in [1, 2, 3] {
        let bytes = b"FTS3JRN1\0".to_vec(alloc)?;
        let disk = MemoryDisk::holding(alloc, bytes, numbers(alloc, call, call)?);
        let fault = Journal::load(alloc, disk).err().map(|(fault, _disk)| fault);
        assert!(rt;
            fault == Some(JournalFault::DiskFailed),
            "call {call} of opening one"
        );
    }
    Ok(())
}

/// Whether an append over a disk with these failing calls fails, and twice in turn there is a doubt or none, and settling it succeeds or fails.
fn settles(alloc: Global, fail: &[u32], want: [(bool, bool); 2]) -> Result<bool, JournalFault> {
    let disk = MemoryDisk::new(alloc, fail.to_vec(alloc)?);
    let Ok(mut journal) = Journal::create(alloc, disk) else {
        return Ok(false);
    };
    if journal.doubt() || journal.append(FIRST) != Err(JournalFault::DiskFailed) {
        return Ok(false);
    }
    let first = (journal.doubt(), journal.settle().is_ok());
    let second = (journal.doubt(), journal.settle().is_ok());
    Ok([first, second] == want)
}

// Calls 1 and 2 make a journal; 3 to 5 leave a doubt, which 6 and 7 end, or else 7 and 8, or 8 and 9.
#[test]
fn a_doubt_stays_until_it_is_settled(rt: HostRuntime) -> Result<(), Fail> {
    for (case, fail, want) in [
        ("neither call fails", [5, 5], [(true, true), (false, true)]),
        ("its write fails", [5, 6], [(true, false), (true, true)]),
        ("its sync fails", [5, 7], [(true, false), (true, true)]),
    ] {
        let is_settled = settles(rt.alloc(), &fail, want)?;
        assert!(rt; is_settled, "{case}");
    }
    Ok(())
}

/// Whether each of the two bodies is appended to a journal without a doubt.
fn appends_both<D: Disk>(journal: &mut Journal<D>) -> bool {
    for body in [FIRST, SECOND] {
        if journal.doubt() || journal.append(body).is_err() {
            return false;
        }
    }
    true
}

/// How many bodies the journal on this disk holds, and the offset of its last gate; none where it isn't opened.
fn loaded<D: Disk + Drop>(alloc: Global, disk: D) -> Option<(usize, u64)> {
    match Journal::load(alloc, disk) {
        Ok(found) => Some((found.count(), found.used())),
        Err(_) => None,
    }
}

#[test]
fn a_file_is_opened_again(rt: HostRuntime) -> Result<(), Fail> {
    let alloc = rt.alloc();
    let path = "journal-of-a-test";
    let _old = fs::remove_file(&rt, path);
    let Ok(mut made) = Journal::create(alloc, FileDisk::open(&rt, path)) else {
        panic!(rt; "a journal is made")
    };
    assert!(rt; appends_both(&mut made), "both bodies are appended");
    let held = loaded(alloc, FileDisk::open(&rt, path));
    assert!(rt; held.is_none(), "the file is held");
    let looked = loaded(alloc, FileDisk::view(&rt, path));
    assert!(rt; looked == Some((2, 29)), "one who looks finds both");
    drop(made.close());
    let again = loaded(alloc, FileDisk::open(&rt, path));
    assert!(rt; again == Some((2, 29)), "the next service opens it");
    let want = b"FTS3JRN1\x01\x08\0\0\0\x03\x03\x80\xe2\xcf\xaa\x06\x01\x01\x03\0\0\0\x01\0\x01\0";
    let found = fs::read(&rt, path)?;
    let is_written = found.starts_with(want) && found.len() == 1_048_576;
    assert!(rt; is_written, "its bytes stand at the start of a block");
    fs::remove_file(&rt, path)?;
    Ok(())
}
