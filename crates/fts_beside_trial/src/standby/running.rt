//! The command over links and disks in memory: its status, what it writes and notes, and what its journal holds then.
ghost use Rattle.std.specs.Prelude.{◌≤◌};

use super::answers::{
    DISK_FAILED, FIRST, NEVER, NO_DIAL, NO_ENTRY, NO_ROUTE, OTHER_FOURTH, PORT, SECOND, THIRD, has,
    journal, link,
};
use fts_disk::MemoryDisk;
use fts_following::{FollowRunEnd, run_follow, send_follow_note};
use fts_journal::Journal;
use fts_wire::MemorySink;
use std::alloc::Global;
use std::test::Fail;

/// The number of a call of a disk that never comes.
const NO_CALL: u32 = 1_000_000;

/// The line that is noted of an end.
fn note_of(alloc: Global, end: FollowRunEnd) -> Result<MemorySink, Fail> {
    let mut notes = MemorySink::new(alloc, vec![in alloc; NEVER]?);
    match send_follow_note(&mut notes, end) {
        Ok(()) => Ok(notes),
        Err(_) => Err(Fail::new("no note")),
    }
}

/// Whether the journal on a disk has the first entries and no others.
fn keeps(alloc: Global, disk: MemoryDisk, entries: usize) -> Result<bool, Fail> {
    match Journal::load(alloc, disk) {
        Ok(mut journal) => Ok(has(alloc, &mut journal, entries)),
        Err(_) => Err(Fail::new("no journal is loaded")),
    }
}

#[test]
fn an_empty_standby_has_all_of_its_primary(rt: HostRuntime) -> Result<(), Fail> {
    let alloc = rt.alloc();
    let disk = MemoryDisk::new(alloc, Vec::new(alloc));
    let mut link = link(alloc, [FIRST, SECOND, THIRD, NO_ENTRY], NO_DIAL)?;
    let mut output = MemorySink::new(alloc, vec![in alloc; NEVER]?);
    let (end, disk) = run_follow(alloc, PORT, 1, disk, &mut link, &mut output);
    assert!(rt; end.status() == 0, "status 0");
    assert!(rt;
        output.bytes() == "caught up at 3\n".as_bytes(),
        "where it came to"
    );
    assert!(rt; note_of(alloc, end)?.bytes().is_empty(), "nothing is noted");
    assert!(rt; keeps(alloc, disk, 3)?, "the same entries");
    Ok(())
}

/// Whether a run over these answers, whose standby has the first entries, ends with this status and this note, and its journal is as it was.
fn stays_so(
    alloc: Global,
    entries: usize,
    answers: [&str; 4],
    tries: u32,
    want: (u8, &str),
) -> Result<bool, Fail>
    requires tries { 1 ≤ tries }
{
    let disk = journal(alloc, entries, NO_CALL)?.close();
    let mut link = link(alloc, answers, NO_DIAL)?;
    let mut output = MemorySink::new(alloc, vec![in alloc; NEVER]?);
    let (end, disk) = run_follow(alloc, PORT, tries, disk, &mut link, &mut output);
    let is_told = end.status() == want.0 && note_of(alloc, end)?.bytes() == want.1.as_bytes();
    Ok(is_told && output.bytes().is_empty() && keeps(alloc, disk, entries)?)
}

#[test]
fn a_last_entry_that_differs_is_told(rt: HostRuntime) -> Result<(), Fail> {
    let answers = [OTHER_FOURTH, NO_ENTRY, "", ""];
    let is_so = stays_so(rt.alloc(), 4, answers, 3, (22, "fts: diverged at 3\n"))?;
    assert!(rt; is_so, "status 22 and the note, and its entries stay");
    Ok(())
}

#[test]
fn an_entry_of_another_number_is_not_appended(rt: HostRuntime) -> Result<(), Fail> {
    let answers = [FIRST, FIRST, SECOND, ""];
    let is_so = stays_so(rt.alloc(), 1, answers, 1, (17, "fts: no whole answer\n"))?;
    assert!(rt; is_so, "status 17 and the note, and nothing is appended");
    Ok(())
}

/// A sentence, the bytes of the disk, what the first line answers, the dial that fails, the write of the output that fails, the status, and the note.
type Row = (
    &'static str,
    &'static [u8],
    &'static str,
    u32,
    u64,
    u8,
    &'static str,
);

const ROWS: [Row; 8] = [
    (
        "an empty disk gets a journal",
        b"",
        NO_ENTRY,
        NO_DIAL,
        NEVER,
        0,
        "",
    ),
    (
        "the output fails",
        b"",
        NO_ENTRY,
        NO_DIAL,
        1,
        6,
        "fts: output failed\n",
    ),
    (
        "other bytes are no journal",
        b"FTS3JRN2\0",
        NO_ENTRY,
        NO_DIAL,
        NEVER,
        7,
        "fts: journal damaged at 0\n",
    ),
    (
        "an open gate without a body",
        b"FTS3JRN1\x01",
        NO_ENTRY,
        NO_DIAL,
        NEVER,
        7,
        "fts: journal damaged at 8\n",
    ),
    (
        "the service refuses",
        b"FTS3JRN1\0",
        NO_ROUTE,
        NO_DIAL,
        NEVER,
        15,
        "fts: service refused with 404\n",
    ),
    (
        "the link fails",
        b"FTS3JRN1\0",
        NO_ENTRY,
        1,
        NEVER,
        16,
        "fts: link failed\n",
    ),
    (
        "there is no answer",
        b"FTS3JRN1\0",
        "",
        NO_DIAL,
        NEVER,
        17,
        "fts: no whole answer\n",
    ),
    (
        "the service cannot serve",
        b"FTS3JRN1\0",
        DISK_FAILED,
        NO_DIAL,
        NEVER,
        18,
        "fts: service cannot serve: 503\n",
    ),
];

#[test]
fn each_end_has_its_status_and_note(rt: HostRuntime) -> Result<(), Fail> {
    let alloc = rt.alloc();
    for (case, bytes, answer, dial, write, status, note) in ROWS {
        let disk = MemoryDisk::holding(alloc, bytes.to_vec(alloc)?, Vec::new(alloc));
        let mut link = link(alloc, [answer, "", "", ""], dial)?;
        let mut output = MemorySink::new(alloc, vec![in alloc; write]?);
        let (end, _disk) = run_follow(alloc, PORT, 1, disk, &mut link, &mut output);
        assert!(rt; end.status() == status, "the status: {case}");
        assert!(rt;
            note_of(alloc, end)?.bytes() == note.as_bytes(),
            "the note: {case}"
        );
    }
    Ok(())
}
