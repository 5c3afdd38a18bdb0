//! Runs of `delete` over a disk, a store, an input and an output in memory: what is written, the status, and the line that is noted.
use super::deletes::store_failing;
use fts_config::read_settings;
use fts_deleting::{DeleteEnd, run_delete, send_delete_note};
use fts_disk::{Disk, MemoryDisk};
use fts_store::{MemoryStore, Store};
use fts_tables::{Memory, PlaceRef, Settings};
use fts_wire::{MemorySink, MemorySource};
use std::alloc::Global;
use std::test::Fail;

const SETTINGS: &str =
    "vo = \"demo\"\n[[storage]]\nurl = \"https://a.example\"\n[[storage]]\nurl = \"https://b.example\"\n";

const TWO: &str = r#"{"delete":["https://a.example/data/f1","https://a.example/data/no"]}"#;

const ONE: &str = r#"{"delete":["https://a.example/data/f1"]}"#;

/// The settings of the runs.
fn settings(alloc: Global) -> Result<Settings, Memory> {
    match read_settings(alloc, SETTINGS.as_bytes()) {
        Ok(settings) => Ok(settings),
        Err(_) => Err(Memory),
    }
}

/// How a run ended, and its disk. What it wrote lies in the sink.
fn run(
    alloc: Global,
    disk: MemoryDisk,
    store: &mut MemoryStore,
    input: &[u8],
    output: &mut MemorySink,
) -> Result<(DeleteEnd, MemoryDisk), Memory> {
    let settings = settings(alloc)?;
    let mut input = MemorySource::new(input.to_vec(alloc)?, Vec::new(alloc));
    Ok(run_delete(alloc, &settings, disk, store, &mut input, output))
}

/// A sink whose writes never fail.
fn sink(alloc: Global) -> MemorySink {
    MemorySink::new(alloc, Vec::new(alloc))
}

#[test]
fn what_is_asked_for_is_removed_and_told(rt: HostRuntime) -> Result<(), Fail> {
    let alloc = rt.alloc();
    let mut disk = MemoryDisk::new(alloc, Vec::new(alloc));
    for (case, input, want) in [
        (
            "a file that is there, and one that isn't",
            TWO,
            "delete 1 FINISHED https://a.example/data/f1\ndelete 2 FINISHED https://a.example/data/no\n",
        ),
        (
            "an empty input asks for nothing",
            "",
            "delete 1 FINISHED https://a.example/data/f1\ndelete 2 FINISHED https://a.example/data/no\n",
        ),
        (
            "the same file is asked for again",
            ONE,
            "delete 1 FINISHED https://a.example/data/f1\ndelete 2 FINISHED https://a.example/data/no\ndelete 3 FINISHED https://a.example/data/f1\n",
        ),
    ] {
        let mut store = store_failing(alloc, &[])?;
        let mut output = sink(alloc);
        let (end, left) = run(alloc, disk, &mut store, input.as_bytes(), &mut output)?;
        disk = left;
        assert!(rt; end == DeleteEnd::Told, "{case}: status 0");
        assert!(rt; output.bytes() == want.as_bytes(), "{case}: the rows");
        let at = PlaceRef {
            endpoint: "https://a.example",
            path: "data/f1",
        };
        let is_there = store.size(at) == Ok(Some(3));
        assert!(rt; is_there == input.is_empty(), "{case}: the file");
    }
    Ok(())
}

#[test]
fn a_file_that_three_runs_miss_has_failed(rt: HostRuntime) -> Result<(), Fail> {
    let alloc = rt.alloc();
    let mut disk = MemoryDisk::new(alloc, Vec::new(alloc));
    for (input, want) in [
        (ONE, "delete 1 WAITING https://a.example/data/f1\n"),
        ("", "delete 1 WAITING https://a.example/data/f1\n"),
        ("", "delete 1 FAILED https://a.example/data/f1\n"),
        ("", "delete 1 FAILED https://a.example/data/f1\n"),
    ] {
        let mut store = store_failing(alloc, &[1, 2, 3])?;
        let mut output = sink(alloc);
        let (end, left) = run(alloc, disk, &mut store, input.as_bytes(), &mut output)?;
        disk = left;
        assert!(rt; end == DeleteEnd::Told, "status 0");
        assert!(rt; output.bytes() == want.as_bytes(), "{want}");
    }
    Ok(())
}

#[test]
fn a_document_is_refused_by_its_least_rule(rt: HostRuntime) -> Result<(), Fail> {
    let alloc = rt.alloc();
    for (rule, input) in [
        (1, "delete"),
        (2, "[]"),
        (3, r#"{"delete":[]}"#),
        (3, "{}"),
        (5, r#"{"delete":[1]}"#),
        (6, r#"{"delete":["https://a.example"]}"#),
        (6, r#"{"delete":["https://a.example/.fts/part-1"]}"#),
        (7, r#"{"delete":["https://c.example/f"]}"#),
    ] {
        let disk = MemoryDisk::new(alloc, Vec::new(alloc));
        let mut store = store_failing(alloc, &[])?;
        let mut output = sink(alloc);
        let (end, mut disk) = run(alloc, disk, &mut store, input.as_bytes(), &mut output)?;
        assert!(rt;
            end == DeleteEnd::DocumentRule { rule },
            "rule {rule}: {input}"
        );
        assert!(rt; end.status() == 20, "status 20: {input}");
        assert!(rt; output.bytes().is_empty(), "nothing is written: {input}");
        assert!(rt; disk.len() == Ok(9), "nothing is asked: {input}");
    }
    Ok(())
}

/// So many blanks in front of a document.
fn behind_blanks(alloc: Global, blanks: usize) -> Result<Vec<u8>, Memory> {
    let mut input = match vec![in alloc; 0x20; blanks] {
        Ok(input) => input,
        Err(_) => return Err(Memory),
    };
    input.extend_from_slice(ONE.as_bytes())?;
    Ok(input)
}

#[test]
fn a_document_has_a_mebibyte_at_most(rt: HostRuntime) -> Result<(), Fail> {
    let alloc = rt.alloc();
    let blanks = 1_048_576 - ONE.len();
    for (case, blanks, want) in [
        ("just so long", blanks, DeleteEnd::Told),
        (
            "a byte more",
            blanks + 1,
            DeleteEnd::DocumentRule { rule: 8 },
        ),
    ] {
        let input = behind_blanks(alloc, blanks)?;
        let disk = MemoryDisk::new(alloc, Vec::new(alloc));
        let mut store = store_failing(alloc, &[])?;
        let mut output = sink(alloc);
        let (end, _disk) = run(alloc, disk, &mut store, input.as_slice(), &mut output)?;
        assert!(rt; end == want, "{case}");
    }
    Ok(())
}

#[test]
fn a_device_that_fails_ends_the_run(rt: HostRuntime) -> Result<(), Fail> {
    let alloc = rt.alloc();
    let settings = settings(alloc)?;
    for (case, read, write, call, want) in [
        ("the first read", 1, 0, 0, DeleteEnd::InputFailed),
        ("the second read", 2, 0, 0, DeleteEnd::InputFailed),
        ("the first write", 0, 1, 0, DeleteEnd::OutputFailed),
        ("the fifth write", 0, 5, 0, DeleteEnd::OutputFailed),
        ("the first call of the disk", 0, 0, 1, DeleteEnd::DiskFailed),
        ("one of the asking", 0, 0, 5, DeleteEnd::DiskFailed),
    ] {
        let mut input = MemorySource::new(ONE.as_bytes().to_vec(alloc)?, [read].to_vec(alloc)?);
        let mut output = MemorySink::new(alloc, [write].to_vec(alloc)?);
        let disk = MemoryDisk::new(alloc, [call].to_vec(alloc)?);
        let mut store = store_failing(alloc, &[])?;
        let (end, _disk) = run_delete(alloc, &settings, disk, &mut store, &mut input, &mut output);
        assert!(rt; end == want, "{case}");
    }
    Ok(())
}

// Each call of the disk in turn fails, in the first run or in the second: the third finds a whole journal, and nothing waits behind it.
#[test]
fn a_run_behind_one_whose_disk_failed_goes_on(rt: HostRuntime) -> Result<(), Fail> {
    let alloc = rt.alloc();
    let mut stopped = 0_u64;
    for call in 1..20 {
        let mut disk = MemoryDisk::new(alloc, [call].to_vec(alloc)?);
        let mut files = store_failing(alloc, &[])?;
        for (input, is_last) in [(TWO, false), ("", false), ("", true)] {
            let mut output = sink(alloc);
            let (end, left) = run(alloc, disk, &mut files, input.as_bytes(), &mut output)?;
            disk = left;
            if end == DeleteEnd::DiskFailed {
                stopped = u64::saturating_add(stopped, 1);
            } else {
                assert!(rt; end == DeleteEnd::Told, "no other end, call {call}");
                let are_settled = !output
                    .bytes()
                    .windows(7)
                    .any(|word| word == b"WAITING".as_slice());
                assert!(rt; are_settled, "nothing waits, call {call}");
            }
            assert!(rt;
                !is_last || end == DeleteEnd::Told,
                "the third run, call {call}"
            );
        }
    }
    assert!(rt; stopped > 5, "runs were stopped: {stopped}");
    Ok(())
}

#[test]
fn each_end_has_its_status_and_its_line(rt: HostRuntime) -> Result<(), Fail> {
    let alloc = rt.alloc();
    for (end, status, line) in [
        (DeleteEnd::Told, 0, ""),
        (DeleteEnd::NoMemory, 1, "fts: no memory\n"),
        (DeleteEnd::DiskFailed, 4, "fts: disk failed\n"),
        (DeleteEnd::InputFailed, 5, "fts: input failed\n"),
        (DeleteEnd::OutputFailed, 6, "fts: output failed\n"),
        (
            DeleteEnd::Damaged { offset: 12 },
            7,
            "fts: journal damaged at 12\n",
        ),
        (
            DeleteEnd::JournalFull { used: 67_108_850 },
            11,
            "fts: journal full at 67108850\n",
        ),
        (
            DeleteEnd::DocumentRule { rule: 3 },
            20,
            "fts: delete document rule 3\n",
        ),
        (DeleteEnd::RowsFull, 21, "fts: rows full\n"),
    ] {
        let mut notes = sink(alloc);
        let is_sent = send_delete_note(&mut notes, end).is_ok();
        let is_so = end.status() == status && notes.bytes() == line.as_bytes();
        assert!(rt; is_sent && is_so, "status {status}");
    }
    Ok(())
}

#[test]
fn another_journal_is_damaged_and_stays(rt: HostRuntime) -> Result<(), Fail> {
    let alloc = rt.alloc();
    let restart = b"FTS3JRN1\x01\x02\0\0\0\0\x01\0";
    let disk = MemoryDisk::holding(alloc, restart.to_vec(alloc)?, Vec::new(alloc));
    let mut store = store_failing(alloc, &[])?;
    let mut output = sink(alloc);
    let (end, mut disk) = run(alloc, disk, &mut store, ONE.as_bytes(), &mut output)?;
    assert!(rt;
        end == DeleteEnd::Damaged { offset: 13 },
        "at its first body"
    );
    let mut into = [0; 16];
    let is_kept = disk.len() == Ok(16)
        && disk.read_at(0, &mut into).is_ok()
        && into.starts_with(restart);
    assert!(rt; is_kept, "it stays as it was");
    Ok(())
}
