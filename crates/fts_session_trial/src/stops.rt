//! A session that is stopped: behind each call of its disk, and between the move of a file and its report.
//! What opens behind a stop is the list of what was acknowledged by then, or that and the entry under way, and a Restart behind it (`opens`). An
//! entry has four calls: its body with a closed gate, a sync, its open gate, a sync. Only behind the third may it be there or not.
//! A file that was moved and not reported is tried again by the next run, as its second attempt, which finds the destination.
ghost use Rattle.std.specs.Prelude.{◌≡◌, length, IfOk};

use crate::failing::hands;
use crate::stand::{
    Ended, NOW, SETTINGS, empty_disk, make_given, no_memory, print_count, session, source,
};
use fts_disk::MemoryDisk;
use fts_journal::Journal;
use fts_keep::Keep;
use fts_record::read_entry;
use fts_store::MemoryStore;
use fts_tables::{Command, Settings};
use std::alloc::Global;
use std::io;

/// A submission of one file, a priority for it, a submission of two files, their cancellation, and a look at both jobs.
const FIVE: &str =
    "POST /jobs HTTP/1.1\r\nContent-Length: 93\r\n\r\n{\"files\":[{\"sources\":[\"https://a.example/data/f1\"],\
     \"destinations\":[\"https://b.example/f1\"]}]}\
     POST /jobs/00000000-0000-4000-8000-000000000001 HTTP/1.1\r\nContent-Length: 25\r\n\r\n{\"params\":{\"priority\":5}}\
     POST /jobs HTTP/1.1\r\nContent-Length: 175\r\n\r\n{\"files\":[{\"sources\":[\"https://a.example/data/f2\"],\
     \"destinations\":[\"https://b.example/f2\"]},{\"sources\":[\"https://a.example/data/f3\"],\
     \"destinations\":[\"https://b.example/f3\"]}]}\
     DELETE /jobs/00000000-0000-4000-8000-000000000002 HTTP/1.1\r\n\r\n\
     GET /jobs HTTP/1.1\r\n\r\n";

/// A submission of one file, without `overwrite`.
const KEEPING: &str =
    "POST /jobs HTTP/1.1\r\nContent-Length: 93\r\n\r\n{\"files\":[{\"sources\":[\"https://a.example/data/f1\"],\
     \"destinations\":[\"https://b.example/f1\"]}]}";

/// The same with `overwrite`.
const REPLACING: &str =
    "POST /jobs HTTP/1.1\r\nContent-Length: 121\r\n\r\n{\"files\":[{\"sources\":[\"https://a.example/data/f1\"],\
     \"destinations\":[\"https://b.example/f1\"]}],\"params\":{\"overwrite\":true}}";

/// A look at the file, three times: it waits, it is copied, and it is done.
const LOOKS: &str = "GET /jobs/00000000-0000-4000-8000-000000000001/files HTTP/1.1\r\n\r\n\
     GET /jobs/00000000-0000-4000-8000-000000000001/files HTTP/1.1\r\n\r\n\
     GET /jobs/00000000-0000-4000-8000-000000000001/files HTTP/1.1\r\n\r\n";

/// How the last look shows it, where the destination may not be replaced.
const EXISTS: &str =
    "[{\"activity\":\"default\",\"attempt\":2,\"cancel_asked\":false,\"checksum\":\"\",\
     \"dest_surl\":\"https://b.example/f1\",\"digest\":\"\",\"file_id\":1,\"file_index\":0,\"file_state\":\"FAILED\",\
     \"filesize\":0,\"not_before\":0,\"reason\":\"destination exists\",\"source_surl\":\"https://a.example/data/f1\"}]";

/// And where it may.
const REPLACED: &str =
    "[{\"activity\":\"default\",\"attempt\":2,\"cancel_asked\":false,\"checksum\":\"\",\
     \"dest_surl\":\"https://b.example/f1\",\"digest\":\"900150983cd24fb0d6963f7d28e17f72\",\"file_id\":1,\"file_index\":0,\
     \"file_state\":\"FINISHED\",\"filesize\":3,\"not_before\":0,\"reason\":\"\",\
     \"source_surl\":\"https://a.example/data/f1\"}]";

/// The calls of the disk that make a journal, and those of each entry.
const MADE: usize = 3;

const EACH: usize = 4;

/// What each byte that is not stable becomes.
const BYTES: [u8; 4] = [0, 1, 7, 255];

/// The byte of an open gate.
const OPEN: u8 = 1;

/// The answer to what can't be: a journal that a session left is none, say.
fn otherwise() -> io::Error {
    io::Error::from(io::ErrorKind::InvalidData)
}

/// The bodies of the journal on a disk.
fn bodies(alloc: Global, disk: MemoryDisk) -> io::Result<Vec<Vec<u8>>> {
    let Ok(mut journal) = Journal::load(alloc, disk) else {
        return Err(otherwise());
    };
    let mut bodies = Vec::new(alloc);
    for n in 0..journal.count() {
        let mut body = Vec::new(alloc);
        if n >= journal.count() || journal.body(n, &mut body).is_err() {
            return Err(otherwise());
        }
        bodies.push(body)?;
    }
    Ok(bodies)
}

/// The settings of a run, by its first entry.
fn settings(alloc: Global, run: &[Vec<u8>]) -> io::Result<Settings> {
    let Some(first) = run.first() else {
        return Err(otherwise());
    };
    let Ok(entry) = read_entry(alloc, first) else {
        return Err(otherwise());
    };
    match entry.command {
        Command::Restart { now: _, settings } => Ok(settings),
        _ => Err(otherwise()),
    }
}

/// How many entries are left behind so many calls: those whose four calls are done, and one whose gate became open.
fn left_by(calls: usize, byte: u8) -> usize {
    let behind = calls.saturating_sub(MADE);
    let done = behind / EACH;
    if behind % EACH == 3 && byte == OPEN {
        done.saturating_add(1)
    } else {
        done
    }
}

/// Whether these are so many entries of a run, and its Restart again.
fn are_front(found: &[Vec<u8>], run: &[Vec<u8>], wanted: usize) -> bool {
    let mut same = found.len() == wanted.saturating_add(1);
    for (one, other) in found.iter().zip(run.iter()).take(wanted) {
        same = same && one == other;
    }
    same && found.last() == run.first()
}

/// Whether what a stop left is opened, with so many entries of a run before its Restart.
fn opens(alloc: Global, left: Vec<u8>, run: &[Vec<u8>], wanted: usize) -> io::Result<bool> {
    let disk = MemoryDisk::holding(alloc, left, Vec::new(alloc));
    let Ok(keep) = Keep::start(alloc, disk, settings(alloc, run)?, NOW) else {
        return Ok(false);
    };
    let found = bodies(alloc, keep.close())?;
    Ok(are_front(&found, run, wanted))
}

/// A session of this input over an empty disk, in which nothing fails.
fn whole_session(alloc: Global, input: &str) -> io::Result<Ended<MemoryDisk, MemoryStore>>
    ensures { IfOk result (λ ended. length ended.hands.items ≡ 16) }
{
    session(
        alloc,
        make_given(alloc, SETTINGS, source(alloc, input.as_bytes())?)?,
        empty_disk(alloc),
        hands(alloc, Vec::new(alloc))?,
    )
}

/// Tries each byte behind so many calls, and answers how many were as wanted.
fn stop_behind(
    rt: &HostRuntime,
    disk: &MemoryDisk,
    run: &[Vec<u8>],
    calls: usize,
) -> io::Result<u32> {
    let alloc = rt.alloc();
    let mut same: u32 = 0;
    for byte in BYTES {
        if calls > disk.calls() {
            return Err(otherwise());
        }
        let left = disk.after_stop(calls, byte).map_err(no_memory)?;
        if opens(alloc, left, run, left_by(calls, byte))? {
            same = same.saturating_add(1);
        } else {
            println!(rt; "otherwise: a stop behind call {calls}, the rest {byte}")?;
        }
    }
    Ok(same)
}

/// A stop behind each call of a session of five requests, from the making of its journal on.
fn stop_everywhere(rt: &HostRuntime) -> io::Result<u32> {
    let alloc = rt.alloc();
    let disk = whole_session(alloc, FIVE)?.disk;
    let whole = disk.after_stop(disk.calls(), 0).map_err(no_memory)?;
    let run = bodies(alloc, MemoryDisk::holding(alloc, whole, Vec::new(alloc)))?;
    if run.len() != left_by(disk.calls(), 0) {
        return Err(otherwise());
    }
    let mut same: u32 = 0;
    for calls in MADE..=disk.calls() {
        same = same.saturating_add(stop_behind(rt, &disk, &run, calls)?);
    }
    Ok(same)
}

/// Whether a run that is stopped behind the move of its file and before the report, and a next one on what it left, show the file so.
fn ends_so(alloc: Global, input: &str, wanted: &str) -> io::Result<bool> {
    let ended = whole_session(alloc, input)?;
    // The report is the last entry, so the file was moved before its first call.
    let calls = ended.disk.calls().saturating_sub(EACH);
    let left = ended.disk.after_stop(calls, 0).map_err(no_memory)?;
    let next = session(
        alloc,
        make_given(alloc, SETTINGS, source(alloc, LOOKS.as_bytes())?)?,
        MemoryDisk::holding(alloc, left, Vec::new(alloc)),
        ended.hands,
    )?;
    Ok(next.ending.status == 0 && next.output.bytes().ends_with(wanted.as_bytes()))
}

/// Plays each stop, and prints what is otherwise than wanted, and how many were as wanted.
pub fn play_all(rt: &HostRuntime) -> io::Result<()> {
    print_count(rt, "stops behind each call as wanted", stop_everywhere(rt)?)?;
    let mut same: u32 = 0;
    for (input, wanted) in [(KEEPING, EXISTS), (REPLACING, REPLACED)] {
        if ends_so(rt.alloc(), input, wanted)? {
            same = same.saturating_add(1);
        } else {
            println!(rt; "otherwise: a stop before the report of {input}")?;
        }
    }
    print_count(rt, "stops before a report as wanted", same)
}
