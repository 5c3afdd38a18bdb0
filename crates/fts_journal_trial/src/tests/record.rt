//! Entries: that the definitions are the format, by entries spelled by hand, with the place of each kind of broken field.
//! Worked entries are read field by field and written byte by byte; generated ones come back as they were.
ghost use Rattle.std.specs.Prelude.{IsTrue};
ghost use Rattle.fts_record.specs.Proper.{has_priority};

use fts_record::{ReadFault, read_entry, write_entry};
use fts_tables::{Command, Endpoint, Entry, Memory, NewFile, NewJob, Outcome, Settings};
use std::alloc::{AllocError, Global};
use std::process::Abort;
use std::test::Fail;

const CANCEL: &[u8] = b"\x03\x03\x80\xe2\xcf\xaa\x06\x01";

const CLAIM: &[u8] = b"\x00\x06\x80\xe2\xcf\xaa\x06\x45\x00\x00\x00\x00\x00\x00\x00";

const REPORT: &[u8] =
    b"\x00\x07\x80\xe2\xcf\xaa\x06\x01\x01\x00\x03\x90\x01\x50\x98\x3c\xd2\x4f\xb0\xd6\x96\x3f\x7d\x28\xe1\x7f\x72";

/// A restart with one endpoint, one link and one activity.
const RESTART: &[u8] =
    b"\x00\x01\x80\xe2\xcf\xaa\x06\x04demo\x02\x07\x01\x05a://a\x03\x04\x01\x01l\x05a://a\x05a://a\x05\x01\x07default\x01";

/// A plain job with an id and one file, of 129 bytes and with a digest.
const SUBMIT: &[u8] =
    b"\x01\x02\x80\xe2\xcf\xaa\x06\x00\x01\x01\x00\x01\x02\x03\x04\x05\x06\x07\x08\x09\x0a\x0b\x0c\x0d\x0e\x0f\x03\x02\xac\x02\x01\x01\x00\
      \x05a://a\x01s\x05a://a\x01d\x81\x01\x01\x90\x01\x50\x98\x3c\xd2\x4f\xb0\xd6\x96\x3f\x7d\x28\xe1\x7f\x72\x07default";

/// The same job, whose files may wait for a day.
const LIMITED_SUBMIT: &[u8] =
    b"\x01\x0b\x80\xe2\xcf\xaa\x06\x18\x00\x01\x01\x00\x01\x02\x03\x04\x05\x06\x07\x08\x09\x0a\x0b\x0c\x0d\x0e\x0f\x03\x02\xac\x02\x01\x01\x00\
      \x05a://a\x01s\x05a://a\x01d\x81\x01\x01\x90\x01\x50\x98\x3c\xd2\x4f\xb0\xd6\x96\x3f\x7d\x28\xe1\x7f\x72\x07default";

/// A ban of a storage that cancels the files that wait there.
const BAN: &[u8] = b"\x00\x08\x80\xe2\xcf\xaa\x06\x11https://b.example\x01";

/// The end of that ban.
const UNBAN: &[u8] = b"\x00\x09\x80\xe2\xcf\xaa\x06\x11https://b.example";

/// An expiry.
const EXPIRE: &[u8] = b"\x00\x0a\x80\xe2\xcf\xaa\x06";

/// The bytes that are written of the entry that is read.
fn again(alloc: Global, bytes: &[u8]) -> Result<Vec<u8>, ReadFault> {
    let entry = read_entry(alloc, bytes)?;
    let mut out = Vec::new(alloc);
    match write_entry(&entry, &mut out) {
        Ok(()) => Ok(out),
        Err(Memory) => Err(ReadFault::Memory),
    }
}

/// The place that reading names, where it names one.
fn place(alloc: Global, bytes: &[u8]) -> Option<usize> {
    match read_entry(alloc, bytes) {
        Err(ReadFault::BadEntry { at }) => Some(at),
        Ok(_) | Err(ReadFault::Memory) => None,
    }
}

#[test]
fn a_worked_cancellation_is_read_field_by_field(rt: HostRuntime) -> Result<(), Fail> {
    let cancel = read_entry(rt.alloc(), CANCEL)?;
    let is_worked = matches!(
        &cancel.command,
        Command::CancelJob {
            now: 1_700_000_000,
            job: 1
        }
    );
    assert!(rt; cancel.writer == 3 && is_worked, "writer 3 cancels job 1");
    Ok(())
}

#[test]
fn a_worked_claim_is_read_field_by_field(rt: HostRuntime) -> Result<(), Fail> {
    let claim = read_entry(rt.alloc(), CLAIM)?;
    let is_worked = matches!(
        &claim.command,
        Command::Claim {
            now: 1_700_000_000,
            word: 69
        }
    );
    assert!(rt;
        claim.writer == 0 && is_worked,
        "the service claims by word 69"
    );
    Ok(())
}

#[test]
fn a_worked_report_is_read_field_by_field(rt: HostRuntime) -> Result<(), Fail> {
    let report = read_entry(rt.alloc(), REPORT)?;
    let is_worked = match &report.command {
        Command::Report {
            now: 1_700_000_000,
            file: 1,
            attempt: 1,
            outcome: Outcome::Verified { size: 3, digest },
        } => digest.as_slice() == &REPORT[11..],
        _ => false,
    };
    assert!(rt;
        is_worked,
        "file 1 was verified at its first attempt, with three bytes and their digest"
    );
    Ok(())
}

fn is_worked_endpoint(endpoint: &Endpoint) -> bool {
    endpoint.name.as_str() == "a://a" && endpoint.inbound == 3 && endpoint.outbound == 4
}

fn are_worked_settings(settings: &Settings) -> bool {
    settings.vo.as_str() == "demo"
        && settings.workers == 2
        && settings.default_max_active == 7
        && settings.endpoints.as_slice().len() == 1
        && settings.endpoints.as_slice().iter().all(is_worked_endpoint)
}

#[test]
fn worked_settings_are_read_field_by_field(rt: HostRuntime) -> Result<(), Fail> {
    let restart = read_entry(rt.alloc(), RESTART)?;
    let are_worked = match &restart.command {
        Command::Restart { settings, .. } => are_worked_settings(settings),
        _ => false,
    };
    assert!(rt; are_worked, "a restart with one endpoint");
    Ok(())
}

fn is_worked_file(file: &NewFile) -> bool {
    file.source.path.as_str() == "s" && file.dest.path.as_str() == "d" && file.size == 129
}

fn is_worked_job(job: &NewJob) -> bool {
    job.id == Some(0x0001_0203_0405_0607_0809_0a0b_0c0d_0e0f)
        && job.priority == 3
        && job.retry == 2
        && job.delay == 300
        && job.files.as_slice().len() == 1
        && job.files.as_slice().iter().all(is_worked_file)
}

#[test]
fn a_worked_job_is_read_field_by_field(rt: HostRuntime) -> Result<(), Fail> {
    let submit = read_entry(rt.alloc(), SUBMIT)?;
    let is_worked = match &submit.command {
        Command::Submit { job, .. } => is_worked_job(job),
        _ => false,
    };
    assert!(rt; is_worked, "a submission of one file");
    Ok(())
}

#[test]
fn a_worked_ban_is_read_field_by_field(rt: HostRuntime) -> Result<(), Fail> {
    let ban = read_entry(rt.alloc(), BAN)?;
    let is_worked = match &ban.command {
        Command::Ban {
            now: 1_700_000_000,
            storage,
            cancel: true,
        } => storage.as_str() == "https://b.example",
        _ => false,
    };
    assert!(rt;
        ban.writer == 0 && is_worked,
        "the service bans b with its files"
    );
    Ok(())
}

#[test]
fn a_worked_end_of_a_ban_is_read_field_by_field(rt: HostRuntime) -> Result<(), Fail> {
    let unban = read_entry(rt.alloc(), UNBAN)?;
    let is_worked = match &unban.command {
        Command::Unban {
            now: 1_700_000_000,
            storage,
        } => storage.as_str() == "https://b.example",
        _ => false,
    };
    assert!(rt; unban.writer == 0 && is_worked, "the ban of b ends");
    Ok(())
}

#[test]
fn worked_hours_and_expiries_are_read(rt: HostRuntime) -> Result<(), Fail> {
    let submit = read_entry(rt.alloc(), LIMITED_SUBMIT)?;
    let is_limited = match &submit.command {
        Command::Submit { job, .. } => job.queue_hours == 24 && is_worked_job(job),
        _ => false,
    };
    let expiry = read_entry(rt.alloc(), EXPIRE)?;
    let is_expiry = matches!(&expiry.command, Command::Expire { now: 1_700_000_000 });
    assert!(rt; is_limited, "a job whose files may wait for a day");
    assert!(rt; expiry.writer == 0 && is_expiry, "an expiry of the service");
    Ok(())
}

/// Whether each front of an entry is a broken one.
fn are_fronts_broken(alloc: Global, bytes: &[u8]) -> bool {
    for end in 0..bytes.len() {
        if place(alloc, &bytes[..end]).is_none() {
            return false;
        }
    }
    true
}

/// A row: a sentence, and an entry.
type EntryRow = (&'static str, &'static [u8]);

const ENTRIES: [EntryRow; 9] = [
    ("a cancellation", CANCEL),
    ("a claim", CLAIM),
    ("a report", REPORT),
    ("a restart", RESTART),
    ("a submission", SUBMIT),
    ("a submission with hours in the queue", LIMITED_SUBMIT),
    ("a ban", BAN),
    ("the end of a ban", UNBAN),
    ("an expiry", EXPIRE),
];

/// Whether an entry that is read is written as it was, and each front of it is a broken one.
fn is_written_so(alloc: Global, bytes: &[u8]) -> Result<bool, ReadFault> {
    let written = again(alloc, bytes)?;
    Ok(written.as_slice() == bytes && are_fronts_broken(alloc, bytes))
}

#[test]
fn worked_entries_are_written_byte_by_byte(rt: HostRuntime) -> Result<(), Fail> {
    for row in &ENTRIES {
        let is_so = is_written_so(rt.alloc(), row.1)?;
        assert!(rt; is_so, "{}", row.0);
    }
    Ok(())
}

/// A row: a sentence, an entry, the place of a byte, what it becomes, and the place at which the entry is broken then.
type BreakRow = (&'static str, &'static [u8], usize, u8, usize);

/// Whether a row's entry is broken at its place.
fn breaks_at(alloc: Global, row: &BreakRow) -> Result<bool, AllocError> {
    let mut broken = Vec::from_slice(alloc, row.1)?;
    if let Some(slot) = broken.get_mut(row.2) {
        *slot = row.3;
    }
    Ok(place(alloc, &broken) == Some(row.4))
}

const BROKEN: [BreakRow; 37] = [
    // The head of a job.
    ("a command byte past the last", SUBMIT, 1, 0x0c, 1),
    ("a moment with a needless byte", SUBMIT, 6, 0x00, 2),
    ("a kind past the last", SUBMIT, 7, 0x03, 7),
    ("a strategy past the last", SUBMIT, 8, 0x02, 8),
    ("an id behind the flag 02", SUBMIT, 9, 0x02, 9),
    // Its numbers.
    ("a priority past its range", SUBMIT, 26, 0x06, 26),
    ("a retry past its range", SUBMIT, 27, 0x0b, 27),
    ("a delay with a needless byte", SUBMIT, 29, 0x00, 28),
    ("a flag 02", SUBMIT, 30, 0x02, 30),
    ("no file", SUBMIT, 31, 0x00, 31),
    // The places of a file.
    ("a first file with index 1", SUBMIT, 32, 0x01, 7),
    ("a name that is no UTF-8", SUBMIT, 34, 0xff, 33),
    ("a name in capitals", SUBMIT, 34, 0x41, 33),
    ("a path that is a slash", SUBMIT, 40, 0x2f, 39),
    ("a file copied onto itself", SUBMIT, 48, 0x73, 7),
    // Its end.
    ("a size with a needless byte", SUBMIT, 50, 0x00, 49),
    ("a digest behind the flag 02", SUBMIT, 51, 0x02, 51),
    ("an activity past the end", SUBMIT, 68, 0x08, 68),
    ("a byte behind the last field", SUBMIT, 68, 0x06, 75),
    // The head of settings.
    ("an empty VO", RESTART, 7, 0x00, 7),
    ("17 workers", RESTART, 12, 0x11, 12),
    ("no default limit", RESTART, 13, 0x00, 13),
    ("no endpoint", RESTART, 14, 0x00, 14),
    ("no inbound limit", RESTART, 21, 0x00, 21),
    ("an empty label", RESTART, 24, 0x00, 24),
    // Their links and activities.
    ("a link from an unknown endpoint", RESTART, 31, 0x62, 7),
    ("a link without a limit", RESTART, 38, 0x00, 38),
    ("65 activities", RESTART, 39, 0x41, 39),
    ("no default activity", RESTART, 41, 0x44, 7),
    ("no weight", RESTART, 48, 0x00, 48),
    // An outcome.
    ("an outcome past the last", REPORT, 9, 0x08, 9),
    // Bans and hours.
    ("a name past the end", BAN, 7, 0x13, 7),
    ("a ban of a name in capitals", BAN, 8, 0x48, 7),
    ("a ban with a flag 02", BAN, 25, 0x02, 25),
    ("an empty name", UNBAN, 7, 0x00, 7),
    ("a byte behind the name", UNBAN, 7, 0x10, 24),
    ("no hours", LIMITED_SUBMIT, 7, 0x00, 7),
];

#[test]
fn a_broken_field_is_named_by_its_place(rt: HostRuntime) -> Result<(), Fail> {
    for row in &BROKEN {
        let is_broken = breaks_at(rt.alloc(), row)?;
        assert!(rt; is_broken, "{}", row.0);
    }
    Ok(())
}

/// A row: a sentence, bytes, and the place at which they are no entry.
type PlaceRow = (&'static str, &'static [u8], usize);

/// Each row's bytes are no entry at their place.
fn are_no_entries(rt: &impl Abort, alloc: Global, rows: &[PlaceRow]) {
    for row in rows {
        assert!(rt; place(alloc, row.1) == Some(row.2), "{}", row.0);
    }
}

const LENGTHS: [PlaceRow; 4] = [
    ("the empty list", b"", 0),
    (
        "a byte behind the entry",
        b"\x03\x03\x80\xe2\xcf\xaa\x06\x01\x00",
        8,
    ),
    ("half a word", b"\x00\x06\x00\x45\x00\x00\x00", 3),
    ("half a digest", b"\x00\x07\x00\x01\x01\x04\x90\x01", 6),
];

#[test]
fn too_few_or_many_bytes_are_no_entry(rt: HostRuntime) {
    are_no_entries(&rt, rt.alloc(), &LENGTHS);
}

const NUMBERS: [PlaceRow; 3] = [
    (
        "a moment that ends in 00",
        b"\x03\x03\x80\xe2\xcf\xaa\x86\x00\x01",
        2,
    ),
    (
        "a writer of 33 bits",
        b"\x80\x80\x80\x80\x10\x03\x00\x01",
        0,
    ),
    (
        "a moment of 65 bits",
        b"\x00\x03\x80\x80\x80\x80\x80\x80\x80\x80\x80\x02\x01",
        2,
    ),
];

#[test]
fn other_numbers_are_no_entry(rt: HostRuntime) {
    are_no_entries(&rt, rt.alloc(), &NUMBERS);
}

/// The next number of a generator, of as many digits as it happens.
fn draw(state: &mut u64) -> u64 {
    *state = state
        .wrapping_mul(6_364_136_223_846_793_005)
        .wrapping_add(1_442_695_040_888_963_407);
    *state >> (*state % 61)
}

/// The same, of 32 bits.
fn small(state: &mut u64) -> u32 {
    (draw(state) % 4_294_967_296) as u32
}

/// Some outcome.
fn outcome(state: &mut u64) -> Outcome {
    let digest = draw(state).to_le_bytes();
    let [a, b, c, d, e, f, g, h] = digest;
    match draw(state) % 8 {
        0 => Outcome::Verified {
            size: draw(state),
            digest: [a, b, c, d, e, f, g, h, h, g, f, e, d, c, b, a],
        },
        1 => Outcome::SourceMissing,
        2 => Outcome::DestinationExists,
        3 => Outcome::SourceSize { seen: draw(state) },
        4 => Outcome::SourceDigest {
            seen: [h, g, f, e, d, c, b, a, a, b, c, d, e, f, g, h],
        },
        5 => Outcome::ReadBackDiffers { at: draw(state) },
        6 => Outcome::StoreFailed,
        _ => Outcome::Stopped,
    }
}

/// Some command, but for submissions and restarts.
fn command(state: &mut u64) -> Command
    ensures { IsTrue (has_priority result) }
{
    let now = draw(state);
    let job = small(state);
    match draw(state) % 6 {
        0 => Command::CancelJob { now, job },
        1 => Command::CancelFile {
            now,
            job,
            file: small(state),
        },
        2 => Command::SetPriority {
            now,
            job,
            priority: 3,
        },
        3 => Command::Claim {
            now,
            word: draw(state),
        },
        4 => Command::Expire { now },
        _ => Command::Report {
            now,
            file: job,
            attempt: small(state),
            outcome: outcome(state),
        },
    }
}

/// Whether what is written of an entry is read and written again the same.
fn comes_back(alloc: Global, entry: &Entry) -> Result<bool, Fail>
    requires { IsTrue (has_priority entry.now.command) }
{
    let mut out = Vec::new(alloc);
    write_entry(entry, &mut out)?;
    Ok(again(alloc, &out)?.as_slice() == out.as_slice())
}

/// The same of the next entry of the generator.
fn next_comes_back(alloc: Global, state: &mut u64) -> Result<bool, Fail> {
    let entry = Entry {
        writer: small(state),
        command: command(state),
    };
    comes_back(alloc, &entry)
}

#[test]
fn generated_entries_come_back(rt: HostRuntime) -> Result<(), Fail> {
    let mut state = 2026;
    for number in 0..300 {
        let is_back = next_comes_back(rt.alloc(), &mut state)?;
        assert!(rt; is_back, "entry {number}");
    }
    Ok(())
}
