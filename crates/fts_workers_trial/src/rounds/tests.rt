//! The rows. A row is a sentence, settings, a job document, the numbers of the store's failing calls and of its appends that lose a byte, and a
//! script: a line is a command or a question, ` = `, and its answer, as written by hand.
ghost use Rattle.std.specs.Prelude.{◌≡◌, IfOk, OnOk};
ghost use Rattle.fts_workers_trial.specs.Ready.{IsReady};

use super::bed::Bed;
use fts_routes::{file_state_text, job_state_text};
use fts_store::{MemoryStore, Store, StoredFile};
use fts_tables::{
    Command, EndpointName, FileRow, Items, JobState, Memory, Outcome, PathKey, Place, PlaceRef,
    Reason,
};
use fts_workers::RoundEnd;
use std::alloc::{AllocError, Global};
use std::process::Abort;
use std::test::Fail;

/// The digest of the three bytes `abc`, from RFC 1321.
const ABC: [u8; 16] = [
    0x90, 0x01, 0x50, 0x98, 0x3c, 0xd2, 0x4f, 0xb0, 0xd6, 0x96, 0x3f, 0x7d, 0x28, 0xe1, 0x7f, 0x72,
];

const TWO: &str =
    "[[storage]]\nurl = \"https://a.example\"\n[[storage]]\nurl = \"https://b.example\"\n";

const THREE: &str =
    "[[storage]]\nurl = \"https://a.example\"\n[[storage]]\nurl = \"https://b.example\"\n[[storage]]\nurl = \"https://c.example\"\ninbound_max_active = 1\n";

const FIVE: &str =
    "{\"files\":[{\"sources\":[\"https://a.example/f1\"],\"destinations\":[\"https://b.example/f1\"]},\
     {\"sources\":[\"https://a.example/f2\"],\"destinations\":[\"https://b.example/f2\"]},\
     {\"sources\":[\"https://a.example/f3\"],\"destinations\":[\"https://b.example/f3\"]},\
     {\"sources\":[\"https://a.example/f4\"],\"destinations\":[\"https://b.example/f4\"]},\
     {\"sources\":[\"https://a.example/f5\"],\"destinations\":[\"https://b.example/f5\"]}]}";

const THREE_FILES: &str =
    "{\"files\":[{\"sources\":[\"https://a.example/f1\"],\"destinations\":[\"https://b.example/f1\"]},\
     {\"sources\":[\"https://a.example/f2\"],\"destinations\":[\"https://b.example/f2\"]},\
     {\"sources\":[\"https://a.example/f3\"],\"destinations\":[\"https://b.example/f3\"]}]}";

const INTO_THIRD: &str =
    "{\"files\":[{\"sources\":[\"https://b.example/there\"],\"destinations\":[\"https://c.example/f1\"]},{\"sources\":[\"https://a.example/f2\"],\"destinations\":[\"https://c.example/f2\"]}]}";

const SOURCES: &str =
    "{\"files\":[{\"sources\":[\"https://a.example/none\",\"https://a.example/f1\",\"https://a.example/f2\"],\"destinations\":[\"https://b.example/f1\"],\"selection_strategy\":\"orderly\"}]}";

const HOPS: &str =
    "{\"files\":[{\"sources\":[\"https://a.example/f1\"],\"destinations\":[\"https://b.example/f1\"]},\
     {\"sources\":[\"https://b.example/f1\"],\"destinations\":[\"https://b.example/there\"]},\
     {\"sources\":[\"https://b.example/there\"],\"destinations\":[\"https://a.example/g1\"]}],\"params\":{\"multihop\":true}}";

const EMPTY: &str =
    "{\"files\":[{\"sources\":[\"https://a.example/empty\"],\"destinations\":[\"https://b.example/f1\"],\"checksum\":\"MD5:d41d8cd98f00b204e9800998ecf8427e\"}],\"params\":{\"verify_checksum\":true}}";

const WRONG: &str =
    "{\"files\":[{\"sources\":[\"https://a.example/f1\"],\"destinations\":[\"https://b.example/f1\"],\
     \"checksum\":\"MD5:900150983cd24fb0d6963f7d28e17f73\"}],\"params\":{\"verify_checksum\":true,\"retry\":3}}";

const RETRIED: &str =
    "{\"files\":[{\"sources\":[\"https://a.example/f1\"],\"destinations\":[\"https://b.example/f1\"]}],\"params\":{\"retry\":1,\"retry_delay\":60}}";

const ONE: &str =
    "{\"files\":[{\"sources\":[\"https://a.example/f1\"],\"destinations\":[\"https://b.example/f1\"]}]}";

const HOUR: &str =
    "{\"files\":[{\"sources\":[\"https://a.example/f1\"],\"destinations\":[\"https://b.example/f1\"]}],\"params\":{\"max_time_in_queue\":1}}";

const SOURCES_FOR_AN_HOUR: &str =
    "{\"files\":[{\"sources\":[\"https://a.example/f1\",\"https://a.example/f2\",\"https://a.example/f3\"],\"destinations\":[\"https://b.example/f1\"]}],\"params\":{\"max_time_in_queue\":1}}";

const RETRIED_FOR_AN_HOUR: &str =
    "{\"files\":[{\"sources\":[\"https://a.example/f1\"],\"destinations\":[\"https://b.example/f1\"]}],\"params\":{\"retry\":1,\"retry_delay\":3600,\"max_time_in_queue\":1}}";

/// What a row begins with.
#[derive(Clone, Copy)]
struct Start {
    settings: &'static str,
    limit: &'static str,
    submitted: u64,
    fail: &'static [u32],
    drop: &'static [u32],
}

/// Two storages, two files at once over a link, a job of the first moment, and a store that does its part.
const AT_ONCE: Start = Start {
    settings: TWO,
    limit: "2",
    submitted: 0,
    fail: &[],
    drop: &[],
};

/// The same with a job of a later moment.
const LATER: Start = Start {
    submitted: 1000,
    ..AT_ONCE
};

/// What a row has.
struct Row {
    case: &'static str,
    start: Start,
    document: &'static str,
    script: &'static str,
}

const ROWS: [Row; 18] = [
    Row {
        case: "a link carries as many files as its limit",
        start: AT_ONCE,
        document: FIVE,
        script: "round 0 = busy 2\nstates = ACTIVE ACTIVE SUBMITTED SUBMITTED SUBMITTED ACTIVE\nround 0 = busy 2\nstates = FINISHED FINISHED ACTIVE ACTIVE SUBMITTED ACTIVE",
    },
    Row {
        case: "an endpoint takes as many files as its limit, and of links with none the one of the least name is first",
        start: Start {
            settings: THREE,
            ..AT_ONCE
        },
        document: INTO_THIRD,
        script: "round 0 = busy 1\nstates = SUBMITTED ACTIVE ACTIVE",
    },
    Row {
        case: "behind a missing source the next one is copied",
        start: AT_ONCE,
        document: SOURCES,
        script: "round 0 = busy 1\nround 0 = busy 1\nreason 1 = source missing\nround 0 = clear\nstates = FAILED FINISHED NOT_USED FINISHED",
    },
    Row {
        case: "behind a failed hop nothing is copied",
        start: AT_ONCE,
        document: HOPS,
        script: "round 0 = busy 1\nround 0 = busy 1\nround 0 = clear\nstates = FINISHED FAILED NOT_USED FAILED\nreason 2 = destination exists",
    },
    Row {
        case: "a cancelled file keeps its slot until its report, though its copy was verified",
        start: Start {
            limit: "1",
            ..AT_ONCE
        },
        document: THREE_FILES,
        script: "round 0 = busy 1\ncancel = ok\nstates = ACTIVE CANCELED CANCELED ACTIVE\nround 0 = clear\nstates = CANCELED CANCELED CANCELED CANCELED\nsize f1 = 3",
    },
    Row {
        case: "an empty file is copied",
        start: AT_ONCE,
        document: EMPTY,
        script: "round 0 = busy 1\nround 0 = clear\nstates = FINISHED FINISHED\nsize f1 = 0",
    },
    Row {
        case: "another digest than the wanted one fails at once",
        start: AT_ONCE,
        document: WRONG,
        script: "round 0 = busy 1\nround 0 = clear\nstates = FAILED FAILED\nreason 1 = source digest of abc\nwaits 1 = attempt 1 not before 0\nsize f1 = none\nsize .fts/part-1 = none",
    },
    Row {
        case: "a retry waits until its moment",
        start: Start {
            fail: &[1],
            ..AT_ONCE
        },
        document: RETRIED,
        script: "round 1000 = busy 1\nround 1000 = clear\nstates = SUBMITTED SUBMITTED\nwaits 1 = attempt 1 not before 1060\n\
                 reason 1 = store failed\nround 1059 = clear\nround 1060 = busy 1\nround 1060 = clear\nstates = FINISHED FINISHED\n\
                 waits 1 = attempt 2 not before 1060",
    },
    Row {
        case: "a byte that the store lost is found where it is missing",
        start: Start {
            drop: &[1],
            ..AT_ONCE
        },
        document: ONE,
        script: "round 0 = busy 1\nround 0 = clear\nstates = FAILED FAILED\nreason 1 = read back differs at 2\nsize f1 = none\nsize .fts/part-1 = none",
    },
    Row {
        case: "a part whose removal fails stays, and its file ends as its copy did",
        start: Start {
            fail: &[6],
            ..AT_ONCE
        },
        document: WRONG,
        script: "round 0 = busy 1\nround 0 = clear\nstates = FAILED FAILED\nreason 1 = source digest of abc\nsize f1 = none\nsize .fts/part-1 = 3",
    },
    Row {
        case: "a file that waits at a banned storage is cancelled once its hour is over, and no second before",
        start: LATER,
        document: HOUR,
        script: "ban wait = ok\nround 4599 = clear\nstates = SUBMITTED SUBMITTED\nreason 1 = none\nround 4600 = clear\nstates = CANCELED CANCELED\nreason 1 = expired",
    },
    Row {
        case: "with a replica job's file all its sources are cancelled",
        start: LATER,
        document: SOURCES_FOR_AN_HOUR,
        script: "ban wait = ok\nround 4599 = clear\nstates = SUBMITTED NOT_USED NOT_USED SUBMITTED\nround 4600 = clear\n\
                 states = CANCELED CANCELED CANCELED CANCELED\nreason 1 = expired\nreason 2 = expired\nreason 3 = expired",
    },
    Row {
        case: "a file whose hour is over is cancelled before it could be claimed",
        start: LATER,
        document: HOUR,
        script: "round 4600 = clear\nstates = CANCELED CANCELED\nwaits 1 = attempt 0 not before 0\nsize f1 = none",
    },
    Row {
        case: "a file that is copied when its hour is over goes on",
        start: LATER,
        document: HOUR,
        script: "round 1000 = busy 1\nround 4600 = clear\nstates = FINISHED FINISHED\nsize f1 = 3",
    },
    Row {
        case: "a file that came back by a retry waits no longer than its hour",
        start: Start {
            fail: &[1],
            ..LATER
        },
        document: RETRIED_FOR_AN_HOUR,
        script: "round 2000 = busy 1\nround 2000 = clear\nstates = SUBMITTED SUBMITTED\nwaits 1 = attempt 1 not before 5600\nround 4599 = clear\n\
                 states = SUBMITTED SUBMITTED\nround 4600 = clear\nstates = CANCELED CANCELED\nreason 1 = expired",
    },
    Row {
        case: "a file without a limit waits at a banned storage, and is copied behind the ban",
        start: LATER,
        document: ONE,
        script: "ban wait = ok\nround 1000000000 = clear\nstates = SUBMITTED SUBMITTED\nunban = ok\nround 1000000000 = busy 1\nround 1000000000 = clear\nstates = FINISHED FINISHED",
    },
    Row {
        case: "a ban that cancels takes the files that wait",
        start: AT_ONCE,
        document: ONE,
        script: "ban wait = ok\nban cancel = ok\nstates = CANCELED CANCELED\nreason 1 = cancelled\nround 0 = clear",
    },
    Row {
        case: "a ban that cancels leaves a file that is copied",
        start: AT_ONCE,
        document: ONE,
        script: "round 0 = busy 1\nban cancel = ok\nstates = ACTIVE ACTIVE\nround 0 = clear\nstates = FINISHED FINISHED\nsize f1 = 3",
    },
];

/// A file that the store holds from the start.
fn file(
    alloc: Global,
    endpoint: &str,
    path: &str,
    bytes: &[u8],
) -> Result<Option<StoredFile>, Memory> {
    let Some(endpoint) = EndpointName::read(alloc, endpoint)? else {
        return Ok(None);
    };
    let Some(path) = PathKey::read(alloc, path)? else {
        return Ok(None);
    };
    Ok(Some(StoredFile {
        place: Place { endpoint, path },
        bytes: Items::from_vec(bytes.to_vec(alloc)?),
    }))
}

/// A store with seven files.
fn store(alloc: Global, fail: &[u32], drop: &[u32]) -> Result<MemoryStore, Memory> {
    let mut files = Vec::new(alloc);
    for (endpoint, path, bytes) in [
        ("https://a.example", "f1", b"abc".as_slice()),
        ("https://a.example", "f2", b"abc"),
        ("https://a.example", "f3", b"abc"),
        ("https://a.example", "f4", b"abc"),
        ("https://a.example", "f5", b"abc"),
        ("https://a.example", "empty", b""),
        ("https://b.example", "there", b"abc"),
    ] {
        let Some(file) = file(alloc, endpoint, path, bytes)? else {
            return Err(Memory);
        };
        if files.push(file).is_err() {
            return Err(Memory);
        }
    }
    let fail = fail.to_vec(alloc)?;
    let drop = drop.to_vec(alloc)?;
    Ok(MemoryStore::new(alloc, Items::from_vec(files), fail, drop))
}

fn end_text(alloc: Global, end: RoundEnd) -> Result<String, AllocError> {
    match end {
        RoundEnd::Clear => String::from_str(alloc, "clear"),
        RoundEnd::Busy { held } => format!(in alloc; "busy {held}"),
        RoundEnd::DiskFailed => String::from_str(alloc, "disk failed"),
        RoundEnd::JournalFull { used } => format!(in alloc; "journal full at {used}"),
        RoundEnd::Memory => String::from_str(alloc, "no memory"),
    }
}

/// The word of the state of a job, and of one that there is not.
fn state_of_job(state: Option<JobState>) -> &'static str {
    match state {
        None => "none",
        Some(state) => job_state_text(state),
    }
}

fn outcome_text(alloc: Global, outcome: Outcome) -> Result<String, AllocError> {
    match outcome {
        Outcome::Verified { size, digest: _ } => format!(in alloc; "verified {size}"),
        Outcome::SourceMissing => String::from_str(alloc, "source missing"),
        Outcome::DestinationExists => String::from_str(alloc, "destination exists"),
        Outcome::SourceSize { seen } => format!(in alloc; "source size {seen}"),
        Outcome::SourceDigest { seen } => {
            if seen == ABC {
                String::from_str(alloc, "source digest of abc")
            } else {
                String::from_str(alloc, "another source digest")
            }
        }
        Outcome::ReadBackDiffers { at } => format!(in alloc; "read back differs at {at}"),
        Outcome::StoreFailed => String::from_str(alloc, "store failed"),
        Outcome::Stopped => String::from_str(alloc, "stopped"),
    }
}

/// The states of the rows, and of their job.
fn states(bed: &Bed) -> Result<String, AllocError> {
    let mut text = String::new(bed.alloc);
    for row in bed.keep.desk().rows() {
        text.push_str(file_state_text(row.state))?;
        text.push_str(" ")?;
    }
    text.push_str(state_of_job(bed.keep.desk().state(1)))?;
    Ok(text)
}

/// The row of an id.
fn row_of(bed: &Bed, id: u64) -> Option<&FileRow> {
    bed.keep
        .desk()
        .rows()
        .iter()
        .find(|row| u64::from(row.id) == id)
}

/// Why the row of an id is as it is.
fn reason(bed: &Bed, id: u64) -> Result<String, AllocError> {
    match row_of(bed, id) {
        None => String::from_str(bed.alloc, "no row"),
        Some(row) => match row.reason {
            Reason::None => String::from_str(bed.alloc, "none"),
            Reason::Cancelled => String::from_str(bed.alloc, "cancelled"),
            Reason::Expired => String::from_str(bed.alloc, "expired"),
            Reason::Ended(outcome) => outcome_text(bed.alloc, outcome),
        },
    }
}

/// At which attempt the row of an id is, and until when it waits.
fn waits(bed: &Bed, id: u64) -> Result<String, AllocError> {
    match row_of(bed, id) {
        None => String::from_str(bed.alloc, "no row"),
        Some(row) => {
            format!(in bed.alloc; "attempt {} not before {}", row.attempt, row.not_before)
        }
    }
}

/// The size of a file of the second endpoint.
fn size(bed: &mut Bed, path: &str) -> Result<String, AllocError>
    ensures keep { bed.new.keep ≡ bed.old.keep }
    ensures bench { bed.new.bench ≡ bed.old.bench }
{
    let at = PlaceRef {
        endpoint: "https://b.example",
        path,
    };
    match bed.store.size(at) {
        Ok(Some(size)) => format!(in bed.alloc; "{size}"),
        Ok(None) => String::from_str(bed.alloc, "none"),
        Err(_) => String::from_str(bed.alloc, "failed"),
    }
}

/// The name of the second endpoint.
fn second_endpoint(alloc: Global) -> Result<EndpointName, Memory> {
    match EndpointName::read(alloc, "https://b.example")? {
        Some(name) => Ok(name),
        None => Err(Memory),
    }
}

/// What is answered a line: its first word says what is asked, and the second for what.
fn told(bed: &mut Bed, asked: &str, of: &str) -> Result<String, Memory>
    requires { IsReady bed.old.keep bed.old.bench }
    ensures { OnOk result (IsReady bed.new.keep bed.new.bench) }
{
    let number = of.parse::<u64>().unwrap_or(0);
    match asked {
        "round" => {
            let end = bed.round(number)?;
            Ok(end_text(bed.alloc, end)?)
        }
        "cancel" => {
            bed.request(Command::CancelJob { now: 0, job: 1 })?;
            Ok(String::from_str(bed.alloc, "ok")?)
        }
        "ban" => {
            let storage = second_endpoint(bed.alloc)?;
            let cancel = of == "cancel";
            bed.request(Command::Ban {
                now: 0,
                storage,
                cancel,
            })?;
            Ok(String::from_str(bed.alloc, "ok")?)
        }
        "unban" => {
            let storage = second_endpoint(bed.alloc)?;
            bed.request(Command::Unban { now: 0, storage })?;
            Ok(String::from_str(bed.alloc, "ok")?)
        }
        "reason" => Ok(reason(bed, number)?),
        "waits" => Ok(waits(bed, number)?),
        "size" => Ok(size(bed, of)?),
        _ => Ok(states(bed)?),
    }
}

/// The settings of a row.
fn settings(alloc: Global, row: &Row) -> Result<String, AllocError> {
    let limit = row.start.limit;
    let storages = row.start.settings;
    format!(in alloc; "vo = \"demo\"\nworkers = 4\ndefault_max_active = {limit}\n{storages}")
}

/// A bed with the settings and the job of a row.
fn bed(alloc: Global, row: &Row) -> Result<Bed, Memory>
    ensures { IfOk result (λ bed. IsReady bed.keep bed.bench) }
{
    let settings = settings(alloc, row)?;
    let store = store(alloc, row.start.fail, row.start.drop)?;
    let mut bed = Bed::new(alloc, settings.as_str(), 4, store)?;
    bed.submit(row.start.submitted, row.document)?;
    Ok(bed)
}

/// Asks what a line asks, and compares.
fn ask(rt: &impl Abort, bed: &mut Bed, case: &str, line: &str) -> Result<(), Memory>
    requires { IsReady bed.old.keep bed.old.bench }
    ensures { OnOk result (IsReady bed.new.keep bed.new.bench) }
{
    let Some((said, want)) = line.split_once(" = ") else {
        return Err(Memory);
    };
    let (asked, of) = said.split_once(' ').unwrap_or((said, ""));
    let answer = told(bed, asked, of)?;
    assert!(rt; answer.as_str() == want, "{case}: {line}: {answer}");
    Ok(())
}

/// Plays the script of a row.
fn play(rt: &impl Abort, bed: &mut Bed, row: &Row) -> Result<(), Memory>
    requires { IsReady bed.old.keep bed.old.bench }
{
    for line in row.script.lines() {
        ask(rt, bed, row.case, line)?;
    }
    Ok(())
}

#[test]
fn rounds_do_what_an_operator_expects(rt: HostRuntime) -> Result<(), Fail> {
    let alloc = rt.alloc();
    for row in &ROWS {
        let mut bed = bed(alloc, row)?;
        play(&rt, &mut bed, row)?;
    }
    Ok(())
}
