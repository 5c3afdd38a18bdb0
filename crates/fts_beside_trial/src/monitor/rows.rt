//! The rows. A row is a sentence, a file and what it is later, two requests, each on a line of its own, and what each is answered.
//! Opening a journal with one entry takes five reads, and a look that finds nothing new takes one.
use super::disk::Changing;
use super::texts::{
    AFTER_THE_CLAIM, AFTER_THE_REPORT, AFTER_THE_START, BAD_QUERY, BEFORE_DAMAGE, CLAIMED, DAMAGED,
    DISK_FAILED, EMPTY, EXPIRED, EXPIRED_JOBS, FAILED, FAILED_JOB, FAILED_JOBS, FOREIGN_ORIGIN,
    HISTORY, JOB, JOBS, NO_JOB, NO_JOBS, NO_METHOD, NO_METHOD_TO_HEAD, NO_ROUTE, NOTHING, OTHER,
    REPORTED, SNAPSHOT, STARTED, WAITING_JOB,
};
use fts_panel::{View, open_view, serve_line};
use fts_tables::{Clock, ListClock};
use fts_wire::{MemoryLine, MemorySink, MemorySource, Room};
use std::alloc::Global;

/// What a row has.
struct Row {
    case: &'static str,
    bytes: &'static [u8],
    later: &'static [u8],
    from: u64,
    fail: u64,
    asks: &'static str,
    want: &'static str,
    asks_then: &'static str,
    want_then: &'static str,
}

/// When the journal of a row is opened, in seconds since 1970.
const OPENED: u64 = 1_700_000_010;

const METRICS: &str = "GET /metrics HTTP/1.1\r\nHost: m\r\n\r\n";

/// What the metrics tell.
const METRICS_ROWS: [Row; 5] = [
    Row {
        case: "nothing at all",
        bytes: EMPTY,
        later: EMPTY,
        from: 0,
        fail: 0,
        asks: METRICS,
        want: NOTHING,
        asks_then: METRICS,
        want_then: NOTHING,
    },
    Row {
        case: "a journal that grows between two looks, and names that hold a quote and a backslash",
        bytes: STARTED,
        later: CLAIMED,
        from: 7,
        fail: 0,
        asks: METRICS,
        want: AFTER_THE_START,
        asks_then: METRICS,
        want_then: AFTER_THE_CLAIM,
    },
    Row {
        case: "a copy that was reported",
        bytes: REPORTED,
        later: REPORTED,
        from: 0,
        fail: 0,
        asks: METRICS,
        want: AFTER_THE_REPORT,
        asks_then: METRICS,
        want_then: AFTER_THE_REPORT,
    },
    Row {
        case: "what stands before damage stays on view",
        bytes: DAMAGED,
        later: DAMAGED,
        from: 0,
        fail: 0,
        asks: METRICS,
        want: BEFORE_DAMAGE,
        asks_then: METRICS,
        want_then: BEFORE_DAMAGE,
    },
    Row {
        case: "an entry that was taken back: the journal is opened anew",
        bytes: OTHER,
        later: STARTED,
        from: 7,
        fail: 0,
        asks: METRICS,
        want: AFTER_THE_START,
        asks_then: METRICS,
        want_then: AFTER_THE_START,
    },
];

/// What is not told, and requests that are none.
const OTHER_ROWS: [Row; 5] = [
    Row {
        case: "a look that fails once",
        bytes: STARTED,
        later: STARTED,
        from: 0,
        fail: 6,
        asks: METRICS,
        want: DISK_FAILED,
        asks_then: METRICS,
        want_then: AFTER_THE_START,
    },
    Row {
        case: "a path that there isn't, and a method that the metrics haven't",
        bytes: STARTED,
        later: STARTED,
        from: 0,
        fail: 0,
        asks: "GET /nothing HTTP/1.1\r\n\r\n",
        want: NO_ROUTE,
        asks_then: "POST /metrics HTTP/1.1\r\nContent-Length: 2\r\n\r\n{}",
        want_then: NO_METHOD,
    },
    Row {
        case: "a head alone, and a path that goes on",
        bytes: STARTED,
        later: STARTED,
        from: 0,
        fail: 0,
        asks: "HEAD /metrics HTTP/1.1\r\n\r\n",
        want: NO_METHOD_TO_HEAD,
        asks_then: "GET /metrics/ HTTP/1.1\r\n\r\n",
        want_then: NO_ROUTE,
    },
    Row {
        case: "a query is passed over, and a page is refused",
        bytes: STARTED,
        later: STARTED,
        from: 0,
        fail: 0,
        asks: "GET /metrics?name=x HTTP/1.0\r\n\r\n",
        want: AFTER_THE_START,
        asks_then: "GET /metrics HTTP/1.1\r\nOrigin: https://a.example\r\n\r\n",
        want_then: FOREIGN_ORIGIN,
    },
    Row {
        case: "no request, and a part of one",
        bytes: STARTED,
        later: STARTED,
        from: 0,
        fail: 0,
        asks: "",
        want: "",
        asks_then: "GET /metrics HTTP/1.1\r\n",
        want_then: "",
    },
];

/// What is told as JSON.
const JSON_ROWS: [Row; 5] = [
    Row {
        case: "a snapshot, and the last two minutes",
        bytes: REPORTED,
        later: REPORTED,
        from: 0,
        fail: 0,
        asks: "GET /snapshot HTTP/1.1\r\n\r\n",
        want: SNAPSHOT,
        asks_then: "GET /history?step=60&count=2 HTTP/1.1\r\n\r\n",
        want_then: HISTORY,
    },
    Row {
        case: "jobs of a state to a storage whose name holds a backslash, and of a state that none has",
        bytes: REPORTED,
        later: REPORTED,
        from: 0,
        fail: 0,
        asks: "GET /jobs?state=FINISHED&destination=b%3A%2F%2Fb%5Cc&newest=true&after= HTTP/1.1\r\n\r\n",
        want: JOBS,
        asks_then: "GET /jobs?state=FAILED HTTP/1.1\r\n\r\n",
        want_then: NO_JOBS,
    },
    Row {
        case: "a job, and an id that no job has",
        bytes: REPORTED,
        later: REPORTED,
        from: 0,
        fail: 0,
        asks: "GET /jobs/00000000-0000-4000-8000-000000000001 HTTP/1.1\r\n\r\n",
        want: JOB,
        asks_then: "GET /jobs/00000000-0000-4000-8000-000000000002 HTTP/1.1\r\n\r\n",
        want_then: NO_JOB,
    },
    Row {
        case: "steps of no length, and too many",
        bytes: REPORTED,
        later: REPORTED,
        from: 0,
        fail: 0,
        asks: "GET /history?step=61 HTTP/1.1\r\n\r\n",
        want: BAD_QUERY,
        asks_then: "GET /history?count=241 HTTP/1.1\r\n\r\n",
        want_then: BAD_QUERY,
    },
    Row {
        case: "behind the last job, and behind one that there is not",
        bytes: REPORTED,
        later: REPORTED,
        from: 0,
        fail: 0,
        asks: "GET /jobs?after=00000000-0000-4000-8000-000000000001 HTTP/1.1\r\n\r\n",
        want: NO_JOBS,
        asks_then: "GET /jobs?after=x HTTP/1.1\r\n\r\n",
        want_then: BAD_QUERY,
    },
];

/// What is told of a file's reason, and of what happened to it.
const REASON_ROWS: [Row; 5] = [
    Row {
        case: "jobs by a reason whose blank is spelled in either way",
        bytes: FAILED,
        later: FAILED,
        from: 0,
        fail: 0,
        asks: "GET /jobs?reason=store%20failed HTTP/1.1\r\n\r\n",
        want: FAILED_JOBS,
        asks_then: "GET /jobs?reason=store+failed&limit=1 HTTP/1.1\r\n\r\n",
        want_then: FAILED_JOBS,
    },
    Row {
        case: "one file is on the way, and another has the reason",
        bytes: FAILED,
        later: FAILED,
        from: 0,
        fail: 0,
        asks: "GET /jobs?reason=cancelled&source=a%3A%2F%2Fa%22q HTTP/1.1\r\n\r\n",
        want: FAILED_JOBS,
        asks_then: "GET /jobs?reason=cancelled&source=b%3A%2F%2Fb%5Cc HTTP/1.1\r\n\r\n",
        want_then: NO_JOBS,
    },
    Row {
        case: "a reason that no file has, and a word that is none",
        bytes: FAILED,
        later: FAILED,
        from: 0,
        fail: 0,
        asks: "GET /jobs?reason=source%20missing HTTP/1.1\r\n\r\n",
        want: NO_JOBS,
        asks_then: "GET /jobs?reason=store HTTP/1.1\r\n\r\n",
        want_then: BAD_QUERY,
    },
    Row {
        case: "what happened to files, and a reason in a state that no job has",
        bytes: FAILED,
        later: FAILED,
        from: 0,
        fail: 0,
        asks: "GET /jobs/00000000-0000-4000-8000-000000000001 HTTP/1.1\r\n\r\n",
        want: FAILED_JOB,
        asks_then: "GET /jobs?state=FINISHED&reason=store%20failed HTTP/1.1\r\n\r\n",
        want_then: NO_JOBS,
    },
    Row {
        case: "a job that an expiry settled, and one that waits",
        bytes: EXPIRED,
        later: EXPIRED,
        from: 0,
        fail: 0,
        asks: "GET /jobs HTTP/1.1\r\n\r\n",
        want: EXPIRED_JOBS,
        asks_then: "GET /jobs?state=SUBMITTED HTTP/1.1\r\n\r\n",
        want_then: WAITING_JOB,
    },
];

#[test]
fn metrics_tell_what_stands_in_a_journal(rt: HostRuntime) {
    for row in &METRICS_ROWS {
        assert!(rt; is_answered(rt.alloc(), row), "{}", row.case);
    }
}

#[test]
fn what_there_is_not_is_refused(rt: HostRuntime) {
    for row in &OTHER_ROWS {
        assert!(rt; is_answered(rt.alloc(), row), "{}", row.case);
    }
}

#[test]
fn json_tells_what_stands_in_a_journal(rt: HostRuntime) {
    for row in &JSON_ROWS {
        assert!(rt; is_answered(rt.alloc(), row), "{}", row.case);
    }
}

#[test]
fn reasons_and_events_of_files_are_told(rt: HostRuntime) {
    for row in &REASON_ROWS {
        assert!(rt; is_answered(rt.alloc(), row), "{}", row.case);
    }
}

/// Whether a row's requests are answered as it wants.
fn is_answered(alloc: Global, row: &Row) -> bool {
    let disk = Changing {
        bytes: row.bytes,
        later: row.later,
        from: row.from,
        fail: row.fail,
        reads: 0,
        faults: 0,
    };
    let Some(mut clock) = clock(alloc) else {
        return false;
    };
    let view = open_view(alloc, disk, clock.now());
    let (view, first) = exchange(alloc, view, &mut clock, row.asks, row.want);
    let (_view, second) = exchange(alloc, view, &mut clock, row.asks_then, row.want_then);
    first && second
}

/// Whether a request on a line of its own is answered so; and the view behind it.
fn exchange(
    alloc: Global,
    view: View<Changing>,
    clock: &mut ListClock,
    asks: &str,
    want: &str,
) -> (View<Changing>, bool) {
    match (line(alloc, asks), Room::new(alloc)) {
        (Some(mut line), Ok(mut room)) => {
            let view = serve_line(alloc, view, clock, &mut line, &mut room);
            (view, line.bytes() == want.as_bytes())
        }
        (None, _) | (_, Err(_)) => (view, false),
    }
}

/// A line on which this comes.
fn line(alloc: Global, asks: &str) -> Option<MemoryLine> {
    let bytes = asks.as_bytes().to_vec(alloc).ok()?;
    let source = MemorySource::new(bytes, Vec::new(alloc));
    Some(MemoryLine::new(source, MemorySink::new(alloc, Vec::new(alloc))))
}

/// The clock of a row: a minute goes by from each moment to the next.
fn clock(alloc: Global) -> Option<ListClock> {
    let moments = [OPENED, OPENED + 60, OPENED + 120].to_vec(alloc).ok()?;
    Some(ListClock::new(moments))
}
