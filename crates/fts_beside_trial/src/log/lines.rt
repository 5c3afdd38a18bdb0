//! The line of each event, to the byte: that it is made with ample memory, and that it says what an operator looks for.
//! Wanted lines were written by hand.
use fts_files::Kind;
use fts_log::{EndedCopy, Event, FileCall, LineFault, line_of};
use fts_tables::{Outcome, PlaceRef};
use std::alloc::Global;

/// Whether the line of an event at moment 5 is this one, behind its moment.
fn is_line(alloc: Global, event: &Event<'_>, want: &str) -> bool {
    match line_of(alloc, 5, event) {
        Ok(line) => {
            line.len() == want.len() + 26
                && line.starts_with(b"time=1970-01-01T00:00:05Z ")
                && line.ends_with(want.as_bytes())
        }
        Err(_) => false,
    }
}

/// Events, each with its line behind the moment.
const EVENT_ROWS: [(&str, Event<'static>, &str); 8] = [
    (
        "a port",
        Event::Listens {
            at: "127.0.0.1:8080",
        },
        "event=listens at=\"127.0.0.1:8080\"\n",
    ),
    (
        "a folder in the place of a source",
        Event::FoundOther {
            path: "/stand/grid/https:,,a.example/f",
            kind: Kind::Folder,
        },
        "event=found path=\"/stand/grid/https:,,a.example/f\" error=\"Is a directory\"\n",
    ),
    (
        "a pipe",
        Event::FoundOther {
            path: "/stand/p",
            kind: Kind::Other,
        },
        "event=found path=\"/stand/p\" error=\"not a plain file\"\n",
    ),
    (
        "a client that sends too slowly",
        Event::LineEnded {
            cause: LineFault::SlowToSend,
        },
        "event=line cause=slow_to_send\n",
    ),
    (
        "one that takes too slowly",
        Event::LineEnded {
            cause: LineFault::SlowToTake,
        },
        "event=line cause=slow_to_take\n",
    ),
    (
        "a stream that failed",
        Event::LineEnded {
            cause: LineFault::StreamFailed,
        },
        "event=line cause=stream_failed\n",
    ),
    (
        "the end of a run",
        Event::Ends { status: 3, lost: 0 },
        "event=ends status=3 lost=0\n",
    ),
    (
        "the largest numbers",
        Event::Ends {
            status: 255,
            lost: 18446744073709551615,
        },
        "event=ends status=255 lost=18446744073709551615\n",
    ),
];

#[test]
fn each_event_has_its_line(rt: HostRuntime) {
    for (case, event, want) in EVENT_ROWS {
        assert!(rt; is_line(rt.alloc(), &event, want), "{case}");
    }
}

/// Whether a line of a moment begins with this text of it.
fn is_at(alloc: Global, moment: u64, want: &str) -> bool {
    let event = Event::Ends { status: 0, lost: 0 };
    match line_of(alloc, moment, &event) {
        Ok(line) => line.starts_with(b"time=") && line[5..].starts_with(want.as_bytes()),
        Err(_) => false,
    }
}

// What is wanted is what GNU date writes.
#[test]
fn a_moment_is_a_date_in_utc(rt: HostRuntime) {
    for (moment, want) in [
        (0, "1970-01-01T00:00:00Z event"),
        (68169599, "1972-02-28T23:59:59Z event"),
        (68169600, "1972-02-29T00:00:00Z event"),
        (94651200, "1972-12-31T12:00:00Z event"),
        (946684799, "1999-12-31T23:59:59Z event"),
        (951804428, "2000-02-29T06:07:08Z event"),
        (978307199, "2000-12-31T23:59:59Z event"),
        (1796047360, "2026-11-30T14:02:40Z event"),
    ] {
        assert!(rt; is_at(rt.alloc(), moment, want), "{want}");
    }
}

#[test]
fn the_last_second_of_9999_stands_for_later_ones(rt: HostRuntime) {
    for (case, moment, want) in [
        ("no leap year", 4107542399, "2100-02-28T23:59:59Z event"),
        ("its next day", 4107542400, "2100-03-01T00:00:00Z event"),
        ("a leap year", 13574646000, "2400-02-29T23:00:00Z event"),
        ("the last", 253402300799, "9999-12-31T23:59:59Z event"),
        ("a later one", 253402300800, "9999-12-31T23:59:59Z event"),
        ("the latest", u64::MAX, "9999-12-31T23:59:59Z event"),
    ] {
        assert!(rt; is_at(rt.alloc(), moment, want), "{case}");
    }
}

/// A copy of file 12 that ended so.
fn copy_that(outcome: Outcome) -> Event<'static> {
    Event::CopyEnded(EndedCopy {
        job: 0x8b35c5cc_0011_2233_4455_66778899aabb,
        file: 12,
        attempt: 1,
        source: PlaceRef {
            endpoint: "https://a.example",
            path: "data/f1",
        },
        dest: PlaceRef {
            endpoint: "https://b.example",
            path: "data/\"f1\"",
        },
        millis: 34,
        outcome,
    })
}

/// Whether the line of such a copy has these bytes, and this outcome.
fn is_copy_line(alloc: Global, outcome: Outcome, want: &str) -> bool {
    let front =
        "time=1970-01-01T00:00:05Z event=copy job=\"8b35c5cc-0011-2233-4455-66778899aabb\" file=12 attempt=1 source=\"https://a.example/data/f1\" dest=\"https://b.example/data/\\\"f1\\\"\" ";
    match line_of(alloc, 5, &copy_that(outcome)) {
        Ok(line) => {
            line.len() == front.len() + want.len()
                && line.starts_with(front.as_bytes())
                && line.ends_with(want.as_bytes())
        }
        Err(_) => false,
    }
}

/// How copies end, each with what stands behind a line's places.
const OUTCOME_ROWS: [(&str, Outcome, &str); 8] = [
    (
        "verified",
        Outcome::Verified {
            size: 3,
            digest: [0; 16],
        },
        "bytes=3 millis=34 outcome=\"verified\"\n",
    ),
    (
        "no source",
        Outcome::SourceMissing,
        "bytes=0 millis=34 outcome=\"source missing\"\n",
    ),
    (
        "something is there",
        Outcome::DestinationExists,
        "bytes=0 millis=34 outcome=\"destination exists\"\n",
    ),
    (
        "another size",
        Outcome::SourceSize { seen: 40 },
        "bytes=0 millis=34 outcome=\"source size 40\"\n",
    ),
    (
        "another digest",
        Outcome::SourceDigest { seen: [0xa5; 16] },
        "bytes=0 millis=34 outcome=\"source digest a5a5a5a5a5a5a5a5a5a5a5a5a5a5a5a5\"\n",
    ),
    (
        "another byte",
        Outcome::ReadBackDiffers { at: 7 },
        "bytes=0 millis=34 outcome=\"read back differs at 7\"\n",
    ),
    (
        "a store",
        Outcome::StoreFailed,
        "bytes=0 millis=34 outcome=\"store failed\"\n",
    ),
    (
        "a stop",
        Outcome::Stopped,
        "bytes=0 millis=34 outcome=\"stopped\"\n",
    ),
];

#[test]
fn each_outcome_has_its_text(rt: HostRuntime) {
    for (case, outcome, want) in OUTCOME_ROWS {
        assert!(rt; is_copy_line(rt.alloc(), outcome, want), "{case}");
    }
}

/// A refusal to open a path.
fn refused(path: &str, errno: u32) -> Event<'_> {
    Event::CallFailed {
        call: FileCall::Open,
        path,
        errno,
    }
}

#[test]
fn no_name_forges_a_line_or_a_field(rt: HostRuntime) {
    for (case, path, want) in [
        (
            "a plain path",
            "/stand/grid/f1",
            "event=call call=open path=\"/stand/grid/f1\" error=\"EACCES\" errno=13\n",
        ),
        (
            "none",
            "",
            "event=call call=open path=\"\" error=\"EACCES\" errno=13\n",
        ),
        (
            "a quote and a field",
            "f\" error=\"none",
            "event=call call=open path=\"f\\\" error=\\\"none\" error=\"EACCES\" errno=13\n",
        ),
        (
            "a backslash before a quote",
            "f\\\"",
            "event=call call=open path=\"f\\\\\\\"\" error=\"EACCES\" errno=13\n",
        ),
        (
            "a line feed and a line",
            "f\ntime=6 event=ends",
            "event=call call=open path=\"f\\x0atime=6 event=ends\" error=\"EACCES\" errno=13\n",
        ),
        (
            "other controls",
            "\u{0}\t\r\u{1b}[2J\u{1f}\u{7f}",
            "event=call call=open path=\"\\x00\\x09\\x0d\\x1b[2J\\x1f\\x7f\" error=\"EACCES\" errno=13\n",
        ),
        (
            "letters beyond ASCII",
            "größe",
            "event=call call=open path=\"größe\" error=\"EACCES\" errno=13\n",
        ),
    ] {
        assert!(rt; is_line(rt.alloc(), &refused(path, 13), want), "{case}");
    }
}

/// Whether this number has this name.
fn is_named(alloc: Global, errno: u32, want: &str) -> bool {
    is_line(alloc, &refused("f", errno), want)
}

#[test]
fn numbers_have_the_names_of_linux(rt: HostRuntime) {
    for (errno, want) in [
        (0, "event=call call=open path=\"f\" error=\"E?\" errno=0\n"),
        (
            1,
            "event=call call=open path=\"f\" error=\"EPERM\" errno=1\n",
        ),
        (5, "event=call call=open path=\"f\" error=\"EIO\" errno=5\n"),
        (
            28,
            "event=call call=open path=\"f\" error=\"ENOSPC\" errno=28\n",
        ),
        (
            30,
            "event=call call=open path=\"f\" error=\"EROFS\" errno=30\n",
        ),
        (
            40,
            "event=call call=open path=\"f\" error=\"ELOOP\" errno=40\n",
        ),
        (
            122,
            "event=call call=open path=\"f\" error=\"EDQUOT\" errno=122\n",
        ),
        (
            123,
            "event=call call=open path=\"f\" error=\"E?\" errno=123\n",
        ),
    ] {
        assert!(rt; is_named(rt.alloc(), errno, want), "{errno}");
    }
}
