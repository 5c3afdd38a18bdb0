//! Following over links and disks in memory. A row is a sentence, how many entries are held, what the lines answer in order, the dial that fails, how
//! many tries are allowed, the end that is wanted, how many lines came back, and how many entries there are then.
use super::answers::{
    CUT, DISK_FAILED, FIRST, NO_DIAL, NO_ENTRY, NO_ENTRY_BYTES, NO_OBJECT, NO_ROUTE, OTHER_FIRST,
    PORT, SECOND, THIRD, has, journal, link,
};
use fts_standby::{FollowEnd, follow};
use fts_wire::AnswerRoom;
use std::test::Fail;

const REQUEST: &str =
    "GET /journal/0 HTTP/1.1\r\nHost: 127.0.0.1:8080\r\nConnection: close\r\n\r\n";

/// The number of a call of a disk that never comes.
const NEVER: u32 = 1_000_000;

type Row = (
    &'static str,
    usize,
    [&'static str; 4],
    u32,
    u32,
    FollowEnd,
    usize,
    usize,
);

const ROWS: [Row; 15] = [
    (
        "an empty one takes all",
        0,
        [FIRST, SECOND, THIRD, NO_ENTRY],
        NO_DIAL,
        1,
        FollowEnd::CaughtUp { count: 3 },
        4,
        3,
    ),
    (
        "one that has some takes the others",
        2,
        [SECOND, THIRD, NO_ENTRY, ""],
        NO_DIAL,
        1,
        FollowEnd::CaughtUp { count: 3 },
        3,
        3,
    ),
    (
        "there is nothing new",
        3,
        [THIRD, NO_ENTRY, "", ""],
        NO_DIAL,
        1,
        FollowEnd::CaughtUp { count: 3 },
        2,
        3,
    ),
    (
        "there is nothing at all",
        0,
        [NO_ENTRY, "", "", ""],
        NO_DIAL,
        1,
        FollowEnd::CaughtUp { count: 0 },
        1,
        0,
    ),
    (
        "its last entry is another one",
        1,
        [OTHER_FIRST, NO_ENTRY, "", ""],
        NO_DIAL,
        3,
        FollowEnd::Diverged { number: 0 },
        1,
        1,
    ),
    (
        "its last entry is not there",
        1,
        [NO_ENTRY, NO_ENTRY, "", ""],
        NO_DIAL,
        3,
        FollowEnd::Diverged { number: 0 },
        1,
        1,
    ),
    (
        "a 404 of another rule refuses",
        0,
        [NO_ROUTE, NO_ENTRY, "", ""],
        NO_DIAL,
        3,
        FollowEnd::Refused { status: 404 },
        1,
        0,
    ),
    (
        "a refusal behind an entry",
        0,
        [FIRST, NO_ROUTE, "", ""],
        NO_DIAL,
        3,
        FollowEnd::Refused { status: 404 },
        2,
        1,
    ),
    (
        "an entry of another number",
        0,
        [SECOND, FIRST, "", ""],
        NO_DIAL,
        1,
        FollowEnd::NoAnswer,
        1,
        0,
    ),
    (
        "bytes that are no entry",
        0,
        [NO_ENTRY_BYTES, "", "", ""],
        NO_DIAL,
        1,
        FollowEnd::NoAnswer,
        1,
        0,
    ),
    (
        "what is no object",
        0,
        [NO_OBJECT, "", "", ""],
        NO_DIAL,
        1,
        FollowEnd::NoAnswer,
        1,
        0,
    ),
    (
        "an answer that is cut, and then all",
        0,
        [CUT, FIRST, NO_ENTRY, ""],
        NO_DIAL,
        2,
        FollowEnd::CaughtUp { count: 1 },
        3,
        1,
    ),
    (
        "a disk that failed to the last try",
        0,
        [CUT, DISK_FAILED, FIRST, ""],
        NO_DIAL,
        2,
        FollowEnd::CannotServe { status: 503 },
        2,
        0,
    ),
    (
        "no answer to the last try",
        0,
        [DISK_FAILED, CUT, FIRST, ""],
        NO_DIAL,
        2,
        FollowEnd::NoAnswer,
        2,
        0,
    ),
    (
        "a dial that fails is the last try",
        0,
        [FIRST, NO_ENTRY, "", ""],
        2,
        1,
        FollowEnd::LinkFailed,
        1,
        1,
    ),
];

#[test]
fn following_ends_by_its_answers(rt: HostRuntime) -> Result<(), Fail> {
    let alloc = rt.alloc();
    let Ok(mut room) = AnswerRoom::new(alloc) else {
        panic!(rt; "a room is made")
    };
    for (case, held, answers, dial, tries, end, back, entries) in ROWS {
        let mut journal = journal(alloc, held, NEVER)?;
        let mut link = link(alloc, answers, dial)?;
        let came = follow(
            alloc,
            &mut link,
            PORT,
            tries.max(1),
            &mut room,
            &mut journal,
        );
        assert!(rt; came == end, "the end: {case}");
        assert!(rt; link.back().len() == back, "the lines: {case}");
        assert!(rt; link.port() == Some(PORT), "the port: {case}");
        assert!(rt; has(alloc, &mut journal, entries), "the entries: {case}");
    }
    Ok(())
}

#[test]
fn a_request_is_these_bytes(rt: HostRuntime) -> Result<(), Fail> {
    let alloc = rt.alloc();
    let Ok(mut room) = AnswerRoom::new(alloc) else {
        panic!(rt; "a room is made")
    };
    let mut journal = journal(alloc, 0, NEVER)?;
    let mut link = link(alloc, [NO_ENTRY, "", "", ""], NO_DIAL)?;
    let _end = follow(alloc, &mut link, PORT, 1, &mut room, &mut journal);
    let is_asked = link
        .back()
        .iter()
        .all(|line| line.bytes() == REQUEST.as_bytes());
    assert!(rt; is_asked && link.back().len() == 1, "one request");
    Ok(())
}

/// What lines answer to a journal that has so many entries of three.
const ANSWERS: [[&str; 4]; 4] = [
    [FIRST, SECOND, THIRD, NO_ENTRY],
    [FIRST, SECOND, THIRD, NO_ENTRY],
    [SECOND, THIRD, NO_ENTRY, ""],
    [THIRD, NO_ENTRY, "", ""],
];

#[test]
fn a_disk_that_failed_goes_on(rt: HostRuntime) -> Result<(), Fail> {
    let alloc = rt.alloc();
    let Ok(mut room) = AnswerRoom::new(alloc) else {
        panic!(rt; "a room is made")
    };
    // Two calls make the journal, and four append an entry.
    for fail in 3..15 {
        let mut journal = journal(alloc, 0, fail)?;
        let mut first = link(alloc, ANSWERS[0], NO_DIAL)?;
        let end = follow(alloc, &mut first, PORT, 1, &mut room, &mut journal);
        assert!(rt; end == FollowEnd::DiskFailed, "call {fail} fails");
        let taken = (fail - 3) as usize / 4;
        assert!(rt;
            journal.count() == taken && taken < 4,
            "the entries before call {fail}"
        );
        let mut second = link(alloc, ANSWERS[taken], NO_DIAL)?;
        let end = follow(alloc, &mut second, PORT, 1, &mut room, &mut journal);
        assert!(rt;
            end == FollowEnd::CaughtUp { count: 3 },
            "behind call {fail}"
        );
        assert!(rt;
            has(alloc, &mut journal, 3),
            "all entries behind call {fail}"
        );
    }
    Ok(())
}
