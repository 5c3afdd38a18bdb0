//! Submissions and queries over links in memory. A row is a sentence, what the lines answer in order, and the end that is wanted.
//! Ends are those of `docs/API.md`.
ghost use Rattle.std.specs.Prelude.{◌≤◌};

use super::answers::{
    CREATED, CUT, DISK_FAILED, DOCUMENT, DUPLICATE, JOB, NEVER, NO_DIAL, NO_ID, NO_MEMORY,
    NOT_FOUND, NOT_JSON, NUMBER_FOR_ID, PORT, QUERY, REQUEST, SHORT_ID, SHOWN, Tries, link,
    link_of_one,
};
use super::commands::is_asked_so;
use fts_client::{Link, MemoryLink, QueryEnd, SubmitEnd, Tried, query, submit, try_once};
use fts_wire::{AnswerFault, AnswerRoom, MemoryLine, MemorySink, MemorySource, Sink};
use std::alloc::Global;
use std::test::Fail;

const DONE: SubmitEnd = SubmitEnd::Done {
    job: JOB,
    again: false,
};

const DONE_AGAIN: SubmitEnd = SubmitEnd::Done {
    job: JOB,
    again: true,
};

/// A row: a sentence, the tries, the end, and how many lines came back.
type SubmitRow = (&'static str, Tries, SubmitEnd, usize);

const SUBMISSIONS: [SubmitRow; 16] = [
    ("a job is made", ([CREATED, "", ""], NO_DIAL, 3), DONE, 1),
    (
        "a job is there",
        ([DUPLICATE, "", ""], NO_DIAL, 3),
        DONE_AGAIN,
        1,
    ),
    (
        "an answer that is cut, and then the job is there",
        ([CUT, DUPLICATE, ""], NO_DIAL, 3),
        DONE_AGAIN,
        2,
    ),
    (
        "a refusal ends it",
        ([NOT_JSON, CREATED, ""], NO_DIAL, 3),
        SubmitEnd::Refused { status: 400 },
        1,
    ),
    (
        "a service that can't serve, and then a job",
        ([DISK_FAILED, NO_MEMORY, CREATED], NO_DIAL, 3),
        DONE,
        3,
    ),
    (
        "a disk that failed to the last try",
        ([CUT, NO_MEMORY, DISK_FAILED], NO_DIAL, 3),
        SubmitEnd::CannotServe { status: 503 },
        3,
    ),
    (
        "no memory at the last try",
        ([DISK_FAILED, NO_MEMORY, CREATED], NO_DIAL, 2),
        SubmitEnd::CannotServe { status: 500 },
        2,
    ),
    (
        "one try, and no line",
        ([CREATED, "", ""], 1, 1),
        SubmitEnd::LinkFailed,
        0,
    ),
    (
        "no line, and then a job",
        ([CREATED, "", ""], 1, 2),
        DONE,
        1,
    ),
    (
        "the last of three tries has no line",
        ([DISK_FAILED, CUT, CREATED], 3, 3),
        SubmitEnd::LinkFailed,
        2,
    ),
    (
        "more tries than lines",
        ([CUT, CUT, CUT], NO_DIAL, 4),
        SubmitEnd::LinkFailed,
        3,
    ),
    (
        "no byte at all",
        (["", "", ""], NO_DIAL, 3),
        SubmitEnd::NoAnswer,
        3,
    ),
    (
        "a cut answer at the last try",
        ([DISK_FAILED, CUT, CREATED], NO_DIAL, 2),
        SubmitEnd::NoAnswer,
        2,
    ),
    (
        "an answer of 200 that names no job",
        ([NO_ID, "", ""], NO_DIAL, 1),
        SubmitEnd::NoAnswer,
        1,
    ),
    (
        "an answer of 409 that names a number",
        ([NUMBER_FOR_ID, "", ""], NO_DIAL, 1),
        SubmitEnd::NoAnswer,
        1,
    ),
    (
        "an answer of 409 whose id is no id",
        ([SHORT_ID, "", ""], NO_DIAL, 1),
        SubmitEnd::NoAnswer,
        1,
    ),
];

/// Whether a submission over such a link ends so, with so many lines back, on each of which the whole request stands and nothing else.
fn is_submitted_so(
    alloc: Global,
    answers: [&str; 3],
    fail: u32,
    tries: u32,
    want: SubmitEnd,
    back: usize,
) -> Result<bool, Fail>
    requires { 1 ≤ tries }
{
    let mut link = link(alloc, answers, fail)?;
    let mut room = AnswerRoom::new(alloc)?;
    let end = submit(
        alloc,
        &mut link,
        PORT,
        DOCUMENT.as_bytes(),
        tries,
        &mut room,
    );
    let whole = link
        .back()
        .iter()
        .all(|line| line.bytes() == REQUEST.as_bytes());
    Ok(end == want && link.back().len() == back && whole)
}

#[test]
fn a_submission_ends_by_its_answers(rt: HostRuntime) -> Result<(), Fail> {
    for (case, (answers, fail, tries), want, back) in SUBMISSIONS {
        if tries > 0 {
            let is_so = is_submitted_so(rt.alloc(), answers, fail, tries, want, back)?;
            assert!(rt; is_so, "{case}");
        }
    }
    Ok(())
}

/// A row: a sentence, an answer that is none, and its fault.
type HostileRow = (&'static str, &'static str, AnswerFault);

const HOSTILE: [HostileRow; 13] = [
    (
        "no length",
        "HTTP/1.1 200 OK\r\nContent-Type: application/json\r\nConnection: close\r\n\r\n{\"job_id\":\"8b35c5cc-fec2-5479-8778-9cbe6f137978\"}",
        AnswerFault::BadResponse,
    ),
    (
        "a length past the limit",
        "HTTP/1.1 200 OK\r\nContent-Type: application/json\r\nContent-Length: 8389633\r\n\r\n{\"job_id\":\"8b35c5cc-fec2-5479-8778-9cbe6f137978\"}",
        AnswerFault::BadResponse,
    ),
    (
        "a length of twenty digits",
        "HTTP/1.1 200 OK\r\nContent-Type: application/json\r\nContent-Length: 18446744073709551616\r\n\r\n{}",
        AnswerFault::BadResponse,
    ),
    (
        "a body that ends early",
        "HTTP/1.1 200 OK\r\nContent-Type: application/json\r\nContent-Length: 49\r\n\r\n{\"job_id\":\"8b35c5cc",
        AnswerFault::EndsInside,
    ),
    (
        "a body whose last byte is wanting",
        "HTTP/1.1 200 OK\r\nContent-Type: application/json\r\nContent-Length: 50\r\n\r\n{\"job_id\":\"8b35c5cc-fec2-5479-8778-9cbe6f137978\"}",
        AnswerFault::EndsInside,
    ),
    ("no byte at all", "", AnswerFault::EndsInside),
    (
        "two lengths",
        "HTTP/1.1 200 OK\r\nContent-Type: application/json\r\nContent-Length: 49\r\nContent-Length: 49\r\n\r\n{\"job_id\":\"8b35c5cc-fec2-5479-8778-9cbe6f137978\"}",
        AnswerFault::BadResponse,
    ),
    (
        "another version",
        "HTTP/1.0 200 OK\r\nContent-Type: application/json\r\nContent-Length: 49\r\n\r\n{\"job_id\":\"8b35c5cc-fec2-5479-8778-9cbe6f137978\"}",
        AnswerFault::BadResponse,
    ),
    (
        "another status",
        "HTTP/1.1 201 Created\r\nContent-Type: application/json\r\nContent-Length: 49\r\n\r\n{\"job_id\":\"8b35c5cc-fec2-5479-8778-9cbe6f137978\"}",
        AnswerFault::BadResponse,
    ),
    (
        "a length with a zero before it",
        "HTTP/1.1 200 OK\r\nContent-Type: application/json\r\nContent-Length: 049\r\n\r\n{\"job_id\":\"8b35c5cc-fec2-5479-8778-9cbe6f137978\"}",
        AnswerFault::BadResponse,
    ),
    (
        "chunks",
        "HTTP/1.1 200 OK\r\nTransfer-Encoding: chunked\r\n\r\n31\r\n{\"job_id\":\"8b35c5cc-fec2-5479-8778-9cbe6f137978\"}\r\n0\r\n\r\n",
        AnswerFault::BadResponse,
    ),
    (
        "line feeds alone",
        "HTTP/1.1 200 OK\nContent-Type: application/json\nContent-Length: 2\n\n{}",
        AnswerFault::BadResponse,
    ),
    ("zero bytes", "\0\0\0\0", AnswerFault::BadResponse),
];

#[test]
fn a_hostile_answer_is_none(rt: HostRuntime) -> Result<(), Fail> {
    for (case, answer, _) in HOSTILE {
        let mut room = AnswerRoom::new(rt.alloc())?;
        let mut link = link_of_one(rt.alloc(), answer, NEVER, NEVER)?;
        let document = DOCUMENT.as_bytes();
        let end = submit(rt.alloc(), &mut link, PORT, document, 1, &mut room);
        assert!(rt; end == SubmitEnd::NoAnswer, "{case}");
        assert!(rt; room.body().is_empty(), "{case}: the room");
        let mut link = link_of_one(rt.alloc(), answer, NEVER, NEVER)?;
        let end = query(rt.alloc(), &mut link, PORT, JOB, 1, &mut room);
        assert!(rt; end == QueryEnd::NoAnswer, "{case}: a query");
        assert!(rt; room.body().is_empty(), "{case}: the room of a query");
    }
    Ok(())
}

/// What one try finds on a line that answers this, with so many spaces behind it, where its read of this number fails.
fn tried_on(alloc: Global, answer: &str, spaces: usize, read: u64) -> Result<Tried, Fail> {
    let mut bytes = answer.as_bytes().to_vec(alloc)?;
    for _ in 0..spaces {
        bytes.push(b' ')?;
    }
    let source = MemorySource::new(bytes, vec![in alloc; read]?);
    let sink = MemorySink::new(alloc, vec![in alloc; NEVER]?);
    let lines = vec![in alloc; MemoryLine::new(source, sink)]?;
    let Ok(mut link) = MemoryLink::new(alloc, lines, vec![in alloc; NO_DIAL]?) else {
        return Err(Fail::new("no link"));
    };
    let mut room = AnswerRoom::new(alloc)?;
    Ok(try_once(&mut link, PORT, &[REQUEST.as_bytes()], &mut room))
}

#[test]
fn a_hostile_answer_is_read_no_further_than_its_fault(rt: HostRuntime) -> Result<(), Fail> {
    for (case, answer, fault) in HOSTILE {
        // A piece has 65,536 bytes, and the first one shows that there is no response; an end inside one is found by the second read.
        let is_bad = fault == AnswerFault::BadResponse;
        let (spaces, read) = if is_bad { (70_000, 2) } else { (0, 3) };
        let tried = tried_on(rt.alloc(), answer, spaces, read)?;
        assert!(rt; tried == Tried::Sent(Err(fault)), "{case}");
    }
    Ok(())
}

/// Submits the document in one try.
fn submit_once(alloc: Global, link: &mut MemoryLink, room: &mut AnswerRoom) -> SubmitEnd {
    submit(alloc, link, PORT, DOCUMENT.as_bytes(), 1, room)
}

#[test]
fn bytes_behind_an_answer_are_left_alone(rt: HostRuntime) -> Result<(), Fail> {
    let two = format!(in rt.alloc(); "{CREATED}{NOT_JSON}")?;
    let mut link = link_of_one(rt.alloc(), two.as_str(), NEVER, NEVER)?;
    let mut room = AnswerRoom::new(rt.alloc())?;
    let end = submit_once(rt.alloc(), &mut link, &mut room);
    assert!(rt; end == DONE, "the first answer counts");
    let tried = tried_on(rt.alloc(), CREATED, 70_000, 2)?;
    assert!(rt; tried == Tried::Sent(Ok(200)), "no second piece is read");
    Ok(())
}

#[test]
fn a_status_line_without_an_end_is_refused_at_once(rt: HostRuntime) -> Result<(), Fail> {
    // 16 KiB, and more than a piece, of a phrase that doesn't end.
    for spaces in [16_384 - 15, 200_000] {
        let tried = tried_on(rt.alloc(), "HTTP/1.1 200 OK", spaces, 2)?;
        assert!(rt;
            tried == Tried::Sent(Err(AnswerFault::BadResponse)),
            "no answer"
        );
    }
    Ok(())
}

#[test]
fn a_failing_read_or_write_is_the_link_s(rt: HostRuntime) -> Result<(), Fail> {
    for (case, read, write, written) in [
        ("a failing read", 1, NEVER, REQUEST),
        ("a failing read behind a cut answer", 2, NEVER, REQUEST),
        ("a failing write", NEVER, 1, ""),
    ] {
        let mut link = link_of_one(rt.alloc(), CUT, read, write)?;
        let mut room = AnswerRoom::new(rt.alloc())?;
        let end = submit_once(rt.alloc(), &mut link, &mut room);
        assert!(rt; end == SubmitEnd::LinkFailed, "{case}");
        let is_written = is_asked_so(&link, written, 1, Some(PORT));
        assert!(rt; is_written, "{case}: the line");
    }
    Ok(())
}

/// A row: a sentence, the tries, the end, and the body that is held behind it.
type QueryRow = (&'static str, Tries, QueryEnd, &'static str);

const QUERIES: [QueryRow; 7] = [
    (
        "a job is shown",
        ([SHOWN, "", ""], NO_DIAL, 3),
        QueryEnd::Found,
        "{\"job_state\":\"ACTIVE\"}",
    ),
    (
        "a job is shown behind a cut answer and a failed disk",
        ([CUT, DISK_FAILED, SHOWN], NO_DIAL, 3),
        QueryEnd::Found,
        "{\"job_state\":\"ACTIVE\"}",
    ),
    (
        "no such job",
        ([NOT_FOUND, SHOWN, ""], NO_DIAL, 3),
        QueryEnd::Refused { status: 404 },
        "{\"message\":\"no job\",\"rule\":31,\"status\":404}",
    ),
    (
        "an answer that shows another thing is a refusal",
        ([DUPLICATE, "", ""], NO_DIAL, 1),
        QueryEnd::Refused { status: 409 },
        "{\"job_id\":\"8b35c5cc-fec2-5479-8778-9cbe6f137978\",\"message\":\"duplicate\",\"rule\":34,\"status\":409}",
    ),
    (
        "one try, and no line",
        ([SHOWN, "", ""], 1, 1),
        QueryEnd::LinkFailed,
        "",
    ),
    (
        "no memory at the last try",
        ([CUT, NO_MEMORY, SHOWN], NO_DIAL, 2),
        QueryEnd::CannotServe { status: 500 },
        "",
    ),
    (
        "a cut answer",
        ([CUT, CUT, CUT], NO_DIAL, 3),
        QueryEnd::NoAnswer,
        "",
    ),
];

#[test]
fn a_query_ends_by_its_answers(rt: HostRuntime) -> Result<(), Fail> {
    for (case, (answers, fail, tries), want, body) in QUERIES {
        if tries > 0 {
            let mut link = link(rt.alloc(), answers, fail)?;
            let mut room = AnswerRoom::new(rt.alloc())?;
            let end = query(rt.alloc(), &mut link, PORT, JOB, tries, &mut room);
            assert!(rt; end == want, "{case}");
            assert!(rt; room.body() == body.as_bytes(), "{case}: the body");
            let whole = link
                .back()
                .iter()
                .all(|line| line.bytes() == QUERY.as_bytes());
            assert!(rt; whole, "{case}: the request");
        }
    }
    Ok(())
}

#[test]
fn a_link_gives_its_lines_in_order(rt: HostRuntime) -> Result<(), Fail> {
    let mut link = link(rt.alloc(), [CREATED, CUT, ""], 2)?;
    let Ok(mut first) = link.dial(PORT) else {
        return Err(Fail::new("the first dial"));
    };
    assert!(rt; link.dial(PORT).is_err(), "the second dial is listed");
    let Ok(second) = link.dial(PORT) else {
        return Err(Fail::new("the third dial"));
    };
    assert!(rt; first.write(b"ab") == Ok(2), "a line is written");
    link.done(second);
    link.done(first);
    assert!(rt; link.back().len() == 2, "both came back");
    assert!(rt; link.back()[0].bytes().is_empty(), "the second came first");
    assert!(rt;
        link.back()[1].bytes() == b"ab".as_slice(),
        "with what was written"
    );
    Ok(())
}
