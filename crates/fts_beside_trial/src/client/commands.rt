//! The commands of a client over an input, an output and a link in memory. A row is a sentence, what the command is given, and its exit status, its
//! output and the line that it notes. Statuses and texts are those of `docs/API.md`.
ghost use Rattle.std.specs.Prelude.{◌≤◌};

use super::answers::{
    CREATED, CUT, DISK_FAILED, DOCUMENT, DUPLICATE, JOB, NEVER, NO_DIAL, NO_MEMORY, NOT_FOUND,
    NOT_JSON, PORT, QUERY, REQUEST, SHOWN, Tries, link,
};
use fts_client::MemoryLink;
use fts_submitting::{ClientEnd, run_query, run_submit, send_client_note};
use fts_wire::{MemorySink, MemorySource};
use std::alloc::Global;
use std::test::Fail;

const ID_LINE: &str = "8b35c5cc-fec2-5479-8778-9cbe6f137978\n";

/// A source of these bytes. The read of this number fails.
fn source(alloc: Global, bytes: &str, fail: u64) -> Result<MemorySource, Fail> {
    Ok(MemorySource::new(bytes.as_bytes().to_vec(alloc)?, vec![in alloc; fail]?))
}

/// A sink that holds nothing. The write of this number fails.
fn sink(alloc: Global, fail: u64) -> Result<MemorySink, Fail> {
    Ok(MemorySink::new(alloc, vec![in alloc; fail]?))
}

/// Whether a command that ended so has this status, wrote this, and notes this.
fn is_ended_so(
    alloc: Global,
    end: ClientEnd,
    output: &MemorySink,
    want: (u8, &str, &str),
) -> Result<bool, Fail> {
    let mut notes = sink(alloc, NEVER)?;
    let is_sent = send_client_note(&mut notes, end).is_ok();
    Ok(
        is_sent
            && end.status() == want.0
            && output.bytes() == want.1.as_bytes()
            && notes.bytes() == want.2.as_bytes(),
    )
}

/// Whether so many lines of a link came back, each with this request alone, and nothing but this port was dialed, if anything was.
pub fn is_asked_so(link: &MemoryLink, request: &str, back: usize, port: Option<u16>) -> bool {
    let whole = link
        .back()
        .iter()
        .all(|line| line.bytes() == request.as_bytes());
    whole && link.back().len() == back && link.port() == port
}

/// A row: a sentence, the tries; the status, the output, the note, and how many lines came back.
type CommandRow = (&'static str, Tries, u8, &'static str, &'static str, usize);

/// Submissions of one document.
const SUBMISSIONS: [CommandRow; 6] = [
    (
        "a job is made",
        ([CREATED, "", ""], NO_DIAL, 3),
        0,
        ID_LINE,
        "",
        1,
    ),
    (
        "the first answer is cut, and the second tells of the job",
        ([CUT, DUPLICATE, ""], NO_DIAL, 3),
        0,
        ID_LINE,
        "",
        2,
    ),
    (
        "one try, and its dial fails",
        ([CREATED, "", ""], 1, 1),
        16,
        "",
        "fts: link failed\n",
        0,
    ),
    (
        "a refusal",
        ([NOT_JSON, CREATED, ""], NO_DIAL, 3),
        15,
        "",
        "fts: service refused with 400\n",
        1,
    ),
    (
        "no whole answer",
        ([CUT, CUT, CUT], NO_DIAL, 3),
        17,
        "",
        "fts: no whole answer\n",
        3,
    ),
    (
        "a service without memory, and then with a failed disk",
        ([NO_MEMORY, DISK_FAILED, CREATED], NO_DIAL, 2),
        18,
        "",
        "fts: service cannot serve: 503\n",
        2,
    ),
];

#[test]
fn a_submission_tells_its_job_or_says_why_not(rt: HostRuntime) -> Result<(), Fail> {
    for (case, (answers, fail, tries), status, written, note, back) in SUBMISSIONS {
        if tries > 0 {
            let mut link = link(rt.alloc(), answers, fail)?;
            let mut input = source(rt.alloc(), DOCUMENT, NEVER)?;
            let mut output = sink(rt.alloc(), NEVER)?;
            let end = run_submit(rt.alloc(), PORT, tries, &mut input, &mut output, &mut link);
            let is_so = is_ended_so(rt.alloc(), end, &output, (status, written, note))?;
            assert!(rt; is_so, "{case}");
            assert!(rt;
                is_asked_so(&link, REQUEST, back, Some(PORT)),
                "{case}: the lines"
            );
        }
    }
    Ok(())
}

/// A row: a sentence, a document, and the note.
type DocumentRow = (&'static str, &'static str, &'static str);

const DOCUMENTS: [DocumentRow; 7] = [
    ("no document", "", "fts: document rule 1\n"),
    ("a list", "[]", "fts: document rule 2\n"),
    (
        "parameters that are none",
        "{\"params\":7}",
        "fts: document rule 16\n",
    ),
    (
        "no sid",
        "{\"params\":{\"id_generator\":\"deterministic\"}}",
        "fts: document rule 24\n",
    ),
    (
        "an id that the service makes",
        "{\"params\":{\"id_generator\":\"standard\",\"sid\":\"f1\"}}",
        "fts: document rule 24\n",
    ),
    (
        "a sid, and nothing of how the id is made",
        "{\"params\":{\"sid\":\"f1\"}}",
        "fts: document rule 24\n",
    ),
    (
        "more bytes behind the document's value",
        "{} {}",
        "fts: document rule 1\n",
    ),
];

#[test]
fn a_document_without_an_own_id_is_not_sent(rt: HostRuntime) -> Result<(), Fail> {
    for (case, document, note) in DOCUMENTS {
        let mut link = link(rt.alloc(), [CREATED, "", ""], NO_DIAL)?;
        let mut input = source(rt.alloc(), document, NEVER)?;
        let mut output = sink(rt.alloc(), NEVER)?;
        let end = run_submit(rt.alloc(), PORT, 3, &mut input, &mut output, &mut link);
        let is_so = is_ended_so(rt.alloc(), end, &output, (19, "", note))?;
        assert!(rt; is_so, "{case}");
        assert!(rt;
            is_asked_so(&link, "", 0, None),
            "{case}: nothing is dialed"
        );
    }
    Ok(())
}

/// A document of so many bytes in all: the usual one, and spaces behind it.
fn document_of(alloc: Global, size: usize) -> Result<MemorySource, Fail> {
    let mut bytes = DOCUMENT.as_bytes().to_vec(alloc)?;
    for _ in DOCUMENT.len()..size {
        bytes.push(b' ')?;
    }
    Ok(MemorySource::new(bytes, vec![in alloc; NEVER]?))
}

#[test]
fn a_document_may_have_1048576_bytes_and_no_more(rt: HostRuntime) -> Result<(), Fail> {
    for (case, size, want) in [
        ("the longest", 1_048_576, (0, ID_LINE, "")),
        (
            "one byte more",
            1_048_577,
            (19, "", "fts: document rule 45\n"),
        ),
    ] {
        let mut link = link(rt.alloc(), [CREATED, "", ""], NO_DIAL)?;
        let mut input = document_of(rt.alloc(), size)?;
        let mut output = sink(rt.alloc(), NEVER)?;
        let end = run_submit(rt.alloc(), PORT, 3, &mut input, &mut output, &mut link);
        assert!(rt; is_ended_so(rt.alloc(), end, &output, want)?, "{case}");
    }
    Ok(())
}

#[test]
fn a_failing_input_or_output_is_told(rt: HostRuntime) -> Result<(), Fail> {
    for (case, read, write, status, note, back) in [
        ("a read", 1, NEVER, 5, "fts: input failed\n", 0),
        (
            "a read behind the document",
            2,
            NEVER,
            5,
            "fts: input failed\n",
            0,
        ),
        ("a write", NEVER, 1, 6, "fts: output failed\n", 1),
    ] {
        let mut link = link(rt.alloc(), [CREATED, "", ""], NO_DIAL)?;
        let mut input = source(rt.alloc(), DOCUMENT, read)?;
        let mut output = sink(rt.alloc(), write)?;
        let end = run_submit(rt.alloc(), PORT, 3, &mut input, &mut output, &mut link);
        let is_so = is_ended_so(rt.alloc(), end, &output, (status, "", note))?;
        assert!(rt; is_so, "{case}");
        assert!(rt; link.back().len() == back, "{case}: the lines");
    }
    Ok(())
}

const QUERIES: [CommandRow; 5] = [
    (
        "a job is shown",
        ([SHOWN, "", ""], NO_DIAL, 3),
        0,
        "{\"job_state\":\"ACTIVE\"}\n",
        "",
        1,
    ),
    (
        "no such job",
        ([NOT_FOUND, SHOWN, ""], NO_DIAL, 3),
        15,
        "",
        "fts: service refused with 404\n",
        1,
    ),
    (
        "more tries than lines",
        ([CUT, CUT, CUT], NO_DIAL, 4),
        16,
        "",
        "fts: link failed\n",
        3,
    ),
    (
        "no whole answer",
        ([DISK_FAILED, CUT, SHOWN], NO_DIAL, 2),
        17,
        "",
        "fts: no whole answer\n",
        2,
    ),
    (
        "a service without memory",
        ([NO_MEMORY, SHOWN, ""], NO_DIAL, 1),
        18,
        "",
        "fts: service cannot serve: 500\n",
        1,
    ),
];

#[test]
fn a_query_tells_its_job_or_says_why_not(rt: HostRuntime) -> Result<(), Fail> {
    for (case, (answers, fail, tries), status, written, note, back) in QUERIES {
        if tries > 0 {
            let mut link = link(rt.alloc(), answers, fail)?;
            let mut output = sink(rt.alloc(), NEVER)?;
            let end = run_query(rt.alloc(), PORT, JOB, tries, &mut output, &mut link);
            let is_so = is_ended_so(rt.alloc(), end, &output, (status, written, note))?;
            assert!(rt; is_so, "{case}");
            assert!(rt;
                is_asked_so(&link, QUERY, back, Some(PORT)),
                "{case}: the lines"
            );
        }
    }
    Ok(())
}

#[test]
fn an_object_that_can_t_be_written_is_told(rt: HostRuntime) -> Result<(), Fail> {
    let mut link = link(rt.alloc(), [SHOWN, "", ""], NO_DIAL)?;
    let mut output = sink(rt.alloc(), 2)?;
    let end = run_query(rt.alloc(), PORT, JOB, 3, &mut output, &mut link);
    let want = (6, "{\"job_state\":\"ACTIVE\"}", "fts: output failed\n");
    assert!(rt;
        is_ended_so(rt.alloc(), end, &output, want)?,
        "its line feed is missing"
    );
    Ok(())
}
