//! The own id of a document, as a client reads it before it sends the document. A row is a sentence, a document, the id, and the rule and message of
//! the refusal, or 0 and no text. Rules and texts are those of the rules' table in `docs/API.md`.
use fts_jobdoc::read_sid;
use std::alloc::Global;

/// A row.
type SidRow = (&'static str, &'static str, &'static str, u32, &'static str);

/// Documents whose own id is read before they are sent.
const SIDS: [SidRow; 14] = [
    (
        "among other parameters",
        "{\"params\":{\"multihop\":true,\"id_generator\":\"deterministic\",\"sid\":\"f1 there and back\"}}",
        "f1 there and back",
        0,
        "",
    ),
    (
        "what else the document has isn't looked at",
        "{\"files\":0,\"params\":{\"id_generator\":\"deterministic\",\"sid\":\"a1\",\"retry\":99}}",
        "a1",
        0,
        "",
    ),
    (
        "an id that the service makes",
        "{\"params\":{\"id_generator\":\"standard\",\"sid\":\"a1\"}}",
        "",
        24,
        "bad sid",
    ),
    (
        "a sid, and nothing of how the id is made",
        "{\"params\":{\"sid\":\"a1\"}}",
        "",
        24,
        "bad sid",
    ),
    ("no parameters", "{\"files\":[]}", "", 24, "bad sid"),
    (
        "null for the sid",
        "{\"params\":{\"id_generator\":\"deterministic\",\"sid\":null}}",
        "",
        24,
        "bad sid",
    ),
    (
        "another way to make ids",
        "{\"params\":{\"id_generator\":\"random\",\"sid\":\"a1\"}}",
        "",
        24,
        "bad sid",
    ),
    (
        "no sid",
        "{\"params\":{\"id_generator\":\"deterministic\"}}",
        "",
        24,
        "bad sid",
    ),
    (
        "an empty sid",
        "{\"params\":{\"id_generator\":\"deterministic\",\"sid\":\"\"}}",
        "",
        24,
        "bad sid",
    ),
    (
        "a number for the sid",
        "{\"params\":{\"id_generator\":\"deterministic\",\"sid\":1}}",
        "",
        24,
        "bad sid",
    ),
    (
        "a list for the parameters",
        "{\"params\":[]}",
        "",
        16,
        "params is not an object",
    ),
    ("a list", "[]", "", 2, "not an object"),
    ("an object that doesn't end", "{", "", 1, "not JSON"),
    ("nothing", "", "", 1, "not JSON"),
];

/// Whether this own id is read in a document, or it is refused by this rule with this message.
fn is_sid(alloc: Global, body: &str, sid: &str, rule: u32, message: &str) -> bool {
    match read_sid(alloc, body.as_bytes()) {
        Ok(found) => rule == 0 && found.as_str() == sid,
        Err(fault) => fault.rule() == rule && fault.message() == message,
    }
}

#[test]
fn an_own_id_is_read_before_the_document_is_sent(rt: HostRuntime) {
    for (case, body, sid, rule, message) in SIDS {
        let is_read = is_sid(rt.alloc(), body, sid, rule, message);
        assert!(rt; is_read, "{case}");
    }
}
