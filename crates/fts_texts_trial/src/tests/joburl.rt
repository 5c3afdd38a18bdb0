//! Of `fts_joburl`: that the definitions mean what the URL Standard means by these texts, and each call with ample memory.
use super::checks::{check, check_found};
use fts_joburl::{Surl, UrlFault, read_endpoint, read_surl};
use std::alloc::{AllocError, Global};

/// The fault's number, or 0 where a file was read.
fn number_of_surl(read: Result<Surl, UrlFault>) -> u32 {
    match read {
        Ok(_) => 0,
        Err(fault) => fault.number(),
    }
}

/// A front and this many bytes more.
fn lengthened(alloc: Global, front: &str, more: usize) -> Result<String, AllocError> {
    let mut text = String::from_str(alloc, front)?;
    for _ in 0..more {
        text.push('x')?;
    }
    Ok(text)
}

/// URLs of files: a sentence, a text, and the endpoint and the path that it names.
const FILES: [(&str, &str, &str, &str); 17] = [
    (
        "a step up",
        "https://a.example/a/../b",
        "https://a.example",
        "b",
    ),
    (
        "upper case, and the scheme's own port",
        "HTTPS://A.EXAMPLE:443/b",
        "https://a.example",
        "b",
    ),
    (
        "that port, and two segments",
        "https://b.example:443/store/f1",
        "https://b.example",
        "store/f1",
    ),
    (
        "a port of another scheme",
        "davs://b.example:443/f1",
        "davs://b.example:443",
        "f1",
    ),
    (
        "slashes side by side",
        "root://a.example:1094//data//f1",
        "root://a.example:1094",
        "data/f1",
    ),
    (
        "upper case in another scheme",
        "root://A.Example/b",
        "root://A.Example",
        "b",
    ),
    (
        "an empty port",
        "https://a.example:/b",
        "https://a.example",
        "b",
    ),
    (
        "an empty user",
        "https://@a.example/b",
        "https://a.example",
        "b",
    ),
    (
        "backslashes and steps above the root",
        "https://a.example/..\\..\\x",
        "https://a.example",
        "x",
    ),
    (
        "backslashes for all slashes",
        "https:\\\\a.example\\b",
        "https://a.example",
        "b",
    ),
    (
        "a backslash in another scheme",
        "root://a.example/a\\b",
        "root://a.example",
        "a\\b",
    ),
    (
        "blanks around, tabs and line breaks within",
        " ht\ttps://a.exa\nmple/\tb\r ",
        "https://a.example",
        "b",
    ),
    (
        "an address of eight parts",
        "https://[2001:DB8:0:0:0:0:0:1]:8443/b",
        "https://[2001:db8::1]:8443",
        "b",
    ),
    (
        "an address in two numbers",
        "https://0x7f.1/b",
        "https://127.0.0.1",
        "b",
    ),
    (
        "a host beyond ASCII",
        "https://b\u{fc}cher.example/b",
        "https://xn--bcher-kva.example",
        "b",
    ),
    (
        "our folder's name below another",
        "https://a.example/b/.fts",
        "https://a.example",
        "b/.fts",
    ),
    (
        "a name that only begins like ours",
        "https://a.example/.ftsx/b",
        "https://a.example",
        ".ftsx/b",
    ),
];

/// Whether a row's text names its file.
fn is_file(alloc: Global, text: &str, endpoint: &str, path: &str) -> Result<bool, UrlFault> {
    let surl = read_surl(alloc, text)?;
    Ok(surl.endpoint.as_str() == endpoint && surl.path.as_str() == path)
}

#[test]
fn urls_of_files_are_read(rt: HostRuntime) {
    for (case, text, endpoint, path) in FILES {
        check_found(&rt, is_file(rt.alloc(), text, endpoint, path), case);
    }
}

/// The number of a first fault, and the texts that have it, each with a sentence.
type FaultRows = (u32, &'static [(&'static str, &'static str)]);

/// Texts that name no file.
const FAULTS: [FaultRows; 8] = [
    (
        1,
        &[
            ("the empty text", ""),
            ("no scheme", "a.example/b"),
            ("an empty host", "https://"),
            ("a port above 65535", "https://a.example:65536/b"),
            ("a port that is no number", "https://a.example:x/b"),
            ("a blank in the host", "https://a b/c"),
            ("an open bracket", "https://[::1/b"),
        ],
    ),
    (
        2,
        &[
            ("a file of this machine", "file:///etc/passwd"),
            ("no host, and a query", "file:///b?x"),
            ("an empty host of another scheme", "root:///b"),
            ("no host of another scheme", "root:/b"),
            ("an address of mail", "mailto:u@a.example"),
        ],
    ),
    (
        3,
        &[
            ("an empty query", "https://a.example/b?"),
            ("a query", "https://a.example/b?x=1"),
            (
                "a query, a fragment and a user",
                "https://u@a.example/b?x#y",
            ),
        ],
    ),
    (
        4,
        &[
            ("an empty fragment", "https://a.example/b#"),
            ("a fragment and a user", "https://u@a.example/b#"),
        ],
    ),
    (
        5,
        &[
            ("a user", "https://u@a.example/b"),
            ("a password alone", "https://:p@a.example/b"),
            ("a user and an escape", "https://u@a.example/%41"),
        ],
    ),
    (
        6,
        &[
            ("an escaped step up", "https://a.example/x/%2e%2e/b"),
            ("a percent sign alone", "https://a.example/%"),
            ("an escape in the host", "https://%41.example/b"),
            ("an escape in another scheme's host", "root://a%20b/c"),
            (
                "another scheme's host beyond ASCII",
                "root://b\u{fc}cher.example/b",
            ),
            ("a path beyond ASCII", "https://a.example/\u{e9}"),
            ("a blank in the path", "https://a.example/a b"),
        ],
    ),
    (
        7,
        &[
            ("no path", "https://a.example"),
            ("slashes alone", "https://a.example//"),
            ("a step up alone", "https://a.example/.."),
        ],
    ),
    (
        9,
        &[
            ("our folder", "https://a.example/.fts"),
            ("a file in our folder", "https://a.example/.fts/x"),
            ("our folder behind two slashes", "https://a.example//.fts"),
        ],
    ),
];

#[test]
fn other_texts_have_their_first_fault(rt: HostRuntime) {
    for (number, texts) in FAULTS {
        for (case, text) in texts {
            let found = number_of_surl(read_surl(rt.alloc(), text));
            check(&rt, found == number, case);
        }
    }
}

/// A row: a sentence, the front of a text, how many bytes more it has, and the number of its first fault, 0 where there is none.
type LengthRow = (&'static str, &'static str, usize, u32);

const LENGTHS: [LengthRow; 5] = [
    ("1,024 bytes", "https://a.example/", 1_006, 0),
    ("a byte more", "https://a.example/", 1_007, 8),
    (
        "1,024 once it is read",
        "https://a.example:443/../",
        1_006,
        0,
    ),
    ("1,024 in our folder", "https://a.example/.fts/", 1_001, 9),
    (
        "a byte more in our folder",
        "https://a.example/.fts/",
        1_002,
        8,
    ),
];

/// Whether a row's text has its fault, or none.
fn is_length_so(alloc: Global, row: &LengthRow) -> Result<bool, AllocError> {
    let text = lengthened(alloc, row.1, row.2)?;
    Ok(number_of_surl(read_surl(alloc, text.as_str())) == row.3)
}

#[test]
fn a_url_has_at_most_1024_bytes(rt: HostRuntime) {
    for row in &LENGTHS {
        check_found(&rt, is_length_so(rt.alloc(), row), row.0);
    }
}

/// A row: a sentence, a text, and the endpoint that it names.
type EndpointRow = (&'static str, &'static str, &'static str);

const ENDPOINTS: [EndpointRow; 4] = [
    ("a name", "https://a.example", "https://a.example"),
    (
        "upper case, and the scheme's own port",
        "HTTPS://A.EXAMPLE:443",
        "https://a.example",
    ),
    (
        "slashes and dots behind it",
        "https://a.example/.//..",
        "https://a.example",
    ),
    ("a port", "root://a.example:1094", "root://a.example:1094"),
];

/// Whether a row's text names its endpoint.
fn is_endpoint(alloc: Global, row: &EndpointRow) -> Result<bool, UrlFault> {
    let endpoint = read_endpoint(alloc, row.1)?;
    Ok(endpoint.as_str() == row.2)
}

#[test]
fn urls_of_endpoints_are_read(rt: HostRuntime) {
    for row in &ENDPOINTS {
        check_found(&rt, is_endpoint(rt.alloc(), row), row.0);
    }
}

/// A row: a sentence, a text that names no endpoint, and its fault.
type OtherRow = (&'static str, &'static str, UrlFault);

const OTHERS: [OtherRow; 6] = [
    ("a path", "https://a.example/b", UrlFault::HasPath),
    ("our folder", "https://a.example/.fts", UrlFault::HasPath),
    (
        "a path and an empty query",
        "https://a.example/b?",
        UrlFault::HasQuery,
    ),
    (
        "a percent sign alone",
        "https://a.example/%",
        UrlFault::HasEscape,
    ),
    ("a scheme alone", "file:", UrlFault::NoHost),
    ("no scheme", "a.example", UrlFault::NotUrl),
];

/// Whether a row's text names no endpoint, by its fault.
fn is_other(alloc: Global, row: &OtherRow) -> bool {
    match read_endpoint(alloc, row.1) {
        Ok(_) => false,
        Err(fault) => fault == row.2,
    }
}

#[test]
fn an_endpoint_has_no_path(rt: HostRuntime) {
    for row in &OTHERS {
        check(&rt, is_other(rt.alloc(), row), row.0);
    }
}
