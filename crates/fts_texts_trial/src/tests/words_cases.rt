//! Rows of the tests: lists of words, each in one text with single spaces between them, and what they ask for.
use fts_words::Asked;

/// The id 00000000-0000-4000-8000-000000000001.
const ONE: u128 = 0x4000_8000_0000_0000_0001;

/// What the words of a run ask for; none where they are not accepted.
pub const WORDS: &[(&str, Option<Asked>)] = &[
    ("session", Some(Asked::Session)),
    ("show", Some(Asked::Show)),
    ("load --number 7", Some(Asked::Load { number: 7 })),
    ("load", None),
    (
        "serve --port 8080",
        Some(Asked::Serve {
            port: Some(8080),
            lanes: 4,
            connections: None,
        }),
    ),
    (
        "submit --port 8080",
        Some(Asked::Submit {
            port: 8080,
            tries: 3,
        }),
    ),
    (
        "query --port 8080 --job 00000000-0000-4000-8000-000000000001",
        Some(Asked::Query {
            port: 8080,
            job: ONE,
            tries: 3,
        }),
    ),
    ("delete", Some(Asked::Delete)),
    (
        "follow --port 8080",
        Some(Asked::Follow {
            port: 8080,
            tries: 3,
        }),
    ),
    ("submit", None),
    ("follow", None),
    ("delete --port 8080", None),
    ("query --port 8080", None),
    ("query --port 8080 --job 1", None),
    ("", None),
    ("Session", None),
    ("sessions", None),
    ("session session", None),
    ("session --number 7", None),
    ("show --", None),
    ("session --help", None),
    ("--help", None),
    ("--version", None),
    ("-h", None),
    ("help", None),
];

/// What a command's options ask for.
pub const OPTIONS: &[(&str, Option<Asked>)] = &[
    ("load --number 7", Some(Asked::Load { number: 7 })),
    ("load --number=007", Some(Asked::Load { number: 7 })),
    (
        "load --number=00000000000000000000",
        Some(Asked::Load { number: 0 }),
    ),
    (
        "load --number 18446744073709551615",
        Some(Asked::Load {
            number: 18_446_744_073_709_551_615,
        }),
    ),
    // 2 to the 64th; 21 digits; no digit; a sign; no number; twice; none of this command.
    ("load --number 18446744073709551616", None),
    ("load --number=000000000000000000007", None),
    ("load --number=", None),
    ("load --number +7", None),
    ("load --number -7", None),
    ("load --number", None),
    ("load", None),
    ("load --number 1 --number 1", None),
    ("load --number=1 --number=1", None),
    ("load --port 1", None),
    ("load 7", None),
    ("load -number 7", None),
    ("load --number 7 8", None),
    (
        "serve --port 8080",
        Some(Asked::Serve {
            port: Some(8080),
            lanes: 4,
            connections: None,
        }),
    ),
    (
        "serve --port=65535",
        Some(Asked::Serve {
            port: Some(65_535),
            lanes: 4,
            connections: None,
        }),
    ),
    (
        "serve --lanes 8 --port 1",
        Some(Asked::Serve {
            port: Some(1),
            lanes: 8,
            connections: None,
        }),
    ),
    (
        "serve --port=1 --lanes=1",
        Some(Asked::Serve {
            port: Some(1),
            lanes: 1,
            connections: None,
        }),
    ),
    (
        "serve --connections 1000000 --port 1",
        Some(Asked::Serve {
            port: Some(1),
            lanes: 4,
            connections: Some(1_000_000),
        }),
    ),
    (
        "serve --port 1 --lanes=2 --connections 3",
        Some(Asked::Serve {
            port: Some(1),
            lanes: 2,
            connections: Some(3),
        }),
    ),
    (
        "serve --port=1 --connections=3 --lanes 2",
        Some(Asked::Serve {
            port: Some(1),
            lanes: 2,
            connections: Some(3),
        }),
    ),
    (
        "serve --lanes 2 --port 1 --connections 3",
        Some(Asked::Serve {
            port: Some(1),
            lanes: 2,
            connections: Some(3),
        }),
    ),
    (
        "serve --lanes=2 --connections 3 --port=1",
        Some(Asked::Serve {
            port: Some(1),
            lanes: 2,
            connections: Some(3),
        }),
    ),
    (
        "serve --connections 3 --port=1 --lanes 2",
        Some(Asked::Serve {
            port: Some(1),
            lanes: 2,
            connections: Some(3),
        }),
    ),
    (
        "serve --connections=3 --lanes=2 --port 1",
        Some(Asked::Serve {
            port: Some(1),
            lanes: 2,
            connections: Some(3),
        }),
    ),
    ("serve --lanes 2", None),
    ("serve --port 0", None),
    ("serve --port 65536", None),
    ("serve --port 1 --lanes 0", None),
    ("serve --port 1 --lanes 9", None),
    ("serve --port 1 --connections 0", None),
    ("serve --port 1 --connections 1000001", None),
    ("serve --port --lanes=2", None),
    ("serve --port 1 --help", None),
    ("serve --port 1 --", None),
    ("serve --port 1 --tries 3", None),
    (
        "submit --port=1 --tries=1",
        Some(Asked::Submit { port: 1, tries: 1 }),
    ),
    (
        "submit --tries 10 --port 65535",
        Some(Asked::Submit {
            port: 65_535,
            tries: 10,
        }),
    ),
    ("submit --tries 10", None),
    ("submit --port 1 --tries 0", None),
    ("submit --port 1 --tries 11", None),
    ("submit --port 1 --tries", None),
    ("submit --port 1 --tries 1 --tries 1", None),
    (
        "submit --port 1 --job 00000000-0000-4000-8000-000000000001",
        None,
    ),
    ("submit --port 1 --lanes 1", None),
    ("submit --port 1 job.json", None),
    // The four forms of a UUID's text, and digits of either case.
    (
        "query --port 1 --job=00000000-0000-4000-8000-000000000001 --tries 2",
        Some(Asked::Query {
            port: 1,
            job: ONE,
            tries: 2,
        }),
    ),
    (
        "query --job 00000000000040008000000000000001 --tries=2 --port=1",
        Some(Asked::Query {
            port: 1,
            job: ONE,
            tries: 2,
        }),
    ),
    (
        "query --tries 2 --job {00000000-0000-4000-8000-000000000001} --port 1",
        Some(Asked::Query {
            port: 1,
            job: ONE,
            tries: 2,
        }),
    ),
    (
        "query --port 1 --job urn:uuid:00000000-0000-4000-8000-000000000001",
        Some(Asked::Query {
            port: 1,
            job: ONE,
            tries: 3,
        }),
    ),
    (
        "query --port 1 --job fFfFffff-ffff-ffff-ffff-ffffffffffff",
        Some(Asked::Query {
            port: 1,
            job: 0xffff_ffff_ffff_ffff_ffff_ffff_ffff_ffff,
            tries: 3,
        }),
    ),
    // No digit of sixteen; a hyphen first; 35 digits and hyphens; nothing; twice; no port; none of this command.
    (
        "query --port 1 --job 0000000g-0000-4000-8000-000000000001",
        None,
    ),
    (
        "query --port 1 --job -0000000-0000-4000-8000-000000000001",
        None,
    ),
    (
        "query --port 1 --job 00000000-0000-4000-8000-00000000001",
        None,
    ),
    ("query --port 1 --job=", None),
    (
        "query --job 00000000000040008000000000000001 --port 1 --job 00000000000040008000000000000001",
        None,
    ),
    ("query --job 00000000000040008000000000000001", None),
    (
        "query --port 1 --job 00000000000040008000000000000001 --lanes 1",
        None,
    ),
    ("delete", Some(Asked::Delete)),
    ("delete --tries 1", None),
    ("delete 1", None),
    (
        "follow --port=1 --tries 4",
        Some(Asked::Follow { port: 1, tries: 4 }),
    ),
    ("follow --tries 4", None),
    ("follow --port 1 --tries 11", None),
];

/// What words that name paths ask for, and the paths of the socket and of the log.
pub const PATHS: &[(&str, Option<Asked>, Option<&str>, Option<&str>)] = &[
    (
        "serve --socket /run/fts.socket",
        Some(AT_SOCKET),
        Some("/run/fts.socket"),
        None,
    ),
    (
        "serve --socket=/run/fts.socket",
        Some(AT_SOCKET),
        Some("/run/fts.socket"),
        None,
    ),
    (
        "serve --port 8080 --log fts.log",
        Some(AT_PORT),
        None,
        Some("fts.log"),
    ),
    (
        "serve --log=fts.log --port=8080",
        Some(AT_PORT),
        None,
        Some("fts.log"),
    ),
    (
        "serve --log l --lanes 4 --socket s",
        Some(AT_SOCKET),
        Some("s"),
        Some("l"),
    ),
    // A value may have an equals sign, be an option's or a command's name without hyphens, and be of more than seven bits a byte.
    (
        "serve --log=a=b --socket c=d",
        Some(AT_SOCKET),
        Some("c=d"),
        Some("a=b"),
    ),
    (
        "serve --log socket --socket serve",
        Some(AT_SOCKET),
        Some("serve"),
        Some("socket"),
    ),
    (
        "serve --socket ./-s --log=ä",
        Some(AT_SOCKET),
        Some("./-s"),
        Some("ä"),
    ),
    ("serve --port 8080", Some(AT_PORT), None, None),
    (
        "query --port 1 --job 00000000-0000-4000-8000-000000000001",
        Some(ASKED),
        None,
        None,
    ),
];

/// Words that are not accepted, and so have no path.
pub const NO_PATHS: &[&str] = &[
    // A port and a socket, in either order; neither.
    "serve --port 8080 --socket /run/fts.socket",
    "serve --socket=/run/fts.socket --port=8080",
    "serve --log fts.log",
    "serve",
    // Nothing; a zero byte; a hyphen first, as where the value was left out.
    "serve --socket=",
    "serve --socket ",
    "serve --port 1 --log=",
    "serve --port 1 --log ",
    "serve --socket",
    "serve --port 1 --log",
    "serve --socket a\0b",
    "serve --port 1 --log=a\0",
    "serve --socket --log=a",
    "serve --log --port=1 --socket a",
    "serve --socket=-a",
    // Twice; another command's; another name.
    "serve --socket a --socket a",
    "serve --port 1 --log a --log=b",
    "submit --port 1 --socket a",
    "query --socket a --job 00000000-0000-4000-8000-000000000001",
    "follow --port 1 --log a",
    "session --log a",
    "serve --sockets a",
    "serve -socket a",
];

const AT_SOCKET: Asked = Asked::Serve {
    port: None,
    lanes: 4,
    connections: None,
};

const AT_PORT: Asked = Asked::Serve {
    port: Some(8080),
    lanes: 4,
    connections: None,
};

const ASKED: Asked = Asked::Query {
    port: 1,
    job: ONE,
    tries: 3,
};

/// How many bytes a path has behind its option, and whether it is accepted.
pub const LENGTHS: &[(&str, usize, bool)] = &[
    ("--socket=", 1, true),
    ("--socket=", 107, true),
    ("--socket=", 108, false),
    ("--port=1 --log=", 1, true),
    ("--port=1 --log=", 108, true),
    ("--port=1 --log=", 4095, true),
    ("--port=1 --log=", 4096, false),
];
