//! The tables of `jobdoc`: documents, and how each is answered. Rules and texts are those of the rules' table in `docs/API.md`.
//! A row is a sentence, what is given, and the rule and message of the refusal, or 0 and no text. The examples are those of `examples/`.
/// A sentence, a body, and the rule and message.
pub type BodyCase = (&'static str, &'static str, u32, &'static str);

/// A sentence, two texts, and the rule and message.
pub type PairCase = (&'static str, &'static str, &'static str, u32, &'static str);

/// The digest of `abc` (RFC 1321, A.5).
pub const ABC: [u8; 16] = [
    0x90, 0x01, 0x50, 0x98, 0x3c, 0xd2, 0x4f, 0xb0, 0xd6, 0x96, 0x3f, 0x7d, 0x28, 0xe1, 0x7f, 0x72,
];

pub const ONE_FILE: &str =
    "{\"files\":[{\"sources\":[\"https://a.example/data/f1\"],\"destinations\":[\"https://b.example/f1\"]}]}";

pub const SEVERAL_FILES: &str =
    "{\"files\":[{\"sources\":[\"https://a.example/data/f1\"],\"destinations\":[\"https://b.example/f1\"],\"filesize\":3},\
     {\"sources\":[\"https://a.example/data/f2\"],\"destinations\":[\"https://b.example/f2\"],\"activity\":\"production\"}],\
     \"params\":{\"retry\":3,\"retry_delay\":60,\"priority\":5,\"overwrite\":true}}";

pub const WITH_CHECKSUM: &str =
    "{\"files\":[{\"sources\":[\"https://a.example/data/f1\"],\"destinations\":[\"https://b.example/checked\"],\
     \"checksum\":\"MD5:900150983cd24fb0d6963f7d28e17f72\",\"filesize\":3}],\"params\":{\"verify_checksum\":\"both\"}}";

pub const REPLICAS: &str =
    "{\"files\":[{\"sources\":[\"https://a.example/data/f1\",\"https://a.example/copies/f1\"],\"destinations\":[\"https://b.example/nearest\"],\"selection_strategy\":\"orderly\"}]}";

pub const MULTIHOP: &str =
    "{\"files\":[{\"sources\":[\"https://a.example/data/f1\"],\"destinations\":[\"https://b.example/hop\"]},\
     {\"sources\":[\"https://b.example/hop\"],\"destinations\":[\"https://a.example/back/f1\"]}],\
     \"params\":{\"multihop\":true,\"id_generator\":\"deterministic\",\"sid\":\"f1 there and back\"}}";

/// As clients of the field send it, with every field that they have.
pub const ORDINARY: &str =
    "{\"files\":[{\"sources\":[\"root://a.example:1094//data//f1\"],\"destinations\":[\"https://b.example:443/store/f1\"],\
     \"checksum\":\"ADLER32:0d5e1a2b\",\"filesize\":3,\"metadata\":null,\"activity\":null,\"selection_strategy\":null},\
     {\"sources\":[\"root://a.example:1094//data//f2\"],\"destinations\":[\"https://b.example:443/store/f2\"],\
     \"checksum\":\"ADLER32:0d5e1a2b\",\"filesize\":3,\"metadata\":null,\"activity\":null,\"selection_strategy\":null}],\
     \"params\":{\"verify_checksum\":false,\"reuse\":false,\"spacetoken\":null,\"bring_online\":null,\"copy_pin_lifetime\":-1,\"job_metadata\":null,\
     \"overwrite\":false,\"multihop\":false,\"retry\":-1,\"retry_delay\":0,\"priority\":3,\"max_time_in_queue\":null,\"timeout\":null,\
     \"id_generator\":\"standard\",\"sid\":null}}";

/// Bodies that have not the shape of a document.
pub const BODIES: [BodyCase; 14] = [
    ("a list that doesn't end", "[1", 1, "not JSON"),
    ("a byte order mark", "\u{feff}{\"files\":[]}", 1, "not JSON"),
    (
        "a lone surrogate",
        "{\"files\":[\"\\ud800\"]}",
        1,
        "not JSON",
    ),
    ("a list", "[]", 2, "not an object"),
    ("an empty list of files", "{\"files\":[]}", 3, "no files"),
    (
        "no files, and a number for the parameters: no rule between is broken without files",
        "{\"files\":null,\"params\":3}",
        3,
        "no files",
    ),
    ("an object for the files", "{\"files\":{}}", 3, "no files"),
    (
        "a number for a file: it has no sources either, so rule 5 is never broken alone",
        "{\"files\":[3]}",
        5,
        "file is not an object",
    ),
    (
        "no sources",
        "{\"files\":[{\"sources\":[],\"destinations\":[\"https://b.example/f\"]}]}",
        6,
        "bad sources",
    ),
    (
        "neither sources nor destinations",
        "{\"files\":[{}]}",
        6,
        "bad sources",
    ),
    (
        "null among the sources",
        "{\"files\":[{\"sources\":[null],\"destinations\":[]}]}",
        6,
        "bad sources",
    ),
    (
        "two destinations",
        "{\"files\":[{\"sources\":[\"https://a.example/f\"],\"destinations\":[\"https://b.example/f\",\"https://b.example/g\"]}]}",
        7,
        "bad destinations",
    ),
    (
        "a broken source and no destination",
        "{\"files\":[{\"sources\":[\"f\"],\"destinations\":[]}]}",
        7,
        "bad destinations",
    ),
    (
        "files given twice, of which the last count",
        "{\"files\":3,\"files\":[]}",
        3,
        "no files",
    ),
];

/// A source and a destination.
pub const URLS: [PairCase; 9] = [
    (
        "no host",
        "file:///etc/passwd",
        "https://b.example/f",
        8,
        "bad URL 2",
    ),
    (
        "a query",
        "https://a.example/b?x=1",
        "https://b.example/f",
        8,
        "bad URL 3",
    ),
    (
        "an escape, and a query behind it",
        "https://a.example/x/%2e%2e/b",
        "https://b.example/b?x=1",
        8,
        "bad URL 6",
    ),
    (
        "a user at the destination",
        "https://a.example/f",
        "https://u@b.example/b",
        8,
        "bad URL 5",
    ),
    (
        "a query, and an unknown endpoint",
        "https://c.example/f",
        "https://b.example/f?",
        8,
        "bad URL 3",
    ),
    (
        "an unknown source",
        "https://c.example/f",
        "https://b.example/f",
        9,
        "unknown endpoint",
    ),
    (
        "an unknown endpoint, and a file onto itself",
        "https://c.example/f",
        "https://c.example/f",
        9,
        "unknown endpoint",
    ),
    (
        "one place by two URLs",
        "https://a.example/a/../b",
        "https://a.example:443//b",
        10,
        "same URL",
    ),
    (
        "two places",
        "https://a.example/a/../b",
        "https://b.example:443//b",
        0,
        "",
    ),
];

/// Further fields of one file, and further keys of the document.
pub const FIELDS: [PairCase; 19] = [
    (
        "a file onto itself, and no size",
        ",\"destinations\":[\"https://a.example/f\"],\"filesize\":-1",
        "",
        10,
        "same URL",
    ),
    ("a size below 0", ",\"filesize\":-1", "", 11, "bad filesize"),
    (
        "a size of 2^63",
        ",\"filesize\":9223372036854775808",
        "",
        11,
        "bad filesize",
    ),
    (
        "the greatest size",
        ",\"filesize\":9223372036854775807",
        "",
        0,
        "",
    ),
    (
        "a size of 3.0, and a broken checksum",
        ",\"filesize\":3.0,\"checksum\":5",
        ",\"params\":{\"verify_checksum\":true}",
        11,
        "bad filesize",
    ),
    ("a size of 1e3", ",\"filesize\":1e3", "", 11, "bad filesize"),
    ("a size of -0", ",\"filesize\":-0", "", 11, "bad filesize"),
    (
        "31 digits",
        ",\"checksum\":\"MD5:0123456789abcdef0123456789abcde\"",
        ",\"params\":{\"verify_checksum\":true}",
        12,
        "bad checksum",
    ),
    (
        "31 digits that nobody looks at",
        ",\"checksum\":\"MD5:0123456789abcdef0123456789abcde\"",
        ",\"params\":{\"verify_checksum\":\"none\"}",
        0,
        "",
    ),
    (
        "no algorithm",
        ",\"checksum\":\":0123456789abcdef0123456789abcdef\"",
        ",\"params\":{\"verify_checksum\":\"source\"}",
        12,
        "bad checksum",
    ),
    (
        "no colon, and no strategy",
        ",\"checksum\":\"0123456789abcdef\",\"selection_strategy\":\"best\"",
        ",\"params\":{\"verify_checksum\":\"target\"}",
        12,
        "bad checksum",
    ),
    (
        "an empty checksum",
        ",\"checksum\":\"\"",
        ",\"params\":{\"verify_checksum\":true}",
        0,
        "",
    ),
    (
        "another algorithm",
        ",\"checksum\":\"ADLER32:0d5e1a2b\"",
        ",\"params\":{\"verify_checksum\":true}",
        13,
        "other algorithm",
    ),
    (
        "another algorithm, and no strategy",
        ",\"checksum\":\"ADLER32:0d5e1a2b\",\"selection_strategy\":\"best\"",
        ",\"params\":{\"verify_checksum\":true}",
        13,
        "other algorithm",
    ),
    (
        "no strategy",
        ",\"selection_strategy\":\"best\"",
        "",
        14,
        "bad strategy",
    ),
    (
        "no strategy, and no activity",
        ",\"selection_strategy\":\"best\",\"activity\":5",
        "",
        14,
        "bad strategy",
    ),
    (
        "a number for the activity",
        ",\"activity\":5",
        "",
        15,
        "bad activity",
    ),
    (
        "a number for the activity and for the parameters",
        ",\"activity\":5",
        ",\"params\":5",
        15,
        "bad activity",
    ),
    ("an empty activity", ",\"activity\":\"\"", "", 0, ""),
];

/// The same, for parameters.
pub const PARAMETERS: [PairCase; 31] = [
    (
        "no object",
        "",
        ",\"params\":[]",
        16,
        "params is not an object",
    ),
    ("null", "", ",\"params\":null", 0, ""),
    (
        "11 retries",
        "",
        ",\"params\":{\"retry\":11}",
        17,
        "bad retry",
    ),
    (
        "-2 retries, and no delay",
        "",
        ",\"params\":{\"retry\":-2,\"retry_delay\":-1}",
        17,
        "bad retry",
    ),
    ("-1 retries", "", ",\"params\":{\"retry\":-1}", 0, ""),
    (
        "a delay of more than a day",
        "",
        ",\"params\":{\"retry_delay\":86401}",
        18,
        "bad retry_delay",
    ),
    (
        "no delay, and priority 0",
        "",
        ",\"params\":{\"retry_delay\":\"1\",\"priority\":0}",
        18,
        "bad retry_delay",
    ),
    (
        "priority 6",
        "",
        ",\"params\":{\"priority\":6}",
        19,
        "bad priority",
    ),
    (
        "priority 0, and a verification",
        "",
        ",\"params\":{\"priority\":0,\"verify_checksum\":\"yes\"}",
        19,
        "bad priority",
    ),
    (
        "a priority given twice, of which the last counts",
        "",
        ",\"params\":{\"priority\":6,\"priority\":5}",
        0,
        "",
    ),
    (
        "a verification",
        "",
        ",\"params\":{\"verify_checksum\":\"yes\"}",
        20,
        "bad verify_checksum",
    ),
    (
        "a verification, and reuse",
        "",
        ",\"params\":{\"verify_checksum\":1,\"reuse\":true}",
        20,
        "bad verify_checksum",
    ),
    (
        "reuse",
        "",
        ",\"params\":{\"reuse\":true,\"bring_online\":1}",
        21,
        "not offered: reuse",
    ),
    (
        "reuse by another word",
        "",
        ",\"params\":{\"reuse\":\"Y\"}",
        0,
        "",
    ),
    (
        "bring_online",
        "",
        ",\"params\":{\"copy_pin_lifetime\":1,\"bring_online\":1}",
        21,
        "not offered: bring_online",
    ),
    (
        "copy_pin_lifetime",
        "",
        ",\"params\":{\"copy_pin_lifetime\":1}",
        21,
        "not offered: copy_pin_lifetime",
    ),
    (
        "archive_timeout",
        "",
        ",\"params\":{\"archive_timeout\":1}",
        21,
        "not offered: archive_timeout",
    ),
    (
        "none of them",
        "",
        ",\"params\":{\"reuse\":false,\"bring_online\":0,\"copy_pin_lifetime\":-1,\"archive_timeout\":\"1\"}",
        0,
        "",
    ),
    (
        "another generator",
        "",
        ",\"params\":{\"id_generator\":\"random\"}",
        24,
        "bad sid",
    ),
    (
        "no sid",
        "",
        ",\"params\":{\"id_generator\":\"deterministic\",\"sid\":\"\"}",
        24,
        "bad sid",
    ),
    (
        "a sid that nobody looks at",
        "",
        ",\"params\":{\"id_generator\":\"standard\",\"sid\":3}",
        0,
        "",
    ),
    (
        "archive_timeout, and more hours in the queue than a year has",
        "",
        ",\"params\":{\"archive_timeout\":1,\"max_time_in_queue\":8761}",
        21,
        "not offered: archive_timeout",
    ),
    (
        "no sid, and more hours in the queue than a year has",
        "",
        ",\"params\":{\"id_generator\":\"deterministic\",\"max_time_in_queue\":8761}",
        24,
        "bad sid",
    ),
    (
        "more hours in the queue than a year has",
        "",
        ",\"params\":{\"max_time_in_queue\":8761}",
        29,
        "bad max_time_in_queue",
    ),
    (
        "-2 hours in the queue",
        "",
        ",\"params\":{\"max_time_in_queue\":-2}",
        29,
        "bad max_time_in_queue",
    ),
    (
        "half an hour in the queue",
        "",
        ",\"params\":{\"max_time_in_queue\":0.5}",
        29,
        "bad max_time_in_queue",
    ),
    (
        "a text for the hours in the queue",
        "",
        ",\"params\":{\"max_time_in_queue\":\"1\"}",
        29,
        "bad max_time_in_queue",
    ),
    (
        "a time in the queue with its unit",
        "",
        ",\"params\":{\"max_time_in_queue\":\"10s\"}",
        29,
        "bad max_time_in_queue",
    ),
    (
        "as many hours in the queue as a year has",
        "",
        ",\"params\":{\"max_time_in_queue\":8760}",
        0,
        "",
    ),
    (
        "0 hours in the queue",
        "",
        ",\"params\":{\"max_time_in_queue\":0}",
        0,
        "",
    ),
    (
        "no hours in the queue, by null",
        "",
        ",\"params\":{\"max_time_in_queue\":null}",
        0,
        "",
    ),
];

/// A sentence, the hours in the queue as a document gives them, and those that the job has: 0 is no limit.
pub const HOURS: [(&str, &str, u32); 6] = [
    ("an hour", "1", 1),
    ("a year", "8760", 8_760),
    ("none", "0", 0),
    ("none, by -1", "-1", 0),
    ("none, by null", "null", 0),
    (
        "a number given twice, of which the last counts",
        "1,\"max_time_in_queue\":2",
        2,
    ),
];

/// A sentence, a body, and the storage and whether its files are cancelled, or the rule and message of the refusal.
pub type BanCase = (
    &'static str,
    &'static str,
    (&'static str, bool),
    (u32, &'static str),
);

/// Bodies of bans.
pub const BANS: [BanCase; 20] = [
    (
        "a storage alone: its files are cancelled",
        "{\"storage\":\"https://b.example\"}",
        ("https://b.example", true),
        (0, ""),
    ),
    (
        "files that wait",
        "{\"status\":\"wait\",\"storage\":\"https://b.example\"}",
        ("https://b.example", false),
        (0, ""),
    ),
    (
        "files that are cancelled",
        "{\"status\":\"cancel\",\"storage\":\"https://b.example\"}",
        ("https://b.example", true),
        (0, ""),
    ),
    (
        "null is no status",
        "{\"status\":null,\"storage\":\"https://b.example\"}",
        ("https://b.example", true),
        (0, ""),
    ),
    (
        "fields that are passed over",
        "{\"allow_submit\":true,\"message\":\"power\",\"storage\":\"https://b.example\",\"timeout\":60}",
        ("https://b.example", true),
        (0, ""),
    ),
    (
        "capitals, the scheme's own port and a slash",
        "{\"storage\":\"HTTPS://B.EXAMPLE:443/\"}",
        ("https://b.example", true),
        (0, ""),
    ),
    (
        "a storage that no settings list",
        "{\"storage\":\"root://z.example:1094\"}",
        ("root://z.example:1094", true),
        (0, ""),
    ),
    ("no JSON", "{", ("", false), (1, "not JSON")),
    ("nothing", "", ("", false), (1, "not JSON")),
    ("a list", "[]", ("", false), (2, "not an object")),
    ("no storage", "{}", ("", false), (27, "bad storage")),
    (
        "null is no storage",
        "{\"storage\":null}",
        ("", false),
        (27, "bad storage"),
    ),
    (
        "a number for the storage",
        "{\"storage\":1}",
        ("", false),
        (27, "bad storage"),
    ),
    (
        "a storage that is no URL",
        "{\"storage\":\"b.example\"}",
        ("", false),
        (27, "bad storage"),
    ),
    (
        "a storage with a path",
        "{\"storage\":\"https://b.example/f\"}",
        ("", false),
        (27, "bad storage"),
    ),
    (
        "no storage, and another status",
        "{\"status\":\"drop\"}",
        ("", false),
        (27, "bad storage"),
    ),
    (
        "another status",
        "{\"status\":\"drop\",\"storage\":\"https://b.example\"}",
        ("", false),
        (28, "bad status"),
    ),
    (
        "a status in capitals",
        "{\"status\":\"WAIT\",\"storage\":\"https://b.example\"}",
        ("", false),
        (28, "bad status"),
    ),
    (
        "an empty status",
        "{\"status\":\"\",\"storage\":\"https://b.example\"}",
        ("", false),
        (28, "bad status"),
    ),
    (
        "a flag for the status",
        "{\"status\":false,\"storage\":\"https://b.example\"}",
        ("", false),
        (28, "bad status"),
    ),
];

/// The end of a file, and another one with two sources.
const AND_REPLICAS: &str =
    "},{\"sources\":[\"https://a.example/f\",\"https://a.example/g\"],\"destinations\":[\"https://b.example/f\"]";

/// Two files, of which the second has two sources.
pub const REPLICAS_OF_ONE: [PairCase; 4] = [
    (
        "a number for the parameters, and replicas of one of two files: no rule between is broken without parameters",
        AND_REPLICAS,
        ",\"params\":5",
        16,
        "params is not an object",
    ),
    (
        "replicas of one of two files",
        AND_REPLICAS,
        ",\"params\":{}",
        22,
        "replicas need one file",
    ),
    (
        "replicas of one of two hops",
        AND_REPLICAS,
        ",\"params\":{\"multihop\":true}",
        22,
        "replicas need one file",
    ),
    (
        "replicas of one of two files, and reuse",
        AND_REPLICAS,
        ",\"params\":{\"reuse\":true}",
        21,
        "not offered: reuse",
    ),
];

/// Bodies of several files.
pub const KINDS: [BodyCase; 7] = [
    (
        "a broken URL of the second file, and no size of the first",
        "{\"files\":[{\"sources\":[\"https://a.example/f\"],\"destinations\":[\"https://b.example/f\"],\"filesize\":-1},\
         {\"sources\":[\"f\"],\"destinations\":[\"https://b.example/f\"]}],\"params\":{}}",
        8,
        "bad URL 1",
    ),
    (
        "another algorithm of the first file, and no checksum of the second",
        "{\"files\":[{\"sources\":[\"https://a.example/f\"],\"destinations\":[\"https://b.example/f\"],\"checksum\":\"ADLER32:0d5e1a2b\"},\
         {\"sources\":[\"https://a.example/f\"],\"destinations\":[\"https://b.example/f\"],\"checksum\":\"0\"}],\
         \"params\":{\"verify_checksum\":true}}",
        12,
        "bad checksum",
    ),
    (
        "replicas of a hop",
        "{\"files\":[{\"sources\":[\"https://a.example/f\",\"https://a.example/g\"],\"destinations\":[\"https://b.example/f\"]}],\"params\":{\"multihop\":true}}",
        23,
        "bad multihop",
    ),
    (
        "a chain by two URLs",
        "{\"files\":[{\"sources\":[\"https://a.example/f\"],\"destinations\":[\"https://b.example/f\"]},\
         {\"sources\":[\"https://b.example:443//f\"],\"destinations\":[\"https://a.example/g\"]}],\"params\":{\"multihop\":true}}",
        0,
        "",
    ),
    (
        "no chain",
        "{\"files\":[{\"sources\":[\"https://b.example:443//f\"],\"destinations\":[\"https://a.example/g\"]},\
         {\"sources\":[\"https://b.example:443//f\"],\"destinations\":[\"https://a.example/g\"]}],\"params\":{\"multihop\":true}}",
        23,
        "bad multihop",
    ),
    (
        "no chain, and no sid",
        "{\"files\":[{\"sources\":[\"https://b.example:443//f\"],\"destinations\":[\"https://a.example/g\"]},\
         {\"sources\":[\"https://b.example:443//f\"],\"destinations\":[\"https://a.example/g\"]}],\"params\":{\"multihop\":true,\"id_generator\":3}}",
        23,
        "bad multihop",
    ),
    (
        "no chain where none is wanted",
        "{\"files\":[{\"sources\":[\"https://b.example:443//f\"],\"destinations\":[\"https://a.example/g\"]},\
         {\"sources\":[\"https://b.example:443//f\"],\"destinations\":[\"https://a.example/g\"]}],\"params\":{\"multihop\":\"true\"}}",
        0,
        "",
    ),
];

/// A sentence, an example, and its kind, strategy, priority, retries and delay, and then its files.
pub const EXAMPLES: [(&str, &str, &str); 6] = [
    (
        "one file",
        ONE_FILE,
        "Plain Auto 3 0 0\n0 https://a.example/data/f1 https://b.example/f1 0 default\n",
    ),
    (
        "two files",
        SEVERAL_FILES,
        "Plain Auto 5 3 60\n0 https://a.example/data/f1 https://b.example/f1 3 default\n1 https://a.example/data/f2 https://b.example/f2 0 production\n",
    ),
    (
        "a digest to be verified",
        WITH_CHECKSUM,
        "Plain Auto 3 0 0\n0 https://a.example/data/f1 https://b.example/checked 3 default\n",
    ),
    (
        "two replicas",
        REPLICAS,
        "Replica Orderly 3 0 0\n0 https://a.example/data/f1 https://b.example/nearest 0 default\n0 https://a.example/copies/f1 https://b.example/nearest 0 default\n",
    ),
    (
        "two hops",
        MULTIHOP,
        "Multihop Auto 3 0 0\n0 https://a.example/data/f1 https://b.example/hop 0 default\n1 https://b.example/hop https://a.example/back/f1 0 default\n",
    ),
    (
        "every field that clients send",
        ORDINARY,
        "Plain Auto 3 0 0\n0 root://a.example:1094/data/f1 https://b.example/store/f1 3 default\n1 root://a.example:1094/data/f2 https://b.example/store/f2 3 default\n",
    ),
];

/// A sentence, a body, the priority, and the rule and message.
pub const PRIORITIES: [(&str, &str, (u32, u32, &str)); 8] = [
    ("priority 5", "{\"params\":{\"priority\":5}}", (5, 0, "")),
    (
        "priority 6",
        "{\"params\":{\"priority\":6}}",
        (0, 19, "bad priority"),
    ),
    ("no priority", "{\"params\":{}}", (0, 19, "bad priority")),
    ("no parameters", "{}", (0, 19, "bad priority")),
    (
        "null for the priority",
        "{\"params\":{\"priority\":null}}",
        (0, 19, "bad priority"),
    ),
    (
        "a list for the parameters",
        "{\"params\":[]}",
        (0, 16, "params is not an object"),
    ),
    ("a number", "5", (0, 2, "not an object")),
    ("nothing", "", (0, 1, "not JSON")),
];
