//! The bytes of the format that stand for themselves. docs/FORMATS.md, "Journal", has the whole.
//! Behind the header stands, for each body, an open gate, the body's length in four bytes with the least first, and the body; then a
//! gate that isn't open, and after it anything.

/// `FTS3JRN1`: the first bytes of each journal.
pub const HEADER: [u8; 8] = *b"FTS3JRN1";

/// The header and a closed gate: a journal with no body.
pub const NEW_JOURNAL: [u8; 9] = *b"FTS3JRN1\0";

/// The length of the header in bytes, which is the offset of the first gate.
pub const HEADER_BYTES: u64 = 8;

/// The bytes of a gate.
pub const GATE_BYTES: u64 = 1;

/// The bytes of a body's length.
pub const LENGTH_BYTES: u64 = 4;

/// How far behind its gate's offset a body stands: behind the gate and the length.
pub const FRONT_BYTES: u64 = GATE_BYTES + LENGTH_BYTES;

/// The gate before a body that counts.
pub const GATE_OPEN: u8 = 1;

/// The gate that is written behind a body. Each byte but an open gate means the same.
pub const GATE_CLOSED: u8 = 0;
