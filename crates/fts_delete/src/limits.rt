//! The limits of deletions. Each is itself allowed.

/// At most this many rows.
pub const MAX_DELETE_ROWS: usize = 100_000;

/// From 1 to this many places in one asking.
pub const MAX_ASKED: usize = 200;
