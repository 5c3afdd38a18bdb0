//! How a connection ended, whoever answered it, and how a session of one thread did. Which exit status each has is the program's to say.
use fts_workers::RoundEnd;

/// How a connection ended.
#[derive(Clone, Copy, Debug, PartialEq, Eq)]
pub enum LineEnd {
    /// The input ended between requests.
    Closed,
    /// What came was refused with this status.
    Refused { status: u16 },
    /// The input ended inside a request.
    EndsInside,
    /// As many requests were answered as a connection may have.
    Many,
    /// A read failed.
    SourceFailed,
    /// A write failed.
    SinkFailed,
}

/// How a session ended: its connection, and its last round.
#[derive(Clone, Copy, Debug, PartialEq, Eq)]
pub struct SessionEnd {
    pub line: LineEnd,
    pub last: RoundEnd,
}
