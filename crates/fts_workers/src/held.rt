//! A file that a bench holds: it is claimed, and it is copied or its copy waits to be reported.
use fts_tables::Outcome;

/// A claimed file, the attempt of its claim, and how its copy ended, where it did and that isn't reported.
#[derive(Clone, Copy, Debug, PartialEq, Eq)]
pub struct Held {
    pub file: u32,
    pub attempt: u32,
    pub outcome: Option<Outcome>,
}
