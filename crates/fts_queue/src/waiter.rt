//! A file that waits. The words of its order are in `specs/WaitingData.antt`.
use fts_tables::LinkAt;

/// A file that waits: its number, its link, the place of its activity, its job's priority, and the moment from which it may be claimed.
#[derive(Clone, Copy, Debug, PartialEq, Eq)]
pub struct Waiter {
    pub file: u32,
    pub link: LinkAt,
    pub activity: u16,
    pub priority: u32,
    pub not_before: u64,
}
