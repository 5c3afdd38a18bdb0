//! The rows of deletions.
use fts_tables::Place;

/// How far a deletion is.
#[derive(Clone, Copy, Debug, PartialEq, Eq)]
pub enum DeleteState {
    /// The file may be there.
    Waiting,
    /// The store held no file there.
    Finished,
    /// Three passes missed the file.
    Failed,
}

/// A file that is to be deleted.
#[derive(Drop)]
pub struct DeleteRow {
    /// From 1 on, in the order of asking.
    pub id: u32,
    pub place: Place,
    pub state: DeleteState,
    /// How many passes missed the file.
    pub missed: u32,
}
