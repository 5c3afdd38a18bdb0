//! The events of deletions: what the journal keeps, one a body.
use fts_tables::{Items, Place};

/// What was asked for, or what a pass over the store came to.
#[derive(Drop)]
pub enum Event {
    /// The files at these places are to be deleted.
    Ask { places: Items<Place> },
    /// The store held no file at the place of the row of this id.
    Gone { id: u32 },
    /// It may hold one: the pass missed it.
    Missed { id: u32 },
}
