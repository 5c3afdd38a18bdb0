//! Deletions that are recorded only when the file is gone.
//! What is asked for, and what each pass over a store came to, is a list of events in a journal of its own; the rows are its fold
//! (`specs/Rows.antt`). `Deletes` is that list on a disk, `specs/Passed.antt` says what a pass asks of a store and what it may record.
//! Nothing here knows of transfers.
#![tactic(auto)]

mod asking;
mod deletes;
mod document;
mod events;
mod fault;
mod folding;
pub mod laws;
mod limits;
mod looking;
mod opening;
mod reading;
mod recording;
mod rows;
mod spelling;
mod taking;
mod visits;
mod walking;

pub use deletes::Deletes;
pub use document::{DeleteDocFault, read_deletes};
pub use fault::DeleteFault;
pub use limits::{MAX_ASKED, MAX_DELETE_ROWS};
pub use rows::{DeleteRow, DeleteState};
