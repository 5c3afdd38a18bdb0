//! The command `delete`: the input's document is asked for, the files that wait are removed in one pass, and all rows are told.
//! Keeps: the journal's list goes on by one asking at most, and then by one event for each row that waited, in order of id; with status 0 all of it,
//! and the rows written are its fold. With another status it is a beginning of such a list (`run_delete`; `specs/Runs.antt`).
//! Order: the journal is opened before the input is read, the document is read before anything is asked, and rows are written behind the pass.
#![tactic(auto)]

mod asking;
mod ends;
mod notes;
mod running;
mod telling;

pub use ends::DeleteEnd;
pub use notes::send_delete_note;
pub use running::run_delete;
