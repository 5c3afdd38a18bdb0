//! The command `follow`: a stand's journal takes the entries of another service's list that it lacks, and it is printed where that came to.
//! Keeps: with status 0 the line is written whole, and with another status a part of it at most; each end of following has its own status and note
//! (`run_follow`; `specs/Runs.antt`). It reads no settings.
//! Order: memory for answers, the journal, following, the line.
#![tactic(auto)]

mod ends;
pub mod laws;
mod notes;
mod opening;
mod running;

pub use ends::FollowRunEnd;
pub use notes::send_follow_note;
pub use running::run_follow;
