//! What a journal's entries tell and the tables don't keep: how each copy ended and when, when a file was claimed, reported or asked to be cancelled,
//! when each job was settled, the last moment, and when the last run began.
//! `Chronicle` is what the entries so far told; `specs/Chronicle.antt` says what a list of entries tells.
#![tactic(auto)]

mod chronicle;
mod events;
mod finishes;
pub mod laws;
mod telling;

pub use chronicle::{Chronicle, CopyReport};
pub use events::FileEvent;
