//! A standby: a journal that follows another one's list, entry by entry.
//! `specs/Worlds.antt` says what may happen to a primary and its standby, and `laws.rt` what holds whatever happens: the standby's list begins the
//! primary's, and so does each image of its disk. `following.rt` is the call that follows, `asking.rt` its tries for one entry, and `hearing.rt` what
//! it takes from an answer.
#![tactic(auto)]

mod asking;
mod ends;
mod following;
mod hearing;
pub mod laws;

pub use ends::FollowEnd;
pub use following::follow;
pub use hearing::{Heard, hear};
