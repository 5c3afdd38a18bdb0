//! A client that repeats: it submits a document, or asks for a job, in a number of tries, each over a line of its own, until it is answered.
//! Keeps: each try writes one and the same request, whole before it reads, and hands its line back (`try_once`); the last try decides how a call
//! ends (`submit`, `query`); and a document with an own id makes one job, however often it is sent and whatever fails (`worlds`).
//! Which link is real, and what the service replies, are not known here.
#![tactic(auto)]

mod ends;
mod hearing;
mod link;
mod memory_link;
mod querying;
mod repeating;
mod requests;
mod submitting;
mod tries;
mod worlds;

pub use ends::{QueryEnd, SubmitEnd};
pub use hearing::read_value;
pub use link::{Link, LinkFailed};
pub use memory_link::MemoryLink;
pub use querying::query;
pub use submitting::submit;
pub use tries::{Tried, each_try_is_a_dial, try_once};
pub use worlds::{
    a_repeated_submission_acts_once, the_client_knows_what_it_heard, tries_tell_of_their_job,
};
