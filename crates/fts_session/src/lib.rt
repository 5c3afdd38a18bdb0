//! One connection, whoever answers it, and a session of one thread: its requests over a keep, one after another, each followed by a round of
//! copies, and the rounds at its end.
//! Keeps: what is written are the responses of the requests that stand whole in what was read, in their order (`specs/Connections.antt`); a session
//! is a walk over the list of the keep (`run_session`, clause `session`; `specs/Sessions.antt`).
//! What a request is answered is fts_routes', what comes next in the bytes is fts_wire's, and a round is fts_workers'.
#![tactic(auto)]

mod ends;
mod responding;
mod session;

pub use ends::{LineEnd, SessionEnd};
pub use responding::{refuse, respond};
pub use session::{Working, run_session};
