//! The service's log: what is told (`Event`), how a line of it is written (`line_of`), who is told (`Log`), and a file system that tells each
//! call of the system that failed (`LoggedFiles`).
//! `specs/EventLines.antt` says which line each event has, `specs/Quoting.antt` how a name stands in it, so that none can forge a line or a field,
//! and `specs/Moments.antt` how its moment.
//! Nothing here can fail a request: a log gives no answer, and the file system gives the answers of the one below.
#![tactic(auto)]

mod answers;
mod errnos;
mod events;
mod fields;
pub mod laws;
mod lines;
mod logged;
mod moments;
mod outcomes;

pub use events::{EndedCopy, Event, FileCall, LineFault, Log, NoLog};
pub use lines::line_of;
pub use logged::{LoggedFiles, LoggedHandle};
