//! The commands of a client: `submit`, which sends the input's document to a service, and `query`, which asks it for a job.
//! Keeps: with status 0 the command's output is written whole, and with another one a part of it at most; each end of the tries has its own status
//! and note (`run_submit`, `run_query`; `specs/Runs.antt`). Neither reads settings or a disk.
//! Order of a submission: the document is read whole, and its own id looked at, before a connection is made; the id is written behind the last try.
#![tactic(auto)]

mod ends;
mod notes;
mod querying;
mod submitting;
mod tells;

pub use ends::ClientEnd;
pub use notes::send_client_note;
pub use querying::run_query;
pub use submitting::run_submit;
