//! Replies: what each request is answered over the tables, and the command that it makes of them, one at most.
//! Each answer is one function of the tables, the journal's bytes used, the writer, the request and the moment: `said` (`specs/Replies.antt`).
//! Order of checks: the route, its method, the job, the file, the document's or the query's rules, and then what the machine and the journal
//! refuse. The body of a 200 that comes with a command is made before the command is applied.
//! Nothing here knows of sockets, or of where a request ends. Format: docs/FORMATS.md, "HTTP".
#![tactic(auto)]

mod answers;
mod bans;
mod bodies;
mod changes;
mod counts;
mod entries;
mod looks;
mod methods;
mod named;
mod objects;
mod paths;
mod plan;
mod planned;
mod queries;
mod replies;
mod texts;

pub use answers::{answer, answer_read};
pub use bodies::{ReadBody, read_body};
pub use named::{job_named, state_of};
pub use objects::{Shown, array_value, body_of, job_value};
pub use paths::Routes;
pub use queries::{bytes_of, first_value, number_in};
pub use replies::refusal_reply;
pub use texts::{file_state_text, job_state_text, kind_text, reason_text};
