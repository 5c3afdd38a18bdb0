//! What a monitor counts the same way wherever it shows it: jobs and rows by their states, the bytes and the words of outcomes, and where names stand among
//! the listed endpoints. `specs/` says what each is.
#![tactic(auto)]

mod active;
mod jobs;
mod listed;
mod outcomes;
mod rows;

pub use active::{active_rows, from_endpoint, to_endpoint};
pub use jobs::{job_states, jobs_in};
pub use listed::{endpoints_of, links_of, place_among};
pub use outcomes::{bytes_by, outcome_word, size_of};
pub use rows::{is_in, rows_in};
