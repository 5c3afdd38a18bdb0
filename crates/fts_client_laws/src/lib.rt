//! What holds of a client that repeats its submission to this service: its document makes one job, however often it is sent and whatever fails.
//! `fts_client` has it over any service; here the service is the one of `fts_routes`, and no assumption is left.
//! A law is a function without parameters that does nothing: its clauses speak of every run. Nothing calls them; they stand above what they speak of.
#![tactic(auto)]

mod submitting;

pub use submitting::{
    a_submission_is_read_as_it_was_sent, a_submission_makes_one_job,
    a_submission_that_is_done_made_one_job, replies_name_the_job,
};
