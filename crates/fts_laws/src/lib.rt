//! Laws of the machine and of the wire: what follows from their definitions, for whoever reasons above them, each of every list, table or input.
//! `attempts`: claims are told from the attempts of the rows. `idle`: a refused claim hides no row that may be claimed. `inputs`: where an input is
//! cut changes no request before the cut. `submissions`: an id that a client gave is submitted once at most.
//! A law is a function without parameters that does nothing: its clauses are what it is for.
//! Cited by fts_top (`attempts`), fts_serving (`idle`) and fts_client (`submissions`). Nothing here runs but `count_attempts`, a sum over rows.
#![tactic(auto)]

mod attempts;
mod idle;
mod inputs;
mod submissions;

pub use attempts::{claims_raise_attempts, count_attempts};
pub use idle::idle_claims_find_none;
pub use inputs::{cut_inputs_keep_their_requests, inputs_are_their_requests};
pub use submissions::{
    jobs_are_those_submitted, one_submission_an_id, submissions_add_up, the_vo_is_the_last_restarts,
};
