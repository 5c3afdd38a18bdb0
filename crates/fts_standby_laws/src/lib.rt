//! What holds of a standby that follows this service: its list begins the service's, whatever fails, and where it caught up it has all that was there.
//! `fts_standby` has it of any responses that a primary made; here the answers are those of `fts_routes`, and nothing is assumed of them.
//! A law is a function without parameters that does nothing: its clauses speak of every call. Nothing calls them; they stand above what they speak of.
#![tactic(auto)]

mod serving;

pub use serving::{
    a_request_is_read_as_it_was_sent, answers_are_of_a_world, following_a_service_begins_its_list,
    what_is_answered_is_a_reply,
};
