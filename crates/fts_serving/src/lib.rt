//! What the list that lanes and workers leave together is, once their lock is closed: laws over a run that serves, as `fts_top` says it.
#![tactic(auto)]

pub mod laws;
