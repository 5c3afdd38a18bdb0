//! The files that wait, in line for their destinations: the first file of a queue that may start is found by one look, however many files wait for busy ones.
//! `Line` keeps one set of them all (`fts_heads`): those whose moment has come with their destinations, and the others by their moments (`IsLine`).
//! For `fts_claims`. Links, activities and destinations are numbers here: it knows nothing of rows, slots and states.
#![tactic(auto)]

mod key;
mod line;
mod moves;

pub use line::Line;
