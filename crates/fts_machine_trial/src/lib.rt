//! The transfer machine a second time, plain and slow, read off the rules of the service and not off the definitions of `fts_tables`.
//! Endpoints, paths and activities are small numbers here; each count is a walk over all rows, each choice a walk over all candidates.
//! The tests drive it and a `Desk` through the same generated commands, and compare answers and tables after each. So a slip in the
//! definitions themselves, which every proof above them would keep, shows. All of it stands with the tests, so that it is proved once.
#![tactic(auto)]

#[cfg(test)]
mod tests;
