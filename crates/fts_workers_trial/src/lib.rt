//! What no clause says of workers: that each call succeeds with ample memory, that the definitions mean what an operator expects, and that threads get on.
//! Modules: `rounds`, one thread by worked rows; `threads`, workers, their lock and its passes to their end.
//! Tests stand here and not in the crates, so that a changed row builds no library again.
#![tactic(auto)]

#[cfg(test)]
mod rounds;
#[cfg(test)]
mod threads;
