//! What no clause says of entries, the journal and the keep: that each call succeeds with ample memory, over memory and over real files, and what a
//! start finds behind each failing call and each stop. A module a crate: `record`, `journal`, `keep`; and `ends`, of both limits.
//! Tests stand here and not in the crates, so that a changed row builds no library again, and many tests share one check.
#![tactic(auto)]

#[cfg(test)]
mod tests;
