//! What no clause says of the machine's parts: that each call succeeds with ample memory, and that the definitions give what operators expect, by
//! worked rows. A module a crate: `tables`, `choice`, `slots`, `states`, `index`, `heads`, `line`, and `sets` of `ordered`; `made` has what
//! several are made of.
//! Tests stand here and not in the crates, so that a changed row builds no library again, and many tests share one check.
#![tactic(auto)]

#[cfg(test)]
mod tests;
