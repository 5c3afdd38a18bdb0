//! What no clause says of texts and bytes from outside: that each call succeeds with ample memory, and that the definitions mean what clients and
//! operators write, by worked rows, hostile inputs and digests of other programs. A module a crate: `joburl`, `config`, `jobdoc`, `load`, `words`;
//! of `fts_wire` there are `wire` (requests), `wire_responses`, `wire_readers`, `answers` and `interrupts`.
//! Tests stand here and not in the crates, so that a changed row builds no library again, and many tests share one check.
#![tactic(auto)]

#[cfg(test)]
mod tests;
