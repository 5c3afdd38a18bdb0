//! The tests, a module a crate; `ends` has both limits, `entries` what keeps share.

mod ends;
mod entries;
mod growing;
mod journal;
mod keep;
mod record;
