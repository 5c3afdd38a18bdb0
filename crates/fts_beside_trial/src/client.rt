//! A client that repeats: `repeating`, submissions and queries over links in memory; `commands`, the same as commands; `sids`, own ids; `answers`,
//! what they stand on.

mod answers;
mod commands;
mod repeating;
mod sids;
