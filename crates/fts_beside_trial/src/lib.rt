//! What no clause says of what stands beside the service: that each call succeeds with ample memory, what comes of answers that are hostile, cut or
//! late and of calls that fail, and that bytes are those that are written down. Modules: `client`, a client that repeats and its commands; `standby`,
//! following; `delete`, deletions; `log`, the lines that an operator reads; `monitor`, what a monitor answers.
//! They are one crate because what lies below a trial costs more to read than its rows, and apart from the crates that they try so that a changed row
//! builds no library again.
#![tactic(auto)]

#[cfg(test)]
mod client;
#[cfg(test)]
mod delete;
#[cfg(test)]
mod log;
#[cfg(test)]
mod monitor;
#[cfg(test)]
mod standby;
