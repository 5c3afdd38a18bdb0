//! The measurement of the desk: how long claims, reports, cancellations and submissions take.
mod commands;
mod submissions;
mod waiting;
mod waits;

use std::io;

/// Prints the times of commands while files wait, and then of submissions.
pub fn measure(rt: &HostRuntime) -> io::Result<()> {
    commands::measure(rt)?;
    submissions::measure(rt)
}

/// Prints what hours in the queue, expiries and bans add to claims.
pub fn measure_waits(rt: &HostRuntime) -> io::Result<()> {
    waits::measure(rt)
}
