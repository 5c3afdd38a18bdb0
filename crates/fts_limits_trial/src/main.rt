//! The service's state machine and its journal at their greatest tables, with ample memory: settings, jobs, rows, claims, reports, a list, a second start.
//! Want of memory is the one answer that contracts leave free, so a body that answers it too early is met only by running.
//! Each line says what was counted behind its step, and each number follows from the limits by hand (`README.md` has the sums).
//! Order: the start under the greatest settings; jobs that are copied before anything else waits; jobs up to the last one and rows up to the last one;
//! changes over them; looks; a second start over the journal.
#![tactic(auto)]

mod changes;
mod commands;
mod counts;
mod filling;
mod large_jobs;
mod looks;
mod starts;
mod texts;

use std::io;

fn main(rt: HostRuntime) -> io::Result<()> {
    let Some(mut keep) = starts::first(&rt)? else {
        return Ok(());
    };
    large_jobs::play_all(&rt, &mut keep)?;
    filling::play_all(&rt, &mut keep)?;
    changes::play_all(&rt, &mut keep)?;
    looks::play_all(&rt, &mut keep)?;
    starts::again(&rt, keep)
}
