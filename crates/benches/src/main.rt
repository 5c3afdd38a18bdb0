//! Measurements of the service's parts, a module each. The first word names one, and those behind it are its own: `rt run -- claims measure`.
//! Without a word behind the name, and for a name that no measurement has, it prints nothing and ends, so that it runs alike each time.
//! What each prints and how it is measured stands in `README.md`; results with their machine and date in `docs/BENCHMARKS.md`.
#![tactic(auto)]

mod claims;
mod clock;
mod config;
mod copy;
mod documents;
mod entries;
mod files;
mod floor;
mod journal;
mod keep;
mod record;
mod turnstile;

use std::sync::Wait;
use std::thread::Threads;
use std::time::{Clock, CpuClock};
use std::{env, io};

/// The words of the command line, with the program's name first.
fn command_line(rt: &HostRuntime) -> io::Result<Vec<String>> {
    let mut line = Vec::new(rt.alloc());
    for word in env::args(rt)? {
        line.push(word)?;
    }
    Ok(line)
}

/// Makes the measurement of a name.
fn measure<R: Threads + Wait + Clock + CpuClock + Print + Sync>(
    rt: &HostRuntime,
    threads: &R,
    name: &str,
    words: &[String],
) -> io::Result<()> {
    match name {
        "claims" => claims::measure(rt),
        "config" => config::measure(rt),
        "copy" => copy::measure(rt, words),
        "documents" => documents::measure(rt),
        "journal" => journal::measure(rt, words),
        "keep" => keep::measure(rt, words),
        "record" => record::measure(rt),
        "waits" => claims::measure_waits(rt),
        "turnstile" => turnstile::measure(threads, rt.alloc()),
        _ => Ok(()),
    }
}

/// Makes the measurement that a command line asks for.
fn measure_asked<R: Threads + Wait + Clock + CpuClock + Print + Sync>(
    rt: &HostRuntime,
    threads: &R,
) -> io::Result<()> {
    match command_line(rt)?.as_slice() {
        [_, name, words @ ..] if !words.is_empty() => measure(rt, threads, name.as_str(), words),
        _ => Ok(()),
    }
}

fn main(rt: HostRuntime) -> io::Result<()> {
    measure_asked(&rt, &rt)
}
