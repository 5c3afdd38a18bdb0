//! The measurement of hostile settings texts: each is read eight times, and the shortest time counts.
mod texts;

use crate::clock;
use fts_config::read_settings;
use std::alloc::Global;
use std::io;
use texts::{Crowd, crowded};

/// About half of the longest text, in bytes.
const HALF: usize = 520_000;

/// What the texts have many of.
const CROWDS: [(&str, Crowd); 4] = [
    ("storages", Crowd::Storages),
    ("storages with long names", Crowd::LongStorages),
    ("links", Crowd::Links),
    ("keys that are passed over", Crowd::Keys),
];

/// How many seconds it takes to read a text, at the least.
fn seconds(rt: &HostRuntime, text: &str) -> f64 {
    let mut least = f64::INFINITY;
    for _ in 0..8 {
        let begun = clock::now(rt);
        let _ = read_settings(rt.alloc(), text.as_bytes());
        least = least.min(clock::now(rt) - begun);
    }
    least
}

/// The first rule that a text breaks, and 0 where it breaks none.
fn rule(alloc: Global, text: &str) -> u32 {
    match read_settings(alloc, text.as_bytes()) {
        Ok(_) => 0,
        Err(fault) => fault.rule(),
    }
}

/// Prints the bytes, the milliseconds and the rule of a text, and the ratio of its time to that of half of it.
fn print_times(rt: &HostRuntime, name: &str, half: &str, whole: &str) -> io::Result<()> {
    let first = seconds(rt, half);
    let second = seconds(rt, whole);
    println!(rt;
        "{name}: {} bytes, rule {}, {:.1} ms, ratio {:.2}",
        whole.len(),
        rule(rt.alloc(), whole),
        1000.0 * second,
        second / first
    )
}

/// Prints the times of each crowd.
pub fn measure(rt: &HostRuntime) -> io::Result<()> {
    for (name, crowd) in CROWDS {
        let half = crowded(rt.alloc(), crowd, HALF)?;
        let whole = crowded(rt.alloc(), crowd, 2 * HALF)?;
        print_times(rt, name, half.as_str(), whole.as_str())?;
    }
    Ok(())
}
