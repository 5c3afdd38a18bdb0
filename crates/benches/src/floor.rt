//! The floor of what is appended to a journal: the same calls on a plain file, two positioned writes and two fdatasyncs each, in the same run.
//! It has no lock, no check, no copy and no zeros ahead, so its file grows each time.
//! Both sides write to files in the folder where it runs, and take turns in batches, so that the device's moods fall on both.
use crate::clock;
use std::fs::File;
use std::io;
use std::os::unix::fs::FileExt;

/// Each side makes so many appends before the other goes on.
pub const BATCH: u32 = 50;

/// How many bytes an append takes beside its body: its length in four, and its gate.
pub const AROUND_BYTES: usize = 5;

/// What is measured beside the floor.
pub trait Side {
    /// The seconds that a batch of its calls takes.
    fn batch(&mut self, rt: &HostRuntime) -> io::Result<f64>;
}

/// The seconds that each side took.
#[derive(Clone, Copy)]
pub struct Times {
    pub ours: f64,
    pub floor: f64,
}

/// Writes a piece behind a gate, and the gate, each made stable.
fn write_piece(file: &File, at: u64, piece: &[u8]) -> io::Result<()> {
    file.write_all_at(piece, at.wrapping_add(1))?;
    file.sync_data()?;
    file.write_all_at(&[1], at)?;
    file.sync_data()
}

/// The seconds that a batch takes, by its number from 0; a piece is what stands behind a gate, with the next gate.
fn batch(rt: &HostRuntime, file: &File, number: u32, piece: &[u8]) -> io::Result<f64> {
    let begun = clock::now(rt);
    for place in 0..BATCH {
        let before = u64::from(number) * u64::from(BATCH) + u64::from(place);
        write_piece(file, before.wrapping_mul(piece.len() as u64), piece)?;
    }
    Ok(clock::now(rt) - begun)
}

/// The seconds that so many calls of each side take, in turns; a piece is what stands for a call on the floor.
pub fn take_turns<S: Side>(
    rt: &HostRuntime,
    side: &mut S,
    file: &File,
    count: u32,
    piece: &[u8],
) -> io::Result<Times> {
    let (mut ours, mut floor) = (0.0, 0.0);
    for number in 0..count / BATCH {
        floor += batch(rt, file, number, piece)?;
        ours += side.batch(rt)?;
    }
    Ok(Times { ours, floor })
}

/// Prints how many calls a second each side made, and their ratio.
pub fn print_rates(
    rt: &HostRuntime,
    calls: &str,
    side: &str,
    count: u32,
    times: Times,
) -> io::Result<()> {
    let ours = f64::from(count) / times.ours;
    let least = f64::from(count) / times.floor;
    println!(rt;
        "{calls} a second: {side} {ours:.0}, floor {least:.0}, {:.0} % of the floor",
        100.0 * ours / least
    )
}
