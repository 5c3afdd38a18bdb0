//! Submissions that a keep accepts on a real file, beside the same bytes by the same calls on a plain file, in turns of a batch.
//! Called for `keep apply`.
use super::{settings, started};
use crate::clock;
use crate::entries::{SUBMIT, entry};
use crate::files::{self, FLOOR_PATH, JOURNAL_PATH};
use crate::floor::{self, AROUND_BYTES, BATCH, Side, Times};
use fts_disk::Disk;
use fts_keep::Keep;
use std::io;

/// Has one submission accepted.
fn submit<D: Disk>(rt: &HostRuntime, keep: &mut Keep<D>) -> io::Result<()> {
    match keep.apply(0, entry(rt.alloc(), SUBMIT)?.command) {
        Ok(_) => Ok(()),
        Err(_) => Err(io::Error::other("a submission was not accepted")),
    }
}

impl<D: Disk> Side for Keep<D> {
    /// Submissions.
    fn batch(&mut self, rt: &HostRuntime) -> io::Result<f64> {
        let begun = clock::now(rt);
        for _ in 0..BATCH {
            submit(rt, self)?;
        }
        Ok(clock::now(rt) - begun)
    }
}

/// The seconds that so many submissions of each side take, on new files.
fn time_both(rt: &HostRuntime, count: u32) -> io::Result<Times> {
    let mut keep = started(rt, JOURNAL_PATH, settings(rt.alloc())?)?;
    let file = files::create(rt, FLOOR_PATH)?;
    let piece = [0; SUBMIT.len() + AROUND_BYTES];
    floor::take_turns(rt, &mut keep, &file, count, &piece)
}

/// Prints how many submissions a second are accepted, and how many the calls alone would allow.
pub fn measure(rt: &HostRuntime, count: u32) -> io::Result<()> {
    let _old = files::remove(rt, JOURNAL_PATH);
    let times = time_both(rt, count)?;
    floor::print_rates(rt, "submissions", "keep", count, times)?;
    files::remove(rt, JOURNAL_PATH)?;
    files::remove(rt, FLOOR_PATH)
}
