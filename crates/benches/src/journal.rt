//! The measurement of the journal's appends beside the floor of the same calls: `journal 500` makes 500 appends of each.
//! `journal append PATH COUNT` and `journal list PATH` make a journal of numbered bodies and print those of one, for `acceptance/failing-disk.sh`.
use crate::clock;
use crate::files::{self, FLOOR_PATH, HostDisk, JOURNAL_PATH};
use crate::floor::{self, AROUND_BYTES, BATCH, Side, Times};
use fts_disk::Disk;
use fts_journal::Journal;
use std::io;

/// The bytes of a body: about an entry of the service.
const BODY: [u8; 200] = [7; 200];

/// An empty journal in a file.
fn new_journal<'a>(rt: &'a HostRuntime, path: &str) -> io::Result<Journal<HostDisk<'a>>> {
    match Journal::create(rt.alloc(), files::open_disk(rt, path)) {
        Ok(journal) => Ok(journal),
        Err(_) => Err(io::Error::other("no journal is made")),
    }
}

impl<D: Disk> Side for Journal<D> {
    /// Appends of bodies.
    fn batch(&mut self, rt: &HostRuntime) -> io::Result<f64> {
        let begun = clock::now(rt);
        for _ in 0..BATCH {
            if self.doubt() || self.append(&BODY).is_err() {
                return Err(io::Error::other("an append failed"));
            }
        }
        Ok(clock::now(rt) - begun)
    }
}

/// The seconds that so many appends of each side take, on new files.
fn time_both(rt: &HostRuntime, appends: u32) -> io::Result<Times> {
    let file = files::create(rt, FLOOR_PATH)?;
    let mut journal = new_journal(rt, JOURNAL_PATH)?;
    let piece = [0; BODY.len() + AROUND_BYTES];
    floor::take_turns(rt, &mut journal, &file, appends, &piece)
}

/// Prints how many appends a second the journal makes, and how many the calls alone would allow.
fn measure_appends(rt: &HostRuntime, appends: u32) -> io::Result<()> {
    let _old = files::remove(rt, JOURNAL_PATH);
    let times = time_both(rt, appends)?;
    floor::print_rates(rt, "appends", "journal", appends, times)?;
    files::remove(rt, JOURNAL_PATH)?;
    files::remove(rt, FLOOR_PATH)
}

/// The bytes of a numbered body: so long that some hundred of them pass a block that was made ready.
const NUMBERED_BYTES: usize = 2000;

/// A body that holds its number.
fn body_of(number: u64) -> [u8; NUMBERED_BYTES] {
    let mut body = [7; NUMBERED_BYTES];
    body[..8].copy_from_slice(&number.to_le_bytes());
    body
}

/// The number that a body holds.
fn number_of(body: &[u8]) -> u64 {
    match body.split_first_chunk::<8>() {
        Some((number, _)) => u64::from_le_bytes(*number),
        None => u64::MAX,
    }
}

/// Whether a body was appended and kept; a doubt is settled before.
fn is_kept<D: Disk>(journal: &mut Journal<D>, number: u64) -> bool {
    let settled = journal.settle().is_ok();
    settled && !journal.doubt() && journal.append(&body_of(number)).is_ok()
}

/// Appends bodies with the numbers from 0, and prints of each whether it was kept.
fn append_numbered(rt: &HostRuntime, path: &str, count: u32) -> io::Result<()> {
    let mut journal = new_journal(rt, path)?;
    for number in 0..count {
        let told = if is_kept(&mut journal, u64::from(number)) {
            "kept"
        } else {
            "failed"
        };
        println!(rt; "{told} {number}")?;
    }
    Ok(())
}

/// A journal that is there, opened to look.
pub fn seen_journal<'a>(rt: &'a HostRuntime, path: &str) -> io::Result<Journal<HostDisk<'a>>> {
    match Journal::load(rt.alloc(), files::view_disk(rt, path)) {
        Ok(journal) => Ok(journal),
        Err(_) => Err(io::Error::other("the journal is not opened")),
    }
}

/// Prints the number of each body of a journal.
fn list(rt: &HostRuntime, path: &str) -> io::Result<()> {
    let mut journal = seen_journal(rt, path)?;
    let mut body = Vec::new(rt.alloc());
    for n in 0..journal.count() {
        if n < journal.count() && journal.body(n, &mut body).is_ok() {
            println!(rt; "kept {}", number_of(&body))?;
        }
    }
    Ok(())
}

/// The number of a word, 0 where it is none.
pub fn number(word: &str) -> u32 {
    word.parse().unwrap_or(0)
}

/// Makes what the words ask for: so many appends, the list of a journal, or a journal of so many bodies.
pub fn measure(rt: &HostRuntime, words: &[String]) -> io::Result<()> {
    match words {
        [] => Ok(()),
        [appends] => measure_appends(rt, number(appends.as_str())),
        [_, path] => list(rt, path.as_str()),
        [_, path, count, ..] => append_numbered(rt, path.as_str(), number(count.as_str())),
    }
}
