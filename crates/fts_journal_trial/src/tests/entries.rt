//! What several tests stand on: a Restart, what an entry's bytes say, and the numbers of calls that fail.
ghost use Rattle.std.specs.Prelude.{IfOk, IsTrue};
ghost use Rattle.fts_record.specs.Proper.{has_priority};

use fts_record::read_entry;
use fts_tables::{Command, Memory, Settings};
use std::alloc::{AllocError, Global};

/// Two endpoints, of which each link carries two files; the activity is `default`.
pub const RESTART: &[u8] =
    b"\x00\x01\x80\xe2\xcf\xaa\x06\x04demo\x02\x02\x02\x11https://a.example\x05\x05\x11https://b.example\x05\x05\x00\x01\x07default\x01";

/// The command of an entry.
pub fn command(alloc: Global, entry: &[u8]) -> Result<Command, Memory>
    ensures { IfOk result (λ command. IsTrue (has_priority command)) }
{
    match read_entry(alloc, entry) {
        Ok(entry) => Ok(entry.command),
        Err(_) => Err(Memory),
    }
}

/// The settings of the Restart.
pub fn settings(alloc: Global) -> Result<Settings, Memory> {
    match command(alloc, RESTART)? {
        Command::Restart { now: _, settings } => Ok(settings),
        _ => Err(Memory),
    }
}

/// The numbers from one to another.
pub fn numbers(alloc: Global, first: u32, last: u32) -> Result<Vec<u32>, AllocError> {
    let mut numbers = Vec::new(alloc);
    for number in first..=last {
        numbers.push(number)?;
    }
    Ok(numbers)
}
