//! The measurements of the keep: commands that it accepts on a real file beside the same writes and syncs alone (`keep apply 1000`), and a start over
//! a journal of many jobs beside reading the same entries (`keep start 100000`, and `keep file PATH` over a journal that is there).
mod accepting;
mod starting;

use crate::entries::entry;
use crate::files::{self, HostDisk};
use crate::journal::number;
use fts_keep::Keep;
use fts_tables::{Command, Settings};
use std::alloc::Global;
use std::io;

/// The moment of each start, in seconds since 1970.
const MOMENT: u64 = 1_700_000_000;

/// Two storages, of which each link carries two files.
const RESTART: &[u8] =
    b"\x00\x01\x80\xe2\xcf\xaa\x06\x04demo\x02\x02\x02\x11https://a.example\x05\x05\x11https://b.example\x05\x05\x00\x01\x07default\x01";

/// The settings of the Restart.
fn settings(alloc: Global) -> io::Result<Settings> {
    match entry(alloc, RESTART)?.command {
        Command::Restart { now: _, settings } => Ok(settings),
        _ => Err(io::Error::other("the entry is no Restart")),
    }
}

/// A keep over a file.
fn started<'a>(
    rt: &'a HostRuntime,
    path: &str,
    settings: Settings,
) -> io::Result<Keep<HostDisk<'a>>> {
    match Keep::start(rt.alloc(), files::open_disk(rt, path), settings, MOMENT) {
        Ok(keep) => Ok(keep),
        Err(_) => Err(io::Error::other("the keep is not started")),
    }
}

/// Makes the measurement that the words ask for.
pub fn measure(rt: &HostRuntime, words: &[String]) -> io::Result<()> {
    let [call, count, ..] = words else {
        return Ok(());
    };
    match call.as_str() {
        "apply" => accepting::measure(rt, number(count.as_str())),
        "start" => starting::measure(rt, number(count.as_str())),
        "file" => starting::measure_file(rt, count.as_str()),
        _ => Ok(()),
    }
}
