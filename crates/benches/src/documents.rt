//! The measurement of job documents: one is read some times, and the same with one of double the files, in one go.
mod texts;

use crate::clock;
use fts_config::read_settings;
use fts_jobdoc::read_job;
use fts_tables::Settings;
use std::alloc::Global;
use std::io;
use texts::{SETTINGS, document};

/// How often each document is read.
const TURNS: usize = 50;

/// The settings under which documents are read.
fn settings(alloc: Global) -> io::Result<Settings> {
    match read_settings(alloc, SETTINGS.as_bytes()) {
        Ok(settings) => Ok(settings),
        Err(_) => Err(io::Error::other("the settings are refused")),
    }
}

/// The seconds in which a document is read so often.
fn seconds(rt: &HostRuntime, text: &str, settings: &Settings) -> io::Result<f64> {
    let begun = clock::now(rt);
    for _ in 0..TURNS {
        if read_job(rt.alloc(), text.as_bytes(), settings).is_err() {
            return Err(io::Error::other("the document is refused"));
        }
    }
    Ok(clock::now(rt) - begun)
}

/// The same of a document of so many files.
fn seconds_of(rt: &HostRuntime, files: u32, settings: &Settings) -> io::Result<f64> {
    let text = document(rt.alloc(), files)?;
    seconds(rt, text.as_str(), settings)
}

/// Prints the times of documents of 50, 100 and 200 files, and the ratio of each to the one before.
fn print_times(rt: &HostRuntime, settings: &Settings) -> io::Result<()> {
    let mut before = seconds_of(rt, 25, settings)?;
    for files in [50, 100, 200] {
        let taken = seconds_of(rt, files, settings)?;
        println!(rt;
            "{files} files: {:.2} ms, {:.2} times as long as half of them",
            taken * 1000.0 / TURNS as f64,
            taken / before
        )?;
        before = taken;
    }
    Ok(())
}

/// Measures documents under the settings.
pub fn measure(rt: &HostRuntime) -> io::Result<()> {
    let settings = settings(rt.alloc())?;
    print_times(rt, &settings)
}
