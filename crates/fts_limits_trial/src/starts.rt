//! The start under the greatest settings, over an empty disk; and the second one, over the journal that the first one left.
use crate::commands::{Kept, NOW, claim};
use crate::counts::{print_states, print_tables};
use crate::texts;
use fts_config::read_settings;
use fts_disk::MemoryDisk;
use fts_keep::Keep;
use fts_tables::Settings;
use std::io;

/// What a text of settings that is read in a small room would not pass, in bytes.
const SMALL_TEXT_BYTES: usize = 16_384;

/// The settings, or none where the text is refused.
fn settings(rt: &HostRuntime) -> io::Result<Option<Settings>> {
    let text = texts::settings(rt.alloc())?;
    println!(rt; "settings above 16 KiB: {}", text.len() > SMALL_TEXT_BYTES)?;
    Ok(read_settings(rt.alloc(), text.as_bytes()).ok())
}

/// A keep over a disk, with one line about its settings.
fn start(rt: &HostRuntime, disk: MemoryDisk) -> io::Result<Option<Kept>> {
    let Some(settings) = settings(rt)? else {
        println!(rt; "the settings are refused")?;
        return Ok(None);
    };
    match Keep::start(rt.alloc(), disk, settings, NOW) {
        Ok(keep) => {
            print_settings(rt, &keep)?;
            Ok(Some(keep))
        }
        Err((_fault, _disk)) => {
            println!(rt; "the start is refused")?;
            Ok(None)
        }
    }
}

/// Prints how much the settings in force have of all.
fn print_settings(rt: &HostRuntime, keep: &Kept) -> io::Result<()> {
    match keep.desk().settings() {
        Some(settings) => println!(rt;
            "started: {} endpoints, {} links, {} activities, {} workers",
            settings.endpoints.as_slice().len(),
            settings.links.as_slice().len(),
            settings.weights.as_slice().len(),
            settings.workers
        ),
        None => println!(rt; "started: no settings"),
    }
}

/// Starts over an empty disk.
pub fn first(rt: &HostRuntime) -> io::Result<Option<Kept>> {
    start(rt, MemoryDisk::new(rt.alloc(), Vec::new(rt.alloc())))
}

/// Starts again over what is left, and claims one file.
pub fn again(rt: &HostRuntime, keep: Kept) -> io::Result<()> {
    let Some(mut keep) = start(rt, keep.close())? else {
        return Ok(());
    };
    print_tables(rt, &keep)?;
    print_states(rt, &keep)?;
    let rows = keep.desk().rows();
    let released = rows
        .iter()
        .filter(|row| row.state.is_submitted() && row.attempt == 1)
        .count();
    println!(rt; "rows that were released: {released}")?;
    match claim(&mut keep, 1) {
        Some(claimed) => {
            println!(rt;
                "one claim more: row {}, attempt {}",
                claimed.file, claimed.attempt
            )
        }
        None => println!(rt; "one claim more: no row"),
    }
}
