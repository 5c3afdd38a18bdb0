//! Runs that are stopped before their first request: by settings that can't be had, and by words that are no command. What is seen is the status and
//! the line that is noted, or, where that can't be written, a part of it or none.
use crate::journals::TWO;
use crate::stand::{
    Ended, Given, SETTINGS, count_row, hands_with, make_given, print_count, run_anew, source,
};
use fts_disk::MemoryDisk;
use fts_store::MemoryStore;
use fts_wire::{MemorySink, MemorySource};
use std::alloc::Global;
use std::{fs, io};

/// Settings that stop a run, the numbers of the read of them and of the note that fail, and what is seen.
struct Stop {
    row: &'static str,
    text: &'static str,
    read: u64,
    note: u64,
    status: u8,
    noted: &'static str,
}

const NO_WORKERS: &str = "vo = \"demo\"\nworkers = 0\n[[storage]]\nurl = \"https://a.example\"\n";

const STOPS: [Stop; 6] = [
    Stop {
        row: "no workers",
        text: NO_WORKERS,
        read: 0,
        note: 0,
        status: 3,
        noted: "fts: settings rule 11\n",
    },
    Stop {
        row: "no TOML",
        text: "[",
        read: 0,
        note: 0,
        status: 3,
        noted: "fts: settings rule 1\n",
    },
    Stop {
        row: "a first read that fails",
        text: SETTINGS,
        read: 1,
        note: 0,
        status: 8,
        noted: "fts: settings could not be read\n",
    },
    Stop {
        row: "a later read that fails",
        text: SETTINGS,
        read: 2,
        note: 0,
        status: 8,
        noted: "fts: settings could not be read\n",
    },
    Stop {
        row: "a note that fails",
        text: NO_WORKERS,
        read: 0,
        note: 1,
        status: 3,
        noted: "",
    },
    Stop {
        row: "a note that fails later",
        text: NO_WORKERS,
        read: 0,
        note: 2,
        status: 3,
        noted: "fts: settings rule ",
    },
];

/// Words that are no command.
const WORDS: [&[&str]; 5] = [
    &[],
    &["Session"],
    &["serve"],
    &["session", ""],
    &["--", "session"],
];

/// A run of these words with the two submissions as its input, in which a read of the settings and a note fail.
fn run_under(
    rt: &HostRuntime,
    words: &[&str],
    settings: (&str, u64),
    note: u64,
) -> io::Result<Ended<MemoryDisk, MemoryStore>> {
    let alloc = rt.alloc();
    let input = fs::read(rt, TWO)?;
    let settings = settings_with(alloc, settings.0, settings.1)?;
    let given = Given {
        settings,
        notes: MemorySink::new(alloc, [note].to_vec(alloc)?),
        ..make_given(alloc, SETTINGS, source(alloc, input.as_slice())?)?
    };
    let hands = hands_with(alloc, &["data/f1"], Vec::new(alloc))?;
    run_anew(alloc, words, given, hands)
}

/// Settings of which this read fails.
fn settings_with(alloc: Global, text: &str, read: u64) -> io::Result<MemorySource> {
    let bytes = text.as_bytes().to_vec(alloc)?;
    Ok(MemorySource::new(bytes, [read].to_vec(alloc)?))
}

/// Whether a run ended with this status and note, and nothing was written.
fn is_refused(ended: &Ended<MemoryDisk, MemoryStore>, status: u8, noted: &str) -> bool {
    ended.ending.status == status
        && ended.output.bytes().is_empty()
        && ended.notes.bytes() == noted.as_bytes()
}

/// Plays a session under each of the settings.
fn play_stops(rt: &HostRuntime) -> io::Result<u32> {
    let mut same: u32 = 0;
    for stop in &STOPS {
        let ended = run_under(rt, &["session"], (stop.text, stop.read), stop.note)?;
        let is_wanted = is_refused(&ended, stop.status, stop.noted);
        same = same.saturating_add(count_row(rt, stop.row, is_wanted)?);
    }
    Ok(same)
}

/// Plays a run of these words, with its note and with one that fails.
fn play_word_list(rt: &HostRuntime, words: &[&str]) -> io::Result<u32> {
    let mut same: u32 = 0;
    for (note, noted) in [(0, "fts: not a command\n"), (1, "")] {
        let row = format!(in rt.alloc(); "{words:?}, note {note}")?;
        let ended = run_under(rt, words, ("[", 1), note)?;
        let is_wanted = is_refused(&ended, 2, noted);
        same = same.saturating_add(count_row(rt, row.as_str(), is_wanted)?);
    }
    Ok(same)
}

fn play_words(rt: &HostRuntime) -> io::Result<u32> {
    let mut same: u32 = 0;
    for words in WORDS {
        same = same.saturating_add(play_word_list(rt, words)?);
    }
    Ok(same)
}

/// Plays each of them, and prints what is otherwise than wanted, and how many were as wanted.
pub fn play_all(rt: &HostRuntime) -> io::Result<()> {
    print_count(rt, "settings that stop a run as wanted", play_stops(rt)?)?;
    print_count(rt, "words that are no command as wanted", play_words(rt)?)
}
