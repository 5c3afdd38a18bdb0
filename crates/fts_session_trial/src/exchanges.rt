//! Exchanges over a folder: the requests of `NAME.http`, the replies of `NAME.reply.http`, byte for byte, and in `NAME.after` the status of the run
//! and which file of the grid is then equal to which, or is not there. Each has a new folder with the settings of `fts.toml` and the same sources.
use crate::stand::{hands_over, make_given, no_memory, print_count, run_words};
use fts_disk::{Disk, FileDisk};
use fts_files::SystemFiles;
use fts_store::{FolderStore, Store};
use fts_tables::Memory;
use fts_wire::MemorySource;
use std::{fs, io};

/// The folder that an exchange is played in.
const STAND: &str = "stand";

const EXCHANGES: [&str; 31] = [
    "several-files",
    "checksum",
    "wrong-checksum",
    "replicas",
    "three-hops",
    "destination-exists",
    "overwrite",
    "retry-with-delay",
    "cancel-a-job",
    "cancel-a-file",
    "priority",
    "list-of-jobs",
    "settings",
    "ban-and-wait",
    "ban-and-cancel",
    "entries",
    "routes-and-methods",
    "no-job-no-file",
    "own-id-twice",
    "bad-documents",
    "says-close",
    "version-1.0",
    "bad-head",
    "head-too-large",
    "bad-length",
    "signed-length",
    "long-length",
    "chunked",
    "body-too-large",
    "foreign-origin",
    "deep-document",
];

/// A file that is there from the start.
struct SourceFile {
    folder: &'static str,
    name: &'static str,
    text: &'static str,
}

const SOURCES: [SourceFile; 4] = [
    SourceFile {
        folder: "https:,,a.example/data",
        name: "f1",
        text: "abc",
    },
    SourceFile {
        folder: "https:,,a.example/data",
        name: "empty",
        text: "",
    },
    SourceFile {
        folder: "https:,,b.example",
        name: "there",
        text: "other",
    },
    SourceFile {
        folder: "https:,,b.example",
        name: "kept",
        text: "other",
    },
];

/// How many bytes the file has that is read in two pieces.
const TWO_PIECES: u32 = 70_000;

/// Makes the folder with its sources.
fn make_stand(rt: &HostRuntime) -> io::Result<()> {
    let alloc = rt.alloc();
    let _old = fs::remove_dir_all(rt, STAND);
    for source in &SOURCES {
        let folder = format!(in alloc; "{STAND}/grid/{}", source.folder)?;
        fs::create_dir_all(rt, folder.as_str())?;
        let path = format!(in alloc; "{folder}/{}", source.name)?;
        fs::write(rt, path.as_str(), source.text)?;
    }
    let mut bytes = Vec::new(alloc);
    for number in 0..TWO_PIECES {
        bytes.push((number % 251) as u8)?;
    }
    let path = format!(in alloc; "{STAND}/grid/https:,,a.example/data/f2")?;
    fs::write(rt, path.as_str(), bytes.as_slice())
}

/// What the file of an exchange with this ending holds.
fn read_part(rt: &HostRuntime, name: &str, ending: &str) -> io::Result<Vec<u8>> {
    let path = format!(in rt.alloc(); "{name}{ending}")?;
    fs::read(rt, path.as_str())
}

/// Whether a line of what is wanted afterwards holds: `DEST = SOURCE`, two files of the grid that are equal, or `DEST = nothing`.
fn is_so(rt: &HostRuntime, line: &str) -> io::Result<bool> {
    let alloc = rt.alloc();
    let Some((dest, source)) = line.split_once(" = ") else {
        return Ok(false);
    };
    let dest = format!(in alloc; "{STAND}/grid/{dest}")?;
    if source == "nothing" {
        return Ok(!fs::exists(rt, dest.as_str())?);
    }
    let source = format!(in alloc; "{STAND}/grid/{source}")?;
    let there = fs::read(rt, dest.as_str())?;
    Ok(there.as_slice() == fs::read(rt, source.as_str())?.as_slice())
}

/// Whether the status of the run, and the files of the grid, are as wanted afterwards.
fn is_left(rt: &HostRuntime, status: u8, after: &str) -> io::Result<bool> {
    let said = format!(in rt.alloc(); "status {status}")?;
    for line in after.lines() {
        if line != said.as_str() && !is_so(rt, line)? {
            return Ok(false);
        }
    }
    Ok(after.lines().next() == Some(said.as_str()))
}

/// As many stores over the grid as there are hands.
fn stores(rt: &HostRuntime) -> io::Result<Vec<FolderStore<SystemFiles<&HostRuntime>>>> {
    let alloc = rt.alloc();
    let mut stores = Vec::new(alloc);
    for _ in 0..16 {
        let grid = format!(in alloc; "{STAND}/grid")?;
        if stores.push(FolderStore::new(rt, alloc, grid)).is_err() {
            return Err(no_memory(Memory));
        }
    }
    Ok(stores)
}

/// Answers the requests of an exchange over these disks and these stores. The status, and whether the reply is the one that is written down.
fn answered<D: Disk + Drop, E: Store + Drop>(
    rt: &HostRuntime,
    name: &str,
    disk: D,
    deletes: D,
    stores: Vec<E>,
) -> io::Result<(u8, bool)> {
    let alloc = rt.alloc();
    let settings = fs::read_to_string(rt, "fts.toml")?;
    let input = MemorySource::new(read_part(rt, name, ".http")?, Vec::new(alloc));
    let ended = run_words(
        alloc,
        &["session"],
        make_given(alloc, settings.as_str(), input)?,
        disk,
        deletes,
        hands_over(alloc, stores)?,
    )?;
    let reply = read_part(rt, name, ".reply.http")?;
    let is_reply = ended.output.bytes() == reply.as_slice();
    Ok((ended.ending.status, is_reply))
}

/// Answers the requests of an exchange in its folder.
fn answered_in_folder(rt: &HostRuntime, name: &str) -> io::Result<(u8, bool)> {
    let journal = format!(in rt.alloc(); "{STAND}/fts.journal")?;
    let deletes = format!(in rt.alloc(); "{STAND}/fts.deletes")?;
    let journal = FileDisk::open(rt, journal.as_str());
    let deletes = FileDisk::view(rt, deletes.as_str());
    answered(rt, name, journal, deletes, stores(rt)?)
}

/// Plays an exchange in a folder of its own.
fn play(rt: &HostRuntime, name: &str) -> io::Result<bool> {
    let alloc = rt.alloc();
    make_stand(rt)?;
    let (status, is_reply) = answered_in_folder(rt, name)?;
    let path = format!(in alloc; "{name}.after")?;
    let after = fs::read_to_string(rt, path.as_str())?;
    Ok(is_reply && is_left(rt, status, after.as_str())?)
}

/// Plays each exchange, and prints which is otherwise than it is written.
pub fn play_all(rt: &HostRuntime) -> io::Result<()> {
    let mut same: u32 = 0;
    for name in &EXCHANGES {
        if play(rt, name)? {
            same = same.saturating_add(1);
        } else {
            println!(rt; "otherwise: {name}")?;
        }
    }
    fs::remove_dir_all(rt, STAND)?;
    print_count(rt, "exchanges as written", same)
}
