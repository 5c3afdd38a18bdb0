//! The program `fts STAND COMMAND`: it makes the real outside, calls `run`, and ends with its status.
//! The stand `-` has its settings, its journals and its stores in memory. Any other one is a folder with `fts.toml`, `fts.journal`, which a service or
//! a standby makes where it is absent and locks against others, `fts.deletes`, the same for deletions, `grid`, in which files are copied, and `fts.stop`, which
//! stops a run that serves, and which a start takes away. For other commands, and for words that are none, a journal is only looked at. Where a word is no UTF-8, `run` gets an empty list
//! of words, which is no command, over the stand `-`.
//! Which word is the stand stands in `specs/CommandLine.antt`.
#![tactic(auto)]

ghost use Rattle.std.specs.Prelude.{◌≡◌, false, length, map, string_bytes, IfOk};
ghost use Rattle.fts_disk.specs.File.{IsReadOnly};
ghost use Rattle.fts_tables.specs.declared.limits.TheConstants.{MAX_LANES, MAX_WORKERS};
ghost use Rattle.fts_store.specs.Folder.{is_deleting};
ghost use Rattle.fts_words.specs.Words.{asked_in};
ghost use Rattle.fts.specs.CommandLine.{stand_of, words_of, asks_service, exit_status_of, LooksAtMost, DeletesNothing};

use fts_devices::{
    LinkLimits, OpenedFile, ReadyError, ServiceGate, StopFile, SystemClock, SystemLog, TcpLink,
    can_begin, closed_doors, command_line, hands_over, lanes_over,
};
use fts_disk::{Disk, FileDisk, MemoryDisk};
use fts_files::{FileSystem, SystemFiles};
use fts_log::{Event, Log, LoggedFiles};
use fts_store::{FolderStore, MemoryStore, Store, StoredFile};
use fts_tables::limits::MAX_WORKERS;
use fts_tables::{EndpointName, Items, Memory, PathKey, Place};
use fts_top::{Doors, Ending, Outside, run};
use fts_wire::{MemorySource, Sink, Source, StdSink, StdSource};
use fts_words::{Asked, log_of, read_words, socket_of};
use fts_workers::Gate;
use std::io;
use std::process::ExitCode;
use std::sync::Wait;
use std::thread::Threads;

/// The settings of the stand `-`.
const STAND_SETTINGS: &str =
    "vo = \"demo\"\nworkers = 2\n[[storage]]\nurl = \"https://a.example\"\n[[storage]]\nurl = \"https://b.example\"\n";

/// The status of a process for which there is no memory, no thread or no log.
const NO_MEMORY: u8 = 1;

/// How many hands a run has.
const HANDS: usize = MAX_WORKERS as usize;

/// The stand that a command line names.
fn stand(line: &[String]) -> &str
    ensures { result.now ≡ stand_of line.now }
{
    match line {
        [_, stand, ..] => stand.as_str(),
        _ => "-",
    }
}

/// The words of a command line that are the command's.
fn command_words(line: &[String]) -> &[String]
    ensures { result.now ≡ words_of line.now }
{
    match line {
        [_, _, words @ ..] => words,
        _ => &[],
    }
}

/// The status of the process.
fn exit_status(ended: Result<Ending, Memory>) -> u8
    ensures { result ≡ exit_status_of ended }
{
    match ended {
        Ok(ending) => ending.status,
        Err(Memory) => 1,
    }
}

/// The files of the machine, whose refused calls a log is told.
type LoggedSystem<'a> = LoggedFiles<SystemFiles<&'a HostRuntime>, &'a SystemLog<'a>>;

/// A store in a folder of the machine.
type GridStore<'a> = FolderStore<LoggedSystem<'a>>;

/// A journal in a file of the machine.
type LoggedDisk<'a> = FileDisk<LoggedSystem<'a>>;

/// What a run has of the machine.
#[derive(Clone, Copy)]
struct Machine<'a> {
    rt: &'a HostRuntime,
    log: &'a SystemLog<'a>,
}

impl<'a> Machine<'a> {
    /// Its files.
    fn files(self) -> LoggedSystem<'a> {
        LoggedFiles::over(SystemFiles::new(self.rt), self.log, self.rt.alloc())
    }
}

/// A link to services of this machine, for one request or, where a standby follows, for many.
fn link_for<'a>(rt: &'a HostRuntime, words: &[String]) -> TcpLink<&'a HostRuntime> {
    let link = TcpLink::new(rt, LinkLimits::of_client());
    match read_words(words) {
        Some(Asked::Follow { .. }) => link.for_many(),
        _ => link,
    }
}

/// Runs the command over these settings, the disks of these two journals, these hands, this gate, the system's streams and clock, and the ports of the
/// machine.
fn run_over<
    F: Source + Drop,
    D: Disk + Send + Drop,
    E: Store + Send + Drop,
    A: Doors + Send + Drop,
    G: Gate + Sync + Drop,
    R: Threads + Wait + Sync,
>(
    rt: &HostRuntime,
    threads: &R,
    words: &[String],
    settings: F,
    journal: D,
    deletes: D,
    stores: Vec<E>,
    doors: Vec<A>,
    gate: G,
) -> Result<Ending, Memory>
where
    A::Line: Send,
    requires hands { length stores.items ≡ MAX_WORKERS }
    requires lanes { length doors.items ≡ MAX_LANES }
{
    let alloc = rt.alloc();
    let mut outside = Outside {
        settings,
        input: StdSource::new(rt.stdin()),
        output: StdSink::new(rt.stdout()),
        notes: StdSink::new(ReadyError::new(rt)),
        disk: Some(journal),
        deletes: Some(deletes),
        clock: SystemClock::new(rt),
        hands: hands_over(rt, alloc, stores)?,
        lanes: lanes_over(rt, alloc, doors)?,
        link: link_for(rt, words),
        gate,
    };
    Ok(run(threads, alloc, words, &mut outside))
}

/// A store in memory that holds `abc` at `https://a.example/data/f1`.
fn stand_store(rt: &HostRuntime) -> Result<MemoryStore, Memory> {
    let alloc = rt.alloc();
    let mut files = Vec::new(alloc);
    let endpoint = EndpointName::read(alloc, "https://a.example")?;
    let path = PathKey::read(alloc, "data/f1")?;
    if let (Some(endpoint), Some(path)) = (endpoint, path) {
        let file = StoredFile {
            place: Place { endpoint, path },
            bytes: Items::from_vec(b"abc".to_vec(alloc)?),
        };
        if files.push(file).is_err() {
            return Err(Memory);
        }
    }
    let files = Items::from_vec(files);
    Ok(MemoryStore::new(alloc, files, Vec::new(alloc), Vec::new(alloc)))
}

/// A store in memory for each hand.
fn stand_stores(rt: &HostRuntime) -> Result<Vec<MemoryStore>, Memory>
    ensures { IfOk result (λ stores. length stores.items ≡ MAX_WORKERS) }
{
    let mut stores = Vec::new(rt.alloc());
    for _ in 0..HANDS {
        if stores.push(stand_store(rt)?).is_err() {
            return Err(Memory);
        }
    }
    Ok(stores)
}

/// Runs the command in memory, with the stand's settings.
fn run_in_memory<R: Threads + Wait + Sync>(
    machine: Machine<'_>,
    threads: &R,
    words: &[String],
) -> Result<Ending, Memory> {
    let Machine { rt, log } = machine;
    let alloc = rt.alloc();
    let text = Vec::from_slice(alloc, STAND_SETTINGS.as_bytes())?;
    let settings = MemorySource::new(text, Vec::new(alloc));
    let journal = MemoryDisk::new(alloc, Vec::new(alloc));
    let deletes = MemoryDisk::new(alloc, Vec::new(alloc));
    let stores = stand_stores(rt)?;
    let doors = closed_doors(rt, alloc, StopFile::none(), socket_of(words), Some(log))?;
    let gate = ServiceGate::new(rt, StopFile::none(), log, None);
    run_over(
        rt, threads, words, settings, journal, deletes, stores, doors, gate,
    )
}

/// A store in a folder of files, for what the words ask for: deletions, or copies.
fn store_for<'a>(machine: Machine<'a>, words: &[String], grid: String) -> GridStore<'a>
    ensures deletes { DeletesNothing (asked_in (map string_bytes words.now)) → is_deleting result ≡ false }
    ensures copies { is_deleting result ≡ false → DeletesNothing (asked_in (map string_bytes words.now)) }
{
    let store = FolderStore::over(machine.files(), machine.rt.alloc(), grid);
    match read_words(words) {
        Some(Asked::Delete) => store.for_deletions(),
        _ => store,
    }
}

/// A store in a stand's folder for each hand, for what the words ask for.
fn folder_stores<'a>(
    machine: Machine<'a>,
    words: &[String],
    folder: &str,
) -> Result<Vec<GridStore<'a>>, Memory>
    ensures { IfOk result (λ stores. length stores.items ≡ MAX_WORKERS) }
{
    let alloc = machine.rt.alloc();
    let mut stores = Vec::new(alloc);
    for _ in 0..HANDS {
        let grid = format!(in alloc; "{folder}/grid")?;
        if stores.push(store_for(machine, words, grid)).is_err() {
            return Err(Memory);
        }
    }
    Ok(stores)
}

/// Runs the command in a folder.
fn run_in_folder<R: Threads + Wait + Sync>(
    machine: Machine<'_>,
    threads: &R,
    folder: &str,
    words: &[String],
) -> Result<Ending, Memory> {
    let Machine { rt, log } = machine;
    let alloc = rt.alloc();
    let settings = format!(in alloc; "{folder}/fts.toml")?;
    let journal = format!(in alloc; "{folder}/fts.journal")?;
    let deletes = format!(in alloc; "{folder}/fts.deletes")?;
    let stop = format!(in alloc; "{folder}/fts.stop")?;
    let grid = format!(in alloc; "{folder}/grid")?;
    let stop = StopFile::at(rt, stop.as_str());
    let mut stores = folder_stores(machine, words, folder)?;
    let settings = StdSource::new(OpenedFile::open(rt, settings.as_str()));
    let mut journal = disk_for(machine, words, journal.as_str());
    let deletes = deletes_for(machine, words, deletes.as_str());
    if asks_service(words) && journal.len().is_ok() {
        stop.clear();
        sweep_parts(machine, folder)?;
        meet_endpoints(&mut stores)?;
    }
    let doors = closed_doors(rt, alloc, stop, socket_of(words), Some(log))?;
    let gate = ServiceGate::new(rt, stop, log, Some(grid.as_str()));
    run_over(
        rt, threads, words, settings, journal, deletes, stores, doors, gate,
    )
}

/// Whether a service is asked for.
fn asks_service(words: &[String]) -> bool
    ensures { result ≡ asks_service (asked_in (map string_bytes words.now)) }
{
    matches!(
        read_words(words),
        Some(Asked::Session | Asked::Load { .. } | Asked::Serve { .. })
    )
}

/// Takes away what earlier services left of their parts in a stand's folder. One that another service holds stays.
fn sweep_parts(machine: Machine<'_>, folder: &str) -> Result<(), Memory> {
    let alloc = machine.rt.alloc();
    let grid = format!(in alloc; "{folder}/grid")?;
    let mut store = FolderStore::over(machine.files(), alloc, grid);
    match store.sweep() {
        Ok(()) => Ok(()),
        Err(_) => Err(Memory),
    }
}

/// Has each store look at the endpoints' own folders as they are now, before any of them copies: a mount that goes away later is missed by all.
fn meet_endpoints<F: FileSystem + Drop>(stores: &mut [FolderStore<F>]) -> Result<(), Memory> {
    for store in stores {
        if store.meet_all().is_err() {
            return Err(Memory);
        }
    }
    Ok(())
}

/// The journal's file, opened for what the words ask for: made and locked for a service and for a standby, and only looked at for other commands and
/// for words that are none, which leave it as it is.
fn disk_for<'a>(machine: Machine<'a>, words: &[String], path: &str) -> LoggedDisk<'a>
    ensures { LooksAtMost (asked_in (map string_bytes words.now)) → IsReadOnly result }
{
    match read_words(words) {
        Some(Asked::Session | Asked::Load { .. } | Asked::Serve { .. } | Asked::Follow { .. }) =>
            FileDisk::serve(machine.files(), path),
        _ => FileDisk::look_at(machine.files(), path),
    }
}

/// The file of the deletions' journal: made and locked for a deletion, and left as it is by all else.
fn deletes_for<'a>(machine: Machine<'a>, words: &[String], path: &str) -> LoggedDisk<'a>
    ensures { DeletesNothing (asked_in (map string_bytes words.now)) → IsReadOnly result }
{
    match read_words(words) {
        Some(Asked::Delete) => FileDisk::serve(machine.files(), path),
        _ => FileDisk::look_at(machine.files(), path),
    }
}

/// Whether the threads can be begun that the words ask for: to serve, at most one for each lane and each worker. Without them a service would answer,
/// and copy nothing.
fn has_threads<R: Threads + Wait + Sync>(rt: &HostRuntime, threads: &R, words: &[String]) -> bool {
    match read_words(words) {
        Some(Asked::Serve { lanes, .. }) => can_begin(
            threads,
            rt,
            lanes.saturating_add(MAX_WORKERS),
        ),
        _ => true,
    }
}

/// The log of what the words ask for: that of a service goes to the file that they name, or to the standard error; other commands have a silent one.
fn log_for<'a>(rt: &'a HostRuntime, words: &[String]) -> io::Result<SystemLog<'a>> {
    match read_words(words) {
        Some(Asked::Serve { .. }) => match log_of(words) {
            Some(path) => SystemLog::in_file(rt, path),
            None => Ok(SystemLog::on_standard_error(rt)),
        },
        _ => Ok(SystemLog::silent(rt)),
    }
}

/// Says why a run can't begin. Where nobody reads it, the status tells it.
fn say(rt: &HostRuntime, text: &str) {
    let _told = StdSink::new(rt.stderr()).write(text.as_bytes());
}

/// Makes the outside of a stand, runs the command in it, and tells the log its end.
fn run_logged<R: Threads + Wait + Sync>(
    machine: Machine<'_>,
    threads: &R,
    stand: &str,
    words: &[String],
) -> u8 {
    let ended = match stand {
        "-" => run_in_memory(machine, threads, words),
        folder => run_in_folder(machine, threads, folder, words),
    };
    let status = exit_status(ended);
    let lost = machine.log.lost();
    machine.log.tell(&Event::Ends { status, lost });
    status
}

/// Runs the command in the stand that the command line names. Gives the status of the process.
fn run_stand<R: Threads + Wait + Sync>(rt: &HostRuntime, threads: &R) -> Result<u8, Memory> {
    let line = command_line(rt)?;
    let words = command_words(line.as_slice());
    if !has_threads(rt, threads, words) {
        say(rt, "fts: no thread can be made\n");
        return Err(Memory);
    }
    let Ok(log) = log_for(rt, words) else {
        say(rt, "fts: the log cannot be opened\n");
        return Err(Memory);
    };
    let machine = Machine { rt, log: &log };
    Ok(run_logged(machine, threads, stand(line.as_slice()), words))
}

fn main(rt: HostRuntime) -> ExitCode {
    ExitCode::from(run_stand(&rt, &rt).unwrap_or(NO_MEMORY))
}
