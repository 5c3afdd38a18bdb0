//! Desks on which files wait, and submissions. Three activities, and as many sources as destinations; each file has a destination of its own.
//! Settings and jobs are spelled as entries and read back (`entries`).
ghost use Rattle.std.specs.Prelude.{◌<◌, ◌≤◌};

use crate::entries::entry;
use fts_desk::{Desk, DeskFault};
use fts_tables::{Answer, Command, Entry};
use std::alloc::{AllocError, Global};
use std::io;

/// The moment of each command.
pub const MOMENT: u64 = 1_700_000_000;

/// How many files a plain job has that fills a desk.
pub const FILES: u32 = 200;

/// How many sources there are, and how many destinations, where links are few: sixteen.
pub const ENDS: u32 = 4;

/// As many sources there may be here, and as many destinations.
const MOST_ENDS: u32 = 64;

/// What stands in a restart before the number of its endpoints: a limit of 100 on each link.
const RESTART: &[u8] = b"\x00\x01\x80\xe2\xcf\xaa\x06\x02vo\x10\x64";

/// What stands behind an endpoint's name: limits of 1,000 both ways.
const END_LIMITS: &[u8] = b"\xe8\x07\xe8\x07";

/// What stands behind the endpoints: no limits of links alone, and three activities.
const SHARES: &[u8] = b"\x00\x03\x07default\x01\x06urgent\x05\x04bulk\x02";

/// What stands before the kind of a job.
const SUBMIT: &[u8] = b"\x00\x02\x80\xe2\xcf\xaa\x06";

/// The same of a job whose files may wait for 1,000 hours.
const SUBMIT_WITH_HOURS: &[u8] = b"\x00\x0b\x80\xe2\xcf\xaa\x06\xe8\x07";

/// What stands between a job's priority and the number of its files: three retries, a delay of 86,400 seconds, no overwriting.
const OPTIONS: &[u8] = b"\x03\x80\xa3\x05\x00";

/// The activities of a job's files, in turn, each with its length.
const ACTIVITIES: [&str; 4] = ["\x07default", "\x06urgent", "\x04bulk", "\x07default"];

/// Which jobs fill a desk: how many sources and destinations there are, on how many links files go, how many priorities jobs have, and whether
/// their files wait for 1,000 hours at most.
#[derive(Clone, Copy)]
pub struct Layout {
    pub ends: u32,
    pub links: u32,
    pub priorities: u32,
    pub hours: bool,
}

/// What is submitted, of each job alike.
#[derive(Clone, Copy)]
pub enum Kind {
    /// One file, and no id.
    Plain,
    /// One file, and an id that the client chose.
    WithId,
    /// Two sources of one destination, and no id.
    Replica,
}

/// What a call answers that adds bytes.
type Pushed = Result<(), AllocError>;

/// The numbers of a source and of a destination.
type Ends = (u32, u32);

/// Adds pieces, one behind the other.
fn push_all(bytes: &mut Vec<u8>, pieces: &[&[u8]]) -> Pushed {
    for piece in pieces {
        bytes.extend_from_slice(piece)?;
    }
    Ok(())
}

/// Adds a number below 16,384, as an entry spells it.
fn push_number(bytes: &mut Vec<u8>, number: u32) -> Pushed
    requires { number < 16384 }
{
    if number >= 128 {
        bytes.extend_from_slice(&[(number % 128) as u8 + 128, (number / 128) as u8])
    } else {
        bytes.extend_from_slice(&[number as u8])
    }
}

/// How many digits a number below a million has.
fn digits(number: u32) -> u8
    ensures { result ≤ 6 }
{
    match number {
        0..=9 => 1,
        10..=99 => 2,
        100..=999 => 3,
        1_000..=9_999 => 4,
        10_000..=99_999 => 5,
        _ => 6,
    }
}

/// The ends of a link, among those of as many ends.
fn ends_of(link: u32, ends: u32) -> Ends {
    let ends = ends.clamp(1, MOST_ENDS);
    (link % ends, link / ends % ends)
}

/// A file of any size, behind its place in its job's list, which is also the number of its path: the ends with the path, each text behind its
/// length, and the activity.
fn file_text(alloc: Global, job: u32, index: u32, ends: Ends) -> Result<String, AllocError> {
    let (source, dest) = ends;
    let (from, to) = (char::from(9 + digits(source)), char::from(9 + digits(dest)));
    let at = char::from(6 + digits(job) + digits(index));
    let activity = ACTIVITIES[index as usize / 16 % 4];
    format!(in alloc;
        "{from}https://s{source}{at}data/{job}/{index}{to}https://d{dest}{at}data/{job}/{index}\x00\x00{activity}"
    )
}

/// Adds the file of a place in its job's list.
fn push_file(bytes: &mut Vec<u8>, alloc: Global, job: u32, index: u32, ends: Ends) -> Pushed
    requires { index < 16384 }
{
    push_number(bytes, index)?;
    let text = file_text(alloc, job, index, ends)?;
    bytes.extend_from_slice(text.as_bytes())
}

/// The link of a job's file. Each job goes over the links from the first one on, or goes on from the job before where they are more than its files.
fn link_of(job: u32, index: u32, links: u32) -> u32 {
    if links > FILES {
        job.wrapping_mul(FILES).wrapping_add(index) % links
    } else {
        index % links.max(1)
    }
}

/// Adds what stands before the kind of a job, whose files may wait for some hours or as long as it takes.
fn push_submit(bytes: &mut Vec<u8>, hours: bool) -> Pushed {
    if hours {
        bytes.extend_from_slice(SUBMIT_WITH_HOURS)
    } else {
        bytes.extend_from_slice(SUBMIT)
    }
}

/// Adds a plain job of `FILES` files. Links and priorities take turns.
fn push_filling(bytes: &mut Vec<u8>, alloc: Global, job: u32, layout: Layout) -> Pushed {
    let priority = (1 + job % layout.priorities.clamp(1, 5)) as u8;
    push_submit(bytes, layout.hours)?;
    push_all(bytes, &[&[0, 0, 0, priority], OPTIONS])?;
    push_number(bytes, FILES)?;
    for index in 0..FILES {
        let link = link_of(job, index, layout.links);
        push_file(bytes, alloc, job, index, ends_of(link, layout.ends))?;
    }
    Ok(())
}

/// The submission of such a job.
pub fn filling(alloc: Global, job: u32, layout: Layout) -> io::Result<Entry> {
    let mut bytes = Vec::new(alloc);
    push_filling(&mut bytes, alloc, job, layout)?;
    entry(alloc, bytes.as_slice())
}

/// Adds what stands before the files of a job of a kind. The ids of jobs that follow each other lie far apart, above and below.
fn push_kind(bytes: &mut Vec<u8>, job: u32, kind: Kind) -> Pushed {
    let id = (job as u128 + 1).wrapping_mul(0xb504_f333_f9de_6484_597d_89b3_754a_be9f);
    match kind {
        Kind::Plain => push_all(bytes, &[SUBMIT, b"\x00\x00\x00\x03", OPTIONS, b"\x01"]),
        Kind::WithId => push_all(
            bytes,
            &[
                SUBMIT,
                b"\x00\x00\x01",
                &id.to_be_bytes(),
                b"\x03",
                OPTIONS,
                b"\x01",
            ],
        ),
        Kind::Replica => push_all(bytes, &[SUBMIT, b"\x01\x00\x00\x03", OPTIONS, b"\x02"]),
    }
}

/// Adds the first file of a job, over this link.
fn push_first(bytes: &mut Vec<u8>, alloc: Global, job: u32, link: u32) -> Pushed {
    push_file(bytes, alloc, job, 0, ends_of(link, ENDS))
}

/// Adds a job of a kind.
fn push_submission(bytes: &mut Vec<u8>, alloc: Global, job: u32, kind: Kind) -> Pushed {
    push_kind(bytes, job, kind)?;
    match kind {
        Kind::Plain | Kind::WithId => push_first(bytes, alloc, job, job % 16),
        Kind::Replica => {
            push_first(bytes, alloc, job, job % 4)?;
            push_first(bytes, alloc, job, (job % 4 + 1) % 4)
        }
    }
}

/// The submission of a job of a kind.
pub fn submission(alloc: Global, job: u32, kind: Kind) -> io::Result<Entry> {
    let mut bytes = Vec::new(alloc);
    push_submission(&mut bytes, alloc, job, kind)?;
    entry(alloc, bytes.as_slice())
}

/// Adds endpoints whose names have ten bytes or eleven and begin alike.
fn push_ends(bytes: &mut Vec<u8>, alloc: Global, begin: &str, ends: u32) -> Pushed {
    for end in 0..ends {
        let length = char::from(9 + digits(end));
        let name = format!(in alloc; "{length}{begin}{end}")?;
        push_all(bytes, &[name.as_bytes(), END_LIMITS])?;
    }
    Ok(())
}

/// Adds a restart with as many sources and destinations.
fn push_restart(bytes: &mut Vec<u8>, alloc: Global, ends: u32) -> Pushed {
    let ends = ends.clamp(1, MOST_ENDS);
    push_all(bytes, &[RESTART])?;
    push_number(bytes, 2 * ends)?;
    push_ends(bytes, alloc, "https://s", ends)?;
    push_ends(bytes, alloc, "https://d", ends)?;
    push_all(bytes, &[SHARES])
}

/// Such a restart.
fn restart(alloc: Global, ends: u32) -> io::Result<Entry> {
    let mut bytes = Vec::new(alloc);
    push_restart(&mut bytes, alloc, ends)?;
    entry(alloc, bytes.as_slice())
}

/// Applies a command to a desk, which has to accept it.
pub fn apply(desk: &mut Desk, command: &Command) -> io::Result<Answer> {
    if desk.commands() == u32::MAX {
        return Err(io::Error::other("too many commands"));
    }
    match desk.prepare(command) {
        Ok(plan) => Ok(desk.commit(plan)),
        Err(DeskFault::Rule(_)) => Err(io::Error::other("the desk refuses a command")),
        Err(DeskFault::Memory) => Err(io::Error::from(io::ErrorKind::OutOfMemory)),
    }
}

/// A desk without jobs, with as many sources and destinations.
pub fn begun_desk(alloc: Global, ends: u32) -> io::Result<Desk> {
    let restart = restart(alloc, ends)?;
    let mut desk = Desk::empty(alloc);
    match apply(&mut desk, &restart.command) {
        Ok(_restarted) => Ok(desk),
        Err(error) => Err(error),
    }
}

/// Submits as many jobs that wait.
fn fill(desk: &mut Desk, alloc: Global, jobs: u32, layout: Layout) -> io::Result<()> {
    for job in 0..jobs {
        apply(desk, &filling(alloc, job, layout)?.command)?;
    }
    Ok(())
}

/// A desk on which as many jobs wait.
pub fn filled_desk(alloc: Global, jobs: u32, layout: Layout) -> io::Result<Desk> {
    let mut desk = begun_desk(alloc, layout.ends)?;
    match fill(&mut desk, alloc, jobs, layout) {
        Ok(()) => Ok(desk),
        Err(error) => Err(error),
    }
}
