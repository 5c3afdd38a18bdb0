//! Requests and their replies over a keep in memory, by rows (`reply_rows.rt` has their form).
//! What no clause says is that the definitions mean what a client sends and reads, and that calls succeed with ample memory. The rows of a file are
//! sent one after the other, as one writer, at one moment; claims and reports stand between two files. Prints each row that is otherwise than
//! wanted with its reply, and then for each play how many were as wanted.
ghost use Rattle.std.specs.Prelude.{IfOk, IsTrue};
ghost use Rattle.fts_record.specs.Proper.{has_priority};

use crate::reply_rows::{ANEW, BETWEEN, REMARK, Row, read_row};
use crate::stand::{NOW, no_memory, print_count};
use fts_disk::MemoryDisk;
use fts_keep::Keep;
use fts_record::read_entry;
use fts_routes::{Routes, answer};
use fts_tables::{Command, Memory, Outcome, Settings};
use fts_wire::{Allow, Reply};
use std::alloc::Global;
use std::{fs, io};

/// Two endpoints, a link from the first to the second with a limit of 1, and the activity `default`.
const RESTART: &[u8] =
    b"\x00\x01\x80\xe2\xcf\xaa\x06\x04demo\x02\x02\x02\x11https://a.example\x05\x05\x11https://b.example\x06\x07\x01\x01l\x11https://a.example\x11https://b.example\x01\x01\x07default\x01";

/// The submission of a job, whose one file is the first.
const FIRST: &str = "replies-to-a-first-job.rows";

/// The command of an entry.
fn command(alloc: Global, entry: &[u8]) -> Result<Command, Memory>
    ensures { IfOk result (λ command. IsTrue (has_priority command)) }
{
    match read_entry(alloc, entry) {
        Ok(entry) => Ok(entry.command),
        Err(_) => Err(Memory),
    }
}

/// The settings of a Restart.
fn settings(alloc: Global) -> Result<Settings, Memory> {
    match command(alloc, RESTART)? {
        Command::Restart { now: _, settings } => Ok(settings),
        _ => Err(Memory),
    }
}

/// A keep over an empty disk, of which these calls fail.
fn keep(alloc: Global, fail: Vec<u32>) -> io::Result<Keep<MemoryDisk>> {
    let disk = MemoryDisk::new(alloc, fail);
    let settings = settings(alloc).map_err(no_memory)?;
    match Keep::start(alloc, disk, settings, NOW) {
        Ok(keep) => Ok(keep),
        Err((_fault, _disk)) => Err(no_memory(Memory)),
    }
}

/// The methods that a refusal names, as a response spells them.
fn methods_of(allow: Allow) -> &'static str {
    match allow {
        Allow::None => "",
        Allow::Jobs => "GET, POST, PUT",
        Allow::Job => "DELETE, GET, POST",
        Allow::Get => "GET",
        Allow::File => "DELETE",
    }
}

/// Whether a reply is what its row wants.
fn is_wanted(reply: &Reply, row: &Row<'_>) -> bool {
    let is_body = match row.body {
        Some(body) => reply.body.as_slice() == body.as_bytes(),
        None => true,
    };
    is_body && reply.status == row.status && methods_of(reply.allow) == row.methods
}

/// Sends what a row sends, and answers 1 where the reply is as wanted, else 0; of a remark 0.
fn play_row(
    rt: &HostRuntime,
    routes: &Routes,
    keep: &mut Keep<MemoryDisk>,
    text: &str,
) -> io::Result<u32> {
    let alloc = rt.alloc();
    if text.starts_with(REMARK) {
        return Ok(0);
    }
    let Some(row) = read_row(text) else {
        println!(rt; "otherwise: no row:\n{text}")?;
        return Ok(0);
    };
    let reply = answer(alloc, routes, keep, 0, &row.request, NOW);
    if is_wanted(&reply, &row) {
        return Ok(1);
    }
    let body = String::from_utf8_lossy(alloc, reply.body.as_slice())?;
    println!(rt;
        "otherwise: {text}\nis answered {} {} {body}",
        reply.status,
        methods_of(reply.allow)
    )?;
    Ok(0)
}

/// Sends rows, one after the other, and answers how many were as wanted.
fn play_rows(rt: &HostRuntime, keep: &mut Keep<MemoryDisk>, rows: &str) -> io::Result<u32> {
    let routes = Routes::new(rt.alloc()).map_err(no_memory)?;
    let mut same: u32 = 0;
    for row in rows.split(BETWEEN) {
        same = same.saturating_add(play_row(rt, &routes, keep, row)?);
    }
    Ok(same)
}

/// Sends the rows of a file.
fn play_file(rt: &HostRuntime, keep: &mut Keep<MemoryDisk>, name: &str) -> io::Result<u32> {
    let rows = fs::read_to_string(rt, name)?;
    play_rows(rt, keep, rows.as_str())
}

/// Has a command accepted, and says so where it is refused.
fn apply(rt: &HostRuntime, keep: &mut Keep<MemoryDisk>, command: Command) -> io::Result<()>
    requires { IsTrue (has_priority command) }
{
    if keep.apply(0, command).is_err() {
        println!(rt; "otherwise: a claim or a report is refused")?;
    }
    Ok(())
}

/// Rows of one file, over a new keep on a disk of which these calls fail.
fn over_a_new_keep(rt: &HostRuntime, fail: Vec<u32>, name: &str) -> io::Result<u32> {
    let mut keep = keep(rt.alloc(), fail)?;
    play_file(rt, &mut keep, name)
}

/// Each path by each method.
fn to_each_method(rt: &HostRuntime) -> io::Result<u32> {
    let alloc = rt.alloc();
    let mut keep = keep(alloc, Vec::new(alloc))?;
    let first = play_file(rt, &mut keep, FIRST)?;
    let then = play_file(rt, &mut keep, "replies-to-each-method.rows")?;
    Ok(first.saturating_add(then))
}

/// Each change, over a keep of its own. The start takes seven calls of the disk and a submission four: the next one fails, at whatever a row asks
/// behind a submission.
fn to_each_change(rt: &HostRuntime) -> io::Result<u32> {
    let alloc = rt.alloc();
    let changes = fs::read_to_string(rt, "replies-to-each-change.rows")?;
    let mut same: u32 = 0;
    for change in changes.as_str().split(ANEW) {
        let mut keep = keep(alloc, [12].to_vec(alloc)?)?;
        same = same.saturating_add(play_file(rt, &mut keep, FIRST)?);
        same = same.saturating_add(play_rows(rt, &mut keep, change)?);
    }
    Ok(same)
}

/// Jobs that are shown, prioritized and cancelled, before a file is copied and meanwhile.
fn over_two_jobs(rt: &HostRuntime) -> io::Result<u32> {
    let alloc = rt.alloc();
    let mut keep = keep(alloc, Vec::new(alloc))?;
    let waiting = play_file(rt, &mut keep, "replies-over-two-jobs.rows")?;
    apply(rt, &mut keep, Command::Claim { now: NOW, word: 0 })?;
    let copied = play_file(rt, &mut keep, "replies-while-a-file-is-copied.rows")?;
    Ok(waiting.saturating_add(copied))
}

/// A finished file, which shows its digest.
fn over_a_finished_job(rt: &HostRuntime) -> io::Result<u32> {
    let alloc = rt.alloc();
    let mut keep = keep(alloc, Vec::new(alloc))?;
    let first = play_file(rt, &mut keep, FIRST)?;
    apply(rt, &mut keep, Command::Claim { now: NOW, word: 0 })?;
    let digest = *b"\x90\x01\x50\x98\x3c\xd2\x4f\xb0\xd6\x96\x3f\x7d\x28\xe1\x7f\x72";
    let report = Command::Report {
        now: NOW,
        file: 1,
        attempt: 1,
        outcome: Outcome::Verified { size: 3, digest },
    };
    apply(rt, &mut keep, report)?;
    let then = play_file(rt, &mut keep, "replies-over-a-finished-job.rows")?;
    Ok(first.saturating_add(then))
}

/// Bans over waiting files and over one that is copied.
fn to_bans(rt: &HostRuntime) -> io::Result<u32> {
    let alloc = rt.alloc();
    let waiting = over_a_new_keep(rt, Vec::new(alloc), "replies-to-bans.rows")?;
    let mut keep = keep(alloc, Vec::new(alloc))?;
    let first = play_file(rt, &mut keep, FIRST)?;
    apply(rt, &mut keep, Command::Claim { now: NOW, word: 0 })?;
    let copied = play_file(
        rt,
        &mut keep,
        "replies-to-a-ban-while-a-file-is-copied.rows",
    )?;
    Ok(waiting.saturating_add(first).saturating_add(copied))
}

/// Entries of the journal, over a disk that does its part and over one whose first call behind the start fails.
fn to_looks_at_entries(rt: &HostRuntime) -> io::Result<u32> {
    let alloc = rt.alloc();
    let looks = over_a_new_keep(rt, Vec::new(alloc), "replies-to-looks-at-entries.rows")?;
    let failing = over_a_new_keep(
        rt,
        [8].to_vec(alloc)?,
        "replies-to-a-look-that-fails-once.rows",
    )?;
    Ok(looks.saturating_add(failing))
}

/// Plays each file, and prints what is otherwise than wanted, and how many replies were as wanted.
pub fn play_all(rt: &HostRuntime) -> io::Result<()> {
    let alloc = rt.alloc();
    let none = over_a_new_keep(rt, Vec::new(alloc), "replies-over-no-job.rows")?;
    print_count(rt, "replies over no job as wanted", none)?;
    print_count(rt, "replies to each method as wanted", to_each_method(rt)?)?;
    print_count(rt, "replies over two jobs as wanted", over_two_jobs(rt)?)?;
    let finished = over_a_finished_job(rt)?;
    print_count(rt, "replies over a finished job as wanted", finished)?;
    let own = over_a_new_keep(rt, Vec::new(alloc), "replies-to-an-own-id-twice.rows")?;
    print_count(rt, "replies to an own id twice as wanted", own)?;
    let failing = over_a_new_keep(
        rt,
        [8].to_vec(alloc)?,
        "replies-over-a-disk-that-fails-once.rows",
    )?;
    print_count(rt, "replies over a disk that fails once as wanted", failing)?;
    print_count(rt, "replies to each change as wanted", to_each_change(rt)?)?;
    print_count(rt, "replies to bans as wanted", to_bans(rt)?)?;
    let looks = to_looks_at_entries(rt)?;
    print_count(rt, "replies to looks at entries as wanted", looks)
}
