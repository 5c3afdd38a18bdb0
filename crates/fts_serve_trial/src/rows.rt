//! The rows, each a run of its own.
use crate::stand::{Left, no_memory, run_over};
use crate::talking::{Role, Talk, TalkingDoors};
use fts_disk::MemoryDisk;
use fts_tables::Memory;
use fts_top::{Doors, MemoryDoors};
use fts_wire::{MemoryLine, MemorySink, MemorySource};
use std::alloc::Global;
use std::io;
use std::sync::Wait;
use std::thread::Threads;

/// A submission of one file.
const SUBMISSION: &str =
    "POST /jobs HTTP/1.1\r\nContent-Length: 93\r\n\r\n{\"files\":[{\"sources\":[\"https://a.example/data/f1\"],\"destinations\":[\"https://b.example/f1\"]}]}";

/// A look at the first job, which says close.
const JOB: &str =
    "GET /jobs/00000000-0000-4000-8000-000000000001 HTTP/1.1\r\nConnection: close\r\n\r\n";

/// Eight doors: the first of them gives a line of each of these inputs, and its calls with these numbers fail.
fn doors_with(alloc: Global, inputs: &[&str], fail: &[u64]) -> Result<Vec<MemoryDoors>, Memory> {
    let mut all = Vec::new(alloc);
    for place in 0..8 {
        let mut lines = Vec::new(alloc);
        let mut fails = Vec::new(alloc);
        if place == 0 {
            fails = fail.to_vec(alloc)?;
            for input in inputs {
                let source = MemorySource::new(input.as_bytes().to_vec(alloc)?, Vec::new(alloc));
                let line = MemoryLine::new(source, MemorySink::new(alloc, Vec::new(alloc)));
                if lines.push(line).is_err() {
                    return Err(Memory);
                }
            }
        }
        let Ok(doors) = MemoryDoors::new(alloc, lines, fails) else {
            return Err(Memory);
        };
        if all.push(doors).is_err() {
            return Err(Memory);
        }
    }
    Ok(all)
}

/// Prints how a run ended.
fn print_ending<A: Doors>(rt: &HostRuntime, row: &str, left: &Left<A>) -> io::Result<()> {
    let ending = left.ending;
    println!(rt;
        "{row}: status {}, claims {}, finished {}, failed {}, cancelled {}, waiting {}",
        ending.status,
        ending.tally.claims,
        ending.tally.finished,
        ending.tally.failed,
        ending.tally.cancelled,
        ending.tally.waiting
    )
}

/// Prints how a run ended, of which nothing else is asked.
fn end_row<A: Doors + Drop>(
    rt: &HostRuntime,
    row: &str,
    ran: Result<Left<A>, Memory>,
) -> io::Result<()> {
    let left = ran.map_err(no_memory)?;
    print_ending(rt, row, &left)
}

/// A run of these words over doors with these inputs, of which these calls fail, and the bytes of its first connection's responses.
fn play<R: Threads + Wait + Sync>(
    rt: &HostRuntime,
    threads: &R,
    row: &str,
    words: &[&str],
    inputs: &[&str],
    fail: &[u64],
    disk: MemoryDisk,
) -> io::Result<Left<MemoryDoors>> {
    let doors = doors_with(rt.alloc(), inputs, fail).map_err(no_memory)?;
    let left = run_over(rt.alloc(), threads, words, doors, disk).map_err(no_memory)?;
    print_ending(rt, row, &left)?;
    Ok(left)
}

/// One connection submits a job, and a second run over the same journal answers for it.
fn play_one_connection<R: Threads + Wait + Sync>(rt: &HostRuntime, threads: &R) -> io::Result<()> {
    let alloc = rt.alloc();
    let words = [
        "serve",
        "--port",
        "8080",
        "--lanes",
        "1",
        "--connections",
        "1",
    ];
    let disk = MemoryDisk::new(alloc, Vec::new(alloc));
    let first = play(
        rt,
        threads,
        "one connection",
        &words,
        &[SUBMISSION],
        &[],
        disk,
    )?;
    let again = play(rt, threads, "the next run", &words, &[JOB], &[], first.disk)?;
    let mut found = false;
    for lane in again.lanes.iter() {
        for line in lane.doors.back() {
            found = found
                || line
                    .bytes()
                    .windows(10)
                    .any(|word| word == b"\"FINISHED\"".as_slice());
        }
    }
    println!(rt; "it answers that the job is finished: {found}")
}

/// Doors that fail as they listen, as they share, and as they are to give a connection.
fn play_failing_doors<R: Threads + Wait + Sync>(rt: &HostRuntime, threads: &R) -> io::Result<()> {
    let alloc = rt.alloc();
    let words = ["serve", "--port", "8080", "--lanes", "2"];
    for (row, fail) in [
        ("doors that don't listen", 1),
        ("doors that give no connection", 2),
    ] {
        let disk = MemoryDisk::new(alloc, Vec::new(alloc));
        let left = play(rt, threads, row, &words, &[], &[fail], disk)?;
        if left.notes.bytes() != b"fts: doors failed\n".as_slice() {
            println!(rt; "another note")?;
        }
    }
    Ok(())
}

/// Two connections that wait for each other, one of which looks until its file is copied.
fn play_two_connections<R: Threads + Wait + Sync>(rt: &HostRuntime, threads: &R) -> io::Result<()> {
    let alloc = rt.alloc();
    let talk = Talk::new();
    let mut doors = Vec::new(alloc);
    for place in 0..8 {
        let one = match place {
            0 => TalkingDoors::of(&talk, Role::Submits),
            1 => TalkingDoors::of(&talk, Role::Lists),
            _ => TalkingDoors::closed(),
        };
        if doors.push(one).is_err() {
            return Err(no_memory(Memory));
        }
    }
    let words = [
        "serve",
        "--port",
        "8080",
        "--lanes",
        "2",
        "--connections",
        "1",
    ];
    let disk = MemoryDisk::new(alloc, Vec::new(alloc));
    let ran = run_over(rt.alloc(), threads, &words, doors, disk);
    end_row(rt, "two connections", ran)?;
    println!(rt; "one of them was late: {}", talk.is_late())
}

/// Plays all rows.
pub fn play_all<R: Threads + Wait + Sync>(rt: &HostRuntime, threads: &R) -> io::Result<()> {
    play_one_connection(rt, threads)?;
    play_failing_doors(rt, threads)?;
    play_two_connections(rt, threads)
}
