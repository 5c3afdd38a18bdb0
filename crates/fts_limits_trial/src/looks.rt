//! Looks at full tables, by requests: each prints its status, and how often what it is to list stands in its body.
use crate::commands::{Kept, NOW};
use fts_routes::{Routes, answer};
use fts_tables::Memory;
use fts_wire::{MemorySource, Room, next_request};
use std::io;

/// Each target, and what is counted in the body of its reply.
const LOOKS: [(&str, &str); 4] = [
    ("/jobs?limit=1000", "\"job_id\":"),
    ("/jobs?state_in=ACTIVE&limit=1000", "\"job_id\":"),
    (
        "/jobs/00000000-0000-4000-8000-000000000004/files",
        "\"file_id\":",
    ),
    ("/journal/100850", "\"count\":100851,\"number\":100850}"),
];

fn no_memory(_: Memory) -> io::Error {
    io::Error::from(io::ErrorKind::OutOfMemory)
}

/// How often a text stands in bytes.
fn count_in(bytes: &[u8], text: &str) -> usize {
    match std::str::from_utf8(bytes) {
        Ok(body) => body.matches(text).count(),
        Err(_) => 0,
    }
}

/// Asks for a target, and prints what it is answered.
fn look(
    rt: &HostRuntime,
    routes: &Routes,
    keep: &mut Kept,
    target: &str,
    counted: &str,
) -> io::Result<()> {
    let alloc = rt.alloc();
    let asked = format!(in alloc; "GET {target} HTTP/1.1\r\n\r\n")?;
    let mut source = MemorySource::new(asked.as_bytes().to_vec(alloc)?, Vec::new(alloc));
    let mut room = Room::new(alloc).map_err(no_memory)?;
    match next_request(&mut room, &mut source) {
        Ok(Some(request)) => {
            let reply = answer(alloc, routes, keep, 1, &request, NOW);
            let count = count_in(reply.body.as_slice(), counted);
            println!(rt; "GET {target}: {}, {count} of {counted}", reply.status)
        }
        Ok(None) | Err(_) => println!(rt; "GET {target}: no request"),
    }
}

/// Plays the looks.
pub fn play_all(rt: &HostRuntime, keep: &mut Kept) -> io::Result<()> {
    let routes = Routes::new(rt.alloc()).map_err(no_memory)?;
    for (target, counted) in LOOKS {
        look(rt, &routes, keep, target, counted)?;
    }
    Ok(())
}
