//! Entries and answers that are written by hand, and links in memory that give those answers.
//! Writer 3 cancels jobs 1 to 4 at moment 1700000000, and job 9 where another entry is wanted (`docs/FORMATS.md`, "Entries").
ghost use Rattle.std.specs.Prelude.{◌≡◌, false, IfOk};
ghost use Rattle.fts_client.specs.MemoryLinks.{has_failed};

use fts_client::MemoryLink;
use fts_disk::MemoryDisk;
use fts_journal::Journal;
use fts_wire::{MemoryLine, MemorySink, MemorySource};
use std::alloc::Global;
use std::test::Fail;

/// The port that each row dials.
pub const PORT: u16 = 8080;

/// The number of a call that never comes.
pub const NEVER: u64 = 1_000_000;

/// A number of a dial that never comes.
pub const NO_DIAL: u32 = 1_000_000;

/// The spellings of the entries.
pub const ENTRIES: [[u8; 8]; 4] = [
    [0x03, 0x03, 0x80, 0xe2, 0xcf, 0xaa, 0x06, 0x01],
    [0x03, 0x03, 0x80, 0xe2, 0xcf, 0xaa, 0x06, 0x02],
    [0x03, 0x03, 0x80, 0xe2, 0xcf, 0xaa, 0x06, 0x03],
    [0x03, 0x03, 0x80, 0xe2, 0xcf, 0xaa, 0x06, 0x04],
];

pub const FIRST: &str =
    "HTTP/1.1 200 OK\r\nContent-Type: application/json\r\nContent-Length: 48\r\nConnection: close\r\n\r\n{\"body\":\"030380e2cfaa0601\",\"count\":3,\"number\":0}";

pub const SECOND: &str =
    "HTTP/1.1 200 OK\r\nContent-Type: application/json\r\nContent-Length: 48\r\nConnection: close\r\n\r\n{\"body\":\"030380e2cfaa0602\",\"count\":3,\"number\":1}";

pub const THIRD: &str =
    "HTTP/1.1 200 OK\r\nContent-Type: application/json\r\nContent-Length: 48\r\nConnection: close\r\n\r\n{\"body\":\"030380e2cfaa0603\",\"count\":3,\"number\":2}";

pub const OTHER_FIRST: &str =
    "HTTP/1.1 200 OK\r\nContent-Type: application/json\r\nContent-Length: 48\r\nConnection: close\r\n\r\n{\"body\":\"030380e2cfaa0609\",\"count\":3,\"number\":0}";

pub const OTHER_FOURTH: &str =
    "HTTP/1.1 200 OK\r\nContent-Type: application/json\r\nContent-Length: 48\r\nConnection: close\r\n\r\n{\"body\":\"030380e2cfaa0609\",\"count\":4,\"number\":3}";

pub const NO_ENTRY_BYTES: &str =
    "HTTP/1.1 200 OK\r\nContent-Type: application/json\r\nContent-Length: 36\r\nConnection: close\r\n\r\n{\"body\":\"0303\",\"count\":3,\"number\":0}";

pub const NO_OBJECT: &str =
    "HTTP/1.1 200 OK\r\nContent-Type: application/json\r\nContent-Length: 2\r\nConnection: close\r\n\r\n[]";

pub const NO_ENTRY: &str =
    "HTTP/1.1 404 Not Found\r\nContent-Type: application/json\r\nContent-Length: 45\r\nConnection: close\r\n\r\n{\"message\":\"no entry\",\"rule\":47,\"status\":404}";

pub const NO_ROUTE: &str =
    "HTTP/1.1 404 Not Found\r\nContent-Type: application/json\r\nContent-Length: 45\r\nConnection: close\r\n\r\n{\"message\":\"no route\",\"rule\":30,\"status\":404}";

pub const DISK_FAILED: &str =
    "HTTP/1.1 503 Service Unavailable\r\nContent-Type: application/json\r\nContent-Length: 48\r\nConnection: close\r\n\r\n{\"message\":\"disk failed\",\"rule\":35,\"status\":503}";

pub const CUT: &str = "HTTP/1.1 200 OK\r\nCon";

/// A line that answers this.
fn line(alloc: Global, answer: &str) -> Result<MemoryLine, Fail>
    ensures { IfOk result (λ made. has_failed made ≡ false) }
{
    let source = MemorySource::new(answer.as_bytes().to_vec(alloc)?, vec![in alloc; NEVER]?);
    let sink = MemorySink::new(alloc, vec![in alloc; NEVER]?);
    Ok(MemoryLine::new(source, sink))
}

/// A link of four lines that answer these. The dial of this number fails.
pub fn link(alloc: Global, answers: [&str; 4], fail: u32) -> Result<MemoryLink, Fail> {
    let first = line(alloc, answers[0])?;
    let second = line(alloc, answers[1])?;
    let third = line(alloc, answers[2])?;
    let fourth = line(alloc, answers[3])?;
    let lines = vec![in alloc; first, second, third, fourth]?;
    match MemoryLink::new(alloc, lines, vec![in alloc; fail]?) {
        Ok(link) => Ok(link),
        Err(_) => Err(Fail::new("no link")),
    }
}

/// A journal of the first entries, over a disk whose call of this number fails.
pub fn journal(alloc: Global, entries: usize, fail: u32) -> Result<Journal<MemoryDisk>, Fail> {
    let disk = MemoryDisk::new(alloc, vec![in alloc; fail]?);
    let mut journal = match Journal::create(alloc, disk) {
        Ok(journal) => journal,
        Err(_) => return Err(Fail::new("no journal")),
    };
    for entry in ENTRIES.iter().take(entries) {
        if journal.doubt() || journal.append(entry.as_slice()).is_err() {
            return Err(Fail::new("an entry is not appended"));
        }
    }
    Ok(journal)
}

/// Whether a journal has the first entries and no others.
pub fn has(alloc: Global, journal: &mut Journal<MemoryDisk>, entries: usize) -> bool {
    let mut body = Vec::new(alloc);
    for (number, entry) in ENTRIES.iter().take(entries).enumerate() {
        if number >= journal.count()
            || journal.body(number, &mut body).is_err()
            || body.as_slice() != entry.as_slice()
        {
            return false;
        }
    }
    journal.count() == entries
}
