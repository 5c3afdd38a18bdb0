//! Connections whose bytes come in pieces: the input of `NAME.in.http`, cut in two at each of twelve places or a byte at a time, is answered by
//! `NAME.out.http`, byte for byte, and ends as `NAME.ends` says: the status, what became of the files, and the line that is noted.
//! Each is a session over a disk and a store in memory. The bytes were written by hand; the id of the client's own id is Python's, by `uuid.uuid5` twice.
//! The first of them is the example for users, `examples/two-submissions.http` and its reply, byte for byte.
ghost use Rattle.std.specs.Prelude.{◌≤◌, length};

use crate::stand::{Ended, SETTINGS, count_row, hands_with, make_given, print_count, run_anew};
use fts_disk::MemoryDisk;
use fts_store::MemoryStore;
use fts_wire::{Source, SourceFailed};
use std::alloc::Global;
use std::{fs, io};

/// Where inputs are cut in two, and 0 for a byte at a time: within and at the end of each line of a head of 43 bytes and of a body of 93.
const CUTS: [usize; 12] = [0, 1, 19, 20, 21, 40, 41, 42, 43, 90, 135, 136];

const CONNECTIONS: [&str; 24] = [
    "cut-two-submissions",
    "cut-nothing",
    "cut-no-json-and-a-plain-request-behind-it",
    "cut-no-files",
    "cut-a-checksum-that-is-no-md5-verified",
    "cut-a-url-with-a-query-and-a-path-with-two-dots",
    "cut-an-endpoint-that-is-not-there",
    "cut-a-source-that-is-its-destination",
    "cut-one-clients-id-twice-and-a-job-without-one",
    "cut-three-files",
    "cut-three-replicas-of-one-file-in-order",
    "cut-two-hops",
    "cut-keys-in-another-order-and-blanks",
    "cut-half-a-head-behind-a-request",
    "cut-a-body-that-lacks-its-last-byte",
    "cut-another-version-and-a-plain-request-behind-it",
    "cut-65-lines-behind-the-first",
    "cut-two-lengths-of-one-value",
    "cut-chunks-with-a-bad-length",
    "cut-a-body-of-1-mib-and-a-byte",
    "cut-a-request-that-says-close-and-one-behind-it",
    "cut-a-request-of-version-1.0-and-half-a-head-behind-it",
    "cut-a-head-alone-and-a-request-behind-it",
    "cut-a-submission-and-a-look-at-it-as-curl-sends-them",
];

/// What is sent in one connection, and what is seen of it.
#[derive(Drop)]
struct Connection {
    input: Vec<u8>,
    output: Vec<u8>,
    ends: Vec<u8>,
}

/// A source whose first read takes so many bytes, and each later one up to a piece.
#[derive(Drop)]
struct Pieces {
    bytes: Vec<u8>,
    at: usize,
    first: usize,
    piece: usize,
    reads: u64,
    ghost within: { at ≤ length bytes.items },
}

impl Source for Pieces {
    ghost use Rattle.std.specs.Prelude.{None};
    ghost use Rattle.fts_wire.specs.Outside.{nothing_beside};

    ghost left = { λ _. None };

    ghost faults = { λ _. 0 };

    ghost reads = { λ source. source.reads };

    ghost beside = { λ _. nothing_beside };

    fn read(&mut self, into: &mut [u8]) -> Result<usize, SourceFailed> {
        self.reads = self.reads.saturating_add(1);
        let most = if self.at == 0 { self.first } else { self.piece };
        let n = (self.bytes.len() - self.at).min(most).min(into.len());
        let end = self.at + n;
        into[..n].copy_from_slice(&self.bytes[self.at..end]);
        self.at = end;
        Ok(n)
    }
}

/// The bytes, cut in two there, or a byte at a time.
fn make_pieces(alloc: Global, bytes: &[u8], cut: usize) -> io::Result<Pieces> {
    Ok(Pieces {
        bytes: bytes.to_vec(alloc)?,
        at: 0,
        first: cut.max(1),
        piece: if cut == 0 { 1 } else { bytes.len() },
        reads: 0,
    })
}

/// What the file of a connection with this ending holds.
fn read_part(rt: &HostRuntime, name: &str, ending: &str) -> io::Result<Vec<u8>> {
    let path = format!(in rt.alloc(); "{name}{ending}")?;
    fs::read(rt, path.as_str())
}

/// How a session ended, as the file `NAME.ends` writes it.
fn ends_of(alloc: Global, ended: &Ended<MemoryDisk, MemoryStore>) -> io::Result<Vec<u8>> {
    let tally = ended.ending.tally;
    let text = format!(in alloc;
        "status {}\nclaims {} finished {} failed {} waiting {}\n",
        ended.ending.status, tally.claims, tally.finished, tally.failed, tally.waiting
    )?;
    let mut ends = text.as_bytes().to_vec(alloc)?;
    ends.extend_from_slice(ended.notes.bytes())?;
    Ok(ends)
}

/// Whether a connection that is cut there is answered as it is written.
fn is_answered(alloc: Global, connection: &Connection, cut: usize) -> io::Result<bool> {
    let input = make_pieces(alloc, connection.input.as_slice(), cut)?;
    let given = make_given(alloc, SETTINGS, input)?;
    let hands = hands_with(alloc, &["data/f1"], Vec::new(alloc))?;
    let ended = run_anew(alloc, &["session"], given, hands)?;
    let ends = ends_of(alloc, &ended)?;
    Ok(
        ended.output.bytes() == connection.output.as_slice()
            && ends.as_slice() == connection.ends.as_slice(),
    )
}

/// Plays a connection at each cut.
fn play(rt: &HostRuntime, name: &str) -> io::Result<u32> {
    let alloc = rt.alloc();
    let connection = Connection {
        input: read_part(rt, name, ".in.http")?,
        output: read_part(rt, name, ".out.http")?,
        ends: read_part(rt, name, ".ends")?,
    };
    let mut same: u32 = 0;
    for cut in CUTS {
        let row = format!(in alloc; "{name}, cut at {cut}")?;
        let is_wanted = is_answered(alloc, &connection, cut)?;
        same = same.saturating_add(count_row(rt, row.as_str(), is_wanted)?);
    }
    Ok(same)
}

/// Plays each connection at each cut, and prints what is otherwise than it is written, and how many were as written.
pub fn play_all(rt: &HostRuntime) -> io::Result<()> {
    let mut same: u32 = 0;
    for name in &CONNECTIONS {
        same = same.saturating_add(play(rt, name)?);
    }
    print_count(rt, "connections in pieces as written", same)
}
