//! Requests, one after another, from a source.
//! Keeps: what is kept followed by what the source has left loses exactly the request (`load`, clause `next`); what was found stands in the bytes
//! taken alone, and each read of a call is made only while they are less than a request (clause `taken`).
//! Order of a load: the last request's bytes are given up; then look, and read a piece, until the look is no longer short and its body is there.
//! Format: docs/FORMATS.md, "HTTP".
ghost use Rattle.std.specs.Prelude.{◌≡◌, ◌≤◌, [], Err, None, IfOk, IfSome, IsUtf8, List, MatchBool, ℕ, length, true, option_copied, ⊤};
ghost use Rattle.std.specs.Borrow.{sem, follows_so};
ghost use mathlib.Core.Option.{none};
ghost use Rattle.fts_tables.specs.Counts.{Rose};
ghost use Rattle.httparse.specs.Spans.{span_bytes, IsWithin};
ghost use Rattle.fts_wire.specs.RequestData.{path_of, query_of};
ghost use Rattle.fts_wire.specs.Lines.{EndsNoLine};
ghost use Rattle.fts_wire.specs.Look.{Short, StandsAt, IsSpanned, head_bytes, sight_of};
ghost use Rattle.fts_wire.specs.Requests.{next_of, Closed, EndsInside};
ghost use Rattle.fts_wire.specs.Taken.{pending, loads, reads_without, LooksLike, IsNext, IsTaken, IsStep, IsKnown, Takes};
ghost use Rattle.fts_wire.specs.Room.{taken_by};
ghost use Rattle.fts_wire.specs.declared.buffer.TheConstants.{BUFFER_BYTES};
ghost use Rattle.fts_wire.specs.Answered.{request_data, IsNextRequest, IsFound};
ghost use Rattle.fts_wire.specs.contracts.request.Room.{the_row};

use crate::buffer::Buffer;
use crate::lines::count_blanks;
use crate::look::{Head, Look, look_at};
use crate::{Source, SourceFailed, WireFault};
use fts_tables::Memory;
use fts_tables::limits::MAX_HEAD_BYTES;
use httparse::spans::Span;
use std::alloc::Global;
use std::marker::Model;
use std::str;

/// The room of a connection: its buffers, and the request that was loaded last. It keeps the bytes that were read past a request.
pub struct Room {
    buffer: Buffer,
    head: Head,
}

impl Drop for Room {
    fn drop(self) {
        let Room { buffer: _, head: _ } = self;
    }
}

impl Model for Room {
    ghost use Rattle.fts_wire.specs.RoomData.{RoomData};

    ghost Value = { RoomData };

    ghost use Rattle.fts_wire.specs.Room.{room_data, IsRoom};

    ghost view = { room_data };

    ghost invariant = { IsRoom };
}

/// A request, as it stands in a room: its method, its target split at the first `?`, its body of at most 1,048,576 bytes,
/// and whether the connection ends behind it.
#[derive(Clone, Copy)]
pub struct Request<'a> {
    pub method: &'a str,
    pub path: &'a str,
    pub query: Option<&'a str>,
    pub body: &'a [u8],
    pub close: bool,
}

impl Room {
    /// The room, with nothing in it. The memory of a connection is taken here, once.
    pub fn new(alloc: Global) -> Result<Room, Memory>
        ensures { IfOk result (λ r. r.kept ≡ []) }
    {
        let buffer = Buffer::new(alloc)?;
        Ok(Room {
            buffer,
            head: no_head(),
        })
    }

    /// Drops the bytes that were read past the request that was loaded last.
    pub fn clear(&mut self)
        ensures { self.new ≡ record self.old { kept = [] } }
    {
        self.buffer.keep(taken(self.head));
    }

    /// The request that was loaded last.
    pub fn request(&self) -> Request<'_>
        ensures { request_data result ≡ self.now.request }
    {
        let bytes = &self.buffer.as_slice()[self.head.before..];
        let own = &bytes[..self.head.size];
        let rest = &bytes[self.head.size..];
        let (path, query) = split_target(text_at(own, self.head.target));
        Request {
            method: text_at(own, self.head.method),
            path,
            query,
            body: &rest[..self.head.body],
            close: self.head.close,
        }
    }

    /// Loads the next request. `Ok(false)` where the input ended with no byte but CR and LF left, which are then taken away.
    /// A fault is that of the bytes that stand first, or `SourceFailed`, where a read failed; then all bytes are kept.
    /// It takes no memory, and reads nothing past the piece in which the request ends.
    pub fn load<S: Source>(&mut self, source: &mut S) -> Result<bool, WireFault>
        ensures next { IsNext (pending self.old.kept (S.left source.old)) (pending self.new.kept (S.left source.new)) self.new result }
        ensures taken { IsTaken self.old.kept (S.left source.old) (S.left source.new) (S.reads source.old) (S.reads source.new) self.new result }
        ensures failed { result ≡ Err WireFault.SourceFailed → Rose (S.faults source.old) (S.faults source.new) }
        ensures faults { S.faults source.old ≤ S.faults source.new }
        ensures beside { S.beside source.new ≡ S.beside source.old }
    {
        self.buffer.skip(taken(self.head));
        self.head = no_head();
        match fill(source, &mut self.buffer) {
            Err(fault) => Err(fault),
            Ok(None) => {
                self.buffer.keep(0);
                Ok(false)
            }
            Ok(Some(head)) => {
                self.head = head;
                Ok(true)
            }
        }
    }

    /// The loaded request, where a load found one.
    fn found(&self, found: Result<bool, WireFault>) -> Result<Option<Request<'_>>, WireFault>
        ensures { IsFound self.now found result }
    {
        match found {
            Err(fault) => Err(fault),
            Ok(false) => Ok(None),
            Ok(true) => Ok(Some(self.request())),
        }
    }
}

/// No head, before the first load.
fn no_head() -> Head
    ensures size { taken_by result ≡ 0 }
    ensures spans { (bytes : List ℕ) → IsSpanned (head_bytes bytes result) result }
{
    Head {
        before: 0,
        size: 0,
        body: 0,
        method: Span { start: 0, end: 0 },
        target: Span { start: 0, end: 0 },
        close: false,
    }
}

/// How many bytes a request takes, with those before its head.
fn taken(head: Head) -> usize
    requires few { taken_by head ≤ BUFFER_BYTES }
    ensures { result ≡ taken_by head }
{
    head.before + head.size + head.body
}

/// A text that stands in the bytes of a head.
fn text_at(own: &[u8], span: Span) -> &str
    requires within { IsWithin (length own.now) span }
    requires text { IsUtf8 (span_bytes own.now span) }
    ensures { result.now ≡ span_bytes own.now span }
{
    match str::from_utf8(span.of(own)) {
        Ok(text) => text,
        Err(_) => unreachable!(),
    }
}

/// A target's path and its query.
fn split_target(target: &str) -> (&str, Option<&str>)
    ensures path { result.0.now ≡ path_of target.now }
    ensures query { option_copied result.1 ≡ query_of target.now }
{
    match target.split_once('?') {
        Some((path, query)) => (path, Some(query)),
        None => (target, None),
    }
}

/// Reads until a request stands whole in the bytes, and gives its head. It looks again only behind a piece in which a line ends,
/// and not for a head that was found.
fn fill<S: Source>(source: &mut S, buffer: &mut Buffer) -> Result<Option<Head>, WireFault>
    ensures takes { Takes buffer.old (S.left source.old) buffer.new (S.left source.new)
        (S.reads source.old) (S.reads source.new) (reads_without (loads result)) }
    ensures look { LooksLike buffer.new (S.left source.new) (S.faults source.old) (S.faults source.new) result }
    ensures faults { S.faults source.old ≤ S.faults source.new }
    ensures beside { S.beside source.new ≡ S.beside source.old }
{
    let mut found: Option<Head> = None;
    let mut is_known = false;
    'reading: loop {
        found = match look_further(buffer.as_slice(), found, is_known) {
            Step::Whole(head) => return Ok(Some(head)),
            Step::Refused(fault) => return Err(fault),
            Step::More(found) => found,
        };
        let n = match buffer.read_from(source) {
            Ok(n) => n,
            Err(SourceFailed) => return Err(WireFault::SourceFailed),
        };
        if n == 0 {
            return if is_clean_end(buffer.as_slice(), found) {
                Ok(None)
            } else {
                Err(WireFault::EndsInside)
            };
        }
        is_known = ends_no_line(buffer.as_slice(), n, found);
    }
}

/// How far bytes have come: to a whole request, to a fault, or less; then with its head, where that is there.
#[derive(Clone, Copy)]
enum Step {
    Whole(Head),
    Refused(WireFault),
    More(Option<Head>),
}

/// How far these bytes have come, in which a head may have been found, or which may be known to be less than one.
fn look_further(bytes: &[u8], found: Option<Head>, is_known: bool) -> Step
    requires found { IfSome found (StandsAt bytes.now) }
    requires known { is_known ≡ true → sight_of bytes.now ≡ Short }
    ensures { IsStep bytes.now result }
{
    if is_known {
        return Step::More(None);
    }
    match found {
        Some(head) => step_behind(bytes, head),
        None => match look_at(bytes) {
            Look::Short => Step::More(None),
            Look::Refused(fault) => Step::Refused(fault),
            Look::Found(head) => step_behind(bytes, head),
        },
    }
}

/// Whether no head was found, no line ends in the last bytes, so many, and all are fewer than a head may have.
/// Then they are less than a head, as they were without the last ones.
fn ends_no_line(bytes: &[u8], last: usize, found: Option<Head>) -> bool
    requires within { last ≤ length bytes.now }
    ensures none { result ≡ true → found ≡ None }
    ensures line { result ≡ true → EndsNoLine bytes.now last }
{
    found.is_none() && bytes.len() < MAX_HEAD_BYTES && !bytes[bytes.len() - last..].contains(&b'\n')
}

/// How far these bytes have come, in which a head was found.
fn step_behind(bytes: &[u8], head: Head) -> Step
    requires found { StandsAt bytes.now head }
    ensures { IsStep bytes.now result }
{
    if head.body <= bytes.len() - head.before - head.size {
        Step::Whole(head)
    } else {
        Step::More(Some(head))
    }
}

/// Whether the input ends between requests, where these bytes are less than one.
fn is_clean_end(bytes: &[u8], found: Option<Head>) -> bool
    requires known { IsKnown bytes.now found }
    ensures { MatchBool result (next_of bytes.now ≡ Closed) (next_of bytes.now ≡ EndsInside) }
{
    found.is_none() && count_blanks(bytes) == bytes.len()
}

/// The next request, where there is one: `None` where the input ended with no byte but CR and LF left.
/// The faults are those of `Room::load`.
/// The bytes of the request that the room lent before are given up.
pub fn next_request<'a, S: Source>(
    room: &'a mut Room,
    source: &mut S,
) -> Result<Option<Request<'a>>, WireFault>
    ensures* after { sem 𝓛 (follows_so the_row the_row room.entry.ghost_name none (λ _ _. ⊤)
        (λ n. IsNextRequest room.old.kept (S.left source.old) (S.left source.new) (S.reads source.old) (S.reads source.new) n result)) }
    ensures failed { result ≡ Err WireFault.SourceFailed → Rose (S.faults source.old) (S.faults source.new) }
    ensures faults { S.faults source.old ≤ S.faults source.new }
    ensures beside { S.beside source.new ≡ S.beside source.old }
{
    let found = room.load(source);
    room.found(found)
}
