//! What doors and lines decide by what the system answered. The socket loops carry it out and decide nothing else.
//! Keeps: each is one function of its answer, with an equation over the system's own numbers (`specs/Steps.antt`).
ghost use Rattle.std.specs.Prelude.{◌≡◌, pos};
ghost use Rattle.std.specs.Duration.{as_nanos};
ghost use Rattle.std.specs.Net.Addr.{ipv4_octets};
ghost use Rattle.fts_devices.specs.Steps.{IsLeft, IsOwnTime, drains_on, is_dead, is_end, loopback, may_send, poll_millis, seen_by, untaken_by};

use libc::net::POLLIN;
use std::io::{self, ErrorKind};
use std::net::Ipv4Addr;
use std::time::Duration;

/// What follows a connection that was not taken.
#[derive(Clone, Copy, Debug, PartialEq, Eq)]
pub enum Untaken {
    /// It is gone, to another lane or altogether, and the next one may be there.
    Gone,
    /// None can be taken for now.
    NotYet,
    /// There is no listener.
    NoListener,
}

/// What a refused accept means, by the system's number (errno of POSIX, as Linux numbers it; 0 where it gave none). Want of descriptors or of
/// memory ends once other lines are closed.
pub fn untaken_by(errno: u32) -> Untaken
    ensures { result ≡ untaken_by errno }
{
    match errno {
        4 | 11 | 103 => Untaken::Gone,
        9 | 22 | 88 => Untaken::NoListener,
        _ => Untaken::NotYet,
    }
}

/// The address that a service listens on: this machine's own, which no other machine reaches.
pub fn address() -> Ipv4Addr
    ensures { ipv4_octets result ≡ loopback }
{
    Ipv4Addr::new(127, 0, 0, 1)
}

/// Whether what stands at a path is a dead socket, that of a service which has ended: a bind there was refused because the path is in use, it is a
/// socket, and a connection is refused since nobody listens. The refusals are the system's numbers (errno of POSIX, as Linux numbers it; 0 where there
/// was none).
pub fn is_dead(bind: u32, is_socket: bool, connect: u32) -> bool
    ensures { result ≡ is_dead bind is_socket connect }
{
    bind == 98 && is_socket && connect == 111
}

/// What is left of a time, which is not 0. An error of its own kind, `TimedOut`, where nothing is left.
pub fn time_left(whole: Duration, passed: Duration) -> io::Result<Duration>
    ensures { IsLeft whole passed result }
{
    match whole.checked_sub(passed) {
        Some(left) if !left.is_zero() => Ok(left),
        Some(_) | None => Err(io::Error::from(ErrorKind::TimedOut)),
    }
}

/// Whether more is taken in at the end of a line, behind a read that gave so many bytes, where so many came in all, and so many at most are taken in.
pub fn drains_on(count: usize, taken: usize, most: usize) -> bool
    ensures { result ≡ drains_on count taken most }
{
    count != 0 && taken < most
}

/// Whether a read shows that the input has ended: there was room for so many bytes, and it gave none.
pub fn is_end(count: usize, room: usize) -> bool
    ensures { result ≡ is_end count room }
{
    count == 0 && room > 0
}

/// Whether a client may still be sending where its line ends, so that what comes is taken in before the line is closed: its input hasn't ended,
/// and no read and no write of the line has failed so far.
pub fn may_send(is_at_end: bool, read_faults: u64, write_faults: u64) -> bool
    ensures { result ≡ may_send is_at_end read_faults write_faults }
{
    !is_at_end && read_faults == 0 && write_faults == 0
}

/// What a look at a silent line, and at the listener beside it, found.
#[derive(Clone, Copy, Debug, PartialEq, Eq)]
pub enum Seen {
    /// The line has something to be read, or a read will tell its fault.
    Line,
    /// The line has nothing, and a connection waits at the listener.
    Waiting,
    /// Neither came in time.
    Nothing,
}

/// What a look found, by the system's answer: its count, negative where it failed, and the events of the line and of the listener.
pub fn seen_by(count: i32, line: i16, listener: i16) -> Seen
    ensures { result ≡ seen_by count line listener }
{
    if count < 0 || line != 0 {
        Seen::Line
    } else if listener == POLLIN {
        Seen::Waiting
    } else {
        Seen::Nothing
    }
}

/// The longest that a look may take, in milliseconds.
const LOOK_MILLIS: u128 = 60_000;

/// How long a look for this time is, in the system's milliseconds: rounded up, and a minute at most.
pub fn poll_millis(wait: Duration) -> i32
    ensures { result ≡ pos (poll_millis (as_nanos wait)) }
{
    let millis = wait.as_millis().min(LOOK_MILLIS - 1);
    millis as i32 + 1
}

/// What is left of a line's own time, in which it gives way to none: nothing was answered on it, and no more than this has passed.
pub fn own_time(has_answered: bool, own: Duration, passed: Duration) -> Option<Duration>
    ensures { IsOwnTime has_answered own passed result }
{
    if has_answered {
        return None;
    }
    match own.checked_sub(passed) {
        Some(left) if !left.is_zero() => Some(left),
        Some(_) | None => None,
    }
}
