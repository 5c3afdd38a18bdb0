//! A link over sockets: a line to a port of this machine for each try of a client.
//! Keeps: each dial counts and notes its port; one that finds nobody counts as a fault of the link, and so does a line that has failed once it comes
//! back, and no other (`dial`, `done`). No call waits longer than the limits say (`LinkLimits`).
//! Order of a dial: before each but the first the link rests, for 1 s, then twice as long each time, and 10 s at most, so that a service which is
//! started again meanwhile is met (`rest_behind`); then it connects, on this machine alone.
//! A line that comes back is closed at once: its answer was read whole, or nobody wants it. It tells nothing of lines.
ghost use Rattle.std.specs.Prelude.{◌≡◌, None, true, false, IfSome};
ghost use Rattle.std.specs.Net.Socket.{socket_ip, socket_port};
ghost use Rattle.fts_devices.specs.Dialing.{IsOwn, rest_behind};
ghost use Rattle.fts_devices.specs.Limits.{IsOfClient};

use crate::socket_line::{LineLimits, SocketLine};
use crate::steps::address;
use fts_client::{Link, LinkFailed};
use std::net::{IpAddr, Net, SocketAddr, TcpStream};
use std::rt::Clock as SystemTimes;
use std::thread;
use std::time::Duration;

/// How long a try may take.
#[derive(Clone, Copy)]
pub struct LinkLimits {
    /// How long a connection may take to stand.
    pub connect: Duration,
    /// How long one read or one write may wait, and a response from the last write until it is whole.
    pub line: LineLimits,
    /// The rest before the second dial, in milliseconds.
    pub first_rest: u64,
    /// The longest rest before a dial, in milliseconds.
    pub longest_rest: u64,
}

/// How long a connection may take to stand, in seconds.
const CONNECT_SECONDS: u64 = 10;

/// The rest before the second dial, in milliseconds.
const FIRST_REST_MILLIS: u64 = 1_000;

/// The longest rest before a dial, in milliseconds.
const LONGEST_REST_MILLIS: u64 = 10_000;

impl LinkLimits {
    /// The limits of a client. Its lines wait as long as those of a service do: 10 s for one read or write, and 60 s for a whole response.
    pub fn of_client() -> LinkLimits
        ensures { IsOfClient result }
    {
        LinkLimits {
            connect: Duration::from_secs(CONNECT_SECONDS),
            line: LineLimits::of_service(),
            first_rest: FIRST_REST_MILLIS,
            longest_rest: LONGEST_REST_MILLIS,
        }
    }

    /// The rest behind this one, in milliseconds.
    fn rest_behind(&self, rest: u64) -> u64
        ensures { result ≡ rest_behind self.now.first_rest self.now.longest_rest rest }
    {
        if rest == 0 {
            self.first_rest.min(self.longest_rest)
        } else {
            rest.saturating_mul(2).min(self.longest_rest)
        }
    }
}

/// A port of this machine.
fn place(port: u16) -> SocketAddr
    ensures own { IsOwn (socket_ip result) }
    ensures port { socket_port result ≡ port }
{
    SocketAddr::new(IpAddr::V4(address()), port)
}

/// A link to ports of this machine.
#[derive(Drop)]
pub struct TcpLink<R: Net<Stream = TcpStream> + SystemTimes + Copy> {
    rt: R,
    limits: LinkLimits,
    /// The rest before the next dial, in milliseconds.
    rest: u64,
    /// Whether a line that was answered begins the rests anew.
    is_for_many: bool,
    port: Option<u16>,
    /// Whether the last dial gave a line.
    is_given: bool,
    dials: u64,
    out: u64,
    faults: u64,
}

impl<R: Net<Stream = TcpStream> + SystemTimes + Copy> TcpLink<R> {
    /// A link for the tries of one request, which was not dialed yet.
    pub fn new(rt: R, limits: LinkLimits) -> TcpLink<R>
        ensures { result ≡ record { rt = rt; limits = limits; rest = 0; is_for_many = false; port = None; is_given = false; dials = 0; out = 0; faults = 0 } }
    {
        TcpLink {
            rt,
            limits,
            rest: 0,
            is_for_many: false,
            port: None,
            is_given: false,
            dials: 0,
            out: 0,
            faults: 0,
        }
    }

    /// The same link for many requests, one after another: behind a line that was answered there is no rest.
    pub fn for_many(mut self) -> TcpLink<R>
        ensures { result ≡ record self { is_for_many = true } }
    {
        self.is_for_many = true;
        self
    }

    /// Rests before a dial, and knows how long the next rest is.
    fn rest(&mut self)
        ensures same { self.new ≡ record self.old { rest = self.new.rest } }
    {
        if self.rest > 0 {
            thread::sleep(&self.rt, Duration::from_millis(self.rest));
        }
        self.rest = self.limits.rest_behind(self.rest);
    }

    /// A line to a port of this machine, where somebody listens there.
    fn connect(&self, port: u16) -> Option<SocketLine<'static, R>>
        ensures fresh { IfSome result (λ line. (line.read_faults ≡ 0) × (line.write_faults ≡ 0)) }
    {
        let stream = TcpStream::connect_timeout(&self.rt, &place(port), self.limits.connect).ok()?;
        SocketLine::new(self.rt, stream, self.limits.line).ok()
    }
}

impl<R: Net<Stream = TcpStream> + SystemTimes + Copy> Link for TcpLink<R> {
    ghost use Rattle.std.specs.Prelude.{None};
    ghost use Rattle.std.proofs.Common.{rules};

    type Line = SocketLine<'static, R>;

    ghost link = { λ l. record { coming = None; back = None; out = l.out; dials = l.dials; port = l.port; is_given = l.is_given } };

    ghost faults = { λ l. l.faults };

    ghost line = { Prim.search rules };

    fn dial(&mut self, port: u16) -> Result<SocketLine<'static, R>, LinkFailed> {
        self.rest();
        self.dials = self.dials.saturating_add(1);
        self.port = Some(port);
        if let (Some(line), Some(out)) = (self.connect(port), self.out.checked_add(1)) {
            self.out = out;
            self.is_given = true;
            return Ok(line);
        }
        self.is_given = false;
        self.faults = self.faults.saturating_add(1);
        Err(LinkFailed)
    }

    fn done(&mut self, line: SocketLine<'static, R>) {
        self.out -= 1;
        if line.has_failed() {
            self.faults = self.faults.saturating_add(1);
        }
        if self.is_for_many && line.is_answered() {
            self.rest = 0;
        }
    }
}
