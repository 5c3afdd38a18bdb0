//! What no clause says: how the doors and lines of a port meet clients over real sockets, and a client's link the services there, under short limits, or
//! by a clock that is set.
ghost use Rattle.std.specs.Prelude.{◌<◌, IfOk, IsTrue};
ghost use Rattle.fts_wire.specs.Response.{has_phrase, has_methods};

use fts_client::Link;
use fts_devices::{LineLimits, LinkLimits, SocketDoors, SocketLine, StopFile, TcpLink};
use fts_service::{Doors, DoorsFailed};
use fts_tables::Items;
use fts_wire::{
    Allow, Reply, Room, Sink, SinkFailed, Source, SourceFailed, WireFault, write_response,
};
use std::io::{Read, Write};
use std::net::{IpAddr, Ipv4Addr, Shutdown, TcpListener, TcpStream};
use std::rt::Clock as SystemTimes;
use std::sync::atomic::{AtomicBool, AtomicU64, Ordering};
use std::test::Fail;
use std::time::Duration;
use std::{io, thread};

/// Doors, of a port or at a socket.
pub type Opened<'a> = SocketDoors<'a, &'a HostRuntime>;

/// Limits under which a client is soon let go.
pub fn short_limits() -> LineLimits {
    LineLimits {
        wait: Duration::from_secs(1),
        request: Duration::from_secs(2),
        drain: Duration::from_secs(1),
        ..LineLimits::of_service()
    }
}

/// Doors that listen on a free port, and the port.
fn open_doors(rt: &HostRuntime, limits: LineLimits) -> Result<(Opened<'_>, u16), Fail> {
    let mut doors = SocketDoors::new(rt, rt.alloc(), limits, StopFile::none());
    match (doors.listen(Some(0)), doors.place()) {
        (Ok(()), Some(place)) => Ok((doors, place.port())),
        _ => Err(Fail::new("no port")),
    }
}

/// A client of a port.
fn connect(rt: &HostRuntime, port: u16) -> io::Result<TcpStream> {
    TcpStream::connect(rt, (Ipv4Addr::LOCALHOST, port))
}

/// The next line of the doors.
pub fn next_line<'a>(doors: &mut Opened<'a>) -> Result<SocketLine<'a, &'a HostRuntime>, Fail>
    ensures { IfOk result (λ _. 0 < doors.new.out) }
{
    match doors.next() {
        Ok(Some(line)) => Ok(line),
        Ok(None) | Err(DoorsFailed) => Err(Fail::new("no line")),
    }
}

/// What the next load of a line with one client finds.
pub fn load_next(
    rt: &HostRuntime,
    doors: &mut Opened<'_>,
) -> Result<Result<bool, WireFault>, Fail> {
    let mut room = Room::new(rt.alloc())?;
    let mut line = next_line(doors)?;
    let loaded = room.load(&mut line);
    doors.done(line);
    Ok(loaded)
}

#[test]
fn only_this_machine_s_own_address_is_listened_on(rt: HostRuntime) -> Result<(), Fail> {
    let (doors, port) = open_doors(&rt, short_limits())?;
    let own = IpAddr::V4(Ipv4Addr::new(127, 0, 0, 1));
    assert!(rt;
        doors.place().map(|place| place.ip()) == Some(own),
        "the listener's own address is 127.0.0.1"
    );
    assert!(rt; connect(&rt, port).is_ok(), "127.0.0.1");
    let other = TcpStream::connect(&rt, (Ipv4Addr::new(127, 0, 0, 2), port));
    assert!(rt;
        other.is_err(),
        "127.0.0.2, which doors on every address would take"
    );
    drop(doors);
    Ok(())
}

#[test]
fn a_client_that_sends_a_byte_and_waits_is_let_go(rt: HostRuntime) -> Result<(), Fail> {
    let (mut doors, port) = open_doors(&rt, short_limits())?;
    let mut client = connect(&rt, port)?;
    client.write_all(b"G")?;
    let loaded = load_next(&rt, &mut doors)?;
    assert!(rt; loaded == Err(WireFault::SourceFailed), "it sends no more");
    let mut silent = connect(&rt, port)?;
    let mut line = next_line(&mut doors)?;
    let piece = vec![in rt.alloc(); 0; 16_777_216]?;
    let written = line.write(piece.as_slice());
    assert!(rt; written == Err(SinkFailed), "it reads nothing");
    doors.done(line);
    silent.shutdown(Shutdown::Both)?;
    Ok(())
}

/// Sends a byte at a time until one can't be sent, for twenty seconds at least. Whether one could not.
fn drip(rt: &HostRuntime, client: &mut TcpStream) -> bool {
    for _ in 0..400 {
        if client.write_all(b"G").is_err() {
            return true;
        }
        thread::sleep(rt, Duration::from_millis(50));
    }
    false
}

#[test]
fn a_request_that_drips_is_not_waited_for(rt: HostRuntime) -> Result<(), Fail> {
    let (mut doors, port) = open_doors(&rt, short_limits())?;
    let mut client = connect(&rt, port)?;
    let (is_let_go, loaded) = thread::join(
        &rt,
        || drip(&rt, &mut client),
        || load_next(&rt, &mut doors),
    );
    assert!(rt; loaded? == Err(WireFault::SourceFailed), "a byte at a time");
    assert!(rt; is_let_go, "its line is closed while it drips");
    Ok(())
}

/// Ends a line whose client has sent nothing so far.
fn end_next(doors: &mut Opened<'_>) -> Result<(), Fail> {
    let line = next_line(doors)?;
    doors.done(line);
    Ok(())
}

#[test]
fn a_refused_client_that_drips_is_not_waited_for(rt: HostRuntime) -> Result<(), Fail> {
    let (mut doors, port) = open_doors(&rt, short_limits())?;
    let mut client = connect(&rt, port)?;
    let (is_let_go, ended) = thread::join(&rt, || drip(&rt, &mut client), || end_next(&mut doors));
    ended?;
    assert!(rt; is_let_go, "its line is closed while it drips");
    Ok(())
}

/// Reads a byte at a time, until the line is given up or all of so many have come. How many came.
fn sip(client: &mut TcpStream, is_given_up: &AtomicBool, most: usize) -> usize {
    let mut byte = [0];
    for count in 0..most {
        let is_read = matches!(client.read(&mut byte), Ok(1));
        if !is_read || is_given_up.load(Ordering::SeqCst) {
            return count;
        }
    }
    most
}

/// Writes so many bytes to the next line, and says that this is done.
fn pour(
    rt: &HostRuntime,
    doors: &mut Opened<'_>,
    is_given_up: &AtomicBool,
    count: usize,
) -> Result<Result<usize, SinkFailed>, Fail> {
    let piece = vec![in rt.alloc(); 0; count]?;
    let mut line = next_line(doors)?;
    let written = line.write(piece.as_slice());
    is_given_up.store(true, Ordering::SeqCst);
    doors.done(line);
    Ok(written)
}

/// More bytes than the system keeps for a line.
const FLOOD: usize = 33_554_432;

#[test]
fn a_client_that_reads_a_byte_at_a_time_is_not_waited_for(rt: HostRuntime) -> Result<(), Fail> {
    let (mut doors, port) = open_doors(&rt, short_limits())?;
    let mut client = connect(&rt, port)?;
    let is_given_up = AtomicBool::new(false);
    let (sipped, written) = thread::join(
        &rt,
        || sip(&mut client, &is_given_up, FLOOD),
        || pour(&rt, &mut doors, &is_given_up, FLOOD),
    );
    assert!(rt; written? == Err(SinkFailed), "it reads a byte at a time");
    assert!(rt; sipped < FLOOD, "and has not read all");
    Ok(())
}

/// A clock that shows what it was set to, in seconds.
#[derive(Drop)]
struct SetClock {
    seconds: AtomicU64,
}

impl SystemTimes for SetClock {
    fn monotonic(&self) -> io::Result<Duration> {
        Ok(Duration::from_secs(self.seconds.load(Ordering::SeqCst)))
    }

    fn since_1970(&self) -> io::Result<Duration> {
        self.monotonic()
    }
}

/// Sets the clock, sends a request, and says whether it is read.
fn is_read(
    clock: &SetClock,
    seconds: u64,
    client: &mut TcpStream,
    line: &mut SocketLine<'_, &SetClock>,
) -> io::Result<bool> {
    clock.seconds.store(seconds, Ordering::SeqCst);
    client.write_all(b"GET /jobs HTTP/1.1\r\n\r\n")?;
    let mut into = [0; 100];
    Ok(line.read(&mut into).is_ok())
}

#[test]
fn a_kept_line_is_served_beyond_its_first_limit(rt: HostRuntime) -> Result<(), Fail> {
    let listener = TcpListener::bind(&rt, (Ipv4Addr::LOCALHOST, 0))?;
    let mut client = connect(&rt, listener.local_addr()?.port())?;
    let (stream, _) = listener.accept()?;
    let clock = SetClock {
        seconds: AtomicU64::new(1_000),
    };
    let mut line = SocketLine::new(&clock, stream, LineLimits::of_service())?;
    let first = is_read(&clock, 1_040, &mut client, &mut line)?;
    assert!(rt; first, "40 seconds behind its beginning");
    assert!(rt; line.write(b"x").is_ok(), "its response");
    let second = is_read(&clock, 1_080, &mut client, &mut line)?;
    assert!(rt;
        second,
        "80 seconds behind its beginning, 40 behind its response"
    );
    let third = is_read(&clock, 1_101, &mut client, &mut line)?;
    assert!(rt;
        !third,
        "61 seconds behind its response, 21 behind its last read"
    );
    drop(line);
    drop(listener);
    Ok(())
}

#[test]
fn a_client_that_closes_in_the_middle_harms_no_other(rt: HostRuntime) -> Result<(), Fail> {
    let (mut first, port) = open_doors(&rt, LineLimits::of_service())?;
    let mut doors = SocketDoors::new(&rt, rt.alloc(), LineLimits::of_service(), StopFile::none());
    assert!(rt;
        doors.listen(Some(port)) == Err(DoorsFailed),
        "the port is in use"
    );
    assert!(rt; doors.share(&first).is_ok(), "it is shared");
    let mut client = connect(&rt, port)?;
    let mut other = connect(&rt, port)?;
    client.write_all(b"POST /jobs HTTP/1.1\r\nContent-Length: 9\r\n\r\n{")?;
    drop(client);
    other.write_all(b"GET /jobs HTTP/1.1\r\n\r\n")?;
    let loaded = load_next(&rt, &mut first)?;
    assert!(rt; loaded == Err(WireFault::EndsInside), "the one that closed");
    other.shutdown(Shutdown::Write)?;
    let loaded = load_next(&rt, &mut doors)?;
    assert!(rt; loaded == Ok(true), "the other, by the doors that share");
    Ok(())
}

const GET: &[u8] = b"GET /jobs HTTP/1.1\r\n\r\n";

/// Serves a client of the doors that sends these bytes, a request and what comes behind it, and then stays silent, while another one connects.
/// What the line is found to be then, and whether its first request was answered and the other one is served next.
fn serve_beside_another(
    rt: &HostRuntime,
    bytes: &[u8],
) -> Result<(Result<bool, WireFault>, bool), Fail> {
    let (mut doors, port) = open_doors(rt, short_limits())?;
    let mut room = Room::new(rt.alloc())?;
    let mut kept = connect(rt, port)?;
    kept.write_all(bytes)?;
    let mut line = next_line(&mut doors)?;
    let is_answered = room.load(&mut line) == Ok(true) && line.write(b"x").is_ok();
    let mut other = connect(rt, port)?;
    other.write_all(GET)?;
    let found = room.load(&mut line);
    doors.done(line);
    let next = load_next(rt, &mut doors)?;
    drop(kept);
    drop(other);
    Ok((found, is_answered && next == Ok(true)))
}

#[test]
fn a_silent_line_gives_way_between_two_requests(rt: HostRuntime) -> Result<(), Fail> {
    let (found, is_next) = serve_beside_another(&rt, GET)?;
    assert!(rt; found == Ok(false), "the silent line is at its end");
    assert!(rt; is_next, "and the connection that waited is the next one");
    Ok(())
}

#[test]
fn a_request_that_began_gives_way_to_none(rt: HostRuntime) -> Result<(), Fail> {
    let rows: [(&str, &[u8]); 3] = [
        ("its first byte came", b"GET /jobs HTTP/1.1\r\n\r\nG"),
        (
            "its head came",
            b"GET /jobs HTTP/1.1\r\n\r\nPOST /jobs HTTP/1.1\r\nContent-Length: 2\r\n\r\n",
        ),
        (
            "a part of its body came",
            b"GET /jobs HTTP/1.1\r\n\r\nPOST /jobs HTTP/1.1\r\nContent-Length: 2\r\n\r\n{",
        ),
    ];
    for (case, bytes) in rows {
        let (found, is_next) = serve_beside_another(&rt, bytes)?;
        assert!(rt;
            found == Err(WireFault::SourceFailed),
            "{case}: it is waited for"
        );
        assert!(rt; is_next, "{case}: the other is served behind it");
    }
    Ok(())
}

/// A head that announces more than a body may have, the body, and then what is answered.
fn send_too_much(rt: &HostRuntime, client: &mut TcpStream) -> io::Result<Vec<u8>> {
    let body = vec![in rt.alloc(); 7; 4_000_000]?;
    client.write_all(b"POST /jobs HTTP/1.1\r\nContent-Length: 4000000\r\n\r\n")?;
    client.write_all(body.as_slice())?;
    let mut answer = Vec::new(rt.alloc());
    client.read_to_end(&mut answer)?;
    Ok(answer)
}

/// Loads what comes, refuses it, and hands the line back.
fn refuse_next(rt: &HostRuntime, doors: &mut Opened<'_>) -> Result<Result<bool, WireFault>, Fail> {
    let mut room = Room::new(rt.alloc())?;
    let mut line = next_line(doors)?;
    let loaded = room.load(&mut line);
    let reply = Reply {
        status: 413,
        allow: Allow::None,
        body: Items::from_vec(Vec::from_slice(rt.alloc(), b"{}")?),
    };
    let sent = write_response(&mut line, false, true, &reply);
    doors.done(line);
    match sent {
        Ok(()) => Ok(loaded),
        Err(SinkFailed) => Err(Fail::new("no response")),
    }
}

const TOO_LARGE: &[u8] =
    b"HTTP/1.1 413 Payload Too Large\r\nContent-Type: application/json\r\nContent-Length: 2\r\nConnection: close\r\n\r\n{}";

#[test]
fn a_client_that_sends_too_much_reads_its_refusal(rt: HostRuntime) -> Result<(), Fail> {
    let (mut doors, port) = open_doors(&rt, LineLimits::of_service())?;
    let mut client = connect(&rt, port)?;
    let (answer, loaded) = thread::join(
        &rt,
        || send_too_much(&rt, &mut client),
        || refuse_next(&rt, &mut doors),
    );
    assert!(rt;
        loaded? == Err(WireFault::BodyTooLarge),
        "its body is too large"
    );
    assert!(rt;
        answer?.as_slice() == TOO_LARGE,
        "it reads the refusal, byte for byte"
    );
    Ok(())
}

/// A link that soon gives up, and rests for a millisecond.
fn short_link(rt: &HostRuntime) -> TcpLink<&HostRuntime> {
    TcpLink::new(
        rt,
        LinkLimits {
            line: short_limits(),
            first_rest: 1,
            ..LinkLimits::of_client()
        },
    )
}

/// A listener on a free port, and the port.
fn listening(rt: &HostRuntime) -> io::Result<(TcpListener, u16)> {
    let listener = TcpListener::bind(rt, (Ipv4Addr::LOCALHOST, 0))?;
    let port = listener.local_addr()?.port();
    Ok((listener, port))
}

#[test]
fn a_link_meets_who_listens(rt: HostRuntime) -> Result<(), Fail> {
    let (listener, port) = listening(&rt)?;
    let mut link = short_link(&rt).for_many();
    let Ok(mut line) = link.dial(port) else {
        return Err(Fail::new("somebody listens"));
    };
    let (mut service, _) = listener.accept()?;
    let mut bytes = [0; 8];
    assert!(rt; line.write(b"ab") == Ok(2), "a request");
    assert!(rt; !line.is_answered(), "no answer yet");
    service.write_all(b"cd")?;
    assert!(rt; line.read(&mut bytes) == Ok(2), "an answer");
    assert!(rt; line.is_answered() && !line.has_failed(), "answered");
    link.done(line);
    drop(service);
    drop(listener);
    assert!(rt; link.dial(port).is_err(), "nobody listens any more");
    Ok(())
}

#[test]
fn a_silent_service_is_a_failed_line(rt: HostRuntime) -> Result<(), Fail> {
    let (listener, port) = listening(&rt)?;
    let mut link = short_link(&rt);
    let Ok(mut line) = link.dial(port) else {
        return Err(Fail::new("somebody listens"));
    };
    let mut bytes = [0; 8];
    assert!(rt;
        line.read(&mut bytes) == Err(SourceFailed),
        "no byte in a second"
    );
    assert!(rt; line.has_failed() && !line.is_answered(), "it failed");
    link.done(line);
    drop(listener);
    Ok(())
}
