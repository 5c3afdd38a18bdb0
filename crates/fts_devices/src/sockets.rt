//! Listeners and streams of the system: at a port of this machine, or at a socket of the file system. Doors, lines and relief use both alike.
//! Keeps: a file is taken away from a socket's path only where it is a dead socket (`steps::is_dead`): what is no socket stays, and so does the socket of a
//! service that listens, or of one that this user can't reach.
//! Order of a listener at a path: a bind, which gives the socket the rights that the umask leaves; where the path is in use a look and a connection, and
//! where they find it dead the file's removal and one bind more. Of two starts at one dead socket, at the same time, the second may take the first one's place.
ghost use Rattle.std.specs.Prelude.{◌≤◌, length, IfOk};

use crate::steps::{address, is_dead};
use std::fs::Files;
use std::io::{Read, Write};
use std::net::{Net, Shutdown, SocketAddr, TcpListener, TcpStream};
use std::os::fd::{AsRawFd, RawFd};
use std::os::unix::fs::FileTypeExt;
use std::os::unix::net::{UnixListener, UnixStream};
use std::time::Duration;
use std::{fs, io};

/// The system's number of a refusal (errno of POSIX), and 0 where it gave none.
pub fn errno_of(error: &io::Error) -> u32 {
    match error.raw_os_error() {
        Some(errno) => errno.unsigned_abs(),
        None => 0,
    }
}

/// What connections are taken from.
#[derive(Drop)]
pub enum Listener {
    AtPort(TcpListener),
    AtPath(UnixListener),
}

impl Listener {
    /// A listener at this port of 127.0.0.1. An error of the system where it can't be had.
    pub fn at_port<R>(rt: &R, port: u16) -> io::Result<Listener>
    where
        R: Net<Listener = TcpListener, Stream = TcpStream>,
    {
        let listener = TcpListener::bind(rt, (address(), port))?;
        Ok(Listener::AtPort(listener))
    }

    /// A listener at the socket of this path, which is made, in the place of a dead one if there is one. An error of the system where it can't be had.
    pub fn at_path<R: Net + Files>(rt: &R, path: &str) -> io::Result<Listener> {
        let listener = match UnixListener::bind(rt, path) {
            Err(error) if is_dead_at(rt, path, errno_of(&error)) => {
                fs::remove_file(rt, path)?;
                UnixListener::bind(rt, path)?
            }
            bound => bound?,
        };
        Ok(Listener::AtPath(listener))
    }

    /// The next connection.
    pub fn accept(&self) -> io::Result<Stream> {
        match self {
            Listener::AtPort(listener) => {
                let (stream, _) = listener.accept()?;
                Ok(Stream::OfPort(stream))
            }
            Listener::AtPath(listener) => {
                let (stream, _) = listener.accept()?;
                Ok(Stream::OfPath(stream))
            }
        }
    }

    /// Another handle of the same listener.
    pub fn try_clone(&self) -> io::Result<Listener> {
        match self {
            Listener::AtPort(listener) => Ok(Listener::AtPort(listener.try_clone()?)),
            Listener::AtPath(listener) => Ok(Listener::AtPath(listener.try_clone()?)),
        }
    }

    /// Makes an accept that would wait fail.
    pub fn set_waiting_for_none(&self) -> io::Result<()> {
        match self {
            Listener::AtPort(listener) => listener.set_nonblocking(true),
            Listener::AtPath(listener) => listener.set_nonblocking(true),
        }
    }

    /// The address and the port, as the system says; none at a path, or where it can't say.
    pub fn place(&self) -> Option<SocketAddr> {
        match self {
            Listener::AtPort(listener) => listener.local_addr().ok(),
            Listener::AtPath(_) => None,
        }
    }

    /// Its handle.
    pub fn handle(&self) -> RawFd {
        match self {
            Listener::AtPort(listener) => listener.as_raw_fd(),
            Listener::AtPath(listener) => listener.as_raw_fd(),
        }
    }
}

/// Whether what stands at a path, where a bind was refused with this number, is a dead socket.
fn is_dead_at<R: Net + Files>(rt: &R, path: &str, bind: u32) -> bool {
    let is_socket = match fs::symlink_metadata(rt, path) {
        Ok(found) => found.file_type().is_socket(),
        Err(_) => false,
    };
    let connect = match UnixStream::connect(rt, path) {
        Ok(_) => 0,
        Err(error) => errno_of(&error),
    };
    is_dead(bind, is_socket, connect)
}

/// One connection.
#[derive(Drop)]
pub enum Stream {
    OfPort(TcpStream),
    OfPath(UnixStream),
}

impl Stream {
    /// Sends small pieces at once, as a connection at a path always does.
    pub fn set_prompt(&self) -> io::Result<()> {
        match self {
            Stream::OfPort(stream) => stream.set_nodelay(true),
            Stream::OfPath(_) => Ok(()),
        }
    }

    /// Lets a read wait so long, which is not 0.
    pub fn set_read_timeout(&self, wait: Duration) -> io::Result<()> {
        match self {
            Stream::OfPort(stream) => stream.set_read_timeout(Some(wait)),
            Stream::OfPath(stream) => stream.set_read_timeout(Some(wait)),
        }
    }

    /// Lets a write wait so long, which is not 0.
    pub fn set_write_timeout(&self, wait: Duration) -> io::Result<()> {
        match self {
            Stream::OfPort(stream) => stream.set_write_timeout(Some(wait)),
            Stream::OfPath(stream) => stream.set_write_timeout(Some(wait)),
        }
    }

    /// Ends what is written to it.
    pub fn end_writing(&self) -> io::Result<()> {
        match self {
            Stream::OfPort(stream) => stream.shutdown(Shutdown::Write),
            Stream::OfPath(stream) => stream.shutdown(Shutdown::Write),
        }
    }

    /// One read, as the system answers it.
    pub fn read(&mut self, into: &mut [u8]) -> io::Result<usize>
        ensures bound { IfOk result (λ n. n ≤ length into.new) }
    {
        match self {
            Stream::OfPort(stream) => stream.read(into),
            Stream::OfPath(stream) => stream.read(into),
        }
    }

    /// One write, as the system answers it.
    pub fn write(&mut self, bytes: &[u8]) -> io::Result<usize>
        ensures bound { IfOk result (λ n. n ≤ length bytes.now) }
    {
        match self {
            Stream::OfPort(stream) => stream.write(bytes),
            Stream::OfPath(stream) => stream.write(bytes),
        }
    }

    /// Its handle.
    pub fn handle(&self) -> RawFd {
        match self {
            Stream::OfPort(stream) => stream.as_raw_fd(),
            Stream::OfPath(stream) => stream.as_raw_fd(),
        }
    }
}
