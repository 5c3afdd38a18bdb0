//! The log of a service: a line for each event, on the standard error or behind what stands in a file. What can't be written at once is lost and counted.
//! Keeps: it never fails and never waits for a reader, so nothing that is told of it can change or slow what a service does: before each piece of a line
//! that is no longer than a pipe takes whole the system is asked whether there is room. Behind a line that was cut off the next one begins anew.
//! Handed to the doors, the gate and the file systems of a run that serves; other runs have a silent one. `fts_log` spells the lines.
use fts_log::{Event, Log, line_of};
use fts_tables::Memory;
use libc::net::{POLLOUT, poll};
use libc::types::pollfd;
use std::alloc::Global;
use std::fs::{File, OpenOptions};
use std::io::{self, ErrorKind, Write};
use std::os::fd::{AsRawFd, RawFd};
use std::sync::atomic::{AtomicU64, Ordering};
use std::sync::{Mutex, MutexGuard};
use std::thread::yield_now;
use std::time::{SystemTime, UNIX_EPOCH};

/// So many bytes a pipe takes whole, where it has room (PIPE_BUF of Linux).
const PIECE_BYTES: usize = 4_096;

/// How often a thread looks whether the lock is free, before its line is lost. Who has it writes at most a few pieces.
const MAX_LOOKS: u32 = 1_000_000;

/// Where lines go.
#[derive(Drop)]
enum Target {
    Nobody,
    StandardError,
    Behind(File),
}

/// A log of the system.
#[derive(Drop)]
pub struct SystemLog<'a> {
    rt: &'a HostRuntime,
    target: Target,
    /// How many lines were lost.
    lost: AtomicU64,
    /// Whether the last line may have been cut off. Who writes a line has the lock.
    is_cut: Mutex<bool>,
}

impl<'a> SystemLog<'a> {
    /// A log with this target, of which no line was lost.
    fn to(rt: &'a HostRuntime, target: Target) -> SystemLog<'a> {
        SystemLog {
            rt,
            target,
            lost: AtomicU64::new(0),
            is_cut: Mutex::new(false),
        }
    }

    /// A log that writes nothing.
    pub fn silent(rt: &'a HostRuntime) -> SystemLog<'a> {
        SystemLog::to(rt, Target::Nobody)
    }

    /// A log on the standard error.
    pub fn on_standard_error(rt: &'a HostRuntime) -> SystemLog<'a> {
        SystemLog::to(rt, Target::StandardError)
    }

    /// A log in the file at a path, which is made where it is absent: lines go behind what stands there. An error of the system where it can't be opened.
    pub fn in_file(rt: &'a HostRuntime, path: &str) -> io::Result<SystemLog<'a>> {
        let mut options = OpenOptions::new();
        options.append(true);
        options.create(true);
        let file = options.open(rt, path)?;
        Ok(SystemLog::to(rt, Target::Behind(file)))
    }

    /// How many lines were lost so far: memory was wanting, there was no room, or a write failed.
    pub fn lost(&self) -> u64 {
        self.lost.load(Ordering::SeqCst)
    }

    /// Writes bytes to where lines go.
    fn write(&self, bytes: &[u8]) -> io::Result<()> {
        match &self.target {
            Target::Nobody => Ok(()),
            Target::StandardError => {
                let mut stream = self.rt.stderr();
                write_at_once(stream.as_raw_fd(), &mut stream, bytes)
            }
            Target::Behind(file) => {
                let mut behind = file;
                write_at_once(file.as_raw_fd(), &mut behind, bytes)
            }
        }
    }

    /// The lock of who writes a line; none where others hold it for too long.
    fn lock(&self) -> Option<MutexGuard<'_, bool>> {
        for _ in 0..MAX_LOOKS {
            if let Some(is_cut) = self.is_cut.try_lock() {
                return Some(is_cut);
            }
            yield_now();
        }
        None
    }

    /// Writes a line, apart from one before it that was cut off.
    fn write_line(&self, line: &[u8]) -> io::Result<()> {
        let Some(mut is_cut) = self.lock() else {
            return Err(io::Error::from(ErrorKind::WouldBlock));
        };
        if *is_cut {
            self.write(b"\n")?;
        }
        *is_cut = true;
        self.write(line)?;
        *is_cut = false;
        Ok(())
    }

    /// The line of an event at this moment.
    fn line(&self, event: &Event<'_>) -> Result<Vec<u8>, Memory> {
        line_of(self.rt.alloc(), seconds(self.rt), event)
    }
}

/// Writes bytes in pieces, each of them only where there is room for it.
fn write_at_once<W: Write>(fd: RawFd, stream: &mut W, bytes: &[u8]) -> io::Result<()> {
    for piece in bytes.chunks(PIECE_BYTES) {
        if !has_room(fd) {
            return Err(io::Error::from(ErrorKind::WouldBlock));
        }
        stream.write_all(piece)?;
    }
    Ok(())
}

/// Whether a piece can be written without waiting, and somebody is there to read it.
fn has_room(fd: RawFd) -> bool {
    let mut asked = [pollfd {
        fd,
        events: POLLOUT,
        revents: 0,
    }];
    poll(&mut asked, 0) == 1 && asked[0].revents == POLLOUT
}

/// The standard error, to which nothing is written that would wait for a reader.
#[derive(Drop)]
pub struct ReadyError<'a> {
    rt: &'a HostRuntime,
}

impl<'a> ReadyError<'a> {
    /// That of this process.
    pub fn new(rt: &'a HostRuntime) -> ReadyError<'a> {
        ReadyError { rt }
    }
}

impl Write for ReadyError<'_> {
    fn write(&mut self, bytes: &[u8]) -> io::Result<usize> {
        let mut stream = self.rt.stderr();
        if !has_room(stream.as_raw_fd()) {
            return Err(io::Error::from(ErrorKind::WouldBlock));
        }
        stream.write(&bytes[..bytes.len().min(PIECE_BYTES)])
    }

    fn flush(&mut self) -> io::Result<()> {
        self.rt.stderr().flush()
    }
}

/// The time of the system in whole seconds since 1970, and 0 where it can't be had.
fn seconds(rt: &HostRuntime) -> u64 {
    match SystemTime::now(rt) {
        Ok(time) => match time.duration_since(UNIX_EPOCH) {
            Ok(since) => since.as_secs(),
            Err(_) => 0,
        },
        Err(_) => 0,
    }
}

impl Log for SystemLog<'_> {
    fn tell(&self, event: &Event<'_>) {
        if let Target::Nobody = self.target {
            return;
        }
        let is_written = match self.line(event) {
            Ok(line) => self.write_line(line.as_slice()).is_ok(),
            Err(Memory) => false,
        };
        if !is_written {
            self.lost.fetch_add(1, Ordering::SeqCst);
        }
    }
}
