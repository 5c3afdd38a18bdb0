//! The real clock, the real words and the file of a folder's settings, as the service sees them. They tell nothing; clock and words never fail.
//! Each word is two of the generator's, and the generator goes on by both (`next`). A file gives what it has left, and its failure is none of its ends.
//! The streams are `StdSource` and `StdSink` of the wire, over the system's own, the disk is `FileDisk`, and the stores are `FolderStore`.
ghost use Rattle.std.specs.Prelude.{◌≡◌, None, IsErr};
ghost use Rattle.std.specs.Io.{ReadsAtMost};
ghost use Rattle.std.specs.Io.KnownBytes.{ReadConsumes};
ghost use Rattle.rand_core.specs.Steps.{u64_via_u32};
ghost use Rattle.rand_pcg.specs.Lcg.{increment_of, started};
ghost use Rattle.rand_pcg.specs.Pcg.{multiplier_64, pcg32};
ghost use Rattle.fts_tables.specs.Coming.{Gives};
ghost use Rattle.fts_devices.specs.Settings.{left_of};

use fts_tables::{Clock, Words};
use rand_core::utils::next_u64_via_u32;
use rand_pcg::Lcg64Xsh32;
use std::fs::{File, Files};
use std::io::{self, ErrorKind, Read};
use std::rt::Clock as SystemTimes;
use std::thread;
use std::time::{Duration, SystemTime, UNIX_EPOCH};

/// How long a rest is, in milliseconds.
const REST_MILLIS: u64 = 100;

/// The time of the system in whole seconds since 1970, and 0 where it can't be had.
#[derive(Drop)]
pub struct SystemClock<R: SystemTimes> {
    rt: R,
}

impl<R: SystemTimes> SystemClock<R> {
    /// The clock of the system.
    pub fn new(rt: R) -> SystemClock<R>
        ensures { result.rt ≡ rt }
    {
        SystemClock { rt }
    }
}

impl<R: SystemTimes> Clock for SystemClock<R> {
    ghost use Rattle.std.specs.Prelude.{None};

    ghost moments = { λ _. None };

    fn now(&mut self) -> u64 {
        match SystemTime::now(&self.rt) {
            Ok(time) => match time.duration_since(UNIX_EPOCH) {
                Ok(since) => since.as_secs(),
                Err(_) => 0,
            },
            Err(_) => 0,
        }
    }

    fn rest(&mut self) {
        thread::sleep(&self.rt, Duration::from_millis(REST_MILLIS));
    }
}

/// Words of the generator PCG XSH RR 64/32.
#[derive(Drop)]
pub struct PcgWords {
    random: Lcg64Xsh32,
}

impl PcgWords {
    /// The words of a state, a moment in seconds since 1970, on a stream, the place of a hand.
    pub fn new(moment: u64, place: u64) -> PcgWords
        ensures { result.random ≡ started 64 multiplier_64 moment (increment_of 64 place) }
    {
        PcgWords {
            random: Lcg64Xsh32::new(moment, place),
        }
    }
}

impl Words for PcgWords {
    ghost use Rattle.std.specs.Prelude.{None};

    ghost words = { λ _. None };

    fn next(&mut self) -> u64
        ensures given { Gives None None result }
        ensures word { (result, self.new.random) ≡ u64_via_u32 pcg32 self.old.random }
    {
        next_u64_via_u32(&mut self.random)
    }
}

/// A file that may not have been opened: each read of it fails then.
/// Over it stands the wire's `StdSource`, so what a signal interrupted is read again, and no failure is taken for the end.
#[derive(Drop)]
pub struct OpenedFile<F: Read> {
    file: Option<F>,
}

impl OpenedFile<File> {
    /// The file at a path, opened for reading; none where it can't be, and then each read of it fails.
    pub fn open<R: Files<File = File>>(rt: &R, path: &str) -> OpenedFile<File> {
        OpenedFile::of(File::open(rt, path).ok())
    }
}

impl<F: Read> OpenedFile<F> {
    /// A file that was opened, or none.
    pub fn of(file: Option<F>) -> OpenedFile<F>
        ensures { result.file ≡ file }
    {
        OpenedFile { file }
    }
}

impl<F: Read> Read for OpenedFile<F> {
    ghost use Rattle.fts_devices.specs.Settings.{left_of};

    ghost remaining = { λ opened. left_of F.remaining opened.file };

    fn read(&mut self, buf: &mut [u8]) -> io::Result<usize>
        ensures bound { ReadsAtMost result buf.new }
        ensures bytes { ReadConsumes (left_of F.remaining self.old.file) (left_of F.remaining self.new.file) result buf.new }
        ensures shut { self.old.file ≡ None → IsErr result }
    {
        match &mut self.file {
            Some(file) => file.read(buf),
            None => Err(io::Error::from(ErrorKind::NotFound)),
        }
    }
}
