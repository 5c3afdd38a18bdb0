//! What no clause says of the clock, of words and of settings: that the clock gives the time, goes on and rests, that words are the generator's and each
//! hand's its own, and that settings are read to their end or not at all.
use crate::stand::{memory_stores, run_over};
use fts_devices::{OpenedFile, PcgWords, StopFile, SystemClock, closed_doors, hands_over};
use fts_disk::MemoryDisk;
use fts_tables::{Clock, Words};
use fts_wire::StdSource;
use std::io::{ErrorKind, Read};
use std::sync::Wait;
use std::test::Fail;
use std::thread::Threads;
use std::time::{Instant, UNIX_EPOCH};
use std::{fs, io};

/// When the system says that a file was written last, in seconds since 1970.
fn written_at(rt: &HostRuntime, path: &str) -> Result<u64, Fail> {
    match fs::metadata(rt, path)?
        .modified()?
        .duration_since(UNIX_EPOCH)
    {
        Ok(since) => Ok(since.as_secs()),
        Err(_) => Err(Fail::new("written before 1970")),
    }
}

#[test]
fn the_clock_goes_as_the_system_s_does(rt: HostRuntime) -> Result<(), Fail> {
    let mut clock = SystemClock::new(&rt);
    let first = clock.now();
    let start = Instant::now(&rt)?;
    for _ in 0..11 {
        clock.rest();
    }
    let passed = start.elapsed(&rt)?.as_millis();
    assert!(rt; passed >= 1_100, "eleven rests take 1.1 seconds and more");
    let (path, second) = ("./moment", clock.now());
    assert!(rt; second > first, "and then the clock has gone on");
    fs::write(&rt, path, b"now")?;
    let written = written_at(&rt, path)?;
    fs::remove_file(&rt, path)?;
    assert!(rt;
        written.abs_diff(second) <= 2,
        "a file that is written then has the clock's moment"
    );
    Ok(())
}

#[test]
fn words_are_those_of_the_generator(rt: HostRuntime) -> Result<(), Fail> {
    // The first four words of PCG XSH RR 64/32 for the state 42 and the stream 54, as its authors' program prints them, two of them in one word here.
    let mut words = PcgWords::new(42, 54);
    let are_known = words.next() == 0x7b47_f409_a15c_02b7 && words.next() == 0x83d2_f293_ba1d_3330;
    assert!(rt; are_known, "the state 42 on the stream 54");
    let mut seen = Vec::new(rt.alloc());
    for mut hand in hands_over(&rt, rt.alloc(), memory_stores(rt.alloc())?)? {
        let word = hand.words.next();
        assert!(rt; word != 0, "a first word of 0");
        assert!(rt; !seen.contains(&word), "each hand has words of its own");
        seen.push(word)?;
    }
    assert!(rt; seen.len() == 16, "there are sixteen hands");
    Ok(())
}

/// A reader that answers by these texts and errors in turn, and then by the end.
#[derive(Drop)]
struct Scripted {
    answers: &'static [Result<&'static str, ErrorKind>],
    at: usize,
}

impl Read for Scripted {
    fn read(&mut self, buf: &mut [u8]) -> io::Result<usize> {
        let answer = match self.answers.get(self.at) {
            Some(answer) => answer,
            None => return Ok(0),
        };
        self.at = self.at.saturating_add(1);
        match answer {
            Ok(text) => {
                let n = text.len().min(buf.len());
                buf[..n].copy_from_slice(&text.as_bytes()[..n]);
                Ok(n)
            }
            Err(kind) => Err(io::Error::from(*kind)),
        }
    }
}

/// The first half of settings, which are settings too, and the second one.
const FIRST: &str = "vo = \"demo\"\n[[storage]]\nurl = \"https://a.example\"\n";

const SECOND: &str = "[[storage]]\nurl = \"https://b.example\"\n";

/// The status of a session whose settings are read so.
fn status_over<R: Threads + Wait + Sync>(
    rt: &HostRuntime,
    threads: &R,
    file: Option<Scripted>,
) -> Result<u8, Fail> {
    let alloc = rt.alloc();
    let words = [String::from_str(alloc, "session")?];
    let ended = run_over(
        rt,
        threads,
        &words,
        StdSource::new(OpenedFile::of(file)),
        MemoryDisk::new(alloc, Vec::new(alloc)),
        MemoryDisk::new(alloc, Vec::new(alloc)),
        memory_stores(alloc)?,
        closed_doors(rt, alloc, StopFile::none(), None, None)?,
    )?;
    Ok(ended.status)
}

#[test]
fn a_failed_read_is_not_the_end_of_the_settings(rt: HostRuntime) -> Result<(), Fail> {
    let none = status_over(&rt, &rt, None)?;
    assert!(rt; none == 8, "a file that could not be opened");
    let rows: [(&str, &'static [Result<&'static str, ErrorKind>], u8); 5] = [
        ("the first half alone", &[Ok(FIRST)], 0),
        ("both halves", &[Ok(FIRST), Ok(SECOND)], 0),
        (
            "a failure in the middle",
            &[Ok(FIRST), Err(ErrorKind::Other), Ok(SECOND)],
            8,
        ),
        (
            "a failure at the end",
            &[Ok(FIRST), Ok(SECOND), Err(ErrorKind::Other)],
            8,
        ),
        (
            "a signal in the middle",
            &[Ok(FIRST), Err(ErrorKind::Interrupted), Ok(SECOND)],
            0,
        ),
    ];
    for (case, answers, status) in rows {
        let ended = status_over(&rt, &rt, Some(Scripted { answers, at: 0 }))?;
        assert!(rt; ended == status, "{case}");
    }
    Ok(())
}
