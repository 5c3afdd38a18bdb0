//! What no clause says: calls with ample memory, what a stop leaves by worked bytes, the order of the system's calls, and real files.
use crate::guard::Guard;
use crate::{Disk, DiskFailed, FileDisk, MemoryDisk};
use fts_files::{FileSystem, Kind, Refused, Seen, Way};
use std::alloc::{Alloc, Global};
use std::fs::{self, File, Files};
use std::io;
use std::os::fd::AsRawFd;
use std::process::Abort;
use std::test::Fail;

/// Whether of a write, a sync, a read and a length of a disk whose listed calls fail, these are done, and the read gives what was written.
fn are_done(alloc: Global, fail: &[u32], want: [bool; 4]) -> Result<bool, Fail> {
    let mut disk = MemoryDisk::holding(alloc, b"ab".to_vec(alloc)?, fail.to_vec(alloc)?);
    let mut into = [0; 2];
    let found = [
        disk.write_at(0, b"cde").is_ok(),
        disk.sync().is_ok(),
        disk.read_at(0, &mut into).is_ok(),
        disk.len().is_ok(),
    ];
    let is_read = into == *b"cd" || !want[0] || !want[2];
    Ok(found == want && disk.calls() == 4 && is_read)
}

// The n-th call fails where n is listed, and no other one with ample memory.
#[test]
fn listed_calls_fail_and_no_others(rt: HostRuntime) -> Result<(), Fail> {
    for (case, fail, want) in [
        ("none", [0, 0], [true, true, true, true]),
        ("the first", [1, 0], [false, true, true, true]),
        ("the second", [0, 2], [true, false, true, true]),
        (
            "the third and the fourth",
            [4, 3],
            [true, true, false, false],
        ),
        ("one that never comes", [5, 5], [true, true, true, true]),
    ] {
        assert!(rt; are_done(rt.alloc(), &fail, want)?, "{case}");
    }
    Ok(())
}

/// A disk of `abcd`, over which `XY` and behind which `123` was written; all but the last was synced.
fn cut_short(rt: &impl Abort, alloc: Global) -> Result<MemoryDisk, Fail> {
    let mut disk = MemoryDisk::new(alloc, [7].to_vec(alloc)?);
    let is_stable = disk.write_at(0, b"abcd").is_ok()
        && disk.sync().is_ok()
        && disk.write_at(0, b"XY").is_ok()
        && disk.sync().is_ok();
    let is_longer = match disk.len() {
        Ok(end) => disk.write_at(end, b"123").is_ok(),
        Err(_) => false,
    };
    let is_open = disk.sync() == Err(DiskFailed);
    assert!(rt;
        is_stable && is_longer && is_open,
        "call 7 fails, and no other"
    );
    Ok(disk)
}

/// Whether a stop after so many calls leaves this, where each byte that is open is a 7.
fn stop_leaves(disk: &MemoryDisk, calls: usize, want: &str) -> Result<bool, Fail> {
    if disk.calls() < calls {
        return Ok(false);
    }
    Ok(disk.after_stop(calls, b'7')?.as_slice() == want.as_bytes())
}

#[test]
fn a_stop_leaves_what_was_synced(rt: HostRuntime) -> Result<(), Fail> {
    let disk = cut_short(&rt, rt.alloc())?;
    for (case, calls, want) in [
        ("nothing was called", 0, ""),
        ("a first write", 1, "7777"),
        ("the sync of the first write", 2, "abcd"),
        ("a write over two bytes", 3, "77cd"),
        ("the sync of that write", 4, "XYcd"),
        ("a look", 5, "XYcd"),
        ("a write past the end", 6, "XYcd777"),
        ("a sync that fails", 7, "XYcd777"),
    ] {
        assert!(rt; stop_leaves(&disk, calls, want)?, "{case}");
    }
    Ok(())
}

/// A file system of one file, whose first bytes it holds, which keeps a letter for each call: o is an opening, n a making, l a look
/// by name, h one by the handle, k a lock, w a write, s a sync of data, S one of all, f the dropping of pages, r a read. The n-th call, from 1,
/// is refused where n is listed, and a read gives other bytes where it is to lie.
#[derive(Drop)]
struct Scripted {
    bytes: [u8; 16],
    len: u64,
    calls: Vec<u8>,
    fail: [usize; 2],
    lies: bool,
}

impl Scripted {
    fn new(calls: Vec<u8>, fail: [usize; 2], lies: bool) -> Scripted {
        Scripted {
            bytes: *b"abcdefghijklmnop",
            len: 8,
            calls,
            fail,
            lies,
        }
    }

    fn call(&mut self, letter: u8) -> Result<(), Refused> {
        let kept = self.calls.push(letter).is_ok();
        if kept && !self.fail.contains(&self.calls.len()) {
            Ok(())
        } else {
            Err(Refused { errno: 5 })
        }
    }

    fn seen(&self) -> Seen {
        Seen {
            kind: Kind::File,
            len: self.len,
            device: 1,
            inode: 2,
            mode: 0o644,
        }
    }
}

impl FileSystem for Scripted {
    ghost use Rattle.std.specs.Prelude.{None};

    type Handle = u32;

    ghost calls = { λ _. None };

    ghost number = { λ file. file };

    fn open(&mut self, _: &str, way: Way) -> Result<u32, Refused> {
        self.call(if way == Way::New { b'n' } else { b'o' })?;
        Ok(3)
    }

    fn look(&mut self, _: &str) -> Result<Seen, Refused> {
        self.call(b'l')?;
        Ok(self.seen())
    }

    fn look_at_name(&mut self, _: &str) -> Result<Seen, Refused> {
        self.call(b'L')?;
        Ok(self.seen())
    }

    fn look_at_open(&mut self, _: &u32) -> Result<Seen, Refused> {
        self.call(b'h')?;
        Ok(self.seen())
    }

    fn read_at(&mut self, _: &u32, offset: u64, into: &mut [u8]) -> Result<usize, Refused> {
        self.call(b'r')?;
        let inside = self.bytes.iter().skip(offset as usize);
        for (place, byte) in into.iter_mut().zip(inside) {
            *place = if self.lies { b'?' } else { *byte };
        }
        let left = self.bytes.len().saturating_sub(offset as usize);
        Ok(into.len().min(left))
    }

    fn write_at(&mut self, _: &u32, offset: u64, bytes: &[u8]) -> Result<usize, Refused> {
        self.call(b'w')?;
        for (place, byte) in self.bytes.iter_mut().skip(offset as usize).zip(bytes) {
            *place = *byte;
        }
        self.len = self.len.max(offset.saturating_add(bytes.len() as u64));
        Ok(bytes.len())
    }

    fn sync_data(&mut self, _: &u32) -> Result<(), Refused> {
        self.call(b's')
    }

    fn sync_all(&mut self, _: &u32) -> Result<(), Refused> {
        self.call(b'S')
    }

    fn lock(&mut self, _: &u32) -> Result<(), Refused> {
        self.call(b'k')
    }

    fn forget(&mut self, _: &u32) -> Result<(), Refused> {
        self.call(b'f')
    }

    fn link(&mut self, _: &str, _: &str) -> Result<(), Refused> {
        self.call(b'+')
    }

    fn rename(&mut self, _: &str, _: &str) -> Result<(), Refused> {
        self.call(b'>')
    }

    fn unlink(&mut self, _: &str) -> Result<(), Refused> {
        self.call(b'-')
    }

    fn make_folder(&mut self, _: &str) -> Result<(), Refused> {
        self.call(b'm')
    }

    fn set_mode(&mut self, _: &u32, _: u32) -> Result<(), Refused> {
        self.call(b'c')
    }

    fn names(&mut self, _: &str, _: &mut Vec<u8>) -> Result<(), Refused> {
        self.call(b'd')
    }

    fn rest(&mut self) {}
}

/// A guard over the open file of a scripted file system.
fn guarded(len: u64) -> Guard<Scripted> {
    Guard::new(3, len)
}

/// Whether a write, a sync, a length, a write and a sync answer so, and ask these calls of a file with these failures, whose reads may lie.
fn asks(alloc: Global, fail: [usize; 2], lies: bool, answers: [bool; 5], calls: &str) -> bool {
    let mut files = Scripted::new(Vec::new(alloc), fail, lies);
    let mut guard = guarded(8);
    let found = [
        guard.write_at(&mut files, 2, b"XY").is_ok(),
        guard.sync(&mut files).is_ok(),
        guard.len(&mut files).is_ok(),
        guard.write_at(&mut files, 3, b"Z").is_ok(),
        guard.sync(&mut files).is_ok(),
    ];
    found == answers && files.calls.as_slice() == calls.as_bytes()
}

#[test]
fn after_a_failure_the_device_is_asked(rt: HostRuntime) {
    for (case, fail, answers, calls) in [
        ("no call", [0, 0], [true; 5], "wshws"),
        (
            "a write",
            [1, 0],
            [false, true, true, true, true],
            "wSfhshwSfrs",
        ),
        (
            "a sync",
            [2, 0],
            [true, false, true, true, true],
            "wsSfhhwSfrs",
        ),
        (
            "a sync and the next one",
            [2, 3],
            [true, false, false, true, true],
            "wsSSfhwSfrs",
        ),
        (
            "a sync and the dropping",
            [2, 4],
            [true, false, false, true, true],
            "wsSfSfhwSfrs",
        ),
    ] {
        assert!(rt;
            asks(rt.alloc(), fail, false, answers, calls),
            "{case} fails"
        );
    }
}

#[test]
fn after_other_bytes_are_read_back_the_device_is_asked(rt: HostRuntime) {
    let answers = [true, false, true, false, true];
    let asks_again = asks(rt.alloc(), [2, 0], true, answers, "wsSfhhwSfrSfhs");
    assert!(rt; asks_again, "other bytes are read back");
}

/// Whether a write of four bytes at this place of a file of that length asks these calls of it, and is done unless it asks none.
fn grows(alloc: Global, len: u64, at: u64, calls: &str) -> bool {
    let mut files = Scripted::new(Vec::new(alloc), [0, 0], false);
    let is_done = guarded(len).write_at(&mut files, at, b"1234").is_ok();
    is_done != calls.is_empty() && files.calls.as_slice() == calls.as_bytes()
}

#[test]
fn zeros_are_written_and_synced_before_a_file_grows(rt: HostRuntime) {
    for (case, len, at, calls) in [
        ("an empty file", 0, 0, "w"),
        ("inside", 8, 4, "w"),
        ("past the end", 1_000_000, 999_999, "wsw"),
        ("to the end of a block", 1_048_570, 1_048_570, "wsw"),
        ("a whole block", 8, 8, "wwwwwwwwwwwwwwwwsw"),
        (
            "no further than a journal goes",
            1_073_741_820,
            1_073_741_820,
            "wsw",
        ),
        ("far behind the end", 8, 1_000_000, "w"),
        ("where no file would be so long", 8, 1 << 62, ""),
    ] {
        assert!(rt; grows(rt.alloc(), len, at, calls), "{case}");
    }
}

const ZEROS_AND_FAILURE: &str = "wwwwwwwwwwwwwwwws";

/// Whether the first write of four bytes behind eight fails, so many inside them and so many behind them are then done, and these calls are asked
/// for, where the sync of the zeros fails.
fn goes_on_without_zeros(alloc: Global, inside: u32, beyond: u32, calls: &str) -> bool {
    let mut files = Scripted::new(Vec::new(alloc), [17, 0], false);
    let mut guard = guarded(8);
    let mut done = guard.write_at(&mut files, 8, b"1234").is_err();
    for _ in 0..inside {
        done = guard.write_at(&mut files, 2, b"XY").is_ok() && done;
    }
    for _ in 0..beyond {
        done = guard.write_at(&mut files, 8, b"1234").is_ok() && done;
    }
    let asked = files.calls.as_slice();
    done && asked.strip_prefix(ZEROS_AND_FAILURE.as_bytes()) == Some(calls.as_bytes())
}

#[test]
fn zeros_whose_sync_fails_are_not_ready(rt: HostRuntime) {
    for (case, inside, beyond, calls) in [
        (
            "the next write makes them anew, and is read back",
            0,
            1,
            "SfhwwwwwwwwwwwwwwwwswSfr",
        ),
        (
            "five writes inside are read back, and the one behind them is too",
            5,
            1,
            "SfhwSfrwSfrwSfrwSfrwSfrwwwwwwwwwwwwwwwwswSfr",
        ),
        (
            "four writes behind them are read back, and no fifth",
            0,
            5,
            "SfhwwwwwwwwwwwwwwwwswSfrwSfrwSfrwSfrw",
        ),
    ] {
        assert!(rt;
            goes_on_without_zeros(rt.alloc(), inside, beyond, calls),
            "{case}"
        );
    }
}

/// Whether a file is refused where this call of its opening is, with no call behind it.
fn is_refused_at(alloc: Global, call: usize, serves: bool, calls: &str) -> bool {
    let files = Scripted::new(Vec::new(alloc), [call, 0], false);
    let mut disk = if serves {
        FileDisk::serve(files, "file")
    } else {
        FileDisk::look_at(files, "file")
    };
    let are_refused = answers(&mut disk) == NONE;
    let asked = disk.into_files().calls;
    are_refused && asked.len() == call && calls.as_bytes().starts_with(asked.as_slice())
}

#[test]
fn each_call_of_an_opening_has_to_be_done(rt: HostRuntime) {
    for (case, serves, calls) in [
        ("for a service", true, "ohkSfoSlh"),
        ("for looking", false, "lloh"),
    ] {
        for call in 1..=calls.len() {
            assert!(rt;
                is_refused_at(rt.alloc(), call, serves, calls),
                "{case}, call {call} is refused"
            );
        }
    }
}

/// What a disk asks for a write, a sync, a length and a read of nothing behind its opening.
#[test]
fn a_service_looks_where_its_file_is(rt: HostRuntime) {
    let alloc = rt.alloc();
    let mut served = FileDisk::serve(Scripted::new(Vec::new(alloc), [0, 0], false), "file");
    let are_done = answers(&mut served) == ALL;
    assert!(rt;
        are_done && served.into_files().calls.as_slice() == "ohkSfoSlhlhwslhh".as_bytes(),
        "before a write, and behind a sync"
    );
    let mut viewed = FileDisk::look_at(Scripted::new(Vec::new(alloc), [0, 0], false), "file");
    let are_seen = answers(&mut viewed) == ALL_BUT_WRITES;
    assert!(rt;
        are_seen && viewed.into_files().calls.as_slice() == "llohsh".as_bytes(),
        "not where it is only looked at"
    );
}

const PATH: &str = "disk-of-a-test";

fn clear<R: Files<File = File> + Alloc>(rt: &R, path: &str) {
    let _old = fs::remove_file(rt, path);
}

/// Whether four bytes are written to a file and synced.
fn is_written<R: Files<File = File>>(rt: &R, at: u64, bytes: &[u8; 4]) -> bool {
    let mut disk = FileDisk::open(rt, PATH);
    disk.write_at(at, bytes).is_ok() && disk.sync().is_ok()
}

/// Whether a file that is opened again has this length, and these bytes at that place; none can be read past its end.
fn is_read<R: Files<File = File>>(rt: &R, at: u64, bytes: &[u8; 4], len: u64) -> bool {
    let mut into = [0; 4];
    let mut past = [0; 4];
    let mut disk = FileDisk::open(rt, PATH);
    disk.len() == Ok(len)
        && disk.read_at(at, &mut into).is_ok()
        && into == *bytes
        && disk.read_at(len.saturating_sub(3), &mut past) == Err(DiskFailed)
}

#[test]
fn a_file_is_written_synced_and_opened_again(rt: HostRuntime) -> Result<(), Fail> {
    clear(&rt, PATH);
    for (case, at, bytes, len) in [
        ("a new file", 0, b"abcd", 4),
        ("past the end, zeros ahead", 4, b"efgh", 1_048_576),
        ("over what is there", 2, b"CDEF", 1_048_576),
    ] {
        assert!(rt;
            is_written(&rt, at, bytes) && is_read(&rt, at, bytes, len),
            "{case}"
        );
    }
    fs::remove_file(&rt, PATH)?;
    Ok(())
}

/// What each of four calls answers: a write, a sync, a length, a read of nothing.
fn answers<F: FileSystem>(disk: &mut FileDisk<F>) -> [bool; 4] {
    [
        disk.write_at(0, b"abcd").is_ok(),
        disk.sync().is_ok(),
        disk.len().is_ok(),
        disk.read_at(0, &mut []).is_ok(),
    ]
}

const ALL: [bool; 4] = [true; 4];

const ALL_BUT_WRITES: [bool; 4] = [false, true, true, true];

const NONE: [bool; 4] = [false; 4];

fn looks_at_none<R: Files<File = File> + Alloc>(rt: &R, path: &str) -> Result<bool, Fail> {
    let mut absent = FileDisk::view(rt, path);
    let is_empty = answers(&mut absent) == ALL_BUT_WRITES && absent.len() == Ok(0);
    Ok(is_empty && !fs::exists(rt, path)?)
}

/// One opens a file, and another is refused it, while it is held and for good.
fn holds<R: Files<File = File> + Abort>(rt: &R, path: &str) {
    let mut first = FileDisk::open(rt, path);
    assert!(rt; answers(&mut first) == ALL, "a first opens it");
    let mut second = FileDisk::open(rt, path);
    assert!(rt; answers(&mut second) == NONE, "the file is held");
    let mut looking = FileDisk::view(rt, path);
    let is_seen = answers(&mut looking) == ALL_BUT_WRITES && looking.len() == Ok(4);
    assert!(rt; is_seen, "others look at its four bytes");
    drop(first);
    assert!(rt; answers(&mut second) == NONE, "it stays refused");
    let mut third = FileDisk::open(rt, path);
    assert!(rt; answers(&mut third) == ALL, "it was let go");
}

#[test]
fn one_service_holds_a_file_and_others_look(rt: HostRuntime) -> Result<(), Fail> {
    let path = "lock-of-a-test";
    clear(&rt, path);
    assert!(rt;
        looks_at_none(&rt, path)?,
        "looking finds no byte, and makes no file"
    );
    holds(&rt, path);
    fs::remove_file(&rt, path)?;
    Ok(())
}

#[test]
fn what_is_no_file_is_refused(rt: HostRuntime) {
    let mut nowhere = FileDisk::open(&rt, "no-such-folder/file");
    assert!(rt; answers(&mut nowhere) == NONE, "no folder");
    for no_file in [".", "/dev/null"] {
        let mut opened = FileDisk::open(&rt, no_file);
        let mut viewed = FileDisk::view(&rt, no_file);
        let are_refused = answers(&mut opened) == NONE && answers(&mut viewed) == NONE;
        assert!(rt; are_refused, "{no_file}, opened or looked at");
    }
}

// The opening of a pipe for reading waits until it is opened for writing.
#[test]
fn looking_at_a_pipe_ends(rt: HostRuntime) -> Result<(), Fail> {
    let alloc = rt.alloc();
    let (reader, writer) = io::pipe(&rt)?;
    drop(writer);
    let path = format!(in alloc; "/proc/self/fd/{}", reader.as_raw_fd())?;
    let mut viewed = FileDisk::view(&rt, path.as_str());
    assert!(rt; answers(&mut viewed) == NONE, "a pipe is looked at");
    Ok(())
}

const LINK: &str = "link-of-a-test";

const TARGET: &str = "target-of-a-test";

fn link<R: Files<File = File> + Alloc>(rt: &R) -> Result<(), Fail> {
    clear(rt, LINK);
    clear(rt, TARGET);
    std::os::unix::fs::symlink(rt, TARGET, LINK)?;
    Ok(())
}

/// Whether a link without a target is refused, and the target isn't made.
fn misses_a_target<R: Files<File = File> + Alloc>(rt: &R) -> Result<bool, Fail> {
    let mut none = FileDisk::open(rt, LINK);
    Ok(answers(&mut none) == NONE && !fs::exists(rt, TARGET)?)
}

/// Whether a link to a file is opened as that file.
fn finds_a_target<R: Files<File = File>>(rt: &R) -> bool {
    drop(FileDisk::open(rt, TARGET));
    let mut some = FileDisk::open(rt, LINK);
    answers(&mut some) == ALL
}

#[test]
fn a_link_is_followed_where_its_target_is(rt: HostRuntime) -> Result<(), Fail> {
    link(&rt)?;
    assert!(rt;
        misses_a_target(&rt)?,
        "its target is absent, and isn't made"
    );
    assert!(rt; finds_a_target(&rt), "its target is there");
    fs::remove_file(&rt, LINK)?;
    fs::remove_file(&rt, TARGET)?;
    Ok(())
}

/// Whether a new disk goes on after a write that fails: one behind the greatest offset of a file does, also with leave and room to write.
fn fails_and_goes_on<F: FileSystem>(disk: &mut FileDisk<F>) -> bool {
    answers(disk) == ALL
        && disk.write_at(1 << 62, b"far") == Err(DiskFailed)
        && disk.write_at(2, b"CD").is_ok()
        && disk.sync().is_ok()
}

#[test]
fn a_file_goes_on_after_a_failed_write(rt: HostRuntime) -> Result<(), Fail> {
    let path = "failing-write-of-a-test";
    clear(&rt, path);
    let mut disk = FileDisk::open(&rt, path);
    assert!(rt;
        fails_and_goes_on(&mut disk),
        "a write fails, and the next is done"
    );
    let bytes = fs::read(&rt, path)?;
    assert!(rt;
        bytes.starts_with(b"abCD"),
        "both writes that were done are there"
    );
    fs::remove_file(&rt, path)?;
    Ok(())
}

const AWAY: &str = "disk-of-a-test-elsewhere";

/// What becomes of a file that a service holds.
#[derive(Clone, Copy)]
enum Meanwhile {
    Nothing,
    Moved,
    Removed,
    Replaced,
    Cut,
}

fn change<R: Files<File = File>>(rt: &R, meanwhile: Meanwhile) -> io::Result<()> {
    match meanwhile {
        Meanwhile::Nothing => Ok(()),
        Meanwhile::Moved => fs::rename(rt, PATH, AWAY),
        Meanwhile::Removed => fs::remove_file(rt, PATH),
        Meanwhile::Replaced => {
            fs::write(rt, AWAY, "abcdefgh")?;
            fs::rename(rt, AWAY, PATH)
        }
        Meanwhile::Cut => fs::write(rt, PATH, "ab"),
    }
}

/// What a write and its sync answer where the file is changed before the write, or between the two; and a write and a sync behind them.
fn answers_after<R: Files<File = File> + Alloc>(
    rt: &R,
    meanwhile: Meanwhile,
    is_between: bool,
) -> Result<[bool; 4], Fail> {
    clear(rt, PATH);
    clear(rt, AWAY);
    let mut disk = FileDisk::open(rt, PATH);
    let is_held = answers(&mut disk) == ALL;
    if !is_between {
        change(rt, meanwhile)?;
    }
    let is_written = disk.write_at(1, b"bcd").is_ok();
    if is_between {
        change(rt, meanwhile)?;
    }
    Ok([
        is_held && is_written,
        disk.sync().is_ok(),
        disk.write_at(1, b"bcdefgh").is_ok(),
        disk.sync().is_ok(),
    ])
}

#[test]
fn a_file_that_was_moved_or_cut_fails(rt: HostRuntime) -> Result<(), Fail> {
    for (case, meanwhile, is_between, want) in [
        ("nothing happens", Meanwhile::Nothing, false, ALL),
        ("it is moved", Meanwhile::Moved, false, NONE),
        ("it is removed", Meanwhile::Removed, false, NONE),
        ("it is replaced", Meanwhile::Replaced, false, NONE),
        ("it is cut", Meanwhile::Cut, false, NONE),
        (
            "it is moved before the sync",
            Meanwhile::Moved,
            true,
            [true, false, false, false],
        ),
        (
            "it is removed before the sync",
            Meanwhile::Removed,
            true,
            [true, false, false, false],
        ),
        (
            "it is replaced before the sync",
            Meanwhile::Replaced,
            true,
            [true, false, false, false],
        ),
        (
            "it is cut before the sync",
            Meanwhile::Cut,
            true,
            [true, false, false, false],
        ),
    ] {
        assert!(rt;
            answers_after(&rt, meanwhile, is_between)? == want,
            "{case}"
        );
    }
    clear(&rt, PATH);
    clear(&rt, AWAY);
    Ok(())
}
