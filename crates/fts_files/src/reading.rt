//! How a file is looked at, opened and read: what isn't there, what isn't a plain file, and what the system refuses are three things.
//! Keeps: nothing is taken for absent or for its end but by the answer that says so (`size_seen`, `reads_once`, `reads_whole`); an
//! interrupted read is made again. A pipe isn't opened, since its opening waits: what has the name is looked at before, and by its handle
//! behind.
ghost use Rattle.std.specs.Prelude.{◌≡◌, ◌+◌, ◌-◌, ◌^◌, ◌≤◌, ℕ, Option, List, [], length, take, drop, IfOk};
ghost use Rattle.fts_files.specs.Calls.{saw_of};
ghost use Rattle.fts_files.specs.Script.{Script, LeadsTo, either, fails, value_of};
ghost use Rattle.fts_files.specs.Reading.{size_seen, sizes, opens_plain, opens_source, reads_once, reads_on, reads_whole, if_plain};

use crate::opening::open_when_free;
use crate::reach::fits_file;
use crate::{Failed, FileSystem, Kind, Refused, Seen, Way};

/// So often a read that is interrupted is made.
const READ_TRIES: u32 = 1_000;

// How long the file is that a look saw.
fn size_seen(answer: Result<Seen, Refused>) -> Result<Option<u64>, Failed>
    ensures { value_of result ≡ size_seen (saw_of answer) }
{
    match answer {
        Ok(seen) => match seen.kind {
            Kind::File => Ok(Some(seen.len)),
            Kind::Folder | Kind::Other => Err(Failed),
        },
        Err(refused) if refused.is_missing() => Ok(None),
        Err(_) => Err(Failed),
    }
}

/// The length of a file in bytes, through links; none where nothing has the name. Fails where it is no plain file, and where the system refuses
/// the look for another reason.
pub fn size<F: FileSystem>(files: &mut F, path: &str) -> Result<Option<u64>, Failed>
    ensures { (next : Option ℕ → Script) → LeadsTo (sizes path.now next) (F.calls files.old) (either next fails result) (F.calls files.new) }
{
    size_seen(files.look(path))
}

// Whether it is a file that can be opened without waiting.
fn is_plain(kind: Kind) -> Result<(), Failed>
    ensures { (next : Script) → if_plain next kind ≡ either (λ done. next) fails result }
{
    match kind {
        Kind::File => Ok(()),
        Kind::Folder | Kind::Other => Err(Failed),
    }
}

/// Opens a plain file to be read, through links. Fails where nothing has the name, where it is no plain file, and where the system refuses a call.
pub fn open_plain<F: FileSystem>(files: &mut F, path: &str) -> Result<F::Handle, Failed>
    ensures { (next : ℕ → Script) → LeadsTo (opens_plain path.now next) (F.calls files.old) (either (λ file. next (F.number file)) fails result) (F.calls files.new) }
{
    let seen = files.look(path)?;
    is_plain(seen.kind)?;
    let file = files.open(path, Way::Read)?;
    let there = files.look_at_open(&file)?;
    is_plain(there.kind)?;
    Ok(file)
}

/// Opens a plain file to be read, through links, and waits while too many files are open. Fails where nothing has the name, where it is no plain
/// file, where too many files are open for ten seconds, and where the system refuses another call.
pub fn open_source<F: FileSystem>(files: &mut F, path: &str) -> Result<F::Handle, Failed>
    ensures { (next : ℕ → Script) → LeadsTo (opens_source path.now next) (F.calls files.old) (either (λ file. next (F.number file)) fails result) (F.calls files.new) }
{
    let found = files.look(path)?;
    is_plain(found.kind)?;
    let file = open_when_free(files, path, Way::Read)?;
    let opened = files.look_at_open(&file)?;
    is_plain(opened.kind)?;
    Ok(file)
}

/// Reads bytes from an offset on, as many as are there or fewer, and none only at the end of the file. Gives how many. Fails where the system
/// refuses the read, or interrupts a thousand.
pub fn read_some<F: FileSystem>(
    files: &mut F,
    file: &F::Handle,
    offset: u64,
    into: &mut [u8],
) -> Result<usize, Failed>
    ensures within { IfOk result (λ count. count ≤ length into.new) }
    ensures script { (next : List ℕ → Script) → LeadsTo (reads_once (F.number file.now) offset (length into.old) next READ_TRIES)
        (F.calls files.old) (either (λ count. next (take count into.new)) fails result) (F.calls files.new) }
{
    'tries: for i in 0..READ_TRIES {
        let _tries = i;
        match files.read_at(file, offset, into) {
            Ok(count) => return Ok(count),
            Err(refused) if refused.is_interrupted() => {}
            Err(_) => return Err(Failed),
        }
    }
    Err(Failed)
}

// One read into what is left of a buffer.
fn read_behind<F: FileSystem>(
    files: &mut F,
    file: &F::Handle,
    offset: u64,
    into: &mut [u8],
    done: usize,
) -> Result<usize, Failed>
    requires { done ≤ length into.old }
    ensures within { IfOk result (λ count. done + count ≤ length into.new) }
    ensures kept { take done into.new ≡ take done into.old }
    ensures script { (next : List ℕ → Script) → LeadsTo (reads_once (F.number file.now) offset (length into.old - done) next READ_TRIES)
        (F.calls files.old) (either (λ count. next (take count (drop done into.new))) fails result) (F.calls files.new) }
{
    read_some(files, file, offset, &mut into[done..])
}

// Fills a buffer, which lies in a file.
fn read_pieces<F: FileSystem>(
    files: &mut F,
    file: &F::Handle,
    offset: u64,
    into: &mut [u8],
) -> Result<usize, Failed>
    requires { offset + length into.old ≤ 2 ^ 62 }
    ensures within { IfOk result (λ count. count ≤ length into.new) }
    ensures script { (next : List ℕ → Script) → LeadsTo (reads_on (F.number file.now) next (length into.old) offset (length into.old) [])
        (F.calls files.old) (either (λ count. next (take count into.new)) fails result) (F.calls files.new) }
{
    let mut done = 0;
    'reads: for i in 0..into.len() {
        let _reads = i;
        if done == into.len() {
            return Ok(done);
        }
        let count = read_behind(files, file, offset + done as u64, into, done)?;
        if count == 0 {
            return Ok(done);
        }
        done += count;
    }
    Ok(done)
}

/// Fills a buffer with the bytes from an offset on, or to the end of the file, and gives how many these are. Fails where the system refuses a
/// read, and where no file would be so long.
pub fn read_whole<F: FileSystem>(
    files: &mut F,
    file: &F::Handle,
    offset: u64,
    into: &mut [u8],
) -> Result<usize, Failed>
    ensures within { IfOk result (λ count. count ≤ length into.new) }
    ensures script { (next : List ℕ → Script) → LeadsTo (reads_whole (F.number file.now) offset (length into.old) next)
        (F.calls files.old) (either (λ count. next (take count into.new)) fails result) (F.calls files.new) }
{
    if !fits_file(offset, into.len()) {
        return Err(Failed);
    }
    read_pieces(files, file, offset, into)
}
