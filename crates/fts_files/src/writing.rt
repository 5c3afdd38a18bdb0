//! Bytes that are put into a file, and compared with it: a short call goes on behind, and an interrupted one is made again.
//! Keeps: all bytes are dealt with where a function answers Ok, and a call that takes none, gives others or is refused is its failure
//! (`writes_whole`, `matches_whole`).
ghost use Rattle.std.specs.Prelude.{◌≡◌, ◌+◌, ◌^◌, ◌<◌, ◌≤◌, ℕ, min, length, drop, IfOk, IsOk};
ghost use Rattle.fts_files.specs.Calls.{ReadAt, WriteAt, counted_of, read_of};
ghost use Rattle.fts_files.specs.Script.{Script, Does, LeadsTo, either, fails, value_of, with_value};
ghost use Rattle.fts_files.specs.Writing.{taken, matched, writes_on, matches_on, writes_whole, matches_whole};

use crate::reach::fits_file;
use crate::{Failed, FileSystem, Refused};

/// So many calls that take nothing are made again at most.
const MAX_AGAIN: usize = 1_000;

/// So many bytes are compared at once.
const PIECE_BYTES: usize = 4096;

// How many bytes a write took.
fn taken(answer: Result<usize, Refused>) -> Result<usize, Failed>
    ensures { value_of result ≡ taken (counted_of answer) }
{
    match answer {
        Ok(0) => Err(Failed),
        Ok(count) => Ok(count),
        Err(refused) if refused.is_interrupted() => Ok(0),
        Err(_) => Err(Failed),
    }
}

// How many of these bytes a read gave.
fn matched(bytes: &[u8], found: &[u8], answer: Result<usize, Refused>) -> Result<usize, Failed>
    requires { IfOk answer (λ count. count ≤ length found.now) }
    ensures { value_of result ≡ matched bytes.now (read_of answer found.now) }
{
    match answer {
        Ok(count) if count > 0 && bytes.starts_with(&found[..count]) => Ok(count),
        Ok(_) => Err(Failed),
        Err(refused) if refused.is_interrupted() => Ok(0),
        Err(_) => Err(Failed),
    }
}

// What stands behind the first bytes.
fn behind(bytes: &[u8], done: usize) -> &[u8]
    requires { done ≤ length bytes.now }
    ensures { result.now ≡ drop done bytes.now }
{
    &bytes[done..]
}

// One write of all that is left.
fn write_piece<F: FileSystem>(
    files: &mut F,
    file: &F::Handle,
    offset: u64,
    left: &[u8],
) -> Result<usize, Failed>
    ensures within { IfOk result (λ count. count ≤ length left.now) }
    ensures script { (next : ℕ → Script) → LeadsTo (Does (WriteAt (F.number file.now) offset left.now) (λ answer. with_value next fails (taken answer)))
        (F.calls files.old) (either next fails result) (F.calls files.new) }
{
    taken(files.write_at(file, offset, left))
}

// Writes these bytes, which lie in a file.
fn write_pieces<F: FileSystem>(
    files: &mut F,
    file: &F::Handle,
    offset: u64,
    bytes: &[u8],
) -> Result<(), Failed>
    requires { offset + length bytes.now ≤ 2 ^ 62 }
    ensures { (next : Script) → LeadsTo (writes_on (F.number file.now) next (length bytes.now + MAX_AGAIN) offset bytes.now)
        (F.calls files.old) (either (λ done. next) fails result) (F.calls files.new) }
{
    let mut done = 0;
    'calls: for i in 0..bytes.len() + MAX_AGAIN {
        let _calls = i;
        if done == bytes.len() {
            return Ok(());
        }
        let left = behind(bytes, done);
        done += write_piece(files, file, offset + done as u64, left)?;
    }
    if done == bytes.len() {
        Ok(())
    } else {
        Err(Failed)
    }
}

/// Writes all of these bytes at an offset. Fails where the system refuses a call or takes no bytes, and where no file would be so long.
pub fn write_whole<F: FileSystem>(
    files: &mut F,
    file: &F::Handle,
    offset: u64,
    bytes: &[u8],
) -> Result<(), Failed>
    ensures within { IsOk result → offset + length bytes.now ≤ 2 ^ 62 }
    ensures script { (next : Script) → LeadsTo (writes_whole (F.number file.now) offset bytes.now next)
        (F.calls files.old) (either (λ done. next) fails result) (F.calls files.new) }
{
    if !fits_file(offset, bytes.len()) {
        return Err(Failed);
    }
    write_pieces(files, file, offset, bytes)
}

// One read of what is left, a piece of it at most, which has to be these bytes.
fn match_piece<F: FileSystem>(
    files: &mut F,
    file: &F::Handle,
    offset: u64,
    left: &[u8],
    there: &mut [u8],
) -> Result<usize, Failed>
    requires { length there.old ≡ min (length left.now) 4096 }
    ensures within { IfOk result (λ count. count ≤ length left.now) }
    ensures script { (next : ℕ → Script) → LeadsTo (Does (ReadAt (F.number file.now) offset (min (length left.now) 4096)) (λ answer. with_value next fails (matched left.now answer)))
        (F.calls files.old) (either next fails result) (F.calls files.new) }
{
    let answer = files.read_at(file, offset, there);
    matched(left, there, answer)
}

// Compares these bytes, which lie in a file.
fn match_pieces<F: FileSystem>(
    files: &mut F,
    file: &F::Handle,
    offset: u64,
    bytes: &[u8],
) -> Result<(), Failed>
    requires { offset + length bytes.now ≤ 2 ^ 62 }
    ensures { (next : Script) → LeadsTo (matches_on (F.number file.now) next (length bytes.now + MAX_AGAIN) offset bytes.now)
        (F.calls files.old) (either (λ done. next) fails result) (F.calls files.new) }
{
    let mut found = [0; PIECE_BYTES];
    let mut done = 0;
    'calls: for i in 0..bytes.len() + MAX_AGAIN {
        let _calls = i;
        if done == bytes.len() {
            return Ok(());
        }
        let left = behind(bytes, done);
        let there = &mut found[..left.len().min(PIECE_BYTES)];
        done += match_piece(files, file, offset + done as u64, left, there)?;
    }
    if done == bytes.len() {
        Ok(())
    } else {
        Err(Failed)
    }
}

/// Reads what is at an offset, which has to be these bytes. Fails where one of them differs or isn't there, where the system refuses a call,
/// and where no file would be so long.
pub fn match_whole<F: FileSystem>(
    files: &mut F,
    file: &F::Handle,
    offset: u64,
    bytes: &[u8],
) -> Result<(), Failed>
    ensures { (next : Script) → LeadsTo (matches_whole (F.number file.now) offset bytes.now next)
        (F.calls files.old) (either (λ done. next) fails result) (F.calls files.new) }
{
    if !fits_file(offset, bytes.len()) {
        return Err(Failed);
    }
    match_pieces(files, file, offset, bytes)
}
