//! What stands at the gate behind what was passed, read in three steps: the gate, the length behind it, the body.
//! Keeps: a disk is only looked at (`IsQuiet`); the length that it told last is never more than it has (`known`).
//! Order: a body is written before its gate is opened, so what stands behind an open gate is whole, and the disk's end is asked for only once the gate was
//! seen open. The gate is read with what stands before it, so that a body that was taken back is noticed before anything else is passed.
ghost use Rattle.std.specs.Prelude.{◌≡◌, ◌≤◌, ◌<◌, ◌+◌, ◌∷◌, length, take, drop, true, false, IfOk, IfErr, OnOk, ◌⊎◌};
ghost use Rattle.fts_tables.specs.Counts.{CountsFaults, Rose};
ghost use Rattle.fts_tables.specs.declared.limits.TheConstants.{JOURNAL_END, MAX_BODY_BYTES};
ghost use Rattle.fts_disk.specs.Disk.{IsTold};
ghost use Rattle.fts_journal.specs.Format.{size_bytes};
ghost use Rattle.fts_journal.specs.Loading.{IsQuiet, IsShut, size_at};
ghost use Rattle.fts_tail.specs.Tail.{IsNext, IsOpened, IsSized, StandsBefore, GateCause};

use crate::TailFault;
use fts_disk::{Disk, DiskFailed};
use fts_journal::{FRONT_BYTES, GATE_BYTES};
use fts_tables::limits::{JOURNAL_END, MAX_BODY_BYTES};

/// The gate before a body that counts.
const GATE_OPEN: u8 = 1;

/// How many bytes a gate and the length behind it take.
const HEAD_BYTES: usize = 5;

/// Whether the disk has so many bytes. It is asked only where the length that it told last is less.
pub fn reaches<D: Disk>(disk: &mut D, known: &mut u64, offset: u64) -> Result<bool, DiskFailed>
    requires { IsTold (D.state disk.old) → known.old ≤ length (D.state disk.old).seen }
    ensures told { (D.state disk.new).told ≡ (D.state disk.old).told }
    ensures quiet { IsTold (D.state disk.old) → IsQuiet (D.state disk.old) (D.state disk.new) }
    ensures known { IsTold (D.state disk.old) → known.new ≤ length (D.state disk.old).seen }
    ensures reached { IfOk result (λ yes. yes ≡ true → offset ≤ known.new) }
    ensures short { IsTold (D.state disk.old) → IfOk result (λ yes. yes ≡ false → length (D.state disk.old).seen < offset) }
    ensures cause { CountsFaults (D.faults disk.old) (D.faults disk.new) result }
{
    if offset <= *known {
        return Ok(true);
    }
    *known = disk.len()?;
    Ok(offset <= *known)
}

/// Puts so many bytes from an offset on in the place of what is there.
pub fn fill<D: Disk>(
    disk: &mut D,
    at: u64,
    size: usize,
    into: &mut Vec<u8>,
) -> Result<(), TailFault>
    requires { IsTold (D.state disk.old) → at + size ≤ length (D.state disk.old).seen }
    ensures told { (D.state disk.new).told ≡ (D.state disk.old).told }
    ensures quiet { IsTold (D.state disk.old) → IsQuiet (D.state disk.old) (D.state disk.new) }
    ensures bytes { IsTold (D.state disk.old) → OnOk result (into.new.items ≡ take size (drop at (D.state disk.old).seen)) }
    ensures long { OnOk result (length into.new.items ≡ size) }
    ensures counts { D.faults disk.old ≤ D.faults disk.new }
    ensures disk_failed { IfErr result (λ e. e ≡ TailFault.DiskFailed → Rose (D.faults disk.old) (D.faults disk.new)) }
    ensures others { IfErr result (λ e. (e ≡ TailFault.DiskFailed) ⊎ (e ≡ TailFault.Memory)) }
{
    into.clear();
    into.resize(size, 0)?;
    disk.read_at(at, into)?;
    Ok(())
}

/// Whether the gate at an offset is open, by one read of it and of what stands before it; those bytes take the place of what is in the buffer.
pub fn gate_is_open<D: Disk>(
    disk: &mut D,
    known: &mut u64,
    used: u64,
    last: &[u8],
    bytes: &mut Vec<u8>,
) -> Result<bool, TailFault>
    requires behind { length last.now ≤ used }
    requires low { used < JOURNAL_END }
    requires last { IsTold (D.state disk.old) → StandsBefore (D.state disk.old).seen used last.now }
    requires known { IsTold (D.state disk.old) → known.old ≤ length (D.state disk.old).seen }
    ensures told { (D.state disk.new).told ≡ (D.state disk.old).told }
    ensures quiet { IsTold (D.state disk.old) → IsQuiet (D.state disk.old) (D.state disk.new) }
    ensures known { IsTold (D.state disk.old) → known.new ≤ length (D.state disk.old).seen }
    ensures opened { IsTold (D.state disk.old) → IfOk result (λ yes. yes ≡ true → IsOpened (drop used (D.state disk.old).seen)) }
    ensures shut { IsTold (D.state disk.old) → IfOk result (λ yes. yes ≡ false → IsShut (drop used (D.state disk.old).seen)) }
    ensures counts { D.faults disk.old ≤ D.faults disk.new }
    ensures cause { IfErr result (GateCause D.state D.faults disk.old disk.new used) }
{
    if !reaches(disk, known, used + GATE_BYTES)? {
        return Err(TailFault::Cut { offset: used });
    }
    let behind = last.len();
    fill(disk, used - behind as u64, behind + 1, bytes)?;
    if !bytes.starts_with(last) {
        return Err(TailFault::Changed);
    }
    Ok(bytes[behind] == GATE_OPEN)
}

// The length that stands in these bytes behind a gate.
fn size_in(head: [u8; HEAD_BYTES]) -> u32
    ensures value { result ≡ size_at (drop 1 head) }
    ensures bytes { size_bytes result ≡ take 4 (drop 1 head) }
{
    u32::from_le_bytes([head[1], head[2], head[3], head[4]])
}

/// The length of the whole body behind the open gate at an offset.
pub fn size_behind<D: Disk>(disk: &mut D, known: &mut u64, used: u64) -> Result<u32, TailFault>
    requires low { used < JOURNAL_END }
    requires opened { IsTold (D.state disk.old) → IsOpened (drop used (D.state disk.old).seen) }
    requires known { IsTold (D.state disk.old) → known.old ≤ length (D.state disk.old).seen }
    ensures told { (D.state disk.new).told ≡ (D.state disk.old).told }
    ensures quiet { IsTold (D.state disk.old) → IsQuiet (D.state disk.old) (D.state disk.new) }
    ensures known { IsTold (D.state disk.old) → known.new ≤ length (D.state disk.old).seen }
    ensures sized { IsTold (D.state disk.old) → IfOk result (λ size. IsSized used size (drop 1 (drop used (D.state disk.old).seen))) }
    ensures some { IfOk result (λ size. 1 ≤ size) }
    ensures most { IfOk result (λ size. size ≤ MAX_BODY_BYTES) }
    ensures room { IfOk result (λ size. used + 5 + size < JOURNAL_END) }
    ensures counts { D.faults disk.old ≤ D.faults disk.new }
    ensures cause { IfErr result (GateCause D.state D.faults disk.old disk.new used) }
{
    if !reaches(disk, known, used + FRONT_BYTES)? {
        return Err(TailFault::Cut { offset: used });
    }
    let mut head = [0; HEAD_BYTES];
    disk.read_at(used, &mut head)?;
    if head[0] != GATE_OPEN {
        return Err(TailFault::Changed);
    }
    let size = size_in(head);
    let next = used + FRONT_BYTES + size as u64;
    if size < 1 || size > MAX_BODY_BYTES as u32 || next >= JOURNAL_END {
        return Err(TailFault::Cut { offset: used });
    }
    if !reaches(disk, known, next)? {
        return Err(TailFault::Cut { offset: used });
    }
    Ok(size)
}

// An open gate, and a length behind it.
fn head_of(size: u32) -> [u8; HEAD_BYTES]
    ensures { result ≡ 1 ∷ size_bytes size }
{
    let [first, second, third, fourth] = size.to_le_bytes();
    [GATE_OPEN, first, second, third, fourth]
}

/// Puts the open gate at an offset, the length behind it and the whole body in the place of what is there.
pub fn block_behind<D: Disk>(
    disk: &mut D,
    known: &mut u64,
    used: u64,
    bytes: &mut Vec<u8>,
) -> Result<(), TailFault>
    requires low { used < JOURNAL_END }
    requires opened { IsTold (D.state disk.old) → IsOpened (drop used (D.state disk.old).seen) }
    requires known { IsTold (D.state disk.old) → known.old ≤ length (D.state disk.old).seen }
    ensures told { (D.state disk.new).told ≡ (D.state disk.old).told }
    ensures quiet { IsTold (D.state disk.old) → IsQuiet (D.state disk.old) (D.state disk.new) }
    ensures known { IsTold (D.state disk.old) → known.new ≤ length (D.state disk.old).seen }
    ensures long { OnOk result (6 ≤ length bytes.new.items) }
    ensures next { OnOk result (IsNext (D.state disk.old) used (drop 5 bytes.new.items)) }
    ensures stands { IsTold (D.state disk.old) → OnOk result (bytes.new.items ≡ take (length bytes.new.items) (drop used (D.state disk.old).seen)) }
    ensures counts { D.faults disk.old ≤ D.faults disk.new }
    ensures cause { IfErr result (GateCause D.state D.faults disk.old disk.new used) }
{
    let size = size_behind(disk, known, used)?;
    fill(disk, used, HEAD_BYTES + size as usize, bytes)?;
    if !bytes.starts_with(&head_of(size)) {
        return Err(TailFault::Changed);
    }
    Ok(())
}
