//! The tail: how far the bodies of a journal were passed, and the one that a look found behind them, or none.
//! Keeps: what was passed are bodies of a journal, and over a disk that tells its contents those that it begins with (`HasPassed`).
//! Order: `look` finds the body behind the gate, and `pass` goes on behind it. Between the two a caller does with the body what may fail.
ghost use Rattle.std.specs.Prelude.{◌≡◌, ◌≤◌, length, take, OnOk, IfErr};
ghost use Rattle.fts_disk.specs.Disk.{IsTold};
ghost use Rattle.fts_journal.specs.Loading.{IsQuiet};
ghost use Rattle.fts_journal.specs.Format.{header};
ghost use Rattle.fts_tail.specs.Tail.{BeginCause};

use crate::TailFault;
use crate::reading::{block_behind, fill, gate_is_open, reaches};
use fts_disk::Disk;
use fts_journal::HEADER_BYTES;
use std::alloc::Global;
use std::marker::Model;
use std::mem;

/// The first bytes of each journal.
const HEADER: [u8; 8] = *b"FTS3JRN1";

/// The bodies of a journal up to a gate, and the one that was found behind it. Contracts see the gate's offset, that body or none, and the disk.
#[derive(Drop)]
pub struct Tail<D: Disk> {
    disk: D,
    /// The offset of the gate behind what was passed.
    used: u64,
    /// The length that the disk told last.
    known: u64,
    /// What stands before that gate: the header, or the last body behind its gate and its length.
    last: Vec<u8>,
    /// What a look read; where it found a body, that one behind its gate and its length.
    bytes: Vec<u8>,
    ready: bool,
}

impl<D: Disk> Model for Tail<D> {
    ghost use Rattle.fts_tail.specs.Tail.{TailData, IsTail, next_in};

    ghost Value = { TailData D };

    ghost view = { λ t. record { used = t.used; next = next_in t.ready t.bytes.items; disk = t.disk } };

    ghost invariant = { λ t. IsTail (D.state t.disk) t.used t.known t.last.items t.bytes.items t.ready };
}

impl<D: Disk> Tail<D> {
    ghost use Rattle.std.specs.Prelude.{◌≡◌, ◌≤◌, [], length, None, Some, is_some, IsSome, IfOk, IfErr, List, ℕ, MatchResult};
    ghost use Rattle.fts_tables.specs.Counts.{Rose};
    ghost use Rattle.fts_disk.specs.Disk.{IsTold};
    ghost use Rattle.fts_journal.specs.Loading.{IsQuiet};
    ghost use Rattle.fts_tail.specs.Tail.{HasPassed, IsNextIn, used_behind, bodies_with, EndsThere, LookCause, BeginCause};

    /// A tail behind the header of a journal, of which no body was passed. Gives the disk back where it isn't begun.
    pub fn begin(alloc: Global, disk: D) -> Result<Tail<D>, (TailFault, D)>
        ensures told { MatchResult result (λ t. (D.state t.disk).told ≡ (D.state disk).told) (λ e. (D.state e.1).told ≡ (D.state disk).told) }
        ensures quiet { IsTold (D.state disk) → MatchResult result (λ t. IsQuiet (D.state disk) (D.state t.disk)) (λ e. IsQuiet (D.state disk) (D.state e.1)) }
        ensures counts { MatchResult result (λ t. D.faults disk ≤ D.faults t.disk) (λ e. D.faults disk ≤ D.faults e.1) }
        ensures used { IfOk result (λ t. t.used ≡ 8) }
        ensures next { IfOk result (λ t. t.next ≡ None) }
        ensures passed { IfOk result (λ t. HasPassed (D.state t.disk) t.used []) }
        ensures cause { IfErr result (λ e. BeginCause D.state D.faults disk e.1 e.0) }
    {
        let mut device = disk;
        let mut known = 0;
        let mut last = Vec::new(alloc);
        match read_header(&mut device, &mut known, &mut last) {
            Ok(()) => Ok(Tail {
                disk: device,
                used: HEADER_BYTES,
                known,
                last,
                bytes: Vec::new(alloc),
                ready: false,
            }),
            Err(fault) => Err((fault, device)),
        }
    }

    /// Looks for a whole body behind the gate, and says whether there is one. One that is being written is none. Where nothing was appended it is one call
    /// of the disk. `Cut` and `Changed` come again until the file is another one.
    pub fn look(&mut self) -> Result<bool, TailFault>
        ensures used { self.new.used ≡ self.old.used }
        ensures told { (D.state self.new.disk).told ≡ (D.state self.old.disk).told }
        ensures quiet { IsTold (D.state self.old.disk) → IsQuiet (D.state self.old.disk) (D.state self.new.disk) }
        ensures counts { D.faults self.old.disk ≤ D.faults self.new.disk }
        ensures found { IfOk result (λ found. found ≡ is_some self.new.next) }
        ensures end { IfOk result (λ found. EndsThere (D.state self.new.disk) self.new.used self.new.next) }
        ensures passed { (bodies : List (List ℕ)) → HasPassed (D.state self.old.disk) self.old.used bodies → HasPassed (D.state self.new.disk) self.new.used bodies }
        ensures cause { IfErr result (LookCause D.state D.faults self.old.disk self.new.disk self.old.used) }
    {
        self.ready = false;
        if !gate_is_open(
            &mut self.disk,
            &mut self.known,
            self.used,
            &self.last,
            &mut self.bytes,
        )? {
            return Ok(false);
        }
        block_behind(&mut self.disk, &mut self.known, self.used, &mut self.bytes)?;
        self.ready = true;
        Ok(true)
    }

    /// The body that the last look found.
    pub fn body(&self) -> &[u8]
        requires { IsSome self.now.next }
        ensures body { self.now.next ≡ Some result.now }
        ensures stands { IsNextIn (D.state self.now.disk) self.now.used self.now.next }
    {
        &self.bytes[5..]
    }

    /// Goes on behind the body that the last look found.
    pub fn pass(&mut self)
        requires { IsSome self.old.next }
        ensures used { self.new.used ≡ used_behind self.old.used self.old.next }
        ensures next { self.new.next ≡ None }
        ensures disk { self.new.disk ≡ self.old.disk }
        ensures passed { (bodies : List (List ℕ)) → HasPassed (D.state self.old.disk) self.old.used bodies
            → HasPassed (D.state self.new.disk) self.new.used (bodies_with bodies self.old.next) }
    {
        self.ready = false;
        self.used += self.bytes.len() as u64;
        mem::swap(&mut self.last, &mut self.bytes);
    }

    /// The offset of the gate behind what was passed, in bytes.
    pub fn used(&self) -> u64
        ensures used { result ≡ self.now.used }
    {
        self.used
    }

    /// The disk, given back.
    pub fn close(self) -> D
        ensures { result ≡ self.disk }
    {
        let Tail {
            disk,
            used: _,
            known: _,
            last: _,
            bytes: _,
            ready: _,
        } = self;
        disk
    }
}

// Puts the header in the place of what is there, where the disk has it and a gate behind it.
fn read_header<D: Disk>(disk: &mut D, known: &mut u64, last: &mut Vec<u8>) -> Result<(), TailFault>
    requires { IsTold (D.state disk.old) → known.old ≤ length (D.state disk.old).seen }
    ensures told { (D.state disk.new).told ≡ (D.state disk.old).told }
    ensures quiet { IsTold (D.state disk.old) → IsQuiet (D.state disk.old) (D.state disk.new) }
    ensures known { IsTold (D.state disk.old) → known.new ≤ length (D.state disk.old).seen }
    ensures header { OnOk result (last.new.items ≡ header) }
    ensures stands { IsTold (D.state disk.old) → OnOk result (take 8 (D.state disk.old).seen ≡ header) }
    ensures long { IsTold (D.state disk.old) → OnOk result (9 ≤ length (D.state disk.old).seen) }
    ensures counts { D.faults disk.old ≤ D.faults disk.new }
    ensures cause { IfErr result (BeginCause D.state D.faults disk.old disk.new) }
{
    if !reaches(disk, known, HEADER_BYTES + 1)? {
        return Err(TailFault::NotJournal);
    }
    fill(disk, 0, HEADER.len(), last)?;
    if last.as_slice() != HEADER.as_slice() {
        return Err(TailFault::NotJournal);
    }
    Ok(())
}
