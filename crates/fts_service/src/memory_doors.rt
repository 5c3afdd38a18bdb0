//! Doors in memory, which tell their lines: they give the listed ones in order and keep those that come back.
//! The calls that may fail (`listen`, `share`, `next`) are numbered from 1, and those whose numbers stand in the list `fail` fail, and no other.
//! Keeps: there is room for each line that may come back (the invariant below), so that taking one back needs no memory.
//! Tests are run over them, and whatever is proved of all doors is true of these.
ghost use Rattle.std.specs.Prelude.{◌≡◌, ◌↔◌, ◌<◌, [], Some, IfOk, IfErr, IsErr, IsTrue};
ghost use Rattle.fts_tables.specs.Counts.{CountsFaults};
ghost use Rattle.fts_wire.specs.Memory.{is_listed};
ghost use Rattle.fts_service.specs.Doors.{GivesLine, with_one_back};
ghost use Rattle.fts_service.specs.MemoryDoors.{doors_after};

use crate::doors::{Doors, DoorsFailed};
use fts_tables::Memory;
use fts_wire::MemoryLine;
use std::alloc::Global;
use std::collections::VecDeque;
use std::marker::Model;

/// Doors that give listed lines.
pub struct MemoryDoors {
    coming: VecDeque<MemoryLine>,
    back: Vec<MemoryLine>,
    out: usize,
    fail: Vec<u64>,
    calls: u64,
    faults: u64,
}

impl Drop for MemoryDoors {
    fn drop(self) {
        let MemoryDoors {
            coming: _,
            back: _,
            out: _,
            fail: _,
            calls: _,
            faults: _,
        } = self;
    }
}

impl Model for MemoryDoors {
    ghost use Rattle.std.specs.Prelude.{◌≤◌, ◌+◌, vec_len, vec_capacity};
    ghost use Rattle.std.specs.VecDeque.{deque_len};
    ghost use Rattle.fts_service.specs.MemoryDoors.{MemoryDoorsData, memory_doors_data};

    ghost Value = { MemoryDoorsData };

    ghost view = { memory_doors_data };

    ghost invariant = { λ d. vec_len d.back + (d.out + deque_len d.coming) ≤ vec_capacity d.back };
}

impl MemoryDoors {
    /// Doors that give these lines, in order. The calls with these numbers fail. Where memory is short, the lines come back.
    pub fn new(
        alloc: Global,
        lines: Vec<MemoryLine>,
        fail: Vec<u64>,
    ) -> Result<MemoryDoors, (Memory, Vec<MemoryLine>)>
        ensures made { IfOk result (λ made. made ≡ record {
          doors = record { coming = Some lines.items; back = Some []; out = 0 };
          fail = fail.items;
          calls = 0;
          faults = 0;
        }) }
        ensures err { IfErr result (λ refused. refused.1 ≡ lines) }
    {
        let back = match Vec::with_capacity(alloc, lines.len()) {
            Ok(back) => back,
            Err(_) => return Err((Memory, lines)),
        };
        Ok(MemoryDoors {
            coming: VecDeque::from_vec(lines),
            back,
            out: 0,
            fail,
            calls: 0,
            faults: 0,
        })
    }

    /// The lines that came back, in order.
    pub fn back(&self) -> &[MemoryLine]
        ensures { self.now.doors.back ≡ Some result.now }
    {
        self.back.as_slice()
    }

    /// Counts a call that may fail, and says whether it does.
    fn count_call(&mut self) -> Result<(), DoorsFailed>
        ensures after { self.new ≡ doors_after self.old self.old.doors result }
        ensures cause { CountsFaults self.old.faults self.new.faults result }
        ensures fails { IsErr result ↔ IsTrue (is_listed self.old.fail self.new.calls) }
    {
        self.calls = self.calls.saturating_add(1);
        if self.fail.contains(&self.calls) {
            self.faults = self.faults.saturating_add(1);
            return Err(DoorsFailed);
        }
        Ok(())
    }
}

impl Doors for MemoryDoors {
    ghost use Rattle.std.specs.Prelude.{true};
    ghost use Rattle.std.proofs.Common.{rules};

    type Line = MemoryLine;

    ghost doors = { λ d. d.doors };

    ghost faults = { λ d. d.faults };

    // Their lines come in any case.
    ghost listens = { λ _. true };

    ghost line = { Prim.search rules };

    fn listen(&mut self, _port: Option<u16>) -> Result<(), DoorsFailed>
        ensures same { self.new.doors ≡ self.old.doors }
        ensures cause { CountsFaults self.old.faults self.new.faults result }
        ensures fails { IsErr result ↔ IsTrue (is_listed self.old.fail self.new.calls) }
        ensures after { self.new ≡ doors_after self.old self.old.doors result }
    {
        self.count_call()
    }

    fn share(&mut self, _first: &MemoryDoors) -> Result<(), DoorsFailed>
        ensures same { self.new.doors ≡ self.old.doors }
        ensures cause { CountsFaults self.old.faults self.new.faults result }
        ensures fails { IsErr result ↔ IsTrue (is_listed self.old.fail self.new.calls) }
        ensures after { self.new ≡ doors_after self.old self.old.doors result }
    {
        self.count_call()
    }

    fn next(&mut self) -> Result<Option<MemoryLine>, DoorsFailed>
        ensures gives { GivesLine self.old.doors self.new.doors result }
        ensures cause { CountsFaults self.old.faults self.new.faults result }
        ensures fails { IsErr result ↔ IsTrue (is_listed self.old.fail self.new.calls) }
        ensures after { self.new ≡ doors_after self.old self.new.doors result }
    {
        match self.count_call() {
            Ok(()) => {}
            Err(DoorsFailed) => return Err(DoorsFailed),
        }
        match self.coming.pop_front() {
            Some(line) => {
                self.out += 1;
                Ok(Some(line))
            }
            None => Ok(None),
        }
    }

    fn done(&mut self, line: MemoryLine)
        requires out { 0 < self.old.doors.out }
        ensures back { self.new ≡ record self.old { doors = with_one_back self.old.doors line } }
    {
        self.out -= 1;
        self.back.push_reserved(line);
    }
}
