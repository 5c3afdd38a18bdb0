//! A link in memory, which tells its lines: it gives the listed ones in order and keeps those that come back, with what was written on them.
//! Its dials are numbered from 1. Those whose numbers stand in the list `fail` fail, and so does one that finds no line left, and no other.
//! A line that came back counts as a fault of the link where a read or a write of it has failed (`link_faults`).
//! Keeps: there is room for each line that may come back, so that taking one back needs no memory; and no line to come has failed yet
//! (`IsMemoryLink`, the invariant below).
//! Tests are run over it, and whatever is proved of all links is true of it.
ghost use Rattle.std.specs.Prelude.{◌≡◌, ◌↔◌, ◌<◌, [], false, None, Some, IfOk, IfErr, IsErr, IsTrue};
ghost use Rattle.fts_tables.specs.Counts.{CountsFaults};
ghost use Rattle.fts_wire.specs.Memory.{is_listed};
ghost use Rattle.fts_wire.specs.Outside.{raised};
ghost use Rattle.fts_client.specs.Links.{Dials, CountsLine, with_one_back};
ghost use Rattle.fts_client.specs.MemoryLinks.{AreFresh, has_failed, is_failing, link_after, link_faults};

use crate::link::{Link, LinkFailed};
use fts_tables::Memory;
use fts_wire::{MemoryLine, Sink, Source};
use std::alloc::Global;
use std::collections::VecDeque;
use std::marker::Model;

/// A link that gives listed lines.
pub struct MemoryLink {
    coming: VecDeque<MemoryLine>,
    back: Vec<MemoryLine>,
    out: usize,
    fail: Vec<u32>,
    dials: u64,
    port: Option<u16>,
    is_given: bool,
    failed: u64,
}

impl Drop for MemoryLink {
    fn drop(self) {
        let MemoryLink {
            coming: _,
            back: _,
            out: _,
            fail: _,
            dials: _,
            port: _,
            is_given: _,
            failed: _,
        } = self;
    }
}

impl Model for MemoryLink {
    ghost use Rattle.fts_client.specs.MemoryLinks.{MemoryLinkData, memory_link_data, IsMemoryLink};

    ghost Value = { MemoryLinkData };

    ghost view = { memory_link_data };

    ghost invariant = { IsMemoryLink };
}

impl MemoryLink {
    /// A link that gives these lines, in order. The dials with these numbers fail. Where memory is short, the lines come back.
    pub fn new(
        alloc: Global,
        lines: Vec<MemoryLine>,
        fail: Vec<u32>,
    ) -> Result<MemoryLink, (Memory, Vec<MemoryLine>)>
        requires fresh { AreFresh lines.items }
        ensures made { IfOk result (λ made. made ≡ record {
          link = record { coming = Some lines.items; back = Some []; out = 0; dials = 0; port = None; is_given = false };
          fail = fail.items;
          failed = 0;
        }) }
        ensures err { IfErr result (λ refused. refused.1 ≡ lines) }
    {
        let back = match Vec::with_capacity(alloc, lines.len()) {
            Ok(back) => back,
            Err(_) => return Err((Memory, lines)),
        };
        Ok(MemoryLink {
            coming: VecDeque::from_vec(lines),
            back,
            out: 0,
            fail,
            dials: 0,
            port: None,
            is_given: false,
            failed: 0,
        })
    }

    /// The lines that came back, in order.
    pub fn back(&self) -> &[MemoryLine]
        ensures { self.now.link.back ≡ Some result.now }
    {
        self.back.as_slice()
    }

    /// The port that was dialed last, if any was.
    pub fn port(&self) -> Option<u16>
        ensures { result ≡ self.now.link.port }
    {
        self.port
    }

    /// Whether the dial that was counted last is one of those that fail.
    fn is_listed(&self) -> bool
        ensures { result ≡ is_listed self.now.fail self.now.link.dials }
    {
        self.fail
            .iter()
            .any(|number| u64::from(*number) == self.dials)
    }
}

impl Link for MemoryLink {
    ghost use Rattle.std.proofs.Common.{rules};
    ghost use Rattle.fts_client.specs.MemoryLinks.{link_faults};

    type Line = MemoryLine;

    ghost link = { λ l. l.link };

    ghost faults = { link_faults };

    ghost line = { Prim.search rules };

    fn dial(&mut self, port: u16) -> Result<MemoryLine, LinkFailed>
        ensures dials { Dials port self.old.link self.new.link result }
        ensures fresh { IfOk result (λ line. has_failed line ≡ false) }
        ensures cause { CountsFaults (link_faults self.old) (link_faults self.new) result }
        ensures fails { IsErr result ↔ IsTrue (is_failing self.old (raised self.old.link.dials 1)) }
        ensures after { self.new ≡ link_after self.old self.new.link result }
    {
        self.dials = self.dials.saturating_add(1);
        self.port = Some(port);
        if !self.is_listed() {
            if let Some(line) = self.coming.pop_front() {
                self.out += 1;
                self.is_given = true;
                return Ok(line);
            }
        }
        self.is_given = false;
        self.failed = self.failed.saturating_add(1);
        Err(LinkFailed)
    }

    fn done(&mut self, line: MemoryLine)
        requires out { 0 < self.old.link.out }
        ensures back { self.new.link ≡ with_one_back self.old.link line }
        ensures faults { CountsLine (link_faults self.old) (link_faults self.new) (⟦<MemoryLine as Source>⟧.faults line) (⟦<MemoryLine as Sink>⟧.faults line) }
        ensures after { self.new ≡ record self.old { link = with_one_back self.old.link line } }
    {
        self.out -= 1;
        self.back.push_reserved(line);
    }
}
