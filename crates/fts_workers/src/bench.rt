//! The bench of one thread: the files that it has claimed, and the room in which it copies one of them at a time.
//! Keeps: no more files than places, and room for them all, so that holding one more takes no memory (`IsBench`).
//! What it holds is tied to the tables by each round (`IsWorkedOver` of `specs/Rounds.antt`), and not by the bench itself.
ghost use Rattle.std.specs.Prelude.{◌≡◌, ◌≤◌, ◌<◌, [], ◌∷◌, ◌++◌, List, length, IfOk, IsTrue, ◌↔◌};
ghost use Rattle.fts_tables.specs.Counts.{Rose};
ghost use Rattle.fts_tables.specs.Tables.{AreWellFormed};
ghost use Rattle.fts_store.specs.Store.{Stays};
ghost use Rattle.fts_copy.specs.Script.{log_of};
ghost use Rattle.fts_copy.specs.Watch.{NoesBy, VerifiedAsks};
ghost use Rattle.fts_workers.specs.Copies.{IsMadeAndTidied};

use crate::copying::{copy_and_tidy, copy_loaded, load_order};
use crate::{Held, RoundEnd};
use fts_copy::{CopyRoom, Loaded, Watch};
use fts_desk::Desk;
use fts_store::Store;
use fts_tables::{Memory, Outcome};
use std::alloc::Global;
use std::marker::Model;

/// The files that one thread holds, in order of their claims, and the room of their copies.
pub struct Bench {
    room: CopyRoom,
    held: Vec<Held>,
    places: u32,
}

impl Drop for Bench {
    fn drop(self) {
        let Bench {
            room: _,
            held: _,
            places: _,
        } = self;
    }
}

impl Model for Bench {
    ghost use Rattle.fts_workers.specs.Benches.{BenchData};

    ghost Value = { BenchData };

    ghost use Rattle.fts_workers.specs.BenchRoom.{bench_data, IsBench};

    ghost view = { bench_data };

    ghost invariant = { IsBench };
}

impl Bench {
    ghost use Rattle.fts_workers.specs.declared.held.Held.{Held};
    ghost use Rattle.fts_workers.specs.Benches.{KeepsOne, calm_end, newly_held};
    ghost use Rattle.fts_workers.specs.FirstFile.{HasFirst, CopiesFirst};

    /// A bench that holds nothing, with so many places, from 1 to 16.
    pub fn new(alloc: Global, places: u32) -> Result<Bench, Memory>
        requires some { 1 ≤ places }
        requires few { places ≤ 16 }
        ensures held { IfOk result (λ bench. bench.held ≡ []) }
        ensures places { IfOk result (λ bench. bench.places ≡ places) }
    {
        let room = CopyRoom::new(alloc)?;
        let held = Vec::with_capacity(alloc, places as usize)?;
        Ok(Bench { room, held, places })
    }

    /// The files that it holds, in order of their claims.
    pub fn held(&self) -> &[Held]
        ensures held { result.now ≡ self.now.held }
        ensures few { length result.now ≤ self.now.places }
        ensures some { 1 ≤ self.now.places }
    {
        &self.held
    }

    /// How many of the files that it holds it claimed in its last round: none where the first one's outcome still waits to be reported, and else all.
    pub fn newly_held(&self) -> u32
        ensures { result ≡ newly_held self.now.held }
    {
        match self.held.first() {
            Some(first) if first.outcome.is_some() => 0,
            Some(_) | None => self.held.len() as u32,
        }
    }

    /// Copies the first file that it holds, where no outcome of it is kept, and keeps how that ended.
    pub(crate) fn copy_first<E: Store>(&mut self, desk: &Desk, store: &mut E)
        requires formed { AreWellFormed desk.now.tables }
        requires first { HasFirst desk.now.tables self.old.held }
        requires kept { KeepsOne self.old.held }
        ensures copied { (first : Held) (others : List Held) → self.old.held ≡ first ∷ others
            → CopiesFirst E.state E.calls E.faults desk.now.tables first others self.old self.new store.old store.new }
    {
        if self.held[0].outcome.is_none() {
            load_order(&mut self.room, desk, self.held[0].file);
            let outcome = copy_loaded(store, &mut self.room);
            self.held[0].outcome = Some(outcome);
        }
    }

    /// Copies an order to its end by its own room, while the watch says that it is wanted, and behind the copy removes its part, where that ended
    /// otherwise than verified. What the bench holds stays. The outcome, and what is known of the store between, its calls and the counts there are
    /// those of `copy_verified`; from there the store is led on as `remove_part` says, whose failure is counted and changes no outcome.
    pub fn copy<E: Store, V: Watch>(
        &mut self,
        order: Loaded,
        store: &mut E,
        watch: &mut V,
    ) -> Outcome
        ensures bench { self.new ≡ self.old }
        ensures stays { Stays (E.state store.old) (E.state store.new) }
        ensures copied { IsMadeAndTidied (E.state store.old) (E.state store.new)
            (log_of (E.calls store.old) (V.answers watch.old)) (log_of (E.calls store.new) (V.answers watch.new))
            (E.faults store.old) (E.faults store.new) (record { order = order; outcome = result }) }
        ensures no_fewer_faults { E.faults store.old ≤ E.faults store.new }
        ensures store_failed { result ≡ Outcome.StoreFailed → Rose (E.faults store.old) (E.faults store.new) }
        ensures noes { NoesBy result (V.noes watch.old) (V.noes watch.new) }
        ensures asked { VerifiedAsks result (V.askings watch.old) (V.askings watch.new) }
        ensures later { V.later watch.old watch.new }
    {
        self.room.take(order);
        copy_and_tidy(store, &mut self.room, watch)
    }

    /// Holds the first file no longer.
    pub fn drop_first(&mut self)
        requires some { 1 ≤ length self.old.held }
        ensures dropped { (first : Held) (others : List Held) → self.old.held ≡ first ∷ others → self.new ≡ record self.old { held = others } }
    {
        self.held.remove(0);
    }

    /// How a round ends that met no fault.
    pub(crate) fn calm_end(&self) -> RoundEnd
        ensures { result ≡ calm_end (length self.now.held) }
    {
        match self.held.len() {
            0 => RoundEnd::Clear,
            held => RoundEnd::Busy { held: held as u32 },
        }
    }

    /// Whether it holds as many files as it has places.
    pub(crate) fn is_full(&self) -> bool
        ensures full { IsTrue result ↔ (self.now.places ≤ length self.now.held) }
    {
        self.held.len() >= self.places as usize
    }

    /// Holds one file more, behind the others. It takes no memory.
    pub fn hold(&mut self, held: Held)
        requires free { length self.old.held < self.old.places }
        ensures held { self.new ≡ record self.old { held = self.old.held ++ held ∷ [] } }
    {
        self.held.push_reserved(held);
    }
}
