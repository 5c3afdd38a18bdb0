//! The lock: one value, one list of turns, and passes that know what they have seen and what they added.
//! Keeps: the table has three words and one slot (the invariant below), and the rule of `specs/Rule.antt` between any two steps.
//! Order of a turn: take a ticket, look until the turn is that ticket's, take the value, work, put the value back, pass the turn on.
//! The value is back before the turn moves, and the turn moves before the next in line is woken. Who sleeps does so on the bell of its ticket.
//! For threads that share one value, one pass a thread. `with_turn` waits; nothing else does.
ghost use Rattle.std.specs.Prelude.{◌≡◌, ◌≢◌, ◌+◌, ◌%◌, ◌<◌, [], ◌∷◌, Some, None, IfOk, IfErr};
ghost use Rattle.std.specs.Fn.{FnOnceReturnsAtMut};
ghost use Rattle.fts_turnstile.specs.History.{Begins, OnlyOthersSince, shown_after, longer_of, items_by, AllNamed, AllGiven, NoneTwice};
ghost use Rattle.fts_turnstile.specs.Views.{Rests, IsWaiting, IsServed, view_told, own_numbers};
ghost use Rattle.fts_turnstile.specs.Steps.{Served, Entered, MayLeave, Left};
ghost use Rattle.fts_turnstile.specs.Passes.{IsOf, IsSame, numbers_of, seen_list, own_items, Appends, TookTurn, first_pass, pass_after_split, pass_given, with_seen, pass_after_join, HasAll};

use crate::bells::Bells;
use crate::logged::Logged;
use crate::memory::Memory;
use crate::pass::Pass;
use crate::rule::{MADE, TICKET, TURN, TurnstileRule, VALUE};
use crate::steps::{
    DrawNumber, GiveNumber, Learn, LookAtTurn, PassTurn, ReadNote, TakeInPass, TakeTicket,
    WriteNote,
};
use crate::view::View;
use atomic_table::{Refused, Seat, Table};
use std::alloc::{AllocFailed, Global};
use std::marker::Model;
use std::snapshot::Snapshot;
use std::sync::Wait;

/// How often a pass looks at the turn before it sleeps until its bell is rung.
const LOOKS_BEFORE_SLEEP: u32 = 100;

/// A ticket lock over one value.
#[derive(Drop)]
pub struct Turnstile<T: Logged> {
    table: Table<Option<T>, View<T::Item>, Snapshot<T>, TurnstileRule<T>, Global>,
    bells: Bells,
}

impl<T: Logged> Model for Turnstile<T> {
    ghost use Rattle.std.specs.Prelude.{◌≡◌};
    ghost use Rattle.fts_turnstile.specs.Passes.{TurnstileView};

    ghost Value = { TurnstileView T.Item };

    ghost view = { λ t. record {
      table = t.table.shared.table_id;
      opening = T.items t.table.shared.key.value;
      opening_shows = T.shows t.table.shared.key.value;
    } };

    ghost invariant = { λ t. (t.table.shared.table_id.words ≡ 3) × (t.table.shared.table_id.slots ≡ 1) };
}

impl<T: Logged> Turnstile<T> {
    /// A lock over the value, and its pass 0. Where memory is short, the value comes back.
    pub fn new(alloc: Global, value: T) -> Result<(Turnstile<T>, Pass<T>), (Memory, T)>
        ensures turnstile { IfOk result (λ made. (made.0.opening ≡ T.items value) × (made.0.opening_shows ≡ T.shows value)) }
        ensures pass { IfOk result (λ made. made.1 ≡ first_pass made.0) }
        ensures err { IfErr result (λ back. back.1 ≡ value) }
    {
        let key = Snapshot::of(&value);
        let slots = match one_slot(alloc, value) {
            Ok(slots) => slots,
            Err(value) => return Err((Memory, value)),
        };
        match Table::new(alloc, &[0, 0, 1], slots, &key) {
            Ok((table, seat)) => {
                let bells = Bells::new();
                Ok((Turnstile { table, bells }, Pass { seat, number: 0 }))
            }
            Err(Refused { slots }) => Err((Memory, value_of(slots))),
        }
    }

    /// A new pass with the next number, which has seen what pass 0 has and has added nothing.
    /// Pass 0 alone splits, and gives the numbers from 1 to 4,294,967,295 in order.
    pub fn split(&self, pass: &mut Pass<T>) -> Pass<T>
        requires own { IsOf self.now pass.old }
        requires first { pass.old.number ≡ 0 }
        requires room { pass.old.given < 4294967295 }
        ensures pass { pass.new ≡ pass_after_split pass.old }
        ensures given { result ≡ pass_given pass.old }
        ensures fresh { own_items result ≡ [] }
    {
        let number = self
            .table
            .shared
            .fetch_add::<DrawNumber>(&mut pass.seat, MADE, 1) as u32;
        let seat = self.table.shared.split_seat::<GiveNumber>(&mut pass.seat);
        Pass { seat, number }
    }

    /// Takes in the other pass, which is not pass 0: what it has seen, its own items and its numbers.
    pub fn join(&self, pass: &mut Pass<T>, other: Pass<T>)
        requires own { IsOf self.now pass.old × IsOf self.now other }
        requires other { other.number ≢ 0 }
        ensures pass { pass.new ≡ pass_after_join pass.old other }
        ensures apart { NoneTwice (numbers_of pass.new) }
        ensures mine { OnlyOthersSince (numbers_of pass.old) pass.old.seen pass.new.seen }
        ensures theirs { OnlyOthersSince (numbers_of other) other.seen pass.new.seen }

        // The own items of both are among those of the joined pass, each as they were.
        ensures items { items_by (numbers_of pass.old) pass.new.seen ≡ own_items pass.old }
        ensures other_items { items_by (numbers_of other) pass.new.seen ≡ own_items other }
    {
        let Pass { seat, number: _ } = other;
        self.table
            .shared
            .join_seat::<TakeInPass>(&mut pass.seat, seat);
        self.table.shared.load::<Learn>(&mut pass.seat, TURN);
    }

    /// Waits for a turn, and does the work on the value in it. Of what `work` finds out, its result alone comes back.
    pub fn with_turn<W: Wait, R, F: FnOnce(&mut T) -> R>(
        &self,
        rt: &W,
        pass: &mut Pass<T>,
        work: F,
    ) -> R
        requires own { IsOf self.now pass.old }

        // Whatever list the turn meets, as long as it begins with what the pass has seen, the work may be called, and only appends items that name the pass.
        requires callable { (before : T) (loan : _) → Begins (seen_list pass.old) (T.items before)
            → loan.now ≡ before → F.pre work loan }
        requires appends { (before : T) (r : R) (after : T) → Begins (seen_list pass.old) (T.items before)
            → FnOnceReturnsAtMut F.FnOnce work before r after
            → Appends T.items T.names pass.old.number before after }
        ensures same { IsSame pass.old pass.new }
        ensures took { TookTurn T.items T.names T.shows (λ before after. FnOnceReturnsAtMut F.FnOnce work before result after) pass.old pass.new }
    {
        let mut value = self.enter(rt, &mut pass.seat);
        let result = work(&mut value);
        self.leave(&mut pass.seat, value);
        result
    }

    /// Counts a change, for those that take a turn only where there may be something new. To be called behind the turn that made it.
    pub fn stir(&self) {
        self.bells.stir();
    }

    /// How many changes were counted, modulo 2^64. Where the number is another behind a turn than before it, something may be new; it tells nothing of the value.
    pub fn stirred(&self) -> u64 {
        self.bells.stirred()
    }

    /// Afterwards each of the two has seen what either had.
    pub fn meet(&self, pass: &mut Pass<T>, other: &mut Pass<T>)
        requires own { IsOf self.now pass.old × IsOf self.now other.old }
        ensures other { other.new ≡ with_seen other.old (longer_of other.old.seen pass.old.seen) }
        ensures pass { pass.new ≡ with_seen pass.old other.new.seen }
        ensures mine { OnlyOthersSince (numbers_of pass.old) pass.old.seen pass.new.seen }
        ensures theirs { OnlyOthersSince (numbers_of other.old) other.old.seen pass.new.seen }
        ensures items { (own_items pass.new ≡ own_items pass.old) × (own_items other.new ≡ own_items other.old) }
    {
        self.tell(&mut pass.seat, &mut other.seat);
        self.tell(&mut other.seat, &mut pass.seat);
    }

    /// The value, once pass 0 has every number that it gave. It has then seen every turn.
    pub fn close(self, pass: Pass<T>) -> T
        requires own { IsOf self pass }
        requires first { pass.number ≡ 0 }
        requires all { HasAll pass }
        ensures list { T.items result ≡ seen_list pass }
        ensures shows { T.shows result ≡ shown_after pass.opening_shows pass.seen }
        ensures named { AllNamed T.names pass.seen }
        ensures takers { AllGiven pass.given pass.seen }
    {
        let Turnstile { table, bells: _ } = self;
        let Pass { seat, number: _ } = pass;
        let mut closed = table.close_with(seat);
        let value = closed.take(VALUE);
        closed.free();
        match value {
            Some(value) => value,
            None => unreachable!(),
        }
    }
}

// The parts of a turn, on the seat of a pass.
impl<T: Logged> Turnstile<T> {
    // Takes a ticket, waits for its turn, and takes the value.
    fn enter<W: Wait>(&self, rt: &W, seat: &mut Seat<Option<T>, View<T::Item>>) -> T
        requires own { seat.old.table_id ≡ self.now.table }
        requires rests { Rests seat.old.me.0 × (seat.old.me.1 ≡ []) }
        ensures same { (seat.new.table_id ≡ seat.old.table_id) × (seat.new.id ≡ seat.old.id) }
        ensures entered { Entered T.items T.names T.shows seat.old.me.0 seat.new.me result }
    {
        let ticket = self.table.shared.fetch_add::<TakeTicket>(seat, TICKET, 1);
        self.wait_turn(rt, seat, ticket);
        match self.table.shared.exchange(seat, VALUE, None) {
            Some(value) => value,
            None => unreachable!(),
        }
    }

    // Looks at the turn until it is this ticket's: some looks at once, and then one after each sleep.
    fn wait_turn<W: Wait>(&self, rt: &W, seat: &mut Seat<Option<T>, View<T::Item>>, ticket: u64)
        requires own { seat.old.table_id ≡ self.now.table }
        requires waiting { IsWaiting seat.old.me.0 ticket × (seat.old.me.1 ≡ []) }
        ensures same { (seat.new.table_id ≡ seat.old.table_id) × (seat.new.id ≡ seat.old.id) }
        ensures served { Served T.items T.names T.shows seat.old.me.0 seat.new.me }
    {
        let mut looks = 0;
        for _ in rt.forever() {
            let heard = self.bells.heard(ticket);
            let turn = self.table.shared.load::<LookAtTurn<T>>(seat, TURN);
            if turn == ticket {
                return;
            }
            if looks < LOOKS_BEFORE_SLEEP {
                looks += 1;
            } else {
                self.bells.sleep(rt, ticket, heard);
            }
        }
        unreachable!()
    }

    // Puts the value back, passes the turn on, and wakes the next in line.
    fn leave(&self, seat: &mut Seat<Option<T>, View<T::Item>>, value: T)
        requires own { seat.old.table_id ≡ self.now.table }
        requires served { IsServed seat.old.me.0 × (seat.old.me.1 ≡ (0, None) ∷ []) }
        requires adds { MayLeave T.items T.names seat.old.me.0 value }
        ensures same { (seat.new.table_id ≡ seat.old.table_id) × (seat.new.id ≡ seat.old.id) × (seat.new.me.1 ≡ []) }
        ensures left { Left T.items T.names T.shows seat.old.me.0 value seat.new.me.0 }
    {
        match self.table.shared.exchange(seat, VALUE, Some(value)) {
            None => {}
            Some(_) => unreachable!(),
        }
        let turn = self.table.shared.fetch_add::<PassTurn<T>>(seat, TURN, 1);
        self.wake_next(turn.wrapping_add(1));
    }

    // Wakes the holder of a ticket. Where that ticket isn't drawn yet nobody has it: who draws it later looks at the turn after that, and finds it moved.
    fn wake_next(&self, ticket: u64) {
        if self.table.shared.peek(TICKET) != ticket {
            self.bells.ring(ticket);
        }
    }

    // Tells the second what the first has seen, by a note.
    fn tell(
        &self,
        from: &mut Seat<Option<T>, View<T::Item>>,
        to: &mut Seat<Option<T>, View<T::Item>>,
    )
        requires own { (from.old.table_id ≡ self.now.table) × (to.old.table_id ≡ self.now.table) }
        requires rests { Rests from.old.me.0 × Rests to.old.me.0 × (from.old.me.1 ≡ []) × (to.old.me.1 ≡ []) }
        ensures same { (from.new.table_id ≡ from.old.table_id) × (to.new.table_id ≡ to.old.table_id) × (from.new.me ≡ from.old.me) × (to.new.me.1 ≡ []) }
        ensures told { to.new.me.0 ≡ view_told to.old.me.0 from.old.me.0 }
        ensures others { OnlyOthersSince (own_numbers to.old.me.0) to.old.me.0.seen to.new.me.0.seen }
    {
        let note = self.table.shared.split_seat::<WriteNote>(from);
        self.table.shared.join_seat::<ReadNote>(to, note);
        self.table.shared.load::<Learn>(to, TURN);
    }
}

// The slots of a new lock: one, with the value.
fn one_slot<T>(alloc: Global, value: T) -> Result<Vec<Option<T>>, T>
    ensures ok { IfOk result (λ slots. slots.items ≡ Some value ∷ []) }
    ensures err { IfErr result (λ back. back ≡ value) }
{
    let mut slots = Vec::new(alloc);
    match slots.push(Some(value)) {
        Ok(()) => Ok(slots),
        Err(AllocFailed { value }) => {
            slots.destroy_empty();
            match value {
                Some(value) => Err(value),
                None => unreachable!(),
            }
        }
    }
}

// The value in the one slot.
fn value_of<T>(mut slots: Vec<Option<T>>) -> T
    requires { (value : T) × (slots.items ≡ Some value ∷ []) }
    ensures { slots.items ≡ Some result ∷ [] }
{
    let last = slots.pop();
    slots.destroy_empty();
    match last {
        Some(Some(value)) => value,
        _ => unreachable!(),
    }
}
