//! The kinds of step, each named by what it does to the view of the seat that takes it, and what it tells that seat.
//! Taking the value and putting it back change no word, so they are `exchange` of `atomic_table` and need no kind here.
//! What each tells is a fact of `specs/Steps.antt`; what a split or a join makes of the views is in `specs/Views.antt`.
use crate::logged::Logged;
use crate::view::View;
use atomic_table::{Join, Play, Split};
use std::marker::PhantomData;

/// Takes a ticket, by an addition to the word of tickets.
pub struct TakeTicket;

impl<T, I> Play<Option<T>, View<I>> for TakeTicket {
    ghost use Rattle.fts_turnstile.specs.Steps.{TookTicket};

    ghost then = { TookTicket };
}

/// Looks at the turn: a seat that finds its ticket has the value from then on.
pub struct LookAtTurn<T> {
    value: PhantomData<T>,
}

impl<T: Logged> Play<Option<T>, View<T::Item>> for LookAtTurn<T> {
    ghost use Rattle.fts_turnstile.specs.Steps.{LookedAtTurn};

    ghost then = { LookedAtTurn T.items T.names T.shows };
}

/// Passes the turn on, by an addition to the word of turns. The turn joins the history here.
pub struct PassTurn<T> {
    value: PhantomData<T>,
}

impl<T: Logged> Play<Option<T>, View<T::Item>> for PassTurn<T> {
    ghost use Rattle.fts_turnstile.specs.Steps.{PassedTurn};

    ghost then = { PassedTurn T.items T.names T.shows };
}

/// Draws a pass number, by an addition to the word of numbers. Pass 0 alone does.
pub struct DrawNumber;

impl<T, I> Play<Option<T>, View<I>> for DrawNumber {
    ghost use Rattle.fts_turnstile.specs.Steps.{DrewNumber};

    ghost then = { DrewNumber };
}

/// Gives the number that was drawn to a new seat.
pub struct GiveNumber;

impl<I> Split<View<I>> for GiveNumber {
    ghost use Rattle.fts_turnstile.specs.Views.{view_after_giving, new_view};

    ghost left = { view_after_giving };

    ghost right = { new_view };
}

/// Writes a note with what the pass has seen, in a seat of its own.
pub struct WriteNote;

impl<I> Split<View<I>> for WriteNote {
    ghost use Rattle.fts_turnstile.specs.Views.{note_of};

    ghost left = { λ view. view };

    ghost right = { note_of };
}

/// Takes in a whole pass, with its numbers.
pub struct TakeInPass;

impl<I> Join<View<I>> for TakeInPass {
    ghost use Rattle.fts_turnstile.specs.Views.{view_with_pass, spent_view};

    ghost both = { view_with_pass };

    ghost spent = { spent_view };
}

/// Takes in a note.
pub struct ReadNote;

impl<I> Join<View<I>> for ReadNote {
    ghost use Rattle.fts_turnstile.specs.Views.{view_with_note, spent_view};

    ghost both = { view_with_note };

    ghost spent = { spent_view };
}

/// The look that follows a pass or a note taken in: what it brought counts as seen.
pub struct Learn;

impl<T, I> Play<Option<T>, View<I>> for Learn {
    ghost use Rattle.fts_turnstile.specs.Steps.{Learned};

    ghost then = { Learned };
}
