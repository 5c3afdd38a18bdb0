//! One holder's access to a lock: a seat of the lock's table, and its number.
//! Keeps: between calls a pass has no ticket, no value and nothing in hand, and its number is that of its view (the invariant below).
//! Only `split` makes a pass, and only `join` and `close` take one.
ghost use Rattle.std.specs.Prelude.{◌≡◌};

use crate::logged::Logged;
use crate::view::View;
use atomic_table::Seat;
use std::marker::Model;

/// A pass of a `Turnstile`: the right to take turns, and what was learned in them.
#[derive(Drop)]
pub struct Pass<T: Logged> {
    pub(crate) seat: Seat<Option<T>, View<T::Item>>,
    pub(crate) number: u32,
}

impl<T: Logged> Model for Pass<T> {
    ghost use Rattle.std.specs.Prelude.{◌≡◌, []};
    ghost use Rattle.fts_turnstile.specs.Passes.{PassView, pass_of};
    ghost use Rattle.fts_turnstile.specs.Views.{Rests};

    ghost Value = { PassView T.Item };

    ghost view = { λ p. pass_of p.seat.table_id p.seat.me.0 };

    ghost invariant = { λ p. (p.seat.me.1 ≡ []) × (p.number ≡ p.seat.me.0.number) × Rests p.seat.me.0 };
}

impl<T: Logged> Pass<T> {
    /// Its number, from 0 to 4,294,967,295. No other pass of its lock has it.
    pub fn number(&self) -> u32
        ensures { result ≡ self.now.number }
    {
        self.number
    }
}
