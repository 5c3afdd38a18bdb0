//! What follows of any history, as contracts that a caller can cite.
//! They are called for their clause alone, and do nothing when they run.
ghost use Rattle.std.specs.Prelude.{◌≡◌, ℕ, ◌==◌, filter, List, [], ◌∷◌};
ghost use Rattle.fts_turnstile.specs.declared.turn.LoggedTurn.{LoggedTurn};
ghost use Rattle.fts_turnstile.specs.History.{items_of, items_by, AllNamed};

use crate::logged::Logged;

/// Where each item names its turn's number, the items that name a number are those of the turns with that number.
pub fn items_that_name<T: Logged>()
    ensures { (turns : List (LoggedTurn T.Item)) (n : ℕ) → AllNamed T.names turns
        → filter (λ item. T.names item == n) (items_of turns) ≡ items_by (n ∷ []) turns }
{}
