//! The value under both locks: a number that each turn raises by one.
ghost use Rattle.std.specs.Prelude.{[], ◌∷◌};

use fts_turnstile::Logged;

/// How many turns were taken. It holds no list.
#[derive(Drop)]
pub struct Tally {
    pub turns: u64,
}

impl Logged for Tally {
    type Item = u32;

    ghost items = { λ tally. [] };

    ghost names = { λ item. item };

    ghost shows = { λ tally. tally.turns ∷ [] };
}

impl Tally {
    /// One turn more.
    pub fn count(&mut self) {
        self.turns = self.turns.wrapping_add(1);
    }
}
