//! The trait of a watch, which a copy asks before each piece whether it is still wanted; and one that counts, for tests and for copies that
//! nobody calls off.
//! A watch counts its askings and its noes, and may tell its answers.
//! What else is known of it later is its own relation (`later`), which holds from a watch to itself
//! and passes on, so a copy can promise it of any watch.
ghost use Rattle.std.specs.Prelude.{◌≡◌, ◌≤◌, ℕ, Bool, false, Option, List, IsTrue};
ghost use Rattle.fts_tables.specs.Counts.{Rose};
ghost use Rattle.fts_copy.specs.Watch.{asked_once, with_answer};

/// What says whether a copy is still wanted.
pub trait Watch {
    /// How often it said no, up to the greatest `u64`.
    ghost noes: { Self → ℕ };

    /// How often it was asked, up to the greatest `u64`.
    ghost askings: { Self → ℕ };

    /// The answers that it gave, where it tells them.
    ghost answers: { Self → Option (List Bool) };

    /// What is known of a watch later, by what it was before.
    ghost later: { Self → Self → Type 0 };

    /// Whether the copy is still wanted.
    fn wanted(&mut self) -> bool
        ensures told { answers self.new ≡ with_answer (answers self.old) result }
        ensures asked { askings self.new ≡ asked_once (askings self.old) }
        ensures yes { IsTrue result → noes self.new ≡ noes self.old }
        ensures no { result ≡ false → Rose (noes self.old) (noes self.new) }
        ensures no_fewer { noes self.old ≤ noes self.new }
        ensures later { later self.old self.new };

    /// The relation holds from a watch to itself.
    ghost stays: { (watch : Self) → later watch watch };

    /// It passes on from one step to the next.
    ghost passes: { (one two three : Self) → later one two → later two three → later one three };
}

/// A watch that says yes so many times, and then no.
#[derive(Drop)]
pub struct CountingWatch {
    pub(crate) left: u64,
    pub(crate) askings: u64,
    pub(crate) noes: u64,
}

impl CountingWatch {
    ghost use Rattle.std.specs.Prelude.{◌≡◌};
    ghost use Rattle.fts_copy.specs.Counting.{asked_so_far, yeses_left};

    /// A watch that says yes so many times.
    pub fn new(yeses: u64) -> CountingWatch
        ensures askings { asked_so_far result ≡ 0 }
        ensures left { yeses_left result ≡ yeses }
    {
        CountingWatch {
            left: yeses,
            askings: 0,
            noes: 0,
        }
    }

    /// How often it was asked, up to the greatest `u64`.
    pub fn askings(&self) -> u64
        ensures { result ≡ asked_so_far self.now }
    {
        self.askings
    }
}

impl Watch for CountingWatch {
    ghost use Rattle.std.specs.Prelude.{None};
    ghost use Rattle.fts_copy.specs.Counting.{asked_so_far, said_no, IsLater, later_itself, later_passes};

    ghost noes = { said_no };

    ghost askings = { asked_so_far };

    ghost answers = { λ _. None };

    ghost later = { IsLater };

    fn wanted(&mut self) -> bool {
        self.askings = self.askings.saturating_add(1);
        if self.left == 0 {
            self.noes = self.noes.saturating_add(1);
            return false;
        }
        self.left -= 1;
        true
    }

    ghost stays = { later_itself };

    ghost passes = { later_passes };
}
