//! The watch of a round's copies: on one thread nobody can call a copy off while it is made, so it always says yes.
//! It tells its answers to nobody, since no list of them fits a watch; that no copy ended as stopped says that each was a yes.
use fts_copy::Watch;

/// What says yes each time that it is asked.
#[derive(Drop)]
pub struct AlwaysWanted {
    askings: u64,
}

impl AlwaysWanted {
    /// One that wasn't asked yet.
    pub fn new() -> AlwaysWanted {
        AlwaysWanted { askings: 0 }
    }
}

impl Watch for AlwaysWanted {
    ghost use Rattle.std.specs.Prelude.{None};
    ghost use Rattle.fts_workers.specs.Wanted.{asked_so_far, IsLater, later_itself, later_passes};

    ghost noes = { λ _. 0 };

    ghost askings = { asked_so_far };

    ghost answers = { λ _. None };

    ghost later = { IsLater };

    fn wanted(&mut self) -> bool {
        self.askings = self.askings.saturating_add(1);
        true
    }

    ghost stays = { later_itself };

    ghost passes = { later_passes };
}
