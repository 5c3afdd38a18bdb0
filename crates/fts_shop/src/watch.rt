//! The watch of a copy that is made outside every turn: each asking is a turn of the pass, in which it looks whether cancel was asked of the file.
//! Keeps: the pass is of the lock (`own`). What is known of it later is `IsWatched` of `specs/Looking.antt`.
//! It tells its answers to nobody, since no list of them fits a watch; that no copy ended as stopped says that each was a yes.
ghost use Rattle.std.specs.Prelude.{◌≡◌};

use crate::shop::Shop;
use crate::tried::look_in;
use fts_copy::Watch;
use fts_disk::Disk;
use fts_turnstile::{Pass, Turnstile};
use std::sync::Wait;

/// What asks the shop in a turn each time whether cancel was asked of a file.
#[derive(Drop)]
pub struct ShopWatch<'a, D: Disk, R: Wait> {
    pub rt: &'a R,
    pub shop: &'a Turnstile<Shop<D>>,
    pub pass: &'a mut Pass<Shop<D>>,
    pub file: u32,
    pub askings: u64,
    pub noes: u64,
    ghost own: { pass.now.table ≡ shop.now.table },
}

impl<'a, D: Disk, R: Wait> Watch for ShopWatch<'a, D, R> {
    ghost use Rattle.std.specs.Prelude.{◌≡◌, None};
    ghost use Rattle.std.proofs.Common.{refl, ◌∙◌};
    ghost use Rattle.fts_shop.specs.Looking.{IsWatched};
    ghost use Rattle.fts_shop.specs.Looked.{watched_itself, watched_on};

    ghost noes = { λ w. w.noes };

    ghost askings = { λ w. w.askings };

    ghost answers = { λ _. None };

    ghost later = { λ v w. (w.pass.ghost_name ≡ v.pass.ghost_name) × (w.file ≡ v.file)
        × IsWatched v.file v.pass.now w.pass.now v.askings w.askings v.noes w.noes };

    fn wanted(&mut self) -> bool {
        let file = self.file;
        let asked = self.shop.with_turn(
            self.rt,
            self.pass,
            |shop: &mut Shop<D>| look_in(shop, file),
        );
        self.askings = self.askings.saturating_add(1);
        if asked {
            self.noes = self.noes.saturating_add(1);
            return false;
        }
        true
    }

    ghost stays = { λ w. (refl, refl, watched_itself w.file w.pass.now w.askings w.noes) };

    ghost passes = { λ x y z a b. (
      b.0 ∙ a.0,
      b.1 ∙ a.1,
      watched_on x.file y.file x.pass.now y.pass.now z.pass.now x.askings y.askings z.askings x.noes y.noes z.noes a.1 a.2 b.2,
    ) };
}
