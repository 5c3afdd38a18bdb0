//! The value behind the lock: a keep, and how many lanes are left.
//! Shows its disk's count of faults, the lanes left, whether the disk tells its contents, and the entry in doubt; its list is the keep's, whose entries
//! name their writers.
//! Keeps nothing of its own, since it lends the keep: what a keep's type keeps, the keep does.
ghost use Rattle.std.specs.Prelude.{◌≡◌, ◌-◌};

use fts_disk::Disk;
use fts_keep::Keep;
use fts_tables::Entry;
use fts_turnstile::Logged;
use std::marker::Model;

/// A keep, and the number of lanes that are left.
pub struct Shop<D: Disk> {
    keep: Keep<D>,
    lanes: u32,
}

impl<D: Disk + Drop> Drop for Shop<D> {
    fn drop(self) {
        let Shop { keep: _, lanes: _ } = self;
    }
}

impl<D: Disk> Model for Shop<D> {
    ghost use Rattle.fts_shop.specs.Shops.{ShopData};

    ghost Value = { ShopData D };

    ghost view = { λ s. record { keep = s.keep; lanes = s.lanes } };
}

impl<D: Disk> Logged for Shop<D> {
    ghost use Rattle.fts_shop.specs.Shops.{shop_entries, writer_of, shop_shows};

    type Item = Entry;

    ghost items = { shop_entries };

    ghost names = { writer_of };

    ghost shows = { shop_shows D.Disk };
}

impl<D: Disk> Shop<D> {
    ghost use Rattle.std.specs.Prelude.{◌≡◌, ◌-◌};
    ghost use Rattle.fts_shop.specs.Shops.{shop_of};

    /// A shop with so many lanes.
    pub fn new(keep: Keep<D>, lanes: u32) -> Shop<D>
        ensures { result ≡ shop_of keep lanes }
    {
        Shop { keep, lanes }
    }

    /// How many lanes are left.
    pub fn lanes(&self) -> u32
        ensures { result ≡ self.now.lanes }
    {
        self.lanes
    }

    /// Takes one lane off, and leaves 0 as it is.
    pub fn lane_ends(&mut self)
        ensures { self.new ≡ record self.old { lanes = self.old.lanes - 1 } }
    {
        self.lanes = self.lanes.saturating_sub(1);
    }

    /// The keep, given back.
    pub fn close(self) -> Keep<D>
        ensures { result ≡ self.keep }
    {
        let Shop { keep, lanes: _ } = self;
        keep
    }
}

impl<D: Disk> Shop<D> {
    ghost use Rattle.std.specs.Prelude.{◌≡◌};
    ghost use Rattle.std.specs.Borrow.{Lends, sem};
    ghost use Rattle.fts_shop.specs.Shops.{with_keep};
    ghost use Rattle.fts_keep.specs.contracts.keep.Keep.{the_row as keep_row};
    ghost use Rattle.fts_shop.specs.contracts.shop.Shop.{the_row};

    /// The keep. When the borrow ends, the shop has what was done to it.
    pub fn keep(&mut self) -> &mut Keep<D>
        ensures* lends { sem 𝓛 (Lends (the_row D.row D.Disk) (keep_row D.row D.Disk) self.entry result (with_keep self.entry.now)) }
        ensures value { result.now ≡ self.entry.now.keep }
    {
        &mut self.keep
    }
}
