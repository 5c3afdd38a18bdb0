//! The list of the entries that were accepted, of which only proofs read: it takes no memory, and its calls do nothing at run time.
//! So promises can speak of one list over every disk, also over one that doesn't tell its contents.
ghost use Rattle.std.specs.Prelude.{◌≡◌, ◌++◌, ◌∷◌, []};

use fts_tables::Entry;
use http_server::Log;
use std::marker::Model;

/// Entries in their order.
#[derive(Drop)]
pub struct EntryList {
    log: Log<Entry, ()>,
}

impl Model for EntryList {
    ghost use Rattle.fts_keep.specs.Views.{ListData, list_of};

    ghost Value = { ListData };

    ghost view = { λ list. list_of list.log.items };
}

impl EntryList {
    /// No entry.
    pub fn new() -> EntryList
        ensures none { result.entries ≡ [] }
    {
        EntryList { log: Log::new() }
    }

    /// One entry more, behind the others.
    pub fn add(&mut self, entry: &Entry)
        ensures added { self.new.entries ≡ self.old.entries ++ entry.now ∷ [] }
    {
        self.log = self.log.and(entry, &());
    }
}
