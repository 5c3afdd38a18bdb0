//! What one thread works with besides the keep: where it copies, when it is, and by which words its claims draw.
use fts_store::Store;
use fts_tables::{Clock, Words};

/// A store, a clock and a source of words.
pub struct Hand<E: Store, C: Clock, W: Words> {
    pub store: E,
    pub clock: C,
    pub words: W,
}

impl<E: Store + Drop, C: Clock + Drop, W: Words + Drop> Drop for Hand<E, C, W> {
    fn drop(self) {
        let Hand {
            store: _,
            clock: _,
            words: _,
        } = self;
    }
}
