//! One turn of the history, as contracts see it.
//! No value of this type is made: it declares the data of the proofs.
use std::collections::LinkedList;

/// One turn: who took it, what it added, and what the value showed after it.
pub struct LoggedTurn<I> {
    /// The number of the pass that took the turn.
    pub number: u32,
    /// The items that it added, oldest first. There may be none.
    pub items: LinkedList<I>,
    /// What the value showed when the turn ended.
    pub shows: LinkedList<u64>,
}
