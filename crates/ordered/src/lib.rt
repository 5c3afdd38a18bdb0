//! Small keys in order, in memory that was taken before: an insertion and a removal take none, and cannot fail.
//! An `Ordered<K>` is a set of keys of one type, in the order that its `Key` gives. Contracts see the keys as a sorted list, and the room.
//! Order: `make_room` before `insert`. It knows nothing of what its keys mean.
#![tactic(auto)]

mod chunk;
mod chunks;
mod key;
mod set;

pub use key::Key;
pub use set::Ordered;
