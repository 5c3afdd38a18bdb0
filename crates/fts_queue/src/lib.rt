//! The words of files that wait, by link and activity, in order of priority and id, and the rooms of their queues.
//! The files stand in one order (`goes_before`): by queue, in a queue by priority, then by id. `WaitingData` is what contracts see of whoever keeps them
//! (`fts_line`): the files, the moment from which on they are ripe, and the rooms.
//! The laws say what follows for whoever counts and claims: the order depends on the set alone, and the first that passes a test is the best.
//! For the desk's claims. It knows nothing of slots, states and tables.
#![tactic(auto)]

mod laws;
mod rooms;
mod waiter;

pub use laws::{filters_keep_the_order, first_is_the_best, order_is_of_the_set, rooms_are_raised};
pub use rooms::{QueueRoom, raise};
pub use waiter::Waiter;
