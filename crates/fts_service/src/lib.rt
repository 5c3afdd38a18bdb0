//! Lanes of connections beside workers, in threads, over one keep behind its lock.
//! Keeps: each reply is the machine's over the list before its request's own turn (`serve_connection`, clause `served`); each lane serves the lines
//! that its doors give, in order, and hands each back (`serve_lane`); what each lane and each worker did stands in one list of turns
//! (`serve_shop`, clause `ran`; `specs/Serving.antt`).
//! Order: memory is taken for lanes and workers, a shop is put behind a lock, doors are opened, lanes and hands take their seats, run to their end,
//! and go back in their order; then the lock is closed.
#![tactic(auto)]

mod connection;
mod crew;
mod doors;
mod hall;
mod lane;
mod locked;
mod memory_doors;
mod opening;
mod seats;
mod together;

pub use connection::serve_connection;
pub use crew::{Seats, Served, serve_shop};
pub use doors::{Doors, DoorsFailed};
pub use hall::{Hall, run_lanes, serve_all};
pub use lane::{Booth, Lane, LaneStop, serve_lane};
pub use locked::{Locked, lock_shop, unlock};
pub use memory_doors::MemoryDoors;
pub use opening::{make_benches, make_rooms, open_doors};
pub use seats::{cycle, leave_booths, leave_stations, seat_hands, seat_lanes};
pub use together::{ServedEnd, served};
