//! The shop: a keep behind a lock, which workers and lanes share, each by turns of its own pass.
//! `Shop` is the value behind the lock; `specs/Shops.antt` says what a turn of it is, and what is tried, looked at or ended in one.
//! `turn` is what a worker does again and again: an expiry and a claim in one turn, a copy outside every turn, and its report (`specs/Turns.antt`).
#![tactic(auto)]

mod ends;
mod many;
mod shop;
mod station;
mod tried;
mod turning;
mod turns;
mod watch;
mod working;

pub use ends::{Turn, WorkerEnd};
pub use many::{Work, beside, spread};
pub use shop::Shop;
pub use station::Station;
pub use tried::{ClaimTried, Tried, answer_of, claim_in, look_in, try_in};
pub use turning::turn;
pub use turns::{lane_ends, try_claim, try_command};
pub use working::{Floor, Workers, run_workers, worker};
