//! The limits of links and endpoints, and the slots taken of them.
//! `link_limit` and `endpoint_at` go by the names of endpoints: a limit is decided here alone.
//! Contracts see a `Slots` as its settings and the list of links held; what is held, inbound and outbound are counts of that list.
//! Kept in its type (`AreSlots`): no count of the list passes its limit, and there is room for all that the limits allow, so `take` needs no memory.
//! For who keeps counts between claims, as `fts_claims` does: `free` before a claim, `take` with it, `give` at the report. It knows nothing of rows
//! and jobs.
#![tactic(auto)]

mod counts;
mod limits;
mod link_limits;
mod ranks;
mod slots;

pub use limits::{endpoint_at, limits_by_place_are_by_name, link_limit};
pub use slots::Slots;
