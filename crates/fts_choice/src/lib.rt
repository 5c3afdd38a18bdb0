//! Which comes next: the activity that a word draws, the link of a claim, the next alternative of a replica job, the next hop.
//! Each answer is a place in the lists at hand, and None exactly where there is none. Nothing here is kept, and no call takes memory.
//! `draws_by_weight` is the law of the draw: of the numbers below the sum of the weights that take part, each activity has exactly its weight.
//! The machine's own words are in `fts_tables/specs/Choice.antt`; `specs/` here says them for places.
#![tactic(auto)]

mod alternatives;
mod hops;
mod links;
mod weights;

pub use alternatives::next_alternative;
pub use hops::next_hop;
pub use links::{LinkChance, pick_link, picked_links_are_the_claims};
pub use weights::{draw, draws_by_weight};
