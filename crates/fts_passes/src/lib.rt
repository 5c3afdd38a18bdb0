//! The passes of many threads over one lock: made at once before the threads start, and taken in at once behind their end.
//! What a closed lock then says of all of them stands in one record (`specs/Crews.antt`): one list of turns, of which each pass has seen its own.
//! For whoever runs threads over a `Turnstile` and closes it behind them. Neither call waits.
#![tactic(auto)]

mod crew;

pub use crew::{close_with, split_passes};
