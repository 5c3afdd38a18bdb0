//! Rounds of one thread: the files that it holds are copied and reported, the ones that wait too long are cancelled, and then it claims others.
//! `round` is one round over a keep, a bench, a store, a clock and words; `specs/Rounds.antt` says what a round is, `specs/Benches.antt` what a bench
//! holds between two of them, `specs/Copies.antt` how the store follows from the reports, and `specs/ClaimSteps.antt` what is done before a copy.
#![tactic(auto)]

mod bench;
mod claiming;
mod copying;
mod ends;
mod gate;
mod hand;
mod held;
mod laws;
mod rounds;
mod watch;

pub use bench::Bench;
pub use claiming::{ClaimStep, claim_step};
pub use copying::{job_of_file, order_of_file};
pub use ends::RoundEnd;
pub use gate::{CopyNote, Gate, NoGate, NoteName, PlaceNote};
pub use hand::Hand;
pub use held::Held;
pub use laws::{benches_stay_over_lists, requests_leave_the_bench};
pub use rounds::round;
