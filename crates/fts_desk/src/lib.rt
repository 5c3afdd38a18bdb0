//! The transfer machine's tables, as a running service keeps them.
//! A command is applied in two steps: `Desk::prepare` refuses it or makes room for it, and `Desk::commit` does it, takes no memory and can't fail.
//! A caller that keeps a journal writes the command to it once it is prepared, and commits it once it is written, as `fts_keep` does.
//! Each command is a module of its own: a check that answers as the machine's step would, and the step. `commands.rt` brings them together.
#![tactic(auto)]

mod answers;
mod bans;
mod bounds;
mod cancels;
mod claims;
mod commands;
mod counts;
mod desk;
mod expiries;
mod find;
mod job_states;
mod kept;
mod lookups;
mod parts;
mod priority;
mod reports;
mod restart;
mod same_settings;
mod sources;
mod submit;
mod waking;

pub use desk::{Desk, DeskFault, Plan};
pub use job_states::{JOB_STATES, rank};
pub use submit::standard_id;
