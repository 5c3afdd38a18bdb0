//! What one command makes of one row, and the state of a job by its rows: for plain jobs, replicas and hops alike.
//! Each contract is the machine's own definition (`fts_tables/specs/Moves.antt`, `Step.antt`). Nothing here is kept, and no call is refused.
//! Here a report also says which kind of row begins to wait behind it; which row that is, `fts_choice` says.
#![tactic(auto)]

mod cancels;
mod jobs;
mod reports;
mod restarts;
mod waits;

pub use cancels::{CancelStep, after_cancel};
pub use jobs::job_state;
pub use reports::{After, Follow, after_report};
pub use restarts::after_restart;
pub use waits::{is_overdue, overdue_from};
