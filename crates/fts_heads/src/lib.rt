//! The ripe files, so that a claim meets none whose destination is busy: of the files of one queue and one destination the best stands in line, and only
//! while that destination is known and free.
//! `Heads` keeps the line (`AreHeads`), and contracts see all ripe files and the flags of the busy destinations. `Dests` gives destinations their numbers.
//! For `fts_claims`. It knows nothing of links, states and jobs.
#![tactic(auto)]

mod counted;
mod crowd;
mod dests;
mod digest;
mod heads;
mod line;
mod ripe_file;
mod walk;

pub use counted::{BLOCK_QUEUES, BLOCKS};
pub use dests::Dests;
pub use heads::{Heads, MOST_DESTS, MOST_QUEUES};
pub use ripe_file::RipeFile;
