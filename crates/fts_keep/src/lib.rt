//! The desk over the journal: a command is accepted once its entry stands in every image that a crash may leave, and only then do the tables change.
//! `Keep` is the list of entries, the tables that it makes and the disk; `specs/Keeps.antt` says what contracts see of it, `specs/Applied.antt` what a
//! command comes to, `specs/Started.antt` how a keep begins, `specs/Looking.antt` what is given of an entry, `specs/Damage.antt` which bytes are
//! damaged, and where, and `specs/Ending.antt` that the journal's end strands nobody.
#![tactic(auto)]

mod accepting;
mod checking;
mod fault;
mod folding;
mod keep;
mod laws;
mod limits;
mod list;
mod opening;

pub use fault::KeepFault;
pub use keep::Keep;
pub use laws::{damage_is_one, the_end_strands_nobody};
