//! The verified copy: a file ends as copied only once what was written was read back, byte by byte against the source.
//! `copy_verified` is the copy, over any `Store`, and `remove_part` removes the part behind one that ended otherwise; `CopyRoom` is all memory that
//! they use; `Watch` says before each piece whether it is still wanted. What a copy is, and what each of its ends leaves, is `specs/Copy.antt`.
#![tactic(auto)]

mod copy;
mod differences;
mod order;
mod pieces;
mod read_back;
mod reading;
mod room;
mod tidying;
mod watch;
mod writing;

pub use copy::copy_verified;
pub use order::Loaded;
pub use room::CopyRoom;
pub use tidying::remove_part;
pub use watch::{CountingWatch, Watch};
