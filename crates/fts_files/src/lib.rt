//! What a store and a journal ask of the system: `FileSystem` is the few calls on files and folders, and each of its clauses lists the call
//! with its answer. What is made of these calls stands above, and is proved over every file system; the real one is thin and tells none.
//! A script says which calls a function makes, by the answer to each, and its end: `LeadsTo` for who goes on behind it.
//! `OpenPart` writes a part and moves it to its destination; `moved` says of it what a move that succeeded has done.
#![tactic(auto)]

mod errno;
mod files;
mod making;
mod moving;
mod opening;
mod parts;
mod reach;
mod reading;
mod system;
mod writing;

pub use errno::{Failed, Refused};
pub use files::{FileSystem, Kind, Seen, Way};
pub use making::{remove, remove_part, remove_stale};
pub use opening::open_when_free;
pub use parts::OpenPart;
pub use reach::fits_file;
pub use reading::{open_plain, open_source, read_some, read_whole, size};
pub use system::SystemFiles;
pub use writing::{match_whole, write_whole};
