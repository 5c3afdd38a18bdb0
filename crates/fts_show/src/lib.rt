//! The text of tables, as `show` writes it: a line for each job, and behind it one for each of its files.
//! Keeps: what is written is the text of the definitions, whole or, where a write failed, a part of it (`send_tables`; `specs/Shown.antt`).
#![tactic(auto)]

mod gathered;
mod shown;

pub use shown::send_tables;
