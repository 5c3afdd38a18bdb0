//! Rounds by worked rows: settings, a job document, the files that a store holds and the calls of it that fail, and after each round what the rows are.
//! `bed` has all that a row needs; the rows are in `tests`.

mod bed;
mod tests;
