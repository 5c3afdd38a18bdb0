//! The tests of stores and of copies, with the deeds and the values that they share.

mod copy;
mod copy_changes;
mod copy_changing;
mod copy_tidied;
mod deeds;
mod files;
mod files_noting;
mod grid;
mod store;
mod store_edges;
mod store_removing;
