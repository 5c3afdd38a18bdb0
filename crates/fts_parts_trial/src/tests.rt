//! The tests, a module a part, and `made`, the values that they share.

mod choice;
mod heads;
mod index;
mod line;
mod made;
mod sets;
mod slots;
mod states;
mod tables;
