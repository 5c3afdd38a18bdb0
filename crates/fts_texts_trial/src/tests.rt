//! The tests, a module a kind of text, and `checks`, which they share.

mod answers;
mod checks;
mod config;
mod interrupts;
mod jobdoc;
mod jobdoc_cases;
mod joburl;
mod load;
mod wire;
mod wire_readers;
mod wire_responses;
mod words;
mod words_cases;
