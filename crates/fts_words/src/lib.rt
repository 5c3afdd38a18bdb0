//! The words of a command line: which lists are accepted, and what each asks for (`specs/Words.antt`).
//! A list is a command's name and its options, in any order, each at most once. An option is `--name` and its value in the next word, or
//! `--name=value` in one.
//! Order: `read_words` decides, and takes no memory; `take_words` then has `clap` take the accepted list, and goes on with what both read.
#![tactic(auto)]

mod asked;
mod numbers;
mod options;
mod parser;
mod paths;
mod reader;

pub use asked::Asked;
pub use numbers::number_of;
pub use parser::take_words;
pub use paths::{log_of, socket_of};
pub use reader::read_words;
