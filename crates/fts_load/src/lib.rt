//! The input of a load, by a number: files of bytes that a generator draws, and the requests that submit their copies.
//! Anyone can make it again from the number, so that whole runs can be measured and compared.
//! Keeps: the files and the requests are those of `specs/Sources.antt` and `specs/Requests.antt`, byte by byte; making files is by two calls of the
//! store each, in their order (`specs/Made.antt`).
#![tactic(auto)]

mod input;
mod requests;
mod sources;

pub use input::{DroppingSink, LoadInput};
pub use requests::make_requests;
pub use sources::make_sources;
