//! The bytes of HTTP: requests that come in from a source, responses that go out to a sink, and responses that a client reads (HTTP/1.1, RFC 9112).
//! Keeps: where a request ends does not depend on how its bytes were cut into reads (`Room::load`, clauses `next` and `taken`);
//! a response is all of its bytes or, after a failed write, a part of them (`write_response`, clause `sent`);
//! a client reads a response as it was written, and nothing else for one (`AnswerRoom::load`, clause `answer`).
//! It never looks into a body. Formats: docs/FORMATS.md, "HTTP".
#![tactic(auto)]

mod answer_buffer;
mod answer_look;
mod answers;
mod buffer;
mod fault;
mod fields;
pub mod laws;
mod lines;
mod look;
mod memory;
mod outside;
mod request;
mod response;
mod standard;
pub mod statuses;
mod whole_input;

pub use answers::{AnswerFault, AnswerRoom, Answered, next_response};
pub use fault::WireFault;
pub use memory::{MemoryLine, MemorySink, MemorySource};
pub use outside::{Sink, SinkFailed, Source, SourceFailed};
pub use request::{Request, Room, next_request};
pub use response::{Allow, Reply, send_all, send_parts, write_response};
pub use standard::{StdSink, StdSource};
pub use whole_input::{ReadAllFault, read_all};
