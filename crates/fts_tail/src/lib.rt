//! The bodies of a journal, one after the other, while another process may append to it: what stands behind the last look and no more.
//! It opens nothing, writes nothing and syncs nothing. What the bytes of a journal stand for is `fts_journal`'s to say; `specs/Tail.antt` says how far a tail
//! has come.
#![tactic(auto)]

mod fault;
mod reading;
mod tail;

pub use fault::TailFault;
pub use tail::Tail;
