//! What stands in a journal, for who only looks: the tables that its entries make, folded behind the last look.
//! `Monitor` is a desk and how far the journal was passed; `specs/Monitor.antt` says what contracts see of it, and what a look makes of it.
//! It takes no lock, writes nothing and syncs nothing.
#![tactic(auto)]

mod fault;
mod monitor;

pub use fault::MonitorFault;
pub use monitor::Monitor;
