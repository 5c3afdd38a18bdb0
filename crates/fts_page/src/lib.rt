//! The page that an operator opens in a browser: one file, which needs no library and asks nobody but the monitor that it comes from.
#![tactic(auto)]

mod page;

pub use page::{PAGE, POLICY};
