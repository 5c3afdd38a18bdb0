//! What the machine counts and looks up by walking its tables, kept beside them: the number of an id, the load of a link, and the first waiting file
//! that becomes overdue.
//! Contracts see a `JobIds` as the list of ids, a `Loads` as the list of links and a `Dues` as that of moments; each answer is the definition's over it.
//! Nothing here knows of states, limits or commands.
#![tactic(auto)]

mod chunk;
mod dues;
mod job_ids;
pub mod laws;
mod loads;
mod order;

pub use dues::{Due, Dues};
pub use job_ids::JobIds;
pub use loads::Loads;
