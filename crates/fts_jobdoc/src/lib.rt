//! Job documents: a request's body, read as a new job or refused by the least broken of 25 rules; the priority or the ban that another body
//! asks for; and the id that a client's own id stands for. JSON (RFC 8259) is what `serde_json` reads, a URL what `fts_joburl` reads.
//! Each answer is one function of the body and the settings: `job_of`, `priority_of` (`specs/Documents.antt`), `ban_of` (`specs/Bans.antt`),
//! `sid_of` (`specs/Sids.antt`), `sid_id` (`specs/Ids.antt`).
//! Nothing here knows of HTTP, or of the rows that a job becomes.
#![tactic(auto)]

mod ban;
mod checksum;
mod document;
mod ends;
mod fault;
mod files;
mod ids;
mod job;
mod json;
mod params;
mod rules;
mod sid;

pub use ban::{BanAsk, BanFault, read_ban, read_storage};
pub use document::{Document, read_document};
pub use ends::{is_some_elsewhere, read_places};
pub use fault::{DocFault, Unoffered};
pub use ids::sid_id;
pub use job::{job_under, read_job, read_priority};
pub use json::{are_texts, read_value};
pub use sid::read_sid;
