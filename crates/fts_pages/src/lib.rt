//! Pages of jobs over a desk's tables, as a monitor's page asks for them: the jobs that match, in an order and behind a job, and one job with its files.
//! Each page is a definition of `specs/Pages.antt`. Nothing here knows of requests, sockets or journals.
#![tactic(auto)]

mod asked;
mod events;
mod groups;
mod objects;
mod pages;
mod places;
mod walk;

pub use asked::PageAsked;
pub use groups::is_group;
pub use pages::{MAX_LOOKED_AT, job_page, jobs_page};
