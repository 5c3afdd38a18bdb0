//! The numbers of the tables in Prometheus' text form, version 0.0.4: for each metric what it is, and then its samples.
//! `specs/Form.antt` says how a sample is written, `specs/Metrics.antt` which there are, and what each counts.
#![tactic(auto)]

mod copies;
mod files;
mod goings;
mod jobs;
mod lines;
mod slots;
mod sums;
mod text;
mod totals;

pub use text::metrics;
