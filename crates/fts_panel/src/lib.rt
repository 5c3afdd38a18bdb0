//! What an operator's browser and Prometheus are answered: a page, and what stands in a journal, which is looked at before each answer.
//! Keeps: each response is the definition's over the tables that the look behind its request left (`serve_line`, clause `served`;
//! `specs/Lines.antt`); tables are those of a legal list, which only goes on, until the journal is opened anew (`specs/Views.antt`).
//! Order of a line: one request is read, the journal is looked at where a topic is asked for, the response is written and says close.
//! Where a request ends is fts_wire's to say, what a look makes of tables fts_watch's, what the metrics are fts_metrics', and what the page is fts_page's.
#![tactic(auto)]

mod answers;
mod asked;
mod line;
mod queries;
mod refusals;
mod topics;
mod view;

pub use line::serve_line;
pub use view::{View, open_view};
