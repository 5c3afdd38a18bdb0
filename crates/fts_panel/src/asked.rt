//! What a request asks a monitor for, by its path and its method.
ghost use Rattle.std.specs.Prelude.{◌≡◌};
ghost use Rattle.fts_wire.specs.Answered.{request_data};
ghost use Rattle.fts_panel.specs.Responses.{asked_at, asked_by};

use crate::queries::id_in;
use fts_wire::Request;

/// A JSON text about what stands in a journal.
#[derive(Clone, Copy, Debug, PartialEq, Eq)]
pub enum Topic {
    /// Counts, links, storages and failures. A query is passed over.
    Snapshot,
    /// What ended in each of the last steps of time.
    History,
    /// The jobs that match, one page of them.
    Jobs,
    /// A job and its files. A query is passed over.
    Job,
}

/// What is asked for.
#[derive(Clone, Copy, Debug, PartialEq, Eq)]
pub enum Asked {
    /// The page that shows the topics. A query is passed over.
    Page,
    /// The metrics. A query is passed over.
    Metrics,
    /// A topic.
    About(Topic),
    /// What is there, by a method that it hasn't.
    OtherMethod,
    /// Something that isn't there.
    Nothing,
}

/// What is had at a path.
fn asked_at(path: &str) -> Option<Asked>
    ensures { result ≡ asked_at path.now }
{
    if path == "/" {
        Some(Asked::Page)
    } else if path == "/metrics" {
        Some(Asked::Metrics)
    } else if path == "/snapshot" {
        Some(Asked::About(Topic::Snapshot))
    } else if path == "/history" {
        Some(Asked::About(Topic::History))
    } else if path == "/jobs" {
        Some(Asked::About(Topic::Jobs))
    } else {
        id_in(path)?;
        Some(Asked::About(Topic::Job))
    }
}

/// What a request asks for.
pub fn asked_by(request: &Request<'_>) -> Asked
    ensures { result ≡ asked_by (request_data request.now) }
{
    match asked_at(request.path) {
        None => Asked::Nothing,
        Some(asked) => {
            if request.method == "GET" {
                asked
            } else {
                Asked::OtherMethod
            }
        }
    }
}
