//! How many files a ban cancels, counted over the tables before it: each that waits at the storage, and with it the waiting ones of its job where
//! that is of replicas or of hops (`specs/Waits.antt` of fts_tables).
//! The rows of a job stand together, so each job is looked at once, and the walk takes time in proportion to the rows.
ghost use Rattle.std.specs.Prelude.{◌≡◌, ◌&&◌, ◌||◌};
ghost use Rattle.std.specs.List.{list_any};
ghost use Rattle.fts_tables.specs.Tables.{is_pending};
ghost use Rattle.fts_tables.specs.Waits.{waits_at, goes_as_a_whole, count_cancelled};
ghost use Rattle.fts_routes.specs.Changes.{goes_whole};

use fts_desk::Desk;
use fts_tables::{FileRow, JobKind};

/// How many files become CANCELED where those that wait at a storage are cancelled.
pub fn count_cancelled(desk: &Desk, storage: &str) -> u32
    ensures { result ≡ count_cancelled desk.now.tables.jobs (waits_at storage.now) desk.now.tables.rows }
{
    let mut count = 0;
    let mut job = 0;
    let mut whole = goes_whole(desk, job, storage);
    for row in desk.rows() {
        if row.job != job {
            job = row.job;
            whole = goes_whole(desk, job, storage);
        }
        if becomes_canceled(row, whole, storage) {
            count += 1;
        }
    }
    count
}

/// Whether a row becomes CANCELED, by whether all of its job goes.
fn becomes_canceled(row: &FileRow, whole: bool, storage: &str) -> bool
    ensures { result ≡ ((waits_at storage.now row.now || whole) && is_pending row.now.state) }
{
    (waits_at(row, storage) || whole) && is_pending(row)
}

/// Whether the files of the job of a number go all together, since one of them waits at a storage.
fn goes_whole(desk: &Desk, number: u32, storage: &str) -> bool
    ensures { result ≡ goes_whole desk.now.tables (waits_at storage.now) number }
{
    match desk.job(number) {
        Some(job) => goes_as_a_whole(job.kind) && any_waits_at(desk.job_rows(number), storage),
        None => false,
    }
}

/// Whether the files of a job of a kind are cancelled all together.
fn goes_as_a_whole(kind: JobKind) -> bool
    ensures { result ≡ goes_as_a_whole kind }
{
    match kind {
        JobKind::Plain => false,
        JobKind::Replica | JobKind::Multihop => true,
    }
}

/// Whether one of these rows waits at a storage.
fn any_waits_at(rows: &[FileRow], storage: &str) -> bool
    ensures { result ≡ list_any (waits_at storage.now) rows.now }
{
    rows.iter().any(|row| waits_at(row, storage))
}

/// Whether a row waits to be copied from a storage, or to it.
fn waits_at(row: &FileRow, storage: &str) -> bool
    ensures { result ≡ waits_at storage.now row.now }
{
    row.state.is_submitted()
        && (row.source.endpoint.as_str() == storage || row.dest.endpoint.as_str() == storage)
}

/// Whether a row waits, for a worker or for its turn.
fn is_pending(row: &FileRow) -> bool
    ensures { result ≡ is_pending row.now.state }
{
    row.state.is_submitted() || row.state.is_not_used()
}
