//! Which row of a job comes next, and how a row's turn comes.
//! The load of a row is how many files wait or are copied on its link, over all rows that are counted.
use super::plain::PlainRow;
use fts_tables::{FileState, Strategy};

/// A candidate, in the order of choice: the least load, then the order in the job.
#[derive(Clone, Copy, PartialEq, Eq, PartialOrd, Ord)]
struct Loaded {
    load: usize,
    id: u32,
}

/// How many files wait or are copied on a row's link.
fn load_of(counted: &[PlainRow], row: &PlainRow) -> usize {
    counted
        .iter()
        .filter(|other| {
            other.is_live() && other.is_on_link(row.source.endpoint, row.dest.endpoint)
        })
        .count()
}

/// The id of the row of a job whose turn comes next, among those whose turn hasn't come.
pub fn next_alternative(
    counted: &[PlainRow],
    candidates: &[PlainRow],
    job: u32,
    strategy: Strategy,
) -> Option<u32> {
    match strategy {
        Strategy::Orderly => first_alternative(candidates, job),
        Strategy::Auto => lightest_alternative(counted, candidates, job),
    }
}

/// The first such row.
fn first_alternative(candidates: &[PlainRow], job: u32) -> Option<u32> {
    candidates
        .iter()
        .filter(|row| row.job == job && row.state == FileState::NotUsed)
        .map(|row| row.id)
        .min()
}

/// Such a row of the least load.
fn lightest_alternative(counted: &[PlainRow], candidates: &[PlainRow], job: u32) -> Option<u32> {
    let lightest = candidates
        .iter()
        .filter(|row| row.job == job && row.state == FileState::NotUsed)
        .map(|row| Loaded {
            load: load_of(counted, row),
            id: row.id,
        })
        .min()?;
    Some(lightest.id)
}

/// Lets a row of a job wait from now on, where its turn hadn't come.
pub fn wake(rows: &mut [PlainRow], job: u32, id: u32) {
    for row in rows.iter_mut() {
        if row.job == job && row.id == id && row.state == FileState::NotUsed {
            row.state = FileState::Submitted;
        }
    }
}
