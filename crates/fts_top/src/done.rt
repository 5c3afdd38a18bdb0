//! How a command ended, before it is noted: its end, its tally, and the disk that it gives back.
ghost use Rattle.std.specs.Prelude.{◌≡◌, ◌≤◌, length, count_by};
ghost use Rattle.fts_tables.specs.Tables.{is_submitted, is_finished, is_failed, is_canceled};
ghost use Rattle.fts_top.specs.Tallies.{tally_with, no_tally};

use crate::Tally;
use crate::ends::RunEnd;
use fts_desk::Desk;
use fts_tables::FileRow;

/// How a command ended, its tally, and the disk that it gives back.
#[derive(Drop)]
pub struct Done<D> {
    pub end: RunEnd,
    pub tally: Tally,
    pub disk: D,
}

/// The end of a run that stopped before its first request.
pub fn stop<D>(end: RunEnd, disk: D) -> Done<D>
    ensures end { result.end ≡ end }
    ensures tally { result.tally ≡ no_tally }
    ensures disk { result.disk ≡ disk }
{
    Done {
        end,
        tally: Tally {
            claims: 0,
            finished: 0,
            failed: 0,
            cancelled: 0,
            waiting: 0,
        },
        disk,
    }
}

/// The tally of a desk, after so many claims.
pub fn make_tally(desk: &Desk, claims: u32) -> Tally
    ensures { result ≡ tally_with claims desk.now.tables }
{
    let rows = desk.rows();
    Tally {
        claims,
        finished: count_finished(rows) as u32,
        failed: count_failed(rows) as u32,
        cancelled: count_canceled(rows) as u32,
        waiting: count_submitted(rows) as u32,
    }
}

fn count_finished(rows: &[FileRow]) -> usize
    ensures count { result ≡ count_by (λ row. is_finished row.state) rows.now }
    ensures few { result ≤ length rows.now }
{
    rows.iter().filter(|row| row.state.is_finished()).count()
}

fn count_failed(rows: &[FileRow]) -> usize
    ensures count { result ≡ count_by (λ row. is_failed row.state) rows.now }
    ensures few { result ≤ length rows.now }
{
    rows.iter().filter(|row| row.state.is_failed()).count()
}

fn count_canceled(rows: &[FileRow]) -> usize
    ensures count { result ≡ count_by (λ row. is_canceled row.state) rows.now }
    ensures few { result ≤ length rows.now }
{
    rows.iter().filter(|row| row.state.is_canceled()).count()
}

fn count_submitted(rows: &[FileRow]) -> usize
    ensures count { result ≡ count_by (λ row. is_submitted row.state) rows.now }
    ensures few { result ≤ length rows.now }
{
    rows.iter().filter(|row| row.state.is_submitted()).count()
}
