//! What is counted of the rows and of the reports of each pair of endpoints, each in one walk.
//! Keeps: behind each row or report, the table says what those so far come to (`specs/Tallied.antt`).
ghost use Rattle.std.specs.Prelude.{◌≡◌, ◌<◌, ◌≤◌, ℕ, List, length, map, [], slice_index_or, cond, true, false, None, IfOk, IfSome};
ghost use Rattle.fts_tables.specs.declared.settings.Endpoint.{Endpoint};
ghost use Rattle.fts_counts.specs.Outcomes.{bytes_by};
ghost use Rattle.fts_board.specs.Tallied.{going_of, goes_by, pairs_of, row_tally_of, report_tally_of, row_tally_with, AreBelow, row_tallies_of, report_tally_with, report_tallies_of, is_report_by};

use crate::goings::{Going, pair_at, pairs_of};
use fts_chronicle::CopyReport;
use fts_counts::bytes_by;
use fts_desk::Desk;
use fts_tables::{Endpoint, FileState, Memory};
use std::alloc::Global;

/// The rows of a pair: how many, and how many in each of five states.
#[derive(Clone, Copy)]
pub struct RowTally {
    pub rows: u64,
    pub active: u64,
    pub canceled: u64,
    pub failed: u64,
    pub finished: u64,
    pub submitted: u64,
}

/// The reports of a pair: the bytes of the Verified ones, and the moment of the last one, or 0.
#[derive(Clone, Copy)]
pub struct ReportTally {
    pub bytes: u64,
    pub last: u64,
}

impl RowTally {
    /// No row.
    pub const NOTHING: RowTally = RowTally {
        rows: 0,
        active: 0,
        canceled: 0,
        failed: 0,
        finished: 0,
        submitted: 0,
    };

    /// One row more.
    fn with(self, state: FileState) -> RowTally
        requires { AreBelow u64.MAX self }
        ensures { result ≡ row_tally_with self state }
    {
        RowTally {
            rows: self.rows + 1,
            active: self.active + one_if(state.is_active()),
            canceled: self.canceled + one_if(state.is_canceled()),
            failed: self.failed + one_if(state.is_failed()),
            finished: self.finished + one_if(state.is_finished()),
            submitted: self.submitted + one_if(state.is_submitted()),
        }
    }
}

// One where something is so, and nothing where it isn't.
fn one_if(is: bool) -> u64
    ensures one { result ≡ cond is 1 0 }
    ensures most { result ≤ 1 }
{
    if is { 1 } else { 0 }
}

impl ReportTally {
    /// No report.
    pub const NOTHING: ReportTally = ReportTally { bytes: 0, last: 0 };

    /// One report more.
    fn with(self, report: &CopyReport) -> ReportTally
        ensures { result ≡ report_tally_with self report.now }
    {
        ReportTally {
            bytes: self.bytes.saturating_add(bytes_by(report.outcome)),
            last: report.moment,
        }
    }
}

/// What is counted of the rows of each pair, of so many.
pub fn row_tallies(alloc: Global, goings: &[Going], count: usize) -> Result<Vec<RowTally>, Memory>
    ensures { IfOk result (λ tallies. tallies.items ≡ row_tallies_of goings.now count) }
{
    let mut tallies = vec![in alloc; RowTally::NOTHING; count]?;
    for going in goings {
        if let Some(pair) = pair_within(going, count) {
            tallies[pair] = tallies[pair].with(going.state);
        }
    }
    Ok(tallies)
}

// The pair that something goes by, where it is among so many.
fn pair_within(going: &Going, count: usize) -> Option<usize>
    ensures within { IfSome result (λ pair. pair < count) }
    ensures there { IfSome result (λ pair. goes_by pair going.now ≡ true) }
    ensures nowhere { result ≡ None → (pair : ℕ) → pair < count → goes_by pair going.now ≡ false }
{
    if going.pair < count {
        Some(going.pair)
    } else {
        None
    }
}

/// What is counted of the reports of each pair of endpoints, where it is known where the rows go.
pub fn report_tallies(
    alloc: Global,
    desk: &Desk,
    endpoints: &[Endpoint],
    goings: &[Going],
    reports: &[CopyReport],
) -> Result<Vec<ReportTally>, Memory>
    requires few { length endpoints.now ≤ 256 }
    requires known { goings.now ≡ map (going_of endpoints.now) desk.now.tables.rows }
    ensures { IfOk result (λ tallies. tallies.items ≡ report_tallies_of endpoints.now desk.now.tables.rows reports.now (pairs_of endpoints.now)) }
{
    let count = pairs_of(endpoints);
    let mut tallies = vec![in alloc; ReportTally::NOTHING; count]?;
    for report in reports {
        if let Some(pair) = pair_of_report(desk, goings, report, count) {
            tallies[pair] = tallies[pair].with(report);
        }
    }
    Ok(tallies)
}

// The pair of a report's row, where there is one among so many.
fn pair_of_report(desk: &Desk, goings: &[Going], report: &CopyReport, count: usize) -> Option<usize>
    ensures within { IfSome result (λ pair. pair < count) }
    ensures there { (endpoints : List Endpoint) → goings.now ≡ map (going_of endpoints) desk.now.tables.rows
        → IfSome result (λ pair. is_report_by endpoints desk.now.tables.rows pair report.now ≡ true) }
    ensures nowhere { (endpoints : List Endpoint) → goings.now ≡ map (going_of endpoints) desk.now.tables.rows
        → result ≡ None → (pair : ℕ) → pair < count → is_report_by endpoints desk.now.tables.rows pair report.now ≡ false }
{
    match pair_at(desk, goings, report.file) {
        Some(pair) => { if pair < count { Some(pair) } else { None } }
        None => None,
    }
}

/// What is counted of the rows of a pair, and nothing behind the table's end.
pub fn row_tally_at(tallies: &[RowTally], pair: usize) -> RowTally
    ensures { result ≡ slice_index_or tallies.now pair (row_tally_of []) }
{
    match tallies.get(pair) {
        Some(tally) => *tally,
        None => RowTally::NOTHING,
    }
}

/// What is counted of the reports of a pair, and nothing behind the table's end.
pub fn report_tally_at(tallies: &[ReportTally], pair: usize) -> ReportTally
    ensures { result ≡ slice_index_or tallies.now pair (report_tally_of []) }
{
    match tallies.get(pair) {
        Some(tally) => *tally,
        None => ReportTally::NOTHING,
    }
}
