//! What there is of each link: how many rows, the bytes of its verified copies, and its reports by outcome.
//! Keeps: each number stands at the place of its link (`AreTotals`), which is made of the places of the link's ends among the listed endpoints. What isn't
//! listed has a place too, behind the last, where nobody looks.
//! Rows and reports are gone over once for each metric; the place of a report is that of its file's row.
ghost use Rattle.std.specs.Prelude.{◌≡◌, ℕ, ◌≤◌, ◌<◌, ◌++◌, length, map, option_map, option_to_list, slice_get, vec_capacity, IfOk};
ghost use Rattle.std.specs.List.{filter_map};
ghost use Rattle.fts_tables.specs.Tables.{row_at};
ghost use Rattle.fts_tables.specs.declared.limits.TheConstants.{MAX_ENDPOINTS};
ghost use Rattle.fts_tables.specs.declared.rows.FileRow.{FileRow};
ghost use Rattle.fts_metrics.specs.Goings.{going_of};
ghost use Rattle.fts_metrics.specs.Totals.{link_at, outcome_place, share_of, report_share, row_share, AreTotals};
ghost use Rattle.fts_metrics.specs.declared.goings.Going.{Going};

use crate::goings::Going;
use crate::sums::{Share, sums_of};
use fts_chronicle::CopyReport;
use fts_counts::bytes_by;
use fts_desk::Desk;
use fts_tables::limits::MAX_ENDPOINTS;
use fts_tables::{Endpoint, Memory, Outcome};
use std::alloc::Global;

/// How many places an end of a link has: those of the listed endpoints, and one for all others.
const END_PLACES: usize = MAX_ENDPOINTS + 1;

/// How many outcomes there are.
const OUTCOMES: usize = 8;

/// What is told of each link.
#[derive(Clone, Copy)]
pub enum LinkMetric {
    /// The bytes of its verified copies.
    Copied,
    /// Its reports by outcome.
    Reports,
}

/// What there is of each link, at its place: rows, bytes of verified copies, and reports at eight places, one for each outcome.
#[derive(Drop)]
pub struct Totals {
    pub rows: Vec<u128>,
    pub copied: Vec<u128>,
    pub reports: Vec<u128>,
}

/// What there is of each link, by its rows and the reports.
pub fn totals_of(
    alloc: Global,
    desk: &Desk,
    endpoints: &[Endpoint],
    goings: &[Going],
    reports: &[CopyReport],
) -> Result<Totals, Memory>
    requires few { length endpoints.now ≤ MAX_ENDPOINTS }
    requires goings { goings.now ≡ map (going_of endpoints.now) desk.now.tables.rows }
    ensures { IfOk result (AreTotals endpoints.now desk.now.tables reports.now) }
{
    let links = (endpoints.len() + 1) * END_PLACES;
    let places = link_places(alloc, goings)?;
    let rows = row_shares(alloc, &places)?;
    let copied = report_shares(alloc, LinkMetric::Copied, desk, &places, reports)?;
    let ended = report_shares(alloc, LinkMetric::Reports, desk, &places, reports)?;
    Ok(Totals {
        rows: sums_of(alloc, links, &rows)?,
        copied: sums_of(alloc, links, &copied)?,
        reports: sums_of(alloc, links * OUTCOMES, &ended)?,
    })
}

/// The place of a link by those of its ends.
pub fn link_at(source: u16, dest: u16) -> u32
    ensures { result ≡ link_at source dest }
{
    u32::from(source) * END_PLACES as u32 + u32::from(dest)
}

// The places of the rows' links, in the order of the rows.
fn link_places(alloc: Global, goings: &[Going]) -> Result<Vec<u32>, Memory>
    ensures { IfOk result (λ places. places.items ≡ map (λ (going : Going). link_at going.source going.dest) goings.now) }
{
    let places = goings
        .iter()
        .map(|going| link_at(going.source, going.dest))
        .collect(alloc)?;
    Ok(places)
}

// A row at each of these places.
fn row_shares(alloc: Global, places: &[u32]) -> Result<Vec<Share>, Memory>
    ensures { IfOk result (λ shares. shares.items ≡ map row_share places.now) }
{
    let shares = places.iter().map(|place| row_share(*place)).collect(alloc)?;
    Ok(shares)
}

fn row_share(place: u32) -> Share
    ensures { result ≡ row_share place }
{
    Share {
        place: place as usize,
        amount: 1,
    }
}

// What the reports add to a metric, in their order. Those of files without rows add nothing.
fn report_shares(
    alloc: Global,
    metric: LinkMetric,
    desk: &Desk,
    places: &[u32],
    reports: &[CopyReport],
) -> Result<Vec<Share>, Memory>
    ensures { IfOk result (λ shares. (place_of : FileRow → ℕ) → places.now ≡ map place_of desk.now.tables.rows
        → shares.items ≡ filter_map (report_share metric place_of desk.now.tables.rows) reports.now) }
{
    let mut shares = Vec::with_capacity(alloc, reports.len())?;
    for report in reports {
        let place = report_place(desk, places, report.file);
        push_share(&mut shares, metric, place, report.outcome);
    }
    Ok(shares)
}

// Adds what a report adds to a metric, where its file has a row.
fn push_share(shares: &mut Vec<Share>, metric: LinkMetric, place: Option<u32>, outcome: Outcome)
    requires room { length shares.old.items < vec_capacity shares.old }
    ensures added { shares.new.items ≡ shares.old.items ++ option_to_list (option_map (λ place. share_of metric place outcome) place) }
    ensures capacity { vec_capacity shares.new ≡ vec_capacity shares.old }
{
    if let Some(place) = place {
        shares.push_reserved(share_of(metric, place, outcome));
    }
}

// The place of the link of a file's row, by those of all rows: it stands before the file's number, since rows are numbered from 1. None where the file
// has no row.
fn report_place(desk: &Desk, places: &[u32], file: u32) -> Option<u32>
    ensures { (place_of : FileRow → ℕ) → places.now ≡ map place_of desk.now.tables.rows
        → result ≡ option_map place_of (row_at desk.now.tables.rows file) }
{
    desk.standing();
    if file == 0 {
        return None;
    }
    place_at(places, file as usize - 1)
}

// The place that stands at an index; none where there is none.
fn place_at(places: &[u32], index: usize) -> Option<u32>
    ensures { result ≡ slice_get places.now index }
{
    places.get(index).copied()
}

// What a report with a row at this place adds to a metric.
fn share_of(metric: LinkMetric, place: u32, outcome: Outcome) -> Share
    ensures { result ≡ share_of metric place outcome }
{
    let place = place as usize;
    match metric {
        LinkMetric::Copied => Share {
            place,
            amount: bytes_by(outcome),
        },
        LinkMetric::Reports => Share {
            place: place * OUTCOMES + outcome_place(outcome) as usize,
            amount: 1,
        },
    }
}

// The place of an outcome in their order.
fn outcome_place(outcome: Outcome) -> u8
    ensures { result ≡ outcome_place outcome }
{
    match outcome {
        Outcome::Verified { size: _, digest: _ } => 0,
        Outcome::SourceMissing => 1,
        Outcome::DestinationExists => 2,
        Outcome::SourceSize { seen: _ } => 3,
        Outcome::SourceDigest { seen: _ } => 4,
        Outcome::ReadBackDiffers { at: _ } => 5,
        Outcome::StoreFailed => 6,
        Outcome::Stopped => 7,
    }
}
