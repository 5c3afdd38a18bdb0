//! `fts_copied_bytes_total` and `fts_reports_total`: what was copied over each link between listed endpoints, and how its copies ended.
//! A link without rows has no samples. The numbers of a link stand at its place (`totals.rt`).
ghost use Rattle.std.specs.Prelude.{◌≡◌, ℕ, ◌*◌, ◌≤◌, ◌++◌, not, ◌==◌, List, true, length, codes, slice_index, OnOk};
ghost use Rattle.fts_tables.specs.SettingsData.{is_listed};
ghost use Rattle.fts_tables.specs.Tables.{Tables};
ghost use Rattle.fts_tables.specs.declared.limits.TheConstants.{MAX_ENDPOINTS};
ghost use Rattle.fts_chronicle.specs.declared.chronicle.CopyReport.{CopyReport};
ghost use Rattle.fts_metrics.specs.Form.{label, sample, two_labels};
ghost use Rattle.fts_metrics.specs.Metrics.{link_labels, link_where, links_from, outcome_samples};
ghost use Rattle.fts_metrics.specs.Totals.{copies_head, copies_text, samples_of, StandByOutcome, StandsAt, AreTotals};

use crate::goings::place_of;
use crate::lines::{labels_of, labels_with, put_head, put_total};
use crate::sums::number_at;
use crate::totals::{LinkMetric, Totals, link_at};
use fts_tables::{Endpoint, Memory};
use std::alloc::Global;

/// What there is of a metric of the links.
pub fn put_copies(
    alloc: Global,
    text: &mut Vec<u8>,
    metric: LinkMetric,
    totals: &Totals,
    endpoints: &[Endpoint],
) -> Result<(), Memory>
    requires few { length endpoints.now ≤ MAX_ENDPOINTS }
    ensures { (tables : Tables) (reports : List CopyReport) → AreTotals endpoints.now tables reports totals.now
        → OnOk result (text.new.items ≡ text.old.items ++ copies_text metric tables reports endpoints.now) }
{
    put_copies_head(text, metric)?;
    for endpoint in endpoints {
        let source = endpoint.name.as_str();
        put_links_from(alloc, text, metric, totals, endpoints, source)?;
    }
    Ok(())
}

// What a metric of the links is.
fn put_copies_head(text: &mut Vec<u8>, metric: LinkMetric) -> Result<(), Memory>
    ensures { OnOk result (text.new.items ≡ text.old.items ++ copies_head metric) }
{
    let (name, help) = match metric {
        LinkMetric::Copied => (
            "fts_copied_bytes_total",
            "Bytes of verified copies over each link.",
        ),
        LinkMetric::Reports => (
            "fts_reports_total",
            "Reports of copies over each link by outcome.",
        ),
    };
    put_head(text, name, help, "counter")
}

// The samples of the links from an endpoint.
fn put_links_from(
    alloc: Global,
    text: &mut Vec<u8>,
    metric: LinkMetric,
    totals: &Totals,
    endpoints: &[Endpoint],
    source: &str,
) -> Result<(), Memory>
    requires few { length endpoints.now ≤ MAX_ENDPOINTS }
    ensures { (tables : Tables) (reports : List CopyReport) → is_listed endpoints.now source.now ≡ true
        → AreTotals endpoints.now tables reports totals.now
        → OnOk result (text.new.items ≡ text.old.items ++ links_from (samples_of metric tables reports) tables.rows endpoints.now source.now) }
{
    let from = place_of(endpoints, source);
    for endpoint in endpoints {
        let dest = endpoint.name.as_str();
        let place = link_at(from, place_of(endpoints, dest));
        put_link(alloc, text, metric, totals, place, source, dest)?;
    }
    Ok(())
}

// The samples of a link, where it has a row.
fn put_link(
    alloc: Global,
    text: &mut Vec<u8>,
    metric: LinkMetric,
    totals: &Totals,
    place: u32,
    source: &str,
    dest: &str,
) -> Result<(), Memory>
    ensures { (tables : Tables) (reports : List CopyReport) → StandsAt tables reports source.now dest.now place totals.now
        → OnOk result (text.new.items ≡ text.old.items ++ link_where (samples_of metric tables reports) tables.rows source.now dest.now) }
{
    if has_rows(totals, place) {
        let labels = labels_of(alloc, "source", source, "destination", dest)?;
        put_samples(alloc, text, metric, totals, place, &labels)
    } else {
        Ok(())
    }
}

// Whether a link has a row.
fn has_rows(totals: &Totals, place: u32) -> bool
    ensures { result ≡ not (slice_index totals.now.rows.items place == 0) }
{
    number_at(&totals.rows, place as usize) != 0
}

// The samples of a link with these labels.
fn put_samples(
    alloc: Global,
    text: &mut Vec<u8>,
    metric: LinkMetric,
    totals: &Totals,
    place: u32,
    labels: &[u8],
) -> Result<(), Memory>
    ensures { (tables : Tables) (reports : List CopyReport) (source dest : List ℕ) → labels.now ≡ link_labels source dest
        → StandsAt tables reports source dest place totals.now
        → OnOk result (text.new.items ≡ text.old.items ++ samples_of metric tables reports source dest) }
{
    match metric {
        LinkMetric::Copied => {
            let bytes = number_at(&totals.copied, place as usize);
            put_total(text, "fts_copied_bytes_total", labels, bytes)
        }
        LinkMetric::Reports => put_outcomes(alloc, text, labels, &totals.reports, place),
    }
}

// The samples of a link's reports, an outcome each.
fn put_outcomes(
    alloc: Global,
    text: &mut Vec<u8>,
    labels: &[u8],
    numbers: &[u128],
    place: u32,
) -> Result<(), Memory>
    ensures { (reports : List CopyReport) → StandByOutcome reports (place * 8) numbers.now
        → OnOk result (text.new.items ≡ text.old.items ++ outcome_samples labels.now reports) }
{
    let first = place as usize * 8;
    put_outcome(alloc, text, labels, "verified", numbers, first)?;
    put_outcome(alloc, text, labels, "source_missing", numbers, first + 1)?;
    put_outcome(
        alloc,
        text,
        labels,
        "destination_exists",
        numbers,
        first + 2,
    )?;
    put_outcome(alloc, text, labels, "source_size", numbers, first + 3)?;
    put_outcome(alloc, text, labels, "source_digest", numbers, first + 4)?;
    put_outcome(alloc, text, labels, "read_back_differs", numbers, first + 5)?;
    put_outcome(alloc, text, labels, "store_failed", numbers, first + 6)?;
    put_outcome(alloc, text, labels, "stopped", numbers, first + 7)?;
    Ok(())
}

// A sample of a link's reports with an outcome, whose number stands at this place.
fn put_outcome(
    alloc: Global,
    text: &mut Vec<u8>,
    labels: &[u8],
    word: &str,
    numbers: &[u128],
    place: usize,
) -> Result<(), Memory>
    ensures { OnOk result (text.new.items ≡ text.old.items
        ++ sample (codes "fts_reports_total") (two_labels labels.now (label (codes "outcome") word.now)) (slice_index numbers.now place)) }
{
    let labels = labels_with(alloc, labels, "outcome", word)?;
    put_total(
        text,
        "fts_reports_total",
        &labels,
        number_at(numbers, place),
    )
}
