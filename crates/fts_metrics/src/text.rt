//! All metrics, in one text.
ghost use Rattle.std.specs.Prelude.{◌≡◌, ◌++◌, OnOk, IfOk};
ghost use Rattle.fts_metrics.specs.Metrics.{last_entry_text, sizes_text, metrics_text};

use crate::copies::put_copies;
use crate::files::put_files;
use crate::goings::goings_of;
use crate::jobs::put_jobs;
use crate::lines::{put_head, put_plain};
use crate::slots::{put_endpoint_active, put_endpoint_limit, put_link_active, put_link_limit};
use crate::totals::{LinkMetric, totals_of};
use fts_chronicle::Chronicle;
use fts_counts::{active_rows, endpoints_of, links_of};
use fts_desk::Desk;
use fts_tables::limits::JOURNAL_END;
use fts_tables::{FileRow, Memory};
use std::alloc::Global;

/// The text of the metrics of a desk's tables, of what the entries that made them told beside, and of how many bytes of their journal are used.
/// It fails for want of memory alone.
pub fn metrics(
    alloc: Global,
    desk: &Desk,
    chronicle: &Chronicle,
    used: u64,
) -> Result<Vec<u8>, Memory>
    ensures { IfOk result (λ text. text.items ≡ metrics_text desk.now.tables chronicle.now.told used) }
{
    let mut text = Vec::new(alloc);
    let rows = desk.rows();
    let endpoints = endpoints_of(desk.settings());
    let links = links_of(desk.settings());
    let goings = goings_of(alloc, endpoints, rows)?;
    let totals = totals_of(alloc, desk, endpoints, &goings, chronicle.reports())?;
    put_jobs(alloc, &mut text, desk)?;
    put_files(alloc, &mut text, &goings, endpoints)?;
    put_copies(alloc, &mut text, LinkMetric::Copied, &totals, endpoints)?;
    put_copies(alloc, &mut text, LinkMetric::Reports, &totals, endpoints)?;
    let active = active_rows(alloc, rows)?;
    put_link_active(alloc, &mut text, &active, links)?;
    put_link_limit(alloc, &mut text, links)?;
    put_endpoint_active(alloc, &mut text, &active, endpoints)?;
    put_endpoint_limit(alloc, &mut text, endpoints)?;
    put_sizes(&mut text, rows, used)?;
    put_last_entry(&mut text, chronicle.moment())?;
    Ok(text)
}

// What there is of the last entry.
fn put_last_entry(text: &mut Vec<u8>, moment: u64) -> Result<(), Memory>
    ensures { OnOk result (text.new.items ≡ text.old.items ++ last_entry_text moment) }
{
    put_head(
        text,
        "fts_last_entry_timestamp_seconds",
        "Moment of the last entry in seconds since 1970.",
        "gauge",
    )?;
    put_plain(text, "fts_last_entry_timestamp_seconds", moment)?;
    Ok(())
}

// What there is of rows, and of the journal.
fn put_sizes(text: &mut Vec<u8>, rows: &[FileRow], used: u64) -> Result<(), Memory>
    ensures { OnOk result (text.new.items ≡ text.old.items ++ sizes_text rows.now used) }
{
    put_head(text, "fts_rows", "File rows.", "gauge")?;
    put_plain(text, "fts_rows", rows.len() as u64)?;
    put_head(text, "fts_journal_bytes", "Bytes of the journal.", "gauge")?;
    put_plain(text, "fts_journal_bytes", used)?;
    put_head(
        text,
        "fts_journal_limit_bytes",
        "How many bytes the journal may have.",
        "gauge",
    )?;
    put_plain(text, "fts_journal_limit_bytes", JOURNAL_END)?;
    Ok(())
}
