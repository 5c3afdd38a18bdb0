//! The failures of a snapshot: for each reason that was reported the rows that stand FAILED for it, its reports, and the newest of these.
//! Each reason takes two walks over the reports and, where it was reported, one over the rows.
ghost use Rattle.std.specs.Prelude.{◌≡◌, ◌++◌, map, filter, count_by, IfOk, OnOk, None};
ghost use Rattle.std.specs.List.{last_or};
ghost use Rattle.std.specs.String.{string_bytes};
ghost use Rattle.serde_json.specs.Data.{array};
ghost use Rattle.serde_json.specs.View.{view, items_of};
ghost use Rattle.fts_counts.specs.Outcomes.{outcome_word};
ghost use Rattle.fts_board.specs.Snapshot.{reason_word, is_for, is_failed_for, id_text, id_of_file, failure_object, failure_for, failure_objects};

use crate::values::{array_from, push_value};
use fts_chronicle::CopyReport;
use fts_counts::outcome_word;
use fts_desk::Desk;
use fts_tables::{FileRow, Memory, Reason};
use serde_json::{Value, json};
use std::alloc::Global;
use uuid::Uuid;

/// The failures of these reports.
pub fn failures_value(alloc: Global, desk: &Desk, reports: &[CopyReport]) -> Result<Value, Memory>
    ensures { IfOk result (λ value. view value ≡ array (items_of (failure_objects desk.now.tables reports.now))) }
{
    let mut list = Vec::new(alloc);
    add_failure(alloc, &mut list, desk, reports, "source missing")?;
    add_failure(alloc, &mut list, desk, reports, "destination exists")?;
    add_failure(alloc, &mut list, desk, reports, "source size")?;
    add_failure(alloc, &mut list, desk, reports, "source digest")?;
    add_failure(alloc, &mut list, desk, reports, "read back differs")?;
    add_failure(alloc, &mut list, desk, reports, "store failed")?;
    add_failure(alloc, &mut list, desk, reports, "stopped")?;
    Ok(array_from(list))
}

// A reason, where it was reported.
fn add_failure(
    alloc: Global,
    list: &mut Vec<Value>,
    desk: &Desk,
    reports: &[CopyReport],
    reason: &str,
) -> Result<(), Memory>
    ensures { OnOk result (map view list.new.items ≡ map view list.old.items ++ failure_for desk.now.tables reports.now reason.now) }
{
    match newest_for(reports, reason) {
        None => Ok(()),
        Some(newest) => {
            let value = failure_value(alloc, desk, reports, reason, newest)?;
            push_value(list, value)
        }
    }
}

// A reason of which this is the newest report.
fn failure_value(
    alloc: Global,
    desk: &Desk,
    reports: &[CopyReport],
    reason: &str,
    newest: CopyReport,
) -> Result<Value, Memory>
    ensures { IfOk result (λ value. view value ≡ failure_object desk.now.tables reports.now reason.now newest) }
{
    let id = id_of_file(alloc, desk, newest.file)?;
    let value = json!(in alloc; {
        "file_id": newest.file,
        "files": failed_for(desk.rows(), reason),
        "job_id": &id,
        "last_time": newest.moment,
        "reason": reason,
        "reports": reports_for(reports, reason)
    })?;
    Ok(value)
}

// The id of the job of a file, where there is one.
fn id_of_file(alloc: Global, desk: &Desk, file: u32) -> Result<String, Memory>
    ensures { IfOk result (λ text. string_bytes text ≡ id_of_file desk.now.tables file) }
{
    match desk.row(file) {
        None => Ok(String::new(alloc)),
        Some(row) => match desk.job(row.job) {
            None => Ok(String::new(alloc)),
            Some(job) => id_text(alloc, job.id),
        },
    }
}

/// An id as a UUID in lower case. It fails for want of memory alone.
pub fn id_text(alloc: Global, id: u128) -> Result<String, Memory>
    ensures { IfOk result (λ text. string_bytes text ≡ id_text id) }
{
    let mut buffer = Uuid::encode_buffer();
    let id = Uuid::from_u128(id).hyphenated();
    let text = String::from_str(alloc, id.encode_lower(&mut buffer))?;
    Ok(text)
}

// How many rows stand FAILED for a reason.
fn failed_for(rows: &[FileRow], reason: &str) -> u64
    ensures { result ≡ count_by (is_failed_for reason.now) rows.now }
{
    rows.iter().filter(|row| is_failed_for(reason, row)).count() as u64
}

// How many reports give a reason.
fn reports_for(reports: &[CopyReport], reason: &str) -> u64
    ensures { result ≡ count_by (is_for reason.now) reports.now }
{
    reports
        .iter()
        .filter(|report| is_for(reason, report))
        .count() as u64
}

// The newest report that gives a reason.
fn newest_for(reports: &[CopyReport], reason: &str) -> Option<CopyReport>
    ensures { result ≡ last_or None (filter (is_for reason.now) reports.now) }
{
    let mut newest = None;
    for report in reports {
        if is_for(reason, report) {
            newest = Some(*report);
        }
    }
    newest
}

fn is_for(reason: &str, report: &CopyReport) -> bool
    ensures { result ≡ is_for reason.now report.now }
{
    outcome_word(report.outcome) == reason
}

fn is_failed_for(reason: &str, row: &FileRow) -> bool
    ensures { result ≡ is_failed_for reason.now row.now }
{
    row.state.is_failed() && reason_word(row.reason) == reason
}

// The word for why a row stands as it does, where a copy ended.
fn reason_word(reason: Reason) -> &'static str
    ensures { result.now ≡ reason_word reason }
{
    match reason {
        Reason::None | Reason::Cancelled | Reason::Expired => "",
        Reason::Ended(outcome) => outcome_word(outcome),
    }
}
