//! A snapshot: what stands in a desk's tables at a moment, and what the reports of its copies say, as a JSON text (`specs/Snapshot.antt`).
//! What is made of the tables comes first (`Parts`), and then the object, key by key in byte order.
ghost use Rattle.std.specs.Prelude.{◌≡◌, ◌≤◌, length, IfOk};
ghost use Rattle.serde_json.specs.View.{view};
ghost use Rattle.fts_board.specs.Snapshot.{damage_data, snapshot_text};
ghost use Rattle.fts_board.specs.Boards.{IsBoardOf};
ghost use Rattle.fts_board.specs.Parts.{IsLinksPartOf, ArePartsOf, snapshot_with};

use crate::failures::failures_value;
use crate::goings::{goings_of, pairs_of};
use crate::links::{Board, links_shown};
use crate::settings::{default_limit_of, vo_of};
use crate::states::{files_value, jobs_value};
use crate::storages::storages_value;
use crate::tallies::{report_tallies, row_tallies};
use crate::values::{
    array_value, flag_value, object_from, put_number, put_text, put_value, text_of,
};
use fts_chronicle::CopyReport;
use fts_counts::{endpoints_of, links_of};
use fts_desk::Desk;
use fts_tables::Memory;
use fts_tables::limits::{JOURNAL_END, MAX_JOBS, MAX_ROWS};
use serde_json::{Map, Value, json};
use std::alloc::Global;

/// At most this many links of one snapshot.
pub const MAX_LINKS_SHOWN: usize = 1_000;

/// What a snapshot shows beside tables and reports. Moments are in seconds since 1970, and 0 is none.
#[derive(Clone, Copy, Debug, PartialEq, Eq)]
pub struct Shown {
    /// The present moment.
    pub now: u64,
    /// When this fold of the journal began.
    pub fold_time: u64,
    /// The moment of the last entry.
    pub last_entry_time: u64,
    /// The moment of the last Restart.
    pub restart_time: u64,
    /// How many bytes of the journal are used.
    pub used: u64,
    /// Where the journal is damaged, in bytes from its beginning, if it is.
    pub damage: Option<u64>,
}

/// The text of a snapshot of the tables and these reports. It fails for want of memory alone.
pub fn snapshot(
    alloc: Global,
    desk: &Desk,
    reports: &[CopyReport],
    shown: Shown,
) -> Result<Vec<u8>, Memory>
    ensures { IfOk result (λ text. text.items ≡ snapshot_text desk.now.tables desk.now.commands reports.now shown) }
{
    let parts = parts_of(alloc, desk, reports)?;
    let value = snapshot_value(alloc, desk, parts, shown)?;
    text_of(alloc, &value)
}

/// The links that are shown, and how many are left out.
#[derive(Drop)]
pub struct LinksPart {
    pub value: Value,
    pub left_out: u64,
}

/// What is made of tables and reports before the snapshot is put together.
#[derive(Drop)]
pub struct Parts {
    pub failures: Value,
    pub files: Value,
    pub jobs: Value,
    pub links: LinksPart,
    pub storages: Value,
}

// The parts of a snapshot.
fn parts_of(alloc: Global, desk: &Desk, reports: &[CopyReport]) -> Result<Parts, Memory>
    ensures { IfOk result (λ parts. ArePartsOf desk.now.tables reports.now parts) }
{
    let rows = desk.rows();
    let endpoints = endpoints_of(desk.settings());
    let failures = failures_value(alloc, desk, reports)?;
    let files = files_value(alloc, rows)?;
    let jobs = jobs_value(alloc, desk)?;
    let links = links_part(alloc, desk, reports)?;
    let storages = storages_value(alloc, rows, endpoints)?;
    Ok(Parts {
        failures,
        files,
        jobs,
        links,
        storages,
    })
}

// The links that are shown, and how many are left out.
fn links_part(alloc: Global, desk: &Desk, reports: &[CopyReport]) -> Result<LinksPart, Memory>
    ensures { IfOk result (λ part. IsLinksPartOf desk.now.tables reports.now part) }
{
    let board = board_of(alloc, desk, reports)?;
    let mut links = links_shown(alloc, &board)?;
    let left_out = links.len().saturating_sub(MAX_LINKS_SHOWN) as u64;
    links.truncate(MAX_LINKS_SHOWN);
    let value = array_value(alloc, links.as_slice())?;
    Ok(LinksPart { value, left_out })
}

// What is counted of each pair of endpoints, beside what the settings say of them.
fn board_of<'a>(alloc: Global, desk: &'a Desk, reports: &[CopyReport]) -> Result<Board<'a>, Memory>
    ensures board { IfOk result (λ board. IsBoardOf desk.now.tables reports.now board) }
    ensures few { IfOk result (λ board. length board.endpoints.now ≤ 256) }
{
    let settings = desk.settings();
    let endpoints = endpoints_of(settings);
    let links = links_of(settings);
    let default_max_active = default_limit_of(settings);
    let goings = goings_of(alloc, endpoints, desk.rows())?;
    let rows = row_tallies(alloc, &goings, pairs_of(endpoints))?;
    let reports = report_tallies(alloc, desk, endpoints, &goings, reports)?;
    Ok(Board {
        endpoints,
        links,
        default_max_active,
        rows,
        reports,
    })
}

// Where the journal is damaged.
fn damage_value(alloc: Global, damage: Option<u64>) -> Result<Value, Memory>
    ensures { IfOk result (λ value. view value ≡ damage_data damage) }
{
    match damage {
        None => Ok(Value::Null),
        Some(offset) => {
            let value = json!(in alloc; {"offset": offset})?;
            Ok(value)
        }
    }
}

// The snapshot that these parts make.
fn snapshot_value(alloc: Global, desk: &Desk, parts: Parts, shown: Shown) -> Result<Value, Memory>
    ensures { IfOk result (λ value. view value ≡ snapshot_with desk.now.tables desk.now.commands shown
        (view parts.failures) (view parts.files) (view parts.jobs) (view parts.links.value) parts.links.left_out (view parts.storages)) }
{
    let Parts {
        failures,
        files,
        jobs,
        links,
        storages,
    } = parts;
    let LinksPart { value, left_out } = links;
    let damage = damage_value(alloc, shown.damage)?;
    let whole = flag_value(true);
    let mut map = Map::new(alloc);
    put_value(alloc, &mut map, "damage", damage)?;
    put_number(alloc, &mut map, "entries", commands_of(desk))?;
    put_value(alloc, &mut map, "failures", failures)?;
    put_value(alloc, &mut map, "files_by_state", files)?;
    put_number(alloc, &mut map, "fold_time", shown.fold_time)?;
    put_number(alloc, &mut map, "jobs", jobs_of(desk))?;
    put_value(alloc, &mut map, "jobs_by_state", jobs)?;
    put_number(alloc, &mut map, "jobs_limit", MAX_JOBS as u64)?;
    put_number(alloc, &mut map, "journal_bytes", shown.used)?;
    put_number(alloc, &mut map, "journal_limit_bytes", JOURNAL_END)?;
    put_number(alloc, &mut map, "last_entry_time", shown.last_entry_time)?;
    put_value(alloc, &mut map, "links", value)?;
    put_number(alloc, &mut map, "links_left_out", left_out)?;
    put_number(alloc, &mut map, "now", shown.now)?;
    put_number(alloc, &mut map, "restart_time", shown.restart_time)?;
    put_number(alloc, &mut map, "rows", rows_of(desk))?;
    put_number(alloc, &mut map, "rows_limit", MAX_ROWS as u64)?;
    put_value(alloc, &mut map, "storages", storages)?;
    put_text(alloc, &mut map, "vo_name", vo_of(desk.settings()))?;
    put_value(alloc, &mut map, "whole", whole)?;
    Ok(object_from(map))
}

// How many commands were accepted.
fn commands_of(desk: &Desk) -> u64
    ensures { result ≡ desk.now.commands }
{
    desk.commands() as u64
}

// How many jobs there are.
fn jobs_of(desk: &Desk) -> u64
    ensures { result ≡ length desk.now.tables.jobs }
{
    desk.jobs().len() as u64
}

// How many rows there are.
fn rows_of(desk: &Desk) -> u64
    ensures { result ≡ length desk.now.tables.rows }
{
    desk.rows().len() as u64
}
