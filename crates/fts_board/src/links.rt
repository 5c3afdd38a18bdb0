//! The links of a snapshot: each listed one, and each other pair of listed storages that has a row.
//! What is counted of them stands in two tables, by the numbers of their pairs (`Board`): no walk over rows or reports is made for a link.
ghost use Rattle.std.specs.Prelude.{◌≡◌, ◌++◌, ◌∷◌, [], ◌≤◌, ◌==◌, ◌&&◌, not, List, map, length, true, refl, IfOk, OnOk};
ghost use Rattle.std.specs.List.{flat_map};
ghost use Rattle.serde_json.specs.View.{view};
ghost use Rattle.fts_tables.specs.SettingsData.{is_listed};
ghost use Rattle.fts_tables.specs.Tables.{Tables};
ghost use Rattle.fts_tables.specs.declared.settings.Endpoint.{Endpoint};
ghost use Rattle.fts_chronicle.specs.declared.chronicle.CopyReport.{CopyReport};
ghost use Rattle.fts_counts.specs.Listed.{endpoints_of};
ghost use Rattle.fts_board.specs.Snapshot.{link_object, listed_object, rows_on, is_link_listed, others_at, others_from, link_objects};
ghost use Rattle.fts_counts.specs.Listed.{AreKnown};
ghost use Rattle.fts_board.specs.Boards.{IsBoardOf, shown_link};

use crate::goings::pair_of;
use crate::tallies::{ReportTally, RowTally, report_tally_at, row_tally_at};
use crate::values::{AsJson, object_from, put_number, put_text};
use fts_tables::{Endpoint, LinkRule, Memory};
use serde_json::{Map, Value};
use std::alloc::Global;

/// The endpoints and links that the settings list, the limit of other links, and what is counted of each pair of endpoints.
#[derive(Drop)]
pub struct Board<'a> {
    pub endpoints: &'a [Endpoint],
    pub links: &'a [LinkRule],
    pub default_max_active: u32,
    pub rows: Vec<RowTally>,
    pub reports: Vec<ReportTally>,
}

/// A link with what is counted of it.
#[derive(Clone, Copy)]
pub struct LinkShown<'a> {
    pub source: &'a str,
    pub dest: &'a str,
    pub symbolic: &'a str,
    pub max_active: u32,
    pub rows: RowTally,
    pub reports: ReportTally,
}

impl AsJson for LinkShown<'_> {
    ghost shown = { shown_link };

    ghost no_float = { λ _. refl };

    fn value(&self, alloc: Global) -> Result<Value, Memory> {
        let mut map = Map::new(alloc);
        put_number(alloc, &mut map, "active", self.rows.active)?;
        put_number(alloc, &mut map, "canceled", self.rows.canceled)?;
        put_number(alloc, &mut map, "copied_bytes", self.reports.bytes)?;
        put_text(alloc, &mut map, "destination", self.dest)?;
        put_number(alloc, &mut map, "failed", self.rows.failed)?;
        put_number(alloc, &mut map, "finished", self.rows.finished)?;
        put_number(alloc, &mut map, "last_report_time", self.reports.last)?;
        put_number(alloc, &mut map, "max_active", self.max_active as u64)?;
        put_text(alloc, &mut map, "source", self.source)?;
        put_number(alloc, &mut map, "submitted", self.rows.submitted)?;
        put_text(alloc, &mut map, "symbolicname", self.symbolic)?;
        Ok(object_from(map))
    }
}

/// The links of a board, in the order in which they are shown.
pub fn links_shown<'a>(alloc: Global, board: &Board<'a>) -> Result<Vec<LinkShown<'a>>, Memory>
    requires { length board.now.endpoints.now ≤ 256 }
    ensures { (tables : Tables) (reports : List CopyReport) → IsBoardOf tables reports board.now
        → IfOk result (λ links. map shown_link links.items ≡ link_objects tables reports) }
{
    let mut links = listed_links(alloc, board, board.links)?;
    add_others(&mut links, board, board.endpoints)?;
    Ok(links)
}

// The links of these rules, whose ends are listed.
fn listed_links<'a>(
    alloc: Global,
    board: &Board<'a>,
    rules: &'a [LinkRule],
) -> Result<Vec<LinkShown<'a>>, Memory>
    requires { length board.now.endpoints.now ≤ 256 }
    ensures { (tables : Tables) (reports : List CopyReport) → IsBoardOf tables reports board.now → AreKnown (endpoints_of tables.settings) rules.now
        → IfOk result (λ links. map shown_link links.items ≡ map (listed_object tables.rows reports) rules.now) }
{
    let mut links = Vec::new(alloc);
    for rule in rules {
        let shown = listed_link(board, rule);
        add(&mut links, shown)?;
    }
    Ok(links)
}

// A listed link.
fn listed_link<'a>(board: &Board<'a>, rule: &'a LinkRule) -> LinkShown<'a>
    requires { length board.now.endpoints.now ≤ 256 }
    ensures { (tables : Tables) (reports : List CopyReport) → IsBoardOf tables reports board.now
        → is_listed (endpoints_of tables.settings) rule.now.source ≡ true → is_listed (endpoints_of tables.settings) rule.now.dest ≡ true
        → shown_link result ≡ listed_object tables.rows reports rule.now }
{
    let source = rule.source.as_str();
    let dest = rule.dest.as_str();
    let symbolic = rule.symbolic.as_str();
    link_shown(board, source, dest, symbolic, rule.max_active)
}

// A link with what is counted of it.
fn link_shown<'a>(
    board: &Board<'a>,
    source: &'a str,
    dest: &'a str,
    symbolic: &'a str,
    max_active: u32,
) -> LinkShown<'a>
    requires { length board.now.endpoints.now ≤ 256 }
    ensures shown { (tables : Tables) (reports : List CopyReport) → IsBoardOf tables reports board.now
        → is_listed (endpoints_of tables.settings) source.now ≡ true → is_listed (endpoints_of tables.settings) dest.now ≡ true
        → shown_link result ≡ link_object tables.rows reports source.now dest.now symbolic.now max_active }
    ensures rows { (tables : Tables) (reports : List CopyReport) → IsBoardOf tables reports board.now
        → is_listed (endpoints_of tables.settings) source.now ≡ true → is_listed (endpoints_of tables.settings) dest.now ≡ true
        → result.rows.rows ≡ length (rows_on tables.rows source.now dest.now) }
{
    let pair = pair_of(board.endpoints, source, dest);
    let rows = row_tally_at(&board.rows, pair);
    let reports = report_tally_at(&board.reports, pair);
    LinkShown {
        source,
        dest,
        symbolic,
        max_active,
        rows,
        reports,
    }
}

// The other links from each of these endpoints, which are all that are listed.
fn add_others<'a>(
    links: &mut Vec<LinkShown<'a>>,
    board: &Board<'a>,
    endpoints: &'a [Endpoint],
) -> Result<(), Memory>
    requires { length board.now.endpoints.now ≤ 256 }
    ensures { (tables : Tables) (reports : List CopyReport) → IsBoardOf tables reports board.now → endpoints.now ≡ endpoints_of tables.settings
        → OnOk result (map shown_link links.new.items
        ≡ map shown_link links.old.items ++ flat_map (λ (source : Endpoint). others_from tables reports source.name) endpoints.now) }
{
    for endpoint in endpoints {
        let source = endpoint.name.as_str();
        add_others_from(links, board, endpoints, source)?;
    }
    Ok(())
}

// The other links from a listed storage to each of these endpoints, which are all that are listed.
fn add_others_from<'a>(
    links: &mut Vec<LinkShown<'a>>,
    board: &Board<'a>,
    endpoints: &'a [Endpoint],
    source: &'a str,
) -> Result<(), Memory>
    requires { length board.now.endpoints.now ≤ 256 }
    ensures { (tables : Tables) (reports : List CopyReport) → IsBoardOf tables reports board.now → endpoints.now ≡ endpoints_of tables.settings
        → is_listed (endpoints_of tables.settings) source.now ≡ true
        → OnOk result (map shown_link links.new.items
        ≡ map shown_link links.old.items ++ flat_map (λ (dest : Endpoint). others_at tables reports source.now dest.name) endpoints.now) }
{
    for endpoint in endpoints {
        let dest = endpoint.name.as_str();
        add_other(links, board, source, dest)?;
    }
    Ok(())
}

// The link between two listed storages, where it has a row and isn't listed.
fn add_other<'a>(
    links: &mut Vec<LinkShown<'a>>,
    board: &Board<'a>,
    source: &'a str,
    dest: &'a str,
) -> Result<(), Memory>
    requires { length board.now.endpoints.now ≤ 256 }
    ensures { (tables : Tables) (reports : List CopyReport) → IsBoardOf tables reports board.now
        → is_listed (endpoints_of tables.settings) source.now ≡ true → is_listed (endpoints_of tables.settings) dest.now ≡ true
        → OnOk result (map shown_link links.new.items ≡ map shown_link links.old.items ++ others_at tables reports source.now dest.now) }
{
    let link = link_shown(board, source, dest, "", board.default_max_active);
    if is_other(board.links, link.rows.rows, source, dest) {
        add(links, link)
    } else {
        Ok(())
    }
}

// Whether a link with so many rows is another one than those that are listed, and has a row.
fn is_other(links: &[LinkRule], rows: u64, source: &str, dest: &str) -> bool
    ensures { result ≡ (not (rows == 0) && not (is_link_listed links.now source.now dest.now)) }
{
    rows != 0 && !is_link_listed(links, source, dest)
}

// Whether a link is listed.
fn is_link_listed(links: &[LinkRule], source: &str, dest: &str) -> bool
    ensures { result ≡ is_link_listed links.now source.now dest.now }
{
    links.iter().any(|link| link.source.as_str() == source && link.dest.as_str() == dest)
}

fn add<'a>(links: &mut Vec<LinkShown<'a>>, link: LinkShown<'a>) -> Result<(), Memory>
    ensures { OnOk result (map shown_link links.new.items ≡ map shown_link links.old.items ++ shown_link link.entry ∷ []) }
{
    match links.push(link) {
        Ok(()) => Ok(()),
        Err(_) => Err(Memory),
    }
}
