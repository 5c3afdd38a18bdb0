//! The storages of a snapshot: what is being copied to and from each, beside its limits.
//! Its rows are the ACTIVE ones alone, which are gathered in one walk over all.
ghost use Rattle.std.specs.Prelude.{◌≡◌, map, IfOk};
ghost use Rattle.serde_json.specs.View.{view};
ghost use Rattle.fts_tables.specs.Limits.{out_of, into};
ghost use Rattle.fts_board.specs.Json.{array_of};
ghost use Rattle.fts_board.specs.Snapshot.{storage_object};

use crate::values::{array_from, push_value};
use fts_counts::{active_rows, from_endpoint, to_endpoint};
use fts_tables::{Endpoint, FileRow, Memory};
use serde_json::{Value, json};
use std::alloc::Global;

/// The storages of these endpoints, over these rows.
pub fn storages_value(
    alloc: Global,
    rows: &[FileRow],
    endpoints: &[Endpoint],
) -> Result<Value, Memory>
    ensures { IfOk result (λ value. view value ≡ array_of (storage_object rows.now) endpoints.now) }
{
    let active = active_rows(alloc, rows)?;
    storages_over(alloc, &active, endpoints)
}

// The storages of these endpoints, over these rows.
fn storages_over(alloc: Global, rows: &[&FileRow], endpoints: &[Endpoint]) -> Result<Value, Memory>
    ensures { IfOk result (λ value. view value ≡ array_of (storage_object (map (λ row. row.now) rows.now)) endpoints.now) }
{
    let mut list = Vec::new(alloc);
    for endpoint in endpoints {
        let value = storage_value(alloc, rows, endpoint)?;
        push_value(&mut list, value)?;
    }
    Ok(array_from(list))
}

// A storage, over these rows.
fn storage_value(alloc: Global, rows: &[&FileRow], endpoint: &Endpoint) -> Result<Value, Memory>
    ensures { IfOk result (λ value. view value ≡ storage_object (map (λ row. row.now) rows.now) endpoint.now) }
{
    let inbound = active_to(rows, endpoint);
    let outbound = active_from(rows, endpoint);
    let value = json!(in alloc; {
        "inbound_active": inbound,
        "inbound_max_active": endpoint.inbound,
        "outbound_active": outbound,
        "outbound_max_active": endpoint.outbound,
        "storage": endpoint.name.as_str()
    })?;
    Ok(value)
}

// The files that are being copied from an endpoint.
fn active_from(rows: &[&FileRow], endpoint: &Endpoint) -> u64
    ensures { result ≡ out_of (map (λ row. row.now) rows.now) endpoint.now.name }
{
    from_endpoint(rows, endpoint.name.as_str())
}

// The files that are being copied to an endpoint.
fn active_to(rows: &[&FileRow], endpoint: &Endpoint) -> u64
    ensures { result ≡ into (map (λ row. row.now) rows.now) endpoint.now.name }
{
    to_endpoint(rows, endpoint.name.as_str())
}
