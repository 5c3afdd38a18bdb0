//! What is being copied over each listed link, and to and from each storage, beside the limits that the settings give.
//! Its rows are the ACTIVE ones alone, which are gathered in one walk over all.
ghost use Rattle.std.specs.Prelude.{◌≡◌, ◌++◌, map, OnOk};
ghost use Rattle.fts_tables.specs.Limits.{held};
ghost use Rattle.fts_metrics.specs.Metrics.{link_active_text, link_limit_text, endpoint_active_text, endpoint_limit_text, both_directions, link_active_sample, link_limit_sample, endpoint_active_samples, endpoint_limit_samples};

use crate::lines::{labels_of, put_head, put_sample};
use fts_counts::{from_endpoint, to_endpoint};
use fts_tables::{Endpoint, FileRow, LinkRule, Memory};
use std::alloc::Global;

// The files that are being copied over a link.
fn active(rows: &[&FileRow], source: &str, dest: &str) -> usize
    ensures { result ≡ held (map (λ row. row.now) rows.now) source.now dest.now }
{
    rows.iter()
        .filter(|row| row.state.is_active() && row.is_on_link(source, dest))
        .count()
}

// A sample of the files that are being copied over a link.
fn put_active(
    alloc: Global,
    text: &mut Vec<u8>,
    rows: &[&FileRow],
    link: &LinkRule,
) -> Result<(), Memory>
    ensures { OnOk result (text.new.items ≡ text.old.items ++ link_active_sample (map (λ row. row.now) rows.now) link.now) }
{
    let (source, dest) = (link.source.as_str(), link.dest.as_str());
    let labels = labels_of(alloc, "source", source, "destination", dest)?;
    let count = active(rows, source, dest) as u64;
    put_sample(text, "fts_link_active", &labels, count)?;
    Ok(())
}

// A sample of a link's limit.
fn put_limit(alloc: Global, text: &mut Vec<u8>, link: &LinkRule) -> Result<(), Memory>
    ensures { OnOk result (text.new.items ≡ text.old.items ++ link_limit_sample link.now) }
{
    let (source, dest) = (link.source.as_str(), link.dest.as_str());
    let labels = labels_of(alloc, "source", source, "destination", dest)?;
    put_sample(text, "fts_link_limit", &labels, link.max_active as u64)
}

/// What there is of `fts_link_active`.
pub fn put_link_active(
    alloc: Global,
    text: &mut Vec<u8>,
    rows: &[&FileRow],
    links: &[LinkRule],
) -> Result<(), Memory>
    ensures { OnOk result (text.new.items ≡ text.old.items ++ link_active_text (map (λ row. row.now) rows.now) links.now) }
{
    put_head(
        text,
        "fts_link_active",
        "Files that are being copied over a listed link.",
        "gauge",
    )?;
    for link in links {
        put_active(alloc, text, rows, link)?;
    }
    Ok(())
}

/// What there is of `fts_link_limit`.
pub fn put_link_limit(alloc: Global, text: &mut Vec<u8>, links: &[LinkRule]) -> Result<(), Memory>
    ensures { OnOk result (text.new.items ≡ text.old.items ++ link_limit_text links.now) }
{
    put_head(
        text,
        "fts_link_limit",
        "How many files may be copied at once over a listed link.",
        "gauge",
    )?;
    for link in links {
        put_limit(alloc, text, link)?;
    }
    Ok(())
}

// A number of an endpoint for each direction.
fn put_both(
    alloc: Global,
    text: &mut Vec<u8>,
    name: &str,
    endpoint: &str,
    inbound: u64,
    outbound: u64,
) -> Result<(), Memory>
    ensures { OnOk result (text.new.items ≡ text.old.items ++ both_directions name.now endpoint.now inbound outbound) }
{
    let labels = labels_of(alloc, "endpoint", endpoint, "direction", "inbound")?;
    put_sample(text, name, &labels, inbound)?;
    let labels = labels_of(alloc, "endpoint", endpoint, "direction", "outbound")?;
    put_sample(text, name, &labels, outbound)?;
    Ok(())
}

// The samples of what is being copied to an endpoint and from it.
fn put_endpoint(
    alloc: Global,
    text: &mut Vec<u8>,
    rows: &[&FileRow],
    endpoint: &Endpoint,
) -> Result<(), Memory>
    ensures { OnOk result (text.new.items ≡ text.old.items ++ endpoint_active_samples (map (λ row. row.now) rows.now) endpoint.now) }
{
    let name = endpoint.name.as_str();
    let inbound = to_endpoint(rows, name);
    let outbound = from_endpoint(rows, name);
    put_both(alloc, text, "fts_endpoint_active", name, inbound, outbound)
}

// The samples of an endpoint's limits.
fn put_limits(alloc: Global, text: &mut Vec<u8>, endpoint: &Endpoint) -> Result<(), Memory>
    ensures { OnOk result (text.new.items ≡ text.old.items ++ endpoint_limit_samples endpoint.now) }
{
    let name = endpoint.name.as_str();
    let (inbound, outbound) = (endpoint.inbound as u64, endpoint.outbound as u64);
    put_both(alloc, text, "fts_endpoint_limit", name, inbound, outbound)
}

/// What there is of `fts_endpoint_active`.
pub fn put_endpoint_active(
    alloc: Global,
    text: &mut Vec<u8>,
    rows: &[&FileRow],
    endpoints: &[Endpoint],
) -> Result<(), Memory>
    ensures { OnOk result (text.new.items ≡ text.old.items ++ endpoint_active_text (map (λ row. row.now) rows.now) endpoints.now) }
{
    put_head(
        text,
        "fts_endpoint_active",
        "Files that are being copied to or from a storage.",
        "gauge",
    )?;
    for endpoint in endpoints {
        put_endpoint(alloc, text, rows, endpoint)?;
    }
    Ok(())
}

/// What there is of `fts_endpoint_limit`.
pub fn put_endpoint_limit(
    alloc: Global,
    text: &mut Vec<u8>,
    endpoints: &[Endpoint],
) -> Result<(), Memory>
    ensures { OnOk result (text.new.items ≡ text.old.items ++ endpoint_limit_text endpoints.now) }
{
    put_head(
        text,
        "fts_endpoint_limit",
        "How many files may be copied at once to or from a storage.",
        "gauge",
    )?;
    for endpoint in endpoints {
        put_limits(alloc, text, endpoint)?;
    }
    Ok(())
}
