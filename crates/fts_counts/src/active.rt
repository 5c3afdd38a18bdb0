//! The rows whose files are being copied, and how many of them go to and from a storage. They are gathered once, in one walk over all.
ghost use Rattle.std.specs.Prelude.{◌≡◌, map, filter, IfOk};
ghost use Rattle.fts_tables.specs.Tables.{is_active};
ghost use Rattle.fts_tables.specs.Limits.{out_of, into};

use fts_tables::FileRow;
use std::alloc::{AllocError, Global};

/// The ACTIVE rows, in their order. It fails for want of memory alone.
pub fn active_rows(alloc: Global, rows: &[FileRow]) -> Result<Vec<&FileRow>, AllocError>
    ensures { IfOk result (λ active. map (λ row. row.now) active.items ≡ filter (λ row. is_active row.state) rows.now) }
{
    rows.iter()
        .filter(|row| row.state.is_active())
        .collect(alloc)
}

/// The files that are being copied from the endpoint of a name.
pub fn from_endpoint(rows: &[&FileRow], name: &str) -> u64
    ensures { result ≡ out_of (map (λ row. row.now) rows.now) name.now }
{
    count_from(rows, name) as u64
}

/// The files that are being copied to the endpoint of a name.
pub fn to_endpoint(rows: &[&FileRow], name: &str) -> u64
    ensures { result ≡ into (map (λ row. row.now) rows.now) name.now }
{
    count_to(rows, name) as u64
}

fn count_from(rows: &[&FileRow], name: &str) -> usize
    ensures { result ≡ out_of (map (λ row. row.now) rows.now) name.now }
{
    rows.iter()
        .filter(|row| row.state.is_active() && row.source.endpoint.as_str() == name)
        .count()
}

fn count_to(rows: &[&FileRow], name: &str) -> usize
    ensures { result ≡ into (map (λ row. row.now) rows.now) name.now }
{
    rows.iter()
        .filter(|row| row.state.is_active() && row.dest.endpoint.as_str() == name)
        .count()
}
