//! Where the rows go: by the number of the pair of their endpoints' places among the listed ones. Names are looked up where a row's link is not that of
//! the row before it, and links are then told apart by numbers alone (`specs/Tallied.antt`).
ghost use Rattle.std.specs.Prelude.{◌≡◌, ◌≤◌, ◌<◌, ℕ, List, length, map, slice_get, ◌-◌, IfOk, option_map};
ghost use Rattle.fts_tables.specs.Tables.{row_at};
ghost use Rattle.fts_tables.specs.declared.settings.Endpoint.{Endpoint};
ghost use Rattle.fts_counts.specs.Listed.{place_among};
ghost use Rattle.fts_board.specs.Tallied.{pair_of, pairs_of, pair_of_row, going_of};

use fts_counts::place_among;
use fts_desk::Desk;
use fts_tables::laws::found_rows_stand;
use fts_tables::{Endpoint, FileRow, FileState, Memory};
use std::alloc::Global;

/// Where a row goes, and its state.
#[derive(Clone, Copy)]
pub struct Going {
    pub pair: usize,
    pub state: FileState,
}

/// How many pairs there are, with those of names that aren't listed.
pub fn pairs_of(endpoints: &[Endpoint]) -> usize
    requires { length endpoints.now ≤ 256 }
    ensures { result ≡ pairs_of endpoints.now }
{
    let width = endpoints.len() + 1;
    width * width
}

/// The number of the pair of two names.
pub fn pair_of(endpoints: &[Endpoint], source: &str, dest: &str) -> usize
    requires { length endpoints.now ≤ 256 }
    ensures { result ≡ pair_of endpoints.now source.now dest.now }
{
    let width = endpoints.len() + 1;
    place_among(endpoints, source) * width + place_among(endpoints, dest)
}

fn going_of(endpoints: &[Endpoint], row: &FileRow) -> Going
    requires { length endpoints.now ≤ 256 }
    ensures { result ≡ going_of endpoints.now row.now }
{
    Going {
        pair: pair_of(
            endpoints,
            row.source.endpoint.as_str(),
            row.dest.endpoint.as_str(),
        ),
        state: row.state,
    }
}

// Where a row goes, beside one of which it is known.
fn going_beside(endpoints: &[Endpoint], row: &FileRow, other: &FileRow, going: Going) -> Going
    requires few { length endpoints.now ≤ 256 }
    requires known { going ≡ going_of endpoints.now other.now }
    ensures { result ≡ going_of endpoints.now row.now }
{
    if row.is_same_link(other) {
        Going {
            state: row.state,
            ..going
        }
    } else {
        going_of(endpoints, row)
    }
}

/// Where the rows go, in their order.
pub fn goings_of(
    alloc: Global,
    endpoints: &[Endpoint],
    rows: &[FileRow],
) -> Result<Vec<Going>, Memory>
    requires { length endpoints.now ≤ 256 }
    ensures { IfOk result (λ goings. goings.items ≡ map (going_of endpoints.now) rows.now) }
{
    let mut goings = Vec::with_capacity(alloc, rows.len())?;
    let Some(mut last) = rows.first() else {
        return Ok(goings);
    };
    let mut going = going_of(endpoints, last);
    for row in rows {
        going = going_beside(endpoints, row, last, going);
        last = row;
        goings.push_reserved(going);
    }
    Ok(goings)
}

/// The pair of the row of an id, and none where there is no such row.
pub fn pair_at(desk: &Desk, goings: &[Going], id: u32) -> Option<usize>
    ensures { (endpoints : List Endpoint) → goings.now ≡ map (going_of endpoints) desk.now.tables.rows
        → result ≡ option_map (pair_of_row endpoints) (row_at desk.now.tables.rows id) }
{
    desk.standing();
    found_rows_stand();
    match desk.row(id) {
        Some(_) => pair_in(goings, id),
        None => None,
    }
}

// The pair of the going at the place before an id.
fn pair_in(goings: &[Going], id: u32) -> Option<usize>
    ensures { result ≡ option_map (λ going. going.pair) (slice_get goings.now (id - 1)) }
{
    match goings.get((id as usize).saturating_sub(1)) {
        Some(going) => Some(going.pair),
        None => None,
    }
}
