//! Where the rows go, by the places of their endpoints among the listed ones: names are looked up where a row's link is not that of the row before it.
//! A link's states are then found by comparing numbers alone (`specs/Goings.antt`).
ghost use Rattle.std.specs.Prelude.{◌≡◌, ◌≤◌, ◌==◌, length, map, filter, count_by, IfOk};
ghost use Rattle.fts_tables.specs.declared.limits.TheConstants.{MAX_ENDPOINTS};
ghost use Rattle.fts_counts.specs.Listed.{place_among};
ghost use Rattle.fts_counts.specs.Rows.{test_of};
ghost use Rattle.fts_metrics.specs.Goings.{going_of, states_to};

use fts_counts::{is_in, place_among};
use fts_tables::{Endpoint, FileRow, FileState, Memory};
use std::alloc::Global;

/// Where a row goes: the places of its endpoints, and their number where one isn't listed.
#[derive(Clone, Copy)]
pub struct Going {
    pub source: u16,
    pub dest: u16,
    pub state: FileState,
}

/// The place of the first endpoint of a name, and their number where none has it.
pub fn place_of(endpoints: &[Endpoint], name: &str) -> u16
    requires few { length endpoints.now ≤ MAX_ENDPOINTS }
    ensures { result ≡ place_among endpoints.now name.now }
{
    place_among(endpoints, name) as u16
}

fn going_of(endpoints: &[Endpoint], row: &FileRow) -> Going
    requires few { length endpoints.now ≤ MAX_ENDPOINTS }
    ensures { result ≡ going_of endpoints.now row.now }
{
    Going {
        source: place_of(endpoints, row.source.endpoint.as_str()),
        dest: place_of(endpoints, row.dest.endpoint.as_str()),
        state: row.state,
    }
}

// Where a row goes, beside one of which it is known.
fn going_beside(endpoints: &[Endpoint], row: &FileRow, other: &FileRow, going: Going) -> Going
    requires few { length endpoints.now ≤ MAX_ENDPOINTS }
    requires beside { going ≡ going_of endpoints.now other.now }
    ensures { result ≡ going_of endpoints.now row.now }
{
    if row.is_same_link(other) {
        Going {
            state: row.state,
            ..going
        }
    } else {
        going_of(endpoints, row)
    }
}

/// Where the rows go, in their order.
pub fn goings_of(
    alloc: Global,
    endpoints: &[Endpoint],
    rows: &[FileRow],
) -> Result<Vec<Going>, Memory>
    requires few { length endpoints.now ≤ MAX_ENDPOINTS }
    ensures { IfOk result (λ goings. goings.items ≡ map (going_of endpoints.now) rows.now) }
{
    let mut goings = Vec::with_capacity(alloc, rows.len())?;
    let Some(mut last) = rows.first() else {
        return Ok(goings);
    };
    let mut going = going_of(endpoints, last);
    for row in rows {
        going = going_beside(endpoints, row, last, going);
        last = row;
        goings.push_reserved(going);
    }
    Ok(goings)
}

/// Those that come from a place.
pub fn from_place(alloc: Global, goings: &[Going], source: u16) -> Result<Vec<Going>, Memory>
    ensures { IfOk result (λ from. from.items ≡ filter (λ going. going.source == source) goings.now) }
{
    let from = goings
        .iter()
        .copied()
        .filter(|going| going.source == source)
        .collect(alloc)?;
    Ok(from)
}

/// The states of those that go to a place.
pub fn states_to(alloc: Global, goings: &[Going], dest: u16) -> Result<Vec<FileState>, Memory>
    ensures { IfOk result (λ states. states.items ≡ states_to dest goings.now) }
{
    let states = goings
        .iter()
        .filter(|going| going.dest == dest)
        .map(|going| going.state)
        .collect(alloc)?;
    Ok(states)
}

/// How many of these are this state.
pub fn count_in(states: &[FileState], wanted: FileState) -> usize
    ensures { result ≡ count_by (test_of wanted) states.now }
{
    states.iter().filter(|state| is_in(wanted, **state)).count()
}
