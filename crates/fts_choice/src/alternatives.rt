//! Which row of a replica job comes in next.
ghost use Rattle.std.specs.Prelude.{◌≡◌, ◌↔◌, ◌<◌, ◌&&◌, List, length, map, position, slice_get, None, IfSome, IsFalse, option_and_then};
ghost use Rattle.std.specs.List.{list_any};
ghost use Rattle.fts_tables.specs.Tables.{is_not_used};
ghost use Rattle.fts_tables.specs.Choice.{load, next_alternative};
ghost use Rattle.fts_tables.specs.declared.rows.FileRow.{FileRow};
ghost use Rattle.fts_choice.specs.LeastPlaces.{is_lighter, is_better, least_place, is_not_used_at, load_of, alternative_place};

use fts_tables::{FileRow, Strategy};

/// Whether there is a row at a place whose turn hasn't come.
fn is_not_used_at(rows: &[FileRow], place: usize) -> bool
    ensures answer { result ≡ is_not_used_at rows.now place }
{
    match rows.get(place) {
        Some(row) => row.state.is_not_used(),
        None => false,
    }
}

/// The load at a place, and 0 where there is none.
fn load_at(loads: &[u32], place: usize) -> u32
    ensures load { result ≡ load_of loads.now place }
{
    match loads.get(place) {
        Some(load) => *load,
        None => 0,
    }
}

/// Whether the load at a place is less than at the best place so far.
fn is_better_place(loads: &[u32], best: Option<usize>, place: usize) -> bool
    ensures answer { result ≡ is_better (is_lighter (load_of loads.now)) best place }
{
    match best {
        Some(best) => load_at(loads, place) < load_at(loads, best),
        None => true,
    }
}

/// Whether the row at a place goes before that at the best place so far.
fn is_next(rows: &[FileRow], loads: &[u32], best: Option<usize>, place: usize) -> bool
    ensures answer { result ≡ (is_not_used_at rows.now place && is_better (is_lighter (load_of loads.now)) best place) }
{
    is_not_used_at(rows, place) && is_better_place(loads, best, place)
}

/// The place of the first row whose turn hasn't come.
fn first_not_used(rows: &[FileRow]) -> Option<usize>
    ensures place { result ≡ position (λ row. is_not_used row.state) rows.now }
{
    rows.iter().position(|row| row.state.is_not_used())
}

/// The place of the row whose turn hasn't come with the least load, and of several the first.
fn least_loaded(rows: &[FileRow], loads: &[u32]) -> Option<usize>
    ensures place { result ≡ least_place (is_not_used_at rows.now) (load_of loads.now) (length rows.now) }
{
    let mut best: Option<usize> = None;
    for place in 0..rows.len() {
        if is_next(rows, loads, best, place) {
            best = Some(place);
        }
    }
    best
}

/// The place of the row of a job that comes in next, given the rows of the job and for each how many files wait or run on its link.
/// Orderly takes the first whose turn hasn't come, Auto of these the one of the least load, ties by order. None exactly where there is none.
pub fn next_alternative(rows: &[FileRow], strategy: Strategy, loads: &[u32]) -> Option<usize>
    requires alike { length loads.now ≡ length rows.now }
    ensures place { result ≡ alternative_place strategy rows.now loads.now }
    ensures none { (result ≡ None) ↔ IsFalse (list_any (λ row. is_not_used row.state) rows.now) }
    ensures inside { IfSome result (λ place. place < length rows.now) }
    ensures row { (all : List FileRow) → loads.now ≡ map (load all) rows.now
        → option_and_then (slice_get rows.now) result ≡ next_alternative strategy all rows.now }
{
    match strategy {
        Strategy::Orderly => first_not_used(rows),
        Strategy::Auto => least_loaded(rows, loads),
    }
}
