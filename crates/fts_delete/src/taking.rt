//! The rows that an event makes.
//! Room is made before the event is journaled, so that taking it can't fail. A row of an id stands at the place before it (`AreNumbered`).
ghost use Rattle.std.specs.Prelude.{◌≡◌, ◌+◌, ◌≤◌, ◌++◌, length, is_some, IsSome, Some, OnOk, vec_capacity, IsTrue};
ghost use Rattle.fts_delete.specs.Rows.{asked_rows, gone_row, missed_row, is_waiting, rows_after, most_rows};
ghost use Rattle.fts_delete.specs.Laws.{AreNumbered, AreFormed};
ghost use Rattle.fts_delete.specs.Spelling.{has_places};
ghost use Rattle.fts_delete.specs.Folding.{HasRoom};

use crate::events::Event;
use crate::limits::MAX_DELETE_ROWS;
use crate::rows::{DeleteRow, DeleteState};
use fts_tables::{Memory, Place};

impl DeleteState {
    /// Whether it is `Waiting`.
    pub fn is_waiting(self) -> bool
        ensures { result ≡ is_waiting self }
    {
        match self {
            DeleteState::Waiting => true,
            DeleteState::Finished => false,
            DeleteState::Failed => false,
        }
    }
}

/// Whether a row of this id is there and waits.
fn waits(rows: &[DeleteRow], id: u32) -> bool
    requires numbered { AreNumbered 1 rows.now }
    ensures gone { result ≡ is_some (rows_after rows.now (Event.Gone id)) }
    ensures missed { result ≡ is_some (rows_after rows.now (Event.Missed id)) }
{
    if id == 0 {
        return false;
    }
    match rows.get(id as usize - 1) {
        Some(row) => row.state.is_waiting(),
        None => false,
    }
}

/// Whether an event is legal behind what made the rows.
pub fn is_legal(rows: &[DeleteRow], event: &Event) -> bool
    requires numbered { AreNumbered 1 rows.now }
    requires few { length rows.now ≤ most_rows }
    requires places { IsTrue (has_places event.now) }
    ensures { result ≡ is_some (rows_after rows.now event.now) }
{
    match event {
        Event::Ask { places } => rows.len() + places.as_slice().len() <= MAX_DELETE_ROWS,
        Event::Gone { id } => waits(rows, *id),
        Event::Missed { id } => waits(rows, *id),
    }
}

/// Makes room for the rows of an event.
pub fn make_room(rows: &mut Vec<DeleteRow>, event: &Event) -> Result<(), Memory>
    ensures rows { rows.new.items ≡ rows.old.items }
    ensures room { OnOk result (HasRoom (length rows.new.items) (vec_capacity rows.new) event.now) }
{
    match event {
        Event::Ask { places } => match rows.reserve(places.as_slice().len()) {
            Ok(()) => Ok(()),
            Err(_) => Err(Memory),
        },
        Event::Gone { .. } => Ok(()),
        Event::Missed { .. } => Ok(()),
    }
}

/// Adds the rows of places that are asked for, for which there is room.
fn add_rows(rows: &mut Vec<DeleteRow>, places: Vec<Place>)
    requires room { length rows.old.items + length places.items ≤ vec_capacity rows.old }
    requires few { length rows.old.items + length places.items ≤ most_rows }
    ensures { rows.new.items ≡ rows.old.items ++ asked_rows (length rows.old.items + 1) places.items }
{
    for place in places {
        let id = rows.len() as u32 + 1;
        rows.push_reserved(DeleteRow {
            id,
            place,
            state: DeleteState::Waiting,
            missed: 0,
        });
    }
}

/// A row whose file is gone.
fn finish(row: &mut DeleteRow)
    ensures { row.new ≡ gone_row row.old }
{
    row.state = DeleteState::Finished;
}

/// A row that was missed: the third time it fails.
fn miss(row: &mut DeleteRow)
    requires { row.old.missed ≤ 2 }
    ensures { row.new ≡ missed_row row.old }
{
    if row.missed >= 2 {
        row.state = DeleteState::Failed;
    } else {
        row.state = DeleteState::Waiting;
    }
    row.missed += 1;
}

/// Takes an event into the rows. It is legal, and there is room for it.
pub fn take_event(rows: &mut Vec<DeleteRow>, event: Event)
    requires formed { AreFormed rows.old.items }
    requires legal { IsSome (rows_after rows.old.items event) }
    requires room { HasRoom (length rows.old.items) (vec_capacity rows.old) event }
    ensures { rows_after rows.old.items event ≡ Some rows.new.items }
{
    match event {
        Event::Ask { places } => add_rows(rows, places.into_vec()),
        Event::Gone { id } => finish(&mut rows[id as usize - 1]),
        Event::Missed { id } => miss(&mut rows[id as usize - 1]),
    }
}
