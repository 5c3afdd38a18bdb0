//! The rows of deletions, as `delete` writes them: one line each, in order of id (`specs/Told.antt`). It takes no memory.
ghost use Rattle.std.specs.Prelude.{◌≡◌, ◌++◌, codes};
ghost use Rattle.std.specs.List.{flat_map};
ghost use Rattle.fts_tables.specs.Counts.{CountsFaults};
ghost use Rattle.fts_wire.specs.Response.{Sends};
ghost use Rattle.fts_deleting.specs.Told.{state_text, place_text, row_start, row_line, rows_text};

use fts_delete::{DeleteRow, DeleteState};
use fts_tables::Place;
use fts_wire::{Sink, SinkFailed, send_parts};
use itoa::Buffer;

/// Writes the lines of rows. Where a write fails, a part of them was written.
pub fn tell_rows<K: Sink>(output: &mut K, rows: &[DeleteRow]) -> Result<(), SinkFailed>
    ensures sent { Sends (K.held output.old) (K.held output.new) (rows_text rows.now) result }
    ensures cause { CountsFaults (K.faults output.old) (K.faults output.new) result }
{
    'rows: for row in rows {
        match tell_row(output, row) {
            Ok(()) => {}
            Err(fault) => return Err(fault),
        }
    }
    Ok(())
}

/// Writes the line of a row.
fn tell_row<K: Sink>(output: &mut K, row: &DeleteRow) -> Result<(), SinkFailed>
    ensures sent { Sends (K.held output.old) (K.held output.new) (row_line row.now) result }
    ensures cause { CountsFaults (K.faults output.old) (K.faults output.new) result }
{
    match tell_start(output, row.id, row.state) {
        Ok(()) => {}
        Err(fault) => return Err(fault),
    }
    tell_place(output, &row.place)
}

/// Writes the beginning of a row's line, up to its URL.
fn tell_start<K: Sink>(output: &mut K, id: u32, state: DeleteState) -> Result<(), SinkFailed>
    ensures sent { Sends (K.held output.old) (K.held output.new) (row_start id state) result }
    ensures cause { CountsFaults (K.faults output.old) (K.faults output.new) result }
{
    let mut digits = Buffer::new();
    let id = digits.format(id);
    send_parts(
        output,
        &[
            "delete ".as_bytes(),
            id.as_bytes(),
            " ".as_bytes(),
            state_text(state).as_bytes(),
            " ".as_bytes(),
        ],
    )
}

/// Writes the URL of a place, and the end of the line.
fn tell_place<K: Sink>(output: &mut K, place: &Place) -> Result<(), SinkFailed>
    ensures sent { Sends (K.held output.old) (K.held output.new) (place_text place.now ++ codes "\n") result }
    ensures cause { CountsFaults (K.faults output.old) (K.faults output.new) result }
{
    let endpoint = place.endpoint.as_str();
    let path = place.path.as_str();
    send_parts(
        output,
        &[
            endpoint.as_bytes(),
            "/".as_bytes(),
            path.as_bytes(),
            "\n".as_bytes(),
        ],
    )
}

/// How far a row is, as it is written.
fn state_text(state: DeleteState) -> &'static str
    ensures { result.now ≡ state_text state }
{
    match state {
        DeleteState::Waiting => "WAITING",
        DeleteState::Finished => "FINISHED",
        DeleteState::Failed => "FAILED",
    }
}
