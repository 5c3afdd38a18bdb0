//! Numbers of destinations as rows come in, and room for them and for their files in line.
//! Order: room is made before a command is done. A row gets its number before its file comes in.
ghost use Rattle.std.specs.Prelude.{◌≡◌, ◌<◌, ◌≤◌, ◌+◌, OnOk, length, take};
ghost use Rattle.fts_heads.specs.Dests.{dests_of};
ghost use Rattle.fts_claims.specs.InLine.{AreInLine, HasRoomInLine, HasLineRisen};

use crate::ClaimParts;
use fts_tables::{FileRow, Memory};

/// Makes room in line for so many files more, and for the numbers of their destinations.
pub fn make_room_in_line(parts: &mut ClaimParts, more: usize) -> Result<(), Memory>
    ensures room { OnOk result (HasRoomInLine (length parts.old.line.dests + more) parts.new) }
    ensures risen { HasLineRisen parts.old parts.new }
    ensures waiting { parts.new.line.waiting ≡ parts.old.line.waiting }
    ensures slots { parts.new.slots ≡ parts.old.slots }
    ensures busy { parts.new.busy ≡ parts.old.busy }
{
    let files = match parts.line.rows().checked_add(more) {
        Some(files) => files,
        None => return Err(Memory),
    };
    parts.dests.make_room(files)?;
    parts.line.make_rows(more)?;
    parts.line.make_places(files)
}

/// The row at a place gets the number of its destination, in room that is there.
pub fn add_number(parts: &mut ClaimParts, rows: &[FileRow], place: usize)
    requires inside { place < length rows.now }
    requires few { length rows.now ≤ 4294967296 }
    requires line { AreInLine (dests_of (take place rows.now)) parts.old }
    requires room { HasRoomInLine (length rows.now) parts.old }
    ensures line { AreInLine (dests_of (take (place + 1) rows.now)) parts.new }
    ensures room { HasRoomInLine (length rows.now) parts.new }
    ensures waiting { parts.new.line.waiting ≡ parts.old.line.waiting }
    ensures slots { parts.new.slots ≡ parts.old.slots }
    ensures busy { parts.new.busy ≡ parts.old.busy }
{
    let number = parts.dests.add(rows, place);
    parts.line.add_row(number);
}
