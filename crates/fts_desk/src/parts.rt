//! What a claim looks at, beside the rows, from the first Restart on: before there is none, each of these does nothing.
//! Order: a row is left before it changes, and comes in again behind its change, by `wait` or by `start`. Room is made as a command is prepared.
ghost use Rattle.std.specs.Prelude.{◌≡◌, ◌<◌, ◌≤◌, ◌+◌, List, Some, true, false, length, slice_get, take, drop, OnOk, IfSome, is_some};
ghost use Rattle.std.specs.List.{AllByRecursion};
ghost use Rattle.fts_tables.specs.Tables.{AreNumberedFrom, is_active};
ghost use Rattle.fts_tables.specs.declared.limits.TheConstants.{MAX_ROWS};
ghost use Rattle.fts_tables.specs.declared.rows.FileRow.{FileRow};
ghost use Rattle.fts_claims.specs.Changes.{all_but};
ghost use Rattle.fts_desk.specs.Parts.{
  limits_of,
  IsBetweenIn,
  waits_own_in,
  AreTiedParts,
  AreInLineParts,
  HasRoomToWait,
  MayWaitIn,
  HaveSameRooms,
  HaveSameSlots,
  HaveRisenRooms,
  MayRunIn,
  HasRoomToRun,
  HaveRoomForFiles,
  HaveRoomForRows,
  HaveRoomInLine,
};

use fts_claims::ClaimParts;
use fts_tables::{FileRow, JobRow, LinkAt, Memory, NewFile, Place};

/// The link of the row at a place, where its file waits, its moment has come and it brought its destination; None exactly where it doesn't. The row's ends are the
/// settings' endpoints at the link's places.
pub fn link_in_line(
    parts: &Option<ClaimParts>,
    jobs: &[JobRow],
    rows: &[FileRow],
    place: usize,
) -> Option<LinkAt>
    requires rows_numbered { AreNumberedFrom (λ row. row.id) 1 rows.now }
    requires inside { place < length rows.now }
    requires tied { AreTiedParts jobs.now rows.now parts.now }
    ensures answer { (row : FileRow) → slice_get rows.now place ≡ Some row → is_some result ≡ waits_own_in parts.now row.id }
    ensures ends { IfSome result (λ link. (row : FileRow) → slice_get rows.now place ≡ Some row → IsBetweenIn (limits_of parts.now) link row) }
{
    match parts {
        Some(parts) => parts.link_in_line(jobs, rows, place),
        None => None,
    }
}

/// Takes out the part of the row at a place.
pub fn leave(parts: &mut Option<ClaimParts>, jobs: &[JobRow], rows: &[FileRow], place: usize)
    requires jobs_numbered { AreNumberedFrom (λ job. job.number) 1 jobs.now }
    requires rows_numbered { AreNumberedFrom (λ row. row.id) 1 rows.now }
    requires inside { place < length rows.now }
    requires tied { AreTiedParts jobs.now rows.now parts.old }
    requires line { AreInLineParts rows.now parts.old }
    ensures tied { AreTiedParts jobs.now (all_but place rows.now) parts.new }
    ensures line { AreInLineParts rows.now parts.new }
    ensures same { HaveSameRooms 0 parts.old parts.new }
    ensures slots { (row : FileRow) → slice_get rows.now place ≡ Some row → is_active row.state ≡ false → HaveSameSlots parts.old parts.new }
{
    match parts {
        Some(parts) => parts.leave(jobs, rows, place),
        None => {}
    }
}

/// Lets the row at a place come in that doesn't run.
pub fn wait(parts: &mut Option<ClaimParts>, jobs: &[JobRow], rows: &[FileRow], place: usize)
    requires jobs_numbered { AreNumberedFrom (λ job. job.number) 1 jobs.now }
    requires rows_numbered { AreNumberedFrom (λ row. row.id) 1 rows.now }
    requires inside { place < length rows.now }
    requires tied { AreTiedParts jobs.now (all_but place rows.now) parts.old }
    requires line { AreInLineParts rows.now parts.old }
    requires idle { (row : FileRow) → slice_get rows.now place ≡ Some row → is_active row.state ≡ false }
    requires room { (row : FileRow) → slice_get rows.now place ≡ Some row → MayWaitIn row parts.old }
    ensures tied { AreTiedParts jobs.now rows.now parts.new }
    ensures line { AreInLineParts rows.now parts.new }
    ensures same { HaveSameRooms 1 parts.old parts.new }
{
    match parts {
        Some(parts) => parts.wait(jobs, rows, place),
        None => {}
    }
}

/// Lets the row at a place run, whose destination this is.
pub fn start(
    parts: &mut Option<ClaimParts>,
    jobs: &[JobRow],
    rows: &[FileRow],
    place: usize,
    dest: Place,
)
    requires rows_numbered { AreNumberedFrom (λ row. row.id) 1 rows.now }
    requires inside { place < length rows.now }
    requires tied { AreTiedParts jobs.now (all_but place rows.now) parts.old }
    requires line { AreInLineParts rows.now parts.old }
    requires runs { (row : FileRow) → slice_get rows.now place ≡ Some row → is_active row.state ≡ true }
    requires may { (row : FileRow) → slice_get rows.now place ≡ Some row → MayRunIn row parts.old }
    requires dest { (row : FileRow) → slice_get rows.now place ≡ Some row → row.dest ≡ dest }
    ensures tied { AreTiedParts jobs.now rows.now parts.new }
    ensures line { AreInLineParts rows.now parts.new }
    ensures same { HaveSameRooms 0 parts.old parts.new }
{
    match parts {
        Some(parts) => parts.start(jobs, rows, place, dest),
        None => {}
    }
}

/// Lets the rows from a place on come in, none of which runs.
pub fn wait_from(parts: &mut Option<ClaimParts>, jobs: &[JobRow], rows: &[FileRow], from: usize)
    requires jobs_numbered { AreNumberedFrom (λ job. job.number) 1 jobs.now }
    requires rows_numbered { AreNumberedFrom (λ row. row.id) 1 rows.now }
    requires inside { from ≤ length rows.now }
    requires few { length rows.now ≤ MAX_ROWS }
    requires tied { AreTiedParts jobs.now (take from rows.now) parts.old }
    requires line { AreInLineParts (take from rows.now) parts.old }
    requires idle { AllByRecursion (λ row. is_active row.state ≡ false) (drop from rows.now) }
    requires room { HaveRoomForRows (drop from rows.now) parts.old }
    requires places { HaveRoomInLine (length rows.now) parts.old }
    ensures tied { AreTiedParts jobs.now rows.now parts.new }
    ensures line { AreInLineParts rows.now parts.new }
    ensures limits { limits_of parts.new ≡ limits_of parts.old }
{
    match parts {
        Some(parts) => parts.wait_from(jobs, rows, from),
        None => {}
    }
}

/// Makes room in a row's queue for so many more.
pub fn make_room_to_wait(
    parts: &mut Option<ClaimParts>,
    row: &FileRow,
    more: u32,
) -> Result<(), Memory>
    ensures room { OnOk result (HasRoomToWait more row.now parts.new) }
    ensures risen { HaveRisenRooms parts.old parts.new }
{
    match parts {
        Some(parts) => parts.make_room_to_wait(row, more),
        None => Ok(()),
    }
}

/// Makes room for the files of a submission.
pub fn make_room_for_files(parts: &mut Option<ClaimParts>, files: &[NewFile]) -> Result<(), Memory>
    ensures room { OnOk result (HaveRoomForFiles files.now parts.new) }
    ensures places { OnOk result ((rows : List FileRow) → AreInLineParts rows parts.old → HaveRoomInLine (length rows + length files.now) parts.new) }
    ensures risen { HaveRisenRooms parts.old parts.new }
{
    match parts {
        Some(parts) => parts.make_room_for_files(files),
        None => Ok(()),
    }
}
