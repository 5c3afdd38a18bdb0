//! Rows that begin to wait: the row at a place, where its turn hadn't come. `wake_counted` counts it too; a submission, whose rows
//! count once they all stand, uses `wake_at`.
//! Places count from 0, so the row at a place has the id behind it (`change_at-by_id`).
ghost use Rattle.std.specs.Prelude.{◌≡◌, Some, slice_get};
ghost use Rattle.fts_tables.specs.Tables.{AreNumberedFrom};
ghost use Rattle.fts_tables.specs.declared.rows.FileRow.{FileRow};
ghost use Rattle.fts_desk.specs.Parts.{limits_of, IsBeside, HasRoomToWait};
ghost use Rattle.fts_desk.specs.Places.{change_at, woken};

use crate::counts::{counted, recount};
use crate::kept::Beside;
use crate::parts::{leave, wait};
use fts_tables::{FileRow, FileState, JobRow};

/// Lets a row wait from now on, where its turn hadn't come.
fn wake(row: &mut FileRow)
    ensures row { row.new ≡ woken row.old }
{
    if row.state.is_not_used() {
        row.state = FileState::Submitted;
    }
}

/// Lets the row at a place wait from now on, where its turn hadn't come. At a place behind the last row it does nothing.
pub fn wake_at(rows: &mut [FileRow], place: usize)
    ensures rows { rows.new ≡ change_at place woken rows.old }
{
    if place < rows.len() {
        wake(&mut rows[place]);
    }
}

/// The same of a row that stands beside others: it is counted, and waits among the files that wait.
pub fn wake_counted(rows: &mut [FileRow], place: usize, beside: &mut Beside, jobs: &[JobRow])
    requires jobs_numbered { AreNumberedFrom (λ job. job.number) 1 jobs.now }
    requires numbered { AreNumberedFrom (λ row. row.id) 1 rows.old }
    requires beside { IsBeside jobs.now rows.old beside.old }
    requires room { (row : FileRow) → slice_get rows.old place ≡ Some row → HasRoomToWait 1 row beside.old.parts }
    ensures rows { rows.new ≡ change_at place woken rows.old }
    ensures beside { IsBeside jobs.now rows.new beside.new }
    ensures limits { limits_of beside.new.parts ≡ limits_of beside.old.parts }
{
    if place < rows.len() && rows[place].state.is_not_used() {
        let was = counted(jobs, rows, place);
        leave(&mut beside.parts, jobs, rows, place);
        wake(&mut rows[place]);
        wait(&mut beside.parts, jobs, rows, place);
        recount(&mut beside.counts, jobs, rows, place, was);
    }
}
