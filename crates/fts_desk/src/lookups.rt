//! Jobs and rows by their numbers, and the rows of a job. A number is a place plus 1, so a look-up is one index and no search.
//! That each answer is the machine's own (`job_at`, `row_at`, `rows_of_job`) rests on the form of the tables (`AreWellFormed`).
ghost use Rattle.std.specs.Prelude.{◌≡◌, ◌<◌, ◌+◌, ℕ, length, slice_get, Some, IfSome, option_map, option_and_then};
ghost use Rattle.fts_tables.specs.Tables.{Tables, AreNumberedFrom, AreWellFormed, job_at, row_at, rows_of_job};
ghost use Rattle.fts_tables.specs.declared.rows.JobRow.{JobRow};
ghost use Rattle.fts_desk.specs.Standing.{place_in, StandTogether};

use fts_tables::{FileRow, JobRow};

/// The place of a number, from 1, among so many.
fn place_of(number: u32, count: usize) -> Option<usize>
    ensures place { result ≡ place_in number count }
    ensures inside { IfSome result (λ place. (place < count) × (place + 1 ≡ number)) }
{
    if 1 <= number && number as usize <= count {
        Some(number as usize - 1)
    } else {
        None
    }
}

/// The place of the job of a number, where there is one.
pub fn job_place(jobs: &[JobRow], number: u32) -> Option<usize>
    requires numbered { AreNumberedFrom (λ job. job.number) 1 jobs.now }
    ensures job { option_and_then (slice_get jobs.now) result ≡ job_at jobs.now number }
    ensures inside { IfSome result (λ place. (place < length jobs.now) × (place + 1 ≡ number)) }
{
    place_of(number, jobs.len())
}

/// The place of the row of an id, where there is one.
pub fn row_place(rows: &[FileRow], id: u32) -> Option<usize>
    requires numbered { AreNumberedFrom (λ row. row.id) 1 rows.now }
    ensures row { option_and_then (slice_get rows.now) result ≡ row_at rows.now id }
    ensures inside { IfSome result (λ place. (place < length rows.now) × (place + 1 ≡ id)) }
{
    place_of(id, rows.len())
}

/// The job of a number, where there is one.
pub fn find_job(jobs: &[JobRow], number: u32) -> Option<&JobRow>
    requires numbered { AreNumberedFrom (λ job. job.number) 1 jobs.now }
    ensures job { option_map (λ job. job.now) result ≡ job_at jobs.now number }
{
    jobs.get(job_place(jobs, number)?)
}

/// The row of an id, where there is one.
pub fn find_row(rows: &[FileRow], id: u32) -> Option<&FileRow>
    requires numbered { AreNumberedFrom (λ row. row.id) 1 rows.now }
    ensures row { option_map (λ row. row.now) result ≡ row_at rows.now id }
{
    rows.get(row_place(rows, id)?)
}

/// The rows of a job, in order of id.
pub fn rows_of_job<'a>(rows: &'a [FileRow], job: &JobRow) -> &'a [FileRow]
    requires together { StandTogether rows.now job.now }
    ensures rows { result.now ≡ rows_of_job rows.now job.now.number }
    ensures count { length result.now ≡ job.now.count }
{
    let from = job.first as usize - 1;
    &rows[from..from + job.count as usize]
}

/// A law: in well-formed tables the rows of each job stand together.
pub fn rows_stand_together()
    ensures together { (tables : Tables) (number : ℕ) (job : JobRow) → AreWellFormed tables → job_at tables.jobs number ≡ Some job
        → StandTogether tables.rows job }
{}
