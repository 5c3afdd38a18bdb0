//! The job and the file that a path names, by the desk's own look-ups.
//! That what is found by a number has that number rests on the form of the tables (`IsStanding`).
ghost use Rattle.std.specs.Prelude.{◌≡◌, Some, IfSome, IsSome, option_map};
ghost use Rattle.fts_tables.specs.Tables.{job_at, row_at};
ghost use Rattle.fts_routes.specs.Routes.{id_in, job_named, file_named, entry_number};
ghost use Rattle.fts_routes.specs.Objects.{settings_in, state_in};

use crate::queries::number_in;
use fts_desk::Desk;
use fts_tables::{FileRow, JobRow, JobState, Settings};
use uuid::Uuid;

/// The number of a file or of an entry has so many decimal digits at most.
const MAX_DIGITS: usize = 10;

/// The id that a text of 36 bytes spells (RFC 9562).
fn id_in(text: &str) -> Option<u128>
    ensures { result ≡ id_in text.now }
{
    if text.len() != 36 {
        return None;
    }
    match Uuid::parse_str(text) {
        Ok(id) => Some(id.as_u128()),
        Err(_) => None,
    }
}

/// The job that a text names. It stands under its number.
pub fn job_named(desk: &Desk, text: &str) -> Option<JobRow>
    ensures job { result ≡ job_named desk.now.tables text.now }
    ensures number { IfSome result (λ job. job_at desk.now.tables.jobs job.number ≡ Some job) }
{
    desk.standing();
    let number = desk.find(id_in(text)?)?;
    job_of_number(desk, number)
}

/// The job of a number.
pub fn job_of_number(desk: &Desk, number: u32) -> Option<JobRow>
    ensures job { result ≡ job_at desk.now.tables.jobs number }
    ensures again { IfSome result (λ job. job_at desk.now.tables.jobs job.number ≡ Some job) }
{
    desk.standing();
    desk.job(number).copied()
}

/// The file of a job that a text names. It stands under its id.
pub fn file_named<'d>(desk: &'d Desk, job: &JobRow, text: &str) -> Option<&'d FileRow>
    ensures file { option_map (λ row. row.now) result ≡ file_named desk.now.tables job.now text.now }
    ensures id { IfSome result (λ row. row_at desk.now.tables.rows row.now.id ≡ Some row.now) }
    ensures own { IfSome result (λ row. row.now.job ≡ job.now.number) }
{
    let number = number_in(text, MAX_DIGITS)?;
    let row = row_of_number(desk, number)?;
    if row.job == job.number {
        Some(row)
    } else {
        None
    }
}

/// The number of an entry that a text spells.
pub fn entry_number(text: &str) -> Option<u64>
    ensures { result ≡ entry_number text.now }
{
    number_in(text, MAX_DIGITS)
}

/// The row of an id.
fn row_of_number(desk: &Desk, id: u64) -> Option<&FileRow>
    ensures row { option_map (λ row. row.now) result ≡ row_at desk.now.tables.rows id }
    ensures again { IfSome result (λ row. row_at desk.now.tables.rows row.now.id ≡ Some row.now) }
{
    desk.standing();
    if id > desk.rows().len() as u64 {
        return None;
    }
    desk.row(id as u32)
}

/// The state of a job, which stands under its number.
pub fn state_of(desk: &Desk, job: &JobRow) -> JobState
    requires { job_at desk.now.tables.jobs job.now.number ≡ Some job.now }
    ensures { result ≡ state_in desk.now.tables job.now }
{
    match desk.state(job.number) {
        Some(state) => state,
        None => unreachable!(),
    }
}

/// The settings in force.
pub fn settings_of(desk: &Desk) -> &Settings
    requires { IsSome desk.now.tables.settings }
    ensures { result.now ≡ settings_in desk.now.tables }
{
    match desk.settings() {
        Some(settings) => settings,
        None => unreachable!(),
    }
}
