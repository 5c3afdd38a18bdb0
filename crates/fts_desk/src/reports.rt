//! Report: the row of a copy that ended, and the row of its job that begins to wait behind it.
//! What becomes of the row, and which kind of row follows, `after_report` says; behind a finished hop comes the row after it,
//! after a failed replica the next alternative, with loads over all rows as the report leaves them, which are kept beside the rows.
//! Order: the row is written first, then the one that follows is woken. `make_room` makes room for either to wait, before the report is done.
ghost use Rattle.std.specs.Prelude.{◌≡◌, ◌≢◌, ℕ, ◌+◌, ◌-◌, ◌<◌, ◌≤◌, List, length, slice_get, Some, Ok, IsTrue, OnOk};
ghost use Rattle.fts_tables.specs.Tables.{Tables, AreNumberedFrom, AreWellFormed, is_active, job_at, row_at};
ghost use Rattle.fts_tables.specs.Moves.{change_row, reported, followed, followed_finish, followed_failure};
ghost use Rattle.fts_tables.specs.Step.{step, report_of};
ghost use Rattle.fts_tables.specs.History.{IsAccepted};
ghost use Rattle.fts_tables.specs.declared.commands.Command.TheVariants.{Report};
ghost use Rattle.fts_tables.specs.declared.commands.Answer.TheVariants.{Reported};
ghost use Rattle.fts_tables.specs.declared.limits.TheConstants.{MAX_FILES, MAX_ROWS};
ghost use Rattle.fts_tables.specs.declared.rows.FileRow.{FileRow};
ghost use Rattle.fts_tables.specs.declared.rows.JobRow.{JobRow};
ghost use Rattle.fts_tables.specs.declared.rows.Outcome.{Outcome};
ghost use Rattle.fts_tables.specs.declared.rows.JobKind.TheVariants.{Plain, Multihop, Replica};
ghost use Rattle.fts_states.specs.Afters.{with_follow};
ghost use Rattle.fts_desk.specs.Kept.{tables_kept, IsWithinLimits};
ghost use Rattle.fts_desk.specs.Parts.{limits_of, IsBeside, HasRoomToReport, HasRoomToFollow, HaveRoomToWait, HasRoomToWait, HaveRisenRooms, IsFollowOf};
ghost use Rattle.fts_desk.specs.Prepared.{IsChecked};
ghost use Rattle.fts_desk.specs.Reports.{HaveFewFiles};
ghost use Rattle.fts_desk.specs.Standing.{StandTogether};

use crate::counts::{counted, recount};
use crate::kept::{Beside, Kept};
use crate::lookups::{job_place, row_place, rows_of_job, rows_stand_together};
use crate::parts::{leave, make_room_to_wait, wait};
use crate::sources::next_source;
use crate::waking::wake_counted;
use fts_choice::next_hop;
use fts_claims::ClaimParts;
use fts_states::{After, Follow, after_report};
use fts_tables::{Answer, FileRow, JobKind, JobRow, Memory, Outcome, Refusal};

/// Whether a report of a file's attempt is taken, or how the machine refuses it: `NoFile` where there is no such file,
/// `Stale` where it isn't ACTIVE or at another attempt.
pub fn check_report(kept: &Kept, file: u32, attempt: u32) -> Result<(), Refusal>
    requires formed { AreWellFormed (tables_kept kept.now) }
    ensures answer { (now : ℕ) (outcome : Outcome) → IsChecked (step (tables_kept kept.now) (Report now file attempt outcome)) result }
{
    match row_place(&kept.rows, file) {
        Some(place) => check_row(&kept.jobs, &kept.rows[place], attempt),
        None => Err(Refusal::NoFile),
    }
}

/// Whether a report of an attempt of this row is taken.
fn check_row(jobs: &[JobRow], row: &FileRow, attempt: u32) -> Result<(), Refusal>
    requires numbered { AreNumberedFrom (λ job. job.number) 1 jobs.now }
    ensures answer { (tables : Tables) (now : ℕ) (outcome : Outcome)
        → IsChecked (report_of tables now row.now attempt outcome (job_at jobs.now row.now.job)) result }
{
    match job_place(jobs, row.job) {
        Some(_) => check_attempt(row, attempt),
        None => Err(Refusal::NoFile),
    }
}

/// Whether this attempt of a row runs.
fn check_attempt(row: &FileRow, attempt: u32) -> Result<(), Refusal>
    ensures answer { (tables : Tables) (now : ℕ) (outcome : Outcome) (job : JobRow)
        → IsChecked (report_of tables now row.now attempt outcome (Some job)) result }
{
    if row.state.is_active() && row.attempt == attempt {
        Ok(())
    } else {
        Err(Refusal::Stale {
            state: row.state,
            attempt: row.attempt,
        })
    }
}

/// Makes room for the rows that a report of a file may let wait: its own, and the others of its job where that isn't a plain one.
pub fn make_room(kept: &mut Kept, file: u32) -> Result<(), Memory>
    requires formed { AreWellFormed (tables_kept kept.old) }
    ensures tables { tables_kept kept.new ≡ tables_kept kept.old }
    ensures room { OnOk result ((row : FileRow) (job : JobRow) → row_at kept.new.rows.items file ≡ Some row
        → job_at kept.new.jobs.items row.job ≡ Some job → HasRoomToReport job (file - 1) kept.new.rows.items kept.new.beside.parts) }
{
    rows_stand_together();
    match row_place(&kept.rows, file) {
        Some(place) => match job_place(&kept.jobs, kept.rows[place].job) {
            Some(number) => make_room_at(
                &mut kept.beside.parts,
                &kept.rows,
                place,
                &kept.jobs[number],
            ),
            None => Ok(()),
        },
        None => Ok(()),
    }
}

/// Makes room for the row at a place of a job, and for the job's others where it isn't a plain one.
fn make_room_at(
    parts: &mut Option<ClaimParts>,
    rows: &[FileRow],
    place: usize,
    job: &JobRow,
) -> Result<(), Memory>
    requires inside { place < length rows.now }
    requires together { StandTogether rows.now job.now }
    ensures room { OnOk result (HasRoomToReport job.now place rows.now parts.new) }
    ensures risen { HaveRisenRooms parts.old parts.new }
{
    make_room_of_job(parts, rows, job)?;
    make_room_to_wait(parts, &rows[place], 2)
}

/// Makes room for each row of a job that isn't a plain one.
fn make_room_of_job(
    parts: &mut Option<ClaimParts>,
    rows: &[FileRow],
    job: &JobRow,
) -> Result<(), Memory>
    requires together { StandTogether rows.now job.now }
    ensures room { OnOk result (job.now.kind ≢ Plain → (other : ℕ) (row : FileRow) → job.now.first - 1 ≤ other → other < job.now.first - 1 + job.now.count
        → slice_get rows.now other ≡ Some row → HasRoomToWait 2 row parts.new) }
    ensures risen { HaveRisenRooms parts.old parts.new }
{
    match job.kind {
        JobKind::Plain => Ok(()),
        JobKind::Replica | JobKind::Multihop => make_room_of_rows(parts, rows_of_job(rows, job)),
    }
}

/// Makes room for each of these rows.
fn make_room_of_rows(parts: &mut Option<ClaimParts>, rows: &[FileRow]) -> Result<(), Memory>
    ensures room { OnOk result ((place : ℕ) (row : FileRow) → slice_get rows.now place ≡ Some row → HasRoomToWait 2 row parts.new) }
    ensures risen { HaveRisenRooms parts.old parts.new }
{
    for row in rows {
        make_room_to_wait(parts, row, 2)?;
    }
    Ok(())
}

/// Does an accepted report, at a moment in whole seconds, or at the last one where that is later: the row, and what follows it.
/// It takes no memory and can't fail, and answers the file's new state.
pub fn report(kept: &mut Kept, now: u64, file: u32, attempt: u32, outcome: Outcome) -> Answer
    requires formed { AreWellFormed (tables_kept kept.old) }
    requires counts { HaveFewFiles kept.old.jobs.items }
    requires limits { IsWithinLimits kept.old }
    requires accepted { IsAccepted (step (tables_kept kept.old) (Report now file attempt outcome)) }
    requires room { (row : FileRow) (job : JobRow) → row_at kept.old.rows.items file ≡ Some row
        → job_at kept.old.jobs.items row.job ≡ Some job → HasRoomToReport job (file - 1) kept.old.rows.items kept.old.beside.parts }
    ensures step { step (tables_kept kept.old) (Report now file attempt outcome) ≡ Ok (tables_kept kept.new, result) }
    ensures jobs { kept.new.jobs.items ≡ kept.old.jobs.items }
    ensures rows { length kept.new.rows.items ≡ length kept.old.rows.items }
{
    rows_stand_together();
    kept.moment = now.max(kept.moment);
    match row_place(&kept.rows, file) {
        Some(place) => match job_place(&kept.jobs, kept.rows[place].job) {
            Some(number) => {
                let job = kept.jobs[number];
                report_at(
                    &mut kept.rows,
                    place,
                    &job,
                    kept.moment,
                    &outcome,
                    &mut kept.beside,
                    &kept.jobs,
                )
            }
            None => unreachable!(),
        },
        None => unreachable!(),
    }
}

/// Reports the copy of the row at a place, which is ACTIVE, and wakes the row that follows it.
fn report_at(
    rows: &mut [FileRow],
    place: usize,
    job: &JobRow,
    now: u64,
    outcome: &Outcome,
    beside: &mut Beside,
    jobs: &[JobRow],
) -> Answer
    requires jobs_numbered { AreNumberedFrom (λ job. job.number) 1 jobs.now }
    requires beside { IsBeside jobs.now rows.old beside.old }
    requires room { HasRoomToReport job.now place rows.old beside.old.parts }
    requires numbered { AreNumberedFrom (λ row. row.id) 1 rows.old }
    requires together { StandTogether rows.old job.now }
    requires limits { (length rows.old ≤ MAX_ROWS) × (job.now.count ≤ MAX_FILES) }
    requires inside { place < length rows.old }
    requires owned { (job.now.first - 1 ≤ place) × (place < job.now.first - 1 + job.now.count) }
    requires active { (row : FileRow) → slice_get rows.old place ≡ Some row → IsTrue (is_active row.state) }
    ensures rows { (row : FileRow) → slice_get rows.old place ≡ Some row
        → rows.new ≡ followed job.now (reported job.now now outcome.now row) (change_row row.id (reported job.now now outcome.now) rows.old) }
    ensures answer { (row : FileRow) → slice_get rows.old place ≡ Some row → result ≡ Reported row.id (reported job.now now outcome.now row).state }
    ensures beside { IsBeside jobs.now rows.new beside.new }
    ensures limits { limits_of beside.new.parts ≡ limits_of beside.old.parts }
{
    let file = rows[place].id;
    let was = counted(jobs, rows, place);
    leave(&mut beside.parts, jobs, rows, place);
    let after = report_row(&mut rows[place], job, now, outcome);
    wait(&mut beside.parts, jobs, rows, place);
    recount(&mut beside.counts, jobs, rows, place, was);
    follow(rows, place, job, after.follow, beside, jobs);
    Answer::Reported {
        file,
        state: after.state,
    }
}

/// Reports the copy of a row, and says what follows it.
fn report_row(row: &mut FileRow, job: &JobRow, now: u64, outcome: &Outcome) -> After
    requires active { IsTrue (is_active row.old.state) }
    ensures row { row.new ≡ reported job.now now outcome.now row.old }
    ensures state { result.state ≡ row.new.state }
    ensures follow { (rows : List FileRow) → followed job.now row.new rows ≡ with_follow result.follow job.now row.old rows }
    ensures kind { IsFollowOf job.now.kind result.follow }
{
    let after = after_report(row, job, outcome, now);
    row.state = after.state;
    row.retries = after.retries;
    row.not_before = after.not_before;
    row.size = after.size;
    row.digest = after.digest;
    row.reason = after.reason;
    after
}

/// Wakes the row that follows that at a place, where there is one.
fn follow(
    rows: &mut [FileRow],
    place: usize,
    job: &JobRow,
    follow: Follow,
    beside: &mut Beside,
    jobs: &[JobRow],
)
    requires jobs_numbered { AreNumberedFrom (λ job. job.number) 1 jobs.now }
    requires beside { IsBeside jobs.now rows.old beside.old }
    requires room { HasRoomToFollow job.now rows.old beside.old.parts }
    requires kind { IsFollowOf job.now.kind follow }
    requires numbered { AreNumberedFrom (λ row. row.id) 1 rows.old }
    requires together { StandTogether rows.old job.now }
    requires limits { (length rows.old ≤ MAX_ROWS) × (job.now.count ≤ MAX_FILES) }
    requires owned { (job.now.first - 1 ≤ place) × (place < job.now.first - 1 + job.now.count) }
    ensures rows { (row : FileRow) → row.id ≡ place + 1 → rows.new ≡ with_follow follow job.now row rows.old }
    ensures beside { IsBeside jobs.now rows.new beside.new }
    ensures limits { limits_of beside.new.parts ≡ limits_of beside.old.parts }
{
    match follow {
        Follow::Nothing => {}
        Follow::NextHop => wake_hop(rows, place, job, beside, jobs),
        Follow::NextAlternative => wake_alternative(rows, job, beside, jobs),
    }
}

/// Wakes the hop behind that at a place, where there is one.
fn wake_hop(rows: &mut [FileRow], place: usize, job: &JobRow, beside: &mut Beside, jobs: &[JobRow])
    requires jobs_numbered { AreNumberedFrom (λ job. job.number) 1 jobs.now }
    requires beside { IsBeside jobs.now rows.old beside.old }
    requires room { HaveRoomToWait job.now rows.old beside.old.parts }
    requires numbered { AreNumberedFrom (λ row. row.id) 1 rows.old }
    requires together { StandTogether rows.old job.now }
    requires owned { (job.now.first - 1 ≤ place) × (place < job.now.first - 1 + job.now.count) }
    ensures rows { (row : FileRow) → row.id ≡ place + 1 → rows.new ≡ followed_finish Multihop job.now row rows.old }
    ensures beside { IsBeside jobs.now rows.new beside.new }
    ensures limits { limits_of beside.new.parts ≡ limits_of beside.old.parts }
{
    let first = job.first as usize - 1;
    match next_hop(rows_of_job(rows, job), place - first) {
        Some(next) => wake_counted(rows, first + next, beside, jobs),
        None => {}
    }
}

/// Wakes the next alternative of a replica job, where there is one.
fn wake_alternative(rows: &mut [FileRow], job: &JobRow, beside: &mut Beside, jobs: &[JobRow])
    requires jobs_numbered { AreNumberedFrom (λ job. job.number) 1 jobs.now }
    requires beside { IsBeside jobs.now rows.old beside.old }
    requires room { HaveRoomToWait job.now rows.old beside.old.parts }
    requires numbered { AreNumberedFrom (λ row. row.id) 1 rows.old }
    requires together { StandTogether rows.old job.now }
    requires limits { (length rows.old ≤ MAX_ROWS) × (job.now.count ≤ MAX_FILES) }
    ensures rows { rows.new ≡ followed_failure Replica job.now rows.old }
    ensures beside { IsBeside jobs.now rows.new beside.new }
    ensures limits { limits_of beside.new.parts ≡ limits_of beside.old.parts }
{
    match next_source(rows_of_job(rows, job), job.strategy, &beside.counts.loads) {
        Some(place) => wake_counted(rows, job.first as usize - 1 + place, beside, jobs),
        None => {}
    }
}
