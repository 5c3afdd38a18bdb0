//! Cancellations: of a job, and of one of its files. A file of a replica or multihop job is cancelled with the whole job.
//! A row that waits becomes CANCELED; an ACTIVE one keeps its state, and so its slot, until its report. What changes no row is refused.
//! Each check answers as the machine's step does, and each step after an accepted check is the machine's.
//! `cancel_with_job` is what a ban and an expiry do to a file: it has a reason of its own, and says how many rows became CANCELED.
ghost use Rattle.std.specs.Prelude.{◌≡◌, ℕ, ◌+◌, ◌==◌, ◌<◌, length, map, slice_get, Some, Ok, Err, if◌then◌else◌};
ghost use Rattle.std.specs.List.{list_any};
ghost use Rattle.fts_tables.specs.Tables.{Tables, AreNumberedFrom, AreWellFormed, is_live, is_pending};
ghost use Rattle.fts_tables.specs.Moves.{cancelled_for, is_cancellable, is_settled_job, change_row};
ghost use Rattle.fts_tables.specs.Step.{step, cancel_rows, cancel_row, cancel_one};
ghost use Rattle.fts_tables.specs.declared.rows.FileRow.{FileRow};
ghost use Rattle.fts_tables.specs.declared.rows.Reason.TheVariants.{Cancelled};
ghost use Rattle.fts_desk.specs.Cancels.{cancelled_of, after_file, gone_with, count_canceled, IsInside};
ghost use Rattle.fts_tables.specs.History.{IsAccepted};
ghost use Rattle.fts_tables.specs.declared.commands.Command.TheVariants.{CancelJob, CancelFile};
ghost use Rattle.fts_desk.specs.Parts.{limits_of, AreTiedParts, AreInLineParts, IsBeside};
ghost use Rattle.fts_desk.specs.Places.{change_at};
ghost use Rattle.fts_desk.specs.Kept.{tables_kept};
ghost use Rattle.fts_desk.specs.Standing.{StandTogether, AreFormed};
ghost use Rattle.fts_desk.specs.Prepared.{IsChecked};

use crate::counts::{counted, recount_left};
use crate::kept::{Beside, Kept};
use crate::lookups::{find_job, find_row, job_place, rows_of_job, rows_stand_together};
use crate::parts::{leave, link_in_line, wait};
use fts_claims::{ClaimParts, same_parts_stay_tied};
use fts_states::{CancelStep, after_cancel};
use fts_tables::laws::found_rows_stand;
use fts_tables::{Answer, FileRow, FileState, JobKind, JobRow, Reason, Refusal};

/// Whether a cancellation of a job is accepted, or why it is refused.
pub fn check_job(kept: &Kept, job: u32) -> Result<(), Refusal>
    requires formed { AreWellFormed (tables_kept kept.now) }
    ensures answer { (now : ℕ) → IsChecked (step (tables_kept kept.now) (CancelJob now job)) result }
{
    rows_stand_together();
    match find_job(&kept.jobs, job) {
        None => Err(Refusal::NoJob),
        Some(job) => check_rows(&kept.rows, job),
    }
}

/// Whether a cancellation of a file of a job is accepted, or why it is refused.
pub fn check_file(kept: &Kept, job: u32, file: u32) -> Result<(), Refusal>
    requires formed { AreWellFormed (tables_kept kept.now) }
    ensures answer { (now : ℕ) → IsChecked (step (tables_kept kept.now) (CancelFile now job file)) result }
{
    rows_stand_together();
    match find_job(&kept.jobs, job) {
        None => Err(Refusal::NoJob),
        Some(job) => match find_row(&kept.rows, file) {
            None => Err(Refusal::NoFile),
            Some(row) => check_found(&kept.rows, job, row),
        },
    }
}

/// Whether a row that was named together with a job may be cancelled.
fn check_found(rows: &[FileRow], job: &JobRow, row: &FileRow) -> Result<(), Refusal>
    requires together { StandTogether rows.now job.now }
    ensures answer { (tables : Tables) (now : ℕ) → tables.rows ≡ rows.now
        → IsChecked (if row.now.job == job.now.number then cancel_one tables now job.now row.now job.now.kind else Err Refusal.NoFile) result }
{
    if row.job != job.number {
        return Err(Refusal::NoFile);
    }
    match job.kind {
        JobKind::Plain => check_row(job, row),
        JobKind::Replica | JobKind::Multihop => check_rows(rows, job),
    }
}

/// Whether a row of a plain job may be cancelled.
fn check_row(job: &JobRow, row: &FileRow) -> Result<(), Refusal>
    ensures answer { (tables : Tables) (now : ℕ) → IsChecked (cancel_row tables now job.now row.now) result }
{
    if is_cancellable(row) {
        Ok(())
    } else {
        Err(Refusal::Unchanged { job: job.number })
    }
}

/// Whether the rows of a job may be cancelled.
fn check_rows(rows: &[FileRow], job: &JobRow) -> Result<(), Refusal>
    requires together { StandTogether rows.now job.now }
    ensures answer { (tables : Tables) (now : ℕ) → tables.rows ≡ rows.now → IsChecked (cancel_rows tables now job.now) result }
{
    let of_job = rows_of_job(rows, job);
    if !is_settled_job(of_job) && any_cancellable(of_job) {
        Ok(())
    } else {
        Err(Refusal::Unchanged { job: job.number })
    }
}

/// Whether a cancellation would change a row.
fn is_cancellable(row: &FileRow) -> bool
    ensures answer { result ≡ is_cancellable row.now }
{
    match after_cancel(row) {
        CancelStep::Stays => false,
        CancelStep::Canceled | CancelStep::Asked => true,
    }
}

/// Whether a cancellation would change one of these rows.
fn any_cancellable(rows: &[FileRow]) -> bool
    ensures answer { result ≡ list_any is_cancellable rows.now }
{
    rows.iter().any(|row| is_cancellable(row))
}

/// Whether none of a job's rows waits or runs.
pub fn is_settled_job(rows: &[FileRow]) -> bool
    ensures answer { result ≡ is_settled_job rows.now }
{
    !any_live(rows)
}

/// Whether a row waits or runs.
fn any_live(rows: &[FileRow]) -> bool
    ensures answer { result ≡ list_any (λ row. is_live row.state) rows.now }
{
    rows.iter().any(|row| row.state.is_live())
}

/// Cancels a job.
pub fn cancel_job(kept: &mut Kept, now: u64, job: u32) -> Answer
    requires formed { AreWellFormed (tables_kept kept.old) }
    requires accepted { IsAccepted (step (tables_kept kept.old) (CancelJob now job)) }
    ensures step { step (tables_kept kept.old) (CancelJob now job) ≡ Ok (tables_kept kept.new, result) }
{
    rows_stand_together();
    kept.moment = now.max(kept.moment);
    match job_place(&kept.jobs, job) {
        Some(place) => {
            let found = kept.jobs[place];
            cancel_all_of(
                &mut kept.rows,
                &found,
                Reason::Cancelled,
                &mut kept.beside,
                &kept.jobs,
            );
        }
        None => unreachable!(),
    }
    Answer::Cancelled { job }
}

/// Cancels a file of a job, or the whole job by its kind.
pub fn cancel_file(kept: &mut Kept, now: u64, job: u32, file: u32) -> Answer
    requires formed { AreWellFormed (tables_kept kept.old) }
    requires accepted { IsAccepted (step (tables_kept kept.old) (CancelFile now job file)) }
    ensures step { step (tables_kept kept.old) (CancelFile now job file) ≡ Ok (tables_kept kept.new, result) }
{
    rows_stand_together();
    found_rows_stand();
    kept.moment = now.max(kept.moment);
    match job_place(&kept.jobs, job) {
        Some(place) => {
            let found = kept.jobs[place];
            cancel_by_kind(
                &mut kept.rows,
                &found,
                file,
                Reason::Cancelled,
                &mut kept.beside,
                &kept.jobs,
            );
        }
        None => unreachable!(),
    }
    Answer::Cancelled { job }
}

/// Cancels the row at a place for a reason, with its whole job where that goes as a whole, and says how many rows became CANCELED.
pub fn cancel_with_job(
    rows: &mut [FileRow],
    place: usize,
    reason: Reason,
    beside: &mut Beside,
    jobs: &[JobRow],
) -> u32
    requires formed { AreFormed jobs.now rows.old }
    requires beside { IsBeside jobs.now rows.old beside.old }
    requires inside { place < length rows.old }
    ensures rows { (row : FileRow) → slice_get rows.old place ≡ Some row → rows.new ≡ gone_with reason jobs.now row rows.old }
    ensures count { count_canceled rows.new ≡ count_canceled rows.old + result }
    ensures beside { IsBeside jobs.now rows.new beside.new }
    ensures limits { limits_of beside.new.parts ≡ limits_of beside.old.parts }
{
    rows_stand_together();
    let file = rows[place].id;
    match find_job(jobs, rows[place].job) {
        Some(job) => cancel_by_kind(rows, job, file, reason, beside, jobs),
        None => cancel_at(rows, file, reason, beside, jobs),
    }
}

/// Cancels a file's row, or all rows of its job, by the job's kind, and says how many became CANCELED.
fn cancel_by_kind(
    rows: &mut [FileRow],
    job: &JobRow,
    file: u32,
    reason: Reason,
    beside: &mut Beside,
    jobs: &[JobRow],
) -> u32
    requires jobs_numbered { AreNumberedFrom (λ job. job.number) 1 jobs.now }
    requires beside { IsBeside jobs.now rows.old beside.old }
    requires together { StandTogether rows.old job.now }
    requires inside { IsInside rows.old file }
    ensures rows { rows.new ≡ after_file reason (Some job.now.kind) job.now.number file rows.old }
    ensures count { count_canceled rows.new ≡ count_canceled rows.old + result }
    ensures beside { IsBeside jobs.now rows.new beside.new }
    ensures limits { limits_of beside.new.parts ≡ limits_of beside.old.parts }
{
    match job.kind {
        JobKind::Plain => cancel_at(rows, file, reason, beside, jobs),
        JobKind::Replica | JobKind::Multihop => cancel_all_of(rows, job, reason, beside, jobs),
    }
}

/// Cancels the row of an id, and says how many rows became CANCELED.
fn cancel_at(
    rows: &mut [FileRow],
    file: u32,
    reason: Reason,
    beside: &mut Beside,
    jobs: &[JobRow],
) -> u32
    requires jobs_numbered { AreNumberedFrom (λ job. job.number) 1 jobs.now }
    requires beside { IsBeside jobs.now rows.old beside.old }
    requires inside { IsInside rows.old file }
    ensures rows { rows.new ≡ change_row file (cancelled_for reason) rows.old }
    ensures count { count_canceled rows.new ≡ count_canceled rows.old + result }
    ensures beside { IsBeside jobs.now rows.new beside.new }
    ensures limits { limits_of beside.new.parts ≡ limits_of beside.old.parts }
{
    let place = file as usize - 1;
    let was = counted(jobs, rows, place);
    let link = link_in_line(&beside.parts, jobs, rows, place);
    let canceled = cancel_place(rows, place, reason, &mut beside.parts, jobs);
    recount_left(
        &mut beside.counts,
        &beside.parts,
        jobs,
        rows,
        place,
        was,
        link,
    );
    u32::from(canceled)
}

/// Cancels each row of a job, looks at no other, and says how many became CANCELED.
fn cancel_all_of(
    rows: &mut [FileRow],
    job: &JobRow,
    reason: Reason,
    beside: &mut Beside,
    jobs: &[JobRow],
) -> u32
    requires jobs_numbered { AreNumberedFrom (λ job. job.number) 1 jobs.now }
    requires beside { IsBeside jobs.now rows.old beside.old }
    requires numbered { AreNumberedFrom (λ row. row.id) 1 rows.old }
    requires together { StandTogether rows.old job.now }
    ensures rows { rows.new ≡ map (cancelled_of reason job.now.number) rows.old }
    ensures count { count_canceled rows.new ≡ count_canceled rows.old + result }
    ensures beside { IsBeside jobs.now rows.new beside.new }
    ensures limits { limits_of beside.new.parts ≡ limits_of beside.old.parts }
{
    let from = job.first as usize - 1;
    let mut canceled = 0;
    for place in from..from + job.count as usize {
        if cancel_if_of(rows, place, job.number, reason, beside, jobs) {
            canceled += 1;
        }
    }
    canceled
}

/// Cancels the row at a place where it is of a job, and says whether it became CANCELED.
fn cancel_if_of(
    rows: &mut [FileRow],
    place: usize,
    job: u32,
    reason: Reason,
    beside: &mut Beside,
    jobs: &[JobRow],
) -> bool
    requires jobs_numbered { AreNumberedFrom (λ job. job.number) 1 jobs.now }
    requires numbered { AreNumberedFrom (λ row. row.id) 1 rows.old }
    requires beside { IsBeside jobs.now rows.old beside.old }
    requires inside { place < length rows.old }
    ensures rows { rows.new ≡ change_at place (cancelled_of reason job) rows.old }
    ensures count { count_canceled rows.new ≡ count_canceled rows.old + (if result then 1 else 0) }
    ensures beside { IsBeside jobs.now rows.new beside.new }
    ensures limits { limits_of beside.new.parts ≡ limits_of beside.old.parts }
{
    let was = counted(jobs, rows, place);
    let link = link_in_line(&beside.parts, jobs, rows, place);
    let canceled = cancel_place_of(rows, place, job, reason, &mut beside.parts, jobs);
    recount_left(
        &mut beside.counts,
        &beside.parts,
        jobs,
        rows,
        place,
        was,
        link,
    );
    canceled
}

/// Cancels the row at a place where it is of a job, whatever it counts for, and says whether it became CANCELED.
fn cancel_place_of(
    rows: &mut [FileRow],
    place: usize,
    job: u32,
    reason: Reason,
    parts: &mut Option<ClaimParts>,
    jobs: &[JobRow],
) -> bool
    requires jobs_numbered { AreNumberedFrom (λ job. job.number) 1 jobs.now }
    requires numbered { AreNumberedFrom (λ row. row.id) 1 rows.old }
    requires tied { AreTiedParts jobs.now rows.old parts.old }
    requires line { AreInLineParts rows.old parts.old }
    requires inside { place < length rows.old }
    ensures rows { rows.new ≡ change_at place (cancelled_of reason job) rows.old }
    ensures count { count_canceled rows.new ≡ count_canceled rows.old + (if result then 1 else 0) }
    ensures tied { AreTiedParts jobs.now rows.new parts.new }
    ensures line { AreInLineParts rows.new parts.new }
    ensures limits { limits_of parts.new ≡ limits_of parts.old }
{
    if rows[place].job == job {
        cancel_place(rows, place, reason, parts, jobs)
    } else {
        false
    }
}

/// Cancels the row at a place, and says whether it became CANCELED. One that runs keeps its slot and its destination; one that waits is taken out.
fn cancel_place(
    rows: &mut [FileRow],
    place: usize,
    reason: Reason,
    parts: &mut Option<ClaimParts>,
    jobs: &[JobRow],
) -> bool
    requires jobs_numbered { AreNumberedFrom (λ job. job.number) 1 jobs.now }
    requires numbered { AreNumberedFrom (λ row. row.id) 1 rows.old }
    requires tied { AreTiedParts jobs.now rows.old parts.old }
    requires line { AreInLineParts rows.old parts.old }
    requires inside { place < length rows.old }
    ensures rows { rows.new ≡ change_at place (cancelled_for reason) rows.old }
    ensures count { count_canceled rows.new ≡ count_canceled rows.old + (if result then 1 else 0) }
    ensures tied { AreTiedParts jobs.now rows.new parts.new }
    ensures line { AreInLineParts rows.new parts.new }
    ensures limits { limits_of parts.new ≡ limits_of parts.old }
{
    same_parts_stay_tied();
    if rows[place].state.is_active() {
        return cancel(&mut rows[place], reason);
    }
    leave(parts, jobs, rows, place);
    let canceled = cancel(&mut rows[place], reason);
    wait(parts, jobs, rows, place);
    canceled
}

/// Cancels a row, and says whether it became CANCELED, as it does exactly where it waits, for a worker or for its turn.
fn cancel(row: &mut FileRow, reason: Reason) -> bool
    ensures row { row.new ≡ cancelled_for reason row.old }
    ensures canceled { result ≡ is_pending row.old.state }
{
    match after_cancel(row) {
        CancelStep::Stays => false,
        CancelStep::Canceled => {
            row.state = FileState::Canceled;
            row.reason = reason;
            true
        }
        CancelStep::Asked => {
            row.cancel_asked = true;
            false
        }
    }
}
