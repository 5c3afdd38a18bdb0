//! Another priority for a job that isn't settled.
ghost use Rattle.std.specs.Prelude.{◌≡◌, ℕ, ◌≤◌, length, map, Some, Ok};
ghost use Rattle.fts_tables.specs.Tables.{AreNumberedFrom, AreWellFormed, job_at};
ghost use Rattle.fts_tables.specs.Step.{step};
ghost use Rattle.fts_tables.specs.History.{IsAccepted};
ghost use Rattle.fts_tables.specs.declared.commands.Command.TheVariants.{SetPriority};
ghost use Rattle.fts_desk.specs.Kept.{tables_kept};
ghost use Rattle.fts_desk.specs.Parts.{limits_of, AreTiedParts, AreInLineParts};
ghost use Rattle.fts_desk.specs.Standing.{prioritized, StandTogether};
ghost use Rattle.fts_desk.specs.Prepared.{IsChecked};

use crate::cancels::is_settled_job;
use crate::kept::Kept;
use crate::lookups::{find_job, job_place, rows_of_job, rows_stand_together};
use fts_claims::ClaimParts;
use fts_index::laws::dues_of_other_jobs;
use fts_tables::{Answer, FileRow, JobRow, Refusal};

/// Whether another priority of a job is accepted, or why it is refused.
pub fn check_priority(kept: &Kept, job: u32) -> Result<(), Refusal>
    requires formed { AreWellFormed (tables_kept kept.now) }
    ensures answer { (now priority : ℕ) → IsChecked (step (tables_kept kept.now) (SetPriority now job priority)) result }
{
    rows_stand_together();
    match find_job(&kept.jobs, job) {
        None => Err(Refusal::NoJob),
        Some(job) => {
            if is_settled_job(rows_of_job(&kept.rows, job)) {
                Err(Refusal::Unchanged { job: job.number })
            } else {
                Ok(())
            }
        }
    }
}

/// Sets the priority of a job.
pub fn set_priority(kept: &mut Kept, now: u64, job: u32, priority: u32) -> Answer
    requires formed { AreWellFormed (tables_kept kept.old) }
    requires accepted { IsAccepted (step (tables_kept kept.old) (SetPriority now job priority)) }
    ensures step { step (tables_kept kept.old) (SetPriority now job priority) ≡ Ok (tables_kept kept.new, result) }
{
    rows_stand_together();
    dues_of_other_jobs();
    kept.moment = now.max(kept.moment);
    match job_place(&kept.jobs, job) {
        Some(place) => {
            let found = kept.jobs[place];
            prioritize_waiting(
                &mut kept.beside.parts,
                &kept.jobs,
                &kept.rows,
                &found,
                priority,
            );
        }
        None => unreachable!(),
    }
    prioritize(&mut kept.jobs, job, priority);
    Answer::PrioritySet { job }
}

/// Gives the files of a job that wait a priority. The jobs are those before the change; afterwards all is tied to the jobs with it.
fn prioritize_waiting(
    parts: &mut Option<ClaimParts>,
    jobs: &[JobRow],
    rows: &[FileRow],
    job: &JobRow,
    priority: u32,
)
    requires jobs_numbered { AreNumberedFrom (λ job. job.number) 1 jobs.now }
    requires rows_numbered { AreNumberedFrom (λ row. row.id) 1 rows.now }
    requires job { job_at jobs.now job.now.number ≡ Some job.now }
    requires together { StandTogether rows.now job.now }
    requires tied { AreTiedParts jobs.now rows.now parts.old }
    requires line { AreInLineParts rows.now parts.old }
    ensures line { AreInLineParts rows.now parts.new }
    ensures tied { AreTiedParts (map (prioritized job.now.number priority) jobs.now) rows.now parts.new }
    ensures limits { limits_of parts.new ≡ limits_of parts.old }
{
    match parts {
        Some(parts) => parts.prioritize(jobs, rows, job, priority),
        None => {}
    }
}

/// Gives the job of a number a priority.
fn prioritize(jobs: &mut [JobRow], number: u32, priority: u32)
    requires numbered { AreNumberedFrom (λ job. job.number) 1 jobs.old }
    requires first { 1 ≤ number }
    requires last { number ≤ length jobs.old }
    ensures jobs { jobs.new ≡ map (prioritized number priority) jobs.old }
{
    jobs[number as usize - 1].priority = priority;
}
