//! Expiries: the files that have waited longer than their jobs allow are cancelled, each with its whole job where that goes as a whole.
//! `check_expire` answers as the machine's step does, by the first moment of the index alone. `expire` takes the files one by one from its front, while
//! their moments have come: it looks at no other row, and takes no memory.
ghost use Rattle.std.specs.Prelude.{◌≡◌, ◌+◌, ◌<◌, ℕ, length, Ok, Some, IfSome, slice_get};
ghost use Rattle.std.specs.List.{list_any};
ghost use Rattle.fts_tables.specs.Tables.{AreWellFormed};
ghost use Rattle.fts_tables.specs.Waits.{is_overdue, rows_cancelled};
ghost use Rattle.fts_tables.specs.Step.{step};
ghost use Rattle.fts_tables.specs.History.{IsAccepted};
ghost use Rattle.fts_tables.specs.declared.commands.Command.TheVariants.{Expire};
ghost use Rattle.fts_tables.specs.declared.rows.Reason.TheVariants.{Expired};
ghost use Rattle.fts_desk.specs.Cancels.{count_canceled};
ghost use Rattle.fts_desk.specs.Counted.{first_due_file};
ghost use Rattle.fts_desk.specs.Kept.{tables_kept};
ghost use Rattle.fts_desk.specs.Parts.{limits_of, IsBeside};
ghost use Rattle.fts_desk.specs.Standing.{AreFormed};
ghost use Rattle.fts_desk.specs.Prepared.{IsChecked};

use crate::cancels::cancel_with_job;
use crate::kept::{Beside, Kept};
use fts_index::Dues;
use fts_index::laws::dues_tell_the_overdue;
use fts_tables::laws::overdue_and_banned_rows_go;
use fts_tables::{Answer, FileRow, JobRow, Reason, Refusal};

/// Whether an expiry is accepted: `Idle` exactly where no file is overdue.
pub fn check_expire(kept: &Kept, now: u64) -> Result<(), Refusal>
    ensures answer { IsChecked (step (tables_kept kept.now) (Expire now)) result }
{
    dues_tell_the_overdue();
    if kept.beside.counts.dues.is_due(now.max(kept.moment)) {
        Ok(())
    } else {
        Err(Refusal::Idle)
    }
}

/// Cancels the files that are overdue. It takes no memory, and answers how many rows became CANCELED.
pub fn expire(kept: &mut Kept, now: u64) -> Answer
    requires formed { AreWellFormed (tables_kept kept.old) }
    requires accepted { IsAccepted (step (tables_kept kept.old) (Expire now)) }
    ensures step { step (tables_kept kept.old) (Expire now) ≡ Ok (tables_kept kept.new, result) }
{
    overdue_and_banned_rows_go();
    kept.moment = now.max(kept.moment);
    let cancelled = cancel_overdue(&mut kept.rows, kept.moment, &mut kept.beside, &kept.jobs);
    Answer::Expired { cancelled }
}

/// The first file of an index whose moment has come.
fn first_due(dues: &Dues, now: u64) -> Option<u32>
    ensures first { result ≡ first_due_file now dues.now.dues }
{
    let first = dues.first()?;
    if first.moment <= now {
        Some(first.file)
    } else {
        None
    }
}

/// Cancels the files that are overdue at a moment, and says how many rows became CANCELED.
fn cancel_overdue(rows: &mut [FileRow], now: u64, beside: &mut Beside, jobs: &[JobRow]) -> u32
    requires formed { AreFormed jobs.now rows.old }
    requires beside { IsBeside jobs.now rows.old beside.old }
    ensures rows { rows.new ≡ rows_cancelled Expired jobs.now (is_overdue jobs.now now) rows.old }
    ensures count { count_canceled rows.new ≡ count_canceled rows.old + result }
    ensures beside { IsBeside jobs.now rows.new beside.new }
    ensures limits { limits_of beside.new.parts ≡ limits_of beside.old.parts }
{
    dues_tell_the_overdue();
    let mut cancelled = 0;
    while let Some(file) = first_due(&beside.counts.dues, now) {
        cancelled += cancel_with_job(rows, file as usize - 1, Reason::Expired, beside, jobs);
    }
    cancelled
}
