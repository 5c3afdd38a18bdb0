//! Each command by its own module: `decide` checks it and makes its room, `make_step` does it once it was decided.
//! `decide` leaves the tables as they are. What it decides holds while they stay so.
ghost use Rattle.std.specs.Prelude.{◌≡◌, ℕ, Bool, Ok, Some, IfOk, length};
ghost use Rattle.fts_tables.specs.SettingsData.{SettingsData};
ghost use Rattle.fts_tables.specs.Tables.{AreNumberedFrom, AreWellFormed};
ghost use Rattle.fts_tables.specs.Step.{Outcomes, step};
ghost use Rattle.fts_tables.specs.History.{IsAccepted};
ghost use Rattle.fts_tables.specs.declared.commands.Command.TheVariants.{Restart, Submit, Claim, Report, Ban};
ghost use Rattle.fts_desk.specs.Kept.{tables_kept, IsWithinLimits, HasRoom, HasRoomForFiles};
ghost use Rattle.fts_desk.specs.Bounds.{IsFileCount};
ghost use Rattle.fts_tables.specs.declared.rows.Outcome.{Outcome};
ghost use Rattle.fts_desk.specs.Parts.{HasRoomToRun};
ghost use Rattle.fts_desk.specs.Desk.{IsPlanned, IsDecided, IsSoundEnough};
ghost use Rattle.fts_desk.specs.declared.commands.Decided.TheVariants.{Nothing};
ghost use Rattle.fts_desk.specs.Prepared.{IsPrepared, IsChecked};

use crate::kept::Kept;
use crate::same_settings::are_in_force;
use crate::{DeskFault, bans, cancels, claims, expiries, priority, reports, restart, submit};
use fts_claims::ClaimParts;
use fts_tables::{Answer, Command, EndpointName, Memory, NewJob, Place, Refusal, Settings};
use std::alloc::Global;

/// What was decided for a command, beside the command itself.
#[derive(Drop)]
pub enum Decided {
    /// Nothing.
    Nothing,
    /// Of a claim the place of its row, and a copy of the row's destination.
    Claim { place: usize, dest: Place },
    /// Of a restart what a claim looks at from then on, and for each endpoint whether it is banned.
    Restart { parts: ClaimParts, flags: Vec<bool> },
    /// Of a restart that its settings are those in force.
    Resume,
}

/// Checks a command and makes room for it, or says why the machine refuses it.
pub fn decide(alloc: Global, kept: &mut Kept, command: &Command) -> Result<Decided, DeskFault>
    requires formed { AreWellFormed (tables_kept kept.old) }
    requires limits { IsWithinLimits kept.old }
    ensures tables { tables_kept kept.new ≡ tables_kept kept.old }
    ensures answer { IsPrepared (step (tables_kept kept.old) command.now) result }
    ensures planned { IfOk result (IsPlanned kept.new command.now) }
{
    match command {
        Command::Restart { settings, .. } => decide_restart(alloc, kept, settings),
        Command::Submit { job, .. } => make_room(kept, job),
        Command::CancelJob { job, .. } => ruled(cancels::check_job(kept, *job)),
        Command::CancelFile { job, file, .. } => ruled(cancels::check_file(kept, *job, *file)),
        Command::SetPriority { job, .. } => ruled(priority::check_priority(kept, *job)),
        Command::Claim { now, word } => decide_claim(alloc, kept, *now, *word),
        Command::Report { file, attempt, .. } => decide_report(kept, *file, *attempt),
        Command::Ban { storage, .. } => decide_ban(kept, storage),
        Command::Unban { storage, .. } => ruled(bans::check_unban(kept, storage)),
        Command::Expire { now } => ruled(expiries::check_expire(kept, *now)),
    }
}

/// Decides a restart: under the settings in force all that waits stays where it is.
fn decide_restart(alloc: Global, kept: &mut Kept, settings: &Settings) -> Result<Decided, DeskFault>
    requires formed { AreWellFormed (tables_kept kept.old) }
    requires limits { IsWithinLimits kept.old }
    ensures tables { tables_kept kept.new ≡ tables_kept kept.old }
    ensures answer { (now : ℕ) → IsPrepared (step (tables_kept kept.old) (Restart now settings.now)) result }
    ensures decided { IfOk result (λ decided. (now : ℕ) → IsDecided kept.new (Restart now settings.now) decided) }
{
    if are_in_force(settings, &kept.settings) {
        return decide_resume(kept);
    }
    match restart::prepare_restart(alloc, kept, settings) {
        Ok((parts, flags)) => Ok(Decided::Restart { parts, flags }),
        Err(Memory) => Err(DeskFault::Memory),
    }
}

/// Decides a restart under the settings in force.
fn decide_resume(kept: &mut Kept) -> Result<Decided, DeskFault>
    ensures tables { tables_kept kept.new ≡ tables_kept kept.old }
    ensures answer { (now : ℕ) (settings : SettingsData) → IsPrepared (step (tables_kept kept.old) (Restart now settings)) result }
    ensures decided { IfOk result (λ decided. (now : ℕ) (settings : SettingsData) → kept.old.settings ≡ Some settings
        → IsDecided kept.new (Restart now settings) decided) }
{
    match restart::make_room(kept) {
        Ok(()) => Ok(Decided::Resume),
        Err(Memory) => Err(DeskFault::Memory),
    }
}

/// Decides a claim.
fn decide_claim(alloc: Global, kept: &mut Kept, now: u64, word: u64) -> Result<Decided, DeskFault>
    requires formed { AreWellFormed (tables_kept kept.old) }
    ensures tables { tables_kept kept.new ≡ tables_kept kept.old }
    ensures answer { IsPrepared (step (tables_kept kept.old) (Claim now word)) result }
    ensures decided { IfOk result (IsDecided kept.new (Claim now word)) }
    ensures room { IfOk result (λ decided. HasRoomToRun kept.new.beside.parts) }
{
    let (place, dest) = claims::find_claim(alloc, kept, now, word)?;
    Ok(Decided::Claim { place, dest })
}

/// Checks a report, and makes room for it.
fn decide_report(kept: &mut Kept, file: u32, attempt: u32) -> Result<Decided, DeskFault>
    requires formed { AreWellFormed (tables_kept kept.old) }
    ensures tables { tables_kept kept.new ≡ tables_kept kept.old }
    ensures answer { (now : ℕ) (outcome : Outcome) → IsPrepared (step (tables_kept kept.old) (Report now file attempt outcome)) result }
    ensures room { IfOk result (λ decided. (now : ℕ) (outcome : Outcome) → HasRoom kept.new (Report now file attempt outcome)) }
    ensures nothing { IfOk result (λ decided. decided ≡ Nothing) }
{
    if let Err(refusal) = reports::check_report(kept, file, attempt) {
        return Err(DeskFault::Rule(refusal));
    }
    match reports::make_room(kept, file) {
        Ok(()) => Ok(Decided::Nothing),
        Err(Memory) => Err(DeskFault::Memory),
    }
}

/// Checks a ban, and makes room for its storage.
fn decide_ban(kept: &mut Kept, storage: &EndpointName) -> Result<Decided, DeskFault>
    ensures tables { tables_kept kept.new ≡ tables_kept kept.old }
    ensures answer { (now : ℕ) (cancel : Bool) → IsPrepared (step (tables_kept kept.old) (Ban now storage.now cancel)) result }
    ensures room { IfOk result (λ decided. (now : ℕ) (cancel : Bool) → HasRoom kept.new (Ban now storage.now cancel)) }
{
    if let Err(refusal) = bans::check_ban(kept, storage) {
        return Err(DeskFault::Rule(refusal));
    }
    match bans::make_room(kept) {
        Ok(()) => Ok(Decided::Nothing),
        Err(Memory) => Err(DeskFault::Memory),
    }
}

/// A check's answer as that of a preparation for which nothing is decided.
fn ruled(checked: Result<(), Refusal>) -> Result<Decided, DeskFault>
    ensures answer { (outcome : Outcomes) → IsChecked outcome checked → IsPrepared outcome result }
{
    match checked {
        Ok(()) => Ok(Decided::Nothing),
        Err(refusal) => Err(DeskFault::Rule(refusal)),
    }
}

/// Makes room for a new job, whose type says how many files it may have.
fn make_room(kept: &mut Kept, job: &NewJob) -> Result<Decided, DeskFault>
    requires numbered { AreNumberedFrom (λ job. job.number) 1 kept.old.jobs.items }
    requires limits { IsWithinLimits kept.old }
    ensures tables { tables_kept kept.new ≡ tables_kept kept.old }
    ensures answer { (now : ℕ) → IsPrepared (step (tables_kept kept.old) (Submit now job.now)) result }
    ensures room { IfOk result (λ place. HasRoomForFiles kept.new job.now.queue_hours job.now.files) }
    ensures files { IfOk result (λ place. IsFileCount (length job.now.files)) }
{
    let _priority = job.priority;
    match submit::make_room(kept, job) {
        Ok(()) => Ok(Decided::Nothing),
        Err(fault) => Err(fault),
    }
}

/// Does a command that was decided, as the machine does it.
pub fn make_step(kept: &mut Kept, decided: Decided, command: Command) -> Answer
    requires sound { IsSoundEnough (tables_kept kept.old) }
    requires planned { IsPlanned kept.old command decided }
    requires accepted { IsAccepted (step (tables_kept kept.old) command) }
    ensures step { step (tables_kept kept.old) command ≡ Ok (tables_kept kept.new, result) }
{
    match command {
        Command::Restart { now, settings } => match decided {
            Decided::Restart { parts, flags } => restart::restart(
                kept, now, settings, parts, flags,
            ),
            Decided::Resume => restart::resume(kept, now),
            Decided::Nothing | Decided::Claim { .. } => unreachable!(),
        },
        Command::Submit { now, job } => submit::submit(kept, now, job),
        Command::CancelJob { now, job } => cancels::cancel_job(kept, now, job),
        Command::CancelFile { now, job, file } => cancels::cancel_file(kept, now, job, file),
        Command::SetPriority { now, job, priority } => priority::set_priority(
            kept, now, job, priority,
        ),
        Command::Claim { now, word: _ } => match decided {
            Decided::Claim { place, dest } => claims::claim(kept, now, place, dest),
            Decided::Nothing | Decided::Restart { .. } | Decided::Resume => unreachable!(),
        },
        Command::Report {
            now,
            file,
            attempt,
            outcome,
        } => reports::report(kept, now, file, attempt, outcome),
        Command::Ban {
            now,
            storage,
            cancel,
        } => bans::ban(kept, now, storage, cancel),
        Command::Unban { now, storage } => bans::unban(kept, now, storage),
        Command::Expire { now } => expiries::expire(kept, now),
    }
}
