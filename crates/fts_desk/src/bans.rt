//! Bans: a storage takes part in no claim from now on, or takes part again. A ban may cancel the files that wait at the storage; those that run go on.
//! `check_ban` and `check_unban` answer as the machine's step does, `make_room` makes room for one name more, and `ban` and `unban` take no memory.
//! The flags are filled again behind each change of the names, so that a claim asks for no name.
//! A ban that cancels walks over all rows, and nothing else does but a restart.
ghost use Rattle.std.specs.Prelude.{◌≡◌, ◌+◌, ◌<◌, ◌≤◌, ℕ, Bool, List, if◌then◌else◌, is_some, length, slice_get, vec_capacity, Ok, Some, OnOk};
ghost use Rattle.fts_tables.specs.Tables.{AreWellFormed};
ghost use Rattle.fts_tables.specs.Limits.{endpoint_at, is_banned};
ghost use Rattle.fts_tables.specs.Waits.{waits_at, rows_cancelled};
ghost use Rattle.fts_tables.specs.Step.{step, with_ban, without_ban};
ghost use Rattle.fts_tables.specs.History.{IsAccepted};
ghost use Rattle.fts_tables.specs.declared.commands.Command.TheVariants.{Ban, Unban};
ghost use Rattle.fts_tables.specs.declared.rows.FileRow.{FileRow};
ghost use Rattle.fts_tables.specs.declared.rows.Reason.TheVariants.{Cancelled};
ghost use Rattle.fts_desk.specs.Cancels.{gone_with, count_canceled};
ghost use Rattle.fts_desk.specs.Kept.{tables_kept};
ghost use Rattle.fts_desk.specs.Parts.{limits_of, flags_in, IsBeside};
ghost use Rattle.fts_desk.specs.Standing.{AreFormed};
ghost use Rattle.fts_desk.specs.Prepared.{IsChecked};

use crate::cancels::cancel_with_job;
use crate::kept::{Beside, Kept};
use fts_claims::fill_flags;
use fts_slots::endpoint_at;
use fts_tables::laws::overdue_and_banned_rows_go;
use fts_tables::{Answer, EndpointName, FileRow, JobRow, Memory, Reason, Refusal, Settings};

/// Whether the settings in force list a storage.
fn is_known(settings: &Option<Settings>, storage: &str) -> bool
    ensures answer { result ≡ is_some (endpoint_at settings.now storage.now) }
{
    match settings {
        Some(settings) => endpoint_at(settings, storage).is_some(),
        None => false,
    }
}

/// Whether a storage is banned.
fn is_banned(banned: &[EndpointName], storage: &str) -> bool
    ensures answer { result ≡ is_banned banned.now storage.now }
{
    banned.iter().any(|other| storage == other.as_str())
}

/// Whether a ban is accepted: `NoStorage` exactly where the settings don't list the storage.
pub fn check_ban(kept: &Kept, storage: &EndpointName) -> Result<(), Refusal>
    ensures answer { (now : ℕ) (cancel : Bool) → IsChecked (step (tables_kept kept.now) (Ban now storage.now cancel)) result }
{
    if is_known(&kept.settings, storage.as_str()) {
        Ok(())
    } else {
        Err(Refusal::NoStorage)
    }
}

/// Whether the end of a ban is accepted: `NotBanned` exactly where the storage isn't banned.
pub fn check_unban(kept: &Kept, storage: &EndpointName) -> Result<(), Refusal>
    ensures answer { (now : ℕ) → IsChecked (step (tables_kept kept.now) (Unban now storage.now)) result }
{
    if is_banned(&kept.banned, storage.as_str()) {
        Ok(())
    } else {
        Err(Refusal::NotBanned)
    }
}

/// Makes room for one banned storage more.
pub fn make_room(kept: &mut Kept) -> Result<(), Memory>
    ensures tables { tables_kept kept.new ≡ tables_kept kept.old }
    ensures room { OnOk result (length kept.new.banned.items + 1 ≤ vec_capacity kept.new.banned) }
{
    match kept.banned.reserve(1) {
        Ok(()) => Ok(()),
        Err(_) => Err(Memory),
    }
}

/// Bans a storage, and cancels the files that wait there, where that was asked. It takes no memory, and answers how many rows became CANCELED.
pub fn ban(kept: &mut Kept, now: u64, storage: EndpointName, cancel: bool) -> Answer
    requires formed { AreWellFormed (tables_kept kept.old) }
    requires room { length kept.old.banned.items + 1 ≤ vec_capacity kept.old.banned }
    requires accepted { IsAccepted (step (tables_kept kept.old) (Ban now storage cancel)) }
    ensures step { step (tables_kept kept.old) (Ban now storage cancel) ≡ Ok (tables_kept kept.new, result) }
{
    overdue_and_banned_rows_go();
    kept.moment = now.max(kept.moment);
    let cancelled = cancel_where_asked(
        &mut kept.rows,
        cancel,
        storage.as_str(),
        &mut kept.beside,
        &kept.jobs,
    );
    add_ban(&mut kept.banned, storage);
    refill(&mut kept.flags, &kept.settings, &kept.banned);
    Answer::Banned { cancelled }
}

/// Ends the ban of a storage. It takes no memory.
pub fn unban(kept: &mut Kept, now: u64, storage: EndpointName) -> Answer
    requires accepted { IsAccepted (step (tables_kept kept.old) (Unban now storage)) }
    ensures step { step (tables_kept kept.old) (Unban now storage) ≡ Ok (tables_kept kept.new, result) }
{
    kept.moment = now.max(kept.moment);
    remove_ban(&mut kept.banned, storage.as_str());
    refill(&mut kept.flags, &kept.settings, &kept.banned);
    Answer::Unbanned
}

/// Adds a storage to those that are banned, unless it is among them.
fn add_ban(banned: &mut Vec<EndpointName>, storage: EndpointName)
    requires room { length banned.old.items + 1 ≤ vec_capacity banned.old }
    ensures banned { banned.new.items ≡ with_ban banned.old.items storage }
{
    if !is_banned(banned, storage.as_str()) {
        banned.push_reserved(storage);
    }
}

/// Takes a storage from those that are banned.
fn remove_ban(banned: &mut Vec<EndpointName>, storage: &str)
    ensures banned { banned.new.items ≡ without_ban banned.old.items storage.now }
{
    banned.retain(|other| storage != other.as_str());
}

/// Fills the flags of the endpoints again, once other storages are banned.
fn refill(flags: &mut [bool], settings: &Option<Settings>, banned: &[EndpointName])
    requires places { (others : List (List ℕ)) × (flags.old ≡ flags_in settings.now others) }
    ensures flags { flags.new ≡ flags_in settings.now banned.now }
{
    match settings {
        Some(settings) => fill_flags(flags, settings, banned),
        None => {}
    }
}

/// Whether a row waits to be copied from a storage, or to it.
fn waits_at(storage: &str, row: &FileRow) -> bool
    ensures answer { result ≡ waits_at storage.now row.now }
{
    row.state.is_submitted()
        && (row.source.endpoint.as_str() == storage || row.dest.endpoint.as_str() == storage)
}

/// Cancels the files that wait at a storage where that is asked, and says how many rows became CANCELED.
fn cancel_where_asked(
    rows: &mut [FileRow],
    cancel: bool,
    storage: &str,
    beside: &mut Beside,
    jobs: &[JobRow],
) -> u32
    requires formed { AreFormed jobs.now rows.old }
    requires beside { IsBeside jobs.now rows.old beside.old }
    ensures rows { rows.new ≡ (if cancel then rows_cancelled Cancelled jobs.now (waits_at storage.now) rows.old else rows.old) }
    ensures count { count_canceled rows.new ≡ count_canceled rows.old + result }
    ensures beside { IsBeside jobs.now rows.new beside.new }
    ensures limits { limits_of beside.new.parts ≡ limits_of beside.old.parts }
{
    if cancel {
        cancel_waiting(rows, storage, beside, jobs)
    } else {
        0
    }
}

/// Cancels the files that wait at a storage, and says how many rows became CANCELED.
fn cancel_waiting(rows: &mut [FileRow], storage: &str, beside: &mut Beside, jobs: &[JobRow]) -> u32
    requires formed { AreFormed jobs.now rows.old }
    requires beside { IsBeside jobs.now rows.old beside.old }
    ensures rows { rows.new ≡ rows_cancelled Cancelled jobs.now (waits_at storage.now) rows.old }
    ensures count { count_canceled rows.new ≡ count_canceled rows.old + result }
    ensures beside { IsBeside jobs.now rows.new beside.new }
    ensures limits { limits_of beside.new.parts ≡ limits_of beside.old.parts }
{
    let mut cancelled = 0;
    for place in 0..rows.len() {
        cancelled += cancel_if_waiting(rows, place, storage, beside, jobs);
    }
    cancelled
}

/// Cancels the file at a place where it waits at a storage, and says how many rows became CANCELED.
fn cancel_if_waiting(
    rows: &mut [FileRow],
    place: usize,
    storage: &str,
    beside: &mut Beside,
    jobs: &[JobRow],
) -> u32
    requires formed { AreFormed jobs.now rows.old }
    requires beside { IsBeside jobs.now rows.old beside.old }
    requires inside { place < length rows.old }
    ensures rows { (row : FileRow) → slice_get rows.old place ≡ Some row
        → rows.new ≡ (if waits_at storage.now row then gone_with Cancelled jobs.now row rows.old else rows.old) }
    ensures count { count_canceled rows.new ≡ count_canceled rows.old + result }
    ensures beside { IsBeside jobs.now rows.new beside.new }
    ensures limits { limits_of beside.new.parts ≡ limits_of beside.old.parts }
{
    if waits_at(storage, &rows[place]) {
        cancel_with_job(rows, place, Reason::Cancelled, beside, jobs)
    } else {
        0
    }
}
