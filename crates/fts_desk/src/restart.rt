//! Restart: each ACTIVE row is given up, and the settings are the new ones. It is never refused.
//! Under other settings `prepare_restart` makes what a claim looks at anew, over the rows as they will stand, and which endpoints are banned by their new
//! places, and `restart` puts both in. Under the settings in force all that waits stays where it is: `make_room` makes room for the files that are ACTIVE,
//! and `resume` moves these alone. Neither step takes memory.
ghost use Rattle.std.specs.Prelude.{◌≡◌, ℕ, ◌+◌, ◌≤◌, ◌<◌, true, if◌then◌else◌, length, map, slice_get, Ok, Some, IfOk, OnOk};
ghost use Rattle.fts_tables.specs.Tables.{AreNumberedFrom, AreWellFormed, is_active};
ghost use Rattle.fts_tables.specs.Step.{step, released};
ghost use Rattle.fts_tables.specs.declared.commands.Command.TheVariants.{Restart};
ghost use Rattle.fts_tables.specs.declared.limits.TheConstants.{MAX_ROWS};
ghost use Rattle.fts_tables.specs.declared.rows.FileRow.{FileRow};
ghost use Rattle.fts_tables.specs.SettingsData.{SettingsData};
ghost use Rattle.fts_desk.specs.Places.{change_at};
ghost use Rattle.fts_heads.specs.Dests.{dests_of};
ghost use Rattle.fts_claims.specs.InLine.{AreInLine};
ghost use Rattle.fts_claims.specs.Ties.{flags_of};
ghost use Rattle.fts_claims.specs.Changes.{AreTiedTo};
ghost use Rattle.fts_desk.specs.Kept.{tables_kept};
ghost use Rattle.fts_desk.specs.Parts.{limits_of, count_active, IsBeside, HasRoomToWait, HaveRisenRooms, HaveRoomToRelease};

use crate::counts::{counted, recount};
use crate::kept::{Beside, Kept};
use crate::parts::{leave, make_room_to_wait, wait};
use fts_claims::{ClaimParts, new_flags};
use fts_states::after_restart;
use fts_tables::{Answer, FileRow, JobRow, Memory, Reason, Settings};
use std::alloc::Global;

/// What a claim looks at once the run has begun, and the flags of the endpoints.
pub fn prepare_restart(
    alloc: Global,
    kept: &Kept,
    settings: &Settings,
) -> Result<(ClaimParts, Vec<bool>), Memory>
    requires formed { AreWellFormed (tables_kept kept.now) }
    requires few { length kept.now.rows.items ≤ MAX_ROWS }
    ensures tied { IfOk result (λ made. AreTiedTo kept.now.jobs.items (map released kept.now.rows.items) made.0) }
    ensures line { IfOk result (λ made. AreInLine (dests_of kept.now.rows.items) made.0) }
    ensures settings { IfOk result (λ made. made.0.slots.settings ≡ settings.now) }
    ensures flags { IfOk result (λ made. made.1.items ≡ flags_of settings.now kept.now.banned.items) }
{
    let flags = new_flags(alloc, settings, &kept.banned)?;
    let parts = ClaimParts::of_released(alloc, settings, &kept.jobs, &kept.rows)?;
    Ok((parts, flags))
}

/// Makes room for each ACTIVE file to wait again, in what a claim looks at now. The tables stay as they are.
pub fn make_room(kept: &mut Kept) -> Result<(), Memory>
    ensures tables { tables_kept kept.new ≡ tables_kept kept.old }
    ensures room { OnOk result (HaveRoomToRelease kept.new.rows.items kept.new.beside.parts) }
{
    make_room_to_release(&mut kept.beside.parts, &kept.rows)
}

/// Makes room for each of these rows that is ACTIVE to wait again, as if all of them came into its queue.
fn make_room_to_release(parts: &mut Option<ClaimParts>, rows: &[FileRow]) -> Result<(), Memory>
    requires few { length rows.now ≤ MAX_ROWS }
    ensures room { OnOk result (HaveRoomToRelease rows.now parts.new) }
    ensures risen { HaveRisenRooms parts.old parts.new }
{
    let count = count_active(rows);
    for row in rows {
        make_room_if_active(parts, row, count)?;
    }
    Ok(())
}

/// How many rows are ACTIVE.
fn count_active(rows: &[FileRow]) -> u32
    requires few { length rows.now ≤ MAX_ROWS }
    ensures count { result ≡ count_active rows.now }
{
    rows.iter().filter(|row| row.state.is_active()).count() as u32
}

/// Makes room for so many files in the queue of a row, where that is ACTIVE.
fn make_room_if_active(
    parts: &mut Option<ClaimParts>,
    row: &FileRow,
    count: u32,
) -> Result<(), Memory>
    ensures room { OnOk result (is_active row.now.state ≡ true → HasRoomToWait count row.now parts.new) }
    ensures risen { HaveRisenRooms parts.old parts.new }
{
    if row.state.is_active() {
        make_room_to_wait(parts, row, count)
    } else {
        Ok(())
    }
}

/// Begins a run with these settings, with what a claim looks at, and with the flags of the endpoints.
pub fn restart(
    kept: &mut Kept,
    now: u64,
    settings: Settings,
    parts: ClaimParts,
    flags: Vec<bool>,
) -> Answer
    requires formed { AreWellFormed (tables_kept kept.old) }
    requires tied { AreTiedTo kept.old.jobs.items (map released kept.old.rows.items) parts }
    requires line { AreInLine (dests_of kept.old.rows.items) parts }
    requires settings { parts.slots.settings ≡ settings }
    requires flags { flags.items ≡ flags_of settings kept.old.banned.items }
    ensures step { step (tables_kept kept.old) (Restart now settings) ≡ Ok (tables_kept kept.new, result) }
{
    kept.moment = kept.moment.max(now);
    kept.beside.parts = None;
    let released = release(&mut kept.rows, &mut kept.beside, &kept.jobs);
    kept.settings = Some(settings);
    kept.beside.parts = Some(parts);
    kept.flags = flags;
    Answer::Restarted { released }
}

/// Begins a run under the settings in force: the files that were ACTIVE come in among those that wait, and no other moves.
pub fn resume(kept: &mut Kept, now: u64) -> Answer
    requires formed { AreWellFormed (tables_kept kept.old) }
    requires room { HaveRoomToRelease kept.old.rows.items kept.old.beside.parts }
    ensures step { (settings : SettingsData) → kept.old.settings ≡ Some settings
        → step (tables_kept kept.old) (Restart now settings) ≡ Ok (tables_kept kept.new, result) }
{
    kept.moment = kept.moment.max(now);
    let released = release(&mut kept.rows, &mut kept.beside, &kept.jobs);
    Answer::Restarted { released }
}

/// Gives up each ACTIVE row, lets it come in among the files that wait, and counts them.
fn release(rows: &mut [FileRow], beside: &mut Beside, jobs: &[JobRow]) -> u32
    requires jobs_numbered { AreNumberedFrom (λ job. job.number) 1 jobs.now }
    requires numbered { AreNumberedFrom (λ row. row.id) 1 rows.old }
    requires beside { IsBeside jobs.now rows.old beside.old }
    requires room { HaveRoomToRelease rows.old beside.old.parts }
    ensures rows { rows.new ≡ map released rows.old }
    ensures count { result ≡ count_active rows.old }
    ensures beside { IsBeside jobs.now rows.new beside.new }
    ensures limits { limits_of beside.new.parts ≡ limits_of beside.old.parts }
{
    let mut count = 0;
    for place in 0..rows.len() {
        if release_at(rows, place, beside, jobs) {
            count += 1;
        }
    }
    count
}

/// Gives up the row at a place where it is ACTIVE, lets it come in among the files that wait, and says whether it was.
fn release_at(rows: &mut [FileRow], place: usize, beside: &mut Beside, jobs: &[JobRow]) -> bool
    requires jobs_numbered { AreNumberedFrom (λ job. job.number) 1 jobs.now }
    requires numbered { AreNumberedFrom (λ row. row.id) 1 rows.old }
    requires inside { place < length rows.old }
    requires beside { IsBeside jobs.now rows.old beside.old }
    requires room { (row : FileRow) → slice_get rows.old place ≡ Some row → is_active row.state ≡ true → HasRoomToWait 1 row beside.old.parts }
    ensures rows { rows.new ≡ change_at place released rows.old }
    ensures was { (row : FileRow) → slice_get rows.old place ≡ Some row → result ≡ is_active row.state }
    ensures beside { IsBeside jobs.now rows.new beside.new }
    ensures limits { limits_of beside.new.parts ≡ limits_of beside.old.parts }
    ensures room { (count : ℕ) (row : FileRow) → HasRoomToWait (count + (if result then 1 else 0)) row beside.old.parts
        → HasRoomToWait count row beside.new.parts }
{
    if rows[place].state.is_active() {
        release_active(rows, place, beside, jobs);
        true
    } else {
        false
    }
}

/// Gives up the row at a place, which is ACTIVE: it is left before it changes, and comes in again behind the change.
fn release_active(rows: &mut [FileRow], place: usize, beside: &mut Beside, jobs: &[JobRow])
    requires jobs_numbered { AreNumberedFrom (λ job. job.number) 1 jobs.now }
    requires numbered { AreNumberedFrom (λ row. row.id) 1 rows.old }
    requires inside { place < length rows.old }
    requires beside { IsBeside jobs.now rows.old beside.old }
    requires active { (row : FileRow) → slice_get rows.old place ≡ Some row → is_active row.state ≡ true }
    requires room { (row : FileRow) → slice_get rows.old place ≡ Some row → HasRoomToWait 1 row beside.old.parts }
    ensures rows { rows.new ≡ change_at place released rows.old }
    ensures beside { IsBeside jobs.now rows.new beside.new }
    ensures limits { limits_of beside.new.parts ≡ limits_of beside.old.parts }
    ensures room { (count : ℕ) (row : FileRow) → HasRoomToWait (count + 1) row beside.old.parts → HasRoomToWait count row beside.new.parts }
{
    let was = counted(jobs, rows, place);
    leave(&mut beside.parts, jobs, rows, place);
    release_row(&mut rows[place]);
    wait(&mut beside.parts, jobs, rows, place);
    recount(&mut beside.counts, jobs, rows, place, was);
}

/// Gives up a row that is ACTIVE.
fn release_row(row: &mut FileRow)
    requires active { is_active row.old.state ≡ true }
    ensures row { row.new ≡ released row.old }
{
    let state = after_restart(row);
    if state.is_canceled() {
        row.reason = Reason::Cancelled;
    }
    row.state = state;
}
