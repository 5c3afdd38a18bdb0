//! Claim: a worker takes a file to copy. `find_claim` says which row that is, or that the machine refuses, and copies its destination; `claim`
//! makes it ACTIVE. Idle is the only refusal. `claim` takes no memory and can't fail.
ghost use Rattle.std.specs.Prelude.{◌≡◌, ◌+◌, ◌-◌, ◌<◌, ℕ, List, false, max, length, slice_get, option_map, Ok, Some, IfOk, IfSome, OnOk};
ghost use Rattle.fts_tables.specs.SettingsData.{IsSettings};
ghost use Rattle.fts_tables.specs.Tables.{AreNumberedFrom, AreWellFormed, is_active};
ghost use Rattle.fts_tables.specs.Choice.{pick};
ghost use Rattle.fts_tables.specs.Moves.{claimed};
ghost use Rattle.fts_tables.specs.Step.{step};
ghost use Rattle.fts_tables.specs.declared.commands.Command.TheVariants.{Claim};
ghost use Rattle.fts_tables.specs.declared.commands.Answer.TheVariants.{Claimed};
ghost use Rattle.fts_tables.specs.declared.rows.FileRow.{FileRow};
ghost use Rattle.fts_tables.specs.declared.rows.JobRow.{JobRow};
ghost use Rattle.fts_tables.specs.declared.limits.TheConstants.{MAX_COMMANDS};
ghost use Rattle.fts_heads.specs.Dests.{dests_of};
ghost use Rattle.fts_claims.specs.InLine.{AreInLine};
ghost use Rattle.fts_claims.specs.Ties.{flags_of};
ghost use Rattle.fts_claims.specs.Changes.{AreTiedTo};
ghost use Rattle.fts_desk.specs.Kept.{tables_kept};
ghost use Rattle.fts_desk.specs.Parts.{limits_of, flags_in, AreTiedParts, AreInLineParts, HasRoomToRun, MayRunIn};
ghost use Rattle.fts_desk.specs.Prepared.{IsPrepared};

use crate::DeskFault;
use crate::counts::{counted, recount};
use crate::kept::Kept;
use crate::parts::{leave, start};
use fts_claims::{
    ClaimParts, ClaimView, eligible_rows_may_run, pick_waiter, tied_rows_may_be_claimed,
};
use fts_tables::laws::{picked_rows_are_eligible, picked_rows_stand};
use fts_tables::{Answer, FileRow, FileState, JobRow, Memory, Place, Refusal, Settings};
use std::alloc::Global;

/// The file that a claim takes now, over what stands beside these rows, where these flags are of the banned storages.
fn pick_file(
    parts: &mut ClaimParts,
    settings: &Settings,
    jobs: &[JobRow],
    rows: &[FileRow],
    flags: &[bool],
    moment: u64,
    word: u64,
) -> Option<u32>
    requires numbered { AreNumberedFrom (λ row. row.id) 1 rows.now }
    requires settings { parts.old.slots.settings ≡ settings.now }
    requires tied { AreTiedTo jobs.now rows.now parts.old }
    requires line { AreInLine (dests_of rows.now) parts.old }
    ensures tied { AreTiedTo jobs.now rows.now parts.new }
    ensures line { AreInLine (dests_of rows.now) parts.new }
    ensures settings { parts.new.slots.settings ≡ settings.now }
    ensures file { (banned : List (List ℕ)) → flags.now ≡ flags_of settings.now banned → option_map (λ row. row.id)
        (pick (record { jobs = jobs.now; rows = rows.now; moment = 0; settings = Some settings.now; banned = banned }) moment word) ≡ result }
{
    tied_rows_may_be_claimed();
    parts.line.ripen(moment);
    let view = ClaimView {
        line: &parts.line,
        slots: &parts.slots,
        busy: &parts.busy,
        rows,
        jobs,
        settings,
        flags,
    };
    pick_waiter(&view, word)
}

/// The file that a claim takes now, over what stands beside these rows, where these flags are of the banned storages. None exactly where no row may be
/// claimed; without settings none may.
fn find_file(
    parts: &mut Option<ClaimParts>,
    settings: &Option<Settings>,
    jobs: &[JobRow],
    rows: &[FileRow],
    flags: &[bool],
    moment: u64,
    word: u64,
) -> Option<u32>
    requires numbered { AreNumberedFrom (λ row. row.id) 1 rows.now }
    requires settings { limits_of parts.old ≡ settings.now }
    requires tied { AreTiedParts jobs.now rows.now parts.old }
    requires line { AreInLineParts rows.now parts.old }
    ensures tied { AreTiedParts jobs.now rows.now parts.new }
    ensures line { AreInLineParts rows.now parts.new }
    ensures settings { limits_of parts.new ≡ settings.now }
    ensures file { (banned : List (List ℕ)) → flags.now ≡ flags_in settings.now banned → option_map (λ row. row.id)
        (pick (record { jobs = jobs.now; rows = rows.now; moment = 0; settings = settings.now; banned = banned }) moment word) ≡ result }
{
    match settings {
        Some(settings) => match parts {
            Some(parts) => pick_file(parts, settings, jobs, rows, flags, moment, word),
            None => None,
        },
        None => None,
    }
}

/// Room for one destination more among the busy ones.
fn make_room_to_run(parts: &mut Option<ClaimParts>) -> Result<(), Memory>
    ensures tied { (jobs : List JobRow) (rows : List FileRow) → AreTiedParts jobs rows parts.old → AreTiedParts jobs rows parts.new }
    ensures line { (rows : List FileRow) → AreInLineParts rows parts.old → AreInLineParts rows parts.new }
    ensures settings { limits_of parts.new ≡ limits_of parts.old }
    ensures room { OnOk result (HasRoomToRun parts.new) }
{
    match parts {
        Some(parts) => parts.busy.make_room(1),
        None => Ok(()),
    }
}

/// A copy of a row's destination, and room for it among the busy ones.
fn copy_dest(alloc: Global, parts: &mut Option<ClaimParts>, row: &FileRow) -> Result<Place, Memory>
    ensures tied { (jobs : List JobRow) (rows : List FileRow) → AreTiedParts jobs rows parts.old → AreTiedParts jobs rows parts.new }
    ensures line { (rows : List FileRow) → AreInLineParts rows parts.old → AreInLineParts rows parts.new }
    ensures settings { limits_of parts.new ≡ limits_of parts.old }
    ensures room { OnOk result (HasRoomToRun parts.new) }
    ensures dest { IfOk result (λ dest. row.now.dest ≡ dest) }
{
    make_room_to_run(parts)?;
    row.dest.copy(alloc)
}

/// The place of the row that a claim takes now, and a copy of its destination, for which there is room among the busy ones.
/// Idle exactly where no row may be claimed; there is none without settings.
pub fn find_claim(
    alloc: Global,
    kept: &mut Kept,
    now: u64,
    word: u64,
) -> Result<(usize, Place), DeskFault>
    requires formed { AreWellFormed (tables_kept kept.old) }
    ensures tables { tables_kept kept.new ≡ tables_kept kept.old }
    ensures answer { IsPrepared (step (tables_kept kept.old) (Claim now word)) result }
    ensures picked { IfOk result (λ found. (found.0 < length kept.old.rows.items)
        × (pick (tables_kept kept.old) (max now kept.old.moment) word ≡ slice_get kept.old.rows.items found.0)) }
    ensures dest { IfOk result (λ found. (row : FileRow) → slice_get kept.old.rows.items found.0 ≡ Some row → row.dest ≡ found.1) }
    ensures room { IfOk result (λ found. HasRoomToRun kept.new.beside.parts) }
{
    picked_rows_stand();
    let moment = now.max(kept.moment);
    let found = find_file(
        &mut kept.beside.parts,
        &kept.settings,
        &kept.jobs,
        &kept.rows,
        &kept.flags,
        moment,
        word,
    );
    let place = match found {
        Some(file) => file as usize - 1,
        None => return Err(DeskFault::Rule(Refusal::Idle)),
    };
    match copy_dest(alloc, &mut kept.beside.parts, &kept.rows[place]) {
        Ok(dest) => Ok((place, dest)),
        Err(Memory) => Err(DeskFault::Memory),
    }
}

/// A row becomes ACTIVE, for one attempt more.
fn claim_row(row: &mut FileRow) -> Answer
    requires attempts { row.old.attempt < MAX_COMMANDS }
    ensures row { row.new ≡ claimed row.old }
    ensures answer { result ≡ Claimed row.old.id (row.old.attempt + 1) }
{
    row.state = FileState::Active;
    row.attempt += 1;
    Answer::Claimed {
        file: row.id,
        attempt: row.attempt,
    }
}

/// Settings keep their rules, where there are any.
fn settings_keep_their_rules(settings: &Option<Settings>)
    ensures rules { IfSome settings.now IsSettings }
{
    match settings {
        Some(settings) => {
            let _workers = settings.workers;
        }
        None => {}
    }
}

/// A row that is picked doesn't run yet, and may.
fn picked_rows_may_run(kept: &Kept)
    requires formed { AreWellFormed (tables_kept kept.now) }
    requires room { HasRoomToRun kept.now.beside.parts }
    ensures idle { (now word : ℕ) (row : FileRow) → pick (tables_kept kept.now) now word ≡ Some row → is_active row.state ≡ false }
    ensures may { (now word place : ℕ) (row : FileRow) → pick (tables_kept kept.now) now word ≡ Some row
        → slice_get kept.now.rows.items place ≡ Some row → MayRunIn row kept.now.beside.parts }
{
    picked_rows_are_eligible();
    eligible_rows_may_run();
    settings_keep_their_rules(&kept.settings);
}

/// The row at a place that was picked becomes ACTIVE, for one attempt more.
pub fn claim(kept: &mut Kept, now: u64, place: usize, dest: Place) -> Answer
    requires formed { AreWellFormed (tables_kept kept.old) }
    requires place { place < length kept.old.rows.items }
    requires attempts { IfSome (slice_get kept.old.rows.items place) (λ row. row.attempt < MAX_COMMANDS) }
    requires dest { (row : FileRow) → slice_get kept.old.rows.items place ≡ Some row → row.dest ≡ dest }
    requires room { HasRoomToRun kept.old.beside.parts }
    requires picked { (word : ℕ) × (pick (tables_kept kept.old) (max now kept.old.moment) word ≡ slice_get kept.old.rows.items place) }
    ensures step { (word : ℕ) → pick (tables_kept kept.old) (max now kept.old.moment) word ≡ slice_get kept.old.rows.items place
        → step (tables_kept kept.old) (Claim now word) ≡ Ok (tables_kept kept.new, result) }
{
    picked_rows_may_run(kept);
    kept.moment = now.max(kept.moment);
    let was = counted(&kept.jobs, &kept.rows, place);
    leave(&mut kept.beside.parts, &kept.jobs, &kept.rows, place);
    let answer = claim_row(&mut kept.rows[place]);
    start(&mut kept.beside.parts, &kept.jobs, &kept.rows, place, dest);
    recount(&mut kept.beside.counts, &kept.jobs, &kept.rows, place, was);
    answer
}
