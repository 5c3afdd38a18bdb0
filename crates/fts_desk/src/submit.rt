//! Submit: a job of any kind gets the next number, its given id or the standard one, and a row for each of its files.
//! All rows of a plain job wait, of a multihop job the first, of a replica job the first in order or the one of the least load.
//! Loads count the rows that were there before the submission.
//! `make_room` refuses an id that a job has and what would pass the limits, and takes all the memory that `submit` needs. The new rows count
//! among the loads and the moments once they all stand (`come_in`), and the job then stands as they say.
ghost use Rattle.std.specs.Prelude.{◌≡◌, ℕ, ◌+◌, ◌<◌, ◌≤◌, ◌++◌, List, length, map, true, vec_capacity, option_and_then, unwrap_or, Ok, OnOk};
ghost use Rattle.fts_tables.specs.JobData.{JobData};
ghost use Rattle.fts_tables.specs.Tables.{AreNumberedFrom, AreWellFormed, number_of_id};
ghost use Rattle.fts_tables.specs.Moves.{new_row, new_rows, standard_id, rows_of_kind, submit_if_not_used, submit_chosen};
ghost use Rattle.fts_tables.specs.Choice.{next_alternative};
ghost use Rattle.fts_tables.specs.Step.{step};
ghost use Rattle.fts_tables.specs.History.{IsAccepted};
ghost use Rattle.fts_tables.specs.declared.commands.Command.TheVariants.{Submit};
ghost use Rattle.fts_tables.specs.declared.limits.TheConstants.{MAX_FILES, MAX_ROWS};
ghost use Rattle.fts_index.specs.Links.{Link};
ghost use Rattle.fts_tables.specs.declared.rows.FileRow.{FileRow};
ghost use Rattle.fts_tables.specs.declared.rows.JobRow.{JobRow};
ghost use Rattle.fts_desk.specs.Counted.{AreCountsOf, HasRoomForDues};
ghost use Rattle.fts_desk.specs.Kept.{tables_kept, IsWithinLimits, HasRoomForFiles, IsRoomFor};
ghost use Rattle.fts_desk.specs.Loaded.{AreLoadsOf, are_known, link_of_file};
ghost use Rattle.fts_desk.specs.Parts.{limits_of, IsBeside};
ghost use Rattle.fts_desk.specs.Prepared.{IsPrepared};
ghost use Rattle.fts_desk.specs.Submitted.{HasComeIn};

use crate::DeskFault;
use crate::counts::{count_new, progress_of_new};
use crate::find::seek_number;
use crate::kept::{Beside, Counts, Kept};
use crate::parts::{make_room_for_files, wait_from};
use crate::sources::next_source;
use crate::waking::wake_at;
use fts_claims::jobs_more_stay_tied;
use fts_index::Loads;
use fts_index::laws::{dues_of_new_rows, dues_of_other_jobs};
use fts_states::overdue_from;
use fts_tables::limits::{MAX_JOBS, MAX_ROWS};
use fts_tables::{
    Answer, FileRow, FileState, JobKind, JobRow, Memory, NewFile, NewJob, Reason, Refusal, Strategy,
};

/// The id 00000000-0000-4000-8000-000000000000, to which a job's number is added.
const STANDARD_IDS: u128 = 0x4000_8000_0000_0000_0000;

/// The id of the job with this number, where it was submitted without one.
pub fn standard_id(number: u32) -> u128
    ensures { result ≡ standard_id number }
{
    STANDARD_IDS + number as u128
}

/// Makes room for a job, or says that the machine refuses it: `Duplicate` for an id that a job has, then `JobsFull`, then `RowsFull`.
/// The tables stay as they are, also after want of memory.
pub fn make_room(kept: &mut Kept, job: &NewJob) -> Result<(), DeskFault>
    requires numbered { AreNumberedFrom (λ job. job.number) 1 kept.old.jobs.items }
    requires limits { IsWithinLimits kept.old }
    ensures tables { tables_kept kept.new ≡ tables_kept kept.old }
    ensures room { OnOk result (HasRoomForFiles kept.new job.now.queue_hours job.now.files) }
    ensures answer { (now : ℕ) → IsPrepared (step (tables_kept kept.old) (Submit now job.now)) result }
{
    match number_of_given(kept, job.id) {
        Some(number) => Err(DeskFault::Rule(Refusal::Duplicate { job: number })),
        None => make_room_for(kept, job.queue_hours, job.files.as_slice()),
    }
}

/// The least number of a job with the id that a new job was given, where it was given one.
fn number_of_given(kept: &mut Kept, id: Option<u128>) -> Option<u32>
    requires numbered { AreNumberedFrom (λ job. job.number) 1 kept.old.jobs.items }
    ensures number { result ≡ option_and_then (number_of_id kept.old.jobs.items) id }
    ensures same { kept.new ≡ kept.old }
{
    match id {
        Some(id) => seek_number(kept, id),
        None => None,
    }
}

/// Makes room for a job of these hours in the queue and these files, or says that the limits refuse it.
fn make_room_for(kept: &mut Kept, hours: u32, files: &[NewFile]) -> Result<(), DeskFault>
    requires { IsWithinLimits kept.old }
    ensures tables { tables_kept kept.new ≡ tables_kept kept.old }
    ensures room { OnOk result (HasRoomForFiles kept.new hours files.now) }
    ensures answer { IsRoomFor (length kept.old.jobs.items) (length kept.old.rows.items) (length files.now) result }
{
    if kept.jobs.len() >= MAX_JOBS {
        return Err(DeskFault::Rule(Refusal::JobsFull {
            jobs: kept.jobs.len() as u32,
        }));
    }
    if files.len() > MAX_ROWS - kept.rows.len() {
        return Err(DeskFault::Rule(Refusal::RowsFull {
            rows: kept.rows.len() as u32,
        }));
    }
    if kept.jobs.reserve(1).is_err() || kept.rows.reserve(files.len()).is_err() {
        return Err(DeskFault::Memory);
    }
    if kept.ids.make_room().is_err()
        || count_later(&mut kept.beside.counts, hours, files).is_err()
    {
        return Err(DeskFault::Memory);
    }
    match make_room_for_files(&mut kept.beside.parts, files) {
        Ok(()) => Ok(()),
        Err(Memory) => Err(DeskFault::Memory),
    }
}

/// Makes room for a job's files among the loads, for the job among those in each state, and for its files among the moments where it limits their hours.
/// What is counted stays.
fn count_later(counts: &mut Counts, hours: u32, files: &[NewFile]) -> Result<(), Memory>
    ensures counts { (jobs : List JobRow) (rows : List FileRow) → AreCountsOf jobs rows counts.old → AreCountsOf jobs rows counts.new }
    ensures known { OnOk result (are_known counts.new.loads (map link_of_file files.now) ≡ true) }
    ensures room { OnOk result (HasRoomForDues hours (length files.now) counts.new.dues) }
    ensures states { OnOk result (length counts.new.states.jobs < counts.new.states.room) }
{
    know_links(&mut counts.loads, files)?;
    counts.states.make_room()?;
    if hours == 0 {
        Ok(())
    } else {
        counts.dues.make_room(files.len())
    }
}

/// Makes room for the links of files among the loads. What is counted, and what there was room for, stays.
fn know_links(loads: &mut Loads, files: &[NewFile]) -> Result<(), Memory>
    ensures links { loads.new.links ≡ loads.old.links }
    ensures stay { (links : List Link) → are_known loads.old links ≡ true → are_known loads.new links ≡ true }
    ensures known { OnOk result (are_known loads.new (map link_of_file files.now) ≡ true) }
{
    for file in files {
        loads.make_room(&file.source.endpoint, &file.dest.endpoint)?;
    }
    Ok(())
}

/// Adds a job of any kind, for which there is room, at a moment in whole seconds, or at the last one where that is later.
/// It takes no memory and can't fail, and answers the job's number and id.
pub fn submit(kept: &mut Kept, now: u64, job: NewJob) -> Answer
    requires formed { AreWellFormed (tables_kept kept.old) }
    requires room { HasRoomForFiles kept.old job.queue_hours job.files }
    requires accepted { IsAccepted (step (tables_kept kept.old) (Submit now job)) }
    ensures step { step (tables_kept kept.old) (Submit now job) ≡ Ok (tables_kept kept.new, result) }
    ensures jobs { length kept.new.jobs.items ≡ length kept.old.jobs.items + 1 }
    ensures rows { length kept.new.rows.items ≡ length kept.old.rows.items + length job.files }
{
    kept.moment = kept.moment.max(now);
    let number = kept.jobs.len() as u32 + 1;
    let from = kept.rows.len();
    let NewJob {
        id,
        kind,
        strategy,
        priority,
        retry,
        delay,
        overwrite,
        queue_hours,
        files,
    } = job;
    let id = id_of_new(id, number);
    let files = files.into_vec();
    let row = JobRow {
        number,
        id,
        kind,
        priority,
        retry,
        delay,
        overwrite,
        strategy,
        queue_hours,
        submitted_at: kept.moment,
        first: from as u32 + 1,
        count: files.len() as u32,
    };
    add_rows_of_kind(&mut kept.rows, &row, files, &kept.beside.counts.loads);
    kept.ids.add(id);
    kept.jobs.push_reserved(row);
    come_in(&mut kept.beside, &kept.jobs, &kept.rows, from, &row);
    Answer::Submitted { job: number, id }
}

/// Lets the last job come in beside the others, with its rows, which are those from a place on.
fn come_in(beside: &mut Beside, jobs: &[JobRow], rows: &[FileRow], from: usize, job: &JobRow)
    requires added { HasComeIn jobs.now rows.now from job.now beside.old }
    ensures beside { IsBeside jobs.now rows.now beside.new }
    ensures limits { limits_of beside.new.parts ≡ limits_of beside.old.parts }
{
    jobs_more_stay_tied();
    dues_of_other_jobs();
    dues_of_new_rows();
    let added = &rows[from..];
    count_new(&mut beside.counts.loads, added);
    beside.counts.dues.add_rows(added, overdue_from(job));
    beside.counts.states.add(progress_of_new(added, job.kind));
    wait_from(&mut beside.parts, jobs, rows, from);
}

/// The id of a new job: the one that it was given, or the standard one.
fn id_of_new(given: Option<u128>, number: u32) -> u128
    ensures id { result ≡ unwrap_or given (standard_id number) }
{
    match given {
        Some(id) => id,
        None => standard_id(number),
    }
}

/// Adds the rows of a job by its kind, for which there is room.
fn add_rows_of_kind(rows: &mut Vec<FileRow>, job: &JobRow, files: Vec<NewFile>, loads: &Loads)
    requires loaded { AreLoadsOf rows.old.items loads.now }
    requires room { length rows.old.items + length files.items ≤ vec_capacity rows.old }
    requires few { length rows.old.items + length files.items ≤ MAX_ROWS }
    requires files { length files.items ≤ MAX_FILES }
    ensures rows { (new : JobData) → new.files ≡ files.items → new.strategy ≡ job.now.strategy
        → rows.new.items ≡ rows.old.items ++ rows_of_kind job.now.kind rows.old.items job.now.number (length rows.old.items + 1) new }
    ensures count { length rows.new.items ≡ length rows.old.items + length files.items }
{
    match job.kind {
        JobKind::Plain => add_rows(rows, job.number, FileState::Submitted, files),
        JobKind::Multihop => add_hops(rows, job.number, files),
        JobKind::Replica => add_sources(rows, job.number, job.strategy, files, loads),
    }
}

/// Adds the rows of a multihop job, of which the first waits.
fn add_hops(rows: &mut Vec<FileRow>, job: u32, files: Vec<NewFile>)
    requires room { length rows.old.items + length files.items ≤ vec_capacity rows.old }
    requires few { length rows.old.items + length files.items ≤ MAX_ROWS }
    ensures rows { rows.new.items ≡ rows.old.items
        ++ submit_if_not_used (length rows.old.items + 1) (new_rows job (length rows.old.items + 1) FileState.NotUsed files.items) }
{
    let first = rows.len();
    add_rows(rows, job, FileState::NotUsed, files);
    wake_at(rows, first);
}

/// Adds the rows of a replica job, of which the chosen one waits.
fn add_sources(
    rows: &mut Vec<FileRow>,
    job: u32,
    strategy: Strategy,
    files: Vec<NewFile>,
    loads: &Loads,
)
    requires loaded { AreLoadsOf rows.old.items loads.now }
    requires room { length rows.old.items + length files.items ≤ vec_capacity rows.old }
    requires few { length rows.old.items + length files.items ≤ MAX_ROWS }
    requires files { length files.items ≤ MAX_FILES }
    ensures rows { let added = new_rows job (length rows.old.items + 1) FileState.NotUsed files.items in
        rows.new.items ≡ rows.old.items ++ submit_chosen (next_alternative strategy rows.old.items added) added }
{
    let first = rows.len();
    add_rows(rows, job, FileState::NotUsed, files);
    match next_source(&rows[first..], strategy, loads) {
        Some(place) => wake_at(rows, first + place),
        None => {}
    }
}

/// Adds the rows of files, all in one state, for which there is room.
fn add_rows(rows: &mut Vec<FileRow>, job: u32, state: FileState, files: Vec<NewFile>)
    requires room { length rows.old.items + length files.items ≤ vec_capacity rows.old }
    requires few { length rows.old.items + length files.items ≤ MAX_ROWS }
    ensures { rows.new.items ≡ rows.old.items ++ new_rows job (length rows.old.items + 1) state files.items }
{
    for file in files {
        let id = rows.len() as u32 + 1;
        rows.push_reserved(new_row(id, job, state, file));
    }
}

/// The row of a file that was submitted just now.
fn new_row(id: u32, job: u32, state: FileState, file: NewFile) -> FileRow
    ensures { result ≡ new_row job id state file }
{
    FileRow {
        id,
        job,
        index: file.index,
        source: file.source,
        dest: file.dest,
        size: file.size,
        wanted: file.wanted,
        activity: file.activity,
        state,
        retries: 0,
        attempt: 0,
        not_before: 0,
        cancel_asked: false,
        reason: Reason::None,
        digest: None,
    }
}
