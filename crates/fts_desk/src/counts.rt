//! What stands beside the rows as counts of them: how many rows wait or run on each link, from when each waiting file is overdue, and how each job stands.
//! Keeps: they are those of the rows (`AreCountsOf`). A row whose state changes counts anew right behind the change (`recount`, `recount_left`), by what it
//! counted for before it (`counted`); the new rows of a submission come in once they all stand (`count_new`).
ghost use Rattle.std.specs.Prelude.{◌≡◌, ◌+◌, ◌&&◌, ◌<◌, ◌≤◌, Some, slice_get, Bool, if◌then◌else◌, length, map, count_by, IfSome};
ghost use Rattle.fts_tables.specs.SettingsData.{SettingsData};
ghost use Rattle.fts_slots.specs.SlotsData.{name_at};
ghost use Rattle.fts_tables.specs.Tables.{AreNumberedFrom, is_live, rows_of_job};
ghost use Rattle.fts_tables.specs.Moves.{state_of_job};
ghost use Rattle.fts_tables.specs.declared.limits.TheConstants.{MAX_ROWS};
ghost use Rattle.fts_tables.specs.declared.rows.FileRow.{FileRow};
ghost use Rattle.fts_index.specs.Links.{Link, link_between};
ghost use Rattle.fts_index.specs.LiveLinks.{link_of_row, live_links};
ghost use Rattle.fts_index.specs.RowDues.{due_from};
ghost use Rattle.fts_desk.specs.Standing.{StandTogether};
ghost use Rattle.fts_desk.specs.Loaded.{MayRecount, MayCount};
ghost use Rattle.fts_desk.specs.Parts.{limits_of, IsBetweenIn};
ghost use Rattle.fts_desk.specs.Counted.{
  AreCountsOf,
  AreCountsBefore,
  IsCountedAt,
  AreStatesOf,
  AreStatesBefore,
  has_begun,
  is_of,
  count_in,
  progress_in,
  progress_of,
};

use crate::job_states::{JobStates, Progress};
use crate::kept::Counts;
use crate::lookups::{find_job, job_place, rows_of_job, rows_stand_together};
use fts_claims::ClaimParts;
use fts_index::Loads;
use fts_index::laws::{counts_go_by_one, dues_of_a_changed_row};
use fts_states::{job_state, overdue_from};
use fts_tables::{EndpointName, FileRow, JobKind, JobRow, JobState, LinkAt};

/// What a row counts for: whether it waits or runs, whether it runs or is settled, and the moment from which it is overdue, where it waits and its job
/// limits its time.
#[derive(Clone, Copy)]
pub struct Tally {
    pub live: bool,
    pub begun: bool,
    pub due: Option<u64>,
}

/// The moment from which a row's file is overdue, where it waits and its job limits its time.
fn due_from(jobs: &[JobRow], row: &FileRow) -> Option<u64>
    requires numbered { AreNumberedFrom (λ job. job.number) 1 jobs.now }
    ensures due { result ≡ due_from jobs.now row.now }
{
    if !row.state.is_submitted() {
        return None;
    }
    match find_job(jobs, row.job) {
        Some(job) => overdue_from(job),
        None => None,
    }
}

/// What the row at a place counts for.
pub fn counted(jobs: &[JobRow], rows: &[FileRow], place: usize) -> Tally
    requires numbered { AreNumberedFrom (λ job. job.number) 1 jobs.now }
    requires inside { place < length rows.now }
    ensures counted { IsCountedAt jobs.now rows.now place result }
{
    let row = &rows[place];
    Tally {
        live: row.state.is_live(),
        begun: has_begun(row),
        due: due_from(jobs, row),
    }
}

/// Counts the row at a place anew, which has changed since it counted for that.
pub fn recount(counts: &mut Counts, jobs: &[JobRow], rows: &[FileRow], place: usize, was: Tally)
    requires jobs_numbered { AreNumberedFrom (λ job. job.number) 1 jobs.now }
    requires rows_numbered { AreNumberedFrom (λ row. row.id) 1 rows.now }
    requires before { AreCountsBefore jobs.now rows.now place was counts.old }
    ensures counts { AreCountsOf jobs.now rows.now counts.new }
{
    let row = &rows[place];
    recount_between(
        counts,
        jobs,
        rows,
        place,
        was,
        &row.source.endpoint,
        &row.dest.endpoint,
    );
}

/// The same of a row whose file has left the line, where that was found there on a link: by the settings' names of its ends. These are in memory at hand,
/// and the row's are not.
pub fn recount_left(
    counts: &mut Counts,
    parts: &Option<ClaimParts>,
    jobs: &[JobRow],
    rows: &[FileRow],
    place: usize,
    was: Tally,
    link: Option<LinkAt>,
)
    requires jobs_numbered { AreNumberedFrom (λ job. job.number) 1 jobs.now }
    requires rows_numbered { AreNumberedFrom (λ row. row.id) 1 rows.now }
    requires before { AreCountsBefore jobs.now rows.now place was counts.old }
    requires ends { IfSome link (λ link. (row : FileRow) → slice_get rows.now place ≡ Some row → IsBetweenIn (limits_of parts.now) link row) }
    ensures counts { AreCountsOf jobs.now rows.now counts.new }
{
    let row = &rows[place];
    match link {
        Some(link) => {
            let source = name_at_hand(parts, link.source, &row.source.endpoint);
            let dest = name_at_hand(parts, link.dest, &row.dest.endpoint);
            recount_between(counts, jobs, rows, place, was, source, dest);
        }
        None => recount(counts, jobs, rows, place, was),
    }
}

/// A name, as it stands in the settings at a place, where it stands there.
fn name_at_hand<'a>(
    parts: &'a Option<ClaimParts>,
    place: u16,
    name: &'a EndpointName,
) -> &'a EndpointName
    requires same { (settings : SettingsData) → limits_of parts.now ≡ Some settings → name_at settings place ≡ name.now }
    ensures name { result.now ≡ name.now }
{
    match parts {
        Some(parts) => match parts
            .slots
            .settings()
            .endpoints
            .as_slice()
            .get(usize::from(place))
        {
            Some(endpoint) => &endpoint.name,
            None => name,
        },
        None => name,
    }
}

/// Counts the row at a place anew, by the names of its ends.
fn recount_between(
    counts: &mut Counts,
    jobs: &[JobRow],
    rows: &[FileRow],
    place: usize,
    was: Tally,
    source: &EndpointName,
    dest: &EndpointName,
)
    requires jobs_numbered { AreNumberedFrom (λ job. job.number) 1 jobs.now }
    requires rows_numbered { AreNumberedFrom (λ row. row.id) 1 rows.now }
    requires before { AreCountsBefore jobs.now rows.now place was counts.old }
    requires ends { (row : FileRow) → slice_get rows.now place ≡ Some row → link_of_row row ≡ link_between source.now dest.now }
    ensures counts { AreCountsOf jobs.now rows.now counts.new }
{
    dues_of_a_changed_row();
    let row = &rows[place];
    recount_load(
        &mut counts.loads,
        was.live,
        row.state.is_live(),
        source,
        dest,
    );
    counts.dues.change(row.id, was.due, due_from(jobs, row));
    restate(&mut counts.states, jobs, rows, place, was);
}

/// Lets the job of the row at a place stand as its rows say, where that row has changed since it counted for that.
fn restate(states: &mut JobStates, jobs: &[JobRow], rows: &[FileRow], place: usize, was: Tally)
    requires jobs_numbered { AreNumberedFrom (λ job. job.number) 1 jobs.now }
    requires rows_numbered { AreNumberedFrom (λ row. row.id) 1 rows.now }
    requires inside { place < length rows.now }
    requires few { length rows.now ≤ MAX_ROWS }
    requires before { AreStatesBefore jobs.now rows.now place was states.old }
    ensures states { AreStatesOf jobs.now rows.now states.new }
{
    rows_stand_together();
    let row = &rows[place];
    match job_place(jobs, row.job) {
        Some(at) => {
            let job = &jobs[at];
            let before = states.get(at as u32);
            let now = progress_after(before, job, rows, place, was);
            states.set(at as u32, now);
        }
        None => {}
    }
}

/// How a job stands behind a change of its row at a place, which counted for that before it.
fn progress_after(
    before: Progress,
    job: &JobRow,
    rows: &[FileRow],
    place: usize,
    was: Tally,
) -> Progress
    requires inside { place < length rows.now }
    requires few { length rows.now ≤ MAX_ROWS }
    requires together { StandTogether rows.now job.now }
    requires own { (row : FileRow) → slice_get rows.now place ≡ Some row → row.job ≡ job.now.number }
    requires live { (row : FileRow) → slice_get rows.now place ≡ Some row → before.live + (if is_live row.state then 1 else 0)
        ≡ count_by (is_of job.now.number is_live) rows.now + (if was.live then 1 else 0) }
    requires begun { (row : FileRow) → slice_get rows.now place ≡ Some row → before.begun + (if has_begun row.state then 1 else 0)
        ≡ count_by (is_of job.now.number has_begun) rows.now + (if was.begun then 1 else 0) }
    ensures progress { result ≡ progress_of rows.now job.now }
{
    let row = &rows[place];
    let live = count_after(before.live, row.state.is_live(), was.live);
    let begun = count_after(before.begun, has_begun(row), was.begun);
    Progress {
        state: state_after(rows, place, job, live, begun),
        live,
        begun,
    }
}

/// A count of rows behind a change of one of them, which counts now or doesn't, and did before or didn't.
fn count_after(before: u32, counts: bool, did: bool) -> u32
    requires few { before ≤ MAX_ROWS + 1 }
    requires some { (if did then 1 else 0) ≤ before + (if counts then 1 else 0) }
    ensures count { result + (if did then 1 else 0) ≡ before + (if counts then 1 else 0) }
{
    before + one_if(counts) - one_if(did)
}

/// One where something is so.
fn one_if(is_so: bool) -> u32
    ensures one { result ≡ (if is_so then 1 else 0) }
{
    if is_so { 1 } else { 0 }
}

/// The state of a job that has so many rows that are live and so many that have begun, behind a change of its row at a place:
/// as long as some are live, it is known without a look at the rows.
fn state_after(rows: &[FileRow], place: usize, job: &JobRow, live: u32, begun: u32) -> JobState
    requires inside { place < length rows.now }
    requires together { StandTogether rows.now job.now }
    requires own { (row : FileRow) → slice_get rows.now place ≡ Some row → row.job ≡ job.now.number }
    requires live { live ≡ count_by (is_of job.now.number is_live) rows.now }
    requires begun { begun ≡ count_by (is_of job.now.number has_begun) rows.now }
    ensures state { result ≡ state_of_job job.now.kind (rows_of_job rows.now job.now.number) }
{
    if live == 0 {
        job_state(rows_of_job(rows, job), job.kind)
    } else if begun == 0 {
        JobState::Submitted
    } else {
        JobState::Active
    }
}

/// Whether a file runs or is settled.
fn has_begun(row: &FileRow) -> bool
    ensures answer { result ≡ has_begun row.now.state }
{
    row.state.is_active() || row.state.is_settled()
}

/// Counts a link anew, on which a row was live or wasn't, and is so now or isn't.
fn recount_load(
    loads: &mut Loads,
    was_live: bool,
    is_live: bool,
    source: &EndpointName,
    dest: &EndpointName,
)
    requires may { MayRecount was_live (link_between source.now dest.now) loads.old }
    ensures counts { (test : Link → Bool) → count_by test loads.new.links + (if was_live && test (link_between source.now dest.now) then 1 else 0)
        ≡ count_by test loads.old.links + (if is_live && test (link_between source.now dest.now) then 1 else 0) }
    ensures known { loads.new.known ≡ loads.old.known }
{
    counts_go_by_one();
    if was_live == is_live {
        return;
    }
    if is_live {
        loads.add(source, dest);
    } else {
        loads.take(source, dest);
    }
}

/// Counts the links of rows that are new.
pub fn count_new(loads: &mut Loads, rows: &[FileRow])
    requires may { MayCount (map link_of_row rows.now) loads.old }
    ensures counts { (test : Link → Bool) → count_by test loads.new.links ≡ count_by test loads.old.links + count_by test (live_links rows.now) }
    ensures known { loads.new.known ≡ loads.old.known }
{
    for row in rows {
        recount_load(
            loads,
            false,
            row.state.is_live(),
            &row.source.endpoint,
            &row.dest.endpoint,
        );
    }
}

/// How a new job of a kind stands, by its rows.
pub fn progress_of_new(rows: &[FileRow], kind: JobKind) -> Progress
    requires some { 0 < length rows.now }
    requires few { length rows.now ≤ MAX_ROWS }
    ensures progress { result ≡ progress_in rows.now kind }
{
    Progress {
        state: job_state(rows, kind),
        live: count_live(rows),
        begun: count_begun(rows),
    }
}

/// How many rows wait or run.
fn count_live(rows: &[FileRow]) -> u32
    requires few { length rows.now ≤ MAX_ROWS }
    ensures count { result ≡ count_in is_live rows.now }
{
    rows.iter().filter(|row| row.state.is_live()).count() as u32
}

/// How many rows run or are settled.
fn count_begun(rows: &[FileRow]) -> u32
    requires few { length rows.now ≤ MAX_ROWS }
    ensures count { result ≡ count_in has_begun rows.now }
{
    rows.iter().filter(|row| has_begun(row)).count() as u32
}
