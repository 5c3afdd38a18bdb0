//! The commands that are none of the service's own: a client's `submit` and `query`, `delete`, and a standby's `follow`. What each does stands in a
//! crate of its own; here it is handed what it needs of the outside, and its end becomes the run's (`specs/Errands.antt`).
ghost use Rattle.std.specs.Prelude.{◌≡◌, ◌≢◌, ◌⊎◌, ◌≤◌, IsSome};
ghost use Rattle.fts_tables.specs.Counts.{Rose};
ghost use Rattle.fts_tables.specs.SettingsData.{SettingsData, IsSettings};
ghost use Rattle.fts_submitting.specs.Runs.{IsSubmitRun, IsQueryRun};
ghost use Rattle.fts_deleting.specs.Runs.{IsDeleteRun, around};
ghost use Rattle.fts_following.specs.Runs.{IsFollowRun};
ghost use Rattle.fts_top.specs.Ends.{status_of, errand_status};
ghost use Rattle.fts_top.specs.Errands.{EndsAs, end_of_client, end_of_deletion, end_of_standby, read_side, written_side};
ghost use Rattle.fts_top.specs.Notes.{errand_note_of};
ghost use Rattle.fts_top.specs.Runs.{AreRead, HasNoSettings, OverDisks};
ghost use Rattle.fts_top.specs.Tallies.{no_tally};
ghost use Rattle.fts_tables.specs.Counts.{CountsFaults};
ghost use Rattle.fts_wire.specs.Response.{Sends};

use crate::done::{Done, stop};
use crate::ends::RunEnd;
use crate::reading::load_settings;
use fts_client::Link;
use fts_deleting::{DeleteEnd, run_delete, send_delete_note};
use fts_disk::Disk;
use fts_following::{FollowRunEnd, run_follow, send_follow_note};
use fts_store::Store;
use fts_submitting::{ClientEnd, run_query, run_submit, send_client_note};
use fts_tables::Settings;
use fts_wire::{Sink, SinkFailed, Source};
use std::alloc::Global;

/// How a command ended that is none of the service's own.
#[derive(Clone, Copy, Debug, PartialEq, Eq)]
pub enum ErrandEnd {
    /// `submit` or `query`.
    Client { end: ClientEnd },
    /// `delete`.
    Deletion { end: DeleteEnd },
    /// `follow`.
    Standby { end: FollowRunEnd },
}

impl ErrandEnd {
    /// The exit status.
    pub fn status(self) -> u8
        ensures { result ≡ errand_status self }
    {
        match self {
            ErrandEnd::Client { end } => end.status(),
            ErrandEnd::Deletion { end } => end.status(),
            ErrandEnd::Standby { end } => end.status(),
        }
    }
}

/// Sends the line of an errand's end, or a part of it where a write fails.
pub fn send_errand_note<N: Sink>(notes: &mut N, end: ErrandEnd) -> Result<(), SinkFailed>
    ensures sent { Sends (N.held notes.old) (N.held notes.new) (errand_note_of end) result }
    ensures cause { CountsFaults (N.faults notes.old) (N.faults notes.new) result }
{
    match end {
        ErrandEnd::Client { end } => send_client_note(notes, end),
        ErrandEnd::Deletion { end } => send_delete_note(notes, end),
        ErrandEnd::Standby { end } => send_follow_note(notes, end),
    }
}

/// Submits the input's document.
pub fn submit_input<S: Source, K: Sink, D, L: Link>(
    alloc: Global,
    port: u16,
    tries: u32,
    input: &mut S,
    output: &mut K,
    link: &mut L,
    disk: D,
) -> Done<D>
    requires some { 1 ≤ tries }
    ensures submits { EndsAs end_of_client result.end (IsSubmitRun (read_side L.Line.Source) (written_side L.Line.Sink) port tries
        (S.left input.old) (S.left input.new) (L.link link.old) (L.link link.new) (L.faults link.old) (L.faults link.new) (K.held output.old) (K.held output.new)) }
    ensures tally { result.tally ≡ no_tally }
    ensures disk { result.disk ≡ disk }
    ensures others { (status_of result.end ≢ 2) × ((status_of result.end ≢ 4) × (status_of result.end ≢ 8)) }
    ensures input { status_of result.end ≡ 5 → Rose (S.faults input.old) (S.faults input.new) }
    ensures output { status_of result.end ≡ 6 → Rose (K.faults output.old) (K.faults output.new) }
{
    let end = run_submit(alloc, port, tries, input, output, link);
    stop(RunEnd::of_client(end), disk)
}

/// Asks for a job.
pub fn query_job<K: Sink, D, L: Link>(
    alloc: Global,
    port: u16,
    job: u128,
    tries: u32,
    output: &mut K,
    link: &mut L,
    disk: D,
) -> Done<D>
    requires some { 1 ≤ tries }
    ensures asks { EndsAs end_of_client result.end (IsQueryRun (read_side L.Line.Source) (written_side L.Line.Sink) port job tries
        (L.link link.old) (L.link link.new) (L.faults link.old) (L.faults link.new) (K.held output.old) (K.held output.new)) }
    ensures tally { result.tally ≡ no_tally }
    ensures disk { result.disk ≡ disk }
    ensures others { (status_of result.end ≢ 2) × ((status_of result.end ≢ 4) × ((status_of result.end ≢ 5) × (status_of result.end ≢ 8))) }
    ensures output { status_of result.end ≡ 6 → Rose (K.faults output.old) (K.faults output.new) }
{
    let end = run_query(alloc, port, job, tries, output, link);
    stop(RunEnd::of_client(end), disk)
}

/// Reads the settings, and does the deletions that the input asks for and those that wait, over their own journal.
pub fn delete_places<F: Source, S: Source, K: Sink, D: Disk, E: Store>(
    alloc: Global,
    settings: &mut F,
    input: &mut S,
    output: &mut K,
    deletes: &mut Option<D>,
    store: &mut E,
    disk: D,
) -> Done<D>
    requires deletes { IsSome deletes.old }
    ensures deletes { (HasNoSettings (F.left settings.old) result.end × ((input.new ≡ input.old) × ((output.new ≡ output.old) × ((deletes.new ≡ deletes.old) × (store.new ≡ store.old)))))
        ⊎ ((read : SettingsData) × (IsSettings read × (AreRead (F.left settings.old) read × EndsAs end_of_deletion result.end (λ errand. OverDisks deletes.old deletes.new (λ own now.
        IsDeleteRun D.Disk E.Store read (around own store.old (S.left input.old) (K.held output.old)) (around now store.new (S.left input.new) (K.held output.new)) errand))))) }
    ensures there { IsSome deletes.new }
    ensures tally { result.tally ≡ no_tally }
    ensures disk { result.disk ≡ disk }
    ensures words { status_of result.end ≢ 2 }
    ensures failed { status_of result.end ≡ 4 → OverDisks deletes.old deletes.new (λ own now. Rose (D.faults own) (D.faults now)) }
    ensures settings { status_of result.end ≡ 8 → Rose (F.faults settings.old) (F.faults settings.new) }
    ensures input { status_of result.end ≡ 5 → Rose (S.faults input.old) (S.faults input.new) }
    ensures output { status_of result.end ≡ 6 → Rose (K.faults output.old) (K.faults output.new) }
{
    let settings = match load_settings(alloc, settings) {
        Ok(settings) => settings,
        Err(end) => return stop(end, disk),
    };
    let end = delete_under(alloc, &settings, input, output, deletes, store);
    stop(RunEnd::of_deletion(end), disk)
}

// Does the deletions under these settings, over the disk of their journal, which is given back.
fn delete_under<S: Source, K: Sink, D: Disk, E: Store>(
    alloc: Global,
    settings: &Settings,
    input: &mut S,
    output: &mut K,
    deletes: &mut Option<D>,
    store: &mut E,
) -> DeleteEnd
    requires deletes { IsSome deletes.old }
    ensures run { OverDisks deletes.old deletes.new (λ own now.
        IsDeleteRun D.Disk E.Store settings.now (around own store.old (S.left input.old) (K.held output.old)) (around now store.new (S.left input.new) (K.held output.new)) result) }
    ensures there { IsSome deletes.new }
    ensures failed { status_of (end_of_deletion result) ≡ 4 → OverDisks deletes.old deletes.new (λ own now. Rose (D.faults own) (D.faults now)) }
    ensures input { status_of (end_of_deletion result) ≡ 5 → Rose (S.faults input.old) (S.faults input.new) }
    ensures output { status_of (end_of_deletion result) ≡ 6 → Rose (K.faults output.old) (K.faults output.new) }
{
    let Some(disk) = deletes.take() else {
        unreachable!();
    };
    let (end, disk) = run_delete(alloc, settings, disk, store, input, output);
    match deletes.replace(disk) {
        None => {}
        Some(_) => unreachable!(),
    }
    end
}

/// Follows the service of a port, over the journal of the disk.
pub fn follow_service<K: Sink, D: Disk, L: Link>(
    alloc: Global,
    port: u16,
    tries: u32,
    output: &mut K,
    link: &mut L,
    disk: D,
) -> Done<D>
    requires some { 1 ≤ tries }
    ensures follows { EndsAs end_of_standby result.end (IsFollowRun D.Disk (read_side L.Line.Source) (written_side L.Line.Sink) port tries disk result.disk
        (L.link link.old) (L.link link.new) (L.faults link.old) (L.faults link.new) (K.held output.old) (K.held output.new)) }
    ensures tally { result.tally ≡ no_tally }
    ensures others { (status_of result.end ≢ 2) × ((status_of result.end ≢ 5) × (status_of result.end ≢ 8)) }
    ensures output { status_of result.end ≡ 6 → Rose (K.faults output.old) (K.faults output.new) }
    ensures disk { status_of result.end ≡ 4 → Rose (D.faults disk) (D.faults result.disk) }
{
    let (end, disk) = run_follow(alloc, port, tries, disk, link, output);
    stop(RunEnd::of_standby(end), disk)
}
