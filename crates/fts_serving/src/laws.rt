//! The laws over lanes and workers that ran over one list, as `fts_top` says what they did: over every disk.
//! A law is a function without parameters that does nothing: its clauses speak of every run. Who reads what `run` says of a run that serves calls it.
ghost use Rattle.std.specs.Prelude.{◌≡◌, ◌≢◌, ◌⊎◌, ◌≤◌, ℕ, Bool, List, ◌++◌, length, Option};
ghost use Rattle.fts_tables.specs.SettingsData.{SettingsData};
ghost use Rattle.fts_tables.specs.History.{IsLegal};
ghost use Rattle.fts_tables.specs.declared.limits.TheConstants.{MAX_LANES, MAX_WORKERS};
ghost use Rattle.fts_keep.specs.Keeps.{KeepData};
ghost use Rattle.fts_shop.specs.Shops.{ShopData};
ghost use Rattle.fts_workers.specs.declared.hand.Hand.{Hand};
ghost use Rattle.fts_top.specs.Complete.{Stays};
ghost use Rattle.fts_top.specs.Ends.{status_of};
ghost use Rattle.fts_service.specs.Openings.{SomeRose};
ghost use Rattle.fts_top.specs.Serves.{ClosesServed, IsServingRun, ManyThreads, RunsServing};
ghost use Rattle.fts_top.specs.declared.ends.RunEnd.{RunEnd};
ghost use Rattle.fts_service.specs.declared.lane.Lane.{Lane};
ghost use Rattle.fts_top.specs.declared.tally.Tally.{Tally};
ghost use Rattle.fts_serving.specs.Cited.{ListLaws, StoreLaws};
ghost use Rattle.fts_serving.specs.Ends.{IsOpenedBy, KeepTheLedger, KeptWhereServed, LeavesDisk, LeavesNoneOut, entries_added};
ghost use Rattle.fts_serving.specs.Finishes.{BreaksNoRule, DoorsRose, EachLane, Finishes, LinesAre};
ghost use Rattle.fts_service.specs.Worlds.{world_of};

use fts_disk::Disk;
use fts_laws::idle_claims_find_none;
use fts_ledger::laws::{
    files_out_have_claimants, own_reports_disturb_nobody, passes_see_one_list,
    turns_keep_the_ledger, undisturbed_stores_follow,
};
use fts_store::Store;
use fts_tables::{Clock, Words};
use fts_top::Doors;

/// The laws that are cited here: of every list, and of every station over this kind of store.
fn cited_laws<E: Store>()
    ensures lists { ListLaws }
    ensures stores { StoreLaws E.Store }
{
    turns_keep_the_ledger::<E>();
    own_reports_disturb_nobody();
    passes_see_one_list();
    undisturbed_stores_follow::<E>();
    files_out_have_claimants();
    idle_claims_find_none();
}

/// Lanes and workers that ran over a list, which is legal, keep the ledger: lanes add clients' commands alone and workers claims and reports;
/// each report is of a file whose last claim is the writer's own, so nobody takes a file from a worker; each station's store follows from the reports
/// of its pass, and no turn is stale. An entry in doubt at the end, where none was at the beginning, came into doubt in a turn of its writer, in which the
/// disk's count rose. Where all workers ended drained or stopped, no file is out; where all ended drained, no row may be claimed at the last
/// moment either. `closes` says whether the gate before copies may be closed.
pub fn lanes_and_workers_keep_the_ledger<D: Disk, E: Store, C: Clock, W: Words, A: Doors>()
    ensures ledger { (closes : Bool) (lanes workers : ℕ) (connections : Option ℕ) (settings : SettingsData) (keep : KeepData D) (before : List (Lane A C A.Line))
        (hands : List (Hand E C W)) (after : List (Lane A C A.Line)) (hands_now : List (Hand E C W)) (closed : ShopData D) (end : RunEnd)
        → (serves : ClosesServed (world_of D.Disk E.Store A.Doors A.Line.Source A.Line.Sink C.Clock W.Words closes) lanes workers connections keep before hands after hands_now closed end)
        → IsOpenedBy keep.entries settings → IsLegal (keep.entries ++ entries_added (world_of D.Disk E.Store A.Doors A.Line.Source A.Line.Sink C.Clock W.Words closes) serves)
        → lanes ≤ length before → workers ≤ length hands → 1 ≤ workers
        → KeepTheLedger (world_of D.Disk E.Store A.Doors A.Line.Source A.Line.Sink C.Clock W.Words closes) serves }
{
    cited_laws::<E>();
}

/// A run that serves keeps the ledger where its lanes began (`ledger`), over every disk. Where it ended with status 0, it left a list behind which no
/// file is out, and no row may be claimed at the last moment (`ends`); with status 23 a list behind which no file is out (`stops`). Over a disk that
/// tells its contents that list is the disk's own, and an entry is in doubt at the end only where the disk's count of failures rose in the run.
/// There are `MAX_LANES` lanes, of which it uses some, and `MAX_WORKERS` hands.
pub fn runs_that_serve_leave_nothing<D: Disk, E: Store, C: Clock, W: Words, A: Doors>()
    ensures ledger { (closes : Bool) (lanes : ℕ) (connections : Option ℕ) (text : Option (List ℕ)) (before after : ManyThreads D A E C W A.Line) (end : RunEnd) (tally : Tally)
        → (runs : RunsServing (world_of D.Disk E.Store A.Doors A.Line.Source A.Line.Sink C.Clock W.Words closes) lanes connections text before after end tally)
        → length before.lanes ≡ MAX_LANES → lanes ≤ MAX_LANES → length before.hands ≡ MAX_WORKERS
        → KeptWhereServed (world_of D.Disk E.Store A.Doors A.Line.Source A.Line.Sink C.Clock W.Words closes) runs.serves.closes }
    ensures ends { (closes : Bool) (lanes : ℕ) (connections : Option ℕ) (text : Option (List ℕ)) (before after : ManyThreads D A E C W A.Line) (end : RunEnd) (tally : Tally)
        → IsServingRun (world_of D.Disk E.Store A.Doors A.Line.Source A.Line.Sink C.Clock W.Words closes) lanes connections end tally text before after
        → status_of end ≡ 0 → length before.lanes ≡ MAX_LANES → lanes ≤ MAX_LANES → length before.hands ≡ MAX_WORKERS
        → LeavesDisk D.Disk before.disk after.disk }
    ensures stops { (closes : Bool) (lanes : ℕ) (connections : Option ℕ) (text : Option (List ℕ)) (before after : ManyThreads D A E C W A.Line) (end : RunEnd) (tally : Tally)
        → IsServingRun (world_of D.Disk E.Store A.Doors A.Line.Source A.Line.Sink C.Clock W.Words closes) lanes connections end tally text before after
        → status_of end ≡ 23 → length before.lanes ≡ MAX_LANES → lanes ≤ MAX_LANES → length before.hands ≡ MAX_WORKERS
        → LeavesNoneOut D.Disk before.disk after.disk }
{
    cited_laws::<E>();
}

/// A run that serves comes to its end: where what it is given is told and breaks no rule, no doors fail, and the disk counts no failure from its
/// beginning to its end, it ends with status 0; or memory was wanting, with status 1; or a record passes the journal's limit, with status 11; or the
/// gate may be closed, and it was, with status 23. That the words are accepted and the settings could be read is what its status says, which is neither 2 nor 8.
pub fn runs_that_serve_come_to_their_end<D: Disk, E: Store, C: Clock, W: Words, A: Doors>()
    ensures ends { (closes : Bool) (lanes : ℕ) (connections : Option ℕ) (text : Option (List ℕ)) (before after : ManyThreads D A E C W A.Line) (end : RunEnd) (tally : Tally)
        → BreaksNoRule text (D.state before.disk) → Stays (D.faults before.disk) (D.faults after.disk) → (SomeRose A.Doors before.lanes after.lanes → ⊥)
        → length before.lanes ≡ MAX_LANES → lanes ≤ MAX_LANES → length before.hands ≡ MAX_WORKERS → status_of end ≢ 2 → status_of end ≢ 8
        → (ran : IsServingRun (world_of D.Disk E.Store A.Doors A.Line.Source A.Line.Sink C.Clock W.Words closes) lanes connections end tally text before after)
        → Finishes (world_of D.Disk E.Store A.Doors A.Line.Source A.Line.Sink C.Clock W.Words closes) ran }
{
    cited_laws::<E>();
}

/// Of each used lane whose doors' count didn't rise the lines are accounted for: its doors gave them in order and have them back, and none is to come, or
/// they are as many as it may serve (`each`). So they are of every used lane, where the status is not 9 (`all`).
pub fn lines_of_lanes_are_accounted_for<D: Disk, E: Store, C: Clock, W: Words, A: Doors>()
    ensures each { (closes : Bool) (lanes workers : ℕ) (connections : Option ℕ) (keep : KeepData D) (before : List (Lane A C A.Line))
        (hands : List (Hand E C W)) (after : List (Lane A C A.Line)) (hands_now : List (Hand E C W)) (closed : ShopData D) (end : RunEnd)
        → (serves : ClosesServed (world_of D.Disk E.Store A.Doors A.Line.Source A.Line.Sink C.Clock W.Words closes) lanes workers connections keep before hands after hands_now closed end)
        → EachLane (world_of D.Disk E.Store A.Doors A.Line.Source A.Line.Sink C.Clock W.Words closes)
        (λ old new. DoorsRose (world_of D.Disk E.Store A.Doors A.Line.Source A.Line.Sink C.Clock W.Words closes) old new
        ⊎ LinesAre (world_of D.Disk E.Store A.Doors A.Line.Source A.Line.Sink C.Clock W.Words closes) connections old new) serves }
    ensures all { (closes : Bool) (lanes workers : ℕ) (connections : Option ℕ) (keep : KeepData D) (before : List (Lane A C A.Line))
        (hands : List (Hand E C W)) (after : List (Lane A C A.Line)) (hands_now : List (Hand E C W)) (closed : ShopData D) (end : RunEnd)
        → (serves : ClosesServed (world_of D.Disk E.Store A.Doors A.Line.Source A.Line.Sink C.Clock W.Words closes) lanes workers connections keep before hands after hands_now closed end)
        → status_of end ≢ 9
        → EachLane (world_of D.Disk E.Store A.Doors A.Line.Source A.Line.Sink C.Clock W.Words closes)
        (LinesAre (world_of D.Disk E.Store A.Doors A.Line.Source A.Line.Sink C.Clock W.Words closes) connections) serves }
{}
