//! The laws over a worker's turns, of any list that its pass has then seen: it is legal.
//! A law is a function without parameters that does nothing: its clauses speak of every station. Who runs workers calls it.
//! Each clause begins with a bench that fits its pass (`FitsPass`), as an empty one does before its pass has added anything (`begins`).
ghost use Rattle.std.specs.Prelude.{◌≡◌, ◌≢◌, ◌⊎◌, ℕ, ◌==◌, List, [], ◌∷◌, ◌++◌, Some, Bool};
ghost use Rattle.fts_tables.specs.SettingsData.{SettingsData};
ghost use Rattle.fts_tables.specs.History.{IsLegal, out_of_list, tables_of};
ghost use Rattle.fts_tables.specs.declared.commands.Entry.{Entry};
ghost use Rattle.fts_tables.specs.declared.commands.Command.TheVariants.{Restart};
ghost use Rattle.fts_turnstile.specs.declared.turn.LoggedTurn.{LoggedTurn};
ghost use Rattle.fts_turnstile.specs.History.{AllNamed, NoneBy, items_of};
ghost use Rattle.fts_turnstile.specs.Passes.{PassView, seen_list};
ghost use Rattle.fts_keep.specs.Applied.{entry_by};
ghost use Rattle.fts_workers.specs.Copies.{copies_from};
ghost use Rattle.fts_workers.specs.declared.held.Held.{Held};
ghost use Rattle.fts_shop.specs.Shops.{writer_of};
ghost use Rattle.fts_shop.specs.Looking.{NoneOf};
ghost use Rattle.fts_shop.specs.Workers.{AreTurns, StationData, TakesOne, WorkerDone};
ghost use Rattle.fts_shop.specs.declared.ends.Turn.{Turn};
ghost use Rattle.fts_shop.specs.declared.ends.Turn.TheVariants.{Stale};
ghost use Rattle.fts_ledger.specs.Claims.{IsOut, IsOwn, last_claim};
ghost use Rattle.fts_ledger.specs.Reports.{AddsAsked, AddsWork, HasNoRestart, IsUndisturbed, ReportsOwn};
ghost use Rattle.fts_ledger.specs.Fitting.{FitsPass};
ghost use Rattle.fts_ledger.specs.Ledger.{AreFresh, FollowsOwn, KeepsItsFiles, KeepsLedger, MayKeep};
ghost use Rattle.fts_ledger.specs.Machine.{Machine};

use fts_store::Store;
use fts_tables::laws::{
    claimed_files_were_in, files_out_are_the_active_rows, orders_stay, picked_rows_stand,
    rows_stay, tables_are_well_formed,
};

/// The laws of the machine that are cited here.
fn machine_laws()
    ensures { Machine }
{
    tables_are_well_formed();
    files_out_are_the_active_rows();
    rows_stay();
    picked_rows_stand();
    claimed_files_were_in();
}

/// Each report that a pass adds is of a file whose last claim before it is the pass's own; one that says stopped is of a file of which cancel was
/// asked; and each file that is out and was claimed last by the pass is held by its bench, which holds nothing else. Of one turn, of turns, of a worker.
pub fn turns_keep_the_ledger<E: Store>()
    ensures begins { (pass : PassView Entry) → NoneOf pass.number (items_of pass.seen) → FitsPass pass [] }
    ensures turn { (old new : StationData E) (end : Turn) → TakesOne E.Store old new end → MayKeep old.pass new.pass old.held
        → KeepsLedger old.pass new.pass new.held }
    ensures turns { (more : ℕ) (old new : StationData E) → AreTurns E.Store more old new → MayKeep old.pass new.pass old.held
        → KeepsLedger old.pass new.pass new.held }
    ensures worker { (closes : Bool) (old new : StationData E) → WorkerDone E.Store closes old new → MayKeep old.pass new.pass old.held
        → KeepsLedger old.pass new.pass new.held }
{
    machine_laws();
}

/// Where every writer reports only what it claimed last itself, and nothing is released, nobody takes a file from any writer.
pub fn own_reports_disturb_nobody()
    ensures { (opening entries : List Entry) → HasNoRestart entries → ((writer : ℕ) → ReportsOwn writer opening [] entries)
        → (writer : ℕ) → IsUndisturbed writer opening entries }
{}

/// What holds of a pass in the list of all turns, of which it has seen a beginning. What is legal there is legal in what it has seen (`legal`), and who
/// takes no file there took none before (`before`). A worker's pass that took no turn before the worker, and none behind what it has seen, reports
/// there only what it claimed last (`own`) and adds expiries, claims and reports alone (`work`). Turns of others have no entry of it (`others`), and so
/// no report (`none`).
pub fn passes_see_one_list()
    ensures legal { (pass : PassView Entry) (later : List (LoggedTurn Entry)) → IsLegal (pass.opening ++ items_of (pass.seen ++ later))
        → IsLegal (seen_list pass) }
    ensures before { (pass : PassView Entry) (later : List (LoggedTurn Entry))
        → IsUndisturbed pass.number pass.opening (items_of (pass.seen ++ later)) → KeepsItsFiles pass }
    ensures own { (old new : PassView Entry) (held : List Held) (later : List (LoggedTurn Entry)) → KeepsLedger old new held
        → NoneOf old.number (items_of old.seen) → NoneOf old.number (items_of later)
        → ReportsOwn old.number old.opening [] (items_of (new.seen ++ later)) }
    ensures work { (old new : PassView Entry) (held : List Held) (later : List (LoggedTurn Entry)) → KeepsLedger old new held
        → NoneOf old.number (items_of old.seen) → NoneOf old.number (items_of later) → AddsWork old.number (items_of (new.seen ++ later)) }
    ensures others { (writer : ℕ) (joined : List ℕ) (turns : List (LoggedTurn Entry)) → NoneBy (writer ∷ joined) turns → AllNamed writer_of turns
        → NoneOf writer (items_of turns) }
    ensures none { (writer : ℕ) (opening before entries : List Entry) → NoneOf writer entries → ReportsOwn writer opening before entries }
{}

/// Which files are out behind an opening list behind which none was, and whose they are. Each was claimed behind the opening list (`claimed`), and
/// not by a writer whose entries are all a client's commands (`asked`). One that a writer claimed last was out, and the writer's, before entries of
/// others too (`before`). Behind a restart no file is out (`restarted`), and its settings stay in force until the next one (`settings`). Where each
/// writer's entries are all a client's commands, or all a worker's, none is a restart (`none`); a client's commands report nothing (`reports`).
pub fn files_out_have_claimants()
    ensures claimed { (opening entries : List Entry) (file : ℕ) → out_of_list opening ≡ [] → IsOut file (opening ++ entries)
        → (writer : ℕ) × IsOwn writer (last_claim file opening entries) }
    ensures asked { (writer file : ℕ) (opening entries : List Entry) → AddsAsked writer entries → IsOwn writer (last_claim file opening entries) → ⊥ }
    ensures before { (writer file : ℕ) (opening entries later : List Entry) → NoneOf writer later → IsOut file (opening ++ (entries ++ later))
        → IsOwn writer (last_claim file opening (entries ++ later))
        → IsOut file (opening ++ entries) × IsOwn writer (last_claim file opening entries) }
    ensures restarted { (entries : List Entry) (writer now : ℕ) (settings : SettingsData) → IsLegal (entries ++ entry_by writer (Restart now settings) ∷ [])
        → out_of_list (entries ++ entry_by writer (Restart now settings) ∷ []) ≡ [] }
    ensures settings { (entries : List Entry) (writer now : ℕ) (settings : SettingsData) (more : List Entry) → HasNoRestart more
        → IsLegal ((entries ++ entry_by writer (Restart now settings) ∷ []) ++ more)
        → (tables_of ((entries ++ entry_by writer (Restart now settings) ∷ []) ++ more)).settings ≡ Some settings }
    ensures none { (entries : List Entry) → ((writer : ℕ) → AddsWork writer entries ⊎ AddsAsked writer entries) → HasNoRestart entries }
    ensures reports { (writer : ℕ) (opening entries : List Entry) → AddsAsked writer entries → ReportsOwn writer opening [] entries }
{}

/// Where nobody takes a file from a pass, in what it has then seen, no turn of it is stale, and its station's store follows from the pass's own
/// reports, with the copy that the bench keeps. Of one turn, of turns, of a worker. In the list of all turns these are the same copies (`copies`),
/// where the pass took no turn before what the clause speaks of, and none behind it.
pub fn undisturbed_stores_follow<E: Store>()
    ensures turn { (old new : StationData E) (end : Turn) → TakesOne E.Store old new end → MayKeep old.pass new.pass old.held
        → KeepsItsFiles new.pass → FollowsOwn E.Store old new × ((file : ℕ) → end ≢ Stale file) }
    ensures turns { (more : ℕ) (old new : StationData E) → AreTurns E.Store more old new → MayKeep old.pass new.pass old.held
        → KeepsItsFiles new.pass → FollowsOwn E.Store old new × AreFresh E.Store more old new }
    ensures worker { (closes : Bool) (old new : StationData E) (done : WorkerDone E.Store closes old new) → MayKeep old.pass new.pass old.held
        → KeepsItsFiles new.pass → FollowsOwn E.Store old new × AreFresh E.Store done.more old done.between × ((file : ℕ) → done.last ≢ Stale file) }
    ensures copies { (old : PassView Entry) (since later : List (LoggedTurn Entry)) → NoneOf old.number (items_of old.seen) → NoneOf old.number (items_of later)
        → copies_from (λ writer. writer == old.number) (tables_of old.opening) (items_of ((old.seen ++ since) ++ later))
        ≡ copies_from (λ writer. writer == old.number) (tables_of (seen_list old)) (items_of since) }
{
    machine_laws();
    orders_stay();
}
