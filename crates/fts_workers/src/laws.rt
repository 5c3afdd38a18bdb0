//! What holds between two rounds: the commands of requests leave the files that are out, their attempts, and what their copies are asked for.
//! So a bench that is over a list is over it with such a command, and a copy that it keeps is still one of its file.
//! A law is a function without parameters that does nothing: its clauses speak of every list. Who answers requests between rounds calls it.
ghost use Rattle.std.specs.Prelude.{◌≡◌, ℕ, ◌+◌, List, [], ◌∷◌, ◌++◌, length, Option};
ghost use Rattle.fts_tables.specs.SettingsData.{SettingsData};
ghost use Rattle.fts_tables.specs.declared.commands.Answer.{Answer};
ghost use Rattle.fts_keep.specs.Keeps.{KeepData};
ghost use Rattle.fts_keep.specs.Applied.{Accepts, KeepsList};
ghost use Rattle.fts_keep.specs.Started.{restarted};
ghost use Rattle.fts_tables.specs.History.{IsLegal, out_of_list, tables_of};
ghost use Rattle.fts_tables.specs.declared.commands.Entry.{Entry};
ghost use Rattle.fts_tables.specs.declared.rows.Outcome.{Outcome};
ghost use Rattle.fts_workers.specs.Benches.{BenchData, held_over};
ghost use Rattle.fts_workers.specs.Copies.{copies_kept};
ghost use Rattle.fts_workers.specs.Requests.{IsOfRequest};
ghost use Rattle.fts_workers.specs.Rounds.{IsWorkedOver};

use fts_disk::Disk;
use fts_tables::laws::{files_out_are_the_active_rows, orders_stay, tables_are_well_formed};

/// A command of a request leaves what a bench holds over a list, and the copies that it keeps.
pub fn requests_leave_the_bench()
    ensures out { (entries : List Entry) (entry : Entry) → IsLegal (entries ++ entry ∷ []) → IsOfRequest entry.command
        → out_of_list (entries ++ entry ∷ []) ≡ out_of_list entries }
    ensures held { (entries : List Entry) (entry : Entry) (kept : Option Outcome) → IsLegal (entries ++ entry ∷ []) → IsOfRequest entry.command
        → held_over (entries ++ entry ∷ []) kept ≡ held_over entries kept }
    ensures copies { (entries : List Entry) (entry : Entry) (kept : Option Outcome) → IsLegal (entries ++ entry ∷ []) → IsOfRequest entry.command
        → copies_kept (tables_of (entries ++ entry ∷ [])) (held_over entries kept) ≡ copies_kept (tables_of entries) (held_over entries kept) }
{
    tables_are_well_formed();
    files_out_are_the_active_rows();
    orders_stay();
}

/// Between two rounds: an empty bench is over the list that a start leaves, and whatever list keep and bench are over, behind an accepted
/// command of a request they are over it with that command.
pub fn benches_stay_over_lists<D: Disk>()
    ensures started { (keep : KeepData D) (bench : BenchData) (opening : List Entry) (now : ℕ) (settings : SettingsData) → IsLegal opening
        → keep.tables ≡ tables_of (restarted opening now settings) → keep.commands ≡ length opening + 1 → bench.held ≡ []
        → IsWorkedOver keep bench (restarted opening now settings) }
    ensures accepted { (old new : KeepData D) (bench : BenchData) (entry : Entry) (answer : Answer) (entries : List Entry) → IsOfRequest entry.command
        → Accepts D.state old new entry answer → IsWorkedOver old bench entries → IsWorkedOver new bench (entries ++ entry ∷ []) }
    ensures same { (old new : KeepData D) (bench : BenchData) (entries : List Entry) → KeepsList D.state old new → IsWorkedOver old bench entries
        → IsWorkedOver new bench entries }
{
    tables_are_well_formed();
    files_out_are_the_active_rows();
}
