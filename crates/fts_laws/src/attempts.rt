//! Attempts of all rows, added up: the number of claims that were ever accepted. They rise by one at each accepted claim, and by nothing at
//! any other command; so over a legal list they rise by the number of its claims, whoever made them and on whatever thread.
//! `count_attempts` is a sum over rows at hand, and `claims_raise_attempts` a law: a function that does nothing, whose clauses speak of every list.
ghost use Rattle.std.specs.Prelude.{◌≡◌, ◌+◌, ◌≤◌, List, ◌++◌, length, if◌then◌else◌};
ghost use Rattle.fts_tables.specs.Tables.{Tables, AreWellFormed};
ghost use Rattle.fts_tables.specs.Step.{step};
ghost use Rattle.fts_tables.specs.History.{IsAccepted, IsLegal, IsLegalFrom, tables_after, tables_from, tables_of};
ghost use Rattle.fts_tables.specs.Laws.{IsStanding};
ghost use Rattle.fts_tables.specs.declared.commands.Command.{Command};
ghost use Rattle.fts_tables.specs.declared.commands.Entry.{Entry};
ghost use Rattle.fts_tables.specs.declared.limits.TheConstants.{MAX_ROWS};
ghost use Rattle.fts_laws.specs.Attempts.{attempts_in, claims_in, is_claim};

use fts_tables::FileRow;
use fts_tables::laws::{
    limits_hold, picked_rows_stand, steps_keep_standing, tables_are_well_formed,
};

/// The attempts of these rows, added up. Of at most `MAX_ROWS` rows, as a desk holds, so that the sum fits.
pub fn count_attempts(rows: &[FileRow]) -> u64
    requires few { length rows.now ≤ MAX_ROWS }
    ensures sum { result ≡ attempts_in rows.now }
{
    let mut sum: u64 = 0;
    for row in rows {
        sum += u64::from(row.attempt);
    }
    sum
}

/// The attempts of all rows, added up, rise by one at a claim and by nothing at any other command: of one step, of a list from tables that
/// stand, of what follows in a legal list. So there are never more attempts than entries.
pub fn claims_raise_attempts()
    ensures steps { (tables : Tables) (command : Command) → AreWellFormed tables → IsAccepted (step tables command)
        → attempts_in (tables_after tables (step tables command)).rows ≡ attempts_in tables.rows + (if is_claim command then 1 else 0) }
    ensures standing { (tables : Tables) (entries : List Entry) → IsStanding tables → IsLegalFrom tables entries
        → attempts_in (tables_from tables entries).rows ≡ attempts_in tables.rows + claims_in entries }
    ensures lists { (entries more : List Entry) → IsLegal (entries ++ more)
        → attempts_in (tables_of (entries ++ more)).rows ≡ attempts_in (tables_of entries).rows + claims_in more }
    ensures few { (entries : List Entry) → IsLegal entries → attempts_in (tables_of entries).rows ≤ length entries }
{
    tables_are_well_formed();
    limits_hold();
    steps_keep_standing();
    picked_rows_stand();
}
