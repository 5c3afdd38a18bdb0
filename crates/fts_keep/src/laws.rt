//! Two laws of a keep's bytes and of its list. Each is a function that does nothing; a crate above cites a law by calling it.
//! Damage: the bytes of a file say one thing, so a start answers each of its own exactly where. The end: what settles accepted files has room.
ghost use Rattle.std.specs.Prelude.{◌≡◌, ◌<◌, ◌≤◌, ◌++◌, ◌∷◌, [], true, ℕ, List, All};
ghost use Rattle.fts_tables.specs.History.{tables_of, IsLegal};
ghost use Rattle.fts_tables.specs.declared.limits.TheConstants.{MAX_OPENING_BYTES};
ghost use Rattle.fts_tables.specs.declared.commands.Entry.{Entry};
ghost use Rattle.fts_record.specs.Proper.{IsProper};
ghost use Rattle.fts_keep.specs.Keeps.{used_of};
ghost use Rattle.fts_keep.specs.Applied.{fits};
ghost use Rattle.fts_keep.specs.Damage.{DamageIsOne};
ghost use Rattle.fts_keep.specs.Ending.{KeepsFirstLimit, restarts_cost, LeavesRoom, HasRoom};

use fts_journal::{
    content_is_cut_at_one_offset, content_stands_for_one, content_that_stands_is_not_cut,
    no_journal_stands_or_is_cut,
};
use fts_record::laws::{entries_are_sized, what_is_spelled_is_read};
use fts_tables::laws::accepted_rows_can_be_settled;

/// No content is damaged at two offsets, or whole for two lists, or both damaged and whole.
pub fn damage_is_one()
    ensures { (content : List ℕ) → DamageIsOne content }
{
    content_stands_for_one();
    content_that_stands_is_not_cut();
    content_is_cut_at_one_offset();
    no_journal_stands_or_is_cut();
    what_is_spelled_is_read();
}

/// The journal's end strands no accepted file. Where the submissions, priorities and bans of a legal list ended below the first limit, and its
/// restarts cost at most 275,888,642 bytes, each further command that settles a file or ends a ban, and that the machine accepts, fits the journal.
/// A list keeps the first limit with each entry more that fits, and its beginnings keep it too, and cost no more. A list that is shorter than that
/// limit as a whole keeps it, as those of older journals do.
pub fn the_end_strands_nobody()
    ensures room { (entries : List Entry) → IsLegal entries → All IsProper entries → LeavesRoom entries → HasRoom (tables_of entries) (used_of entries) }
    ensures more { (entries : List Entry) (entry : Entry) → KeepsFirstLimit entries → fits (used_of entries) entry ≡ true
        → KeepsFirstLimit (entries ++ entry ∷ []) }
    ensures short { (entries : List Entry) → used_of entries < MAX_OPENING_BYTES → KeepsFirstLimit entries }
    ensures front { (entries more : List Entry) → KeepsFirstLimit (entries ++ more) → KeepsFirstLimit entries }
    ensures cost { (entries more : List Entry) → restarts_cost entries ≤ restarts_cost (entries ++ more) }
{
    entries_are_sized();
    accepted_rows_can_be_settled();
}
