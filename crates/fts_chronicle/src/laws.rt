//! What a list of entries tells, from one entry to the next.
//! The law is a function without parameters that does nothing: its clause speaks of every list. A crate above cites it by calling it.
ghost use Rattle.std.specs.Prelude.{◌≡◌, List, [], ◌∷◌, ◌++◌, Ok};
ghost use Rattle.fts_tables.specs.Tables.{Tables};
ghost use Rattle.fts_tables.specs.Step.{step};
ghost use Rattle.fts_tables.specs.History.{tables_of};
ghost use Rattle.fts_tables.specs.declared.commands.Answer.{Answer};
ghost use Rattle.fts_tables.specs.declared.commands.Entry.{Entry};
ghost use Rattle.fts_chronicle.specs.Chronicle.{chronicle_of, chronicle_with};

/// One entry more, which is not refused, adds what its command and its answer tell, whoever wrote it.
pub fn chronicles_grow_by_entries()
    ensures grow { (entries : List Entry) (next : Entry) (after : Tables) (answer : Answer) → step (tables_of entries) next.command ≡ Ok (after, answer)
        → chronicle_of (entries ++ next ∷ []) ≡ chronicle_with (chronicle_of entries) next.command answer after }
{}
