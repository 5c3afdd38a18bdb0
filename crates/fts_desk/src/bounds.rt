//! That an accepted command keeps the bounds of a desk's lists: the law that the desk calls when it commits.
ghost use Rattle.std.specs.Prelude.{ℕ, ◌+◌};
ghost use Rattle.fts_tables.specs.Tables.{Tables};
ghost use Rattle.fts_tables.specs.Step.{step};
ghost use Rattle.fts_tables.specs.History.{IsAccepted, tables_after};
ghost use Rattle.fts_tables.specs.declared.commands.Command.{Command};
ghost use Rattle.fts_desk.specs.Bounds.{AreBounded, BringsFiles};

/// A law: an accepted command keeps the bounds, with one command more.
pub fn steps_keep_bounds()
    ensures bounds { (tables : Tables) (commands : ℕ) (command : Command)
        → AreBounded commands tables.jobs tables.rows → BringsFiles command → IsAccepted (step tables command)
        → AreBounded (commands + 1) (tables_after tables (step tables command)).jobs (tables_after tables (step tables command)).rows }
{}
