//! Rows by their states.
ghost use Rattle.std.specs.Prelude.{◌≡◌};
ghost use Rattle.fts_counts.specs.Rows.{rows_in, test_of};

use fts_tables::{FileRow, FileState};

/// How many of these rows are in a state.
pub fn rows_in(rows: &[FileRow], wanted: FileState) -> u64
    ensures { result ≡ rows_in (test_of wanted) rows.now }
{
    rows.iter().filter(|row| is_in(wanted, row.state)).count() as u64
}

/// Whether a state is this one.
pub fn is_in(wanted: FileState, state: FileState) -> bool
    ensures { result ≡ test_of wanted state }
{
    match wanted {
        FileState::Submitted => state.is_submitted(),
        FileState::Active => state.is_active(),
        FileState::Finished => state.is_finished(),
        FileState::Failed => state.is_failed(),
        FileState::Canceled => state.is_canceled(),
        FileState::NotUsed => state.is_not_used(),
    }
}
