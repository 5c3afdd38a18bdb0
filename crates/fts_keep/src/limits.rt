//! How far into the journal each command may go.
//! Keeps: what can come again and again without end, and no accepted file needs, stops at a first limit; so what settles accepted files has room up
//! to the journal's end (`the_end_strands_nobody`).
ghost use Rattle.std.specs.Prelude.{◌≡◌};
ghost use Rattle.fts_tables.specs.Settling.{journal_limit};

use fts_tables::Command;
use fts_tables::limits::{JOURNAL_END, MAX_OPENING_BYTES};

/// The journal's last gate has to stand at an offset below this behind the command, in bytes.
pub fn journal_limit(command: &Command) -> u64
    ensures { result ≡ journal_limit command.now }
{
    match command {
        Command::Restart { .. } => JOURNAL_END,
        Command::Submit { .. } => MAX_OPENING_BYTES,
        Command::CancelJob { .. } => JOURNAL_END,
        Command::CancelFile { .. } => JOURNAL_END,
        Command::SetPriority { .. } => MAX_OPENING_BYTES,
        Command::Claim { .. } => JOURNAL_END,
        Command::Report { .. } => JOURNAL_END,
        Command::Ban { .. } => MAX_OPENING_BYTES,
        Command::Unban { .. } => JOURNAL_END,
        Command::Expire { .. } => JOURNAL_END,
    }
}
