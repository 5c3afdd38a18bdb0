//! What one command tells: its moment, the moment of a restart, and the report of a copy.
ghost use Rattle.std.specs.Prelude.{◌≡◌};
ghost use Rattle.fts_chronicle.specs.Chronicle.{now_of, restart_by, report_by};

use crate::CopyReport;
use fts_tables::Command;

/// The moment of a command.
pub fn now_of(command: &Command) -> u64
    ensures { result ≡ now_of command.now }
{
    match command {
        Command::Restart { now, .. } => *now,
        Command::Submit { now, .. } => *now,
        Command::CancelJob { now, .. } => *now,
        Command::CancelFile { now, .. } => *now,
        Command::SetPriority { now, .. } => *now,
        Command::Claim { now, .. } => *now,
        Command::Report { now, .. } => *now,
        Command::Ban { now, .. } => *now,
        Command::Unban { now, .. } => *now,
        Command::Expire { now } => *now,
    }
}

/// The moment of a Restart, and none of any other command.
pub fn restart_by(command: &Command) -> Option<u64>
    ensures { result ≡ restart_by command.now }
{
    let Command::Restart { now, .. } = command else {
        return None;
    };
    Some(*now)
}

/// The report of a Report, and none of any other command.
pub fn report_by(command: &Command) -> Option<CopyReport>
    ensures { result ≡ report_by command.now }
{
    let Command::Report {
        now,
        file,
        attempt,
        outcome,
    } = command
    else {
        return None;
    };
    Some(CopyReport {
        moment: *now,
        file: *file,
        attempt: *attempt,
        outcome: *outcome,
    })
}
