//! When jobs were settled: behind each entry the jobs that it concerns are seen, one by its number or all of them, as `specs/Finishes.antt` says.
//! A job of which no file waits or runs is settled. Its finish is the moment of the entry behind which that was first seen, and 0 before.
ghost use Rattle.std.specs.Prelude.{◌≡◌, ◌<◌, ◌==◌, length, vec_capacity};
ghost use Rattle.fts_chronicle.specs.Finishes.{is_settled_at, finish_seen, finishes_seen, finishes_with, is_job_in, is_owner};
ghost use Rattle.fts_tables.specs.Tables.{row_at, is_live};
ghost use Rattle.std.specs.List.{list_any};

use fts_desk::Desk;
use fts_tables::{Command, FileRow};

/// Brings the finishes up to the desk, which a command left so. They need room for one job more.
pub fn add_finishes(finishes: &mut Vec<u64>, desk: &Desk, command: &Command)
    requires room { length finishes.old.items < vec_capacity finishes.old }
    ensures { finishes.new.items ≡ finishes_with finishes.old.items command.now desk.now.tables }
{
    match command {
        Command::Restart { now, settings: _ } => see_all(finishes, desk, *now),
        Command::Submit { now: _, job: _ } => finishes.push_reserved(0),
        Command::CancelJob { now, job } => see_job(finishes, desk, *now, *job),
        Command::CancelFile { now, job, file: _ } => see_job(finishes, desk, *now, *job),
        Command::SetPriority {
            now: _,
            job: _,
            priority: _,
        } => {}
        Command::Claim { now: _, word: _ } => {}
        Command::Report {
            now,
            file,
            attempt: _,
            outcome: _,
        } => see_job_of(finishes, desk, *now, *file),
        Command::Ban {
            now,
            storage: _,
            cancel: _,
        } => see_all(finishes, desk, *now),
        Command::Unban { now: _, storage: _ } => {}
        Command::Expire { now } => see_all(finishes, desk, *now),
    }
}

/// Sees each job at a moment.
fn see_all(finishes: &mut [u64], desk: &Desk, now: u64)
    ensures { finishes.new ≡ finishes_seen (is_job_in desk.now.tables) desk.now.tables now 1 finishes.old }
{
    let count = desk.jobs().len() as u32;
    for place in 0..count {
        see_job(finishes, desk, now, place + 1);
    }
}

/// Sees the job of a file at a moment, where there is one.
fn see_job_of(finishes: &mut [u64], desk: &Desk, now: u64, file: u32)
    ensures { finishes.new ≡ finishes_seen (is_owner (row_at desk.now.tables.rows file)) desk.now.tables now 1 finishes.old }
{
    match desk.row(file) {
        None => {}
        Some(row) => see_job(finishes, desk, now, row.job),
    }
}

/// Sees the job of a number at a moment, where there is one.
fn see_job(finishes: &mut [u64], desk: &Desk, now: u64, number: u32)
    ensures { finishes.new ≡ finishes_seen (λ other. other == number) desk.now.tables now 1 finishes.old }
{
    if number == 0 {
        return;
    }
    if number as usize > finishes.len() {
        return;
    }
    let place = number as usize - 1;
    finishes[place] = finish_seen(desk, now, number, finishes[place]);
}

/// The finish of the job of a number, seen at a moment.
fn finish_seen(desk: &Desk, now: u64, number: u32, finish: u64) -> u64
    ensures { result ≡ finish_seen desk.now.tables now number finish }
{
    if !is_settled_at(desk, number) {
        return 0;
    }
    if finish == 0 { now } else { finish }
}

/// Whether no file of the job of a number waits or runs.
fn is_settled_at(desk: &Desk, number: u32) -> bool
    ensures { result ≡ is_settled_at desk.now.tables number }
{
    !has_live(desk.job_rows(number))
}

/// Whether one of these files waits or runs. Files mostly end in their order, so the last is looked at first.
fn has_live(rows: &[FileRow]) -> bool
    ensures { result ≡ list_any (λ row. is_live row.state) rows.now }
{
    match rows.split_last() {
        Some((last, others)) => last.state.is_live() || any_live(others),
        None => false,
    }
}

/// The same, looked at from the first file on.
fn any_live(rows: &[FileRow]) -> bool
    ensures { result ≡ list_any (λ row. is_live row.state) rows.now }
{
    rows.iter().any(|row| row.state.is_live())
}
