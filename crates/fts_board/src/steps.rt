//! What ended in each step of a history, counted in one walk over the reports.
//! Keeps: behind each report, what is counted of a step is what its reports so far say (`specs/Steps.antt`).
ghost use Rattle.std.specs.Prelude.{◌≡◌, ◌≢◌, ℕ, ◌<◌, ◌≤◌, ◌+◌, true, false, Some, None, IfOk, IfSome, option_copied};
ghost use Rattle.fts_board.specs.History.{question_of, seconds_of, is_wanted, is_row_asked, are_all_asked, is_asked, ends_in};
ghost use Rattle.fts_board.specs.Steps.{steps_of, ended_with, ended_from};

use crate::histories::HistoryAsked;
use fts_chronicle::CopyReport;
use fts_counts::size_of;
use fts_desk::Desk;
use fts_tables::{FileRow, Memory, Outcome};
use std::alloc::Global;

/// Steps of a clock: how many seconds each is long, the number of the first one since 1970, and how many there are.
#[derive(Clone, Copy)]
pub struct Steps {
    pub seconds: u64,
    pub first: u64,
    pub count: u64,
}

/// What ended in a step: how many copies were verified, how many ended otherwise, and the bytes of the former.
#[derive(Clone, Copy)]
pub struct Ended {
    pub finished: u64,
    pub failed: u64,
    pub bytes: u64,
}

impl Ended {
    /// Nothing.
    const NOTHING: Ended = Ended {
        finished: 0,
        failed: 0,
        bytes: 0,
    };

    /// One report more.
    fn with(self, outcome: Outcome) -> Ended
        requires finished { self.finished < u64.MAX }
        requires failed { self.failed < u64.MAX }
        ensures { result ≡ ended_with self outcome }
    {
        match size_of(outcome) {
            Some(size) => Ended {
                finished: self.finished + 1,
                bytes: self.bytes.saturating_add(size),
                ..self
            },
            None => Ended {
                failed: self.failed + 1,
                ..self
            },
        }
    }
}

/// The steps that are asked for, of which the last one holds the present moment.
pub fn steps_of(asked: &HistoryAsked<'_>, now: u64) -> Steps
    requires { 1 ≤ asked.now.count }
    ensures { result ≡ steps_of (question_of asked.now) now }
{
    let seconds = asked.step.seconds();
    let last = now / seconds;
    let earlier = last.min(u64::from(asked.count - 1));
    Steps {
        seconds,
        first: last - earlier,
        count: earlier + 1,
    }
}

/// What ended in each of these steps, of the reports that are asked for.
pub fn ended_by_step(
    alloc: Global,
    desk: &Desk,
    reports: &[CopyReport],
    asked: &HistoryAsked<'_>,
    steps: Steps,
) -> Result<Vec<Ended>, Memory>
    requires { steps.seconds ≡ seconds_of asked.now.step }
    ensures { IfOk result (λ ended. ended.items ≡ ended_from desk.now.tables.rows reports.now (question_of asked.now) steps.first steps.count) }
{
    let mut ended = vec![in alloc; Ended::NOTHING; steps.count as usize]?;
    for report in reports {
        if let Some(place) = place_of(desk, asked, steps, report) {
            ended[place] = ended[place].with(report.outcome);
        }
    }
    Ok(ended)
}

/// The place of the step that a report counts in, and none where it isn't asked for or ended in none of the steps.
fn place_of(
    desk: &Desk,
    asked: &HistoryAsked<'_>,
    steps: Steps,
    report: &CopyReport,
) -> Option<usize>
    requires { steps.seconds ≡ seconds_of asked.now.step }
    ensures inside { IfSome result (λ place. place < steps.count) }
    ensures there { IfSome result (λ place. ends_in desk.now.tables.rows (question_of asked.now) (steps.first + place) report.now ≡ true) }
    ensures nowhere { result ≡ None → (step : ℕ) → steps.first ≤ step → step < steps.first + steps.count
        → ends_in desk.now.tables.rows (question_of asked.now) step report.now ≡ false }
{
    let step = report.moment / steps.seconds;
    if step < steps.first || step - steps.first >= steps.count || !is_asked(desk, asked, report) {
        return None;
    }
    Some((step - steps.first) as usize)
}

/// Whether a report is asked for.
fn is_asked(desk: &Desk, asked: &HistoryAsked<'_>, report: &CopyReport) -> bool
    ensures { result ≡ is_asked desk.now.tables.rows (question_of asked.now) report.now }
{
    if are_all_asked(asked) {
        return true;
    }
    match desk.row(report.file) {
        Some(row) => is_row_asked(asked, row),
        None => false,
    }
}

/// Whether all reports are asked for.
fn are_all_asked(asked: &HistoryAsked<'_>) -> bool
    ensures { result ≡ are_all_asked (question_of asked.now) }
{
    asked.source.is_none() && asked.destination.is_none()
}

/// Whether a row's reports are asked for, where not all are.
fn is_row_asked(asked: &HistoryAsked<'_>, row: &FileRow) -> bool
    ensures { result ≡ is_row_asked (question_of asked.now) row.now }
{
    is_wanted(asked.source, row.source.endpoint.as_str())
        && is_wanted(asked.destination, row.dest.endpoint.as_str())
}

/// Whether a name is the one that is asked for, where one is.
fn is_wanted(asked: Option<&str>, name: &str) -> bool
    ensures { result ≡ is_wanted (option_copied asked.entry) name.now }
{
    match asked {
        Some(asked) => name == asked,
        None => true,
    }
}
