//! A history: what ended in each of the last steps of a clock, as a JSON text (`specs/History.antt`).
//! It takes one walk over the reports; a row is looked up only where not all reports are asked for.
ghost use Rattle.std.specs.Prelude.{◌≡◌, ◌≤◌, ◌*◌, IfOk, IfSome, Some, map};
ghost use Rattle.serde_json.specs.View.{view};
ghost use Rattle.fts_board.specs.Json.{array_of, whole_number};
ghost use Rattle.fts_board.specs.History.{question_of, seconds_of, history_text};
ghost use Rattle.fts_board.specs.Steps.{steps_object};

use crate::steps::{Ended, Steps, ended_by_step, steps_of};
use crate::values::{array_value, put_number, put_value, text_of};
use fts_chronicle::CopyReport;
use fts_desk::Desk;
use fts_tables::Memory;
use serde_json::{Map, Value};
use std::alloc::Global;

/// At most this many steps of a history.
pub const MAX_STEPS: u32 = 240;

/// How long a step of a history is.
#[derive(Clone, Copy, Debug, PartialEq, Eq)]
pub enum StepLength {
    Minute,
    TenMinutes,
    Hour,
}

impl StepLength {
    /// The length in seconds.
    pub fn seconds(self) -> u64
        ensures { result ≡ seconds_of self }
    {
        match self {
            StepLength::Minute => 60,
            StepLength::TenMinutes => 600,
            StepLength::Hour => 3_600,
        }
    }
}

/// What a history is asked for: the link from a source to a destination, or all that goes from one storage or to one, or all;
/// how long a step is, and how many steps, from 1 to `MAX_STEPS`.
#[derive(Clone, Copy)]
pub struct HistoryAsked<'a> {
    pub source: Option<&'a str>,
    pub destination: Option<&'a str>,
    pub step: StepLength,
    pub count: u32,
}

/// The text of a history of these reports at a present moment, in seconds since 1970. It fails for want of memory alone.
pub fn history(
    alloc: Global,
    desk: &Desk,
    reports: &[CopyReport],
    asked: HistoryAsked<'_>,
    now: u64,
) -> Result<Vec<u8>, Memory>
    requires least { 1 ≤ asked.count }
    requires most { asked.count ≤ MAX_STEPS }
    ensures { IfOk result (λ text. text.items ≡ history_text desk.now.tables.rows reports.now (question_of asked.entry) now) }
{
    let steps = steps_of(&asked, now);
    let ended = ended_by_step(alloc, desk, reports, &asked, steps)?;
    let value = history_value(alloc, steps, &ended)?;
    text_of(alloc, &value)
}

/// The object of a history of these steps, in which that ended.
fn history_value(alloc: Global, steps: Steps, ended: &[Ended]) -> Result<Value, Memory>
    requires { (steps.first * steps.seconds) ≤ u64.MAX }
    ensures { IfOk result (λ value. view value ≡ steps_object steps ended.now) }
{
    let bytes = bytes_value(alloc, ended)?;
    let failed = failed_value(alloc, ended)?;
    let finished = finished_value(alloc, ended)?;
    let mut map = Map::new(alloc);
    put_value(alloc, &mut map, "bytes", bytes)?;
    put_value(alloc, &mut map, "failed", failed)?;
    put_value(alloc, &mut map, "finished", finished)?;
    put_number(alloc, &mut map, "from", steps.first * steps.seconds)?;
    put_number(alloc, &mut map, "step", steps.seconds)?;
    Ok(Value::Object(map))
}

/// The bytes of each step.
fn bytes_value(alloc: Global, ended: &[Ended]) -> Result<Value, Memory>
    ensures { IfOk result (λ value. view value ≡ array_of whole_number (map (λ ended. ended.bytes) ended.now)) }
{
    let bytes: Vec<u64> = ended.iter().map(|ended| ended.bytes).collect(alloc)?;
    array_value(alloc, bytes.as_slice())
}

/// How many copies of each step failed.
fn failed_value(alloc: Global, ended: &[Ended]) -> Result<Value, Memory>
    ensures { IfOk result (λ value. view value ≡ array_of whole_number (map (λ ended. ended.failed) ended.now)) }
{
    let failed: Vec<u64> = ended.iter().map(|ended| ended.failed).collect(alloc)?;
    array_value(alloc, failed.as_slice())
}

/// How many copies of each step were verified.
fn finished_value(alloc: Global, ended: &[Ended]) -> Result<Value, Memory>
    ensures { IfOk result (λ value. view value ≡ array_of whole_number (map (λ ended. ended.finished) ended.now)) }
{
    let finished: Vec<u64> = ended.iter().map(|ended| ended.finished).collect(alloc)?;
    array_value(alloc, finished.as_slice())
}
