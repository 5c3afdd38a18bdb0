//! The text of tables: for each job in order of number one line, and behind it one for each of its rows (`specs/Shown.antt`).
//! It takes no memory: lines are gathered in a room of a fixed size, and what is left in it at the end is sent too.
ghost use Rattle.std.specs.Prelude.{◌≡◌, Some};
ghost use Rattle.std.specs.List.{flat_map};
ghost use Rattle.fts_tables.specs.Counts.{CountsFaults};
ghost use Rattle.fts_tables.specs.Tables.{job_at};
ghost use Rattle.fts_wire.specs.Response.{Sends};
ghost use Rattle.fts_show.specs.Gathered.{Gathers};
ghost use Rattle.fts_show.specs.Shown.{shown_text, lines_of, line_of_job, file_line, file_words};

use crate::gathered::Gathered;
use fts_desk::Desk;
use fts_routes::{file_state_text, job_state_text, kind_text};
use fts_tables::{FileRow, JobRow, JobState, Place};
use fts_wire::{Sink, SinkFailed};
use itoa::Buffer;
use uuid::Uuid;

/// Sends the text of a desk's tables. Where a write fails, a part of it was sent.
pub fn send_tables<K: Sink>(output: &mut K, desk: &Desk) -> Result<(), SinkFailed>
    ensures sent { Sends (K.held output.old) (K.held output.new) (shown_text desk.now.tables) result }
    ensures cause { CountsFaults (K.faults output.old) (K.faults output.new) result }
{
    let mut gathered = Gathered::new();
    match gather_jobs(output, &mut gathered, desk) {
        Ok(()) => {}
        Err(fault) => return Err(fault),
    }
    gathered.send(output)
}

/// Gathers the lines of all jobs and of their files.
fn gather_jobs<K: Sink>(
    output: &mut K,
    gathered: &mut Gathered,
    desk: &Desk,
) -> Result<(), SinkFailed>
    ensures gathers { Gathers (K.held output.old) (K.held output.new) gathered.old gathered.new (shown_text desk.now.tables) result }
    ensures cause { CountsFaults (K.faults output.old) (K.faults output.new) result }
{
    // Jobs are numbered in their order.
    desk.standing();
    let jobs = desk.jobs();
    'jobs: for job in jobs {
        match gather_job(output, gathered, desk, job) {
            Ok(()) => {}
            Err(fault) => return Err(fault),
        }
    }
    Ok(())
}

/// Gathers the lines of a job and of its files.
fn gather_job<K: Sink>(
    output: &mut K,
    gathered: &mut Gathered,
    desk: &Desk,
    job: &JobRow,
) -> Result<(), SinkFailed>
    requires number { job_at desk.now.tables.jobs job.now.number ≡ Some job.now }
    ensures gathers { Gathers (K.held output.old) (K.held output.new) gathered.old gathered.new (lines_of desk.now.tables job.now) result }
    ensures cause { CountsFaults (K.faults output.old) (K.faults output.new) result }
{
    let Some(state) = desk.state(job.number) else {
        unreachable!();
    };
    match gather_job_line(output, gathered, job, state) {
        Ok(()) => {}
        Err(fault) => return Err(fault),
    }
    gather_files(output, gathered, desk.job_rows(job.number))
}

/// Gathers the line of a job in a state.
fn gather_job_line<K: Sink>(
    output: &mut K,
    gathered: &mut Gathered,
    job: &JobRow,
    state: JobState,
) -> Result<(), SinkFailed>
    ensures gathers { Gathers (K.held output.old) (K.held output.new) gathered.old gathered.new (line_of_job job.now state) result }
    ensures cause { CountsFaults (K.faults output.old) (K.faults output.new) result }
{
    let mut room = Uuid::encode_buffer();
    let id = Uuid::from_u128(job.id).hyphenated();
    let id = id.encode_lower(&mut room);
    let mut digits = Buffer::new();
    let priority = digits.format(job.priority);
    gathered.line(
        output,
        &[
            "job".as_bytes(),
            " ".as_bytes(),
            id.as_bytes(),
            " ".as_bytes(),
            job_state_text(state).as_bytes(),
            " ".as_bytes(),
            kind_text(job.kind).as_bytes(),
            " ".as_bytes(),
            priority.as_bytes(),
            "\n".as_bytes(),
        ],
    )
}

/// Gathers the lines of files.
fn gather_files<K: Sink>(
    output: &mut K,
    gathered: &mut Gathered,
    rows: &[FileRow],
) -> Result<(), SinkFailed>
    ensures gathers { Gathers (K.held output.old) (K.held output.new) gathered.old gathered.new (flat_map file_line rows.now) result }
    ensures cause { CountsFaults (K.faults output.old) (K.faults output.new) result }
{
    'rows: for row in rows {
        match gather_file_line(output, gathered, row) {
            Ok(()) => {}
            Err(fault) => return Err(fault),
        }
    }
    Ok(())
}

/// Gathers the line of a file.
fn gather_file_line<K: Sink>(
    output: &mut K,
    gathered: &mut Gathered,
    row: &FileRow,
) -> Result<(), SinkFailed>
    ensures gathers { Gathers (K.held output.old) (K.held output.new) gathered.old gathered.new (file_line row.now) result }
    ensures cause { CountsFaults (K.faults output.old) (K.faults output.new) result }
{
    let (mut first, mut second) = (Buffer::new(), Buffer::new());
    let id = first.format(row.id);
    let index = second.format(row.index);
    let state = file_state_text(row.state);
    gather_file_words(output, gathered, id, index, state, &row.source, &row.dest)
}

/// Gathers the line of a file, by the words of its id, its index and its state.
fn gather_file_words<K: Sink>(
    output: &mut K,
    gathered: &mut Gathered,
    id: &str,
    index: &str,
    state: &str,
    source: &Place,
    dest: &Place,
) -> Result<(), SinkFailed>
    ensures gathers { Gathers (K.held output.old) (K.held output.new) gathered.old gathered.new (file_words id.now index.now state.now source.now dest.now) result }
    ensures cause { CountsFaults (K.faults output.old) (K.faults output.new) result }
{
    gathered.line(
        output,
        &[
            "file ".as_bytes(),
            id.as_bytes(),
            " ".as_bytes(),
            index.as_bytes(),
            " ".as_bytes(),
            state.as_bytes(),
            " ".as_bytes(),
            source.endpoint.as_str().as_bytes(),
            "/".as_bytes(),
            source.path.as_str().as_bytes(),
            " ".as_bytes(),
            dest.endpoint.as_str().as_bytes(),
            "/".as_bytes(),
            dest.path.as_str().as_bytes(),
            "\n".as_bytes(),
        ],
    )
}
