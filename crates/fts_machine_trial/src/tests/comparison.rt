//! Whether a desk's tables and the plain machine's are the same, field by field.
//! What walks all rows for one job or one link is compared for one of them a time, which a number picks.
use super::commands::{activity_text, endpoint_text, path_text};
use super::machine::PlainMachine;
use super::plain::{PlainJob, PlainPlace, PlainRow};
use fts_desk::Desk;
use fts_tables::{EndpointName, FileRow, JobRow, LinkAt, Place};

fn is_same_place(place: &Place, plain: PlainPlace) -> bool {
    place.endpoint.as_str() == endpoint_text(plain.endpoint)
        && place.path.as_str() == path_text(plain.path)
}

/// Whether two rows are the same in what was submitted.
fn is_same_file(row: &FileRow, plain: &PlainRow) -> bool {
    row.id == plain.id
        && row.job == plain.job
        && row.index == plain.index
        && is_same_place(&row.source, plain.source)
        && is_same_place(&row.dest, plain.dest)
        && row.activity.as_str() == activity_text(plain.activity)
        && row.wanted.is_none()
}

/// Whether two rows are the same in what became of them.
fn is_same_course(row: &FileRow, plain: &PlainRow) -> bool {
    row.state == plain.state
        && row.attempt == plain.attempt
        && row.retries == plain.retries
        && row.not_before == plain.not_before
        && row.cancel_asked == plain.cancel_asked
        && row.reason == plain.reason
        && row.size == plain.size
        && row.digest == plain.digest
}

fn is_same_job(job: &JobRow, plain: &PlainJob) -> bool {
    job.number == plain.number
        && job.id == plain.id
        && job.kind == plain.terms.kind
        && job.strategy == plain.terms.strategy
        && job.priority == plain.terms.priority
        && job.retry == plain.terms.retry
        && job.delay == plain.terms.delay
        && job.queue_hours == plain.terms.queue_hours
        && job.submitted_at == plain.submitted_at
}

/// Whether all rows are the same.
pub fn are_same_rows(rows: &[FileRow], plain: &[PlainRow]) -> bool {
    for (row, plain) in rows.iter().zip(plain) {
        if !is_same_file(row, plain) || !is_same_course(row, plain) {
            return false;
        }
    }
    rows.len() == plain.len()
}

/// Whether all jobs are the same.
pub fn are_same_jobs(jobs: &[JobRow], plain: &[PlainJob]) -> bool {
    for (job, plain) in jobs.iter().zip(plain) {
        if !is_same_job(job, plain) {
            return false;
        }
    }
    jobs.len() == plain.len()
}

/// Whether the same storages are banned, in the same order.
pub fn are_same_bans(banned: &[EndpointName], plain: &[u8]) -> bool {
    for (name, plain) in banned.iter().zip(plain) {
        if name.as_str() != endpoint_text(*plain) {
            return false;
        }
    }
    banned.len() == plain.len()
}

/// Whether a desk and the machine say the same of a job: its state, its rows, and who has its id.
fn is_same_seen(desk: &Desk, machine: &PlainMachine, job: &PlainJob) -> bool {
    desk.state(job.number) == Some(machine.state(job))
        && desk.job_rows(job.number).len() == machine.count(job)
        && desk.find(job.id) == machine.find(job.id)
}

/// Whether a desk and the machine say the same of the job that a number picks.
pub fn is_same_picked_job(desk: &Desk, machine: &PlainMachine, number: usize) -> bool {
    let Some(place) = number.checked_rem(machine.jobs().len()) else {
        return desk.state(1).is_none();
    };
    match machine.jobs().get(place) {
        Some(job) => is_same_seen(desk, machine, job),
        None => false,
    }
}

/// The number of the listed endpoint at a place.
fn listed_at(machine: &PlainMachine, place: u16) -> Option<u8> {
    let endpoint = machine.settings()?.endpoints.get(usize::from(place))?;
    Some(endpoint.name)
}

/// Whether a link holds as much on a desk as in the machine.
pub fn is_same_held(desk: &Desk, machine: &PlainMachine, link: LinkAt) -> bool {
    let held = desk.held(link) as usize;
    match (
        listed_at(machine, link.source),
        listed_at(machine, link.dest),
    ) {
        (Some(source), Some(dest)) => held == machine.held(source, dest),
        (Some(_), None) | (None, Some(_)) | (None, None) => held == 0,
    }
}
