//! What a request is planned to come to over the tables: a reply, or a command with the reply that shows what it leaves.
//! One function for each route, each in the order of checks: the method, the job, the file, the document's or the query's rules.
ghost use Rattle.std.specs.Prelude.{◌≡◌, Some, IfOk, IsSome};
ghost use Rattle.fts_tables.specs.Tables.{Tables, job_at};
ghost use Rattle.fts_jobdoc.specs.Documents.{job_of, priority_of};
ghost use Rattle.fts_wire.specs.Answered.{request_data};
ghost use Rattle.fts_routes.specs.Bodies.{IsReadOf};
ghost use Rattle.fts_routes.specs.Objects.{settings_in};
ghost use Rattle.fts_routes.specs.Routes.{job_named, file_named};
ghost use Rattle.fts_routes.specs.Found.{route_data};
ghost use Rattle.fts_routes.specs.Refusals.{bad_document, no_job};
ghost use Rattle.fts_routes.specs.Replies.{plan_of, plan_on, plan_on_jobs, plan_on_job, plan_on_files, plan_on_file, plan_on_entry, look_at_settings};
ghost use Rattle.fts_routes.specs.Replies.{look_at_job, look_at_files, submission, cancellation, prioritization, file_cancellation, if_read, if_job, if_file};
ghost use Rattle.fts_routes.specs.Planned.{IsPlanned};
ghost use Rattle.fts_routes.specs.declared.planned.Planned.TheVariants.{Replies as PlannedReply};

use crate::bans::plan_on_bans;
use crate::bodies::{ReadBody, job_read, priority_read};
use crate::changes::{plan_cancellation, plan_file_cancellation, plan_priority, plan_submission};
use crate::looks::{look_at_job, look_at_jobs, look_at_list};
use crate::methods::has_method;
use crate::named::{entry_number, file_named, job_named, settings_of};
use crate::objects::Shown;
use crate::paths::{Route, Routes};
use crate::planned::{Planned, refuse_method};
use crate::replies::{bad_document, no_file, no_job, no_route};
use fts_desk::Desk;
use fts_jobdoc::DocFault;
use fts_tables::{JobRow, Memory};
use fts_wire::{Allow, Request};
use http::Method;
use std::alloc::Global;

/// What a request comes to, before anything changes.
pub fn plan(
    alloc: Global,
    routes: &Routes,
    desk: &Desk,
    request: &Request<'_>,
    read: ReadBody,
    now: u64,
) -> Result<Planned, Memory>
    requires settings { IsSome desk.now.tables.settings }
    requires read { IsReadOf request.now.body.now read }
    ensures { IfOk result (λ planned. IsPlanned desk.now.tables planned (plan_of desk.now.tables now (request_data request.now))) }
{
    match routes.find(request.path) {
        None => {
            let reply = no_route(alloc)?;
            Ok(Planned::Replies { reply })
        }
        Some(route) => plan_on(alloc, desk, request, read, now, route),
    }
}

/// The same of a route that was found.
fn plan_on(
    alloc: Global,
    desk: &Desk,
    request: &Request<'_>,
    read: ReadBody,
    now: u64,
    route: Route<'_>,
) -> Result<Planned, Memory>
    requires settings { IsSome desk.now.tables.settings }
    requires read { IsReadOf request.now.body.now read }
    ensures { IfOk result (λ planned. IsPlanned desk.now.tables planned (plan_on desk.now.tables now (request_data request.now) (route_data route.entry))) }
{
    match route {
        Route::Jobs => plan_on_jobs(alloc, desk, request, read, now),
        Route::Job { id } => plan_on_job(alloc, desk, request, read, now, id),
        Route::Files { id } => plan_on_files(alloc, desk, request, id),
        Route::File { id, file } => plan_on_file(alloc, desk, request, now, id, file),
        Route::Links => plan_on_list(alloc, request, settings_of(desk).links.as_slice()),
        Route::Endpoints => { plan_on_list(alloc, request, settings_of(desk).endpoints.as_slice()) }
        Route::Shares => plan_on_list(alloc, request, settings_of(desk).weights.as_slice()),
        Route::Bans => plan_on_bans(alloc, desk, request, read, now),
        Route::JournalEntry { number } => plan_on_entry(alloc, request, number),
    }
}

/// /jobs: a look at the jobs, or a submission.
fn plan_on_jobs(
    alloc: Global,
    desk: &Desk,
    request: &Request<'_>,
    read: ReadBody,
    now: u64,
) -> Result<Planned, Memory>
    requires settings { IsSome desk.now.tables.settings }
    requires read { IsReadOf request.now.body.now read }
    ensures { IfOk result (λ planned. IsPlanned desk.now.tables planned (plan_on_jobs desk.now.tables now (request_data request.now))) }
{
    if has_method(request, &Method::GET) {
        let reply = look_at_jobs(alloc, desk, request.query)?;
        Ok(Planned::Replies { reply })
    } else if has_method(request, &Method::POST) || has_method(request, &Method::PUT) {
        plan_document(alloc, desk, request.body, read, now)
    } else {
        refuse_method(alloc, Allow::Jobs)
    }
}

/// A submission, by its document.
fn plan_document(
    alloc: Global,
    desk: &Desk,
    body: &[u8],
    read: ReadBody,
    now: u64,
) -> Result<Planned, Memory>
    requires settings { IsSome desk.now.tables.settings }
    requires read { IsReadOf body.now read }
    ensures { IfOk result (λ planned. IsPlanned desk.now.tables planned
        (if_read (job_of body.now (settings_in desk.now.tables)) (submission desk.now.tables now))) }
{
    match job_read(alloc, body, read, settings_of(desk)) {
        Ok(job) => plan_submission(alloc, desk, now, job),
        Err(DocFault::Memory) => Err(Memory),
        Err(fault) => refuse_document(alloc, fault),
    }
}

/// /jobs/{id}: a look at a job, its cancellation, or another priority for it.
fn plan_on_job(
    alloc: Global,
    desk: &Desk,
    request: &Request<'_>,
    read: ReadBody,
    now: u64,
    id: &str,
) -> Result<Planned, Memory>
    requires settings { IsSome desk.now.tables.settings }
    requires read { IsReadOf request.now.body.now read }
    ensures { IfOk result (λ planned. IsPlanned desk.now.tables planned (plan_on_job desk.now.tables now (request_data request.now) id.now)) }
{
    if has_method(request, &Method::GET) {
        plan_look_at_job(alloc, desk, id)
    } else if has_method(request, &Method::DELETE) {
        plan_delete(alloc, desk, now, id)
    } else if has_method(request, &Method::POST) {
        plan_post(alloc, desk, request.body, read, now, id)
    } else {
        refuse_method(alloc, Allow::Job)
    }
}

/// A look at the job that a text names.
fn plan_look_at_job(alloc: Global, desk: &Desk, id: &str) -> Result<Planned, Memory>
    requires settings { IsSome desk.now.tables.settings }
    ensures { IfOk result (λ planned. IsPlanned desk.now.tables planned (if_job (job_named desk.now.tables id.now) (look_at_job desk.now.tables))) }
{
    match job_named(desk, id) {
        None => refuse_job(alloc),
        Some(job) => {
            let reply = look_at_job(alloc, desk, &job)?;
            Ok(Planned::Replies { reply })
        }
    }
}

/// A cancellation of the job that a text names.
fn plan_delete(alloc: Global, desk: &Desk, now: u64, id: &str) -> Result<Planned, Memory>
    requires settings { IsSome desk.now.tables.settings }
    ensures { IfOk result (λ planned. IsPlanned desk.now.tables planned (if_job (job_named desk.now.tables id.now) (cancellation now))) }
{
    match job_named(desk, id) {
        None => refuse_job(alloc),
        Some(job) => plan_cancellation(alloc, desk, now, &job),
    }
}

/// Another priority for the job that a text names.
fn plan_post(
    alloc: Global,
    desk: &Desk,
    body: &[u8],
    read: ReadBody,
    now: u64,
    id: &str,
) -> Result<Planned, Memory>
    requires settings { IsSome desk.now.tables.settings }
    requires read { IsReadOf body.now read }
    ensures { IfOk result (λ planned. IsPlanned desk.now.tables planned
        (if_job (job_named desk.now.tables id.now) (λ job. if_read (priority_of body.now) (prioritization now job)))) }
{
    match job_named(desk, id) {
        None => refuse_job(alloc),
        Some(job) => plan_prioritization(alloc, desk, body, read, now, &job),
    }
}

/// Another priority for a job, by its document.
fn plan_prioritization(
    alloc: Global,
    desk: &Desk,
    body: &[u8],
    read: ReadBody,
    now: u64,
    job: &JobRow,
) -> Result<Planned, Memory>
    requires settings { IsSome desk.now.tables.settings }
    requires read { IsReadOf body.now read }
    requires number { job_at desk.now.tables.jobs job.now.number ≡ Some job.now }
    ensures { IfOk result (λ planned. IsPlanned desk.now.tables planned (if_read (priority_of body.now) (prioritization now job.now))) }
{
    match priority_read(alloc, body, read) {
        Ok(priority) => plan_priority(alloc, desk, now, job, priority),
        Err(DocFault::Memory) => Err(Memory),
        Err(fault) => refuse_document(alloc, fault),
    }
}

/// /jobs/{id}/files: a look at the files of a job.
fn plan_on_files(
    alloc: Global,
    desk: &Desk,
    request: &Request<'_>,
    id: &str,
) -> Result<Planned, Memory>
    ensures { IfOk result (λ planned. IsPlanned desk.now.tables planned (plan_on_files desk.now.tables (request_data request.now) id.now)) }
{
    if has_method(request, &Method::GET) {
        plan_look_at_files(alloc, desk, id)
    } else {
        refuse_method(alloc, Allow::Get)
    }
}

/// A look at the files of the job that a text names.
fn plan_look_at_files(alloc: Global, desk: &Desk, id: &str) -> Result<Planned, Memory>
    ensures { IfOk result (λ planned. IsPlanned desk.now.tables planned (if_job (job_named desk.now.tables id.now) (look_at_files desk.now.tables))) }
{
    match job_named(desk, id) {
        None => refuse_job(alloc),
        Some(job) => {
            let reply = look_at_list(alloc, desk.job_rows(job.number))?;
            Ok(Planned::Replies { reply })
        }
    }
}

/// /jobs/{id}/files/{file}: a cancellation of a file.
fn plan_on_file(
    alloc: Global,
    desk: &Desk,
    request: &Request<'_>,
    now: u64,
    id: &str,
    file: &str,
) -> Result<Planned, Memory>
    ensures { IfOk result (λ planned. IsPlanned desk.now.tables planned (plan_on_file desk.now.tables now (request_data request.now) id.now file.now)) }
{
    if has_method(request, &Method::DELETE) {
        plan_delete_file(alloc, desk, now, id, file)
    } else {
        refuse_method(alloc, Allow::File)
    }
}

/// A cancellation of the file that two texts name.
fn plan_delete_file(
    alloc: Global,
    desk: &Desk,
    now: u64,
    id: &str,
    file: &str,
) -> Result<Planned, Memory>
    ensures { IfOk result (λ planned. IsPlanned desk.now.tables planned
        (if_job (job_named desk.now.tables id.now) (λ job. if_file (file_named desk.now.tables job file.now) (file_cancellation now job)))) }
{
    match job_named(desk, id) {
        None => refuse_job(alloc),
        Some(job) => plan_file(alloc, desk, now, &job, file),
    }
}

/// A cancellation of the file of a job that a text names.
fn plan_file(
    alloc: Global,
    desk: &Desk,
    now: u64,
    job: &JobRow,
    file: &str,
) -> Result<Planned, Memory>
    requires number { job_at desk.now.tables.jobs job.now.number ≡ Some job.now }
    ensures { IfOk result (λ planned. IsPlanned desk.now.tables planned
        (if_file (file_named desk.now.tables job.now file.now) (file_cancellation now job.now))) }
{
    match file_named(desk, job, file) {
        None => {
            let reply = no_file(alloc)?;
            Ok(Planned::Replies { reply })
        }
        Some(row) => plan_file_cancellation(alloc, desk, now, job, row),
    }
}

/// A look at a list of the settings.
fn plan_on_list<T: Shown>(
    alloc: Global,
    request: &Request<'_>,
    items: &[T],
) -> Result<Planned, Memory>
    ensures { IfOk result (λ planned. (tables : Tables) → IsPlanned tables planned (look_at_settings (request_data request.now) T.shown items.now)) }
{
    if has_method(request, &Method::GET) {
        let reply = look_at_list(alloc, items)?;
        Ok(Planned::Replies { reply })
    } else {
        refuse_method(alloc, Allow::Get)
    }
}

/// /journal/{n}: a look at an entry.
fn plan_on_entry(alloc: Global, request: &Request<'_>, number: &str) -> Result<Planned, Memory>
    ensures { IfOk result (λ planned. (tables : Tables) → IsPlanned tables planned (plan_on_entry (request_data request.now) number.now)) }
{
    if has_method(request, &Method::GET) {
        Ok(Planned::Looks {
            number: entry_number(number),
        })
    } else {
        refuse_method(alloc, Allow::Get)
    }
}

/// No job has the id.
fn refuse_job(alloc: Global) -> Result<Planned, Memory>
    ensures { IfOk result (λ planned. planned ≡ PlannedReply no_job) }
{
    let reply = no_job(alloc)?;
    Ok(Planned::Replies { reply })
}

/// The document breaks a rule.
fn refuse_document(alloc: Global, fault: DocFault) -> Result<Planned, Memory>
    ensures { IfOk result (λ planned. planned ≡ PlannedReply (bad_document fault)) }
{
    let reply = bad_document(alloc, fault)?;
    Ok(Planned::Replies { reply })
}
