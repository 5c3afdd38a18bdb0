//! What is replied about a topic, by a view: a JSON text, or why there is none.
//! Keeps: a reply is the definition's (`specs/Responses.antt`), or the one for want of memory. What the texts say is `fts_board`'s and `fts_pages`'.
ghost use Rattle.std.specs.Prelude.{◌≡◌, IfOk, option_copied, option_map, option_and_then};
ghost use Rattle.fts_board.specs.History.{history_text};
ghost use Rattle.fts_pages.specs.Pages.{page_text, job_text};
ghost use Rattle.fts_pages.specs.declared.pages.TheConstants.{MAX_LOOKED_AT};
ghost use Rattle.fts_routes.specs.Routes.{job_named};
ghost use Rattle.fts_board.specs.Snapshot.{snapshot_text};
ghost use Rattle.fts_panel.specs.Queries.{history_asked, jobs_asked, id_in};
ghost use Rattle.fts_panel.specs.Responses.{IsOrNoMemory, shows, shown_at, reply_by, reply_on, reply_of_view, bad_query, no_job};

use crate::asked::Topic;
use crate::queries::{history_asked, id_in, jobs_asked};
use crate::refusals::{bad_query, no_job, no_memory, reply_to};
use crate::view::View;
use fts_board::{Shown, snapshot};
use fts_chronicle::Chronicle;
use fts_desk::Desk;
use fts_disk::Disk;
use fts_pages::{job_page, jobs_page};
use fts_tables::{Items, Memory};
use fts_watch::Monitor;
use fts_wire::{Allow, Reply, statuses};
use std::alloc::Global;

/// What is asked about a topic, by a request's path and query.
#[derive(Clone, Copy)]
pub struct Question<'r> {
    pub topic: Topic,
    pub path: &'r str,
    pub query: Option<&'r str>,
}

/// The reply to what is asked at a moment, in seconds since 1970, by a view.
pub fn reply_of_view<D: Disk>(
    alloc: Global,
    question: Question<'_>,
    now: u64,
    view: &View<D>,
) -> Reply
    ensures { IsOrNoMemory result (reply_of_view question.entry.topic question.entry.path.now (option_copied question.entry.query) now view.now) }
{
    match view {
        View::Shown {
            monitor,
            began,
            damage,
        } => reply_on(alloc, question, now, monitor, *began, *damage),
        View::Unread {
            monitor: _,
            began: _,
            fault,
        } => reply_to(alloc, *fault),
        View::Shut { disk: _, fault } => reply_to(alloc, *fault),
    }
}

/// The reply over what was folded since a moment, and which may be damaged behind that.
fn reply_on<D: Disk>(
    alloc: Global,
    question: Question<'_>,
    now: u64,
    monitor: &Monitor<D>,
    began: u64,
    damage: Option<u64>,
) -> Reply
    ensures { IsOrNoMemory result (reply_on question.entry.topic question.entry.path.now (option_copied question.entry.query) now monitor.now began damage) }
{
    match question.topic {
        Topic::Snapshot => snapshot_reply(alloc, monitor, now, began, damage),
        Topic::History => history_reply(alloc, monitor, question.query, now),
        Topic::Jobs => jobs_reply(alloc, monitor.desk(), monitor.chronicle(), question.query),
        Topic::Job => job_reply(alloc, monitor, question.path),
    }
}

/// The reply that shows a text.
fn shows(text: Vec<u8>) -> Reply
    ensures { result ≡ shows text.items }
{
    Reply {
        status: statuses::OK,
        allow: Allow::None,
        body: Items::from_vec(text),
    }
}

/// The snapshot of what was folded.
fn snapshot_reply<D: Disk>(
    alloc: Global,
    monitor: &Monitor<D>,
    now: u64,
    began: u64,
    damage: Option<u64>,
) -> Reply
    ensures { IsOrNoMemory result
        (shows (snapshot_text monitor.now.tables monitor.now.commands monitor.now.chronicle.reports (shown_at now monitor.now began damage))) }
{
    let chronicle = monitor.chronicle();
    let shown = Shown {
        now,
        fold_time: began,
        last_entry_time: chronicle.moment(),
        restart_time: chronicle.restart(),
        used: monitor.used(),
        damage,
    };
    match snapshot(alloc, monitor.desk(), chronicle.reports(), shown) {
        Ok(text) => shows(text),
        Err(Memory) => no_memory(alloc),
    }
}

/// The history that a query asks for.
fn history_reply<D: Disk>(
    alloc: Global,
    monitor: &Monitor<D>,
    query: Option<&str>,
    now: u64,
) -> Reply
    ensures { IsOrNoMemory result (reply_by bad_query (option_map
        (λ asked. history_text monitor.now.tables.rows monitor.now.chronicle.reports asked now) (history_asked (option_copied query.entry)))) }
{
    match history_asked(
        alloc,
        monitor.desk(),
        monitor.chronicle().reports(),
        query,
        now,
    ) {
        Ok(Some(text)) => shows(text),
        Ok(None) => bad_query(alloc),
        Err(Memory) => no_memory(alloc),
    }
}

/// The page of jobs that a query asks for.
fn jobs_reply(alloc: Global, desk: &Desk, chronicle: &Chronicle, query: Option<&str>) -> Reply
    ensures { IsOrNoMemory result (reply_by bad_query (option_map (page_text MAX_LOOKED_AT desk.now.tables chronicle.now.told.finishes)
        (jobs_asked desk.now.tables (option_copied query.entry)))) }
{
    match jobs_text(alloc, desk, chronicle, query) {
        Ok(Some(text)) => shows(text),
        Ok(None) => bad_query(alloc),
        Err(Memory) => no_memory(alloc),
    }
}

/// The text of that page; `Ok(None)` exactly where the query asks for none.
fn jobs_text(
    alloc: Global,
    desk: &Desk,
    chronicle: &Chronicle,
    query: Option<&str>,
) -> Result<Option<Vec<u8>>, Memory>
    ensures { IfOk result (λ text. option_map (λ text. text.items) text
        ≡ option_map (page_text MAX_LOOKED_AT desk.now.tables chronicle.now.told.finishes) (jobs_asked desk.now.tables (option_copied query.entry))) }
{
    match jobs_asked(alloc, desk, query)? {
        Some(asked) => {
            let text = jobs_page(alloc, desk, chronicle, &asked)?;
            Ok(Some(text))
        }
        None => Ok(None),
    }
}

/// The job that a path names, its files, and what happened to them.
fn job_reply<D: Disk>(alloc: Global, monitor: &Monitor<D>, path: &str) -> Reply
    ensures { IsOrNoMemory result (reply_by no_job
        (option_map (job_text monitor.now.tables monitor.now.chronicle) (option_and_then (job_named monitor.now.tables) (id_in path.now)))) }
{
    match id_in(path) {
        Some(id) => match job_page(alloc, monitor.desk(), monitor.chronicle(), id) {
            Ok(Some(text)) => shows(text),
            Ok(None) => no_job(alloc),
            Err(Memory) => no_memory(alloc),
        },
        None => no_job(alloc),
    }
}
