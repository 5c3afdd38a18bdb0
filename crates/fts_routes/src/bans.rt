//! /ban/se: the banned storages, a ban, or the end of one. The reply to a ban says how many files it cancels, counted before it is applied: so no
//! 500 follows an accepted ban.
//! Order of checks: the method, then the rules of the document or of the query.
ghost use Rattle.std.specs.Prelude.{◌≡◌, ℕ, Some, IfOk, IsSome, option_map, option_and_then};
ghost use Rattle.std.specs.Option.{option_copied};
ghost use Rattle.std.specs.Cow.{cow_str_bytes};
ghost use Rattle.fts_tables.specs.SettingsData.{is_listed};
ghost use Rattle.fts_tables.specs.Tables.{Tables};
ghost use Rattle.fts_tables.specs.Step.{step};
ghost use Rattle.fts_tables.specs.declared.commands.Command.TheVariants.{Ban};
ghost use Rattle.fts_jobdoc.specs.Bans.{ban_of, storage_named};
ghost use Rattle.fts_wire.specs.Answered.{request_data};
ghost use Rattle.fts_routes.specs.Bodies.{IsReadOf};
ghost use Rattle.fts_routes.specs.Objects.{ban_object, settings_in, unban_object};
ghost use Rattle.fts_routes.specs.Queries.{storage_asked};
ghost use Rattle.fts_routes.specs.Refusals.{bad_ban, shows};
ghost use Rattle.fts_routes.specs.Replies.{plan_on_bans, if_ban, if_storage, banning, unbanning, cancelled_in};
ghost use Rattle.fts_routes.specs.Planned.{IsPlanned};
ghost use Rattle.fts_routes.specs.declared.planned.Planned.TheVariants.{Replies as PlannedReply};

use crate::bodies::{ReadBody, ban_read};
use crate::counts::count_cancelled;
use crate::looks::look_at_list;
use crate::methods::has_method;
use crate::named::settings_of;
use crate::objects::{ban_value, unban_value};
use crate::planned::{Planned, refuse_method};
use crate::queries::{bytes_of, first_value};
use crate::replies::{bad_ban, shows};
use fts_desk::Desk;
use fts_jobdoc::{BanAsk, BanFault, read_storage};
use fts_tables::rules::is_listed;
use fts_tables::{Command, EndpointName, Memory};
use fts_wire::{Allow, Reply, Request};
use http::Method;
use std::alloc::Global;
use std::borrow::CowStr;

/// /ban/se: a look at the banned storages, a ban, or the end of one.
pub fn plan_on_bans(
    alloc: Global,
    desk: &Desk,
    request: &Request<'_>,
    read: ReadBody,
    now: u64,
) -> Result<Planned, Memory>
    requires settings { IsSome desk.now.tables.settings }
    requires read { IsReadOf request.now.body.now read }
    ensures { IfOk result (λ planned. IsPlanned desk.now.tables planned (plan_on_bans desk.now.tables now (request_data request.now))) }
{
    if has_method(request, &Method::GET) {
        let reply = look_at_list(alloc, desk.banned())?;
        Ok(Planned::Replies { reply })
    } else if has_method(request, &Method::POST) {
        plan_by_document(alloc, desk, request.body, read, now)
    } else if has_method(request, &Method::DELETE) {
        plan_by_query(alloc, request.query, now)
    } else {
        refuse_method(alloc, Allow::Job)
    }
}

/// A ban, by its document.
fn plan_by_document(
    alloc: Global,
    desk: &Desk,
    body: &[u8],
    read: ReadBody,
    now: u64,
) -> Result<Planned, Memory>
    requires settings { IsSome desk.now.tables.settings }
    requires read { IsReadOf body.now read }
    ensures { IfOk result (λ planned. IsPlanned desk.now.tables planned (if_ban (ban_of body.now) (banning desk.now.tables now))) }
{
    match ban_read(alloc, body, read) {
        Ok(asked) => plan_ban(alloc, desk, now, asked),
        Err(BanFault::Memory) => Err(Memory),
        Err(fault) => refuse_ban(alloc, fault),
    }
}

/// A ban, with the reply that says how many files it cancels.
fn plan_ban(alloc: Global, desk: &Desk, now: u64, asked: BanAsk) -> Result<Planned, Memory>
    requires settings { IsSome desk.now.tables.settings }
    ensures { IfOk result (λ planned. IsPlanned desk.now.tables planned (banning desk.now.tables now asked)) }
{
    let cancelled = cancelled_by_ban(desk, asked.storage.as_str(), asked.cancel);
    let reply = show_ban(alloc, asked.storage.as_str(), cancelled)?;
    let command = Command::Ban {
        now,
        storage: asked.storage,
        cancel: asked.cancel,
    };
    Ok(Planned::Tries { command, reply })
}

/// How many files a ban of a storage cancels. Where the settings don't list the storage it is refused, and cancels none.
fn cancelled_by_ban(desk: &Desk, storage: &str, cancel: bool) -> u32
    requires settings { IsSome desk.now.tables.settings }
    ensures { (now : ℕ) → result ≡ cancelled_in (step desk.now.tables (Ban now storage.now cancel)) }
{
    if cancel && is_known(desk, storage) {
        count_cancelled(desk, storage)
    } else {
        0
    }
}

/// Whether the settings in force list a storage.
fn is_known(desk: &Desk, storage: &str) -> bool
    requires settings { IsSome desk.now.tables.settings }
    ensures { result ≡ is_listed (settings_in desk.now.tables).endpoints storage.now }
{
    is_listed(settings_of(desk).endpoints.as_slice(), storage)
}

fn show_ban(alloc: Global, storage: &str, cancelled: u32) -> Result<Reply, Memory>
    ensures { IfOk result (λ reply. reply ≡ shows (ban_object storage.now cancelled)) }
{
    let value = ban_value(alloc, storage, cancelled)?;
    shows(alloc, &value)
}

/// The end of the ban of the storage that a query names.
fn plan_by_query(alloc: Global, query: Option<&str>, now: u64) -> Result<Planned, Memory>
    ensures { IfOk result (λ planned. (tables : Tables)
        → IsPlanned tables planned (if_storage (storage_asked (option_copied query.entry)) (unbanning now))) }
{
    let text = first_value(alloc, bytes_of(query), "storage")?;
    match storage_of(alloc, &text)? {
        None => refuse_ban(alloc, BanFault::BadStorage),
        Some(storage) => plan_unban(alloc, now, storage),
    }
}

/// The storage that a text names, where there is a text, and it names one.
fn storage_of(alloc: Global, text: &Option<CowStr<'_>>) -> Result<Option<EndpointName>, Memory>
    ensures { IfOk result (λ storage. storage ≡ option_and_then storage_named (option_map cow_str_bytes text.now)) }
{
    match text {
        None => Ok(None),
        Some(text) => read_storage(alloc, text.as_str()),
    }
}

/// The end of a ban, with the reply that names its storage.
fn plan_unban(alloc: Global, now: u64, storage: EndpointName) -> Result<Planned, Memory>
    ensures { IfOk result (λ planned. (tables : Tables) → IsPlanned tables planned (unbanning now storage)) }
{
    let reply = show_unban(alloc, storage.as_str())?;
    let command = Command::Unban { now, storage };
    Ok(Planned::Tries { command, reply })
}

fn show_unban(alloc: Global, storage: &str) -> Result<Reply, Memory>
    ensures { IfOk result (λ reply. reply ≡ shows (unban_object storage.now)) }
{
    let value = unban_value(alloc, storage)?;
    shows(alloc, &value)
}

/// The document of a ban breaks a rule, or the query of the end of one names no storage.
fn refuse_ban(alloc: Global, fault: BanFault) -> Result<Planned, Memory>
    ensures { IfOk result (λ planned. planned ≡ PlannedReply (bad_ban fault)) }
{
    let reply = bad_ban(alloc, fault)?;
    Ok(Planned::Replies { reply })
}
