//! A body as a new job, or the least rule that it breaks; and the priority that another body asks for.
//! Rules first, job after: JSON, shape, URLs, places, files, parameters, kind; then the job is built, field by field, from what the rules keep.
//! So each rule of a `NewJob` follows from rules that were asked (`proofs/JobRules.antt`). `specs/Documents.antt` is the whole definition.
//! Reading takes no more time than the document is long, but for a comparison of each place with each endpoint.
ghost use Rattle.std.specs.Prelude.{◌≡◌, ◌⊎◌, ◌≤◌, ◌++◌, ℕ, List, length, map, option_map, false, None, OnOk, IfOk};
ghost use Rattle.serde_json.specs.View.{view};
ghost use Rattle.fts_tables.specs.declared.limits.TheConstants.{MAX_FILES};
ghost use Rattle.fts_jobdoc.specs.Json.{files_of};
ghost use Rattle.fts_jobdoc.specs.Fields.{has_bad_retry, retry_of, has_bad_priority, priority_in, has_bad_queue_time, queue_hours_of, sid_in};
ghost use Rattle.fts_tables.specs.FirstFault.{first_fault};
ghost use Rattle.fts_jobdoc.specs.Checks.{Gives};
ghost use Rattle.fts_jobdoc.specs.Ends.{ends_of};
ghost use Rattle.fts_jobdoc.specs.Ids.{sid_id};
ghost use Rattle.fts_jobdoc.specs.Document.{IsDocument, IsReadAs};
ghost use Rattle.fts_jobdoc.specs.Documents.{job_of, job_in, priority_of, priority_given, rules_of, new_job, new_file, new_files, files_from, kind_of};

use crate::document::read_document;
use crate::ends::FileEnds;
use crate::files::{activity_of, size_of, some_has_replicas, strategy_of, wanted_digest};
use crate::json::{list_under, natural_or, param, read_value};
use crate::params::{is_set, is_verified, read_delay, sid_of};
use crate::rules::{check_later, check_priority_document};
use crate::{DocFault, Document, sid_id};
use fts_tables::limits::DEFAULT_PRIORITY;
use fts_tables::{Items, JobKind, Label, Memory, NewFile, NewJob, Place, Settings};
use serde_json::Value;
use std::alloc::Global;

/// Reads the body of a submission, as `serde_json` reads JSON (RFC 8259), under the settings in force.
/// The error is the first rule that is broken, of 1 to 24 and then 29, or `Memory` where there was none to tell.
pub fn read_job(alloc: Global, body: &[u8], settings: &Settings) -> Result<NewJob, DocFault>
    ensures { (result ≡ job_of body.now settings.now) ⊎ (result ≡ Err DocFault.Memory) }
{
    job_under(alloc, read_document(alloc, body), settings)
}

/// The job of a body under the settings in force, by what `read_document` gave of the body: what `read_job` answers.
pub fn job_under(
    alloc: Global,
    document: Result<Document, DocFault>,
    settings: &Settings,
) -> Result<NewJob, DocFault>
    requires { IfOk document IsDocument }
    ensures { (body : List ℕ) → IsReadAs body document → Gives result (job_of body settings.now) }
{
    document?.job(alloc, settings)
}

/// Reads the body of a change of priority: from `MIN_PRIORITY` to `MAX_PRIORITY`.
/// The error is the least of the rules 1, 2, 16 and 19 that is broken, where rule 19 also wants the priority to be there, or `Memory`.
pub fn read_priority(alloc: Global, body: &[u8]) -> Result<u32, DocFault>
    ensures { (result ≡ priority_of body.now) ⊎ (result ≡ Err DocFault.Memory) }
{
    match read_value(alloc, body)? {
        Some(document) => priority_given(&document),
        None => Err(DocFault::NotJson),
    }
}

/// The priority that a document asks for, or the least rule that it breaks.
fn priority_given(document: &Value) -> Result<u32, DocFault>
    ensures { result ≡ priority_given (view document.now) }
{
    check_priority_document(document)?;
    Ok(priority_value(document))
}

impl Document {
    /// The job of the document under these settings. The error is the least rule that is broken, of 9 to 24 and then 29, or `Memory`.
    fn job(&self, alloc: Global, settings: &Settings) -> Result<NewJob, DocFault>
        requires { IsDocument self.now }
        ensures { Gives result (job_in (view self.now.value) settings.now) }
    {
        let files = list_under(&self.value, "files");
        let ends = self.ends.as_slice();
        check_later(&self.value, settings, files, ends)?;
        let job = make_job(alloc, &self.value, settings, files, ends)?;
        Ok(job)
    }
}

/// The job of a document that breaks no rule.
fn make_job(
    alloc: Global,
    document: &Value,
    settings: &Settings,
    files: &[Value],
    ends: &[FileEnds],
) -> Result<NewJob, Memory>
    requires kept { first_fault (rules_of (view document.now) settings.now) ≡ None }
    requires files { map view files.now ≡ files_of (view document.now) }
    requires ends { ends.now ≡ map ends_of (map view files.now) }
    ensures { IfOk result (λ job. job ≡ new_job (view document.now) settings.now) }
{
    let made = make_files(alloc, is_verified(document), files, ends)?;
    Ok(NewJob {
        id: job_id(document, settings),
        kind: kind_of(document, files),
        strategy: strategy_of(files),
        priority: priority_value(document),
        retry: retry_value(document),
        delay: read_delay(document),
        overwrite: is_set(document, "overwrite"),
        queue_hours: queue_hours_value(document),
        files: made,
    })
}

/// The id that the document asks for.
fn job_id(document: &Value, settings: &Settings) -> Option<u128>
    ensures { result ≡ option_map (sid_id settings.now.vo) (sid_in (view document.now)) }
{
    match sid_of(document) {
        Some(sid) => Some(sid_id(settings.vo.as_str(), sid)),
        None => None,
    }
}

#[tactic(auto, unfolding(crate::specs::Documents::kind_of))]
fn kind_of(document: &Value, files: &[Value]) -> JobKind
    requires { map view files.now ≡ files_of (view document.now) }
    ensures { result ≡ kind_of (view document.now) }
{
    if is_set(document, "multihop") {
        JobKind::Multihop
    } else if some_has_replicas(files) {
        JobKind::Replica
    } else {
        JobKind::Plain
    }
}

/// The priority, from `MIN_PRIORITY` to `MAX_PRIORITY`.
#[tactic(auto, unfolding(crate::specs::Fields::priority_in))]
fn priority_value(document: &Value) -> u32
    requires { has_bad_priority (view document.now) ≡ false }
    ensures { result ≡ priority_in (view document.now) }
{
    natural_or(param(document, "priority"), DEFAULT_PRIORITY as u64) as u32
}

/// The retries, at most `MAX_RETRY`; -1 means none.
#[tactic(auto, unfolding(crate::specs::Fields::retry_of))]
fn retry_value(document: &Value) -> u32
    requires { has_bad_retry (view document.now) ≡ false }
    ensures { result ≡ retry_of (view document.now) }
{
    natural_or(param(document, "retry"), 0) as u32
}

/// The hours that a file may wait, at most `MAX_QUEUE_HOURS`; 0 is no limit, and -1 means none.
#[tactic(auto, unfolding(crate::specs::Fields::queue_hours_of))]
fn queue_hours_value(document: &Value) -> u32
    requires { has_bad_queue_time (view document.now) ≡ false }
    ensures { result ≡ queue_hours_of (view document.now) }
{
    natural_or(param(document, "max_time_in_queue"), 0) as u32
}

/// The files of the job: file `k` of the document has index `k`, and there is one for each of its sources.
fn make_files(
    alloc: Global,
    verified: bool,
    files: &[Value],
    ends: &[FileEnds],
) -> Result<Items<NewFile>, Memory>
    requires ends { ends.now ≡ map ends_of (map view files.now) }
    requires count { length files.now ≤ MAX_FILES }
    ensures { IfOk result (λ made. made ≡ files_from verified 0 (map view files.now)) }
{
    let mut made = Items::new(alloc);
    for index in 0..files.len() {
        add_files(
            alloc,
            verified,
            index as u32,
            &files[index],
            &ends[index],
            &mut made,
        )?;
    }
    Ok(made)
}

/// Appends a file for each source of one.
fn add_files(
    alloc: Global,
    verified: bool,
    index: u32,
    file: &Value,
    ends: &FileEnds,
    made: &mut Items<NewFile>,
) -> Result<(), Memory>
    ensures { OnOk result (made.new ≡ made.old ++ new_files verified index (view file.now) ends.now) }
{
    for dest in ends.dests.as_slice() {
        add_sources(
            alloc,
            verified,
            index,
            file,
            dest,
            ends.sources.as_slice(),
            made,
        )?;
    }
    Ok(())
}

fn add_sources(
    alloc: Global,
    verified: bool,
    index: u32,
    file: &Value,
    dest: &Place,
    sources: &[Place],
    made: &mut Items<NewFile>,
) -> Result<(), Memory>
    ensures { OnOk result (made.new ≡ made.old ++ map (new_file verified index (view file.now) dest.now) sources.now) }
{
    for source in sources {
        let file = make_file(alloc, verified, index, file, dest, source)?;
        match made.push(file) {
            Ok(()) => {}
            Err(_) => return Err(Memory),
        }
    }
    Ok(())
}

#[tactic(auto, unfolding(crate::specs::Documents::new_file))]
fn make_file(
    alloc: Global,
    verified: bool,
    index: u32,
    file: &Value,
    dest: &Place,
    source: &Place,
) -> Result<NewFile, Memory>
    ensures { IfOk result (λ made. made ≡ new_file verified index (view file.now) dest.now source.now) }
{
    Ok(NewFile {
        index,
        source: source.copy(alloc)?,
        dest: dest.copy(alloc)?,
        size: size_of(file),
        wanted: wanted_digest(verified, file),
        activity: Label::new(alloc, activity_of(file))?,
    })
}
