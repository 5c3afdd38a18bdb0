//! The rules in the order of the table, from rule 2 on: the first that is broken is the answer, since each is asked only after the lesser ones.
//! A group of rules is one function, a line a rule, whose result is the first fault of its list in `specs/Documents.antt`.
//! URLs are read between the shape and what is behind it, as rule 8.
ghost use Rattle.std.specs.Prelude.{◌≡◌, map, option_map};
ghost use Rattle.serde_json.specs.View.{view};
ghost use Rattle.fts_tables.specs.FirstFault.{fault_if, first_fault, unless};
ghost use Rattle.fts_jobdoc.specs.Documents.{shape_rules, ends_rules, files_rules, params_rules, kind_rules, later_rules, one_param_rules, priority_rules, has_replicas_among, has_wrong_hops};
ghost use Rattle.fts_jobdoc.specs.Fields.{unoffered_in};
ghost use Rattle.fts_jobdoc.specs.Sids.{sid_rules};

use crate::DocFault;
use crate::ends::{FileEnds, breaks_chain, some_has_same_url, some_has_unknown_endpoint};
use crate::files::{
    some_has_bad_activity, some_has_bad_checksum, some_has_bad_filesize, some_has_bad_strategy,
    some_has_other_algorithm, some_has_replicas, some_has_wrong_destinations,
    some_has_wrong_sources, some_is_no_object,
};
use crate::json::is_object;
use crate::params::{
    has_bad_delay, has_bad_priority, has_bad_queue_time, has_bad_retry, has_bad_sid,
    has_bad_verify, has_wrong_params, is_set, is_verified, lacks_priority, unoffered_in,
};
use fts_tables::Settings;
use fts_tables::limits::MAX_FILES;
use serde_json::Value;

/// A rule's fault, where the rule is broken.
fn refuse_if(broken: bool, fault: DocFault) -> Result<(), DocFault>
    ensures { result ≡ unless (fault_if broken fault) tt }
{
    if broken { Err(fault) } else { Ok(()) }
}

/// The document's shape, rules 2 to 7.
#[tactic(auto, unfolding(crate::specs::Documents::shape_rules))]
pub fn check_shape(document: &Value, files: &[Value]) -> Result<(), DocFault>
    ensures { result ≡ unless (first_fault (shape_rules (view document.now) (map view files.now))) tt }
{
    refuse_if(!is_object(document), DocFault::NotObject)?;
    refuse_if(files.is_empty(), DocFault::NoFiles)?;
    refuse_if(files.len() > MAX_FILES, DocFault::TooManyFiles)?;
    refuse_if(some_is_no_object(files), DocFault::FileNotObject)?;
    refuse_if(some_has_wrong_sources(files), DocFault::SourcesWrong)?;
    refuse_if(
        some_has_wrong_destinations(files),
        DocFault::DestinationsWrong,
    )
}

/// Where the files come from and go to, rules 9 and 10.
#[tactic(auto, unfolding(crate::specs::Documents::ends_rules))]
fn check_ends(settings: &Settings, ends: &[FileEnds]) -> Result<(), DocFault>
    ensures { result ≡ unless (first_fault (ends_rules settings.now ends.now)) tt }
{
    refuse_if(
        some_has_unknown_endpoint(settings, ends),
        DocFault::UnknownEndpoint,
    )?;
    refuse_if(some_has_same_url(ends), DocFault::SameUrl)
}

/// The other fields of the files, rules 11 to 15.
#[tactic(auto, unfolding(crate::specs::Documents::files_rules))]
fn check_files(verified: bool, files: &[Value]) -> Result<(), DocFault>
    ensures { result ≡ unless (first_fault (files_rules verified (map view files.now))) tt }
{
    refuse_if(some_has_bad_filesize(files), DocFault::BadFilesize)?;
    refuse_if(
        verified && some_has_bad_checksum(files),
        DocFault::BadChecksum,
    )?;
    refuse_if(
        verified && some_has_other_algorithm(files),
        DocFault::OtherAlgorithm,
    )?;
    refuse_if(some_has_bad_strategy(files), DocFault::BadStrategy)?;
    refuse_if(some_has_bad_activity(files), DocFault::BadActivity)
}

/// The job's parameters, rules 16 to 21.
#[tactic(auto, unfolding(crate::specs::Documents::params_rules))]
fn check_parameters(document: &Value) -> Result<(), DocFault>
    ensures { result ≡ unless (first_fault (params_rules (view document.now))) tt }
{
    refuse_if(has_wrong_params(document), DocFault::ParamsNotObject)?;
    refuse_if(has_bad_retry(document), DocFault::BadRetry)?;
    refuse_if(has_bad_delay(document), DocFault::BadDelay)?;
    refuse_if(has_bad_priority(document), DocFault::BadPriority)?;
    refuse_if(has_bad_verify(document), DocFault::BadVerify)?;
    check_offered(document)
}

/// Nothing is asked for that isn't offered, rule 21.
fn check_offered(document: &Value) -> Result<(), DocFault>
    ensures { result ≡ unless (option_map DocFault.NotOffered (unoffered_in (view document.now))) tt }
{
    match unoffered_in(document) {
        Some(field) => Err(DocFault::NotOffered { field }),
        None => Ok(()),
    }
}

/// The job's kind, its id, and the time that its files may wait: rules 22 to 24, and 29.
#[tactic(auto, unfolding(crate::specs::Documents::kind_rules))]
fn check_kind(document: &Value, files: &[Value], ends: &[FileEnds]) -> Result<(), DocFault>
    ensures { result ≡ unless (first_fault (kind_rules (view document.now) (map view files.now) ends.now)) tt }
{
    refuse_if(has_replicas_among(files), DocFault::ReplicaManyFiles)?;
    refuse_if(
        has_wrong_hops(document, files, ends),
        DocFault::MultihopShape,
    )?;
    refuse_if(has_bad_sid(document), DocFault::BadSid)?;
    refuse_if(has_bad_queue_time(document), DocFault::BadQueueTime)
}

fn has_replicas_among(files: &[Value]) -> bool
    ensures { result ≡ has_replicas_among (map view files.now) }
{
    some_has_replicas(files) && files.len() > 1
}

fn has_wrong_hops(document: &Value, files: &[Value], ends: &[FileEnds]) -> bool
    ensures { result ≡ has_wrong_hops (view document.now) (map view files.now) ends.now }
{
    is_set(document, "multihop") && (some_has_replicas(files) || breaks_chain(ends))
}

/// The rules behind the one on URLs: 9 to 24, and 29.
pub fn check_later(
    document: &Value,
    settings: &Settings,
    files: &[Value],
    ends: &[FileEnds],
) -> Result<(), DocFault>
    ensures { result ≡ unless (first_fault (later_rules (view document.now) settings.now (map view files.now) ends.now)) tt }
{
    check_ends(settings, ends)?;
    check_files(is_verified(document), files)?;
    check_parameters(document)?;
    check_kind(document, files, ends)
}

/// The rules of a document of which one parameter is read: 2, 16, and whether that one is broken.
fn check_one_param(document: &Value, broken: bool, fault: DocFault) -> Result<(), DocFault>
    ensures { result ≡ unless (first_fault (one_param_rules (view document.now) (fault_if broken fault))) tt }
{
    refuse_if(!is_object(document), DocFault::NotObject)?;
    refuse_if(has_wrong_params(document), DocFault::ParamsNotObject)?;
    refuse_if(broken, fault)
}

/// The rules of a document that asks for another priority: 2, 16 and 19.
#[tactic(auto, unfolding(crate::specs::Documents::priority_rules))]
pub fn check_priority_document(document: &Value) -> Result<(), DocFault>
    ensures { result ≡ unless (first_fault (priority_rules (view document.now))) tt }
{
    check_one_param(document, lacks_priority(document), DocFault::BadPriority)
}

/// The rules of a document as a client looks at it, which sends it under an own id: 2, 16 and 24.
#[tactic(auto, unfolding(crate::specs::Sids::sid_rules))]
pub fn check_sid_document(document: &Value) -> Result<(), DocFault>
    ensures { result ≡ unless (first_fault (sid_rules (view document.now))) tt }
{
    check_one_param(document, has_bad_sid(document), DocFault::BadSid)
}
