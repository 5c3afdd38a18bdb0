//! The tests on each file of a document, in the order of the rules, and what each of a file's fields stands for where the rules hold.
//! A test `has_..` answers its definition in `specs/Fields.antt` for one file; `some_has_..` asks it of all files, in one walk.
ghost use Rattle.std.specs.Prelude.{◌≡◌, map};
ghost use Rattle.std.specs.List.{list_any};
ghost use Rattle.serde_json.specs.View.{view};
ghost use Rattle.fts_jobdoc.specs.Fields.{is_no_object, has_wrong_sources, has_wrong_destinations, has_bad_filesize, size_of, has_bad_checksum, has_other_algorithm, wanted_of, has_bad_strategy, file_strategy, strategy_of, is_activity, has_bad_activity, activity_of, has_replicas};

use crate::checksum::{Checksum, read_checksum};
use crate::json::{
    field, has_texts, is_object, is_outside, is_this_text, list_under, natural_or, text_of,
};
use fts_tables::Strategy;
use fts_tables::limits::{DEFAULT_ACTIVITY, MAX_LABEL_BYTES, MAX_SIZE, MAX_SOURCES};
use serde_json::Value;

/// Whether some file is no object.
pub fn some_is_no_object(files: &[Value]) -> bool
    ensures { result ≡ list_any is_no_object (map view files.now) }
{
    files.iter().any(|file| !is_object(file))
}

/// Whether some file has no list of 1 to `MAX_SOURCES` texts as its sources.
pub fn some_has_wrong_sources(files: &[Value]) -> bool
    ensures { result ≡ list_any has_wrong_sources (map view files.now) }
{
    files.iter().any(|file| has_wrong_sources(file))
}

#[tactic(auto, unfolding(crate::specs::Fields::has_wrong_sources))]
fn has_wrong_sources(file: &Value) -> bool
    ensures { result ≡ has_wrong_sources (view file.now) }
{
    !has_texts(file, "sources", 1, MAX_SOURCES)
}

/// Whether some file has no list of one text as its destinations.
pub fn some_has_wrong_destinations(files: &[Value]) -> bool
    ensures { result ≡ list_any has_wrong_destinations (map view files.now) }
{
    files.iter().any(|file| has_wrong_destinations(file))
}

#[tactic(auto, unfolding(crate::specs::Fields::has_wrong_destinations))]
fn has_wrong_destinations(file: &Value) -> bool
    ensures { result ≡ has_wrong_destinations (view file.now) }
{
    !has_texts(file, "destinations", 1, 1)
}

/// Whether some file's size is no whole number of its range, in bytes.
pub fn some_has_bad_filesize(files: &[Value]) -> bool
    ensures { result ≡ list_any has_bad_filesize (map view files.now) }
{
    files.iter().any(|file| has_bad_filesize(file))
}

#[tactic(auto, unfolding(crate::specs::Fields::has_bad_filesize))]
fn has_bad_filesize(file: &Value) -> bool
    ensures { result ≡ has_bad_filesize (view file.now) }
{
    is_outside(field(file, "filesize"), 0, MAX_SIZE)
}

/// The size that a file is to have, in bytes; 0 where any will do.
#[tactic(auto, unfolding(crate::specs::Fields::size_of))]
pub fn size_of(file: &Value) -> u64
    ensures { result ≡ size_of (view file.now) }
{
    natural_or(field(file, "filesize"), 0)
}

/// Whether some file's checksum is none.
pub fn some_has_bad_checksum(files: &[Value]) -> bool
    ensures { result ≡ list_any has_bad_checksum (map view files.now) }
{
    files.iter().any(|file| has_bad_checksum(file))
}

#[tactic(auto, unfolding(crate::specs::Fields::has_bad_checksum))]
fn has_bad_checksum(file: &Value) -> bool
    ensures { result ≡ has_bad_checksum (view file.now) }
{
    match read_checksum(file) {
        Checksum::Malformed => true,
        Checksum::NotGiven | Checksum::Other | Checksum::Md5(_) => false,
    }
}

/// Whether some file's checksum is of another algorithm than MD5.
pub fn some_has_other_algorithm(files: &[Value]) -> bool
    ensures { result ≡ list_any has_other_algorithm (map view files.now) }
{
    files.iter().any(|file| has_other_algorithm(file))
}

#[tactic(auto, unfolding(crate::specs::Fields::has_other_algorithm))]
fn has_other_algorithm(file: &Value) -> bool
    ensures { result ≡ has_other_algorithm (view file.now) }
{
    match read_checksum(file) {
        Checksum::Other => true,
        Checksum::NotGiven | Checksum::Malformed | Checksum::Md5(_) => false,
    }
}

/// The digest that a file is to have: where verification is asked for, that of its checksum.
#[tactic(auto, unfolding(crate::specs::Fields::wanted_of))]
pub fn wanted_digest(verified: bool, file: &Value) -> Option<[u8; 16]>
    ensures { result ≡ wanted_of verified (view file.now) }
{
    if !verified {
        return None;
    }
    match read_checksum(file) {
        Checksum::Md5(digest) => Some(digest),
        Checksum::NotGiven | Checksum::Malformed | Checksum::Other => None,
    }
}

/// Whether some file's strategy is none.
pub fn some_has_bad_strategy(files: &[Value]) -> bool
    ensures { result ≡ list_any has_bad_strategy (map view files.now) }
{
    files.iter().any(|file| has_bad_strategy(file))
}

#[tactic(auto, unfolding(crate::specs::Fields::has_bad_strategy))]
fn has_bad_strategy(file: &Value) -> bool
    ensures { result ≡ has_bad_strategy (view file.now) }
{
    match field(file, "selection_strategy") {
        Some(strategy) => !(is_this_text(strategy, "auto") || is_this_text(strategy, "orderly")),
        None => false,
    }
}

/// The strategy of a job: that of its first file.
#[tactic(auto, unfolding(crate::specs::Fields::strategy_of))]
pub fn strategy_of(files: &[Value]) -> Strategy
    ensures { result ≡ strategy_of (map view files.now) }
{
    match files {
        [] => Strategy::Auto,
        [first, ..] => file_strategy(first),
    }
}

#[tactic(auto, unfolding(crate::specs::Fields::file_strategy))]
fn file_strategy(file: &Value) -> Strategy
    ensures { result ≡ file_strategy (view file.now) }
{
    match field(file, "selection_strategy") {
        Some(strategy) => {
            if is_this_text(strategy, "orderly") {
                Strategy::Orderly
            } else {
                Strategy::Auto
            }
        }
        None => Strategy::Auto,
    }
}

/// Whether some file's activity is the name of none.
pub fn some_has_bad_activity(files: &[Value]) -> bool
    ensures { result ≡ list_any has_bad_activity (map view files.now) }
{
    files.iter().any(|file| has_bad_activity(file))
}

#[tactic(auto, unfolding(crate::specs::Fields::has_bad_activity))]
fn has_bad_activity(file: &Value) -> bool
    ensures { result ≡ has_bad_activity (view file.now) }
{
    match field(file, "activity") {
        Some(activity) => !is_activity(activity),
        None => false,
    }
}

fn is_activity(value: &Value) -> bool
    ensures { result ≡ is_activity (view value.now) }
{
    match value.as_str() {
        Some(name) => name.len() <= MAX_LABEL_BYTES,
        None => false,
    }
}

/// The activity that a file belongs to.
#[tactic(auto, unfolding(crate::specs::Fields::activity_of))]
pub fn activity_of(file: &Value) -> &str
    ensures { result.now ≡ activity_of (view file.now) }
{
    match text_of(field(file, "activity")) {
        Some(activity) => {
            if activity.is_empty() {
                DEFAULT_ACTIVITY
            } else {
                activity
            }
        }
        None => DEFAULT_ACTIVITY,
    }
}

/// Whether a file has two sources or more.
#[tactic(auto, unfolding(crate::specs::Fields::has_replicas))]
fn has_replicas(file: &Value) -> bool
    ensures { result ≡ has_replicas (view file.now) }
{
    list_under(file, "sources").len() > 1
}

/// Whether some file has two sources or more.
pub fn some_has_replicas(files: &[Value]) -> bool
    ensures { result ≡ list_any has_replicas (map view files.now) }
{
    files.iter().any(|file| has_replicas(file))
}
