//! The rules of the values of a draft, each by one function, whose result is the rule's definition in `specs/Rules.antt`.
//! `check_values` has them in the order in which they are answered; a draft that passes keeps the rules of `Settings`.
//! What a rule asks is decided by `fts_tables::rules`, but for the names of storages and the pairs of links: these rules come before
//! that of counts, so a hostile text may list tens of thousands, and ordered sets (`distinct`) tell them apart.
ghost use Rattle.std.specs.Prelude.{◌≡◌, ◌⊎◌, ◌&&◌, None, Some, MatchResult};
ghost use Rattle.std.specs.List.{list_all};
ghost use Rattle.std.specs.BTreeSet.{contains_text};
ghost use Rattle.fts_config.specs.Distinct.{endpoint_key, HasKeys};
ghost use Rattle.fts_tables.specs.FirstFault.{unless, first_fault, fault_unless};
ghost use Rattle.fts_config.specs.Faults.{Gives};
ghost use Rattle.fts_config.specs.Rules.{twice_endpoint, twice_link, unknown_endpoint, limit_range, weight_range, no_default_weight, worker_range, too_many, bad_label, twice_weight, faults_of};

use crate::SettingsFault;
use crate::distinct::distinct_keys;
use crate::draft::Draft;
use fts_tables::limits::{MAX_ENDPOINTS, MAX_LINKS, MAX_WEIGHTS, MAX_WORKERS};
use fts_tables::rules::{
    are_apart, has_default, have_activity_labels, have_limits, have_link_labels, have_link_limits,
    have_weights, is_active_limit, is_label,
};
use fts_tables::{LinkRule, Settings};
use std::alloc::Global;
use std::collections::BTreeSet;

fn is_known(names: &BTreeSet<String>, link: &LinkRule) -> bool
    ensures { result ≡ (contains_text names.now link.now.source && contains_text names.now link.now.dest) }
{
    names.contains(link.source.as_str()) && names.contains(link.dest.as_str())
}

fn are_known(names: &BTreeSet<String>, links: &[LinkRule]) -> bool
    ensures { result ≡ list_all (λ link. contains_text names.now link.source && contains_text names.now link.dest) links.now }
{
    links.iter().all(|link| is_known(names, link))
}

fn verdict(kept: bool, fault: SettingsFault) -> Result<(), SettingsFault>
    ensures { result ≡ unless (fault_unless kept fault) tt }
{
    if kept { Ok(()) } else { Err(fault) }
}

/// Rule 5, and the names of the storages where it is kept.
#[tactic(auto, unfolding(crate::specs::Rules::twice_endpoint))]
fn check_endpoints(alloc: Global, draft: &Draft) -> Result<BTreeSet<String>, SettingsFault>
    ensures { MatchResult result (λ names. (twice_endpoint draft.now ≡ None) × HasKeys endpoint_key draft.now.endpoints names)
        (λ fault. (fault ≡ SettingsFault.Memory) ⊎ (twice_endpoint draft.now ≡ Some fault)) }
{
    match distinct_keys(alloc, draft.endpoints.as_slice())? {
        Some(names) => Ok(names),
        None => Err(SettingsFault::TwiceEndpoint),
    }
}

/// Rule 6.
#[tactic(auto, unfolding(crate::specs::Rules::twice_link))]
fn check_links(alloc: Global, draft: &Draft) -> Result<(), SettingsFault>
    ensures { Gives result (unless (twice_link draft.now) tt) }
{
    let keys = distinct_keys(alloc, draft.links.as_slice())?;
    verdict(keys.is_some(), SettingsFault::TwiceLink)
}

/// Rule 7, by the names of the storages.
#[tactic(auto, unfolding(crate::specs::Rules::unknown_endpoint))]
fn check_ends(names: &BTreeSet<String>, draft: &Draft) -> Result<(), SettingsFault>
    requires { HasKeys endpoint_key draft.now.endpoints names.now }
    ensures { result ≡ unless (unknown_endpoint draft.now) tt }
{
    verdict(
        are_known(names, draft.links.as_slice()),
        SettingsFault::UnknownEndpoint,
    )
}

/// Rule 8.
#[tactic(auto, unfolding(crate::specs::Rules::limit_range))]
fn check_limits(draft: &Draft) -> Result<(), SettingsFault>
    ensures { result ≡ unless (limit_range draft.now) tt }
{
    let kept = is_active_limit(draft.default_max_active)
        && have_limits(draft.endpoints.as_slice())
        && have_link_limits(draft.links.as_slice());
    verdict(kept, SettingsFault::LimitRange)
}

/// Rule 9.
#[tactic(auto, unfolding(crate::specs::Rules::weight_range))]
fn check_weights(draft: &Draft) -> Result<(), SettingsFault>
    ensures { result ≡ unless (weight_range draft.now) tt }
{
    verdict(
        have_weights(draft.weights.as_slice()),
        SettingsFault::WeightRange,
    )
}

/// Rule 10.
#[tactic(auto, unfolding(crate::specs::Rules::no_default_weight))]
fn check_default(draft: &Draft) -> Result<(), SettingsFault>
    ensures { result ≡ unless (no_default_weight draft.now) tt }
{
    verdict(
        has_default(draft.weights.as_slice()),
        SettingsFault::NoDefaultWeight,
    )
}

/// Rule 11.
#[tactic(auto, unfolding(crate::specs::Rules::worker_range))]
fn check_workers(draft: &Draft) -> Result<(), SettingsFault>
    ensures { result ≡ unless (worker_range draft.now) tt }
{
    verdict(
        1 <= draft.workers && draft.workers <= MAX_WORKERS,
        SettingsFault::WorkerRange,
    )
}

/// Rule 12.
#[tactic(auto, unfolding(crate::specs::Rules::too_many))]
fn check_counts(draft: &Draft) -> Result<(), SettingsFault>
    ensures { result ≡ unless (too_many draft.now) tt }
{
    let endpoints = draft.endpoints.as_slice().len();
    let kept = 1 <= endpoints
        && endpoints <= MAX_ENDPOINTS
        && draft.links.as_slice().len() <= MAX_LINKS
        && draft.weights.as_slice().len() <= MAX_WEIGHTS;
    verdict(kept, SettingsFault::TooMany)
}

/// Rule 14.
#[tactic(auto, unfolding(crate::specs::Rules::bad_label))]
fn check_labels(draft: &Draft) -> Result<(), SettingsFault>
    ensures { result ≡ unless (bad_label draft.now) tt }
{
    let kept = is_label(draft.vo.as_str())
        && have_link_labels(draft.links.as_slice())
        && have_activity_labels(draft.weights.as_slice());
    verdict(kept, SettingsFault::BadLabel)
}

/// Rule 15.
#[tactic(auto, unfolding(crate::specs::Rules::twice_weight))]
fn check_activities(draft: &Draft) -> Result<(), SettingsFault>
    ensures { result ≡ unless (twice_weight draft.now) tt }
{
    verdict(
        are_apart(draft.weights.as_slice()),
        SettingsFault::TwiceWeight,
    )
}

#[tactic(auto, unfolding(crate::specs::Rules::faults_of))]
fn check_values(alloc: Global, draft: &Draft) -> Result<(), SettingsFault>
    ensures { Gives result (unless (first_fault (faults_of draft.now)) tt) }
{
    let names = check_endpoints(alloc, draft)?;
    check_links(alloc, draft)?;
    check_ends(&names, draft)?;
    check_limits(draft)?;
    check_weights(draft)?;
    check_default(draft)?;
    check_workers(draft)?;
    check_counts(draft)?;
    check_labels(draft)?;
    check_activities(draft)
}

/// The settings that a draft is, or the fault of the first rule that it breaks.
pub fn settled(alloc: Global, draft: Draft) -> Result<Settings, SettingsFault>
    ensures { Gives result (unless (first_fault (faults_of draft)) draft) }
{
    check_values(alloc, &draft)?;
    Ok(draft.into_settings())
}
