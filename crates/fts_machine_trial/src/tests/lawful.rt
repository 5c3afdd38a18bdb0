//! Jobs and settings of the desk, made where their parts keep the rules of their types, as `fts_tables::rules` decides them.
//! The generator makes lawful parts alone, so None is a slip of its own.
ghost use Rattle.std.specs.Prelude.{◌&&◌, length, nat_le, bytes_eq, IsTrue};
ghost use Rattle.std.specs.List.{list_all, list_any};
ghost use Rattle.fts_tables.specs.SettingsData.{are_apart, is_within, is_label, is_active_limit, is_same_endpoint, is_same_pair, is_same_activity, is_listed, default_activity};

use super::plain::{PlainNewJob, PlainSettings};
use fts_tables::limits::{
    MAX_DELAY, MAX_ENDPOINTS, MAX_FILES, MAX_LINKS, MAX_QUEUE_HOURS, MAX_RETRY, MAX_WEIGHT,
    MAX_WEIGHTS,
};
use fts_tables::rules::{
    all_go_elsewhere, are_apart, are_known, has_default, has_shape, have_activity_labels,
    have_file_labels, have_limits, have_link_labels, have_link_limits, have_sizes, have_weights,
    is_active_limit, is_priority,
};
use fts_tables::{Endpoint, Items, Label, LinkRule, Memory, NewFile, NewJob, Settings, Weight};
use std::alloc::Global;

/// Whether there are some endpoints, not too many, each with a name and limits of its own.
fn are_lawful_endpoints(endpoints: &[Endpoint]) -> bool
    ensures count { IsTrue result → IsTrue (is_within 1 MAX_ENDPOINTS (length endpoints.now)) }
    ensures names { IsTrue result → IsTrue (are_apart is_same_endpoint endpoints.now) }
    ensures limits { IsTrue result → IsTrue (list_all (λ endpoint. is_active_limit endpoint.inbound && is_active_limit endpoint.outbound) endpoints.now) }
{
    1 <= endpoints.len()
        && endpoints.len() <= MAX_ENDPOINTS
        && are_apart(endpoints)
        && have_limits(endpoints)
}

/// Whether there are not too many links, each of a pair of its own, between listed endpoints, with a limit and a label.
fn are_lawful_links(endpoints: &[Endpoint], links: &[LinkRule]) -> bool
    ensures count { IsTrue result → IsTrue (nat_le (length links.now) MAX_LINKS) }
    ensures pairs { IsTrue result → IsTrue (are_apart is_same_pair links.now) }
    ensures ends { IsTrue result → IsTrue (list_all (λ link. is_listed endpoints.now link.source && is_listed endpoints.now link.dest) links.now) }
    ensures limits { IsTrue result → IsTrue (list_all (λ link. is_active_limit link.max_active) links.now) }
    ensures labels { IsTrue result → IsTrue (list_all (λ link. is_label link.symbolic) links.now) }
{
    links.len() <= MAX_LINKS
        && are_apart(links)
        && are_known(endpoints, links)
        && have_link_limits(links)
        && have_link_labels(links)
}

/// Whether there are not too many activities, each with a name of its own and a weight, and the default one among them.
fn are_lawful_weights(weights: &[Weight]) -> bool
    ensures count { IsTrue result → IsTrue (nat_le (length weights.now) MAX_WEIGHTS) }
    ensures names { IsTrue result → IsTrue (are_apart is_same_activity weights.now) }
    ensures labels { IsTrue result → IsTrue (list_all (λ weight. is_label weight.name) weights.now) }
    ensures ranges { IsTrue result → IsTrue (list_all (λ weight. is_within 1 MAX_WEIGHT weight.weight) weights.now) }
    ensures default { IsTrue result → IsTrue (list_any (λ weight. bytes_eq weight.name default_activity) weights.now) }
{
    weights.len() <= MAX_WEIGHTS
        && are_apart(weights)
        && have_activity_labels(weights)
        && have_weights(weights)
        && has_default(weights)
}

/// Settings of these lists, where they keep the rules.
pub fn lawful_settings(
    alloc: Global,
    plain: &PlainSettings,
    endpoints: Items<Endpoint>,
    links: Items<LinkRule>,
    weights: Items<Weight>,
) -> Result<Option<Settings>, Memory> {
    let vo = Label::new(alloc, "demo")?;
    let default_max_active = plain.default_max_active;
    if !is_active_limit(default_max_active)
        || !are_lawful_endpoints(endpoints.as_slice())
        || !are_lawful_links(endpoints.as_slice(), links.as_slice())
        || !are_lawful_weights(weights.as_slice())
    {
        return Ok(None);
    }
    Ok(Some(Settings {
        vo,
        workers: 2,
        default_max_active,
        endpoints,
        links,
        weights,
    }))
}

/// A job of these files, where they keep the rules.
pub fn lawful_job(plain: &PlainNewJob, files: Items<NewFile>) -> Option<NewJob> {
    let terms = plain.terms;
    if !is_priority(terms.priority)
        || terms.retry > MAX_RETRY
        || terms.delay > MAX_DELAY
        || terms.queue_hours > MAX_QUEUE_HOURS
    {
        return None;
    }
    if files.as_slice().is_empty() || files.as_slice().len() > MAX_FILES {
        return None;
    }
    if !all_go_elsewhere(files.as_slice())
        || !have_sizes(files.as_slice())
        || !have_file_labels(files.as_slice())
        || !has_shape(terms.kind, files.as_slice())
    {
        return None;
    }
    Some(NewJob {
        id: plain.id,
        kind: terms.kind,
        strategy: terms.strategy,
        priority: terms.priority,
        retry: terms.retry,
        delay: terms.delay,
        overwrite: false,
        queue_hours: terms.queue_hours,
        files,
    })
}
