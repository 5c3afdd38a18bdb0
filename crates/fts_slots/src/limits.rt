//! The limits of links and endpoints: by the names of endpoints, and by their places in the settings. Both ways read one rule or one endpoint.
ghost use Rattle.std.specs.Prelude.{◌≡◌, ◌<◌, ◌≤◌, ◌&&◌, ◌↔◌, ℕ, Some, None, IfSome, IsFalse, option_map, find, position, bytes_eq, length, sum_by};
ghost use Rattle.std.specs.Option.{option_map_or};
ghost use Rattle.fts_tables.specs.SettingsData.{SettingsData, IsSettings, is_listed};
ghost use Rattle.fts_tables.specs.Limits.{endpoint_at, link_limit, outbound_limit, inbound_limit};
ghost use Rattle.fts_tables.specs.declared.limits.TheConstants.{MAX_ENDPOINTS};
ghost use Rattle.fts_slots.specs.SlotsData.{name_at, outbound_limit_at, inbound_limit_at};

use fts_tables::{Endpoint, LinkRule, Settings};

/// The first place of a name among endpoints.
fn first_of_name(endpoints: &[Endpoint], name: &str) -> Option<usize>
    ensures place { result ≡ position (λ endpoint. bytes_eq endpoint.name name.now) endpoints.now }
    ensures bound { IfSome result (λ place. place < length endpoints.now) }
{
    endpoints
        .iter()
        .position(|endpoint| endpoint.name.as_str() == name)
}

/// The place of the endpoint with a name, where it is listed.
pub fn place_of_endpoint(endpoints: &[Endpoint], name: &str) -> Option<usize>
    ensures place { result ≡ position (λ endpoint. bytes_eq endpoint.name name.now) endpoints.now }
    ensures bound { IfSome result (λ place. place < length endpoints.now) }
    ensures none { (result ≡ None) ↔ IsFalse (is_listed endpoints.now name.now) }
{
    first_of_name(endpoints, name)
}

/// The endpoint of a name, where the settings list it.
pub fn endpoint_at<'a>(settings: &'a Settings, name: &str) -> Option<&'a Endpoint>
    ensures endpoint { option_map (λ endpoint. endpoint.now) result ≡ endpoint_at (Some settings.now) name.now }
{
    settings
        .endpoints
        .as_slice()
        .iter()
        .find(|endpoint| endpoint.name.as_str() == name)
}

/// The rule of a link by the names of its ends, where it is listed.
fn link_rule<'a>(settings: &'a Settings, source: &str, dest: &str) -> Option<&'a LinkRule>
    ensures rule { option_map (λ rule. rule.now) result
        ≡ find (λ rule. bytes_eq rule.source source.now && bytes_eq rule.dest dest.now) settings.now.links }
{
    settings.links.as_slice().iter().find(|rule| rule.source.as_str() == source
        && rule.dest.as_str() == dest)
}

/// How many files may be ACTIVE on a link, by the names of its ends: from 1 to 1,000, as the settings list it, else their common limit.
pub fn link_limit(settings: &Settings, source: &str, dest: &str) -> u32
    ensures limit { result ≡ link_limit (Some settings.now) source.now dest.now }
{
    match link_rule(settings, source, dest) {
        Some(rule) => rule.max_active,
        None => settings.default_max_active,
    }
}

/// How many files may come from an endpoint, and 0 where there is none.
fn outbound_of(endpoint: Option<&Endpoint>) -> u32
    ensures limit { result ≡ option_map_or (λ endpoint. endpoint.now.outbound) endpoint.entry 0 }
{
    match endpoint {
        Some(endpoint) => endpoint.outbound,
        None => 0,
    }
}

/// How many files may go to an endpoint, and 0 where there is none.
fn inbound_of(endpoint: Option<&Endpoint>) -> u32
    ensures limit { result ≡ option_map_or (λ endpoint. endpoint.now.inbound) endpoint.entry 0 }
{
    match endpoint {
        Some(endpoint) => endpoint.inbound,
        None => 0,
    }
}

/// How many files may come from the endpoint at a place.
pub fn outbound_limit_of(settings: &Settings, place: u16) -> u32
    ensures limit { result ≡ outbound_limit_at settings.now place }
{
    outbound_of(settings.endpoints.as_slice().get(usize::from(place)))
}

/// How many files may go to the endpoint at a place.
pub fn inbound_limit_of(settings: &Settings, place: u16) -> u32
    ensures limit { result ≡ inbound_limit_at settings.now place }
{
    inbound_of(settings.endpoints.as_slice().get(usize::from(place)))
}

/// How many endpoints the settings list: from 1 to 256.
pub fn count_endpoints(settings: &Settings) -> usize
    ensures count { result ≡ length settings.now.endpoints }
    ensures few { result ≤ MAX_ENDPOINTS }
{
    settings.endpoints.as_slice().len()
}

/// How many files may come from all endpoints together.
pub fn whole_outbound(settings: &Settings) -> usize
    ensures sum { result ≡ sum_by (λ endpoint. endpoint.outbound) settings.now.endpoints }
{
    let endpoints = settings.endpoints.as_slice();
    let mut sum: usize = 0;
    for place in 0..endpoints.len() {
        sum += endpoints[place].outbound as usize;
    }
    sum
}

/// A law: since no endpoint is listed twice, the limits by its place are the machine's, which are by its name.
pub fn limits_by_place_are_by_name()
    ensures outbound { (settings : SettingsData) (place : ℕ) → IsSettings settings → place < length settings.endpoints
        → outbound_limit (Some settings) (name_at settings place) ≡ outbound_limit_at settings place }
    ensures inbound { (settings : SettingsData) (place : ℕ) → IsSettings settings → place < length settings.endpoints
        → inbound_limit (Some settings) (name_at settings place) ≡ inbound_limit_at settings place }
{}
