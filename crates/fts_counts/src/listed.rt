//! What settings list, which there are none of before the first Restart, and the places of names among the listed endpoints.
ghost use Rattle.std.specs.Prelude.{◌≡◌, ◌≤◌, bytes_eq, length, option_map, position};
ghost use Rattle.fts_counts.specs.Listed.{endpoints_of, links_of, AreKnown, place_among};

use fts_tables::{Endpoint, LinkRule, Settings};

/// The endpoints that settings list; none without settings.
pub fn endpoints_of(settings: Option<&Settings>) -> &[Endpoint]
    ensures endpoints { result.now ≡ endpoints_of (option_map (λ settings. settings.now) settings.entry) }
    ensures few { length result.now ≤ 256 }
{
    match settings {
        Some(settings) => settings.endpoints.as_slice(),
        None => &[],
    }
}

/// The links that settings list, whose ends they list too; none without settings.
pub fn links_of(settings: Option<&Settings>) -> &[LinkRule]
    ensures links { result.now ≡ links_of (option_map (λ settings. settings.now) settings.entry) }
    ensures known { AreKnown (endpoints_of (option_map (λ settings. settings.now) settings.entry)) result.now }
{
    match settings {
        Some(settings) => settings.links.as_slice(),
        None => &[],
    }
}

/// The place of the first endpoint of a name, and their number where none has it.
pub fn place_among(endpoints: &[Endpoint], name: &str) -> usize
    ensures place { result ≡ place_among endpoints.now name.now }
    ensures within { result ≤ length endpoints.now }
{
    first_named(endpoints, name).unwrap_or(endpoints.len())
}

fn first_named(endpoints: &[Endpoint], name: &str) -> Option<usize>
    ensures { result ≡ position (λ endpoint. bytes_eq endpoint.name name.now) endpoints.now }
{
    endpoints
        .iter()
        .position(|endpoint| endpoint.name.as_str() == name)
}
