//! The limits of all links in one array, each at the place of its link's counter: so a limit is had without a walk over the listed links.
//! Keeps: each is the limit by the names of the link's ends (`AreLimits`). Made once, for as long as the settings stand.
//! Order: the common limit everywhere, then the listed ones from the last to the first, so that of two for one link the first stands.
ghost use Rattle.std.specs.Prelude.{◌≡◌, ◌*◌, ◌<◌, ◌≤◌, [], ◌∷◌, true, IfOk, length, IsTrue};
ghost use Rattle.fts_tables.specs.SettingsData.{SettingsData, are_apart, is_same_endpoint};
ghost use Rattle.fts_slots.specs.SlotsData.{index_of};
ghost use Rattle.fts_slots.specs.LinkLimits.{AreLimits};

use crate::counts::index_of;
use crate::limits::{count_endpoints, place_of_endpoint};
use fts_tables::limits::MAX_ENDPOINTS;
use fts_tables::{Endpoint, LinkAt, LinkRule, Memory, Settings};
use std::alloc::Global;

/// Writes the limit of a listed link to its place.
fn write_limit(limits: &mut [u32], endpoints: &[Endpoint], rule: &LinkRule)
    requires few { length endpoints.now ≤ MAX_ENDPOINTS }
    requires apart { IsTrue (are_apart is_same_endpoint endpoints.now) }
    requires places { length limits.old ≡ length endpoints.now * MAX_ENDPOINTS }
    ensures limits { (settings : SettingsData) → settings.endpoints ≡ endpoints.now → AreLimits settings limits.old
        → AreLimits (record settings { links = rule.now ∷ settings.links }) limits.new }
{
    match place_of_endpoint(endpoints, rule.source.as_str()) {
        None => {}
        Some(source) => match place_of_endpoint(endpoints, rule.dest.as_str()) {
            None => {}
            Some(dest) => {
                let link = LinkAt {
                    source: source as u16,
                    dest: dest as u16,
                };
                limits[index_of(link)] = rule.max_active;
            }
        },
    }
}

/// Writes the limits of all listed links to their places.
fn write_limits(limits: &mut [u32], settings: &Settings)
    requires common { AreLimits (record settings.now { links = [] }) limits.old }
    ensures limits { AreLimits settings.now limits.new }
{
    let (endpoints, rules) = (settings.endpoints.as_slice(), settings.links.as_slice());
    for behind in 0..rules.len() {
        write_limit(limits, endpoints, &rules[rules.len() - 1 - behind]);
    }
}

/// The limits of all links between the endpoints of the settings, each at its place; or want of memory.
pub fn link_limits(alloc: Global, settings: &Settings) -> Result<Vec<u32>, Memory>
    ensures limits { IfOk result (λ limits. AreLimits settings.now limits.items) }
{
    let places = count_endpoints(settings) * MAX_ENDPOINTS;
    let mut limits = vec![in alloc; settings.default_max_active; places]?;
    write_limits(&mut limits, settings);
    Ok(limits)
}
