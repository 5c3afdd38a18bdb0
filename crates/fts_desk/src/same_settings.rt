//! Whether settings are those in force: a restart under them needs no queue made anew.
//! One private trait and one loop serve every list.
ghost use Rattle.std.specs.Prelude.{◌≡◌, true, Some};

use fts_tables::{Endpoint, LinkRule, Settings, Weight};

/// What can be told to be the same.
trait Same: Sized {
    /// Whether it is the same: true only where it is.
    fn is_same(&self, other: &Self) -> bool
        ensures { result ≡ true → self.now ≡ other.now };
}

impl Same for Endpoint {
    fn is_same(&self, other: &Endpoint) -> bool {
        self.name.as_str() == other.name.as_str()
            && self.inbound == other.inbound
            && self.outbound == other.outbound
    }
}

impl Same for LinkRule {
    fn is_same(&self, other: &LinkRule) -> bool {
        self.symbolic.as_str() == other.symbolic.as_str()
            && self.source.as_str() == other.source.as_str()
            && self.dest.as_str() == other.dest.as_str()
            && self.max_active == other.max_active
    }
}

impl Same for Weight {
    fn is_same(&self, other: &Weight) -> bool {
        self.name.as_str() == other.name.as_str() && self.weight == other.weight
    }
}

/// Whether two lists are the same: true only where they are.
fn are_same<T: Same>(one: &[T], other: &[T]) -> bool
    ensures same { result ≡ true → one.now ≡ other.now }
{
    if one.len() != other.len() {
        return false;
    }
    for place in 0..one.len() {
        if !one[place].is_same(&other[place]) {
            return false;
        }
    }
    true
}

/// Whether two settings are the same: true only where they are.
fn are_same_settings(one: &Settings, other: &Settings) -> bool
    ensures same { result ≡ true → one.now ≡ other.now }
{
    one.vo.as_str() == other.vo.as_str()
        && one.workers == other.workers
        && one.default_max_active == other.default_max_active
        && are_same(one.endpoints.as_slice(), other.endpoints.as_slice())
        && are_same(one.links.as_slice(), other.links.as_slice())
        && are_same(one.weights.as_slice(), other.weights.as_slice())
}

/// Whether settings are those in force: true only where they are.
pub fn are_in_force(settings: &Settings, in_force: &Option<Settings>) -> bool
    ensures same { result ≡ true → in_force.now ≡ Some settings.now }
{
    match in_force {
        Some(in_force) => are_same_settings(in_force, settings),
        None => false,
    }
}
