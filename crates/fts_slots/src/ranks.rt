//! The ranks of endpoints in the order of their names, each at its endpoint's place: so two links are told by numbers which of them goes first by name.
//! Made once, for as long as the settings stand.
ghost use Rattle.std.specs.Prelude.{◌≡◌, ◌≤◌, [], IfOk, length, vec_capacity};
ghost use Rattle.fts_tables.specs.declared.limits.TheConstants.{MAX_ENDPOINTS};
ghost use Rattle.fts_slots.specs.Ranks.{rank_of, ranks_of};

use crate::limits::count_endpoints;
use fts_tables::{Endpoint, Memory, Settings};
use std::alloc::Global;

/// How many endpoints have names in front of a name.
fn rank_of(endpoints: &[Endpoint], name: &str) -> u16
    requires few { length endpoints.now ≤ MAX_ENDPOINTS }
    ensures rank { result ≡ rank_of endpoints.now name.now }
{
    endpoints
        .iter()
        .filter(|other| other.name.as_str() < name)
        .count() as u16
}

/// The ranks of endpoints, one after the other, in room that is there.
fn push_ranks(ranks: &mut Vec<u16>, endpoints: &[Endpoint])
    requires few { length endpoints.now ≤ MAX_ENDPOINTS }
    requires none { ranks.old.items ≡ [] }
    requires room { length endpoints.now ≤ vec_capacity ranks.old }
    ensures ranks { ranks.new.items ≡ ranks_of endpoints.now }
{
    for place in 0..endpoints.len() {
        ranks.push_reserved(rank_of(endpoints, endpoints[place].name.as_str()));
    }
}

/// The ranks of all endpoints, each at its place; or want of memory.
pub fn name_ranks(alloc: Global, settings: &Settings) -> Result<Vec<u16>, Memory>
    ensures ranks { IfOk result (λ ranks. ranks.items ≡ ranks_of settings.now.endpoints) }
{
    let mut ranks = Vec::with_capacity(alloc, count_endpoints(settings))?;
    push_ranks(&mut ranks, settings.endpoints.as_slice());
    Ok(ranks)
}
