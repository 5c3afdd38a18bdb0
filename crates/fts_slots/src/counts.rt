//! Counters of the links held: one for each link, for what comes from each endpoint and for what goes to it.
//! Keeps: in an array of counters each stands at its own place, and those of the links of one source stand together (`index_of`).
//! Each call takes constant time but `new`, which makes all the room. That the counters are the counts of the list is a fact of the list's type (`AreTallied`).
ghost use Rattle.std.specs.Prelude.{
  ◌≡◌,
  position,
  ℕ,
  ◌+◌,
  ◌-◌,
  ◌*◌,
  ◌<◌,
  ◌≤◌,
  ◌^◌,
  List,
  [],
  ◌∷◌,
  ◌++◌,
  Some,
  IfOk,
  length,
  remove,
  slice_get,
  slice_set,
  slice_index,
};
ghost use Rattle.fts_tables.specs.declared.settings.LinkAt.{LinkAt};
ghost use Rattle.fts_slots.specs.SlotsData.{index_of, is_same_link};
ghost use Rattle.fts_slots.specs.Tallies.{AreTallied, HasPlaces};

use fts_tables::limits::MAX_ENDPOINTS;
use fts_tables::{LinkAt, Memory};
use std::alloc::Global;

/// How many slots are taken of each link, from each endpoint and to each endpoint.
#[derive(Drop)]
pub struct Counts {
    pub links: Vec<u32>,
    pub outbound: Vec<u32>,
    pub inbound: Vec<u32>,
}

/// The place of a link's counter.
pub fn index_of(link: LinkAt) -> usize
    ensures index { result ≡ index_of link }
{
    usize::from(link.source) * MAX_ENDPOINTS + usize::from(link.dest)
}

/// One more at a place.
fn raise_at(counts: &mut [u32], place: usize)
    requires inside { place < length counts.old }
    ensures counts { slice_index counts.old place < 2 ^ 32 - 1 → counts.new ≡ slice_set counts.old place (slice_index counts.old place + 1) }
{
    counts[place] = counts[place].saturating_add(1);
}

/// One less at a place.
fn lower_at(counts: &mut [u32], place: usize)
    requires inside { place < length counts.old }
    ensures counts { counts.new ≡ slice_set counts.old place (slice_index counts.old place - 1) }
{
    counts[place] = counts[place].saturating_sub(1);
}

impl Counts {
    /// Counters of no link, for so many endpoints.
    pub fn new(alloc: Global, endpoints: usize) -> Result<Counts, Memory>
        requires few { endpoints ≤ MAX_ENDPOINTS }
        ensures tallied { IfOk result (AreTallied endpoints []) }
    {
        Ok(Counts {
            links: vec![in alloc; 0; endpoints * MAX_ENDPOINTS]?,
            outbound: vec![in alloc; 0; endpoints]?,
            inbound: vec![in alloc; 0; endpoints]?,
        })
    }

    /// One more of a link.
    pub fn raise(&mut self, link: LinkAt)
        requires places { HasPlaces self.old link }
        ensures tallied { (endpoints : ℕ) (links : List LinkAt) → length links < 2 ^ 32 - 1
            → AreTallied endpoints links self.old → AreTallied endpoints (links ++ link ∷ []) self.new }
    {
        raise_at(&mut self.links, index_of(link));
        raise_at(&mut self.outbound, usize::from(link.source));
        raise_at(&mut self.inbound, usize::from(link.dest));
    }

    /// One less of a link that stands at a place of the list.
    pub fn lower(&mut self, link: LinkAt)
        requires places { HasPlaces self.old link }
        ensures tallied { (endpoints : ℕ) (links : List LinkAt) (place : ℕ) → slice_get links place ≡ Some link
            → AreTallied endpoints links self.old → AreTallied endpoints (remove links place) self.new }
    {
        lower_at(&mut self.links, index_of(link));
        lower_at(&mut self.outbound, usize::from(link.source));
        lower_at(&mut self.inbound, usize::from(link.dest));
    }

    /// How many slots of a link are taken.
    pub fn of_link(&self, link: LinkAt) -> u32
        requires inside { index_of link < length self.now.links.items }
        ensures count { result ≡ slice_index self.now.links.items (index_of link) }
    {
        self.links[index_of(link)]
    }

    /// How many slots are taken of what comes from an endpoint.
    pub fn from(&self, endpoint: u16) -> u32
        requires inside { endpoint < length self.now.outbound.items }
        ensures count { result ≡ slice_index self.now.outbound.items endpoint }
    {
        self.outbound[usize::from(endpoint)]
    }

    /// How many slots are taken of what goes to an endpoint.
    pub fn to(&self, endpoint: u16) -> u32
        requires inside { endpoint < length self.now.inbound.items }
        ensures count { result ≡ slice_index self.now.inbound.items endpoint }
    {
        self.inbound[usize::from(endpoint)]
    }
}

/// Whether two links are one.
fn is_same_link(one: &LinkAt, other: &LinkAt) -> bool
    ensures answer { result ≡ is_same_link one.now other.now }
{
    other.source == one.source && other.dest == one.dest
}

/// The first place of a link in a list.
pub fn place_of_link(links: &[LinkAt], link: LinkAt) -> Option<usize>
    ensures place { result ≡ position (is_same_link link) links.now }
{
    links.iter().position(|other| is_same_link(&link, other))
}
