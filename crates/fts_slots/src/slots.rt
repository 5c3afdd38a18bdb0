//! The list of links held, with the limits that it keeps.
//! Counters beside the list hold what is taken of each link and at each end (`AreTallied`), so `held`, `inbound`, `outbound` and `free` walk none of it;
//! the limits of links stand beside the counters (`AreLimits`), so `free` walks over no listed link either, and the ranks of endpoints, so nobody compares
//! names.
//! Order of a call: the list and the counters change together. `give` looks for the link's first place in the list, four bytes a link held.
//! `take` writes into room that `new` made: as many links as the outbound limits add up to, which no list within the limits passes.
ghost use Rattle.std.specs.Prelude.{◌≡◌, ◌<◌, ◌+◌, ◌↔◌, [], ◌∷◌, ◌++◌, Bool, length, count_by, if◌then◌else◌, IsTrue, IsFalse, IfOk, None};
ghost use Rattle.fts_tables.specs.SettingsData.{is_listed};
ghost use Rattle.fts_tables.specs.declared.settings.LinkAt.{LinkAt};
ghost use Rattle.fts_slots.specs.SlotsData.{
  SlotsData,
  AreWithin,
  IsInside,
  is_free,
  place_of_name,
  link_limit_at,
  held_of,
  outbound_of,
  inbound_of,
  without_link,
};
ghost use Rattle.fts_slots.specs.Ranks.{rank_at};

use crate::counts::{Counts, index_of, place_of_link};
use crate::limits::{
    count_endpoints, inbound_limit_of, outbound_limit_of, place_of_endpoint, whole_outbound,
};
use crate::link_limits::link_limits;
use crate::ranks::name_ranks;
use fts_tables::{EndpointName, LinkAt, Memory, Settings};
use std::alloc::Global;
use std::marker::Model;

/// The slots that ACTIVE files take, with the settings whose limits they keep.
pub struct Slots {
    settings: Settings,
    links: Vec<LinkAt>,
    counts: Counts,
    limits: Vec<u32>,
    ranks: Vec<u16>,
}

impl Drop for Slots {
    fn drop(self) {
        let Slots {
            settings: _,
            links: _,
            counts: _,
            limits: _,
            ranks: _,
        } = self;
    }
}

impl Model for Slots {
    ghost use Rattle.fts_slots.specs.SlotsData.{SlotsData};

    ghost Value = { SlotsData };

    ghost use Rattle.fts_slots.specs.Slots.{slots_data, AreSlots};

    ghost view = { slots_data };

    ghost invariant = { AreSlots };
}

impl Slots {
    /// No slot taken, under a copy of the settings. Makes the room for all that their limits allow.
    pub fn new(alloc: Global, settings: &Settings) -> Result<Slots, Memory>
        ensures slots { IfOk result (λ slots. slots ≡ record { settings = settings.now; links = [] }) }
    {
        let links = Vec::with_capacity(alloc, whole_outbound(settings))?;
        let counts = Counts::new(alloc, count_endpoints(settings))?;
        let limits = link_limits(alloc, settings)?;
        let ranks = name_ranks(alloc, settings)?;
        Ok(Slots {
            settings: settings.copy(alloc)?,
            links,
            counts,
            limits,
            ranks,
        })
    }

    /// The settings whose limits these slots keep.
    pub fn settings(&self) -> &Settings
        ensures settings { result.now ≡ self.now.settings }
    {
        &self.settings
    }

    /// The place of the endpoint with a name, from 0. None exactly where the settings don't list it.
    pub fn place(&self, name: &EndpointName) -> Option<u16>
        ensures place { result ≡ place_of_name self.now.settings name.now }
        ensures none { (result ≡ None) ↔ IsFalse (is_listed self.now.settings.endpoints name.now) }
    {
        let place = place_of_endpoint(self.settings.endpoints.as_slice(), name.as_str());
        match place {
            Some(place) => Some(place as u16),
            None => None,
        }
    }

    /// Whether the link's limit, its source's outbound limit and its destination's inbound limit each exceed what is taken.
    pub fn free(&self, link: LinkAt) -> bool
        requires inside { IsInside self.now.settings link }
        ensures answer { result ≡ is_free self.now link }
    {
        self.held(link) < self.limit(link)
            && self.outbound(link.source) < outbound_limit_of(&self.settings, link.source)
            && self.inbound(link.dest) < inbound_limit_of(&self.settings, link.dest)
    }

    /// How many files may be ACTIVE on a link.
    fn limit(&self, link: LinkAt) -> u32
        requires inside { IsInside self.now.settings link }
        ensures limit { result ≡ link_limit_at self.now.settings link }
    {
        self.limits[index_of(link)]
    }

    /// Where the endpoint at a place stands in the order of names, from 0.
    pub fn rank(&self, place: u16) -> u16
        requires inside { place < length self.now.settings.endpoints }
        ensures rank { result ≡ rank_at self.now.settings place }
    {
        self.ranks[usize::from(place)]
    }

    /// Takes a slot of a free link, in room that is there.
    pub fn take(&mut self, link: LinkAt)
        requires inside { IsInside self.old.settings link }
        requires free { IsTrue (is_free self.old link) }
        ensures slots { self.new ≡ record self.old { links = self.old.links ++ link ∷ [] } }
    {
        self.links.push_reserved(link);
        self.counts.raise(link);
    }

    /// Gives a slot of a link back that was taken: any count of links is one less where it counted this one.
    pub fn give(&mut self, link: LinkAt)
        requires held { 0 < held_of self.old.links link }
        ensures slots { self.new ≡ record self.old { links = without_link link self.old.links } }
        ensures counts { (test : LinkAt → Bool) → count_by test self.old.links ≡ count_by test self.new.links + (if test link then 1 else 0) }
    {
        if let Some(place) = place_of_link(self.links.as_slice(), link) {
            self.counts.lower(link);
            self.links.remove(place);
        }
    }

    /// How many slots of a link are taken.
    pub fn held(&self, link: LinkAt) -> u32
        requires inside { IsInside self.now.settings link }
        ensures count { result ≡ held_of self.now.links link }
        ensures limits { AreWithin self.now }
    {
        self.counts.of_link(link)
    }

    /// How many slots are taken of what goes to the endpoint at a place.
    pub fn inbound(&self, endpoint: u16) -> u32
        requires inside { endpoint < length self.now.settings.endpoints }
        ensures count { result ≡ inbound_of self.now.links endpoint }
    {
        self.counts.to(endpoint)
    }

    /// How many slots are taken of what comes from the endpoint at a place.
    pub fn outbound(&self, endpoint: u16) -> u32
        requires inside { endpoint < length self.now.settings.endpoints }
        ensures count { result ≡ outbound_of self.now.links endpoint }
    {
        self.counts.from(endpoint)
    }
}
