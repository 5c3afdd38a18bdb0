//! How many rows wait or run on each link, by the names of the link's ends, in their order, so that a link is found by a binary search.
//! Contracts see the list of links counted and that of the links known. Kept in its type (`AreLoads`): each link goes before those behind it.
//! Order: `make_room` for a link before `add`, which takes no memory. A link that was known stays known.
ghost use Rattle.std.specs.Prelude.{◌≡◌, ◌<◌, ◌≤◌, [], length, map, false, slice_get, IsTrue, OnOk, OnErr};
ghost use Rattle.std.specs.List.{prefix_len, position_from};
ghost use Rattle.std.specs.Option.{option_map_or};
ghost use Rattle.fts_index.specs.Links.{Link, LinkLists, HasOneMore, link_between, is_link, is_link_before, count_of, is_among, with_link, AreInOrder};
ghost use Rattle.fts_index.specs.Loads.{link_of_known};

use fts_tables::{EndpointName, Memory};
use std::alloc::Global;
use std::marker::Model;

/// A link, and how many rows wait or run on it.
#[derive(Drop)]
pub struct Known {
    source: EndpointName,
    dest: EndpointName,
    count: u32,
}

/// The links of rows that wait or run, each as often as it has such rows, and the links that there is room for.
pub struct Loads {
    alloc: Global,
    known: Vec<Known>,
}

impl Drop for Loads {
    fn drop(self) {
        let Loads { alloc: _, known: _ } = self;
    }
}

impl Model for Loads {
    ghost use Rattle.fts_index.specs.Links.{LinkLists};

    ghost Value = { LinkLists };

    ghost use Rattle.fts_index.specs.Loads.{link_lists, AreLoads};

    ghost view = { link_lists };

    ghost invariant = { AreLoads };
}

/// Whether an entry's link goes before another: by the source's name, then by the destination's.
fn is_before(entry: &Known, source: &EndpointName, dest: &EndpointName) -> bool
    ensures answer { result ≡ is_link_before (link_of_known entry.now) (link_between source.now dest.now) }
{
    entry
        .source
        .as_str()
        .cmp(source.as_str())
        .then(entry.dest.as_str().cmp(dest.as_str()))
        .is_lt()
}

/// How many entries go before a link.
fn count_before(known: &[Known], source: &EndpointName, dest: &EndpointName) -> usize
    requires order { AreInOrder (map link_of_known known.now) }
    ensures count { result ≡ prefix_len (λ other. is_link_before other (link_between source.now dest.now)) (map link_of_known known.now) }
    ensures inside { result ≤ length known.now }
{
    known.partition_point(|entry| is_before(entry, source, dest))
}

/// Whether the entry at a place is a link's.
fn is_at(known: &[Known], place: usize, source: &EndpointName, dest: &EndpointName) -> bool
    ensures answer { result ≡ option_map_or (is_link (link_between source.now dest.now)) (slice_get (map link_of_known known.now) place) false }
{
    match known.get(place) {
        Some(entry) => source.as_str() == entry.source.as_str()
            && dest.as_str() == entry.dest.as_str(),
        None => false,
    }
}

impl Loads {
    /// No link. What grows later takes its memory from `alloc`.
    pub fn new(alloc: Global) -> Loads
        ensures lists { result ≡ record { links = []; known = [] } }
    {
        Loads {
            alloc,
            known: Vec::new(alloc),
        }
    }

    /// The place of a link's entry. None exactly where it has none.
    fn place(&self, source: &EndpointName, dest: &EndpointName) -> Option<usize>
        ensures place { result ≡ position_from (is_link (link_between source.now dest.now)) 0 self.now.known }
    {
        let known = self.known.as_slice();
        let place = count_before(known, source, dest);
        if is_at(known, place, source, dest) {
            Some(place)
        } else {
            None
        }
    }

    /// Makes room for the rows of a link: it is known from then on. At an `Err` all stays as it is.
    pub fn make_room(&mut self, source: &EndpointName, dest: &EndpointName) -> Result<(), Memory>
        ensures ok { OnOk result (self.new ≡ record self.old { known = with_link self.old.known (link_between source.now dest.now) }) }
        ensures err { OnErr result (self.new ≡ self.old) }
    {
        if let Some(_) = self.place(source, dest) {
            return Ok(());
        }
        self.known.reserve(1)?;
        let entry = Known {
            source: source.copy(self.alloc)?,
            dest: dest.copy(self.alloc)?,
            count: 0,
        };
        let place = count_before(self.known.as_slice(), source, dest);
        let _ = self.known.insert(place, entry);
        Ok(())
    }

    /// One row more on a known link: any count of links is one more where it counts this one.
    pub fn add(&mut self, source: &EndpointName, dest: &EndpointName)
        requires known { IsTrue (is_among self.old.known (link_between source.now dest.now)) }
        requires fewer { count_of self.old.links (link_between source.now dest.now) < 4294967295 }
        ensures more { HasOneMore (link_between source.now dest.now) self.old.links self.new.links }
        ensures known { self.new.known ≡ self.old.known }
    {
        if let Some(place) = self.place(source, dest) {
            self.known[place].count += 1;
        }
    }

    /// One row less on a link that has one: any count of links is one less where it counted this one.
    pub fn take(&mut self, source: &EndpointName, dest: &EndpointName)
        requires there { 0 < count_of self.old.links (link_between source.now dest.now) }
        ensures less { HasOneMore (link_between source.now dest.now) self.new.links self.old.links }
        ensures known { self.new.known ≡ self.old.known }
    {
        if let Some(place) = self.place(source, dest) {
            self.known[place].count -= 1;
        }
    }

    /// How many rows wait or run on a link, and 0 of one that isn't known.
    pub fn count(&self, source: &EndpointName, dest: &EndpointName) -> u32
        ensures count { result ≡ count_of self.now.links (link_between source.now dest.now) }
    {
        match self.place(source, dest) {
            Some(place) => self.known[place].count,
            None => 0,
        }
    }
}
