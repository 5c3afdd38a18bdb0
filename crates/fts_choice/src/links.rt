//! Which link a claim takes its file from, given all links in order with what each holds. It is for whoever keeps such a list.
//! `picked_links_are_the_claims`: it is the link of the machine's own claim.
ghost use Rattle.std.specs.Prelude.{◌≡◌, ◌↔◌, ◌<◌, ◌&&◌, ℕ, List, length, map, slice_get, None, IfSome, IsFalse, option_map, option_and_then};
ghost use Rattle.std.specs.List.{list_any};
ghost use Rattle.fts_tables.specs.Tables.{Tables};
ghost use Rattle.fts_tables.specs.Limits.{eligible_rows};
ghost use Rattle.fts_tables.specs.Choice.{least, is_link_before};
ghost use Rattle.fts_choice.specs.LinkOrder.{LinkNames, link_of, AreInOrder, AreAllLinks, chance_of};
ghost use Rattle.fts_choice.specs.LeastPlaces.{is_lighter, is_better, least_place, is_eligible_at, held_of};

/// A link: how many files it has ACTIVE, and whether one of its files may be claimed.
#[derive(Clone, Copy, Debug, PartialEq, Eq)]
pub struct LinkChance {
    pub held: u32,
    pub eligible: bool,
}

/// Whether there is a link at a place with a file that may be claimed.
fn has_chance(links: &[LinkChance], place: usize) -> bool
    ensures answer { result ≡ is_eligible_at links.now place }
{
    match links.get(place) {
        Some(link) => link.eligible,
        None => false,
    }
}

/// What the link at a place holds, and 0 where there is none.
fn held_at(links: &[LinkChance], place: usize) -> u32
    ensures held { result ≡ held_of links.now place }
{
    match links.get(place) {
        Some(link) => link.held,
        None => 0,
    }
}

/// Whether the link at a place holds less than that at the best place so far.
fn is_better_place(links: &[LinkChance], best: Option<usize>, place: usize) -> bool
    ensures answer { result ≡ is_better (is_lighter (held_of links.now)) best place }
{
    match best {
        Some(best) => held_at(links, place) < held_at(links, best),
        None => true,
    }
}

/// Whether the link at a place goes before that at the best place so far.
fn is_next(links: &[LinkChance], best: Option<usize>, place: usize) -> bool
    ensures answer { result ≡ (is_eligible_at links.now place && is_better (is_lighter (held_of links.now)) best place) }
{
    has_chance(links, place) && is_better_place(links, best, place)
}

/// The place of the link of a claim, given all links in order of their names, the source's before the destination's: of those with a file that
/// may be claimed the one that holds the least, and of several the first. None exactly where no link has such a file.
pub fn pick_link(links: &[LinkChance]) -> Option<usize>
    ensures place { result ≡ least_place (is_eligible_at links.now) (held_of links.now) (length links.now) }
    ensures none { (result ≡ None) ↔ IsFalse (list_any (λ link. link.eligible) links.now) }
    ensures inside { IfSome result (λ place. place < length links.now) }
{
    let mut best: Option<usize> = None;
    for place in 0..links.len() {
        if is_next(links, best, place) {
            best = Some(place);
        }
    }
    best
}

/// A law: of all links in order of their names, each with its chance, the picked place is that of the link on which the machine's claim takes a row.
pub fn picked_links_are_the_claims()
    ensures link { (tables : Tables) (now : ℕ) (links : List LinkNames) → AreInOrder links → AreAllLinks tables now links
        → let chances = map (chance_of tables now) links in
        option_and_then (slice_get links) (least_place (is_eligible_at chances) (held_of chances) (length links))
        ≡ option_map link_of (least (is_link_before tables.rows) (eligible_rows tables now)) }
{}
