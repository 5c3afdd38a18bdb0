//! Places of jobs in their list. Jobs are numbered in their order from 1, so those behind a number stand together, and are found without a walk.
//! Keeps: from the first place to the last are the jobs behind the one that is asked for, and no others (`places_behind`, clause `jobs`).
ghost use Rattle.std.specs.Prelude.{◌≡◌, ◌≤◌, ◌<◌, ◌-◌, length, filter};
ghost use Rattle.std.specs.List.{slice_range};
ghost use Rattle.fts_pages.specs.Pages.{is_behind};
ghost use Rattle.fts_pages.specs.Places.{place_at};

use crate::asked::PageAsked;
use fts_desk::Desk;

/// Places from the first on, up to the last and without it.
#[derive(Clone, Copy)]
pub struct Places {
    pub first: usize,
    pub last: usize,
}

/// The places of the jobs behind the one that is asked for.
pub fn places_behind(desk: &Desk, asked: &PageAsked) -> Places
    ensures order { result.first ≤ result.last }
    ensures inside { result.last ≤ length desk.now.tables.jobs }
    ensures jobs { slice_range desk.now.tables.jobs result.first result.last ≡ filter (is_behind asked.now.newest asked.now.after) desk.now.tables.jobs }
{
    // Jobs are numbered in their order.
    desk.standing();
    let count = desk.jobs().len();
    match asked.after {
        None => Places {
            first: 0,
            last: count,
        },
        Some(number) => {
            if asked.newest {
                Places {
                    first: 0,
                    last: count.min((number as usize).saturating_sub(1)),
                }
            } else {
                Places {
                    first: count.min(number as usize),
                    last: count,
                }
            }
        }
    }
}

/// The place of the job that comes in its turn, from 0, among those at these places.
pub fn place_at(places: Places, newest: bool, turn: usize) -> usize
    requires { turn < places.last - places.first }
    ensures place { result ≡ place_at places newest turn }
    ensures inside { result < places.last }
{
    if newest {
        places.last - 1 - turn
    } else {
        places.first + turn
    }
}
