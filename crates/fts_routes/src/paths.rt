//! Where a path leads. The routes are rows of a router, which a run makes once; a name of a row takes one or more bytes up to the next slash, and
//! nothing in it is decoded.
//! Keeps: the router's rows are those of `table` (`specs/RouteRows.antt`), and what they answer is the plain table of `specs/Routes.antt`, for every
//! path (`Routes::find`).
ghost use Rattle.std.specs.Prelude.{◌≡◌, OnOk, option_map};
ghost use Rattle.matchit.specs.Params.{AllText, named};
ghost use Rattle.matchit.specs.Route.{parse_route};
ghost use Rattle.fts_routes.specs.Routes.{route_of};
ghost use Rattle.fts_routes.specs.RouteRows.{route_at, IsFree, with_row};
ghost use Rattle.fts_routes.specs.Found.{route_data, told};

use fts_tables::Memory;
use matchit::{InsertError, Params, Router};
use std::alloc::Global;
use std::marker::Model;

/// A row of the router.
#[derive(Clone, Copy, Drop)]
enum Place {
    Jobs,
    Job,
    Files,
    File,
    Links,
    Endpoints,
    Shares,
    Bans,
    JournalEntry,
}

/// Where a path leads, with the texts at its names.
#[derive(Clone, Copy)]
pub enum Route<'a> {
    Jobs,
    Job { id: &'a str },
    Files { id: &'a str },
    File { id: &'a str, file: &'a str },
    Links,
    Endpoints,
    Shares,
    Bans,
    JournalEntry { number: &'a str },
}

/// The router of all routes. Any two are the same.
#[derive(Drop)]
pub struct Routes {
    router: Router<Place>,
}

impl Model for Routes {
    ghost use Rattle.std.specs.Prelude.{◌≡◌};
    ghost use Rattle.fts_routes.specs.RouteRows.{table};

    ghost Value = { Unit {0} };

    ghost view = { λ _. tt };

    ghost invariant = { λ routes. routes.router ≡ table };
}

impl Routes {
    /// Makes the router. Nothing but memory can be wanting.
    pub fn new(alloc: Global) -> Result<Routes, Memory> {
        let mut router = Router::new(alloc);
        add(&mut router, "/jobs", Place::Jobs)?;
        add(&mut router, "/jobs/{id}", Place::Job)?;
        add(&mut router, "/jobs/{id}/files", Place::Files)?;
        add(&mut router, "/jobs/{id}/files/{file}", Place::File)?;
        add(&mut router, "/config/links", Place::Links)?;
        add(&mut router, "/config/se", Place::Endpoints)?;
        add(&mut router, "/config/activity_shares", Place::Shares)?;
        add(&mut router, "/ban/se", Place::Bans)?;
        add(&mut router, "/journal/{n}", Place::JournalEntry)?;
        Ok(Routes { router })
    }

    /// Where a path leads. `None` exactly where it has no route.
    pub fn find<'a>(&self, path: &'a str) -> Option<Route<'a>>
        ensures { option_map route_data result ≡ route_of path.now }
    {
        match self.router.at(path) {
            Ok(found) => route_at(*found.value, &found.params),
            Err(_) => None,
        }
    }
}

/// Adds a row that stands beside the others.
fn add(router: &mut Router<Place>, route: &str, place: Place) -> Result<(), Memory>
    requires { IsFree (parse_route route.now) router.old }
    ensures { OnOk result (router.new ≡ with_row (parse_route route.now) place router.old) }
{
    match router.insert(route, place) {
        Ok(()) => Ok(()),
        Err(InsertError::OutOfMemory) => Err(Memory),
        Err(_) => unreachable!(),
    }
}

/// The route at a row, with the texts that the row's names took.
fn route_at<'a>(place: Place, taken: &Params<'_, 'a>) -> Option<Route<'a>>
    requires { AllText (told taken.now) }
    ensures { option_map route_data result ≡ route_at place (λ key. named key (told taken.now)) }
{
    match place {
        Place::Jobs => Some(Route::Jobs),
        Place::Job => {
            let id = taken.get("id")?;
            Some(Route::Job { id })
        }
        Place::Files => {
            let id = taken.get("id")?;
            Some(Route::Files { id })
        }
        Place::File => {
            let id = taken.get("id")?;
            let file = taken.get("file")?;
            Some(Route::File { id, file })
        }
        Place::Links => Some(Route::Links),
        Place::Endpoints => Some(Route::Endpoints),
        Place::Shares => Some(Route::Shares),
        Place::Bans => Some(Route::Bans),
        Place::JournalEntry => {
            let number = taken.get("n")?;
            Some(Route::JournalEntry { number })
        }
    }
}
