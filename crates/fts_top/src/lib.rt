//! The program's commands, over an outside that it is handed: `session`, which answers the requests of a connection, `show`, which writes the
//! tables, `load`, which makes and answers a large input by its number, `serve`, and the errands `submit`, `query`, `delete` and `follow`, each of
//! which has a crate of its own. Which words ask for which is `fts_words`'.
//! Keeps: the list is the journal's, Restart, the accepted commands in the order of their requests, and the expiries, claims and reports of the
//! rounds between them; what is written are the responses, each over the list so far (`run`, clause `run`; `specs/Runs.antt`). It is generic: which
//! outside is real, the program decides.
//! Order of a session: words, settings, memory, the keep with its Restart, requests with a round behind each, last rounds, note. `show` looks at
//! the journal behind the settings.
#![tactic(auto)]

mod done;
mod ends;
mod errands;
mod loads;
mod looks;
mod notes;
mod reading;
mod service;
mod tally;
mod top;

pub use fts_service::{
    Booth, Doors, DoorsFailed, Hall, Lane, LaneStop, MemoryDoors, ServedEnd, cycle, leave_booths,
    leave_stations, make_benches, make_rooms, open_doors, run_lanes, seat_hands, seat_lanes,
    serve_all, serve_connection, serve_lane, served,
};
pub use fts_session::LineEnd;
pub use tally::{Ending, Tally};
pub use top::{Outside, run, run_alone};
