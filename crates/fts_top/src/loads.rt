//! A load: the settings are read, a keep is started, the files of the number are made in the store, on the first endpoint, and a session answers the
//! load's own requests, which submit their copies to the last endpoint (`specs/Loads.antt`). Its responses are dropped.
//! Keeps: all memory but the keep's is taken before the keep is started, so a load that stops with files unmade has a cause, a call of the store.
//! The line is written behind the session, and only where that ended well.
ghost use Rattle.std.specs.Prelude.{◌≡◌, ◌≢◌, ◌⊎◌, ℕ, ◌<◌, [], List, length, Option, Some, IfOk};
ghost use Rattle.fts_tables.specs.Counts.{Rose, CountsFaults};
ghost use Rattle.fts_tables.specs.SettingsData.{IsSettings};
ghost use Rattle.fts_wire.specs.Response.{Sends};
ghost use Rattle.fts_load.specs.Requests.{requests};
ghost use Rattle.fts_session.specs.Connections.{Reading, reading_of};
ghost use Rattle.fts_top.specs.Ends.{status_of};
ghost use Rattle.fts_top.specs.Loads.{EndsLoad, IsLoad, LoadsKeep, load_line, first_name, last_name, source_of, dest_of};
ghost use Rattle.fts_top.specs.Runs.{one_thread, AreRead};
ghost use Rattle.fts_session.specs.Sessions.{IsReady, thread};
ghost use Rattle.fts_top.specs.Tallies.{tally_with};

use crate::Tally;
use crate::done::{Done, make_tally, stop};
use crate::ends::RunEnd;
use crate::reading::load_settings;
use crate::top::hold_session;
use fts_disk::Disk;
use fts_keep::Keep;
use fts_load::{DroppingSink, LoadInput, make_requests, make_sources};
use fts_routes::Routes;
use fts_session::Working;
use fts_store::{Store, StoreFailed};
use fts_tables::{Clock, Endpoint, EndpointName, Memory, Settings, Words};
use fts_wire::{Room, Sink, SinkFailed, Source, send_parts};
use fts_workers::Bench;
use itoa::Buffer;
use std::alloc::Global;

/// What a load takes memory for before its keep is started.
#[derive(Drop)]
struct Prepared {
    routes: Routes,
    room: Room,
    bench: Bench,
    source: EndpointName,
    input: LoadInput,
}

/// Reads the settings, and runs the load of a number under them.
pub fn run_load<F: Source, K: Sink, D: Disk, E: Store, C: Clock, W: Words>(
    alloc: Global,
    number: u64,
    settings: &mut F,
    output: &mut K,
    disk: D,
    clock: &mut C,
    store: &mut E,
    draws: &mut W,
) -> Done<D>
    ensures words { status_of result.end ≢ 2 }
    ensures load { (input : Reading) → IsLoad D.Disk E.Store number result.end result.tally (F.left settings.old)
        (one_thread disk store.old input (K.held output.old) (C.moments clock.old) (W.words draws.old))
        (one_thread result.disk store.new input (K.held output.new) (C.moments clock.new) (W.words draws.new)) }
    ensures settings { status_of result.end ≡ 8 → Rose (F.faults settings.old) (F.faults settings.new) }
    ensures input { status_of result.end ≢ 5 }
    ensures output { status_of result.end ≡ 6 → Rose (K.faults output.old) (K.faults output.new) }
    ensures disk { status_of result.end ≡ 4 → Rose (D.faults disk) (D.faults result.disk) }
{
    match load_settings(alloc, settings) {
        Ok(settings) => load_under(alloc, number, settings, output, disk, clock, store, draws),
        Err(end) => stop(end, disk),
    }
}

/// Takes memory, starts a keep with these settings, makes the files, and serves the load's requests.
fn load_under<K: Sink, D: Disk, E: Store, C: Clock, W: Words>(
    alloc: Global,
    number: u64,
    settings: Settings,
    output: &mut K,
    disk: D,
    clock: &mut C,
    store: &mut E,
    draws: &mut W,
) -> Done<D>
    ensures words { status_of result.end ≢ 2 }
    ensures load { (text : Option (List ℕ)) → AreRead text settings → (input : Reading) → IsLoad D.Disk E.Store number result.end result.tally text
        (one_thread disk store.old input (K.held output.old) (C.moments clock.old) (W.words draws.old))
        (one_thread result.disk store.new input (K.held output.new) (C.moments clock.new) (W.words draws.new)) }
    ensures others { (status_of result.end ≢ 5) × (status_of result.end ≢ 8) }
    ensures output { status_of result.end ≡ 6 → Rose (K.faults output.old) (K.faults output.new) }
    ensures disk { status_of result.end ≡ 4 → Rose (D.faults disk) (D.faults result.disk) }
{
    let Ok(prepared) = prepare(alloc, &settings) else {
        return stop(RunEnd::NoMemory, disk);
    };
    let now = clock.now();
    match Keep::start(alloc, disk, settings, now) {
        Ok(keep) => load_over(alloc, number, keep, prepared, output, clock, store, draws),
        Err((fault, disk)) => stop(RunEnd::of_start(fault), disk),
    }
}

/// Takes the memory of a load: of the routes, of its connection, of a bench, of the name of its sources' endpoint, and of its requests.
fn prepare(alloc: Global, settings: &Settings) -> Result<Prepared, Memory>
    ensures settings { IsSettings settings.now }
    ensures room { IfOk result (λ prepared. prepared.room.kept ≡ []) }
    ensures held { IfOk result (λ prepared. prepared.bench.held ≡ []) }
    ensures places { IfOk result (λ prepared. prepared.bench.places ≡ settings.now.workers) }
    ensures source { IfOk result (λ prepared. prepared.source ≡ source_of settings.now) }
    ensures input { IfOk result (λ prepared. prepared.input ≡ record { left = requests (source_of settings.now) (dest_of settings.now); reads = 0 }) }
{
    let endpoints = settings.endpoints.as_slice();
    let (source, dest) = (first(endpoints), last(endpoints));
    let requests = make_requests(alloc, source.as_str(), dest.as_str())?;
    let routes = Routes::new(alloc)?;
    let room = Room::new(alloc)?;
    let bench = Bench::new(alloc, settings.workers)?;
    Ok(Prepared {
        routes,
        room,
        bench,
        source: source.copy(alloc)?,
        input: LoadInput::new(requests),
    })
}

/// The name of the first of some endpoints.
#[tactic(auto, using(crate::proofs::Loaded::first_is))]
fn first(endpoints: &[Endpoint]) -> &EndpointName
    requires some { 0 < length endpoints.now }
    ensures { result.now ≡ first_name endpoints.now }
{
    &endpoints[0].name
}

/// The name of the last of some endpoints.
#[tactic(auto, using(crate::proofs::Loaded::last_is))]
fn last(endpoints: &[Endpoint]) -> &EndpointName
    requires some { 0 < length endpoints.now }
    ensures { result.now ≡ last_name endpoints.now }
{
    &endpoints[endpoints.len() - 1].name
}

/// Makes the files of a load over a keep that was started, serves its requests, and closes the keep.
fn load_over<K: Sink, D: Disk, E: Store, C: Clock, W: Words>(
    alloc: Global,
    number: u64,
    keep: Keep<D>,
    prepared: Prepared,
    output: &mut K,
    clock: &mut C,
    store: &mut E,
    draws: &mut W,
) -> Done<D>
    requires ready { (now : E) → IsReady (thread keep prepared.bench 0 now (C.moments clock.old) (W.words draws.old)) }
    ensures load { LoadsKeep D.Disk E.Store number prepared.source
        (thread keep prepared.bench 0 store.old (C.moments clock.old) (W.words draws.old))
        result.disk store.new (C.moments clock.new) (W.words draws.new) prepared.room.kept (reading_of (Some prepared.input.left) prepared.input.reads)
        (K.held output.old) (K.held output.new) result.end result.tally }
    ensures others { (status_of result.end ≢ 2) × ((status_of result.end ≢ 5) × (status_of result.end ≢ 8)) }
    ensures output { status_of result.end ≡ 6 → Rose (K.faults output.old) (K.faults output.new) }
    ensures disk { status_of result.end ≡ 4 → Rose (D.faults keep.disk) (D.faults result.disk) }
{
    let Prepared {
        routes,
        mut room,
        bench,
        source,
        mut input,
    } = prepared;
    match make_sources(store, source.as_str(), number) {
        Ok(()) => {}
        Err(StoreFailed) => return leave(RunEnd::SourcesUnmade, keep),
    }
    let working = Working {
        keep,
        bench,
        claims: 0,
    };
    let mut responses = DroppingSink::new();
    let done = hold_session(
        alloc,
        &routes,
        working,
        &mut room,
        &mut input,
        &mut responses,
        clock,
        store,
        draws,
    );
    let Done { end, tally, disk } = done;
    let end = end_load(output, end, tally);
    Done { end, tally, disk }
}

/// Closes a keep over which nothing was claimed.
fn leave<D: Disk>(end: RunEnd, keep: Keep<D>) -> Done<D>
    ensures end { result.end ≡ end }
    ensures tally { result.tally ≡ tally_with 0 keep.tables }
    ensures disk { result.disk ≡ keep.disk }
{
    let tally = make_tally(keep.desk(), 0);
    Done {
        end,
        tally,
        disk: keep.close(),
    }
}

/// How a load ends whose session ended so: where that was with status 0 its line is written first.
fn end_load<K: Sink>(output: &mut K, ran: RunEnd, tally: Tally) -> RunEnd
    ensures ends { EndsLoad (load_line tally) (K.held output.old) (K.held output.new) ran result }
    ensures same { status_of result ≢ 6 → result ≡ ran }
    ensures output { status_of result ≡ 6 → (status_of ran ≡ 6) ⊎ Rose (K.faults output.old) (K.faults output.new) }
{
    if ran.status() != 0 {
        return ran;
    }
    match write_line(output, tally) {
        Ok(()) => ran,
        Err(SinkFailed) => RunEnd::LineUnwritten,
    }
}

/// Writes the line of a load.
fn write_line<K: Sink>(output: &mut K, tally: Tally) -> Result<(), SinkFailed>
    ensures sent { Sends (K.held output.old) (K.held output.new) (load_line tally) result }
    ensures cause { CountsFaults (K.faults output.old) (K.faults output.new) result }
{
    let (mut claims, mut finished, mut failed) = (Buffer::new(), Buffer::new(), Buffer::new());
    let (mut cancelled, mut waiting) = (Buffer::new(), Buffer::new());
    send_parts(
        output,
        &[
            "claims ".as_bytes(),
            claims.format(tally.claims).as_bytes(),
            " finished ".as_bytes(),
            finished.format(tally.finished).as_bytes(),
            " failed ".as_bytes(),
            failed.format(tally.failed).as_bytes(),
            " cancelled ".as_bytes(),
            cancelled.format(tally.cancelled).as_bytes(),
            " waiting ".as_bytes(),
            waiting.format(tally.waiting).as_bytes(),
            "\n".as_bytes(),
        ],
    )
}
