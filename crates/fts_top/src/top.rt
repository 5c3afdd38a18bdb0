//! The top calls: what the program does, over the outside that it is handed.
//! Order: the words are looked at, the settings are read whole and then by their rules, memory is taken, a keep is started on the disk, which has a
//! Restart with the settings accepted, requests are answered and rounds made, the disk is given back, and the end is noted. For `show` the journal
//! is only looked at, behind the settings.
//! `run_alone` does every command but `serve`, and waits for nobody; `run` calls it first.
ghost use Rattle.std.specs.Prelude.{◌≡◌, ◌≢◌, ◌↔◌, ℕ, None, List, map, length, string_bytes, Option, IsSome, IfSome};
ghost use Rattle.fts_tables.specs.Counts.{Rose};
ghost use Rattle.fts_tables.specs.declared.limits.TheConstants.{MAX_LANES, MAX_WORKERS};
ghost use Rattle.fts_words.specs.Words.{asked_in, IsToServe};
ghost use Rattle.fts_top.specs.Ends.{status_of, IsServingStatus};
ghost use Rattle.fts_top.specs.Notes.{note_of, IsNoted};
ghost use Rattle.fts_top.specs.Asked.{DoesAsked, DoesOrServes, IsToDelete};
ghost use Rattle.fts_top.specs.Errands.{beyond_at};
ghost use Rattle.fts_top.specs.Complete.{Completes, failures_of};
ghost use Rattle.fts_session.specs.Connections.{reading_in};
ghost use Rattle.fts_session.specs.Sessions.{IsReady, thread, thread_at};
ghost use Rattle.fts_top.specs.Serves.{IsServingRun, many_threads};
ghost use Rattle.fts_top.specs.Runs.{OverDisks, OverHands, AreRead, IsSessionRun, ServesKeep, one_thread_at};
ghost use Rattle.fts_service.specs.Worlds.{world_of};

use crate::Ending;
use crate::done::{Done, make_tally, stop};
use crate::ends::RunEnd;
use crate::errands::{delete_places, follow_service, query_job, submit_input};
use crate::loads::run_load;
use crate::looks::show;
use crate::notes::write_note;
use crate::reading::load_settings;
use crate::service::{Order, serve};
use fts_client::Link;
use fts_disk::Disk;
use fts_keep::Keep;
use fts_routes::Routes;
use fts_service::{Doors, Lane};
use fts_session::{Working, run_session};
use fts_store::Store;
use fts_tables::{Clock, Memory, Settings, Words};
use fts_wire::{Room, Sink, Source};
use fts_words::{Asked, read_words, take_words};
use fts_workers::{Bench, Gate, Hand};
use std::alloc::Global;
use std::sync::Wait;
use std::thread::Threads;

/// What a run meets: the text of its settings, its input, its output, where it notes how it ended, the disk of its journal, the disk of the
/// deletions, the clock, hands, of which one thread uses the first one's store and words, lanes, of which only a run that serves uses any, and the
/// link to a service, which clients and standbys use, and the gate before the copies of a run that serves: closed, it stops the workers.
#[derive(Drop)]
pub struct Outside<F, S, K, N, D, E: Store, C: Clock, W: Words, A: Doors, L, G> {
    pub settings: F,
    pub input: S,
    pub output: K,
    pub notes: N,
    pub disk: Option<D>,
    pub deletes: Option<D>,
    pub clock: C,
    pub hands: Vec<Hand<E, C, W>>,
    pub lanes: Vec<Lane<A, C>>,
    pub link: L,
    pub gate: G,
}

/// Does all that the program does for these words, and gives its exit status:
/// 0 at the input's end between requests, once nothing is left to copy, or where a load ended so, or where the tables were shown, or where
/// all lanes ended and all workers found nothing left; 1 for want of memory, 2 for words that are no command, 3 where the settings break a rule,
/// 4 where the disk failed at the opening or in the last round, or in a worker's last turn, 5 and 6 where a read or a write failed,
/// 7 where the journal is damaged, or is shown and has no byte, 8 where the settings could not be read, 9 where the doors of a lane failed,
/// 10 where the input ended inside a request, 11 where the Restart or an entry of the last round or of a worker's last turn doesn't fit the journal,
/// 12 where what came was refused, 13 where a call of the store failed while the files of a load were made, 14 after as many requests as a
/// connection may have, 23 where the gate was closed and no worker ended worse. There are `MAX_WORKERS` hands and `MAX_LANES` lanes; the disk is there
/// before and after, and the hands and the lanes are in their order. It waits only where it serves.
pub fn run<
    F: Source,
    S: Source,
    K: Sink,
    N: Sink,
    D: Disk + Send,
    E: Store + Send,
    C: Clock + Send,
    W: Words + Send,
    A: Doors + Send,
    L: Link,
    G: Gate + Sync,
    R: Threads + Wait + Sync,
>(
    rt: &R,
    alloc: Global,
    words: &[String],
    outside: &mut Outside<F, S, K, N, D, E, C, W, A, L, G>,
) -> Ending
where
    A::Line: Send,
    requires disk { IsSome outside.old.disk }
    requires deletes { IsSome outside.old.deletes }
    requires hands { length outside.old.hands.items ≡ MAX_WORKERS }
    requires lanes { length outside.old.lanes.items ≡ MAX_LANES }
    ensures words { (result.status ≡ 2) ↔ (asked_in (map string_bytes words.now) ≡ None) }
    ensures untouched { asked_in (map string_bytes words.now) ≡ None → (outside.new.settings ≡ outside.old.settings) × (outside.new.input ≡ outside.old.input)
        × (outside.new.output ≡ outside.old.output) × (outside.new.disk ≡ outside.old.disk) × (outside.new.clock ≡ outside.old.clock)
        × (outside.new.deletes ≡ outside.old.deletes) × (outside.new.link ≡ outside.old.link) }
    // Its end decides the status and the note, and is the end of what it did: alone, with the first hand and no lane, or with lanes and hands.
    ensures run { (end : RunEnd) × ((result.status ≡ status_of end)
        × (OverDisks outside.old.disk outside.new.disk (λ disk left. DoesOrServes (asked_in (map string_bytes words.now))
        (OverHands outside.old.hands.items outside.new.hands.items
        (λ hand now. DoesAsked D.Disk E.Store L.Line.Source L.Line.Sink (asked_in (map string_bytes words.now)) end result.tally (F.left outside.old.settings)
        (one_thread_at S.Source K.Sink C.Clock W.Words disk hand.store outside.old.input outside.old.output outside.old.clock hand.words)
        (one_thread_at S.Source K.Sink C.Clock W.Words left now.store outside.new.input outside.new.output outside.new.clock now.words)
        (beyond_at L.Link outside.old.link outside.old.deletes) (beyond_at L.Link outside.new.link outside.new.deletes)) × (outside.new.lanes ≡ outside.old.lanes))
        (λ lanes connections. IsServingRun (world_of D.Disk E.Store A.Doors A.Line.Source A.Line.Sink C.Clock W.Words (G.closes outside.old.gate))
        lanes connections end result.tally (F.left outside.old.settings)
        (many_threads disk outside.old.lanes.items outside.old.hands.items (C.moments outside.old.clock))
        (many_threads left outside.new.lanes.items outside.new.hands.items (C.moments outside.new.clock))
        × (outside.new.input ≡ outside.old.input) × (outside.new.output ≡ outside.old.output) × (outside.new.deletes ≡ outside.old.deletes) × (outside.new.link ≡ outside.old.link)))
        × IsNoted (N.held outside.old.notes) (N.held outside.new.notes) (N.faults outside.old.notes) (N.faults outside.new.notes) (note_of end))) }
    // Where nothing breaks a rule and no device fails, it comes to its end.
    ensures complete { (IsToServe (asked_in (map string_bytes words.now)) → ⊥) → (end : RunEnd) × ((result.status ≡ status_of end)
        × OverDisks outside.old.disk outside.new.disk (λ disk left. OverHands outside.old.hands.items outside.new.hands.items
        (λ hand now. Completes D.Disk E.Store (F.left outside.old.settings)
        (one_thread_at S.Source K.Sink C.Clock W.Words disk hand.store outside.old.input outside.old.output outside.old.clock hand.words)
        (one_thread_at S.Source K.Sink C.Clock W.Words left now.store outside.new.input outside.new.output outside.new.clock now.words) end result.tally (asked_in (map string_bytes words.now))
        (failures_of (F.faults outside.old.settings) (S.faults outside.old.input) (K.faults outside.old.output) (D.faults disk))
        (failures_of (F.faults outside.new.settings) (S.faults outside.new.input) (K.faults outside.new.output) (D.faults left))))) }
    ensures settings { result.status ≡ 8 → Rose (F.faults outside.old.settings) (F.faults outside.new.settings) }
    ensures input { result.status ≡ 5 → Rose (S.faults outside.old.input) (S.faults outside.new.input) }
    ensures output { result.status ≡ 6 → Rose (K.faults outside.old.output) (K.faults outside.new.output) }
    // Of a run that serves, what it did says it of the start and of each worker's last turn.
    ensures disk { (IsToServe (asked_in (map string_bytes words.now)) → ⊥) → (IsToDelete (asked_in (map string_bytes words.now)) → ⊥) → result.status ≡ 4
        → OverDisks outside.old.disk outside.new.disk (λ disk left. Rose (D.faults disk) (D.faults left)) }
    ensures deletes { IsToDelete (asked_in (map string_bytes words.now)) → result.status ≡ 4
        → OverDisks outside.old.deletes outside.new.deletes (λ disk left. Rose (D.faults disk) (D.faults left)) }
    ensures there { IsSome outside.new.disk }
    ensures kept { IsSome outside.new.deletes }
    ensures hands { length outside.new.hands.items ≡ MAX_WORKERS }
    ensures lanes { length outside.new.lanes.items ≡ MAX_LANES }
{
    match run_alone(alloc, words, outside) {
        Some(ending) => ending,
        None => run_serving(rt, alloc, words, outside),
    }
}

/// Serves as these words ask for, which are accepted as `serve`.
fn run_serving<
    F: Source,
    S: Source,
    K: Sink,
    N: Sink,
    D: Disk + Send,
    E: Store + Send,
    C: Clock + Send,
    W: Words + Send,
    A: Doors + Send,
    L: Link,
    G: Gate + Sync,
    R: Threads + Wait + Sync,
>(
    rt: &R,
    alloc: Global,
    words: &[String],
    outside: &mut Outside<F, S, K, N, D, E, C, W, A, L, G>,
) -> Ending
where
    A::Line: Send,
    requires asked { IsToServe (asked_in (map string_bytes words.now)) }
    requires disk { IsSome outside.old.disk }
    requires deletes { IsSome outside.old.deletes }
    requires hands { length outside.old.hands.items ≡ MAX_WORKERS }
    requires lanes { length outside.old.lanes.items ≡ MAX_LANES }
    ensures run { (end : RunEnd) × ((result.status ≡ status_of end)
        × (OverDisks outside.old.disk outside.new.disk (λ disk left. DoesOrServes (asked_in (map string_bytes words.now)) ⊥
        (λ lanes connections. IsServingRun (world_of D.Disk E.Store A.Doors A.Line.Source A.Line.Sink C.Clock W.Words (G.closes outside.old.gate))
        lanes connections end result.tally (F.left outside.old.settings)
        (many_threads disk outside.old.lanes.items outside.old.hands.items (C.moments outside.old.clock))
        (many_threads left outside.new.lanes.items outside.new.hands.items (C.moments outside.new.clock))))
        × IsNoted (N.held outside.old.notes) (N.held outside.new.notes) (N.faults outside.old.notes) (N.faults outside.new.notes) (note_of end))) }
    ensures nothing { (outside.new.input ≡ outside.old.input) × (outside.new.output ≡ outside.old.output)
        × (outside.new.deletes ≡ outside.old.deletes) × (outside.new.link ≡ outside.old.link) }
    ensures settings { result.status ≡ 8 → Rose (F.faults outside.old.settings) (F.faults outside.new.settings) }
    ensures status { IsServingStatus result.status }
    ensures there { IsSome outside.new.disk }
    ensures kept { IsSome outside.new.deletes }
    ensures hands { length outside.new.hands.items ≡ MAX_WORKERS }
    ensures lanes { length outside.new.lanes.items ≡ MAX_LANES }
{
    let Some(disk) = outside.disk.take() else {
        unreachable!();
    };
    let done = match take_words(alloc, words) {
        Ok(
            Some(
                Asked::Serve {
                    port,
                    lanes,
                    connections,
                },
            ),
        ) => {
            let order = Order {
                port,
                lanes,
                connections,
            };
            serve(rt, alloc, order, disk, outside)
        }
        Ok(_) => unreachable!(),
        Err(Memory) => stop(RunEnd::NoMemory, disk),
    };
    let Done { end, tally, disk } = done;
    match outside.disk.replace(disk) {
        None => {}
        Some(_) => unreachable!(),
    }
    write_note(&mut outside.notes, end);
    Ending {
        status: end.status(),
        tally,
    }
}

/// Does all that `run` does for every command but `serve`, and waits for nobody. `None` exactly where the words are accepted as `serve`, and then
/// nothing is read, written or called.
pub fn run_alone<
    F: Source,
    S: Source,
    K: Sink,
    N: Sink,
    D: Disk,
    E: Store,
    C: Clock,
    W: Words,
    A: Doors,
    L: Link,
    G,
>(
    alloc: Global,
    words: &[String],
    outside: &mut Outside<F, S, K, N, D, E, C, W, A, L, G>,
) -> Option<Ending>
    requires disk { IsSome outside.old.disk }
    requires deletes { IsSome outside.old.deletes }
    requires hands { length outside.old.hands.items ≡ MAX_WORKERS }
    requires lanes { length outside.old.lanes.items ≡ MAX_LANES }
    ensures serve { (result ≡ None) ↔ IsToServe (asked_in (map string_bytes words.now)) }
    ensures nothing { result ≡ None → outside.new ≡ outside.old }
    ensures words { IfSome result (λ ending. (ending.status ≡ 2) ↔ (asked_in (map string_bytes words.now) ≡ None)) }
    ensures untouched { asked_in (map string_bytes words.now) ≡ None → (outside.new.settings ≡ outside.old.settings) × (outside.new.input ≡ outside.old.input)
        × (outside.new.output ≡ outside.old.output) × (outside.new.disk ≡ outside.old.disk) × (outside.new.clock ≡ outside.old.clock)
        × (outside.new.deletes ≡ outside.old.deletes) × (outside.new.link ≡ outside.old.link) }
    // Its end decides the status and the note, and is the end of what it did.
    ensures run { IfSome result (λ ending. (end : RunEnd) × ((ending.status ≡ status_of end)
        × (OverDisks outside.old.disk outside.new.disk (λ disk left. OverHands outside.old.hands.items outside.new.hands.items
        (λ hand now. DoesAsked D.Disk E.Store L.Line.Source L.Line.Sink (asked_in (map string_bytes words.now)) end ending.tally (F.left outside.old.settings)
        (one_thread_at S.Source K.Sink C.Clock W.Words disk hand.store outside.old.input outside.old.output outside.old.clock hand.words)
        (one_thread_at S.Source K.Sink C.Clock W.Words left now.store outside.new.input outside.new.output outside.new.clock now.words)
        (beyond_at L.Link outside.old.link outside.old.deletes) (beyond_at L.Link outside.new.link outside.new.deletes)))
        × IsNoted (N.held outside.old.notes) (N.held outside.new.notes) (N.faults outside.old.notes) (N.faults outside.new.notes) (note_of end)))) }
    // Where nothing breaks a rule and no device fails, it comes to its end.
    ensures complete { IfSome result (λ ending. (end : RunEnd) × ((ending.status ≡ status_of end)
        × OverDisks outside.old.disk outside.new.disk (λ disk left. OverHands outside.old.hands.items outside.new.hands.items
        (λ hand now. Completes D.Disk E.Store (F.left outside.old.settings)
        (one_thread_at S.Source K.Sink C.Clock W.Words disk hand.store outside.old.input outside.old.output outside.old.clock hand.words)
        (one_thread_at S.Source K.Sink C.Clock W.Words left now.store outside.new.input outside.new.output outside.new.clock now.words) end ending.tally (asked_in (map string_bytes words.now))
        (failures_of (F.faults outside.old.settings) (S.faults outside.old.input) (K.faults outside.old.output) (D.faults disk))
        (failures_of (F.faults outside.new.settings) (S.faults outside.new.input) (K.faults outside.new.output) (D.faults left)))))) }
    ensures settings { IfSome result (λ ending. ending.status ≡ 8 → Rose (F.faults outside.old.settings) (F.faults outside.new.settings)) }
    ensures input { IfSome result (λ ending. ending.status ≡ 5 → Rose (S.faults outside.old.input) (S.faults outside.new.input)) }
    ensures output { IfSome result (λ ending. ending.status ≡ 6 → Rose (K.faults outside.old.output) (K.faults outside.new.output)) }
    ensures disk { IfSome result (λ ending. (IsToDelete (asked_in (map string_bytes words.now)) → ⊥) → ending.status ≡ 4
        → OverDisks outside.old.disk outside.new.disk (λ disk left. Rose (D.faults disk) (D.faults left))) }
    ensures deletes { IfSome result (λ ending. IsToDelete (asked_in (map string_bytes words.now)) → ending.status ≡ 4
        → OverDisks outside.old.deletes outside.new.deletes (λ disk left. Rose (D.faults disk) (D.faults left))) }
    ensures there { IsSome outside.new.disk }
    ensures kept { IsSome outside.new.deletes }
    ensures hands { length outside.new.hands.items ≡ MAX_WORKERS }
    ensures lanes { outside.new.lanes ≡ outside.old.lanes }
{
    match read_words(words) {
        Some(Asked::Serve { .. }) => return None,
        _ => {}
    }
    let Some(disk) = outside.disk.take() else {
        unreachable!();
    };
    let hand = &mut outside.hands[0];
    let done = do_command(
        alloc,
        words,
        &mut outside.settings,
        &mut outside.input,
        &mut outside.output,
        disk,
        &mut outside.clock,
        &mut hand.store,
        &mut hand.words,
        &mut outside.deletes,
        &mut outside.link,
    );
    let Done { end, tally, disk } = done;
    match outside.disk.replace(disk) {
        None => {}
        Some(_) => unreachable!(),
    }
    write_note(&mut outside.notes, end);
    Some(Ending {
        status: end.status(),
        tally,
    })
}

/// Does the command that the words are, which is not to serve.
fn do_command<F: Source, S: Source, K: Sink, D: Disk, E: Store, C: Clock, W: Words, L: Link>(
    alloc: Global,
    words: &[String],
    settings: &mut F,
    input: &mut S,
    output: &mut K,
    disk: D,
    clock: &mut C,
    store: &mut E,
    draws: &mut W,
    deletes: &mut Option<D>,
    link: &mut L,
) -> Done<D>
    requires alone { IsToServe (asked_in (map string_bytes words.now)) → ⊥ }
    requires deletes { IsSome deletes.old }
    ensures words { (status_of result.end ≡ 2) ↔ (asked_in (map string_bytes words.now) ≡ None) }
    ensures untouched { asked_in (map string_bytes words.now) ≡ None → (settings.new ≡ settings.old) × (input.new ≡ input.old)
        × (output.new ≡ output.old) × (result.disk ≡ disk) × (clock.new ≡ clock.old) × (deletes.new ≡ deletes.old) × (link.new ≡ link.old) }
    ensures run { DoesAsked D.Disk E.Store L.Line.Source L.Line.Sink (asked_in (map string_bytes words.now)) result.end result.tally (F.left settings.old)
        (one_thread_at S.Source K.Sink C.Clock W.Words disk store.old input.old output.old clock.old draws.old)
        (one_thread_at S.Source K.Sink C.Clock W.Words result.disk store.new input.new output.new clock.new draws.new)
        (beyond_at L.Link link.old deletes.old) (beyond_at L.Link link.new deletes.new) }
    ensures kept { IsSome deletes.new }
    ensures settings { status_of result.end ≡ 8 → Rose (F.faults settings.old) (F.faults settings.new) }
    ensures input { status_of result.end ≡ 5 → Rose (S.faults input.old) (S.faults input.new) }
    ensures output { status_of result.end ≡ 6 → Rose (K.faults output.old) (K.faults output.new) }
    ensures disk { (IsToDelete (asked_in (map string_bytes words.now)) → ⊥) → status_of result.end ≡ 4 → Rose (D.faults disk) (D.faults result.disk) }
    ensures deletes { IsToDelete (asked_in (map string_bytes words.now)) → status_of result.end ≡ 4
        → OverDisks deletes.old deletes.new (λ own now. Rose (D.faults own) (D.faults now)) }
{
    let asked = match take_words(alloc, words) {
        Ok(asked) => asked,
        Err(Memory) => return stop(RunEnd::NoMemory, disk),
    };
    match asked {
        None => stop(RunEnd::NoCommand, disk),
        Some(Asked::Session) => {
            begin_session(alloc, settings, input, output, disk, clock, store, draws)
        }
        Some(Asked::Show) => show(alloc, settings, output, disk),
        Some(Asked::Load { number }) => {
            run_load(alloc, number, settings, output, disk, clock, store, draws)
        }
        Some(Asked::Submit { port, tries }) => {
            submit_input(alloc, port, tries, input, output, link, disk)
        }
        Some(Asked::Query { port, job, tries }) => {
            query_job(alloc, port, job, tries, output, link, disk)
        }
        Some(Asked::Delete) => delete_places(alloc, settings, input, output, deletes, store, disk),
        Some(Asked::Follow { port, tries }) => {
            follow_service(alloc, port, tries, output, link, disk)
        }
        Some(Asked::Serve { .. }) => unreachable!(),
    }
}

/// Reads the settings, and starts a session under them.
fn begin_session<F: Source, S: Source, K: Sink, D: Disk, E: Store, C: Clock, W: Words>(
    alloc: Global,
    settings: &mut F,
    input: &mut S,
    output: &mut K,
    disk: D,
    clock: &mut C,
    store: &mut E,
    draws: &mut W,
) -> Done<D>
    ensures words { status_of result.end ≢ 2 }
    ensures run { IsSessionRun D.Disk E.Store result.end result.tally (F.left settings.old)
        (one_thread_at S.Source K.Sink C.Clock W.Words disk store.old input.old output.old clock.old draws.old)
        (one_thread_at S.Source K.Sink C.Clock W.Words result.disk store.new input.new output.new clock.new draws.new) }
    ensures settings { status_of result.end ≡ 8 → Rose (F.faults settings.old) (F.faults settings.new) }
    ensures input { status_of result.end ≡ 5 → Rose (S.faults input.old) (S.faults input.new) }
    ensures output { status_of result.end ≡ 6 → Rose (K.faults output.old) (K.faults output.new) }
    ensures disk { status_of result.end ≡ 4 → Rose (D.faults disk) (D.faults result.disk) }
{
    match load_settings(alloc, settings) {
        Ok(settings) => start_session(alloc, settings, input, output, disk, clock, store, draws),
        Err(end) => stop(end, disk),
    }
}

/// Takes the memory of the routes, of a connection and of a bench, starts a keep with these settings, and holds a session over it.
fn start_session<S: Source, K: Sink, D: Disk, E: Store, C: Clock, W: Words>(
    alloc: Global,
    settings: Settings,
    input: &mut S,
    output: &mut K,
    disk: D,
    clock: &mut C,
    store: &mut E,
    draws: &mut W,
) -> Done<D>
    ensures words { status_of result.end ≢ 2 }
    ensures run { (text : Option (List ℕ)) → AreRead text settings → IsSessionRun D.Disk E.Store result.end result.tally text
        (one_thread_at S.Source K.Sink C.Clock W.Words disk store.old input.old output.old clock.old draws.old)
        (one_thread_at S.Source K.Sink C.Clock W.Words result.disk store.new input.new output.new clock.new draws.new) }
    ensures settings { status_of result.end ≢ 8 }
    ensures input { status_of result.end ≡ 5 → Rose (S.faults input.old) (S.faults input.new) }
    ensures output { status_of result.end ≡ 6 → Rose (K.faults output.old) (K.faults output.new) }
    ensures disk { status_of result.end ≡ 4 → Rose (D.faults disk) (D.faults result.disk) }
{
    let Ok(mut room) = Room::new(alloc) else {
        return stop(RunEnd::NoMemory, disk);
    };
    let Ok(bench) = Bench::new(alloc, settings.workers) else {
        return stop(RunEnd::NoMemory, disk);
    };
    let Ok(routes) = Routes::new(alloc) else {
        return stop(RunEnd::NoMemory, disk);
    };
    let now = clock.now();
    match Keep::start(alloc, disk, settings, now) {
        Ok(keep) => {
            let working = Working {
                keep,
                bench,
                claims: 0,
            };
            hold_session(
                alloc, &routes, working, &mut room, input, output, clock, store, draws,
            )
        }
        Err((fault, disk)) => stop(RunEnd::of_start(fault), disk),
    }
}

/// Holds a session over a keep, and closes it.
pub fn hold_session<S: Source, K: Sink, D: Disk, E: Store, C: Clock, W: Words>(
    alloc: Global,
    routes: &Routes,
    mut working: Working<D>,
    room: &mut Room,
    input: &mut S,
    output: &mut K,
    clock: &mut C,
    store: &mut E,
    draws: &mut W,
) -> Done<D>
    requires ready { IsReady (thread_at C.Clock W.Words working store.old clock.old draws.old) }
    ensures serves { ServesKeep D.Disk E.Store
        (thread_at C.Clock W.Words working store.old clock.old draws.old) working.bench.places
        result.disk store.new (C.moments clock.new) (W.words draws.new) room.old.kept
        (reading_in S.Source input.old) (reading_in S.Source input.new) (K.held output.old) (K.held output.new)
        result.end result.tally }
    ensures input { status_of result.end ≡ 5 → Rose (S.faults input.old) (S.faults input.new) }
    ensures output { status_of result.end ≡ 6 → Rose (K.faults output.old) (K.faults output.new) }
    ensures disk { status_of result.end ≡ 4 → Rose (D.faults working.keep.disk) (D.faults result.disk) }
    ensures others { (status_of result.end ≢ 2) × (status_of result.end ≢ 8) }
{
    let end = run_session(
        alloc,
        routes,
        &mut working,
        room,
        input,
        output,
        clock,
        store,
        draws,
    );
    let Working {
        keep,
        bench: _,
        claims,
    } = working;
    let tally = make_tally(keep.desk(), claims);
    Done {
        end: RunEnd::Session { end },
        tally,
        disk: keep.close(),
    }
}
