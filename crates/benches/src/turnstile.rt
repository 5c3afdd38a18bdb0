//! The measurement of the turnstile beside std's `Mutex`, each time of both locks in the same run.
//! Threads are started within each, so the first turns of one are taken while others start.
ghost use Rattle.std.specs.Prelude.{◌≡◌, ◌<◌, IfOk};
ghost use Rattle.fts_turnstile.specs.Passes.{IsOf, first_pass};

mod lane;
mod tally;

use crate::clock;
use fts_turnstile::{Pass, Turnstile};
use lane::Lane;
use std::alloc::{AllocError, Global};
use std::sync::{Mutex, Wait};
use std::thread::{Threads, for_each_mut};
use std::time::{Clock, CpuClock, Duration};
use std::{io, thread};
use tally::Tally;

/// Turns of all threads together in one measurement.
const TURNS: u32 = 1_200_000;

/// How many threads there are where all but one wait for that one's turn.
const WAITING_THREADS: u32 = 24;

/// How many seconds that one holds its turn.
const HELD: u64 = 1;

/// Two clocks in seconds: the wall's, and the processor time of all threads together.
#[derive(Clone, Copy)]
struct Taken {
    clock: f64,
    processor: f64,
}

impl Taken {
    /// What both clocks show.
    fn now<R: Clock + CpuClock>(rt: &R) -> Taken {
        Taken {
            clock: clock::seconds(rt.monotonic()),
            processor: clock::seconds(rt.process_cpu_time()),
        }
    }

    /// What passed on both since then.
    fn since<R: Clock + CpuClock>(self, rt: &R) -> Taken {
        let now = Taken::now(rt);
        Taken {
            clock: now.clock - self.clock,
            processor: now.processor - self.processor,
        }
    }
}

/// What each thread does: it takes so many turns, or the first one holds its turn instead.
#[derive(Clone, Copy)]
struct Work {
    threads: u32,
    turns: u32,
    first_holds: bool,
}

/// A turnstile and its pass 0, which gave no number yet.
fn new_turnstile(alloc: Global) -> io::Result<(Turnstile<Tally>, Pass<Tally>)>
    ensures { IfOk result (λ made. made.1 ≡ first_pass made.0) }
{
    match Turnstile::new(alloc, Tally { turns: 0 }) {
        Ok(made) => Ok(made),
        Err(_) => Err(io::Error::from(io::ErrorKind::OutOfMemory)),
    }
}

/// A lane for each of so many passes.
fn lanes<'a>(
    alloc: Global,
    lock: &'a Turnstile<Tally>,
    first: &mut Pass<Tally>,
    count: u32,
) -> Result<Vec<Lane<'a>>, AllocError>
    requires { IsOf lock.now first.old × (first.old.number ≡ 0) × (first.old.given ≡ 0) }
{
    let mut lanes = Vec::new(alloc);
    for _ in 0..count {
        let pass = lock.split(first);
        lanes.push(Lane::new(lock, pass))?;
    }
    Ok(lanes)
}

/// How long the threads take with a turnstile.
fn with_turnstile<R: Threads + Wait + Clock + CpuClock + Sync>(
    rt: &R,
    alloc: Global,
    work: Work,
) -> io::Result<Taken>
    requires { 0 < work.threads }
{
    let (lock, mut first) = new_turnstile(alloc)?;
    let mut lanes = lanes(alloc, &lock, &mut first, work.threads)?;
    let each = |place: usize, lane: &mut Lane| {
        if work.first_holds && place == 0 {
            lane.hold(rt, Duration::from_secs(HELD));
        } else {
            lane.take_turns(rt, work.turns);
        }
    };
    let start = Taken::now(rt);
    for_each_mut(rt, lanes.as_mut_slice(), work.threads as usize, &each);
    Ok(start.since(rt))
}

/// Takes std's lock so often.
fn lock_often<R: Wait>(rt: &R, lock: &Mutex<Tally>, turns: u32) {
    for _ in 0..turns {
        lock.lock(rt).count();
    }
}

/// Takes it once, and holds it.
fn lock_long<R: Wait + Clock>(rt: &R, lock: &Mutex<Tally>) {
    let mut tally = lock.lock(rt);
    tally.count();
    thread::sleep(rt, Duration::from_secs(HELD));
}

/// How long the threads take with std's lock.
fn with_mutex<R: Threads + Wait + Clock + CpuClock + Sync>(
    rt: &R,
    alloc: Global,
    work: Work,
) -> io::Result<Taken>
    requires { 0 < work.threads }
{
    let lock = Mutex::new(Tally { turns: 0 });
    let mut lanes = vec![in alloc; 0u32; work.threads as usize]?;
    let each = |place: usize, _: &mut u32| {
        if work.first_holds && place == 0 {
            lock_long(rt, &lock);
        } else {
            lock_often(rt, &lock, work.turns);
        }
    };
    let start = Taken::now(rt);
    for_each_mut(rt, lanes.as_mut_slice(), work.threads as usize, &each);
    Ok(start.since(rt))
}

/// Prints the turns of so many threads.
fn print_rates<R: Threads + Wait + Clock + CpuClock + Print + Sync>(
    rt: &R,
    alloc: Global,
    threads: u32,
) -> io::Result<()>
    requires { 0 < threads }
{
    let work = Work {
        threads,
        turns: TURNS / threads,
        first_holds: false,
    };
    let ours = with_turnstile(rt, alloc, work)?;
    let theirs = with_mutex(rt, alloc, work)?;
    println!(rt;
        "{threads}: {:.0}, {:.0}, {:.3}; {:.2}, {:.2}",
        f64::from(TURNS) / ours.clock,
        f64::from(TURNS) / theirs.clock,
        theirs.clock / ours.clock,
        ours.processor / ours.clock,
        theirs.processor / theirs.clock
    )
}

/// Prints what waiting takes.
fn print_waiting<R: Threads + Wait + Clock + CpuClock + Print + Sync>(
    rt: &R,
    alloc: Global,
) -> io::Result<()> {
    let work = Work {
        threads: WAITING_THREADS,
        turns: 1,
        first_holds: true,
    };
    let ours = with_turnstile(rt, alloc, work)?;
    let theirs = with_mutex(rt, alloc, work)?;
    println!(rt;
        "23 threads wait for a second: {:.4} s of processor time, with a Mutex {:.4} s",
        ours.processor, theirs.processor
    )
}

/// Prints a line for each number of threads, and then what waiting takes.
pub fn measure<R: Threads + Wait + Clock + CpuClock + Print + Sync>(
    rt: &R,
    alloc: Global,
) -> io::Result<()> {
    println!(rt;
        "threads: turns/s, locks/s of a Mutex, turns to a lock; processors busy, with a Mutex"
    )?;
    for threads in [1, 2, 8, 24] {
        print_rates(rt, alloc, threads)?;
    }
    print_waiting(rt, alloc)
}
