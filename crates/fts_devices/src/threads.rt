//! Whether threads can be begun. A join calls its work here where no thread can be made: so a service would serve, and copy nothing.
//! Threads are begun out of one another, and each stays until the one behind it has begun: so that all of them stand at the same time.
use std::sync::Wait;
use std::sync::atomic::{AtomicBool, AtomicU32, Ordering};
use std::thread::{Threads, join_mut, sleep};
use std::time::Duration;

/// How long a thread may take to begin, in milliseconds.
const MAX_MILLIS: u32 = 10_000;

/// What the threads of one trial share.
#[derive(Drop)]
struct Trial {
    begun: AtomicU32,
    is_given_up: AtomicBool,
}

/// Whether so many threads can stand beside this one, at the same time.
pub fn can_begin<R: Threads + Wait + Sync>(rt: &R, clock: &HostRuntime, count: u32) -> bool {
    let trial = Trial {
        begun: AtomicU32::new(0),
        is_given_up: AtomicBool::new(false),
    };
    begin(rt, clock, &trial, count);
    !trial.is_given_up.load(Ordering::SeqCst)
}

/// Begins so many threads, the first one here and each other one out of the one before it.
#[cycle(deeper)]
fn begin<R: Threads + Wait + Sync>(rt: &R, clock: &HostRuntime, trial: &Trial, left: u32) {
    if left == 0 || trial.is_given_up.load(Ordering::SeqCst) {
        return;
    }
    let (before, others) = (trial.begun.load(Ordering::SeqCst), left - 1);
    join_mut(
        rt,
        &mut || {
            trial.begun.fetch_add(1, Ordering::SeqCst);
            begin(rt, clock, trial, others)
        },
        &mut || wait_behind(clock, trial, before),
    );
}

/// Waits until more have begun than these, or gives the trial up.
fn wait_behind(clock: &HostRuntime, trial: &Trial, before: u32) {
    for _ in 0..MAX_MILLIS {
        if trial.begun.load(Ordering::SeqCst) > before {
            return;
        }
        sleep(clock, Duration::from_millis(1));
    }
    trial.is_given_up.store(true, Ordering::SeqCst);
}
