//! The lock: threads to their end, calls with ample memory, and callers that take each clause as a stranger would.
//! The value is a list of pairs: the number of the pass that added it, and a count that goes up by one.
ghost use Rattle.std.specs.Prelude.{◌≡◌, ◌⊎◌, [], ◌∷◌, ◌++◌, IfOk};
ghost use Rattle.fts_turnstile.specs.Passes.{IsOf, IsSame, own_items, first_pass};

use fts_turnstile::{Logged, Memory, Pass, Turnstile};
use std::alloc::{AllocError, Global};
use std::io;
use std::rt::Clock;
use std::sync::Wait;
use std::sync::atomic::{AtomicBool, Ordering};
use std::test::Fail;
use std::thread::{Threads, for_each_mut, join_mut, sleep, yield_now};
use std::time::{CpuClock, Duration};

const LANES: usize = 24;

#[derive(Drop)]
struct Counts {
    added: Vec<(u32, u32)>,
}

impl Logged for Counts {
    type Item = (u32, u32);

    ghost items = { λ counts. counts.added.items };

    ghost names = { λ item. item.0 };

    ghost shows = { λ counts. [] };
}

impl Counts {
    fn push(&mut self, by: u32, count: u32) -> bool
        ensures { (self.new.added.items ≡ self.old.added.items ++ (by, count) ∷ []) ⊎ (self.new.added.items ≡ self.old.added.items) }
    {
        self.added.push((by, count)).is_ok()
    }

    /// Up to where the pass has counted from 1, if nothing is missing and nothing out of order.
    fn counted_by(&self, by: u32) -> u32 {
        let mut count = 0;
        for item in &self.added {
            if item.0 == by && count < 1000 && item.1 == count + 1 {
                count += 1;
            }
        }
        count
    }

    /// Whether each pass from 1 on has counted so far.
    fn lanes_counted_to(&self, last: u32) -> bool {
        (1..LANES as u32).all(|by| self.counted_by(by) == last)
    }
}

/// A lock over no counts, and its pass 0.
fn new_lock(alloc: Global) -> Result<(Turnstile<Counts>, Pass<Counts>), Memory>
    ensures { IfOk result (λ made. made.1 ≡ first_pass made.0) }
{
    let counts = Counts {
        added: Vec::new(alloc),
    };
    match Turnstile::new(alloc, counts) {
        Ok(made) => Ok(made),
        Err((memory, _)) => Err(memory),
    }
}

/// Counts from 1 to the last, a turn each.
fn count_up<R: Wait>(rt: &R, lock: &Turnstile<Counts>, pass: &mut Pass<Counts>, last: u32)
    requires { IsOf lock.now pass.old }
    ensures { IsSame pass.old pass.new }
{
    for count in 0..last {
        let by = pass.number();
        lock.with_turn(rt, pass, |counts: &mut Counts| counts.push(by, count + 1));
    }
}

/// Two passes count to 1,000 in two threads.
fn count_in_two<R: Threads + Wait + Sync>(rt: &R, alloc: Global) -> Result<Counts, Memory> {
    let (lock, mut first) = new_lock(alloc)?;
    let mut second = lock.split(&mut first);
    join_mut(
        rt,
        &mut || count_up(rt, &lock, &mut first, 1000),
        &mut || count_up(rt, &lock, &mut second, 1000),
    );
    lock.join(&mut first, second);
    Ok(lock.close(first))
}

#[test]
fn two_threads_lose_no_item_and_keep_the_order_of_each(rt: HostRuntime) -> Result<(), Fail> {
    let counts = count_in_two(&rt, rt.alloc())?;
    let is_whole = counts.added.len() == 2000
        && counts.counted_by(0) == 1000
        && counts.counted_by(1) == 1000;
    assert!(rt; is_whole, "both count to 1,000, and nothing else is added");
    Ok(())
}

/// A pass in a thread of its own, with its lock.
#[derive(Drop)]
struct Lane<'a> {
    lock: &'a Turnstile<Counts>,
    pass: Pass<Counts>,
    ghost of_lock: { IsOf lock.now pass },
}

impl<'a> Lane<'a> {
    fn run<R: Wait>(&mut self, rt: &R) {
        count_up(rt, self.lock, &mut self.pass, 20);
    }
}

/// A lane for each of the next passes.
fn lanes<'a>(
    alloc: Global,
    lock: &'a Turnstile<Counts>,
    first: &mut Pass<Counts>,
) -> Result<Vec<Lane<'a>>, AllocError>
    requires { IsOf lock.now first.old × (first.old.number ≡ 0) × (first.old.given ≡ 0) }
    ensures { IsOf lock.now first.new × (first.new.number ≡ 0) }
{
    let mut lanes = Vec::new(alloc);
    for _ in 1..LANES {
        let pass = lock.split(first);
        lanes.push(Lane { lock, pass })?;
    }
    Ok(lanes)
}

#[test]
fn each_of_24_threads_adds_its_items_in_order(rt: HostRuntime) -> Result<(), Fail> {
    let (lock, mut first) = new_lock(rt.alloc())?;
    let mut lanes = lanes(rt.alloc(), &lock, &mut first)?;
    for_each_mut(
        &rt,
        lanes.as_mut_slice(),
        LANES,
        &|_, lane: &mut Lane| lane.run(&rt),
    );
    let whole = lock.with_turn(
        &rt,
        &mut first,
        |counts: &mut Counts| counts.lanes_counted_to(20),
    );
    assert!(rt; whole, "each pass from 1 on counted to 20");
    Ok(())
}

/// Says that it has the turn, and keeps it so long.
fn keep_turn<R: Wait + Clock>(
    rt: &R,
    lock: &Turnstile<Counts>,
    pass: &mut Pass<Counts>,
    is_kept: &AtomicBool,
    length: Duration,
)
    requires { IsOf lock.now pass.old }
    ensures { IsSame pass.old pass.new }
{
    lock.with_turn(rt, pass, |_: &mut Counts| {
        is_kept.store(true, Ordering::SeqCst);
        sleep(rt, length);
    });
}

/// Takes a turn once another has it, and says how much time of a processor that took.
fn wait_behind<R: Wait + CpuClock>(
    rt: &R,
    lock: &Turnstile<Counts>,
    pass: &mut Pass<Counts>,
    is_kept: &AtomicBool,
) -> io::Result<Duration>
    requires { IsOf lock.now pass.old }
    ensures { IsSame pass.old pass.new }
{
    for _ in rt.forever() {
        if is_kept.load(Ordering::SeqCst) {
            break;
        }
        yield_now();
    }
    let start = rt.thread_cpu_time()?;
    count_up(rt, lock, pass, 1);
    Ok(rt.thread_cpu_time()?.saturating_sub(start))
}

/// The time of a processor that a turn takes which waits for another one, of so long.
fn wait_for_turn<R: Threads + Wait + Sync + Clock + CpuClock>(
    rt: &R,
    alloc: Global,
    length: Duration,
) -> Result<io::Result<Duration>, Memory> {
    let (lock, mut first) = new_lock(alloc)?;
    let mut second = lock.split(&mut first);
    let is_kept = AtomicBool::new(false);
    let mut took = Ok(Duration::ZERO);
    join_mut(
        rt,
        &mut || keep_turn(rt, &lock, &mut first, &is_kept, length),
        &mut || took = wait_behind(rt, &lock, &mut second, &is_kept),
    );
    Ok(took)
}

#[test]
fn a_pass_that_waits_takes_next_to_no_time_of_a_processor(rt: HostRuntime) -> Result<(), Fail> {
    let took = wait_for_turn(&rt, rt.alloc(), Duration::from_secs(5))??;
    assert!(rt;
        took < Duration::from_secs(1),
        "it sleeps behind some looks, where the other has its turn for five seconds"
    );
    Ok(())
}

/// After they met, both have seen one list, and each has what it had added.
fn met(lock: &Turnstile<Counts>, pass: &mut Pass<Counts>, other: &mut Pass<Counts>)
    requires { IsOf lock.now pass.old × IsOf lock.now other.old }
    ensures seen { pass.new.seen ≡ other.new.seen }
    ensures items { (own_items pass.new ≡ own_items pass.old) × (own_items other.new ≡ own_items other.old) }
    ensures same { IsSame pass.old pass.new × IsSame other.old other.new }
{
    lock.meet(pass, other);
}

fn count_and_meet<R: Wait>(rt: &R, alloc: Global) -> Result<Counts, Memory> {
    let (lock, mut first) = new_lock(alloc)?;
    let mut second = lock.split(&mut first);
    count_up(rt, &lock, &mut first, 5);
    count_up(rt, &lock, &mut second, 7);
    met(&lock, &mut first, &mut second);
    count_up(rt, &lock, &mut second, 3);
    lock.join(&mut first, second);
    Ok(lock.close(first))
}

#[test]
fn passes_that_met_go_on_with_one_list(rt: HostRuntime) -> Result<(), Fail> {
    let counts = count_and_meet(&rt, rt.alloc())?;
    let is_one = counts.added.len() == 15 && counts.counted_by(0) == 5 && counts.counted_by(1) == 7;
    assert!(rt;
        is_one,
        "one counts to 5, the other to 7, and then to 3 anew"
    );
    Ok(())
}

/// Joins a pass, splits another, and closes with the numbers of both.
fn split_after_join<R: Wait>(rt: &R, alloc: Global) -> Result<(u32, Counts), Memory> {
    let (lock, mut first) = new_lock(alloc)?;
    let second = lock.split(&mut first);
    lock.join(&mut first, second);
    let mut third = lock.split(&mut first);
    let number = third.number();
    count_up(rt, &lock, &mut third, 4);
    lock.join(&mut first, third);
    Ok((number, lock.close(first)))
}

#[test]
fn a_split_after_a_join_gives_the_next_number(rt: HostRuntime) -> Result<(), Fail> {
    let (number, counts) = split_after_join(&rt, rt.alloc())?;
    assert!(rt;
        number == 2 && counts.counted_by(2) == 4,
        "the third pass is number 2, and counts to 4"
    );
    Ok(())
}

/// Counts that have to be taken apart by hand.
struct Sealed {
    counts: Counts,
}

impl Logged for Sealed {
    type Item = (u32, u32);

    ghost items = { λ sealed. sealed.counts.added.items };

    ghost names = { λ item. item.0 };

    ghost shows = { λ sealed. [] };
}

fn seal_and_open<R: Wait>(rt: &R, alloc: Global) -> Result<Counts, Memory> {
    let counts = Counts {
        added: Vec::new(alloc),
    };
    let (lock, mut first) = match Turnstile::new(alloc, Sealed { counts }) {
        Ok(made) => made,
        Err((memory, Sealed { counts: _ })) => return Err(memory),
    };
    lock.with_turn(
        rt,
        &mut first,
        |sealed: &mut Sealed| sealed.counts.push(0, 1),
    );
    let Sealed { counts } = lock.close(first);
    Ok(counts)
}

#[test]
fn a_value_that_is_never_dropped_comes_out_whole(rt: HostRuntime) -> Result<(), Fail> {
    let counts = seal_and_open(&rt, rt.alloc())?;
    let is_whole = counts.added.len() == 1 && counts.counted_by(0) == 1;
    assert!(rt; is_whole, "it holds the one count that was added");
    Ok(())
}
