//! Work of one kind on each job of a list, and of two kinds on two lists, each in a thread of its own where one can be made.
//! Keeps: what `done` says of each job, by its own old value alone. A list is halved until one job is left, since a join takes two.
//! What a thread does stands behind a small trait, because a closure that
//! captures the lock beside a slice gets no proof in a generic function.
ghost use Rattle.std.specs.Prelude.{◌<◌, length, All};
ghost use denote.Param.Send.{IsSync, IsSend};
ghost use Rattle.fts_shop.specs.Many.{Each};

use std::sync::Wait;
use std::thread::{Threads, join_mut};

/// What is done to a job, beside what all jobs share.
pub trait Work<S, J> {
    /// What the work asks of a job.
    ghost ready: { S → J → Type 0 };

    /// What it makes of a job.
    ghost done: { S → J → J → Type 0 };

    /// Does the work.
    fn work<R: Wait>(rt: &R, shared: &S, job: &mut J)
        requires { ready shared.now job.old }
        ensures { done shared.now job.old job.new };
}

// The work of a list of one job at most.
fn work_few<W: Work<S, J>, S, J, R: Wait>(rt: &R, shared: &S, jobs: &mut [J])
    requires few { length jobs.old < 2 }
    requires ready { All (W.ready shared.now) jobs.old }
    ensures { Each (W.done shared.now) jobs.old jobs.new }
{
    if let [job] = jobs {
        W::work(rt, shared, job);
    }
}

/// The work of each job, at the same time.
#[cycle(halves)]
pub fn spread<W: Work<S, J> + Sync, S: Sync, J: Send, R: Threads + Wait + Sync>(
    rt: &R,
    shared: &S,
    jobs: &mut [J],
)
    requires { All (W.ready shared.now) jobs.old }
    ensures { Each (W.done shared.now) jobs.old jobs.new }
{
    if jobs.len() < 2 {
        work_few::<W, S, J, R>(rt, shared, jobs);
        return;
    }
    let (front, back) = jobs.split_at_mut(jobs.len() / 2);
    spread_both::<W, S, J, R>(rt, shared, front, back);
}

// The work of the jobs of two lists, at the same time.
#[cycle(halves)]
fn spread_both<W: Work<S, J> + Sync, S: Sync, J: Send, R: Threads + Wait + Sync>(
    rt: &R,
    shared: &S,
    front: &mut [J],
    back: &mut [J],
)
    requires front { All (W.ready shared.now) front.old }
    requires back { All (W.ready shared.now) back.old }
    ensures front { Each (W.done shared.now) front.old front.new }
    ensures back { Each (W.done shared.now) back.old back.new }
{
    let mut first = ||
        requires { IsSync R.row × IsSync W.row × IsSync S.row × IsSend J.row × All (W.ready shared.now) front.now }
        ensures { Each (W.done shared.entry.now) front.entry.now front.exit.now }
    { spread::<W, S, J, R>(rt, shared, front) };
    let mut second = ||
        requires { IsSync R.row × IsSync W.row × IsSync S.row × IsSend J.row × All (W.ready shared.now) back.now }
        ensures { Each (W.done shared.entry.now) back.entry.now back.exit.now }
    { spread::<W, S, J, R>(rt, shared, back) };
    join_mut(rt, &mut first, &mut second);
}

/// Two kinds of work on two lists, at the same time. Where no thread can be made, the others are done first: their work must not wait for the jobs'.
pub fn beside<
    W: Work<S, J> + Sync,
    V: Work<S, K> + Sync,
    S: Sync,
    J: Send,
    K: Send,
    R: Threads + Wait + Sync,
>(rt: &R, shared: &S, jobs: &mut [J], others: &mut [K])
    requires jobs { All (W.ready shared.now) jobs.old }
    requires others { All (V.ready shared.now) others.old }
    ensures jobs { Each (W.done shared.now) jobs.old jobs.new }
    ensures others { Each (V.done shared.now) others.old others.new }
{
    join_mut(
        rt,
        &mut ||
            requires { All (W.ready shared.now) jobs.now }
            ensures { Each (W.done shared.entry.now) jobs.entry.now jobs.exit.now }
        { spread::<W, S, J, R>(rt, shared, jobs) },
        &mut ||
            requires { All (V.ready shared.now) others.now }
            ensures { Each (V.done shared.entry.now) others.entry.now others.exit.now }
        { spread::<V, S, K, R>(rt, shared, others) },
    );
}
