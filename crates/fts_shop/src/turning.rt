//! A turn of a worker: a file that is held from before is reported first; else what is overdue is cancelled, and one is claimed, copied outside every
//! turn, and reported.
//! Keeps: the bench holds one file at most, whose copy has ended (`IsReady`).
//! Order: the expiry and a claim in one turn of the lock, the gate, the copy with its looks, each in a turn of its own, the removal of its part where
//! it wasn't verified, the gate again, and the report in one turn. Both commands of the first turn have one moment, and the claim's word is taken before it.
//! What a turn is, by its commands, their answers and its end, is `IsTurn` of `specs/Turns.antt`.
ghost use Rattle.std.specs.Prelude.{◌≡◌, ◌≢◌, [], Some, Ok, option_map};
ghost use Rattle.fts_tables.specs.History.{tables_of};
ghost use Rattle.fts_tables.specs.Tables.{row_at};
ghost use Rattle.fts_copy.specs.Copy.{StaysInside};
ghost use Rattle.fts_turnstile.specs.Passes.{IsOf, IsSame, seen_list};
ghost use Rattle.fts_workers.specs.Copies.{order_in};
ghost use Rattle.fts_workers.specs.ClaimSteps.{AnswersClaim};
ghost use Rattle.fts_shop.specs.Within.{HasOrder};
ghost use Rattle.fts_shop.specs.Turns.{IsReady, IsTurn, ReportsHeld, WorksOn, hand_data};
ghost use Rattle.fts_shop.specs.Parts.{CopiesOrder, HasSize};

use crate::ends::{Turn, end_of_claim, end_of_report, is_report_over};
use crate::shop::Shop;
use crate::tried::{ClaimTried, Tried, answer_of};
use crate::turns::{try_claim, try_command};
use crate::watch::ShopWatch;
use fts_copy::Loaded;
use fts_disk::Disk;
use fts_store::Store;
use fts_tables::{Answer, Clock, Command, Outcome, Words};
use fts_turnstile::{Pass, Turnstile};
use fts_workers::{Bench, CopyNote, Gate, Hand, Held};
use std::sync::Wait;

// A claimed file, and what its copy is asked for.
#[derive(Drop)]
struct Claimed {
    job: Option<u128>,
    file: u32,
    attempt: u32,
    order: Loaded,
}

// The file that a claim was answered with.
fn claimed_of(answer: Answer, order: Option<Loaded>, job: Option<u128>) -> Claimed
    requires claim { AnswersClaim (Ok answer) }
    requires some { HasOrder (Ok answer) order }
    ensures answer { answer ≡ Answer.Claimed result.file result.attempt }
    ensures order { order ≡ Some result.order }
    ensures job { result.job ≡ job }
{
    match answer {
        Answer::Claimed { file, attempt } => {
            let Some(order) = order else { unreachable!() };
            Claimed {
                job,
                file,
                attempt,
                order,
            }
        }
        Answer::Restarted { released: _ }
        | Answer::Submitted { job: _, id: _ }
        | Answer::Cancelled { job: _ }
        | Answer::PrioritySet { job: _ }
        | Answer::Reported { file: _, state: _ }
        | Answer::Banned { cancelled: _ }
        | Answer::Unbanned
        | Answer::Expired { cancelled: _ } => unreachable!(),
    }
}

// The size that an outcome tells fits its type.
fn size_fits(outcome: Outcome)
    ensures { HasSize outcome }
{
    if let Outcome::Verified { size, digest: _ } = outcome {
        prove!(size <= u64::MAX);
    }
}

// Copies an order outside every turn, and looks in turns of the pass whether its file is still wanted. Behind the copy its part is removed,
// where it wasn't verified, outside every turn too.
fn copy_order<D: Disk, E: Store, R: Wait>(
    rt: &R,
    shop: &Turnstile<Shop<D>>,
    pass: &mut Pass<Shop<D>>,
    bench: &mut Bench,
    store: &mut E,
    file: u32,
    order: Loaded,
) -> Outcome
    requires own { IsOf shop.now pass.old }
    requires inside { StaysInside order }
    ensures same { IsSame pass.old pass.new }
    ensures bench { bench.new ≡ bench.old }
    ensures copies { CopiesOrder E.Store pass.old pass.new store.old store.new file order result }
{
    let mut watch = ShopWatch {
        rt,
        shop,
        pass,
        file,
        askings: 0,
        noes: 0,
    };
    bench.copy(order, store, &mut watch)
}

// Reports the file that is held, in one turn. It is held on only where that met a fault.
fn report<D: Disk, C: Clock, R: Wait>(
    rt: &R,
    shop: &Turnstile<Shop<D>>,
    pass: &mut Pass<Shop<D>>,
    bench: &mut Bench,
    clock: &mut C,
) -> Turn
    requires own { IsOf shop.now pass.old }
    requires ready { IsReady bench.old.held }
    requires some { bench.old.held ≢ [] }
    ensures reports { ReportsHeld pass.old pass.new (C.moments clock.old) (C.moments clock.new) bench.old.held result bench.new.held }
    ensures same { IsSame pass.old pass.new }
    ensures places { bench.new.places ≡ bench.old.places }
    ensures ready { IsReady bench.new.held }
{
    let held = bench.held()[0];
    let Some(outcome) = held.outcome else {
        unreachable!()
    };
    let now = clock.now();
    let report = Command::Report {
        now,
        file: held.file,
        attempt: held.attempt,
        outcome,
    };
    let Tried { answer, lanes } = try_command(rt, shop, pass, report);
    if is_report_over(answer) {
        bench.drop_first();
    }
    end_of_report(held.file, answer, lanes)
}

// Copies a claimed file, of which the gate is told, holds it, and reports it.
fn work_on<D: Disk, E: Store, C: Clock, W: Words, G: Gate, R: Wait>(
    rt: &R,
    shop: &Turnstile<Shop<D>>,
    pass: &mut Pass<Shop<D>>,
    hand: &mut Hand<E, C, W>,
    bench: &mut Bench,
    gate: &G,
    claimed: Claimed,
) -> Turn
    requires own { IsOf shop.now pass.old }
    requires empty { bench.old.held ≡ [] }
    requires inside { StaysInside claimed.order }
    requires order { Some claimed.order ≡ option_map (order_in (tables_of (seen_list pass.old))) (row_at (tables_of (seen_list pass.old)).rows claimed.file) }
    ensures works { WorksOn E.Store pass.old pass.new (hand_data C.Clock W.Words hand.old) (hand_data C.Clock W.Words hand.new)
        claimed.file claimed.attempt result bench.new.held }
    ensures same { IsSame pass.old pass.new }
    ensures places { bench.new.places ≡ bench.old.places }
    ensures ready { IsReady bench.new.held }
{
    let _none = bench.held();
    let Claimed {
        job,
        file,
        attempt,
        order,
    } = claimed;
    let note = CopyNote::of(job, file, attempt, &order);
    let begun = gate.begun(file);
    let outcome = copy_order(rt, shop, pass, bench, &mut hand.store, file, order);
    gate.ended(&note, begun, outcome);
    size_fits(outcome);
    bench.hold(Held {
        file,
        attempt,
        outcome: Some(outcome),
    });
    report(rt, shop, pass, bench, &mut hand.clock)
}

/// A turn of a worker, which writes with its pass's number. A file that is held from before is reported; else the files that are overdue are cancelled
/// and one is claimed in one turn of the lock, at one moment, and it is copied, of which the gate is told before and behind it, and reported. Where the
/// claim was tried, no row was overdue in the tables that it met. A file is held behind the turn only after a report that met a fault.
/// `Idle` and `Stopping` come exactly where no row was eligible, with a lane left and without; `Stale` exactly where the desk refuses the report;
/// `DiskFailed` only where the disk counted a failure in the turn that tried the command, an expiry, a claim or a report; `JournalFull` exactly by
/// the limit; `Memory` freely. An expiry that met one of these faults ends the turn, and its claim's word is used up.
pub fn turn<D: Disk, E: Store, C: Clock, W: Words, G: Gate, R: Wait>(
    rt: &R,
    shop: &Turnstile<Shop<D>>,
    pass: &mut Pass<Shop<D>>,
    hand: &mut Hand<E, C, W>,
    bench: &mut Bench,
    gate: &G,
) -> Turn
    requires own { IsOf shop.now pass.old }
    requires ready { IsReady bench.old.held }
    ensures turn { IsTurn E.Store pass.old pass.new (hand_data C.Clock W.Words hand.old) (hand_data C.Clock W.Words hand.new)
        bench.old.held result bench.new.held }
    ensures same { IsSame pass.old pass.new }
    ensures places { bench.new.places ≡ bench.old.places }
    ensures ready { IsReady bench.new.held }
{
    if !bench.held().is_empty() {
        return report(rt, shop, pass, bench, &mut hand.clock);
    }
    let now = hand.clock.now();
    let word = hand.words.next();
    let ClaimTried {
        step,
        lanes,
        order,
        job,
    } = try_claim(rt, shop, pass, now, word);
    match answer_of(step) {
        Ok(answer) => {
            let claimed = claimed_of(answer, order, job);
            work_on(rt, shop, pass, hand, bench, gate, claimed)
        }
        Err(fault) => end_of_claim(fault, lanes),
    }
}
