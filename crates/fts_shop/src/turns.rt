//! Turns of a pass: a command that is tried in one, an expiry and a claim that brings the order of its copy, and the turn in which a lane ends.
//! Keeps: each adds at most its own commands to the list, with the pass's number as writer, and none but `lane_ends` changes the lanes left.
ghost use Rattle.std.specs.Prelude.{◌≡◌, IsTrue, IfSome};
ghost use Rattle.fts_tables.specs.History.{tables_of};
ghost use Rattle.fts_record.specs.Proper.{has_priority};
ghost use Rattle.fts_copy.specs.Copy.{StaysInside};
ghost use Rattle.fts_turnstile.specs.Passes.{IsOf, seen_list};
ghost use Rattle.fts_workers.specs.ClaimSteps.{AnswersClaim};
ghost use Rattle.fts_shop.specs.Shops.{LaneEnds, StepInTurn, TriedInTurn, step_answer};
ghost use Rattle.fts_shop.specs.Within.{HasOrder, job_claimed, order_claimed};

use crate::shop::Shop;
use crate::tried::{ClaimTried, Tried, claim_in, try_in};
use fts_disk::Disk;
use fts_tables::Command;
use fts_turnstile::{Pass, Turnstile};
use std::sync::Wait;

/// Tries a command in one turn of the pass, which writes it.
pub fn try_command<D: Disk, R: Wait>(
    rt: &R,
    shop: &Turnstile<Shop<D>>,
    pass: &mut Pass<Shop<D>>,
    command: Command,
) -> Tried
    requires own { IsOf shop.now pass.old }
    requires priority { IsTrue (has_priority command) }
    ensures { TriedInTurn pass.old pass.new command result.answer result.lanes }
{
    let writer = pass.number();
    shop.with_turn(
        rt,
        pass,
        |shop: &mut Shop<D>| -> Tried
            requires { IsTrue (has_priority command) }
        { try_in(shop, writer, command) },
    )
}

/// Tries an expiry and a claim in one turn of the pass, both at this moment, and brings what the copy of the claimed file is asked for.
/// The claim is tried unless the expiry met a fault, and no row is overdue in the tables that it meets.
pub fn try_claim<D: Disk, R: Wait>(
    rt: &R,
    shop: &Turnstile<Shop<D>>,
    pass: &mut Pass<Shop<D>>,
    now: u64,
    word: u64,
) -> ClaimTried
    requires own { IsOf shop.now pass.old }
    ensures tried { StepInTurn pass.old pass.new now word result.step.expiry result.step.claim result.lanes }
    ensures answers { AnswersClaim (step_answer result.step.expiry result.step.claim) }
    ensures order { result.order ≡ order_claimed (tables_of (seen_list pass.new)) (step_answer result.step.expiry result.step.claim) }
    ensures some { HasOrder (step_answer result.step.expiry result.step.claim) result.order }
    ensures inside { IfSome result.order StaysInside }
    ensures job { result.job ≡ job_claimed (tables_of (seen_list pass.new)) (step_answer result.step.expiry result.step.claim) }
{
    let writer = pass.number();
    shop.with_turn(
        rt,
        pass,
        |shop: &mut Shop<D>| claim_in(shop, writer, now, word),
    )
}

/// Ends a lane, in one turn of the pass: one lane fewer is left, and where none was, none is.
pub fn lane_ends<D: Disk, R: Wait>(rt: &R, shop: &Turnstile<Shop<D>>, pass: &mut Pass<Shop<D>>)
    requires own { IsOf shop.now pass.old }
    ensures { LaneEnds pass.old pass.new }
{
    shop.with_turn(rt, pass, |shop: &mut Shop<D>| shop.lane_ends());
    shop.stir();
}
