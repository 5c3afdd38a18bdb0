//! What is done to the shop within one turn: a command is tried, a worker makes its step, a look is taken.
//! Keeps: what is added to the list is of the writer that tries it, and the lanes left stay as they are (`TriesIn`, `StepsIn` of `specs/Within.antt`).
//! Order of a step: the files that are overdue are cancelled, and then one is claimed, unless that met a fault; `fts_workers` has both as one call.
//! What a turn finds out comes back as a value, since nothing is known of what it would write elsewhere. So a claim brings the order of its copy.
ghost use Rattle.std.specs.Prelude.{◌≡◌, IsTrue, IfSome};
ghost use Rattle.fts_record.specs.Proper.{has_priority};
ghost use Rattle.fts_copy.specs.Copy.{StaysInside};
ghost use Rattle.fts_workers.specs.ClaimSteps.{AnswersClaim};
ghost use Rattle.fts_shop.specs.Shops.{step_answer};
ghost use Rattle.fts_shop.specs.Within.{TriesIn, StepsIn, HasOrder, IsLookIn, job_claimed, order_claimed};

use crate::Shop;
use fts_copy::Loaded;
use fts_disk::Disk;
use fts_keep::KeepFault;
use fts_tables::laws::{claimed_files_were_in, tables_are_well_formed};
use fts_tables::{Answer, Command};
use fts_workers::{ClaimStep, claim_step, job_of_file, order_of_file};

/// What a command came to in a turn.
#[derive(Drop)]
pub struct Tried {
    /// What the keep answered.
    pub answer: Result<Answer, KeepFault>,
    /// How many lanes were left in the turn.
    pub lanes: u32,
}

/// What an expiry and a claim came to in a turn.
#[derive(Drop)]
pub struct ClaimTried {
    /// What the keep answered to both.
    pub step: ClaimStep,
    /// How many lanes were left in the turn.
    pub lanes: u32,
    /// What the copy of the claimed file is asked for; none where no file was claimed.
    pub order: Option<Loaded>,
    /// The id of the claimed file's job; none where no file was claimed.
    pub job: Option<u128>,
}

/// Tries a command of a writer.
pub fn try_in<D: Disk>(shop: &mut Shop<D>, writer: u32, command: Command) -> Tried
    requires priority { IsTrue (has_priority command) }
    ensures { TriesIn D.Disk writer command shop.old shop.new result.answer result.lanes }
{
    let lanes = shop.lanes();
    let keep = shop.keep();
    let _desk = keep.desk();
    let answer = keep.apply(writer, command);
    let _later = keep.desk();
    Tried { answer, lanes }
}

// What a worker's step came to in a turn.
#[derive(Drop)]
struct Stepped {
    step: ClaimStep,
    lanes: u32,
}

// Tries an expiry and a claim of a writer, as one step.
fn step_in<D: Disk>(shop: &mut Shop<D>, writer: u32, now: u64, word: u64) -> Stepped
    ensures steps { StepsIn D.Disk writer now word shop.old shop.new result.step.expiry result.step.claim result.lanes }
    ensures answers { AnswersClaim (step_answer result.step.expiry result.step.claim) }
{
    let lanes = shop.lanes();
    let keep = shop.keep();
    let _desk = keep.desk();
    let step = claim_step(keep, writer, now, word);
    let _later = keep.desk();
    Stepped { step, lanes }
}

/// What a step came to: the answer to its claim, or the fault of its expiry where no claim was tried.
pub fn answer_of(step: ClaimStep) -> Result<Answer, KeepFault>
    ensures { result ≡ step_answer step.expiry step.claim }
{
    match step.claim {
        Some(answer) => answer,
        None => step.expiry,
    }
}

// The id of the job of a claimed file, by the answer to the claim.
fn job_claimed<D: Disk>(shop: &mut Shop<D>, answer: Result<Answer, KeepFault>) -> Option<u128>
    ensures job { result ≡ job_claimed shop.old.keep.tables answer }
    ensures same { shop.new ≡ shop.old }
{
    match answer {
        Ok(Answer::Claimed { file, attempt: _ }) => job_of_file(shop.keep().desk(), file),
        Ok(_) | Err(_) => None,
    }
}

/// Tries an expiry and a claim of a writer at one moment, the claim unless the expiry met a fault, and brings the order of the claimed file's copy.
pub fn claim_in<D: Disk>(shop: &mut Shop<D>, writer: u32, now: u64, word: u64) -> ClaimTried
    ensures steps { StepsIn D.Disk writer now word shop.old shop.new result.step.expiry result.step.claim result.lanes }
    ensures answers { AnswersClaim (step_answer result.step.expiry result.step.claim) }
    ensures order { result.order ≡ order_claimed shop.new.keep.tables (step_answer result.step.expiry result.step.claim) }
    ensures some { HasOrder (step_answer result.step.expiry result.step.claim) result.order }
    ensures inside { IfSome result.order StaysInside }
    ensures job { result.job ≡ job_claimed shop.new.keep.tables (step_answer result.step.expiry result.step.claim) }
{
    tables_are_well_formed();
    claimed_files_were_in();
    let Stepped { step, lanes } = step_in(shop, writer, now, word);
    let order = match answer_of(step) {
        Ok(Answer::Claimed { file, attempt: _ }) => order_of_file(shop.keep().desk(), file),
        Ok(_) | Err(_) => None,
    };
    let job = job_claimed(shop, answer_of(step));
    ClaimTried {
        step,
        lanes,
        order,
        job,
    }
}

/// Looks whether cancel was asked of a file.
pub fn look_in<D: Disk>(shop: &mut Shop<D>, file: u32) -> bool
    ensures { IsLookIn D.Disk file shop.old shop.new result }
{
    match shop.keep().desk().row(file) {
        Some(row) => row.cancel_asked,
        None => false,
    }
}
