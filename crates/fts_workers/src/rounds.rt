//! A round of one thread: each file that is held is copied and reported, in order of the claims; then the files that are overdue are cancelled, and
//! then others are claimed, until no row is eligible or the bench is full. The first command that answers neither Ok nor Idle ends it.
//! Keeps: the bench holds the files that are out, over whatever list the tables are of (`IsWorkedOver`). An outcome that couldn't be reported stays
//! on the bench, and the next round reports it without another copy.
//! Its parts say 'whatever is still done from here was done from the beginning' (`specs/Steps.antt`), so that loops join them.
ghost use Rattle.std.specs.Prelude.{◌≡◌, ◌+◌, ◌≤◌, ◌<◌, ℕ, [], List, Option, None, length, IsTrue, IfOk, OnOk, Ok};
ghost use Rattle.fts_tables.specs.Coming.{Coming};
ghost use Rattle.fts_tables.specs.declared.commands.Entry.{Entry};
ghost use Rattle.fts_tables.specs.Counts.{Rose};
ghost use Rattle.fts_store.specs.Store.{Stays};
ghost use Rattle.fts_keep.specs.Keeps.{Grows, DoubtHasCause, KeepsImagesSinceAny};
ghost use Rattle.fts_workers.specs.Benches.{BenchData, EndsHolding, HoldsActive, KeepsOne, kept_of};
ghost use Rattle.fts_workers.specs.FirstFile.{IsFirstCopied};
ghost use Rattle.fts_workers.specs.Rounds.{IsFullAt, IsWorkedOver, MakesRound};
ghost use Rattle.fts_workers.specs.ClaimSteps.{AnswersClaim};
ghost use Rattle.fts_workers.specs.Steps.{stand, MakesNoCopy, MakesCopies, WorksOn, Fills, FillsOn, ExpiresOn, ExpiresAndFills, KeepsOn, RoundsTo};
ghost use Rattle.fts_workers.specs.Stops.{IsStop, EndsBy, NamesHeld};

use crate::claiming::{claim, expire};
use crate::{Bench, Held, RoundEnd};
use fts_disk::Disk;
use fts_keep::{Keep, KeepFault};
use fts_store::Store;
use fts_tables::laws::{
    active_rows_have_known_ends, claimed_files_were_in, files_out_are_the_active_rows,
    picked_rows_stand, tables_are_well_formed,
};
use fts_tables::{Answer, Clock, Command, Words};

// How a fault of the keep ends a round.
fn end_by(fault: KeepFault) -> RoundEnd
    requires { IsStop fault }
    ensures { EndsBy fault result }
{
    match fault {
        KeepFault::DiskFailed => RoundEnd::DiskFailed,
        KeepFault::JournalFull { used } => RoundEnd::JournalFull { used },
        KeepFault::Memory => RoundEnd::Memory,
        KeepFault::Rule(_) | KeepFault::Damaged { offset: _ } => unreachable!(),
    }
}

// The file that a claim took.
fn held_of(answer: Answer) -> Held
    requires { AnswersClaim (Ok answer) }
    ensures { NamesHeld answer result }
{
    match answer {
        Answer::Claimed { file, attempt } => Held {
            file,
            attempt,
            outcome: None,
        },
        Answer::Restarted { released: _ }
        | Answer::Submitted { job: _, id: _ }
        | Answer::Cancelled { job: _ }
        | Answer::PrioritySet { job: _ }
        | Answer::Reported { file: _, state: _ }
        | Answer::Banned { cancelled: _ }
        | Answer::Unbanned
        | Answer::Expired { cancelled: _ } => unreachable!(),
    }
}

// Reports the first file, whose outcome is kept. At `Ok` it is held no longer.
fn report_first<D: Disk, C: Clock>(
    keep: &mut Keep<D>,
    bench: &mut Bench,
    clock: &mut C,
) -> Result<(), RoundEnd>
    requires order { (entries : List Entry) × IsWorkedOver keep.old bench.old entries }
    requires copied { IsFirstCopied bench.old.held }
    ensures part { (words : Option Coming) (workers : ℕ) → MakesNoCopy D.state D.faults (WorksOn workers result)
        (stand keep.old bench.old (C.moments clock.old) words) (stand keep.new bench.new (C.moments clock.new) words) }
    ensures kept { KeepsOne bench.new.held }
    ensures places { bench.new.places ≡ bench.old.places }
    ensures few { length bench.new.held ≤ bench.new.places }
    ensures shorter { OnOk result (length bench.new.held + 1 ≡ length bench.old.held) }
    ensures keeps { KeepsOn D.state D.faults keep.old keep.new }
{
    tables_are_well_formed();
    files_out_are_the_active_rows();
    let first = bench.held()[0];
    let Some(outcome) = first.outcome else {
        unreachable!()
    };
    let now = clock.now();
    let report = Command::Report {
        now,
        file: first.file,
        attempt: first.attempt,
        outcome,
    };
    match keep.apply(0, report) {
        Ok(_) => {
            bench.drop_first();
            Ok(())
        }
        Err(fault) => Err(end_by(fault)),
    }
}

// Tries a claim, and holds the file that it takes. False where no row is eligible.
fn claim_next<D: Disk, C: Clock, W: Words>(
    keep: &mut Keep<D>,
    bench: &mut Bench,
    clock: &mut C,
    words: &mut W,
) -> Result<bool, RoundEnd>
    requires order { (entries : List Entry) × IsWorkedOver keep.old bench.old entries }
    requires none { kept_of bench.old.held ≡ None }
    requires free { length bench.old.held < bench.old.places }
    ensures part { MakesNoCopy D.state D.faults (FillsOn bench.old.places result)
        (stand keep.old bench.old (C.moments clock.old) (W.words words.old)) (stand keep.new bench.new (C.moments clock.new) (W.words words.new)) }
    ensures none { kept_of bench.new.held ≡ None }
    ensures places { bench.new.places ≡ bench.old.places }
    ensures few { length bench.new.held ≤ bench.new.places }
    ensures longer { IfOk result (λ more. IsTrue more → length bench.new.held ≡ length bench.old.held + 1) }
    ensures keeps { KeepsOn D.state D.faults keep.old keep.new }
{
    tables_are_well_formed();
    picked_rows_stand();
    claimed_files_were_in();
    let now = clock.now();
    let word = words.next();
    match claim(keep, 0, now, word) {
        Ok(answer) => {
            bench.hold(held_of(answer));
            Ok(true)
        }
        Err(KeepFault::Rule(_)) => Ok(false),
        Err(KeepFault::DiskFailed) => Err(RoundEnd::DiskFailed),
        Err(KeepFault::JournalFull { used }) => Err(RoundEnd::JournalFull { used }),
        Err(KeepFault::Memory) => Err(RoundEnd::Memory),
        Err(KeepFault::Damaged { offset: _ }) => unreachable!(),
    }
}

// Tries an expiry. At `Ok` the files that were overdue are cancelled, or none was.
fn expire_once<D: Disk, C: Clock>(keep: &mut Keep<D>, clock: &mut C) -> Result<(), RoundEnd>
    ensures part { (bench : BenchData) (words : Option Coming) (entries : List Entry) → IsWorkedOver keep.old bench entries → kept_of bench.held ≡ None
        → MakesNoCopy D.state D.faults (ExpiresOn bench.places result)
        (stand keep.old bench (C.moments clock.old) words) (stand keep.new bench (C.moments clock.new) words) }
    ensures keeps { KeepsOn D.state D.faults keep.old keep.new }
{
    tables_are_well_formed();
    files_out_are_the_active_rows();
    let now = clock.now();
    match expire(keep, 0, now) {
        Ok(_) => Ok(()),
        Err(KeepFault::Rule(_)) => Ok(()),
        Err(KeepFault::DiskFailed) => Err(RoundEnd::DiskFailed),
        Err(KeepFault::JournalFull { used }) => Err(RoundEnd::JournalFull { used }),
        Err(KeepFault::Memory) => Err(RoundEnd::Memory),
        Err(KeepFault::Damaged { offset: _ }) => unreachable!(),
    }
}

// No call at all keeps the keep as every part of a round does.
fn stays<D: Disk>(keep: &Keep<D>)
    ensures { KeepsOn D.state D.faults keep.now keep.now }
{
    let _desk = keep.desk();
}

// Copies the first file, where no outcome of it is kept, and reports it. At `Ok` it is held no longer.
fn work_first<D: Disk, E: Store, C: Clock>(
    keep: &mut Keep<D>,
    bench: &mut Bench,
    store: &mut E,
    clock: &mut C,
) -> Result<(), RoundEnd>
    requires order { (entries : List Entry) × IsWorkedOver keep.old bench.old entries }
    requires kept { KeepsOne bench.old.held }
    requires some { 1 ≤ length bench.old.held }
    ensures part { (words : Option Coming) (workers : ℕ) → MakesCopies D.state D.faults E.state E.calls E.faults (WorksOn workers result)
        (stand keep.old bench.old (C.moments clock.old) words) (stand keep.new bench.new (C.moments clock.new) words) store.old store.new }
    ensures kept { KeepsOne bench.new.held }
    ensures places { bench.new.places ≡ bench.old.places }
    ensures few { length bench.new.held ≤ bench.new.places }
    ensures shorter { OnOk result (length bench.new.held + 1 ≡ length bench.old.held) }
    ensures keeps { KeepsOn D.state D.faults keep.old keep.new }
{
    tables_are_well_formed();
    files_out_are_the_active_rows();
    bench.copy_first(keep.desk(), store);
    report_first(keep, bench, clock)
}

// Works off the files that are held, in order of their claims, up to the first that can't be reported.
fn work_off<D: Disk, E: Store, C: Clock>(
    keep: &mut Keep<D>,
    bench: &mut Bench,
    store: &mut E,
    clock: &mut C,
) -> Result<(), RoundEnd>
    requires order { (entries : List Entry) × IsWorkedOver keep.old bench.old entries }
    requires kept { KeepsOne bench.old.held }
    ensures part { (words : Option Coming) (workers : ℕ) → MakesCopies D.state D.faults E.state E.calls E.faults (WorksOn workers result)
        (stand keep.old bench.old (C.moments clock.old) words) (stand keep.new bench.new (C.moments clock.new) words) store.old store.new }
    ensures kept { KeepsOne bench.new.held }
    ensures places { bench.new.places ≡ bench.old.places }
    ensures few { length bench.new.held ≤ bench.new.places }
    ensures none { OnOk result (bench.new.held ≡ []) }
    ensures keeps { KeepsOn D.state D.faults keep.old keep.new }
{
    stays(keep);
    while !bench.held().is_empty() {
        work_first(keep, bench, store, clock)?;
    }
    Ok(())
}

// Claims, until no row is eligible or the bench is full.
fn fill_up<D: Disk, C: Clock, W: Words>(
    keep: &mut Keep<D>,
    bench: &mut Bench,
    clock: &mut C,
    words: &mut W,
) -> RoundEnd
    requires order { (entries : List Entry) × IsWorkedOver keep.old bench.old entries }
    requires none { kept_of bench.old.held ≡ None }
    requires few { length bench.old.held ≤ bench.old.places }
    ensures part { MakesNoCopy D.state D.faults (Fills bench.old.places result)
        (stand keep.old bench.old (C.moments clock.old) (W.words words.old)) (stand keep.new bench.new (C.moments clock.new) (W.words words.new)) }
    ensures none { kept_of bench.new.held ≡ None }
    ensures places { bench.new.places ≡ bench.old.places }
    ensures few { length bench.new.held ≤ bench.new.places }
    ensures keeps { KeepsOn D.state D.faults keep.old keep.new }
{
    stays(keep);
    while !bench.is_full() {
        match claim_next(keep, bench, clock, words) {
            Ok(true) => {}
            Ok(false) => return bench.calm_end(),
            Err(end) => return end,
        }
    }
    bench.calm_end()
}

// Tries an expiry once, and where that met no fault, claims.
fn expire_and_fill_up<D: Disk, C: Clock, W: Words>(
    keep: &mut Keep<D>,
    bench: &mut Bench,
    clock: &mut C,
    words: &mut W,
) -> RoundEnd
    requires order { (entries : List Entry) × IsWorkedOver keep.old bench.old entries }
    requires none { kept_of bench.old.held ≡ None }
    requires few { length bench.old.held ≤ bench.old.places }
    ensures part { MakesNoCopy D.state D.faults (ExpiresAndFills bench.old.places result)
        (stand keep.old bench.old (C.moments clock.old) (W.words words.old)) (stand keep.new bench.new (C.moments clock.new) (W.words words.new)) }
    ensures none { kept_of bench.new.held ≡ None }
    ensures places { bench.new.places ≡ bench.old.places }
    ensures few { length bench.new.held ≤ bench.new.places }
    ensures keeps { KeepsOn D.state D.faults keep.old keep.new }
{
    if let Err(end) = expire_once(keep, clock) {
        return end;
    }
    fill_up(keep, bench, clock, words)
}

// Works off what is held, and where that met no fault, expires and claims.
fn work_round<D: Disk, E: Store, C: Clock, W: Words>(
    keep: &mut Keep<D>,
    bench: &mut Bench,
    store: &mut E,
    clock: &mut C,
    words: &mut W,
) -> RoundEnd
    requires order { (entries : List Entry) × IsWorkedOver keep.old bench.old entries }
    requires kept { KeepsOne bench.old.held }
    ensures part { MakesCopies D.state D.faults E.state E.calls E.faults (RoundsTo bench.old.places result)
        (stand keep.old bench.old (C.moments clock.old) (W.words words.old)) (stand keep.new bench.new (C.moments clock.new) (W.words words.new))
        store.old store.new }
    ensures kept { KeepsOne bench.new.held }
    ensures places { bench.new.places ≡ bench.old.places }
    ensures few { length bench.new.held ≤ bench.new.places }
    ensures keeps { KeepsOn D.state D.faults keep.old keep.new }
{
    match work_off(keep, bench, store, clock) {
        Ok(()) => expire_and_fill_up(keep, bench, clock, words),
        Err(end) => end,
    }
}

/// One round. Each file that is held is copied, where no outcome of it is kept, and reported by writer 0, in order of the claims; then the files that
/// are overdue are cancelled by one expiry; then others are claimed, until no row is eligible or the bench is full. Each command that is tried, the
/// expiry too, takes the clock's next moment, and each claim the next word. An expiry that finds no file overdue changes nothing, and the round goes
/// on; one that meets a fault ends the round before any claim. No expiry touches a file that is out.
/// The bench holds the files that are out, over some list that the keep's tables are of. No report is `Stale`, and none says `Stopped`.
/// `Clear` and `Busy` say that no fault was met, and what is held then. A fault ends the round at once, and the next round goes on from there:
/// `DiskFailed` only where the disk counted a failure in this round, `JournalFull` exactly by the limit, and `Memory` freely. An outcome that
/// couldn't be reported is kept, and reported first then.
pub fn round<D: Disk, E: Store, C: Clock, W: Words>(
    keep: &mut Keep<D>,
    bench: &mut Bench,
    store: &mut E,
    clock: &mut C,
    words: &mut W,
) -> RoundEnd
    requires order { (entries : List Entry) × IsWorkedOver keep.old bench.old entries }
    requires kept { KeepsOne bench.old.held }

    // Over every disk it is a round over whatever list the tables and the bench are of.
    ensures round { MakesRound D.state D.faults E.state E.calls E.faults keep.old keep.new bench.old bench.new store.old store.new
        (C.moments clock.old) (C.moments clock.new) (W.words words.old) (W.words words.new) result }
    ensures active { HoldsActive keep.new.tables bench.new }
    ensures places { bench.new.places ≡ bench.old.places }

    // What its end says.
    ensures end { EndsHolding bench.new.held result }
    ensures disk_failed { result ≡ RoundEnd.DiskFailed → Rose (D.faults keep.old.disk) (D.faults keep.new.disk) }
    ensures journal_full { IsFullAt keep.new.used result }

    // What stays of the store, the list and its images.
    ensures stays { Stays (E.state store.old) (E.state store.new) }
    ensures no_fewer_faults { E.faults store.old ≤ E.faults store.new }
    ensures grows { Grows D.state D.faults 0 keep.old keep.new }
    ensures images { KeepsImagesSinceAny D.state keep.old keep.new }
    // An entry is in doubt behind a round only where one was before it, or where the disk counted a failure in it.
    ensures doubt_cause { DoubtHasCause D.state D.faults keep.old keep.new }
{
    files_out_are_the_active_rows();
    claimed_files_were_in();
    active_rows_have_known_ends();
    work_round(keep, bench, store, clock, words)
}
