//! A desk and the plain machine, driven through the same generated commands.

mod bans;
mod cancellations;
mod choices;
mod claims;
mod commands;
mod comparison;
mod coverage;
mod expiries;
mod generator;
mod jobs;
mod lawful;
mod machine;
mod plain;
mod rarities;
mod reports;
mod restarts;
mod scripts;
mod submissions;
mod worked;

use self::commands::command_of;
use self::comparison::{
    are_same_bans, are_same_jobs, are_same_rows, is_same_held, is_same_picked_job,
};
use self::coverage::Coverage;
use self::generator::Generator;
use self::machine::PlainMachine;
use self::rarities::{Before, Rarities, Told};
use fts_desk::{Desk, DeskFault};
use fts_tables::{Answer, Command, LinkAt, Memory, Refusal};
use std::alloc::Global;
use std::process::Abort;

/// Where the generator starts, a run each.
const SEEDS: [u64; 3] = [20_261_127, 20_261_128, 20_261_129];

/// A moment so late that those of retries and of hours in the queue pass the last one that there is.
const NEAR_THE_LAST: u64 = u64::MAX - 100_000;

/// So many commands of each run.
const COMMANDS: u32 = 1_000;

/// So often each event, each change of a state and each rare case has to come in the runs of a test.
const OFTEN: u32 = 5;

/// A desk and the plain machine, side by side.
#[derive(Drop)]
struct Trial {
    alloc: Global,
    desk: Desk,
    machine: PlainMachine,
    generator: Generator,
}

/// What a desk answers a command.
fn answer_of(desk: &mut Desk, command: &Command) -> Result<Result<Answer, Refusal>, Memory> {
    if desk.commands() == u32::MAX {
        return Err(Memory);
    }
    match desk.prepare(command) {
        Ok(plan) => Ok(Ok(desk.commit(plan))),
        Err(DeskFault::Rule(refusal)) => Ok(Err(refusal)),
        Err(DeskFault::Memory) => Err(Memory),
    }
}

/// What came up.
#[derive(Drop)]
struct Seen {
    coverage: Coverage,
    rarities: Rarities,
}

/// What a call gave. The test ends where it gave nothing: so there is no exit in what calls it, at which all that lives is dropped.
pub fn must<T, E: Drop>(rt: &impl Abort, given: Result<T, E>) -> T {
    match given {
        Ok(value) => value,
        Err(_) => panic!(rt; "memory is wanting"),
    }
}

/// Gives both the next command, and compares what they answer and what they keep.
fn agree_on_next(rt: &impl Abort, trial: &mut Trial, seen: &mut Seen, number: u32) {
    let plain = must(rt, trial.generator.next(&trial.machine));
    let before = must(rt, Before::of(trial.alloc, &trial.machine));
    let Some(command) = must(rt, command_of(trial.alloc, &plain)) else {
        panic!(rt; "command {number} is lawful");
    };
    let answer = must(rt, answer_of(&mut trial.desk, &command));
    let wanted = must(rt, trial.machine.step(plain));
    assert!(rt;
        answer == wanted,
        "command {number} is answered as the plain machine answers it"
    );
    let ended = must(rt, before.ended(trial.alloc, trial.machine.rows()));
    seen.coverage.note_answer(&command, &answer);
    seen.coverage
        .note_moves(before.rows(), trial.machine.rows());
    seen.rarities.note(Told {
        command: &command,
        answer: &answer,
        before: &before,
        ended: &ended,
        machine: &trial.machine,
    });
    agree_on_tables(rt, &trial.desk, &trial.machine, number);
}

/// Compares what both keep.
fn agree_on_tables(rt: &impl Abort, desk: &Desk, machine: &PlainMachine, number: u32) {
    let link = LinkAt {
        source: (number % 4) as u16,
        dest: (number / 4 % 4) as u16,
    };
    let are_same_lists = are_same_rows(desk.rows(), machine.rows())
        && are_same_jobs(desk.jobs(), machine.jobs())
        && are_same_bans(desk.banned(), machine.banned());
    assert!(rt;
        are_same_lists,
        "rows, jobs and bans after command {number}"
    );
    let is_same_seen = is_same_picked_job(desk, machine, number as usize)
        && is_same_held(desk, machine, link);
    assert!(rt;
        is_same_seen,
        "what is seen of a job and a link after command {number}"
    );
}

/// A run of commands from the empty tables, with moments that begin about the earliest.
fn agree_on_run(rt: &impl Abort, alloc: Global, seed: u64, earliest: u64, seen: &mut Seen) {
    let mut trial = Trial {
        alloc,
        desk: Desk::empty(alloc),
        machine: PlainMachine::empty(alloc),
        generator: Generator::new(alloc, seed, earliest),
    };
    for number in 0..COMMANDS {
        agree_on_next(rt, &mut trial, seen, number);
    }
}

/// A run from each seed, in all of which each case comes.
fn agree_on_runs(rt: &impl Abort, alloc: Global, earliest: u64, is_to_the_last: bool) {
    let mut seen = Seen {
        coverage: Coverage::new(),
        rarities: Rarities::new(),
    };
    for seed in SEEDS {
        agree_on_run(rt, alloc, seed ^ earliest, earliest, &mut seen);
    }
    let is_each_event = seen.coverage.rarer_than(OFTEN).is_none();
    assert!(rt; is_each_event, "each event comes");
    let is_each_move = seen.coverage.rarest_move() >= OFTEN;
    assert!(rt; is_each_move, "each change of a state comes");
    let is_each_rarity = seen.rarities.rarer_than(OFTEN, is_to_the_last).is_none();
    assert!(rt; is_each_rarity, "each rare case comes");
}

#[test]
fn a_desk_and_the_plain_machine_agree_from_moment_0_on(rt: HostRuntime) {
    agree_on_runs(&rt, rt.alloc(), 0, false);
}

#[test]
fn a_desk_and_the_plain_machine_agree_in_our_days(rt: HostRuntime) {
    agree_on_runs(&rt, rt.alloc(), 1_700_000_000, false);
}

#[test]
fn a_desk_and_the_plain_machine_agree_up_to_the_last_moment(rt: HostRuntime) {
    agree_on_runs(&rt, rt.alloc(), NEAR_THE_LAST, true);
}
