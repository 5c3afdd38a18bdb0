//! Claims, reports and cancellations at three numbers of waiting files: each command of a kind is timed alone, `prepare` and `commit`.
//! Sixteen files run: the oldest is reported before the next is claimed, so the slots never run out.
use super::waiting::{ENDS, FILES, Layout, MOMENT, apply, filled_desk};
use crate::clock;
use fts_desk::Desk;
use fts_tables::{Answer, Command, Outcome};
use std::io;

/// How many commands of a kind are timed, but for the cancellations of many files.
const TIMED: u32 = 500;

/// Each size is timed so often, in turn with the others, and the least time counts: a processor's speed may change meanwhile.
pub const ROUNDS: u32 = 5;

/// How many files run at once.
const RUNNING: usize = 16;

/// As many jobs as there may be here.
const MOST_JOBS: u32 = 1_000;

/// What is timed.
#[derive(Clone, Copy)]
enum Timed {
    /// Claims, between which a file is reported as copied.
    Claims,
    /// Reports after which the file waits again.
    Retries,
    /// Cancellations of every second file, in the order of their numbers.
    EverySecond,
    /// Cancellations of half of all files, anywhere.
    Anywhere,
    /// Cancellations of the first fifty files of ten jobs, in turn: few, so each meets memory that nothing has touched since the desk was filled.
    FirstFew,
}

/// What a command was answered, and how many seconds it took.
#[derive(Clone, Copy)]
struct Answered {
    answer: Answer,
    seconds: f64,
}

/// Applies a command, and tells how long it took.
fn apply_timed(rt: &HostRuntime, desk: &mut Desk, command: Command) -> io::Result<Answered> {
    let begun = clock::now(rt);
    let applied = apply(desk, &command);
    let seconds = clock::now(rt) - begun;
    match applied {
        Ok(answer) => Ok(Answered { answer, seconds }),
        Err(error) => Err(error),
    }
}

/// Claims a file, by a turn's own word.
fn claim(rt: &HostRuntime, desk: &mut Desk, turn: u32) -> io::Result<Answered> {
    let word = u64::from(turn) * 7919;
    apply_timed(rt, desk, Command::Claim { now: MOMENT, word })
}

/// Reports a claim's file, with an outcome.
fn report(
    rt: &HostRuntime,
    desk: &mut Desk,
    claimed: Answer,
    outcome: Outcome,
) -> io::Result<Answered> {
    let Answer::Claimed { file, attempt } = claimed else {
        return Err(io::Error::other("a claim is answered otherwise"));
    };
    let command = Command::Report {
        now: MOMENT,
        file,
        attempt,
        outcome,
    };
    apply_timed(rt, desk, command)
}

/// Claims a file, and lets it wait for its retry; what is told is the report.
fn retry(rt: &HostRuntime, desk: &mut Desk, turn: u32) -> io::Result<Answered> {
    let claimed = claim(rt, desk, turn)?;
    report(rt, desk, claimed.answer, Outcome::StoreFailed)
}

/// Cancels the file at a place, from 0.
fn cancel(rt: &HostRuntime, desk: &mut Desk, place: u32) -> io::Result<Answered> {
    let command = Command::CancelFile {
        now: MOMENT,
        job: place / FILES + 1,
        file: place.saturating_add(1),
    };
    apply_timed(rt, desk, command)
}

/// Lets half of the files wait for their retry: they are not ripe.
fn unripen_half(rt: &HostRuntime, desk: &mut Desk, jobs: u32) -> io::Result<()> {
    for _ in 0..jobs.min(MOST_JOBS) * FILES / 2 {
        retry(rt, desk, 0)?;
    }
    Ok(())
}

/// How many seconds claims take.
fn claims(rt: &HostRuntime, desk: &mut Desk) -> io::Result<f64> {
    let verified = Outcome::Verified {
        size: 0,
        digest: [0; 16],
    };
    let mut running = [None; RUNNING];
    let mut seconds = 0.0;
    for turn in 0..TIMED {
        let place = turn as usize % RUNNING;
        if let Some(oldest) = running[place] {
            report(rt, desk, oldest, verified)?;
        }
        let claimed = claim(rt, desk, turn)?;
        running[place] = Some(claimed.answer);
        seconds += claimed.seconds;
    }
    Ok(seconds)
}

/// How many commands are timed while as many jobs wait.
fn timed_commands(timed: Timed, jobs: u32) -> u32 {
    match timed {
        Timed::Claims | Timed::Retries | Timed::FirstFew => TIMED,
        Timed::EverySecond | Timed::Anywhere => jobs.min(MOST_JOBS) * FILES / 2,
    }
}

/// The place of the file, from 0, that is cancelled in a turn.
fn place_of_turn(timed: Timed, jobs: u32, turn: u32) -> u32 {
    let files = u64::from(jobs.clamp(1, MOST_JOBS) * FILES);
    match timed {
        Timed::EverySecond => (u64::from(turn) * 2 % files) as u32,
        Timed::Claims | Timed::Retries | Timed::Anywhere => (u64::from(turn) * 7919 % files) as u32,
        Timed::FirstFew => turn % 10 * FILES + turn / 10 % FILES,
    }
}

/// How many seconds cancellations take, of files of so many jobs.
fn cancellations(rt: &HostRuntime, desk: &mut Desk, timed: Timed, jobs: u32) -> io::Result<f64> {
    let mut seconds = 0.0;
    for turn in 0..timed_commands(timed, jobs) {
        seconds += cancel(rt, desk, place_of_turn(timed, jobs, turn))?.seconds;
    }
    Ok(seconds)
}

/// How many seconds reports take after which their files wait again.
fn retries(rt: &HostRuntime, desk: &mut Desk) -> io::Result<f64> {
    let mut seconds = 0.0;
    for turn in 0..TIMED {
        seconds += retry(rt, desk, turn)?.seconds;
    }
    Ok(seconds)
}

/// One measurement: commands of a kind while jobs wait, all ripe or half of them.
#[derive(Clone, Copy)]
struct Measured {
    timed: Timed,
    layout: Layout,
    half: bool,
}

/// How many seconds the commands take on a desk on which as many jobs wait.
fn seconds(rt: &HostRuntime, desk: &mut Desk, measured: Measured, jobs: u32) -> io::Result<f64> {
    if measured.half {
        unripen_half(rt, desk, jobs)?;
    }
    match measured.timed {
        Timed::Claims => claims(rt, desk),
        Timed::Retries => retries(rt, desk),
        Timed::EverySecond | Timed::Anywhere | Timed::FirstFew => {
            cancellations(rt, desk, measured.timed, jobs)
        }
    }
}

/// How many microseconds one command takes while as many jobs wait.
fn microseconds(rt: &HostRuntime, measured: Measured, jobs: u32) -> io::Result<f64> {
    let mut desk = filled_desk(rt.alloc(), jobs, measured.layout)?;
    let seconds = seconds(rt, &mut desk, measured, jobs)?;
    Ok(seconds * 1_000_000.0 / f64::from(timed_commands(measured.timed, jobs)))
}

/// What is measured, in words.
fn name_of(timed: Timed) -> &'static str {
    match timed {
        Timed::Claims => "claim",
        Timed::Retries => "report with a retry",
        Timed::EverySecond => "cancellation, every second file in turn",
        Timed::Anywhere => "cancellation, half of the files anywhere",
        Timed::FirstFew => "cancellation, the first 500",
    }
}

/// Prints how long one command takes while 10, 100 and 1,000 jobs of 200 files wait, in turn, and what a hundred times the files cost.
fn print_times(rt: &HostRuntime, measured: Measured) -> io::Result<()> {
    let (mut few, mut more, mut most) = (f64::INFINITY, f64::INFINITY, f64::INFINITY);
    for _ in 0..ROUNDS {
        few = few.min(microseconds(rt, measured, 10)?);
        more = more.min(microseconds(rt, measured, 100)?);
        most = most.min(microseconds(rt, measured, 1_000)?);
    }
    let Layout {
        links,
        priorities,
        ..
    } = measured.layout;
    println!(rt;
        "{}, links {links}, priorities {priorities}, {}: {few:.2}, {more:.2}, {most:.2} us at 2,000, 20,000, 200,000; ratio {:.2}",
        name_of(measured.timed),
        if measured.half {
            "half ripe"
        } else {
            "all ripe"
        },
        most / few
    )
}

/// Claims are measured on one link and on sixteen, with one priority and with five.
const LAYOUTS: [Layout; 4] = [
    Layout {
        ends: ENDS,
        links: 1,
        priorities: 1,
        hours: false,
    },
    Layout {
        ends: ENDS,
        links: 1,
        priorities: 5,
        hours: false,
    },
    Layout {
        ends: ENDS,
        links: 16,
        priorities: 1,
        hours: false,
    },
    Layout {
        ends: ENDS,
        links: 16,
        priorities: 5,
        hours: false,
    },
];

/// What is measured on sixteen links with five priorities, beside claims.
const OTHERS: [Timed; 4] = [
    Timed::Retries,
    Timed::EverySecond,
    Timed::Anywhere,
    Timed::FirstFew,
];

/// Prints the times of claims, all files ripe and half of them, and then of the others.
pub fn measure(rt: &HostRuntime) -> io::Result<()> {
    let timed = Timed::Claims;
    for layout in LAYOUTS {
        print_times(
            rt,
            Measured {
                timed,
                layout,
                half: false,
            },
        )?;
        print_times(
            rt,
            Measured {
                timed,
                layout,
                half: true,
            },
        )?;
    }
    let (layout, half) = (LAYOUTS[3], false);
    for timed in OTHERS {
        print_times(
            rt,
            Measured {
                timed,
                layout,
                half,
            },
        )?;
    }
    Ok(())
}
