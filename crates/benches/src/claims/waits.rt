//! Claims at 200,000 waiting files: plain ones, beside those of files with hours in the queue, each behind an expiry that finds none overdue, and those
//! while a storage is banned. All sides run in one go, in turn. Sixteen files run: the oldest is reported before the next is claimed.
use super::commands::ROUNDS;
use super::waiting::{ENDS, Layout, MOMENT, apply, filled_desk};
use crate::clock;
use crate::entries::entry;
use fts_desk::{Desk, DeskFault};
use fts_tables::{Answer, Command, Outcome, Refusal};
use std::io;

/// How many claims are timed.
const TIMED: u32 = 500;

/// How many files run at once.
const RUNNING: usize = 16;

/// How many jobs of 200 files wait.
const JOBS: u32 = 1_000;

/// A ban of the source `https://s3`, whose files go on waiting.
const BAN: &[u8] = b"\x00\x08\x80\xe2\xcf\xaa\x06\x0ahttps://s3\x00";

/// What claims are timed beside.
#[derive(Clone, Copy)]
enum Beside {
    /// Nothing.
    Nothing,
    /// Hours in the queue of each file, and an expiry before each claim, timed with it.
    Expiries,
    /// A ban of a source.
    Ban,
}

/// Ends the files that are overdue, of which there is none.
fn expire_none(desk: &mut Desk) -> io::Result<()> {
    if desk.commands() == u32::MAX {
        return Err(io::Error::other("too many commands"));
    }
    match desk.prepare(&Command::Expire { now: MOMENT }) {
        Err(DeskFault::Rule(Refusal::Idle)) => Ok(()),
        Err(_) | Ok(_) => Err(io::Error::other("an expiry is answered otherwise")),
    }
}

/// Reports a claim's file as copied.
fn report(desk: &mut Desk, claimed: Answer) -> io::Result<()> {
    let Answer::Claimed { file, attempt } = claimed else {
        return Err(io::Error::other("a claim is answered otherwise"));
    };
    let outcome = Outcome::Verified {
        size: 0,
        digest: [0; 16],
    };
    let command = Command::Report {
        now: MOMENT,
        file,
        attempt,
        outcome,
    };
    match apply(desk, &command) {
        Ok(_reported) => Ok(()),
        Err(error) => Err(error),
    }
}

/// Claims a file by a turn's own word, behind an expiry where that is timed too.
fn claim(desk: &mut Desk, beside: Beside, turn: u32) -> io::Result<Answer> {
    match beside {
        Beside::Expiries => expire_none(desk)?,
        Beside::Nothing | Beside::Ban => {}
    }
    let word = u64::from(turn) * 7919;
    apply(desk, &Command::Claim { now: MOMENT, word })
}

/// How many seconds claims take on a desk.
fn seconds(rt: &HostRuntime, desk: &mut Desk, beside: Beside) -> io::Result<f64> {
    let mut running = [None; RUNNING];
    let mut seconds = 0.0;
    for turn in 0..TIMED {
        let place = turn as usize % RUNNING;
        if let Some(oldest) = running[place] {
            report(desk, oldest)?;
        }
        let begun = clock::now(rt);
        let claimed = claim(desk, beside, turn)?;
        seconds += clock::now(rt) - begun;
        running[place] = Some(claimed);
    }
    Ok(seconds)
}

/// A desk on which the files wait, with what claims are timed beside.
fn desk_for(rt: &HostRuntime, beside: Beside) -> io::Result<Desk> {
    let layout = Layout {
        ends: ENDS,
        links: 16,
        priorities: 5,
        hours: matches!(beside, Beside::Expiries),
    };
    let mut desk = filled_desk(rt.alloc(), JOBS, layout)?;
    if matches!(beside, Beside::Ban) {
        let ban = entry(rt.alloc(), BAN)?;
        let _banned = apply(&mut desk, &ban.command)?;
    }
    Ok(desk)
}

/// How many microseconds one claim takes.
fn microseconds(rt: &HostRuntime, beside: Beside) -> io::Result<f64> {
    let mut desk = desk_for(rt, beside)?;
    let seconds = seconds(rt, &mut desk, beside)?;
    Ok(seconds * 1_000_000.0 / f64::from(TIMED))
}

/// Prints how long one claim takes in each case, in turn, the least of some rounds, and against a plain one.
pub fn measure(rt: &HostRuntime) -> io::Result<()> {
    let (mut plain, mut expiries, mut ban) = (f64::INFINITY, f64::INFINITY, f64::INFINITY);
    for _ in 0..ROUNDS {
        plain = plain.min(microseconds(rt, Beside::Nothing)?);
        expiries = expiries.min(microseconds(rt, Beside::Expiries)?);
        ban = ban.min(microseconds(rt, Beside::Ban)?);
    }
    println!(rt;
        "claim, 200,000 waiting, links 16, priorities 5: {plain:.2} us; with hours, behind an expiry {expiries:.2}, ratio {:.2}; one of four sources banned {ban:.2}, ratio {:.2}",
        expiries / plain,
        ban / plain
    )
}
