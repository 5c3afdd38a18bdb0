//! One thread of the measurement: a pass of the turnstile with its lock.
//! Keeps: the pass is of that lock (`of_lock`).
ghost use Rattle.fts_turnstile.specs.Passes.{IsOf};

use super::tally::Tally;
use fts_turnstile::{Pass, Turnstile};
use std::sync::Wait;
use std::thread;
use std::time::{Clock, Duration};

/// A pass and its lock.
#[derive(Drop)]
pub struct Lane<'a> {
    lock: &'a Turnstile<Tally>,
    pass: Pass<Tally>,
    ghost of_lock: { IsOf lock.now pass },
}

impl<'a> Lane<'a> {
    /// The pass in a lane of its own.
    pub fn new(lock: &'a Turnstile<Tally>, pass: Pass<Tally>) -> Lane<'a>
        requires { IsOf lock.now pass }
    {
        Lane { lock, pass }
    }

    /// Takes so many turns, each of which counts itself.
    pub fn take_turns<R: Wait>(&mut self, rt: &R, turns: u32) {
        for _ in 0..turns {
            self.lock
                .with_turn(rt, &mut self.pass, |tally: &mut Tally| tally.count());
        }
    }

    /// Holds one turn for so long.
    pub fn hold<R: Wait + Clock>(&mut self, rt: &R, long: Duration) {
        self.lock.with_turn(rt, &mut self.pass, |_: &mut Tally| thread::sleep(rt, long));
    }
}
