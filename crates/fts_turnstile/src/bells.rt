//! Bells: who waits for a turn sleeps on that of its ticket, so the end of a turn wakes the next in line and nobody else.
//! A bell carries no value and gives no right: who wakes looks at the turn. So no contract speaks of one.
//! Order: who waits hears its bell before it looks at the turn, and sleeps only if the bell was not rung since; who passes the turn on rings behind that.
use std::array;
use std::sync::Wait;
use std::sync::atomic::{AtomicU64, Ordering};

/// How many bells there are. Tickets that differ by this number share one, and wake together.
const BELLS: usize = 32;

/// The bells of one lock, and how often something was changed in a turn.
#[derive(Drop)]
pub struct Bells {
    rung: [AtomicU64; BELLS],
    stirred: AtomicU64,
}

impl Bells {
    /// Bells that were never rung.
    pub fn new() -> Bells {
        Bells {
            rung: array::from_fn(|_| AtomicU64::new(0)),
            stirred: AtomicU64::new(0),
        }
    }

    /// The bell of a ticket.
    fn bell(&self, ticket: u64) -> &AtomicU64 {
        &self.rung[(ticket % BELLS as u64) as usize]
    }

    /// How often the bell of a ticket was rung, modulo 2^64.
    pub fn heard(&self, ticket: u64) -> u64 {
        self.bell(ticket).load(Ordering::SeqCst)
    }

    /// Sleeps until the bell of a ticket is rung, unless it was rung since this was heard. It may also return for no reason.
    /// Fewer than 2^32 rings come in between, so the low half of the number tells each of them.
    pub fn sleep<W: Wait>(&self, rt: &W, ticket: u64, heard: u64) {
        self.bell(ticket).park(rt, (heard % (1 << 32)) as u32);
    }

    /// Rings the bell of a ticket, and wakes who sleeps on it.
    pub fn ring(&self, ticket: u64) {
        let bell = self.bell(ticket);
        bell.fetch_add(1, Ordering::SeqCst);
        bell.wake_all();
    }

    /// Counts a change.
    pub fn stir(&self) {
        self.stirred.fetch_add(1, Ordering::SeqCst);
    }

    /// How many changes were counted, modulo 2^64.
    pub fn stirred(&self) -> u64 {
        self.stirred.load(Ordering::SeqCst)
    }
}
