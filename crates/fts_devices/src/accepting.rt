//! The next connection of a listener, whatever became of those before it.
//! Keeps: one that is gone is passed over, and where none can be taken for now it rests and asks again, so that no client and no want of descriptors
//! ends a lane. Only an answer that there is no listener does (`next_line`, clause `line`). What an answer means, `steps` decides.
ghost use Rattle.std.specs.Prelude.{◌≡◌, ℕ, List, Option, Result};
ghost use Rattle.fts_devices.specs.Accepting.{Answers, GivesLine};

use crate::steps::{Untaken, untaken_by};

/// What connections are taken from.
pub trait Listens {
    /// A line: what one connection is read from and written to.
    type Line;

    /// The answers to come, where they are told.
    ghost answers: { Self → Option (List (Result Self.Line ℕ)) };

    /// Waits for a connection. Where it takes none, the system's number of its refusal (errno of POSIX; 0 where it gave none).
    fn take(&mut self) -> Result<Self::Line, u32>
        ensures answer { Answers (answers self.old) (answers self.new) result };

    /// Waits a while before the next try.
    fn rest(&mut self)
        ensures same { answers self.new ≡ answers self.old };
}

/// The next line of a listener; `None` where there is no listener. It asks 2^64 - 1 times at most.
pub fn next_line<L: Listens>(listener: &mut L) -> Option<L::Line>
    ensures line { GivesLine 18446744073709551615 (L.answers listener.old) (L.answers listener.new) result }
{
    for _ in 0..u64::MAX {
        match listener.take() {
            Ok(line) => return Some(line),
            Err(errno) => match untaken_by(errno) {
                Untaken::Gone => {}
                Untaken::NotYet => listener.rest(),
                Untaken::NoListener => return None,
            },
        }
    }
    None
}
