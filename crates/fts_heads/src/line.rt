//! What a claim asks of the files in line.
ghost use Rattle.std.specs.Prelude.{◌≡◌, find, map};
ghost use Rattle.fts_heads.specs.RipeFiles.{is_in};

use crate::ripe_file::{Lined, RipeFile};
use ordered::Ordered;

/// The first file in line of a queue. None exactly where none is in line there.
pub fn first_in_line(line: &Ordered<Lined>, queue: u32) -> Option<RipeFile>
    ensures first { result ≡ find (is_in queue) (map (λ key. key.waiter) line.now.keys) }
{
    let _ = line.len();
    let start = Lined {
        waiter: RipeFile {
            queue,
            dest: 0,
            rank: 0,
            file: 0,
        },
    };
    match line.first_from(&start) {
        Some(found) => {
            if found.waiter.queue == queue {
                Some(found.waiter)
            } else {
                None
            }
        },
        None => None,
    }
}
