//! A ripe file, and its two places: among the files of its destination and queue, and in the line of its queue.
ghost use Rattle.std.specs.Prelude.{◌≡◌};

use ordered::Key;

/// A ripe file: its queue, the number of its destination, which may be one that no destination has, its rank, and its own number.
/// A lesser rank goes first: it is what its job's priority lacks of the greatest one, so that each queue and each group begins at zeros.
#[derive(Clone, Copy, Debug, PartialEq, Eq)]
pub struct RipeFile {
    pub queue: u32,
    pub dest: u32,
    pub rank: u32,
    pub file: u32,
}

/// A file in the line of its queue.
#[derive(Clone, Copy)]
pub struct Lined {
    pub waiter: RipeFile,
}

// Among all that wait: by destination, the greater number first, and queue. So the files of a number that no destination has stand first.
impl Key for RipeFile {
    ghost use Rattle.fts_heads.specs.RipeFiles.{goes_by_group, by_group};

    ghost before = { goes_by_group };

    fn is_before(&self, other: &RipeFile) -> bool {
        other.dest < self.dest
            || (other.dest == self.dest
                && (self.queue < other.queue
                    || (self.queue == other.queue
                        && (self.rank < other.rank
                            || (self.rank == other.rank && self.file < other.file)))))
    }

    ghost order = { by_group };
}

impl Key for Lined {
    ghost use Rattle.fts_heads.specs.Keys.{is_line_before, lines_in_order};

    ghost before = { is_line_before };

    fn is_before(&self, other: &Lined) -> bool {
        let one = self.waiter;
        let other = other.waiter;
        one.queue < other.queue
            || (one.queue == other.queue
                && (one.rank < other.rank
                    || (one.rank == other.rank
                        && (one.file < other.file
                            || (one.file == other.file && one.dest < other.dest)))))
    }

    ghost order = { lines_in_order };
}
