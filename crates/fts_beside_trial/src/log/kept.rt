//! A log for tests: it keeps the lines that it was told, all of moment 5.
use fts_log::{Event, Log, line_of};
use std::alloc::Global;
use std::cell::Cell;

/// The lines so far.
#[derive(Drop)]
pub(crate) struct KeptLog {
    alloc: Global,
    lines: Cell<Vec<u8>>,
}

impl KeptLog {
    /// No line.
    pub(crate) fn new(alloc: Global) -> KeptLog {
        KeptLog {
            alloc,
            lines: Cell::new(Vec::new(alloc)),
        }
    }

    /// The lines, which it then keeps no more.
    pub(crate) fn take(&self) -> Vec<u8> {
        self.lines.replace(Vec::new(self.alloc))
    }
}

impl Log for KeptLog {
    fn tell(&self, event: &Event<'_>) {
        let mut lines = self.take();
        if let Ok(line) = line_of(self.alloc, 5, event) {
            let _kept = lines.extend_from_slice(&line);
        }
        self.lines.set(lines);
    }
}
