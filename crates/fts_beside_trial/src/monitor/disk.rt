//! A file that another process changes while it is looked at, and one read of which may fail.
//! It tells nothing of its contents, as real ones don't.
use fts_disk::{Disk, DiskFailed};

/// A file of these bytes, and of others from its read of a number on. Reads are numbered from 1.
#[derive(Drop)]
pub struct Changing {
    pub bytes: &'static [u8],
    pub later: &'static [u8],
    /// The first read of the later bytes.
    pub from: u64,
    /// The read that fails.
    pub fail: u64,
    pub reads: u64,
    pub faults: u64,
}

impl Changing {
    /// What stands there at the next read.
    fn there(&self) -> &'static [u8] {
        if self.reads.saturating_add(1) < self.from {
            self.bytes
        } else {
            self.later
        }
    }
}

impl Disk for Changing {
    ghost use Rattle.fts_disk.specs.Disk.{untold};

    ghost state = { λ _. untold };

    ghost faults = { λ disk. disk.faults };

    ghost lawful = { λ disk told. Prim.cc };

    fn len(&mut self) -> Result<u64, DiskFailed> {
        Ok(self.there().len() as u64)
    }

    fn read_at(&mut self, at: u64, into: &mut [u8]) -> Result<(), DiskFailed> {
        let there = self.there();
        self.reads = self.reads.saturating_add(1);
        if self.reads == self.fail {
            self.faults = self.faults.saturating_add(1);
            return Err(DiskFailed);
        }
        let from = (at as usize).min(there.len());
        for (byte, stands) in into.iter_mut().zip(&there[from..]) {
            *byte = *stands;
        }
        Ok(())
    }

    fn write_at(&mut self, _at: u64, _bytes: &[u8]) -> Result<(), DiskFailed> {
        Ok(())
    }

    fn sync(&mut self) -> Result<(), DiskFailed> {
        Ok(())
    }
}
