//! A file system for tests that refuses one of its calls. No other one does anything, and each is answered as done.
use fts_files::{FileSystem, Kind, Refused, Seen, Way};

/// It refuses the call of a number, from 1, and keeps how many there were.
#[derive(Drop)]
pub(crate) struct RefusingFiles {
    pub(crate) refuses_at: usize,
    /// The system's number that it is refused with.
    pub(crate) errno: u32,
    pub(crate) calls: usize,
}

const SEEN: Seen = Seen {
    kind: Kind::File,
    len: 3,
    device: 1,
    inode: 2,
    mode: 0o644,
};

impl RefusingFiles {
    fn call(&mut self) -> Result<(), Refused> {
        self.calls = self.calls.saturating_add(1);
        if self.calls == self.refuses_at {
            Err(Refused { errno: self.errno })
        } else {
            Ok(())
        }
    }
}

impl FileSystem for RefusingFiles {
    ghost use Rattle.std.specs.Prelude.{None};

    type Handle = u32;

    ghost calls = { λ _. None };

    ghost number = { λ file. file };

    fn open(&mut self, _: &str, _: Way) -> Result<u32, Refused> {
        self.call()?;
        Ok(7)
    }

    fn look(&mut self, _: &str) -> Result<Seen, Refused> {
        self.call()?;
        Ok(SEEN)
    }

    fn look_at_name(&mut self, _: &str) -> Result<Seen, Refused> {
        self.call()?;
        Ok(SEEN)
    }

    fn look_at_open(&mut self, _: &u32) -> Result<Seen, Refused> {
        self.call()?;
        Ok(SEEN)
    }

    fn read_at(&mut self, _: &u32, _: u64, into: &mut [u8]) -> Result<usize, Refused> {
        self.call()?;
        Ok(into.len())
    }

    fn write_at(&mut self, _: &u32, _: u64, bytes: &[u8]) -> Result<usize, Refused> {
        self.call()?;
        Ok(bytes.len())
    }

    fn sync_data(&mut self, _: &u32) -> Result<(), Refused> {
        self.call()
    }

    fn sync_all(&mut self, _: &u32) -> Result<(), Refused> {
        self.call()
    }

    fn lock(&mut self, _: &u32) -> Result<(), Refused> {
        self.call()
    }

    fn forget(&mut self, _: &u32) -> Result<(), Refused> {
        self.call()
    }

    fn link(&mut self, _: &str, _: &str) -> Result<(), Refused> {
        self.call()
    }

    fn rename(&mut self, _: &str, _: &str) -> Result<(), Refused> {
        self.call()
    }

    fn unlink(&mut self, _: &str) -> Result<(), Refused> {
        self.call()
    }

    fn make_folder(&mut self, _: &str) -> Result<(), Refused> {
        self.call()
    }

    fn set_mode(&mut self, _: &u32, _: u32) -> Result<(), Refused> {
        self.call()
    }

    fn names(&mut self, _: &str, _: &mut Vec<u8>) -> Result<(), Refused> {
        self.call()
    }

    fn rest(&mut self) {}
}
