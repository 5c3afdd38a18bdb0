//! A file system for tests: real files, a letter for each call, and some calls that are refused.
//! o is an opening, n a making, l and L a look by a name and at it, h one by a handle, r a read, w a write, d a sync of data, s one of all,
//! k a lock, f the dropping of pages, + a link, > a rename, - a name taken away, m a folder made, c a change of rights, N the names in a folder,
//! z a rest, of which none is rested.
use fts_files::{FileSystem, Refused, Seen, SystemFiles, Way};
use std::fs::{File, Files};

/// Real files whose calls are noted.
#[derive(Drop)]
pub(crate) struct NotingFiles<R: Drop> {
    pub(crate) files: SystemFiles<R>,
    pub(crate) letters: Vec<u8>,
    /// The number of the first call that is refused, from 1; 0 is none.
    pub(crate) refuses_at: usize,
    /// So many calls are refused from there on; a rest is none.
    pub(crate) refusals: usize,
    /// The number of the system that it is refused with.
    pub(crate) errno: u32,
    /// At most so many bytes are read or written by a call.
    pub(crate) most: usize,
}

impl<R: Drop> NotingFiles<R> {
    /// The real files, where the call isn't refused.
    fn noted(&mut self, letter: u8) -> Result<&mut SystemFiles<R>, Refused> {
        let is_noted = self.letters.push(letter).is_ok();
        let is_refused = self.refuses_at > 0 && self.letters.len() >= self.refuses_at;
        if is_noted && !(is_refused && self.refusals > 0) {
            return Ok(&mut self.files);
        }
        self.refusals = self.refusals.saturating_sub(1);
        Err(Refused { errno: self.errno })
    }
}

impl<R: Files<File = File> + Drop> FileSystem for NotingFiles<R> {
    ghost use Rattle.std.specs.Prelude.{None};

    type Handle = File;

    ghost calls = { λ _. None };

    ghost number = { λ _. 0 };

    fn open(&mut self, path: &str, way: Way) -> Result<File, Refused> {
        let letter = if way == Way::New { b'n' } else { b'o' };
        self.noted(letter)?.open(path, way)
    }

    fn look(&mut self, path: &str) -> Result<Seen, Refused> {
        self.noted(b'l')?.look(path)
    }

    fn look_at_name(&mut self, path: &str) -> Result<Seen, Refused> {
        self.noted(b'L')?.look_at_name(path)
    }

    fn look_at_open(&mut self, file: &File) -> Result<Seen, Refused> {
        self.noted(b'h')?.look_at_open(file)
    }

    fn read_at(&mut self, file: &File, offset: u64, into: &mut [u8]) -> Result<usize, Refused> {
        let most = into.len().min(self.most);
        self.noted(b'r')?.read_at(file, offset, &mut into[..most])
    }

    fn write_at(&mut self, file: &File, offset: u64, bytes: &[u8]) -> Result<usize, Refused> {
        let most = bytes.len().min(self.most);
        self.noted(b'w')?.write_at(file, offset, &bytes[..most])
    }

    fn sync_data(&mut self, file: &File) -> Result<(), Refused> {
        self.noted(b'd')?.sync_data(file)
    }

    fn sync_all(&mut self, file: &File) -> Result<(), Refused> {
        self.noted(b's')?.sync_all(file)
    }

    fn lock(&mut self, file: &File) -> Result<(), Refused> {
        self.noted(b'k')?.lock(file)
    }

    fn forget(&mut self, file: &File) -> Result<(), Refused> {
        self.noted(b'f')?.forget(file)
    }

    fn link(&mut self, path: &str, new: &str) -> Result<(), Refused> {
        self.noted(b'+')?.link(path, new)
    }

    fn rename(&mut self, path: &str, new: &str) -> Result<(), Refused> {
        self.noted(b'>')?.rename(path, new)
    }

    fn unlink(&mut self, path: &str) -> Result<(), Refused> {
        self.noted(b'-')?.unlink(path)
    }

    fn make_folder(&mut self, path: &str) -> Result<(), Refused> {
        self.noted(b'm')?.make_folder(path)
    }

    fn set_mode(&mut self, file: &File, mode: u32) -> Result<(), Refused> {
        self.noted(b'c')?.set_mode(file, mode)
    }

    fn names(&mut self, path: &str, into: &mut Vec<u8>) -> Result<(), Refused> {
        self.noted(b'N')?.names(path, into)
    }

    fn rest(&mut self) {
        let _noted = self.letters.push(b'z');
    }
}
