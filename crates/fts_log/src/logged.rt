//! A file system over another one, which tells a log of each call that failed.
//! Keeps: each call is made once on the file system below, and has its answer. So the calls that are told by it, and the numbers of its open files,
//! are those of the one below (`calls`, `number`), and what stores and disks promise over any file system they promise over this one.
//! An open file keeps the path that it was opened by, for the log alone: with no memory for it the path is empty, and the call goes on.
//! A refusal that is an answer isn't told (`FileCall::is_answer`). Of two paths the new one is told. Made by the program, for stores and disks.
ghost use Rattle.std.specs.Prelude.{◌≡◌};
ghost use Rattle.fts_log.specs.Logged.{files_below};

use crate::answers::failure;
use crate::events::{FileCall, Log};
use fts_files::{FileSystem, Refused, Seen, Way};
use std::alloc::Global;

/// Files whose failed calls are told.
#[derive(Drop)]
pub struct LoggedFiles<F: FileSystem + Drop, L: Log + Drop> {
    files: F,
    log: L,
    alloc: Global,
}

/// An open file of them, and its path.
#[derive(Drop)]
pub struct LoggedHandle<H: Drop> {
    handle: H,
    path: String,
}

impl<F: FileSystem + Drop, L: Log + Drop> LoggedFiles<F, L> {
    /// These files, whose failed calls this log is told. The paths of open files take their memory from `alloc`.
    pub fn over(files: F, log: L, alloc: Global) -> LoggedFiles<F, L>
        ensures { files_below result ≡ files }
    {
        LoggedFiles { files, log, alloc }
    }

    /// Tells a refusal that is no answer.
    fn tell(&self, call: FileCall, path: &str, refused: Refused) {
        if let Some(event) = failure(call, path, refused) {
            self.log.tell(&event);
        }
    }

    /// The same answer, whose refusal was told.
    fn told<T: Drop>(
        &self,
        call: FileCall,
        path: &str,
        answer: Result<T, Refused>,
    ) -> Result<T, Refused>
        ensures { result ≡ answer }
    {
        match answer {
            Ok(value) => Ok(value),
            Err(refused) => {
                self.tell(call, path, refused);
                Err(refused)
            }
        }
    }

    /// A path to be kept; an empty one for want of memory.
    fn kept(&self, path: &str) -> String {
        match String::from_str(self.alloc, path) {
            Ok(kept) => kept,
            Err(_) => String::new(self.alloc),
        }
    }
}

impl<F: FileSystem + Drop, L: Log + Drop> FileSystem for LoggedFiles<F, L> {
    ghost use Rattle.fts_log.specs.Logged.{files_below, file_below};

    type Handle = LoggedHandle<F::Handle>;

    ghost calls = { λ logged. F.calls (files_below logged) };

    ghost number = { λ file. F.number (file_below file) };

    fn open(&mut self, path: &str, way: Way) -> Result<LoggedHandle<F::Handle>, Refused> {
        match self.files.open(path, way) {
            Ok(handle) => Ok(LoggedHandle {
                handle,
                path: self.kept(path),
            }),
            Err(refused) => {
                self.tell(FileCall::of_way(way), path, refused);
                Err(refused)
            }
        }
    }

    fn look(&mut self, path: &str) -> Result<Seen, Refused> {
        let answer = self.files.look(path);
        self.told(FileCall::Look, path, answer)
    }

    fn look_at_name(&mut self, path: &str) -> Result<Seen, Refused> {
        let answer = self.files.look_at_name(path);
        self.told(FileCall::LookAtName, path, answer)
    }

    fn look_at_open(&mut self, file: &LoggedHandle<F::Handle>) -> Result<Seen, Refused> {
        let answer = self.files.look_at_open(&file.handle);
        self.told(FileCall::LookAtOpen, &file.path, answer)
    }

    fn read_at(
        &mut self,
        file: &LoggedHandle<F::Handle>,
        offset: u64,
        into: &mut [u8],
    ) -> Result<usize, Refused> {
        let answer = self.files.read_at(&file.handle, offset, into);
        self.told(FileCall::Read, &file.path, answer)
    }

    fn write_at(
        &mut self,
        file: &LoggedHandle<F::Handle>,
        offset: u64,
        bytes: &[u8],
    ) -> Result<usize, Refused> {
        let answer = self.files.write_at(&file.handle, offset, bytes);
        self.told(FileCall::Write, &file.path, answer)
    }

    fn sync_data(&mut self, file: &LoggedHandle<F::Handle>) -> Result<(), Refused> {
        let answer = self.files.sync_data(&file.handle);
        self.told(FileCall::SyncData, &file.path, answer)
    }

    fn sync_all(&mut self, file: &LoggedHandle<F::Handle>) -> Result<(), Refused> {
        let answer = self.files.sync_all(&file.handle);
        self.told(FileCall::SyncAll, &file.path, answer)
    }

    fn lock(&mut self, file: &LoggedHandle<F::Handle>) -> Result<(), Refused> {
        let answer = self.files.lock(&file.handle);
        self.told(FileCall::Lock, &file.path, answer)
    }

    fn forget(&mut self, file: &LoggedHandle<F::Handle>) -> Result<(), Refused> {
        let answer = self.files.forget(&file.handle);
        self.told(FileCall::Forget, &file.path, answer)
    }

    fn link(&mut self, path: &str, new: &str) -> Result<(), Refused> {
        let answer = self.files.link(path, new);
        self.told(FileCall::Link, new, answer)
    }

    fn rename(&mut self, path: &str, new: &str) -> Result<(), Refused> {
        let answer = self.files.rename(path, new);
        self.told(FileCall::Rename, new, answer)
    }

    fn unlink(&mut self, path: &str) -> Result<(), Refused> {
        let answer = self.files.unlink(path);
        self.told(FileCall::Unlink, path, answer)
    }

    fn make_folder(&mut self, path: &str) -> Result<(), Refused> {
        let answer = self.files.make_folder(path);
        self.told(FileCall::MakeFolder, path, answer)
    }

    fn set_mode(&mut self, file: &LoggedHandle<F::Handle>, mode: u32) -> Result<(), Refused> {
        let answer = self.files.set_mode(&file.handle, mode);
        self.told(FileCall::SetMode, &file.path, answer)
    }

    fn names(&mut self, path: &str, into: &mut Vec<u8>) -> Result<(), Refused> {
        let answer = self.files.names(path, into);
        self.told(FileCall::Names, path, answer)
    }

    fn rest(&mut self) {
        self.files.rest()
    }
}
