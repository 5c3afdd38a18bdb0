//! The calls of the system on files and folders. Each is one call of POSIX, and decides nothing: a refusal is the system's own number.
//! Keeps: a file system that tells its calls lists them in order, each with what was asked and what was answered (`calls`), and a call adds
//! itself alone to the list; one that tells none never does. A read or a write deals with no more bytes than it was asked for (`within`).
//! Nothing is said of what a file holds: that is for who writes it and reads it.
ghost use Rattle.std.specs.Prelude.{◌≡◌, ◌≤◌, ℕ, Option, List, length, IfOk};
ghost use Rattle.fts_files.specs.Calls.{Call, Done, Open, Look, LookAtName, LookAtOpen, ReadAt, WriteAt, SyncData, SyncAll, Link, Rename, Unlink, MakeFolder, Forget, Lock, SetMode, Names, Rest, with_call, opened_of, saw_of, read_of, gave_of, counted_of, done_of};

use crate::Refused;

/// How a file is opened.
#[derive(Clone, Copy, Debug, PartialEq, Eq)]
pub enum Way {
    /// To be read.
    Read,
    /// To be read and written.
    Write,
    /// To be read and written, and made: nothing may have its name.
    New,
}

/// What has a name, or is open.
#[derive(Clone, Copy, Debug, PartialEq, Eq)]
pub enum Kind {
    /// A plain file.
    File,
    Folder,
    /// A link, a pipe, a device or a socket.
    Other,
}

/// What a look saw.
#[derive(Clone, Copy, Debug, PartialEq, Eq)]
pub struct Seen {
    pub kind: Kind,
    /// In bytes, where it is a file.
    pub len: u64,
    /// The file system that it is on, and its number there: two names of one file have both alike.
    pub device: u64,
    pub inode: u64,
    /// Who may read, write and run it: the nine bits of its rights.
    pub mode: u32,
}

/// Files and folders, by the calls that the system has.
pub trait FileSystem {
    /// An open file or folder. It is closed where it is dropped.
    type Handle: Drop;

    /// The calls that were made, each with its answer, where they are told.
    ghost calls: { Self → Option (List Call) };

    /// The number of an open file among the calls.
    ghost number: { Self.Handle → ℕ };

    /// Opens a file, or a folder to be read, through links. To make one, nothing may have the name, a link neither.
    fn open(&mut self, path: &str, way: Way) -> Result<Self::Handle, Refused>
        ensures { calls self.new ≡ with_call (calls self.old) (Open path.now way) (opened_of number result) };

    /// Looks at what has a name, through links (stat).
    fn look(&mut self, path: &str) -> Result<Seen, Refused>
        ensures { calls self.new ≡ with_call (calls self.old) (Look path.now) (saw_of result) };

    /// Looks at what has a name. A link is seen as one (lstat).
    fn look_at_name(&mut self, path: &str) -> Result<Seen, Refused>
        ensures { calls self.new ≡ with_call (calls self.old) (LookAtName path.now) (saw_of result) };

    /// Looks at what is open (fstat).
    fn look_at_open(&mut self, file: &Self::Handle) -> Result<Seen, Refused>
        ensures { calls self.new ≡ with_call (calls self.old) (LookAtOpen (number file.now)) (saw_of result) };

    /// Reads bytes from an offset on to the front of a buffer, as many as it holds or fewer, and none only at the end of the file. Gives how many
    /// (pread).
    fn read_at(
        &mut self,
        file: &Self::Handle,
        offset: u64,
        into: &mut [u8],
    ) -> Result<usize, Refused>
        ensures within { IfOk result (λ count. count ≤ length into.new) }
        ensures called { calls self.new ≡ with_call (calls self.old) (ReadAt (number file.now) offset (length into.old)) (read_of result into.new) };

    /// Writes bytes at an offset, all of them or fewer. Gives how many (pwrite).
    fn write_at(&mut self, file: &Self::Handle, offset: u64, bytes: &[u8]) -> Result<usize, Refused>
        ensures within { IfOk result (λ count. count ≤ length bytes.now) }
        ensures called { calls self.new ≡ with_call (calls self.old) (WriteAt (number file.now) offset bytes.now) (counted_of result) };

    /// Waits until the device has a file's data, and the length that is needed to read them (fdatasync).
    fn sync_data(&mut self, file: &Self::Handle) -> Result<(), Refused>
        ensures { calls self.new ≡ with_call (calls self.old) (SyncData (number file.now)) (done_of result) };

    /// Waits until the device has all of a file, or the names in a folder (fsync).
    fn sync_all(&mut self, file: &Self::Handle) -> Result<(), Refused>
        ensures { calls self.new ≡ with_call (calls self.old) (SyncAll (number file.now)) (done_of result) };

    /// Locks a file against each other opening of it, until it is closed. Refused where another holds it, without waiting (flock).
    fn lock(&mut self, file: &Self::Handle) -> Result<(), Refused>
        ensures { calls self.new ≡ with_call (calls self.old) (Lock (number file.now)) (done_of result) };

    /// Drops the pages of a file that aren't waiting to be written, so that the next read is of the device (posix_fadvise).
    fn forget(&mut self, file: &Self::Handle) -> Result<(), Refused>
        ensures { calls self.new ≡ with_call (calls self.old) (Forget (number file.now)) (done_of result) };

    /// Gives a file a second name, where nothing has it (link).
    fn link(&mut self, path: &str, new: &str) -> Result<(), Refused>
        ensures { calls self.new ≡ with_call (calls self.old) (Link path.now new.now) (done_of result) };

    /// Gives a file another name, which it takes from the file that has it (rename).
    fn rename(&mut self, path: &str, new: &str) -> Result<(), Refused>
        ensures { calls self.new ≡ with_call (calls self.old) (Rename path.now new.now) (done_of result) };

    /// Takes a name away from a file (unlink).
    fn unlink(&mut self, path: &str) -> Result<(), Refused>
        ensures { calls self.new ≡ with_call (calls self.old) (Unlink path.now) (done_of result) };

    /// Makes a folder, where nothing has its name (mkdir).
    fn make_folder(&mut self, path: &str) -> Result<(), Refused>
        ensures { calls self.new ≡ with_call (calls self.old) (MakeFolder path.now) (done_of result) };

    /// Gives an open file these rights (fchmod).
    fn set_mode(&mut self, file: &Self::Handle, mode: u32) -> Result<(), Refused>
        ensures { calls self.new ≡ with_call (calls self.old) (SetMode (number file.now) mode) (done_of result) };

    /// Reads the names in a folder into a list of bytes, each with a zero behind it and in no order. A folder's own name and that of the one
    /// above it may be among them (readdir).
    fn names(&mut self, path: &str, into: &mut Vec<u8>) -> Result<(), Refused>
        ensures { calls self.new ≡ with_call (calls self.old) (Names path.now) (gave_of result into.new.items) };

    /// Rests for a short while, until files may have been closed (nanosleep).
    fn rest(&mut self)
        ensures { calls self.new ≡ with_call (calls self.old) Rest Done };
}
