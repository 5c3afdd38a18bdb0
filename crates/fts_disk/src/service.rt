//! The file of a service: guarded, and where its name says.
//! Keeps: nothing is written to a file, and no sync of it is answered Ok, once its name is another file's or it is shorter than at its last sync
//! (`script` of each call): what was moved, replaced or cut meanwhile fails, in place of an Ok for what nobody will find again.
//! Each call makes exactly the calls of its script, over every file system.
ghost use Rattle.std.specs.Prelude.{◌≡◌, ◌≤◌, nat_le, length};

use crate::DiskFailed;
use crate::guard::Guard;
use crate::opening::{open_to_serve, stay};
use arrayvec::ArrayString;
use fts_files::{Failed, FileSystem};

/// The longest path of the system, in bytes; a longer one can't be opened.
const MAX_PATH_BYTES: usize = 4095;

// Whether the system has paths of so many bytes.
fn fits_path(count: usize) -> bool
    ensures { result ≡ nat_le count 4095 }
{
    count <= MAX_PATH_BYTES
}

// A path of the system, kept.
fn kept_path(path: &str) -> ArrayString<MAX_PATH_BYTES>
    requires { length path.now ≤ 4095 }
    ensures { result.bytes ≡ path.now }
{
    let mut kept = ArrayString::new();
    kept.push_str(path);
    kept
}

/// A file that is locked and written.
#[derive(Drop)]
pub(crate) struct Service<F: FileSystem> {
    guard: Guard<F>,
    path: ArrayString<MAX_PATH_BYTES>,
    /// So long the file was at its last sync, or at its opening.
    least: u64,
}

impl<F: FileSystem> Service<F> {
    ghost use Rattle.std.specs.Prelude.{◌≡◌, ℕ, List, length, IfOk, OnErr};
    ghost use Rattle.fts_files.specs.Script.{Script, LeadsTo, either, fails};
    ghost use Rattle.fts_disk.specs.Service.{service_opens, service_write, service_sync, IsDoubted, IsUnsynced};
    ghost use Rattle.fts_disk.specs.Opening.{stays};
    ghost use Rattle.fts_disk.specs.Guard.{guarded_read, guarded_len, write_place};
    ghost use Rattle.fts_disk.specs.declared.guard.State.{State};

    /// Opens a file, or makes it.
    pub(crate) fn open(files: &mut F, path: &str) -> Result<Service<F>, Failed>
        ensures script { (next : ℕ → Script)
            → LeadsTo (service_opens path.now next) (F.calls files.old) (either (λ service. next (F.number service.guard.file)) fails result) (F.calls files.new) }
        ensures path { IfOk result (λ service. service.path.bytes ≡ path.now) }
    {
        if !fits_path(path.len()) {
            return Err(Failed);
        }
        let file = open_to_serve(files, path)?;
        let least = stay(files, path, &file, 0)?;
        Ok(Service {
            guard: Guard::new(file, least),
            path: kept_path(path),
            least,
        })
    }

    /// The number of bytes.
    pub(crate) fn len(&mut self, files: &mut F) -> Result<u64, DiskFailed>
        ensures file { self.new.guard.file ≡ self.old.guard.file }
        ensures script { (next : State → ℕ → Script) → LeadsTo (guarded_len (F.number self.old.guard.file) self.old.guard.state next)
            (F.calls files.old) (either (next self.new.guard.state) fails result) (F.calls files.new) }
    {
        self.guard.len(files)
    }

    /// Fills the buffer with the bytes from an offset on.
    pub(crate) fn read_at(
        &mut self,
        files: &mut F,
        at: u64,
        into: &mut [u8],
    ) -> Result<(), DiskFailed>
        ensures file { self.new.guard.file ≡ self.old.guard.file }
        ensures script { (next : State → List ℕ → Script) → LeadsTo (guarded_read (F.number self.old.guard.file) self.old.guard.state at (length into.old) next)
            (F.calls files.old) (either (λ done. next self.new.guard.state into.new) fails result) (F.calls files.new) }
    {
        self.guard.read_at(files, at, into)
    }

    /// Writes over what is there, and past the end.
    pub(crate) fn write_at(
        &mut self,
        files: &mut F,
        at: u64,
        bytes: &[u8],
    ) -> Result<(), DiskFailed>
        ensures file { self.new.guard.file ≡ self.old.guard.file }
        ensures script { (next : State → Script) → LeadsTo (service_write self.old.path.bytes (F.number self.old.guard.file) self.old.least self.old.guard.state at bytes.now next)
            (F.calls files.old) (either (λ done. next self.new.guard.state) fails result) (F.calls files.new) }
        ensures failed { OnErr result (IsDoubted self.old.guard.state (write_place self.old.guard.state at (length bytes.now)) self.new.guard.state) }
        ensures least { self.new.least ≡ self.old.least }
    {
        self.stay(files)?;
        self.guard.write_at(files, at, bytes)
    }

    /// Makes stable what was written.
    pub(crate) fn sync(&mut self, files: &mut F) -> Result<(), DiskFailed>
        ensures file { self.new.guard.file ≡ self.old.guard.file }
        ensures script { (next : State → ℕ → Script) → LeadsTo (service_sync self.old.path.bytes (F.number self.old.guard.file) self.old.least self.old.guard.state next)
            (F.calls files.old) (either (λ done. next self.new.guard.state self.new.least) fails result) (F.calls files.new) }
        ensures failed { OnErr result (IsUnsynced (F.number self.old.guard.file) self.old.guard.state (F.calls files.old) self.new.guard.state) }
        ensures least { OnErr result (self.new.least ≡ self.old.least) }
    {
        self.guard.sync(files)?;
        let len = self.stay(files)?;
        self.least = len;
        Ok(())
    }

    // How long the file is; fails where it isn't the one that its name says, or was cut.
    fn stay(&self, files: &mut F) -> Result<u64, Failed>
        ensures { (next : ℕ → Script) → LeadsTo (stays self.now.path.bytes (F.number self.now.guard.file) self.now.least next)
            (F.calls files.old) (either next fails result) (F.calls files.new) }
    {
        stay(files, self.path.as_str(), self.guard.file(), self.least)
    }
}
