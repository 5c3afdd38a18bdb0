//! The real store: files in folders, by the calls of a file system. It tells nothing of its files.
//! An endpoint's files lie in the folder of its name, each slash of which is a comma, below the store's own folder (`stays_inside`).
//! Where there is no such name, or a part of the path is a file, there is no file. A folder in a file's place, a full device, a name that
//! is too long and any other error of the system is a failed call, and counted.
//! A file that is made is the open part: new, locked until it is moved or let go, and the only one that gets bytes or is moved. What had its
//! name loses it, unless another run holds it. It is moved as `OpenPart` does, to where the last look found nothing without replacing anything.
//! At most two files are open: one that is read, and the part. A look at a size lets both go, and so does a move.
//! A file that is no part is removed only as a plain one behind no link, and so that no crash gives it back (`removing`). A store for deletions
//! looks for sizes in the same way, and removes no part (`deleting`).
ghost use Rattle.std.specs.Prelude.{◌≡◌, ◌+◌, ◌≤◌, ℕ, List, length, take, option_map, IsErr, IfOk, OnOk, OnErr};
ghost use Rattle.fts_files.specs.Reading.{reads_once};
ghost use Rattle.fts_files.specs.Script.{Script, LeadsTo, either, fails};
ghost use Rattle.fts_store.specs.FolderCalls.{with_opened, with_part, part_end, part_handle};
ghost use Rattle.fts_tables.specs.Counts.{CountsFaults};
ghost use Rattle.fts_store.specs.Store.{place_at};
ghost use Rattle.fts_store.specs.Opened.{is_free, is_open_at};

use crate::folders::{Met, below, forget, have_all, meet, remember, to_meet, to_sync};
use crate::inside::{endpoint_of, folders_of, is_among_parts, path_of, stays_inside};
use crate::meeting::meet_all;
use crate::removing::{remove_for_good, size_for_good};
use crate::sweep::sweep;
use crate::{Store, StoreFailed};
use fts_files::{FileSystem, OpenPart, SystemFiles, open_source, read_some, remove_part, size};
use fts_tables::PlaceRef;
use std::alloc::{AllocError, Global};
use std::fs::{File, Files};

/// What is open, and the place that it lies at.
#[derive(Drop)]
struct Opened<T: Drop> {
    endpoint: String,
    path: String,
    file: T,
}

/// Files in folders.
#[derive(Drop)]
pub struct FolderStore<F: FileSystem + Drop> {
    files: F,
    alloc: Global,
    root: String,
    reading: Option<Opened<F::Handle>>,
    /// The open part.
    writing: Option<Opened<OpenPart<F::Handle>>>,
    /// Where the last look found nothing.
    free: Option<String>,
    /// Folders whose names, and those of the folders above them, are stable.
    stable: Vec<String>,
    /// The endpoints' own folders, as they were first met.
    met: Vec<Met>,
    /// Whether it is for deletions.
    pub(crate) deleting: bool,
    pub(crate) faults: u64,
}

fn is_free(known: &Option<String>, path: &str) -> bool
    ensures { result ≡ is_free known.now path.now }
{
    match known {
        Some(known) => known.as_str() == path,
        None => false,
    }
}

impl<T: Drop> Opened<T> {
    ghost use Rattle.std.specs.Prelude.{◌≡◌};
    ghost use Rattle.fts_store.specs.Store.{place_at};
    ghost use Rattle.fts_store.specs.Opened.{is_opened_at};

    fn is_at(&self, at: PlaceRef<'_>) -> bool
        ensures { result ≡ is_opened_at self.now (place_at at.entry) }
    {
        self.endpoint.as_str() == at.endpoint && self.path.as_str() == at.path
    }
}

fn is_at<T: Drop>(opened: &Option<Opened<T>>, at: PlaceRef<'_>) -> bool
    ensures { result ≡ is_open_at opened.now (place_at at.entry) }
{
    match opened {
        Some(opened) => opened.is_at(at),
        None => false,
    }
}

// Reads what is open.
fn read_opened<F: FileSystem>(
    files: &mut F,
    opened: &Option<Opened<F::Handle>>,
    offset: u64,
    into: &mut [u8],
) -> Result<usize, StoreFailed>
    ensures within { IfOk result (λ count. count ≤ length into.new) }
    ensures script { (next : List ℕ → Script) → LeadsTo (with_opened F.number opened.now (λ file. reads_once file offset (length into.old) next 1000))
        (F.calls files.old) (either (λ count. next (take count into.new)) fails result) (F.calls files.new) }
{
    match opened {
        Some(opened) => Ok(read_some(files, &opened.file, offset, into)?),
        None => Err(StoreFailed),
    }
}

// Reads the open part.
fn read_part<F: FileSystem>(
    files: &mut F,
    writing: &Option<Opened<OpenPart<F::Handle>>>,
    offset: u64,
    into: &mut [u8],
) -> Result<usize, StoreFailed>
    ensures within { IfOk result (λ count. count ≤ length into.new) }
    ensures script { (next : List ℕ → Script) → LeadsTo (with_opened (λ part. F.number part.file) writing.now (λ file. reads_once file offset (length into.old) next 1000))
        (F.calls files.old) (either (λ count. next (take count into.new)) fails result) (F.calls files.new) }
{
    match writing {
        Some(part) => Ok(part.file.read_some(files, offset, into)?),
        None => Err(StoreFailed),
    }
}

// Puts bytes behind those of the open part.
fn append_to<F: FileSystem>(
    files: &mut F,
    writing: &mut Option<Opened<OpenPart<F::Handle>>>,
    bytes: &[u8],
) -> Result<(), StoreFailed>
    ensures script { (next : Script) → LeadsTo (with_part F.number writing.old bytes.now next)
        (F.calls files.old) (either (λ done. next) fails result) (F.calls files.new) }
    ensures end { OnOk result (part_end writing.new ≡ option_map (λ end. end + length bytes.now) (part_end writing.old)) }
    ensures failed { OnErr result (part_end writing.new ≡ part_end writing.old) }
    ensures handle { part_handle writing.new ≡ part_handle writing.old }
{
    match writing {
        Some(part) => Ok(part.file.append(files, bytes)?),
        None => Err(StoreFailed),
    }
}

// Counts a failure.
fn count<T: Drop>(faults: &mut u64, answer: Result<T, StoreFailed>) -> Result<T, StoreFailed>
    ensures value { IfOk result (λ value. answer ≡ Ok value) }
    ensures done { IfOk answer (λ value. result ≡ Ok value) }
    ensures failed { IsErr answer → IsErr result }
    ensures cause { CountsFaults faults.old faults.new result }
{
    match answer {
        Ok(value) => Ok(value),
        Err(_) => {
            *faults = faults.saturating_add(1);
            Err(StoreFailed)
        }
    }
}

impl<R: Files<File = File> + Drop> FolderStore<SystemFiles<R>> {
    ghost use Rattle.std.specs.Prelude.{◌≡◌};
    ghost use Rattle.std.specs.Prelude.{false};
    ghost use Rattle.fts_store.specs.Folder.{folder_faults, is_deleting};

    /// A store in a folder of the system, which is made once a file is.
    pub fn new(rt: R, alloc: Global, root: String) -> FolderStore<SystemFiles<R>>
        ensures faults { folder_faults result ≡ 0 }
        ensures copies { is_deleting result ≡ false }
    {
        FolderStore::over(SystemFiles::new(rt), alloc, root)
    }
}

impl<F: FileSystem + Drop> FolderStore<F> {
    ghost use Rattle.std.specs.Prelude.{◌≡◌, ◌⊎◌, ◌+◌, ◌≤◌, ℕ, Option, Some, None, option_map, List, true, false, length, take, string_bytes, IfOk, OnOk, OnErr, IfSome, IsErr};
    ghost use Rattle.fts_files.specs.Script.{Script, LeadsTo, either, fails};
    ghost use Rattle.fts_store.specs.Store.{place_at};
    ghost use Rattle.fts_store.specs.Folder.{folder_faults, is_deleting, stays_inside, is_among_parts};
    ghost use Rattle.fts_store.specs.Sweep.{Sweeps};
    ghost use Rattle.fts_store.specs.Meeting.{Meets};
    ghost use Rattle.fts_store.specs.FolderCalls.{OpenMoved, IsUnasked, sizes_in, opens_in, reads_in, creates_in, appends_in, looks_for_good, removes_part_in, removes_file_in, removes_in, with_opened, part_end, part_handle};

    /// A store in a folder of these files, which is made once a file is.
    pub fn over(files: F, alloc: Global, root: String) -> FolderStore<F>
        ensures faults { folder_faults result ≡ 0 }
        ensures copies { is_deleting result ≡ false }
    {
        FolderStore {
            files,
            alloc,
            root,
            reading: None,
            writing: None,
            free: None,
            stable: Vec::new(alloc),
            met: Vec::new(alloc),
            deleting: false,
            faults: 0,
        }
    }

    /// The same store, for deletions: a size is told only of a plain file behind no link, that there is no file only once no crash undoes it, and
    /// nothing is removed from a folder of parts.
    pub fn for_deletions(self) -> FolderStore<F>
        ensures faults { folder_faults result ≡ folder_faults self }
        ensures deletes { is_deleting result ≡ true }
    {
        FolderStore {
            deleting: true,
            ..self
        }
    }

    /// Takes the names away from the parts that a run left in the folders below this store's, unless another run holds them. What can't be read
    /// or taken away is left, and counts no failure. Where memory is missing it ends early, and that alone is the error.
    pub fn sweep(&mut self) -> Result<(), AllocError>
        ensures faults { folder_faults self.new ≡ folder_faults self.old }
        ensures swept { Sweeps (string_bytes self.old.root) result (F.calls self.old.files) (F.calls self.new.files) }
    {
        sweep(&mut self.files, self.alloc, self.root.as_str())
    }

    /// Looks at each folder below this store's, so that each endpoint's own folder that is there by now is never made again, and has to lie on the
    /// device that it lies on now. It changes nothing, and what can't be looked at is met at its first use. Where memory is missing it ends early,
    /// and that alone is the error.
    pub fn meet_all(&mut self) -> Result<(), AllocError>
        ensures faults { folder_faults self.new ≡ folder_faults self.old }
        ensures met { Meets (string_bytes self.old.root) result (F.calls self.old.files) (F.calls self.new.files) self.old.met.items self.new.met.items }
    {
        meet_all(
            &mut self.files,
            self.alloc,
            self.root.as_str(),
            &mut self.met,
        )
    }

    fn look(&mut self, at: PlaceRef<'_>) -> Result<Option<u64>, StoreFailed>
        ensures faults { folder_faults self.new ≡ folder_faults self.old }
        ensures outside { stays_inside (place_at at.entry) ≡ false → IsErr result }
        ensures script { IsUnasked result (F.calls self.old.files) (F.calls self.new.files)
            ⊎ ((next : Option ℕ → Script) → LeadsTo (sizes_in (string_bytes self.old.root) self.old.met.items (place_at at.entry) next)
            (F.calls self.old.files) (either next fails result) (F.calls self.new.files)) }
    {
        self.reading = None;
        self.writing = None;
        self.free = None;
        let path = path_of(self.alloc, self.root.as_str(), at)?;
        let endpoint = to_meet(self.alloc, self.root.as_str(), &mut self.met, at)?;
        let _was_there = meet(&mut self.files, &mut self.met, endpoint)?;
        let found = size(&mut self.files, path.as_str())?;
        if found.is_none() {
            self.free = Some(path);
        }
        Ok(found)
    }

    // Opens a file that is there.
    fn open(&mut self, at: PlaceRef<'_>) -> Result<Opened<F::Handle>, StoreFailed>
        ensures faults { folder_faults self.new ≡ folder_faults self.old }
        ensures script { IsUnasked result (F.calls self.old.files) (F.calls self.new.files)
            ⊎ ((next : ℕ → Script) → LeadsTo (opens_in (string_bytes self.old.root) self.old.met.items (place_at at.entry) next)
            (F.calls self.old.files) (either (λ opened. next (F.number opened.file)) fails result) (F.calls self.new.files)) }
    {
        let path = path_of(self.alloc, self.root.as_str(), at)?;
        let named = String::from_str(self.alloc, at.path)?;
        let endpoint = String::from_str(self.alloc, at.endpoint)?;
        let own = to_meet(self.alloc, self.root.as_str(), &mut self.met, at)?;
        let _was_there = meet(&mut self.files, &mut self.met, own)?;
        let file = open_source(&mut self.files, path.as_str())?;
        Ok(Opened {
            endpoint,
            path: named,
            file,
        })
    }

    fn read(&mut self, at: PlaceRef<'_>, offset: u64, into: &mut [u8]) -> Result<usize, StoreFailed>
        ensures faults { folder_faults self.new ≡ folder_faults self.old }
        ensures within { IfOk result (λ count. count ≤ length into.new) }
        ensures outside { stays_inside (place_at at.entry) ≡ false → IsErr result }
        ensures script { IsUnasked result (F.calls self.old.files) (F.calls self.new.files)
            ⊎ ((next : List ℕ → Script)
            → LeadsTo (reads_in F.number (string_bytes self.old.root) self.old.met.items self.old.writing self.old.reading (place_at at.entry) offset (length into.old) next)
            (F.calls self.old.files) (either (λ count. next (take count into.new)) fails result) (F.calls self.new.files)) }
    {
        if !stays_inside(at) {
            return Err(StoreFailed);
        }
        if is_at(&self.writing, at) {
            return read_part(&mut self.files, &self.writing, offset, into);
        }
        if is_at(&self.reading, at) {
            return read_opened(&mut self.files, &self.reading, offset, into);
        }
        self.reading = None;
        let opened = self.open(at)?;
        let answer = read_some(&mut self.files, &opened.file, offset, into);
        self.reading = Some(opened);
        Ok(answer?)
    }

    fn make(&mut self, at: PlaceRef<'_>) -> Result<(), StoreFailed>
        ensures faults { folder_faults self.new ≡ folder_faults self.old }
        ensures outside { stays_inside (place_at at.entry) ≡ false → IsErr result }
        ensures script { IsUnasked result (F.calls self.old.files) (F.calls self.new.files)
            ⊎ ((next : ℕ → Script) → LeadsTo (creates_in (string_bytes self.old.root) self.old.met.items (place_at at.entry) next)
            (F.calls self.old.files) (either (λ done. with_opened (λ part. F.number part.file) self.new.writing next) fails result) (F.calls self.new.files)) }
        ensures end { OnOk result (part_end self.new.writing ≡ Some 0) }
    {
        self.reading = None;
        self.writing = None;
        let path = path_of(self.alloc, self.root.as_str(), at)?;
        let named = String::from_str(self.alloc, at.path)?;
        let endpoint = String::from_str(self.alloc, at.endpoint)?;
        let folders = folders_of(self.alloc, path.as_str())?;
        let own = to_meet(self.alloc, self.root.as_str(), &mut self.met, at)?;
        let made = have_all(&mut self.files, &mut self.met, own, &folders)?;
        forget(&mut self.stable, made, &folders);
        let file = OpenPart::make(&mut self.files, path.as_str())?;
        self.writing = Some(Opened {
            endpoint,
            path: named,
            file,
        });
        Ok(())
    }

    fn write(&mut self, at: PlaceRef<'_>, bytes: &[u8]) -> Result<(), StoreFailed>
        ensures faults { folder_faults self.new ≡ folder_faults self.old }
        ensures outside { stays_inside (place_at at.entry) ≡ false → IsErr result }
        ensures script { (next : Script) → LeadsTo (appends_in F.number self.old.writing (place_at at.entry) bytes.now next)
            (F.calls self.old.files) (either (λ done. next) fails result) (F.calls self.new.files) }
        ensures end { OnOk result (part_end self.new.writing ≡ option_map (λ end. end + length bytes.now) (part_end self.old.writing)) }
        ensures failed { OnErr result (part_end self.new.writing ≡ part_end self.old.writing) }
        ensures handle { part_handle self.new.writing ≡ part_handle self.old.writing }
    {
        if !stays_inside(at) {
            return Err(StoreFailed);
        }
        if !is_at(&self.writing, at) {
            return Err(StoreFailed);
        }
        append_to(&mut self.files, &mut self.writing, bytes)
    }

    fn shift(&mut self, from: PlaceRef<'_>, to: PlaceRef<'_>) -> Result<(), StoreFailed>
        ensures faults { folder_faults self.new ≡ folder_faults self.old }
        ensures outside { (stays_inside (place_at from.entry) ≡ false) ⊎ (stays_inside (place_at to.entry) ≡ false) → IsErr result }
        ensures moved { OnOk result (IfSome self.old.writing (λ part. OpenMoved (F.number part.file.file) (string_bytes self.old.root) self.old.stable.items self.old.free
            (place_at from.entry) (place_at to.entry) (F.calls self.new.files))) }
        ensures let_go { (self.new.reading ≡ None) × (self.new.writing ≡ None) }
    {
        self.reading = None;
        let part = match self.writing.take() {
            Some(part) if part.is_at(from) => part,
            _ => return Err(StoreFailed),
        };
        let old = path_of(self.alloc, self.root.as_str(), from)?;
        let new = path_of(self.alloc, self.root.as_str(), to)?;
        let folders = folders_of(self.alloc, new.as_str())?;
        let own = to_meet(self.alloc, self.root.as_str(), &mut self.met, to)?;
        let overwrite = !is_free(&self.free, new.as_str());
        self.free = None;
        let missing = have_all(&mut self.files, &mut self.met, own, &folders)?;
        forget(&mut self.stable, missing, &folders);
        let synced = to_sync(self.root.as_str(), &self.stable, &folders);
        part.file.put_in_place(
            &mut self.files,
            old.as_str(),
            new.as_str(),
            synced,
            overwrite,
        )?;
        remember(self.alloc, &mut self.stable, synced);
        Ok(())
    }

    // Looks for a plain file behind no link.
    fn look_for_good(&mut self, at: PlaceRef<'_>) -> Result<Option<u64>, StoreFailed>
        ensures faults { folder_faults self.new ≡ folder_faults self.old }
        ensures outside { stays_inside (place_at at.entry) ≡ false → IsErr result }
        ensures script { IsUnasked result (F.calls self.old.files) (F.calls self.new.files)
            ⊎ ((next : Option ℕ → Script) → LeadsTo (looks_for_good (string_bytes self.old.root) self.old.met.items (place_at at.entry) next)
            (F.calls self.old.files) (either next fails result) (F.calls self.new.files)) }
    {
        self.reading = None;
        self.writing = None;
        self.free = None;
        if is_among_parts(at.path.as_bytes()) {
            return Err(StoreFailed);
        }
        let path = path_of(self.alloc, self.root.as_str(), at)?;
        let folders = folders_of(self.alloc, path.as_str())?;
        let own = endpoint_of(self.alloc, self.root.as_str(), at.endpoint)?;
        let met = to_meet(self.alloc, self.root.as_str(), &mut self.met, at)?;
        let _was_there = meet(&mut self.files, &mut self.met, met)?;
        let inner = below(&folders, own.as_str());
        Ok(size_for_good(&mut self.files, own.as_str(), inner, path.as_str())?)
    }

    // Removes a plain file behind no link.
    fn erase_file(&mut self, at: PlaceRef<'_>) -> Result<(), StoreFailed>
        ensures faults { folder_faults self.new ≡ folder_faults self.old }
        ensures outside { stays_inside (place_at at.entry) ≡ false → IsErr result }
        ensures script { IsUnasked result (F.calls self.old.files) (F.calls self.new.files)
            ⊎ ((next : Script) → LeadsTo (removes_file_in (string_bytes self.old.root) self.old.met.items (place_at at.entry) next)
            (F.calls self.old.files) (either (λ done. next) fails result) (F.calls self.new.files)) }
    {
        if is_among_parts(at.path.as_bytes()) {
            return Err(StoreFailed);
        }
        let path = path_of(self.alloc, self.root.as_str(), at)?;
        let folders = folders_of(self.alloc, path.as_str())?;
        let own = endpoint_of(self.alloc, self.root.as_str(), at.endpoint)?;
        let met = to_meet(self.alloc, self.root.as_str(), &mut self.met, at)?;
        let _was_there = meet(&mut self.files, &mut self.met, met)?;
        let inner = below(&folders, own.as_str());
        Ok(remove_for_good(&mut self.files, own.as_str(), inner, path.as_str())?)
    }

    // Removes a part that no run holds: another run that writes it would lose its file.
    fn erase_part(&mut self, at: PlaceRef<'_>) -> Result<(), StoreFailed>
        ensures faults { folder_faults self.new ≡ folder_faults self.old }
        ensures outside { stays_inside (place_at at.entry) ≡ false → IsErr result }
        ensures script { IsUnasked result (F.calls self.old.files) (F.calls self.new.files)
            ⊎ ((next : Script) → LeadsTo (removes_part_in (string_bytes self.old.root) self.old.met.items (place_at at.entry) next)
            (F.calls self.old.files) (either (λ done. next) fails result) (F.calls self.new.files)) }
    {
        let path = path_of(self.alloc, self.root.as_str(), at)?;
        let folder = to_meet(self.alloc, self.root.as_str(), &mut self.met, at)?;
        let _was_there = meet(&mut self.files, &mut self.met, folder)?;
        Ok(remove_part(&mut self.files, path.as_str())?)
    }

    fn erase(&mut self, at: PlaceRef<'_>) -> Result<(), StoreFailed>
        ensures faults { folder_faults self.new ≡ folder_faults self.old }
        ensures outside { stays_inside (place_at at.entry) ≡ false → IsErr result }
        ensures script { IsUnasked result (F.calls self.old.files) (F.calls self.new.files)
            ⊎ ((next : Script) → LeadsTo (removes_in self.old.deleting (string_bytes self.old.root) self.old.met.items (place_at at.entry) next)
            (F.calls self.old.files) (either (λ done. next) fails result) (F.calls self.new.files)) }
    {
        self.reading = None;
        self.writing = None;
        if is_among_parts(at.path.as_bytes()) && !self.deleting {
            self.erase_part(at)
        } else {
            self.erase_file(at)
        }
    }
}

impl<F: FileSystem + Drop> Store for FolderStore<F> {
    ghost use Rattle.std.specs.Prelude.{◌≡◌, ◌⊎◌, ◌+◌, ◌≤◌, ℕ, Option, Some, None, option_map, List, false, length, take, string_bytes, IfOk, OnOk, OnErr, IfSome, IsErr};
    ghost use Rattle.fts_files.specs.Script.{Script, LeadsTo, either, fails};
    ghost use Rattle.fts_store.specs.FolderCalls.{OpenMoved, IsUnasked, looks_in, opens_in, reads_in, creates_in, appends_in, removes_in, with_opened, part_end, part_handle};
    ghost use Rattle.fts_tables.specs.Counts.{CountsFaults};
    ghost use Rattle.fts_store.specs.Store.{untold, place_at};
    ghost use Rattle.fts_store.specs.Folder.{folder_faults, stays_inside};

    ghost state = { λ _. untold };

    ghost calls = { λ _. None };

    ghost faults = { folder_faults };

    fn size(&mut self, at: PlaceRef<'_>) -> Result<Option<u64>, StoreFailed>
        ensures cause { CountsFaults (folder_faults self.old) (folder_faults self.new) result }
        ensures outside { stays_inside (place_at at.entry) ≡ false → IsErr result }
        ensures script { IsUnasked result (F.calls self.old.files) (F.calls self.new.files)
            ⊎ ((next : Option ℕ → Script) → LeadsTo (looks_in self.old.deleting (string_bytes self.old.root) self.old.met.items (place_at at.entry) next)
            (F.calls self.old.files) (either next fails result) (F.calls self.new.files)) }
    {
        if self.deleting {
            let answer = self.look_for_good(at);
            return count(&mut self.faults, answer);
        }
        let answer = self.look(at);
        count(&mut self.faults, answer)
    }

    fn read_at(
        &mut self,
        at: PlaceRef<'_>,
        offset: u64,
        into: &mut [u8],
    ) -> Result<usize, StoreFailed>
        ensures within { IfOk result (λ count. count ≤ length into.new) }
        ensures cause { CountsFaults (folder_faults self.old) (folder_faults self.new) result }
        ensures outside { stays_inside (place_at at.entry) ≡ false → IsErr result }
        ensures script { IsUnasked result (F.calls self.old.files) (F.calls self.new.files)
            ⊎ ((next : List ℕ → Script)
            → LeadsTo (reads_in F.number (string_bytes self.old.root) self.old.met.items self.old.writing self.old.reading (place_at at.entry) offset (length into.old) next)
            (F.calls self.old.files) (either (λ count. next (take count into.new)) fails result) (F.calls self.new.files)) }
    {
        let answer = self.read(at, offset, into);
        count(&mut self.faults, answer)
    }

    fn create(&mut self, at: PlaceRef<'_>) -> Result<(), StoreFailed>
        ensures cause { CountsFaults (folder_faults self.old) (folder_faults self.new) result }
        ensures outside { stays_inside (place_at at.entry) ≡ false → IsErr result }
        ensures script { IsUnasked result (F.calls self.old.files) (F.calls self.new.files)
            ⊎ ((next : ℕ → Script) → LeadsTo (creates_in (string_bytes self.old.root) self.old.met.items (place_at at.entry) next)
            (F.calls self.old.files) (either (λ done. with_opened (λ part. F.number part.file) self.new.writing next) fails result) (F.calls self.new.files)) }
        ensures end { OnOk result (part_end self.new.writing ≡ Some 0) }
    {
        let answer = self.make(at);
        count(&mut self.faults, answer)
    }

    fn append(&mut self, at: PlaceRef<'_>, bytes: &[u8]) -> Result<(), StoreFailed>
        ensures cause { CountsFaults (folder_faults self.old) (folder_faults self.new) result }
        ensures outside { stays_inside (place_at at.entry) ≡ false → IsErr result }
        ensures script { (next : Script) → LeadsTo (appends_in F.number self.old.writing (place_at at.entry) bytes.now next)
            (F.calls self.old.files) (either (λ done. next) fails result) (F.calls self.new.files) }
        ensures end { OnOk result (part_end self.new.writing ≡ option_map (λ end. end + length bytes.now) (part_end self.old.writing)) }
        ensures failed { OnErr result (part_end self.new.writing ≡ part_end self.old.writing) }
        ensures handle { part_handle self.new.writing ≡ part_handle self.old.writing }
    {
        let answer = self.write(at, bytes);
        count(&mut self.faults, answer)
    }

    fn rename(&mut self, from: PlaceRef<'_>, to: PlaceRef<'_>) -> Result<(), StoreFailed>
        ensures cause { CountsFaults (folder_faults self.old) (folder_faults self.new) result }
        ensures outside { (stays_inside (place_at from.entry) ≡ false) ⊎ (stays_inside (place_at to.entry) ≡ false) → IsErr result }
        ensures moved { OnOk result (IfSome self.old.writing (λ part. OpenMoved (F.number part.file.file) (string_bytes self.old.root) self.old.stable.items self.old.free
            (place_at from.entry) (place_at to.entry) (F.calls self.new.files))) }
    {
        let answer = self.shift(from, to);
        count(&mut self.faults, answer)
    }

    fn remove(&mut self, at: PlaceRef<'_>) -> Result<(), StoreFailed>
        ensures cause { CountsFaults (folder_faults self.old) (folder_faults self.new) result }
        ensures outside { stays_inside (place_at at.entry) ≡ false → IsErr result }
        ensures script { IsUnasked result (F.calls self.old.files) (F.calls self.new.files)
            ⊎ ((next : Script) → LeadsTo (removes_in self.old.deleting (string_bytes self.old.root) self.old.met.items (place_at at.entry) next)
            (F.calls self.old.files) (either (λ done. next) fails result) (F.calls self.new.files)) }
    {
        let answer = self.erase(at);
        count(&mut self.faults, answer)
    }
}
