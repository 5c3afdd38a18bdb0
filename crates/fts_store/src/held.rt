//! The files of a store in memory: those that it was given, and over them an entry for each place that a call has named since.
//! Contracts see what is held at each place (`held_files`). A call takes its memory first: one that finds none changes no file.
//! Only `MemoryStore` stands on it.
ghost use Rattle.std.specs.Prelude.{◌≡◌, ◌<◌, ◌∷◌, ◌++◌, [], Some, None, IsSome, IsOk, IfOk, OnOk, OnErr, option_map, length};
ghost use Rattle.std.specs.List.{find, position, slice_index_or};
ghost use Rattle.fts_tables.specs.Places.{is_same_place};
ghost use Rattle.fts_store.specs.declared.held.Entry.{Entry};
ghost use Rattle.fts_tables.specs.declared.places.Place.{Place};
ghost use Rattle.fts_store.specs.Store.{Same, place_at, bytes_of, with_file, with_move};
ghost use Rattle.fts_store.specs.Held.{held_files, files_over, given_at, kept_file, entry_place, is_entry_at, IsEntryOf, Takes};

use crate::StoreFailed;
use fts_tables::{Items, Place, PlaceRef};
use std::alloc::{AllocError, Global};
use std::mem;

/// A file that a store in memory holds from the start.
#[derive(Drop)]
pub struct StoredFile {
    pub place: Place,
    pub bytes: Items<u8>,
}

/// A place that a call has named, and the file there, or none.
#[derive(Drop)]
pub(crate) struct Entry {
    pub(crate) endpoint: String,
    pub(crate) path: String,
    pub(crate) file: Option<Vec<u8>>,
}

/// Files at places.
#[derive(Drop)]
pub(crate) struct Held {
    pub(crate) alloc: Global,
    pub(crate) given: Items<StoredFile>,
    pub(crate) made: Vec<Entry>,
}

fn is_entry_at(entry: &Entry, at: PlaceRef<'_>) -> bool
    ensures { result ≡ is_entry_at (place_at at.entry) entry.now }
{
    at.endpoint == entry.endpoint.as_str() && at.path == entry.path.as_str()
}

fn is_given_at(file: &StoredFile, at: PlaceRef<'_>) -> bool
    ensures { result ≡ is_same_place (place_at at.entry) file.now.place }
{
    at.endpoint == file.place.endpoint.as_str() && at.path == file.place.path.as_str()
}

fn given<'a>(files: &'a [StoredFile], at: PlaceRef<'_>) -> Option<&'a [u8]>
    ensures { option_map (λ bytes. bytes.now) result ≡ given_at files.now (place_at at.entry) }
{
    files
        .iter()
        .find(|file| is_given_at(file, at))
        .map(|file| file.bytes.as_slice())
}

fn entry_of(made: &[Entry], at: PlaceRef<'_>) -> Option<usize>
    ensures { result ≡ position (is_entry_at (place_at at.entry)) made.now }
{
    made.iter().position(|entry| is_entry_at(entry, at))
}

fn copied(
    alloc: Global,
    files: &Items<StoredFile>,
    at: PlaceRef<'_>,
) -> Result<Option<Vec<u8>>, AllocError>
    ensures { IfOk result (λ file. kept_file file ≡ given_at files.now (place_at at.entry)) }
{
    match given(files.as_slice(), at) {
        Some(bytes) => Ok(Some(bytes.to_vec(alloc)?)),
        None => Ok(None),
    }
}

fn found<'a>(made: &'a [Entry], at: PlaceRef<'_>) -> Option<&'a Entry>
    ensures { option_map (λ entry. entry.now) result ≡ find (is_entry_at (place_at at.entry)) made.now }
{
    made.iter().find(|entry| is_entry_at(entry, at))
}

// An entry for a place, which keeps what was given there.
fn entry_for(
    alloc: Global,
    files: &Items<StoredFile>,
    at: PlaceRef<'_>,
) -> Result<Entry, AllocError>
    ensures place { IfOk result (λ entry. entry_place entry ≡ place_at at.entry) }
    ensures file { IfOk result (λ entry. kept_file entry.file ≡ given_at files.now (place_at at.entry)) }
{
    Ok(Entry {
        endpoint: String::from_str(alloc, at.endpoint)?,
        path: String::from_str(alloc, at.path)?,
        file: copied(alloc, files, at)?,
    })
}

fn add(made: &mut Vec<Entry>, entry: Entry) -> Result<usize, AllocError>
    requires { position (is_entry_at (entry_place entry)) made.old.items ≡ None }
    ensures entry { IfOk result (λ n. IsEntryOf made.new.items n (entry_place entry)) }
    ensures added { OnOk result (made.new.items ≡ made.old.items ++ entry ∷ []) }
    ensures err { OnErr result (made.new.items ≡ made.old.items) }
{
    let place = made.len();
    made.reserve(1)?;
    made.push_reserved(entry);
    Ok(place)
}

// The entry for a place, made where there is none. No file changes.
fn own(
    alloc: Global,
    files: &Items<StoredFile>,
    made: &mut Vec<Entry>,
    at: PlaceRef<'_>,
) -> Result<usize, AllocError>
    ensures entry { IfOk result (λ n. IsEntryOf made.new.items n (place_at at.entry)) }
    ensures stay { (place : Place) (n : _) → IsEntryOf made.old.items n place → IsEntryOf made.new.items n place }
    ensures same { Same (files_over files.now made.new.items) (files_over files.now made.old.items) }
    ensures named { IsSome (position (is_entry_at (place_at at.entry)) made.old.items) → IsOk result }
    ensures kept { IsSome (position (is_entry_at (place_at at.entry)) made.old.items) → made.new.items ≡ made.old.items }
{
    match entry_of(made, at) {
        Some(n) => Ok(n),
        None => add(made, entry_for(alloc, files, at)?),
    }
}

// Puts a file into an entry, and gives what was there.
fn exchange(made: &mut Vec<Entry>, n: usize, file: Option<Vec<u8>>) -> Option<Vec<u8>>
    requires { n < length made.old.items }
    ensures given { (files : _) (place : Place) → IsEntryOf made.old.items n place → kept_file result ≡ files_over files made.old.items place }
    ensures taken { (d : Entry) → result ≡ (slice_index_or made.old.items n d).file }
    ensures put { (files : _) (place : Place) → IsEntryOf made.old.items n place
        → Same (files_over files made.new.items) (with_file (files_over files made.old.items) place (kept_file file)) }
    ensures stay { (place : Place) → position (is_entry_at place) made.new.items ≡ position (is_entry_at place) made.old.items }
{
    mem::replace(&mut made[n].file, file)
}

// Appends bytes to a file, which is made where there is none.
fn grow(alloc: Global, file: &mut Option<Vec<u8>>, bytes: &[u8]) -> Result<(), StoreFailed>
    ensures ok { OnOk result (kept_file file.new ≡ Some (bytes_of (kept_file file.old) ++ bytes.now)) }
    ensures err { OnErr result (kept_file file.new ≡ kept_file file.old) }
    ensures room { Takes file.old (length bytes.now) → IsOk result }
{
    match file {
        Some(content) => content.extend_from_slice(bytes)?,
        None => *file = Some(bytes.to_vec(alloc)?),
    }
    Ok(())
}

impl Held {
    ghost use Rattle.std.specs.Prelude.{◌≡◌, ◌++◌, [], length, Some, None, IsOk, OnOk, OnErr, option_map};
    ghost use Rattle.fts_store.specs.Store.{Same, place_at, bytes_of, with_file, with_move};
    ghost use Rattle.fts_store.specs.Held.{held_files, kept_file, IsNamed, HasRoom};

    /// The bytes of the file at a place, where there is one.
    pub fn file(&self, at: PlaceRef<'_>) -> Option<&[u8]>
        ensures { option_map (λ bytes. bytes.now) result ≡ held_files self.now (place_at at.entry) }
    {
        match found(&self.made, at) {
            Some(entry) => match &entry.file {
                Some(bytes) => Some(bytes.as_slice()),
                None => None,
            },
            None => given(self.given.as_slice(), at),
        }
    }

    /// Puts a file at a place, or none.
    pub fn put(&mut self, at: PlaceRef<'_>, file: Option<Vec<u8>>) -> Result<(), StoreFailed>
        ensures ok { OnOk result (Same (held_files self.new) (with_file (held_files self.old) (place_at at.entry) (kept_file file))) }
        ensures err { OnErr result (Same (held_files self.new) (held_files self.old)) }
        ensures named { IsNamed self.old (place_at at.entry) → IsOk result }
    {
        let n = own(self.alloc, &self.given, &mut self.made, at)?;
        exchange(&mut self.made, n, file);
        Ok(())
    }

    /// Puts a file of no bytes at a place.
    pub fn create(&mut self, at: PlaceRef<'_>) -> Result<(), StoreFailed>
        ensures ok { OnOk result (Same (held_files self.new) (with_file (held_files self.old) (place_at at.entry) (Some []))) }
        ensures err { OnErr result (Same (held_files self.new) (held_files self.old)) }
        ensures named { IsNamed self.old (place_at at.entry) → IsOk result }
    {
        self.put(at, Some(Vec::new(self.alloc)))
    }

    /// Appends bytes to the file at a place, which is made where there is none.
    pub fn append(&mut self, at: PlaceRef<'_>, bytes: &[u8]) -> Result<(), StoreFailed>
        ensures ok { OnOk result (Same (held_files self.new)
            (with_file (held_files self.old) (place_at at.entry) (Some (bytes_of (held_files self.old (place_at at.entry)) ++ bytes.now)))) }
        ensures err { OnErr result (Same (held_files self.new) (held_files self.old)) }
        ensures room { HasRoom self.old (place_at at.entry) (length bytes.now) → IsOk result }
    {
        let n = own(self.alloc, &self.given, &mut self.made, at)?;
        let mut file = exchange(&mut self.made, n, None);
        let answer = grow(self.alloc, &mut file, bytes);
        exchange(&mut self.made, n, file);
        answer
    }

    /// Moves the file at a place to another, where it replaces what was there.
    pub fn rename(&mut self, from: PlaceRef<'_>, to: PlaceRef<'_>) -> Result<(), StoreFailed>
        ensures ok { OnOk result (Same (held_files self.new) (with_move (held_files self.old) (place_at from.entry) (place_at to.entry))) }
        ensures err { OnErr result (Same (held_files self.new) (held_files self.old)) }
        ensures named { IsNamed self.old (place_at from.entry) → IsNamed self.old (place_at to.entry) → IsOk result }
    {
        let source = own(self.alloc, &self.given, &mut self.made, from)?;
        let target = own(self.alloc, &self.given, &mut self.made, to)?;
        let file = exchange(&mut self.made, source, None);
        exchange(&mut self.made, target, file);
        Ok(())
    }
}
