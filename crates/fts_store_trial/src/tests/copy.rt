//! Copies: with ample memory, and digests that another program gave; failures and noes one by one, real folders, and real files that change
//! while they are copied. Files in memory that change are in `copy_changes`.
ghost use Rattle.std.specs.Prelude.{IsSome};

use super::copy_changing::WritingWatch;
use super::deeds::{Act, Deed, Said, do_act, do_all, holds};
use fts_copy::{CopyRoom, CountingWatch, copy_verified};
use fts_files::SystemFiles;
use fts_store::{FolderStore, MemoryStore, Store, StoredFile};
use fts_tables::{
    EndpointName, FileRow, FileState, Items, Label, Memory, Outcome, PathKey, Place, PlaceRef,
    Reason,
};
use md5::{Digest, Md5};
use std::alloc::{Alloc, AllocError, Global};
use std::fs::{self, File, Files, OpenOptions};
use std::io::Write;
use std::process::Abort;
use std::test::Fail;
use std::thread::join;

const EMPTY: [u8; 16] = *b"\xd4\x1d\x8c\xd9\x8f\x00\xb2\x04\xe9\x80\x09\x98\xec\xf8\x42\x7e";

pub(crate) const ABC: [u8; 16] =
    *b"\x90\x01\x50\x98\x3c\xd2\x4f\xb0\xd6\x96\x3f\x7d\x28\xe1\x7f\x72";

pub(crate) const AB: [u8; 16] =
    *b"\x18\x7e\xf4\x43\x61\x22\xd1\xcc\x2f\x40\xdc\x2b\x92\xf0\xeb\xa0";

pub(crate) const ABC_PLUS: [u8; 16] =
    *b"\x2c\xa4\x3d\x97\x24\xdd\x4a\xb5\x6e\x3e\xe7\x1c\xad\x1d\x6c\x42";

pub(crate) const AB_PLUS: [u8; 16] =
    *b"\xb7\x1a\x12\x24\x21\x99\xbd\x3a\xe7\xc0\x7d\xda\xee\xcd\xfc\x16";

pub(crate) const OTHER: [u8; 16] =
    *b"\x90\x01\x50\x98\x3c\xd2\x4f\xb0\xd6\x96\x3f\x7d\x28\xe1\x7f\x73";

pub(crate) fn place(alloc: Global, endpoint: &str, path: &str) -> Result<Place, Memory> {
    let endpoint = EndpointName::read(alloc, endpoint)?;
    let path = PathKey::read(alloc, path)?;
    match (endpoint, path) {
        (Some(endpoint), Some(path)) => Ok(Place { endpoint, path }),
        _ => Err(Memory),
    }
}

/// A row of file 1, from `data/f1` on A to `store/f1` on B.
pub(crate) fn row(alloc: Global, size: u64, wanted: Option<[u8; 16]>) -> Result<FileRow, Memory> {
    Ok(FileRow {
        id: 1,
        job: 1,
        index: 0,
        source: place(alloc, "https://a.example", "data/f1")?,
        dest: place(alloc, "https://b.example", "store/f1")?,
        size,
        wanted,
        activity: Label::new(alloc, "default")?,
        state: FileState::Active,
        retries: 0,
        attempt: 1,
        not_before: 0,
        cancel_asked: false,
        reason: Reason::None,
        digest: None,
    })
}

pub(crate) fn dest() -> PlaceRef<'static> {
    PlaceRef {
        endpoint: "https://b.example",
        path: "store/f1",
    }
}

fn add(files: &mut Vec<StoredFile>, place: Place, bytes: Vec<u8>) -> Result<(), Memory> {
    let file = StoredFile {
        place,
        bytes: Items::from_vec(bytes),
    };
    match files.push(file) {
        Ok(()) => Ok(()),
        Err(_) => Err(Memory),
    }
}

/// A store whose source holds these bytes. The call of the one number fails, the append of the other loses a byte; both are numbered from 1.
fn holding(alloc: Global, bytes: Vec<u8>, fails: u32, loses: u32) -> Result<MemoryStore, Memory> {
    let mut files = Vec::new(alloc);
    let source = place(alloc, "https://a.example", "data/f1")?;
    add(&mut files, source, bytes)?;
    let fail = [fails].to_vec(alloc)?;
    let drop = [loses].to_vec(alloc)?;
    Ok(MemoryStore::new(alloc, Items::from_vec(files), fail, drop))
}

pub(crate) fn holding_abc(alloc: Global, fails: u32, loses: u32) -> Result<MemoryStore, Memory> {
    holding(alloc, b"abc".to_vec(alloc)?, fails, loses)
}

/// A copy that is called off after so many pieces, and how often its watch was asked.
pub(crate) fn copied<E: Store>(
    store: &mut E,
    room: &mut CopyRoom,
    row: &FileRow,
    overwrite: bool,
    yeses: u64,
) -> (Outcome, u64)
    ensures { IsSome room.new }
{
    let mut watch = CountingWatch::new(yeses);
    room.load(row, overwrite);
    let outcome = copy_verified(store, room, &mut watch);
    (outcome, watch.askings())
}

/// A room, and the row that is copied in it.
#[derive(Drop)]
struct Copier {
    room: CopyRoom,
    row: FileRow,
}

fn copier_of(alloc: Global, size: u64, wanted: Option<[u8; 16]>) -> Result<Copier, Memory> {
    Ok(Copier {
        room: CopyRoom::new(alloc)?,
        row: row(alloc, size, wanted)?,
    })
}

fn never_stopped<E: Store>(store: &mut E, copier: &mut Copier, overwrite: bool) -> (Outcome, u64) {
    copied(store, &mut copier.room, &copier.row, overwrite, u64::MAX)
}

pub(crate) fn verified(size: u64, digest: [u8; 16]) -> Outcome {
    Outcome::Verified { size, digest }
}

/// Whether a copy of `abc`, of which this size and digest are wanted and whose append of this number loses a byte, ends so, and leaves it at the
/// destination only where it was verified.
fn abc_ends(
    alloc: Global,
    room: &mut CopyRoom,
    wants: (u64, Option<[u8; 16]>),
    loses: u32,
    want: Outcome,
) -> Result<bool, Fail> {
    let row = row(alloc, wants.0, wants.1)?;
    let mut store = holding_abc(alloc, 0, loses)?;
    let (outcome, _) = copied(&mut store, room, &row, false, u64::MAX);
    let there = if want == verified(3, ABC) {
        Some(3)
    } else {
        None
    };
    Ok(outcome == want && store.size(dest()) == Ok(there))
}

/// The size and the digest that are wanted, the append that loses a byte, and how the copy ends.
type End = (&'static str, (u64, Option<[u8; 16]>), u32, Outcome);

const WHOLE: Outcome = Outcome::Verified {
    size: 3,
    digest: ABC,
};

const ENDS: [End; 5] = [
    ("any size and digest", (0, None), 0, WHOLE),
    ("the size and the digest", (3, Some(ABC)), 0, WHOLE),
    (
        "another size",
        (4, Some(OTHER)),
        0,
        Outcome::SourceSize { seen: 3 },
    ),
    (
        "another digest",
        (0, Some(OTHER)),
        1,
        Outcome::SourceDigest { seen: ABC },
    ),
    (
        "a lost byte",
        (3, Some(ABC)),
        1,
        Outcome::ReadBackDiffers { at: 2 },
    ),
];

#[test]
fn each_end_of_a_copy_of_three_bytes(rt: HostRuntime) -> Result<(), Fail> {
    let mut room = CopyRoom::new(rt.alloc())?;
    for (case, wants, loses, want) in &ENDS {
        let ends_so = abc_ends(rt.alloc(), &mut room, *wants, *loses, *want)?;
        assert!(rt; ends_so, "{case}");
    }
    Ok(())
}

const EMPTY_AND_WHOLE: Outcome = Outcome::Verified {
    size: 0,
    digest: EMPTY,
};

/// Copies of an empty file: whether the destination may be replaced, how each ends, and how often its watch is asked.
const EMPTY_COPIES: [(&str, bool, (Outcome, u64)); 3] = [
    ("an empty file", false, (EMPTY_AND_WHOLE, 1)),
    ("it is there", false, (Outcome::DestinationExists, 0)),
    ("it is replaced", true, (EMPTY_AND_WHOLE, 1)),
];

#[test]
fn what_is_missing_or_there_ends_a_copy(rt: HostRuntime) -> Result<(), Fail> {
    let alloc = rt.alloc();
    let mut copier = copier_of(alloc, 0, Some(EMPTY))?;
    let mut store = holding(alloc, Vec::new(alloc), 0, 0)?;
    for (case, overwrite, want) in &EMPTY_COPIES {
        let ends_so = never_stopped(&mut store, &mut copier, *overwrite) == *want;
        assert!(rt; ends_so, "{case}");
    }
    let none = Items::from_vec(Vec::new(alloc));
    let mut bare = MemoryStore::new(alloc, none, Vec::new(alloc), Vec::new(alloc));
    let is_missed = never_stopped(&mut bare, &mut copier, false) == (Outcome::SourceMissing, 0);
    assert!(rt; is_missed, "no source");
    Ok(())
}

/// Whether a copy of `abc` whose call of this number fails ends by that; the call behind the last of a copy is the look at what it left.
fn ends_at_call(alloc: Global, copier: &mut Copier, call: u32) -> Result<bool, Memory> {
    let mut store = holding_abc(alloc, call, 0)?;
    let (outcome, _) = never_stopped(&mut store, copier, false);
    let has_failed = outcome == Outcome::StoreFailed;
    let is_told = store.size(dest()).is_ok();
    let is_early = call != 11;
    Ok(has_failed == is_early && is_told == is_early)
}

// Two looks, the part made, a read and an append, two reads, two at the ends, the rename; and the look behind it.
#[test]
fn each_call_that_fails_ends_a_copy(rt: HostRuntime) -> Result<(), Fail> {
    let mut copier = copier_of(rt.alloc(), 3, Some(ABC))?;
    for call in 1..=11 {
        let ends_so = ends_at_call(rt.alloc(), &mut copier, call)?;
        assert!(rt; ends_so, "call {call} fails");
    }
    Ok(())
}

/// Bytes of which no two neighbours are equal.
fn pattern(alloc: Global, size: usize) -> Result<Vec<u8>, AllocError> {
    let mut bytes = vec![in alloc; 0; size]?;
    for (at, byte) in bytes.iter_mut().enumerate() {
        *byte = (at % 251) as u8;
    }
    Ok(bytes)
}

/// Whether a copy of so many bytes, whose append of this number loses one and 0 loses none, ends so after so many askings.
fn pattern_ends(
    alloc: Global,
    copier: &mut Copier,
    size: usize,
    loses: u32,
    want: (Outcome, u64),
) -> Result<bool, Memory> {
    let mut store = holding(alloc, pattern(alloc, size)?, 0, loses)?;
    Ok(never_stopped(&mut store, copier, false) == want)
}

/// Sizes, the digests of so much of the pattern, and how often the watch is asked: by another program.
const SIZES: [(&str, usize, [u8; 16], u64); 6] = [
    ("no byte", 0, EMPTY, 1),
    (
        "one byte",
        1,
        *b"\x93\xb8\x85\xad\xfe\x0d\xa0\x89\xcd\xf6\x34\x90\x4f\xd5\x9f\x71",
        3,
    ),
    (
        "a piece but a byte",
        65_535,
        *b"\x89\x37\x8b\xe9\x3d\x51\xbb\xd3\xa9\xaa\x65\xe9\x20\x10\x36\x92",
        3,
    ),
    (
        "a piece",
        65_536,
        *b"\x9c\xc6\x07\x13\x92\x35\x28\xa1\xdd\x94\xe1\xc1\xab\x0e\xbc\x9e",
        3,
    ),
    (
        "a piece and a byte",
        65_537,
        *b"\x4c\x26\x41\xc7\xfe\x5c\x93\xd3\xae\xd7\xc4\x06\x62\x9f\xf0\xab",
        5,
    ),
    (
        "two pieces",
        131_072,
        *b"\xd0\x21\x99\xa1\x97\xfb\x4b\x17\x77\x52\x5f\xe3\x75\xf9\xf5\xf1",
        5,
    ),
];

#[test]
fn sizes_around_a_piece(rt: HostRuntime) -> Result<(), Fail> {
    let mut copier = copier_of(rt.alloc(), 0, None)?;
    for (case, size, digest, askings) in &SIZES {
        let want = (verified(*size as u64, *digest), *askings);
        let ends_so = pattern_ends(rt.alloc(), &mut copier, *size, 0, want)?;
        assert!(rt; ends_so, "{case}");
    }
    Ok(())
}

/// Which byte of a size is lost, by which append, where that is found, and how often the watch is asked.
const LOST_BYTES: [(&str, usize, u32, u64, u64); 7] = [
    ("the only byte", 1, 1, 0, 2),
    ("the last of a piece but a byte", 65_535, 1, 65_534, 2),
    ("the last of a piece", 65_536, 1, 65_535, 2),
    (
        "the last but one of a piece and a byte",
        65_537,
        1,
        65_535,
        3,
    ),
    ("the last of a piece and a byte", 65_537, 2, 65_536, 4),
    ("the last of the first of two pieces", 131_072, 1, 65_535, 3),
    ("the last of two pieces", 131_072, 2, 131_071, 4),
];

#[test]
fn a_lost_byte_of_sizes_around_a_piece(rt: HostRuntime) -> Result<(), Fail> {
    let mut copier = copier_of(rt.alloc(), 0, None)?;
    for (case, size, loses, at, askings) in &LOST_BYTES {
        let want = (Outcome::ReadBackDiffers { at: *at }, *askings);
        let ends_so = pattern_ends(rt.alloc(), &mut copier, *size, *loses, want)?;
        assert!(rt; ends_so, "{case} is lost");
    }
    Ok(())
}

/// Whether a copy that is called off after so many pieces is stopped, and leaves nothing.
fn stops_after(alloc: Global, copier: &mut Copier, yeses: u64) -> Result<bool, Memory> {
    let mut store = holding(alloc, pattern(alloc, 65_537)?, 0, 0)?;
    let ended = copied(&mut store, &mut copier.room, &copier.row, false, yeses);
    let want = (Outcome::Stopped, yeses.saturating_add(1));
    Ok(ended == want && store.size(dest()) == Ok(None))
}

#[test]
fn each_no_ends_a_copy(rt: HostRuntime) -> Result<(), Fail> {
    let mut copier = copier_of(rt.alloc(), 0, None)?;
    for yeses in 0..5 {
        let is_stopped = stops_after(rt.alloc(), &mut copier, yeses)?;
        assert!(rt; is_stopped, "a no behind {yeses} yeses");
    }
    Ok(())
}

fn clear<R: Files<File = File> + Alloc>(rt: &R, root: &str) {
    let _old = fs::remove_dir_all(rt, root);
}

const HELD: &str = "grid-of-a-copy/https:,,b.example/store/f1";

type Folders = FolderStore<SystemFiles<HostRuntime>>;

/// A store of real folders, and what copies in it.
#[derive(Drop)]
struct Grid {
    store: Folders,
    copier: Copier,
}

fn grid_at(rt: HostRuntime, root: &str, wanted: Option<[u8; 16]>) -> Result<Grid, Fail> {
    let alloc = rt.alloc();
    let root = String::from_str(alloc, root)?;
    let copier = copier_of(alloc, 0, wanted)?;
    Ok(Grid {
        store: FolderStore::new(rt, alloc, root),
        copier,
    })
}

/// The source, and its folder.
const SOURCE: [Deed; 2] = [
    (
        "the source's folder",
        Act::Folder,
        "grid-of-a-copy/https:,,a.example/data",
        "",
    ),
    (
        "the source",
        Act::File,
        "grid-of-a-copy/https:,,a.example/data/f1",
        "abc",
    ),
];

/// Whether a copy without a source, the next one with it, and another behind that end as they should.
fn copies_once<R: Files<File = File> + Alloc + Abort>(rt: &R, grid: &mut Grid) -> bool {
    let missing = never_stopped(&mut grid.store, &mut grid.copier, false);
    do_all(rt, &SOURCE);
    let first = never_stopped(&mut grid.store, &mut grid.copier, false);
    let second = never_stopped(&mut grid.store, &mut grid.copier, false);
    missing == (Outcome::SourceMissing, 0)
        && first == (WHOLE, 3)
        && second == (Outcome::DestinationExists, 0)
}

/// Whether a copy puts its source in the place of another file.
fn replaces_a_file<R: Files<File = File> + Alloc>(rt: &R, grid: &mut Grid) -> bool {
    let is_there = do_act(rt, Act::File, HELD, "other") == Said::Done;
    let found = never_stopped(&mut grid.store, &mut grid.copier, true);
    is_there && found == (WHOLE, 3) && holds(rt, HELD, "abc")
}

/// Puts a folder in the place of a file.
fn is_folder_made<R: Files<File = File> + Alloc>(rt: &R) -> bool {
    do_act(rt, Act::Unlink, HELD, "") == Said::Done
        && do_act(rt, Act::Folder, HELD, "") == Said::Done
}

/// Whether a copy onto a folder fails, and the folder is there still.
fn spares_a_folder<R: Files<File = File> + Alloc>(rt: &R, grid: &mut Grid) -> bool {
    let is_made = is_folder_made(rt);
    let found = never_stopped(&mut grid.store, &mut grid.copier, true);
    is_made && found == (Outcome::StoreFailed, 3) && do_act(rt, Act::Find, HELD, "") == Said::Done
}

fn copy_between_folders<R: Files<File = File> + Alloc + Abort>(rt: &R, grid: &mut Grid) {
    let is_copied = copies_once(rt, grid);
    assert!(rt;
        is_copied,
        "a file is copied once its source is there, and no second time"
    );
    let is_replaced = replaces_a_file(rt, grid);
    assert!(rt; is_replaced, "a file is replaced");
    let is_spared = spares_a_folder(rt, grid);
    assert!(rt; is_spared, "a folder is not");
}

#[test]
fn a_file_is_copied_between_real_folders(rt: HostRuntime) -> Result<(), Fail> {
    clear(&rt, "grid-of-a-copy");
    let mut grid = grid_at(rt, "grid-of-a-copy", Some(ABC))?;
    copy_between_folders(&rt, &mut grid);
    clear(&rt, "grid-of-a-copy");
    Ok(())
}

const CHANGED_SOURCE: &str = "grid-of-a-change/https:,,a.example/data/f1";

const CHANGED_DEST: &str = "grid-of-a-change/https:,,b.example/store/f1";

/// The source, and no destination.
fn is_stand_made<R: Files<File = File> + Alloc>(rt: &R) -> bool {
    let _old = fs::remove_file(rt, CHANGED_DEST);
    do_act(rt, Act::File, CHANGED_SOURCE, "abc") == Said::Done
}

/// How a copy ends whose watch writes these bytes into a file, before the first piece is read.
fn written_end<R: Files<File = File>>(rt: &R, grid: &mut Grid, path: &str, bytes: &str) -> Outcome {
    let mut watch = WritingWatch {
        rt,
        path,
        bytes,
        askings: 0,
    };
    grid.copier.room.load(&grid.copier.row, false);
    copy_verified(&mut grid.store, &mut grid.copier.room, &mut watch)
}

/// What becomes of a file while it is copied: which file, its bytes, how the copy ends, and what is at the destination; no bytes are no file.
type Written = (
    &'static str,
    &'static str,
    &'static str,
    Outcome,
    &'static str,
);

const OTHER_AND_WHOLE: Outcome = Outcome::Verified {
    size: 3,
    digest: AB_PLUS,
};

const WRITTEN: [Written; 5] = [
    (
        "the source becomes the same bytes",
        CHANGED_SOURCE,
        "abc",
        WHOLE,
        "abc",
    ),
    (
        "the source becomes a byte less",
        CHANGED_SOURCE,
        "ab",
        Outcome::SourceSize { seen: 2 },
        "",
    ),
    (
        "the source becomes a byte more",
        CHANGED_SOURCE,
        "abc+",
        Outcome::ReadBackDiffers { at: 3 },
        "",
    ),
    (
        "the source becomes another byte",
        CHANGED_SOURCE,
        "ab+",
        OTHER_AND_WHOLE,
        "ab+",
    ),
    (
        "a destination appears",
        CHANGED_DEST,
        "other",
        Outcome::StoreFailed,
        "other",
    ),
];

/// The folders of both files.
const CHANGED_FOLDERS: [Deed; 2] = [
    (
        "the source's folder",
        Act::Folder,
        "grid-of-a-change/https:,,a.example/data",
        "",
    ),
    (
        "the destination's folder",
        Act::Folder,
        "grid-of-a-change/https:,,b.example/store",
        "",
    ),
];

fn end_each_written<R: Files<File = File> + Alloc + Abort>(rt: &R, grid: &mut Grid) {
    for (case, path, bytes, want, there) in &WRITTEN {
        let is_made = is_stand_made(rt);
        let ends_so = written_end(rt, grid, path, bytes) == *want;
        let is_left = holds(rt, CHANGED_DEST, there);
        assert!(rt; is_made && ends_so && is_left, "{case}");
    }
}

#[test]
fn a_real_file_that_changes_during_a_copy(rt: HostRuntime) -> Result<(), Fail> {
    clear(&rt, "grid-of-a-change");
    do_all(&rt, &CHANGED_FOLDERS);
    let mut grid = grid_at(rt, "grid-of-a-change", None)?;
    end_each_written(&rt, &mut grid);
    clear(&rt, "grid-of-a-change");
    Ok(())
}

/// Cuts a file, makes it as long as it was, writes other bytes into it and makes it longer, so often.
fn cut_and_lengthen<R: Files<File = File>>(rt: &R, path: &str) {
    for _ in 0..100 {
        if let Ok(mut file) = OpenOptions::new().write(true).open(rt, path) {
            let _cut = file.set_len(66_000);
            let _whole = file.set_len(70_000);
            let _other = file.write_all(b"other bytes at its start");
            let _longer = file.set_len(80_000);
        }
    }
}

/// Whether a file holds what this end of a copy says.
fn is_as_said<R: Files<File = File> + Alloc>(rt: &R, outcome: Outcome, path: &str) -> bool {
    let Outcome::Verified { size, digest } = outcome else {
        return true;
    };
    match fs::read(rt, path) {
        Ok(bytes) => {
            let mut hasher = Md5::new();
            hasher.update(bytes.as_slice());
            bytes.len() as u64 == size && hasher.finalize() == digest
        }
        Err(_) => false,
    }
}

const CUT_SOURCE: &str = "grid-of-a-cut/https:,,a.example/data/f1";

const CUT_DEST: &str = "grid-of-a-cut/https:,,b.example/store/f1";

fn make_source(rt: HostRuntime, root: &str) -> Result<(), Fail> {
    clear(&rt, root);
    fs::create_dir_all(&rt, "grid-of-a-cut/https:,,a.example/data")?;
    let bytes = pattern(rt.alloc(), 70_000)?;
    fs::write(&rt, CUT_SOURCE, bytes.as_slice())?;
    Ok(())
}

/// Whether a copy that nobody disturbs doesn't fail, and holds what its end says.
fn ends_alone<R: Files<File = File> + Alloc>(
    rt: &R,
    store: &mut Folders,
    copier: &mut Copier,
) -> bool {
    let (outcome, _) = never_stopped(store, copier, true);
    outcome != Outcome::StoreFailed && is_as_said(rt, outcome, CUT_DEST)
}

#[test]
fn a_source_that_another_thread_changes_is_never_verified_as_another(
    rt: HostRuntime,
) -> Result<(), Fail> {
    let root = "grid-of-a-cut";
    make_source(rt, root)?;
    let mut grid = grid_at(rt, root, None)?;
    for _ in 0..5_u32 {
        let ((outcome, _), _) = join(
            &rt,
            || never_stopped(&mut grid.store, &mut grid.copier, true),
            || cut_and_lengthen(&rt, CUT_SOURCE),
        );
        assert!(rt;
            is_as_said(&rt, outcome, CUT_DEST),
            "another thread cuts it"
        );
    }
    let is_whole = ends_alone(&rt, &mut grid.store, &mut grid.copier);
    assert!(rt; is_whole, "nobody disturbs it");
    clear(&rt, root);
    Ok(())
}
