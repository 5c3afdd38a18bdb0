//! Deletions with ample memory: what is asked for, passed and opened again; passes whose calls fail; and bytes that are no journal of deletions.
use fts_delete::{DeleteFault, DeleteState, Deletes};
use fts_disk::MemoryDisk;
use fts_store::{MemoryStore, Store, StoredFile};
use fts_tables::{EndpointName, Items, Memory, PathKey, Place, PlaceRef};
use std::alloc::Global;
use std::test::Fail;

const ENDPOINT: &str = "https://a.example";

/// An id, how far its row is, and how many passes missed it.
type Row = (u32, DeleteState, u32);

/// The place of a path on the one endpoint.
fn place_of(alloc: Global, path: &str) -> Result<Place, Memory> {
    let endpoint = EndpointName::read(alloc, ENDPOINT)?;
    let path = PathKey::read(alloc, path)?;
    match (endpoint, path) {
        (Some(endpoint), Some(path)) => Ok(Place { endpoint, path }),
        _ => Err(Memory),
    }
}

/// A store with a file `data/f1`, whose calls of these numbers fail.
pub fn store_failing(alloc: Global, fail: &[u32]) -> Result<MemoryStore, Memory> {
    let mut files = Items::new(alloc);
    let file = StoredFile {
        place: place_of(alloc, "data/f1")?,
        bytes: Items::from_vec(b"abc".to_vec(alloc)?),
    };
    if files.push(file).is_err() {
        return Err(Memory);
    }
    Ok(MemoryStore::new(alloc, files, fail.to_vec(alloc)?, Vec::new(alloc)))
}

/// Asks for the files of two paths.
fn ask_for(
    alloc: Global,
    deletes: &mut Deletes<MemoryDisk>,
    one: &str,
    other: &str,
) -> Result<(), DeleteFault> {
    let places = [place_of(alloc, one)?, place_of(alloc, other)?];
    deletes.ask(&places)
}

/// Whether the rows are these.
fn are(deletes: &Deletes<MemoryDisk>, want: &[Row]) -> bool {
    let rows = deletes.rows();
    rows.len() == want.len()
        && rows.iter().zip(want).all(|(row, want)| row.id == want.0
            && row.state == want.1
            && row.missed == want.2)
}

/// Deletions over a new disk, of which two files were asked for: one is there.
fn asked_for_two(alloc: Global) -> Result<Deletes<MemoryDisk>, Fail> {
    let disk = MemoryDisk::new(alloc, Vec::new(alloc));
    let Ok(mut deletes) = Deletes::open(alloc, disk) else {
        return Err(Fail::new("no journal is made"));
    };
    match ask_for(alloc, &mut deletes, "data/f1", "data/no") {
        Ok(()) => Ok(deletes),
        Err(_) => Err(Fail::new("two files are not asked for")),
    }
}

/// Opens what a disk with these bytes holds: how many rows, and the offset of the last gate.
fn opened(alloc: Global, bytes: &[u8]) -> Result<(usize, u64), DeleteFault> {
    let disk = MemoryDisk::holding(alloc, bytes.to_vec(alloc)?, Vec::new(alloc));
    match Deletes::open(alloc, disk) {
        Ok(deletes) => Ok((deletes.rows().len(), deletes.used())),
        Err((fault, _disk)) => Err(fault),
    }
}

#[test]
fn what_is_asked_for_is_gone_after_a_pass(rt: HostRuntime) -> Result<(), Fail> {
    let alloc = rt.alloc();
    let mut deletes = asked_for_two(alloc)?;
    let mut store = store_failing(alloc, &[])?;
    assert!(rt; deletes.pass(&mut store).is_ok(), "they are passed");
    let gone = [(1, DeleteState::Finished, 0), (2, DeleteState::Finished, 0)];
    assert!(rt; are(&deletes, &gone), "both are gone");
    let file = PlaceRef {
        endpoint: ENDPOINT,
        path: "data/f1",
    };
    assert!(rt; store.size(file) == Ok(None), "the file is not there");
    let used = deletes.used();
    let Ok(again) = Deletes::open(alloc, deletes.close()) else {
        panic!(rt; "they are opened again")
    };
    let is_same = are(&again, &gone) && again.used() == used;
    assert!(rt; is_same, "they are opened again as they were");
    Ok(())
}

#[test]
fn a_file_that_three_passes_missed_has_failed(rt: HostRuntime) -> Result<(), Fail> {
    let alloc = rt.alloc();
    let mut deletes = asked_for_two(alloc)?;
    for (case, fail, want) in [
        ("the first look fails", [1, 1], DeleteState::Waiting),
        (
            "the removal and the second look fail",
            [2, 3],
            DeleteState::Waiting,
        ),
        ("the second look fails", [3, 3], DeleteState::Failed),
    ] {
        let mut store = store_failing(alloc, &fail)?;
        assert!(rt; deletes.pass(&mut store).is_ok(), "{case}");
        let is_so = deletes.rows().iter().take(1).all(|row| row.state == want);
        assert!(rt; is_so, "{case}");
    }
    let settled = [(1, DeleteState::Failed, 3), (2, DeleteState::Finished, 0)];
    assert!(rt;
        are(&deletes, &settled),
        "the other one was gone in the first pass"
    );
    Ok(())
}

/// Bytes of journals, and the offset of their first fault.
const DAMAGED: [(&str, &[u8], u64); 5] = [
    (
        "a row that wasn't asked for",
        b"FTS3JRN1\x01\x02\0\0\0\x02\x01\0",
        8,
    ),
    (
        "a number with a needless byte",
        b"FTS3JRN1\x01\x03\0\0\0\x02\x81\0\0",
        14,
    ),
    (
        "another kind of event",
        b"FTS3JRN1\x01\x02\0\0\0\x04\x01\0",
        13,
    ),
    ("a cut body", b"FTS3JRN1\x01\x02\0\0\0\x02", 8),
    ("another header", b"FTS3JRN2\0", 0),
];

#[test]
fn other_bytes_are_damaged_at_their_first_fault(rt: HostRuntime) -> Result<(), Fail> {
    let alloc = rt.alloc();
    // A file that is asked for, and gone.
    let gone = b"FTS3JRN1\x01\x16\0\0\0\x01\x01\x11https://a.example\x01f\x01\x02\0\0\0\x02\x01\0";
    assert!(rt;
        opened(alloc, gone) == Ok((1, 42)),
        "a file that is asked for, and gone"
    );
    for (case, bytes, offset) in DAMAGED {
        let is_damaged = opened(alloc, bytes) == Err(DeleteFault::Damaged { offset });
        assert!(rt; is_damaged, "{case}");
    }
    Ok(())
}
