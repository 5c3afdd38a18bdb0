//! Of `fts_index`: each call with ample memory, on ids, links and moments by hand, and on more ids than a chunk holds.
ghost use Rattle.std.specs.Prelude.{◌≡◌, length, IfOk};
ghost use Rattle.fts_tables.specs.Tables.{AreNumberedFrom};

use super::made::{name, row};
use fts_index::{Dues, JobIds, Loads};
use fts_tables::{FileRow, FileState, Memory};
use std::alloc::Global;
use std::process::Abort;
use std::test::Fail;

/// Ids of jobs 1 to 5, of which two are one.
const IDS: [u128; 5] = [70, 30, 70, 10, 90];

/// A sentence, an id, and its number, where 0 stands for none.
const NUMBERS: [(&str, u128, u32); 5] = [
    ("the id of two jobs", 70, 1),
    ("the second job's", 30, 2),
    ("the fourth job's", 10, 4),
    ("the last job's", 90, 5),
    ("an id of no job", 80, 0),
];

#[test]
fn an_id_has_the_least_of_its_numbers(rt: HostRuntime) -> Result<(), Fail> {
    let mut ids = JobIds::new(rt.alloc());
    for id in &IDS {
        ids.make_room()?;
        ids.add(*id);
    }
    for (case, id, number) in &NUMBERS {
        let is_found = ids.find(*id).unwrap_or(0) == *number;
        assert!(rt; is_found, "{case}");
    }
    Ok(())
}

/// How many jobs there are in the large list.
const MANY: u32 = 1200;

/// The id of a job of the large list: no two are one, and none is 1201.
fn id_of(number: u32) -> u128 {
    u128::from(number) * 7919 % 1201
}

/// Each job is found by its id.
fn are_found(rt: &impl Abort, ids: &JobIds) {
    for number in 1..=MANY {
        let is_found = ids.find(id_of(number)).unwrap_or(0) == number;
        assert!(rt; is_found, "job {number}");
    }
}

#[test]
fn there_is_room_for_more_ids_than_a_chunk_holds(rt: HostRuntime) -> Result<(), Fail> {
    let mut ids = JobIds::new(rt.alloc());
    for number in 1..=MANY {
        let id = id_of(number);
        // An add comes behind no search, behind one of its id, or behind that and one of an id that isn't added.
        let is_new = number % 3 == 0 || ids.seek(id).unwrap_or(0) == 0;
        let is_other_new = number % 3 < 2 || ids.seek(1201).unwrap_or(0) == 0;
        assert!(rt; is_new && is_other_new, "before job {number}");
        ids.make_room()?;
        ids.add(id);
    }
    are_found(&rt, &ids);
    Ok(())
}

#[test]
fn a_link_counts_in_its_own_direction(rt: HostRuntime) -> Result<(), Fail> {
    let here = name(rt.alloc(), "https://a.example")?;
    let there = name(rt.alloc(), "https://b.example")?;
    let mut loads = Loads::new(rt.alloc());
    loads.make_room(&there, &here)?;
    assert!(rt; loads.count(&here, &there) == 0, "a link that isn't known");
    loads.make_room(&here, &there)?;
    loads.add(&here, &there);
    loads.add(&here, &there);
    assert!(rt; loads.count(&here, &there) == 2, "two rows");
    assert!(rt; loads.count(&there, &here) == 0, "the way back");
    loads.take(&here, &there);
    assert!(rt; loads.count(&here, &there) == 1, "one row less");
    Ok(())
}

/// A row with a number, in a state.
fn numbered(alloc: Global, id: u32, state: FileState) -> Result<FileRow, Memory>
    ensures id { IfOk result (λ row. row.id ≡ id) }
{
    let mut row = row(alloc, state)?;
    row.id = id;
    Ok(row)
}

/// Rows 1 to 3, of which the second doesn't wait.
fn rows(alloc: Global) -> Result<[FileRow; 3], Memory>
    ensures numbered { IfOk result (λ rows. AreNumberedFrom (λ row. row.id) 1 rows) }
    ensures three { IfOk result (λ rows. length rows ≡ 3) }
{
    Ok([
        numbered(alloc, 1, FileState::Submitted)?,
        numbered(alloc, 2, FileState::NotUsed)?,
        numbered(alloc, 3, FileState::Submitted)?,
    ])
}

#[test]
fn the_first_moment_is_the_least(rt: HostRuntime) -> Result<(), Fail> {
    let mut dues = Dues::new(rt.alloc());
    assert!(rt; dues.first().is_none() && !dues.is_due(u64::MAX), "no file");
    dues.make_room(3)?;
    dues.add_rows(&rows(rt.alloc())?, Some(3600));
    assert!(rt; dues.len() == 2, "two files wait");
    assert!(rt; !dues.is_due(3599) && dues.is_due(3600), "an hour later");
    if let Some(due) = dues.first() {
        assert!(rt;
            due.file == 1 && due.moment == 3600,
            "the lesser file first"
        );
    }
    Ok(())
}
