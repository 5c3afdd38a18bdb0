//! Of `fts_line`: each call with ample memory, on three files that wait in one queue, one of them for its moment.
ghost use Rattle.std.specs.Prelude.{◌≡◌};

use fts_line::Line;
use fts_queue::Waiter;
use fts_tables::LinkAt;
use std::test::Fail;

/// The link of all files here.
const LINK: LinkAt = LinkAt { source: 1, dest: 2 };

fn make_waiter(file: u32, priority: u32, not_before: u64) -> Waiter
    ensures { result ≡ record {
      file = file;
      link = record { source = 1; dest = 2 };
      activity = 3;
      priority = priority;
      not_before = not_before;
    } }
{
    Waiter {
        file,
        link: LinkAt { source: 1, dest: 2 },
        activity: 3,
        priority,
        not_before,
    }
}

#[test]
fn files_for_a_busy_destination_are_passed_as_one(rt: HostRuntime) -> Result<(), Fail> {
    let mut line = Line::new(rt.alloc());
    line.make_rows(3)?;
    line.add_row(0);
    line.add_row(0);
    line.add_row(2);
    assert!(rt; line.dest(2) == 0 && line.dest(3) == 2 && line.dest(4) == 0);
    line.make_room(LINK, 3, 3)?;
    line.make_places(3)?;
    line.insert(make_waiter(1, 3, 0));
    line.insert(make_waiter(2, 5, 0));
    line.insert(make_waiter(3, 1, 0));
    assert!(rt;
        line.first_open(LINK, 3) == Some(2),
        "the greatest priority"
    );
    line.busy(0);
    assert!(rt; line.first_open(LINK, 3) == Some(3), "both are passed");
    line.free(0);
    assert!(rt; line.first_open(LINK, 3) == Some(2));
    assert!(rt; line.first_open(LINK, 2) == None, "another queue");
    let is_one_queue = line.queues() == 1 && line.queue(0) == (LINK, 3);
    assert!(rt; is_one_queue && !line.is_busy(0) && line.rows() == 3);
    Ok(())
}

#[test]
fn a_better_file_goes_first_once_its_moment_has_come(rt: HostRuntime) -> Result<(), Fail> {
    let mut line = Line::new(rt.alloc());
    line.make_rows(3)?;
    line.add_row(0);
    line.add_row(1);
    line.add_row(1);
    line.make_room(LINK, 3, 3)?;
    line.make_places(3)?;
    line.insert(make_waiter(1, 3, 0));
    line.insert(make_waiter(2, 5, 10));
    line.insert(make_waiter(3, 1, 5_000_000_000));
    line.ripen(9);
    assert!(rt; line.first_open(LINK, 3) == Some(1), "before its moment");
    line.ripen(10);
    assert!(rt; line.first_open(LINK, 3) == Some(2), "at its moment");
    line.ripen(9);
    assert!(rt;
        line.first_open(LINK, 3) == Some(1),
        "the clock has gone back"
    );
    line.ripen(5_000_000_000);
    assert!(rt; line.first_open(LINK, 3) == Some(2), "and is there again");
    line.remove(&make_waiter(2, 5, 10));
    assert!(rt; line.first_open(LINK, 3) == Some(1));
    line.busy(0);
    assert!(rt;
        line.first_open(LINK, 3) == Some(3),
        "whose moment takes more than 32 bits"
    );
    line.ripen(0);
    assert!(rt;
        line.first_open(LINK, 3) == None,
        "none is ripe for a free destination"
    );
    line.remove(&make_waiter(3, 1, 5_000_000_000));
    Ok(())
}

#[test]
fn a_file_that_brought_its_destination_goes_by_its_number(rt: HostRuntime) -> Result<(), Fail> {
    let mut line = Line::new(rt.alloc());
    line.make_rows(3)?;
    line.add_row(0);
    line.add_row(0);
    line.add_row(2);
    line.make_room(LINK, 3, 3)?;
    line.make_places(3)?;
    line.insert(make_waiter(1, 3, 0));
    line.insert(make_waiter(2, 5, 0));
    line.insert(make_waiter(3, 1, 10));
    assert!(rt; line.own_link(1) == Some(LINK), "it waits");
    assert!(rt; line.own_link(2) == None, "it follows to another's");
    assert!(rt; line.own_link(3) == None, "its moment is to come");
    assert!(rt; !line.take_own(2) && !line.take_own(3) && !line.take_own(4));
    assert!(rt; line.take_own(1), "it goes");
    assert!(rt; !line.take_own(1), "it went");
    assert!(rt; line.first_open(LINK, 3) == Some(2), "the other stays");
    line.ripen(10);
    assert!(rt; line.own_link(3) == Some(LINK), "its moment has come");
    Ok(())
}
