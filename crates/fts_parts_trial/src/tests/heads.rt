//! Of `fts_heads`: each call with ample memory, on files of two destinations by hand.
ghost use Rattle.std.specs.Prelude.{◌≡◌};

use fts_heads::{Heads, RipeFile};
use std::test::Fail;

fn make_file(queue: u32, dest: u32, rank: u32, file: u32) -> RipeFile
    ensures { result ≡ record { queue = queue; dest = dest; rank = rank; file = file } }
{
    RipeFile {
        queue,
        dest,
        rank,
        file,
    }
}

#[test]
fn a_claim_meets_no_busy_destination(rt: HostRuntime) -> Result<(), Fail> {
    let mut heads = Heads::new(rt.alloc());
    heads.make_dests(2)?;
    heads.add_dest();
    heads.add_dest();
    heads.make_room(3)?;
    let near = make_file(7, 0, 2, 6);
    let far = make_file(7, 1, 3, 5);
    heads.insert(far);
    assert!(rt; heads.first_of(7) == Some(far));
    heads.insert(near);
    assert!(rt;
        heads.first_of(7) == Some(near),
        "the lesser rank goes first"
    );
    heads.busy(0);
    assert!(rt; heads.is_busy(0) && !heads.is_busy(1), "one is busy");
    assert!(rt;
        heads.first_of(7) == Some(far),
        "the destination of the first is busy"
    );
    heads.remove(far);
    assert!(rt; heads.first_of(7) == None, "none for a free destination");
    heads.free(0);
    assert!(rt; heads.first_of(7) == Some(near));
    assert!(rt; heads.first_of(6) == None, "another queue");
    assert!(rt; heads.has(&near) && !heads.has(&far) && heads.len() == 1 && heads.dests() == 2);
    Ok(())
}

#[test]
fn files_that_brought_their_destinations_stand_among_the_others(
    rt: HostRuntime,
) -> Result<(), Fail> {
    let mut heads = Heads::new(rt.alloc());
    heads.make_dests(2)?;
    heads.add_dest();
    heads.add_dest();
    heads.make_room(3)?;
    let first = make_file(7, 0, 2, 1);
    let second = make_file(7, 1, 3, 2);
    let third = make_file(7, 0, 1, 3);
    heads.insert(first);
    assert!(rt;
        heads.own_at(0) == Some(first),
        "the first file of its destination"
    );
    heads.insert(second);
    heads.insert(third);
    assert!(rt; heads.own_at(1) == Some(second), "the first of another");
    assert!(rt;
        heads.first_of(7) == Some(third),
        "the lesser rank goes first"
    );
    assert!(rt;
        heads.first_from(&make_file(0, 9, 0, 0)) == Some(second),
        "of the greatest destination"
    );
    assert!(rt;
        heads.next_after(&second) == Some(third),
        "the next destination"
    );
    assert!(rt; heads.next_after(&third) == Some(first), "its other file");
    assert!(rt; heads.next_after(&first) == None, "none behind the last");
    if let Some(found) = heads.own_at(0) {
        heads.remove(found);
    }
    assert!(rt; heads.own_at(0) == None, "it went");
    assert!(rt; heads.next_after(&second) == Some(third), "the other stays");
    assert!(rt;
        heads.first_without_dest() == None,
        "each has a destination"
    );
    Ok(())
}

#[test]
fn who_brought_a_destination_is_found_wherever_it_stands(rt: HostRuntime) -> Result<(), Fail> {
    let mut heads = Heads::new(rt.alloc());
    heads.make_dests(3)?;
    heads.add_dest();
    heads.add_dest();
    heads.add_dest();
    heads.make_room(2)?;
    assert!(rt; heads.own_at(2) == None, "nobody is there");
    let follower = make_file(6, 2, 0, 9);
    let bringer = make_file(7, 2, 0, 3);
    heads.insert(follower);
    assert!(rt; heads.own_at(2) == None, "who follows did not bring it");
    heads.insert(bringer);
    assert!(rt;
        heads.own_at(2) == Some(bringer),
        "behind another, of a number past the room"
    );
    assert!(rt; heads.own_at(1) == None, "of another destination");
    heads.remove(bringer);
    assert!(rt; heads.own_at(2) == None, "it went");
    Ok(())
}
