//! Of `fts_slots`: each call with ample memory, on settings of one endpoint, to which one file may go and from which two may come.
use super::made::{name, settings};
use fts_slots::Slots;
use fts_tables::LinkAt;
use std::test::Fail;

#[test]
fn the_narrowest_limit_decides(rt: HostRuntime) -> Result<(), Fail> {
    let settings = settings(rt.alloc())?;
    let mut slots = Slots::new(rt.alloc(), &settings)?;
    let link = LinkAt { source: 0, dest: 0 };
    assert!(rt; slots.free(link) && slots.rank(0) == 0, "nothing is taken");
    slots.take(link);
    let is_full = !slots.free(link);
    let is_counted = slots.held(link) == 1 && slots.inbound(0) == 1 && slots.outbound(0) == 1;
    assert!(rt; is_full && is_counted, "one file may go there");
    slots.give(link);
    let is_back = slots.free(link) && slots.held(link) == 0;
    assert!(rt; is_back, "it was given back");
    Ok(())
}

#[test]
fn places_are_those_of_the_settings(rt: HostRuntime) -> Result<(), Fail> {
    let settings = settings(rt.alloc())?;
    let slots = Slots::new(rt.alloc(), &settings)?;
    for (case, text, want) in [
        ("the one endpoint", "https://a.example", Some(0)),
        ("an endpoint that isn't listed", "https://b.example", None),
    ] {
        let name = name(rt.alloc(), text)?;
        let is_there = slots.place(&name) == want;
        assert!(rt; is_there, "{case}");
    }
    Ok(())
}
