//! What a run that serves makes before its threads start: memory for all lanes and workers, and doors that are open.
//! Keeps: nothing is taken from the doors, and each of the first lanes has a listener (`open_doors`). Where memory is short, nothing was made; where
//! doors fail, their count of faults rose.
ghost use Rattle.std.specs.Prelude.{◌≡◌, ◌≤◌, ◌<◌, [], length, vec_capacity, IfOk, IfErr, IsOk, All};
ghost use Rattle.fts_tables.specs.Counts.{Rose};
ghost use Rattle.fts_service.specs.Openings.{AreOpened, FirstListen, IsOpened, SomeRose};

use crate::doors::{Doors, DoorsFailed};
use crate::lane::Lane;
use fts_tables::{Clock, Memory};
use fts_wire::Room;
use fts_workers::Bench;
use std::alloc::Global;

/// A room for each lane.
pub fn make_rooms(alloc: Global, count: u32) -> Result<Vec<Room>, Memory>
    ensures count { IfOk result (λ rooms. length rooms.items ≡ count) }
{
    let mut rooms = Vec::new(alloc);
    for _ in 0..count {
        let room = Room::new(alloc)?;
        if rooms.push(room).is_err() {
            return Err(Memory);
        }
    }
    Ok(rooms)
}

/// A bench of one place for each worker, which holds nothing.
pub fn make_benches(alloc: Global, count: u32) -> Result<Vec<Bench>, Memory>
    ensures count { IfOk result (λ benches. length benches.items ≡ count) }
    ensures held { IfOk result (λ benches. All (λ bench. bench.held ≡ []) benches.items) }
{
    let mut benches = Vec::new(alloc);
    for _ in 0..count {
        let bench = Bench::new(alloc, 1)?;
        if benches.push(bench).is_err() {
            return Err(Memory);
        }
    }
    Ok(benches)
}

/// Opens the doors of the first lanes, so many: the first one listens on a port or at its own socket, and the others take connections from where it does.
#[tactic(auto, using(crate::proofs::Opened::opened_none))]
pub fn open_doors<A: Doors, C: Clock>(
    lanes: &mut [Lane<A, C>],
    count: usize,
    port: Option<u16>,
) -> Result<(), DoorsFailed>
    requires some { 1 ≤ count }
    ensures opened { AreOpened A.Doors count lanes.old lanes.new }
    ensures listening { IsOk result → FirstListen A.Doors count lanes.new }
    ensures cause { IfErr result (λ fault. SomeRose A.Doors lanes.old lanes.new) }
{
    let Some((first, others)) = lanes.split_first_mut() else {
        return Ok(());
    };
    first.doors.listen(port)?;
    share_doors(&first.doors, others, count - 1)
}

// Has the first of these, so many, take connections from where the first doors do.
#[tactic(auto, using(crate::proofs::Opened::opened_none))]
fn share_doors<A: Doors, C: Clock>(
    first: &A,
    others: &mut [Lane<A, C>],
    count: usize,
) -> Result<(), DoorsFailed>
    ensures opened { AreOpened A.Doors count others.old others.new }
    ensures listening { IsOk result → FirstListen A.Doors count others.new }
    ensures cause { IfErr result (λ fault. SomeRose A.Doors others.old others.new) }
{
    if count == 0 {
        return Ok(());
    }
    let Some((next, rest)) = others.split_first_mut() else {
        return Ok(());
    };
    next.doors.share(first)?;
    share_doors(first, rest, count - 1)
}
