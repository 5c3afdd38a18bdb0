//! A look at the journal: one entry by its number, as its bytes stand there, with how many entries there are.
//! It is the only look that calls the disk: one read, wherever the entry stands, and no command. Over a disk that tells its contents the bytes are
//! the spelling of that entry (`AreShown`); over every disk number and count are exact.
ghost use Rattle.std.specs.Prelude.{◌≡◌, ◌<◌, Some, IfOk};
ghost use Rattle.fts_keep.specs.Keeps.{IsKeep};
ghost use Rattle.fts_keep.specs.Looking.{OnlyLooks};
ghost use Rattle.fts_routes.specs.Objects.{entry_object};
ghost use Rattle.fts_routes.specs.Planned.{LooksAtEntry};
ghost use Rattle.fts_routes.specs.Refusals.{shows};

use crate::objects::entry_value;
use crate::replies::{disk_failed, no_entry, no_memory, or_no_memory, shows};
use fts_disk::Disk;
use fts_keep::{Keep, KeepFault};
use fts_tables::Memory;
use fts_wire::Reply;
use std::alloc::Global;

/// What is said to a look at the entry of a number. 503 comes only where the disk's count of faults rose in this call, for an entry that is there.
pub fn look_at_entry<D: Disk>(alloc: Global, keep: &mut Keep<D>, number: Option<u64>) -> Reply
    ensures looks { LooksAtEntry D.state D.faults keep.old keep.new number result }
    ensures only { OnlyLooks D.state D.faults keep.old keep.new }
{
    let count = keep.desk().commands();
    match number {
        Some(number) if number < count as u64 => show_entry(alloc, keep, number as u32, count),
        _ => or_no_memory(alloc, no_entry(alloc)),
    }
}

/// The same of an entry that is there.
fn show_entry<D: Disk>(alloc: Global, keep: &mut Keep<D>, number: u32, count: u32) -> Reply
    requires kept { IsKeep D.state keep.old }
    requires counted { count ≡ keep.old.commands }
    requires there { number < count }
    ensures looks { LooksAtEntry D.state D.faults keep.old keep.new (Some number) result }
    ensures only { OnlyLooks D.state D.faults keep.old keep.new }
{
    let mut body = Vec::new(alloc);
    match keep.entry_bytes(number, &mut body) {
        Ok(()) => or_no_memory(alloc, entry_reply(alloc, &body, count, number)),
        Err(KeepFault::DiskFailed) => or_no_memory(alloc, disk_failed(alloc)),
        Err(KeepFault::Memory) => no_memory(alloc),
        // A look is refused by no rule and by no limit, and finds no damage.
        Err(KeepFault::Rule(_)) => unreachable!(),
        Err(KeepFault::JournalFull { .. }) => unreachable!(),
        Err(KeepFault::Damaged { .. }) => unreachable!(),
    }
}

/// The reply that shows an entry, of so many.
fn entry_reply(alloc: Global, body: &[u8], count: u32, number: u32) -> Result<Reply, Memory>
    ensures { IfOk result (λ reply. reply ≡ shows (entry_object body.now count number)) }
{
    let value = entry_value(alloc, body, count, number)?;
    shows(alloc, &value)
}
