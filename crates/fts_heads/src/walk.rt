//! Who leads, of a destination and a range of queues, and the line with these or without them.
ghost use Rattle.std.specs.Prelude.{◌≡◌, ◌<◌, ◌≤◌, ◌+◌, ◌&&◌, ◌||◌, not, true, false, IfSome, IfNone};
ghost use Rattle.ordered.specs.Orders.{has_key, put_by};
ghost use Rattle.fts_heads.specs.RipeFiles.{goes_by_group};
ghost use Rattle.fts_heads.specs.declared.ripe_file.RipeFile.{RipeFile};
ghost use Rattle.fts_heads.specs.declared.heads.TheConstants.{MOST_QUEUES};
ghost use Rattle.fts_heads.specs.Heads.{is_one, leads, is_lined, is_within};

use crate::counted::Counted;
use crate::crowd::Crowd;
use crate::heads::MOST_QUEUES;
use crate::ripe_file::{Lined, RipeFile};
use ordered::Key;

/// Who leads for a destination in the first queue of a range that has files for it. None where no queue of the range has.
fn next_head(files: &Crowd, dest: u32, from: u32, to: u32) -> Option<RipeFile>
    ensures past { IfSome result (λ head. (from ≤ head.queue) × (head.queue < to)) }
    ensures alone { IfSome result (λ head. (waiter : RipeFile)
        → (is_within dest from (head.queue + 1) waiter && leads files.now.keys waiter) ≡ is_one head waiter) }
    ensures none { IfNone result ((waiter : RipeFile) → (is_within dest from to waiter && leads files.now.keys waiter) ≡ false) }
{
    let _ = files.len();
    if from >= to {
        return None;
    }
    let start = RipeFile {
        queue: from,
        dest,
        rank: 0,
        file: 0,
    };
    match files.first_for(&start) {
        Some(found) => { if found.queue < to { Some(found) } else { None } }
        None => None,
    }
}

/// Whether a file will lead its queue and destination once it comes in. Then who led there before leaves the line; else nobody leads or leads no more.
pub fn make_way(files: &Crowd, line: &mut Counted, file: &RipeFile) -> bool
    requires queue { file.now.queue < MOST_QUEUES }
    requires stand { (waiter : RipeFile) → (is_within file.now.dest file.now.queue (file.now.queue + 1) waiter && leads files.now.keys waiter) ≡ true
        → is_lined line.old.keys waiter ≡ true }
    ensures settled { result ≡ false → (waiter : RipeFile)
        → leads (put_by goes_by_group file.now files.now.keys) waiter ≡ leads files.now.keys waiter }
    ensures stays { result ≡ false → line.new ≡ line.old }
    ensures leads { result ≡ true → leads (put_by goes_by_group file.now files.now.keys) file.now ≡ true }
    ensures left { result ≡ true → (waiter : RipeFile) → is_lined line.new.keys waiter
        ≡ (is_lined line.old.keys waiter && not (is_within file.now.dest file.now.queue (file.now.queue + 1) waiter && leads files.now.keys waiter)) }
    ensures room { line.new.room ≡ line.old.room }
{
    let _ = files.len();
    match next_head(files, file.dest, file.queue, file.queue + 1) {
        Some(head) => {
            if head.is_before(file) {
                return false;
            }
            line.remove(&Lined { waiter: head });
            true
        }
        None => true,
    }
}

/// Those who lead for a destination in a range of queues leave the line, where they all stand in it.
pub fn leave(files: &Crowd, line: &mut Counted, dest: u32, from: u32, to: u32)
    requires range { from ≤ to }
    requires stand { (waiter : RipeFile) → (is_within dest from to waiter && leads files.now.keys waiter) ≡ true
        → is_lined line.old.keys waiter ≡ true }
    ensures lined { (waiter : RipeFile) → is_lined line.new.keys waiter
        ≡ (is_lined line.old.keys waiter && not (is_within dest from to waiter && leads files.now.keys waiter)) }
    ensures room { line.new.room ≡ line.old.room }
{
    let mut queue = from;
    while let Some(head) = next_head(files, dest, queue, to) {
        line.remove(&Lined { waiter: head });
        queue = head.queue + 1;
    }
}

/// Those who lead for a destination in a range of queues come into the line, where none of them stands in it.
pub fn enter(files: &Crowd, line: &mut Counted, dest: u32, from: u32, to: u32)
    requires range { from ≤ to }
    requires apart { (waiter : RipeFile) → (is_within dest from to waiter && leads files.now.keys waiter) ≡ true
        → is_lined line.old.keys waiter ≡ false }
    requires wait { (waiter : RipeFile) → is_lined line.old.keys waiter ≡ true → has_key goes_by_group waiter files.now.keys ≡ true }
    requires room { files.now.room ≤ line.old.room }
    ensures lined { (waiter : RipeFile) → is_lined line.new.keys waiter
        ≡ (is_lined line.old.keys waiter || (is_within dest from to waiter && leads files.now.keys waiter)) }
    ensures room { line.new.room ≡ line.old.room }
{
    let _ = files.len();
    let mut queue = from;
    while let Some(head) = next_head(files, dest, queue, to) {
        let _ = line.files().len();
        line.insert(Lined { waiter: head });
        queue = head.queue + 1;
    }
}

/// Who leads in a queue for a destination comes into the line, where nobody of them stands in it.
pub fn follow(files: &Crowd, line: &mut Counted, dest: u32, queue: u32)
    requires last { queue < MOST_QUEUES }
    requires apart { (waiter : RipeFile) → (is_within dest queue (queue + 1) waiter && leads files.now.keys waiter) ≡ true
        → is_lined line.old.keys waiter ≡ false }
    requires wait { (waiter : RipeFile) → is_lined line.old.keys waiter ≡ true → has_key goes_by_group waiter files.now.keys ≡ true }
    requires room { files.now.room ≤ line.old.room }
    ensures lined { (waiter : RipeFile) → is_lined line.new.keys waiter
        ≡ (is_lined line.old.keys waiter || (is_within dest queue (queue + 1) waiter && leads files.now.keys waiter)) }
    ensures room { line.new.room ≡ line.old.room }
{
    let _ = files.len();
    let _ = line.files().len();
    if let Some(head) = next_head(files, dest, queue, queue + 1) {
        line.insert(Lined { waiter: head });
    }
}
