//! A file's key in the set of all files that wait, what that key leaves out, and the file of both.
//! A key has four numbers of 32 bits: a file whose moment has come doesn't need its moment there, and one that waits for it doesn't need queue and rank.
ghost use Rattle.std.specs.Prelude.{◌≡◌, ◌<◌, ◌≤◌, ◌+◌, ◌*◌, length};
ghost use Rattle.fts_queue.specs.WaitingData.{is_ripe};
ghost use Rattle.fts_line.specs.LineData.{IsInside, IsKnown, dest_of};
ghost use Rattle.fts_line.specs.Keys.{queue_of, link_at, whole_of, ripe_of, later_of, key_of, rest_of, waiter_at, is_later, file_of, waiter_of};

use fts_heads::RipeFile;
use fts_queue::Waiter;
use fts_tables::LinkAt;

/// Stands for the destination of a file whose moment has not come. No destination has this number.
pub const LATER: u32 = 4_294_967_295;

/// How many numbers 32 bits have.
const HALF: u64 = 4_294_967_296;

/// The number of a file's destination.
pub fn dest_of(dests: &[u32], file: u32) -> u32
    ensures dest { result ≡ dest_of dests.now file }
{
    match dests.get((file as usize).saturating_sub(1)) {
        Some(dest) => *dest,
        None => 0,
    }
}

/// The number of a queue.
pub fn queue_of(link: LinkAt, activity: u16) -> u32
    requires inside { IsInside link activity }
    ensures queue { result ≡ queue_of link activity }
{
    (u32::from(link.source) * 256 + u32::from(link.dest)) * 256 + u32::from(activity)
}

/// The number of the block of a link's queues.
pub fn block_of(link: LinkAt) -> usize
    requires inside { IsInside link 0 }
    ensures block { result ≡ link.source * 256 + link.dest }
{
    usize::from(link.source) * 256 + usize::from(link.dest)
}

/// Two numbers of 32 bits in one.
fn whole_of(high: u32, low: u32) -> u64
    ensures whole { result ≡ whole_of high low }
{
    u64::from(high) * HALF + u64::from(low)
}

/// Whether a key is that of a file whose moment has not come.
pub fn is_later(key: &RipeFile) -> bool
    ensures answer { result ≡ is_later key.now }
{
    key.dest == LATER
}

/// When the moment of a file comes that waits for it.
pub fn moment_of(key: &RipeFile) -> u64
    ensures moment { result ≡ whole_of key.now.queue key.now.rank }
{
    whole_of(key.queue, key.rank)
}

/// A file as it stands once its moment has come.
fn ripe_of(dests: &[u32], waiter: &Waiter) -> RipeFile
    requires inside { IsInside waiter.now.link waiter.now.activity }
    ensures file { result ≡ ripe_of dests.now waiter.now }
{
    RipeFile {
        queue: queue_of(waiter.link, waiter.activity),
        dest: dest_of(dests, waiter.file),
        rank: u32::MAX - waiter.priority,
        file: waiter.file,
    }
}

/// A file as it stands before.
fn later_of(waiter: &Waiter) -> RipeFile
    ensures file { result ≡ later_of waiter.now }
{
    RipeFile {
        queue: (waiter.not_before / HALF) as u32,
        dest: LATER,
        rank: (waiter.not_before % HALF) as u32,
        file: waiter.file,
    }
}

/// A file as it stands at a moment.
pub fn key_of(dests: &[u32], waiter: &Waiter, moment: u64) -> RipeFile
    requires inside { IsInside waiter.now.link waiter.now.activity }
    ensures key { result ≡ key_of moment dests.now waiter.now }
{
    if waiter.not_before <= moment {
        ripe_of(dests, waiter)
    } else {
        later_of(waiter)
    }
}

/// What a file's key leaves out at a moment.
pub fn rest_of(waiter: &Waiter, moment: u64) -> u64
    requires inside { IsInside waiter.now.link waiter.now.activity }
    ensures rest { result ≡ rest_of moment waiter.now }
{
    if waiter.not_before <= moment {
        waiter.not_before
    } else {
        whole_of(
            queue_of(waiter.link, waiter.activity),
            u32::MAX - waiter.priority,
        )
    }
}

/// The link of a queue.
pub fn link_at(queue: u32) -> LinkAt
    ensures link { result ≡ link_at queue }
{
    LinkAt {
        source: (queue / 65_536) as u16,
        dest: (queue / 256 % 256) as u16,
    }
}

/// The file of a number, a queue, a rank and a moment.
fn waiter_at(file: u32, queue: u32, rank: u32, moment: u64) -> Waiter
    ensures waiter { result ≡ waiter_at file queue rank moment }
{
    Waiter {
        file,
        link: link_at(queue),
        activity: (queue % 256) as u16,
        priority: u32::MAX - rank,
        not_before: moment,
    }
}

/// The file of a key, by what the keys leave out.
pub fn waiter_of(rests: &[u64], key: &RipeFile) -> Waiter
    ensures waiter { result ≡ waiter_of rests.now key.now }
{
    let rest = match rests.get((key.file as usize).saturating_sub(1)) {
        Some(rest) => *rest,
        None => 0,
    };
    if is_later(key) {
        waiter_at(
            key.file,
            (rest / HALF) as u32,
            (rest % HALF) as u32,
            moment_of(key),
        )
    } else {
        waiter_at(key.file, key.queue, key.rank, rest)
    }
}
