//! A turn of a worker on a file that may wait one hour, from the moment at which it is overdue and one second before. Moments are written by hand.
ghost use Rattle.std.specs.Prelude.{◌≡◌};

use super::bed::{keep, station, store};
use fts_disk::MemoryDisk;
use fts_shop::{Shop, Station, Turn, turn};
use fts_store::{MemoryStore, Store};
use fts_tables::{FileState, Memory, PlaceRef, Reason};
use fts_turnstile::Turnstile;
use fts_workers::NoGate;
use std::alloc::Global;
use std::sync::Wait;
use std::test::Fail;

const ONE_HOUR: &str =
    "{\"files\":[{\"sources\":[\"https://a.example/f1\"],\"destinations\":[\"https://b.example/f1\"]}],\"params\":{\"max_time_in_queue\":1}}";

const NO_LIMIT: &str =
    "{\"files\":[{\"sources\":[\"https://a.example/f1\"],\"destinations\":[\"https://b.example/f1\"]}]}";

/// Where a file stands.
#[derive(Clone, Copy, PartialEq, Eq)]
struct Stand {
    state: FileState,
    reason: Reason,
    attempt: u32,
}

/// What a turn ended with, where it left the file, and whether it copied it.
#[derive(Clone, Copy, PartialEq, Eq)]
struct Seen {
    end: Turn,
    stand: Option<Stand>,
    copied: bool,
}

/// Where the first file stands.
fn first_file(shop: &mut Shop<MemoryDisk>) -> Option<Stand>
    ensures { shop.new ≡ shop.old }
{
    let row = shop.keep().desk().rows().first()?;
    Some(Stand {
        state: row.state,
        reason: row.reason,
        attempt: row.attempt,
    })
}

/// Whether a store holds the file's destination, with three bytes.
fn is_copied(store: &mut MemoryStore) -> bool {
    let at = PlaceRef {
        endpoint: "https://b.example",
        path: "f1",
    };
    store.size(at) == Ok(Some(3))
}

/// One turn of a worker at this moment, with so many lanes left, on the file of a job that was submitted at moment 0.
fn turn_at<R: Wait>(
    rt: &R,
    alloc: Global,
    document: &str,
    now: u64,
    lanes: u32,
) -> Result<Seen, Memory> {
    let shop = Shop::new(keep(alloc, document)?, lanes);
    let Ok((lock, mut first)) = Turnstile::new(alloc, shop) else {
        return Err(Memory);
    };
    let pass = lock.split(&mut first);
    let station = station(alloc, pass, store(alloc)?, now)?;
    let Station {
        mut hand,
        mut bench,
        mut pass,
        end: _,
    } = station;
    let end = turn(rt, &lock, &mut pass, &mut hand, &mut bench, &NoGate);
    let stand = lock.with_turn(
        rt,
        &mut first,
        |shop: &mut Shop<MemoryDisk>| first_file(shop),
    );
    let copied = is_copied(&mut hand.store);
    Ok(Seen { end, stand, copied })
}

/// The file was claimed once, and copied.
const COPIED: Stand = Stand {
    state: FileState::Finished,
    reason: Reason::None,
    attempt: 1,
};

/// The file was never claimed, and is cancelled since its time is over.
const EXPIRED: Stand = Stand {
    state: FileState::Canceled,
    reason: Reason::Expired,
    attempt: 0,
};

/// A row: a sentence, a document, the moment, how many lanes are left, how the turn ends, and where it leaves the file.
type Row = (&'static str, &'static str, u64, u32, Turn, Stand);

const ROWS: [Row; 5] = [
    (
        "one second before",
        ONE_HOUR,
        3_599,
        0,
        Turn::Done { file: 1 },
        COPIED,
    ),
    (
        "when the hour is over",
        ONE_HOUR,
        3_600,
        0,
        Turn::Stopping,
        EXPIRED,
    ),
    (
        "while a lane is left",
        ONE_HOUR,
        3_600,
        1,
        Turn::Idle,
        EXPIRED,
    ),
    (
        "long after",
        ONE_HOUR,
        1_700_000_000,
        0,
        Turn::Stopping,
        EXPIRED,
    ),
    (
        "without a limit",
        NO_LIMIT,
        1_700_000_000,
        0,
        Turn::Done { file: 1 },
        COPIED,
    ),
];

#[test]
fn a_turn_claims_no_overdue_file(rt: HostRuntime) -> Result<(), Fail> {
    for (case, document, now, lanes, end, stand) in ROWS {
        let seen = turn_at(&rt, rt.alloc(), document, now, lanes)?;
        let wanted = Seen {
            end,
            stand: Some(stand),
            copied: stand == COPIED,
        };
        assert!(rt;
            seen == wanted,
            "{case}: the turn ends so, and leaves the file so"
        );
    }
    Ok(())
}
