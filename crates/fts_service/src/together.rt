//! How lanes and workers ended together: doors that failed go before all else, and of several workers' ends the worst one decides.
//! `served_end` of `specs/Served.antt` says it over all ends.
ghost use Rattle.std.specs.Prelude.{◌≡◌, map};
ghost use Rattle.std.specs.List.{list_any};
ghost use Rattle.fts_service.specs.Served.{are_doors_failed, severity_of, worse_of, worst_of, served_end};

use crate::doors::Doors;
use crate::lane::{Booth, LaneStop};
use fts_disk::Disk;
use fts_shop::{Station, WorkerEnd};
use fts_store::Store;
use fts_tables::{Clock, Words};

/// How lanes and workers ended together.
#[derive(Clone, Copy, Debug, PartialEq, Eq)]
pub enum ServedEnd {
    /// The doors of a lane failed.
    DoorsFailed,
    /// No doors failed, and this is the worst of the workers' ends.
    Worked { end: WorkerEnd },
}

// How bad an end is.
fn severity(end: WorkerEnd) -> u8
    ensures { result ≡ severity_of end }
{
    match end {
        WorkerEnd::Drained => 0,
        WorkerEnd::Stopped => 1,
        WorkerEnd::Memory => 2,
        WorkerEnd::JournalFull { used: _ } => 3,
        WorkerEnd::DiskFailed => 4,
    }
}

// The worse of two ends; of two that are alike the first.
fn worse(one: WorkerEnd, other: WorkerEnd) -> WorkerEnd
    ensures { result ≡ worse_of one other }
{
    if severity(one) < severity(other) {
        other
    } else {
        one
    }
}

// The worst end of workers that have ended.
fn worst<D: Disk, E: Store, C: Clock, W: Words>(stations: &[Station<D, E, C, W>]) -> WorkerEnd
    ensures { result ≡ worst_of (map (λ station. station.end) stations.now) }
{
    let mut worst = WorkerEnd::Drained;
    for station in stations.iter() {
        worst = worse(worst, station.end.unwrap_or(WorkerEnd::Drained));
    }
    worst
}

// Whether a lane's doors failed.
fn has_failed(end: Option<LaneStop>) -> bool
    ensures { result ≡ are_doors_failed end }
{
    match end {
        Some(LaneStop::DoorsFailed) => true,
        Some(LaneStop::NoMore | LaneStop::Enough { lines: _ }) | None => false,
    }
}

// Whether the doors of one of these failed.
fn any_failed<D: Disk, A: Doors, C: Clock>(booths: &[Booth<D, A, C>]) -> bool
    ensures { result ≡ list_any are_doors_failed (map (λ booth. booth.end) booths.now) }
{
    for booth in booths.iter() {
        if has_failed(booth.end) {
            return true;
        }
    }
    false
}

/// How these lanes and workers ended together.
pub fn served<D: Disk, A: Doors, E: Store, C: Clock, W: Words>(
    booths: &[Booth<D, A, C>],
    stations: &[Station<D, E, C, W>],
) -> ServedEnd
    ensures { result ≡ served_end (map (λ booth. booth.end) booths.now) (map (λ station. station.end) stations.now) }
{
    if any_failed(booths) {
        ServedEnd::DoorsFailed
    } else {
        ServedEnd::Worked {
            end: worst(stations),
        }
    }
}
