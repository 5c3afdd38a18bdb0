//! A worker's place: what it works with, its bench, its pass, and how it ended.
//! `station_data` of `specs/Workers.antt` is what contracts see of it.
//! Made by whoever starts workers, one for each; `end` is none until its worker has ended.
use crate::ends::WorkerEnd;
use crate::shop::Shop;
use fts_disk::Disk;
use fts_store::Store;
use fts_tables::{Clock, Words};
use fts_turnstile::Pass;
use fts_workers::{Bench, Hand};

/// What one worker has.
#[derive(Drop)]
pub struct Station<D: Disk, E: Store, C: Clock, W: Words> {
    pub hand: Hand<E, C, W>,
    pub bench: Bench,
    pub pass: Pass<Shop<D>>,
    pub end: Option<WorkerEnd>,
}
