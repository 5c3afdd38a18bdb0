//! How each job stands, in order of number, and beside that for each state the places of the jobs that are in it: the next job in a state is found, and
//! those in a state are counted, without a walk over the others.
//! Contracts see how the jobs stand, and the room. Kept in its type (`AreJobStates`): the places of a state are those of its jobs, in order.
//! Order: `make_room` before `add`. That and `set` take no memory.
ghost use Rattle.std.specs.Prelude.{◌≡◌, ◌≢◌, ℕ, ◌<◌, ◌≤◌, ◌++◌, ◌∷◌, [], length, drop, count_by, slice_get, slice_set, Some, nat_lt, true, false, OnOk, OnErr};
ghost use Rattle.std.specs.List.{position_from};
ghost use Rattle.ordered.specs.Orders.{put_by, without, has_key, first_from};
ghost use Rattle.fts_desk.specs.JobLists.{rank, is_among, is_at, places_at, with_keys, with_room, least_of};

use fts_tables::{JobState, Memory};
use ordered::{Key, Ordered};
use std::alloc::Global;
use std::marker::Model;

/// How many states a job may have.
pub const JOB_STATES: usize = 6;

/// How a job stands: its state, how many of its files wait or run, and how many of them run or are settled.
#[derive(Clone, Copy)]
pub struct Progress {
    pub state: JobState,
    pub live: u32,
    pub begun: u32,
}

/// The place of a job, from 0.
#[derive(Clone, Copy)]
struct JobPlace {
    place: u32,
}

impl Model for JobPlace {
    ghost use Rattle.std.specs.Prelude.{ℕ};

    ghost Value = { ℕ };

    ghost view = { λ job. job.place };

    ghost inverse = { λ place. record { place = place } };
}

impl Key for JobPlace {
    ghost use Rattle.std.specs.Prelude.{nat_lt};
    ghost use Rattle.fts_desk.specs.PlaceOrder.{places_are_ordered};

    ghost before = { nat_lt };

    fn is_before(&self, other: &JobPlace) -> bool {
        self.place < other.place
    }

    ghost order = { places_are_ordered };
}

/// How jobs 1, 2, 3 and so on stand, and the places of those in each state.
pub struct JobStates {
    jobs: Vec<Progress>,
    by_rank: [Ordered<JobPlace>; JOB_STATES],
    room: u32,
}

impl Drop for JobStates {
    fn drop(self) {
        let JobStates {
            jobs: _,
            by_rank: _,
            room: _,
        } = self;
    }
}

impl Model for JobStates {
    ghost use Rattle.fts_desk.specs.JobLists.{JobList};

    ghost Value = { JobList };

    ghost use Rattle.fts_desk.specs.JobStates.{job_list, AreJobStates};

    ghost view = { job_list };

    ghost invariant = { AreJobStates };
}

/// The place of a state among all states.
pub fn rank(state: JobState) -> usize
    ensures rank { result ≡ rank state }
    ensures inside { result < 6 }
{
    match state {
        JobState::Submitted => 0,
        JobState::Active => 1,
        JobState::Finished => 2,
        JobState::FinishedDirty => 3,
        JobState::Failed => 4,
        JobState::Canceled => 5,
    }
}

/// The lesser of two places, of those that are there.
fn sooner(one: Option<u32>, other: Option<JobPlace>) -> Option<u32>
    ensures least { result ≡ least_of one other }
{
    match other {
        None => one,
        Some(other) => match one {
            None => Some(other.place),
            Some(one) => Some(one.min(other.place)),
        },
    }
}

/// Puts a place in at a rank.
fn put_place(by_rank: &mut [Ordered<JobPlace>; JOB_STATES], at: usize, place: u32)
    requires inside { at < 6 }
    requires room { length (places_at by_rank.old at).keys < (places_at by_rank.old at).room }
    requires absent { has_key nat_lt place (places_at by_rank.old at).keys ≡ false }
    ensures here { places_at by_rank.new at ≡ with_keys (put_by nat_lt place (places_at by_rank.old at).keys) (places_at by_rank.old at) }
    ensures others { (other : ℕ) → other ≢ at → places_at by_rank.new other ≡ places_at by_rank.old other }
{
    by_rank[at].insert(JobPlace { place });
}

/// Takes a place out at a rank.
fn take_place(by_rank: &mut [Ordered<JobPlace>; JOB_STATES], at: usize, place: u32)
    requires inside { at < 6 }
    requires there { has_key nat_lt place (places_at by_rank.old at).keys ≡ true }
    ensures here { places_at by_rank.new at ≡ with_keys (without nat_lt place (places_at by_rank.old at).keys) (places_at by_rank.old at) }
    ensures others { (other : ℕ) → other ≢ at → places_at by_rank.new other ≡ places_at by_rank.old other }
{
    by_rank[at].remove(&JobPlace { place });
}

/// Whether there is a job at a place, and in one of these states: then it is the first from there on.
fn is_asked_at(jobs: &[Progress], asked: &[bool; JOB_STATES], place: u32) -> bool
    ensures first { result ≡ true → position_from (λ job. is_among asked.now job.state) place (drop place jobs.now) ≡ Some place }
{
    let place = place as usize;
    place < jobs.len() && asked[rank(jobs[place].state)]
}

/// The first place from one on at a rank.
fn first_at(by_rank: &[Ordered<JobPlace>; JOB_STATES], at: usize, from: u32) -> Option<JobPlace>
    requires inside { at < 6 }
    ensures place { result ≡ first_from nat_lt from (places_at by_rank.now at).keys }
{
    by_rank[at].first_from(&JobPlace { place: from })
}

/// Makes room for so many places at a rank.
fn make_room_at(
    by_rank: &mut [Ordered<JobPlace>; JOB_STATES],
    at: usize,
    room: usize,
) -> Result<(), Memory>
    requires inside { at < 6 }
    ensures err { OnErr result (by_rank.new ≡ by_rank.old) }
    ensures here { OnOk result (places_at by_rank.new at ≡ with_room room (places_at by_rank.old at)) }
    ensures others { (other : ℕ) → other ≢ at → places_at by_rank.new other ≡ places_at by_rank.old other }
{
    by_rank[at].make_room(room)?;
    Ok(())
}

/// Makes room for so many places at each rank.
fn make_room_by_rank(
    by_rank: &mut [Ordered<JobPlace>; JOB_STATES],
    room: usize,
) -> Result<(), Memory>
    ensures keys { (at : ℕ) → (places_at by_rank.new at).keys ≡ (places_at by_rank.old at).keys }
    ensures least { (at : ℕ) → (places_at by_rank.old at).room ≤ (places_at by_rank.new at).room }
    ensures room { OnOk result ((at : ℕ) → at < 6 → room ≤ (places_at by_rank.new at).room) }
{
    for at in 0..JOB_STATES {
        make_room_at(by_rank, at, room)?;
    }
    Ok(())
}

impl JobStates {
    /// No job, and no room. What grows later takes its memory from `alloc`.
    pub fn new(alloc: Global) -> JobStates
        ensures jobs { result ≡ record { jobs = []; room = 0 } }
    {
        JobStates {
            jobs: Vec::new(alloc),
            by_rank: [
                Ordered::new(alloc),
                Ordered::new(alloc),
                Ordered::new(alloc),
                Ordered::new(alloc),
                Ordered::new(alloc),
                Ordered::new(alloc),
            ],
            room: 0,
        }
    }

    /// Makes room for one job more than there are, where there is none. How the jobs stand stays as it is, also at an `Err`.
    pub fn make_room(&mut self) -> Result<(), Memory>
        ensures jobs { self.new.jobs ≡ self.old.jobs }
        ensures room { OnOk result (length self.new.jobs < self.new.room) }
    {
        if self.jobs.len() < self.room as usize {
            return Ok(());
        }
        if self.room == u32::MAX {
            return Err(Memory);
        }
        self.jobs.reserve(1)?;
        make_room_by_rank(&mut self.by_rank, self.room as usize + 1)?;
        self.room += 1;
        Ok(())
    }

    /// How the next job stands, in room that is there.
    pub fn add(&mut self, job: Progress)
        requires room { length self.old.jobs < self.old.room }
        ensures jobs { self.new ≡ record self.old { jobs = self.old.jobs ++ job ∷ [] } }
    {
        let place = self.jobs.len() as u32;
        put_place(&mut self.by_rank, rank(job.state), place);
        self.jobs.push_reserved(job);
    }

    /// The job at a place stands so from now on.
    pub fn set(&mut self, place: u32, now: Progress)
        requires inside { place < length self.old.jobs }
        ensures jobs { self.new ≡ record self.old { jobs = slice_set self.old.jobs place now } }
    {
        let was = rank(self.jobs[place as usize].state);
        let is = rank(now.state);
        if was != is {
            take_place(&mut self.by_rank, was, place);
            put_place(&mut self.by_rank, is, place);
        }
        self.jobs[place as usize] = now;
    }

    /// How the job at a place stands.
    pub fn get(&self, place: u32) -> Progress
        requires inside { place < length self.now.jobs }
        ensures job { slice_get self.now.jobs place ≡ Some result }
    {
        self.jobs[place as usize]
    }

    /// The first place from one on of a job in one of these states, which are told by their ranks. None exactly where there is none.
    pub fn next(&self, asked: &[bool; JOB_STATES], from: u32) -> Option<u32>
        ensures place { result ≡ position_from (λ job. is_among asked.now job.state) from (drop from self.now.jobs) }
    {
        if is_asked_at(&self.jobs, asked, from) {
            return Some(from);
        }
        let mut found = None;
        for at in 0..JOB_STATES {
            if asked[at] {
                found = sooner(found, first_at(&self.by_rank, at, from));
            }
        }
        found
    }

    /// How many jobs are in a state.
    pub fn count(&self, state: JobState) -> usize
        ensures count { result ≡ count_by (is_at (rank state)) self.now.jobs }
    {
        self.by_rank[rank(state)].len()
    }
}
