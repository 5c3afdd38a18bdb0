//! Commands drawn from a seed: all ten kinds, with right and wrong numbers, over few endpoints, paths and activities, so that destinations
//! collide and limits bind. A command is drawn for a machine as it stands, so that jobs and files are often those that are there.
//! Moments rise by seconds, at times by hours, and fall back; an expiry comes about the second at which a file's hours are over.
use super::claims::is_listed;
use super::jobs::job_of;
use super::machine::PlainMachine;
use super::plain::{
    DEFAULT_ACTIVITY, PlainCommand, PlainEndpoint, PlainFile, PlainJob, PlainLink, PlainNewJob,
    PlainPlace, PlainRow, PlainSettings, PlainTerms, PlainWeight,
};
use fts_tables::{FileState, JobKind, Outcome, Strategy};
use rand_pcg::Lcg64Xsh32;
use rand_pcg::rand_core::Rng;
use std::alloc::{AllocError, Global};

/// So many endpoints and paths have a name.
const NAMES: u8 = 4;

/// So many seconds make an hour.
const HOUR: u32 = 3_600;

/// The last moment to which the clock rises by hours: from there on it goes by seconds.
const LAST_BY_HOURS: u64 = u64::MAX - 100;

/// The id 00000000-0000-4000-8000-000000000000, to which a job's number is added.
const STANDARD_IDS: u128 = 0x4000_8000_0000_0000_0000;

/// Draws commands.
#[derive(Drop)]
pub struct Generator {
    alloc: Global,
    random: Lcg64Xsh32,
    earliest: u64,
}

impl Generator {
    /// The commands of a seed, with moments that begin about the earliest.
    pub fn new(alloc: Global, seed: u64, earliest: u64) -> Generator {
        Generator {
            alloc,
            random: Lcg64Xsh32::new(seed, 1),
            earliest,
        }
    }

    /// A number below a bound, and 0 below none.
    fn below(&mut self, bound: u32) -> u32 {
        self.random.next_u32().checked_rem(bound).unwrap_or(0)
    }

    /// A small number below a bound.
    fn small(&mut self, bound: u8) -> u8 {
        u8::try_from(self.below(u32::from(bound))).unwrap_or(0)
    }

    /// Whether so many of a hundred come.
    fn is_among(&mut self, of_hundred: u32) -> bool {
        self.below(100) < of_hundred
    }

    /// A limit or a weight, from 1 to a bound.
    fn limit(&mut self, most: u32) -> u32 {
        self.below(most).saturating_add(1)
    }

    /// The next command for a machine as it stands.
    pub fn next(&mut self, machine: &PlainMachine) -> Result<PlainCommand, AllocError> {
        let now = self.moment(machine.moment().max(self.earliest));
        match self.below(100) {
            0..3 => self.restart(now),
            3..17 => self.submission(machine, now),
            17..19 => Ok(self.cancellation_of_job(machine, now)),
            19..23 => self.cancellation_of_file(machine, now),
            23..26 => Ok(self.priority(machine, now)),
            26..30 => Ok(self.ban(now)),
            30..36 => Ok(self.end_of_ban(machine, now)),
            36..43 => self.expiry(machine, now),
            43..73 => Ok(self.claim(now)),
            _ => self.report(machine, now),
        }
    }

    /// A moment that stays, rises or falls behind the last one, by seconds or by hours.
    fn moment(&mut self, last: u64) -> u64 {
        let step = u64::from(self.below(4));
        let hours = u64::from(self.below(3 * HOUR));
        match self.below(100) {
            0..40 => last,
            40..86 => last.saturating_add(step),
            86..90 => last.max(last.saturating_add(hours).min(LAST_BY_HOURS)),
            90..98 => last.saturating_sub(step),
            _ => last.saturating_sub(hours),
        }
    }

    fn restart(&mut self, now: u64) -> Result<PlainCommand, AllocError> {
        let settings = self.settings()?;
        Ok(PlainCommand::Restart { now, settings })
    }

    fn settings(&mut self) -> Result<PlainSettings, AllocError> {
        let default_max_active = self.limit(3);
        let endpoints = self.endpoints()?;
        let links = self.links(&endpoints)?;
        let weights = self.weights()?;
        Ok(PlainSettings {
            default_max_active,
            endpoints,
            links,
            weights,
        })
    }

    /// Two to four endpoints, in an order that isn't that of their names.
    fn endpoints(&mut self) -> Result<Vec<PlainEndpoint>, AllocError> {
        let mut endpoints = Vec::new(self.alloc);
        let first = self.small(NAMES);
        let step = if self.is_among(50) { 1u8 } else { 3 };
        let count = self.small(3).saturating_add(2);
        for place in 0..count {
            let name = first.wrapping_add(place.wrapping_mul(step)) % NAMES;
            let inbound = self.limit(3);
            let outbound = self.limit(3);
            endpoints.push(PlainEndpoint {
                name,
                inbound,
                outbound,
            })?;
        }
        Ok(endpoints)
    }

    /// A limit of its own for some links of listed endpoints.
    fn links(&mut self, endpoints: &[PlainEndpoint]) -> Result<Vec<PlainLink>, AllocError> {
        let mut links = Vec::new(self.alloc);
        for source in endpoints {
            self.add_links(&mut links, source.name, endpoints)?;
        }
        Ok(links)
    }

    /// Adds some links from an endpoint.
    fn add_links(
        &mut self,
        links: &mut Vec<PlainLink>,
        source: u8,
        endpoints: &[PlainEndpoint],
    ) -> Result<(), AllocError> {
        for dest in endpoints {
            let max_active = self.limit(3);
            if self.is_among(30) {
                links.push(PlainLink {
                    source,
                    dest: dest.name,
                    max_active,
                })?;
            }
        }
        Ok(())
    }

    /// The default activity, before or behind some of the others.
    fn weights(&mut self) -> Result<Vec<PlainWeight>, AllocError> {
        let mut weights = Vec::new(self.alloc);
        let is_first = self.is_among(50);
        if is_first {
            weights.push(self.weight(DEFAULT_ACTIVITY))?;
        }
        for activity in 1..3 {
            if self.is_among(60) {
                weights.push(self.weight(activity))?;
            }
        }
        if !is_first {
            weights.push(self.weight(DEFAULT_ACTIVITY))?;
        }
        Ok(weights)
    }

    fn weight(&mut self, activity: u8) -> PlainWeight {
        PlainWeight {
            activity,
            weight: self.limit(5),
        }
    }

    fn submission(&mut self, machine: &PlainMachine, now: u64) -> Result<PlainCommand, AllocError> {
        let job = self.job(machine)?;
        Ok(PlainCommand::Submit { now, job })
    }

    fn job(&mut self, machine: &PlainMachine) -> Result<PlainNewJob, AllocError> {
        let id = self.id(machine);
        let kind = match self.below(3) {
            0 => JobKind::Plain,
            1 => JobKind::Replica,
            _ => JobKind::Multihop,
        };
        let strategy = if self.is_among(60) {
            Strategy::Auto
        } else {
            Strategy::Orderly
        };
        let files = self.files(kind)?;
        let terms = PlainTerms {
            kind,
            strategy,
            priority: self.limit(5),
            retry: self.below(3),
            delay: u64::from(self.below(9)),
            queue_hours: self.hours(),
        };
        Ok(PlainNewJob { id, terms, files })
    }

    /// No id mostly, one of few, or one that stands for a number.
    fn id(&mut self, machine: &PlainMachine) -> Option<u128> {
        let last = u32::try_from(machine.jobs().len()).unwrap_or(0);
        match self.below(10) {
            0..7 => None,
            7..9 => Some(u128::from(self.below(40))),
            _ => {
                let number = self.below(last.saturating_add(20));
                Some(STANDARD_IDS.saturating_add(u128::from(number)))
            }
        }
    }

    /// No limit mostly, few hours, or any that a job may have.
    fn hours(&mut self) -> u32 {
        match self.below(10) {
            0..5 => 0,
            5..9 => self.limit(3),
            _ => self.below(8_761),
        }
    }

    fn files(&mut self, kind: JobKind) -> Result<Vec<PlainFile>, AllocError> {
        match kind {
            JobKind::Plain => self.plain_files(),
            JobKind::Replica => self.sources(),
            JobKind::Multihop => self.hops(),
        }
    }

    /// One to four files, each for itself.
    fn plain_files(&mut self) -> Result<Vec<PlainFile>, AllocError> {
        let mut files = Vec::new(self.alloc);
        for _ in 0..self.limit(4) {
            let source = self.place();
            let dest = self.place_beside(source);
            let activity = self.small(4);
            files.push(self.file(source, dest, activity))?;
        }
        Ok(files)
    }

    /// Two to four sources of one file.
    fn sources(&mut self) -> Result<Vec<PlainFile>, AllocError> {
        let mut files = Vec::new(self.alloc);
        let dest = self.place();
        let activity = self.small(4);
        for _ in 0..self.limit(3).saturating_add(1) {
            let source = self.place_beside(dest);
            files.push(PlainFile {
                source,
                dest,
                size: 0,
                activity,
            })?;
        }
        Ok(files)
    }

    /// One to four hops.
    fn hops(&mut self) -> Result<Vec<PlainFile>, AllocError> {
        let mut files = Vec::new(self.alloc);
        let mut source = self.place();
        for _ in 0..self.limit(4) {
            let dest = self.place_beside(source);
            let activity = self.small(4);
            files.push(self.file(source, dest, activity))?;
            source = dest;
        }
        Ok(files)
    }

    fn file(&mut self, source: PlainPlace, dest: PlainPlace, activity: u8) -> PlainFile {
        PlainFile {
            source,
            dest,
            size: u64::from(self.below(9)),
            activity,
        }
    }

    fn place(&mut self) -> PlainPlace {
        PlainPlace {
            endpoint: self.small(NAMES),
            path: self.small(NAMES),
        }
    }

    /// A place that is another than this one.
    fn place_beside(&mut self, other: PlainPlace) -> PlainPlace {
        let place = self.place();
        if place == other {
            PlainPlace {
                path: place.path.wrapping_add(1) % NAMES,
                ..place
            }
        } else {
            place
        }
    }

    /// A number up to two above a last one, and mostly one of the last.
    fn number(&mut self, last: usize) -> u32 {
        let last = u32::try_from(last).unwrap_or(0);
        if self.is_among(70) {
            last.saturating_sub(self.below(12))
        } else {
            self.below(last.saturating_add(3))
        }
    }

    fn cancellation_of_job(&mut self, machine: &PlainMachine, now: u64) -> PlainCommand {
        PlainCommand::CancelJob {
            now,
            job: self.number(machine.jobs().len()),
        }
    }

    /// A file that is copied, or any one, mostly with its job.
    fn cancellation_of_file(
        &mut self,
        machine: &PlainMachine,
        now: u64,
    ) -> Result<PlainCommand, AllocError> {
        let any = self.number(machine.rows().len());
        let row = match self.active_row(machine)? {
            Some(row) if self.is_among(50) => Some(row),
            Some(_) | None => machine.rows().iter().copied().find(|row| row.id == any),
        };
        let other = self.number(machine.jobs().len());
        match row {
            Some(row) if self.is_among(85) => Ok(PlainCommand::CancelFile {
                now,
                job: row.job,
                file: row.id,
            }),
            Some(_) | None => Ok(PlainCommand::CancelFile {
                now,
                job: other,
                file: any,
            }),
        }
    }

    fn priority(&mut self, machine: &PlainMachine, now: u64) -> PlainCommand {
        PlainCommand::SetPriority {
            now,
            job: self.number(machine.jobs().len()),
            priority: self.limit(5),
        }
    }

    /// A ban of any storage, listed or not, mostly one after which the files there wait.
    fn ban(&mut self, now: u64) -> PlainCommand {
        PlainCommand::Ban {
            now,
            storage: self.small(NAMES),
            cancel: self.is_among(35),
        }
    }

    /// The end of a ban, mostly of one that there is, and at times of one that the settings no longer list.
    fn end_of_ban(&mut self, machine: &PlainMachine, now: u64) -> PlainCommand {
        let any = self.small(NAMES);
        let place = self.below(u32::try_from(machine.banned().len()).unwrap_or(0));
        let banned = machine.banned().get(place as usize).copied();
        let storage = match self.below(10) {
            0..4 => unlisted_ban(machine).or(banned),
            4..8 => banned,
            _ => None,
        };
        PlainCommand::Unban {
            now,
            storage: storage.unwrap_or(any),
        }
    }

    /// An expiry at any moment, about the second at which the hours of a file that waits are over, or by a clock that is hours late.
    fn expiry(&mut self, machine: &PlainMachine, now: u64) -> Result<PlainCommand, AllocError> {
        let waiting = limited_jobs(self.alloc, machine)?;
        let place = self.below(u32::try_from(waiting.len()).unwrap_or(0));
        let late = u64::from(self.below(3 * HOUR));
        let now = match (waiting.get(place as usize), self.below(10)) {
            (Some(job), 0..5) => self.about_end(job),
            (_, 5..9) => machine.moment().saturating_sub(late),
            (_, _) => now,
        };
        Ok(PlainCommand::Expire { now })
    }

    /// The second at which the hours of a job are over, or the one before or behind it.
    fn about_end(&mut self, job: &PlainJob) -> u64 {
        match self.below(3) {
            0 => end_of(job).saturating_sub(1),
            1 => end_of(job),
            _ => end_of(job).saturating_add(1),
        }
    }

    fn claim(&mut self, now: u64) -> PlainCommand {
        PlainCommand::Claim {
            now,
            word: self.random.next_u64(),
        }
    }

    /// A row that is copied, where there is one.
    fn active_row(&mut self, machine: &PlainMachine) -> Result<Option<PlainRow>, AllocError> {
        let active = active_rows(self.alloc, machine.rows())?;
        let place = self.below(u32::try_from(active.len()).unwrap_or(0));
        Ok(active.get(place as usize).copied())
    }

    /// A report of a file that is copied, mostly with its attempt, or of any file.
    fn report(&mut self, machine: &PlainMachine, now: u64) -> Result<PlainCommand, AllocError> {
        let outcome = self.outcome();
        let any = self.number(machine.rows().len());
        match self.active_row(machine)? {
            Some(row) if self.is_among(90) => Ok(PlainCommand::Report {
                now,
                file: row.id,
                attempt: self.attempt(&row),
                outcome,
            }),
            Some(_) | None => Ok(PlainCommand::Report {
                now,
                file: any,
                attempt: self.below(3),
                outcome,
            }),
        }
    }

    /// A row's attempt, or at times the one before or behind it.
    fn attempt(&mut self, row: &PlainRow) -> u32 {
        match self.below(20) {
            0 => row.attempt.saturating_sub(1),
            1 => row.attempt.saturating_add(1),
            _ => row.attempt,
        }
    }

    fn outcome(&mut self) -> Outcome {
        let number = u64::from(self.below(9));
        let digest = [self.small(200); 16];
        match self.below(12) {
            0 => Outcome::SourceMissing,
            1 => Outcome::DestinationExists,
            2 => Outcome::SourceSize { seen: number },
            3 => Outcome::SourceDigest { seen: digest },
            4 => Outcome::ReadBackDiffers { at: number },
            5 => Outcome::StoreFailed,
            6 => Outcome::Stopped,
            _ => Outcome::Verified {
                size: number,
                digest,
            },
        }
    }
}

/// The first banned storage that the settings don't list.
fn unlisted_ban(machine: &PlainMachine) -> Option<u8> {
    let settings = machine.settings()?;
    machine
        .banned()
        .iter()
        .copied()
        .find(|storage| !is_listed(settings, *storage))
}

/// The rows that are copied.
fn active_rows(alloc: Global, rows: &[PlainRow]) -> Result<Vec<PlainRow>, AllocError> {
    rows.iter()
        .copied()
        .filter(|row| row.state == FileState::Active)
        .collect(alloc)
}

/// The jobs of few hours of which a file waits, but those whose hours end past the moments that the clock rises to by hours.
fn limited_jobs(alloc: Global, machine: &PlainMachine) -> Result<Vec<PlainJob>, AllocError> {
    machine
        .rows()
        .iter()
        .filter(|row| row.state == FileState::Submitted)
        .filter_map(|row| job_of(machine.jobs(), row.job))
        .filter(|job| 0 < job.terms.queue_hours && job.terms.queue_hours <= 3)
        .filter(|job| end_of(job) < LAST_BY_HOURS)
        .collect(alloc)
}

/// The second at which the hours of a job are over.
fn end_of(job: &PlainJob) -> u64 {
    job.submitted_at
        .saturating_add(u64::from(job.terms.queue_hours.saturating_mul(HOUR)))
}
