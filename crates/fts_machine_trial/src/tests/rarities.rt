//! Rare cases of bans and of hours in the queue: those in which one of both readings is likely to slip. Each is to come up in a trial.
//! A case is told from a command, its answer, the rows before it and the plain machine behind it.
use super::claims::is_listed;
use super::commands::endpoint_number;
use super::expiries::is_over;
use super::jobs::job_of;
use super::machine::PlainMachine;
use super::plain::PlainRow;
use fts_tables::{Answer, Command, FileState, Refusal};
use std::alloc::{AllocError, Global};

/// A case that is rare.
#[derive(Clone, Copy, Debug)]
pub enum Rarity {
    /// A restart while a storage is banned, and one whose settings leave out such a storage.
    RestartedWithBans,
    RestartedWithoutABannedStorage,
    /// A ban of a storage that is banned, one that takes files along which wait elsewhere, and one beside a copy that goes on.
    BannedAgain,
    BannedWithWholeJobs,
    BannedBesideACopy,
    /// The end of a ban of a storage that isn't listed.
    UnbannedUnlisted,
    /// A claim while a ripe file waits at a banned storage: of another file, and of none.
    ClaimedBesideABan,
    IdleBesideABan,
    /// An expiry that takes files along that are not overdue, or files at a banned storage, or one that was tried before.
    ExpiredWithWholeJobs,
    ExpiredAtABan,
    ExpiredAfterAnAttempt,
    /// An expiry at the second at which the hours are over, one whose own moment is too early, and one at the end of all moments.
    ExpiredInTime,
    ExpiredByALateClock,
    ExpiredAtTheLastMoment,
    /// An expiry that is refused a second too early.
    ExpiredTooEarly,
}

/// So many are to come up.
const RARITIES: usize = 15;

/// All that are to come up.
const WANTED: [Rarity; RARITIES] = [
    Rarity::RestartedWithBans,
    Rarity::RestartedWithoutABannedStorage,
    Rarity::BannedAgain,
    Rarity::BannedWithWholeJobs,
    Rarity::BannedBesideACopy,
    Rarity::UnbannedUnlisted,
    Rarity::ClaimedBesideABan,
    Rarity::IdleBesideABan,
    Rarity::ExpiredWithWholeJobs,
    Rarity::ExpiredAtABan,
    Rarity::ExpiredAfterAnAttempt,
    Rarity::ExpiredInTime,
    Rarity::ExpiredByALateClock,
    Rarity::ExpiredAtTheLastMoment,
    Rarity::ExpiredTooEarly,
];

/// The rows, and how many bans there are.
#[derive(Drop)]
pub struct Before {
    rows: Vec<PlainRow>,
    bans: usize,
}

impl Before {
    /// What stands in the plain machine.
    pub fn of(alloc: Global, machine: &PlainMachine) -> Result<Before, AllocError> {
        Ok(Before {
            rows: machine.rows().iter().copied().collect(alloc)?,
            bans: machine.banned().len(),
        })
    }

    /// The rows as they stood.
    pub fn rows(&self) -> &[PlainRow] {
        &self.rows
    }

    /// The rows that waited and are CANCELED behind a command, as they stood.
    pub fn ended(&self, alloc: Global, after: &[PlainRow]) -> Result<Vec<PlainRow>, AllocError> {
        self.rows
            .iter()
            .copied()
            .zip(after)
            .filter(|(from, row)| from.state == FileState::Submitted
                && row.state == FileState::Canceled)
            .map(|(from, _)| from)
            .collect(alloc)
    }
}

/// A command and its answer, what stood before it, which of the rows that waited are CANCELED by it, and the plain machine behind it.
#[derive(Clone, Copy)]
pub struct Told<'a> {
    pub command: &'a Command,
    pub answer: &'a Result<Answer, Refusal>,
    pub before: &'a Before,
    pub ended: &'a [PlainRow],
    pub machine: &'a PlainMachine,
}

/// How often each rare case came.
#[derive(Drop)]
pub struct Rarities {
    counts: [u32; RARITIES],
}

impl Rarities {
    /// None came yet.
    pub fn new() -> Rarities {
        Rarities {
            counts: [0; RARITIES],
        }
    }

    /// Notes the cases that a command was.
    pub fn note(&mut self, told: Told) {
        for (rarity, count) in WANTED.iter().zip(self.counts.iter_mut()) {
            if told.is(*rarity) {
                *count = count.saturating_add(1);
            }
        }
    }

    /// The first case that came less than so often. The one at the last moment counts where moments rise to it.
    pub fn rarer_than(&self, often: u32, is_to_the_last: bool) -> Option<Rarity> {
        let (rarity, _) = WANTED
            .iter()
            .zip(&self.counts)
            .filter(|(rarity, _)| {
                is_to_the_last || !matches!(rarity, Rarity::ExpiredAtTheLastMoment)
            })
            .find(|(_, count)| **count < often)?;
        Some(*rarity)
    }
}

impl<'a> Told<'a> {
    /// Whether the command was such a case.
    fn is(&self, rarity: Rarity) -> bool {
        match rarity {
            Rarity::RestartedWithBans => self.is_restart() && !self.machine.banned().is_empty(),
            Rarity::RestartedWithoutABannedStorage => self.is_restart() && self.has_unlisted_ban(),
            Rarity::BannedAgain => self.is_banned()
                && self.machine.banned().len() == self.before.bans,
            Rarity::BannedWithWholeJobs => self.is_banned() && self.took_others_along(),
            Rarity::BannedBesideACopy => self.is_banned() && self.has_copy_at_storage(),
            Rarity::UnbannedUnlisted => self.is_unbanned() && !self.is_storage_listed(),
            Rarity::ClaimedBesideABan => self.is_claimed() && self.has_ripe_file_at_ban(),
            Rarity::IdleBesideABan => self.is_idle_claim() && self.has_ripe_file_at_ban(),
            Rarity::ExpiredWithWholeJobs => self.is_expired() && self.took_others_along(),
            Rarity::ExpiredAtABan => self.is_expired() && self.has_ended_at_ban(),
            Rarity::ExpiredAfterAnAttempt => self.is_expired() && self.has_ended_after_attempt(),
            Rarity::ExpiredInTime => self.is_expired()
                && !self.were_over(self.machine.moment().saturating_sub(1)),
            Rarity::ExpiredByALateClock => self.is_expired() && !self.were_over(self.own_moment()),
            Rarity::ExpiredAtTheLastMoment => self.is_expired() && self.has_ended_early(),
            Rarity::ExpiredTooEarly => self.is_nothing_overdue() && self.is_second_too_early(),
        }
    }

    fn is_restart(&self) -> bool {
        matches!(self.command, Command::Restart { .. })
    }

    fn is_banned(&self) -> bool {
        matches!(self.answer, Ok(Answer::Banned { .. }))
    }

    fn is_unbanned(&self) -> bool {
        matches!(self.answer, Ok(Answer::Unbanned))
    }

    fn is_claimed(&self) -> bool {
        matches!(self.answer, Ok(Answer::Claimed { .. }))
    }

    fn is_expired(&self) -> bool {
        matches!(self.answer, Ok(Answer::Expired { .. }))
    }

    fn is_idle_claim(&self) -> bool {
        matches!(self.command, Command::Claim { .. }) && matches!(self.answer, Err(Refusal::Idle))
    }

    fn is_nothing_overdue(&self) -> bool {
        matches!(self.command, Command::Expire { .. }) && matches!(self.answer, Err(Refusal::Idle))
    }

    /// Whether a storage is banned that isn't listed.
    fn has_unlisted_ban(&self) -> bool {
        match self.machine.settings() {
            Some(settings) => self
                .machine
                .banned()
                .iter()
                .any(|storage| !is_listed(settings, *storage)),
            None => false,
        }
    }

    /// The number of the storage that the command bans, or whose ban it ends.
    fn storage(&self) -> Option<u8> {
        if let Command::Ban { storage, .. } | Command::Unban { storage, .. } = self.command {
            endpoint_number(storage.as_str())
        } else {
            None
        }
    }

    /// Whether the settings list that storage.
    fn is_storage_listed(&self) -> bool {
        match (self.machine.settings(), self.storage()) {
            (Some(settings), Some(storage)) => is_listed(settings, storage),
            (Some(_), None) | (None, Some(_)) | (None, None) => false,
        }
    }

    /// Whether a file is copied from that storage, or to it.
    fn has_copy_at_storage(&self) -> bool {
        match self.storage() {
            Some(storage) => self
                .machine
                .rows()
                .iter()
                .any(|row| row.state == FileState::Active && row.is_at(storage)),
            None => false,
        }
    }

    /// Whether an end of a row is banned.
    fn is_at_ban(&self, row: &PlainRow) -> bool {
        self.machine
            .banned()
            .iter()
            .any(|storage| row.is_at(*storage))
    }

    /// Whether a file waited at a banned storage, and its moment had come.
    fn has_ripe_file_at_ban(&self) -> bool {
        self.before.rows.iter().any(|row| row.state == FileState::Submitted
            && row.not_before <= self.machine.moment()
            && self.is_at_ban(row))
    }

    /// Whether more rows are CANCELED by the command than waited for a worker.
    fn took_others_along(&self) -> bool {
        match self.answer {
            Ok(Answer::Banned { cancelled } | Answer::Expired { cancelled }) => {
                *cancelled as usize > self.ended.len()
            }
            Ok(_) | Err(_) => false,
        }
    }

    fn has_ended_at_ban(&self) -> bool {
        self.ended.iter().any(|row| self.is_at_ban(row))
    }

    fn has_ended_after_attempt(&self) -> bool {
        self.ended.iter().any(|row| row.attempt > 0)
    }

    /// Whether the hours of each file that ended were over at a moment.
    fn were_over(&self, moment: u64) -> bool {
        self.ended
            .iter()
            .all(|row| is_over(self.machine.jobs(), row.job, moment))
    }

    /// Whether a file ended whose hours would have gone on past the greatest moment.
    fn has_ended_early(&self) -> bool {
        self.ended.iter().any(|row| match job_of(self.machine.jobs(), row.job) {
            Some(job) => job.submitted_at > u64::MAX - 3_600 * u64::from(job.terms.queue_hours),
            None => false,
        })
    }

    /// The moment that an expiry carries.
    fn own_moment(&self) -> u64 {
        if let Command::Expire { now } = self.command {
            *now
        } else {
            self.machine.moment()
        }
    }

    /// Whether a file waits whose hours are over a second later.
    fn is_second_too_early(&self) -> bool {
        let now = self.own_moment().max(self.machine.moment());
        self.before.rows.iter().any(|row| row.state == FileState::Submitted
            && is_over(self.machine.jobs(), row.job, now.saturating_add(1)))
    }
}
