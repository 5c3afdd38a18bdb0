//! The machine: jobs, rows, the settings in force, the banned storages, and the last moment that counted.
//! A command counts at the later of its moment and the last one. A refused command changes nothing, the last moment included.
use super::bans::{add_ban, files_at, is_banned, remove_ban};
use super::cancellations::{cancel_file, cancel_files, cancel_job};
use super::claims::{claim, held, is_listed};
use super::expiries::overdue_files;
use super::jobs::{count_of, set_priority, state_of};
use super::plain::{PlainCommand, PlainJob, PlainRow, PlainSettings};
use super::reports::report;
use super::restarts::restart;
use super::submissions::{number_of, submit};
use fts_tables::{Answer, JobState, Memory, Reason, Refusal};
use std::alloc::Global;

/// The plain machine.
#[derive(Drop)]
pub struct PlainMachine {
    alloc: Global,
    moment: u64,
    settings: Option<PlainSettings>,
    jobs: Vec<PlainJob>,
    rows: Vec<PlainRow>,
    banned: Vec<u8>,
}

impl PlainMachine {
    /// A machine without jobs, rows, settings and bans, at moment 0.
    pub fn empty(alloc: Global) -> PlainMachine {
        PlainMachine {
            alloc,
            moment: 0,
            settings: None,
            jobs: Vec::new(alloc),
            rows: Vec::new(alloc),
            banned: Vec::new(alloc),
        }
    }

    /// Does a command, or says why it is refused. At want of memory the machine is not to be used again.
    pub fn step(&mut self, command: PlainCommand) -> Result<Result<Answer, Refusal>, Memory> {
        let now = moment_of(&command).max(self.moment);
        let answer = self.answer(command, now)?;
        if answer.is_ok() {
            self.moment = now;
        }
        Ok(answer)
    }

    fn answer(
        &mut self,
        command: PlainCommand,
        now: u64,
    ) -> Result<Result<Answer, Refusal>, Memory> {
        match command {
            PlainCommand::Restart { settings, .. } => {
                let answer = restart(&mut self.rows);
                self.settings = Some(settings);
                Ok(Ok(answer))
            }
            PlainCommand::Submit { job, .. } => {
                submit(self.alloc, &mut self.jobs, &mut self.rows, job, now)
            }
            PlainCommand::CancelJob { job, .. } => Ok(cancel_job(&self.jobs, &mut self.rows, job)),
            PlainCommand::CancelFile { job, file, .. } => {
                Ok(cancel_file(&self.jobs, &mut self.rows, job, file))
            }
            PlainCommand::SetPriority { job, priority, .. } => {
                Ok(set_priority(&mut self.jobs, &self.rows, job, priority))
            }
            PlainCommand::Claim { word, .. } => self.claim(word, now),
            PlainCommand::Report {
                file,
                attempt,
                outcome,
                ..
            } => Ok(report(&self.jobs, &mut self.rows, file, attempt, outcome, now)),
            PlainCommand::Ban {
                storage,
                cancel,
                ..
            } => self.ban(storage, cancel),
            PlainCommand::Unban { storage, .. } => Ok(self.unban(storage)),
            PlainCommand::Expire { .. } => self.expire(now),
        }
    }

    /// A claim, which finds nothing before the first restart.
    fn claim(&mut self, word: u64, now: u64) -> Result<Result<Answer, Refusal>, Memory> {
        match &self.settings {
            Some(settings) => {
                let banned = &self.banned;
                claim(
                    self.alloc,
                    settings,
                    banned,
                    &self.jobs,
                    &mut self.rows,
                    word,
                    now,
                )
            }
            None => Ok(Err(Refusal::Idle)),
        }
    }

    /// A ban of a storage that is listed, which no storage is before the first restart. A storage that is banned stays so.
    fn ban(&mut self, storage: u8, cancel: bool) -> Result<Result<Answer, Refusal>, Memory> {
        match &self.settings {
            Some(settings) if is_listed(settings, storage) => {}
            Some(_) | None => return Ok(Err(Refusal::NoStorage)),
        }
        add_ban(&mut self.banned, storage)?;
        let mut cancelled = 0;
        if cancel {
            let files = files_at(self.alloc, &self.rows, storage)?;
            cancelled = cancel_files(&self.jobs, &mut self.rows, &files, Reason::Cancelled);
        }
        Ok(Ok(Answer::Banned { cancelled }))
    }

    /// The end of a ban, whether the storage is listed or not.
    fn unban(&mut self, storage: u8) -> Result<Answer, Refusal> {
        if !is_banned(&self.banned, storage) {
            return Err(Refusal::NotBanned);
        }
        remove_ban(&mut self.banned, storage);
        Ok(Answer::Unbanned)
    }

    /// The end of the files that have waited too long, where there is one.
    fn expire(&mut self, now: u64) -> Result<Result<Answer, Refusal>, Memory> {
        let files = overdue_files(self.alloc, &self.jobs, &self.rows, now)?;
        if files.is_empty() {
            return Ok(Err(Refusal::Idle));
        }
        let cancelled = cancel_files(&self.jobs, &mut self.rows, &files, Reason::Expired);
        Ok(Ok(Answer::Expired { cancelled }))
    }

    /// The last moment that counted.
    pub fn moment(&self) -> u64 {
        self.moment
    }

    /// The settings of the last restart.
    pub fn settings(&self) -> Option<&PlainSettings> {
        self.settings.as_ref()
    }

    /// The jobs, in order of number.
    pub fn jobs(&self) -> &[PlainJob] {
        &self.jobs
    }

    /// The rows, in order of id.
    pub fn rows(&self) -> &[PlainRow] {
        &self.rows
    }

    /// The banned storages, in the order of their bans.
    pub fn banned(&self) -> &[u8] {
        &self.banned
    }

    /// The state of a job by its rows.
    pub fn state(&self, job: &PlainJob) -> JobState {
        state_of(&self.rows, job)
    }

    /// The least number of a job with an id.
    pub fn find(&self, id: u128) -> Option<u32> {
        number_of(&self.jobs, id)
    }

    /// How many copies go from one endpoint to another.
    pub fn held(&self, source: u8, dest: u8) -> usize {
        held(&self.rows, source, dest)
    }

    /// How many rows a job has.
    pub fn count(&self, job: &PlainJob) -> usize {
        count_of(&self.rows, job.number)
    }
}

/// The moment that a command carries.
fn moment_of(command: &PlainCommand) -> u64 {
    match command {
        PlainCommand::Restart { now, .. }
        | PlainCommand::Submit { now, .. }
        | PlainCommand::CancelJob { now, .. }
        | PlainCommand::CancelFile { now, .. }
        | PlainCommand::SetPriority { now, .. }
        | PlainCommand::Claim { now, .. }
        | PlainCommand::Report { now, .. }
        | PlainCommand::Ban { now, .. }
        | PlainCommand::Unban { now, .. }
        | PlainCommand::Expire { now } => *now,
    }
}
