//! The desk: the machine's tables, the number of commands accepted so far, and the command that it has room for, or none.
//! Keeps: tables of the machine's form, with no limit passed and each list within its bounds, and for the command that was prepared
//! all that committing it needs (`IsDesk`).
//! Order: `prepare` refuses a command or makes room for it and keeps a copy; `commit` takes the copy and makes the machine's step.
ghost use Rattle.std.specs.Prelude.{◌≡◌, ◌↔◌, ◌+◌, ◌<◌, ◌≤◌, [], length, None, Some, IsSome, IfSome, OnOk, OnErr, Ok, option_map};
ghost use Rattle.fts_tables.specs.Tables.{empty_tables, number_of_id, rows_of_job, job_at, row_at};
ghost use Rattle.fts_tables.specs.Laws.{IsStanding};
ghost use Rattle.fts_tables.specs.Step.{step};
ghost use Rattle.fts_tables.specs.declared.limits.TheConstants.{MAX_JOBS, MAX_ROWS, MAX_COMMANDS};
ghost use Rattle.fts_desk.specs.DeskData.{state_at, held_at};
ghost use Rattle.fts_desk.specs.JobsIn.{next_asked, count_in_state};
ghost use Rattle.fts_desk.specs.Prepared.{IsPrepared};

use crate::answers::{count_in_state, held_on_link, next_in_states, rows_of_number, state_of};
use crate::bounds::steps_keep_bounds;
use crate::commands::{Decided, decide, make_step};
use crate::find::number_of_id;
use crate::job_states::{JOB_STATES, JobStates};
use crate::kept::{Beside, Counts, Kept};
use crate::lookups::{find_job, find_row};
use fts_index::{Dues, JobIds, Loads};
use fts_tables::laws::steps_keep_standing;
use fts_tables::{
    Answer, Command, EndpointName, FileRow, JobRow, JobState, LinkAt, Memory, Refusal, Settings,
};
use std::alloc::Global;
use std::marker::Model;
use std::mem;

/// The mark of a command that was prepared. It holds nothing.
#[derive(Drop)]
pub struct Plan {
    mark: (),
}

/// Why a command was not prepared.
#[derive(Clone, Copy, Debug, PartialEq, Eq)]
pub enum DeskFault {
    /// The machine refuses the command.
    Rule(Refusal),
    /// Want of memory.
    Memory,
}

/// The machine's tables, and the command that it has room for.
pub struct Desk {
    alloc: Global,
    kept: Kept,
    commands: u32,
    planned: Option<Command>,
    decided: Decided,
}

impl Drop for Desk {
    fn drop(self) {
        let Desk {
            alloc: _,
            kept: _,
            commands: _,
            planned: _,
            decided: _,
        } = self;
    }
}

impl Model for Desk {
    ghost use Rattle.fts_desk.specs.DeskData.{DeskData};

    ghost Value = { DeskData };

    ghost use Rattle.fts_desk.specs.Desk.{desk_data, IsDesk};

    ghost view = { desk_data };

    ghost invariant = { IsDesk };
}

impl Desk {
    /// The empty tables. What grows later takes its memory from `alloc`.
    pub fn empty(alloc: Global) -> Desk
        ensures tables { result.tables ≡ empty_tables }
        ensures commands { result.commands ≡ 0 }
        ensures planned { result.planned ≡ None }
    {
        Desk {
            alloc,
            kept: Kept {
                jobs: Vec::new(alloc),
                rows: Vec::new(alloc),
                moment: 0,
                settings: None,
                banned: Vec::new(alloc),
                ids: JobIds::new(alloc),
                flags: Vec::new(alloc),
                beside: Beside {
                    counts: Counts {
                        loads: Loads::new(alloc),
                        dues: Dues::new(alloc),
                        states: JobStates::new(alloc),
                    },
                    parts: None,
                },
            },
            commands: 0,
            planned: None,
            decided: Decided::Nothing,
        }
    }

    /// Makes room for a command, in place of one that room was made for before, or says why the machine refuses it.
    /// The tables stay as they are, and after any `Err` there is room for no command. `commands` has to be below `MAX_COMMANDS`.
    pub fn prepare(&mut self, command: &Command) -> Result<Plan, DeskFault>
        requires few { self.old.commands < MAX_COMMANDS }
        ensures answer { IsPrepared (step self.old.tables command.now) result }
        ensures tables { self.new.tables ≡ self.old.tables }
        ensures commands { self.new.commands ≡ self.old.commands }
        ensures planned { OnOk result (self.new.planned ≡ Some command.now) }
        ensures none { OnErr result (self.new.planned ≡ None) }
    {
        self.planned = None;
        let decided = match decide(self.alloc, &mut self.kept, command) {
            Ok(decided) => decided,
            Err(fault) => return Err(fault),
        };
        match command.copy(self.alloc) {
            Ok(copy) => {
                self.decided = decided;
                self.planned = Some(copy);
                Ok(Plan { mark: () })
            }
            Err(Memory) => Err(DeskFault::Memory),
        }
    }

    /// Does the command that there is room for, and gives the machine's answer. It takes no memory and can't fail.
    pub fn commit(&mut self, plan: Plan) -> Answer
        requires { IsSome self.old.planned }
        ensures step { IfSome self.old.planned (λ command. step self.old.tables command ≡ Ok (self.new.tables, result)) }
        ensures commands { self.new.commands ≡ self.old.commands + 1 }
        ensures none { self.new.planned ≡ None }
    {
        steps_keep_standing();
        steps_keep_bounds();
        let Plan { mark: () } = plan;
        self.commands += 1;
        match self.planned.take() {
            None => unreachable!(),
            Some(command) => {
                let decided = mem::replace(&mut self.decided, Decided::Nothing);
                make_step(&mut self.kept, decided, command)
            }
        }
    }

    /// The jobs, in order of number.
    pub fn jobs(&self) -> &[JobRow]
        ensures jobs { result.now ≡ self.now.tables.jobs }
        ensures few { length result.now ≤ MAX_JOBS }
    {
        &self.kept.jobs
    }

    /// The file rows, in order of id.
    pub fn rows(&self) -> &[FileRow]
        ensures rows { result.now ≡ self.now.tables.rows }
        ensures few { length result.now ≤ MAX_ROWS }
    {
        &self.kept.rows
    }

    /// The settings of the last Restart, and none before the first.
    pub fn settings(&self) -> Option<&Settings>
        ensures { option_map (λ settings. settings.now) result ≡ self.now.tables.settings }
    {
        self.kept.settings.as_ref()
    }

    /// The banned storages, each once, in the order of their bans.
    pub fn banned(&self) -> &[EndpointName]
        ensures banned { result.now ≡ self.now.tables.banned }
    {
        &self.kept.banned
    }

    /// The job of a number. None exactly where there is none.
    pub fn job(&self, number: u32) -> Option<&JobRow>
        ensures job { option_map (λ job. job.now) result ≡ job_at self.now.tables.jobs number }
    {
        find_job(&self.kept.jobs, number)
    }

    /// The file row of an id. None exactly where there is none.
    pub fn row(&self, id: u32) -> Option<&FileRow>
        ensures row { option_map (λ row. row.now) result ≡ row_at self.now.tables.rows id }
    {
        find_row(&self.kept.rows, id)
    }

    /// The least number of a job with this id. None exactly where no job has it.
    pub fn find(&self, id: u128) -> Option<u32>
        ensures { result ≡ number_of_id self.now.tables.jobs id }
    {
        number_of_id(&self.kept, id)
    }

    /// The rows of the job of a number, in order of id. There is none exactly where there is no such job.
    pub fn job_rows(&self, job: u32) -> &[FileRow]
        ensures rows { result.now ≡ rows_of_job self.now.tables.rows job }
        ensures none { (result.now ≡ []) ↔ (job_at self.now.tables.jobs job ≡ None) }
    {
        rows_of_number(&self.kept, job)
    }

    /// The state of the job of a number, by its rows. None exactly where there is no such job.
    pub fn state(&self, job: u32) -> Option<JobState>
        ensures { result ≡ state_at self.now.tables job }
    {
        state_of(&self.kept, job)
    }

    /// The first job behind so many, in order of number, that is in one of these states, which are told by their ranks (`rank`). None exactly where there
    /// is none.
    pub fn next_job(&self, asked: &[bool; JOB_STATES], behind: u32) -> Option<&JobRow>
        ensures job { option_map (λ job. job.now) result ≡ next_asked self.now.tables asked.now behind }
    {
        next_in_states(&self.kept, asked, behind)
    }

    /// How many jobs are in a state.
    pub fn count_jobs(&self, state: JobState) -> usize
        ensures count { result ≡ count_in_state self.now.tables state }
    {
        count_in_state(&self.kept, state)
    }

    /// How many ACTIVE files a link has, by the places of its ends in the settings, from 0. Where there are no such places it has none.
    pub fn held(&self, link: LinkAt) -> u32
        ensures { result ≡ held_at self.now.tables link }
    {
        held_on_link(&self.kept, link)
    }

    /// How many commands were accepted. The tables' form and limits hold whatever they were (`IsStanding`).
    pub fn commands(&self) -> u32
        ensures commands { result ≡ self.now.commands }
        ensures standing { IsStanding self.now.tables }
    {
        self.commands
    }

    /// A law, for who reads the tables: they have the machine's form, and no limit is passed.
    pub fn standing(&self)
        ensures standing { IsStanding self.now.tables }
    {
        let _commands = self.commands;
    }
}
