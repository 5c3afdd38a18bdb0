//! The lists behind a desk's tables. `specs/Kept.antt` says which tables they are (`tables_kept`).
//! Each command's module has a step over them, whose contract is the machine's step over those tables.
ghost use Rattle.std.specs.Prelude.{◌≡◌, map};
ghost use Rattle.fts_desk.specs.Parts.{limits_of, flags_in, IsBeside};
ghost use Rattle.fts_desk.specs.Props.{beside_props};

use crate::job_states::JobStates;
use fts_claims::ClaimParts;
use fts_index::{Dues, JobIds, Loads};
use fts_tables::{EndpointName, FileRow, JobRow, Settings};

/// What the machine's tables are made of, and beside them the jobs' ids, the loads of the links, the moments at which waiting files become overdue, and
/// from the first Restart on what a claim looks at, and whether each endpoint is banned, by its place: a job is found, an alternative chosen, a file
/// claimed and an overdue one found without a walk over all jobs or rows.
pub struct Kept {
    pub jobs: Vec<JobRow>,
    pub rows: Vec<FileRow>,
    pub moment: u64,
    pub settings: Option<Settings>,
    pub banned: Vec<EndpointName>,
    pub ids: JobIds,
    pub flags: Vec<bool>,
    pub beside: Beside,
    ghost ids_of_jobs: { ids.ids ≡ map (λ job. job.id) jobs.items },
    ghost beside_rows: { IsBeside jobs.items rows.items beside } by { Prim.hlevel beside_props },
    ghost of_settings: { limits_of beside.parts ≡ settings },
    ghost of_bans: { flags.items ≡ flags_in settings banned.items },
}

impl Drop for Kept {
    fn drop(self) {
        let Kept {
            jobs: _,
            rows: _,
            moment: _,
            settings: _,
            banned: _,
            ids: _,
            flags: _,
            beside: _,
        } = self;
    }
}

/// What stands beside the rows: what is counted of them, and from the first Restart on what a claim looks at.
pub struct Beside {
    pub counts: Counts,
    pub parts: Option<ClaimParts>,
}

impl Drop for Beside {
    fn drop(self) {
        let Beside {
            counts: _,
            parts: _,
        } = self;
    }
}

/// What is counted of the rows: how many wait or run on each link, from when each that waits is overdue, and how their jobs stand.
pub struct Counts {
    pub loads: Loads,
    pub dues: Dues,
    pub states: JobStates,
}

impl Drop for Counts {
    fn drop(self) {
        let Counts {
            loads: _,
            dues: _,
            states: _,
        } = self;
    }
}
