//! Jobs by their ids.
ghost use Rattle.std.specs.Prelude.{◌≡◌};
ghost use Rattle.fts_tables.specs.Tables.{AreNumberedFrom, number_of_id};

use crate::kept::Kept;
use fts_index::laws::numbers_in_ids_are_the_jobs;

/// The least number of a job with this id.
pub fn number_of_id(kept: &Kept, id: u128) -> Option<u32>
    requires numbered { AreNumberedFrom (λ job. job.number) 1 kept.now.jobs.items }
    ensures number { result ≡ number_of_id kept.now.jobs.items id }
{
    numbers_in_ids_are_the_jobs();
    kept.ids.find(id)
}

/// The least number of a job with this id, for who adds a job with that id where there is none: its place is not searched for again then.
pub fn seek_number(kept: &mut Kept, id: u128) -> Option<u32>
    requires numbered { AreNumberedFrom (λ job. job.number) 1 kept.old.jobs.items }
    ensures number { result ≡ number_of_id kept.old.jobs.items id }
    ensures same { kept.new ≡ kept.old }
{
    numbers_in_ids_are_the_jobs();
    kept.ids.seek(id)
}
