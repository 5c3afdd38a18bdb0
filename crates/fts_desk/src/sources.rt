//! Which source of a replica job comes next.
//! The loads of its links are looked up, into an array on the stack: no job has more than `MAX_FILES` rows.
ghost use Rattle.std.specs.Prelude.{◌≡◌, ◌≤◌, ◌<◌, length, map, take, slice_get, option_and_then, IfSome, List};
ghost use Rattle.fts_tables.specs.Choice.{next_alternative};
ghost use Rattle.fts_tables.specs.declared.rows.FileRow.{FileRow};
ghost use Rattle.fts_tables.specs.declared.limits.TheConstants.{MAX_FILES};
ghost use Rattle.fts_desk.specs.Loaded.{AreLoadsOf, load_in};

use fts_choice::next_alternative;
use fts_index::Loads;
use fts_index::laws::counts_of_live_links_are_loads;
use fts_tables::limits::MAX_FILES;
use fts_tables::{FileRow, Strategy};

/// How many rows wait or run on a row's link.
fn load(loads: &Loads, row: &FileRow) -> u32
    ensures load { result ≡ load_in loads.now row.now }
{
    loads.count(&row.source.endpoint, &row.dest.endpoint)
}

/// Fills in the loads of a job's rows, each at its row's place.
fn fill_loads(filled: &mut [u32; MAX_FILES], loads: &Loads, of_job: &[FileRow])
    requires room { length of_job.now ≤ MAX_FILES }
    ensures loads { take (length of_job.now) filled.new ≡ map (load_in loads.now) of_job.now }
{
    for place in 0..of_job.len() {
        filled[place] = load(loads, &of_job[place]);
    }
}

/// The place of the row of a job that comes in next, with loads counted over the rows whose loads these are. None exactly where there is none.
pub fn next_source(of_job: &[FileRow], strategy: Strategy, loads: &Loads) -> Option<usize>
    requires room { length of_job.now ≤ MAX_FILES }
    ensures row { (rows : List FileRow) → AreLoadsOf rows loads.now
        → option_and_then (slice_get of_job.now) result ≡ next_alternative strategy rows of_job.now }
    ensures inside { IfSome result (λ place. place < length of_job.now) }
{
    counts_of_live_links_are_loads();
    let mut filled = [0; MAX_FILES];
    fill_loads(&mut filled, loads, of_job);
    next_alternative(of_job, strategy, &filled[..of_job.len()])
}
