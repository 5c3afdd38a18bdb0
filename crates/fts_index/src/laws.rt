//! What the lists of `JobIds`, `Loads` and `Dues` are to the machine's tables, for who keeps them in step.
//! Each law is a function without parameters that does nothing: its clauses speak of every list. A crate above cites a law by calling it.
ghost use Rattle.std.specs.Prelude.{
  ◌≡◌,
  ℕ,
  ◌+◌,
  ◌≤◌,
  ◌++◌,
  Bool,
  true,
  if◌then◌else◌,
  List,
  length,
  map,
  count_by,
  slice_get,
  slice_set,
  Option,
  Some,
  is_some,
  IsTrue,
};
ghost use Rattle.std.specs.List.{list_any, AllByRecursion};
ghost use Rattle.fts_tables.specs.Tables.{AreNumberedFrom, number_of_id, job_at};
ghost use Rattle.fts_tables.specs.Waits.{overdue_from, row_overdue_from, is_overdue};
ghost use Rattle.fts_tables.specs.Dues.{Due, is_due_before, is_first_due};
ghost use Rattle.fts_tables.specs.Choice.{load};
ghost use Rattle.fts_tables.specs.declared.rows.FileRow.{FileRow};
ghost use Rattle.fts_tables.specs.declared.rows.JobRow.{JobRow};
ghost use Rattle.ordered.specs.Orders.{has_key};
ghost use Rattle.fts_index.specs.Numbers.{number_in};
ghost use Rattle.fts_index.specs.Links.{Link, HasOneMore, count_of};
ghost use Rattle.fts_index.specs.LiveLinks.{link_of_row, live_links};
ghost use Rattle.fts_index.specs.DueLists.{DueList, due_at, MayChange, HasChanged};
ghost use Rattle.fts_index.specs.RowDues.{due_from, AreDuesOf, MayAdd, HasAdded, HasDueRow};

use fts_tables::laws::the_first_moment_tells;

/// Of jobs numbered 1, 2, 3 in order, the number of an id among their ids is the machine's.
pub fn numbers_in_ids_are_the_jobs()
    ensures number { (jobs : List JobRow) (id : ℕ) → AreNumberedFrom (λ job. job.number) 1 jobs
        → number_in (map (λ job. job.id) jobs) id ≡ number_of_id jobs id }
{}

/// How often a row's link stands among the links of live rows is the machine's load of it.
pub fn counts_of_live_links_are_loads()
    ensures load { (rows : List FileRow) (row : FileRow) → count_of (live_links rows) (link_of_row row) ≡ load rows row }
{}

/// A list with one link more: any count of links is one more where it counts this one.
pub fn counts_go_by_one()
    ensures more { (link : Link) (old new : List Link) → HasOneMore link old new → (test : Link → Bool)
        → count_by test new ≡ count_by test old + (if test link then 1 else 0) }
{}

/// Where the row at a place changes and keeps its number and its job, its file's moment may change from what it was to what it is; and once it has, the
/// list is that of the rows again.
pub fn dues_of_a_changed_row()
    ensures may { (jobs : List JobRow) (rows : List FileRow) (place : ℕ) (before after : FileRow) (file : ℕ) (list : DueList)
        → AreNumberedFrom (λ row. row.id) 1 rows → slice_get rows place ≡ Some before → before.id ≡ file → after.id ≡ file → after.job ≡ before.job
        → AreDuesOf jobs rows list → MayChange file (due_from jobs before) (due_from jobs after) list }
    ensures done { (jobs : List JobRow) (rows : List FileRow) (place : ℕ) (before after : FileRow) (file : ℕ) (old new : DueList)
        → slice_get rows place ≡ Some before → before.id ≡ file → after.id ≡ file → after.job ≡ before.job
        → AreDuesOf jobs rows old → HasChanged file (due_from jobs before) (due_from jobs after) old new → AreDuesOf jobs (slice_set rows place after) new }
{}

/// Rows that are numbered on may come in where there is room for them; and once they have, with the moment of their job, the list is that of all rows.
pub fn dues_of_new_rows()
    ensures may { (jobs : List JobRow) (rows more : List FileRow) (moment : Option ℕ) (list : DueList) → AreNumberedFrom (λ row. row.id) 1 (rows ++ more)
        → AreDuesOf jobs rows list → (is_some moment ≡ true → list.files + length more ≤ list.room) → MayAdd more moment list }
    ensures done { (jobs : List JobRow) (rows more : List FileRow) (moment : Option ℕ) (old new : DueList) → AreDuesOf jobs rows old
        → AllByRecursion (λ row. row_overdue_from jobs row ≡ moment) more → HasAdded more moment old new → AreDuesOf jobs (rows ++ more) new }
{}

/// The list stays that of the rows where no row's moment changes with the jobs: where jobs come in behind those of all rows, and where jobs change but
/// keep their numbers and moments.
pub fn dues_of_other_jobs()
    ensures same { (jobs other : List JobRow) (rows : List FileRow) (list : DueList)
        → AllByRecursion (λ row. row_overdue_from other row ≡ row_overdue_from jobs row) rows → AreDuesOf jobs rows list → AreDuesOf other rows list }
    ensures more { (jobs more : List JobRow) (rows : List FileRow) (list : DueList)
        → AllByRecursion (λ row. IsTrue (is_some (job_at jobs row.job))) rows → AreDuesOf jobs rows list → AreDuesOf (jobs ++ more) rows list }
    ensures alike { (jobs : List JobRow) (change : JobRow → JobRow) (rows : List FileRow) (list : DueList)
        → ((job : JobRow) → (change job).number ≡ job.number) → ((job : JobRow) → overdue_from (change job) ≡ overdue_from job)
        → AreDuesOf jobs rows list → AreDuesOf (map change jobs) rows list }
{}

/// The first moment of a list that is that of the rows tells whether any row is overdue. A row stands there exactly where it waits with the moment.
pub fn dues_tell_the_overdue()
    ensures tells { (jobs : List JobRow) (rows : List FileRow) (list : DueList) (now : ℕ) → AreDuesOf jobs rows list
        → list_any (is_overdue jobs now) rows ≡ is_first_due now list.dues }
    ensures stands { (jobs : List JobRow) (rows : List FileRow) (list : DueList) → AreDuesOf jobs rows list → (place : ℕ) (row : FileRow) (moment : ℕ)
        → slice_get rows place ≡ Some row → due_from jobs row ≡ Some moment → IsTrue (has_key is_due_before (due_at row.id moment) list.dues) }
    ensures waits { (jobs : List JobRow) (rows : List FileRow) (list : DueList) → AreDuesOf jobs rows list → (due : Due)
        → IsTrue (has_key is_due_before due list.dues) → HasDueRow jobs rows due }
    ensures first { (jobs : List JobRow) (rows : List FileRow) (list : DueList) → AreDuesOf jobs rows list → (due : Due)
        → slice_get list.dues 0 ≡ Some due → HasDueRow jobs rows due }
{
    the_first_moment_tells();
}
