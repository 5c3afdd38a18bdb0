//! Submissions under an id that the client gave. A legal list has one at most, whatever restarts and other commands stand between; and the jobs
//! with such an id are those that were submitted under it. So who sends a document twice makes one job of it.
//! The id is made of the VO's name, which is that of the last restart: `the_vo_is_the_last_restarts` reads it off the entries alone.
//! A law is a function without parameters that does nothing: its clauses speak of every list.
ghost use Rattle.std.specs.Prelude.{◌≡◌, ℕ, ◌+◌, ◌≤◌, false, List, ◌++◌, option_map};
ghost use Rattle.fts_tables.specs.History.{IsLegal, tables_of};
ghost use Rattle.fts_tables.specs.declared.commands.Entry.{Entry};
ghost use Rattle.fts_laws.specs.Submissions.{submissions, jobs_with, is_standard_id, vo_of};

/// At most one entry of a legal list submits a job under an id.
pub fn one_submission_an_id()
    ensures one { (entries : List Entry) (id : ℕ) → IsLegal entries → submissions id entries ≤ 1 }
{}

/// The jobs with an id that the machine gives to none by itself are as many as the entries that submit one under it. With any id they are at
/// least so many (`some`).
pub fn jobs_are_those_submitted()
    ensures jobs { (entries : List Entry) (id : ℕ) → IsLegal entries → is_standard_id id ≡ false
        → jobs_with id (tables_of entries).jobs ≡ submissions id entries }
    ensures some { (entries : List Entry) (id : ℕ) → IsLegal entries → submissions id entries ≤ jobs_with id (tables_of entries).jobs }
{}

/// The settings in force have the VO's name that the last restart gave, also in a list that isn't legal.
pub fn the_vo_is_the_last_restarts()
    ensures vo { (entries : List Entry) → option_map (λ settings. settings.vo) (tables_of entries).settings ≡ vo_of entries }
{}

/// The submissions under an id of two lists add up. So a list that grows loses none.
pub fn submissions_add_up()
    ensures sum { (entries more : List Entry) (id : ℕ) → submissions id (entries ++ more) ≡ submissions id entries + submissions id more }
{}
