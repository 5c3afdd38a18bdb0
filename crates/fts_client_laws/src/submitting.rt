//! A document with an own id, the client that submits it, and the replies of the service.
//! Keeps: the job is made at most once, and where the client is told of a job, that one was made (`a_submission_makes_one_job`); the bytes that
//! the client writes are read as the request of which this speaks (`a_submission_is_read_as_it_was_sent`), and what it hears names its job
//! (`replies_name_the_job`); so a call that ends with a job's id has made that one job (`a_submission_that_is_done_made_one_job`).
ghost use Rattle.std.specs.Prelude.{◌≡◌, ◌≢◌, ℕ, ◌≤◌, Bool, Some, Ok, List, [], ◌++◌, length, map};
ghost use Rattle.fts_tables.specs.History.{IsLegal, tables_of};
ghost use Rattle.fts_tables.specs.declared.commands.Entry.{Entry};
ghost use Rattle.fts_laws.specs.Submissions.{submissions, jobs_with, vo_of};
ghost use Rattle.fts_wire.specs.RequestData.{RequestData};
ghost use Rattle.fts_wire.specs.Requests.{next_of, IsShort, Asks};
ghost use Rattle.fts_wire.specs.NextAnswers.{answer_of};
ghost use Rattle.fts_wire.specs.declared.response.Reply.{Reply};
ghost use Rattle.fts_jobdoc.specs.Ids.{sid_id};
ghost use Rattle.fts_jobdoc.specs.Sids.{sid_of};
ghost use Rattle.fts_client.specs.Worlds.{World, Event, ActsOnce, world_after, IsReached, replies_heard};
ghost use Rattle.fts_client.specs.RequestBytes.{submission_bytes};
ghost use Rattle.fts_client.specs.Tries.{Try, answers_of};
ghost use Rattle.fts_client.specs.Ends.{IsSubmitEnd};
ghost use Rattle.fts_client.specs.declared.ends.SubmitEnd.TheVariants.{Done};
ghost use Rattle.fts_client_laws.specs.Submitting.{submitting, submission_of, Begins, NamesJob};

use fts_laws::{jobs_are_those_submitted, one_submission_an_id, submissions_add_up};
use fts_tables::laws::tables_are_well_formed;

/// Whatever the network loses, repeats, cuts or reorders, whatever fails, and whenever the service begins anew under the same VO's name: a document
/// with an own id makes its job at most once, and the client that was told of a job was told of that one, which was made.
pub fn a_submission_makes_one_job()
    ensures events { (document sid vo : List ℕ) (id : ℕ) (start : World RequestData Reply) (events : List Event)
        → Begins document sid vo id start → ActsOnce id (world_after submitting start events) }
    ensures reached { (document sid vo : List ℕ) (id : ℕ) (start world : World RequestData Reply)
        → Begins document sid vo id start → IsReached submitting start world → ActsOnce id world }

    // The list stays legal and the VO's name stays, so the document's id is one for the whole run; and its submissions are the jobs with that id.
    ensures list { (document sid vo : List ℕ) (id : ℕ) (start : World RequestData Reply) (events : List Event)
        → Begins document sid vo id start
        → IsLegal (world_after submitting start events).entries × (vo_of (world_after submitting start events).entries ≡ Some vo)
        × (jobs_with id (tables_of (world_after submitting start events).entries).jobs ≡ submissions id (world_after submitting start events).entries) }
{
    tables_are_well_formed();
    one_submission_an_id();
    submissions_add_up();
    jobs_are_those_submitted();
}

/// A submission that ended with a job's id: in each run in which the client heard what its tries read, that id is the document's,
/// and the list has exactly one submission under it.
pub fn a_submission_that_is_done_made_one_job()
    ensures { (document sid vo : List ℕ) (id : ℕ) (start : World RequestData Reply) (events : List Event) (most : ℕ) (tries : List Try) (job : ℕ) (again : Bool)
        → Begins document sid vo id start → map answer_of (replies_heard submitting start events) ≡ answers_of tries
        → IsSubmitEnd most tries (Done job again)
        → (job ≡ id) × (submissions id (world_after submitting start events).entries ≡ 1) }
{
    a_submission_makes_one_job();
}

/// The bytes that a submission writes are read by the service as that one request, with nothing behind it. A part of them asks for nothing.
pub fn a_submission_is_read_as_it_was_sent()
    ensures whole { (port : ℕ) (document : List ℕ) → port ≤ 65535 → length document ≤ 1048576
        → next_of (submission_bytes port document) ≡ Asks (submission_of document) [] }
    ensures part { (port : ℕ) (document part more : List ℕ) → port ≤ 65535 → length document ≤ 1048576
        → submission_bytes port document ≡ part ++ more → more ≢ [] → IsShort part }
{}

/// Whatever the list, a reply of 200 to a submission says that its job was made now, and one of 409 that it was there before, and both name it.
pub fn replies_name_the_job()
    ensures { (document sid vo : List ℕ) (entries : List Entry) (writer now : ℕ) → sid_of document ≡ Ok sid → IsLegal entries → vo_of entries ≡ Some vo
        → NamesJob (sid_id vo sid) (submitting.reply entries writer (submission_of document) now).status
        (submitting.heard (submitting.reply entries writer (submission_of document) now)) }
{
    tables_are_well_formed();
}
