//! A submission that is repeated until it is answered acts once, whatever the network and the service do meanwhile.
//! Between the two stands a network that loses, repeats, cuts and reorders all that was ever sent; the service fails, and begins anew; others
//! append entries. `specs/Worlds.antt` says what may happen, one event at a time, over any service and client (`Protocol`).
//! What the service has to say for it are five properties (`Answers`). A law is a function without parameters that does nothing: its clauses
//! speak of every run. The crates that know the service's replies call these.
ghost use Rattle.std.specs.Prelude.{◌≡◌, ℕ, Bool, List, Some, None, map};
ghost use Rattle.fts_client.specs.Worlds.{Protocol, World, Event, Answers, IsStart, ActsOnce, world_after, IsReached, told_all, replies_heard};
ghost use Rattle.fts_client.specs.Tries.{Try, answers_of};
ghost use Rattle.fts_client.specs.Ends.{says_to_submission, IsSubmitEnd};
ghost use Rattle.fts_client.specs.declared.ends.SubmitEnd.TheVariants.{Done};

use fts_laws::{one_submission_an_id, submissions_add_up};

/// Whatever the network loses, repeats or cuts, whatever fails, and whenever the service begins anew under the same VO's name: in every world
/// that is reached at most one entry submits the client's id, and where the client was told of its job, exactly one, under the job's id.
/// By lists of events (`events`), and by induction over steps (`reached`).
pub fn a_repeated_submission_acts_once<Request, Reply>()
    ensures events { (protocol : Protocol Request Reply) (vo : List ℕ) (request : Request) (id : ℕ) (start : World Request Reply) (events : List Event)
        → Answers protocol vo request id → IsStart vo request start → ActsOnce id (world_after protocol start events) }
    ensures reached { (protocol : Protocol Request Reply) (vo : List ℕ) (request : Request) (id : ℕ) (start world : World Request Reply)
        → Answers protocol vo request id → IsStart vo request start → IsReached protocol start world → ActsOnce id world }
{
    one_submission_an_id();
    submissions_add_up();
}

/// What the client knows in the end is the first job that it was told of, by the responses that it heard in their order.
pub fn the_client_knows_what_it_heard<Request, Reply>()
    ensures { (protocol : Protocol Request Reply) (world : World Request Reply) (events : List Event)
        → (world_after protocol world events).client.done ≡ told_all world.client.done (map protocol.heard (replies_heard protocol world events)) }
{}

/// A submission that ended with a job was told of that one, and of no other before, by the responses that its tries read.
pub fn tries_tell_of_their_job()
    ensures { (most : ℕ) (tries : List Try) (job : ℕ) (again : Bool) → IsSubmitEnd most tries (Done job again)
        → told_all None (map says_to_submission (answers_of tries)) ≡ Some job }
{}
