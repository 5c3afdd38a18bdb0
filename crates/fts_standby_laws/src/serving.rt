//! A standby that follows, and the replies of the service that it asks.
//! Keeps: what the service answers to a request for an entry shows what its list has there (`answers_are_of_a_world`), so a call of `follow` whose
//! answers are the service's own goes by steps of a world, and leaves a beginning of the service's list (`following_a_service_begins_its_list`); the
//! request that it writes is read as the one of which this speaks (`a_request_is_read_as_it_was_sent`), and what the service's code answers to it is
//! such a reply (`what_is_answered_is_a_reply`).
ghost use Rattle.std.specs.Prelude.{◌≡◌, ◌≢◌, ℕ, ◌≤◌, List, [], ◌++◌};
ghost use Rattle.fts_tables.specs.declared.commands.Entry.{Entry};
ghost use Rattle.fts_disk.specs.Disk.{IsTold};
ghost use Rattle.fts_journal.specs.Journal.{JournalData};
ghost use Rattle.fts_keep.specs.Keeps.{KeepData, IsKeep};
ghost use Rattle.fts_wire.specs.Requests.{next_of, IsShort, Asks};
ghost use Rattle.fts_wire.specs.declared.response.Reply.{Reply};
ghost use Rattle.fts_client.specs.Links.{LinkData, read_side, written_side};
ghost use Rattle.fts_routes.specs.Replies.{Answers};
ghost use Rattle.fts_standby.specs.Worlds.{Standby, World, IsPrefix, spellings};
ghost use Rattle.fts_standby.specs.Asking.{Request, request_bytes};
ghost use Rattle.fts_standby.specs.Following.{Followed};
ghost use Rattle.fts_standby.specs.declared.ends.FollowEnd.{FollowEnd};
ghost use Rattle.fts_standby.specs.declared.ends.FollowEnd.TheVariants.{CaughtUp};
ghost use Rattle.fts_standby_laws.specs.Serving.{request_for, IsServed, IsReply, AreAnswered, AreShort, IsBeginning};
ghost use Rattle.fts_standby_laws.specs.Serving.{AsksService, IsWorldOf, Walks, LeavesBeginning};

use fts_client::Link;
use fts_disk::Disk;
use fts_record::laws::what_is_spelled_is_read;
use fts_standby::laws::{following_is_steps, standby_follows, taking_is_steps};

/// What is read of a service, whatever its list was at each moment, is of a world: one that came of an empty standby, with the service's list and
/// with any standby that has a beginning of it, in which a response was made for each answer.
pub fn answers_are_of_a_world()
    ensures { (early primary : List Entry) (standby : Standby) (requests : List Request) → IsServed primary → IsBeginning primary standby
        → AreShort requests → AreAnswered early primary requests → (w : World) × IsWorldOf primary standby requests w }
{
    what_is_spelled_is_read();
    taking_is_steps();
}

/// A call of `follow` that asked a service goes by steps of such a world alone (`walks`), so its journal and each image of its moments begin the
/// service's list (`begins`). Where it caught up, it has all that the service had when the call began (`caught_up`), and where the list stood still,
/// just that list (`all`).
pub fn following_a_service_begins_its_list<L: Link, D: Disk>()
    ensures walks { (port most : ℕ) (old new : JournalData D) (link left : LinkData L.Line) (broken failed : ℕ) (end : FollowEnd)
        (early primary : List Entry)
        → (followed : Followed D.state D.faults (read_side L.Line.Source) (written_side L.Line.Sink)
        port most old new link left broken failed end)
        → AsksService D.state old early primary followed.requests → Walks D.state old new primary followed.requests }
    ensures begins { (port most : ℕ) (old new : JournalData D) (link left : LinkData L.Line) (broken failed : ℕ) (end : FollowEnd)
        (early primary : List Entry)
        → (followed : Followed D.state D.faults (read_side L.Line.Source) (written_side L.Line.Sink)
        port most old new link left broken failed end)
        → AsksService D.state old early primary followed.requests → LeavesBeginning D.state old new primary }
    ensures caught_up { (port most : ℕ) (old new : JournalData D) (link left : LinkData L.Line) (broken failed count : ℕ) (early primary : List Entry)
        → (followed : Followed D.state D.faults (read_side L.Line.Source) (written_side L.Line.Sink)
        port most old new link left broken failed (CaughtUp count))
        → AsksService D.state old early primary followed.requests → IsPrefix (spellings early) new.bodies }
    ensures all { (port most : ℕ) (old new : JournalData D) (link left : LinkData L.Line) (broken failed count : ℕ) (primary : List Entry)
        → (followed : Followed D.state D.faults (read_side L.Line.Source) (written_side L.Line.Sink)
        port most old new link left broken failed (CaughtUp count))
        → AsksService D.state old primary primary followed.requests → new.bodies ≡ spellings primary }
{
    what_is_spelled_is_read();
    taking_is_steps();
    standby_follows();
    following_is_steps::<L, D>();
}

/// The bytes that a request for an entry writes are read by the service as that one request, with nothing behind it. A part of them asks for nothing.
pub fn a_request_is_read_as_it_was_sent()
    ensures whole { (port number : ℕ) → port ≤ 65535 → number ≤ 4294967295 → next_of (request_bytes port number) ≡ Asks (request_for number) [] }
    ensures part { (port number : ℕ) (part more : List ℕ) → port ≤ 65535 → number ≤ 4294967295
        → request_bytes port number ≡ part ++ more → more ≢ [] → IsShort part }
{}

/// What the service's code answers to that request, over a disk that tells its contents, is such a reply over its list, and its list is one that is served.
pub fn what_is_answered_is_a_reply<D: Disk>()
    ensures reply { (old new : KeepData D) (writer number now : ℕ) (reply : Reply) → IsKeep D.state old → IsTold (D.state old.disk)
        → Answers D.state D.faults old new writer (request_for number) now reply → IsReply old.entries number reply }
    ensures served { (keep : KeepData D) → IsKeep D.state keep → IsTold (D.state keep.disk) → IsServed keep.entries }
{}
