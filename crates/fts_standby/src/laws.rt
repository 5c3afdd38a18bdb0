//! Laws of worlds with a primary and a standby, and of what a standby reads. Each is a public function with an empty body; a caller has it by a call.
ghost use Rattle.fts_standby.specs.Entries.{ShownIsRead};
ghost use Rattle.std.specs.Prelude.{◌≡◌, ℕ};
ghost use Rattle.fts_disk.specs.Disk.{IsTold};
ghost use Rattle.fts_journal.specs.Journal.{JournalData};
ghost use Rattle.fts_client.specs.Links.{LinkData, read_side, written_side};
ghost use Rattle.fts_standby.specs.Worlds.{World, StandbyFollows, TakingIsSteps};
ghost use Rattle.fts_standby.specs.Following.{Followed};
ghost use Rattle.fts_standby.specs.Reaching.{ComeFrom, standby_of, GoesOn, IsReached, Begins};
ghost use Rattle.fts_standby.specs.declared.ends.FollowEnd.{FollowEnd};

use fts_client::Link;
use fts_disk::Disk;

/// Whatever the network repeats, cuts or loses, and wherever a crash or a failing disk stops it, a standby that began empty has a beginning of the
/// primary's list, and so has each image of its disk.
pub fn standby_follows()
    ensures { StandbyFollows }
{}

/// Taking bodies that responses carry, each with the number of the standby's count, goes by steps of the world alone.
pub fn taking_is_steps()
    ensures { TakingIsSteps }
{}

/// A standby reads of a body that shows an entry that very entry, and only where it asked for its number.
pub fn shown_is_read()
    ensures { ShownIsRead }
{}

/// Following changes its journal by steps of a world alone, over a disk that tells its contents: where each answer that it reads shows a response that
/// the world's primary made, steps of the standby lead to what it left, and each image of a moment of the call is one on the way (`steps`). So its list
/// begins the primary's, and so does each such image, where the world had come of an empty standby (`begins`).
pub fn following_is_steps<L: Link, D: Disk>()
    ensures steps { (port most : ℕ) (old new : JournalData D) (link left : LinkData L.Line) (broken failed : ℕ) (end : FollowEnd) (w : World)
        → (followed : Followed D.state D.faults (read_side L.Line.Source) (written_side L.Line.Sink)
        port most old new link left broken failed end)
        → IsTold (D.state old.disk) → w.standby ≡ standby_of old → ComeFrom w.made followed.requests → GoesOn D.state old new w }
    ensures begins { (old new : JournalData D) (w : World) → IsReached w → GoesOn D.state old new w → Begins D.state old new w }
{}
