//! What a run of `follow` leaves, in a world of a primary and its standby (`fts_standby`, `specs/Worlds.antt`).
//! A law is a function without parameters that does nothing: its clause speaks of every run.
ghost use Rattle.std.specs.Prelude.{◌≡◌, ℕ, List, Option, None};
ghost use Rattle.fts_disk.specs.Disk.{IsTold};
ghost use Rattle.fts_client.specs.Links.{LinkData, read_side, written_side};
ghost use Rattle.fts_standby.specs.Worlds.{World, StandsForPrefix, spellings};
ghost use Rattle.fts_standby.specs.Reaching.{ComeFrom, IsReached};
ghost use Rattle.fts_following.specs.Runs.{RunsFollowing};
ghost use Rattle.fts_following.specs.declared.ends.FollowRunEnd.{FollowRunEnd};

use fts_client::Link;
use fts_disk::Disk;
use fts_standby::laws::following_is_steps;

/// Over a disk that tells its contents: where a world that came of an empty standby has the opened journal's list as its standby's, with nothing in
/// doubt, and each answer that the run reads shows a response that the world's primary made, each image that the run leaves stands for a beginning
/// of the primary's list.
pub fn a_run_leaves_a_beginning<L: Link, D: Disk>()
    ensures { (port tries : ℕ) (disk left : D) (old new : LinkData L.Line) (broken failed : ℕ) (held now : Option (List ℕ)) (end : FollowRunEnd) (w : World)
        → (run : RunsFollowing D.Disk (read_side L.Line.Source) (written_side L.Line.Sink)
        port tries disk left old new broken failed held now end)
        → IsTold (D.state disk) → IsReached w → w.standby ≡ record { list = run.opened.bodies; doubt = None } → ComeFrom w.made run.followed.requests
        → (content : List ℕ) → (D.state left).may_leave content → StandsForPrefix (spellings w.primary) content }
{
    following_is_steps::<L, D>();
}
