//! The rooms of queues, in their order: how many files each may hold.
ghost use Rattle.std.specs.Prelude.{◌≡◌, ◌≤◌, ◌<◌, length, vec_len, vec_capacity};
ghost use Rattle.std.specs.List.{prefix_len};
ghost use Rattle.fts_queue.specs.WaitingData.{is_queue_before, is_room_of, with_room, AreQueuesInOrder};

use fts_tables::LinkAt;

/// How many files may wait on a link under an activity.
#[derive(Clone, Copy, Debug, PartialEq, Eq)]
pub struct QueueRoom {
    pub link: LinkAt,
    pub activity: u16,
    pub room: usize,
}

/// Whether a room's queue stands before another.
fn is_queue_before(room: &QueueRoom, link: LinkAt, activity: u16) -> bool
    ensures answer { result ≡ is_queue_before room.now.link room.now.activity link activity }
{
    room.link.source < link.source
        || (room.link.source == link.source
            && (room.link.dest < link.dest
                || (room.link.dest == link.dest && room.activity < activity)))
}

/// Whether a room is a queue's.
fn is_room_of(room: &QueueRoom, link: LinkAt, activity: u16) -> bool
    ensures answer { result ≡ is_room_of link activity room.now }
{
    room.link.source == link.source && room.link.dest == link.dest && room.activity == activity
}

/// How many queues stand before one.
fn place_of(rooms: &[QueueRoom], link: LinkAt, activity: u16) -> usize
    requires order { AreQueuesInOrder rooms.now }
    ensures place { result ≡ prefix_len (λ room. is_queue_before room.link room.activity link activity) rooms.now }
    ensures inside { result ≤ length rooms.now }
{
    rooms.partition_point(|room| is_queue_before(room, link, activity))
}

/// Raises the room of a queue to a number, or puts it in, in memory that is there.
pub fn raise(rooms: &mut Vec<QueueRoom>, link: LinkAt, activity: u16, wanted: usize)
    requires order { AreQueuesInOrder rooms.old.items }
    requires memory { vec_len rooms.old < vec_capacity rooms.old }
    ensures rooms { rooms.new.items ≡ with_room link activity wanted rooms.old.items }
{
    let place = place_of(rooms.as_slice(), link, activity);
    if place < rooms.len() && is_room_of(&rooms[place], link, activity) {
        let room = &mut rooms[place];
        room.room = room.room.max(wanted);
    } else {
        let _ = rooms.insert(
            place,
            QueueRoom {
                link,
                activity,
                room: wanted,
            },
        );
    }
}
