//! The laws of files that wait, for whoever counts and claims them: each a function without parameters whose clauses are the law.
//! Their words stand in `specs/WaitingData.antt`. A crate above cites a law by calling it.
ghost use Rattle.std.specs.Prelude.{
  ◌≡◌,
  ◌+◌,
  ◌&&◌,
  ◌||◌,
  ◌==◌,
  ◌++◌,
  ◌∷◌,
  ℕ,
  Bool,
  true,
  false,
  List,
  length,
  max,
  filter,
  find,
  if◌then◌else◌,
  IsTrue,
  IsFalse,
};
ghost use Rattle.std.specs.List.{list_any};
ghost use Rattle.fts_tables.specs.Choice.{least};
ghost use Rattle.fts_tables.specs.declared.settings.LinkAt.{LinkAt};
ghost use Rattle.fts_queue.specs.declared.waiter.Waiter.{Waiter};
ghost use Rattle.fts_queue.specs.declared.rooms.QueueRoom.{QueueRoom};
ghost use Rattle.fts_queue.specs.WaitingData.{
  AreSortedBy,
  AreApart,
  AreQueuesInOrder,
  goes_before,
  with_waiter,
  without_file,
  in_order,
  is_waiting,
  is_room_of,
  room_of,
  with_room,
};

/// The order depends on the set alone: files none of which waits twice come into it from any list of them, and each may come in or go last.
pub fn order_is_of_the_set()
    ensures inserted { (before after : List Waiter) (waiter : Waiter) → AreApart (before ++ waiter ∷ after)
        → in_order (before ++ waiter ∷ after) ≡ with_waiter waiter (in_order (before ++ after)) }
    ensures removed { (before after : List Waiter) (waiter : Waiter) → AreApart (before ++ waiter ∷ after)
        → without_file waiter.file (in_order (before ++ waiter ∷ after)) ≡ in_order (before ++ after) }
    ensures sorted { (waiters : List Waiter) → AreApart waiters → AreSortedBy goes_before (in_order waiters) × AreApart (in_order waiters) }
    ensures stays { (waiters : List Waiter) → AreSortedBy goes_before waiters → in_order waiters ≡ waiters }
{}

/// What is asked of the files in their order is asked of the files: whether one passes, how many pass, and which.
pub fn filters_keep_the_order()
    ensures any { (passes : Waiter → Bool) (waiters : List Waiter) → list_any passes (in_order waiters) ≡ list_any passes waiters }
    ensures count { (passes : Waiter → Bool) (waiters : List Waiter) → length (filter passes (in_order waiters)) ≡ length (filter passes waiters) }
    ensures which { (passes : Waiter → Bool) (waiters : List Waiter) → AreApart waiters
        → filter passes (in_order waiters) ≡ in_order (filter passes waiters) }
    ensures one_more { (passes : Waiter → Bool) (waiter : Waiter) (waiters : List Waiter)
        → length (filter passes (with_waiter waiter waiters)) ≡ (if passes waiter then 1 else 0) + length (filter passes waiters) }
    ensures any_more { (passes : Waiter → Bool) (waiter : Waiter) (waiters : List Waiter)
        → list_any passes (with_waiter waiter waiters) ≡ (passes waiter || list_any passes waiters) }
{}

/// The first that passes, in their order, is the best of all that pass, in whatever order these are listed.
pub fn first_is_the_best()
    ensures best { (passes : Waiter → Bool) (waiters : List Waiter) → AreApart waiters
        → find passes (in_order waiters) ≡ least goes_before (filter passes waiters) }
{}

/// A queue's room is raised to what is asked for, and never falls; every other queue's stays.
pub fn rooms_are_raised()
    ensures raised { (link : LinkAt) (activity wanted : ℕ) (rooms : List QueueRoom) → AreQueuesInOrder rooms
        → room_of link activity (with_room link activity wanted rooms) ≡ max (room_of link activity rooms) wanted }
    ensures others { (link other : LinkAt) (activity other_activity wanted : ℕ) (rooms : List QueueRoom)
        → is_room_of other other_activity (record { link = link; activity = activity; room = wanted }) ≡ false
        → room_of other other_activity (with_room link activity wanted rooms) ≡ room_of other other_activity rooms }
{}
