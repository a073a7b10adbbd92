//! Laws of queues. Each function does nothing: its contract is the law.

ghost use Rattle.np_lock.specs.Calls.{EmptiesAreLocks, EndsLeave, PartsJoin, PartsLeave, QueuesAreShown};

/// The rows and the counter of a directory determine its queue. A directory without children is a
/// lock that nobody waits for.
pub fn queues_are_what_is_shown()
    ensures shown { QueuesAreShown }
    ensures empty { EmptiesAreLocks }
{}

/// The part that [`enqueue_op`](crate::enqueue_op) makes puts its session at the end of the queue,
/// once it is accepted.
pub fn parts_join()
    ensures { PartsJoin }
{}

/// The part that [`release_op`](crate::release_op) makes is accepted if there is a change number,
/// and takes its session out of the queue.
pub fn parts_leave()
    ensures { PartsLeave }
{}

/// The end of a session takes it out of each queue.
pub fn ends_leave()
    ensures { EndsLeave }
{}
