//! Locks of the coordination tree.
//!
//! A lock is a directory. A session that waits for it has one ephemeral sequence node there, and
//! the lowest holds (ZooKeeper's lock recipe). `specs/Calls` defines the queue of a directory, a
//! list of sessions, and what each call answers and changes of it. Each call requires
//! that the children of the directory are such nodes (`IsLock`), and keeps that true: a directory
//! without children is a lock, and the laws of `laws.rt` say what keeps it one.
#![tactic(auto)]

mod answer;
mod laws;
mod lock;

pub use answer::{LockFault, Place, Tried};
pub use laws::{ends_leave, parts_join, parts_leave, queues_are_what_is_shown};
pub use lock::{enqueue, enqueue_op, holder, release, release_op, try_lock, waiting_at};
