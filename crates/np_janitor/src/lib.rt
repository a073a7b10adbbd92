//! What a janitor and the reaper do next: a useful event of theirs (np_useful), or none if and only
//! if there is none. The choices keep no memory, and read the state through `Look`.
//!
//! A janitor takes the first useful event in this order, and within a kind the first in the order
//! of its table; of the nodes to lock it takes one that is due first. What it holds comes first,
//! since that makes room; what takes a new lock comes last.
//!
//! | event | why it is in this place |
//! |---|---|
//! | open | a janitor without a session can do nothing else |
//! | gone | a deleted node leaves room in its pool |
//! | free-node | a ready node goes to the next request |
//! | mark-deleting | the node can go next |
//! | unlock-node | the node is left to others |
//! | reset | all pools may serve the request again |
//! | unlock-request | launchers may take it up |
//! | fail-declined | the request's job can end |
//! | finish | the nodes of an abandoned job can be cleaned up |
//! | release | other jobs can have the semaphores |
//! | lock-request | begins to give a request back |
//! | lock-node | begins to clean up a node |
//!
//! The reaper first expires the oldest session that is live and mute, which frees what it holds.
//! Then it goes through the configuration's faults in order: if the next fault of a fault's role is
//! due, it expires or crashes the role's current session.
//!
//! A janitor's choice reads only what it may act on. It determines once whether the pool is paused.
//! Then it tests, kind by kind and up to the first useful event,
//!
//! - the requests and nodes in whose queues its session is, for what only a session in a queue may
//!   do,
//! - while a pool of the configuration has no registration, the first request that is requested and
//!   that every registered pool declined, for fail-declined: once each pool has its registration,
//!   each request that is requested has a registered pool left that has not declined it,
//! - of each requester that stopped for good and has no live session the jobs that use their nodes,
//!   or have asked for them and whose request failed, for finish,
//! - of each requester the jobs that are over and have a handle, for release,
//! - for lock-request the first request that is pending by the pool and that nobody holds: the
//!   machine lets a janitor lock only a request that nobody holds, and
//! - for lock-node four nodes at most: of the pool's nodes that nobody holds the one that is due
//!   first, by kind, first of the abandoned (building, in use, used, deleting or failed), then of
//!   the ready ones whose request is gone, of those on hold, and of the free ones. If that one need
//!   not be cleaned up, no other of its kind need be.
//!
//! Each of these is a reader of `Look`, and so is its session. If the state keeps an index, the
//! reader is a lookup, or a few as said below, and the choice costs nothing for the other requests,
//! nodes, jobs and sessions. So its cost grows with what the session queues for, and with the limit
//! of requesters and the configuration's faults. Release costs one lookup for each requester and
//! one judged event, whatever the number of handles and of jobs, since the first job that it looks
//! up can be released. Finish costs the same, whatever the number of jobs, and a walk of the
//! configuration's faults for each requester that lost a session and has none: in a state that a
//! run reaches, the machine lets a janitor finish the first job that it looks up. Lock-request costs
//! one lookup, however many requests are pending by the pool. Lock-node costs a few lookups for each
//! of four kinds, however many nodes the pool has. Fail-declined costs a few for each different set
//! of pools that declined a request, and only while a pool of the configuration has no registration.
//! A test of a node determines whether another pool is paused only if the janitor waits at a node of
//! that pool.
//!
//! The oldest mute session and the current session of a role are such readers, too. So the cost of
//! the reaper's choice grows with the configuration's faults and not with the sessions: a fault for
//! which its role has not acted enough costs a lookup, and any other a walk of the faults up to the
//! role's next one, or of all if none is left.
#![tactic(auto)]

mod cleanable;
mod janitor;
mod listed;
mod reaper;

pub use janitor::choose_janitor;
pub use reaper::choose_reaper;
