//! What a requester does next: one useful event of its own, or none if and only if there is none;
//! and what any role does next.
//!
//! The kinds of events are tried in this order, and the first event that is useful is chosen.
//!
//! | What | Tried on |
//! |---|---|
//! | end-node, unlock-node, finish | each job that uses its nodes or whose request failed, in order |
//! | lock-node | the first node to lock, by number |
//! | take, acquire | each job that was given its nodes and need not wait for handles, in order |
//! | acquire | the first job that was given its nodes, waits for handles and finds room |
//! | release | each of its jobs that is over and has a handle, in order |
//! | acquire, submit | the first of its new jobs that need not wait, if it is in the window |
//! | end-node, unlock-node | each node to leave, by number |
//! | open a session | if it has none |
//!
//! A job was given its nodes if it has asked for them and its request is fulfilled, and then the
//! nodes were given to the requester. It locks each of them in whose queue its session is not, and
//! leaves each other node in whose queue its session is. A job gets the handles of all its
//! semaphores at once, so it need not wait for handles if it has one, or has no semaphores. A job
//! that waits for handles finds room if none of its semaphores is full. The readers of `Look` name
//! these jobs and nodes.
//!
//! No other job or node has a useful event of these kinds. A job whose request is requested or
//! pending waits for its nodes. A job that waits for handles can't be taken, and it acquires them
//! only if it finds room. A new job waits if it is past the window, or if it does not ask for its
//! nodes first and lacks a semaphore that is full. The first new job that need not wait for
//! semaphores has a useful acquire or submit if it is in the window, and if it is past the window,
//! so are those after it.
//!
//! So the cost of a choice grows with the jobs that use their nodes or whose request failed, with
//! the jobs that need not wait for handles but whose nodes others hold, and with the nodes to
//! leave, and it stops at the first of these that has a useful event. Everything else is a few
//! lookups. The lock of the first node to lock is always useful, and so is the acquire of the first
//! job that waits for handles and finds room, so neither is judged. A release costs one lookup and
//! at most one judged event: of the jobs that are over and have a handle, the first can be
//! released. An acquire or a submit of a new job costs one call of the reader `job_to_begin`, the
//! window test, which reads only the job and the last one in the window, and at most two judged
//! events. With an index, the readers `job_to_acquire` and `job_to_begin` cost a few lookups for
//! each different list of semaphores that jobs wait for. Jobs that wait for nodes, handles or
//! semaphores cost nothing, whatever their number, and locked nodes and handles cost nothing.
//!
//! A job that is under way comes before one that begins, and what is no longer needed is given back
//! first: a node before its job is finished, and handles before a new job begins, which may wait
//! for them. Which events are useful is defined in np_useful.
//!
//! Above the three choices stands what any role does next, whatever keeps the state, and whether
//! nothing is left to do.
//!
//! `choose` returns a useful event of a role (np_useful), or none if and only if there is none. A
//! role that is not in the configuration has none, since each session of a run belongs to a role of
//! the configuration (`law`). `is_settled` says whether no role has a useful event: a run that
//! proceeds by choices has then ended. No call takes memory.
#![tactic(auto)]

mod choice;
mod law;
mod leave;
mod node;
mod requester;
mod rows;
mod settled;
mod step;
mod window;

pub use choice::{choose, takes_part};
pub use law::{a_role_outside_is_idle, a_session_is_of_a_role_of_the_configuration};
pub use requester::choose_requester;
pub use settled::is_settled;
