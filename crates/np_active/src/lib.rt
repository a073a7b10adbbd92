//! What requesters and sessions act on, in groups: the jobs of each requester by what is next for
//! them, the sessions that speak for each role, the live sessions that are mute, the live sessions of
//! each requester, and the nodes that were given to each requester.
//!
//! A job was given its nodes if it has asked for them and its request is fulfilled. A job to take was
//! given its nodes and need not wait for handles: it has one, or no semaphores. A job to finish uses
//! its nodes, or has asked for them and its request failed. Which jobs have a handle of a semaphore,
//! the rows of the state say.
//!
//! A new job waits for its semaphores unless it asks for its nodes first, has no semaphores or has
//! its handles already. A job that was given its nodes waits for them unless it is one to take. The
//! new jobs of a requester that wait for the same semaphores are in one line, and so are those that
//! were given their nodes. They have no handles, so a semaphore that is full blocks all of a line:
//! only the first is tested. The line of a job is the number of a job with the same semaphores,
//! which is found once, from the configuration.
//!
//! `specs/Active` says which groups a job and a session are in, and when the members of all groups
//! are those of a state, and which line a job is in. A job is in one group at most, by
//! its phase, and a session in two. `Active` keeps them as each event changes the state: `prepare`
//! lists the jobs and the sessions that the event's changes touch (np_classes), with the groups that
//! they are in, and takes the memory; once the state has changed, `note` moves what is elsewhere now,
//! which can't fail.
//!
//! | reader | members of which group | binary searches |
//! |---|---|---|
//! | `job_to_begin` | the requester's new jobs that wait for no semaphore, and those that wait in each line | 4, 2 for each line, and a lookup or two of handles for each semaphore of a job that is tested |
//! | `job_to_acquire` | the requester's jobs that were given their nodes and wait in each line | 1, 2 for each line, and a lookup or two of handles for each semaphore of a job that is tested |
//! | `job_to_take` | the requester's jobs to take | 1 |
//! | `job_to_finish` | the requester's jobs to finish | 1 |
//! | `job_to_release` | the requester's jobs that are over and have handles | 1 |
//! | `current_session` | the sessions that speak for the role | 3 |
//! | `first_mute` | the live sessions that are mute | 1 |
//! | `has_live_session` | the live sessions of the requester, mute or not | 1 |
//!
//! A node is given to a requester when it is allocated to a fulfilled request whose job, one of the
//! requester's, has asked for it. `specs/Given` says which groups such a node is in: that of its
//! requester, and one for each session in its queue. With these groups the first given node in
//! whose queue a session is not, and the nodes in whose queues it is and that were not given to its
//! requester, are found by rank, without a walk over the nodes.
//!
//! `Given` keeps the groups as each event changes the state: `prepare` lists the nodes that the
//! event's changes touch, with the groups that they are in, and takes the memory; once the state
//! has changed, `note` puts them where they are now. A node is touched too when the state of its
//! request or the record of that request's job changes.
#![tactic(auto)]

mod active;
mod begin;
mod given;
mod given_readers;
mod group;
mod jobs;
mod lines;
mod members;
mod past;
mod past_given;
mod prepare;
mod sessions;

pub use active::Active;
pub use given::Given;
pub use past::Past;
pub use prepare::Prepared;
