//! Groups of the nodes and of the requests of a state, for what is asked of all of one kind; and what
//! the changes of an event touch, for whatever is kept beside a state.
//!
//! `specs/Touched` says which nodes, requests, queues of requests, jobs and sessions an event's
//! changes may change, and `touched_by` lists them before it. `proofs/Untouched` has the law: what
//! isn't touched has the same record and the same queue after the changes, a job also the same
//! handles and, while it asks for its nodes, the same request. `specs/Placed` says when ids are in
//! groups by the groups of each id (`AreGrouped`), and `proofs/MemberLemmas` that they still are
//! once those that are touched have moved.
//!
//! `specs/Classes` says which groups a record is in, and when the members of all groups are those
//! of a state. `Classes` keeps them as each event changes the state: `prepare` lists the nodes and
//! requests that the event's changes touch, with the groups that they are in, and takes the memory;
//! once the state has changed, `note` moves what is elsewhere now, which can't fail. A node is touched
//! too when the request that it is allocated to goes away, since it is unclaimed from then on. A
//! request whose queue alone changes leaves one group only: that of the pending ones that nobody
//! holds. An event changes the record of one request at most.
#![tactic(auto)]

mod classes;
mod group;
mod members;
mod past;
mod touched;

pub use classes::Classes;
pub use group::{
    coming_group, declined_group, free_group, kind_group, next_label_group, pending_group,
    pinned_label_group, spare_group, spent_group, tenant_group, unheld_group, unheld_pending_group,
};
pub use past::Past;
pub use touched::{Touched, touched_by};
