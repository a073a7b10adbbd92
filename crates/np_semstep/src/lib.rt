//! The events of semaphores, over a coordination tree that the caller has.
//!
//! `specs/Groups` says which events these are. `judge_semaphore` answers one of them, and
//! `enact_semaphore` makes the changes of one that is accepted. A law says that each event is in one
//! group: of requests, of nodes, of semaphores or of sessions.
#![tactic(auto)]

mod law;
mod semaphores;

pub use law::each_event_is_of_one_group;
pub use semaphores::{enact_semaphore, judge_semaphore};
