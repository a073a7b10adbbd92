//! The events of requests, over a coordination tree that the caller has.
//!
//! `specs/Requests` says which events these are. `judge_request` answers one of them, and
//! `enact_request` makes the changes of one that is accepted.
#![tactic(auto)]

mod requests;

pub use requests::{enact_request, judge_request};
