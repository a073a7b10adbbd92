//! What a launcher does next: a useful event of its own (np_useful), or none if and only if there
//! is none. The choice keeps no memory, and reads the state through `Look`.
//!
//! A launcher takes the first useful event in this order, and within a kind the first in the order
//! of its table. It finishes before it begins, and takes a free node before it makes one.
//!
//! | event | why it is in this place |
//! |---|---|
//! | open | a launcher without a session can do nothing else |
//! | register | everything else waits for it |
//! | done | a launch that is over is reported |
//! | fulfil | the request's job can begin |
//! | unlock-node | requesters and janitors may have the node |
//! | unlock-request | others may have the request |
//! | start | a node that was made is launched |
//! | take-ready | a ready node costs no launch |
//! | create | the request's next node |
//! | decline | the other pools may serve the request |
//! | accept | the request is this pool's |
//! | lock-request | takes up another request |
//! | min-ready | requests a node that no job waits for |
//!
//! `request` tests one request or node, and `requests` looks for requests that pass a test. `rows`
//! has the conditions of whole rows, `computed` the events that name more than a request or a node,
//! and `launcher` the choice. `planned` has the choice among those kinds of events that may be chosen
//! on one state and committed on a later one.
//!
//! A choice costs what the launcher's own session queues for, and not all that there is: for each
//! kind of event it tests the requests or nodes in whose queues the session is, and each of these
//! takes a few lookups. Whether a node is still needed, and whether it is to be started, costs a
//! lookup of the node and one of the request that it is allocated to: in a state that a run
//! reaches, no other pending request has it in its list. Which ready node a request may be given
//! costs one search for the first that is free, and the test of that one. For a lock it searches
//! once for the first open request, and tests that one alone, whose judge makes the search again;
//! whether the session has a request in hand is asked of those in whose queues it is, and whether
//! one is under way is a single question, whether a request that is pending by the pool lacks a
//! node. If the provider limits how many requests its launchers work on, they are counted pool by
//! pool: how many the pool serves, which is one number, and of those in whose queues the pool's
//! registered session is, the ones that no pool of the provider serves. In a state that a run
//! reaches, no other launcher of the pool is in the queue of a request. For min-ready it tests each
//! label. What is left are the scans of the readers of `Look` for a search, for a request under way
//! and for a label (the count of ready nodes, what the pool uses), where a representation keeps no
//! index or number for it.
#![tactic(auto)]

mod computed;
mod launcher;
mod near;
mod planned;
mod request;
mod requests;
mod rows;

pub use launcher::choose_launcher;
pub use planned::choose_planned;
pub use request::{
    has_failed_node, is_as_planned, is_done_with, is_listed, is_pending_by, is_spent,
};
pub use requests::{has_request_in_hand, has_turn_left, is_to_launch};
pub use rows::{is_node_done_with, is_planned_report, is_registrant, is_unfailed, may_take_up};
