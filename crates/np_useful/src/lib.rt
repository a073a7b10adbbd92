//! When an event is useful: what each party does next in a run, when nothing is left to do, when a
//! journal came about in this way, and what the choices of all roles share.
//!
//! The definitions are in `specs/`: read `Useful`, then the role's rows in `Launcher`, `Requester`,
//! `Janitor` or `Reaper`, one line for each kind of event. A kind without a line is never useful.
//! `Settled` and `Driven` are based on `Useful`. All of them use the machine's state alone.
//! np_worked has examples of both sides, and cases that the definitions refuse.
//!
//! A role has rows (`RoleRows`), which say whether an event is useful as far as the role is
//! concerned. The candidates of a kind of event (`EventKind`) are the events of the current session
//! that name what is in the kind's table, place by place; where the machine accepts an event only
//! from a session in the queue of what it names, they name only what the session queues for. A
//! candidate is tested by the machine's judge and then by its row, and the first that passes is
//! chosen. Releases have a search of their own (`first_release`), among the jobs of one requester:
//! it tests only those that are over and have a handle. Other searches are of one role, and stand
//! with its choice: some have candidates of their own (`Candidates`) for `first_that_passes`.
//! `specs/Useful` says what a choice returns: a useful event, or none if and only if there is none.
#![tactic(auto)]

mod first;
mod kind;
mod of_kind;
mod release;
mod rows;
mod session;

pub use first::{Candidates, first_that_passes};
pub use kind::{EventKind, JobKind, NodeKind, RequestKind, job_event, node_event, request_event};
pub use of_kind::{first_of_kind, first_of_kinds};
pub use release::first_release;
pub use rows::{RoleRows, passes};
pub use session::{choose_opening, current_session, fault_of, is_stopped, may_open, strikes_of};
