//! Facts in their order, and the line of each, for people: why jobs wait, each thing told once.
//!
//! A line has each id with the configuration's own name beside it. `specs/Line` says how a thing
//! is called, and which line each fact has. A function that appends a text promises that
//! it is the definition's.
//!
//! `causes` of np_causes explains one job. `chains` explains all that wait, in one list: it begins
//! with a job, goes on with what the fact about it names, and what the facts about these name, and
//! so down to the cause, before it comes to the next job. What was told before is not told again
//! with all that it leads to: its fact comes once more, marked.
//!
//! `specs/Chains` says what such a list has to be.
#![tactic(auto)]

mod amount;
mod chain;
mod line;
mod part;
mod subject;
mod told;
mod walk;
mod words;

pub use amount::{limit_of_pool, limit_of_tenant, put_amount};
pub use chain::{Link, Next};
pub use line::put_line;
pub use part::put_reason_words;
pub use walk::chains;
pub use words::{
    put, put_job, put_label, put_node, put_pool, put_request, put_requester, put_role,
    put_semaphore, put_session, put_tenant,
};
