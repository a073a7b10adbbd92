//! What can be read of a state of the machine, whatever keeps it.
//!
//! `Rows` reads rows: the tables have it, and a coordination tree. `Look` searches them, and lends
//! the rows that it searches: whoever keeps an index answers by the index, and `Scan` walks any
//! rows, place by place. `Store` is where the changes of a state are written. `predicates` has what
//! is true of one row and of those that it names, `walk` what a walk asks of each row, and `count`
//! and `tenant` what the configuration alone says of pools and tenants.
//!
//! `keys` has the orders of ids, in which every table of such rows is: nodes, jobs and sessions by
//! number, requests by priority and then sequence, swept pairs by node and then server. `specs/Keys`
//! has the facts about them.
#![tactic(auto)]

mod asked;
mod count;
mod keys;
mod look;
mod predicates;
mod rows;
mod scan;
mod store;
mod tenant;
mod walk;

pub use asked::{NodeView, RequestView, UnheldKind};
pub use count::{
    NOTHING, amount, amount_of_all, first_unoffered, is_offered, is_too_much, lacks_room, offers,
    ready_age, retries,
};
pub use keys::{ByJob, ByNode, ByRequest, BySession, BySwept, JobTable, SweptTable};
pub use look::Look;
pub use predicates::{
    ahead_at_node, first_full, given_to, has_handles, is_declined_by_all, is_full, is_given_to,
    is_job_to_acquire, is_job_to_begin, is_job_to_release, is_job_to_take, is_last_pool,
    is_supplied, is_unclaimed, node_holder, request_holder, request_state, undeclined,
    waits_at_node,
};
pub use rows::Rows;
pub use scan::Scan;
pub use store::Store;
pub use tenant::{is_short_of, limited_tenant, rest_of, tenant_never_fits, tenant_of_job};
pub use walk::{
    asked_of, comes_before, declines_or_is, due_of, is_coming, is_declined_by, is_free_ready,
    is_job_to_finish, is_live_of, is_marked, is_mute, is_open_to, is_requester, is_same_role,
    is_spent_min_ready, speaks_for, unheld_kind, was_given,
};
