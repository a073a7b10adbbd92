//! An index of a state, so that its readers need not search it.
//!
//! `Index` has lookups of jobs, queues and owners, and the requested requests in lines of those that
//! are alike, each in the order in which launchers take them up (np_lookups), groups of nodes and
//! requests (np_classes), what the pending requests of each tenant still wait for (`Awaited`), groups
//! of jobs by what is next for them and of sessions, and the nodes that were given to each requester
//! (np_active); `specs/Index` says when it is the index of a state.
//!
//! What pools, labels and tenants use is answered by the groups. Each answer is that of the reader of
//! the same name in np_look, which walks all nodes or all requests. Here it costs a few binary
//! searches, or a few for each label that requests wait for, for each set of pools that declined, or
//! for each pool and label of which a tenant has nodes.
//!
//! `Awaited` has one amount for each tenant. The sums are made anew by one walk over the requests. An
//! event changes the record of one request at most: `first_rest` reads what it waits for before, and
//! `note` puts what it waits for now in its place, which costs two additions. A reader costs one
//! lookup by the tenant's number.
//!
//! An event's changes are made in three steps: what may take memory before the state changes
//! (`prepare`), the state's change, and then the rest, which can't fail (`note`). If the state could
//! not change, `take_back` undoes the first. `specs/Index` says what holds between them, so who
//! keeps an index need not know its parts (np_rules).
#![tactic(auto)]

mod amounts;
mod awaited;
mod candidates;
mod change;
mod declined;
mod index;
mod kinds;
mod label;
mod pool;
mod room;
mod tenant;

pub use awaited::Awaited;
pub(crate) use awaited::{Rest, first_rest};
pub use change::{Prepared, ending};
pub(crate) use declined::first_declined_by_all;
pub use index::Index;
pub(crate) use kinds::{first_due, first_unheld_pending, pending_requests};
pub(crate) use label::{has_spent_min_ready, ready_count};
pub(crate) use pool::{free_ready, has_request_under_way, has_spare, is_paused, used};
pub(crate) use room::blocking;
pub(crate) use tenant::used_by;
