//! Lookups of jobs, queues and owners beside a state, and of its open requests in their lines, so that
//! its readers need not search it.
//!
//! `Lookups` has the parts below; `specs/Lookups` says when they are those of a state. Each part
//! answers readers of `Look` (np_look):
//!
//! | part | readers |
//! |---|---|
//! | `unfinished`, for each requester its jobs that are not over | `unfinished` |
//! | `requests`, for each session the requests in whose queues it is | `queued_requests`, `queued_request_at` |
//! | `nodes`, for each session the nodes in whose queues it is | `queued_nodes`, `queued_node_at` |
//! | `owners`, for each node the job that has it | `owner` |
//!
//! An event's changes are made in three steps: what may take memory before the state changes
//! (`prepare`), the state's change, and then the rest, which can't fail (`settle`).
//!
//! `Open` has the requested requests in lines, each line in the order in which launchers take requests
//! up, and for each pool those of a line that are closed to it. Lines are there so that a launcher's
//! search passes over a tenant that is at its limit, however many of its requests wait. The requests
//! of a line ask for the same labels for the same tenant, and none is pinned. Whether the tenant has
//! room for a request depends on nothing else of it, so if it has none for one of a line it has none
//! for any (`line-blocks` in `proofs/LineLemmas`). Line 0 is the common one, whose requests have
//! nothing in common: they are pinned, or without a job, or their tenant has no limit, or their labels
//! are not those of their job.
//!
//! `specs/Open` says in which line a record is, by a list of jobs that are alike. Nothing is
//! assumed of that list, since a request is compared with the job that it names. It says
//! which groups a record is in, and when the members of all groups are those of a state. The closed
//! requests of a line are a part of it, in the same order, so `open_from` finds where a run of them
//! ends by counts. `Open` keeps the groups as each event changes the state: `prepare` lists the
//! requests that the event's changes touch, with their records, and takes the memory; once the
//! state has changed, `note` moves what is elsewhere now, which can't fail.
#![tactic(auto)]

mod change;
mod group;
mod lines;
mod lists;
mod lookups;
mod moves;
mod owners;
mod queues;
mod ranks;
mod requests;
mod runs;
mod unfinished;
mod waits;

pub use change::Prepared;
pub use lookups::Lookups;
pub use ranks::{ByRank, Rank};
pub use requests::{Moved, Open};
