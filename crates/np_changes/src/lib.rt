//! What an accepted event changes, as data, that this is the machine's step, and what holds of every
//! journal that the machine produces, after every step of it.
//!
//! `changes` has the changes: one thing that may take memory, and what may not fail. `specs/Changes`
//! says what a change does to the state, `specs/Plan` names the changes of each event, and the law in
//! `law` says that both together are the machine's step. `specs/Premises` says what the tests of an
//! accepted event have shown of each change, which is the other law. `specs/Planned` says which changes
//! a keeper of a state is given.
//!
//! `specs/Fits` says when a state fits: its numbers leave room for one more event, and its rows for
//! one more member (`Fits`); and what a configuration must be for that (`IsFitSite`). The laws in
//! `numbers` say that every state of a run fits, and that a sound configuration is such a site.
//!
//! `safe`: every run is safe. `specs/Parts` says what holds of every state that a run leads to, part
//! by part (`Invariant`). Each part is kept by what an accepted event changes; a file of `proofs` has
//! the lemmas of one part, by the kind of change.
//!
//! `kept`: no crash and no expiry loses a record, and a node is changed by its holder alone (`Kept`
//! and `Fenced` of np_machine). `proofs/Accepted` says what each event removes.
//!
//! `caused`: a request fails only with its cause (`Caused` of np_machine). `proofs/Turns` says what
//! holds for the past turns and the state after them: that each decline was made, how a pinned
//! request is, and how many reports each node had. It shows that each of them is kept, and finds the
//! cause of a turn by them.
#![tactic(auto)]

mod asked;
mod caused;
mod changes;
mod kept;
mod law;
mod numbers;
mod safe;

pub use asked::Asked;
pub use caused::{
    a_request_failed_only_with_its_cause, a_request_failed_only_with_its_cause_after_every_step,
};
pub use changes::{
    Changes, Deed, Growth, HandlesChange, JobsChange, Maker, NodesChange, RequestEdit,
    RequestsChange, SAME, SessionsChange,
};
pub use kept::{
    each_change_of_a_node_is_its_holders, every_run_is_kept_and_fenced_after_every_step,
    no_crash_and_no_expiry_loses_a_record,
};
pub use law::{
    an_accepted_event_changes_what_is_planned, the_changes_of_an_accepted_event_have_their_premises,
};
pub use numbers::{a_sound_configuration_is_a_fit_site, the_numbers_of_every_run_fit};
pub use safe::{
    a_fulfilled_request_owns_its_labels_in_order_from_one_pool, a_live_holder_is_the_holder,
    every_run_is_safe_after_every_step, every_state_of_a_run_is_as_the_parts_say,
    no_node_and_no_request_has_two_live_holders, no_pool_passes_its_limit,
    no_semaphore_passes_its_max, no_tenant_passes_its_limit,
};
