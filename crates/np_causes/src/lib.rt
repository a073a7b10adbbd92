//! Why a job waits, as a list of facts about a state.
//!
//! A fact (`Fact`) says one thing of one part of the state (`Thing`), and may name others. `causes`
//! begins with the job, and adds a fact about each thing that a fact before it names, so that the
//! list leads from the job down to what it waits for: a session that is gone, a pool that is full, a
//! launch that is under way. It ends with facts that name nothing that has not been told.
//!
//! `specs/Fact` says what each fact means, in the definitions of the machine, `specs/Explains`
//! which things it names, and what a list of facts has to be to explain a job.
#![tactic(auto)]

mod explain;
mod fact;
mod job;
mod names;
mod near;
mod pool;
mod request;
mod role;
mod same;
mod tell;
mod worked;

pub use explain::{causes, waits};
pub use fact::{Fact, Thing, about};
pub use names::{Place, named};
pub use same::is_same;
pub use tell::fact_of;
pub use worked::{
    a_launcher_is_lost, a_launcher_stopped, a_node_is_launched_again, a_pool_has_no_room,
    a_request_is_not_taken, a_request_is_taken_up, a_requester_is_gone, a_semaphore_is_full,
    a_tenant_has_no_room, a_window_is_full, nobody_is_registered,
};
