//! The decision: the answer to each event and what it changes, once for every representation of the
//! state.
//!
//! `decide` has one function for each event, a row of the machine's table. It reads the state
//! through np_look: most rows read `Rows` alone, and those that ask what a pool or a tenant uses,
//! which request is first or who has a node search by a `Look`. A row returns a refusal or a
//! `Verdict`: the answer to the event, and its `Changes`, which are np_changes' plan of it. Nothing
//! here keeps a state or makes the changes. `specs/Queues` says which queues a session leaves that
//! ends, for whoever makes them.
#![tactic(auto)]

// The event is refused, unless the test is passed.
macro_rules! ensure {
    ($test:expr, $refusal:expr) => {
        if !($test) {
            return Err($refusal);
        }
    };
}

mod decision;
mod node;
mod request;
mod semaphore;
mod session;
mod tests;
mod verdict;

pub use decision::decide;
pub use node::{
    decide_create, decide_done, decide_end_node, decide_free_node, decide_gone, decide_lock_node,
    decide_mark_deleting, decide_start, decide_sweep, decide_take_ready, decide_unlock_node,
};
pub use request::{
    decide_accept, decide_decline, decide_fail_declined, decide_fulfil, decide_lock_request,
    decide_min_ready, decide_register, decide_reset, decide_revise, decide_submit,
    decide_unlock_request,
};
pub use semaphore::{decide_acquire, decide_finish, decide_release, decide_take, decide_withdraw};
pub use session::{decide_crash, decide_expire, decide_open, decide_tick};
pub use tests::missing_handles;
pub use verdict::{Ruling, Verdict};
