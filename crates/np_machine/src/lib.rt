//! The machine, defined: the answer to each event, and the state that it leaves.
//!
//! The definitions are in `specs/`: read `State`, then `Step`, which names the row of each event,
//! then the row itself in `Request`, `Node`, `Semaphore` or `Session`. They use only lists and
//! numbers: no path, no index, no room. `law` has what they say together.
//!
//! The code here is what the state's lists hold. What keeps a state is in the crates above.
#![tactic(auto)]

mod law;
mod queue;
mod state;

pub use law::{
    a_journal_leads_to_one_state, a_live_holder_has_held_since_an_entry,
    a_live_holder_of_a_request_has_locked_it, a_prefix_runs_too, a_refusal_changes_nothing,
    an_accepted_event_is_one_act_of_its_role, the_next_numbers_never_fall,
};
pub use queue::{Queue, count_ahead, holder_of, is_in};
pub use state::{Locked, NodeEntry, Registration, RequestEntry, SessionFacts, Swept};
