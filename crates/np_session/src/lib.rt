//! The sessions of the tree, by number: which were begun, which are live, and which are mute.
//!
//! `specs/Known` is what contracts see of `Sessions`, and what each call changes of it.
//!
//! No number is used twice, a mute session is live, and each call by number takes the same
//! time however many sessions there are.
#![tactic(auto)]

mod fault;
mod sessions;

pub use fault::SessionFault;
pub use sessions::Sessions;
