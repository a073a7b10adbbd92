//! What a tree is asked to do for the changes of an event, written out.
//!
//! np_layout defines the parts of the call, and `parts` makes them. What it needs of the state it reads
//! from rows that are handed in, and the names of waits at a lock from the tree, which stores the same
//! state. Each way of changing has a function of its own.
#![tactic(auto)]

mod call;
mod grow;
mod nodes;
mod ops;
mod records;
mod requests;

pub use call::parts;
