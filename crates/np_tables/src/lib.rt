//! The tables of a state of the machine, in vectors.
//!
//! `Tables` has the rows of a state (np_look) and the room that its vectors have. An event's changes
//! (np_changes) are made in two steps: `reserve` takes the memory that they need and leaves the state
//! as it is, and `change` makes them and can't fail.
//!
//! `vectors` has the lists, `keys` their orders, and `edits` what changes one request or one node.
//! `reserve` makes room, `grow` makes the one change that needs it, `settle` those that don't, and
//! `ends` says how a session that ends leaves its queues. `specs/CanChange` says what room an event
//! needs.
#![tactic(auto)]

mod edits;
mod ends;
mod grow;
mod handles;
mod keys;
mod queues;
mod reserve;
mod roles;
mod settle;
mod start;
mod tables;
mod vectors;

pub use keys::{HandleTable, NodeTable, RequestTable, SweptTable};
pub use reserve::Reserved;
pub use tables::Tables;
pub use vectors::Vectors;
