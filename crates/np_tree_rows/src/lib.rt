//! The rows of the state that a tree stores, read from the tree. No reader takes memory.
//!
//! `TreeRows` has np_look's `Rows`: the state is the one that np_layout reads from the tree. Below it
//! each reader answers what the stored state has, whichever state that is. `children` and `waits_at`
//! alone speak of the tree's own nodes. A path is written into an array, and found in time
//! logarithmic in the number of nodes.
#![tactic(auto)]

mod bytes;
mod directory;
mod job_table;
mod node_table;
mod queues;
mod request_table;
mod rows;
mod semaphores;
mod session_table;
mod tree_rows;

pub use directory::{children, waits_at};
pub use tree_rows::TreeRows;
