//! The events of nodes, over a coordination tree that the caller has.
//!
//! `specs/Nodes` says which events these are. `judge_node` answers one of them, and
//! `enact_node` makes the changes of one that is accepted. `law` says that a node's record may stand
//! in the tree in either of its spellings.
#![tactic(auto)]

mod law;
mod nodes;

pub use law::a_respelled_node_is_the_same;
pub use nodes::{enact_node, judge_node};
