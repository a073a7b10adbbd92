//! The lists of the coordination tree: its nodes and marks in their order, searches in them, and the
//! edits of them.
//!
//! The definitions of a call are here too, since the edits are proved against them: read
//! `specs/TreeState` and `specs/Nodes`, then `specs/Answer` and `specs/After`, and `specs/Multi` and
//! `specs/Calls`. A `NodeLists` makes an edit without memory, and answers the edit that undoes it;
//! planning an edit takes all memory first. Sessions, change numbers and calls are np_tree's.
//!
//! Nodes are in their order, and there is a mark for each ephemeral node and no other: this is
//! `IsKept`, which each edit that is planned here keeps.
#![tactic(auto)]

mod bytes;
mod edit;
mod find;
mod kind;
mod lists;
mod mark;
mod node;
mod op;
mod plan;
mod refusal;
mod release;
mod step;

pub use bytes::Bytes;
pub use edit::Edit;
pub use find::{Found, Spot};
pub use kind::{Expect, Mode, Stat};
pub use lists::NodeLists;
pub use node::Node;
pub use op::{Op, OpDone};
pub use plan::child_path;
pub use refusal::{MultiFault, TreeFault, TreeRefusal};
