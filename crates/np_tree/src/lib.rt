//! The coordination tree: nodes with bytes, versions, owners and counters, changed by sessions.
//!
//! Contracts see a `Tree` as the `TreeState` of np_tree_nodes's `specs/TreeState`. Read its
//! `specs/Nodes`, then its `specs/Answer` and `specs/After` for one call: its tests in their order,
//! and what it leaves; then its `specs/Multi` and `specs/Calls`, and `specs/Relations` here.
//! `specs/Views` has closed rows. How the code does it is in `docs/TREE.md`.
//!
//! Between two calls the nodes are in order, each path once and in the grammar, each below a node
//! that no session owns; owners are live sessions; no change number is above the last. This is
//! `IsTree`, which `changes` also guarantees. A call that is refused, or runs out of memory, leaves
//! everything as it was.
//!
//! What a tree shows, and how calls change it, for the layers above: no node record appears here.
//!
//! `specs/Views` defines the rows of a directory and what is seen at a path. `specs/Relations` says
//! what each accepted part of a call changes of them, and `specs/Several` under which conditions a
//! part is accepted, and what several parts in one call leave. `specs/Dates` says which of two
//! trees came later. Each law is a public function that does nothing: its contract is the law.
#![tactic(auto)]

// The call is refused, unless the test is passed.
macro_rules! ensure {
    ($test:expr, $refusal:expr) => {
        if !($test) {
            return Err($refusal);
        }
    };
}

mod admit;
mod inner;
mod laws;
mod multi;
mod tree;
mod views;

pub use laws::{
    calls_keep_the_nodes_whole, calls_keep_the_tree, ephemerals_have_no_children,
    nodes_stand_in_order, worked_rows,
};
pub use np_tree_nodes::{
    Bytes, Expect, Mode, MultiFault, Op, OpDone, Stat, TreeFault, TreeRefusal,
};
pub use tree::Tree;
pub use views::{
    calls_leave_later_trees, check_goes, clears, create_goes, creates, delete_goes, deletes,
    elsewhere, ends, fresh_is_what_was_seen, goes_is_multi, goes_joined, later_is_an_order,
    nothing_stands_below_nothing, parts_change_nodes_alone, paths_are_their_parts, raises,
    room_falls_by_one, rows_are_what_is_seen, set_goes, sets, undated_changes_are_not_later,
};
