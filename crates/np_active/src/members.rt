//! Nodes moved between their groups. Only making the groups anew takes memory.

ghost use Rattle.std.specs.Prelude.{◌≡◌, ◌≤◌, ◌+◌, ◌*◌, [], suc, IfOk, OnOk, length, vec_capacity};
ghost use Rattle.np_active.specs.Lower.{Fits, IsReached, is_node_before, same_node, with_all_moved, with_groups, with_moved};
ghost use Rattle.np_active.specs.Given.{AreGivenGroups, groups_of_node, groups_within};

use crate::past_given::{PastNode, past_node, write_groups};
use np_lists::{Group, Groups, move_id};
use np_look::{ByNode, Rows};
use np_text::NodeId;
use std::alloc::{AllocError, Global};

/// Moves the node to where the state has it. Of its queue the first `most` sessions are read, into
/// `list`, which has room for them.
fn move_node<R: Rows>(
    groups: &mut Groups<ByNode>,
    list: &mut Vec<Option<Group>>,
    rows: &R,
    past: &PastNode,
    most: u32,
)
    requires room { suc most ≤ groups.old.room }
    requires list { suc most ≤ vec_capacity list.old }
    ensures members { groups.new.members
        ≡ with_moved is_node_before same_node past.now.id past.now.groups
        (groups_within (R.site rows.now) (R.state rows.now) most past.now.id)
        groups.old.members }
    ensures room { groups.old.room ≤ groups.new.room + suc most }
    ensures list { vec_capacity list.old ≤ vec_capacity list.new }
{
    if write_groups(list, rows, past.node, most).is_ok() {
        move_id(groups, past.node, past.groups.as_slice(), list.as_slice());
    }
}

/// Moves the nodes to where the state has them. Of each queue the first `most` sessions are read.
pub(crate) fn move_nodes<R: Rows>(
    groups: &mut Groups<ByNode>,
    list: &mut Vec<Option<Group>>,
    rows: &R,
    moved: &[PastNode],
    most: u32,
)
    requires room { length moved.now * suc most ≤ groups.old.room }
    requires list { suc most ≤ vec_capacity list.old }
    ensures { groups.new.members
        ≡ with_all_moved is_node_before same_node
        (groups_within (R.site rows.now) (R.state rows.now) most) moved.now groups.old.members }
{
    for past in moved {
        move_node(groups, list, rows, past, most);
    }
}

/// Puts the node in its groups, and takes the memory.
fn add_node<R: Rows>(
    alloc: Global,
    groups: &mut Groups<ByNode>,
    rows: &R,
    node: NodeId,
) -> Result<(), AllocError>
    requires { Fits (R.site rows.now) (R.state rows.now) }
    ensures { OnOk result (groups.new.members
        ≡ with_groups is_node_before same_node node []
        (groups_of_node (R.site rows.now) (R.state rows.now) node)
        groups.old.members) }
{
    let past = past_node(alloc, rows, node)?;
    groups.reserve(past.groups.len())?;
    move_id(groups, node, &[], past.groups.as_slice());
    Ok(())
}

/// The groups of all nodes, by one walk over them, with a lookup of each one's request and of each
/// session in its queue.
pub(crate) fn all_nodes<R: Rows>(alloc: Global, rows: &R) -> Result<Groups<ByNode>, AllocError>
    requires reached { IsReached (R.site rows.now) (R.state rows.now) }
    requires fits { Fits (R.site rows.now) (R.state rows.now) }
    ensures { IfOk result (λ groups.
        AreGivenGroups (R.site rows.now) (R.state rows.now) groups.members) }
{
    let mut groups = Groups::new(alloc);
    for at in 0..rows.nodes() {
        if let Some(node) = rows.node_at(at) {
            add_node(alloc, &mut groups, rows, node)?;
        }
    }
    Ok(groups)
}
