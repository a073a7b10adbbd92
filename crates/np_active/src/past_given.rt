//! The groups that a node is in.

ghost use Rattle.std.specs.Prelude.{◌≡◌, ◌≤◌, ◌<◌, ◌+◌, ◌++◌, suc, IfOk, OnErr, OnOk, length, take, vec_capacity, vec_len};
ghost use Rattle.np_active.specs.Lower.{Fits, most, node_queue};
ghost use Rattle.np_active.specs.Given.{placed_node, groups_within, locked_groups};

use crate::group::{given_group, locked_group};
use np_lists::Group;
use np_look::{Rows, given_to};
use np_text::{NodeId, RequesterId};
use std::alloc::{AllocError, Global};
use std::marker::Model;

/// A node, with the groups that it is in before a change.
#[derive(Drop)]
pub(crate) struct PastNode {
    pub(crate) node: NodeId,
    pub(crate) groups: Vec<Option<Group>>,
}

impl Model for PastNode {
    ghost use Rattle.np_active.specs.Lower.{NodeId, Placed};

    ghost Value = { Placed NodeId };

    ghost view = { λ past. record { id = past.node; groups = past.groups.items } };
}

/// How many sessions are in the node's queue. One lookup for each of them.
pub(crate) fn queue_length<R: Rows>(rows: &R, node: NodeId) -> u32
    requires { Fits (R.site rows.now) (R.state rows.now) }
    ensures count { result ≡ length (node_queue node (R.state rows.now).nodes) }
    ensures few { result ≤ most }
{
    let mut count = 0;
    while let Some(_) = rows.node_queue(node, count) {
        count += 1;
    }
    count
}

/// Lists the requester's group of each session in the node's queue, of the first `most` if there
/// are more. It fails only where the list has no room for so many.
fn list_sessions<R: Rows>(
    list: &mut Vec<Option<Group>>,
    rows: &R,
    node: NodeId,
    requester: RequesterId,
    most: u32,
) -> Result<(), AllocError>
    ensures items { OnOk result (list.new.items ≡ list.old.items
        ++ locked_groups requester (take most (node_queue node (R.state rows.now).nodes))) }
    ensures full { OnErr result (vec_capacity list.old < vec_len list.old + most) }
    ensures capacity { vec_capacity list.old ≤ vec_capacity list.new }
{
    for at in 0..most {
        let Some(session) = rows.node_queue(node, at) else {
            return Ok(());
        };
        list.push(Some(locked_group(requester, session)))?;
    }
    Ok(())
}

/// Writes the groups of the node into the list, none if it was given to no requester. Of its queue
/// the first `most` sessions are read. It fails only where the list has no room for so many and one
/// more. A few lookups, and one for each session.
pub(crate) fn write_groups<R: Rows>(
    list: &mut Vec<Option<Group>>,
    rows: &R,
    node: NodeId,
    most: u32,
) -> Result<(), AllocError>
    ensures items { OnOk result
        (list.new.items ≡ groups_within (R.site rows.now) (R.state rows.now) most node) }
    ensures full { OnErr result (vec_capacity list.old < suc most) }
    ensures capacity { vec_capacity list.old ≤ vec_capacity list.new }
{
    list.clear();
    let Some(kept) = rows.node(node) else {
        return Ok(());
    };
    let Some(requester) = given_to(rows, &kept) else {
        return Ok(());
    };
    list.push(Some(given_group(requester)))?;
    list_sessions(list, rows, node, requester, most)
}

/// The node with its groups. A few lookups, and two for each session in its queue.
pub(crate) fn past_node<R: Rows>(
    alloc: Global,
    rows: &R,
    node: NodeId,
) -> Result<PastNode, AllocError>
    requires { Fits (R.site rows.now) (R.state rows.now) }
    ensures { IfOk result (λ past. past ≡ placed_node (R.site rows.now) (R.state rows.now) node) }
{
    let mut groups = Vec::new(alloc);
    let most = queue_length(rows, node);
    write_groups(&mut groups, rows, node, most)?;
    Ok(PastNode { node, groups })
}
