//! Ids moved between their groups. Only making groups anew takes memory.

ghost use Rattle.std.specs.Prelude.{◌≡◌, ◌≤◌, ◌+◌, ◌*◌, [], IfOk, OnOk, length, map};
ghost use Rattle.np_classes.specs.Lower.{IsReached, is_id_before, is_node_before, same_node, same_request, with_all_moved, with_groups};
ghost use Rattle.np_classes.specs.Classes.{AreNodeGroups, AreRequestGroups};
ghost use Rattle.np_classes.specs.Placed.{groups_of_node, groups_of_request, node_before, queue_before, request_before, unheld_groups};

use crate::past::{
    PastNode, PastQueue, PastRequest, groups_of_node, groups_of_request, unheld_group_of_request,
};
use np_lists::{Groups, move_id};
use np_look::{ByNode, ByRequest, Rows};
use np_text::{NodeId, RequestId};
use std::alloc::{AllocError, Global};

/// Moves the nodes to where the state has them.
pub(crate) fn move_nodes<R: Rows>(groups: &mut Groups<ByNode>, rows: &R, moved: &[PastNode])
    requires { 5 * length moved.now ≤ groups.old.room }
    ensures { groups.new.members
        ≡ with_all_moved is_node_before same_node
        (groups_of_node (R.site rows.now) (R.state rows.now)) (map node_before moved.now)
        groups.old.members }
{
    for past in moved {
        let now = groups_of_node(rows, past.node);
        move_id(groups, past.node, &past.groups, &now);
    }
}

/// Moves the requests to where the state has them.
pub(crate) fn move_requests<R: Rows>(
    groups: &mut Groups<ByRequest>,
    rows: &R,
    moved: &[PastRequest],
)
    requires { 7 * length moved.now ≤ groups.old.room }
    ensures members { groups.new.members
        ≡ with_all_moved is_id_before same_request (groups_of_request (R.state rows.now))
        (map request_before moved.now) groups.old.members }
    ensures room { groups.old.room ≤ groups.new.room + 7 * length moved.now }
{
    for past in moved {
        let now = groups_of_request(rows, past.request);
        move_id(groups, past.request, &past.groups, &now);
    }
}

/// Moves the requests among the pending ones that nobody holds, or out of them.
pub(crate) fn move_queues<R: Rows>(groups: &mut Groups<ByRequest>, rows: &R, moved: &[PastQueue])
    requires { length moved.now ≤ groups.old.room }
    ensures { groups.new.members
        ≡ with_all_moved is_id_before same_request (unheld_groups (R.state rows.now))
        (map queue_before moved.now) groups.old.members }
{
    for past in moved {
        let now = [unheld_group_of_request(rows, past.request)];
        move_id(groups, past.request, &past.groups, &now);
    }
}

/// Puts the node in its groups, and takes the memory.
fn add_node<R: Rows>(groups: &mut Groups<ByNode>, rows: &R, node: NodeId) -> Result<(), AllocError>
    ensures { OnOk result (groups.new.members
        ≡ with_groups is_node_before same_node node []
        (groups_of_node (R.site rows.now) (R.state rows.now) node)
        groups.old.members) }
{
    groups.reserve(5)?;
    let now = groups_of_node(rows, node);
    move_id(groups, node, &[], &now);
    Ok(())
}

/// The groups of all nodes, by one walk over them, with a few lookups of each.
pub(crate) fn all_nodes<R: Rows>(alloc: Global, rows: &R) -> Result<Groups<ByNode>, AllocError>
    requires { IsReached (R.site rows.now) (R.state rows.now) }
    ensures { IfOk result (λ groups.
        AreNodeGroups (R.site rows.now) (R.state rows.now) groups.members) }
{
    let mut groups = Groups::new(alloc);
    for at in 0..rows.nodes() {
        if let Some(node) = rows.node_at(at) {
            add_node(&mut groups, rows, node)?;
        }
    }
    Ok(groups)
}

/// Puts the request in its groups, and takes the memory.
fn add_request<R: Rows>(
    groups: &mut Groups<ByRequest>,
    rows: &R,
    request: RequestId,
) -> Result<(), AllocError>
    ensures { OnOk result (groups.new.members
        ≡ with_groups is_id_before same_request request []
        (groups_of_request (R.state rows.now) request) groups.old.members) }
{
    groups.reserve(7)?;
    let now = groups_of_request(rows, request);
    move_id(groups, request, &[], &now);
    Ok(())
}

/// The groups of all requests, by one walk over them, with two lookups of each.
pub(crate) fn all_requests<R: Rows>(
    alloc: Global,
    rows: &R,
) -> Result<Groups<ByRequest>, AllocError>
    requires { IsReached (R.site rows.now) (R.state rows.now) }
    ensures { IfOk result (λ groups.
        AreRequestGroups (R.state rows.now) groups.members) }
{
    let mut groups = Groups::new(alloc);
    for at in 0..rows.requests() {
        if let Some(request) = rows.request_at(at) {
            add_request(&mut groups, rows, request)?;
        }
    }
    Ok(groups)
}
