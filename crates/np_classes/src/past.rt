//! The nodes, the requests and the queues of requests that the changes of an event touch, with the
//! groups that they are in before it.

ghost use Rattle.std.specs.Prelude.{◌≡◌, IfOk, map};
ghost use Rattle.np_classes.specs.Placed.{groups_of_node, groups_of_request, past_node, past_queue, past_request, unheld_group_of_request};
ghost use Rattle.np_classes.specs.Listed.{IsPast};

use crate::Touched;
use crate::group::{node_groups, request_groups, unheld_pending_group_of};
use np_lists::Group;
use np_look::{Rows, is_unclaimed, node_holder, request_holder};
use np_text::{NodeId, RequestId};
use std::alloc::{AllocError, Global};
use std::marker::Model;

/// A node, with the groups that it is in before a change.
#[derive(Clone, Copy)]
pub(crate) struct PastNode {
    pub(crate) node: NodeId,
    pub(crate) groups: [Option<Group>; 5],
}

/// A request, with its groups.
#[derive(Clone, Copy)]
pub(crate) struct PastRequest {
    pub(crate) request: RequestId,
    pub(crate) groups: [Option<Group>; 7],
}

/// A request, with the one group that its queue decides.
#[derive(Clone, Copy)]
pub(crate) struct PastQueue {
    pub(crate) request: RequestId,
    pub(crate) groups: [Option<Group>; 1],
}

/// What an event's changes touch, with the groups that it is in before it: the requests whose
/// records may change are in all their groups, and those whose queues alone may in the one that a
/// queue decides.
#[derive(Drop)]
pub struct Past {
    pub(crate) nodes: Vec<PastNode>,
    pub(crate) requests: Vec<PastRequest>,
    pub(crate) queues: Vec<PastQueue>,
}

impl Model for Past {
    ghost use Rattle.np_classes.specs.Listed.{PastOf};

    ghost Value = { PastOf };

    ghost view = { λ past. record {
      nodes = past.nodes.items;
      requests = past.requests.items;
      queues = past.queues.items;
    } };
}

/// A node in no group.
const NO_NODE_GROUPS: [Option<Group>; 5] = [None, None, None, None, None];

/// A request in no group.
const NO_REQUEST_GROUPS: [Option<Group>; 7] = [None, None, None, None, None, None, None];

/// The groups that the node is in, if it is there. Three lookups: of the node, of its queue and of
/// the request that it is allocated to.
pub(crate) fn groups_of_node<R: Rows>(rows: &R, node: NodeId) -> [Option<Group>; 5]
    ensures { result ≡ groups_of_node (R.site rows.now) (R.state rows.now) node }
{
    let Some(kept) = rows.node(node) else {
        return NO_NODE_GROUPS;
    };
    let is_unlocked = node_holder(rows, node).is_none();
    let is_unclaimed = is_unclaimed(rows, &kept);
    node_groups(rows.config(), &kept, is_unlocked, is_unclaimed)
}

/// The groups that the request is in, if it is there. Two lookups: of the request and of its queue.
pub(crate) fn groups_of_request<R: Rows>(rows: &R, request: RequestId) -> [Option<Group>; 7]
    ensures { result ≡ groups_of_request (R.state rows.now) request }
{
    let Some(kept) = rows.request(request) else {
        return NO_REQUEST_GROUPS;
    };
    let is_unlocked = request_holder(rows, request).is_none();
    request_groups(&kept, is_unlocked)
}

/// Its group among the pending ones that nobody holds. The same two lookups, without its declines.
pub(crate) fn unheld_group_of_request<R: Rows>(rows: &R, request: RequestId) -> Option<Group>
    ensures { result ≡ unheld_group_of_request (R.state rows.now) request }
{
    let asked = rows.asked(request)?;
    let is_unlocked = request_holder(rows, request).is_none();
    unheld_pending_group_of(asked.state, asked.pool, is_unlocked)
}

// ## what is touched

fn past_nodes<R: Rows>(
    alloc: Global,
    rows: &R,
    nodes: &[NodeId],
) -> Result<Vec<PastNode>, AllocError>
    ensures { IfOk result (λ list. list.items
        ≡ map (past_node (R.site rows.now) (R.state rows.now)) nodes.now) }
{
    let mut list = Vec::with_capacity(alloc, nodes.len())?;
    for node in nodes {
        list.push(PastNode {
            node: *node,
            groups: groups_of_node(rows, *node),
        })?;
    }
    Ok(list)
}

fn past_requests<R: Rows>(
    alloc: Global,
    rows: &R,
    requests: &[RequestId],
) -> Result<Vec<PastRequest>, AllocError>
    ensures { IfOk result
        (λ list. list.items ≡ map (past_request (R.state rows.now)) requests.now) }
{
    let mut list = Vec::with_capacity(alloc, requests.len())?;
    for request in requests {
        list.push(PastRequest {
            request: *request,
            groups: groups_of_request(rows, *request),
        })?;
    }
    Ok(list)
}

fn past_queues<R: Rows>(
    alloc: Global,
    rows: &R,
    requests: &[RequestId],
) -> Result<Vec<PastQueue>, AllocError>
    ensures { IfOk result
        (λ list. list.items ≡ map (past_queue (R.state rows.now)) requests.now) }
{
    let mut list = Vec::with_capacity(alloc, requests.len())?;
    for request in requests {
        list.push(PastQueue {
            request: *request,
            groups: [unheld_group_of_request(rows, *request)],
        })?;
    }
    Ok(list)
}

/// What was touched, with its groups. A few lookups for each node and for a request whose record may
/// change, and two for each request whose queue alone may.
pub(crate) fn past_of<R: Rows>(
    alloc: Global,
    rows: &R,
    touched: &Touched,
) -> Result<Past, AllocError>
    ensures { IfOk result
        (λ past. IsPast (R.site rows.now) (R.state rows.now) touched.now past) }
{
    let nodes = past_nodes(alloc, rows, touched.nodes())?;
    let requests = past_requests(alloc, rows, touched.requests())?;
    let queues = past_queues(alloc, rows, touched.queues())?;
    Ok(Past {
        nodes,
        requests,
        queues,
    })
}
