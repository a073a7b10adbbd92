//! Which queues the changes of an event join and leave.

ghost use Rattle.std.specs.Prelude.{◌≡◌};
ghost use Rattle.np_lookups.specs.Waits.{ending, joins_node, joins_request, leaves_node, leaves_request, removed_node, removed_request};

use np_changes::{Growth, Maker, NodesChange, RequestsChange, SessionsChange};
use np_text::{NodeId, RequestId, SessionId};

/// A session in the queue of a request or of a node.
#[derive(Clone, Copy)]
pub struct Wait<I> {
    pub session: SessionId,
    pub id: I,
}

/// The request whose queue the maker joins.
pub(crate) fn joins_request(maker: Option<Maker>, growth: &Growth) -> Option<Wait<RequestId>>
    ensures { result ≡ joins_request maker growth.now }
{
    let session = maker?.session;
    match growth {
        Growth::JoinRequest { request } => Some(Wait {
            session,
            id: *request,
        }),
        _ => None,
    }
}

/// The node whose queue the maker joins; a new node has this number.
pub(crate) fn joins_node(maker: Option<Maker>, growth: &Growth, next: u32) -> Option<Wait<NodeId>>
    ensures { result ≡ joins_node maker growth.now next }
{
    let session = maker?.session;
    let id = match growth {
        Growth::Node { .. } => NodeId(next),
        Growth::JoinNode { node } => *node,
        Growth::Allocate { node, .. } => *node,
        _ => return None,
    };
    Some(Wait { session, id })
}

/// The request whose queue the maker leaves, or that goes with its one holder.
pub(crate) fn leaves_request(
    maker: Option<Maker>,
    change: &RequestsChange,
    holder: Option<SessionId>,
) -> Option<Wait<RequestId>>
    ensures { result ≡ leaves_request maker change.now holder }
{
    match change {
        RequestsChange::Leave { request } => Some(Wait {
            session: maker?.session,
            id: *request,
        }),
        RequestsChange::Remove { request } => Some(Wait {
            session: holder?,
            id: *request,
        }),
        _ => None,
    }
}

/// The node whose queue the maker leaves.
pub(crate) fn leaves_node(maker: Option<Maker>, change: &NodesChange) -> Option<Wait<NodeId>>
    ensures { result ≡ leaves_node maker change.now }
{
    let session = maker?.session;
    match change {
        NodesChange::Leave { node } => Some(Wait { session, id: *node }),
        _ => None,
    }
}

/// The node that goes with its queue.
pub(crate) fn removed_node(change: &NodesChange) -> Option<NodeId>
    ensures { result ≡ removed_node change.now }
{
    match change {
        NodesChange::Remove { node } => Some(*node),
        _ => None,
    }
}

/// The request that goes with its queue.
pub(crate) fn removed_request(change: &RequestsChange) -> Option<RequestId>
    ensures { result ≡ removed_request change.now }
{
    match change {
        RequestsChange::Remove { request } => Some(*request),
        _ => None,
    }
}

/// The session that ends.
pub(crate) fn ending(change: &SessionsChange) -> Option<SessionId>
    ensures { result ≡ ending change.now }
{
    match change {
        SessionsChange::End { session } => Some(*session),
        _ => None,
    }
}
