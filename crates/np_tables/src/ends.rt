//! How a session that ends leaves its queues.

ghost use Rattle.std.specs.Prelude.{◌≡◌, filter, map};
ghost use Rattle.np_tables.specs.Lower.{Rises, is_id_before, is_node_before, is_queued, node_left, request_left};
ghost use Rattle.np_tables.specs.CanChange.{CanEnd, queues_left};

use crate::edits::Leave;
use crate::keys::{NodeTable, RequestTable};
use crate::vectors::Vectors;
use np_changes::SessionsChange;
use np_text::{NodeId, RequestId, SessionId};

/// The session leaves the queues of these requests, which are all that have it.
fn leave_requests(requests: &mut RequestTable, session: SessionId, ids: &[RequestId])
    requires rise { Rises (λ a b. is_id_before a.id b.id) requests.old.rows }
    requires ids { ids.now ≡
        map (λ e. e.id) (filter (λ e. is_queued session e.queue) requests.old.rows) }
    ensures { requests.new.rows ≡ map (request_left session) requests.old.rows }
{
    for request in ids {
        requests.edit(*request, Leave { session });
    }
}

/// The session leaves the queues of these nodes, which are all that have it.
fn leave_nodes(nodes: &mut NodeTable, session: SessionId, ids: &[NodeId])
    requires rise { Rises (λ a b. is_node_before a.id b.id) nodes.old.rows }
    requires ids { ids.now ≡
        map (λ e. e.id) (filter (λ e. is_queued session e.queue) nodes.old.rows) }
    ensures { nodes.new.rows ≡ map (node_left session) nodes.old.rows }
{
    for node in ids {
        nodes.edit(*node, Leave { session });
    }
}

impl Vectors {
    /// A session that ends leaves the queues of these requests and nodes, which are all that have
    /// it. Each of them is found by binary search, and no other queue is read.
    pub(crate) fn leave_these(
        &mut self,
        change: SessionsChange,
        requests: &[RequestId],
        nodes: &[NodeId],
    )
        requires { CanEnd change self.old.state requests.now nodes.now }
        ensures { self.new.state ≡ queues_left change self.old.state }
    {
        if let SessionsChange::End { session } = change {
            leave_requests(&mut self.requests, session, requests);
            leave_nodes(&mut self.nodes, session, nodes);
        }
    }
}
