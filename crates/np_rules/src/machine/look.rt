//! What is looked for in a machine's state: what its index has.

ghost use Rattle.std.specs.Prelude.{◌≡◌, ◌≤◌};

use crate::machine::Machine;
use np_amount::Amount;
use np_changes::Asked;
use np_look::{Look, Rows, Store, UnheldKind};
use np_tables::Tables;
use np_text::{JobId, LabelId, NodeId, PoolId, RequestId, RequesterId, Role, SessionId, TenantId};

/// The number of rows in a list that has at most this many.
fn number_of(rows: usize, most: u32) -> u32
    requires { rows ≤ most }
    ensures { result ≡ rows }
{
    let _most = most;
    rows as u32
}

impl<S: Store + Drop> Look for Machine<S> {
    type Rows = Tables;

    ghost site = { λ m. m.configuration };

    ghost state = { λ m. m.state };

    fn rows(&self) -> &Tables {
        &self.tables
    }

    fn queued_requests(&self, session: SessionId) -> u32 {
        let requests = self.index.requests_of(session);
        number_of(requests.len(), self.tables.requests())
    }

    fn queued_request_at(&self, session: SessionId, at: u32) -> Option<RequestId> {
        self.index.requests_of(session).get(at as usize).copied()
    }

    fn queued_nodes(&self, session: SessionId) -> u32 {
        let nodes = self.index.nodes_of(session);
        number_of(nodes.len(), self.tables.nodes())
    }

    fn queued_node_at(&self, session: SessionId, at: u32) -> Option<NodeId> {
        self.index.nodes_of(session).get(at as usize).copied()
    }

    fn blocking(&self, pool: PoolId, asked: &Asked) -> Option<TenantId> {
        self.index.blocking(&self.tables, pool, asked)
    }

    /// The first request that the pool's launcher may take up. It costs what `candidate_at` of the
    /// index does.
    fn first_of(&self, pool: PoolId) -> Option<RequestId> {
        self.index.first_of(&self.tables, pool)
    }

    fn has_spent_min_ready(&self, pool: PoolId, label: LabelId) -> bool {
        self.index.has_spent_min_ready(pool, label)
    }

    fn ready_count(&self, label: LabelId) -> u32 {
        self.index.ready_count(&self.tables, label)
    }

    fn used(&self, pool: PoolId) -> Amount {
        self.index.used(&self.tables, pool)
    }

    fn used_by(&self, tenant: TenantId) -> Amount {
        self.index.used_by(&self.tables, tenant)
    }

    fn has_spare(&self, pool: PoolId, label: LabelId) -> bool {
        self.index.has_spare(pool, label)
    }

    fn free_ready(&self, pool: PoolId, label: LabelId, at: u32) -> Option<NodeId> {
        self.index.free_ready(pool, label, at)
    }

    fn is_paused(&self, pool: PoolId) -> bool {
        self.index.is_paused(&self.tables, pool)
    }

    fn pending_requests(&self, pool: PoolId) -> u32 {
        number_of(self.index.pending_requests(pool), self.tables.requests())
    }

    fn first_unheld_pending(&self, pool: PoolId) -> Option<RequestId> {
        self.index.first_unheld_pending(pool)
    }

    fn has_request_under_way(&self, pool: PoolId) -> bool {
        self.index.has_request_under_way(pool)
    }

    fn first_declined_by_all(&self) -> Option<RequestId> {
        self.index.first_declined_by_all(&self.tables)
    }

    fn first_due(&self, pool: PoolId, kind: UnheldKind) -> Option<NodeId> {
        self.index.first_due(pool, kind)
    }

    fn unfinished(&self, requester: RequesterId, at: u32) -> Option<JobId> {
        self.index.unfinished(requester, at)
    }

    fn job_to_take(&self, requester: RequesterId, at: u32) -> Option<JobId> {
        self.index.job_to_take(requester, at)
    }

    fn job_to_acquire(&self, requester: RequesterId) -> Option<JobId> {
        self.index.job_to_acquire(&self.tables, requester)
    }

    fn job_to_begin(&self, requester: RequesterId) -> Option<JobId> {
        self.index.job_to_begin(&self.tables, requester)
    }

    fn job_to_finish(&self, requester: RequesterId, at: u32) -> Option<JobId> {
        self.index.job_to_finish(requester, at)
    }

    fn job_to_release(&self, requester: RequesterId, at: u32) -> Option<JobId> {
        self.index.job_to_release(requester, at)
    }

    fn node_to_lock(&self, requester: RequesterId, session: SessionId) -> Option<NodeId> {
        self.index.node_to_lock(requester, session)
    }

    fn node_to_leave(&self, requester: RequesterId, session: SessionId, at: u32) -> Option<NodeId> {
        self.index.node_to_leave(requester, session, at)
    }

    fn owner(&self, node: NodeId) -> Option<JobId> {
        self.index.owner(node)
    }

    fn current_session(&self, role: Role) -> Option<SessionId> {
        self.index.current_session(role)
    }

    fn first_mute(&self) -> Option<SessionId> {
        self.index.first_mute()
    }

    fn has_live_session(&self, requester: RequesterId) -> bool {
        self.index.has_live_session(requester)
    }
}
