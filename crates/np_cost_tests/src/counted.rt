//! Rows and searches that count how often they are asked.

ghost use Rattle.std.specs.Prelude.{◌≡◌};

use np_amount::Amount;
use np_changes::Asked;
use np_config::Config;
use np_look::{Look, NodeView, RequestView, Rows, UnheldKind};
use np_machine::{Registration, SessionFacts};
use np_record::{JobRecord, NodeRecord, RequestRecord, RoleRecord};
use np_text::{
    JobId, LabelId, NodeId, PoolId, RequestId, RequesterId, Role, SemId, SessionId, TenantId,
};
use std::cell::Cell;
use std::marker::Model;

/// Counts one look.
fn add_one(looks: &Cell<u32>) {
    looks.set(looks.get().wrapping_add(1));
}

/// Rows that count each call in a cell.
#[derive(Drop)]
pub struct CountedRows<'a, R: Rows> {
    rows: &'a R,
    looks: &'a Cell<u32>,
}

impl<'a, R: Rows> CountedRows<'a, R> {
    /// These rows, with each call counted in the cell.
    pub fn over(rows: &'a R, looks: &'a Cell<u32>) -> CountedRows<'a, R>
        ensures { result.rows.now ≡ rows.now }
    {
        CountedRows { rows, looks }
    }

    /// The rows, after one look is counted.
    fn count(&self) -> &R
        ensures { result.now ≡ self.now.rows.now }
    {
        add_one(self.looks);
        self.rows
    }
}

impl<'a, R: Rows> Rows for CountedRows<'a, R> {
    ghost site = { λ counted. R.site counted.rows.now };

    ghost state = { λ counted. R.state counted.rows.now };

    fn config(&self) -> &Config {
        self.count().config()
    }

    fn tick(&self) -> u32 {
        self.count().tick()
    }

    fn session(&self, session: SessionId) -> Option<SessionFacts> {
        self.count().session(session)
    }

    fn sessions(&self) -> u32 {
        self.count().sessions()
    }

    fn registration(&self, pool: PoolId) -> Option<SessionId> {
        self.count().registration(pool)
    }

    fn registrations(&self) -> u32 {
        self.count().registrations()
    }

    fn registration_at(&self, at: u32) -> Option<Registration> {
        self.count().registration_at(at)
    }

    fn requests(&self) -> u32 {
        self.count().requests()
    }

    fn request_at(&self, at: u32) -> Option<RequestId> {
        self.count().request_at(at)
    }

    fn request_view(&self, at: u32) -> Option<RequestView> {
        self.count().request_view(at)
    }

    fn request(&self, request: RequestId) -> Option<RequestRecord> {
        self.count().request(request)
    }

    fn asked(&self, request: RequestId) -> Option<Asked> {
        self.count().asked(request)
    }

    fn is_declined(&self, request: RequestId, pool: PoolId) -> bool {
        self.count().is_declined(request, pool)
    }

    fn nodes(&self) -> u32 {
        self.count().nodes()
    }

    fn node_at(&self, at: u32) -> Option<NodeId> {
        self.count().node_at(at)
    }

    fn node_view(&self, at: u32) -> Option<NodeView> {
        self.count().node_view(at)
    }

    fn node(&self, node: NodeId) -> Option<NodeRecord> {
        self.count().node(node)
    }

    fn request_queue(&self, request: RequestId, at: u32) -> Option<SessionId> {
        self.count().request_queue(request, at)
    }

    fn node_queue(&self, node: NodeId, at: u32) -> Option<SessionId> {
        self.count().node_queue(node, at)
    }

    fn queued_requests(&self, session: SessionId) -> u32 {
        self.count().queued_requests(session)
    }

    fn queued_request_at(&self, session: SessionId, at: u32) -> Option<RequestId> {
        self.count().queued_request_at(session, at)
    }

    fn queued_nodes(&self, session: SessionId) -> u32 {
        self.count().queued_nodes(session)
    }

    fn queued_node_at(&self, session: SessionId, at: u32) -> Option<NodeId> {
        self.count().queued_node_at(session, at)
    }

    fn handles(&self, semaphore: SemId) -> u32 {
        self.count().handles(semaphore)
    }

    fn handle_at(&self, semaphore: SemId, at: u32) -> Option<JobId> {
        self.count().handle_at(semaphore, at)
    }

    fn has_handle(&self, semaphore: SemId, job: JobId) -> bool {
        self.count().has_handle(semaphore, job)
    }

    fn jobs(&self) -> u32 {
        self.count().jobs()
    }

    fn job(&self, job: JobId) -> Option<JobRecord> {
        self.count().job(job)
    }

    fn role(&self, role: Role) -> Option<RoleRecord> {
        self.count().role(role)
    }

    fn swept(&self, node: NodeId, server: u64) -> bool {
        self.count().swept(node, server)
    }

    fn next_request(&self) -> u32 {
        self.count().next_request()
    }

    fn next_node(&self) -> u32 {
        self.count().next_node()
    }
}

/// Searches that count each call in a cell, over rows that count in the same cell.
#[derive(Drop)]
pub struct CountedLook<'a, L: Look> {
    look: &'a L,
    rows: CountedRows<'a, L::Rows>,
}

impl<'a, L: Look> Model for CountedLook<'a, L> {
    ghost use Rattle.np_cost_tests.specs.Seen.{IsOf, Seen};

    ghost Value = { Seen };

    ghost view = { λ counted. record {
      configuration = L.site counted.look.now;
      state = L.state counted.look.now;
    } };

    ghost invariant = { λ counted. IsOf (record {
      configuration = L.site counted.look.now;
      state = L.state counted.look.now;
    }) (L.Rows.site counted.rows.rows.now) (L.Rows.state counted.rows.rows.now) };
}

impl<'a, L: Look> CountedLook<'a, L> {
    /// These searches, with each call counted in the cell.
    pub fn over(look: &'a L, looks: &'a Cell<u32>) -> CountedLook<'a, L>
        ensures configuration { result.configuration ≡ L.site look.now }
        ensures state { result.state ≡ L.state look.now }
    {
        CountedLook {
            look,
            rows: CountedRows::over(look.rows(), looks),
        }
    }

    /// The searches, after one look is counted.
    fn count(&self) -> &L
        ensures site { L.site result.now ≡ self.now.configuration }
        ensures state { L.state result.now ≡ self.now.state }
    {
        add_one(self.rows.looks);
        self.look
    }
}

impl<'a, L: Look> Look for CountedLook<'a, L> {
    type Rows = CountedRows<'a, L::Rows>;

    ghost site = { λ counted. counted.configuration };

    ghost state = { λ counted. counted.state };

    fn rows(&self) -> &CountedRows<'a, L::Rows> {
        add_one(self.rows.looks);
        &self.rows
    }

    fn queued_requests(&self, session: SessionId) -> u32 {
        self.count().queued_requests(session)
    }

    fn queued_request_at(&self, session: SessionId, at: u32) -> Option<RequestId> {
        self.count().queued_request_at(session, at)
    }

    fn queued_nodes(&self, session: SessionId) -> u32 {
        self.count().queued_nodes(session)
    }

    fn queued_node_at(&self, session: SessionId, at: u32) -> Option<NodeId> {
        self.count().queued_node_at(session, at)
    }

    fn blocking(&self, pool: PoolId, asked: &Asked) -> Option<TenantId> {
        self.count().blocking(pool, asked)
    }

    fn first_of(&self, pool: PoolId) -> Option<RequestId> {
        self.count().first_of(pool)
    }

    fn has_spent_min_ready(&self, pool: PoolId, label: LabelId) -> bool {
        self.count().has_spent_min_ready(pool, label)
    }

    fn ready_count(&self, label: LabelId) -> u32 {
        self.count().ready_count(label)
    }

    fn used(&self, pool: PoolId) -> Amount {
        self.count().used(pool)
    }

    fn used_by(&self, tenant: TenantId) -> Amount {
        self.count().used_by(tenant)
    }

    fn has_spare(&self, pool: PoolId, label: LabelId) -> bool {
        self.count().has_spare(pool, label)
    }

    fn free_ready(&self, pool: PoolId, label: LabelId, at: u32) -> Option<NodeId> {
        self.count().free_ready(pool, label, at)
    }

    fn is_paused(&self, pool: PoolId) -> bool {
        self.count().is_paused(pool)
    }

    fn pending_requests(&self, pool: PoolId) -> u32 {
        self.count().pending_requests(pool)
    }

    fn first_unheld_pending(&self, pool: PoolId) -> Option<RequestId> {
        self.count().first_unheld_pending(pool)
    }

    fn has_request_under_way(&self, pool: PoolId) -> bool {
        self.count().has_request_under_way(pool)
    }

    fn first_declined_by_all(&self) -> Option<RequestId> {
        self.count().first_declined_by_all()
    }

    fn first_due(&self, pool: PoolId, kind: UnheldKind) -> Option<NodeId> {
        self.count().first_due(pool, kind)
    }

    fn unfinished(&self, requester: RequesterId, at: u32) -> Option<JobId> {
        self.count().unfinished(requester, at)
    }

    fn job_to_take(&self, requester: RequesterId, at: u32) -> Option<JobId> {
        self.count().job_to_take(requester, at)
    }

    fn job_to_acquire(&self, requester: RequesterId) -> Option<JobId> {
        self.count().job_to_acquire(requester)
    }

    fn job_to_begin(&self, requester: RequesterId) -> Option<JobId> {
        self.count().job_to_begin(requester)
    }

    fn job_to_finish(&self, requester: RequesterId, at: u32) -> Option<JobId> {
        self.count().job_to_finish(requester, at)
    }

    fn job_to_release(&self, requester: RequesterId, at: u32) -> Option<JobId> {
        self.count().job_to_release(requester, at)
    }

    fn node_to_lock(&self, requester: RequesterId, session: SessionId) -> Option<NodeId> {
        self.count().node_to_lock(requester, session)
    }

    fn node_to_leave(&self, requester: RequesterId, session: SessionId, at: u32) -> Option<NodeId> {
        self.count().node_to_leave(requester, session, at)
    }

    fn owner(&self, node: NodeId) -> Option<JobId> {
        self.count().owner(node)
    }

    fn current_session(&self, role: Role) -> Option<SessionId> {
        self.count().current_session(role)
    }

    fn first_mute(&self) -> Option<SessionId> {
        self.count().first_mute()
    }

    fn has_live_session(&self, requester: RequesterId) -> bool {
        self.count().has_live_session(requester)
    }
}
