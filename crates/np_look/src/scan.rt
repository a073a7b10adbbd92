//! Rows that are searched by walking them.
#![tactic(auto, using(crate::proofs::Looks::walks))]

ghost use Rattle.std.specs.Prelude.{◌≡◌};

use crate::asked::{NodeView, RequestView, UnheldKind};
use crate::count::{NOTHING, amount_at};
use crate::look::Look;
use crate::predicates::{
    is_declined_by_all, is_given_to, is_job_to_acquire, is_job_to_begin, is_job_to_release,
    is_job_to_take, is_unclaimed, request_state, waits_at_node,
};
use crate::rows::Rows;
use crate::tenant::{amount_for, is_short_of, limited_tenant, rest_for};
use crate::walk::{
    asked_of, is_better, is_coming, is_free_ready, is_job_to_finish, is_live_of, is_marked,
    is_mute, is_pending_by, is_sooner_unheld, is_spare, is_spent_min_ready, is_under_way_by,
    is_unfinished_job, is_unheld_pending, one_if, short_label, speaks_for,
};
use np_amount::Amount;
use np_changes::Asked;
use np_text::{JobId, LabelId, NodeId, PoolId, RequestId, RequesterId, Role, SessionId, TenantId};

/// Searches rows by walking them, place by place.
#[derive(Drop)]
pub struct Scan<'a, R: Rows> {
    rows: &'a R,
}

impl<'a, R: Rows> Scan<'a, R> {
    /// Searches these rows.
    pub fn over(rows: &'a R) -> Scan<'a, R>
        ensures { result.rows.now ≡ rows.now }
    {
        Scan { rows }
    }
}

impl<'a, R: Rows> Look for Scan<'a, R> {
    type Rows = R;

    ghost site = { λ scan. R.site scan.rows.now };

    ghost state = { λ scan. R.state scan.rows.now };

    fn rows(&self) -> &R {
        self.rows
    }

    fn queued_requests(&self, session: SessionId) -> u32 {
        self.rows.queued_requests(session)
    }

    fn queued_request_at(&self, session: SessionId, at: u32) -> Option<RequestId> {
        self.rows.queued_request_at(session, at)
    }

    fn queued_nodes(&self, session: SessionId) -> u32 {
        self.rows.queued_nodes(session)
    }

    fn queued_node_at(&self, session: SessionId, at: u32) -> Option<NodeId> {
        self.rows.queued_node_at(session, at)
    }

    fn blocking(&self, pool: PoolId, asked: &Asked) -> Option<TenantId> {
        let tenant = limited_tenant(self.rows.config(), pool, asked)?;
        let used = self.used_by(tenant);
        if is_short_of(self.rows.config(), pool, asked, tenant, used) {
            Some(tenant)
        } else {
            None
        }
    }

    fn first_of(&self, pool: PoolId) -> Option<RequestId> {
        let mut best: Option<RequestView> = None;
        for at in 0..self.rows.requests() {
            let Some(view) = self.rows.request_view(at) else {
                return None;
            };
            if !is_better(pool, &best, &view) {
                continue;
            }
            if self.blocking(pool, &asked_of(&view.kept)).is_some() {
                continue;
            }
            best = Some(view);
        }
        match best {
            None => None,
            Some(view) => Some(view.id),
        }
    }

    fn has_spent_min_ready(&self, pool: PoolId, label: LabelId) -> bool {
        for at in 0..self.rows.requests() {
            let Some(view) = self.rows.request_view(at) else {
                return false;
            };
            if is_spent_min_ready(pool, label, &view.kept) {
                return true;
            }
        }
        false
    }

    fn ready_count(&self, label: LabelId) -> u32 {
        let mut count = 0;
        for at in 0..self.rows.nodes() {
            let Some(view) = self.rows.node_view(at) else {
                return 0;
            };
            count += one_if(is_free_ready(label, &view.kept));
        }
        for at in 0..self.rows.requests() {
            let Some(view) = self.rows.request_view(at) else {
                return 0;
            };
            count += one_if(is_coming(label, &view.kept));
        }
        count
    }

    fn used(&self, pool: PoolId) -> Amount {
        let mut sum = NOTHING;
        for at in 0..self.rows.nodes() {
            let Some(view) = self.rows.node_view(at) else {
                return NOTHING;
            };
            sum = sum.plus(amount_at(self.rows.config(), pool, &view));
        }
        sum
    }

    fn used_by(&self, tenant: TenantId) -> Amount {
        let mut of_nodes = NOTHING;
        for at in 0..self.rows.nodes() {
            let Some(view) = self.rows.node_view(at) else {
                return NOTHING;
            };
            of_nodes = of_nodes.plus(amount_for(self.rows.config(), tenant, &view));
        }
        let mut of_requests = NOTHING;
        for at in 0..self.rows.requests() {
            let Some(view) = self.rows.request_view(at) else {
                return NOTHING;
            };
            of_requests = of_requests.plus(rest_for(self.rows.config(), tenant, &view));
        }
        of_nodes.plus(of_requests)
    }

    fn has_spare(&self, pool: PoolId, label: LabelId) -> bool {
        for at in 0..self.rows.nodes() {
            let Some(view) = self.rows.node_view(at) else {
                return false;
            };
            if is_spare(pool, label, &view) {
                return true;
            }
        }
        false
    }

    fn free_ready(&self, pool: PoolId, label: LabelId, at: u32) -> Option<NodeId> {
        let mut left = at;
        for place in 0..self.rows.nodes() {
            let Some(view) = self.rows.node_view(place) else {
                return None;
            };
            if !is_spare(pool, label, &view) {
                continue;
            }
            if left == 0 {
                return Some(view.id);
            }
            left -= 1;
        }
        None
    }

    fn is_paused(&self, pool: PoolId) -> bool {
        let used = self.used(pool);
        for at in 0..self.rows.requests() {
            let Some(view) = self.rows.request_view(at) else {
                return false;
            };
            let Some(label) = short_label(self.rows.config(), pool, used, &view.kept) else {
                continue;
            };
            if view.kept.pinned.is_some() {
                return true;
            }
            if !self.has_spare(pool, label) {
                return true;
            }
        }
        false
    }

    fn pending_requests(&self, pool: PoolId) -> u32 {
        let mut count = 0;
        for at in 0..self.rows.requests() {
            let Some(view) = self.rows.request_view(at) else {
                return 0;
            };
            count += one_if(is_pending_by(pool, &view.kept));
        }
        count
    }

    fn first_unheld_pending(&self, pool: PoolId) -> Option<RequestId> {
        for at in 0..self.rows.requests() {
            let view = self.rows.request_view(at)?;
            if is_unheld_pending(pool, &view) {
                return Some(view.id);
            }
        }
        None
    }

    fn has_request_under_way(&self, pool: PoolId) -> bool {
        for at in 0..self.rows.requests() {
            let Some(view) = self.rows.request_view(at) else {
                return false;
            };
            if is_under_way_by(pool, &view.kept) {
                return true;
            }
        }
        false
    }

    fn first_declined_by_all(&self) -> Option<RequestId> {
        if self.rows.registrations() == 0 {
            return None;
        }
        for at in 0..self.rows.requests() {
            let view = self.rows.request_view(at)?;
            if is_declined_by_all(self.rows, &view.kept) {
                return Some(view.id);
            }
        }
        None
    }

    fn first_due(&self, pool: PoolId, kind: UnheldKind) -> Option<NodeId> {
        let mut best: Option<NodeView> = None;
        for at in 0..self.rows.nodes() {
            let view = self.rows.node_view(at)?;
            let unclaimed = is_unclaimed(self.rows, &view.kept);
            if !is_sooner_unheld(self.rows.config(), pool, kind, unclaimed, &best, &view) {
                continue;
            }
            best = Some(view);
        }
        match best {
            None => None,
            Some(view) => Some(view.id),
        }
    }

    fn unfinished(&self, requester: RequesterId, at: u32) -> Option<JobId> {
        let mut left = at;
        for number in 0..self.rows.jobs() {
            let Some(kept) = self.rows.job(JobId(number)) else {
                return None;
            };
            if !is_unfinished_job(self.rows.config(), requester, JobId(number), &kept) {
                continue;
            }
            if left == 0 {
                return Some(JobId(number));
            }
            left -= 1;
        }
        None
    }

    fn job_to_take(&self, requester: RequesterId, at: u32) -> Option<JobId> {
        let mut left = at;
        for number in 0..self.rows.jobs() {
            let Some(kept) = self.rows.job(JobId(number)) else {
                return None;
            };
            if !is_job_to_take(self.rows, requester, JobId(number), &kept) {
                continue;
            }
            if left == 0 {
                return Some(JobId(number));
            }
            left -= 1;
        }
        None
    }

    fn job_to_acquire(&self, requester: RequesterId) -> Option<JobId> {
        for number in 0..self.rows.jobs() {
            let kept = self.rows.job(JobId(number))?;
            if is_job_to_acquire(self.rows, requester, JobId(number), &kept) {
                return Some(JobId(number));
            }
        }
        None
    }

    fn job_to_begin(&self, requester: RequesterId) -> Option<JobId> {
        for number in 0..self.rows.jobs() {
            let kept = self.rows.job(JobId(number))?;
            if is_job_to_begin(self.rows, requester, JobId(number), &kept) {
                return Some(JobId(number));
            }
        }
        None
    }

    fn job_to_finish(&self, requester: RequesterId, at: u32) -> Option<JobId> {
        let mut left = at;
        for number in 0..self.rows.jobs() {
            let Some(kept) = self.rows.job(JobId(number)) else {
                return None;
            };
            let state = request_state(self.rows, kept.request);
            if !is_job_to_finish(self.rows.config(), requester, JobId(number), &kept, state) {
                continue;
            }
            if left == 0 {
                return Some(JobId(number));
            }
            left -= 1;
        }
        None
    }

    fn job_to_release(&self, requester: RequesterId, at: u32) -> Option<JobId> {
        let mut left = at;
        for number in 0..self.rows.jobs() {
            let Some(kept) = self.rows.job(JobId(number)) else {
                return None;
            };
            if !is_job_to_release(self.rows, requester, JobId(number), &kept) {
                continue;
            }
            if left == 0 {
                return Some(JobId(number));
            }
            left -= 1;
        }
        None
    }

    fn node_to_lock(&self, requester: RequesterId, session: SessionId) -> Option<NodeId> {
        for at in 0..self.rows.nodes() {
            let view = self.rows.node_view(at)?;
            if is_given_to(self.rows, requester, &view.kept)
                && !waits_at_node(self.rows, session, view.id)
            {
                return Some(view.id);
            }
        }
        None
    }

    fn node_to_leave(&self, requester: RequesterId, session: SessionId, at: u32) -> Option<NodeId> {
        let mut left = at;
        for place in 0..self.rows.nodes() {
            let view = self.rows.node_view(place)?;
            if !waits_at_node(self.rows, session, view.id)
                || is_given_to(self.rows, requester, &view.kept)
            {
                continue;
            }
            if left == 0 {
                return Some(view.id);
            }
            left -= 1;
        }
        None
    }

    fn owner(&self, node: NodeId) -> Option<JobId> {
        for at in 0..self.rows.jobs() {
            let Some(kept) = self.rows.job(JobId(at)) else {
                return None;
            };
            if is_marked(node, &kept) {
                return Some(JobId(at));
            }
        }
        None
    }

    fn current_session(&self, role: Role) -> Option<SessionId> {
        let mut left = self.rows.sessions();
        while left > 0 {
            let Some(facts) = self.rows.session(SessionId(left)) else {
                return None;
            };
            if speaks_for(role, &facts) {
                return Some(SessionId(left));
            }
            left -= 1;
        }
        None
    }

    fn first_mute(&self) -> Option<SessionId> {
        for at in 0..self.rows.sessions() {
            let Some(facts) = self.rows.session(SessionId(at + 1)) else {
                return None;
            };
            if is_mute(&facts) {
                return Some(SessionId(at + 1));
            }
        }
        None
    }

    fn has_live_session(&self, requester: RequesterId) -> bool {
        for at in 0..self.rows.sessions() {
            let Some(facts) = self.rows.session(SessionId(at + 1)) else {
                return false;
            };
            if is_live_of(requester, &facts) {
                return true;
            }
        }
        false
    }
}
