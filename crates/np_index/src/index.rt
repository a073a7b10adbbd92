//! The index of a state.

ghost use Rattle.std.specs.Prelude.{◌≡◌, ◌<◌, ◌^◌, IfOk, length};
ghost use Rattle.np_index.specs.Lower.{Configuration, Fits, IsReached, State, blocking, count_of, count_of_tenant, current_of, first_declined_by_all, first_due, first_mute, first_unheld_pending, free_ready_of, has_live_session, has_request_under_way, is_paused, is_spare, is_spent_min_ready, job_to_acquire, job_to_begin, job_to_finish, job_to_release, job_to_take, list_any, new_record, node_to_leave, node_to_lock, owner_of, pending_requests, queued_nodes, queued_requests, ready_count, unfinished_of};
ghost use Rattle.np_index.specs.Index.{IsIndexOf};

use crate::Awaited;
use np_active::{Active, Given};
use np_amount::Amount;
use np_changes::Asked;
use np_classes::Classes;
use np_look::{Rows, UnheldKind};
use np_lookups::{Lookups, Open};
use np_text::{
    JobId, LabelId, NoMemory, NodeId, PoolId, RequestId, RequesterId, Role, SessionId, TenantId,
};
use std::alloc::Global;
use std::marker::Model;

/// What stands beside a state, so that readers need not search the state.
#[derive(Drop)]
pub struct Index {
    pub(crate) lookups: Lookups,
    pub(crate) classes: Classes,
    pub(crate) awaited: Awaited,
    pub(crate) requested: Open,
    pub(crate) active: Active,
    pub(crate) given: Given,
}

impl Model for Index {
    ghost use Rattle.np_index.specs.Index.{IndexParts};

    ghost Value = { IndexParts };

    ghost view = { λ index. record {
      lookups = index.lookups;
      classes = index.classes;
      awaited = index.awaited;
      requested = index.requested;
      active = index.active;
      given = index.given;
    } };
}

impl Index {
    /// The index of the state. It reads each session, job, request and node a few times, looks up the
    /// request that each node is allocated to and the handles of each job, and compares each job with
    /// one job of each line. It asks the rows for what each session queues for, and walks all jobs for
    /// the owner of each node that was made. Rows that scan read all queues for each answer of the
    /// first kind, and all jobs for each handle.
    pub fn rebuild<R: Rows>(alloc: Global, rows: &R) -> Result<Index, NoMemory>
        requires reached { IsReached (R.site rows.now) (R.state rows.now) }
        requires fits { Fits (R.site rows.now) (R.state rows.now) }
        ensures { IfOk result (λ index. IsIndexOf (R.site rows.now) (R.state rows.now) index) }
    {
        let lookups = Lookups::rebuild(alloc, rows)?;
        let classes = Classes::rebuild(alloc, rows)?;
        let awaited = Awaited::rebuild(alloc, rows)?;
        let requested = Open::rebuild(alloc, rows)?;
        let active = Active::rebuild(alloc, rows)?;
        let given = Given::rebuild(alloc, rows)?;
        Ok(Index {
            lookups,
            classes,
            awaited,
            requested,
            active,
            given,
        })
    }

    /// The job at a place among those of the requester that are not over, in order of their numbers.
    /// It costs one lookup.
    pub fn unfinished(&self, requester: RequesterId, at: u32) -> Option<JobId>
        ensures { (c : Configuration) (s : State) → IsIndexOf c s self.now
            → result ≡ unfinished_of c requester at s }
    {
        self.lookups.unfinished(requester, at)
    }

    /// The job at a place among those of the requester that were given their nodes and need not wait
    /// for handles, in order of their numbers. It costs one lookup.
    pub fn job_to_take(&self, requester: RequesterId, at: u32) -> Option<JobId>
        ensures { (c : Configuration) (s : State) → IsIndexOf c s self.now
            → result ≡ job_to_take c requester at s }
    {
        self.active.job_to_take(requester, at)
    }

    /// The first of the requester's jobs that was given its nodes, waits for handles and finds room
    /// in all its semaphores. It costs a lookup for each different list of semaphores for which such
    /// jobs of the requester wait, and for each semaphore of such a list.
    pub fn job_to_acquire<R: Rows>(&self, rows: &R, requester: RequesterId) -> Option<JobId>
        ensures { IsIndexOf (R.site rows.now) (R.state rows.now) self.now
            → result ≡ job_to_acquire (R.site rows.now) requester (R.state rows.now) }
    {
        self.active.job_to_acquire(rows, requester)
    }

    /// The first of the requester's jobs that is new and need not wait for semaphores: it asks for its
    /// nodes first, or none of those that it lacks is full. It costs a lookup for each different list
    /// of semaphores for which new jobs of the requester wait, and for each semaphore of such a list.
    pub fn job_to_begin<R: Rows>(&self, rows: &R, requester: RequesterId) -> Option<JobId>
        ensures { IsIndexOf (R.site rows.now) (R.state rows.now) self.now
            → result ≡ job_to_begin (R.site rows.now) requester (R.state rows.now) }
    {
        self.active.job_to_begin(rows, requester)
    }

    /// The job at a place among those of the requester that use their nodes, or have asked for them
    /// and whose request failed, in order of their numbers. It costs one lookup.
    pub fn job_to_finish(&self, requester: RequesterId, at: u32) -> Option<JobId>
        ensures { (c : Configuration) (s : State) → IsIndexOf c s self.now
            → result ≡ job_to_finish c requester at s }
    {
        self.active.job_to_finish(requester, at)
    }

    /// The job at a place among those of the requester that are over and have a handle, in order of
    /// their numbers. It costs one lookup.
    pub fn job_to_release(&self, requester: RequesterId, at: u32) -> Option<JobId>
        ensures { (c : Configuration) (s : State) → IsIndexOf c s self.now
            → result ≡ job_to_release c requester at s }
    {
        self.active.job_to_release(requester, at)
    }

    /// The last session that speaks for the role: a live one that is not mute. It costs three
    /// lookups.
    pub fn current_session(&self, role: Role) -> Option<SessionId>
        ensures { (c : Configuration) (s : State) → IsIndexOf c s self.now
            → result ≡ current_of role s }
    {
        self.active.current_session(role)
    }

    /// The first session that is live and mute. It costs one lookup.
    pub fn first_mute(&self) -> Option<SessionId>
        ensures { (c : Configuration) (s : State) → IsIndexOf c s self.now
            → result ≡ first_mute s }
    {
        self.active.first_mute()
    }

    /// Whether a session of the requester has not expired. It costs two lookups.
    pub fn has_live_session(&self, requester: RequesterId) -> bool
        ensures { (c : Configuration) (s : State) → IsIndexOf c s self.now
            → result ≡ has_live_session requester s }
    {
        self.active.has_live_session(requester)
    }

    /// The requests in whose queues the session is, by priority and then sequence. It costs one
    /// lookup.
    pub fn requests_of(&self, session: SessionId) -> &[RequestId]
        ensures { (c : Configuration) (s : State) → IsIndexOf c s self.now
            → result.now ≡ queued_requests session s }
    {
        self.lookups.requests_of(session)
    }

    /// The nodes in whose queues the session is, by number. It costs one lookup.
    pub fn nodes_of(&self, session: SessionId) -> &[NodeId]
        ensures { (c : Configuration) (s : State) → IsIndexOf c s self.now
            → result.now ≡ queued_nodes session s }
    {
        self.lookups.nodes_of(session)
    }

    /// The first node, by number, that was given to the requester and in whose queue the session is
    /// not. It costs a few lookups for each step of a binary search among the nodes that were given
    /// to the requester.
    pub fn node_to_lock(&self, requester: RequesterId, session: SessionId) -> Option<NodeId>
        ensures { (c : Configuration) (s : State) → IsIndexOf c s self.now
            → result ≡ node_to_lock c requester session s }
    {
        self.given.node_to_lock(requester, session)
    }

    /// The node at a place among those in whose queues the session is and that were not given to the
    /// requester, in order of their numbers. It costs a lookup for each step of a binary search among
    /// the nodes in whose queues the session is.
    pub fn node_to_leave(
        &self,
        requester: RequesterId,
        session: SessionId,
        at: u32,
    ) -> Option<NodeId>
        ensures { (c : Configuration) (s : State) → IsIndexOf c s self.now
            → result ≡ node_to_leave c requester session at s }
    {
        let queued = self.lookups.nodes_of(session);
        self.given.node_to_leave(queued, requester, session, at)
    }

    /// The job that has the node. It costs one lookup.
    pub fn owner(&self, node: NodeId) -> Option<JobId>
        ensures { (c : Configuration) (s : State) → IsIndexOf c s self.now
            → result ≡ owner_of node s.jobs }
    {
        self.lookups.owner(node)
    }

    /// The tenant that has no room now for a request that the pool may serve. It costs what `used_by`
    /// does, if the tenant has a limit and the pool may serve the request, and else grows with the
    /// request's labels times the pool's offers.
    pub fn blocking<R: Rows>(&self, rows: &R, pool: PoolId, asked: &Asked) -> Option<TenantId>
        requires fits { Fits (R.site rows.now) (R.state rows.now) }
        requires index { IsIndexOf (R.site rows.now) (R.state rows.now) self.now }
        ensures { result ≡
            blocking (R.site rows.now) (R.state rows.now) pool (new_record asked.now) }
    {
        crate::blocking(&self.classes, &self.awaited, rows, pool, asked)
    }

    /// What the pool uses. It costs a lookup for each label that the pool offers.
    pub fn used<R: Rows>(&self, rows: &R, pool: PoolId) -> Amount
        requires fits { Fits (R.site rows.now) (R.state rows.now) }
        requires index { IsIndexOf (R.site rows.now) (R.state rows.now) self.now }
        ensures used { result ≡ count_of (R.site rows.now) (R.state rows.now) pool }
        ensures instances { result.instances < 2 ^ 63 }
        ensures cores { result.cores < 2 ^ 63 }
        ensures ram { result.ram < 2 ^ 63 }
    {
        crate::used(&self.classes, rows, pool)
    }

    /// What the tenant uses: its nodes, and what its pending requests still wait for. It costs a few
    /// lookups for each pool and label of which the tenant has nodes, and one for what its pending
    /// requests wait for, however many they are.
    pub fn used_by<R: Rows>(&self, rows: &R, tenant: TenantId) -> Amount
        requires fits { Fits (R.site rows.now) (R.state rows.now) }
        requires index { IsIndexOf (R.site rows.now) (R.state rows.now) self.now }
        ensures used { result ≡ count_of_tenant (R.site rows.now) (R.state rows.now) tenant }
        ensures instances { result.instances < 2 ^ 63 }
        ensures cores { result.cores < 2 ^ 63 }
        ensures ram { result.ram < 2 ^ 63 }
    {
        crate::used_by(&self.classes, &self.awaited, rows, tenant)
    }

    /// Whether a ready, free and unlocked node of the pool has the label. It costs one lookup.
    pub fn has_spare(&self, pool: PoolId, label: LabelId) -> bool
        ensures { (c : Configuration) (s : State) → IsIndexOf c s self.now
            → result ≡ list_any (is_spare pool label) s.nodes }
    {
        crate::has_spare(&self.classes, pool, label)
    }

    /// The node at a place among the ready, free and unlocked nodes of the pool with the label, in
    /// order of their numbers. It costs one lookup.
    pub fn free_ready(&self, pool: PoolId, label: LabelId, at: u32) -> Option<NodeId>
        ensures { (c : Configuration) (s : State) → IsIndexOf c s self.now
            → result ≡ free_ready_of pool label at s }
    {
        crate::free_ready(&self.classes, pool, label, at)
    }

    /// The free ready nodes of the label in all pools, and those that are coming. It costs two
    /// lookups.
    pub fn ready_count<R: Rows>(&self, rows: &R, label: LabelId) -> u32
        requires fits { Fits (R.site rows.now) (R.state rows.now) }
        requires index { IsIndexOf (R.site rows.now) (R.state rows.now) self.now }
        ensures { result ≡ ready_count label (R.state rows.now) }
    {
        crate::ready_count(&self.classes, rows, label)
    }

    /// Whether a min-ready request of the pool for the label has failed. It costs one lookup.
    pub fn has_spent_min_ready(&self, pool: PoolId, label: LabelId) -> bool
        ensures { (c : Configuration) (s : State) → IsIndexOf c s self.now
            → result ≡ list_any (is_spent_min_ready pool label) s.requests }
    {
        crate::has_spent_min_ready(&self.classes, pool, label)
    }

    /// Whether a request that is pending by the pool waits for room. It costs what `used` does, and a
    /// few lookups for each label that such requests wait for.
    pub fn is_paused<R: Rows>(&self, rows: &R, pool: PoolId) -> bool
        requires fits { Fits (R.site rows.now) (R.state rows.now) }
        requires index { IsIndexOf (R.site rows.now) (R.state rows.now) self.now }
        ensures { result ≡ is_paused (R.site rows.now) (R.state rows.now) pool }
    {
        crate::is_paused(&self.classes, rows, pool)
    }

    /// How many requests are pending by the pool. It costs one lookup.
    pub fn pending_requests(&self, pool: PoolId) -> usize
        ensures { (c : Configuration) (s : State) → IsIndexOf c s self.now
            → result ≡ length (pending_requests pool s) }
    {
        crate::pending_requests(&self.classes, pool)
    }

    /// The first request, by priority and then sequence, that is pending by the pool and that nobody
    /// holds. It costs one binary search.
    pub fn first_unheld_pending(&self, pool: PoolId) -> Option<RequestId>
        ensures { (c : Configuration) (s : State) → IsIndexOf c s self.now
            → result ≡ first_unheld_pending pool s }
    {
        crate::first_unheld_pending(&self.classes, pool)
    }

    /// Whether a request is pending by the pool that lacks a node for one of its labels. It costs two
    /// binary searches.
    pub fn has_request_under_way(&self, pool: PoolId) -> bool
        ensures { (c : Configuration) (s : State) → IsIndexOf c s self.now
            → result ≡ has_request_under_way pool s }
    {
        crate::has_request_under_way(&self.classes, pool)
    }

    /// The first request, by priority and then sequence, that is requested and that every registered
    /// pool declined; `None` if there is none, or no pool is registered. It costs a few lookups for
    /// each different set of pools that declined, and of the first request of each set one lookup
    /// and a scan of its declines for each registered pool.
    pub fn first_declined_by_all<R: Rows>(&self, rows: &R) -> Option<RequestId>
        requires index { IsIndexOf (R.site rows.now) (R.state rows.now) self.now }
        ensures { result ≡ first_declined_by_all (R.state rows.now) }
    {
        crate::first_declined_by_all(&self.classes, rows)
    }

    /// The node of the pool that nobody holds and that is of this kind which is due first, and of
    /// several the first by number. It costs two lookups.
    pub fn first_due(&self, pool: PoolId, kind: UnheldKind) -> Option<NodeId>
        ensures { (c : Configuration) (s : State) → IsIndexOf c s self.now
            → result ≡ first_due c pool kind s }
    {
        crate::first_due(&self.classes, pool, kind)
    }
}
