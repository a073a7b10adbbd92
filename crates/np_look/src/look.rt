//! What is looked for in a state.

ghost use Rattle.std.specs.Prelude.{◌≡◌, ◌<◌, ◌^◌, length, slice_get};
ghost use Rattle.np_look.specs.Lower.{Configuration, Fits, State, blocking, count_of, count_of_tenant, first_of, has_live_session, is_paused, is_spare, is_spent_min_ready, list_any, new_record, owner_of, ready_count};
ghost use Rattle.np_look.specs.Jobs.{job_to_acquire, job_to_begin, job_to_finish, job_to_release, job_to_take};
ghost use Rattle.np_look.specs.Given.{node_to_leave, node_to_lock};
ghost use Rattle.np_look.specs.Readers.{free_ready_of, unfinished_of, first_mute, current_of, queued_requests, queued_nodes, pending_requests, first_unheld_pending, has_request_under_way, first_declined_by_all, first_due};

use crate::asked::UnheldKind;
use crate::rows::Rows;
use crate::tenant::{is_short_of, limited_tenant};
use crate::walk::{is_spare, is_spent_min_ready};
use np_amount::Amount;
use np_changes::Asked;
use np_config::{Config, Job};
use np_text::{JobId, LabelId, NodeId, PoolId, RequestId, RequesterId, Role, SessionId, TenantId};

/// Searches a state. No call takes memory.
pub trait Look {
    /// What has the rows of the state.
    type Rows: Rows;
    /// The configuration.
    ghost site: { Self → Configuration };
    /// The state.
    ghost state: { Self → State };

    /// The rows of the state.
    fn rows(&self) -> &Self::Rows
        ensures site { Self.Rows.site result.now ≡ site self.now }
        ensures state { Self.Rows.state result.now ≡ state self.now };

    /// In how many requests' queues the session is.
    fn queued_requests(&self, session: SessionId) -> u32
        ensures { result ≡ length (queued_requests session (state self.now)) };

    /// The request at a place among those in whose queues the session is, by priority and then
    /// sequence.
    fn queued_request_at(&self, session: SessionId, at: u32) -> Option<RequestId>
        ensures { result ≡ slice_get (queued_requests session (state self.now)) at };

    /// In how many nodes' queues the session is.
    fn queued_nodes(&self, session: SessionId) -> u32
        ensures { result ≡ length (queued_nodes session (state self.now)) };

    /// The node at a place among those in whose queues the session is, by number.
    fn queued_node_at(&self, session: SessionId, at: u32) -> Option<NodeId>
        ensures { result ≡ slice_get (queued_nodes session (state self.now)) at };

    /// The tenant that has no room now for a request that the pool may serve. What a tenant uses is
    /// read only if the tenant has a limit.
    fn blocking(&self, pool: PoolId, asked: &Asked) -> Option<TenantId>
        requires { Fits (site self.now) (state self.now) }
        ensures { result ≡ blocking (site self.now) (state self.now) pool (new_record asked.now) };

    /// The first request that the pool's launcher may take up. Whether its tenant has room is
    /// checked only for a request that comes before the best so far.
    fn first_of(&self, pool: PoolId) -> Option<RequestId>
        requires { Fits (site self.now) (state self.now) }
        ensures { result ≡ first_of (site self.now) (state self.now) pool };

    /// Whether a min-ready request of the pool for the label has failed.
    fn has_spent_min_ready(&self, pool: PoolId, label: LabelId) -> bool
        ensures { result ≡ list_any (is_spent_min_ready pool label) (state self.now).requests };

    /// The free ready nodes of the label in all pools, and those that are coming.
    fn ready_count(&self, label: LabelId) -> u32
        requires { Fits (site self.now) (state self.now) }
        ensures { result ≡ ready_count label (state self.now) };

    /// What the pool uses.
    fn used(&self, pool: PoolId) -> Amount
        requires { Fits (site self.now) (state self.now) }
        ensures used { result ≡ count_of (site self.now) (state self.now) pool }
        ensures instances { result.instances < 2 ^ 63 }
        ensures cores { result.cores < 2 ^ 63 }
        ensures ram { result.ram < 2 ^ 63 };

    /// What the tenant uses: its nodes, and what its pending requests still wait for.
    fn used_by(&self, tenant: TenantId) -> Amount
        requires { Fits (site self.now) (state self.now) }
        ensures used { result ≡ count_of_tenant (site self.now) (state self.now) tenant }
        ensures instances { result.instances < 2 ^ 63 }
        ensures cores { result.cores < 2 ^ 63 }
        ensures ram { result.ram < 2 ^ 63 };

    /// Whether a ready, free and unlocked node of the pool has the label.
    fn has_spare(&self, pool: PoolId, label: LabelId) -> bool
        ensures { result ≡ list_any (is_spare pool label) (state self.now).nodes };

    /// The node at a place among the ready, free and unlocked nodes of the pool with the label, in
    /// order of their numbers. This body scans every node up to that one.
    fn free_ready(&self, pool: PoolId, label: LabelId, at: u32) -> Option<NodeId>
        ensures { result ≡ free_ready_of pool label at (state self.now) };

    /// Whether a request that is pending by the pool waits for room.
    fn is_paused(&self, pool: PoolId) -> bool
        requires { Fits (site self.now) (state self.now) }
        ensures { result ≡ is_paused (site self.now) (state self.now) pool };

    /// How many requests are pending by the pool. This body scans every request.
    fn pending_requests(&self, pool: PoolId) -> u32
        ensures { result ≡ length (pending_requests pool (state self.now)) };

    /// The first request, by priority and then sequence, that is pending by the pool and that nobody
    /// holds. This body scans the requests up to that one.
    fn first_unheld_pending(&self, pool: PoolId) -> Option<RequestId>
        ensures { result ≡ first_unheld_pending pool (state self.now) };

    /// Whether a request is pending by the pool that lacks a node for one of its labels. This body
    /// scans the requests up to the first such one.
    fn has_request_under_way(&self, pool: PoolId) -> bool
        ensures { result ≡ has_request_under_way pool (state self.now) };

    /// The first request, by priority and then sequence, that is requested and that every registered
    /// pool declined; `None` if there is none, or no pool is registered. This body scans the requests
    /// up to that one.
    fn first_declined_by_all(&self) -> Option<RequestId>
        ensures { result ≡ first_declined_by_all (state self.now) };

    /// The node of the pool that nobody holds and that is of this kind which is due first, and of
    /// several the first by number. This body scans every node.
    fn first_due(&self, pool: PoolId, kind: UnheldKind) -> Option<NodeId>
        ensures { result ≡ first_due (site self.now) pool kind (state self.now) };

    /// The job at a place among those of the requester that are not over, in order of their
    /// numbers. This body scans every job up to that one.
    fn unfinished(&self, requester: RequesterId, at: u32) -> Option<JobId>
        ensures { result ≡ unfinished_of (site self.now) requester at (state self.now) };

    /// The job at a place among those of the requester that were given their nodes and need not wait
    /// for handles, in order of their numbers. This body scans every job up to that one.
    fn job_to_take(&self, requester: RequesterId, at: u32) -> Option<JobId>
        ensures { result ≡ job_to_take (site self.now) requester at (state self.now) };

    /// The first of the requester's jobs that was given its nodes, waits for handles and finds room
    /// in all its semaphores. This body scans every job up to that one.
    fn job_to_acquire(&self, requester: RequesterId) -> Option<JobId>
        ensures { result ≡ job_to_acquire (site self.now) requester (state self.now) };

    /// The first of the requester's jobs that is new and need not wait for semaphores: it asks for its
    /// nodes first, or none of those that it lacks is full. This body scans every job up to that one.
    fn job_to_begin(&self, requester: RequesterId) -> Option<JobId>
        ensures { result ≡ job_to_begin (site self.now) requester (state self.now) };

    /// The job at a place among those of the requester that use their nodes, or have asked for them
    /// and whose request failed, in order of their numbers. This body scans every job up to that one.
    fn job_to_finish(&self, requester: RequesterId, at: u32) -> Option<JobId>
        ensures { result ≡ job_to_finish (site self.now) requester at (state self.now) };

    /// The job at a place among those of the requester that are over and have a handle, in order of
    /// their numbers. This body scans every job up to that one.
    fn job_to_release(&self, requester: RequesterId, at: u32) -> Option<JobId>
        ensures { result ≡ job_to_release (site self.now) requester at (state self.now) };

    /// The first node, by number, that was given to the requester and in whose queue the session is
    /// not. This body scans the nodes up to that one.
    fn node_to_lock(&self, requester: RequesterId, session: SessionId) -> Option<NodeId>
        requires { Fits (site self.now) (state self.now) }
        ensures { result ≡ node_to_lock (site self.now) requester session (state self.now) };

    /// The node at a place among those in whose queues the session is and that were not given to the
    /// requester, in order of their numbers. This body scans every node up to that one.
    fn node_to_leave(&self, requester: RequesterId, session: SessionId, at: u32) -> Option<NodeId>
        requires { Fits (site self.now) (state self.now) }
        ensures { result ≡ node_to_leave (site self.now) requester session at (state self.now) };

    /// The first job that has the node.
    fn owner(&self, node: NodeId) -> Option<JobId>
        ensures { result ≡ owner_of node (state self.now).jobs };

    /// The last session that speaks for the role: a live one that is not mute. This body scans the
    /// sessions that began after it, or all if there is none.
    fn current_session(&self, role: Role) -> Option<SessionId>
        ensures { result ≡ current_of role (state self.now) };

    /// The first session that is live and mute. This body scans the sessions up to that one.
    fn first_mute(&self) -> Option<SessionId>
        ensures { result ≡ first_mute (state self.now) };

    /// Whether a session of the requester has not expired.
    fn has_live_session(&self, requester: RequesterId) -> bool
        ensures { result ≡ has_live_session requester (state self.now) };
}
