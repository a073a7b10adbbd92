//! The janitor of a pool.

ghost use Rattle.std.specs.Prelude.{◌≡◌, ◌&&◌, true, not, is_none};
ghost use Rattle.np_janitor.specs.Lower.{Chooses, ChoosesOf, Fits, IsReached, Janitor, Job, Node, Request, Requester, has_some_handle, is_cleanable, is_current, is_node_of, is_paused, is_pending, is_pending_by, is_role, is_stopped, job_is, node_holder, node_is, request_is};
ghost use Rattle.np_useful.specs.declared.kind.RequestKind.TheVariants as of_request;
ghost use Rattle.np_useful.specs.declared.kind.NodeKind.TheVariants as of_node;
ghost use Rattle.np_useful.specs.declared.kind.JobKind.TheVariants as of_job;
ghost use Rattle.np_janitor.specs.Struck.{lacks_registration, ChoosesFinish};

use crate::cleanable::{PoolPause, is_cleanable};
use crate::listed::LocksOfDue;
use np_event::Event;
use np_look::{Look, Rows, has_handles, is_same_role, node_holder};
use np_text::{
    JobId, NodeId, POOLS, PoolId, REQUESTERS, RequestId, RequestState, RequesterId, Role, SessionId,
};
use np_useful::{
    EventKind, NodeKind, RequestKind, RoleRows, choose_opening, current_session, first_of_kinds,
    first_release, first_that_passes, is_stopped, may_open, passes,
};

/// The kinds that are tried before fail-declined, in the order of the crate's table. The machine
/// accepts them only from a session in the queue of what they name.
const BEFORE_FAIL: [EventKind; 6] = [
    EventKind::Node(NodeKind::Gone),
    EventKind::Node(NodeKind::Free),
    EventKind::Node(NodeKind::MarkDeleting),
    EventKind::Node(NodeKind::Unlock),
    EventKind::Request(RequestKind::Reset),
    EventKind::Request(RequestKind::Unlock),
];

/// Whether the request exists and is pending, and the pool serves it.
fn is_served<R: Rows>(rows: &R, pool: PoolId, request: RequestId) -> bool
    ensures { result ≡ request_is request (R.state rows.now) (is_pending_by pool) }
{
    let Some(asked) = rows.asked(request) else {
        return false;
    };
    let own = asked.pool.is_some_and(|other| other.0 == pool.0);
    asked.state == RequestState::Pending && own
}

/// Whether the request exists and is not pending.
fn is_given_back<R: Rows>(rows: &R, request: RequestId) -> bool
    ensures { result ≡
        request_is request (R.state rows.now) (λ kept. not (is_pending kept.state)) }
{
    rows.asked(request)
        .is_some_and(|asked| asked.state != RequestState::Pending)
}

/// Whether the node exists and belongs to the pool.
fn is_of_pool<R: Rows>(rows: &R, pool: PoolId, node: NodeId) -> bool
    ensures { result ≡ node_is node (R.state rows.now) (is_node_of pool) }
{
    rows.node(node).is_some_and(|kept| kept.pool.0 == pool.0)
}

/// Whether the node exists, belongs to the pool, must be cleaned up, and is held by nobody.
fn is_to_clean<L: Look>(look: &L, known: PoolPause, node: NodeId) -> bool
    requires fits { Fits (L.site look.now) (L.state look.now) }
    requires known { known.paused ≡ is_paused (L.site look.now) (L.state look.now) known.pool }
    ensures { result ≡
        (node_is node (L.state look.now)
        (λ k. is_node_of known.pool k && is_cleanable (L.site look.now) (L.state look.now) k)
        && is_none (node_holder node (L.state look.now).nodes)) }
{
    let rows = look.rows();
    let Some(kept) = rows.node(node) else {
        return false;
    };
    kept.pool.0 == known.pool.0
        && is_cleanable(look, known, &kept)
        && node_holder(rows, node).is_none()
}

/// Whether the node exists and need not be cleaned up.
fn is_clean<L: Look>(look: &L, known: PoolPause, node: NodeId) -> bool
    requires fits { Fits (L.site look.now) (L.state look.now) }
    requires known { known.paused ≡ is_paused (L.site look.now) (L.state look.now) known.pool }
    ensures { result ≡ node_is node (L.state look.now)
        (λ k. not (is_cleanable (L.site look.now) (L.state look.now) k)) }
{
    look.rows()
        .node(node)
        .is_some_and(|kept| !is_cleanable(look, known, &kept))
}

/// Whether the job's requester stopped for good.
fn is_left_alone<R: Rows>(rows: &R, job: JobId) -> bool
    ensures { result ≡ job_is job (R.site rows.now)
        (λ row. is_stopped (R.site rows.now) (Requester row.requester) (R.state rows.now)) }
{
    rows.config()
        .job(job)
        .is_some_and(|row| is_stopped(rows, Role::Requester(row.requester)))
}

/// Whether the job exists and has a handle.
fn has_handle_left<R: Rows>(rows: &R, job: JobId) -> bool
    ensures { result ≡ job_is job (R.site rows.now) (has_some_handle (R.state rows.now) job) }
{
    rows.config()
        .job(job)
        .is_some_and(|row| has_handles(rows, job, row))
}

/// The rows of a pool's janitor, which knows whether the pool is paused.
#[derive(Clone, Copy)]
struct JanitorRows {
    known: PoolPause,
}

impl RoleRows for JanitorRows {
    ghost role = { λ rows. Janitor rows.known.pool };

    ghost knows = { λ rows c s. rows.known.paused ≡ is_paused c s rows.known.pool };

    fn holds<L: Look>(&self, look: &L, event: Event) -> bool {
        let rows = look.rows();
        let pool = self.known.pool;
        match event {
            Event::OpenSession { role } => {
                is_same_role(role, Role::Janitor(pool)) && may_open(look, role)
            }
            Event::LockRequest { request, .. } => is_served(rows, pool, request),
            Event::Reset { request, .. } => is_served(rows, pool, request),
            Event::UnlockRequest { request, .. } => is_given_back(rows, request),
            Event::LockNode { node, .. } => is_to_clean(look, self.known, node),
            Event::MarkDeleting { node, .. } => is_of_pool(rows, pool, node),
            Event::FreeNode { node, .. } => is_of_pool(rows, pool, node),
            Event::Gone { node, .. } => is_of_pool(rows, pool, node),
            Event::UnlockNode { node, .. } => is_clean(look, self.known, node),
            Event::FailDeclined { .. } => true,
            Event::Finish { job, .. } => is_left_alone(rows, job),
            Event::Release { job, .. } => has_handle_left(rows, job),
            _ => false,
        }
    }
}

/// The first useful finish of a job of the requester, by job, or `None` if and only if there is
/// none. There is none if a session of the requester is live, which costs one lookup, or if the
/// requester goes on. Else it tests the jobs that use their nodes, or have asked for them and whose
/// request failed, up to the first whose finish passes. In a state that a run reaches that is the
/// first of them, since the machine lets a janitor finish each of them if no session of the
/// requester is live: the cost is one lookup and one judged event, however many jobs there are.
fn finish_for<L: Look>(
    look: &L,
    rows: &JanitorRows,
    session: SessionId,
    requester: RequesterId,
) -> Option<Event>
    requires fits { Fits (L.site look.now) (L.state look.now) }
    requires known { rows.now.known.paused ≡
        is_paused (L.site look.now) (L.state look.now) rows.now.known.pool }
    requires current { is_current (Janitor rows.now.known.pool) session (L.state look.now) ≡ true }
    ensures { ChoosesFinish (L.site look.now) (L.state look.now) rows.now.known.pool requester
        result }
{
    if look.has_live_session(requester) || !is_stopped(look.rows(), Role::Requester(requester)) {
        return None;
    }
    for at in 0..look.rows().jobs() {
        let Some(job) = look.job_to_finish(requester, at) else {
            return None;
        };
        let finish = Event::Finish { session, job };
        if passes(look, rows, finish) {
            return Some(finish);
        }
    }
    None
}

/// The first useful finish, by requester and then by job, or `None` if and only if there is none.
/// It costs one lookup for each requester, one judged event, and a walk of the configuration's
/// faults for each requester that lost a session and has none.
fn first_finish<L: Look>(look: &L, rows: &JanitorRows, session: SessionId) -> Option<Event>
    requires fits { Fits (L.site look.now) (L.state look.now) }
    requires known { rows.now.known.paused ≡
        is_paused (L.site look.now) (L.state look.now) rows.now.known.pool }
    requires current { is_current (Janitor rows.now.known.pool) session (L.state look.now) ≡ true }
    ensures { ChoosesOf (L.site look.now) (L.state look.now) (Janitor rows.now.known.pool)
        (Job of_job.Finish) result }
{
    look.rows().config().know_soundness();
    for at in 0..REQUESTERS as u16 {
        let found = finish_for(look, rows, session, RequesterId(at));
        if found.is_some() {
            return found;
        }
    }
    None
}

/// The first useful release, by requester and then by job, or `None` if and only if there is none.
/// It costs one lookup for each requester up to the first that has a job to release, and one judged
/// event, whatever the number of jobs and handles.
fn first_release_of_all<L: Look>(look: &L, rows: &JanitorRows, session: SessionId) -> Option<Event>
    requires fits { Fits (L.site look.now) (L.state look.now) }
    requires known { rows.now.known.paused ≡
        is_paused (L.site look.now) (L.state look.now) rows.now.known.pool }
    requires current { is_current (Janitor rows.now.known.pool) session (L.state look.now) ≡ true }
    ensures { ChoosesOf (L.site look.now) (L.state look.now) (Janitor rows.now.known.pool)
        (Job of_job.Release) result }
{
    look.rows().config().know_soundness();
    for at in 0..REQUESTERS as u16 {
        let found = first_release(look, rows, session, RequesterId(at));
        if found.is_some() {
            return found;
        }
    }
    None
}

/// Whether there are fewer registrations than the configuration has pools, so that some pool has
/// none. It costs the count of the registrations and one lookup in the configuration.
fn lacks_registration<R: Rows>(rows: &R) -> bool
    ensures { result ≡ lacks_registration (R.site rows.now) (R.state rows.now) }
{
    let config = rows.config();
    config.know_soundness();
    let registrations = rows.registrations();
    registrations < POOLS as u32 && config.pool(PoolId(registrations as u16)).is_some()
}

/// The first useful failing of a request, by priority and then sequence, or `None` if and only if
/// there is none. Only while a pool of the configuration has no registration, it looks up and tests
/// the first request that every registered pool declined. Otherwise there is none: a decline that
/// leaves no registered pool fails the request at once, so each request that is requested has a
/// pool of the configuration left that has not declined it, and that pool is registered.
fn first_fail<L: Look>(look: &L, rows: &JanitorRows, session: SessionId) -> Option<Event>
    requires reached { IsReached (L.site look.now) (L.state look.now) }
    requires fits { Fits (L.site look.now) (L.state look.now) }
    requires known { rows.now.known.paused ≡
        is_paused (L.site look.now) (L.state look.now) rows.now.known.pool }
    requires current { is_current (Janitor rows.now.known.pool) session (L.state look.now) ≡ true }
    ensures { ChoosesOf (L.site look.now) (L.state look.now) (Janitor rows.now.known.pool)
        (Request of_request.FailDeclined) result }
{
    if !lacks_registration(look.rows()) {
        return None;
    }
    let Some(request) = look.first_declined_by_all() else {
        return None;
    };
    let fail = Event::FailDeclined { session, request };
    if passes(look, rows, fail) {
        Some(fail)
    } else {
        None
    }
}

/// A useful lock of a request, or `None` if and only if there is none. It looks up and tests one
/// request, however many are pending by the pool: the first, by priority and then sequence, that
/// nobody holds. The machine lets a janitor lock a pending request if and only if nobody holds it,
/// so that if any lock is useful, this one is.
fn first_request_lock<L: Look>(look: &L, rows: &JanitorRows, session: SessionId) -> Option<Event>
    requires reached { IsReached (L.site look.now) (L.state look.now) }
    requires fits { Fits (L.site look.now) (L.state look.now) }
    requires known { rows.now.known.paused ≡
        is_paused (L.site look.now) (L.state look.now) rows.now.known.pool }
    requires current { is_current (Janitor rows.now.known.pool) session (L.state look.now) ≡ true }
    ensures { ChoosesOf (L.site look.now) (L.state look.now) (Janitor rows.now.known.pool)
        (Request of_request.Lock) result }
{
    let request = look.first_unheld_pending(rows.known.pool)?;
    let lock = Event::LockRequest { session, request };
    if passes(look, rows, lock) {
        Some(lock)
    } else {
        None
    }
}

/// A useful lock of a node, or `None` if and only if there is none. It looks up and tests four nodes
/// at most, however many the pool has: of those that nobody holds the one that is due first, by
/// kind, in the order abandoned, left over, on hold, free.
fn first_node_lock<L: Look>(look: &L, rows: &JanitorRows, session: SessionId) -> Option<Event>
    requires reached { IsReached (L.site look.now) (L.state look.now) }
    requires fits { Fits (L.site look.now) (L.state look.now) }
    requires known { rows.now.known.paused ≡
        is_paused (L.site look.now) (L.state look.now) rows.now.known.pool }
    requires current { is_current (Janitor rows.now.known.pool) session (L.state look.now) ≡ true }
    ensures { ChoosesOf (L.site look.now) (L.state look.now) (Janitor rows.now.known.pool)
        (Node of_node.Lock) result }
{
    let pool = rows.known.pool;
    first_that_passes(look, rows, &LocksOfDue { session, pool })
}

/// A useful event of the pool's janitor, the first in the order of the crate's table, or `None` if
/// and only if there is none, in a state that a run reaches. Its cost grows with what its session
/// queues for: each of these is found by a lookup if the state keeps an index, and so is the
/// janitor's session. Finish and release each cost one lookup for each requester and one judged
/// event, whatever the number of jobs and handles, and finish also a walk of the configuration's
/// faults for each requester that lost a session and has none. Lock-request costs one lookup,
/// however many requests are pending by the pool. Lock-node costs a few lookups for each of four
/// kinds, however many nodes the pool has: of those that nobody holds it looks up the one that is
/// due first, by kind, abandoned, left over, on hold and free. Fail-declined costs a few lookups for
/// each different set of pools that declined a request, and only while a pool of the configuration
/// has no registration.
pub fn choose_janitor<L: Look>(look: &L, pool: PoolId) -> Option<Event>
    requires reached { IsReached (L.site look.now) (L.state look.now) }
    requires fits { Fits (L.site look.now) (L.state look.now) }
    requires pool { is_role (L.site look.now) (Janitor pool) ≡ true }
    ensures { Chooses (L.site look.now) (L.state look.now) (Janitor pool) result }
{
    let Some(session) = current_session(look, Role::Janitor(pool)) else {
        return choose_opening(look, Role::Janitor(pool));
    };
    let rows = JanitorRows {
        known: PoolPause {
            pool,
            paused: look.is_paused(pool),
        },
    };
    let found = first_of_kinds(look, &rows, session, &BEFORE_FAIL);
    if found.is_some() {
        return found;
    }
    let found = first_fail(look, &rows, session);
    if found.is_some() {
        return found;
    }
    let found = first_finish(look, &rows, session);
    if found.is_some() {
        return found;
    }
    let found = first_release_of_all(look, &rows, session);
    if found.is_some() {
        return found;
    }
    let found = first_request_lock(look, &rows, session);
    if found.is_some() {
        return found;
    }
    first_node_lock(look, &rows, session)
}
