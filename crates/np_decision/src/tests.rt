//! Tests that rows share, each with its refusal.

ghost use Rattle.std.specs.Prelude.{◌≡◌, ◌<◌, ◌≤◌, ◌^◌, ◌==◌, length, find, not};
ghost use Rattle.np_decision.specs.Lower.{Fits, amount_of_all, by_node_holder, by_registrant, by_request_holder, count_of, fits, is_offered, is_pending_by, is_pool, is_request, is_session_of, is_short, janitor, job_at, launcher, limit_of, maker, missing_handles, new_record, next_label, node_at, none_missing, not_blocked, of_pool, of_requester, record_of, request_at, requester, tenant_never_fits, tenant_of_job, wrong_job, wrong_node, wrong_request};
ghost use Rattle.np_decision.specs.Verdicts.{without_declines, row_of_job, asked_request, has_room};

use np_amount::Amount;
use np_changes::Asked;
use np_config::Job;
use np_event::{Found, Refusal};
use np_look::{Look, Rows, node_holder, request_holder};
use np_record::{JobRecord, NodeRecord};
use np_text::{
    JobId, LabelId, NodeId, NodeState, PoolId, RequestId, RequestState, RequesterId, Role,
    SessionId, TenantId,
};

// The maker.

/// The role of the session that makes the event.
pub(crate) fn maker<R: Rows>(rows: &R, session: SessionId) -> Result<Role, Refusal>
    ensures { result ≡ maker (R.state rows.now) session }
{
    let Some(facts) = rows.session(session) else {
        return Err(Refusal::NoSession);
    };
    ensure!(facts.live, Refusal::Expired);
    ensure!(!facts.mute, Refusal::Crashed);
    Ok(facts.role)
}

/// The pool whose launcher makes the event.
pub(crate) fn launcher<R: Rows>(rows: &R, session: SessionId) -> Result<PoolId, Refusal>
    ensures { result ≡ launcher (R.state rows.now) session }
{
    match maker(rows, session)? {
        Role::Launcher(pool) => Ok(pool),
        Role::Janitor(_) | Role::Requester(_) | Role::Reaper => Err(Refusal::WrongRole),
    }
}

/// The pool whose janitor makes the event.
pub(crate) fn janitor<R: Rows>(rows: &R, session: SessionId) -> Result<PoolId, Refusal>
    ensures { result ≡ janitor (R.state rows.now) session }
{
    match maker(rows, session)? {
        Role::Janitor(pool) => Ok(pool),
        Role::Launcher(_) | Role::Requester(_) | Role::Reaper => Err(Refusal::WrongRole),
    }
}

/// The requester that makes the event.
pub(crate) fn requester<R: Rows>(rows: &R, session: SessionId) -> Result<RequesterId, Refusal>
    ensures { result ≡ requester (R.state rows.now) session }
{
    match maker(rows, session)? {
        Role::Requester(requester) => Ok(requester),
        Role::Launcher(_) | Role::Janitor(_) | Role::Reaper => Err(Refusal::WrongRole),
    }
}

// What the event names.

/// The request without its declines.
pub(crate) fn request_at<R: Rows>(rows: &R, request: RequestId) -> Result<Asked, Refusal>
    ensures { result ≡ without_declines (request_at (R.state rows.now) request) }
{
    rows.asked(request).ok_or(Refusal::NoRequest)
}

/// The node's record.
pub(crate) fn node_at<R: Rows>(rows: &R, node: NodeId) -> Result<NodeRecord, Refusal>
    ensures { result ≡ node_at (R.state rows.now) node }
{
    rows.node(node).ok_or(Refusal::NoNode)
}

/// The job as the configuration has it.
pub(crate) fn job_at<R: Rows>(rows: &R, job: JobId) -> Result<&Job, Refusal>
    ensures { row_of_job result ≡ job_at (R.site rows.now) job }
{
    rows.config().job(job).ok_or(Refusal::NoJob)
}

/// The job as the machine keeps it.
pub(crate) fn record_of<R: Rows>(rows: &R, job: JobId) -> Result<JobRecord, Refusal>
    ensures { result ≡ record_of (R.state rows.now) job }
{
    rows.job(job).ok_or(Refusal::NoJob)
}

/// The request of the job.
pub(crate) fn request_of(job: &JobRecord) -> Result<RequestId, Refusal>
    ensures { result ≡ asked_request job.now }
{
    job.request.ok_or(Refusal::NoRequest)
}

// Who may.

/// Whether the option names this session.
pub(crate) fn is_named(session: SessionId, found: Option<SessionId>) -> bool
    ensures { result ≡ is_session_of session found }
{
    matches!(found, Some(other) if other.0 == session.0)
}

/// Whether the option names this request.
pub(crate) fn is_of_request(request: RequestId, found: Option<RequestId>) -> bool
    ensures { result ≡ is_request request found }
{
    matches!(found, Some(other) if other.priority == request.priority && other.seq == request.seq)
}

/// The job is the requester's own.
pub(crate) fn of_requester(requester: RequesterId, job: &Job) -> Result<(), Refusal>
    ensures { result ≡ of_requester requester job.now }
{
    if job.requester.0 == requester.0 {
        Ok(())
    } else {
        Err(Refusal::NotOwner)
    }
}

/// The node is of the maker's pool.
pub(crate) fn of_pool(pool: PoolId, node: &NodeRecord) -> Result<(), Refusal>
    ensures { result ≡ of_pool pool node.now }
{
    if node.pool.0 == pool.0 {
        Ok(())
    } else {
        Err(Refusal::NotOwner)
    }
}

/// The maker holds its pool's registration.
pub(crate) fn by_registrant<R: Rows>(
    rows: &R,
    pool: PoolId,
    session: SessionId,
) -> Result<(), Refusal>
    ensures { result ≡ by_registrant (R.state rows.now) pool session }
{
    if is_named(session, rows.registration(pool)) {
        Ok(())
    } else {
        Err(Refusal::NotRegistered)
    }
}

/// The maker is first in the request's queue.
pub(crate) fn by_request_holder<R: Rows>(
    rows: &R,
    request: RequestId,
    session: SessionId,
) -> Result<(), Refusal>
    ensures { result ≡ by_request_holder (R.state rows.now) request session }
{
    if is_named(session, request_holder(rows, request)) {
        Ok(())
    } else {
        Err(Refusal::NotHeld)
    }
}

/// The maker is first in the node's queue.
pub(crate) fn by_node_holder<R: Rows>(
    rows: &R,
    node: NodeId,
    session: SessionId,
) -> Result<(), Refusal>
    ensures { result ≡ by_node_holder (R.state rows.now) node session }
{
    if is_named(session, node_holder(rows, node)) {
        Ok(())
    } else {
        Err(Refusal::NotHeld)
    }
}

// States.

/// The refusal that shows a request's state.
pub(crate) fn wrong_request(asked: &Asked) -> Refusal
    ensures { result ≡ wrong_request (new_record asked.now) }
{
    Refusal::WrongState(Found::Request(asked.state))
}

/// The refusal that shows a node's state; a building node with a launch running shows so.
pub(crate) fn wrong_node(node: &NodeRecord) -> Refusal
    ensures { result ≡ wrong_node node.now }
{
    if node.state == NodeState::Building && node.in_flight {
        Refusal::WrongState(Found::InFlight)
    } else {
        Refusal::WrongState(Found::Node(node.state))
    }
}

/// The refusal that shows a job's phase.
pub(crate) fn wrong_job(job: &JobRecord) -> Refusal
    ensures { result ≡ wrong_job job.now }
{
    Refusal::WrongState(Found::Job(job.phase))
}

/// Whether the option names this pool.
pub(crate) fn is_of_pool(pool: PoolId, found: Option<PoolId>) -> bool
    ensures { result ≡ is_pool pool found }
{
    matches!(found, Some(other) if other.0 == pool.0)
}

/// Whether the request is pending, and this pool serves it.
pub(crate) fn is_pending_by(pool: PoolId, asked: &Asked) -> bool
    ensures { result ≡ is_pending_by pool (new_record asked.now) }
{
    asked.state == RequestState::Pending && is_of_pool(pool, asked.pool)
}

/// The label that the request's next node is to have.
pub(crate) fn next_label(asked: &Asked) -> Option<LabelId>
    ensures { result ≡ next_label (new_record asked.now) }
{
    asked.labels.at(asked.nodes.len())
}

/// Refused where some are missing.
pub(crate) fn none_missing(missing: usize) -> Result<(), Refusal>
    requires { missing < 2 ^ 32 }
    ensures { result ≡ none_missing missing }
{
    ensure!(missing == 0, Refusal::NotAll(missing as u32));
    Ok(())
}

// Quota and semaphores.

/// The first of the labels that the pool does not offer.
pub(crate) fn first_unoffered<R: Rows>(
    rows: &R,
    pool: PoolId,
    labels: &[LabelId],
) -> Option<LabelId>
    ensures { result ≡ find (λ l. not (is_offered (R.site rows.now) pool l)) labels.now }
{
    np_look::first_unoffered(rows.config(), pool, labels)
}

/// Whether the pool offers the label.
pub(crate) fn is_offered<R: Rows>(rows: &R, pool: PoolId, label: LabelId) -> bool
    ensures { result ≡ is_offered (R.site rows.now) pool label }
{
    np_look::is_offered(rows.config(), pool, label)
}

/// Whether the labels together pass a limit of the pool, however empty it is.
pub(crate) fn is_too_much<R: Rows>(rows: &R, pool: PoolId, labels: &[LabelId]) -> bool
    requires fits { Fits (R.site rows.now) (R.state rows.now) }
    requires few { length labels.now < 2 ^ 32 }
    ensures { result ≡
        not (fits (amount_of_all (R.site rows.now) pool labels.now)
        (limit_of (R.site rows.now) pool)) }
{
    np_look::is_too_much(rows.config(), pool, labels)
}

/// The pool has room for one more node of the label.
pub(crate) fn has_room<L: Look>(look: &L, pool: PoolId, label: LabelId) -> Result<(), Refusal>
    requires { Fits (L.site look.now) (L.state look.now) }
    ensures { result ≡ has_room (L.site look.now) (L.state look.now) pool label }
{
    let used = look.used(pool);
    if lacks_room(look.rows(), pool, label, used) {
        return Err(Refusal::QuotaShort {
            instances: used.instances,
            cores: used.cores,
            ram: used.ram,
        });
    }
    Ok(())
}

/// Whether one more node of the label passes a limit of the pool that uses so much.
pub(crate) fn lacks_room<R: Rows>(rows: &R, pool: PoolId, label: LabelId, used: Amount) -> bool
    requires fits { Fits (R.site rows.now) (R.state rows.now) }
    requires used { used ≡ count_of (R.site rows.now) (R.state rows.now) pool }
    requires instances { used.instances < 2 ^ 63 }
    requires cores { used.cores < 2 ^ 63 }
    requires ram { used.ram < 2 ^ 63 }
    ensures { result ≡ is_short (R.site rows.now) (R.state rows.now) pool label }
{
    np_look::lacks_room(rows.config(), pool, label, used)
}

/// The tenant of the job, where there is one.
pub(crate) fn tenant_of_job<R: Rows>(rows: &R, job: Option<JobId>) -> Option<TenantId>
    ensures { result ≡ tenant_of_job (R.site rows.now) job }
{
    np_look::tenant_of_job(rows.config(), job)
}

/// Whether a request that is not pinned passes a limit of its job's tenant, however little that
/// uses.
pub(crate) fn tenant_never_fits<R: Rows>(rows: &R, pool: PoolId, asked: &Asked) -> bool
    requires { Fits (R.site rows.now) (R.state rows.now) }
    ensures { result ≡ tenant_never_fits (R.site rows.now) pool (new_record asked.now) }
{
    np_look::tenant_never_fits(rows.config(), pool, asked)
}

/// The tenant of the request's job has room for it, at the pool.
pub(crate) fn not_blocked<L: Look>(look: &L, pool: PoolId, asked: &Asked) -> Result<(), Refusal>
    requires { Fits (L.site look.now) (L.state look.now) }
    ensures { result ≡
        not_blocked (L.site look.now) (L.state look.now) pool (new_record asked.now) }
{
    let Some(tenant) = look.blocking(pool, asked) else {
        return Ok(());
    };
    let used = look.used_by(tenant);
    Err(Refusal::TenantShort {
        instances: used.instances,
        cores: used.cores,
        ram: used.ram,
    })
}

/// How many of the job's semaphores it has no handle of. It costs the handles of each.
pub fn missing_handles<R: Rows>(rows: &R, id: JobId, job: &Job) -> usize
    ensures missing { result ≡ missing_handles (R.state rows.now) id job.now }
    ensures few { result ≤ length job.now.semaphores }
{
    job.semaphores
        .items()
        .iter()
        .filter(|x| !rows.has_handle(**x, id))
        .count()
}
