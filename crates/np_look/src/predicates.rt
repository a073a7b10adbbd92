//! What is true of a row and of the rows that it names.

ghost use Rattle.std.specs.Prelude.{◌≡◌};
ghost use Rattle.np_look.specs.Lower.{Fits, ahead_of, first_full, has_handle, is_full, is_queued, list_any, node_holder, node_queue, request_holder, undeclined};
ghost use Rattle.np_look.specs.Jobs.{is_job_to_acquire, is_job_to_begin, is_job_to_release, is_job_to_take, is_supplied};
ghost use Rattle.np_look.specs.Given.{given_to, is_given_to};
ghost use Rattle.np_look.specs.Readers.{undeclined_of, is_last_pool_of, request_state_of, is_declined_by_all, is_unclaimed};

use crate::rows::Rows;
use crate::walk::{declines_or_is, is_declined_by, is_requested, one_if, was_given};
use np_amount::Amount;
use np_changes::Asked;
use np_config::{Config, Job};
use np_record::{JobRecord, NodeRecord, RequestRecord};
use np_text::{
    JobId, NodeId, Phase, PoolId, RequestId, RequestState, RequesterId, SemId, SessionId,
};

/// Whether as many jobs have a handle of the semaphore as may.
pub fn is_full<R: Rows>(rows: &R, semaphore: SemId) -> bool
    ensures { result ≡ is_full (R.site rows.now) (R.state rows.now) semaphore }
{
    let max = match rows.config().semaphore(semaphore) {
        None => 0,
        Some(row) => row.max,
    };
    max <= rows.handles(semaphore)
}

/// The first of the job's semaphores that is full and of which it has no handle.
pub fn first_full<R: Rows>(rows: &R, id: JobId, job: &Job) -> Option<SemId>
    ensures { result ≡ first_full (R.site rows.now) (R.state rows.now) id job.now }
{
    for semaphore in job.semaphores.items() {
        if !rows.has_handle(*semaphore, id) && is_full(rows, *semaphore) {
            return Some(*semaphore);
        }
    }
    None
}

/// Whether the job has a handle of one of its semaphores. It asks `has_handle` for each.
pub fn has_handles<R: Rows>(rows: &R, id: JobId, job: &Job) -> bool
    ensures { result ≡ list_any (has_handle id (R.state rows.now).handles) job.now.semaphores }
{
    job.semaphores
        .items()
        .iter()
        .any(|x| rows.has_handle(*x, id))
}

/// Whether the job need not wait for handles: it has one, or no semaphores. It asks `has_handle`
/// for each.
pub fn is_supplied<R: Rows>(rows: &R, id: JobId, job: &Job) -> bool
    ensures { result ≡ is_supplied (R.state rows.now) id job.now }
{
    job.semaphores.items().is_empty() || has_handles(rows, id, job)
}

/// Whether the job is the requester's and new, and need not wait for semaphores.
pub fn is_job_to_begin<R: Rows>(
    rows: &R,
    requester: RequesterId,
    id: JobId,
    kept: &JobRecord,
) -> bool
    ensures { result ≡
        is_job_to_begin (R.site rows.now) (R.state rows.now) requester id kept.now }
{
    matches!(rows.config().job(id), Some(row)
        if row.requester.0 == requester.0
            && (row.resources_first || first_full(rows, id, row).is_none())
            && kept.phase == Phase::New)
}

/// Whether the job is the requester's, was given its nodes and need not wait for handles.
pub fn is_job_to_take<R: Rows>(
    rows: &R,
    requester: RequesterId,
    id: JobId,
    kept: &JobRecord,
) -> bool
    ensures { result ≡
        is_job_to_take (R.site rows.now) (R.state rows.now) requester id kept.now }
{
    matches!(rows.config().job(id), Some(row)
        if row.requester.0 == requester.0
            && is_supplied(rows, id, row)
            && was_given(kept.phase, request_state(rows, kept.request)))
}

/// Whether the job is the requester's, was given its nodes, waits for handles and finds room in
/// all its semaphores.
pub fn is_job_to_acquire<R: Rows>(
    rows: &R,
    requester: RequesterId,
    id: JobId,
    kept: &JobRecord,
) -> bool
    ensures { result ≡
        is_job_to_acquire (R.site rows.now) (R.state rows.now) requester id kept.now }
{
    matches!(rows.config().job(id), Some(row)
        if row.requester.0 == requester.0
            && (!is_supplied(rows, id, row) && first_full(rows, id, row).is_none())
            && was_given(kept.phase, request_state(rows, kept.request)))
}

/// Whether the job is the requester's and over, and has a handle.
pub fn is_job_to_release<R: Rows>(
    rows: &R,
    requester: RequesterId,
    id: JobId,
    kept: &JobRecord,
) -> bool
    ensures { result ≡
        is_job_to_release (R.site rows.now) (R.state rows.now) requester id kept.now }
{
    matches!(rows.config().job(id), Some(row)
        if row.requester.0 == requester.0
            && has_handles(rows, id, row)
            && kept.phase == Phase::Over)
}

/// The requester to which the node with this record was given: the request that it is allocated
/// to is fulfilled, and its job, which is the requester's, has asked for it.
pub fn given_to<R: Rows>(rows: &R, kept: &NodeRecord) -> Option<RequesterId>
    ensures { result ≡ given_to (R.site rows.now) (R.state rows.now) kept.now }
{
    let asked = rows.asked(kept.allocated_to?)?;
    if asked.state != RequestState::Fulfilled {
        return None;
    }
    let id = asked.job?;
    let job = rows.job(id)?;
    if job.phase != Phase::Asked {
        return None;
    }
    let row = rows.config().job(id)?;
    Some(row.requester)
}

/// Whether the node with this record was given to the requester.
pub fn is_given_to<R: Rows>(rows: &R, requester: RequesterId, kept: &NodeRecord) -> bool
    ensures { result ≡ is_given_to (R.site rows.now) (R.state rows.now) requester kept.now }
{
    matches!(given_to(rows, kept), Some(other) if other.0 == requester.0)
}

/// The state of the request, if there is one.
pub fn request_state<R: Rows>(rows: &R, request: Option<RequestId>) -> Option<RequestState>
    ensures { result ≡ request_state_of request (R.state rows.now) }
{
    match request {
        None => None,
        Some(request) => match rows.asked(request) {
            None => None,
            Some(asked) => Some(asked.state),
        },
    }
}

/// How many registered pools are not among the record's declines.
pub fn undeclined_by<R: Rows>(rows: &R, kept: &RequestRecord) -> u32
    ensures { result ≡ undeclined (R.state rows.now).registrations kept.now }
{
    let mut count = 0;
    for at in 0..rows.registrations() {
        let Some(row) = rows.registration_at(at) else {
            return count;
        };
        count += one_if(!is_declined_by(row.pool, kept.declined.items()));
    }
    count
}

/// How many registered pools have not declined the request.
pub fn undeclined<R: Rows>(rows: &R, request: RequestId) -> u32
    ensures { result ≡ undeclined_of request (R.state rows.now) }
{
    match rows.request(request) {
        None => 0,
        Some(kept) => undeclined_by(rows, &kept),
    }
}

/// Whether every other registered pool has declined the request.
pub fn is_last_pool<R: Rows>(rows: &R, request: RequestId, pool: PoolId) -> bool
    ensures { result ≡ is_last_pool_of pool request (R.state rows.now) }
{
    let Some(kept) = rows.request(request) else {
        return false;
    };
    for at in 0..rows.registrations() {
        let Some(row) = rows.registration_at(at) else {
            return true;
        };
        if !declines_or_is(pool, row.pool, kept.declined.items()) {
            return false;
        }
    }
    true
}

/// Whether the request with this record is requested and every registered pool declined it.
pub fn is_declined_by_all<R: Rows>(rows: &R, kept: &RequestRecord) -> bool
    ensures { result ≡ is_declined_by_all (R.state rows.now) kept.now }
{
    is_requested(kept) && undeclined_by(rows, kept) == 0
}

/// Who holds the request.
pub fn request_holder<R: Rows>(rows: &R, request: RequestId) -> Option<SessionId>
    ensures { result ≡ request_holder request (R.state rows.now).requests }
{
    rows.request_queue(request, 0)
}

/// Who holds the node.
pub fn node_holder<R: Rows>(rows: &R, node: NodeId) -> Option<SessionId>
    ensures { result ≡ node_holder node (R.state rows.now).nodes }
{
    rows.node_queue(node, 0)
}

/// How many sessions are before this one in the node's queue, or in all if it is not there.
pub fn ahead_at_node<R: Rows>(rows: &R, session: SessionId, node: NodeId) -> u32
    requires { Fits (R.site rows.now) (R.state rows.now) }
    ensures { result ≡ ahead_of session (node_queue node (R.state rows.now).nodes) }
{
    let mut ahead = 0;
    while let Some(other) = rows.node_queue(node, ahead) {
        if other.0 == session.0 {
            return ahead;
        }
        ahead += 1;
    }
    ahead
}

/// Whether the session is in the node's queue.
pub fn waits_at_node<R: Rows>(rows: &R, session: SessionId, node: NodeId) -> bool
    requires { Fits (R.site rows.now) (R.state rows.now) }
    ensures { result ≡ is_queued session (node_queue node (R.state rows.now).nodes) }
{
    let mut at = 0;
    while let Some(other) = rows.node_queue(node, at) {
        if other.0 == session.0 {
            return true;
        }
        at += 1;
    }
    false
}

/// Whether the node is allocated to no request, or to one that is gone.
pub fn is_unclaimed<R: Rows>(rows: &R, kept: &NodeRecord) -> bool
    ensures { result ≡ is_unclaimed (R.state rows.now) kept.now }
{
    match kept.allocated_to {
        None => true,
        Some(request) => rows.asked(request).is_none(),
    }
}
