//! The rows on requests.

ghost use Rattle.std.specs.Prelude.{◌≡◌, ◌<◌, ◌≤◌, ◌==◌, length, not, IfOk};
ghost use Rattle.np_decision.specs.Lower.{Fits, Janitor, Launcher, asked_for, asked_to_keep, first_of, in_state_for, is_pinned_away, is_spent, is_true, judge_accept, judge_decline, judge_fail_declined, judge_fulfil, judge_lock_request, judge_min_ready, judge_register, judge_reset, judge_revise, judge_submit, judge_unlock_request, list_any, lock_pending, lock_request_as, new_record, nodes_after_fulfil, other_than, plan_accept, plan_decline, plan_fail_declined, plan_fulfil, plan_lock_request, plan_min_ready, plan_register, plan_reset, plan_revise, plan_submit, plan_unlock_request, request_after_fulfil, unfilled, unlock_request_as};
ghost use Rattle.np_decision.specs.Verdicts.{lack_at, answer_of, min_ready_of};

use crate::tests::{
    by_registrant, by_request_holder, first_unoffered, has_room, is_named, is_of_request,
    is_offered, is_pending_by, is_too_much, janitor, job_at, launcher, maker, missing_handles,
    none_missing, not_blocked, of_requester, record_of, request_at, request_of, requester,
    tenant_never_fits, wrong_job, wrong_request,
};
use crate::verdict::{Ruling, Verdict, made_by, plain};
use np_changes::{Asked, Changes, Growth, JobsChange, NodesChange, RequestEdit, RequestsChange};
use np_config::Job;
use np_event::{Done, Refusal};
use np_look::{Look, Rows, is_last_pool, node_holder, request_holder, undeclined};
use np_record::{JobRecord, LabelRow, NodeRow};
use np_text::{
    JobId, LabelId, NodeId, NodeState, Phase, PoolId, Reason, RequestId, RequestState, Role,
    SessionId,
};

/// The launcher of a pool takes its registration.
pub fn decide_register<R: Rows>(rows: &R, session: SessionId) -> Ruling
    ensures answer { answer_of result ≡ judge_register (R.state rows.now) session }
    ensures changes { IfOk result (λ v. v.changes ≡ plan_register (R.state rows.now) session) }
{
    let pool = launcher(rows, session)?;
    if let Some(other) = rows.registration(pool) {
        return Err(Refusal::Taken(other));
    }
    plain(Changes {
        grows: Growth::Registration { pool },
        ..made_by(session, Role::Launcher(pool))
    })
}

/// The labels as a row.
fn row_of(labels: &[LabelId]) -> LabelRow
    requires { length labels.now ≤ 32 }
    ensures { result ≡ labels.now }
{
    let mut row = LabelRow::new();
    for label in labels {
        let _room = row.push(*label);
    }
    row
}

/// What a job asks for.
fn asked_for(job: JobId, row: &Job) -> Asked
    requires { length row.now.labels ≤ 32 }
    ensures { result ≡ asked_for job row.now }
{
    Asked {
        job: Some(job),
        labels: row_of(row.labels.items()),
        nodes: NodeRow::new(),
        pinned: None,
        pool: None,
        relative_priority: row.relative_priority,
        state: RequestState::Requested,
    }
}

/// The requester requests the nodes of its job.
pub fn decide_submit<R: Rows>(rows: &R, session: SessionId, job: JobId) -> Ruling
    requires { Fits (R.site rows.now) (R.state rows.now) }
    ensures answer { answer_of result ≡
        judge_submit (R.site rows.now) (R.state rows.now) session job }
    ensures changes { IfOk result (λ v. v.changes ≡
        plan_submit (R.site rows.now) (R.state rows.now) session job) }
{
    let owner = requester(rows, session)?;
    let row = job_at(rows, job)?;
    let kept = record_of(rows, job)?;
    of_requester(owner, row)?;
    ensure!(kept.phase == Phase::New, wrong_job(&kept));
    let missing = missing_handles(rows, job, row);
    if !row.resources_first && missing != 0 {
        return Err(Refusal::NotAll(missing as u32));
    }
    let id = RequestId {
        priority: row.priority,
        seq: rows.next_request(),
    };
    Ok(Verdict {
        done: Done::Request(id),
        changes: Changes {
            grows: Growth::Request {
                priority: row.priority,
                asked: asked_for(job, row),
            },
            jobs: JobsChange::Put {
                job,
                kept: JobRecord {
                    phase: Phase::Asked,
                    request: Some(id),
                    ..kept
                },
            },
            ..made_by(session, Role::Requester(owner))
        },
    })
}

/// The requester changes the relative priority of a request that nobody has accepted.
pub fn decide_revise<R: Rows>(rows: &R, session: SessionId, job: JobId, relative: u32) -> Ruling
    ensures answer { answer_of result ≡
        judge_revise (R.site rows.now) (R.state rows.now) session job }
    ensures changes { IfOk result (λ v. v.changes ≡
        plan_revise (R.state rows.now) session job relative) }
{
    let owner = requester(rows, session)?;
    let row = job_at(rows, job)?;
    let kept = record_of(rows, job)?;
    of_requester(owner, row)?;
    ensure!(kept.phase == Phase::Asked, wrong_job(&kept));
    let request = request_of(&kept)?;
    let asked = request_at(rows, request)?;
    if asked.state != RequestState::Requested {
        return Err(wrong_request(&asked));
    }
    plain(Changes {
        requests: RequestsChange::Edit {
            request,
            edit: RequestEdit::Revise { relative },
        },
        ..made_by(session, Role::Requester(owner))
    })
}

/// What a pool requests to keep a node of the label ready.
fn asked_to_keep(pool: PoolId, label: LabelId) -> Asked
    ensures { result ≡ asked_to_keep pool label }
{
    let mut labels = LabelRow::new();
    let _room = labels.push(label);
    Asked {
        job: None,
        labels,
        nodes: NodeRow::new(),
        pinned: Some(pool),
        pool: None,
        relative_priority: 0,
        state: RequestState::Requested,
    }
}

/// How many free ready nodes of the label are kept.
fn min_ready<R: Rows>(rows: &R, label: LabelId) -> Result<u32, Refusal>
    ensures { result ≡ min_ready_of (R.site rows.now) label }
{
    match rows.config().label(label) {
        None => Err(Refusal::NoLabel(label)),
        Some(row) => Ok(row.min_ready),
    }
}

/// The launcher requests a node of a label that must be kept ready.
pub fn decide_min_ready<L: Look>(look: &L, session: SessionId, label: LabelId) -> Ruling
    requires { Fits (L.site look.now) (L.state look.now) }
    ensures answer { answer_of result ≡
        judge_min_ready (L.site look.now) (L.state look.now) session label }
    ensures changes { IfOk result (λ v. v.changes ≡
        plan_min_ready (L.state look.now) session label) }
{
    let rows = look.rows();
    let pool = launcher(rows, session)?;
    let least = min_ready(rows, label)?;
    by_registrant(rows, pool, session)?;
    ensure!(is_offered(rows, pool, label), Refusal::NoLabel(label));
    ensure!(!look.has_spent_min_ready(pool, label), Refusal::Spent);
    let ready = look.ready_count(label);
    ensure!(ready < least, Refusal::Enough(ready));
    has_room(look, pool, label)?;
    Ok(Verdict {
        done: Done::Request(RequestId {
            priority: 400,
            seq: rows.next_request(),
        }),
        changes: Changes {
            grows: Growth::Request {
                priority: 400,
                asked: asked_to_keep(pool, label),
            },
            ..made_by(session, Role::Launcher(pool))
        },
    })
}

/// The first candidate of the pool, if it is not this request.
fn other_than<L: Look>(look: &L, request: RequestId, pool: PoolId) -> Option<RequestId>
    requires { Fits (L.site look.now) (L.state look.now) }
    ensures { result ≡ other_than request (first_of (L.site look.now) (L.state look.now) pool) }
{
    let first = look.first_of(pool)?;
    if first.priority == request.priority && first.seq == request.seq {
        return None;
    }
    Some(first)
}

fn lock_first<L: Look>(
    look: &L,
    pool: PoolId,
    session: SessionId,
    request: RequestId,
) -> Result<Done, Refusal>
    requires { Fits (L.site look.now) (L.state look.now) }
    ensures { result ≡
        lock_request_as (L.site look.now) (L.state look.now) session request (Launcher pool) }
{
    let rows = look.rows();
    let asked = request_at(rows, request)?;
    by_registrant(rows, pool, session)?;
    if asked.state != RequestState::Requested {
        return Err(wrong_request(&asked));
    }
    ensure!(!rows.is_declined(request, pool), Refusal::Declined);
    ensure!(!is_pinned_away(pool, &asked), Refusal::NotOwner);
    if let Some(holder) = request_holder(rows, request) {
        return Err(Refusal::Busy(holder));
    }
    not_blocked(look, pool, &asked)?;
    if let Some(first) = other_than(look, request, pool) {
        return Err(Refusal::NotFirst(first));
    }
    Ok(Done::Held)
}

/// Whether the request is pinned to another pool.
fn is_pinned_away(pool: PoolId, asked: &Asked) -> bool
    ensures { result ≡ is_pinned_away pool (new_record asked.now) }
{
    matches!(asked.pinned, Some(other) if other.0 != pool.0)
}

fn lock_pending<R: Rows>(rows: &R, request: RequestId) -> Result<Done, Refusal>
    ensures { result ≡ lock_pending (R.state rows.now) request }
{
    let asked = request_at(rows, request)?;
    ensure!(asked.state == RequestState::Pending, wrong_request(&asked));
    if let Some(holder) = request_holder(rows, request) {
        return Err(Refusal::Busy(holder));
    }
    Ok(Done::Held)
}

fn lock_request_as<L: Look>(
    look: &L,
    session: SessionId,
    request: RequestId,
    role: Role,
) -> Result<Done, Refusal>
    requires { Fits (L.site look.now) (L.state look.now) }
    ensures { result ≡ lock_request_as (L.site look.now) (L.state look.now) session request role }
{
    match role {
        Role::Launcher(pool) => lock_first(look, pool, session, request),
        Role::Janitor(_) => lock_pending(look.rows(), request),
        Role::Requester(_) | Role::Reaper => Err(Refusal::WrongRole),
    }
}

/// A launcher takes up the first request of its pool, a janitor one that is pending.
pub fn decide_lock_request<L: Look>(look: &L, session: SessionId, request: RequestId) -> Ruling
    requires { Fits (L.site look.now) (L.state look.now) }
    ensures answer { answer_of result ≡
        judge_lock_request (L.site look.now) (L.state look.now) session request }
    ensures changes { IfOk result (λ v. v.changes ≡
        plan_lock_request (L.state look.now) session request) }
{
    let role = maker(look.rows(), session)?;
    let done = lock_request_as(look, session, request, role)?;
    Ok(Verdict {
        done: done,
        changes: Changes {
            grows: Growth::JoinRequest { request },
            ..made_by(session, role)
        },
    })
}

fn unlock_served<R: Rows>(
    rows: &R,
    pool: PoolId,
    session: SessionId,
    request: RequestId,
) -> Result<Done, Refusal>
    ensures { result ≡ unlock_request_as (R.state rows.now) session request (Launcher pool) }
{
    let asked = request_at(rows, request)?;
    by_request_holder(rows, request, session)?;
    ensure!(!is_pending_by(pool, &asked), wrong_request(&asked));
    Ok(Done::Plain)
}

fn unlock_any<R: Rows>(
    rows: &R,
    pool: PoolId,
    session: SessionId,
    request: RequestId,
) -> Result<Done, Refusal>
    ensures { result ≡ unlock_request_as (R.state rows.now) session request (Janitor pool) }
{
    request_at(rows, request)?;
    by_request_holder(rows, request, session)?;
    Ok(Done::Plain)
}

fn unlock_request_as<R: Rows>(
    rows: &R,
    session: SessionId,
    request: RequestId,
    role: Role,
) -> Result<Done, Refusal>
    ensures { result ≡ unlock_request_as (R.state rows.now) session request role }
{
    match role {
        Role::Launcher(pool) => unlock_served(rows, pool, session, request),
        Role::Janitor(pool) => unlock_any(rows, pool, session, request),
        Role::Requester(_) | Role::Reaper => Err(Refusal::WrongRole),
    }
}

/// The maker releases the lock; a launcher may not while its pool serves the request.
pub fn decide_unlock_request<R: Rows>(rows: &R, session: SessionId, request: RequestId) -> Ruling
    ensures answer { answer_of result ≡ judge_unlock_request (R.state rows.now) session request }
    ensures changes { IfOk result (λ v. v.changes ≡
        plan_unlock_request (R.state rows.now) session request) }
{
    let role = maker(rows, session)?;
    let done = unlock_request_as(rows, session, request, role)?;
    Ok(Verdict {
        done: done,
        changes: Changes {
            requests: RequestsChange::Leave { request },
            ..made_by(session, role)
        },
    })
}

/// The launcher takes the request for its pool, so that no other pool serves it.
pub fn decide_accept<L: Look>(look: &L, session: SessionId, request: RequestId) -> Ruling
    requires { Fits (L.site look.now) (L.state look.now) }
    ensures answer { answer_of result ≡
        judge_accept (L.site look.now) (L.state look.now) session request }
    ensures changes { IfOk result (λ v. v.changes ≡
        plan_accept (L.state look.now) session request) }
{
    let rows = look.rows();
    let pool = launcher(rows, session)?;
    let asked = request_at(rows, request)?;
    by_registrant(rows, pool, session)?;
    by_request_holder(rows, request, session)?;
    if asked.state != RequestState::Requested {
        return Err(wrong_request(&asked));
    }
    ensure!(!rows.is_declined(request, pool), Refusal::Declined);
    if let Some(label) = first_unoffered(rows, pool, asked.labels.items()) {
        return Err(Refusal::NoLabel(label));
    }
    let _few = asked.labels.len();
    if is_too_much(rows, pool, asked.labels.items()) {
        return Err(Refusal::NeverFits);
    }
    if tenant_never_fits(rows, pool, &asked) {
        return Err(Refusal::TenantNeverFits);
    }
    not_blocked(look, pool, &asked)?;
    plain(Changes {
        requests: RequestsChange::Edit {
            request,
            edit: RequestEdit::Serve { pool },
        },
        ..made_by(session, Role::Launcher(pool))
    })
}

/// A pool declines for a failed node while it serves the request, otherwise before it accepts it.
fn in_state_for(pool: PoolId, asked: &Asked, reason: Reason) -> Result<(), Refusal>
    ensures { result ≡ in_state_for pool (new_record asked.now) reason }
{
    let right = match reason {
        Reason::NoLabel(_) | Reason::NeverFits | Reason::TenantNeverFits => {
            asked.state == RequestState::Requested
        }
        Reason::Spent(_) => is_pending_by(pool, asked),
    };
    if right {
        Ok(())
    } else {
        Err(wrong_request(asked))
    }
}

/// Whether the label is among the request's labels.
fn asks_label(asked: &Asked, label: LabelId) -> bool
    ensures { result ≡ list_any (λ other. other.0 == label.0) asked.now.labels }
{
    asked.labels.items().iter().any(|other| other.0 == label.0)
}

/// Whether the node is in the request's list.
fn has_node(asked: &Asked, node: NodeId) -> bool
    ensures { result ≡ list_any (λ other. other.0 == node.0) asked.now.nodes }
{
    asked.nodes.items().iter().any(|other| other.0 == node.0)
}

fn is_spent<R: Rows>(rows: &R, node: NodeId) -> bool
    ensures { result ≡ is_spent node (R.state rows.now) }
{
    matches!(rows.node(node), Some(kept) if kept.state == NodeState::Failed)
}

/// Whether the reason is true of the request at the pool.
fn is_true<R: Rows>(rows: &R, pool: PoolId, asked: &Asked, reason: Reason) -> bool
    requires { Fits (R.site rows.now) (R.state rows.now) }
    ensures { result ≡
        is_true (R.site rows.now) (R.state rows.now) pool (new_record asked.now) reason }
{
    match reason {
        Reason::NoLabel(label) => asks_label(asked, label) && !is_offered(rows, pool, label),
        Reason::NeverFits => {
            let _few = asked.labels.len();
            is_too_much(rows, pool, asked.labels.items())
        }
        Reason::TenantNeverFits => tenant_never_fits(rows, pool, asked),
        Reason::Spent(node) => has_node(asked, node) && is_spent(rows, node),
    }
}

/// The launcher leaves the request to the other pools; it fails if none is left.
pub fn decide_decline<R: Rows>(
    rows: &R,
    session: SessionId,
    request: RequestId,
    reason: Reason,
) -> Ruling
    requires { Fits (R.site rows.now) (R.state rows.now) }
    ensures answer { answer_of result ≡
        judge_decline (R.site rows.now) (R.state rows.now) session request reason }
    ensures changes { IfOk result (λ v. v.changes ≡
        plan_decline (R.state rows.now) session request reason) }
{
    let pool = launcher(rows, session)?;
    let asked = request_at(rows, request)?;
    by_registrant(rows, pool, session)?;
    by_request_holder(rows, request, session)?;
    in_state_for(pool, &asked, reason)?;
    ensure!(!rows.is_declined(request, pool), Refusal::Declined);
    ensure!(is_true(rows, pool, &asked, reason), Refusal::FalseReason);
    let failed = asked.pinned.is_some() || is_last_pool(rows, request, pool);
    plain(Changes {
        requests: RequestsChange::Edit {
            request,
            edit: RequestEdit::Decline {
                pool,
                reason,
                failed,
            },
        },
        nodes: NodesChange::FreeAll { request },
        ..made_by(session, Role::Launcher(pool))
    })
}

/// 1 if there is a label and no node for it.
fn lack<R: Rows>(
    rows: &R,
    pool: PoolId,
    session: SessionId,
    request: RequestId,
    label: Option<LabelId>,
    number: Option<NodeId>,
) -> usize
    ensures lack { result ≡ lack_at pool session request (R.state rows.now).nodes label number }
    ensures few { result ≤ 1 }
{
    let Some(label) = label else {
        return 0;
    };
    let Some(number) = number else {
        return 1;
    };
    let Some(kept) = rows.node(number) else {
        return 1;
    };
    let filled = kept.state == NodeState::Ready
        && is_of_request(request, kept.allocated_to)
        && kept.pool.0 == pool.0
        && kept.label.0 == label.0
        && is_named(session, node_holder(rows, number));
    if filled { 0 } else { 1 }
}

/// How many places of the labels have no node as `fulfil` needs it.
fn unfilled<R: Rows>(
    rows: &R,
    pool: PoolId,
    session: SessionId,
    request: RequestId,
    asked: &Asked,
) -> usize
    ensures unfilled { result ≡
        unfilled pool session request (R.state rows.now).nodes asked.now.labels asked.now.nodes }
    ensures few { result ≤ 32 }
{
    let mut missing = 0;
    for at in 0..asked.labels.len() {
        missing += lack(
            rows,
            pool,
            session,
            request,
            asked.labels.at(at),
            asked.nodes.at(at),
        );
    }
    missing
}

fn request_after_fulfil(request: RequestId, pinned: bool) -> RequestsChange
    ensures { result ≡ request_after_fulfil request pinned }
{
    if pinned {
        RequestsChange::Remove { request }
    } else {
        RequestsChange::Edit {
            request,
            edit: RequestEdit::Fulfil,
        }
    }
}

fn nodes_after_fulfil(request: RequestId, pinned: bool) -> NodesChange
    ensures { result ≡ nodes_after_fulfil request pinned }
{
    if pinned {
        NodesChange::FreeAll { request }
    } else {
        NodesChange::Same
    }
}

/// The launcher hands all the request's nodes over at once; a min-ready request is removed, and its
/// node is free.
pub fn decide_fulfil<R: Rows>(rows: &R, session: SessionId, request: RequestId) -> Ruling
    ensures answer { answer_of result ≡ judge_fulfil (R.state rows.now) session request }
    ensures changes { IfOk result (λ v. v.changes ≡
        plan_fulfil (R.state rows.now) session request) }
{
    let pool = launcher(rows, session)?;
    let asked = request_at(rows, request)?;
    by_registrant(rows, pool, session)?;
    by_request_holder(rows, request, session)?;
    ensure!(is_pending_by(pool, &asked), wrong_request(&asked));
    none_missing(unfilled(rows, pool, session, request, &asked))?;
    let pinned = asked.pinned.is_some();
    plain(Changes {
        requests: request_after_fulfil(request, pinned),
        nodes: nodes_after_fulfil(request, pinned),
        ..made_by(session, Role::Launcher(pool))
    })
}

/// The janitor gives back a request whose launcher is gone.
pub fn decide_reset<R: Rows>(rows: &R, session: SessionId, request: RequestId) -> Ruling
    ensures answer { answer_of result ≡ judge_reset (R.state rows.now) session request }
    ensures changes { IfOk result (λ v. v.changes ≡ plan_reset (R.state rows.now) session request) }
{
    let pool = janitor(rows, session)?;
    let asked = request_at(rows, request)?;
    by_request_holder(rows, request, session)?;
    ensure!(asked.state == RequestState::Pending, wrong_request(&asked));
    plain(Changes {
        requests: RequestsChange::Edit {
            request,
            edit: RequestEdit::GiveBack,
        },
        nodes: NodesChange::FreeAll { request },
        ..made_by(session, Role::Janitor(pool))
    })
}

/// The janitor fails a request that every registered pool has declined.
pub fn decide_fail_declined<R: Rows>(rows: &R, session: SessionId, request: RequestId) -> Ruling
    ensures answer { answer_of result ≡ judge_fail_declined (R.state rows.now) session request }
    ensures changes { IfOk result (λ v. v.changes ≡
        plan_fail_declined (R.state rows.now) session request) }
{
    let pool = janitor(rows, session)?;
    let asked = request_at(rows, request)?;
    if asked.state != RequestState::Requested {
        return Err(wrong_request(&asked));
    }
    ensure!(rows.registrations() != 0, Refusal::NotRegistered);
    none_missing(undeclined(rows, request) as usize)?;
    plain(Changes {
        requests: RequestsChange::Edit {
            request,
            edit: RequestEdit::Fail,
        },
        ..made_by(session, Role::Janitor(pool))
    })
}
