//! The rows on nodes.

ghost use Rattle.std.specs.Prelude.{◌≡◌, ◌<◌, ◌≤◌, ◌+◌, ◌^◌, length, slice_get, option_and_then, IfOk};
ghost use Rattle.np_decision.specs.Lower.{Allocate, Fits, due_tick, end_in, ended_as, is_own, is_past, is_server, is_wanted, judge_create, judge_done, judge_end_node, judge_free_node, judge_gone, judge_lock_node, judge_mark_deleting, judge_start, judge_sweep, judge_take_ready, judge_unlock_node, launched, may_delete, new_node, new_record, place_reply, plan_create, plan_done, plan_end_node, plan_free_node, plan_gone, plan_lock_node, plan_mark_deleting, plan_start, plan_sweep, plan_take_ready, plan_unlock_node, ready_age, retries_of, standing, starts_of, state_after_launch, tenant_of_job};
ghost use Rattle.np_decision.specs.Verdicts.{answer_of};

use crate::tests::{
    by_node_holder, by_registrant, by_request_holder, has_room, is_pending_by, janitor, launcher,
    maker, next_label, node_at, of_pool, request_at, requester, tenant_of_job, wrong_node,
    wrong_request,
};
use crate::verdict::{Ruling, Verdict, made_by, plain};
use np_changes::{
    Asked, Changes, Deed, Growth, JobsChange, NodesChange, RequestEdit, RequestsChange,
};
use np_event::{Done, Outcome, Refusal};
use np_look::{Look, Rows, ahead_at_node, node_holder, waits_at_node};
use np_record::NodeRecord;
use np_text::{
    EndAs, JobId, LabelId, NodeId, NodeState, PoolId, RequestId, RequesterId, Role, SessionId,
};

/// The node is given to the request, for the tenant of its job.
fn allocate<R: Rows>(rows: &R, node: NodeId, request: RequestId, asked: &Asked) -> Growth
    ensures { result ≡ Allocate node request (tenant_of_job (R.site rows.now) asked.now.job) }
{
    Growth::Allocate {
        node,
        request,
        tenant: tenant_of_job(rows, asked.job),
    }
}

/// The launcher gives a ready node to the request, for the tenant of its job.
pub fn decide_take_ready<R: Rows>(
    rows: &R,
    session: SessionId,
    request: RequestId,
    node: NodeId,
) -> Ruling
    ensures answer { answer_of result ≡ judge_take_ready (R.state rows.now) session request node }
    ensures changes { IfOk result (λ v. v.changes ≡
        plan_take_ready (R.site rows.now) (R.state rows.now) session request node) }
{
    let pool = launcher(rows, session)?;
    let asked = request_at(rows, request)?;
    let kept = node_at(rows, node)?;
    by_registrant(rows, pool, session)?;
    by_request_holder(rows, request, session)?;
    ensure!(is_pending_by(pool, &asked), wrong_request(&asked));
    ensure!(asked.pinned.is_none(), Refusal::NotOwner);
    let Some(label) = next_label(&asked) else {
        return Err(wrong_request(&asked));
    };
    ensure!(kept.state == NodeState::Ready, wrong_node(&kept));
    if let Some(other) = kept.allocated_to {
        return Err(Refusal::Allocated(other));
    }
    if kept.pool.0 != pool.0 || kept.label.0 != label.0 {
        return Err(Refusal::NoLabel(label));
    }
    if let Some(holder) = node_holder(rows, node) {
        return Err(Refusal::Busy(holder));
    }
    Ok(Verdict {
        done: Done::Held,
        changes: Changes {
            grows: allocate(rows, node, request, &asked),
            requests: RequestsChange::Edit {
                request,
                edit: RequestEdit::AddNode { node },
            },
            ..made_by(session, Role::Launcher(pool))
        },
    })
}

/// A node that nobody has launched yet, for the tenant of the request's job.
fn new_node<R: Rows>(
    rows: &R,
    request: RequestId,
    pool: PoolId,
    asked: &Asked,
    label: LabelId,
) -> NodeRecord
    ensures { result ≡
        new_node (R.site rows.now) (R.state rows.now) request pool (new_record asked.now) label }
{
    NodeRecord {
        allocated_to: Some(request),
        attempts: 0,
        in_flight: false,
        label,
        pool,
        server: None,
        since: rows.tick(),
        start: 0,
        state: NodeState::Building,
        tenant: tenant_of_job(rows, asked.job),
    }
}

/// The launcher makes a node for the request's next label.
pub fn decide_create<L: Look>(look: &L, session: SessionId, request: RequestId) -> Ruling
    requires { Fits (L.site look.now) (L.state look.now) }
    ensures answer { answer_of result ≡
        judge_create (L.site look.now) (L.state look.now) session request }
    ensures changes { IfOk result (λ v. v.changes ≡
        plan_create (L.site look.now) (L.state look.now) session request) }
{
    let rows = look.rows();
    let pool = launcher(rows, session)?;
    let asked = request_at(rows, request)?;
    by_registrant(rows, pool, session)?;
    by_request_holder(rows, request, session)?;
    ensure!(is_pending_by(pool, &asked), wrong_request(&asked));
    let Some(label) = next_label(&asked) else {
        return Err(wrong_request(&asked));
    };
    has_room(look, pool, label)?;
    let node = NodeId(rows.next_node());
    Ok(Verdict {
        done: Done::Node(node),
        changes: Changes {
            grows: Growth::Node {
                kept: new_node(rows, request, pool, &asked, label),
            },
            requests: RequestsChange::Edit {
                request,
                edit: RequestEdit::AddNode { node },
            },
            ..made_by(session, Role::Launcher(pool))
        },
    })
}

/// How many launches the pool has started.
fn starts_of<R: Rows>(rows: &R, pool: PoolId) -> u32
    requires { Fits (R.site rows.now) (R.state rows.now) }
    ensures starts { result ≡ starts_of pool (R.state rows.now) }
    ensures few { result ≤ 262144 }
{
    match rows.role(Role::Launcher(pool)) {
        None => 0,
        Some(deeds) => deeds.starts,
    }
}

/// The launcher begins an attempt to launch the node.
pub fn decide_start<R: Rows>(rows: &R, session: SessionId, node: NodeId) -> Ruling
    requires { Fits (R.site rows.now) (R.state rows.now) }
    ensures answer { answer_of result ≡ judge_start (R.state rows.now) session node }
    ensures changes { IfOk result (λ v. v.changes ≡ plan_start (R.state rows.now) session node) }
{
    let pool = launcher(rows, session)?;
    let kept = node_at(rows, node)?;
    of_pool(pool, &kept)?;
    by_node_holder(rows, node, session)?;
    if kept.state != NodeState::Building || kept.in_flight {
        return Err(wrong_node(&kept));
    }
    let attempts = kept.attempts + 1;
    let start = starts_of(rows, pool) + 1;
    Ok(Verdict {
        done: Done::Started {
            attempt: attempts,
            start,
        },
        changes: Changes {
            nodes: NodesChange::Put {
                node,
                kept: NodeRecord {
                    attempts,
                    in_flight: true,
                    start,
                    ..kept
                },
            },
            deed: Some(Deed::StartsAndActs { pool }),
            ..made_by(session, Role::Launcher(pool))
        },
    })
}

fn state_after_launch(retries: u8, node: &NodeRecord, outcome: Outcome) -> NodeState
    ensures { result ≡ state_after_launch retries node.now outcome }
{
    match outcome {
        Outcome::Launched(_) => NodeState::Ready,
        Outcome::Failed => {
            if node.attempts == retries {
                NodeState::Failed
            } else {
                node.state
            }
        }
    }
}

/// The node after the outcome of its launch.
fn launched(retries: u8, tick: u32, outcome: Outcome, node: &NodeRecord) -> NodeRecord
    ensures { result ≡ launched retries tick outcome node.now }
{
    let state = state_after_launch(retries, node, outcome);
    match outcome {
        Outcome::Launched(server) => NodeRecord {
            in_flight: false,
            server: Some(server),
            since: tick,
            state,
            ..*node
        },
        Outcome::Failed => NodeRecord {
            in_flight: false,
            state,
            ..*node
        },
    }
}

fn retries<R: Rows>(rows: &R, pool: PoolId) -> u8
    ensures { result ≡ retries_of (R.site rows.now) pool }
{
    np_look::retries(rows.config(), pool)
}

/// The launcher reports the outcome of the launch.
pub fn decide_done<R: Rows>(
    rows: &R,
    session: SessionId,
    node: NodeId,
    attempt: u8,
    outcome: Outcome,
) -> Ruling
    ensures answer { answer_of result ≡ judge_done (R.state rows.now) session node attempt }
    ensures changes { IfOk result (λ v. v.changes ≡
        plan_done (R.site rows.now) (R.state rows.now) session node outcome) }
{
    let pool = launcher(rows, session)?;
    let kept = node_at(rows, node)?;
    of_pool(pool, &kept)?;
    by_node_holder(rows, node, session)?;
    ensure!(kept.in_flight, wrong_node(&kept));
    if kept.attempts != attempt {
        return Err(Refusal::WrongAttempt(kept.attempts));
    }
    plain(Changes {
        nodes: NodesChange::Put {
            node,
            kept: launched(retries(rows, kept.pool), rows.tick(), outcome, &kept),
        },
        ..made_by(session, Role::Launcher(pool))
    })
}

/// First in the queue, or how many are before.
fn place_reply(ahead: u32) -> Done
    ensures { result ≡ place_reply ahead }
{
    if ahead == 0 {
        Done::Held
    } else {
        Done::Queued { ahead }
    }
}

/// The maker joins the node's queue.
pub fn decide_lock_node<R: Rows>(rows: &R, session: SessionId, node: NodeId) -> Ruling
    requires { Fits (R.site rows.now) (R.state rows.now) }
    ensures answer { answer_of result ≡ judge_lock_node (R.state rows.now) session node }
    ensures changes { IfOk result (λ v. v.changes ≡
        plan_lock_node (R.state rows.now) session node) }
{
    let role = maker(rows, session)?;
    node_at(rows, node)?;
    Ok(Verdict {
        done: place_reply(ahead_at_node(rows, session, node)),
        changes: Changes {
            grows: Growth::JoinNode { node },
            ..made_by(session, role)
        },
    })
}

/// The maker leaves the node's queue.
pub fn decide_unlock_node<R: Rows>(rows: &R, session: SessionId, node: NodeId) -> Ruling
    requires { Fits (R.site rows.now) (R.state rows.now) }
    ensures answer { answer_of result ≡ judge_unlock_node (R.state rows.now) session node }
    ensures changes { IfOk result (λ v. v.changes ≡
        plan_unlock_node (R.state rows.now) session node) }
{
    let role = maker(rows, session)?;
    node_at(rows, node)?;
    ensure!(waits_at_node(rows, session, node), Refusal::NotHeld);
    plain(Changes {
        nodes: NodesChange::Leave { node },
        ..made_by(session, role)
    })
}

fn ended_as(end: EndAs) -> NodeState
    ensures { result ≡ ended_as end }
{
    match end {
        EndAs::Used => NodeState::Used,
        EndAs::Hold => NodeState::Hold,
    }
}

/// Whether the job is there, and the requester's.
fn is_own<R: Rows>(rows: &R, requester: RequesterId, job: Option<JobId>) -> bool
    ensures { result ≡
        is_own requester (option_and_then (λ j. slice_get (R.site rows.now).jobs j.0) job) }
{
    let Some(job) = job else {
        return false;
    };
    matches!(rows.config().job(job), Some(row) if row.requester.0 == requester.0)
}

/// The node is marked ended in the job, if there is one.
fn end_in(job: Option<JobId>, node: NodeId) -> JobsChange
    ensures { result ≡ end_in job node }
{
    match job {
        None => JobsChange::Same,
        Some(job) => JobsChange::EndNode { job, node },
    }
}

/// The requester is done with a node of its job.
#[tactic(auto, using(crate::proofs::OwnerLemmas::owner_at))]
pub fn decide_end_node<L: Look>(look: &L, session: SessionId, node: NodeId, end: EndAs) -> Ruling
    ensures answer { answer_of result ≡
        judge_end_node (L.site look.now) (L.state look.now) session node }
    ensures changes { IfOk result (λ v. v.changes ≡
        plan_end_node (L.state look.now) session node end) }
{
    let rows = look.rows();
    let own = requester(rows, session)?;
    let kept = node_at(rows, node)?;
    by_node_holder(rows, node, session)?;
    ensure!(kept.state == NodeState::InUse, wrong_node(&kept));
    let job = look.owner(node);
    ensure!(is_own(rows, own, job), Refusal::NotOwner);
    plain(Changes {
        nodes: NodesChange::Put {
            node,
            kept: NodeRecord {
                since: rows.tick(),
                state: ended_as(end),
                ..kept
            },
        },
        jobs: end_in(job, node),
        ..made_by(session, Role::Requester(own))
    })
}

/// Whether it is older than the age, if there is one; 0 is no age.
fn is_past(age: u32, since: u32, tick: u32) -> bool
    ensures { result ≡ is_past age since tick }
{
    age > 0 && tick.saturating_sub(since) > age
}

/// The first tick at which it is past the age; 0 for never.
fn due_tick(age: u32, since: u32) -> u32
    requires { since + age + 1 < 2 ^ 32 }
    ensures { result ≡ due_tick age since }
{
    if age == 0 { 0 } else { since + age + 1 }
}

fn max_hold_age<R: Rows>(rows: &R) -> u32
    ensures { result ≡ (R.site rows.now).max_hold_age }
{
    rows.config().max_hold_age()
}

fn ready_age<R: Rows>(rows: &R, label: LabelId) -> u32
    ensures { result ≡ ready_age (R.site rows.now) label }
{
    np_look::ready_age(rows.config(), label)
}

/// Whether a node may be given up: a ready one if nobody has it and it is old or its pool is
/// paused, a held one if it is old, any other at once.
fn may_delete<L: Look>(look: &L, node: &NodeRecord) -> Result<(), Refusal>
    requires fits { Fits (L.site look.now) (L.state look.now) }
    requires since { node.now.since ≤ 262144 }
    ensures { result ≡ may_delete (L.site look.now) (L.state look.now) node.now node.now.state }
{
    let rows = look.rows();
    match node.state {
        NodeState::Building | NodeState::InUse | NodeState::Used | NodeState::Failed => Ok(()),
        NodeState::Deleting => Err(wrong_node(node)),
        NodeState::Hold => {
            let age = max_hold_age(rows);
            if is_past(age, node.since, rows.tick()) {
                return Ok(());
            }
            Err(Refusal::NotDue(due_tick(age, node.since)))
        }
        NodeState::Ready => {
            if let Some(request) = node.allocated_to {
                return Err(Refusal::Allocated(request));
            }
            let age = ready_age(rows, node.label);
            if is_past(age, node.since, rows.tick()) || look.is_paused(node.pool) {
                return Ok(());
            }
            Err(Refusal::NotDue(due_tick(age, node.since)))
        }
    }
}

/// The janitor gives a node up.
pub fn decide_mark_deleting<L: Look>(look: &L, session: SessionId, node: NodeId) -> Ruling
    requires { Fits (L.site look.now) (L.state look.now) }
    ensures answer { answer_of result ≡
        judge_mark_deleting (L.site look.now) (L.state look.now) session node }
    ensures changes { IfOk result (λ v. v.changes ≡
        plan_mark_deleting (L.state look.now) session node) }
{
    let rows = look.rows();
    let pool = janitor(rows, session)?;
    let kept = node_at(rows, node)?;
    by_node_holder(rows, node, session)?;
    may_delete(look, &kept)?;
    plain(Changes {
        nodes: NodesChange::Put {
            node,
            kept: NodeRecord {
                in_flight: false,
                state: NodeState::Deleting,
                ..kept
            },
        },
        ..made_by(session, Role::Janitor(pool))
    })
}

/// The node's record is removed.
pub fn decide_gone<R: Rows>(rows: &R, session: SessionId, node: NodeId) -> Ruling
    ensures answer { answer_of result ≡ judge_gone (R.state rows.now) session node }
    ensures changes { IfOk result (λ v. v.changes ≡ plan_gone (R.state rows.now) session node) }
{
    let pool = janitor(rows, session)?;
    let kept = node_at(rows, node)?;
    by_node_holder(rows, node, session)?;
    ensure!(kept.state == NodeState::Deleting, wrong_node(&kept));
    plain(Changes {
        nodes: NodesChange::Remove { node },
        ..made_by(session, Role::Janitor(pool))
    })
}

/// The request, if it is there.
fn standing<R: Rows>(rows: &R, found: Option<RequestId>) -> Option<RequestId>
    ensures { result ≡ standing (R.state rows.now) found }
{
    let request = found?;
    match rows.asked(request) {
        None => None,
        Some(_) => Some(request),
    }
}

/// The janitor frees a ready node whose request is gone.
pub fn decide_free_node<R: Rows>(rows: &R, session: SessionId, node: NodeId) -> Ruling
    ensures answer { answer_of result ≡ judge_free_node (R.state rows.now) session node }
    ensures changes { IfOk result (λ v. v.changes ≡
        plan_free_node (R.state rows.now) session node) }
{
    let pool = janitor(rows, session)?;
    let kept = node_at(rows, node)?;
    by_node_holder(rows, node, session)?;
    if kept.state != NodeState::Ready || kept.allocated_to.is_none() {
        return Err(wrong_node(&kept));
    }
    if let Some(request) = standing(rows, kept.allocated_to) {
        return Err(Refusal::Allocated(request));
    }
    plain(Changes {
        nodes: NodesChange::Put {
            node,
            kept: NodeRecord {
                allocated_to: None,
                tenant: None,
                ..kept
            },
        },
        ..made_by(session, Role::Janitor(pool))
    })
}

fn is_server(server: u64, found: Option<u64>) -> bool
    ensures { result ≡ is_server server found }
{
    matches!(found, Some(other) if other == server)
}

/// Whether the node is there, and building or with this server.
fn is_wanted<R: Rows>(rows: &R, node: NodeId, server: u64) -> bool
    ensures { result ≡ is_wanted (R.state rows.now) node server }
{
    matches!(rows.node(node), Some(kept)
        if kept.state == NodeState::Building || is_server(server, kept.server))
}

/// The janitor asks whether a server of its cloud is still wanted.
pub fn decide_sweep<R: Rows>(rows: &R, session: SessionId, node: NodeId, server: u64) -> Ruling
    ensures answer { answer_of result ≡ judge_sweep (R.state rows.now) session node server }
    ensures changes { IfOk result (λ v. v.changes ≡
        plan_sweep (R.state rows.now) session node server) }
{
    let pool = janitor(rows, session)?;
    let bare = made_by(session, Role::Janitor(pool));
    if is_wanted(rows, node, server) {
        return Ok(Verdict {
            done: Done::Keep,
            changes: bare,
        });
    }
    Ok(Verdict {
        done: Done::Remove,
        changes: Changes {
            grows: Growth::Swept { node, server },
            ..bare
        },
    })
}
