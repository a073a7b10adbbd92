//! The rows on semaphores and jobs.

ghost use Rattle.std.specs.Prelude.{◌≡◌, ◌<◌, ◌≤◌, ◌^◌, length, map, IfOk};
ghost use Rattle.np_decision.specs.Lower.{Fits, SemId, ending_of, has_failed_request, is_busy_with, is_finishable, judge_acquire, judge_finish, judge_release, judge_take, judge_withdraw, list_all, list_any, may_finish, may_release, plan_acquire, plan_finish, plan_release, plan_take, plan_withdraw, request_after_withdraw, requester_or_janitor, role_of, unended, unheld};
ghost use Rattle.np_decision.specs.Verdicts.{answer_of};

use crate::tests::{
    is_named, job_at, maker, missing_handles, none_missing, of_requester, record_of, request_at,
    request_of, requester, wrong_job, wrong_request,
};
use crate::verdict::{Ruling, Verdict, made_by, plain};
use np_changes::{Changes, Growth, HandlesChange, JobsChange, NodesChange, RequestsChange};
use np_config::Job;
use np_event::{Done, Refusal};
use np_look::{Look, Rows, first_full, is_requester, node_holder};
use np_record::{JobRecord, MarkRow, Marked, NodeRow};
use np_text::{
    Ending, JobId, NodeId, NodeState, Phase, RequestId, RequestState, RequesterId, Role, SessionId,
};

/// The job takes all its semaphores, or none.
pub fn decide_acquire<R: Rows>(rows: &R, session: SessionId, job: JobId) -> Ruling
    ensures answer { answer_of result ≡
        judge_acquire (R.site rows.now) (R.state rows.now) session job }
    ensures changes { IfOk result (λ v. v.changes ≡ plan_acquire (R.state rows.now) session job) }
{
    let owner = requester(rows, session)?;
    let row = job_at(rows, job)?;
    let kept = record_of(rows, job)?;
    of_requester(owner, row)?;
    ensure!(kept.phase != Phase::Over, wrong_job(&kept));
    if let Some(full) = first_full(rows, job, row) {
        return Err(Refusal::SemaphoreFull(full));
    }
    plain(Changes {
        grows: Growth::Handles { job },
        ..made_by(session, Role::Requester(owner))
    })
}

/// How many of the nodes the session does not hold.
fn unheld<R: Rows>(rows: &R, session: SessionId, numbers: &NodeRow) -> usize
    ensures unheld { result ≡ unheld (R.state rows.now) session numbers.now }
    ensures few { result ≤ 32 }
{
    let _most = numbers.len();
    numbers
        .items()
        .iter()
        .filter(|n| !is_named(session, node_holder(rows, **n)))
        .count()
}

/// The nodes as marks of a job that is done with none of them.
fn unended_marks(nodes: &[NodeId]) -> MarkRow
    requires { length nodes.now ≤ 32 }
    ensures { result ≡ map unended nodes.now }
{
    let mut row = MarkRow::new();
    for node in nodes {
        let _room = row.push(Marked {
            node: *node,
            ended: false,
        });
    }
    row
}

/// The requester takes over the nodes of its fulfilled request.
pub fn decide_take<R: Rows>(rows: &R, session: SessionId, job: JobId) -> Ruling
    requires { Fits (R.site rows.now) (R.state rows.now) }
    ensures answer { answer_of result ≡
        judge_take (R.site rows.now) (R.state rows.now) session job }
    ensures changes { IfOk result (λ v. v.changes ≡ plan_take (R.state rows.now) session job) }
{
    let owner = requester(rows, session)?;
    let row = job_at(rows, job)?;
    let kept = record_of(rows, job)?;
    of_requester(owner, row)?;
    ensure!(kept.phase == Phase::Asked, wrong_job(&kept));
    let request = request_of(&kept)?;
    let asked = request_at(rows, request)?;
    if asked.state != RequestState::Fulfilled {
        return Err(wrong_request(&asked));
    }
    none_missing(unheld(rows, session, &asked.nodes))?;
    none_missing(missing_handles(rows, job, row))?;
    let _most = asked.nodes.len();
    plain(Changes {
        requests: RequestsChange::Remove { request },
        nodes: NodesChange::TakeOver { nodes: asked.nodes },
        jobs: JobsChange::Put {
            job,
            kept: JobRecord {
                nodes: unended_marks(asked.nodes.items()),
                phase: Phase::Using,
                pool: asked.pool,
                ..kept
            },
        },
        ..made_by(session, Role::Requester(owner))
    })
}

fn role_of<R: Rows>(rows: &R, session: SessionId) -> Option<Role>
    ensures { result ≡ role_of session (R.state rows.now) }
{
    match rows.session(session) {
        None => None,
        Some(facts) => Some(facts.role),
    }
}

/// Whether the node is in use, and held by a session of the requester.
fn is_busy_with<R: Rows>(rows: &R, requester: RequesterId, node: NodeId) -> bool
    ensures { result ≡ is_busy_with requester (R.state rows.now) node }
{
    let Some(kept) = rows.node(node) else {
        return false;
    };
    if kept.state != NodeState::InUse {
        return false;
    }
    let Some(holder) = node_holder(rows, node) else {
        return false;
    };
    is_requester(requester, role_of(rows, holder))
}

fn is_any_busy<R: Rows>(rows: &R, requester: RequesterId, nodes: &[Marked]) -> bool
    ensures { result ≡ list_any (λ m. is_busy_with requester (R.state rows.now) m.node) nodes.now }
{
    nodes.iter().any(|m| is_busy_with(rows, requester, m.node))
}

fn has_failed_request<R: Rows>(rows: &R, kept: &JobRecord) -> bool
    ensures { result ≡ has_failed_request (R.state rows.now) kept.now }
{
    let Some(request) = kept.request else {
        return false;
    };
    matches!(rows.asked(request), Some(asked) if asked.state == RequestState::Failed)
}

/// Whether the job is asked and its request failed, or using and done with each of its nodes.
fn is_finishable<R: Rows>(rows: &R, job: &Job, kept: &JobRecord) -> bool
    ensures { result ≡ is_finishable (R.state rows.now) job.now kept.now }
{
    if kept.phase == Phase::Asked && has_failed_request(rows, kept) {
        return true;
    }
    kept.phase == Phase::Using && !is_any_busy(rows, job.requester, kept.nodes.items())
}

fn requester_or_janitor(role: Role) -> Result<(), Refusal>
    ensures { result ≡ requester_or_janitor role }
{
    match role {
        Role::Launcher(_) | Role::Reaper => Err(Refusal::WrongRole),
        Role::Janitor(_) | Role::Requester(_) => Ok(()),
    }
}

/// A requester may finish its own job, a janitor one that was left alone.
fn may_finish<L: Look>(look: &L, job: &Job, role: Role) -> Result<(), Refusal>
    ensures { result ≡ may_finish (L.state look.now) job.now role }
{
    let own = match role {
        Role::Launcher(_) | Role::Reaper => return Err(Refusal::WrongRole),
        Role::Janitor(_) => !look.has_live_session(job.requester),
        Role::Requester(requester) => job.requester.0 == requester.0,
    };
    if own { Ok(()) } else { Err(Refusal::NotOwner) }
}

fn are_ended(nodes: &[Marked]) -> bool
    ensures { result ≡ list_all (λ m. m.ended) nodes.now }
{
    nodes.iter().all(|m| m.ended)
}

/// How a job ends that is finished now.
fn ending_of(kept: &JobRecord) -> Ending
    ensures { result ≡ ending_of kept.now }
{
    if kept.phase == Phase::Asked {
        return Ending::Failed;
    }
    if are_ended(kept.nodes.items()) {
        Ending::Served
    } else {
        Ending::Lost
    }
}

/// The job is over; a janitor finishes it if its requester has no session left.
pub fn decide_finish<L: Look>(look: &L, session: SessionId, job: JobId) -> Ruling
    ensures answer { answer_of result ≡
        judge_finish (L.site look.now) (L.state look.now) session job }
    ensures changes { IfOk result (λ v. v.changes ≡ plan_finish (L.state look.now) session job) }
{
    let rows = look.rows();
    let role = maker(rows, session)?;
    requester_or_janitor(role)?;
    let row = job_at(rows, job)?;
    let kept = record_of(rows, job)?;
    may_finish(look, row, role)?;
    ensure!(is_finishable(rows, row, &kept), wrong_job(&kept));
    let ending = ending_of(&kept);
    Ok(Verdict {
        done: Done::Ended(ending),
        changes: Changes {
            jobs: JobsChange::Put {
                job,
                kept: JobRecord {
                    ending: Some(ending),
                    phase: Phase::Over,
                    ..kept
                },
            },
            ..made_by(session, role)
        },
    })
}

/// The request is removed, if there is one.
fn request_after_withdraw(request: Option<RequestId>) -> RequestsChange
    ensures { result ≡ request_after_withdraw request }
{
    match request {
        None => RequestsChange::Same,
        Some(request) => RequestsChange::Remove { request },
    }
}

/// The requester gives its job up before it has nodes.
pub fn decide_withdraw<R: Rows>(rows: &R, session: SessionId, job: JobId) -> Ruling
    ensures answer { answer_of result ≡
        judge_withdraw (R.site rows.now) (R.state rows.now) session job }
    ensures changes { IfOk result (λ v. v.changes ≡ plan_withdraw (R.state rows.now) session job) }
{
    let owner = requester(rows, session)?;
    let row = job_at(rows, job)?;
    let kept = record_of(rows, job)?;
    of_requester(owner, row)?;
    if kept.phase != Phase::New && kept.phase != Phase::Asked {
        return Err(wrong_job(&kept));
    }
    plain(Changes {
        requests: request_after_withdraw(kept.request),
        jobs: JobsChange::Put {
            job,
            kept: JobRecord {
                ending: Some(Ending::Withdrawn),
                phase: Phase::Over,
                ..kept
            },
        },
        ..made_by(session, Role::Requester(owner))
    })
}

/// A requester may release the handles of its own job, a janitor those of any job.
fn may_release(job: &Job, role: Role) -> Result<(), Refusal>
    ensures { result ≡ may_release job.now role }
{
    match role {
        Role::Launcher(_) | Role::Reaper => Err(Refusal::WrongRole),
        Role::Janitor(_) => Ok(()),
        Role::Requester(requester) => of_requester(requester, job),
    }
}

/// The job's handles are given back.
pub fn decide_release<R: Rows>(rows: &R, session: SessionId, job: JobId) -> Ruling
    ensures answer { answer_of result ≡
        judge_release (R.site rows.now) (R.state rows.now) session job }
    ensures changes { IfOk result (λ v. v.changes ≡ plan_release (R.state rows.now) session job) }
{
    let role = maker(rows, session)?;
    requester_or_janitor(role)?;
    let row = job_at(rows, job)?;
    let kept = record_of(rows, job)?;
    may_release(row, role)?;
    ensure!(kept.phase == Phase::Over, wrong_job(&kept));
    plain(Changes {
        handles: HandlesChange::Release { job },
        ..made_by(session, role)
    })
}
