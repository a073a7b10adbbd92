//! What the walks of a reader check of each row. A representation that walks its own rows checks
//! the same.

ghost use Rattle.std.specs.Prelude.{◌≡◌, ◌<◌, ◌≤◌, ◌^◌, ◌&&◌, ◌||◌, ◌==◌, not, is_none, cond, false, Some, []};
ghost use Rattle.np_look.specs.Lower.{AmountFits, LabelId, amount_of, asked_of, comes_before, is_declined_by, is_failed, is_marked, is_min_ready_for, is_open_to, is_pending, is_pending_by, is_pinned_away, is_pool, is_ready, is_requested, is_requesters, is_spare, option_map_or, same_role, speaks_for};
ghost use Rattle.np_look.specs.Readers.{short_label, is_unfinished_job, is_unheld, is_unheld_pending, is_under_way_by, unheld_kind, same_kind, is_unheld_by, due_after, due_of};
ghost use Rattle.np_look.specs.Jobs.{is_job_to_finish_by, was_given, request_seen, node_seen, comes_first, is_sooner};

use crate::asked::{NodeView, RequestView, UnheldKind};
use crate::count::{lacks_room, ready_age};
use np_amount::Amount;
use np_changes::Asked;
use np_config::Config;
use np_machine::SessionFacts;
use np_record::{Declined, JobRecord, NodeRecord, RequestRecord};
use np_text::{
    JobId, LabelId, NodeId, NodeState, Phase, PoolId, RequestId, RequestState, RequesterId, Role,
    SessionId,
};

/// The request's record without its declines.
pub fn asked_of(kept: &RequestRecord) -> Asked
    ensures { result ≡ asked_of kept.now }
{
    Asked {
        job: kept.job,
        labels: kept.labels,
        nodes: kept.nodes,
        pinned: kept.pinned,
        pool: kept.pool,
        relative_priority: kept.relative_priority,
        state: kept.state,
    }
}

/// Whether the pool is among the declines.
pub fn is_declined_by(pool: PoolId, declined: &[Declined]) -> bool
    ensures { result ≡ is_declined_by pool declined.now }
{
    declined.iter().any(|d| d.pool.0 == pool.0)
}

fn names_pool(pool: PoolId, found: Option<PoolId>) -> bool
    ensures { result ≡ is_pool pool found }
{
    matches!(found, Some(other) if other.0 == pool.0)
}

/// Whether a request with this record and holder is requested, unlocked, not declined by the pool
/// and not pinned to another.
pub fn is_open_to(pool: PoolId, kept: &RequestRecord, holder: Option<SessionId>) -> bool
    ensures { result ≡
        (is_requested kept.now.state && is_none holder
        && not (is_declined_by pool kept.now.declined) && not (is_pinned_away pool kept.now)) }
{
    let elsewhere = matches!(kept.pinned, Some(other) if other.0 != pool.0);
    kept.state == RequestState::Requested
        && holder.is_none()
        && !is_declined_by(pool, kept.declined.items())
        && !elsewhere
}

/// Whether the first of two requests, each by its id and its record, comes before the other: by
/// priority, then relative priority, then sequence.
pub fn comes_before(
    id: RequestId,
    kept: &RequestRecord,
    other_id: RequestId,
    other: &RequestRecord,
) -> bool
    ensures { result ≡ comes_before (record { id = id; kept = kept.now; queue = [] })
        (record { id = other_id; kept = other.now; queue = [] }) }
{
    if id.priority != other_id.priority {
        return id.priority < other_id.priority;
    }
    if kept.relative_priority != other.relative_priority {
        return kept.relative_priority < other.relative_priority;
    }
    id.seq < other_id.seq
}

/// Whether it comes before the best so far.
fn comes_first(best: &Option<RequestView>, view: &RequestView) -> bool
    ensures { result ≡ comes_first best.now view.now }
{
    match best {
        None => true,
        Some(other) => comes_before(view.id, &view.kept, other.id, &other.kept),
    }
}

/// Whether the request is open to the pool and comes before the best so far.
pub fn is_better(pool: PoolId, best: &Option<RequestView>, view: &RequestView) -> bool
    ensures { result ≡
        (is_open_to pool (request_seen view.now) && comes_first best.now view.now) }
{
    is_open_to(pool, &view.kept, view.holder) && comes_first(best, view)
}

fn is_min_ready_for(label: LabelId, request: &RequestRecord) -> bool
    ensures { result ≡ is_min_ready_for label request.now }
{
    if request.pinned.is_none() {
        return false;
    }
    matches!(request.labels.at(0), Some(other) if other.0 == label.0)
}

/// Whether it is a failed min-ready request of the pool for the label.
pub fn is_spent_min_ready(pool: PoolId, label: LabelId, request: &RequestRecord) -> bool
    ensures { result ≡
        (is_failed request.now.state && is_pool pool request.now.pinned
        && is_min_ready_for label request.now) }
{
    request.state == RequestState::Failed
        && names_pool(pool, request.pinned)
        && is_min_ready_for(label, request)
}

/// Whether it is a min-ready request for the label that is requested or pending.
pub fn is_coming(label: LabelId, request: &RequestRecord) -> bool
    ensures { result ≡
        ((is_requested request.now.state || is_pending request.now.state)
        && is_min_ready_for label request.now) }
{
    (request.state == RequestState::Requested || request.state == RequestState::Pending)
        && is_min_ready_for(label, request)
}

/// Whether it is a ready node of the label that is allocated to no request.
pub fn is_free_ready(label: LabelId, node: &NodeRecord) -> bool
    ensures { result ≡
        (is_ready node.now.state && is_none node.now.allocated_to
        && (node.now.label.0 == label.0)) }
{
    node.state == NodeState::Ready && node.allocated_to.is_none() && node.label.0 == label.0
}

/// Whether it is a ready, free and unlocked node of the pool with the label.
pub fn is_spare(pool: PoolId, label: LabelId, view: &NodeView) -> bool
    ensures { result ≡ is_spare pool label (node_seen view.now) }
{
    view.kept.state == NodeState::Ready
        && view.kept.allocated_to.is_none()
        && view.holder.is_none()
        && view.kept.pool.0 == pool.0
        && view.kept.label.0 == label.0
}

/// Whether the request is pending and the pool serves it.
pub fn is_pending_by(pool: PoolId, request: &RequestRecord) -> bool
    ensures { result ≡ is_pending_by pool request.now }
{
    request.state == RequestState::Pending && names_pool(pool, request.pool)
}

/// Whether the request is pending, the pool serves it, and it lacks a node for one of its labels.
pub fn is_under_way_by(pool: PoolId, request: &RequestRecord) -> bool
    ensures { result ≡ is_under_way_by pool request.now }
{
    is_pending_by(pool, request) && request.labels.at(request.nodes.len()).is_some()
}

/// Whether the request is pending, the pool serves it, and nobody holds it.
pub fn is_unheld_pending(pool: PoolId, view: &RequestView) -> bool
    ensures { result ≡ is_unheld_pending pool (request_seen view.now) }
{
    is_pending_by(pool, &view.kept) && view.holder.is_none()
}

/// Whether the request is requested.
pub fn is_requested(request: &RequestRecord) -> bool
    ensures { result ≡ is_requested request.now.state }
{
    request.state == RequestState::Requested
}

/// Whether it is a node of the pool that nobody holds.
fn is_unheld(pool: PoolId, view: &NodeView) -> bool
    ensures { result ≡ is_unheld pool (node_seen view.now) }
{
    view.kept.pool.0 == pool.0 && view.holder.is_none()
}

/// Of which kind a node with this record is, by whether it is unclaimed: allocated to no request, or
/// to one that is gone. A ready node that a request claims is of no kind.
pub fn unheld_kind(unclaimed: bool, kept: &NodeRecord) -> Option<UnheldKind>
    ensures { result ≡ unheld_kind unclaimed kept.now }
{
    match kept.state {
        NodeState::Building | NodeState::InUse | NodeState::Used => Some(UnheldKind::Abandoned),
        NodeState::Deleting | NodeState::Failed => Some(UnheldKind::Abandoned),
        NodeState::Hold => Some(UnheldKind::Hold),
        NodeState::Ready if !unclaimed => None,
        NodeState::Ready if kept.allocated_to.is_none() => Some(UnheldKind::Free),
        NodeState::Ready => Some(UnheldKind::LeftOver),
    }
}

/// Whether both are the same kind.
fn is_same_kind(one: UnheldKind, other: UnheldKind) -> bool
    ensures { result ≡ same_kind one other }
{
    match (one, other) {
        (UnheldKind::Free, UnheldKind::Free) => true,
        (UnheldKind::LeftOver, UnheldKind::LeftOver) => true,
        (UnheldKind::Hold, UnheldKind::Hold) => true,
        (UnheldKind::Abandoned, UnheldKind::Abandoned) => true,
        _ => false,
    }
}

/// Whether it is a node of the pool that nobody holds and of this kind, by whether it is unclaimed.
fn is_unheld_by(pool: PoolId, kind: UnheldKind, unclaimed: bool, view: &NodeView) -> bool
    ensures { result ≡ is_unheld_by pool kind unclaimed (node_seen view.now) }
{
    matches!(unheld_kind(unclaimed, &view.kept), Some(of)
        if is_unheld(pool, view) && is_same_kind(kind, of))
}

/// After all ticks.
const NEVER: u64 = 8_589_934_592;

/// The first tick at which it is past the age, or `NEVER` if there is no age: 0 is no age.
fn due_after(age: u32, since: u32) -> u64
    ensures { result ≡ due_after age since }
{
    if age == 0 {
        return NEVER;
    }
    since as u64 + age as u64 + 1
}

/// The tick at which a node of the kind is due: when a free node is past its label's ready age, and
/// one on hold past the configuration's age; any other when its state began.
pub fn due_of(config: &Config, kind: UnheldKind, kept: &NodeRecord) -> u64
    ensures { result ≡ due_of config.now kind kept.now }
{
    match kind {
        UnheldKind::Free => due_after(ready_age(config, kept.label), kept.since),
        UnheldKind::Hold => due_after(config.max_hold_age(), kept.since),
        UnheldKind::LeftOver | UnheldKind::Abandoned => kept.since as u64,
    }
}

/// Whether it is due before the best so far.
fn is_sooner(config: &Config, kind: UnheldKind, best: &Option<NodeView>, view: &NodeView) -> bool
    ensures { result ≡ is_sooner config.now kind best.now view.now }
{
    match best {
        None => true,
        Some(other) => due_of(config, kind, &view.kept) < due_of(config, kind, &other.kept),
    }
}

/// Whether it is a node of the pool that nobody holds and of this kind, by whether it is unclaimed,
/// and due before the best so far.
pub fn is_sooner_unheld(
    config: &Config,
    pool: PoolId,
    kind: UnheldKind,
    unclaimed: bool,
    best: &Option<NodeView>,
    view: &NodeView,
) -> bool
    ensures { result ≡
        (is_unheld_by pool kind unclaimed (node_seen view.now)
        && is_sooner config.now kind best.now view.now) }
{
    is_unheld_by(pool, kind, unclaimed, view) && is_sooner(config, kind, best, view)
}

/// The next label of the request, if the pool serves it and has no room for a node of the label.
pub fn short_label(
    config: &Config,
    pool: PoolId,
    used: Amount,
    request: &RequestRecord,
) -> Option<LabelId>
    requires instances { used.instances < 2 ^ 63 }
    requires cores { used.cores < 2 ^ 63 }
    requires ram { used.ram < 2 ^ 63 }
    requires small { (l : LabelId) → AmountFits (amount_of config.now pool l) }
    ensures { result ≡ short_label config.now pool used request.now }
{
    if !is_pending_by(pool, request) {
        return None;
    }
    let label = request.labels.at(request.nodes.len())?;
    if lacks_room(config, pool, label, used) {
        Some(label)
    } else {
        None
    }
}

/// 1 if it is true.
pub fn one_if(holds: bool) -> u32
    ensures one { result ≡ cond holds 1 0 }
    ensures few { result ≤ 1 }
{
    if holds { 1 } else { 0 }
}

/// Whether the other pool is among the declines, or is this pool.
pub fn declines_or_is(pool: PoolId, other: PoolId, declined: &[Declined]) -> bool
    ensures { result ≡ (is_declined_by other declined.now || (pool.0 == other.0)) }
{
    is_declined_by(other, declined) || pool.0 == other.0
}

/// Whether it is a session of the requester that has not expired.
pub fn is_live_of(requester: RequesterId, facts: &SessionFacts) -> bool
    ensures { result ≡ (facts.now.live && is_requesters requester (Some facts.now.role)) }
{
    facts.live && is_requester(requester, Some(facts.role))
}

/// Whether the job has the node among its nodes.
pub fn is_marked(node: NodeId, job: &JobRecord) -> bool
    ensures { result ≡ is_marked node job.now }
{
    job.nodes.items().iter().any(|m| m.node.0 == node.0)
}

/// Whether the job is the requester's and not over.
pub fn is_unfinished_job(
    config: &Config,
    requester: RequesterId,
    job: JobId,
    kept: &JobRecord,
) -> bool
    ensures { result ≡ is_unfinished_job config.now requester job kept.now }
{
    matches!(config.job(job), Some(row)
        if row.requester.0 == requester.0 && kept.phase != Phase::Over)
}

/// Whether a job in this phase was given its nodes: it has asked for them, and its request, which
/// is in this state, is fulfilled.
pub fn was_given(phase: Phase, state: Option<RequestState>) -> bool
    ensures { result ≡ was_given phase state }
{
    phase == Phase::Asked && state == Some(RequestState::Fulfilled)
}

/// Whether the job is the requester's and uses its nodes, or has asked for them and its request,
/// which is in this state, failed.
pub fn is_job_to_finish(
    config: &Config,
    requester: RequesterId,
    job: JobId,
    kept: &JobRecord,
    state: Option<RequestState>,
) -> bool
    ensures { result ≡ is_job_to_finish_by config.now requester job kept.now state }
{
    matches!(config.job(job), Some(row)
        if row.requester.0 == requester.0
            && (kept.phase == Phase::Using
            || (kept.phase == Phase::Asked && state == Some(RequestState::Failed))))
}

/// Whether the role is this requester.
pub fn is_requester(requester: RequesterId, role: Option<Role>) -> bool
    ensures { result ≡ is_requesters requester role }
{
    matches!(role, Some(Role::Requester(other)) if other.0 == requester.0)
}

/// Whether both are the same role.
pub fn is_same_role(one: Role, other: Role) -> bool
    ensures { result ≡ same_role one other }
{
    match one {
        Role::Launcher(pool) => matches!(other, Role::Launcher(of) if pool.0 == of.0),
        Role::Janitor(pool) => matches!(other, Role::Janitor(of) if pool.0 == of.0),
        Role::Requester(requester) => matches!(other, Role::Requester(of) if requester.0 == of.0),
        Role::Reaper => matches!(other, Role::Reaper),
    }
}

/// Whether the session is live and mute.
pub fn is_mute(facts: &SessionFacts) -> bool
    ensures { result ≡ (facts.now.live && facts.now.mute) }
{
    facts.live && facts.mute
}

/// Whether it is a live session of the role that is not mute.
pub fn speaks_for(role: Role, facts: &SessionFacts) -> bool
    ensures { result ≡ speaks_for role facts.now }
{
    is_same_role(facts.role, role) && facts.live && !facts.mute
}
