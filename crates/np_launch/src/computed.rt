//! The events of a launcher that name something computed, as candidates.

ghost use Rattle.std.specs.Prelude.{◌≡◌, length, find};
ghost use Rattle.np_launch.specs.Lower.{Fits, IsReached, is_first_reason, is_spent, may_take_ready, new_record, request_is};
ghost use Rattle.np_launch.specs.Computed.{same_reason, is_reason, first_reason, pool_of, first_free, is_takable, first_takable, done_at, take_ready_at, decline_at, min_ready_at, computed_places, computed_at};

use crate::request::{is_served_by, is_spent, outcome_of};
use np_changes::Asked;
use np_config::Config;
use np_decision::decide;
use np_event::Event;
use np_look::{Look, Rows, first_unoffered, is_too_much, tenant_never_fits};
use np_text::{LabelId, NodeId, PoolId, Reason, RequestId, Role, SessionId};
use np_useful::Candidates;

/// A kind of event of a launcher that names something computed, or a label, or nothing.
#[derive(Clone, Copy)]
pub(crate) enum ComputedKind {
    Register,
    Done,
    TakeReady,
    Decline,
    MinReady,
}

/// Whether the session may allocate the ready node to the request.
fn is_takable<L: Look>(look: &L, session: SessionId, request: RequestId, node: NodeId) -> bool
    requires { Fits (L.site look.now) (L.state look.now) }
    ensures { result ≡ is_takable (L.site look.now) (L.state look.now) session request node }
{
    let event = Event::TakeReady {
        session,
        request,
        node,
    };
    decide(look, event).is_ok()
}

/// The pool of the launcher that the session belongs to.
fn pool_of<R: Rows>(rows: &R, session: SessionId) -> Option<PoolId>
    ensures { result ≡ pool_of (R.state rows.now) session }
{
    let facts = rows.session(session)?;
    match facts.role {
        Role::Launcher(pool) => Some(pool),
        Role::Janitor(_) | Role::Requester(_) | Role::Reaper => None,
    }
}

/// The first ready, free and unlocked node of the pool with the request's next label.
fn first_free<L: Look>(look: &L, request: RequestId, pool: PoolId) -> Option<NodeId>
    ensures { result ≡ first_free (L.state look.now) request pool }
{
    let asked = look.rows().asked(request)?;
    match asked.labels.at(asked.nodes.len()) {
        None => None,
        Some(label) => look.free_ready(pool, label, 0),
    }
}

/// The first node that the session may allocate to the request. The machine lets a launcher
/// allocate the ready, free and unlocked nodes of its pool and of the request's next label, and
/// what else it tests does not depend on the node. So only the first of these is tested, which one
/// reader finds.
fn first_takable<L: Look>(look: &L, session: SessionId, request: RequestId) -> Option<NodeId>
    requires { Fits (L.site look.now) (L.state look.now) }
    ensures { result ≡ first_takable (L.site look.now) (L.state look.now) session request }
{
    let pool = pool_of(look.rows(), session)?;
    let node = first_free(look, request, pool)?;
    is_takable(look, session, request, node).then_some(node)
}

/// Whether some ready node may be allocated to the request. It costs the test of one node.
pub(crate) fn may_take_ready<L: Look>(look: &L, session: SessionId, request: RequestId) -> bool
    requires reached { IsReached (L.site look.now) (L.state look.now) }
    requires fits { Fits (L.site look.now) (L.state look.now) }
    ensures { result ≡ may_take_ready (L.site look.now) (L.state look.now) session request }
{
    first_takable(look, session, request).is_some()
}

/// The first of the nodes that failed.
fn first_spent<R: Rows>(rows: &R, nodes: &[NodeId]) -> Option<NodeId>
    ensures { result ≡ find (λ m. is_spent m (R.state rows.now)) nodes.now }
{
    for node in nodes {
        if is_spent(rows, *node) {
            return Some(*node);
        }
    }
    None
}

/// The first reason why the pool would decline the request.
fn first_reason<R: Rows>(rows: &R, pool: PoolId, asked: &Asked) -> Option<Reason>
    requires { Fits (R.site rows.now) (R.state rows.now) }
    ensures { result ≡
        first_reason (R.site rows.now) (R.state rows.now) pool (new_record asked.now) }
{
    let _few = asked.labels.len();
    if let Some(label) = first_unoffered(rows.config(), pool, asked.labels.items()) {
        return Some(Reason::NoLabel(label));
    }
    if is_too_much(rows.config(), pool, asked.labels.items()) {
        return Some(Reason::NeverFits);
    }
    if tenant_never_fits(rows.config(), pool, asked) {
        return Some(Reason::TenantNeverFits);
    }
    first_spent(rows, asked.nodes.items()).map(|node| Reason::Spent(node))
}

/// Whether the reason is the first of the pool's for the request.
pub(crate) fn is_first_reason<R: Rows>(
    rows: &R,
    pool: PoolId,
    request: RequestId,
    reason: Reason,
) -> bool
    requires { Fits (R.site rows.now) (R.state rows.now) }
    ensures { result ≡ request_is request (R.state rows.now)
        (λ k. is_first_reason (R.site rows.now) (R.state rows.now) pool k reason) }
{
    match rows.asked(request) {
        None => false,
        Some(asked) => is_reason(reason, first_reason(rows, pool, &asked)),
    }
}

/// The simulated cloud's report on the last attempt of the node at a place, of the nodes in whose
/// queues the session is.
fn done_at<L: Look>(look: &L, pool: PoolId, session: SessionId, at: u32) -> Option<Event>
    ensures { result ≡ done_at (L.site look.now) (L.state look.now) pool session at }
{
    let rows = look.rows();
    let node = look.queued_node_at(session, at)?;
    let kept = rows.node(node)?;
    Some(Event::Done {
        session,
        node,
        attempt: kept.attempts,
        outcome: outcome_of(rows.config(), pool, kept.start),
    })
}

/// The request at a place, of those in whose queues the session is, with its first ready node, if
/// the pool serves it.
pub(crate) fn take_ready_at<L: Look>(
    look: &L,
    pool: PoolId,
    session: SessionId,
    at: u32,
) -> Option<Event>
    requires { Fits (L.site look.now) (L.state look.now) }
    ensures { result ≡ take_ready_at (L.site look.now) (L.state look.now) pool session at }
{
    let request = look.queued_request_at(session, at)?;
    let asked = look.rows().asked(request)?;
    if !is_served_by(pool, &asked) {
        return None;
    }
    let node = first_takable(look, session, request)?;
    Some(Event::TakeReady {
        session,
        request,
        node,
    })
}

/// The request at a place, of those in whose queues the session is, with its first reason.
pub(crate) fn decline_at<L: Look>(
    look: &L,
    pool: PoolId,
    session: SessionId,
    at: u32,
) -> Option<Event>
    requires { Fits (L.site look.now) (L.state look.now) }
    ensures { result ≡ decline_at (L.site look.now) (L.state look.now) pool session at }
{
    let rows = look.rows();
    let request = look.queued_request_at(session, at)?;
    let asked = rows.asked(request)?;
    let reason = first_reason(rows, pool, &asked)?;
    Some(Event::Decline {
        session,
        request,
        reason,
    })
}

/// Whether the reason is the one that was found.
fn is_reason(reason: Reason, found: Option<Reason>) -> bool
    ensures { result ≡ is_reason reason found }
{
    found.is_some_and(|other| is_same_reason(reason, other))
}

/// Whether both are the same reason.
fn is_same_reason(one: Reason, other: Reason) -> bool
    ensures { result ≡ same_reason one other }
{
    match one {
        Reason::NoLabel(label) => match other {
            Reason::NoLabel(of) => of.0 == label.0,
            Reason::NeverFits | Reason::TenantNeverFits | Reason::Spent(_) => false,
        },
        Reason::NeverFits => match other {
            Reason::NeverFits => true,
            Reason::NoLabel(_) | Reason::TenantNeverFits | Reason::Spent(_) => false,
        },
        Reason::TenantNeverFits => match other {
            Reason::TenantNeverFits => true,
            Reason::NoLabel(_) | Reason::NeverFits | Reason::Spent(_) => false,
        },
        Reason::Spent(node) => match other {
            Reason::Spent(of) => of.0 == node.0,
            Reason::NoLabel(_) | Reason::NeverFits | Reason::TenantNeverFits => false,
        },
    }
}

/// How many labels the configuration has.
fn label_count(config: &Config) -> u32
    ensures { result ≡ length config.now.labels }
{
    config.know_soundness();
    let mut at: u32 = 0;
    while at < 65536 {
        if config.label(LabelId(at as u16)).is_none() {
            return at;
        }
        at += 1;
    }
    at
}

/// The session's min-ready for the label at a place.
fn min_ready_at(config: &Config, session: SessionId, at: u32) -> Option<Event>
    ensures { result ≡ min_ready_at config.now session at }
{
    config.know_soundness();
    if at >= 65536 {
        return None;
    }
    let label = LabelId(at as u16);
    config
        .label(label)
        .map(|_| Event::MinReady { session, label })
}

/// The session's events of the kind, by place. The machine accepts a report, an allocation and a
/// decline only from the session that holds the node or the request, so only what the session
/// queues for is named.
#[derive(Clone, Copy)]
pub(crate) struct OfComputed {
    pub(crate) pool: PoolId,
    pub(crate) session: SessionId,
    pub(crate) kind: ComputedKind,
}

impl Candidates for OfComputed {
    ghost places = { λ of c s. computed_places c s of.session of.kind };

    ghost candidate = { λ of c s at. computed_at c s of.pool of.session of.kind at };

    fn places<L: Look>(&self, look: &L) -> u32 {
        match self.kind {
            ComputedKind::Register => 1,
            ComputedKind::Done => look.queued_nodes(self.session),
            ComputedKind::TakeReady | ComputedKind::Decline => {
                look.queued_requests(self.session)
            }
            ComputedKind::MinReady => label_count(look.rows().config()),
        }
    }

    fn candidate<L: Look>(&self, look: &L, at: u32) -> Option<Event> {
        let session = self.session;
        match self.kind {
            ComputedKind::Register => Some(Event::Register { session }),
            ComputedKind::Done => done_at(look, self.pool, session, at),
            ComputedKind::TakeReady => take_ready_at(look, self.pool, session, at),
            ComputedKind::Decline => decline_at(look, self.pool, session, at),
            ComputedKind::MinReady => min_ready_at(look.rows().config(), session, at),
        }
    }
}
