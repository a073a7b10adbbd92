//! The launcher of a pool.

ghost use Rattle.std.specs.Prelude.{◌≡◌, ◌&&◌, true, not};
ghost use Rattle.np_launch.specs.Lower.{Chooses, ChoosesOf, Fits, IsReached, Launcher, Lock, Request, has_failed_node, is_by_registrant, is_current, is_role, may_take_ready, registered_row, request_is};
ghost use Rattle.np_launch.specs.Planned.{launcher_order, ChoosesComputed, ChoosesLaunched, ChoosesOfAnyKind};

use crate::computed::{ComputedKind, OfComputed, is_first_reason, may_take_ready};
use crate::request::is_done_with;
use crate::requests::is_to_launch;
use crate::rows::{is_node_done_with, is_planned_report, is_registrant, is_unfailed, may_take_up};
use np_event::Event;
use np_look::{Look, is_same_role};
use np_text::{PoolId, RequestId, Role, SessionId};
use np_useful::{
    EventKind, NodeKind, RequestKind, RoleRows, choose_opening, current_session, first_of_kind,
    first_that_passes, may_open, passes,
};

/// A kind of event of a launcher.
#[derive(Clone, Copy)]
enum LaunchKind {
    /// Names one request, node or job.
    Plain(EventKind),
    Computed(ComputedKind),
}

/// The kinds in the order of the crate's table.
const ORDER: [LaunchKind; 12] = [
    LaunchKind::Computed(ComputedKind::Register),
    LaunchKind::Computed(ComputedKind::Done),
    LaunchKind::Plain(EventKind::Request(RequestKind::Fulfil)),
    LaunchKind::Plain(EventKind::Node(NodeKind::Unlock)),
    LaunchKind::Plain(EventKind::Request(RequestKind::Unlock)),
    LaunchKind::Plain(EventKind::Node(NodeKind::Start)),
    LaunchKind::Computed(ComputedKind::TakeReady),
    LaunchKind::Plain(EventKind::Request(RequestKind::Create)),
    LaunchKind::Computed(ComputedKind::Decline),
    LaunchKind::Plain(EventKind::Request(RequestKind::Accept)),
    LaunchKind::Plain(EventKind::Request(RequestKind::Lock)),
    LaunchKind::Computed(ComputedKind::MinReady),
];

/// Whether a session that holds the registration may make the event, by the event's row.
fn is_registered_row<L: Look>(look: &L, pool: PoolId, event: Event) -> bool
    requires reached { IsReached (L.site look.now) (L.state look.now) }
    requires fits { Fits (L.site look.now) (L.state look.now) }
    ensures { result ≡ (is_by_registrant (L.state look.now) pool event
        && registered_row (L.site look.now) (L.state look.now) pool event) }
{
    let rows = look.rows();
    match event {
        Event::UnlockRequest { session, request } => {
            is_registrant(rows, pool, session) && is_done_with(look, pool, request)
        }
        Event::UnlockNode { session, node } => {
            is_registrant(rows, pool, session) && is_node_done_with(rows, pool, node)
        }
        Event::Accept { session, .. } => is_registrant(rows, pool, session),
        Event::Decline {
            session,
            request,
            reason,
        } => is_registrant(rows, pool, session) && is_first_reason(rows, pool, request, reason),
        Event::TakeReady {
            session,
            request,
            ..
        } => is_registrant(rows, pool, session) && is_unfailed(rows, request),
        Event::Create { session, request } => {
            is_registrant(rows, pool, session) && is_to_create(look, session, request)
        }
        Event::Start { session, node } => {
            is_registrant(rows, pool, session) && is_to_launch(rows, pool, node)
        }
        Event::Done {
            session,
            node,
            attempt,
            outcome,
        } => {
            is_registrant(rows, pool, session)
                && is_planned_report(rows, pool, node, attempt, outcome)
        }
        Event::Fulfil { session, .. } => is_registrant(rows, pool, session),
        Event::LockRequest { session, .. } => {
            is_registrant(rows, pool, session) && may_take_up(look, pool, session)
        }
        Event::MinReady { session, .. } => {
            is_registrant(rows, pool, session) && !look.is_paused(pool)
        }
        _ => false,
    }
}

/// Whether none of the request's nodes failed, and no ready node may be allocated to it.
fn is_to_create<L: Look>(look: &L, session: SessionId, request: RequestId) -> bool
    requires reached { IsReached (L.site look.now) (L.state look.now) }
    requires fits { Fits (L.site look.now) (L.state look.now) }
    ensures { result ≡ (request_is request (L.state look.now)
        (λ k. not (has_failed_node (L.state look.now) k))
        && not (may_take_ready (L.site look.now) (L.state look.now) session request)) }
{
    is_unfailed(look.rows(), request) && !may_take_ready(look, session, request)
}

/// The rows of a pool's launcher.
#[derive(Clone, Copy)]
pub(crate) struct LauncherRows {
    pub(crate) pool: PoolId,
}

impl RoleRows for LauncherRows {
    ghost role = { λ rows. Launcher rows.pool };

    ghost knows = { λ rows. IsReached };

    fn holds<L: Look>(&self, look: &L, event: Event) -> bool {
        match event {
            Event::OpenSession { role } => {
                is_same_role(role, Role::Launcher(self.pool)) && may_open(look, role)
            }
            Event::Register { .. } => true,
            other => is_registered_row(look, self.pool, other),
        }
    }
}

/// The first useful event of the kind, or `None` if and only if there is none.
fn first_of_computed<L: Look>(
    look: &L,
    rows: &LauncherRows,
    session: SessionId,
    kind: ComputedKind,
) -> Option<Event>
    requires reached { IsReached (L.site look.now) (L.state look.now) }
    requires fits { Fits (L.site look.now) (L.state look.now) }
    requires current { is_current (Launcher rows.now.pool) session (L.state look.now) ≡ true }
    ensures { ChoosesComputed (L.site look.now) (L.state look.now) rows.now.pool kind result }
{
    let pool = rows.pool;
    first_that_passes(
        look,
        rows,
        &OfComputed {
            pool,
            session,
            kind,
        },
    )
}

/// The lock of the first request that the pool's launcher may take up, if that is useful, or `None`
/// if and only if no lock of a request is useful: the machine accepts the lock of no other request.
/// It costs one search for that request, and the test of one event, whose judge makes the search
/// again.
fn first_lock<L: Look>(look: &L, rows: &LauncherRows, session: SessionId) -> Option<Event>
    requires reached { IsReached (L.site look.now) (L.state look.now) }
    requires fits { Fits (L.site look.now) (L.state look.now) }
    requires current { is_current (Launcher rows.now.pool) session (L.state look.now) ≡ true }
    ensures { ChoosesOf (L.site look.now) (L.state look.now) (Launcher rows.now.pool)
        (Request Lock) result }
{
    let Some(request) = look.first_of(rows.pool) else {
        return None;
    };
    let event = Event::LockRequest { session, request };
    if passes(look, rows, event) {
        Some(event)
    } else {
        None
    }
}

/// The first useful event of the kind, or `None` if and only if there is none.
fn first_launched<L: Look>(
    look: &L,
    rows: &LauncherRows,
    session: SessionId,
    kind: LaunchKind,
) -> Option<Event>
    requires reached { IsReached (L.site look.now) (L.state look.now) }
    requires fits { Fits (L.site look.now) (L.state look.now) }
    requires current { is_current (Launcher rows.now.pool) session (L.state look.now) ≡ true }
    ensures { ChoosesLaunched (L.site look.now) (L.state look.now) rows.now.pool kind result }
{
    match kind {
        LaunchKind::Plain(EventKind::Request(RequestKind::Lock)) => first_lock(look, rows, session),
        LaunchKind::Plain(plain) => first_of_kind(look, rows, session, plain),
        LaunchKind::Computed(computed) => first_of_computed(look, rows, session, computed),
    }
}

/// The first useful event of the first kind that has one, or `None` if and only if there is none.
fn first_of_any<L: Look>(
    look: &L,
    rows: &LauncherRows,
    session: SessionId,
    kinds: &[LaunchKind],
) -> Option<Event>
    requires reached { IsReached (L.site look.now) (L.state look.now) }
    requires fits { Fits (L.site look.now) (L.state look.now) }
    requires current { is_current (Launcher rows.now.pool) session (L.state look.now) ≡ true }
    ensures { ChoosesOfAnyKind (L.site look.now) (L.state look.now) rows.now.pool kinds.now result }
{
    for kind in kinds {
        let found = first_launched(look, rows, session, *kind);
        if found.is_some() {
            return found;
        }
    }
    None
}

/// A useful event of the pool's launcher, the first in the order of the crate's table, or `None` if
/// and only if there is none. Its cost grows with the number of requests and nodes in whose queues
/// the launcher's session is, and with the number of labels; if the launcher has no session, with
/// the number of sessions. It searches for the first open request, and tests the lock of that one.
/// For a lock that the machine accepts it asks one question about the requests that are pending by
/// the pool: whether one of them lacks a node. If the provider limits how many requests its
/// launchers work on, it looks up the pools of the configuration and the requests in whose queues
/// the registered sessions of the provider's pools are.
pub fn choose_launcher<L: Look>(look: &L, pool: PoolId) -> Option<Event>
    requires reached { IsReached (L.site look.now) (L.state look.now) }
    requires fits { Fits (L.site look.now) (L.state look.now) }
    requires pool { is_role (L.site look.now) (Launcher pool) ≡ true }
    ensures { Chooses (L.site look.now) (L.state look.now) (Launcher pool) result }
{
    let Some(session) = current_session(look, Role::Launcher(pool)) else {
        return choose_opening(look, Role::Launcher(pool));
    };
    first_of_any(look, &LauncherRows { pool }, session, &ORDER)
}
