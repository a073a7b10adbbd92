//! The conditions of a launcher's rows.

ghost use Rattle.std.specs.Prelude.{◌≡◌, ◌&&◌, not};
ghost use Rattle.np_launch.specs.Lower.{Fits, IsReached, has_failed_node, has_turn_left, is_as_planned, is_in_hand, is_session_of, is_under_way, is_wanted_by, list_any, node_is, registered, request_is};

use crate::request::{has_failed_node, is_as_planned, served_request};
use crate::requests::{has_request_in_hand, has_turn_left};
use np_event::Outcome;
use np_look::{Look, Rows};
use np_text::{NodeId, PoolId, RequestId, SessionId};

/// Whether the session holds the registration of the pool.
pub fn is_registrant<R: Rows>(rows: &R, pool: PoolId, session: SessionId) -> bool
    ensures { result ≡ is_session_of session (registered pool (R.state rows.now).registrations) }
{
    rows.registration(pool)
        .is_some_and(|other| other.0 == session.0)
}

/// Whether the launcher is done with the node: no launch of it is running, and no request that the
/// pool serves needs it. Such a request is the one that the node is allocated to, so this costs one
/// lookup of each, however many requests there are.
pub fn is_node_done_with<R: Rows>(rows: &R, pool: PoolId, node: NodeId) -> bool
    requires { IsReached (R.site rows.now) (R.state rows.now) }
    ensures { result ≡
        (node_is node (R.state rows.now) (λ k. not k.in_flight)
        && not (is_wanted_by pool (R.state rows.now) node)) }
{
    let Some(kept) = rows.node(node) else {
        return false;
    };
    if kept.in_flight {
        return false;
    }
    served_request(rows, pool, &kept).is_none()
}

/// Whether the request exists, and none of its nodes failed.
pub fn is_unfailed<R: Rows>(rows: &R, request: RequestId) -> bool
    ensures { result ≡ request_is request (R.state rows.now)
        (λ kept. not (has_failed_node (R.state rows.now) kept)) }
{
    rows.request(request)
        .is_some_and(|kept| !has_failed_node(rows, &kept))
}

/// Whether it is the simulated cloud's report on the node's last attempt.
pub fn is_planned_report<R: Rows>(
    rows: &R,
    pool: PoolId,
    node: NodeId,
    attempt: u8,
    outcome: Outcome,
) -> bool
    ensures { result ≡ node_is node (R.state rows.now)
        (is_as_planned (R.site rows.now) pool attempt outcome) }
{
    rows.node(node).is_some_and(|kept| is_as_planned(rows.config(), pool, attempt, outcome, &kept))
}

/// Whether the launcher may take up another request: it has none under way and none in hand, and
/// the launchers of its provider may work on one more. It asks once whether a request that is
/// pending by the pool lacks a node, and looks up the requests in whose queues the session is. The
/// last test is made only if the others pass; if the provider has a limit, it looks up the pools of
/// the configuration and the requests in whose queues the registered sessions of the provider's
/// pools are.
pub fn may_take_up<L: Look>(look: &L, pool: PoolId, session: SessionId) -> bool
    requires reached { IsReached (L.site look.now) (L.state look.now) }
    requires fits { Fits (L.site look.now) (L.state look.now) }
    ensures { result ≡
        (not (list_any (is_under_way pool) (L.state look.now).requests)
        && not (list_any (is_in_hand pool session) (L.state look.now).requests)
        && has_turn_left (L.site look.now) (L.state look.now) pool) }
{
    !look.has_request_under_way(pool)
        && !has_request_in_hand(look, pool, session)
        && has_turn_left(look, pool)
}
