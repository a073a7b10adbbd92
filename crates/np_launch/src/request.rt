//! What a launcher tests of one request or node.

ghost use Rattle.std.specs.Prelude.{◌≡◌, ◌==◌, ◌&&◌, not};
ghost use Rattle.np_launch.specs.Lower.{Fits, fail_starts_of, has_failed_node, is_as_planned, is_done_with, is_listed, is_pending, is_pending_by, is_pool, is_spent, list_any, new_record, outcome_of, request_is, same_outcome};
ghost use Rattle.np_launch.specs.Planned.{served_request, is_in_hand_at};

use np_changes::Asked;
use np_config::Config;
use np_event::Outcome;
use np_look::{Look, Rows, request_holder};
use np_record::{NodeRecord, RequestRecord};
use np_text::{NodeId, NodeState, PoolId, RequestId, RequestState, SessionId};

/// Whether the request is pending, and this pool serves it.
pub fn is_pending_by(pool: PoolId, request: &RequestRecord) -> bool
    ensures { result ≡ is_pending_by pool request.now }
{
    is_pending_in(pool, request.state, request.pool)
}

/// Whether the request is pending, and this pool serves it. Its declines are not read.
pub(crate) fn is_served_by(pool: PoolId, asked: &Asked) -> bool
    ensures { result ≡ is_pending_by pool (new_record asked.now) }
{
    is_pending_in(pool, asked.state, asked.pool)
}

/// Whether a request in this state is pending, and the pool that serves it is this one.
fn is_pending_in(pool: PoolId, state: RequestState, server: Option<PoolId>) -> bool
    ensures { result ≡ (is_pending state && is_pool pool server) }
{
    let own = server.is_some_and(|other| other.0 == pool.0);
    state == RequestState::Pending && own
}

/// The request that the node is allocated to, if it is pending and this pool serves it. It costs
/// one lookup.
pub(crate) fn served_request<R: Rows>(
    rows: &R,
    pool: PoolId,
    node: &NodeRecord,
) -> Option<RequestRecord>
    ensures { result ≡ served_request pool (R.state rows.now) node.now }
{
    let request = node.allocated_to?;
    let kept = rows.request(request)?;
    is_pending_by(pool, &kept).then_some(kept)
}

/// Whether the node is in the request's list.
pub fn is_listed(node: NodeId, request: &RequestRecord) -> bool
    ensures { result ≡ is_listed node request.now }
{
    request.nodes.items().iter().any(|m| m.0 == node.0)
}

/// Whether the node exists and failed.
pub fn is_spent<R: Rows>(rows: &R, node: NodeId) -> bool
    ensures { result ≡ is_spent node (R.state rows.now) }
{
    rows.node(node)
        .is_some_and(|kept| kept.state == NodeState::Failed)
}

/// Whether a node of the request's list has no launch left.
pub fn has_failed_node<R: Rows>(rows: &R, request: &RequestRecord) -> bool
    ensures { result ≡ has_failed_node (R.state rows.now) request.now }
{
    request.nodes.items().iter().any(|n| is_spent(rows, *n))
}

/// Whether the request needs a launch of the node by the pool: the pool serves it, the node is in
/// its list, and no node of that list failed. It costs up to one lookup of each node of the list.
pub(crate) fn needs_launch<R: Rows>(
    rows: &R,
    pool: PoolId,
    node: NodeId,
    request: &RequestRecord,
) -> bool
    ensures { result ≡ (is_pending_by pool request.now && is_listed node request.now
        && not (has_failed_node (R.state rows.now) request.now)) }
{
    is_pending_by(pool, request) && is_listed(node, request) && !has_failed_node(rows, request)
}

/// Whether the request is requested, the pool has not declined it, and the session holds it. It
/// costs three lookups.
pub(crate) fn is_in_hand<R: Rows>(
    rows: &R,
    pool: PoolId,
    session: SessionId,
    request: RequestId,
) -> bool
    ensures { result ≡ is_in_hand_at pool session (R.state rows.now) request }
{
    let Some(asked) = rows.asked(request) else {
        return false;
    };
    let held = match request_holder(rows, request) {
        None => false,
        Some(other) => other.0 == session.0,
    };
    asked.state == RequestState::Requested && !rows.is_declined(request, pool) && held
}

/// Whether the request exists and is not pending, and the pool's launcher can do nothing with it.
pub fn is_done_with<L: Look>(look: &L, pool: PoolId, request: RequestId) -> bool
    requires { Fits (L.site look.now) (L.state look.now) }
    ensures { result ≡ request_is request (L.state look.now)
        (is_done_with (L.site look.now) (L.state look.now) pool) }
{
    let rows = look.rows();
    let Some(asked) = rows.asked(request) else {
        return false;
    };
    if asked.state == RequestState::Pending {
        return false;
    }
    asked.state != RequestState::Requested
        || rows.is_declined(request, pool)
        || look.blocking(pool, &asked).is_some()
}

/// Whether the pool's start with this number is planned to fail.
fn is_to_fail(config: &Config, pool: PoolId, start: u32) -> bool
    ensures { result ≡ list_any (λ k. k == start) (fail_starts_of config.now pool) }
{
    match config.pool(pool) {
        None => false,
        Some(row) => row.fail_starts.items().iter().any(|k| *k == start),
    }
}

/// What the simulated cloud reports on the pool's start with this number.
pub(crate) fn outcome_of(config: &Config, pool: PoolId, start: u32) -> Outcome
    ensures { result ≡ outcome_of config.now pool start }
{
    if is_to_fail(config, pool, start) {
        Outcome::Failed
    } else {
        Outcome::Launched(start as u64)
    }
}

fn is_same_outcome(one: Outcome, other: Outcome) -> bool
    ensures { result ≡ same_outcome one other }
{
    match one {
        Outcome::Launched(server) => match other {
            Outcome::Launched(of) => server == of,
            Outcome::Failed => false,
        },
        Outcome::Failed => match other {
            Outcome::Launched(_) => false,
            Outcome::Failed => true,
        },
    }
}

/// Whether it is the simulated cloud's report on the node's last attempt.
pub fn is_as_planned(
    config: &Config,
    pool: PoolId,
    attempt: u8,
    outcome: Outcome,
    node: &NodeRecord,
) -> bool
    ensures { result ≡ is_as_planned config.now pool attempt outcome node.now }
{
    node.attempts == attempt && is_same_outcome(outcome_of(config, pool, node.start), outcome)
}
