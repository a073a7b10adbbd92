//! Whether some request passes a test, and how many the launchers of a provider work on.

ghost use Rattle.std.specs.Prelude.{◌≡◌};
ghost use Rattle.np_launch.specs.Lower.{Fits, IsReached, has_turn_left, is_in_hand, is_to_launch, list_any, requests_near};

use crate::near::{concurrency_of, sister_requests};
use crate::request::{has_failed_node, is_in_hand, needs_launch, served_request};
use np_look::{Look, Rows};
use np_text::{NodeId, PoolId, SessionId};

/// Whether some request needs a launch of the node by the pool. This scans the requests up to the
/// first one that does.
fn has_pending_with<R: Rows>(rows: &R, pool: PoolId, node: NodeId) -> bool
    ensures { result ≡ is_to_launch pool (R.state rows.now) node }
{
    for at in 0..rows.requests() {
        let Some(view) = rows.request_view(at) else {
            return false;
        };
        if needs_launch(rows, pool, node, &view.kept) {
            return true;
        }
    }
    false
}

/// Whether the node is in the list of a request that the pool serves, and no node of that list
/// failed. Such a request is the one that the node is allocated to, so this costs one lookup of
/// each, and one of each node of the list. Only for a node that does not exist are the requests
/// scanned, since a pending request may list a node that was removed. The machine accepts no start
/// of such a node.
pub fn is_to_launch<R: Rows>(rows: &R, pool: PoolId, node: NodeId) -> bool
    requires { IsReached (R.site rows.now) (R.state rows.now) }
    ensures { result ≡ is_to_launch pool (R.state rows.now) node }
{
    let Some(kept) = rows.node(node) else {
        return has_pending_with(rows, pool, node);
    };
    match served_request(rows, pool, &kept) {
        None => false,
        Some(request) => !has_failed_node(rows, &request),
    }
}

/// Whether a request is requested, not declined by the pool, and held by the session. Such a
/// request is one of those in whose queues the session is, so only these are looked up.
pub fn has_request_in_hand<L: Look>(look: &L, pool: PoolId, session: SessionId) -> bool
    requires { IsReached (L.site look.now) (L.state look.now) }
    ensures { result ≡ list_any (is_in_hand pool session) (L.state look.now).requests }
{
    for at in 0..look.queued_requests(session) {
        let Some(request) = look.queued_request_at(session, at) else {
            return false;
        };
        if is_in_hand(look.rows(), pool, session, request) {
            return true;
        }
    }
    false
}

/// How many requests the launchers of the pool's provider work on. It costs one lookup of each pool
/// of the configuration, and for each pool of the provider one of each request in whose queue its
/// registered session is. No other request is looked up: in a state that a run reaches, a launcher
/// in the queue of a request is registered for its pool.
fn requests_near<L: Look>(look: &L, pool: PoolId) -> u32
    requires reached { IsReached (L.site look.now) (L.state look.now) }
    requires fits { Fits (L.site look.now) (L.state look.now) }
    ensures { result ≡ requests_near (L.site look.now) (L.state look.now) pool }
{
    let config = look.rows().config();
    config.know_soundness();
    let mut count = 0;
    let mut at = 0;
    while let Some(_) = config.pool(PoolId(at)) {
        count += sister_requests(look, pool, PoolId(at));
        at += 1;
    }
    count
}

/// Whether the launchers of the pool's provider may take up one more request. What they work on is
/// counted only if the provider has a limit.
pub fn has_turn_left<L: Look>(look: &L, pool: PoolId) -> bool
    requires reached { IsReached (L.site look.now) (L.state look.now) }
    requires fits { Fits (L.site look.now) (L.state look.now) }
    ensures { result ≡ has_turn_left (L.site look.now) (L.state look.now) pool }
{
    concurrency_of(look.rows().config(), pool).map_or(true, |most| requests_near(look, pool) < most)
}
