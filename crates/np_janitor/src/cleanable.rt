//! Which nodes a janitor removes or frees.

ghost use Rattle.std.specs.Prelude.{◌≡◌};
ghost use Rattle.np_janitor.specs.Lower.{Fits, is_cleanable, is_left_over, is_old_hold, is_old_ready, is_past, is_paused, is_to_go};

use np_look::{Look, Rows, is_unclaimed, ready_age};
use np_record::NodeRecord;
use np_text::{NodeState, PoolId};

/// A pool, with whether it is paused.
#[derive(Clone, Copy)]
pub(crate) struct PoolPause {
    pub(crate) pool: PoolId,
    pub(crate) paused: bool,
}

/// Whether a pool is paused. The pool whose pause is known costs nothing.
pub(crate) fn is_paused<L: Look>(look: &L, known: PoolPause, pool: PoolId) -> bool
    requires fits { Fits (L.site look.now) (L.state look.now) }
    requires known { known.paused ≡ is_paused (L.site look.now) (L.state look.now) known.pool }
    ensures { result ≡ is_paused (L.site look.now) (L.state look.now) pool }
{
    if pool.0 == known.pool.0 {
        return known.paused;
    }
    look.is_paused(pool)
}

/// Whether it is older than the age, if there is one; 0 is no age.
fn is_past(age: u32, since: u32, tick: u32) -> bool
    ensures { result ≡ is_past age since tick }
{
    age > 0 && tick.saturating_sub(since) > age
}

/// Whether it has been ready for longer than its label allows.
fn is_old_ready<R: Rows>(rows: &R, kept: &NodeRecord) -> bool
    ensures { result ≡ is_old_ready (R.site rows.now) (R.state rows.now) kept.now }
{
    is_past(
        ready_age(rows.config(), kept.label),
        kept.since,
        rows.tick(),
    )
}

/// Whether it was held for longer than the configuration allows.
fn is_old_hold<R: Rows>(rows: &R, kept: &NodeRecord) -> bool
    ensures { result ≡ is_old_hold (R.site rows.now) (R.state rows.now) kept.now }
{
    is_past(rows.config().max_hold_age(), kept.since, rows.tick())
}

/// Whether it is allocated to a request that no longer exists.
fn is_left_over<R: Rows>(rows: &R, kept: &NodeRecord) -> bool
    ensures { result ≡ is_left_over (R.state rows.now) kept.now }
{
    kept.allocated_to.is_some() && is_unclaimed(rows, kept)
}

/// Whether it is allocated to no request, and old or in a paused pool.
fn is_to_go<L: Look>(look: &L, known: PoolPause, kept: &NodeRecord) -> bool
    requires fits { Fits (L.site look.now) (L.state look.now) }
    requires known { known.paused ≡ is_paused (L.site look.now) (L.state look.now) known.pool }
    ensures { result ≡ is_to_go (L.site look.now) (L.state look.now) kept.now }
{
    kept.allocated_to.is_none()
        && (is_old_ready(look.rows(), kept) || is_paused(look, known, kept.pool))
}

/// Whether a janitor may remove or free the node if nobody holds it.
pub(crate) fn is_cleanable<L: Look>(look: &L, known: PoolPause, kept: &NodeRecord) -> bool
    requires fits { Fits (L.site look.now) (L.state look.now) }
    requires known { known.paused ≡ is_paused (L.site look.now) (L.state look.now) known.pool }
    ensures { result ≡ is_cleanable (L.site look.now) (L.state look.now) kept.now }
{
    let rows = look.rows();
    match kept.state {
        NodeState::Building | NodeState::InUse | NodeState::Used => true,
        NodeState::Deleting | NodeState::Failed => true,
        NodeState::Ready => is_left_over(rows, kept) || is_to_go(look, known, kept),
        NodeState::Hold => is_old_hold(rows, kept),
    }
}
