//! Whether nothing is left to do.

ghost use Rattle.std.specs.Prelude.{◌≡◌, ◌↔◌, true};
ghost use Rattle.np_jobs.specs.Lower.{Fits, IsReached, IsSettled};
ghost use Rattle.np_jobs.specs.Steps.{IsIdle, IsPoolIdle, ArePoolsIdle, AreRequestersIdle};

use crate::choice::choose;
use np_look::{Look, Rows};
use np_text::{POOLS, PoolId, REQUESTERS, RequesterId, Role};

/// Whether the role has no useful event.
fn is_idle<L: Look>(look: &L, role: Role) -> bool
    requires reached { IsReached (L.site look.now) (L.state look.now) }
    requires fits { Fits (L.site look.now) (L.state look.now) }
    ensures { (result ≡ true) ↔ IsIdle (L.site look.now) (L.state look.now) role }
{
    choose(look, role).is_none()
}

/// Whether neither the pool's launcher nor its janitor has a useful event.
fn is_pool_idle<L: Look>(look: &L, pool: PoolId) -> bool
    requires reached { IsReached (L.site look.now) (L.state look.now) }
    requires fits { Fits (L.site look.now) (L.state look.now) }
    ensures { (result ≡ true) ↔ IsPoolIdle (L.site look.now) (L.state look.now) pool }
{
    is_idle(look, Role::Launcher(pool)) && is_idle(look, Role::Janitor(pool))
}

/// Whether no launcher and no janitor has a useful event.
fn are_pools_idle<L: Look>(look: &L) -> bool
    requires reached { IsReached (L.site look.now) (L.state look.now) }
    requires fits { Fits (L.site look.now) (L.state look.now) }
    ensures { (result ≡ true) ↔ ArePoolsIdle (L.site look.now) (L.state look.now) }
{
    for at in 0..POOLS as u16 {
        if !is_pool_idle(look, PoolId(at)) {
            return false;
        }
    }
    true
}

/// Whether no requester has a useful event.
fn are_requesters_idle<L: Look>(look: &L) -> bool
    requires reached { IsReached (L.site look.now) (L.state look.now) }
    requires fits { Fits (L.site look.now) (L.state look.now) }
    ensures { (result ≡ true) ↔ AreRequestersIdle (L.site look.now) (L.state look.now) }
{
    for at in 0..REQUESTERS as u16 {
        if !is_idle(look, Role::Requester(RequesterId(at))) {
            return false;
        }
    }
    true
}

/// Whether no role has a useful event. It takes no memory. It costs one choice for each role, up to
/// the first that has one: launchers and janitors by pool, then requesters, then the reaper.
pub fn is_settled<L: Look>(look: &L) -> bool
    requires reached { IsReached (L.site look.now) (L.state look.now) }
    requires fits { Fits (L.site look.now) (L.state look.now) }
    ensures { (result ≡ true) ↔ IsSettled (L.site look.now) (L.state look.now) }
{
    look.rows().config().know_soundness();
    are_pools_idle(look) && are_requesters_idle(look) && is_idle(look, Role::Reaper)
}
