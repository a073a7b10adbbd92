//! The launchers of one provider, and the requests that they work on.

ghost use Rattle.std.specs.Prelude.{◌≡◌, ◌≤◌, cond};
ghost use Rattle.np_launch.specs.Lower.{Fits, concurrency_of, is_sister, provider_of, request_is};
ghost use Rattle.np_launch.specs.Computed.{is_served_by_sister, unserved_requests, launcher_requests, sister_requests};

use np_config::Config;
use np_look::{Look, Rows};
use np_text::{PoolId, RequestId, RequestState, SessionId};

/// The provider of the pool, by its place.
fn provider_of(config: &Config, pool: PoolId) -> Option<u16>
    ensures { result ≡ provider_of config.now pool }
{
    config.pool(pool).map(|row| row.provider)
}

/// Whether both pools belong to one provider.
fn is_sister(config: &Config, pool: PoolId, other: PoolId) -> bool
    ensures { result ≡ is_sister config.now pool other }
{
    let Some(own) = provider_of(config, pool) else {
        return false;
    };
    provider_of(config, other).is_some_and(|of| of == own)
}

/// Whether the request is pending, and a pool of the provider serves it. It costs one lookup.
fn is_served_by_sister<R: Rows>(rows: &R, pool: PoolId, request: RequestId) -> bool
    ensures { result ≡ request_is request (R.state rows.now)
        (is_served_by_sister (R.site rows.now) pool) }
{
    let Some(asked) = rows.asked(request) else {
        return false;
    };
    let near = match asked.pool {
        None => false,
        Some(other) => is_sister(rows.config(), pool, other),
    };
    asked.state == RequestState::Pending && near
}

/// 1 if it is true.
fn one_if(holds: bool) -> u32
    ensures one { result ≡ cond holds 1 0 }
    ensures few { result ≤ 1 }
{
    if holds { 1 } else { 0 }
}

/// How many requests have the session in their queues and are served by no pool of the provider. It
/// costs one lookup of each request in whose queue the session is.
fn unserved_requests<L: Look>(look: &L, pool: PoolId, session: SessionId) -> u32
    ensures { result ≡ unserved_requests (L.site look.now) (L.state look.now) pool session }
{
    let mut count = 0;
    for at in 0..look.queued_requests(session) {
        let Some(request) = look.queued_request_at(session, at) else {
            return 0;
        };
        count += one_if(!is_served_by_sister(look.rows(), pool, request));
    }
    count
}

/// How many requests the other pool serves, plus those in whose queues its registered session is
/// and that no pool of the provider serves.
fn launcher_requests<L: Look>(look: &L, pool: PoolId, other: PoolId) -> u32
    requires { Fits (L.site look.now) (L.state look.now) }
    ensures { result ≡ launcher_requests (L.site look.now) (L.state look.now) pool other }
{
    let pending = look.pending_requests(other);
    match look.rows().registration(other) {
        None => pending,
        Some(session) => pending + unserved_requests(look, pool, session),
    }
}

/// How many of the requests that the provider's launchers work on count at the other pool: none if
/// it is of another provider. Each request counts at one pool: the one that serves it, or else that
/// of the launcher that holds it.
pub(crate) fn sister_requests<L: Look>(look: &L, pool: PoolId, other: PoolId) -> u32
    requires { Fits (L.site look.now) (L.state look.now) }
    ensures { result ≡ sister_requests (L.site look.now) (L.state look.now) pool other }
{
    if is_sister(look.rows().config(), pool, other) {
        launcher_requests(look, pool, other)
    } else {
        0
    }
}

/// How many requests the launchers of the pool's provider may work on, if that is limited.
pub(crate) fn concurrency_of(config: &Config, pool: PoolId) -> Option<u32>
    ensures { result ≡ concurrency_of config.now pool }
{
    config.provider(provider_of(config, pool)?)?.concurrency
}
