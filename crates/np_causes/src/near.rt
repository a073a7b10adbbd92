//! What is said of the requests that the launchers of a provider work on.

ghost use Rattle.std.specs.Prelude.{◌≡◌, ◌||◌, ◌≤◌, cond, Some, slice_get, map};
ghost use Rattle.np_causes.specs.Lower.{concurrency_of, has_turn_left, is_held_near, is_served_near, is_sister, is_sister_launcher, provider_of, request_seen, requests_near};
ghost use Rattle.np_causes.specs.Fact.{Tells};
ghost use Rattle.np_causes.specs.Explains.{if_near, is_near};
ghost use Rattle.np_causes.specs.declared.fact.Thing.TheVariants as thing;

use crate::fact::{Fact, Thing};
use crate::names::Place;
use np_config::Config;
use np_look::{RequestView, Rows};
use np_text::{PoolId, RequestState, Role};

/// The provider of the pool, by its place.
fn provider_of(config: &Config, pool: PoolId) -> Option<u16>
    ensures { result ≡ provider_of config.now pool }
{
    match config.pool(pool) {
        None => None,
        Some(row) => Some(row.provider),
    }
}

/// Whether both pools belong to one provider.
fn is_sister(config: &Config, pool: PoolId, other: PoolId) -> bool
    ensures { result ≡ is_sister config.now pool other }
{
    let Some(own) = provider_of(config, pool) else {
        return false;
    };
    match provider_of(config, other) {
        None => false,
        Some(of) => of == own,
    }
}

/// How many requests the launchers of the pool's provider may work on, if that is limited.
fn concurrency_of(config: &Config, pool: PoolId) -> Option<u32>
    ensures { result ≡ concurrency_of config.now pool }
{
    match provider_of(config, pool) {
        None => None,
        Some(place) => match config.provider(place) {
            None => None,
            Some(provider) => provider.concurrency,
        },
    }
}

/// Whether the role is a launcher of the pool's provider.
fn is_sister_launcher(config: &Config, pool: PoolId, role: Role) -> bool
    ensures { result ≡ is_sister_launcher config.now pool role }
{
    match role {
        Role::Launcher(other) => is_sister(config, pool, other),
        Role::Janitor(_) | Role::Requester(_) | Role::Reaper => false,
    }
}

/// Whether the request is pending, and a pool of the provider serves it.
fn is_served_near(config: &Config, pool: PoolId, view: &RequestView) -> bool
    ensures { result ≡ is_served_near config.now pool (request_seen view.now) }
{
    let near = match view.kept.pool {
        None => false,
        Some(other) => is_sister(config, pool, other),
    };
    view.kept.state == RequestState::Pending && near
}

/// Whether a session of a launcher of the provider holds the request.
fn is_held_near<R: Rows>(rows: &R, pool: PoolId, view: &RequestView) -> bool
    ensures { result
        ≡ is_held_near (R.site rows.now) (R.state rows.now) pool (request_seen view.now) }
{
    let Some(session) = view.holder else {
        return false;
    };
    match rows.session(session) {
        None => false,
        Some(facts) => is_sister_launcher(rows.config(), pool, facts.role),
    }
}

/// Whether the launchers of the provider work on the request.
fn is_near<R: Rows>(rows: &R, pool: PoolId, view: &RequestView) -> bool
    ensures { result ≡ is_near (R.site rows.now) (R.state rows.now) pool (request_seen view.now) }
{
    let served = is_served_near(rows.config(), pool, view);
    let held = is_held_near(rows, pool, view);
    served || held
}

fn one_if(holds: bool) -> u32
    ensures one { result ≡ cond holds 1 0 }
    ensures few { result ≤ 1 }
{
    if holds { 1 } else { 0 }
}

/// On how many requests the launchers of the pool's provider work.
fn requests_near<R: Rows>(rows: &R, pool: PoolId) -> u32
    ensures { result ≡ requests_near (R.site rows.now) (R.state rows.now) pool }
{
    let mut count = 0;
    for at in 0..rows.requests() {
        let Some(view) = rows.request_view(at) else {
            return 0;
        };
        count += one_if(is_near(rows, pool, &view));
    }
    count
}

/// Whether the launchers of the pool's provider may take up one more request.
pub(crate) fn fact_of_concurrency<R: Rows>(rows: &R, pool: PoolId) -> Fact
    ensures { Tells (R.site rows.now) (R.state rows.now) (thing.Concurrency pool) result }
{
    match concurrency_of(rows.config(), pool) {
        None => Fact::HasTurn { pool },
        Some(most) => {
            if requests_near(rows, pool) < most {
                Fact::HasTurn { pool }
            } else {
                Fact::NoTurn { pool, most }
            }
        }
    }
}

/// The request, if the launchers of the pool's provider work on it.
fn if_near<R: Rows>(rows: &R, pool: PoolId, view: &RequestView) -> Place
    ensures { result ≡ if_near (R.site rows.now) (R.state rows.now) pool (request_seen view.now) }
{
    if is_near(rows, pool, view) {
        Some(Thing::Request(view.id))
    } else {
        None
    }
}

/// The request at a place of all, if the launchers of the pool's provider work on it.
pub(crate) fn request_near<R: Rows>(rows: &R, pool: PoolId, at: u32) -> Option<Place>
    ensures { result ≡ slice_get
        (map (if_near (R.site rows.now) (R.state rows.now) pool) (R.state rows.now).requests) at }
{
    match rows.request_view(at) {
        None => None,
        Some(view) => Some(if_near(rows, pool, &view)),
    }
}
