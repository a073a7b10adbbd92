//! What is said of a request, and of the tenant that it waits for.

ghost use Rattle.std.specs.Prelude.{◌≡◌, ◌==◌, find};
ghost use Rattle.np_causes.specs.Lower.{Fits, is_stuck_at, same_request};
ghost use Rattle.np_causes.specs.Fact.{Tells};
ghost use Rattle.np_causes.specs.declared.fact.Thing.TheVariants as thing;

use crate::fact::{Fact, Thing};
use np_look::{Look, Rows, asked_of, lacks_room, request_holder};
use np_record::{Declined, RequestRecord};
use np_text::{LabelId, PoolId, RequestId, RequestState, TenantId};

/// What became of the request so far.
pub(crate) fn fact_of_request<R: Rows>(rows: &R, request: RequestId) -> Fact
    ensures { Tells (R.site rows.now) (R.state rows.now) (thing.Request request) result }
{
    let Some(asked) = rows.asked(request) else {
        return Fact::Missing {
            thing: Thing::Request(request),
        };
    };
    match asked.state {
        RequestState::Requested => match request_holder(rows, request) {
            None => Fact::Open { request },
            Some(session) => Fact::TakenUp { request, session },
        },
        RequestState::Pending => match request_holder(rows, request) {
            None => Fact::Abandoned { request },
            Some(session) => Fact::Served { request, session },
        },
        RequestState::Fulfilled => Fact::Fulfilled { request },
        RequestState::Failed => Fact::Failed { request },
    }
}

fn is_same(one: RequestId, other: RequestId) -> bool
    ensures { result ≡ same_request one other }
{
    one.priority == other.priority && one.seq == other.seq
}

/// The pool's decline.
fn decline_of(declines: &[Declined], pool: PoolId) -> Option<Declined>
    ensures { result ≡ find (λ d. d.pool.0 == pool.0) declines.now }
{
    declines.iter().copied().find(|d| d.pool.0 == pool.0)
}

/// What the pool, which has not declined the request, makes of it.
fn fact_of_place<L: Look>(look: &L, request: RequestId, pool: PoolId) -> Fact
    requires { Fits (L.site look.now) (L.state look.now) }
    ensures { Tells (L.site look.now) (L.state look.now) (thing.Offer request pool) result }
{
    match look.first_of(pool) {
        None => Fact::Closed { request, pool },
        Some(first) => {
            if is_same(first, request) {
                Fact::First { request, pool }
            } else {
                Fact::Behind {
                    request,
                    pool,
                    first,
                }
            }
        }
    }
}

/// What the pool makes of the request.
pub(crate) fn fact_of_offer<L: Look>(look: &L, request: RequestId, pool: PoolId) -> Fact
    requires { Fits (L.site look.now) (L.state look.now) }
    ensures { Tells (L.site look.now) (L.state look.now) (thing.Offer request pool) result }
{
    let Some(kept) = look.rows().request(request) else {
        return Fact::Missing {
            thing: Thing::Offer(request, pool),
        };
    };
    if let Some(decline) = decline_of(kept.declined.items(), pool) {
        return Fact::Declined {
            request,
            pool,
            reason: decline.reason,
        };
    }
    match look.blocking(pool, &asked_of(&kept)) {
        Some(tenant) => Fact::Blocked {
            request,
            pool,
            tenant,
        },
        None => fact_of_place(look, request, pool),
    }
}

/// Whether the pool has neither room for a node of the label nor a ready one for the request.
fn is_stuck_at<L: Look>(look: &L, pool: PoolId, kept: &RequestRecord, label: LabelId) -> bool
    requires { Fits (L.site look.now) (L.state look.now) }
    ensures { result ≡ is_stuck_at (L.site look.now) (L.state look.now) pool kept.now label }
{
    let used = look.used(pool);
    lacks_room(look.rows().config(), pool, label, used)
        && (kept.pinned.is_some() || !look.has_spare(pool, label))
}

/// What the request lacks for its next node.
pub(crate) fn fact_of_next<L: Look>(look: &L, request: RequestId) -> Fact
    requires { Fits (L.site look.now) (L.state look.now) }
    ensures { Tells (L.site look.now) (L.state look.now) (thing.Next request) result }
{
    let Some(kept) = look.rows().request(request) else {
        return Fact::Missing {
            thing: Thing::Next(request),
        };
    };
    let Some(label) = kept.labels.at(kept.nodes.len()) else {
        return Fact::Complete { request };
    };
    match kept.pool {
        None => Fact::Lacks { request, label },
        Some(pool) => {
            if is_stuck_at(look, pool, &kept, label) {
                Fact::NoRoom {
                    request,
                    pool,
                    label,
                }
            } else {
                Fact::Lacks { request, label }
            }
        }
    }
}

/// What the tenant uses.
pub(crate) fn fact_of_tenant<L: Look>(look: &L, tenant: TenantId) -> Fact
    requires { Fits (L.site look.now) (L.state look.now) }
    ensures { Tells (L.site look.now) (L.state look.now) (thing.Tenant tenant) result }
{
    Fact::TenantUses {
        tenant,
        used: look.used_by(tenant),
    }
}
