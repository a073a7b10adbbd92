//! What is said of a pool and of its nodes.

ghost use Rattle.std.specs.Prelude.{◌≡◌};
ghost use Rattle.np_causes.specs.Lower.{Fits};
ghost use Rattle.np_causes.specs.Fact.{Tells, allocation_of};
ghost use Rattle.np_causes.specs.declared.fact.Thing.TheVariants as thing;

use crate::fact::{Fact, Thing};
use np_look::{Look, Rows, node_holder};
use np_text::{NodeId, PoolId, RequestId};

/// Who launches for the pool.
pub(crate) fn fact_of_pool<R: Rows>(rows: &R, pool: PoolId) -> Fact
    ensures { Tells (R.site rows.now) (R.state rows.now) (thing.Pool pool) result }
{
    match rows.registration(pool) {
        None => Fact::Unregistered { pool },
        Some(session) => Fact::Registered { pool, session },
    }
}

/// Whether the pool's launcher is at work on a request.
pub(crate) fn fact_of_work<L: Look>(look: &L, pool: PoolId) -> Fact
    ensures { Tells (L.site look.now) (L.state look.now) (thing.Work pool) result }
{
    if look.has_request_under_way(pool) {
        Fact::Busy { pool }
    } else {
        Fact::Idle { pool }
    }
}

/// What the pool uses.
pub(crate) fn fact_of_room<L: Look>(look: &L, pool: PoolId) -> Fact
    requires { Fits (L.site look.now) (L.state look.now) }
    ensures { Tells (L.site look.now) (L.state look.now) (thing.Room pool) result }
{
    Fact::PoolUses {
        pool,
        used: look.used(pool),
    }
}

/// In which state the node is.
pub(crate) fn fact_of_node<R: Rows>(rows: &R, node: NodeId) -> Fact
    ensures { Tells (R.site rows.now) (R.state rows.now) (thing.Node node) result }
{
    match rows.node(node) {
        None => Fact::Missing {
            thing: Thing::Node(node),
        },
        Some(kept) => Fact::Stands {
            node,
            state: kept.state,
            attempts: kept.attempts,
        },
    }
}

/// Who holds the node.
pub(crate) fn fact_of_lock<R: Rows>(rows: &R, node: NodeId) -> Fact
    ensures { Tells (R.site rows.now) (R.state rows.now) (thing.Lock node) result }
{
    match node_holder(rows, node) {
        None => Fact::Unheld { node },
        Some(session) => Fact::Held { node, session },
    }
}

/// The request that the node is allocated to.
fn allocation_of<R: Rows>(rows: &R, node: NodeId) -> Option<RequestId>
    ensures { result ≡ allocation_of node (R.state rows.now) }
{
    rows.node(node)?.allocated_to
}

/// Whose node it is.
pub(crate) fn fact_of_owner<L: Look>(look: &L, node: NodeId) -> Fact
    ensures { Tells (L.site look.now) (L.state look.now) (thing.Owner node) result }
{
    if let Some(job) = look.owner(node) {
        return Fact::Owned { node, job };
    }
    match allocation_of(look.rows(), node) {
        None => Fact::Free { node },
        Some(request) => Fact::Allocated { node, request },
    }
}
