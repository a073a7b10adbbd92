//! The requests and the nodes of a kind: how many requests are pending by a pool, the first of them
//! that nobody holds, and the node that is due first.

ghost use Rattle.std.specs.Prelude.{◌≡◌, length};
ghost use Rattle.np_index.specs.Lower.{AreClasses, Configuration, State, first_due, first_unheld_pending, pending_requests};
ghost use Rattle.np_index.specs.Index.{third_if};

use np_classes::{Classes, pending_group, unheld_group, unheld_pending_group};
use np_lists::Group;
use np_look::UnheldKind;
use np_text::{NodeId, PoolId, RequestId};

/// The number of requests that are pending by the pool. Two binary searches.
pub fn pending_requests(classes: &Classes, pool: PoolId) -> usize
    ensures { (c : Configuration) (s : State) → AreClasses c s classes.now →
        result ≡ length (pending_requests pool s) }
{
    classes.requests_in(pending_group(pool))
}

/// The first request, by priority and then sequence, that is pending by the pool and that nobody
/// holds; `None` if there is none. One binary search, however many requests there are.
pub fn first_unheld_pending(classes: &Classes, pool: PoolId) -> Option<RequestId>
    ensures { (c : Configuration) (s : State) → AreClasses c s classes.now →
        result ≡ first_unheld_pending pool s }
{
    classes.request_at(unheld_pending_group(pool), 0)
}

/// The third number of a group that was found, if its class and its other numbers are those of the
/// other.
pub(crate) fn third_if(other: Group, found: Option<Group>) -> Option<u64>
    ensures { result ≡ third_if other found }
{
    let found = found?;
    if found.class != other.class || found.first != other.first || found.second != other.second {
        return None;
    }
    Some(found.third)
}

/// The node of the pool that nobody holds and that is of this kind which is due first, and of
/// several the first by number; `None` if there is none. Two binary searches, however many nodes
/// there are.
pub fn first_due(classes: &Classes, pool: PoolId, kind: UnheldKind) -> Option<NodeId>
    ensures { (c : Configuration) (s : State) → AreClasses c s classes.now →
        result ≡ first_due c pool kind s }
{
    let first = unheld_group(pool, kind, 0);
    let due = third_if(first, classes.node_group_from(first))?;
    classes.node_at(unheld_group(pool, kind, due), 0)
}
