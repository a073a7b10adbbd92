//! Which nodes are for a requester, and how it leaves them.

ghost use Rattle.std.specs.Prelude.{◌≡◌, not};
ghost use Rattle.np_jobs.specs.Lower.{IsReached, is_for, is_in_use, is_left_as, node_is, same_end};

use np_look::{Look, Rows, is_given_to};
use np_text::{EndAs, NodeId, NodeState, RequesterId};

/// Whether the node is in the list of a fulfilled request of an asked job of the requester: whether
/// it was given to the requester. The node is then allocated to that request, so this costs one
/// lookup of each.
pub(crate) fn is_for<R: Rows>(rows: &R, requester: RequesterId, node: NodeId) -> bool
    requires { IsReached (R.site rows.now) (R.state rows.now) }
    ensures { result ≡ is_for (R.site rows.now) (R.state rows.now) requester node }
{
    match rows.node(node) {
        None => false,
        Some(kept) => is_given_to(rows, requester, &kept),
    }
}

/// Whether the node exists and is not in use.
pub(crate) fn is_idle<R: Rows>(rows: &R, node: NodeId) -> bool
    ensures { result ≡ node_is node (R.state rows.now) (λ k. not (is_in_use k.state)) }
{
    match rows.node(node) {
        None => false,
        Some(kept) => kept.state != NodeState::InUse,
    }
}

fn is_same_end(one: EndAs, other: EndAs) -> bool
    ensures { result ≡ same_end one other }
{
    match one {
        EndAs::Used => match other {
            EndAs::Used => true,
            EndAs::Hold => false,
        },
        EndAs::Hold => match other {
            EndAs::Used => false,
            EndAs::Hold => true,
        },
    }
}

/// Whether the job that has the node leaves its nodes this way. It asks the reader `owner` for that
/// job, which an index answers by one lookup.
#[tactic(auto, using(np_decision::proofs::OwnerLemmas::owner_at))]
pub(crate) fn is_left_as<L: Look>(look: &L, node: NodeId, end: EndAs) -> bool
    ensures { result ≡ is_left_as (L.site look.now) (L.state look.now) node end }
{
    let Some(job) = look.owner(node) else {
        return false;
    };
    let job = look.rows().config().job(job);
    job.is_some_and(|row| is_same_end(row.end, end))
}
