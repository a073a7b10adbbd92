//! The numbers in changes are within their types, and the paths in parts are in the grammar. The
//! functions do nothing: a caller's proof takes the facts from them.

ghost use Rattle.std.specs.Prelude.{◌≡◌, true};
ghost use Rattle.np_keeper.specs.Lower.{AllByRecursion, IsPart, IsTyped, IsTypedEdit, IsTypedGrowth, IsTypedNodes, IsTypedRequests, is_numbered, list_all};

use np_changes::{Changes, Growth, NodesChange, RequestEdit, RequestsChange};
use np_tree_nodes::Op;

/// The number in an edit is within its type.
fn edit_is_in_range(change: RequestEdit)
    ensures { IsTypedEdit change }
{
    match change {
        RequestEdit::Decline {
            pool: _,
            reason: _,
            failed: _,
        } => {}
        RequestEdit::Revise { relative: _ } => {}
        _ => {}
    }
}

/// So are those in a change of requests.
fn requests_are_in_range(change: RequestsChange)
    ensures { IsTypedRequests change }
{
    if let RequestsChange::Edit { request: _, edit } = change {
        edit_is_in_range(edit);
    }
}

/// So are those in a change of nodes.
fn nodes_are_in_range(change: NodesChange)
    ensures { IsTypedNodes change }
{
    match change {
        NodesChange::Put { node: _, kept: _ } => {}
        _ => {}
    }
}

/// So are those in what grows.
fn growth_is_in_range(grows: Growth)
    ensures { IsTypedGrowth grows }
{
    match grows {
        Growth::Swept { node: _, server: _ } => {}
        _ => {}
    }
}

/// So are all numbers in changes.
pub(crate) fn changes_are_in_range(changes: &Changes)
    ensures { IsTyped changes.now }
{
    growth_is_in_range(changes.grows);
    requests_are_in_range(changes.requests);
    nodes_are_in_range(changes.nodes);
}

/// Each part is one that can be requested of a tree.
pub(crate) fn parts_are_proper(parts: &[Op])
    requires { list_all is_numbered parts.now ≡ true }
    ensures { AllByRecursion IsPart parts.now }
{
    for part in parts {
        let _ = part.path().text();
    }
}
