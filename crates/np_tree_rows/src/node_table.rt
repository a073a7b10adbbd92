//! The nodes of a state, and the sessions that wait for each.

ghost use Rattle.std.specs.Prelude.{◌≡◌, length, slice_get};
ghost use Rattle.np_tree_rows.specs.Lower.{Configuration, IsStored, State, node_in, node_queue, node_view, option_map};

use crate::bytes::{bytes_at, count_at};
use crate::rows::{name_at, read_ten, waiting_at};
use np_layout::Place;
use np_look::NodeView;
use np_record::NodeRecord;
use np_spelling::Record;
use np_text::{NodeId, SessionId};
use np_tree::Tree;

/// How many nodes there are.
pub(crate) fn nodes(tree: &Tree) -> u32
    ensures { (c : Configuration) (s : State) → IsStored c s tree.now →
        result ≡ length s.nodes }
{
    count_at(tree, Place::Nodes)
}

/// The node at a place, by number. `None` past the last one.
pub(crate) fn node_at(tree: &Tree, at: u32) -> Option<NodeId>
    ensures { (c : Configuration) (s : State) → IsStored c s tree.now →
        result ≡ option_map (λ e. e.id) (slice_get s.nodes at) }
{
    let name = name_at(tree, Place::Nodes, at)?;
    let number = read_ten(name)?;
    Some(NodeId(number))
}

/// The node's record, whether it is spelled with a tenant or as before there were tenants. `None` if
/// there is no such node.
pub(crate) fn node(tree: &Tree, node: NodeId) -> Option<NodeRecord>
    ensures { (c : Configuration) (s : State) → IsStored c s tree.now →
        result ≡ node_in node s.nodes }
{
    let bytes = bytes_at(tree, Place::Node(node))?;
    match NodeRecord::read(bytes) {
        Ok(kept) => Some(kept),
        Err(_) => None,
    }
}

/// The session at a place of the node's queue; the one at 0 holds it. `None` past the queue's end,
/// or if there is no such node.
pub(crate) fn node_queue(tree: &Tree, node: NodeId, at: u32) -> Option<SessionId>
    ensures { (c : Configuration) (s : State) → IsStored c s tree.now →
        result ≡ slice_get (node_queue node s.nodes) at }
{
    waiting_at(tree, Place::NodeLock(node), at)
}

/// The node at a place, with its record and who holds it. `None` past the last one.
pub(crate) fn node_view(tree: &Tree, at: u32) -> Option<NodeView>
    ensures { (c : Configuration) (s : State) → IsStored c s tree.now →
        result ≡ option_map node_view (slice_get s.nodes at) }
{
    let id = node_at(tree, at)?;
    let kept = node(tree, id)?;
    let holder = node_queue(tree, id, 0);
    Some(NodeView { id, kept, holder })
}
