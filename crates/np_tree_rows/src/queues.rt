//! The queues that a session is in, as a tree has them.

ghost use Rattle.std.specs.Prelude.{◌≡◌, length, slice_get, option_and_then};
ghost use Rattle.np_tree_rows.specs.Lower.{Configuration, IsStored, State, is_owner, list_any, queued_nodes, queued_requests, rows_at, tree_session};
ghost use Rattle.np_tree_rows.specs.Rows.{node_if_queued, request_if_queued};

use crate::directory::{children, waits_at};
use crate::node_table::node_at;
use crate::request_table::request_at;
use np_layout::{PathText, Place};
use np_text::{NodeId, RequestId, SessionId};
use np_tree::Tree;

/// In how many requests' queues the session is. The cost grows with the number of requests and with
/// the lengths of their queues.
pub(crate) fn queued_requests(tree: &Tree, session: SessionId) -> u32
    ensures { (c : Configuration) (s : State) → IsStored c s tree.now →
        result ≡ length (queued_requests session s) }
{
    let mut count = 0;
    for at in 0..children(tree, PathText::of(Place::Requests).text()) {
        let Some(_) = queued_request(tree, session, at) else {
            continue;
        };
        count += 1;
    }
    count
}

/// The request at a place among those in whose queues the session is, by priority and then
/// sequence. The cost grows with the number of requests up to that one and with the lengths of
/// their queues.
pub(crate) fn queued_request_at(tree: &Tree, session: SessionId, at: u32) -> Option<RequestId>
    ensures { (c : Configuration) (s : State) → IsStored c s tree.now →
        result ≡ slice_get (queued_requests session s) at }
{
    let mut left = at;
    for place in 0..children(tree, PathText::of(Place::Requests).text()) {
        let Some(request) = queued_request(tree, session, place) else {
            continue;
        };
        if left == 0 {
            return Some(request);
        }
        left -= 1;
    }
    None
}

/// In how many nodes' queues the session is. The cost grows with the number of nodes and with the
/// lengths of their queues.
pub(crate) fn queued_nodes(tree: &Tree, session: SessionId) -> u32
    ensures { (c : Configuration) (s : State) → IsStored c s tree.now →
        result ≡ length (queued_nodes session s) }
{
    let mut count = 0;
    for at in 0..children(tree, PathText::of(Place::Nodes).text()) {
        let Some(_) = queued_node(tree, session, at) else {
            continue;
        };
        count += 1;
    }
    count
}

/// The node at a place among those in whose queues the session is, by number. The cost grows with
/// the number of nodes up to that one and with the lengths of their queues.
pub(crate) fn queued_node_at(tree: &Tree, session: SessionId, at: u32) -> Option<NodeId>
    ensures { (c : Configuration) (s : State) → IsStored c s tree.now →
        result ≡ slice_get (queued_nodes session s) at }
{
    let mut left = at;
    for place in 0..children(tree, PathText::of(Place::Nodes).text()) {
        let Some(node) = queued_node(tree, session, place) else {
            continue;
        };
        if left == 0 {
            return Some(node);
        }
        left -= 1;
    }
    None
}

/// The request at a place among all, if the session is in its queue.
fn queued_request(tree: &Tree, session: SessionId, at: u32) -> Option<RequestId>
    ensures { (c : Configuration) (s : State) → IsStored c s tree.now →
        result ≡ option_and_then (request_if_queued session) (slice_get s.requests at) }
{
    let request = request_at(tree, at)?;
    let lock = PathText::of(Place::RequestLock(request));
    if waits(tree, lock.text(), session) {
        Some(request)
    } else {
        None
    }
}

/// The node at a place among all, if the session is in its queue.
fn queued_node(tree: &Tree, session: SessionId, at: u32) -> Option<NodeId>
    ensures { (c : Configuration) (s : State) → IsStored c s tree.now →
        result ≡ option_and_then (node_if_queued session) (slice_get s.nodes at) }
{
    let node = node_at(tree, at)?;
    let lock = PathText::of(Place::NodeLock(node));
    if waits(tree, lock.text(), session) {
        Some(node)
    } else {
        None
    }
}

/// Whether the session waits at the lock. Reads the waits from the first one up to the session's.
fn waits(tree: &Tree, lock: &str, session: SessionId) -> bool
    ensures { result ≡
        list_any (λ row. is_owner (tree_session session) row.owner) (rows_at tree.now lock.now) }
{
    for at in 0..children(tree, lock) {
        if waits_at(tree, lock, session, at) {
            return true;
        }
    }
    false
}
