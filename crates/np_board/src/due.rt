//! What the turns read of a state.

ghost use Rattle.std.specs.Prelude.{◌≡◌, false, true, IfSome, None};
ghost use Rattle.np_board.specs.Lower.{NodeId, is_server, is_session_of, is_swept, is_wanted, node_holder, node_in};
ghost use Rattle.np_board.specs.Outstanding.{is_due};

use np_look::{Look, Rows, node_holder};
use np_record::NodeRecord;
use np_text::{NodeId, NodeState, PoolId, SessionId};

/// Whether the option names this session.
fn is_session_of(session: SessionId, found: Option<SessionId>) -> bool
    ensures { result ≡ is_session_of session found }
{
    match found {
        None => false,
        Some(other) => session.0 == other.0,
    }
}

/// The node's record.
pub(crate) fn node<L: Look>(look: &L, node: NodeId) -> Option<NodeRecord>
    ensures { result ≡ node_in node (L.state look.now).nodes }
{
    look.rows().node(node)
}

/// Who holds the node.
fn holder<L: Look>(look: &L, node: NodeId) -> Option<SessionId>
    ensures { result ≡ node_holder node (L.state look.now).nodes }
{
    node_holder(look.rows(), node)
}

/// Whether the server of the node was swept.
pub(crate) fn was_swept<L: Look>(look: &L, node: NodeId, server: u64) -> bool
    ensures { result ≡ is_swept node server (L.state look.now).swept }
{
    look.rows().swept(node, server)
}

/// Whether the node is there, is of the pool and is being deleted, and is held by the session.
fn is_due<L: Look>(look: &L, pool: PoolId, session: SessionId, id: NodeId) -> bool
    ensures { result ≡ is_due pool session id (L.state look.now) }
{
    match node(look, id) {
        None => false,
        Some(kept) => {
            kept.pool.0 == pool.0
                && kept.state == NodeState::Deleting
                && is_session_of(session, holder(look, id))
        }
    }
}

/// The first node of the pool that is being deleted and held by the session. It looks at each node
/// in whose queue the session is, up to that one, or at all of them if there is none.
pub(crate) fn due_node<L: Look>(look: &L, pool: PoolId, session: SessionId) -> Option<NodeId>
    ensures some { IfSome result (λ n. is_due pool session n (L.state look.now) ≡ true) }
    ensures none { result ≡ None
        → (n : NodeId) → is_due pool session n (L.state look.now) ≡ false }
{
    for at in 0..look.queued_nodes(session) {
        let Some(node) = look.queued_node_at(session, at) else {
            return None;
        };
        if is_due(look, pool, session, node) {
            return Some(node);
        }
    }
    None
}

fn is_server(server: u64, found: Option<u64>) -> bool
    ensures { result ≡ is_server server found }
{
    match found {
        None => false,
        Some(other) => other == server,
    }
}

/// Whether the node is there, and is building or has this server.
pub(crate) fn is_wanted<L: Look>(look: &L, id: NodeId, server: u64) -> bool
    ensures { result ≡ is_wanted (L.state look.now) id server }
{
    match node(look, id) {
        None => false,
        Some(kept) => kept.state == NodeState::Building || is_server(server, kept.server),
    }
}
