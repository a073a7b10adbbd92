//! Requests and nodes as a row reads them, and the kinds of nodes that nobody holds.

use np_record::{NodeRecord, RequestRecord};
use np_text::{NodeId, RequestId, SessionId};

/// A request at its place, with who holds it.
#[derive(Clone, Copy)]
pub struct RequestView {
    pub id: RequestId,
    pub kept: RequestRecord,
    pub holder: Option<SessionId>,
}

/// A node at its place, with who holds it.
#[derive(Clone, Copy)]
pub struct NodeView {
    pub id: NodeId,
    pub kept: NodeRecord,
    pub holder: Option<SessionId>,
}

/// Of which kind a node is that nobody holds, by what a janitor looks at before it takes the node.
#[derive(Clone, Copy)]
pub enum UnheldKind {
    /// Ready, and allocated to no request.
    Free,
    /// Ready, and allocated to a request that is gone.
    LeftOver,
    /// On hold.
    Hold,
    /// Building, in use, used, deleting or failed.
    Abandoned,
}
