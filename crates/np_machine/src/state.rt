//! What the machine's lists hold.

use crate::queue::Queue;
use np_record::{NodeRecord, RequestRecord};
use np_text::{NodeId, PoolId, RequestId, Role, SessionId};

/// What is known of a session.
#[derive(Clone, Copy, PartialEq, Eq)]
pub struct SessionFacts {
    pub role: Role,
    /// Whether it has not expired.
    pub live: bool,
    /// Whether its party has stopped. A mute session makes no more events, and lives until it
    /// expires.
    pub mute: bool,
}

/// That a launcher's session is registered for its pool.
#[derive(Clone, Copy)]
pub struct Registration {
    pub pool: PoolId,
    pub session: SessionId,
}

/// A row with its lock's queue; the first of the queue holds it.
#[derive(Drop)]
pub struct Locked<I, K> {
    pub id: I,
    pub kept: K,
    pub queue: Queue<SessionId>,
}

/// A request with its lock's queue.
pub type RequestEntry = Locked<RequestId, RequestRecord>;
/// A node with its lock's queue.
pub type NodeEntry = Locked<NodeId, NodeRecord>;

/// A server that a janitor swept, and the node that it was launched for.
#[derive(Clone, Copy)]
pub struct Swept {
    pub node: NodeId,
    pub server: u64,
}
