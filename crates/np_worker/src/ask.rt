//! What may be asked of a board, and what a turn at it answers.

use np_event::{Entry, Event};
use np_text::{NodeId, PoolId, Role};

/// What a party asks in a turn.
#[derive(Clone, Copy)]
pub enum Ask {
    /// The role makes a useful event, if it has one.
    Act(Role),
    /// The event happens.
    Do(Event),
    /// Which node of the pool is being deleted and held by the pool's janitor, so that its server
    /// has to be removed.
    Due(PoolId),
    /// Whether the server that was launched for the node is still wanted. The pool's janitor asks.
    Sweep {
        pool: PoolId,
        node: NodeId,
        server: u64,
    },
}

/// What a turn answers.
#[derive(Clone, Copy)]
pub enum Turn {
    /// What was recorded.
    Did(Entry),
    /// A node that is due, with its server if it has one.
    DueNode { node: NodeId, server: Option<u64> },
    /// The server was swept before.
    Swept,
    /// There is nothing to do.
    Idle,
    /// There is something to record, and the journal has no room.
    Full,
}
