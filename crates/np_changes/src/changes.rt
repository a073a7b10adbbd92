//! What an accepted event changes, as data: one thing that may take memory, and what may not fail.

use crate::asked::Asked;
use np_record::{JobRecord, NodeRecord, NodeRow};
use np_text::{JobId, NodeId, PoolId, Reason, RequestId, Role, SessionId, TenantId};

/// The session that makes an event, with its role.
#[derive(Clone, Copy)]
pub struct Maker {
    pub session: SessionId,
    pub role: Role,
}

/// The one change that may take memory.
#[derive(Clone, Copy)]
pub enum Growth {
    Nothing,
    /// A session of the role begins.
    Session {
        role: Role,
    },
    /// The maker registers for the pool.
    Registration {
        pool: PoolId,
    },
    /// A request of the next number, which nobody holds.
    Request {
        priority: u16,
        asked: Asked,
    },
    /// A node of the next number, which the maker holds.
    Node {
        kept: NodeRecord,
    },
    /// The maker joins the request's queue.
    JoinRequest {
        request: RequestId,
    },
    /// The maker joins the node's queue.
    JoinNode {
        node: NodeId,
    },
    /// The node is allocated to the request, for the tenant of its job, and the maker joins its
    /// queue.
    Allocate {
        node: NodeId,
        request: RequestId,
        tenant: Option<TenantId>,
    },
    /// The job takes a handle of each of its semaphores.
    Handles {
        job: JobId,
    },
    /// The server was swept.
    Swept {
        node: NodeId,
        server: u64,
    },
}

/// What happens to one request's record.
#[derive(Clone, Copy)]
pub enum RequestEdit {
    /// The pool serves it: pending.
    Serve {
        pool: PoolId,
    },
    /// One more node.
    AddNode {
        node: NodeId,
    },
    /// The pool declines it, and it has no pool and no nodes: failed, or requested again.
    Decline {
        pool: PoolId,
        reason: Reason,
        failed: bool,
    },
    /// Fulfilled.
    Fulfil,
    /// It has no pool and no nodes: requested again.
    GiveBack,
    /// Failed.
    Fail,
    /// Another relative priority.
    Revise {
        relative: u32,
    },
}

/// What happens to the requests.
#[derive(Clone, Copy)]
pub enum RequestsChange {
    Same,
    Edit {
        request: RequestId,
        edit: RequestEdit,
    },
    Remove {
        request: RequestId,
    },
    /// The maker leaves the request's queue.
    Leave {
        request: RequestId,
    },
}

/// What happens to the nodes.
#[derive(Clone, Copy)]
pub enum NodesChange {
    Same,
    /// Another record of the node.
    Put { node: NodeId, kept: NodeRecord },
    Remove { node: NodeId },
    /// The maker leaves the node's queue.
    Leave { node: NodeId },
    /// Every node that is allocated to the request is free.
    FreeAll { request: RequestId },
    /// The nodes are in use from this tick.
    TakeOver { nodes: NodeRow },
}

/// What happens to the jobs.
#[derive(Clone, Copy)]
pub enum JobsChange {
    Same,
    /// Another record of the job.
    Put { job: JobId, kept: JobRecord },
    /// The node is marked ended in the job.
    EndNode { job: JobId, node: NodeId },
}

/// What happens to the handles of semaphores.
#[derive(Clone, Copy)]
pub enum HandlesChange {
    Same,
    /// The job gives all its handles back.
    Release { job: JobId },
}

/// What is counted in one role's record.
#[derive(Clone, Copy)]
pub enum Deed {
    /// One more act of the maker's role.
    Acts,
    /// One more start and one more act of the pool's launcher.
    StartsAndActs { pool: PoolId },
    /// One more strike against the role, unless it was counted.
    Strikes { role: Role, counted: bool },
}

/// What happens to one session.
#[derive(Clone, Copy)]
pub enum SessionsChange {
    Same,
    /// It makes no more events.
    Mute { session: SessionId },
    /// It ends, and leaves its registration and every queue.
    End { session: SessionId },
}

/// What an accepted event changes: first what may take memory, and then what may not fail.
#[derive(Clone, Copy)]
pub struct Changes {
    /// Who makes the event; a tick, an opening, a crash and an expiry have no maker.
    pub maker: Option<Maker>,
    pub grows: Growth,
    pub requests: RequestsChange,
    pub nodes: NodesChange,
    pub jobs: JobsChange,
    pub handles: HandlesChange,
    pub deed: Option<Deed>,
    pub sessions: SessionsChange,
    /// Whether a tick passes.
    pub ticks: bool,
}

/// Nothing at all.
pub const SAME: Changes = Changes {
    maker: None,
    grows: Growth::Nothing,
    requests: RequestsChange::Same,
    nodes: NodesChange::Same,
    jobs: JobsChange::Same,
    handles: HandlesChange::Same,
    deed: None,
    sessions: SessionsChange::Same,
    ticks: false,
};
