//! The five records.

use crate::row::{Item, Row};
use np_text::{
    Ending, JOB_LABELS, JobId, LabelId, NodeId, NodeState, POOLS, Phase, PoolId, Reason, RequestId,
    RequestState, Role, TenantId,
};

/// That a pool declined a request, and why.
#[derive(Clone, Copy)]
pub struct Declined {
    pub pool: PoolId,
    pub reason: Reason,
}

/// A node of a job, and whether the requester is done with it.
#[derive(Clone, Copy)]
pub struct Marked {
    pub node: NodeId,
    pub ended: bool,
}

impl Item for LabelId {
    ghost blank = { record { 0 = 0 } };

    fn blank() -> LabelId {
        LabelId(0)
    }
}

impl Item for NodeId {
    ghost blank = { record { 0 = 0 } };

    fn blank() -> NodeId {
        NodeId(0)
    }
}

impl Item for Declined {
    ghost use Rattle.np_text.specs.declared.word.Reason.TheVariants.{NeverFits};

    ghost blank = { record { pool = record { 0 = 0 }; reason = NeverFits } };

    fn blank() -> Declined {
        Declined {
            pool: PoolId(0),
            reason: Reason::NeverFits,
        }
    }
}

impl Item for Marked {
    ghost use Rattle.std.specs.Prelude.{false};

    ghost blank = { record { node = record { 0 = 0 }; ended = false } };

    fn blank() -> Marked {
        Marked {
            node: NodeId(0),
            ended: false,
        }
    }
}

/// The labels of a request.
pub type LabelRow = Row<LabelId, JOB_LABELS>;
/// The nodes of a request.
pub type NodeRow = Row<NodeId, JOB_LABELS>;
/// The declines of a request, each pool's at most once.
pub type DeclineRow = Row<Declined, POOLS>;
/// The nodes of a job.
pub type MarkRow = Row<Marked, JOB_LABELS>;

/// A node request (Nodepool).
#[derive(Clone, Copy)]
pub struct RequestRecord {
    pub declined: DeclineRow,
    /// The job that asked, or `None` for a min-ready request.
    pub job: Option<JobId>,
    pub labels: LabelRow,
    /// The nodes that are to serve it, each at the place of its label.
    pub nodes: NodeRow,
    /// The pool that made a min-ready request; only this pool may serve it.
    pub pinned: Option<PoolId>,
    /// The pool that serves it, if and only if it is pending or fulfilled.
    pub pool: Option<PoolId>,
    pub relative_priority: u32,
    pub state: RequestState,
}

/// A node (Nodepool).
#[derive(Clone, Copy)]
pub struct NodeRecord {
    pub allocated_to: Option<RequestId>,
    /// How many launches were started.
    pub attempts: u8,
    /// Whether a launch is running.
    pub in_flight: bool,
    pub label: LabelId,
    pub pool: PoolId,
    /// The server that the last launch reported.
    pub server: Option<u64>,
    /// The tick of the last change of state that the node's age counts from.
    pub since: u32,
    /// Which start of its pool the last launch was; 0 before the first.
    pub start: u32,
    pub state: NodeState,
    /// The tenant whose job the node was given to, if any.
    pub tenant: Option<TenantId>,
}

/// A job.
#[derive(Clone, Copy)]
pub struct JobRecord {
    /// How it ended, if and only if it is over.
    pub ending: Option<Ending>,
    pub nodes: MarkRow,
    pub phase: Phase,
    /// The pool that served it, if it was ever using nodes.
    pub pool: Option<PoolId>,
    /// Its request, if it ever made one.
    pub request: Option<RequestId>,
}

/// What a launcher, a janitor or a requester has done.
#[derive(Clone, Copy)]
pub struct RoleRecord {
    /// How many of its events were accepted.
    pub acts: u32,
    /// How many launches its pool has started; 0 except for launchers.
    pub starts: u32,
    /// How many of its sessions crashed or expired.
    pub strikes: u32,
}

/// A session.
#[derive(Clone, Copy)]
pub struct SessionRecord {
    pub mute: bool,
    pub role: Role,
}
