//! What may happen.

use np_text::{EndAs, JobId, LabelId, NodeId, Reason, RequestId, Role, SessionId};

/// What became of a launch.
#[derive(Clone, Copy)]
pub enum Outcome {
    /// The driver launched the server of this number.
    Launched(u64),
    Failed,
}

/// One event of the machine. All except `Tick`, `OpenSession`, `Crash` and `Expire` have a maker,
/// the session that they name first.
#[derive(Clone, Copy)]
pub enum Event {
    Tick,
    OpenSession {
        role: Role,
    },
    Crash {
        session: SessionId,
    },
    Expire {
        session: SessionId,
    },
    Register {
        session: SessionId,
    },
    Submit {
        session: SessionId,
        job: JobId,
    },
    Revise {
        session: SessionId,
        job: JobId,
        relative: u32,
    },
    MinReady {
        session: SessionId,
        label: LabelId,
    },
    LockRequest {
        session: SessionId,
        request: RequestId,
    },
    UnlockRequest {
        session: SessionId,
        request: RequestId,
    },
    Accept {
        session: SessionId,
        request: RequestId,
    },
    Decline {
        session: SessionId,
        request: RequestId,
        reason: Reason,
    },
    TakeReady {
        session: SessionId,
        request: RequestId,
        node: NodeId,
    },
    Create {
        session: SessionId,
        request: RequestId,
    },
    Start {
        session: SessionId,
        node: NodeId,
    },
    Done {
        session: SessionId,
        node: NodeId,
        attempt: u8,
        outcome: Outcome,
    },
    Fulfil {
        session: SessionId,
        request: RequestId,
    },
    LockNode {
        session: SessionId,
        node: NodeId,
    },
    UnlockNode {
        session: SessionId,
        node: NodeId,
    },
    Acquire {
        session: SessionId,
        job: JobId,
    },
    Take {
        session: SessionId,
        job: JobId,
    },
    EndNode {
        session: SessionId,
        node: NodeId,
        end: EndAs,
    },
    Finish {
        session: SessionId,
        job: JobId,
    },
    Withdraw {
        session: SessionId,
        job: JobId,
    },
    Release {
        session: SessionId,
        job: JobId,
    },
    MarkDeleting {
        session: SessionId,
        node: NodeId,
    },
    Gone {
        session: SessionId,
        node: NodeId,
    },
    Reset {
        session: SessionId,
        request: RequestId,
    },
    FreeNode {
        session: SessionId,
        node: NodeId,
    },
    FailDeclined {
        session: SessionId,
        request: RequestId,
    },
    Sweep {
        session: SessionId,
        node: NodeId,
        server: u64,
    },
}
