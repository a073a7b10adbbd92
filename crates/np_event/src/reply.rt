//! What the machine answers.

use np_text::{
    Ending, LabelId, NodeId, NodeState, Phase, RequestId, RequestState, SemId, SessionId,
};

/// The answer to an accepted event.
#[derive(Clone, Copy)]
pub enum Done {
    Plain,
    /// The session that was opened.
    Session(SessionId),
    /// The request that was made.
    Request(RequestId),
    /// The node that was made.
    Node(NodeId),
    /// Which attempt of the node this launch is, and which start of its pool.
    Started { attempt: u8, start: u32 },
    /// The maker is first in the queue.
    Held,
    /// How many sessions are before the maker in the queue.
    Queued { ahead: u32 },
    /// The server is still wanted.
    Keep,
    /// Nobody wants the server.
    Remove,
    /// How the job ended.
    Ended(Ending),
}

/// The state that a refusal found.
#[derive(Clone, Copy)]
pub enum Found {
    Request(RequestState),
    Node(NodeState),
    /// A building node with a launch running.
    InFlight,
    Job(Phase),
}

/// A refusal, by the first test that failed.
#[derive(Clone, Copy)]
pub enum Refusal {
    NoSession,
    Expired,
    Crashed,
    WrongRole,
    NoRequest,
    NoNode,
    NoJob,
    NotOwner,
    NotRegistered,
    /// Who is registered.
    Taken(SessionId),
    /// Who holds the lock.
    Busy(SessionId),
    NotHeld,
    /// The state found.
    WrongState(Found),
    Declined,
    /// The first request.
    NotFirst(RequestId),
    FalseReason,
    /// The label.
    NoLabel(LabelId),
    NeverFits,
    /// The pool's current count.
    QuotaShort {
        instances: u64,
        cores: u64,
        ram: u64,
    },
    /// To which request.
    Allocated(RequestId),
    /// The node's attempts.
    WrongAttempt(u8),
    /// How many are missing.
    NotAll(u32),
    /// The first full one in the job's order.
    SemaphoreFull(SemId),
    /// The first due tick, 0 for never.
    NotDue(u32),
    /// How many there are.
    Enough(u32),
    Spent,
    /// The journal has no room. Never recorded.
    Full,
    /// The current count of the job's tenant.
    TenantShort {
        instances: u64,
        cores: u64,
        ram: u64,
    },
    TenantNeverFits,
}

/// The answer to an event.
#[derive(Clone, Copy)]
pub enum Reply {
    Done(Done),
    Refused(Refusal),
}
